// A book of guests, which answers requests.
use sml_syntax::{NoMemory, Text};
use std::alloc::Global;
use web_messages::{Answerer, FormVars, Refusal, Reply, Request};

/// What answers: `/hello` is a fixed page, `/make` begins the book, `/add` adds the two values of a form, and `/list` shows
/// them. Any other path has no page.
#[derive(Drop)]
pub struct Guests {
    alloc: Global,
    rows: Vec<u8>,
}

impl Guests {
    pub fn make(alloc: Global) -> Guests {
        Guests {
            alloc,
            rows: Vec::new(alloc),
        }
    }

    fn reply(&self, status: u16, content_type: &[u8], body: &[u8]) -> Result<Reply, NoMemory> {
        Ok(Reply::Finished {
            status,
            ctype: Text::from_bytes(self.alloc, content_type)?,
            body: Text::from_bytes(self.alloc, body)?,
        })
    }

    fn page(&self, body: &[u8]) -> Result<Reply, NoMemory> {
        self.reply(200, b"text/html; charset=utf-8", body)
    }

    fn add(&mut self, form: &FormVars) -> Result<(), NoMemory> {
        if let [(_, name), (_, text)] = form.pairs.as_slice() {
            self.rows.extend_from_slice(b"<li>")?;
            self.rows.extend_from_slice(name.as_bytes())?;
            self.rows.extend_from_slice(b": ")?;
            self.rows.extend_from_slice(text.as_bytes())?;
            self.rows.extend_from_slice(b"</li>")?;
        }
        Ok(())
    }

    fn list(&self) -> Result<Reply, NoMemory> {
        let mut body = Vec::from_slice(self.alloc, b"<ul>")?;
        body.extend_from_slice(self.rows.as_slice())?;
        body.extend_from_slice(b"</ul>")?;
        self.page(body.as_slice())
    }

    fn find(&mut self, request: &Request) -> Result<Reply, NoMemory> {
        let path = request.path.as_bytes();
        if path == b"/hello".as_slice() {
            return self.page(b"<p>42</p>");
        }
        if path == b"/make".as_slice() {
            return self.page(b"made");
        }
        if path == b"/add".as_slice() {
            self.add(&request.form)?;
            return self.page(b"ok");
        }
        if path == b"/list".as_slice() {
            return self.list();
        }
        self.reply(404, b"text/plain; charset=utf-8", b"404 no script")
    }
}

impl Answerer for Guests {
    ghost answers = { λ _ _ _ _. Unit {0} };

    fn answer(&mut self, request: &Request) -> Reply {
        match self.find(request) {
            Ok(reply) => reply,
            Err(NoMemory) => Reply::Refused(Refusal::NoMemory),
        }
    }
}
