// Instructions on the page and on the form: a method each.
ghost use Rattle.std.specs.Prelude.{◌≡◌, ◌≤◌, ◌<◌, OnOk, vec_len};

use crate::Machine;
use kam_rows::Ended;
use kam_rows::form::{text_under, texts_under};
use kam_rows::laying::{lay_some, lay_text, lay_texts};
use kam_rows::reading::{append_text, text_size};
use kam_store::RegionStore;
use sml_syntax::Text;

// How many bytes a page may have.
const BODY_LIMIT: u64 = 4194304;

impl<'a, R: RegionStore> Machine<'a, R> {
    pub(crate) fn write_page(&mut self) -> Result<(), Ended>
        requires { 1 ≤ self.old.registers.left }
        ensures left { OnOk result (self.new.registers.left < self.old.registers.left) }
        ensures slots { vec_len self.new.stack ≡ vec_len self.old.stack }
    {
        let p = self.one()?;
        let size = text_size(&self.store, p)?;
        if size.saturating_add(self.page.body.len() as u64) > BODY_LIMIT {
            return Err(Ended::ReplyFull);
        }
        append_text(&mut self.page.body, &self.store, p)?;
        self.take(1);
        Ok(())
    }

    pub(crate) fn set_type(&mut self) -> Result<(), Ended>
        requires { 1 ≤ self.old.registers.left }
        ensures left { OnOk result (self.new.registers.left < self.old.registers.left) }
        ensures slots { vec_len self.new.stack ≡ vec_len self.old.stack }
    {
        let p = self.one()?;
        let text = self.text_of(p)?;
        if !is_content_type(text.as_slice()) {
            return self.fail(1, b"content type");
        }
        self.page.content_type = Some(Text::from_vec(text));
        self.take(1);
        Ok(())
    }

    pub(crate) fn set_status(&mut self) -> Result<(), Ended>
        requires { 1 ≤ self.old.registers.left }
        ensures left { OnOk result (self.new.registers.left < self.old.registers.left) }
        ensures slots { vec_len self.new.stack ≡ vec_len self.old.stack }
    {
        let n = self.one()?;
        let Some(status) = status_of(n) else {
            return self.fail(1, b"status");
        };
        self.page.status = status;
        self.take(1);
        Ok(())
    }

    pub(crate) fn form_first(&mut self) -> Result<(), Ended>
        requires { 1 ≤ self.old.registers.left }
        ensures left { OnOk result (self.new.registers.left < self.old.registers.left) }
        ensures slots { vec_len self.new.stack ≡ vec_len self.old.stack }
    {
        let (p, serial) = self.two()?;
        let name = self.text_of(p)?;
        let form = self.form;
        let Some(text) = text_under(form, name.as_slice()) else {
            self.put(2, 0);
            return Ok(());
        };
        let at = self.end_of(serial)?;
        let mut words = Vec::new(self.alloc);
        let argument = lay_text(&mut words, at, text.as_bytes())?;
        let word = lay_some(&mut words, at, argument)?;
        self.make_laid(2, serial, words.as_slice(), word)
    }

    pub(crate) fn form_all(&mut self) -> Result<(), Ended>
        requires { 1 ≤ self.old.registers.left }
        ensures left { OnOk result (self.new.registers.left < self.old.registers.left) }
        ensures slots { vec_len self.new.stack ≡ vec_len self.old.stack }
    {
        let (p, serial) = self.two()?;
        let name = self.text_of(p)?;
        let texts = texts_under(self.alloc, self.form, name.as_slice())?;
        if texts.is_empty() {
            self.put(2, 0);
            return Ok(());
        }
        let at = self.end_of(serial)?;
        let mut words = Vec::new(self.alloc);
        let word = lay_texts(self.alloc, &mut words, at, texts.as_slice())?;
        self.make_laid(2, serial, words.as_slice(), word)
    }
}

// 1 to 200 bytes from 32 to 126.
fn is_content_type(bytes: &[u8]) -> bool {
    let count = bytes.len();
    1 <= count && count <= 200 && bytes.iter().all(|b| matches!(*b, 32..=126))
}

// The status that a script may set.
fn status_of(n: u64) -> Option<u16> {
    match n {
        200 | 201 | 400 | 403 | 404 | 409 | 410 => Some(n as u16),
        _ => None,
    }
}
