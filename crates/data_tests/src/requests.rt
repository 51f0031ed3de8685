// A request, and a reply of each form.
use crate::copied::{Copied, are_copied, list, text};
use sml_syntax::NoMemory;
use std::alloc::Global;
use std::process::Abort;
use web_messages::{FormVars, Refusal, Reply, Request};

fn form(rt: &(impl Abort + AllocGlobal)) -> FormVars {
    FormVars {
        pairs: list(rt, [(text(rt, "name"), text(rt, "value"))]),
    }
}

pub(crate) fn are_requests_copied(rt: &(impl Abort + AllocGlobal)) {
    are_copied(rt, &[form(rt)]);
    let request = Request {
        path: text(rt, "/hello"),
        form: form(rt),
        closing: true,
    };
    are_copied(rt, &[request]);
}

const REFUSALS: [Refusal; 8] = [
    Refusal::Pages,
    Refusal::DatabaseFault,
    Refusal::DatabaseStatement(4),
    Refusal::Budget,
    Refusal::Stack,
    Refusal::ReplyFull,
    Refusal::Caches,
    Refusal::NoMemory,
];

pub(crate) fn are_replies_copied(rt: &(impl Abort + AllocGlobal)) {
    are_copied(rt, &REFUSALS);
    let finished = Reply::Finished {
        status: 200,
        ctype: text(rt, "text/html"),
        body: text(rt, "<p>42</p>"),
    };
    let replies = [finished, Reply::Refused(Refusal::Pages)];
    are_copied(rt, &replies);
}

impl Copied for FormVars {
    fn copied(&self, alloc: Global) -> Result<FormVars, NoMemory> {
        self.try_copy(alloc)
    }
}

impl Copied for Request {
    fn copied(&self, alloc: Global) -> Result<Request, NoMemory> {
        self.try_copy(alloc)
    }
}

impl Copied for Refusal {
    fn copied(&self, alloc: Global) -> Result<Refusal, NoMemory> {
        self.try_copy(alloc)
    }
}

impl Copied for Reply {
    fn copied(&self, alloc: Global) -> Result<Reply, NoMemory> {
        self.try_copy(alloc)
    }
}
