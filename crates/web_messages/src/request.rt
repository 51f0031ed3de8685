// Requests and replies.
ghost use Rattle.std.specs.Prelude.{◌≡◌, IfOk};

use sml_syntax::{Copied, Listed, NoMemory, Text};
use std::alloc::Global;

/// The pairs of a form, in order.
#[derive(Debug, PartialEq, Eq, Drop)]
pub struct FormVars {
    pub pairs: Listed<(Text, Text)>,
}

impl FormVars {
    pub fn try_copy(&self, alloc: Global) -> Result<FormVars, NoMemory>
        ensures { IfOk result (λ copy. copy ≡ self.now) }
    {
        Ok(FormVars {
            pairs: self.pairs.copied(alloc)?,
        })
    }
}

#[derive(Debug, PartialEq, Eq, Drop)]
pub struct Request {
    pub path: Text,
    pub form: FormVars,
    /// Whether the connection ends after the reply.
    pub closing: bool,
}

impl Request {
    pub fn try_copy(&self, alloc: Global) -> Result<Request, NoMemory>
        ensures { IfOk result (λ copy. copy ≡ self.now) }
    {
        Ok(Request {
            path: self.path.try_copy(alloc)?,
            form: self.form.try_copy(alloc)?,
            closing: self.closing,
        })
    }
}

#[derive(Debug, PartialEq, Eq, Drop)]
pub enum Reply {
    Finished {
        status: u16,
        ctype: Text,
        body: Text,
    },
    Refused(Refusal),
}

impl Reply {
    pub fn try_copy(&self, alloc: Global) -> Result<Reply, NoMemory>
        ensures { IfOk result (λ copy. copy ≡ self.now) }
    {
        match self {
            Reply::Finished {
                status,
                ctype,
                body,
            } => Ok(Reply::Finished {
                status: *status,
                ctype: ctype.try_copy(alloc)?,
                body: body.try_copy(alloc)?,
            }),
            Reply::Refused(refusal) => Ok(Reply::Refused(*refusal)),
        }
    }
}

/// Why a request has no finished reply.
#[derive(Clone, Copy, Debug, PartialEq, Eq)]
pub enum Refusal {
    /// No page of memory was free.
    Pages,
    DatabaseFault,
    /// A statement outside the grammar: the length of its longest prefix that begins one.
    DatabaseStatement(u64),
    /// The script took more steps and words than it may.
    Budget,
    Stack,
    ReplyFull,
    /// No further cache has room in its group.
    Caches,
    NoMemory,
}

impl Refusal {
    /// Takes no memory.
    pub fn try_copy(&self, _: Global) -> Result<Refusal, NoMemory>
        ensures { IfOk result (λ copy. copy ≡ self.now) }
    {
        Ok(*self)
    }
}
