//! The messages of a stream of bytes, however it is cut.
#![tactic(auto)]

mod fields;
mod form;
mod head;
mod parts;
mod reader;
mod request;
mod search;
mod target;
mod text;

ghost use Rattle.http_read.specs.Cuts.{CutsDoNotMatter, AnswersEndMessages};

pub use form::form_pairs;
pub use reader::{Next, Reader};

/// Whatever the pieces, the requests that a reader gives are the first messages of all the bytes that it was fed with,
/// and what it holds follows them.
pub fn cuts_do_not_matter()
    ensures { CutsDoNotMatter }
{}

/// Where a reader asks for more, tells a fault or has given a closing message, it has given all the messages.
pub fn answers_end_messages()
    ensures { AnswersEndMessages }
{}
