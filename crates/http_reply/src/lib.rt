//! The bytes of replies to HTTP requests.
#![tactic(auto)]

mod head;
mod words;

ghost use Rattle.std.specs.Prelude.{◌≡◌, IfOk};
ghost use Rattle.http_reply.specs.ReplyBytes.{body_of, bytes_of, IsFaultStatus, fault_bytes};

use head::message;
use sml_syntax::{NoMemory, Text};
use std::alloc::Global;
use web_messages::Reply;
use words::{OWN_TYPE, fault_body, refusal_body};

/// The body of a finished reply, or the words of a refusal.
pub fn reply_body(alloc: Global, reply: &Reply) -> Result<Text, NoMemory>
    ensures { IfOk result (λ body. body ≡ body_of reply.now) }
{
    match reply {
        Reply::Finished {
            status: _,
            ctype: _,
            body,
        } => Ok(body.try_copy(alloc)?),
        Reply::Refused(refusal) => Ok(Text::from_vec(refusal_body(alloc, *refusal)?)),
    }
}

/// The status line, the fields and the body of a reply. `closing` says that it is the last one of its connection.
/// A refusal has the status 503.
#[tactic(auto, unfolding(crate::specs::ReplyBytes::bytes_of))]
pub fn reply_bytes(alloc: Global, reply: &Reply, closing: bool) -> Result<Text, NoMemory>
    ensures { IfOk result (λ bytes. bytes ≡ bytes_of reply.now closing) }
{
    match reply {
        Reply::Finished {
            status,
            ctype,
            body,
        } => Ok(message(alloc, *status, ctype.as_bytes(), body.as_bytes(), closing)?),
        Reply::Refused(refusal) => {
            let body = refusal_body(alloc, *refusal)?;
            Ok(message(alloc, 503, OWN_TYPE, body.as_slice(), closing)?)
        }
    }
}

/// The answer to bytes that are no message, by its status. It is the last reply of its connection.
pub fn bad_bytes(alloc: Global, status: u16) -> Result<Text, NoMemory>
    requires { IsFaultStatus status }
    ensures { IfOk result (λ bytes. bytes ≡ fault_bytes status) }
{
    message(alloc, status, OWN_TYPE, fault_body(status), true)
}
