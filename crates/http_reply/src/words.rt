// The words of statuses and of the server's own bodies.
ghost use Rattle.std.specs.Prelude.{◌≡◌, IfOk};
ghost use Rattle.http_reply.specs.ReplyBytes.{phrase, fault_body, refusal_body};

use sml_syntax::NoMemory;
use std::alloc::Global;
use web_messages::Refusal;

pub const OWN_TYPE: &[u8] = b"text/plain; charset=utf-8";

// The phrase of a status; a status that isn't listed has the empty one.
#[tactic(auto, unfolding(crate::specs::ReplyBytes::phrase))]
pub fn phrase_of(status: u16) -> &'static [u8]
    ensures { result.now ≡ phrase status }
{
    match status {
        200 => b"OK",
        201 => b"Created",
        400 => b"Bad Request",
        403 => b"Forbidden",
        404 => b"Not Found",
        405 => b"Method Not Allowed",
        409 => b"Conflict",
        410 => b"Gone",
        413 => b"Content Too Large",
        431 => b"Request Header Fields Too Large",
        500 => b"Internal Server Error",
        501 => b"Not Implemented",
        503 => b"Service Unavailable",
        _ => b"",
    }
}

// The body of the answer to bytes that are no message.
#[tactic(auto, unfolding(crate::specs::ReplyBytes::fault_body))]
pub fn fault_body(status: u16) -> &'static [u8]
    ensures { result.now ≡ fault_body status }
{
    match status {
        405 => b"405 method not allowed",
        413 => b"413 content too large",
        431 => b"431 head too large",
        501 => b"501 not implemented",
        _ => b"400 bad request",
    }
}

// Why a request has no finished reply.
pub fn refusal_body(alloc: Global, refusal: Refusal) -> Result<Vec<u8>, NoMemory>
    ensures { IfOk result (λ body. body.items ≡ refusal_body refusal) }
{
    match refusal {
        Refusal::Pages => Ok(Vec::from_slice(alloc, b"503 pages")?),
        Refusal::DatabaseFault => Ok(Vec::from_slice(alloc, b"503 database fault")?),
        Refusal::DatabaseStatement(place) => {
            let mut body = Vec::from_slice(alloc, b"503 database statement at ")?;
            let digits = place.to_string(alloc)?;
            body.extend_from_slice(digits.as_bytes())?;
            Ok(body)
        }
        Refusal::Budget => Ok(Vec::from_slice(alloc, b"503 budget")?),
        Refusal::Stack => Ok(Vec::from_slice(alloc, b"503 stack")?),
        Refusal::ReplyFull => Ok(Vec::from_slice(alloc, b"503 reply")?),
        Refusal::Caches => Ok(Vec::from_slice(alloc, b"503 caches")?),
        Refusal::NoMemory => Ok(Vec::from_slice(alloc, b"503 memory")?),
    }
}
