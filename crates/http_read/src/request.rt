// The request of a whole message.
ghost use Rattle.std.specs.Prelude.{◌≡◌, ◌≤◌, length, IfOk};
ghost use Rattle.httparse.specs.Spans.{IsWithin};
ghost use Rattle.http_read.specs.Head.{or_root};
ghost use Rattle.http_read.specs.Parts.{request_at};

use crate::form::push_pairs;
use crate::parts::Parts;
use sml_syntax::{Listed, NoMemory, Text};
use std::alloc::Global;
use web_messages::{FormVars, Request};

// A path, which is `/` where it is empty.
fn path_text(alloc: Global, path: &[u8]) -> Result<Text, NoMemory>
    ensures { IfOk result (λ text. text ≡ or_root path.now) }
{
    match path {
        [] => Text::from_bytes(alloc, b"/"),
        [_, ..] => Text::from_bytes(alloc, path),
    }
}

/// The request of a message, of which these are all the bytes.
pub fn make_request(alloc: Global, bytes: &[u8], parts: &Parts) -> Result<Request, NoMemory>
    requires path { IsWithin (length bytes.now) parts.now.path }
    requires query { IsWithin (length bytes.now) parts.now.query }
    requires head { parts.now.head ≤ length bytes.now }
    ensures { IfOk result (λ request. request ≡ request_at bytes.now parts.now) }
{
    let path = path_text(alloc, parts.path.of(bytes))?;
    let mut pairs = Vec::new(alloc);
    push_pairs(alloc, &mut pairs, parts.query.of(bytes))?;
    if parts.has_form {
        push_pairs(alloc, &mut pairs, &bytes[parts.head..])?;
    }
    Ok(Request {
        path,
        form: FormVars {
            pairs: Listed::of(pairs),
        },
        closing: parts.closing,
    })
}
