// The lines of a reply's head, and the whole reply.
ghost use Rattle.std.specs.Prelude.{◌≡◌, ◌++◌, IfOk, OnOk, codes, decimal};
ghost use Rattle.http_reply.specs.ReplyBytes.{status_line, field_line, allow_line, closing_line, line_end, message};

use crate::words::phrase_of;
use sml_syntax::{NoMemory, Text};
use std::alloc::Global;

fn push_status_line(out: &mut Vec<u8>, status: u16) -> Result<(), NoMemory>
    ensures { OnOk result (out.new.items ≡ out.old.items ++ status_line status) }
{
    let digits = status.to_string(*out.allocator())?;
    out.extend_from_slice(b"HTTP/1.1 ")?;
    out.extend_from_slice(digits.as_bytes())?;
    out.extend_from_slice(b" ")?;
    out.extend_from_slice(phrase_of(status))?;
    out.extend_from_slice(b"\r\n")?;
    Ok(())
}

fn push_field_line(out: &mut Vec<u8>, name: &[u8], value: &[u8]) -> Result<(), NoMemory>
    ensures { OnOk result (out.new.items ≡ out.old.items ++ field_line name.now value.now) }
{
    out.extend_from_slice(name)?;
    out.extend_from_slice(b": ")?;
    out.extend_from_slice(value)?;
    out.extend_from_slice(b"\r\n")?;
    Ok(())
}

fn push_length(out: &mut Vec<u8>, length: usize) -> Result<(), NoMemory>
    ensures { OnOk result (out.new.items ≡ out.old.items ++ field_line (codes "Content-Length") (decimal length)) }
{
    let digits = length.to_string(*out.allocator())?;
    push_field_line(out, b"Content-Length", digits.as_bytes())
}

// The fields that only some replies have.
fn push_rarer_lines(out: &mut Vec<u8>, status: u16, closing: bool) -> Result<(), NoMemory>
    ensures { OnOk result (out.new.items ≡ out.old.items ++ (allow_line status ++ closing_line closing)) }
{
    if status == 405 {
        push_field_line(out, b"Allow", b"GET, POST")?;
    }
    if closing {
        push_field_line(out, b"Connection", b"close")?;
    }
    Ok(())
}

/// A reply with this status, this type and this body.
#[tactic(auto, unfolding(crate::specs::ReplyBytes::message))]
pub fn message(
    alloc: Global,
    status: u16,
    content_type: &[u8],
    body: &[u8],
    closing: bool,
) -> Result<Text, NoMemory>
    ensures { IfOk result (λ bytes. bytes ≡ message status content_type.now body.now closing) }
{
    let mut out = Vec::new(alloc);
    push_status_line(&mut out, status)?;
    push_field_line(&mut out, b"Content-Type", content_type)?;
    push_length(&mut out, body.len())?;
    push_rarer_lines(&mut out, status, closing)?;
    out.extend_from_slice(b"\r\n")?;
    out.extend_from_slice(body)?;
    Ok(Text::from_vec(out))
}
