// Messages out of bytes.
ghost use Rattle.std.specs.Prelude.{◌≡◌, true, false, IfOk};

use case_lines::show_text;
use http_read::{Next, Reader};
use sml_syntax::NoMemory;
use std::alloc::Global;
use web_messages::{FormVars, Request};

/// Writes names and values, a `&` before each.
pub(crate) fn show_pairs(out: &mut String, form: &FormVars) -> Result<(), NoMemory> {
    for (name, value) in form.pairs.as_slice() {
        out.push_str(" &")?;
        show_text(out, name.as_bytes(), b' ')?;
        out.push('=')?;
        show_text(out, value.as_bytes(), b' ')?;
    }
    Ok(())
}

// The path, the pairs and whether the connection closes, of a copy of the request.
fn show_request(alloc: Global, request: &Request, out: &mut String) -> Result<(), NoMemory> {
    let copy = request.try_copy(alloc)?;
    if copy == *request {
        show_text(out, copy.path.as_bytes(), b' ')?;
        show_pairs(out, &copy.form)?;
    }
    if request.closing {
        out.push_str(" close")?;
    }
    Ok(())
}

// Asks once, and says whether the reader may be asked again.
fn ask(alloc: Global, reader: &mut Reader, out: &mut String) -> Result<bool, NoMemory>
    requires { reader.old.closed ≡ false }
    ensures { IfOk result (λ more. more ≡ true → reader.new.closed ≡ false) }
{
    match reader.next()? {
        Next::More => Ok(true),
        Next::Bad(status) => {
            write!(out, "{status};")?;
            Ok(false)
        }
        Next::Request(request) => {
            show_request(alloc, &request, out)?;
            out.push(';')?;
            Ok(!request.closing)
        }
    }
}

// Feeds the first bytes at once and the others one by one, and asks before each of these and at the end.
fn show_cut(alloc: Global, bytes: &[u8], first: usize, out: &mut String) -> Result<(), NoMemory> {
    let mut reader = Reader::make(alloc)?;
    let (front, rest) = bytes.split_at(first.min(bytes.len()));
    reader.feed(front)?;
    let mut more = true;
    for byte in rest {
        if more {
            more = ask(alloc, &mut reader, out)?;
        }
        reader.feed(&[*byte])?;
    }
    'asking: for _ in 0..20u64 {
        if more {
            more = ask(alloc, &mut reader, out)?;
        }
    }
    if reader.held() > 0 {
        out.push_str(" held")?;
    }
    Ok(())
}

/// The messages of bytes of which so many come at once and the others one by one: for each its path, its pairs and `close`,
/// or the status of a fault.
pub(crate) fn show_messages_from(
    alloc: Global,
    first: u64,
    bytes: &[u8],
    out: &mut String,
) -> Result<(), NoMemory> {
    show_cut(alloc, bytes, bytes.len().min(first as usize), out)
}

/// The same of bytes that come at once.
pub(crate) fn show_messages(alloc: Global, bytes: &[u8], out: &mut String) -> Result<(), NoMemory> {
    show_cut(alloc, bytes, bytes.len(), out)
}

/// The same of bytes whose last ones come one by one, for each number of these: it is said where the answers differ.
pub(crate) fn show_messages_each(
    alloc: Global,
    bytes: &[u8],
    out: &mut String,
) -> Result<(), NoMemory> {
    let mut whole = String::new(alloc);
    show_messages(alloc, bytes, &mut whole)?;
    out.push_str(whole.as_str())?;
    for first in 0..bytes.len() {
        let mut other = String::new(alloc);
        show_cut(alloc, bytes, first, &mut other)?;
        if other.as_str() != whole.as_str() {
            write!(out, " but from {first} {}", other.as_str())?;
        }
    }
    Ok(())
}
