// Whole connections to a book of guests.
use crate::guests::Guests;
use case_lines::show_text;
use conn_serve::{Ended, serve_conn};
use outside_world::{MemConn, Sink, Source, SureConn};
use sml_syntax::NoMemory;
use std::alloc::Global;

/// How a connection comes in pieces, and which of its calls fail.
#[derive(Drop)]
pub(crate) struct Plan {
    pub(crate) cuts: Vec<u64>,
    pub(crate) reads: Vec<u64>,
    pub(crate) writes: Vec<u64>,
}

fn show_end(out: &mut String, end: Ended) -> Result<(), NoMemory> {
    match end {
        Ended::AtEnd => out.push_str("AtEnd")?,
        Ended::Closed => out.push_str("Closed")?,
        Ended::BadInput(status) => write!(out, "BadInput {status}")?,
        Ended::Truncated(count) => write!(out, "Truncated {count}")?,
        Ended::ReadFault => out.push_str("ReadFault")?,
        Ended::WriteFault => out.push_str("WriteFault")?,
        Ended::TurnsSpent => out.push_str("TurnsSpent")?,
        Ended::NoMemory => return Err(NoMemory),
    }
    Ok(())
}

// How the connection ends, and its replies.
fn show_served(alloc: Global, bytes: &[u8], plan: &Plan, out: &mut String) -> Result<(), NoMemory> {
    let cuts = plan.cuts.as_slice();
    let reads = plan.reads.as_slice();
    let mut link = MemConn::make(alloc, bytes, cuts, reads, plan.writes.as_slice())?;
    let mut guests = Guests::make(alloc);
    let end = serve_conn(alloc, &mut link, &mut guests);
    show_end(out, end)?;
    out.push(' ')?;
    show_text(out, link.written(), b'\\')?;
    let (reads, writes) = (link.read_faults(), link.write_faults());
    if reads > 0 || writes > 0 {
        write!(out, " faults {reads} {writes}")?;
    }
    Ok(())
}

fn show_sure(alloc: Global, bytes: &[u8], cuts: &[u64], out: &mut String) -> Result<(), NoMemory> {
    let mut link = SureConn::make(alloc, bytes, cuts)?;
    let mut guests = Guests::make(alloc);
    let end = serve_conn(alloc, &mut link, &mut guests);
    show_end(out, end)?;
    out.push(' ')?;
    show_text(out, link.written(), b'\\')?;
    Ok(())
}

/// How the connection ends, and its replies; where no call fails, by both kinds of connections in memory.
pub(crate) fn serve(
    alloc: Global,
    bytes: &[u8],
    plan: &Plan,
    out: &mut String,
) -> Result<(), NoMemory> {
    let mut first = String::new(alloc);
    show_served(alloc, bytes, plan, &mut first)?;
    out.push_str(first.as_str())?;
    if plan.reads.is_empty() && plan.writes.is_empty() {
        let mut second = String::new(alloc);
        show_sure(alloc, bytes, plan.cuts.as_slice(), &mut second)?;
        if second.as_str() != first.as_str() {
            out.push_str(" or ")?;
            out.push_str(second.as_str())?;
        }
    }
    Ok(())
}

/// The same of bytes that come whole, cut once after each byte, and byte by byte: it is said where the answers differ.
pub(crate) fn serve_each(alloc: Global, bytes: &[u8], out: &mut String) -> Result<(), NoMemory> {
    let mut whole = String::new(alloc);
    show_sure(alloc, bytes, &[], &mut whole)?;
    out.push_str(whole.as_str())?;
    let mut ones = Vec::new(alloc);
    for cut in 0..bytes.len() {
        ones.push(1)?;
        let mut other = String::new(alloc);
        show_sure(alloc, bytes, &[cut as u64], &mut other)?;
        if other.as_str() != whole.as_str() {
            write!(out, " but cut at {cut} {}", other.as_str())?;
        }
    }
    let mut other = String::new(alloc);
    show_sure(alloc, bytes, ones.as_slice(), &mut other)?;
    if other.as_str() != whole.as_str() {
        write!(out, " but by bytes {}", other.as_str())?;
    }
    Ok(())
}
