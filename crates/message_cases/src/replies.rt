// The bytes of replies.
ghost use Rattle.std.specs.Prelude.{IfSome};
ghost use Rattle.http_reply.specs.ReplyBytes.{IsFaultStatus};

use case_lines::{Words, quoted_of, show_text};
use http_reply::{bad_bytes, reply_body, reply_bytes};
use sml_syntax::{NoMemory, Text};
use std::alloc::Global;
use web_messages::{Refusal, Reply};

// The text of a word, which begins with `'`.
fn read_text(alloc: Global, word: &str) -> Result<Text, NoMemory> {
    Ok(Text::from_vec(quoted_of(alloc, word)?))
}

fn read_refusal(words: &mut Words) -> Refusal {
    match words.next() {
        "Pages" => Refusal::Pages,
        "DatabaseFault" => Refusal::DatabaseFault,
        "DatabaseStatement" => Refusal::DatabaseStatement(words.number()),
        "Budget" => Refusal::Budget,
        "Stack" => Refusal::Stack,
        "ReplyFull" => Refusal::ReplyFull,
        "Caches" => Refusal::Caches,
        _ => Refusal::NoMemory,
    }
}

// `finished STATUS 'TYPE 'BODY`, or `refused` and why.
fn read_reply(alloc: Global, words: &mut Words) -> Result<Reply, NoMemory> {
    if words.next() != "finished" {
        return Ok(Reply::Refused(read_refusal(words)));
    }
    let status = words.next().parse().unwrap_or(0);
    let ctype = read_text(alloc, words.next())?;
    let body = read_text(alloc, words.next())?;
    Ok(Reply::Finished {
        status,
        ctype,
        body,
    })
}

/// The bytes of a reply, of the last one where the line says `last`; `body`: those of its body; `copy`: which of the
/// replies that were copied equal it, from 0, its own copy last.
pub(crate) fn answer_reply(
    alloc: Global,
    copies: &mut Vec<Reply>,
    words: &mut Words,
    out: &mut String,
) -> Result<(), NoMemory> {
    let what = words.next();
    let reply = read_reply(alloc, words)?;
    match what {
        "body" => show_text(out, reply_body(alloc, &reply)?.as_bytes(), b'\\')?,
        "copy" => {
            copies.push(reply.try_copy(alloc)?)?;
            out.push_str("equals")?;
            for (number, copy) in copies.iter().enumerate() {
                if *copy == reply {
                    write!(out, " {number}")?;
                }
            }
        }
        _ => {
            let bytes = reply_bytes(alloc, &reply, what == "last")?;
            show_text(out, bytes.as_bytes(), b'\\')?;
        }
    }
    Ok(())
}

// A status of bytes that are no message.
fn fault_status(number: u64) -> Option<u16>
    ensures { IfSome result IsFaultStatus }
{
    match number {
        400 => Some(400),
        405 => Some(405),
        413 => Some(413),
        431 => Some(431),
        501 => Some(501),
        _ => None,
    }
}

/// The answer to bytes that are no message.
pub(crate) fn show_bad(alloc: Global, number: u64, out: &mut String) -> Result<(), NoMemory> {
    match fault_status(number) {
        Some(status) => show_text(out, bad_bytes(alloc, status)?.as_bytes(), b'\\')?,
        None => out.push_str("no such status")?,
    }
    Ok(())
}
