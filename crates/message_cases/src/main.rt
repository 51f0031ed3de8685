//! Answers cases of messages: requests out of bytes, the bytes of replies, and whole connections with cuts and failures.
//! docs/TESTING.md tells their lines.
#![tactic(auto)]

mod conns;
mod guests;
mod messages;
mod replies;

use case_lines::{Cases, Words, bytes_of, numbers_of, parts_of, run_files};
use conns::{Plan, serve, serve_each};
use http_read::{answers_end_messages, cuts_do_not_matter, form_pairs};
use messages::{show_messages, show_messages_each, show_messages_from, show_pairs};
use replies::{answer_reply, show_bad};
use sml_syntax::NoMemory;
use std::alloc::{AllocError, Global};
use std::io;
use web_messages::Reply;

fn read_plan(alloc: Global, words: &mut Words) -> Result<Plan, NoMemory> {
    Ok(Plan {
        cuts: numbers_of(alloc, words.next())?,
        reads: numbers_of(alloc, words.next())?,
        writes: numbers_of(alloc, words.next())?,
    })
}

/// The replies that were copied so far.
#[derive(Drop)]
struct AllReplies {
    copies: Vec<Reply>,
}

impl AllReplies {
    fn answer_line(&mut self, alloc: Global, line: &str, out: &mut String) -> Result<(), NoMemory> {
        let mut words = Words::of(line);
        match words.next() {
            "reply" => answer_reply(alloc, &mut self.copies, &mut words, out),
            "bad" => show_bad(alloc, words.number(), out),
            "form" => {
                let bytes = bytes_of(alloc, words.rest())?;
                show_pairs(out, &form_pairs(alloc, bytes.as_slice())?)
            }
            "serve" => {
                let plan = read_plan(alloc, &mut words)?;
                let bytes = bytes_of(alloc, words.rest())?;
                serve(alloc, bytes.as_slice(), &plan, out)
            }
            "serve_long" => {
                let plan = read_plan(alloc, &mut words)?;
                let bytes = parts_of(alloc, words.rest())?;
                serve(alloc, bytes.as_slice(), &plan, out)
            }
            "serve_each" => {
                let bytes = bytes_of(alloc, words.rest())?;
                serve_each(alloc, bytes.as_slice(), out)
            }
            "messages" => {
                let first = words.number();
                let bytes = bytes_of(alloc, words.rest())?;
                show_messages_from(alloc, first, bytes.as_slice(), out)
            }
            "messages_long" => {
                let bytes = parts_of(alloc, words.rest())?;
                show_messages(alloc, bytes.as_slice(), out)
            }
            "messages_each" => {
                let bytes = bytes_of(alloc, words.rest())?;
                show_messages_each(alloc, bytes.as_slice(), out)
            }
            _ => Ok(out.push_str("no such line")?),
        }
    }
}

impl Cases for AllReplies {
    fn answer(&mut self, alloc: Global, line: &str, out: &mut String) -> Result<(), AllocError> {
        match self.answer_line(alloc, line, out) {
            Ok(()) => Ok(()),
            Err(NoMemory) => Err(AllocError),
        }
    }
}

fn main(rt: HostRuntime) -> io::Result<()> {
    cuts_do_not_matter();
    answers_end_messages();
    let mut messages = AllReplies {
        copies: Vec::new(rt.alloc()),
    };
    run_files(&rt, &mut messages)
}
