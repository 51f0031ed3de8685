//! Answers cases of data: statements, pickles, what fits, and copies. docs/TESTING.md tells their lines.
#![tactic(auto)]

mod copies;
mod pickles;
mod statements;

use case_lines::{Cases, Words, run_files};
use copies::Copies;
use pickles::answer_pickle;
use sml_syntax::NoMemory;
use statements::answer_statement;
use std::alloc::{AllocError, Global};
use std::io;

/// What earlier lines made.
#[derive(Drop)]
struct Data {
    copies: Copies,
}

impl Data {
    fn answer_line(&mut self, alloc: Global, line: &str, out: &mut String) -> Result<(), NoMemory> {
        let mut words = Words::of(line);
        let word = words.next();
        match word {
            "statement" => answer_statement(alloc, words.rest(), out),
            "fits" | "answers" | "write" | "read" | "two_bytes" => {
                answer_pickle(alloc, word, &mut words, out)
            }
            "copy_datum" | "copy_desc" | "copy_call" | "copy_answer" => {
                self.copies.answer(alloc, word, &mut words, out)
            }
            _ => Ok(out.push_str("no such line")?),
        }
    }
}

impl Cases for Data {
    fn answer(&mut self, alloc: Global, line: &str, out: &mut String) -> Result<(), AllocError> {
        match self.answer_line(alloc, line, out) {
            Ok(()) => Ok(()),
            Err(NoMemory) => Err(AllocError),
        }
    }
}

fn main(rt: HostRuntime) -> io::Result<()> {
    let mut data = Data {
        copies: Copies::new(rt.alloc()),
    };
    run_files(&rt, &mut data)
}
