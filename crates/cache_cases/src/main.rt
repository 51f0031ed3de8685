//! Answers cases of caches: the rows of one cache in both of its bodies, and calls on all caches and on one group of them.
//! docs/TESTING.md tells their lines.
#![tactic(auto)]

mod caches;
mod rows;

use caches::{Standing, show_group};
use case_lines::{Cases, Words, run_files};
use rows::BothRows;
use sml_syntax::NoMemory;
use std::alloc::{AllocError, Global};
use std::io;

/// What earlier lines made.
#[derive(Drop)]
struct Made {
    rows: Option<BothRows>,
    standing: Option<Standing>,
}

impl Made {
    fn answer_rows(
        &mut self,
        alloc: Global,
        word: &str,
        words: &mut Words,
        out: &mut String,
    ) -> Result<(), NoMemory> {
        match &mut self.rows {
            Some(rows) => rows.answer(alloc, word, words, out),
            None => Ok(out.push_str("no rows")?),
        }
    }

    fn answer_caches(
        &mut self,
        alloc: Global,
        word: &str,
        words: &mut Words,
        out: &mut String,
    ) -> Result<(), NoMemory> {
        let Some(standing) = &mut self.standing else {
            out.push_str("no caches")?;
            return Ok(());
        };
        if word == "last" {
            return standing.last(words.next(), out);
        }
        standing.answer(alloc, word, words, out)
    }

    fn answer_line(&mut self, alloc: Global, line: &str, out: &mut String) -> Result<(), NoMemory> {
        let mut words = Words::of(line);
        let word = words.next();
        match word {
            "rows" => {
                self.rows = Some(BothRows::make(alloc, words.next())?);
                Ok(out.push_str(word)?)
            }
            "caches" => {
                self.standing = Some(Standing::make(alloc, words.next())?);
                Ok(out.push_str(word)?)
            }
            "look" | "put" | "flush" | "peek" => self.answer_rows(alloc, word, &mut words, out),
            "group" => show_group(alloc, words.next(), out),
            "call" | "group_call" | "last" => self.answer_caches(alloc, word, &mut words, out),
            _ => Ok(out.push_str("no such line")?),
        }
    }
}

impl Cases for Made {
    fn answer(&mut self, alloc: Global, line: &str, out: &mut String) -> Result<(), AllocError> {
        match self.answer_line(alloc, line, out) {
            Ok(()) => Ok(()),
            Err(NoMemory) => Err(AllocError),
        }
    }
}

fn main(rt: HostRuntime) -> io::Result<()> {
    let mut made = Made {
        rows: None,
        standing: None,
    };
    run_files(&rt, &mut made)
}
