//! Answers cases of histories: the core machine event by event, and histories entry by entry.
//! docs/TESTING.md tells their lines.
#![tactic(auto)]

mod cores;

use case_lines::{Cases, Words, run_files};
use core_step::CoreState;
use cores::{History, answer_event, make_core, show_state};
use sml_syntax::NoMemory;
use std::alloc::{AllocError, Global};
use std::io;

/// What earlier lines made.
#[derive(Drop)]
struct Made {
    core: Option<CoreState>,
    history: Option<History>,
}

impl Made {
    fn answer_core(
        &mut self,
        alloc: Global,
        word: &str,
        words: &mut Words,
        out: &mut String,
    ) -> Result<(), NoMemory> {
        let Some(core) = &mut self.core else {
            out.push_str("no core")?;
            return Ok(());
        };
        if word == "event" {
            return answer_event(alloc, core, words, out);
        }
        show_state(core, out)
    }

    fn answer_history(
        &mut self,
        alloc: Global,
        words: &mut Words,
        out: &mut String,
    ) -> Result<(), NoMemory> {
        match &mut self.history {
            Some(history) => history.answer(alloc, words, out),
            None => Ok(out.push_str("no history")?),
        }
    }

    fn answer_line(&mut self, alloc: Global, line: &str, out: &mut String) -> Result<(), NoMemory> {
        let mut words = Words::of(line);
        let word = words.next();
        match word {
            "core" => {
                self.core = make_core(alloc, &mut words)?;
                Ok(out.push_str(word)?)
            }
            "history" => {
                self.history = Some(History::make(alloc, &mut words)?);
                Ok(out.push_str(word)?)
            }
            "event" | "state" => self.answer_core(alloc, word, &mut words, out),
            "entry" => self.answer_history(alloc, &mut words, out),
            _ => Ok(out.push_str("no such line")?),
        }
    }
}

impl Cases for Made {
    fn answer(&mut self, alloc: Global, line: &str, out: &mut String) -> Result<(), AllocError> {
        match self.answer_line(alloc, line, out) {
            Ok(()) => Ok(()),
            Err(NoMemory) => Err(AllocError),
        }
    }
}

fn main(rt: HostRuntime) -> io::Result<()> {
    let mut made = Made {
        core: None,
        history: None,
    };
    run_files(&rt, &mut made)
}
