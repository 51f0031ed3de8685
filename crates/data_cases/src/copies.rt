// Copies against what was copied, and against all that was copied before.
use case_lines::Words;
use data_words::{read_answer, read_call, read_datum, read_desc};
use sml_syntax::NoMemory;
use std::alloc::Global;
use web_data::{Datum, Desc, WebAns, WebCall};

/// The copies so far.
#[derive(Drop)]
pub(crate) struct Copies {
    data: Vec<Datum>,
    descs: Vec<Desc>,
    calls: Vec<WebCall>,
    answers: Vec<WebAns>,
}

impl Copies {
    pub(crate) fn new(alloc: Global) -> Copies {
        Copies {
            data: Vec::new(alloc),
            descs: Vec::new(alloc),
            calls: Vec::new(alloc),
            answers: Vec::new(alloc),
        }
    }

    /// `copy_datum DATUM`, `copy_desc DESC`, `copy_call CALL` and `copy_answer ANSWER`: the numbers of the copies so far of
    /// this kind, from 0, that equal what is copied, that of its own copy last.
    pub(crate) fn answer(
        &mut self,
        alloc: Global,
        word: &str,
        words: &mut Words,
        out: &mut String,
    ) -> Result<(), NoMemory> {
        match word {
            "copy_datum" => self.copy_datum(alloc, words.next(), out),
            "copy_desc" => self.copy_desc(alloc, words.next(), out),
            "copy_call" => self.copy_call(alloc, words, out),
            _ => self.copy_answer(alloc, words, out),
        }
    }

    fn copy_datum(&mut self, alloc: Global, word: &str, out: &mut String) -> Result<(), NoMemory> {
        let datum = read_datum(alloc, word)?;
        self.data.push(datum.try_copy(alloc)?)?;
        show_equal(&self.data, &datum, out)
    }

    fn copy_desc(&mut self, alloc: Global, word: &str, out: &mut String) -> Result<(), NoMemory> {
        let desc = read_desc(alloc, word)?;
        self.descs.push(desc.try_copy(alloc)?)?;
        show_equal(&self.descs, &desc, out)
    }

    fn copy_call(
        &mut self,
        alloc: Global,
        words: &mut Words,
        out: &mut String,
    ) -> Result<(), NoMemory> {
        let call = read_call(alloc, words)?;
        self.copied_call(alloc, &call, out)
    }

    fn copied_call(
        &mut self,
        alloc: Global,
        call: &WebCall,
        out: &mut String,
    ) -> Result<(), NoMemory> {
        self.calls.push(call.try_copy(alloc)?)?;
        show_equal(&self.calls, call, out)
    }

    fn copy_answer(
        &mut self,
        alloc: Global,
        words: &mut Words,
        out: &mut String,
    ) -> Result<(), NoMemory> {
        let answer = read_answer(alloc, words)?;
        self.answers.push(answer.try_copy(alloc)?)?;
        show_equal(&self.answers, &answer, out)
    }
}

fn show_equal<T: PartialEq>(copies: &[T], one: &T, out: &mut String) -> Result<(), NoMemory> {
    out.push_str("equals")?;
    for (number, copy) in copies.iter().enumerate() {
        if copy == one {
            write!(out, " {number}")?;
        }
    }
    Ok(())
}
