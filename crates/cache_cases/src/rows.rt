// The rows of one cache, in both of its bodies.
use cache_rows::{ListRows, RowAns, RowCall, RowStore, Rows, moments_rise, run_rows};
use case_lines::{Words, show_text};
use data_words::{read_kind, read_text};
use sml_syntax::{NoMemory, Text};
use std::alloc::Global;

/// Rows, as a list and as a table.
#[derive(Drop)]
pub(crate) struct BothRows {
    list: ListRows,
    table: Rows,
}

impl BothRows {
    pub(crate) fn make(alloc: Global, kind: &str) -> Result<BothRows, NoMemory> {
        let kind = read_kind(kind);
        Ok(BothRows {
            list: ListRows::make(alloc, kind)?,
            table: Rows::make(alloc, kind)?,
        })
    }

    /// `look MOMENT 'KEY`, `put MOMENT 'KEY 'VALUE`, `flush MOMENT` and `peek MOMENT 'KEY`.
    pub(crate) fn answer(
        &mut self,
        alloc: Global,
        word: &str,
        words: &mut Words,
        out: &mut String,
    ) -> Result<(), NoMemory> {
        if word == "peek" {
            return show_peek(alloc, &self.table, words, out);
        }
        let call = read_row_call(alloc, word, words)?;
        let calls = Vec::from_array(alloc, [call])?;
        let answers = run_one(alloc, &mut self.list, calls.as_slice())?;
        let others = run_one(alloc, &mut self.table, calls.as_slice())?;
        let same_moment = self.list.last() == self.table.last();
        show_both(answers.as_slice(), others.as_slice(), same_moment, out)
    }
}

// The call of a line.
fn read_row_call(alloc: Global, word: &str, words: &mut Words) -> Result<RowCall, NoMemory> {
    let moment = words.number();
    let key = read_text(alloc, words.next())?;
    match word {
        "look" => Ok(RowCall::Look(moment, key)),
        "put" => {
            let value = read_text(alloc, words.next())?;
            Ok(RowCall::Put(moment, key, value))
        }
        _ => Ok(RowCall::Flush(moment)),
    }
}

// What a row holds at a moment, which changes nothing.
fn show_peek(
    alloc: Global,
    table: &Rows,
    words: &mut Words,
    out: &mut String,
) -> Result<(), NoMemory> {
    let moment = words.number();
    let key = read_text(alloc, words.next())?;
    let value = table.peek(moment, &key);
    show_value(out, value)
}

// The answers of the list, and behind them those of the table where something differs.
fn show_both(
    answers: &[RowAns],
    others: &[RowAns],
    same_moment: bool,
    out: &mut String,
) -> Result<(), NoMemory> {
    show_answers(out, answers)?;
    if answers != others || !same_moment {
        out.push_str(" and ")?;
        show_answers(out, others)?;
    }
    Ok(())
}

// No answer where the moment is too early.
fn run_one<R: RowStore>(
    alloc: Global,
    rows: &mut R,
    calls: &[RowCall],
) -> Result<Vec<RowAns>, NoMemory> {
    if !moments_rise(rows.last(), calls) {
        return Ok(Vec::new(alloc));
    }
    run_rows(alloc, rows, calls)
}

fn show_value(out: &mut String, value: Option<&Text>) -> Result<(), NoMemory> {
    match value {
        None => out.push_str("none")?,
        Some(text) => {
            out.push('\'')?;
            show_text(out, text.as_bytes(), b' ')?;
        }
    }
    Ok(())
}

fn show_answers(out: &mut String, answers: &[RowAns]) -> Result<(), NoMemory> {
    match answers {
        [RowAns::Found(value)] => show_value(out, value.as_ref())?,
        [RowAns::Fresh(fresh)] => write!(out, "{fresh}")?,
        [RowAns::Flushed] => out.push_str("flushed")?,
        _ => out.push_str("early")?,
    }
    Ok(())
}
