// Values laid out in words, from the pointer to the first of them on. Each answer is the word that stands for the value.
use kam_code::push_text;
use sml_syntax::{Listed, NoMemory, Text};
use std::alloc::Global;
use web_data::Datum;

// Words one behind the other, and the pointer to the first.
fn lay_words(words: &mut Vec<u64>, p: u64, more: &[u64]) -> Result<u64, NoMemory> {
    let at = p.wrapping_add(words.len() as u64);
    words.extend_from_slice(more)?;
    Ok(at)
}

pub fn lay_text(words: &mut Vec<u64>, p: u64, text: &[u8]) -> Result<u64, NoMemory> {
    let at = p.wrapping_add(words.len() as u64);
    push_text(words, text)?;
    Ok(at)
}

/// `SOME`.
pub fn lay_some(words: &mut Vec<u64>, p: u64, argument: u64) -> Result<u64, NoMemory> {
    lay_words(words, p, &[1, argument])
}

/// The cells of a list, by the words of its items.
pub fn lay_cells(words: &mut Vec<u64>, p: u64, items: &[u64]) -> Result<u64, NoMemory> {
    let mut rest = 0;
    for item in items.iter().rev() {
        let pair = lay_words(words, p, &[*item, rest])?;
        rest = lay_words(words, p, &[1, pair])?;
    }
    Ok(rest)
}

/// A list of texts.
pub fn lay_texts(
    alloc: Global,
    words: &mut Vec<u64>,
    p: u64,
    texts: &[Text],
) -> Result<u64, NoMemory> {
    let mut items = Vec::new(alloc);
    for text in texts {
        items.push(lay_text(words, p, text.as_bytes())?)?;
    }
    lay_cells(words, p, items.as_slice())
}

/// A datum.
#[cycle(layouts)]
pub fn lay_datum(
    alloc: Global,
    words: &mut Vec<u64>,
    p: u64,
    datum: &Datum,
) -> Result<u64, NoMemory> {
    match datum {
        Datum::Int(n) => Ok(n.cast_unsigned()),
        Datum::Bool(b) => Ok(*b as u64),
        Datum::Char(c) => Ok(*c as u64),
        Datum::Unit => Ok(0),
        Datum::Str(text) => lay_text(words, p, text.as_bytes()),
        Datum::Pair(a, b) => {
            let a = lay_datum(alloc, words, p, a.get())?;
            let b = lay_datum(alloc, words, p, b.get())?;
            lay_words(words, p, &[a, b])
        }
        Datum::Triple(a, b, c) => {
            let a = lay_datum(alloc, words, p, a.get())?;
            let b = lay_datum(alloc, words, p, b.get())?;
            let c = lay_datum(alloc, words, p, c.get())?;
            lay_words(words, p, &[a, b, c])
        }
        Datum::Opt(None) => Ok(0),
        Datum::Opt(Some(a)) => {
            let argument = lay_datum(alloc, words, p, a.get())?;
            lay_some(words, p, argument)
        }
        Datum::List(items) => lay_data(alloc, words, p, items),
    }
}

// A list of data.
#[cycle(layouts)]
fn lay_data(
    alloc: Global,
    words: &mut Vec<u64>,
    p: u64,
    data: &Listed<Datum>,
) -> Result<u64, NoMemory> {
    let mut items = Vec::new(alloc);
    for datum in data.as_slice() {
        items.push(lay_datum(alloc, words, p, datum)?)?;
    }
    lay_cells(words, p, items.as_slice())
}
