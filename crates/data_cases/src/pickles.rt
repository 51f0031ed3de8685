// Pickles, and which data and answers fit.
use case_lines::{Words, hex_of, show_hex};
use data_words::{read_answer, read_call, read_datum, read_desc, show_datum};
use sml_syntax::NoMemory;
use std::alloc::Global;
use value_pickle::{PickleRefusal, answer_fits, fits, read, write};
use web_data::{Datum, Desc, WebCall};

/// `fits DESC DATUM`, `answers CALL => ANSWER`, `write DESC DATUM`, `read DESC HEX` and `two_bytes DESC`.
pub(crate) fn answer_pickle(
    alloc: Global,
    word: &str,
    words: &mut Words,
    out: &mut String,
) -> Result<(), NoMemory> {
    if word == "answers" {
        return show_answer_fits(alloc, words, out);
    }
    let desc = read_desc(alloc, words.next())?;
    let rest = words.next();
    match word {
        "fits" => show_fits(alloc, &desc, rest, out),
        "write" => show_written(alloc, &desc, rest, out),
        "read" => show_hex_read(alloc, &desc, rest, out),
        _ => show_all_two_bytes(alloc, &desc, out),
    }
}

fn show_answer_fits(alloc: Global, words: &mut Words, out: &mut String) -> Result<(), NoMemory> {
    let call = read_call(alloc, words)?;
    words.next();
    show_call_fits(alloc, &call, words, out)
}

fn show_call_fits(
    alloc: Global,
    call: &WebCall,
    words: &mut Words,
    out: &mut String,
) -> Result<(), NoMemory> {
    let answer = read_answer(alloc, words)?;
    show_bool(out, answer_fits(call, &answer))
}

fn show_bool(out: &mut String, value: bool) -> Result<(), NoMemory> {
    out.push_str(if value { "true" } else { "false" })?;
    Ok(())
}

fn show_fits(alloc: Global, desc: &Desc, word: &str, out: &mut String) -> Result<(), NoMemory> {
    let datum = read_datum(alloc, word)?;
    show_bool(out, fits(desc, &datum))
}

fn show_hex_read(alloc: Global, desc: &Desc, word: &str, out: &mut String) -> Result<(), NoMemory> {
    let bytes = hex_of(alloc, word)?;
    show_read(alloc, desc, bytes.as_slice(), out)
}

fn show_written(alloc: Global, desc: &Desc, word: &str, out: &mut String) -> Result<(), NoMemory> {
    let datum = read_datum(alloc, word)?;
    show_datum_written(alloc, desc, &datum, out)
}

fn show_datum_written(
    alloc: Global,
    desc: &Desc,
    datum: &Datum,
    out: &mut String,
) -> Result<(), NoMemory> {
    if !fits(desc, datum) {
        out.push_str("another description")?;
        return Ok(());
    }
    show_hex(out, write(alloc, desc, datum)?.as_bytes())?;
    Ok(())
}

// The datum, and a mark where it isn't written as the same bytes.
fn show_read(alloc: Global, desc: &Desc, bytes: &[u8], out: &mut String) -> Result<(), NoMemory> {
    match read(alloc, desc, bytes) {
        Ok(datum) => show_datum_read(alloc, desc, &datum, bytes, out),
        Err(PickleRefusal::NotAPickle(place)) => Ok(write!(out, "NotAPickle {place}")?),
        Err(PickleRefusal::NoMemory) => Err(NoMemory),
    }
}

fn show_datum_read(
    alloc: Global,
    desc: &Desc,
    datum: &Datum,
    bytes: &[u8],
    out: &mut String,
) -> Result<(), NoMemory> {
    show_datum(out, datum)?;
    if !fits(desc, datum) || write(alloc, desc, datum)?.as_bytes() != bytes {
        out.push_str(" and other bytes")?;
    }
    Ok(())
}

fn mix(sum: u64, next: u64) -> u64 {
    sum.wrapping_mul(1_000_003).wrapping_add(next)
}

// A sum over the bytes of a text.
fn mixed_text(sum: u64, text: &str) -> u64 {
    let mut all = sum;
    for byte in text.as_bytes() {
        all = mix(all, u64::from(*byte));
    }
    all
}

// What reading strings came to.
#[derive(Drop)]
struct Tally {
    pickles: u64,
    // over all answers
    sum: u64,
}

fn tally_read(alloc: Global, desc: &Desc, bytes: &[u8], tally: &mut Tally) -> Result<(), NoMemory> {
    let mut answer = String::new(alloc);
    show_read(alloc, desc, bytes, &mut answer)?;
    if !answer.starts_with('N') {
        tally.pickles = tally.pickles.wrapping_add(1);
    }
    tally.sum = mix(mixed_text(tally.sum, answer.as_str()), 10);
    Ok(())
}

// Strings of this byte and one more.
fn tally_behind(alloc: Global, desc: &Desc, first: u8, tally: &mut Tally) -> Result<(), NoMemory> {
    for second in 0..=255 {
        tally_read(alloc, desc, &[first, second], tally)?;
    }
    Ok(())
}

// How many strings of two bytes are pickles of the description, and a sum over the answers to all of them.
fn show_all_two_bytes(alloc: Global, desc: &Desc, out: &mut String) -> Result<(), NoMemory> {
    let mut tally = Tally { pickles: 0, sum: 0 };
    for first in 0..=255 {
        tally_behind(alloc, desc, first, &mut tally)?;
    }
    write!(out, "{} {}", tally.pickles, tally.sum)?;
    Ok(())
}
