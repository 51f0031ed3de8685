// The parts of statements, and what their bytes are.
ghost use Rattle.std.specs.Prelude.{◌≡◌, ℕ, ◌≤◌, List, ◌∷◌, length, drop, IfOk};
ghost use Rattle.sml_syntax.specs.ByteClasses as classes;
ghost use Rattle.web_data.specs.Statements as statements;
ghost use Rattle.db_text.specs.Reading as reading;
ghost use Rattle.web_data.specs.StatementReading.{Left, Spaces, Gap, Word, Name, Quoted, run};
ghost use Rattle.db_text.specs.Reading.{left_of, ReadsPart};

use sml_syntax::{NoMemory, Text};
use std::alloc::Global;

/// A part of a statement.
#[derive(Clone, Copy)]
pub(crate) enum Part {
    /// Spaces, or none.
    Spaces,
    /// At least one space.
    Gap,
    /// A word in small letters, or a sign.
    Word(&'static str),
    /// The name of a table.
    Name,
    /// A text in quotes.
    Quoted,
}

/// Behind a part, or where no byte goes on.
#[derive(Clone, Copy)]
pub(crate) enum End {
    At(usize),
    Stops(usize),
}

/// Reads the part at a place, and adds its text.
pub(crate) fn read_part(
    alloc: Global,
    bytes: &[u8],
    at: usize,
    part: &Part,
    texts: &mut Vec<Text>,
) -> Result<End, NoMemory>
    requires { at ≤ length bytes.now }
    ensures { IfOk result (λ end. ReadsPart texts.old.items (left_of part.now) bytes.now at end texts.new.items) }
{
    match part {
        Part::Spaces => Ok(End::At(spaces_end(bytes, at))),
        Part::Gap => Ok(gap_end(bytes, at)),
        Part::Word(word) => Ok(word_end(bytes, at, word.as_bytes())),
        Part::Name => read_name(alloc, bytes, at, texts),
        Part::Quoted => read_quoted(alloc, bytes, at, texts),
    }
}

fn is_space(b: u8) -> bool
    ensures { result ≡ statements.is_space b }
{
    b == b' ' || b == b'\t' || b == b'\r' || b == b'\n'
}

fn small(b: u8) -> u8
    ensures { result ≡ statements.small b }
{
    if b >= b'A' && b <= b'Z' {
        return b + 32;
    }
    b
}

fn is_letter(b: u8) -> bool
    ensures { result ≡ classes.is_letter b }
{
    (b >= b'A' && b <= b'Z') || (b >= b'a' && b <= b'z')
}

fn is_table_byte(b: u8) -> bool
    ensures { result ≡ statements.is_table_byte b }
{
    is_letter(b) || (b >= b'0' && b <= b'9') || b == b'_'
}

fn is_space_at(bytes: &[u8], at: usize) -> bool
    ensures { result ≡ reading.stands_at statements.is_space bytes.now at }
{
    at < bytes.len() && is_space(bytes[at])
}

fn is_letter_at(bytes: &[u8], at: usize) -> bool
    ensures { result ≡ reading.stands_at classes.is_letter bytes.now at }
{
    at < bytes.len() && is_letter(bytes[at])
}

fn is_table_byte_at(bytes: &[u8], at: usize) -> bool
    ensures { result ≡ reading.stands_at statements.is_table_byte bytes.now at }
{
    at < bytes.len() && is_table_byte(bytes[at])
}

fn is_quote_at(bytes: &[u8], at: usize) -> bool
    ensures { result ≡ reading.stands_at reading.is_quote bytes.now at }
{
    at < bytes.len() && bytes[at] == b'\''
}

/// A byte, in any case.
fn is_small_at(bytes: &[u8], at: usize, c: u8) -> bool
    ensures { result ≡ reading.stands_at (reading.is_small c) bytes.now at }
{
    at < bytes.len() && small(bytes[at]) == c
}

/// Behind the spaces at a place.
fn spaces_end(bytes: &[u8], from: usize) -> usize
    requires { from ≤ length bytes.now }
    ensures within { result ≤ length bytes.now }
    ensures spaces { (texts : List (List ℕ)) (ps : List Left) → run texts (Spaces ∷ ps) (drop from bytes.now) from ≡ run texts ps (drop result bytes.now) result }
{
    let mut at = from;
    while is_space_at(bytes, at) {
        at += 1;
    }
    at
}

fn gap_end(bytes: &[u8], from: usize) -> End
    requires { from ≤ length bytes.now }
    ensures { (texts : List (List ℕ)) → ReadsPart texts Gap bytes.now from result texts }
{
    if !is_space_at(bytes, from) {
        return End::Stops(from);
    }
    End::At(spaces_end(bytes, from + 1))
}

/// Behind a word in any case.
fn word_end(bytes: &[u8], from: usize, word: &[u8]) -> End
    requires { from ≤ length bytes.now }
    ensures { (texts : List (List ℕ)) → ReadsPart texts (Word word.now) bytes.now from result texts }
{
    let mut at = from;
    for c in word {
        if !is_small_at(bytes, at, *c) {
            return End::Stops(at);
        }
        at += 1;
    }
    End::At(at)
}

fn read_name(
    alloc: Global,
    bytes: &[u8],
    from: usize,
    texts: &mut Vec<Text>,
) -> Result<End, NoMemory>
    requires { from ≤ length bytes.now }
    ensures { IfOk result (λ end. ReadsPart texts.old.items Name bytes.now from end texts.new.items) }
{
    if !is_letter_at(bytes, from) {
        return Ok(End::Stops(from));
    }
    let mut name = Vec::with_capacity(alloc, 32)?;
    name.push(bytes[from])?;
    let mut at = from + 1;
    while name.len() < 32 && is_table_byte_at(bytes, at) {
        name.push(bytes[at])?;
        at += 1;
    }
    texts.push(Text::from_vec(name))?;
    Ok(End::At(at))
}

fn read_quoted(
    alloc: Global,
    bytes: &[u8],
    from: usize,
    texts: &mut Vec<Text>,
) -> Result<End, NoMemory>
    requires { from ≤ length bytes.now }
    ensures { IfOk result (λ end. ReadsPart texts.old.items Quoted bytes.now from end texts.new.items) }
{
    if !is_quote_at(bytes, from) {
        return Ok(End::Stops(from));
    }
    let mut text = Vec::new(alloc);
    let mut at = from + 1;
    while at < bytes.len() {
        if is_quote_at(bytes, at) {
            if !is_quote_at(bytes, at + 1) {
                texts.push(Text::from_vec(text))?;
                return Ok(End::At(at + 1));
            }
            text.push(b'\'')?;
            at += 2;
        } else {
            text.push(bytes[at])?;
            at += 1;
        }
    }
    Ok(End::Stops(at))
}
