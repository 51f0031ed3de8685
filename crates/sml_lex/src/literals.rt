// Texts and characters.
ghost use Rattle.std.specs.Prelude.{◌≡◌, ◌≤◌, ◌<◌, ◌+◌, [], Some, length, drop};
ghost use Rattle.grammar_rules.specs.Spelling as spell;
ghost use Rattle.sml_lex.specs.Coded as coded;

use crate::bytes::{Found, digit_at};
use crate::refusal::LexRefusal;
use sml_syntax::{Lack, Text, TokenForm};
use std::alloc::Global;

/// What a backslash begins.
#[derive(Clone, Copy, PartialEq, Eq)]
pub(crate) enum Escaped {
    /// A byte, up to where its escape ends.
    Byte(u8, usize),
    /// Nothing follows.
    Open,
    /// A wrong number.
    Bad,
    /// An escape that the language lacks.
    Lacking,
}

/// What stands at a place of a text.
#[derive(Clone, Copy, PartialEq, Eq)]
pub(crate) enum Turn {
    /// A byte of the text, up to where it ends.
    Byte(u8, usize),
    /// The closing mark.
    Shut,
    Refused(LexRefusal),
}

/// The text at a quotation mark.
pub(crate) fn text_piece(alloc: Global, bytes: &[u8], start: usize) -> Result<Found, LexRefusal>
    requires { start < length bytes.now }
    ensures { coded.GivesPiece (spell.literal start (spell.TextOf []) (start + 1)) (start + 1) (drop (start + 1) bytes.now) result }
{
    let mut value = Vec::new(alloc);
    let mut at = start + 1;
    while at < bytes.len() {
        match text_turn(bytes, start, at) {
            Turn::Byte(byte, to) => {
                value.push(byte)?;
                at = to;
            }
            Turn::Shut => {
                let form = TokenForm::Str(Text::from_vec(value));
                return Ok(Found {
                    form: Some(form),
                    to: at + 1,
                });
            }
            Turn::Refused(refusal) => return Err(refusal),
        }
    }
    Err(LexRefusal::OpenString(start as u64))
}

fn text_turn(bytes: &[u8], start: usize, at: usize) -> Turn
    requires { at < length bytes.now }
    ensures { coded.IsTurn bytes.now start at result }
{
    let b = bytes[at];
    if b == b'"' {
        return Turn::Shut;
    }
    if b == b'\\' {
        return match escape_at(bytes, at) {
            Escaped::Byte(byte, to) => Turn::Byte(byte, to),
            Escaped::Open => Turn::Refused(LexRefusal::OpenString(start as u64)),
            Escaped::Bad => Turn::Refused(LexRefusal::BadByte(at as u64)),
            Escaped::Lacking => Turn::Refused(LexRefusal::Unsupported(at as u64, Lack::Escape)),
        };
    }
    if b == b'\n' {
        return Turn::Refused(LexRefusal::OpenString(start as u64));
    }
    if b < 32 {
        return Turn::Refused(LexRefusal::BadByte(at as u64));
    }
    Turn::Byte(b, at + 1)
}

/// The character at a `#` before a quotation mark.
pub(crate) fn character_piece(bytes: &[u8], start: usize) -> Result<Found, LexRefusal>
    requires { start + 2 ≤ length bytes.now }
    ensures { coded.GivesPiece (spell.literal start spell.Char (start + 2)) (start + 2) (drop (start + 2) bytes.now) result }
{
    let at = start + 2;
    if at >= bytes.len() {
        return Err(LexRefusal::BadByte(start as u64));
    }
    let b = bytes[at];
    if b == b'"' {
        return Err(LexRefusal::BadByte(start as u64));
    }
    if b == b'\\' {
        return match escape_at(bytes, at) {
            Escaped::Byte(byte, to) => shut_character(bytes, start, byte, to),
            Escaped::Open => Err(LexRefusal::BadByte(start as u64)),
            Escaped::Bad => Err(LexRefusal::BadByte(at as u64)),
            Escaped::Lacking => Err(LexRefusal::Unsupported(at as u64, Lack::Escape)),
        };
    }
    if b < 32 {
        return Err(LexRefusal::BadByte(start as u64));
    }
    if b >= 128 {
        return Err(LexRefusal::BadByte(at as u64));
    }
    shut_character(bytes, start, b, at + 1)
}

/// A character whose closing mark is looked for at a place.
fn shut_character(bytes: &[u8], start: usize, byte: u8, at: usize) -> Result<Found, LexRefusal>
    ensures { coded.GivesPiece (spell.literal start (spell.CharOf byte) at) at (drop at bytes.now) result }
{
    if at >= bytes.len() {
        return Err(LexRefusal::BadByte(start as u64));
    }
    if bytes[at] != b'"' {
        return Err(LexRefusal::BadByte(start as u64));
    }
    Ok(Found {
        form: Some(TokenForm::Char(byte)),
        to: at + 1,
    })
}

/// `n`, `t`, a backslash or a quotation mark.
fn is_short_escape(c: u8) -> bool
    ensures { result ≡ spell.is_short_escape c }
{
    c == b'n' || c == b't' || c == b'\\' || c == b'"'
}

fn short_escape(c: u8) -> u8
    ensures { result ≡ spell.short_escape c }
{
    if c == b'n' {
        return 10;
    }
    if c == b't' {
        return 9;
    }
    c
}

/// What the backslash at a place begins.
fn escape_at(bytes: &[u8], at: usize) -> Escaped
    requires { at < length bytes.now }
    ensures { coded.IsEscape bytes.now at result }
{
    if at + 1 >= bytes.len() {
        return Escaped::Open;
    }
    let c = bytes[at + 1];
    if is_short_escape(c) {
        return Escaped::Byte(short_escape(c), at + 2);
    }
    match digit_at(bytes, at + 1) {
        Some(hundreds) => number_at(bytes, at, hundreds),
        None => Escaped::Lacking,
    }
}

/// The number of three digits behind the backslash at a place; the first is known.
fn number_at(bytes: &[u8], at: usize, hundreds: u8) -> Escaped
    requires { coded.IsDigitAt bytes.now (at + 1) (Some hundreds) }
    ensures { coded.IsEscape bytes.now at result }
{
    let Some(tens) = digit_at(bytes, at + 2) else {
        return Escaped::Bad;
    };
    let Some(ones) = digit_at(bytes, at + 3) else {
        return Escaped::Bad;
    };
    let n = 10 * (10 * hundreds as u16 + tens as u16) + ones as u16;
    if n >= 256 {
        return Escaped::Bad;
    }
    Escaped::Byte(n as u8, at + 4)
}
