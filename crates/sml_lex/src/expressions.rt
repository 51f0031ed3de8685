// The pieces of expressions.
ghost use Rattle.std.specs.Prelude.{◌≡◌, ◌≤◌, ◌<◌, ◌+◌, length, drop, slice_index};
ghost use Rattle.grammar_rules.specs.Spelling as spell;
ghost use Rattle.sml_lex.specs.Coded as coded;

use crate::bytes::{Class, Found, class_of, digit_at};
use crate::comments::comment_end;
use crate::literals::{character_piece, text_piece};
use crate::names::{name_piece, symbol_piece, variable_piece};
use crate::numbers::number_piece;
use crate::refusal::LexRefusal;
use sml_syntax::{Lack, Text, TokenForm};
use std::alloc::Global;

/// The piece of an expression at a place; a `)` ends an antiquotation or not.
pub(crate) fn expression_piece(
    alloc: Global,
    bytes: &[u8],
    at: usize,
    ends: bool,
) -> Result<Found, LexRefusal>
    requires { at < length bytes.now }
    ensures { coded.GivesPiece (spell.expression ends at) at (drop at bytes.now) result }
{
    match class_of(bytes[at]) {
        Class::Blanks => Ok(Found {
            form: None,
            to: at + 1,
        }),
        Class::Letter => name_piece(alloc, bytes, at),
        Class::Digit => number_piece(bytes, at, at, false),
        Class::Tilde => tilde_piece(alloc, bytes, at),
        Class::Hash => hash_piece(alloc, bytes, at),
        Class::Symbol => symbol_piece(alloc, bytes, at),
        Class::Quote => text_piece(alloc, bytes, at),
        Class::Prime => variable_piece(alloc, bytes, at),
        Class::Open => open_piece(alloc, bytes, at),
        Class::Close => close_piece(alloc, bytes, at, ends),
        Class::Mark => mark_piece(alloc, bytes, at),
        Class::Backquote => Ok(Found {
            form: Some(TokenForm::QuoteFrom),
            to: at + 1,
        }),
        Class::Brace => Err(LexRefusal::Unsupported(at as u64, Lack::Records)),
        Class::Dot => dot_piece(bytes, at),
        Class::Other => Err(LexRefusal::BadByte(at as u64)),
    }
}

/// An integer with its sign, or symbols.
fn tilde_piece(alloc: Global, bytes: &[u8], at: usize) -> Result<Found, LexRefusal>
    requires { at < length bytes.now }
    ensures { coded.GivesPiece (spell.behind_tilde at (slice_index bytes.now at)) (at + 1) (drop (at + 1) bytes.now) result }
{
    match digit_at(bytes, at + 1) {
        Some(_) => number_piece(bytes, at, at + 1, true),
        None => symbol_piece(alloc, bytes, at),
    }
}

/// A character, or symbols.
fn hash_piece(alloc: Global, bytes: &[u8], at: usize) -> Result<Found, LexRefusal>
    requires { at < length bytes.now }
    ensures { coded.GivesPiece (spell.behind_hash at (slice_index bytes.now at)) (at + 1) (drop (at + 1) bytes.now) result }
{
    if first_is(b'"', &bytes[at + 1..]) {
        return character_piece(bytes, at);
    }
    symbol_piece(alloc, bytes, at)
}

/// A parenthesis, or a comment.
fn open_piece(alloc: Global, bytes: &[u8], at: usize) -> Result<Found, LexRefusal>
    requires { at < length bytes.now }
    ensures { coded.GivesPiece (spell.behind_open at (slice_index bytes.now at)) (at + 1) (drop (at + 1) bytes.now) result }
{
    if first_is(b'*', &bytes[at + 1..]) {
        return match comment_end(bytes, at) {
            Ok(to) => Ok(Found { form: None, to }),
            Err(refusal) => Err(refusal),
        };
    }
    mark_piece(alloc, bytes, at)
}

fn first_is(b: u8, rest: &[u8]) -> bool
    ensures { result ≡ coded.first_is b rest.now }
{
    match rest {
        [c, ..] => *c == b,
        [] => false,
    }
}

/// A closing parenthesis, which ends an antiquotation or not.
fn close_piece(alloc: Global, bytes: &[u8], at: usize, ends: bool) -> Result<Found, LexRefusal>
    requires { at < length bytes.now }
    ensures { coded.GivesReading (spell.is (spell.close_form ends (slice_index bytes.now at))) (at + 1) result }
{
    if ends {
        return Ok(Found {
            form: Some(TokenForm::AntiTo),
            to: at + 1,
        });
    }
    mark_piece(alloc, bytes, at)
}

/// The mark of one byte.
fn mark_piece(alloc: Global, bytes: &[u8], at: usize) -> Result<Found, LexRefusal>
    requires { at < length bytes.now }
    ensures { coded.GivesReading (coded.mark_of (slice_index bytes.now at)) (at + 1) result }
{
    let mark = Text::from_bytes(alloc, &bytes[at..at + 1])?;
    Ok(Found {
        form: Some(TokenForm::Mark(mark)),
        to: at + 1,
    })
}

/// `...` is a lack, and no token begins at another dot.
fn dot_piece(bytes: &[u8], at: usize) -> Result<Found, LexRefusal>
    requires { at < length bytes.now }
    ensures { coded.GivesPiece (spell.behind_dot at) (at + 1) (drop (at + 1) bytes.now) result }
{
    if has_two_dots(&bytes[at + 1..]) {
        return Err(LexRefusal::Unsupported(at as u64, Lack::Records));
    }
    Err(LexRefusal::BadByte(at as u64))
}

fn has_two_dots(rest: &[u8]) -> bool
    ensures { result ≡ coded.has_two_dots rest.now }
{
    let [b, c, ..] = rest else {
        return false;
    };
    *b == b'.' && *c == b'.'
}
