// The text of quotations, with what ends its pieces.
ghost use Rattle.std.specs.Prelude.{◌≡◌, ◌≤◌, ◌<◌, ◌+◌, false, true, None, length, drop, slice_index, IfOk, IfErr};
ghost use Rattle.grammar_rules.specs.Tokens.{Refuses};
ghost use Rattle.sml_lex.specs.Coded as coded;
ghost use Rattle.sml_lex.specs.Moves.{Moves, TextTo, IsStop};
ghost use Rattle.sml_lex.specs.Modes as modes;
ghost use Rattle.sml_lex.specs.Moves as moves;

use crate::bytes::{Run, is_letter, run_end};
use crate::push_token;
use crate::quotes::Quotes;
use crate::refusal::LexRefusal;
use sml_syntax::{Text, Token, TokenForm};
use std::alloc::Global;

/// Takes the text of a quotation from a place on, with the token behind it, up to that token's end.
pub(crate) fn take_quoted(
    alloc: Global,
    bytes: &[u8],
    at: usize,
    tokens: &mut Vec<Token>,
    quotes: &mut Quotes,
) -> Result<usize, LexRefusal>
    requires within { at < length bytes.now }
    requires quoted { modes.is_in_text quotes.old ≡ true }
    ensures moves { IfOk result (λ to. Moves bytes.now at quotes.old tokens.old.items to quotes.new tokens.new.items) }
    ensures refused { IfErr result (λ e. coded.IfRefused (coded.refusal_of e) (Refuses quotes.old at (drop at bytes.now))) }
{
    let stop = text_end(bytes, at);
    if stop == bytes.len() {
        return Ok(stop);
    }
    if at < stop {
        let text = Text::from_bytes(alloc, &bytes[at..stop])?;
        push_token(tokens, at, stop, TokenForm::Plain(text))?;
        return take_stop(alloc, bytes, stop, tokens, quotes);
    }
    take_stop(alloc, bytes, stop, tokens, quotes)
}

/// Takes the token that ends a run of text.
fn take_stop(
    alloc: Global,
    bytes: &[u8],
    at: usize,
    tokens: &mut Vec<Token>,
    quotes: &mut Quotes,
) -> Result<usize, LexRefusal>
    requires within { at < length bytes.now }
    requires stop { moves.is_text (slice_index bytes.now at) (drop (at + 1) bytes.now) ≡ false }
    ensures moves { IfOk result (λ to. moves.MovesOver bytes.now at quotes.old tokens.old.items to quotes.new tokens.new.items) }
    ensures refused { IfErr result (λ e. coded.refusal_of e ≡ None) }
{
    let (form, to) = stop_piece(alloc, bytes, at)?;
    quotes.take(at as u64, &form)?;
    push_token(tokens, at, to, form)?;
    Ok(to)
}

/// The end of a run of text.
fn text_end(bytes: &[u8], from: usize) -> usize
    requires { from ≤ length bytes.now }
    ensures text { TextTo from (drop from bytes.now) result }
    ensures onward { from ≤ result }
    ensures within { result ≤ length bytes.now }
{
    let mut at = from;
    while at < bytes.len() && is_text(bytes, at) {
        at += 1;
    }
    at
}

/// A byte of text stands here.
fn is_text(bytes: &[u8], at: usize) -> bool
    requires { at < length bytes.now }
    ensures { result ≡ moves.is_text (slice_index bytes.now at) (drop (at + 1) bytes.now) }
{
    let b = bytes[at];
    if b == b'`' {
        return false;
    }
    if b != b'^' {
        return true;
    }
    !begins_antiquotation(&bytes[at + 1..])
}

/// A letter or a parenthesis stands here.
fn begins_antiquotation(rest: &[u8]) -> bool
    ensures { result ≡ moves.begins_antiquotation rest.now }
{
    match rest {
        [b, ..] => *b == b'(' || is_letter(*b),
        [] => false,
    }
}

/// The token that ends a run of text.
fn stop_piece(alloc: Global, bytes: &[u8], at: usize) -> Result<(TokenForm, usize), LexRefusal>
    requires within { at < length bytes.now }
    requires stop { moves.is_text (slice_index bytes.now at) (drop (at + 1) bytes.now) ≡ false }
    ensures stop { IfOk result (λ s. IsStop bytes.now at s.0 s.1) }
    ensures refused { IfErr result (λ e. coded.refusal_of e ≡ None) }
{
    if bytes[at] == b'`' {
        return Ok((TokenForm::QuoteTo, at + 1));
    }
    if bytes[at + 1] == b'(' {
        return Ok((TokenForm::AntiFrom, at + 2));
    }
    let to = run_end(bytes, at + 2, Run::Names);
    let name = Text::from_bytes(alloc, &bytes[at + 1..to])?;
    Ok((TokenForm::Anti(name), to))
}
