//! The lexer: a script is cut into tokens in the one way that the language defines, or refused with its first lexical mistake.
#![tactic(auto)]

ghost use Rattle.std.specs.Prelude.{◌≡◌, ◌≤◌, ◌<◌, ◌++◌, ◌∷◌, [], List, false, None, length, drop, OnOk, IfOk, IfErr};
ghost use Rattle.sml_syntax.specs.declared.token.Token.{Token};
ghost use Rattle.grammar_rules.specs.Spelling.{Refusal};
ghost use Rattle.grammar_rules.specs.Tokens.{HasTokens, IsRefused, OnePartition, OneRefusal, NeverBoth, Refuses, token};
ghost use Rattle.sml_lex.specs.Lexed.{IfRefused, refusal_of, GivesTokens, GivesRefusal};
ghost use Rattle.sml_lex.specs.Modes as modes;
ghost use Rattle.sml_lex.specs.Moves.{Moves};

mod bytes;
mod comments;
mod expressions;
mod literals;
mod names;
mod numbers;
mod quotations;
mod quotes;
mod refusal;
mod words;

use bytes::Found;
use expressions::expression_piece;
use quotations::take_quoted;
use quotes::Quotes;
pub use refusal::LexRefusal;
use sml_syntax::{Span, Token, TokenForm};
use std::alloc::Global;

/// The tokens of a script, or its first lexical refusal.
pub fn lex(alloc: Global, bytes: &[u8]) -> Result<Vec<Token>, LexRefusal>
    ensures tokens { IfOk result (λ ts. HasTokens bytes.now ts.items) }
    ensures refusal { IfErr result (λ e. IfRefused (refusal_of e) (IsRefused bytes.now)) }

    // Each comes wherever it may, unless memory is wanting.
    ensures tokens_where { (ts : List Token) → HasTokens bytes.now ts → GivesTokens result ts }
    ensures refusal_where { (r : Refusal) → IsRefused bytes.now r → GivesRefusal result r }
{
    cut(alloc, bytes)
}

/// A script has at most one list of tokens.
pub fn one_partition()
    ensures { OnePartition }
{}

/// A script has at most one refusal.
pub fn one_refusal()
    ensures { OneRefusal }
{}

/// No script has both tokens and a refusal.
pub fn never_both()
    ensures { NeverBoth }
{}

/// Cuts a script into tokens.
fn cut(alloc: Global, bytes: &[u8]) -> Result<Vec<Token>, LexRefusal>
    ensures tokens { IfOk result (λ ts. HasTokens bytes.now ts.items) }
    ensures refused { IfErr result (λ e. IfRefused (refusal_of e) (IsRefused bytes.now)) }
{
    let mut tokens = Vec::with_capacity(alloc, bytes.len())?;
    let mut quotes = Quotes::none(alloc);
    let mut at = 0;
    while at < bytes.len() {
        at = take_piece(alloc, bytes, at, &mut tokens, &mut quotes)?;
    }
    match quotes.outermost() {
        Some(start) => Err(LexRefusal::OpenQuote(start)),
        None => Ok(tokens),
    }
}

/// Takes what stands at a place, up to its end.
fn take_piece(
    alloc: Global,
    bytes: &[u8],
    at: usize,
    tokens: &mut Vec<Token>,
    quotes: &mut Quotes,
) -> Result<usize, LexRefusal>
    requires { at < length bytes.now }
    ensures moves { IfOk result (λ to. Moves bytes.now at quotes.old tokens.old.items to quotes.new tokens.new.items) }
    ensures refused { IfErr result (λ e. IfRefused (refusal_of e) (Refuses quotes.old at (drop at bytes.now))) }
{
    if quotes.is_in_text() {
        return take_quoted(alloc, bytes, at, tokens, quotes);
    }
    take_expression(alloc, bytes, at, tokens, quotes)
}

/// Takes the piece of an expression at a place, up to its end.
fn take_expression(
    alloc: Global,
    bytes: &[u8],
    at: usize,
    tokens: &mut Vec<Token>,
    quotes: &mut Quotes,
) -> Result<usize, LexRefusal>
    requires within { at < length bytes.now }
    requires expression { modes.is_in_text quotes.old ≡ false }
    ensures moves { IfOk result (λ to. Moves bytes.now at quotes.old tokens.old.items to quotes.new tokens.new.items) }
    ensures refused { IfErr result (λ e. IfRefused (refusal_of e) (Refuses quotes.old at (drop at bytes.now))) }
{
    let ends = quotes.ends_at_close();
    let found = match expression_piece(alloc, bytes, at, ends) {
        Ok(found) => found,
        Err(refusal) => return Err(refusal),
    };
    let Found { form, to } = found;
    match form {
        None => Ok(to),
        Some(form) => {
            quotes.take(at as u64, &form)?;
            push_token(tokens, at, to, form)?;
            Ok(to)
        }
    }
}

/// Adds a token with its place.
fn push_token(
    tokens: &mut Vec<Token>,
    at: usize,
    to: usize,
    form: TokenForm,
) -> Result<(), LexRefusal>
    ensures ok { OnOk result (tokens.new.items ≡ tokens.old.items ++ token at to form ∷ []) }
    ensures refused { IfErr result (λ e. refusal_of e ≡ None) }
{
    let span = Span {
        from: at as u64,
        to: to as u64,
    };
    tokens.push(Token { span, form })?;
    Ok(())
}
