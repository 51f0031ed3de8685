// What the table reads of a token: its text, and the place of a name.
ghost use Rattle.std.specs.Prelude.{◌≡◌, IfOk};
ghost use Rattle.sml_grammar.specs.Tokens.{text_of, one_more, operand_level, may_be_infix};
ghost use Rattle.grammar_rules.specs.InfixNames.{infix_level, symbol_level, word_level};
ghost use Rattle.grammar_rules.specs.Nodes.{name_place};

use sml_syntax::{NoMemory, Span, Text, Token, TokenForm};
use std::alloc::Global;

/// The text of a token; none is the empty text.
#[tactic(auto, unfolding(crate::specs::Tokens::text_of))]
pub fn text_of(token: &Token) -> &[u8]
    ensures { result.now ≡ text_of token.now.form }
{
    match &token.form {
        TokenForm::Str(text) => text.as_bytes(),
        TokenForm::Name(text) => text.as_bytes(),
        TokenForm::Long(text) => text.as_bytes(),
        TokenForm::TyVar(text) => text.as_bytes(),
        TokenForm::Mark(text) => text.as_bytes(),
        TokenForm::Plain(text) => text.as_bytes(),
        TokenForm::Anti(text) => text.as_bytes(),
        _ => &[],
    }
}

pub fn copy_text(alloc: Global, token: &Token) -> Result<Text, NoMemory>
    ensures { IfOk result (λ text. text ≡ text_of token.now.form) }
{
    Text::from_bytes(alloc, text_of(token))
}

/// The place of an antiquoted name, behind its `^`.
#[tactic(auto, unfolding(grammar_rules::specs::Nodes::name_place))]
pub fn name_place(span: Span) -> u64
    ensures { result ≡ name_place span }
{
    if span.from < span.to {
        span.from + 1
    } else {
        span.from
    }
}

#[tactic(auto, unfolding(crate::specs::Tokens::one_more))]
pub fn one_more(count: u64) -> u64
    ensures { result ≡ one_more count }
{
    if count < 0xffff_ffff_ffff_ffff {
        count + 1
    } else {
        count
    }
}

/// The level at which the right operand of an infix name begins.
#[tactic(auto, unfolding(crate::specs::Tokens::operand_level))]
pub fn operand_level(level: u8) -> u8
    ensures { result ≡ operand_level level }
{
    if level == 5 {
        5
    } else if level < 8 {
        level + 1
    } else {
        8
    }
}

/// Whether a clause of this function may be written with its name between two patterns.
#[tactic(auto, unfolding(crate::specs::Tokens::may_be_infix))]
pub fn may_be_infix(name: &[u8], count: u64) -> bool
    ensures { result ≡ may_be_infix name.now count }
{
    if count == 1 {
        infix_level(name).is_some()
    } else {
        false
    }
}

#[tactic(auto, unfolding(grammar_rules::specs::InfixNames::infix_level))]
pub fn infix_level(name: &[u8]) -> Option<u8>
    ensures { result ≡ infix_level name.now }
{
    match symbol_level(name) {
        Some(level) => Some(level),
        None => word_level(name),
    }
}

#[tactic(auto, unfolding(grammar_rules::specs::InfixNames::symbol_level))]
fn symbol_level(name: &[u8]) -> Option<u8>
    ensures { result ≡ symbol_level name.now }
{
    if name == b"*".as_slice() {
        Some(7)
    } else if name == b"+".as_slice() {
        Some(6)
    } else if name == b"-".as_slice() {
        Some(6)
    } else if name == b"^".as_slice() {
        Some(6)
    } else if name == b"::".as_slice() {
        Some(5)
    } else if name == b"@".as_slice() {
        Some(5)
    } else if name == b"=".as_slice() {
        Some(4)
    } else if name == b"<>".as_slice() {
        Some(4)
    } else if name == b"<".as_slice() {
        Some(4)
    } else if name == b"<=".as_slice() {
        Some(4)
    } else if name == b">".as_slice() {
        Some(4)
    } else if name == b">=".as_slice() {
        Some(4)
    } else if name == b":=".as_slice() {
        Some(3)
    } else {
        None
    }
}

#[tactic(auto, unfolding(grammar_rules::specs::InfixNames::word_level))]
fn word_level(name: &[u8]) -> Option<u8>
    ensures { result ≡ word_level name.now }
{
    if name == b"div".as_slice() {
        Some(7)
    } else if name == b"mod".as_slice() {
        Some(7)
    } else if name == b"o".as_slice() {
        Some(3)
    } else if name == b"before".as_slice() {
        Some(0)
    } else {
        None
    }
}
