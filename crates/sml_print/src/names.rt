// What the printer asks of names.
ghost use Rattle.std.specs.Prelude.{◌≡◌};
ghost use Rattle.std.specs.Option.{option_copied};
ghost use Rattle.grammar_rules.specs.InfixNames.{infix_level, symbol_level, word_level};
ghost use Rattle.print_laws.specs.Printing as printing;
ghost use Rattle.print_laws.specs.Printing.{exp_ink};
ghost use Rattle.print_laws.specs.Spelled.{is_among_texts};
ghost use Rattle.sml_print.specs.Places as places;

use sml_syntax::{Exp, ExpForm, Text};

/// The reserved words.
const RESERVED: [&str; 22] = [
    "and",
    "andalso",
    "case",
    "datatype",
    "else",
    "end",
    "exception",
    "fn",
    "fun",
    "handle",
    "if",
    "in",
    "let",
    "local",
    "of",
    "op",
    "orelse",
    "raise",
    "rec",
    "then",
    "type",
    "val",
];

/// The words of forms that the language lacks.
const LACKING: [&str; 19] = [
    "structure",
    "struct",
    "signature",
    "sig",
    "functor",
    "open",
    "include",
    "sharing",
    "where",
    "eqtype",
    "as",
    "abstype",
    "with",
    "withtype",
    "infix",
    "infixr",
    "nonfix",
    "while",
    "do",
];

fn is_among(words: &[&str], word: &[u8]) -> bool
    ensures { result ≡ is_among_texts words.now word.now }
{
    words.iter().any(|w| w.as_bytes() == word)
}

/// Whether a name can only stand behind `^`, where each word is taken for a name.
#[tactic(auto, unfolding(print_laws::specs::Printing::is_lone))]
pub(crate) fn is_lone(name: &Text) -> bool
    ensures { result ≡ printing.is_lone name.now }
{
    is_among(&RESERVED, name.as_bytes()) || is_among(&LACKING, name.as_bytes())
}

/// The name of an expression, where it can only stand behind `^`.
#[tactic(auto, using(print_laws::proofs::Opened::lone_opened))]
pub(crate) fn lone_name(exp: &Exp) -> Option<&Text>
    ensures { option_copied result ≡ (exp_ink exp.now).lone }
{
    match &exp.form {
        ExpForm::Name(name) if is_lone(name) => Some(name),
        _ => None,
    }
}

/// Whether a name is one of several parts.
pub(crate) fn has_dot(name: &Text) -> bool
    ensures { result ≡ printing.has_dot name.now }
{
    name.as_bytes().iter().any(|b| *b == b'.')
}

/// The level of an infix name of one part.
pub(crate) fn operator_level(name: &Text) -> Option<u8>
    ensures { result ≡ places.operator_level name.now }
{
    if has_dot(name) {
        return None;
    }
    infix_level(name.as_bytes())
}

/// The level of an infix name; any other name has none.
#[tactic(auto, unfolding(grammar_rules::specs::InfixNames::infix_level))]
pub(crate) fn infix_level(name: &[u8]) -> Option<u8>
    ensures { result ≡ infix_level name.now }
{
    match symbol_level(name) {
        Some(level) => Some(level),
        None => word_level(name),
    }
}

#[tactic(auto, unfolding(grammar_rules::specs::InfixNames::symbol_level))]
fn symbol_level(name: &[u8]) -> Option<u8>
    ensures { result ≡ symbol_level name.now }
{
    if name == b"*".as_slice() {
        Some(7)
    } else if name == b"+".as_slice() {
        Some(6)
    } else if name == b"-".as_slice() {
        Some(6)
    } else if name == b"^".as_slice() {
        Some(6)
    } else if name == b"::".as_slice() {
        Some(5)
    } else if name == b"@".as_slice() {
        Some(5)
    } else if name == b"=".as_slice() {
        Some(4)
    } else if name == b"<>".as_slice() {
        Some(4)
    } else if name == b"<".as_slice() {
        Some(4)
    } else if name == b"<=".as_slice() {
        Some(4)
    } else if name == b">".as_slice() {
        Some(4)
    } else if name == b">=".as_slice() {
        Some(4)
    } else if name == b":=".as_slice() {
        Some(3)
    } else {
        None
    }
}

#[tactic(auto, unfolding(grammar_rules::specs::InfixNames::word_level))]
fn word_level(name: &[u8]) -> Option<u8>
    ensures { result ≡ word_level name.now }
{
    if name == b"div".as_slice() {
        Some(7)
    } else if name == b"mod".as_slice() {
        Some(7)
    } else if name == b"o".as_slice() {
        Some(3)
    } else if name == b"before".as_slice() {
        Some(0)
    } else {
        None
    }
}
