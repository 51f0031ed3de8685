// Reserved words, and words of forms that the language lacks.
ghost use Rattle.std.specs.Prelude.{◌≡◌};
ghost use Rattle.grammar_rules.specs.Spelling as spell;
ghost use Rattle.sml_lex.specs.Coded as coded;

use sml_syntax::Lack;

const RESERVED: [&str; 22] = [
    "and",
    "andalso",
    "case",
    "datatype",
    "else",
    "end",
    "exception",
    "fn",
    "fun",
    "handle",
    "if",
    "in",
    "let",
    "local",
    "of",
    "op",
    "orelse",
    "raise",
    "rec",
    "then",
    "type",
    "val",
];

const MODULES: [&str; 10] = [
    "structure",
    "struct",
    "signature",
    "sig",
    "functor",
    "open",
    "include",
    "sharing",
    "where",
    "eqtype",
];

const LAYERED: [&str; 1] = ["as"];

const ABSTYPE: [&str; 3] = ["abstype", "with", "withtype"];

const FIXITY: [&str; 3] = ["infix", "infixr", "nonfix"];

const WHILE: [&str; 2] = ["while", "do"];

const RESERVED_SYMBOLS: [&str; 5] = [":", "|", "=", "=>", "->"];

/// What a word of letters or a run of symbols is.
#[derive(Clone, Copy, PartialEq, Eq)]
pub(crate) enum WordKind {
    Plain,
    Reserved,
    Lacks(Lack),
}

fn is_among(words: &[&str], word: &[u8]) -> bool
    ensures { result ≡ coded.is_among_texts words.now word.now }
{
    words.iter().any(|w| w.as_bytes() == word)
}

#[tactic(auto, unfolding(grammar_rules::specs::Spelling::word_kind))]
pub(crate) fn word_kind(word: &[u8]) -> WordKind
    ensures { coded.word_as result ≡ spell.word_kind word.now }
{
    if is_among(&RESERVED, word) {
        return WordKind::Reserved;
    }
    if is_among(&MODULES, word) {
        return WordKind::Lacks(Lack::Module);
    }
    if is_among(&LAYERED, word) {
        return WordKind::Lacks(Lack::Layered);
    }
    if is_among(&ABSTYPE, word) {
        return WordKind::Lacks(Lack::Abstype);
    }
    if is_among(&FIXITY, word) {
        return WordKind::Lacks(Lack::Fixity);
    }
    if is_among(&WHILE, word) {
        return WordKind::Lacks(Lack::While);
    }
    WordKind::Plain
}

pub(crate) fn is_plain(word: &[u8]) -> bool
    ensures { result ≡ spell.is_plain word.now }
{
    match word_kind(word) {
        WordKind::Plain => true,
        WordKind::Reserved => false,
        WordKind::Lacks(_) => false,
    }
}

#[tactic(auto, unfolding(grammar_rules::specs::Spelling::symbol_kind))]
pub(crate) fn symbol_kind(run: &[u8]) -> WordKind
    ensures { coded.word_as result ≡ spell.symbol_kind run.now }
{
    if is_among(&RESERVED_SYMBOLS, run) {
        return WordKind::Reserved;
    }
    if is_among(&[":>"], run) {
        return WordKind::Lacks(Lack::Module);
    }
    if is_among(&["#"], run) {
        return WordKind::Lacks(Lack::Records);
    }
    WordKind::Plain
}
