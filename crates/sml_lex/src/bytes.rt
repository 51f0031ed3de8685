// Bytes by their classes, and runs of them.
ghost use Rattle.std.specs.Prelude.{◌≡◌, ◌≤◌, ◌<◌, length, drop, slice_index};
ghost use Rattle.sml_syntax.specs.ByteClasses as classes;
ghost use Rattle.grammar_rules.specs.Spelling as spell;
ghost use Rattle.sml_lex.specs.Coded as coded;

use sml_syntax::TokenForm;

/// A blank, a comment or a token, up to its end.
#[derive(Drop)]
pub(crate) struct Found {
    /// The token's form; a blank or a comment has none.
    pub form: Option<TokenForm>,
    pub to: usize,
}

/// What the first byte of a piece tells in an expression.
#[derive(Clone, Copy, PartialEq, Eq)]
pub(crate) enum Class {
    Blanks,
    Letter,
    Digit,
    Tilde,
    Hash,
    Symbol,
    Quote,
    Prime,
    Open,
    Close,
    Mark,
    Backquote,
    Brace,
    Dot,
    Other,
}

/// The bytes of a run.
#[derive(Clone, Copy, PartialEq, Eq)]
pub(crate) enum Run {
    Names,
    Digits,
    Symbols,
}

pub(crate) fn is_blank(b: u8) -> bool
    ensures { result ≡ spell.is_blank b }
{
    b == b' ' || b == b'\t' || b == b'\r' || b == b'\n' || b == 12
}

pub(crate) fn is_digit(b: u8) -> bool
    ensures { result ≡ classes.is_digit b }
{
    48 <= b && b <= 57
}

pub(crate) fn is_letter(b: u8) -> bool
    ensures { result ≡ classes.is_letter b }
{
    (65 <= b && b <= 90) || (97 <= b && b <= 122)
}

pub(crate) fn is_name_byte(b: u8) -> bool
    ensures { result ≡ spell.is_name_byte b }
{
    is_letter(b) || is_digit(b) || b == b'_' || b == b'\''
}

pub(crate) fn is_symbol_byte(b: u8) -> bool
    ensures { result ≡ spell.is_symbol_byte b }
{
    b == b'!'
        || b == b'%'
        || b == b'&'
        || b == b'$'
        || b == b'#'
        || b == b'+'
        || b == b'-'
        || b == b'/'
        || b == b':'
        || b == b'<'
        || b == b'='
        || b == b'>'
        || b == b'?'
        || b == b'@'
        || b == b'\\'
        || b == b'~'
        || b == b'^'
        || b == b'|'
        || b == b'*'
}

/// `[ ] , ; _`
pub(crate) fn is_mark(b: u8) -> bool
    ensures { result ≡ spell.is_mark b }
{
    b == b'[' || b == b']' || b == b',' || b == b';' || b == b'_'
}

pub(crate) fn is_hexadecimal(b: u8) -> bool
    ensures { result ≡ spell.is_hexadecimal b }
{
    is_digit(b) || (65 <= b && b <= 70) || (97 <= b && b <= 102)
}

#[tactic(auto, unfolding(grammar_rules::specs::Spelling::class))]
pub(crate) fn class_of(b: u8) -> Class
    ensures { coded.class_as result ≡ spell.class b }
{
    if is_blank(b) {
        return Class::Blanks;
    }
    if is_letter(b) {
        return Class::Letter;
    }
    if is_digit(b) {
        return Class::Digit;
    }
    if b == b'~' {
        return Class::Tilde;
    }
    if b == b'#' {
        return Class::Hash;
    }
    if is_symbol_byte(b) {
        return Class::Symbol;
    }
    class_of_mark(b)
}

/// The class of a byte that is no blank, letter, digit or symbol.
#[tactic(auto, unfolding(grammar_rules::specs::Spelling::mark_class))]
fn class_of_mark(b: u8) -> Class
    ensures { coded.class_as result ≡ spell.mark_class b }
{
    if b == b'"' {
        return Class::Quote;
    }
    if b == b'\'' {
        return Class::Prime;
    }
    if b == b'(' {
        return Class::Open;
    }
    if b == b')' {
        return Class::Close;
    }
    if is_mark(b) {
        return Class::Mark;
    }
    if b == b'`' {
        return Class::Backquote;
    }
    if b == b'{' || b == b'}' {
        return Class::Brace;
    }
    if b == b'.' {
        return Class::Dot;
    }
    Class::Other
}

pub(crate) fn in_run(run: Run, b: u8) -> bool
    ensures { result ≡ coded.in_run run b }
{
    match run {
        Run::Names => is_name_byte(b),
        Run::Digits => is_digit(b),
        Run::Symbols => is_symbol_byte(b),
    }
}

/// The end of a run.
pub(crate) fn run_end(bytes: &[u8], from: usize, run: Run) -> usize
    requires { from ≤ length bytes.now }
    ensures run { coded.RunTo (coded.in_run run) from (drop from bytes.now) result }
    ensures onward { from ≤ result }
    ensures within { result ≤ length bytes.now }
{
    let mut at = from;
    while at < bytes.len() && in_run(run, bytes[at]) {
        at += 1;
    }
    at
}

/// The digit at a place, as a number.
pub(crate) fn digit_at(bytes: &[u8], at: usize) -> Option<u8>
    ensures { coded.IsDigitAt bytes.now at result }
{
    if at >= bytes.len() {
        return None;
    }
    let b = bytes[at];
    if !is_digit(b) {
        return None;
    }
    Some(b - 48)
}
