// Integers, and the forms of numbers that the language lacks.
ghost use Rattle.std.specs.Prelude.{◌≡◌, ◌≤◌, ◌<◌, ◌+◌, ◌^◌, [], ◌∷◌, length, drop, slice_index, IfSome, IsNone};
ghost use Rattle.grammar_rules.specs.Spelling as spell;
ghost use Rattle.sml_lex.specs.Coded as coded;

use crate::bytes::{Found, Run, is_digit, is_hexadecimal, run_end};
use crate::refusal::LexRefusal;
use sml_syntax::{Lack, TokenForm};

/// The greatest distance of an integer from 0.
const FARTHEST: u64 = 0x8000_0000_0000_0000;

/// The number at `start` whose first digit stands at `from`.
pub(crate) fn number_piece(
    bytes: &[u8],
    start: usize,
    from: usize,
    negative: bool,
) -> Result<Found, LexRefusal>
    requires { from < length bytes.now }
    ensures { coded.GivesPiece (spell.numbers start from negative (slice_index bytes.now from ∷ [])) (from + 1) (drop (from + 1) bytes.now) result }
{
    let end = run_end(bytes, from + 1, Run::Digits);
    let digits = &bytes[from..end];
    let rest = &bytes[end..];
    if let Some(lack) = number_lack(digits, rest) {
        return Err(LexRefusal::Unsupported(from as u64, lack));
    }
    match integer(negative, digits) {
        Some(n) => Ok(Found {
            form: Some(TokenForm::Int(n)),
            to: end,
        }),
        None => Err(LexRefusal::WideNumber(start as u64)),
    }
}

/// The lack that digits and the bytes behind them begin.
fn number_lack(digits: &[u8], rest: &[u8]) -> Option<Lack>
    ensures { result ≡ coded.lack_begun digits.now rest.now }
{
    if begins_real(rest) {
        return Some(Lack::Reals);
    }
    let zero = is_zero(digits);
    if zero && begins_word(rest) {
        return Some(Lack::Words);
    }
    if zero && begins_hexadecimal(rest) {
        return Some(Lack::Hexadecimal);
    }
    None
}

fn is_zero(digits: &[u8]) -> bool
    ensures { result ≡ spell.is_zero digits.now }
{
    match digits {
        [d] => *d == b'0',
        _ => false,
    }
}

fn is_exponent(b: u8) -> bool
    ensures { result ≡ spell.is_exponent b }
{
    b == b'e' || b == b'E'
}

/// `.` and a digit, `e` and a digit, or `e~` and a digit stand here.
fn begins_real(rest: &[u8]) -> bool
    ensures { result ≡ coded.begins_real rest.now }
{
    let [b, c, more @ ..] = rest else {
        return false;
    };
    let exponent = is_exponent(*b);
    if (*b == b'.' || exponent) && is_digit(*c) {
        return true;
    }
    exponent && *c == b'~' && first_is_digit(more)
}

fn first_is_digit(rest: &[u8]) -> bool
    ensures { result ≡ coded.first_is_digit rest.now }
{
    match rest {
        [d, ..] => is_digit(*d),
        [] => false,
    }
}

/// `w` and a digit or `x` stand here.
fn begins_word(rest: &[u8]) -> bool
    ensures { result ≡ coded.begins_word rest.now }
{
    let [b, c, ..] = rest else {
        return false;
    };
    *b == b'w' && (is_digit(*c) || *c == b'x')
}

/// `x` and a hexadecimal digit stand here.
fn begins_hexadecimal(rest: &[u8]) -> bool
    ensures { result ≡ coded.begins_hexadecimal rest.now }
{
    let [b, c, ..] = rest else {
        return false;
    };
    *b == b'x' && is_hexadecimal(*c)
}

/// The integer of 64 bits, if it is one.
fn integer(negative: bool, digits: &[u8]) -> Option<i64>
    ensures { coded.IsInteger negative digits.now result }
{
    let n = distance(digits)?;
    if negative {
        if n == FARTHEST {
            return Some(i64::MIN);
        }
        return Some(-(n as i64));
    }
    if n == FARTHEST {
        return None;
    }
    Some(n as i64)
}

/// The number of decimal digits, where it is at most `FARTHEST`.
fn distance(digits: &[u8]) -> Option<u64>
    ensures some { IfSome result (λ n. n ≡ spell.decimal_from 0 digits.now) }
    ensures within { IfSome result (λ n. n ≤ 2 ^ 63) }
    ensures none { IsNone result → 2 ^ 63 < spell.decimal_from 0 digits.now }
{
    let mut n = 0u64;
    for d in digits {
        if n > 922_337_203_685_477_580 {
            return None;
        }
        n = 10 * n + d.saturating_sub(48) as u64;
        if n > FARTHEST {
            return None;
        }
    }
    Some(n)
}
