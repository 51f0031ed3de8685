// Numbers in texts.
use sml_syntax::NoMemory;
use std::alloc::Global;

/// The decimal text of a number, with `~` for minus.
pub fn spelling(alloc: Global, number: i64) -> Result<Vec<u8>, NoMemory> {
    let mut text = Vec::new(alloc);
    if number < 0 {
        text.push(b'~')?;
    }
    text.extend_from_slice(number.unsigned_abs().to_string(alloc)?.as_bytes())?;
    Ok(text)
}

/// The number that a text begins with.
#[derive(Clone, Copy, Debug)]
pub enum Front {
    None,
    Number(i64),
    /// It has more than 64 bits.
    Wide,
}

// The bytes behind the white space at the front.
fn behind_white(bytes: &[u8]) -> &[u8] {
    for (place, byte) in bytes.iter().enumerate() {
        if !matches!(*byte, 9..=13 | 32) {
            return &bytes[place..];
        }
    }
    &[]
}

// The number of the digits at the front; the greatest one where it is greater.
fn digits(bytes: &[u8]) -> Option<u64> {
    let mut number: Option<u64> = None;
    for byte in bytes {
        if !byte.is_ascii_digit() {
            break;
        }
        let digit = byte.wrapping_sub(b'0') as u64;
        let before = number.unwrap_or(0);
        number = Some(before.saturating_mul(10).saturating_add(digit));
    }
    number
}

// A number of this size, below 0 or not.
fn signed(size: u64, negative: bool) -> Front {
    if negative {
        if size > 1 << 63 {
            return Front::Wide;
        }
        return Front::Number(size.wrapping_neg().cast_signed());
    }
    if size >= 1 << 63 {
        return Front::Wide;
    }
    Front::Number(size.cast_signed())
}

/// The number that a text begins with, behind white space: `~`, `-`, `+` or no sign, and digits.
pub fn number_front(bytes: &[u8]) -> Front {
    let rest = behind_white(bytes);
    let (negative, rest) = match rest {
        [b'~' | b'-', more @ ..] => (true, more),
        [b'+', more @ ..] => (false, more),
        _ => (false, rest),
    };
    match digits(rest) {
        None => Front::None,
        Some(size) => signed(size, negative),
    }
}
