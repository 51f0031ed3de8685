// Numbers as in DWARF's unsigned LEB128, in the fewest bytes.
ghost use Rattle.std.specs.Prelude.{◌≡◌, ◌++◌, ◌≤◌, true, OnOk, IfOk, IfErr};
ghost use Rattle.web_data.specs.Pickles as pickles;
ghost use Rattle.web_data.specs.Pickles.{number_pickle};
ghost use Rattle.value_pickle.specs.Halting as halting;
ghost use Rattle.value_pickle.specs.Halting.{Halts, IsNumber, ReadsNumber};

use crate::refusal::Halt;
use sml_syntax::NoMemory;

/// The number of an integer: 0, 1, 2, 3, .. for 0, -1, 1, -2, ..
pub(crate) fn zigzag(n: i64) -> u64
    ensures { result ≡ pickles.zigzag n }
{
    if n < 0 {
        return (-(n + 1)) as u64 * 2 + 1;
    }
    n as u64 * 2
}

/// The integer of a number.
pub(crate) fn unzigzag(number: u64) -> i64
    ensures { pickles.zigzag result ≡ number }
{
    let half = (number / 2) as i64;
    if number % 2 == 1 {
        return -half - 1;
    }
    half
}

/// Writes a number at the end.
pub(crate) fn push_number(out: &mut Vec<u8>, number: u64) -> Result<(), NoMemory>
    ensures { OnOk result (out.new.items ≡ out.old.items ++ number_pickle number) }
{
    let mut left = number;
    while left >= 128 {
        out.push((128 + left % 128) as u8)?;
        left /= 128;
    }
    Ok(out.push(left as u8)?)
}

/// Reads the number at the front.
pub(crate) fn read_number(bytes: &[u8]) -> Result<(u64, &[u8]), Halt>
    ensures number { IfOk result (λ x. ReadsNumber 9 true bytes.now x.0 x.1.now) }
    ensures halt { IfErr result (Halts (IsNumber 9 true) bytes.now) }
{
    read_digits(bytes, 9, true)
}

/// Reads a number in at most `more + 1` bytes, the lowest seven bits first. Only its first byte may be 0.
fn read_digits(bytes: &[u8], more: u8, first: bool) -> Result<(u64, &[u8]), Halt>
    requires { more ≤ 9 }
    ensures number { IfOk result (λ x. ReadsNumber more first bytes.now x.0 x.1.now) }
    ensures halt { IfErr result (Halts (IsNumber more first) bytes.now) }
{
    let [byte, rest @ ..] = bytes else {
        return Err(Halt::Left(0));
    };
    let byte = *byte as u64;
    if !may_stand(byte, more, first) {
        return Err(Halt::Left(bytes.len()));
    }
    if byte < 128 {
        return Ok((byte, rest));
    }
    let (high, rest) = read_digits(rest, more - 1, false)?;
    Ok((byte - 128 + 128 * high, rest))
}

/// Whether a number may begin with this byte.
fn may_stand(byte: u64, more: u8, first: bool) -> bool
    ensures { result ≡ halting.may_stand more first byte }
{
    (first || byte != 0) && (more > 0 || byte < 2)
}
