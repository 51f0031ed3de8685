ghost use Rattle.std.specs.Prelude.{◌≡◌, ◌++◌, ◌∷◌, [], ℕ, IfOk, IfErr, Err};
ghost use Rattle.web_data.specs.declared.datum.Datum as described;
ghost use Rattle.web_data.specs.Pickles.{IsPickle, bool_pickle};
ghost use Rattle.value_pickle.specs.Halting.{Halts, HaltsAtFlag, HaltsWhole, IsWhole, Reads, AreItems, ReadsItems, IsCounted, ReadsText};
ghost use Rattle.value_pickle.specs.Reading.{NoPickle, GivesDatum, GivesPlace};

use crate::numbers::{read_number, unzigzag};
use crate::refusal::{Halt, PickleRefusal};
use sml_syntax::{Boxed, Listed, NoMemory, Text};
use std::alloc::Global;
use web_data::{Datum, Desc};

/// The datum of a pickle. `NotAPickle` comes exactly where the bytes are none of the description, and has the length of
/// their longest prefix that begins one.
pub fn read(alloc: Global, desc: &Desc, bytes: &[u8]) -> Result<Datum, PickleRefusal>
    ensures datum { IfOk result (λ x. IsPickle desc.now x bytes.now) }
    ensures refusal { (place : ℕ) → result ≡ Err (PickleRefusal.NotAPickle place) → NoPickle desc.now bytes.now place }
    ensures datum_where { (x : described.Datum) → IsPickle desc.now x bytes.now → GivesDatum result x }
    ensures refusal_where { (place : ℕ) → NoPickle desc.now bytes.now place → GivesPlace result place }
{
    match read_whole(alloc, desc, bytes) {
        Ok(datum) => Ok(datum),
        Err(Halt::Left(left)) => Err(PickleRefusal::NotAPickle((bytes.len() - left) as u64)),
        Err(Halt::NoMemory) => Err(PickleRefusal::NoMemory),
    }
}

/// Reads a datum, with nothing behind it.
fn read_whole(alloc: Global, desc: &Desc, bytes: &[u8]) -> Result<Datum, Halt>
    ensures datum { IfOk result (λ x. IsPickle desc.now x bytes.now) }
    ensures halt { IfErr result (HaltsWhole desc.now bytes.now) }
{
    let (datum, rest) = read_datum(alloc, desc, bytes)?;
    if !rest.is_empty() {
        return Err(Halt::Left(rest.len()));
    }
    Ok(datum)
}

/// Reads the datum at the front.
#[cycle(reading)]
fn read_datum<'a>(alloc: Global, desc: &Desc, bytes: &'a [u8]) -> Result<(Datum, &'a [u8]), Halt>
    ensures datum { IfOk result (λ x. Reads desc.now bytes.now x.0 x.1.now) }
    ensures halt { IfErr result (Halts (IsWhole desc.now) bytes.now) }
{
    match desc {
        Desc::Int => {
            let (number, rest) = read_number(bytes)?;
            Ok((Datum::Int(unzigzag(number)), rest))
        }
        Desc::Bool => {
            let (b, rest) = read_flag(bytes)?;
            Ok((Datum::Bool(b), rest))
        }
        Desc::Char => {
            let (c, rest) = read_char(bytes)?;
            Ok((Datum::Char(c), rest))
        }
        Desc::Str => {
            let (text, rest) = read_text(alloc, bytes)?;
            Ok((Datum::Str(text), rest))
        }
        Desc::Unit => Ok((Datum::Unit, bytes)),
        Desc::Pair(a, b) => {
            let (x, rest) = read_part(alloc, a, bytes)?;
            let (y, rest) = read_part(alloc, b, rest)?;
            Ok((Datum::Pair(x, y), rest))
        }
        Desc::Triple(a, b, c) => {
            let (x, rest) = read_part(alloc, a, bytes)?;
            let (y, rest) = read_part(alloc, b, rest)?;
            let (z, rest) = read_part(alloc, c, rest)?;
            Ok((Datum::Triple(x, y, z), rest))
        }
        Desc::Opt(a) => {
            let (some, rest) = read_flag(bytes)?;
            if !some {
                return Ok((Datum::Opt(None), rest));
            }
            let (x, rest) = read_part(alloc, a, rest)?;
            Ok((Datum::Opt(Some(x)), rest))
        }
        Desc::List(a) => {
            let (items, rest) = read_items(alloc, a, bytes)?;
            Ok((Datum::List(items), rest))
        }
    }
}

#[cycle(reading)]
fn read_part<'a>(
    alloc: Global,
    desc: &Boxed<Desc>,
    bytes: &'a [u8],
) -> Result<(Boxed<Datum>, &'a [u8]), Halt>
    ensures datum { IfOk result (λ x. Reads desc.now bytes.now x.0 x.1.now) }
    ensures halt { IfErr result (Halts (IsWhole desc.now) bytes.now) }
{
    let (datum, rest) = read_datum(alloc, desc.get(), bytes)?;
    Ok((Boxed::new(alloc, datum)?, rest))
}

/// Reads items, each behind a 1, and the 0 behind them.
#[cycle(reading)]
fn read_items<'a>(
    alloc: Global,
    desc: &Boxed<Desc>,
    bytes: &'a [u8],
) -> Result<(Listed<Datum>, &'a [u8]), Halt>
    ensures items { IfOk result (λ x. ReadsItems desc.now bytes.now x.0 x.1.now) }
    ensures halt { IfErr result (Halts (AreItems desc.now) bytes.now) }
{
    let mut items = Vec::new(alloc);
    let (mut more, mut rest) = read_flag(bytes)?;
    while more {
        let (item, behind) = read_datum(alloc, desc.get(), rest)?;
        items.push(item)?;
        (more, rest) = read_flag(behind)?;
    }
    Ok((Listed::of(items), rest))
}

/// Reads a 0 or a 1.
fn read_flag(bytes: &[u8]) -> Result<(bool, &[u8]), Halt>
    ensures flag { IfOk result (λ x. bytes.now ≡ bool_pickle x.0 ++ x.1.now) }
    ensures halt { IfErr result (HaltsAtFlag bytes.now) }
{
    match bytes {
        [0, rest @ ..] => Ok((false, rest)),
        [1, rest @ ..] => Ok((true, rest)),
        _ => Err(Halt::Left(bytes.len())),
    }
}

fn read_char(bytes: &[u8]) -> Result<(u8, &[u8]), Halt>
    ensures byte { IfOk result (λ x. bytes.now ≡ x.0 ∷ x.1.now) }
    ensures halt { IfErr result (λ e. (e ≡ Halt.Left 0) × (bytes.now ≡ [])) }
{
    match bytes {
        [c, rest @ ..] => Ok((*c, rest)),
        [] => Err(Halt::Left(0)),
    }
}

/// Reads a length, and that many bytes.
fn read_text(alloc: Global, bytes: &[u8]) -> Result<(Text, &[u8]), Halt>
    ensures text { IfOk result (λ x. ReadsText bytes.now x.0 x.1.now) }
    ensures halt { IfErr result (Halts IsCounted bytes.now) }
{
    let (len, rest) = read_number(bytes)?;
    let len = len as usize;
    if rest.len() < len {
        return Err(Halt::Left(0));
    }
    let (text, rest) = rest.split_at(len);
    Ok((Text::from_bytes(alloc, text)?, rest))
}
