// The straight form of a program's declarations, and the parts that it writes.
ghost use Rattle.std.specs.Prelude.{◌≡◌, List, IfOk, IsErrOf};
ghost use Rattle.std.specs.Option.{option_copied, option_map};
ghost use Rattle.std.specs.List.{list_all};
ghost use Rattle.sml_syntax.specs.Layers.{form_of_exp, form_of_pat};
ghost use Rattle.smlserver_top.specs.Parts.{is_plain};
ghost use Rattle.smlserver_top.specs.Straight.{is_name, argument_of, pair_of, sides_of, number_of, is_short_text, text_of_exp, product_of, part_of, is_any, written_of, IsStraight};
ghost use Rattle.smlserver_top.specs.StraightParts.{parts_at, straight_parts};
ghost use Rattle.smlserver_top.specs.Found.{Gives};

use crate::part::Part;
use sml_syntax::{Dec, DecForm, Exp, ExpForm, NoMemory, Pat, PatForm, Text};
use std::alloc::{AllocFailed, Global};

/// Why declarations give no parts.
#[derive(Clone, Copy, Debug, PartialEq, Eq)]
pub(crate) enum StraightError {
    NotForm,
    NoMemory,
}

impl From<NoMemory> for StraightError {
    ghost use Rattle.smlserver_top.specs.declared.straight.StraightError.TheVariants.{NoMemory as no_memory};
    ghost use Rattle.std.specs.Prelude.{◌≡◌};

    ghost from_gives = { λ _ e. e ≡ no_memory };

    fn from(_: NoMemory) -> StraightError {
        StraightError::NoMemory
    }
}

impl<T: Drop> From<AllocFailed<T>> for StraightError {
    ghost use Rattle.smlserver_top.specs.declared.straight.StraightError.TheVariants.{NoMemory as no_memory};
    ghost use Rattle.std.specs.Prelude.{◌≡◌};

    ghost from_gives = { λ _ e. e ≡ no_memory };

    fn from(_: AllocFailed<T>) -> StraightError {
        StraightError::NoMemory
    }
}

fn is_name(name: &[u8], e: &Exp) -> bool
    ensures { result ≡ is_name name.now (form_of_exp e.now) }
{
    match &e.form {
        ExpForm::Name(text) => text.as_bytes() == name,
        _ => false,
    }
}

// The argument, where the expression applies this name.
fn argument_of<'a>(name: &[u8], e: &'a Exp) -> Option<&'a Exp>
    ensures { option_copied result ≡ argument_of name.now e.now }
{
    match &e.form {
        ExpForm::App(head, argument) => {
            if is_name(name, head.get()) {
                Some(argument.get())
            } else {
                None
            }
        }
        _ => None,
    }
}

// The two parts of a pair.
fn pair_of(e: &Exp) -> Option<(&Exp, &Exp)>
    ensures { option_map (λ both. (both.0.now, both.1.now)) result ≡ pair_of e.now }
{
    match &e.form {
        ExpForm::Tuple(parts) => match parts.as_slice() {
            [a, b] => Some((a, b)),
            _ => None,
        },
        _ => None,
    }
}

// The two sides of an infix name.
fn sides_of<'a>(name: &[u8], e: &'a Exp) -> Option<(&'a Exp, &'a Exp)>
    ensures { option_map (λ both. (both.0.now, both.1.now)) result ≡ sides_of name.now e.now }
{
    pair_of(argument_of(name, e)?)
}

// The number of a literal from 0 to 9,999.
fn number_of(e: &Exp) -> Option<u32>
    ensures { result ≡ number_of e.now }
{
    match &e.form {
        ExpForm::Int(n) => {
            if *n < 0 || *n > 9999 {
                None
            } else {
                Some(*n as u32)
            }
        }
        _ => None,
    }
}

fn is_plain(b: u8) -> bool
    ensures { result ≡ is_plain b }
{
    b >= 32 && b <= 126 && b != b'"' && b != b'\\'
}

fn are_plain(text: &[u8]) -> bool
    ensures { result ≡ list_all is_plain text.now }
{
    text.iter().all(|b| is_plain(*b))
}

/// The greatest length of a text.
const LONGEST: usize = 1 << 20;

// The text of a literal.
fn text_of<'a>(e: &'a Exp) -> Option<&'a Text>
    ensures { option_copied result ≡ text_of_exp e.now }
{
    match &e.form {
        ExpForm::Str(text) => {
            let bytes = text.as_bytes();
            if !are_plain(bytes) {
                return None;
            }
            if bytes.len() > LONGEST {
                return None;
            }
            Some(text)
        }
        _ => None,
    }
}

// A product in its decimal text.
#[tactic(auto, unfolding(crate::specs::Straight::product_of))]
fn product_of(e: &Exp) -> Option<Part>
    ensures { result ≡ product_of e.now }
{
    let product = argument_of(b"Int.toString", e)?;
    let (a, b) = sides_of(b"*", product)?;
    let m = number_of(a)?;
    let n = number_of(b)?;
    Some(Part::Product(m, n))
}

// A part.
#[tactic(auto, unfolding(crate::specs::Straight::part_of))]
fn part_of(alloc: Global, e: &Exp) -> Result<Part, StraightError>
    ensures { Gives (λ part. part) result (part_of e.now) }
{
    if let Some(text) = text_of(e) {
        return Ok(Part::Plain(text.try_copy(alloc)?));
    }
    match product_of(e) {
        Some(part) => Ok(part),
        None => Err(StraightError::NotForm),
    }
}

// The parts of an expression, at most so many.
fn parts_at(alloc: Global, most: usize, e: &Exp) -> Result<Vec<Part>, StraightError>
    ensures { Gives (λ parts. parts.items) result (parts_at most e.now) }
{
    if most == 0 {
        return Err(StraightError::NotForm);
    }
    match sides_of(b"^", e) {
        None => {
            let mut parts = Vec::new(alloc);
            parts.push(part_of(alloc, e)?)?;
            Ok(parts)
        }
        Some((left, right)) => {
            let mut parts = parts_at(alloc, most - 1, left)?;
            parts.push(part_of(alloc, right)?)?;
            Ok(parts)
        }
    }
}

fn is_any(pat: &Pat) -> bool
    ensures { result ≡ is_any (form_of_pat pat.now) }
{
    matches!(pat.form, PatForm::Any)
}

// What is written, where the declaration is `val _ = Web.write argument`.
fn written_of(dec: &Dec) -> Option<&Exp>
    ensures { option_copied result ≡ written_of dec.now }
{
    match &dec.form {
        DecForm::Val(bindings) => match bindings.as_slice() {
            [(pat, e)] => {
                if is_any(pat) {
                    argument_of(b"Web.write", e)
                } else {
                    None
                }
            }
            _ => None,
        },
        _ => None,
    }
}

// The parts of the one declaration.
fn read_items(alloc: Global, most: usize, items: &[Dec]) -> Result<Vec<Part>, StraightError>
    ensures { Gives (λ parts. parts.items) result (straight_parts most items.now) }
{
    match items {
        [dec] => match written_of(dec) {
            Some(argument) => parts_at(alloc, most, argument),
            None => Err(StraightError::NotForm),
        },
        _ => Err(StraightError::NotForm),
    }
}

/// The greatest number of parts.
const MOST: usize = 16;

/// The parts that the declarations write.
pub(crate) fn straight_parts(alloc: Global, items: &[Dec]) -> Result<Vec<Part>, StraightError>
    ensures found { IfOk result (λ parts. IsStraight items.now parts.items) }
    ensures not_form { IsErrOf result StraightError.NotForm → (parts : _) → IsStraight items.now parts → ⊥ }
{
    read_items(alloc, MOST, items)
}
