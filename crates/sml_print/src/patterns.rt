// The tokens of patterns.
ghost use Rattle.std.specs.Prelude.{◌≡◌, ◌++◌, OnOk, codes};
ghost use Rattle.sml_syntax.specs.Layers.{form_of_pat};
ghost use Rattle.print_laws.specs.Printing.{pat_part, pat_forms, parted, patterns_in};
ghost use Rattle.print_laws.specs.Printing as printing;
ghost use Rattle.print_laws.specs.Opened.{pat_members, con_pat_text, con_pat_level, between_text};
ghost use Rattle.print_laws.specs.Opened as opened;

use crate::forms::Forms;
use crate::types::print_ty;
use sml_syntax::{Listed, NoMemory, Pat, PatForm, Text, TokenForm};

/// A pattern where any pattern stands.
#[cycle(printed_patterns)]
#[tactic(auto, using(print_laws::proofs::Opened::pat_opened))]
pub(crate) fn print_pat(forms: &mut Forms, pat: &Pat) -> Result<(), NoMemory>
    ensures { OnOk result (forms.new ≡ forms.old ++ pat_forms pat.now) }
{
    match &pat.form {
        PatForm::Any => forms.mark(b"_")?,
        PatForm::Int(number) => forms.push(TokenForm::Int(*number))?,
        PatForm::Char(byte) => forms.push(TokenForm::Char(*byte))?,
        PatForm::Str(text) => forms.text(text)?,
        PatForm::Unit => forms.unit()?,
        PatForm::Name(name) => forms.head(name)?,
        PatForm::Tuple(pats) => {
            forms.mark(b"(")?;
            print_pats(forms, pats)?;
            forms.mark(b")")?;
        }
        PatForm::List(pats) => {
            forms.mark(b"[")?;
            print_pats(forms, pats)?;
            forms.mark(b"]")?;
        }
        PatForm::Con(name, argument) => print_applied(forms, name, argument.get())?,
        PatForm::Typed(part, ty) => {
            put_pat(forms, 1, part.get())?;
            forms.mark(b":")?;
            print_ty(forms, ty)?;
        }
    }
    Ok(())
}

/// 0 for a pattern with a type, 1 for `::` between two, 2 for a constructor on its argument, and 3 for an atomic pattern.
#[tactic(auto, using(print_laws::proofs::Opened::pat_level_opened))]
fn pattern_level(pat: &Pat) -> u64
    ensures { result ≡ (pat_part pat.now).level }
{
    match &pat.form {
        PatForm::Con(name, argument) => applied_level(name, argument.get()),
        PatForm::Typed(_, _) => 0,
        _ => 3,
    }
}

fn applied_level(name: &Text, argument: &Pat) -> u64
    ensures { result ≡ con_pat_level name.now (pat_members (form_of_pat argument.now)) }
{
    if is_between(name, argument) { 1 } else { 2 }
}

/// Whether a constructor on its argument is `::` on the two of a tuple, between which it stands.
fn is_between(name: &Text, argument: &Pat) -> bool
    ensures { result ≡ opened.is_between name.now (pat_members (form_of_pat argument.now)) }
{
    match &argument.form {
        PatForm::Tuple(pats) => match pats.as_slice() {
            [_, _] => name.as_bytes() == b"::".as_slice(),
            [] => false,
            [_] => false,
            [_, _, _, ..] => false,
        },
        _ => false,
    }
}

/// A pattern where one of a level stands, in parentheses where its own is lower.
#[cycle(printed_patterns)]
#[tactic(auto, unfolding(print_laws::specs::Printing::put))]
pub(crate) fn put_pat(forms: &mut Forms, level: u64, pat: &Pat) -> Result<(), NoMemory>
    ensures { OnOk result (forms.new ≡ forms.old ++ printing.put_pat level pat.now) }
{
    if pattern_level(pat) < level {
        forms.mark(b"(")?;
        print_pat(forms, pat)?;
        forms.mark(b")")
    } else {
        print_pat(forms, pat)
    }
}

/// A constructor on its argument.
#[cycle(printed_patterns)]
fn print_applied(forms: &mut Forms, name: &Text, argument: &Pat) -> Result<(), NoMemory>
    ensures { OnOk result (forms.new ≡ forms.old ++ con_pat_text name.now (pat_members (form_of_pat argument.now)) argument.now) }
{
    if is_between(name, argument) {
        print_between(forms, argument)
    } else {
        forms.head(name)?;
        put_pat(forms, 3, argument)
    }
}

/// The two of a tuple with `::` between.
#[cycle(printed_patterns)]
fn print_between(forms: &mut Forms, pat: &Pat) -> Result<(), NoMemory>
    ensures { OnOk result (forms.new ≡ forms.old ++ between_text (pat_members (form_of_pat pat.now))) }
{
    match &pat.form {
        PatForm::Tuple(pats) => match pats.as_slice() {
            [left, right] => {
                put_pat(forms, 2, left)?;
                forms.short(b"::")?;
                put_pat(forms, 1, right)
            }
            [] => Ok(()),
            [_] => Ok(()),
            [_, _, _, ..] => Ok(()),
        },
        _ => Ok(()),
    }
}

/// Patterns with commas between.
#[cycle(printed_patterns)]
fn print_pats(forms: &mut Forms, pats: &Listed<Pat>) -> Result<(), NoMemory>
    ensures { OnOk result (forms.new ≡ forms.old ++ parted (codes ",") pat_forms pats.now) }
{
    let [first, more @ ..] = pats.as_slice() else {
        return Ok(());
    };
    print_pat(forms, first)?;
    for pat in more {
        forms.mark(b",")?;
        print_pat(forms, pat)?;
    }
    Ok(())
}

/// The patterns of a clause of several, one after the other.
pub(crate) fn print_parts(forms: &mut Forms, pat: &Pat) -> Result<(), NoMemory>
    ensures { OnOk result (forms.new ≡ forms.old ++ patterns_in (form_of_pat pat.now)) }
{
    if let PatForm::Tuple(pats) = &pat.form {
        for pat in pats.as_slice() {
            put_pat(forms, 3, pat)?;
        }
    }
    Ok(())
}

/// Whether a pattern is the name of a number, which stands only in the derived form of a function of several patterns.
pub(crate) fn is_number(pat: &Pat) -> bool
    ensures { result ≡ printing.is_number (form_of_pat pat.now) }
{
    match &pat.form {
        PatForm::Name(name) => match name.as_bytes() {
            [first, ..] => first.is_ascii_digit(),
            [] => false,
        },
        _ => false,
    }
}
