// The tokens of expressions.
ghost use Rattle.std.specs.Prelude.{◌≡◌, ◌++◌, ◌∷◌, [], OnOk};
ghost use Rattle.sml_syntax.specs.declared.token.TokenForm.TheVariants as f;
ghost use Rattle.sml_syntax.specs.Layers.{form_of_exp};
ghost use Rattle.print_laws.specs.Printing.{exp_forms, parted};
ghost use Rattle.print_laws.specs.Opened.{put_text, body_text};
ghost use Rattle.sml_print.specs.Places.{tail_text};

use crate::declarations::print_decs;
use crate::forms::Forms;
use crate::operations::print_operation;
use crate::places::{level, opens};
use crate::quotations::print_pieces;
use crate::rules::print_rules;
use sml_syntax::{Exp, ExpForm, Listed, NoMemory, TokenForm};

/// An expression, with no parentheses around it.
#[cycle(printed_programs)]
#[tactic(auto, using(print_laws::proofs::Opened::exp_opened))]
pub(crate) fn print_exp(forms: &mut Forms, exp: &Exp) -> Result<(), NoMemory>
    ensures { OnOk result (forms.new ≡ forms.old ++ exp_forms exp.now) }
{
    match &exp.form {
        ExpForm::Int(number) => forms.push(TokenForm::Int(*number))?,
        ExpForm::Char(byte) => forms.push(TokenForm::Char(*byte))?,
        ExpForm::Str(text) => forms.text(text)?,
        ExpForm::Name(name) => forms.name(name)?,
        ExpForm::Unit => forms.unit()?,
        ExpForm::Tuple(exps) => print_between(forms, b"(", b",", exps, b")")?,
        ExpForm::List(exps) => print_between(forms, b"[", b",", exps, b"]")?,
        ExpForm::Seq(exps) => print_between(forms, b"(", b";", exps, b")")?,
        ExpForm::Let(decs, exps) => {
            forms.mark(b"let")?;
            print_decs(forms, decs)?;
            print_between(forms, b"in", b";", exps, b"end")?;
        }
        ExpForm::Quote(pieces) => {
            forms.push(TokenForm::QuoteFrom)?;
            print_pieces(forms, pieces)?;
            forms.push(TokenForm::QuoteTo)?;
        }
        ExpForm::App(_, _) => print_operation(forms, exp)?,
        ExpForm::Both(_, _) => print_operation(forms, exp)?,
        ExpForm::Either(_, _) => print_operation(forms, exp)?,
        ExpForm::Typed(_, _) => print_operation(forms, exp)?,
        ExpForm::Fn(_) => print_tail(forms, exp)?,
        ExpForm::Case(_, _) => print_tail(forms, exp)?,
        ExpForm::Handle(_, _) => print_tail(forms, exp)?,
        ExpForm::Raise(_) => print_tail(forms, exp)?,
        ExpForm::If(_, _, _) => print_tail(forms, exp)?,
    }
    Ok(())
}

/// An expression of the lowest level.
#[cycle(printed_programs)]
fn print_tail(forms: &mut Forms, exp: &Exp) -> Result<(), NoMemory>
    ensures { OnOk result (forms.new ≡ forms.old ++ tail_text (form_of_exp exp.now)) }
{
    match &exp.form {
        ExpForm::Fn(rules) => {
            forms.mark(b"fn")?;
            print_rules(forms, rules)?;
        }
        ExpForm::Case(exp, rules) => {
            forms.mark(b"case")?;
            print_exp(forms, exp.get())?;
            forms.mark(b"of")?;
            print_rules(forms, rules)?;
        }
        ExpForm::Handle(exp, rules) => {
            print_at(forms, 1, exp.get())?;
            forms.mark(b"handle")?;
            print_rules(forms, rules)?;
        }
        ExpForm::Raise(exp) => {
            forms.mark(b"raise")?;
            print_exp(forms, exp.get())?;
        }
        ExpForm::If(test, chosen, otherwise) => {
            forms.mark(b"if")?;
            print_exp(forms, test.get())?;
            forms.mark(b"then")?;
            print_exp(forms, chosen.get())?;
            forms.mark(b"else")?;
            print_exp(forms, otherwise.get())?;
        }
        _ => {}
    }
    Ok(())
}

/// An expression where one of a level or a higher one stands: in parentheses where its own is lower.
#[cycle(printed_programs)]
#[tactic(auto, unfolding(print_laws::specs::Printing::put))]
pub(crate) fn print_at(forms: &mut Forms, least: u64, exp: &Exp) -> Result<(), NoMemory>
    ensures { OnOk result (forms.new ≡ forms.old ++ put_text least exp.now) }
{
    if level(exp) < least {
        forms.mark(b"(")?;
        print_exp(forms, exp)?;
        forms.mark(b")")
    } else {
        print_exp(forms, exp)
    }
}

/// The body of a rule or a clause, in parentheses where a bar follows that would be taken for one of its own.
#[cycle(printed_programs)]
#[tactic(auto, unfolding(print_laws::specs::Printing::barred))]
pub(crate) fn print_body(forms: &mut Forms, last: bool, exp: &Exp) -> Result<(), NoMemory>
    ensures { OnOk result (forms.new ≡ forms.old ++ body_text last exp.now) }
{
    if last {
        return print_exp(forms, exp);
    }
    if opens(exp) {
        forms.mark(b"(")?;
        print_exp(forms, exp)?;
        forms.mark(b")")
    } else {
        print_exp(forms, exp)
    }
}

/// Expressions with a mark between and one at each end.
#[cycle(printed_programs)]
pub(crate) fn print_between(
    forms: &mut Forms,
    left: &[u8],
    mark: &[u8],
    exps: &Listed<Exp>,
    right: &[u8],
) -> Result<(), NoMemory>
    ensures { OnOk result (forms.new ≡ forms.old ++ ((f.Mark left.now ∷ parted mark.now exp_forms exps.now) ++ f.Mark right.now ∷ [])) }
{
    forms.mark(left)?;
    print_exps(forms, mark, exps)?;
    forms.mark(right)
}

/// Expressions with a mark between.
#[cycle(printed_programs)]
fn print_exps(forms: &mut Forms, mark: &[u8], exps: &Listed<Exp>) -> Result<(), NoMemory>
    ensures { OnOk result (forms.new ≡ forms.old ++ parted mark.now exp_forms exps.now) }
{
    let [first, more @ ..] = exps.as_slice() else {
        return Ok(());
    };
    print_exp(forms, first)?;
    for exp in more {
        forms.mark(mark)?;
        print_exp(forms, exp)?;
    }
    Ok(())
}
