// Where parentheses are wanted.
ghost use Rattle.std.specs.Prelude.{◌≡◌, ◌==◌, length};
ghost use Rattle.sml_syntax.specs.Layers.{form_of_exp};
ghost use Rattle.print_laws.specs.Printing as printing;
ghost use Rattle.print_laws.specs.Printing.{exp_part};
ghost use Rattle.print_laws.specs.Opened as opened;
ghost use Rattle.print_laws.specs.Opened.{operator_in, members_in};

use crate::names::operator_level;
use sml_syntax::{Exp, ExpForm};

/// The level of an expression with no parentheses around it.
#[tactic(auto, using(print_laws::proofs::Opened::level_opened))]
pub(crate) fn level(exp: &Exp) -> u64
    ensures { result ≡ (exp_part exp.now).level }
{
    match &exp.form {
        ExpForm::App(function, argument) => app_level(function.get(), argument.get()),
        ExpForm::Fn(_) => 0,
        ExpForm::Case(_, _) => 0,
        ExpForm::Handle(_, _) => 0,
        ExpForm::Raise(_) => 0,
        ExpForm::If(_, _, _) => 0,
        ExpForm::Either(_, _) => 1,
        ExpForm::Both(_, _) => 2,
        ExpForm::Typed(_, _) => 3,
        _ => 15,
    }
}

#[tactic(auto, unfolding(print_laws::specs::Printing::infix_of))]
fn app_level(function: &Exp, argument: &Exp) -> u64
    ensures { result ≡ opened.app_level (operator_in (form_of_exp function.now)) (members_in (form_of_exp argument.now)) }
{
    match &function.form {
        ExpForm::Name(name) => match operator_level(name) {
            Some(level) if is_pair(argument) => 4 + u64::from(level),
            _ => 14,
        },
        _ => 14,
    }
}

/// Whether an expression is a tuple of two.
fn is_pair(exp: &Exp) -> bool
    ensures { result ≡ length (members_in (form_of_exp exp.now)) == 2 }
{
    match &exp.form {
        ExpForm::Tuple(exps) => exps.as_slice().len() == 2,
        _ => false,
    }
}

/// Whether a match is still open at the end of an expression.
#[tactic(auto, using(print_laws::proofs::Opened::opens_opened))]
pub(crate) fn opens(exp: &Exp) -> bool
    ensures { result ≡ (exp_part exp.now).opens }
{
    match &exp.form {
        ExpForm::Fn(_) => true,
        ExpForm::Case(_, _) => true,
        ExpForm::Handle(_, _) => true,
        ExpForm::Raise(exp) => opens(exp.get()),
        ExpForm::If(_, _, otherwise) => opens(otherwise.get()),
        _ => false,
    }
}

/// The level that the left operand of an infix name has at least.
pub(crate) fn left_place(level: u8) -> u64
    ensures { result ≡ printing.left_place level }
{
    if level == 5 {
        5 + u64::from(level)
    } else {
        4 + u64::from(level)
    }
}

/// The same of the right one.
pub(crate) fn right_place(level: u8) -> u64
    ensures { result ≡ printing.right_place level }
{
    if level == 5 {
        4 + u64::from(level)
    } else {
        5 + u64::from(level)
    }
}
