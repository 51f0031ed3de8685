// The tokens of applications and of what else stands between operands.
ghost use Rattle.std.specs.Prelude.{◌≡◌, ◌++◌, OnOk};
ghost use Rattle.sml_syntax.specs.Layers.{form_of_exp};
ghost use Rattle.sml_print.specs.Places.{operation_text, infix_text, operands_text};

use crate::expressions::{print_at, print_between};
use crate::forms::Forms;
use crate::names::operator_level;
use crate::places::{left_place, right_place};
use crate::types::print_ty;
use sml_syntax::{Exp, ExpForm, Listed, NoMemory, Text};

/// An expression of a level between the lowest and that of atomic ones.
#[cycle(printed_programs)]
pub(crate) fn print_operation(forms: &mut Forms, exp: &Exp) -> Result<(), NoMemory>
    ensures { OnOk result (forms.new ≡ forms.old ++ operation_text (form_of_exp exp.now)) }
{
    match &exp.form {
        ExpForm::App(function, argument) => match &function.get().form {
            ExpForm::Name(name) => match operator_level(name) {
                Some(level) => print_infix(forms, level, name, argument.get())?,
                None => {
                    forms.name(name)?;
                    print_at(forms, 15, argument.get())?;
                }
            },
            _ => {
                print_at(forms, 14, function.get())?;
                print_at(forms, 15, argument.get())?;
            }
        },
        ExpForm::Both(left, right) => {
            print_at(forms, 3, left.get())?;
            forms.mark(b"andalso")?;
            print_at(forms, 2, right.get())?;
        }
        ExpForm::Either(left, right) => {
            print_at(forms, 2, left.get())?;
            forms.mark(b"orelse")?;
            print_at(forms, 1, right.get())?;
        }
        ExpForm::Typed(exp, ty) => {
            print_at(forms, 3, exp.get())?;
            forms.mark(b":")?;
            print_ty(forms, ty)?;
        }
        _ => {}
    }
    Ok(())
}

/// An infix name with its argument.
#[cycle(printed_programs)]
fn print_infix(forms: &mut Forms, level: u8, name: &Text, argument: &Exp) -> Result<(), NoMemory>
    ensures { OnOk result (forms.new ≡ forms.old ++ infix_text level name.now argument.now (form_of_exp argument.now)) }
{
    match &argument.form {
        ExpForm::Tuple(exps) => print_operands(forms, level, name, exps),
        _ => {
            forms.name(name)?;
            print_at(forms, 15, argument)
        }
    }
}

/// An infix name with the parts of a tuple: between them where there are two.
#[cycle(printed_programs)]
fn print_operands(
    forms: &mut Forms,
    level: u8,
    name: &Text,
    exps: &Listed<Exp>,
) -> Result<(), NoMemory>
    ensures { OnOk result (forms.new ≡ forms.old ++ operands_text level name.now exps.now) }
{
    match exps.as_slice() {
        [left, right] => {
            print_at(forms, left_place(level), left)?;
            forms.word(name)?;
            print_at(forms, right_place(level), right)
        }
        _ => {
            forms.name(name)?;
            print_between(forms, b"(", b",", exps, b")")
        }
    }
}
