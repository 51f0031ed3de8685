// The tokens of types.
ghost use Rattle.std.specs.Prelude.{◌≡◌, ◌++◌, OnOk};
ghost use Rattle.print_laws.specs.Printing.{ty_part, ty_forms};
ghost use Rattle.print_laws.specs.Printing as printing;
ghost use Rattle.print_laws.specs.Opened.{con_text, starred_text};

use crate::forms::Forms;
use sml_syntax::{Listed, NoMemory, Text, Ty, TyForm};

/// A type where any type stands.
#[cycle(printed_types)]
#[tactic(auto, using(print_laws::proofs::Opened::ty_opened))]
pub(crate) fn print_ty(forms: &mut Forms, ty: &Ty) -> Result<(), NoMemory>
    ensures { OnOk result (forms.new ≡ forms.old ++ ty_forms ty.now) }
{
    match &ty.form {
        TyForm::Var(name) => forms.variable(name)?,
        TyForm::Con(name, arguments) => print_con(forms, name, arguments)?,
        TyForm::Tuple(types) => print_starred(forms, types)?,
        TyForm::Arrow(from, to) => {
            put_ty(forms, 1, from.get())?;
            forms.mark(b"->")?;
            print_ty(forms, to.get())?;
        }
    }
    Ok(())
}

/// 0 for an arrow, 1 for a tuple, and 2 for a type that a name may stand behind.
#[tactic(auto, using(print_laws::proofs::Opened::ty_level_opened))]
fn ty_level(ty: &Ty) -> u64
    ensures { result ≡ (ty_part ty.now).level }
{
    match &ty.form {
        TyForm::Var(_) => 2,
        TyForm::Con(_, _) => 2,
        TyForm::Tuple(_) => 1,
        TyForm::Arrow(_, _) => 0,
    }
}

/// A type where one of a level stands, in parentheses where its own is lower.
#[cycle(printed_types)]
#[tactic(auto, unfolding(print_laws::specs::Printing::put))]
fn put_ty(forms: &mut Forms, level: u64, ty: &Ty) -> Result<(), NoMemory>
    ensures { OnOk result (forms.new ≡ forms.old ++ printing.put_ty level ty.now) }
{
    if ty_level(ty) < level {
        forms.mark(b"(")?;
        print_ty(forms, ty)?;
        forms.mark(b")")
    } else {
        print_ty(forms, ty)
    }
}

#[cycle(printed_types)]
fn print_con(forms: &mut Forms, name: &Text, arguments: &Listed<Ty>) -> Result<(), NoMemory>
    ensures { OnOk result (forms.new ≡ forms.old ++ con_text name.now arguments.now) }
{
    match arguments.as_slice() {
        [] => {}
        [argument] => put_ty(forms, 2, argument)?,
        [first, more @ ..] => {
            forms.mark(b"(")?;
            print_ty(forms, first)?;
            for ty in more {
                forms.mark(b",")?;
                print_ty(forms, ty)?;
            }
            forms.mark(b")")?;
        }
    }
    forms.type_name(name)
}

/// Types with stars between.
#[cycle(printed_types)]
fn print_starred(forms: &mut Forms, types: &Listed<Ty>) -> Result<(), NoMemory>
    ensures { OnOk result (forms.new ≡ forms.old ++ starred_text types.now) }
{
    let [first, more @ ..] = types.as_slice() else {
        return Ok(());
    };
    put_ty(forms, 2, first)?;
    for ty in more {
        forms.short(b"*")?;
        put_ty(forms, 2, ty)?;
    }
    Ok(())
}
