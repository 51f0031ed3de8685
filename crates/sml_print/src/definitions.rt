// The tokens of declarations of types and exceptions.
ghost use Rattle.std.specs.Prelude.{◌≡◌, ◌++◌, ◌∷◌, [], OnOk, codes};
ghost use Rattle.sml_syntax.specs.declared.token.TokenForm.TheVariants as f;
ghost use Rattle.print_laws.specs.Printing.{parted, behind_mark, vars_forms, abbrev_forms, argument_forms, con_def_forms, data_forms};

use crate::forms::Forms;
use crate::types::print_ty;
use sml_syntax::{Listed, NoMemory, Text, Ty};

/// The variables before a type's name.
fn print_vars(forms: &mut Forms, names: &Listed<Text>) -> Result<(), NoMemory>
    ensures { OnOk result (forms.new ≡ forms.old ++ vars_forms names.now) }
{
    match names.as_slice() {
        [] => Ok(()),
        [name] => forms.variable(name),
        [first, more @ ..] => {
            forms.mark(b"(")?;
            forms.variable(first)?;
            print_more_vars(forms, more)?;
            forms.mark(b")")?;
            Ok(())
        }
    }
}

/// Variables, each behind a comma.
fn print_more_vars(forms: &mut Forms, names: &[Text]) -> Result<(), NoMemory>
    ensures { OnOk result (forms.new ≡ forms.old ++ behind_mark (codes ",") (λ name. f.TyVar name ∷ []) names.now) }
{
    for name in names {
        forms.mark(b",")?;
        forms.variable(name)?;
    }
    Ok(())
}

fn print_abbrev(forms: &mut Forms, one: &(Listed<Text>, Text, Ty)) -> Result<(), NoMemory>
    ensures { OnOk result (forms.new ≡ forms.old ++ abbrev_forms one.now) }
{
    print_vars(forms, &one.0)?;
    forms.short(one.1.as_bytes())?;
    forms.mark(b"=")?;
    print_ty(forms, &one.2)?;
    Ok(())
}

/// Abbreviations with `and` between.
pub(crate) fn print_abbrevs(
    forms: &mut Forms,
    all: &Listed<(Listed<Text>, Text, Ty)>,
) -> Result<(), NoMemory>
    ensures { OnOk result (forms.new ≡ forms.old ++ parted (codes "and") abbrev_forms all.now) }
{
    let [first, more @ ..] = all.as_slice() else {
        return Ok(());
    };
    print_abbrev(forms, first)?;
    print_more_abbrevs(forms, more)?;
    Ok(())
}

fn print_more_abbrevs(forms: &mut Forms, all: &[(Listed<Text>, Text, Ty)]) -> Result<(), NoMemory>
    ensures { OnOk result (forms.new ≡ forms.old ++ behind_mark (codes "and") abbrev_forms all.now) }
{
    for one in all {
        forms.mark(b"and")?;
        print_abbrev(forms, one)?;
    }
    Ok(())
}

fn print_argument(forms: &mut Forms, ty: &Option<Ty>) -> Result<(), NoMemory>
    ensures { OnOk result (forms.new ≡ forms.old ++ argument_forms ty.now) }
{
    match ty {
        None => Ok(()),
        Some(ty) => {
            forms.mark(b"of")?;
            print_ty(forms, ty)?;
            Ok(())
        }
    }
}

/// A constructor or an exception.
fn print_con_def(forms: &mut Forms, one: &(Text, Option<Ty>)) -> Result<(), NoMemory>
    ensures { OnOk result (forms.new ≡ forms.old ++ con_def_forms one.now) }
{
    forms.short(one.0.as_bytes())?;
    print_argument(forms, &one.1)?;
    Ok(())
}

/// Constructors or exceptions with a mark between.
pub(crate) fn print_con_defs(
    forms: &mut Forms,
    mark: &[u8],
    all: &Listed<(Text, Option<Ty>)>,
) -> Result<(), NoMemory>
    ensures { OnOk result (forms.new ≡ forms.old ++ parted mark.now con_def_forms all.now) }
{
    let [first, more @ ..] = all.as_slice() else {
        return Ok(());
    };
    print_con_def(forms, first)?;
    print_more_con_defs(forms, mark, more)?;
    Ok(())
}

fn print_more_con_defs(
    forms: &mut Forms,
    mark: &[u8],
    all: &[(Text, Option<Ty>)],
) -> Result<(), NoMemory>
    ensures { OnOk result (forms.new ≡ forms.old ++ behind_mark mark.now con_def_forms all.now) }
{
    for one in all {
        forms.mark(mark)?;
        print_con_def(forms, one)?;
    }
    Ok(())
}

fn print_data(
    forms: &mut Forms,
    one: &(Listed<Text>, Text, Listed<(Text, Option<Ty>)>),
) -> Result<(), NoMemory>
    ensures { OnOk result (forms.new ≡ forms.old ++ data_forms one.now) }
{
    print_vars(forms, &one.0)?;
    forms.short(one.1.as_bytes())?;
    forms.mark(b"=")?;
    print_con_defs(forms, b"|", &one.2)?;
    Ok(())
}

/// Datatypes with `and` between.
pub(crate) fn print_datas(
    forms: &mut Forms,
    all: &Listed<(Listed<Text>, Text, Listed<(Text, Option<Ty>)>)>,
) -> Result<(), NoMemory>
    ensures { OnOk result (forms.new ≡ forms.old ++ parted (codes "and") data_forms all.now) }
{
    let [first, more @ ..] = all.as_slice() else {
        return Ok(());
    };
    print_data(forms, first)?;
    print_more_datas(forms, more)?;
    Ok(())
}

fn print_more_datas(
    forms: &mut Forms,
    all: &[(Listed<Text>, Text, Listed<(Text, Option<Ty>)>)],
) -> Result<(), NoMemory>
    ensures { OnOk result (forms.new ≡ forms.old ++ behind_mark (codes "and") data_forms all.now) }
{
    for one in all {
        forms.mark(b"and")?;
        print_data(forms, one)?;
    }
    Ok(())
}
