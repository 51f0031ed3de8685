// The tokens of declarations.
ghost use Rattle.std.specs.Prelude.{◌≡◌, ◌++◌, ◌∷◌, [], OnOk, codes, flat_map};
ghost use Rattle.sml_syntax.specs.declared.token.TokenForm.TheVariants as f;
ghost use Rattle.print_laws.specs.Printing.{dec_forms, pat_forms};

use crate::definitions::{print_abbrevs, print_con_defs, print_datas};
use crate::expressions::print_exp;
use crate::forms::Forms;
use crate::functions::print_function;
use crate::patterns::print_pat;
use sml_syntax::{Dec, DecForm, Listed, NoMemory, Pat};

#[cycle(printed_programs)]
#[tactic(auto, using(print_laws::proofs::Opened::dec_opened))]
pub(crate) fn print_dec(forms: &mut Forms, dec: &Dec) -> Result<(), NoMemory>
    ensures { OnOk result (forms.new ≡ forms.old ++ dec_forms dec.now) }
{
    match &dec.form {
        DecForm::Val(binds) => {
            forms.mark(b"val")?;
            let [first, more @ ..] = binds.as_slice() else {
                return Ok(());
            };
            print_bound(forms, &first.0)?;
            print_exp(forms, &first.1)?;
            for bind in more {
                forms.mark(b"and")?;
                print_bound(forms, &bind.0)?;
                print_exp(forms, &bind.1)?;
            }
        }
        DecForm::ValRec(functions) => {
            forms.mark(b"fun")?;
            let [first, more @ ..] = functions.as_slice() else {
                return Ok(());
            };
            print_function(forms, &first.0, &first.1)?;
            for function in more {
                forms.mark(b"and")?;
                print_function(forms, &function.0, &function.1)?;
            }
        }
        DecForm::Abbrev(all) => {
            forms.mark(b"type")?;
            print_abbrevs(forms, all)?;
        }
        DecForm::DataDef(all) => {
            forms.mark(b"datatype")?;
            print_datas(forms, all)?;
        }
        DecForm::ExnDef(all) => {
            forms.mark(b"exception")?;
            print_con_defs(forms, b"and", all)?;
        }
        DecForm::Local(hidden, shown) => {
            forms.mark(b"local")?;
            print_decs(forms, hidden)?;
            forms.mark(b"in")?;
            print_decs(forms, shown)?;
            forms.mark(b"end")?;
        }
    }
    Ok(())
}

/// Declarations one after the other.
#[cycle(printed_programs)]
pub(crate) fn print_decs(forms: &mut Forms, decs: &Listed<Dec>) -> Result<(), NoMemory>
    ensures { OnOk result (forms.new ≡ forms.old ++ flat_map dec_forms decs.now) }
{
    for dec in decs.as_slice() {
        print_dec(forms, dec)?;
    }
    Ok(())
}

/// The pattern of a binding, up to what it is bound to.
fn print_bound(forms: &mut Forms, pat: &Pat) -> Result<(), NoMemory>
    ensures { OnOk result (forms.new ≡ forms.old ++ (pat_forms pat.now ++ f.Mark (codes "=") ∷ [])) }
{
    print_pat(forms, pat)?;
    forms.mark(b"=")?;
    Ok(())
}
