ghost use Rattle.std.specs.Prelude.{◌≡◌, ◌++◌, OnOk, IfOk, true};
ghost use Rattle.web_data.specs.Data.{has_desc};
ghost use Rattle.web_data.specs.Pickles.{pickle};

use crate::numbers::{push_number, zigzag};
use sml_syntax::{Boxed, Listed, NoMemory, Text};
use std::alloc::Global;
use web_data::{Datum, Desc};

/// The pickle of a datum by its description.
pub fn write(alloc: Global, desc: &Desc, datum: &Datum) -> Result<Text, NoMemory>
    requires { has_desc desc.now datum.now ≡ true }
    ensures { IfOk result (λ text. text ≡ pickle desc.now datum.now) }
{
    let mut out = Vec::new(alloc);
    push_datum(&mut out, desc, datum)?;
    Ok(Text::from_vec(out))
}

/// Writes the pickle of a datum at the end. One that lacks the description has no bytes.
#[cycle(writing)]
fn push_datum(out: &mut Vec<u8>, desc: &Desc, datum: &Datum) -> Result<(), NoMemory>
    ensures { OnOk result (out.new.items ≡ out.old.items ++ pickle desc.now datum.now) }
{
    match (desc, datum) {
        (Desc::Int, Datum::Int(n)) => push_number(out, zigzag(*n)),
        (Desc::Bool, Datum::Bool(b)) => Ok(out.push(*b as u8)?),
        (Desc::Char, Datum::Char(c)) => Ok(out.push(*c)?),
        (Desc::Str, Datum::Str(text)) => {
            push_number(out, text.len())?;
            Ok(out.extend_from_slice(text.as_bytes())?)
        }
        (Desc::Pair(a, b), Datum::Pair(x, y)) => {
            push_datum(out, a.get(), x.get())?;
            push_datum(out, b.get(), y.get())
        }
        (Desc::Triple(a, b, c), Datum::Triple(x, y, z)) => {
            push_datum(out, a.get(), x.get())?;
            push_datum(out, b.get(), y.get())?;
            push_datum(out, c.get(), z.get())
        }
        (Desc::Opt(_), Datum::Opt(None)) => Ok(out.push(0)?),
        (Desc::Opt(a), Datum::Opt(Some(x))) => {
            out.push(1)?;
            push_datum(out, a.get(), x.get())
        }
        (Desc::List(a), Datum::List(items)) => {
            for x in items.as_slice() {
                out.push(1)?;
                push_datum(out, a.get(), x)?;
            }
            Ok(out.push(0)?)
        }
        _ => Ok(()),
    }
}
