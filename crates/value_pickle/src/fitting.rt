ghost use Rattle.std.specs.Prelude.{◌≡◌, ◌^◌, nat_lt};
ghost use Rattle.web_data.specs.Data.{has_desc, is_64_bits};

use web_data::{Datum, Desc};

/// Whether a datum has a description.
pub fn fits(desc: &Desc, datum: &Datum) -> bool
    ensures { result ≡ has_desc desc.now datum.now }
{
    match (desc, datum) {
        (Desc::Int, Datum::Int(n)) => is_int(*n),
        (Desc::Bool, Datum::Bool(_)) => true,
        (Desc::Char, Datum::Char(c)) => is_char(*c),
        (Desc::Str, Datum::Str(text)) => is_length(text.len()),
        (Desc::Unit, Datum::Unit) => true,
        (Desc::Pair(a, b), Datum::Pair(x, y)) => fits(a.get(), x.get()) && fits(b.get(), y.get()),
        (Desc::Triple(a, b, c), Datum::Triple(x, y, z)) => {
            fits(a.get(), x.get()) && fits(b.get(), y.get()) && fits(c.get(), z.get())
        }
        (Desc::Opt(_), Datum::Opt(None)) => true,
        (Desc::Opt(a), Datum::Opt(Some(x))) => fits(a.get(), x.get()),
        (Desc::List(a), Datum::List(items)) => {
            for x in items.as_slice() {
                if !fits(a.get(), x) {
                    return false;
                }
            }
            true
        }
        _ => false,
    }
}

/// Any number of the type is one.
fn is_int(n: i64) -> bool
    ensures { result ≡ is_64_bits n }
{
    true
}

/// Any byte is one.
fn is_char(c: u8) -> bool
    ensures { result ≡ nat_lt c 256 }
{
    true
}

/// Any length of the type is one of a text.
fn is_length(len: u64) -> bool
    ensures { result ≡ nat_lt len (2 ^ 64) }
{
    true
}
