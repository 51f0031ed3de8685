// Whether two answers are equal.
ghost use Rattle.std.specs.Prelude.{◌≡◌, ◌↔◌, true, IsTrue, IfOk};
ghost use Rattle.web_data.specs.Data.{has_desc};
ghost use Rattle.web_data.specs.CacheCalls.{cache_answer_fits};

use sml_syntax::{Listed, NoMemory, Text};
use std::alloc::Global;
use value_pickle::{fits, write};
use web_data::{CacheAns, CacheCall, CacheOp, Datum, DbAns, Desc};

/// Whether the answers are equal, of which the first one fits the call.
pub(crate) fn same_cache_answer(
    alloc: Global,
    call: &CacheCall,
    a: &CacheAns,
    b: &CacheAns,
) -> Result<bool, NoMemory>
    requires { cache_answer_fits call.now a.now ≡ true }
    ensures yes { IfOk result (λ same. same ≡ true → a.now ≡ b.now) }
    ensures no { IfOk result (λ same. a.now ≡ b.now → same ≡ true) }
{
    match (a, b) {
        (CacheAns::Found(a), CacheAns::Found(b)) => same_datum(alloc, &call.id.value, a, b),
        (CacheAns::Absent, CacheAns::Absent) => Ok(true),
        (CacheAns::Fresh(a), CacheAns::Fresh(b)) => Ok(*a == *b),
        (CacheAns::Flushed, CacheAns::Flushed) => Ok(true),
        (CacheAns::Full, CacheAns::Full) => Ok(true),
        _ => Ok(false),
    }
}

/// Whether two data are equal, of which the first one has the description. Their pickles are compared.
fn same_datum(alloc: Global, desc: &Desc, a: &Datum, b: &Datum) -> Result<bool, NoMemory>
    requires { has_desc desc.now a.now ≡ true }
    ensures yes { IfOk result (λ same. same ≡ true → a.now ≡ b.now) }
    ensures no { IfOk result (λ same. a.now ≡ b.now → same ≡ true) }
{
    if !fits(desc, b) {
        return Ok(false);
    }
    let a = write(alloc, desc, a)?;
    let b = write(alloc, desc, b)?;
    Ok(same_text(&a, &b))
}

pub(crate) fn same_text(a: &Text, b: &Text) -> bool
    ensures { IsTrue result ↔ (a.now ≡ b.now) }
{
    a == b
}

/// Whether the answers are equal.
pub(crate) fn same_database_answer(a: &DbAns, b: &DbAns) -> bool
    ensures yes { result ≡ true → a.now ≡ b.now }
    ensures no { a.now ≡ b.now → result ≡ true }
{
    match (a, b) {
        (DbAns::Done, DbAns::Done) => true,
        (DbAns::Rows(a), DbAns::Rows(b)) => same_rows(a, b),
        (DbAns::NoTable, DbAns::NoTable) => true,
        (DbAns::TableStands, DbAns::TableStands) => true,
        (DbAns::KeyStands, DbAns::KeyStands) => true,
        (DbAns::Fault(a), DbAns::Fault(b)) => *a == *b,
        _ => false,
    }
}

fn same_rows(a: &Listed<Listed<Text>>, b: &Listed<Listed<Text>>) -> bool
    ensures yes { result ≡ true → a.now ≡ b.now }
    ensures no { a.now ≡ b.now → result ≡ true }
{
    a == b
}
