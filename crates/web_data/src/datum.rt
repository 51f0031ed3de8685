// Data that caches keep, and their descriptions.
ghost use Rattle.std.specs.Prelude.{◌≡◌, IfOk};

use sml_syntax::{Boxed, Listed, NoMemory, Text};
use std::alloc::Global;

/// A datum: a value that may be kept in a cache.
#[derive(Debug, PartialEq, Eq, Drop)]
pub enum Datum {
    Int(i64),
    Bool(bool),
    Char(u8),
    Str(Text),
    Unit,
    Pair(Boxed<Datum>, Boxed<Datum>),
    Triple(Boxed<Datum>, Boxed<Datum>, Boxed<Datum>),
    Opt(Option<Boxed<Datum>>),
    List(Listed<Datum>),
}

impl Datum {
    #[cycle(datum_copies)]
    pub fn try_copy(&self, alloc: Global) -> Result<Datum, NoMemory>
        ensures { IfOk result (λ copy. copy ≡ self.now) }
    {
        match self {
            Datum::Int(n) => Ok(Datum::Int(*n)),
            Datum::Bool(b) => Ok(Datum::Bool(*b)),
            Datum::Char(c) => Ok(Datum::Char(*c)),
            Datum::Str(text) => Ok(Datum::Str(text.try_copy(alloc)?)),
            Datum::Unit => Ok(Datum::Unit),
            Datum::Pair(a, b) => {
                let a = copy_datum_box(alloc, a)?;
                Ok(Datum::Pair(a, copy_datum_box(alloc, b)?))
            }
            Datum::Triple(a, b, c) => {
                let a = copy_datum_box(alloc, a)?;
                let b = copy_datum_box(alloc, b)?;
                Ok(Datum::Triple(a, b, copy_datum_box(alloc, c)?))
            }
            Datum::Opt(None) => Ok(Datum::Opt(None)),
            Datum::Opt(Some(a)) => Ok(Datum::Opt(Some(copy_datum_box(alloc, a)?))),
            Datum::List(items) => Ok(Datum::List(copy_data(alloc, items)?)),
        }
    }
}

#[cycle(datum_copies)]
fn copy_datum_box(alloc: Global, datum: &Boxed<Datum>) -> Result<Boxed<Datum>, NoMemory>
    ensures { IfOk result (λ copy. copy ≡ datum.now) }
{
    Boxed::new(alloc, datum.get().try_copy(alloc)?)
}

#[cycle(datum_copies)]
fn copy_data(alloc: Global, items: &Listed<Datum>) -> Result<Listed<Datum>, NoMemory>
    ensures { IfOk result (λ copy. copy ≡ items.now) }
{
    let mut copies = Vec::new(alloc);
    for datum in items.as_slice() {
        copies.push(datum.try_copy(alloc)?)?;
    }
    Ok(Listed::of(copies))
}

/// The description of a datum: its type, as `Web.Cache.ty` has it.
#[derive(Debug, PartialEq, Eq, Drop)]
pub enum Desc {
    Int,
    Bool,
    Char,
    Str,
    Unit,
    Pair(Boxed<Desc>, Boxed<Desc>),
    Triple(Boxed<Desc>, Boxed<Desc>, Boxed<Desc>),
    Opt(Boxed<Desc>),
    List(Boxed<Desc>),
}

impl Desc {
    #[cycle(desc_copies)]
    pub fn try_copy(&self, alloc: Global) -> Result<Desc, NoMemory>
        ensures { IfOk result (λ copy. copy ≡ self.now) }
    {
        match self {
            Desc::Int => Ok(Desc::Int),
            Desc::Bool => Ok(Desc::Bool),
            Desc::Char => Ok(Desc::Char),
            Desc::Str => Ok(Desc::Str),
            Desc::Unit => Ok(Desc::Unit),
            Desc::Pair(a, b) => {
                let a = copy_desc_box(alloc, a)?;
                Ok(Desc::Pair(a, copy_desc_box(alloc, b)?))
            }
            Desc::Triple(a, b, c) => {
                let a = copy_desc_box(alloc, a)?;
                let b = copy_desc_box(alloc, b)?;
                Ok(Desc::Triple(a, b, copy_desc_box(alloc, c)?))
            }
            Desc::Opt(a) => Ok(Desc::Opt(copy_desc_box(alloc, a)?)),
            Desc::List(a) => Ok(Desc::List(copy_desc_box(alloc, a)?)),
        }
    }
}

#[cycle(desc_copies)]
fn copy_desc_box(alloc: Global, desc: &Boxed<Desc>) -> Result<Boxed<Desc>, NoMemory>
    ensures { IfOk result (λ copy. copy ≡ desc.now) }
{
    Boxed::new(alloc, desc.get().try_copy(alloc)?)
}
