// Descriptions of the types of caches' keys and values.
use region_syntax::{MTy, RTy};
use sml_syntax::{Boxed, Listed, NoMemory};
use std::alloc::Global;
use web_data::Desc;

/// The description of a type, which is that of `unit` where it has none.
pub fn description(alloc: Global, ty: &MTy) -> Result<Desc, NoMemory> {
    Ok(described(alloc, ty)?.unwrap_or(Desc::Unit))
}

// The description of a type that has one.
#[cycle(descriptions)]
fn described(alloc: Global, ty: &MTy) -> Result<Option<Desc>, NoMemory> {
    match ty {
        MTy::Int => Ok(Some(Desc::Int)),
        MTy::Char => Ok(Some(Desc::Char)),
        MTy::Str => Ok(Some(Desc::Str)),
        MTy::Unit => Ok(Some(Desc::Unit)),
        MTy::DataTy(number, args) => {
            let parts = described_all(alloc, args)?;
            of_datatype(alloc, *number, parts)
        }
        MTy::Tuple(parts) => {
            let parts = described_all(alloc, parts)?;
            of_tuple(alloc, parts)
        }
        _ => Ok(None),
    }
}

// Those of types that all have one, in the contrary order.
#[cycle(descriptions)]
fn described_all(alloc: Global, types: &Listed<MTy>) -> Result<Option<Vec<Desc>>, NoMemory> {
    let mut all = Vec::new(alloc);
    let mut have = true;
    for ty in types.as_slice() {
        match described(alloc, ty)? {
            Some(desc) => all.push(desc)?,
            None => have = false,
        }
    }
    all.reverse();
    match have {
        true => Ok(Some(all)),
        false => Ok(None),
    }
}

// `bool`, lists and options.
fn of_datatype(
    alloc: Global,
    number: u32,
    parts: Option<Vec<Desc>>,
) -> Result<Option<Desc>, NoMemory> {
    let Some(mut parts) = parts else {
        return Ok(None);
    };
    match (number, parts.pop()) {
        (0, None) => Ok(Some(Desc::Bool)),
        (1, Some(item)) => Ok(Some(Desc::List(Boxed::new(alloc, item)?))),
        (2, Some(item)) => Ok(Some(Desc::Opt(Boxed::new(alloc, item)?))),
        _ => Ok(None),
    }
}

// Pairs and triples.
fn of_tuple(alloc: Global, parts: Option<Vec<Desc>>) -> Result<Option<Desc>, NoMemory> {
    let Some(mut parts) = parts else {
        return Ok(None);
    };
    if parts.len() > 3 {
        return Ok(None);
    }
    let (Some(first), Some(second)) = (parts.pop(), parts.pop()) else {
        return Ok(None);
    };
    let first = Boxed::new(alloc, first)?;
    let second = Boxed::new(alloc, second)?;
    match parts.pop() {
        Some(third) => Ok(Some(Desc::Triple(first, second, Boxed::new(alloc, third)?))),
        None => Ok(Some(Desc::Pair(first, second))),
    }
}

/// The types of the keys and values of a cache that a primitive of this type takes, alone or first in a
/// tuple.
pub fn cache_types(ty: &MTy) -> Option<(&MTy, &MTy)> {
    let MTy::Arrow(from, _) = ty else {
        return None;
    };
    match from.get() {
        MTy::CacheTy(key, value) => Some((key.get(), value.get())),
        MTy::Tuple(parts) => match parts.as_slice().first() {
            Some(MTy::CacheTy(key, value)) => Some((key.get(), value.get())),
            _ => None,
        },
        _ => None,
    }
}
