// Types in which all boxed values lie in the global region.
use region_syntax::{Effect, MDef, MTy, Place, RTy};
use sml_syntax::{Boxed, Listed, NoMemory};
use std::alloc::Global;

// The effect of every function and datatype.
fn global_effect(alloc: Global) -> Result<Effect, NoMemory> {
    let mut regions = Vec::new(alloc);
    regions.push(Place::Global)?;
    Ok(Effect {
        regions: Listed::of(regions),
        vars: Listed::of(Vec::new(alloc)),
    })
}

#[cycle(types)]
pub(crate) fn global_type(alloc: Global, ty: &MTy) -> Result<RTy, NoMemory> {
    match ty {
        MTy::Int => Ok(RTy::Int),
        MTy::Char => Ok(RTy::Char),
        MTy::Unit | MTy::Var(_) => Ok(RTy::Unit),
        MTy::Exn => Ok(RTy::Exn),
        MTy::Str => Ok(RTy::Str(Place::Global)),
        MTy::Tuple(parts) => Ok(RTy::Tuple(Place::Global, global_types(alloc, parts.as_slice())?)),
        MTy::Arrow(from, to) => {
            let from = Boxed::new(alloc, global_type(alloc, from.get())?)?;
            let to = Boxed::new(alloc, global_type(alloc, to.get())?)?;
            Ok(RTy::Arrow(Place::Global, from, global_effect(alloc)?, to))
        }
        MTy::DataTy(number, args) => Ok(RTy::DataTy {
            number: *number,
            args: global_types(alloc, args.as_slice())?,
            place: Place::Global,
            effect: global_effect(alloc)?,
        }),
        MTy::Ref(content) => {
            let content = Boxed::new(alloc, global_type(alloc, content.get())?)?;
            Ok(RTy::Ref(Place::Global, content))
        }
        MTy::CacheTy(key, value) => {
            let key = Boxed::new(alloc, key.get().try_copy(alloc)?)?;
            let value = Boxed::new(alloc, value.get().try_copy(alloc)?)?;
            Ok(RTy::CacheTy(Place::Global, key, value))
        }
        MTy::DescTy(described) => {
            let described = Boxed::new(alloc, described.get().try_copy(alloc)?)?;
            Ok(RTy::DescTy(described))
        }
    }
}

#[cycle(types)]
fn global_types(alloc: Global, types: &[MTy]) -> Result<Listed<RTy>, NoMemory> {
    let mut written = Vec::new(alloc);
    for ty in types {
        written.push(global_type(alloc, ty)?)?;
    }
    Ok(Listed::of(written))
}

// The type of a function, as its first rule shows it.
pub(crate) fn function_type(alloc: Global, def: &MDef) -> Result<RTy, NoMemory> {
    let Some(rule) = def.rules.as_slice().first() else {
        return Ok(RTy::Unit);
    };
    let from = Boxed::new(alloc, global_type(alloc, &rule.pat.ty)?)?;
    let to = Boxed::new(alloc, global_type(alloc, &rule.body.ty)?)?;
    Ok(RTy::Arrow(Place::Global, from, global_effect(alloc)?, to))
}

/// The type of an exception's argument.
pub(crate) fn global_argument(alloc: Global, ty: &Option<MTy>) -> Result<Option<RTy>, NoMemory> {
    match ty {
        None => Ok(None),
        Some(ty) => Ok(Some(global_type(alloc, ty)?)),
    }
}
