// Types: what region types erase to, what is had by putting arguments in, and results of functions.
use region_syntax::{MTy, RTy};
use sml_syntax::{Boxed, Listed, NoMemory};
use std::alloc::Global;

#[cycle(erasures)]
pub fn erased(alloc: Global, ty: &RTy) -> Result<MTy, NoMemory> {
    match ty {
        RTy::Int => Ok(MTy::Int),
        RTy::Char => Ok(MTy::Char),
        RTy::Unit => Ok(MTy::Unit),
        RTy::Exn => Ok(MTy::Exn),
        RTy::Str(_) => Ok(MTy::Str),
        RTy::Tuple(_, parts) => Ok(MTy::Tuple(erased_all(alloc, parts)?)),
        RTy::DataTy { number, args, .. } => Ok(MTy::DataTy(*number, erased_all(alloc, args)?)),
        RTy::Ref(_, held) => Ok(MTy::Ref(erased_box(alloc, held)?)),
        RTy::Arrow(_, from, _, to) => {
            let from = erased_box(alloc, from)?;
            Ok(MTy::Arrow(from, erased_box(alloc, to)?))
        }
        RTy::CacheTy(_, key, value) => {
            let key = copied(alloc, key)?;
            Ok(MTy::CacheTy(key, copied(alloc, value)?))
        }
        RTy::DescTy(described) => Ok(MTy::DescTy(copied(alloc, described)?)),
    }
}

#[cycle(erasures)]
fn erased_all(alloc: Global, types: &Listed<RTy>) -> Result<Listed<MTy>, NoMemory> {
    let mut all = Vec::new(alloc);
    for ty in types.as_slice() {
        all.push(erased(alloc, ty)?)?;
    }
    Ok(Listed::of(all))
}

#[cycle(erasures)]
fn erased_box(alloc: Global, ty: &Boxed<RTy>) -> Result<Boxed<MTy>, NoMemory> {
    Boxed::new(alloc, erased(alloc, ty.get())?)
}

fn copied(alloc: Global, ty: &Boxed<MTy>) -> Result<Boxed<MTy>, NoMemory> {
    Boxed::new(alloc, ty.get().try_copy(alloc)?)
}

/// A type of a datatype's declaration with these for its parameters.
#[cycle(instances)]
pub fn instance(alloc: Global, ty: &MTy, args: &[MTy]) -> Result<MTy, NoMemory> {
    match ty {
        MTy::Int => Ok(MTy::Int),
        MTy::Char => Ok(MTy::Char),
        MTy::Str => Ok(MTy::Str),
        MTy::Unit => Ok(MTy::Unit),
        MTy::Exn => Ok(MTy::Exn),
        MTy::Tuple(parts) => Ok(MTy::Tuple(instances(alloc, parts, args)?)),
        MTy::DataTy(number, parts) => Ok(MTy::DataTy(*number, instances(alloc, parts, args)?)),
        MTy::Ref(held) => Ok(MTy::Ref(instance_box(alloc, held, args)?)),
        MTy::DescTy(described) => Ok(MTy::DescTy(instance_box(alloc, described, args)?)),
        MTy::Arrow(from, to) => {
            let from = instance_box(alloc, from, args)?;
            Ok(MTy::Arrow(from, instance_box(alloc, to, args)?))
        }
        MTy::CacheTy(key, value) => {
            let key = instance_box(alloc, key, args)?;
            Ok(MTy::CacheTy(key, instance_box(alloc, value, args)?))
        }
        MTy::Var(number) => match args.get(*number as usize) {
            Some(argument) => argument.try_copy(alloc),
            None => Ok(MTy::Unit),
        },
    }
}

#[cycle(instances)]
fn instances(alloc: Global, types: &Listed<MTy>, args: &[MTy]) -> Result<Listed<MTy>, NoMemory> {
    let mut all = Vec::new(alloc);
    for ty in types.as_slice() {
        all.push(instance(alloc, ty, args)?)?;
    }
    Ok(Listed::of(all))
}

#[cycle(instances)]
fn instance_box(alloc: Global, ty: &Boxed<MTy>, args: &[MTy]) -> Result<Boxed<MTy>, NoMemory> {
    Boxed::new(alloc, instance(alloc, ty.get(), args)?)
}

/// What a function of a type gives.
pub fn result_type(ty: &RTy) -> Option<&RTy> {
    match ty {
        RTy::Arrow(_, _, _, to) => Some(to.get()),
        _ => None,
    }
}

/// The type of what `=` at this type compares.
pub fn compared_type(ty: &RTy) -> Option<&RTy> {
    let RTy::Arrow(_, from, _, _) = ty else {
        return None;
    };
    let RTy::Tuple(_, parts) = from.get() else {
        return None;
    };
    parts.as_slice().first()
}

/// The same of a type without places.
pub fn compared_of(ty: &MTy) -> Option<&MTy> {
    let MTy::Arrow(from, _) = ty else {
        return None;
    };
    let MTy::Tuple(parts) = from.get() else {
        return None;
    };
    parts.as_slice().first()
}
