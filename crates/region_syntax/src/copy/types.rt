// Copies of types.
ghost use Rattle.std.specs.Prelude.{◌≡◌, IfOk};

use super::lists::{copy_numbers, copy_places};
use crate::{Effect, MData, MTy, RTy};
use sml_syntax::{Boxed, Listed, NoMemory, Text};
use std::alloc::Global;

impl MTy {
    #[cycle(type_copies)]
    pub fn try_copy(&self, alloc: Global) -> Result<MTy, NoMemory>
        ensures { IfOk result (λ copy. copy ≡ self.now) }
    {
        match self {
            MTy::Int => Ok(MTy::Int),
            MTy::Char => Ok(MTy::Char),
            MTy::Str => Ok(MTy::Str),
            MTy::Unit => Ok(MTy::Unit),
            MTy::Exn => Ok(MTy::Exn),
            MTy::Tuple(parts) => Ok(MTy::Tuple(copy_types(alloc, parts)?)),
            MTy::Arrow(from, to) => {
                let from = copy_type_box(alloc, from)?;
                Ok(MTy::Arrow(from, copy_type_box(alloc, to)?))
            }
            MTy::DataTy(number, args) => Ok(MTy::DataTy(*number, copy_types(alloc, args)?)),
            MTy::Ref(content) => Ok(MTy::Ref(copy_type_box(alloc, content)?)),
            MTy::CacheTy(key, value) => {
                let key = copy_type_box(alloc, key)?;
                Ok(MTy::CacheTy(key, copy_type_box(alloc, value)?))
            }
            MTy::DescTy(described) => Ok(MTy::DescTy(copy_type_box(alloc, described)?)),
            MTy::Var(number) => Ok(MTy::Var(*number)),
        }
    }
}

#[cycle(type_copies)]
fn copy_type_box(alloc: Global, ty: &Boxed<MTy>) -> Result<Boxed<MTy>, NoMemory>
    ensures { IfOk result (λ copy. copy ≡ ty.now) }
{
    Boxed::new(alloc, ty.get().try_copy(alloc)?)
}

#[cycle(type_copies)]
fn copy_types(alloc: Global, types: &Listed<MTy>) -> Result<Listed<MTy>, NoMemory>
    ensures { IfOk result (λ copy. copy ≡ types.now) }
{
    let mut copies = Vec::new(alloc);
    for ty in types.as_slice() {
        copies.push(ty.try_copy(alloc)?)?;
    }
    Ok(Listed::of(copies))
}

/// Constructors or exceptions, each with the type of its argument, if any.
pub(crate) fn copy_constructors(
    alloc: Global,
    constructors: &Listed<(Text, Option<MTy>)>,
) -> Result<Listed<(Text, Option<MTy>)>, NoMemory>
    ensures { IfOk result (λ copy. copy ≡ constructors.now) }
{
    let mut copies = Vec::new(alloc);
    for constructor in constructors.as_slice() {
        let name = constructor.0.try_copy(alloc)?;
        copies.push((name, copy_argument(alloc, &constructor.1)?))?;
    }
    Ok(Listed::of(copies))
}

fn copy_argument(alloc: Global, ty: &Option<MTy>) -> Result<Option<MTy>, NoMemory>
    ensures { IfOk result (λ copy. copy ≡ ty.now) }
{
    match ty {
        None => Ok(None),
        Some(ty) => Ok(Some(ty.try_copy(alloc)?)),
    }
}

impl MData {
    pub fn try_copy(&self, alloc: Global) -> Result<MData, NoMemory>
        ensures { IfOk result (λ copy. copy ≡ self.now) }
    {
        Ok(MData {
            declaration: self.declaration,
            params: self.params,
            cons: copy_constructors(alloc, &self.cons)?,
        })
    }
}

pub(crate) fn copy_datatypes(
    alloc: Global,
    datatypes: &Listed<MData>,
) -> Result<Listed<MData>, NoMemory>
    ensures { IfOk result (λ copy. copy ≡ datatypes.now) }
{
    let mut copies = Vec::new(alloc);
    for datatype in datatypes.as_slice() {
        copies.push(datatype.try_copy(alloc)?)?;
    }
    Ok(Listed::of(copies))
}

impl Effect {
    pub fn try_copy(&self, alloc: Global) -> Result<Effect, NoMemory>
        ensures { IfOk result (λ copy. copy ≡ self.now) }
    {
        Ok(Effect {
            regions: copy_places(alloc, &self.regions)?,
            vars: copy_numbers(alloc, &self.vars)?,
        })
    }
}

impl RTy {
    #[cycle(placed_type_copies)]
    pub fn try_copy(&self, alloc: Global) -> Result<RTy, NoMemory>
        ensures { IfOk result (λ copy. copy ≡ self.now) }
    {
        match self {
            RTy::Int => Ok(RTy::Int),
            RTy::Char => Ok(RTy::Char),
            RTy::Unit => Ok(RTy::Unit),
            RTy::Str(place) => Ok(RTy::Str(*place)),
            RTy::Tuple(place, parts) => Ok(RTy::Tuple(*place, copy_placed_types(alloc, parts)?)),
            RTy::Arrow(place, from, effect, to) => {
                let from = copy_placed_box(alloc, from)?;
                let effect = effect.try_copy(alloc)?;
                Ok(RTy::Arrow(*place, from, effect, copy_placed_box(alloc, to)?))
            }
            RTy::DataTy {
                number,
                args,
                place,
                effect,
            } => Ok(RTy::DataTy {
                number: *number,
                args: copy_placed_types(alloc, args)?,
                place: *place,
                effect: effect.try_copy(alloc)?,
            }),
            RTy::Ref(place, content) => Ok(RTy::Ref(*place, copy_placed_box(alloc, content)?)),
            RTy::Exn => Ok(RTy::Exn),
            RTy::CacheTy(place, key, value) => {
                let key = Boxed::new(alloc, key.get().try_copy(alloc)?)?;
                let value = Boxed::new(alloc, value.get().try_copy(alloc)?)?;
                Ok(RTy::CacheTy(*place, key, value))
            }
            RTy::DescTy(described) => {
                Ok(RTy::DescTy(Boxed::new(alloc, described.get().try_copy(alloc)?)?))
            }
        }
    }
}

#[cycle(placed_type_copies)]
fn copy_placed_box(alloc: Global, ty: &Boxed<RTy>) -> Result<Boxed<RTy>, NoMemory>
    ensures { IfOk result (λ copy. copy ≡ ty.now) }
{
    Boxed::new(alloc, ty.get().try_copy(alloc)?)
}

#[cycle(placed_type_copies)]
fn copy_placed_types(alloc: Global, types: &Listed<RTy>) -> Result<Listed<RTy>, NoMemory>
    ensures { IfOk result (λ copy. copy ≡ types.now) }
{
    let mut copies = Vec::new(alloc);
    for ty in types.as_slice() {
        copies.push(ty.try_copy(alloc)?)?;
    }
    Ok(Listed::of(copies))
}
