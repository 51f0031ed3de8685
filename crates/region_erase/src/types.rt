// Types without their places.
ghost use Rattle.std.specs.Prelude.{◌≡◌, IfOk, map};
ghost use Rattle.region_syntax.specs.GroundTypes.{ground_type};
ghost use Rattle.region_syntax.specs.Erasure.{type_erasure};

use region_syntax::{MTy, RTy};
use sml_syntax::{Boxed, Listed, NoMemory};
use std::alloc::Global;

#[cycle(type_erasures)]
#[tactic(auto, using(crate::proofs::ErasedTypes::int_type_erased, crate::proofs::ErasedTypes::char_type_erased, crate::proofs::ErasedTypes::unit_type_erased, crate::proofs::ErasedTypes::str_type_erased, crate::proofs::ErasedTypes::tuple_type_erased, crate::proofs::ErasedTypes::arrow_type_erased, crate::proofs::ErasedTypes::dataty_type_erased, crate::proofs::ErasedTypes::ref_type_erased, crate::proofs::ErasedTypes::exn_type_erased, crate::proofs::ErasedTypes::cachety_type_erased, crate::proofs::ErasedTypes::descty_type_erased))]
pub(crate) fn erase_type(alloc: Global, ty: &RTy) -> Result<MTy, NoMemory>
    ensures { IfOk result (λ t. ground_type t ≡ type_erasure ty.now) }
{
    match ty {
        RTy::Int => Ok(MTy::Int),
        RTy::Char => Ok(MTy::Char),
        RTy::Unit => Ok(MTy::Unit),
        RTy::Str(_) => Ok(MTy::Str),
        RTy::Tuple(_, parts) => Ok(MTy::Tuple(erase_types(alloc, parts)?)),
        RTy::Arrow(_, from, _, to) => {
            let from = erase_type_box(alloc, from)?;
            Ok(MTy::Arrow(from, erase_type_box(alloc, to)?))
        }
        RTy::DataTy { number, args, .. } => Ok(MTy::DataTy(*number, erase_types(alloc, args)?)),
        RTy::Ref(_, content) => Ok(MTy::Ref(erase_type_box(alloc, content)?)),
        RTy::Exn => Ok(MTy::Exn),
        RTy::CacheTy(_, key, value) => {
            let key = Boxed::new(alloc, key.get().try_copy(alloc)?)?;
            let value = Boxed::new(alloc, value.get().try_copy(alloc)?)?;
            Ok(MTy::CacheTy(key, value))
        }
        RTy::DescTy(described) => {
            Ok(MTy::DescTy(Boxed::new(alloc, described.get().try_copy(alloc)?)?))
        }
    }
}

#[cycle(type_erasures)]
fn erase_type_box(alloc: Global, ty: &Boxed<RTy>) -> Result<Boxed<MTy>, NoMemory>
    ensures { IfOk result (λ t. ground_type t ≡ type_erasure ty.now) }
{
    Boxed::new(alloc, erase_type(alloc, ty.get())?)
}

#[cycle(type_erasures)]
#[tactic(auto, using(crate::proofs::Lists::pushed))]
fn erase_types(alloc: Global, types: &Listed<RTy>) -> Result<Listed<MTy>, NoMemory>
    ensures { IfOk result (λ ts. map ground_type ts ≡ map type_erasure types.now) }
{
    let mut erased = Vec::new(alloc);
    for ty in types.as_slice() {
        erased.push(erase_type(alloc, ty)?)?;
    }
    Ok(Listed::of(erased))
}
