//! The erasure of regions: the specialised program that a region program stands for.
#![tactic(auto)]

ghost use Rattle.std.specs.Prelude.{◌≡◌, IfOk, map};
ghost use Rattle.region_syntax.specs.GroundTerms.{ground_program, ground_exception};
ghost use Rattle.region_syntax.specs.RegionTerms.{region_program};
ghost use Rattle.region_syntax.specs.Erasure.{erased_program, exception_erasure, argument_erasure};
ghost use Rattle.region_syntax.specs.GroundTerms.{ground_argument};

mod terms;
mod types;

use region_syntax::{MData, MProgram, MTy, RProgram, RTy};
use sml_syntax::{Listed, NoMemory, Text};
use std::alloc::Global;
use terms::erase_decs;
use types::erase_type;

/// Leaves the regions, places and effects out: a group of functions in an expression becomes a `let`,
/// and a use of a name of a group is the name. It takes steps in proportion to the program's size, and
/// its calls nest no deeper than the program is high.
#[tactic(auto, using(crate::proofs::ErasedTerms::program_erased))]
pub fn erase(alloc: Global, program: &RProgram) -> Result<MProgram, NoMemory>
    ensures { IfOk result (λ p. ground_program p ≡ erased_program (region_program program.now)) }
{
    Ok(MProgram {
        datatypes: copy_datatypes(alloc, &program.datatypes)?,
        exceptions: erase_exceptions(alloc, &program.exceptions)?,
        items: erase_decs(alloc, &program.items)?,
    })
}

fn copy_datatypes(alloc: Global, datatypes: &Listed<MData>) -> Result<Listed<MData>, NoMemory>
    ensures { IfOk result (λ copy. copy ≡ datatypes.now) }
{
    let mut copies = Vec::new(alloc);
    for datatype in datatypes.as_slice() {
        copies.push(datatype.try_copy(alloc)?)?;
    }
    Ok(Listed::of(copies))
}

#[tactic(auto, using(crate::proofs::Lists::pushed))]
fn erase_exceptions(
    alloc: Global,
    exceptions: &Listed<(Text, Option<RTy>)>,
) -> Result<Listed<(Text, Option<MTy>)>, NoMemory>
    ensures { IfOk result (λ es. map ground_exception es ≡ map exception_erasure exceptions.now) }
{
    let mut erased = Vec::new(alloc);
    for exception in exceptions.as_slice() {
        erased.push(erase_exception(alloc, exception)?)?;
    }
    Ok(Listed::of(erased))
}

#[tactic(auto, using(crate::proofs::ErasedTerms::exception_erased))]
fn erase_exception(
    alloc: Global,
    exception: &(Text, Option<RTy>),
) -> Result<(Text, Option<MTy>), NoMemory>
    ensures { IfOk result (λ e. ground_exception e ≡ exception_erasure exception.now) }
{
    let name = exception.0.try_copy(alloc)?;
    Ok((name, erase_argument(alloc, &exception.1)?))
}

#[tactic(auto, using(crate::proofs::ErasedTerms::argument_none, crate::proofs::ErasedTerms::argument_some))]
fn erase_argument(alloc: Global, ty: &Option<RTy>) -> Result<Option<MTy>, NoMemory>
    ensures { IfOk result (λ t. ground_argument t ≡ argument_erasure ty.now) }
{
    match ty {
        None => Ok(None),
        Some(ty) => Ok(Some(erase_type(alloc, ty)?)),
    }
}
