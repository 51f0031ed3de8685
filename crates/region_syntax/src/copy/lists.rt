// Copies of lists without trees.
ghost use Rattle.std.specs.Prelude.{◌≡◌, IfOk};

use crate::{Effect, Place};
use sml_syntax::{Listed, NoMemory};
use std::alloc::Global;

pub(crate) fn copy_numbers(alloc: Global, numbers: &Listed<u32>) -> Result<Listed<u32>, NoMemory>
    ensures { IfOk result (λ copy. copy ≡ numbers.now) }
{
    let mut copies = Vec::new(alloc);
    for number in numbers.as_slice() {
        copies.push(*number)?;
    }
    Ok(Listed::of(copies))
}

pub(crate) fn copy_places(alloc: Global, places: &Listed<Place>) -> Result<Listed<Place>, NoMemory>
    ensures { IfOk result (λ copy. copy ≡ places.now) }
{
    let mut copies = Vec::new(alloc);
    for place in places.as_slice() {
        copies.push(*place)?;
    }
    Ok(Listed::of(copies))
}

pub(crate) fn copy_effects(
    alloc: Global,
    effects: &Listed<Effect>,
) -> Result<Listed<Effect>, NoMemory>
    ensures { IfOk result (λ copy. copy ≡ effects.now) }
{
    let mut copies = Vec::new(alloc);
    for effect in effects.as_slice() {
        copies.push(effect.try_copy(alloc)?)?;
    }
    Ok(Listed::of(copies))
}
