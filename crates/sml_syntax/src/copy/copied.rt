// Copies of lists, options and pairs, each by the copies of its parts.
ghost use Rattle.std.specs.Prelude.{◌≡◌, ◌++◌, ◌∷◌, [], IfOk};

use crate::{Listed, NoMemory, Text, Ty};
use std::alloc::Global;

/// What `try_copy` copies, as the copies of lists, options and pairs see it.
pub trait Copied: Sized + Drop {
    fn copied(&self, alloc: Global) -> Result<Self, NoMemory>
        ensures { IfOk result (λ copy. copy ≡ self.now) };
}

impl Copied for Text {
    fn copied(&self, alloc: Global) -> Result<Text, NoMemory> {
        self.try_copy(alloc)
    }
}

impl Copied for Ty {
    fn copied(&self, alloc: Global) -> Result<Ty, NoMemory> {
        self.try_copy(alloc)
    }
}

impl<T: Copied> Copied for Option<T> {
    fn copied(&self, alloc: Global) -> Result<Option<T>, NoMemory> {
        match self {
            None => Ok(None),
            Some(item) => Ok(Some(item.copied(alloc)?)),
        }
    }
}

impl<A: Copied, B: Copied> Copied for (A, B) {
    fn copied(&self, alloc: Global) -> Result<(A, B), NoMemory> {
        copied_two(alloc, &self.0, &self.1)
    }
}

impl<A: Copied, B: Copied, C: Copied> Copied for (A, B, C) {
    fn copied(&self, alloc: Global) -> Result<(A, B, C), NoMemory> {
        copied_three(alloc, &self.0, &self.1, &self.2)
    }
}

impl<T: Copied> Copied for Listed<T> {
    fn copied(&self, alloc: Global) -> Result<Listed<T>, NoMemory> {
        let mut copies = Vec::new(alloc);
        for item in self.as_slice() {
            copies.push(item.copied(alloc)?)?;
        }
        Ok(Listed::of(copies))
    }
}

/// Copies of two, the first one made first.
pub fn copied_two<A: Copied, B: Copied>(
    alloc: Global,
    first: &A,
    second: &B,
) -> Result<(A, B), NoMemory>
    ensures { IfOk result (λ copies. copies ≡ (first.now, second.now)) }
{
    let first = first.copied(alloc)?;
    Ok((first, second.copied(alloc)?))
}

/// Copies of three, from the first to the last.
pub fn copied_three<A: Copied, B: Copied, C: Copied>(
    alloc: Global,
    first: &A,
    second: &B,
    third: &C,
) -> Result<(A, B, C), NoMemory>
    ensures { IfOk result (λ copies. copies ≡ (first.now, second.now, third.now)) }
{
    let (first, second) = copied_two(alloc, first, second)?;
    Ok((first, second, third.copied(alloc)?))
}

/// A copy of `first`, and `second`.
pub fn beside<A: Copied, B: Drop>(alloc: Global, first: &A, second: B) -> Result<(A, B), NoMemory>
    ensures { IfOk result (λ pair. pair ≡ (first.now, second)) }
{
    let first = first.copied(alloc)?;
    Ok((first, second))
}

/// The pairs with one more behind them, of a copy of `first` and of `second`.
pub fn with_pair<A: Copied, B: Drop>(
    alloc: Global,
    mut pairs: Vec<(A, B)>,
    first: &A,
    second: B,
) -> Result<Vec<(A, B)>, NoMemory>
    ensures { IfOk result (λ longer. longer.items ≡ pairs.items ++ (first.now, second) ∷ []) }
{
    let pair = beside(alloc, first, second)?;
    pairs.push(pair)?;
    Ok(pairs)
}
