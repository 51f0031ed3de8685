// Copies of patterns.
ghost use Rattle.std.specs.Prelude.{◌≡◌, IfOk};

use super::Copied;
use crate::{Boxed, Listed, NoMemory, Pat, PatForm};
use std::alloc::Global;

impl Pat {
    #[cycle(pattern_copies)]
    pub fn try_copy(&self, alloc: Global) -> Result<Pat, NoMemory>
        ensures { IfOk result (λ copy. copy ≡ self.now) }
    {
        Ok(Pat {
            span: self.span,
            form: self.form.try_copy(alloc)?,
        })
    }
}

impl Copied for Pat {
    fn copied(&self, alloc: Global) -> Result<Pat, NoMemory> {
        self.try_copy(alloc)
    }
}

impl PatForm {
    #[cycle(pattern_copies)]
    pub fn try_copy(&self, alloc: Global) -> Result<PatForm, NoMemory>
        ensures { IfOk result (λ copy. copy ≡ self.now) }
    {
        match self {
            PatForm::Any => Ok(PatForm::Any),
            PatForm::Int(n) => Ok(PatForm::Int(*n)),
            PatForm::Char(c) => Ok(PatForm::Char(*c)),
            PatForm::Str(text) => Ok(PatForm::Str(text.try_copy(alloc)?)),
            PatForm::Unit => Ok(PatForm::Unit),
            PatForm::Name(name) => Ok(PatForm::Name(name.try_copy(alloc)?)),
            PatForm::Tuple(parts) => Ok(PatForm::Tuple(copy_patterns(alloc, parts)?)),
            PatForm::List(items) => Ok(PatForm::List(copy_patterns(alloc, items)?)),
            PatForm::Con(name, arg) => {
                let name = name.try_copy(alloc)?;
                Ok(PatForm::Con(name, copy_pattern_box(alloc, arg)?))
            }
            PatForm::Typed(pat, ty) => {
                let pat = copy_pattern_box(alloc, pat)?;
                Ok(PatForm::Typed(pat, ty.try_copy(alloc)?))
            }
        }
    }
}

#[cycle(pattern_copies)]
fn copy_pattern_box(alloc: Global, pat: &Boxed<Pat>) -> Result<Boxed<Pat>, NoMemory>
    ensures { IfOk result (λ copy. copy ≡ pat.now) }
{
    Boxed::new(alloc, pat.get().try_copy(alloc)?)
}

#[cycle(pattern_copies)]
fn copy_patterns(alloc: Global, pats: &Listed<Pat>) -> Result<Listed<Pat>, NoMemory>
    ensures { IfOk result (λ copy. copy ≡ pats.now) }
{
    let mut copies = Vec::new(alloc);
    for pat in pats.as_slice() {
        copies.push(pat.try_copy(alloc)?)?;
    }
    Ok(Listed::of(copies))
}
