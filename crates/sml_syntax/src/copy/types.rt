// Copies of types.
ghost use Rattle.std.specs.Prelude.{◌≡◌, IfOk};

use crate::{Boxed, Listed, NoMemory, Ty, TyForm};
use std::alloc::Global;

impl Ty {
    #[cycle(type_copies)]
    pub fn try_copy(&self, alloc: Global) -> Result<Ty, NoMemory>
        ensures { IfOk result (λ copy. copy ≡ self.now) }
    {
        Ok(Ty {
            span: self.span,
            form: self.form.try_copy(alloc)?,
        })
    }
}

impl TyForm {
    #[cycle(type_copies)]
    pub fn try_copy(&self, alloc: Global) -> Result<TyForm, NoMemory>
        ensures { IfOk result (λ copy. copy ≡ self.now) }
    {
        match self {
            TyForm::Var(name) => Ok(TyForm::Var(name.try_copy(alloc)?)),
            TyForm::Con(name, args) => {
                Ok(TyForm::Con(name.try_copy(alloc)?, copy_types(alloc, args)?))
            }
            TyForm::Tuple(parts) => Ok(TyForm::Tuple(copy_types(alloc, parts)?)),
            TyForm::Arrow(from, to) => {
                let from = Boxed::new(alloc, from.get().try_copy(alloc)?)?;
                let to = Boxed::new(alloc, to.get().try_copy(alloc)?)?;
                Ok(TyForm::Arrow(from, to))
            }
        }
    }
}

#[cycle(type_copies)]
fn copy_types(alloc: Global, types: &Listed<Ty>) -> Result<Listed<Ty>, NoMemory>
    ensures { IfOk result (λ copy. copy ≡ types.now) }
{
    let mut copies = Vec::new(alloc);
    for ty in types.as_slice() {
        copies.push(ty.try_copy(alloc)?)?;
    }
    Ok(Listed::of(copies))
}
