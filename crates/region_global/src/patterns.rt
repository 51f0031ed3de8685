// Patterns, and the names that they bind.
use crate::terms::Globals;
use crate::types::global_type;
use region_syntax::{MPat, MPatForm, RPat, RPatForm};
use sml_syntax::{Boxed, Listed, NoMemory};

impl Globals {
    #[cycle(patterns)]
    pub fn pat(&mut self, pat: &MPat, named: &mut Vec<u32>) -> Result<RPat, NoMemory> {
        Ok(RPat {
            ty: global_type(self.alloc, &pat.ty)?,
            form: self.pat_form(&pat.form, named)?,
        })
    }

    #[cycle(patterns)]
    fn pat_form(&mut self, form: &MPatForm, named: &mut Vec<u32>) -> Result<RPatForm, NoMemory> {
        match form {
            MPatForm::Any => Ok(RPatForm::Any),
            MPatForm::Int(n) => Ok(RPatForm::Int(*n)),
            MPatForm::Char(c) => Ok(RPatForm::Char(*c)),
            MPatForm::Str(text) => Ok(RPatForm::Str(text.try_copy(self.alloc)?)),
            MPatForm::Unit => Ok(RPatForm::Unit),
            MPatForm::Name(name) => {
                let number = self.scope.number(name)?;
                named.push(number)?;
                Ok(RPatForm::Name(name.try_copy(self.alloc)?))
            }
            MPatForm::Tuple(parts) => Ok(RPatForm::Tuple(self.pats(parts.as_slice(), named)?)),
            MPatForm::List(items) => Ok(RPatForm::List(self.pats(items.as_slice(), named)?)),
            MPatForm::Con(con) => Ok(RPatForm::Con(*con)),
            MPatForm::App(con, arg) => {
                let arg = Boxed::new(self.alloc, self.pat(arg.get(), named)?)?;
                Ok(RPatForm::App(*con, arg))
            }
        }
    }

    #[cycle(patterns)]
    fn pats(&mut self, pats: &[MPat], named: &mut Vec<u32>) -> Result<Listed<RPat>, NoMemory> {
        let mut written = Vec::new(self.alloc);
        for pat in pats {
            written.push(self.pat(pat, named)?)?;
        }
        Ok(Listed::of(written))
    }
}
