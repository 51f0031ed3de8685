// Written types.
use crate::context::Context;
use hm_scheme::{Stop, TypeMeaning};
use sml_syntax::{Text, Ty, TyForm};

/// The place of a name in a list.
pub(crate) fn place_of(name: &Text, names: &[Text]) -> Option<usize> {
    names
        .iter()
        .position(|other| other.as_bytes() == name.as_bytes())
}

impl Context {
    /// The class of a written type, whose type variables have these classes.
    #[cycle(written_types)]
    pub(crate) fn ty(&mut self, t: &Ty, variables: &[Text], classes: &[u32]) -> Result<u32, Stop> {
        match &t.form {
            TyForm::Var(name) => {
                let place = place_of(name, variables).ok_or(Stop::Ill)?;
                classes.get(place).copied().ok_or(Stop::Ill)
            }
            TyForm::Con(name, arguments) => {
                let parts = self.tys(arguments.as_slice(), variables, classes)?;
                self.applied(name, parts.as_slice())
            }
            TyForm::Tuple(ts) => {
                let parts = self.tys(ts.as_slice(), variables, classes)?;
                self.types.tuple(parts.as_slice())
            }
            TyForm::Arrow(from, to) => {
                let from = self.ty(from.get(), variables, classes)?;
                let to = self.ty(to.get(), variables, classes)?;
                self.types.function(from, to)
            }
        }
    }

    #[cycle(written_types)]
    fn tys(&mut self, ts: &[Ty], variables: &[Text], classes: &[u32]) -> Result<Vec<u32>, Stop> {
        let mut parts = Vec::new(self.alloc);
        for t in ts {
            let part = self.ty(t, variables, classes)?;
            parts.push(part)?;
        }
        Ok(parts)
    }

    // A type name at arguments.
    fn applied(&mut self, name: &Text, arguments: &[u32]) -> Result<u32, Stop> {
        let function = self.function(name.as_bytes())?.ok_or(Stop::Ill)?;
        if function.arity != arguments.len() {
            return Err(Stop::Ill);
        }
        match function.meaning {
            TypeMeaning::Name(name) => self.types.con(name, arguments),
            TypeMeaning::Written(class, mark) => self.filled(class, mark, arguments),
        }
    }

    // What an abbreviation stands for, at arguments.
    fn filled(&mut self, class: u32, mark: u32, arguments: &[u32]) -> Result<u32, Stop> {
        if arguments.is_empty() {
            return Ok(class);
        }
        if arguments.len() > 4_294_967_295 {
            return Err(Stop::NoMemory);
        }
        let copy = self.types.copy(class, mark)?;
        for i in 0..arguments.len() {
            let parameter = self.types.part(copy, i as u32)?;
            self.types.unify(parameter, arguments[i])?;
        }
        self.types.part(copy, arguments.len() as u32)
    }
}
