// Uses of names and types, and what forms ask of the classes of their parts.
use crate::context::Context;
use crate::stands::Stands;
use hm_scheme::{Meaning, Status, Stop};
use sml_syntax::{Text, Ty};

impl Context {
    /// The class of a name in an expression.
    pub(crate) fn used(&mut self, name: &Text, node: usize) -> Result<u32, Stop> {
        let name = self.name(name.as_bytes())?;
        let class = match self.meaning(name) {
            Some(meaning) => self.instance(meaning.scheme)?,
            None => return Err(Stop::Ill),
        };
        match self.origin(name) {
            Stands::Bound(number, _) => {
                let (first, rest) = self.taken(number, class)?;
                self.note(node, Stands::Bound(number, first))?;
                Ok(rest)
            }
            origin => {
                self.note(node, origin)?;
                Ok(class)
            }
        }
    }

    /// The class of a constructor that a pattern applies to an argument of this class.
    pub(crate) fn constructed(
        &mut self,
        name: &Text,
        node: usize,
        argument: u32,
    ) -> Result<u32, Stop> {
        let name = self.name(name.as_bytes())?;
        self.note(node, self.origin(name))?;
        match self.meaning(name) {
            Some(
                Meaning {
                    status: Status::Applied,
                    scheme,
                },
            ) => {
                let class = self.instance(scheme)?;
                let from = self.types.part(class, 0)?;
                self.types.unify(from, argument)?;
                self.types.part(class, 1)
            }
            _ => Err(Stop::Ill),
        }
    }

    /// A list of items, which all get one type.
    pub(crate) fn list_of(&mut self, items: &[u32]) -> Result<u32, Stop> {
        let item = self.types.var(false)?;
        for class in items {
            self.types.unify(item, *class)?;
        }
        self.types.list(item)
    }

    /// The class, which gets a written type.
    pub(crate) fn constrain(&mut self, class: u32, t: &Ty) -> Result<u32, Stop> {
        let written = self.ty(t, &[], &[])?;
        self.types.unify(class, written)?;
        Ok(class)
    }

    /// A function at an argument.
    pub(crate) fn application(&mut self, f: u32, argument: u32) -> Result<u32, Stop> {
        let result = self.types.var(false)?;
        let function = self.types.function(argument, result)?;
        self.types.unify(f, function)?;
        Ok(result)
    }

    /// A quotation whose antiquotations have this class.
    pub(crate) fn quoted(&mut self, class: u32) -> Result<u32, Stop> {
        let frag = self.types.con(9, &[class])?;
        self.types.list(frag)
    }
}
