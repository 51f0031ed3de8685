// Names that patterns bind.
use crate::binding::are_distinct;
use crate::context::Context;
use crate::stands::Stands;
use hm_scheme::{Meaning, Scheme, Status, Stop, is_long};
use sml_syntax::Text;

/// A name that a pattern binds, and its class.
#[derive(Clone, Copy, Debug, PartialEq, Eq)]
pub(crate) struct Named {
    pub(crate) name: u32,
    pub(crate) class: u32,
}

impl Context {
    /// The class of a name in a pattern: that of a constant, or of a name that is bound.
    pub(crate) fn named_pat(
        &mut self,
        text: &Text,
        node: usize,
        named: &mut Vec<Named>,
    ) -> Result<u32, Stop> {
        let name = self.name(text.as_bytes())?;
        match self.meaning(name) {
            Some(
                Meaning {
                    status: Status::Constant,
                    scheme,
                },
            ) => {
                self.note(node, self.origin(name))?;
                self.instance(scheme)
            }
            Some(
                Meaning {
                    status: Status::Applied,
                    scheme: _,
                },
            ) => Err(Stop::Ill),
            _ => {
                if is_long(text.as_bytes()) || text.as_bytes() == b"=".as_slice() {
                    return Err(Stop::Ill);
                }
                self.note(node, Stands::Parameter)?;
                let class = self.types.var(false)?;
                named.push(Named { name, class })?;
                Ok(class)
            }
        }
    }

    /// Adds names to the scope, each with one type.
    pub(crate) fn hold(&mut self, named: &[Named], origin: Stands) -> Result<(), Stop> {
        for it in named {
            let scheme = Scheme::Held(it.class);
            let status = Status::Variable;
            self.add(it.name, Meaning { status, scheme }, origin)?;
        }
        Ok(())
    }

    /// Answers `Ill` where a name stands twice in the list.
    pub(crate) fn are_distinct(&mut self, named: &[Named]) -> Result<(), Stop> {
        if named.len() < 2 {
            return Ok(());
        }
        let mut numbers = Vec::new(self.alloc);
        for it in named {
            numbers.push(it.name)?;
        }
        are_distinct(numbers)
    }
}
