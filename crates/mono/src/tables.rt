// The datatypes and exceptions of a program.
use crate::basis;
use crate::refusal::MonoRefusal;
use crate::shape::Head;
use crate::walk::Walk;
use hm_infer::BASIS_DATATYPES;
use region_syntax::{MData, MTy};
use sml_syntax::{DecForm, Listed, Text, Ty};

/// The datatypes and exceptions of a program, those of the basis first.
#[derive(Drop)]
pub(crate) struct Tables {
    pub(crate) datatypes: Vec<MData>,
    pub(crate) exceptions: Vec<(Text, Option<MTy>)>,
    /// How many constructors and exceptions are declared so far.
    arguments: usize,
    /// How many declarations of datatypes there are so far, those of the basis among them.
    declarations: u32,
}

impl Walk<'_> {
    /// The tables of the program. Declarations of types and exceptions are items.
    pub(crate) fn tables(&mut self) -> Result<Tables, MonoRefusal> {
        let mut tables = Tables {
            datatypes: basis::datatypes(self.alloc)?,
            exceptions: basis::exceptions(self.alloc)?,
            arguments: 0,
            declarations: BASIS_DATATYPES,
        };
        for d in self.typed.program.items.as_slice() {
            match &d.form {
                DecForm::DataDef(binds) => {
                    for bind in binds.as_slice() {
                        let datatype = self.datatype(bind.2.as_slice(), &mut tables)?;
                        tables.datatypes.push(datatype)?;
                    }
                    tables.declarations = tables.declarations.saturating_add(1);
                }
                DecForm::ExnDef(binds) => {
                    for bind in binds.as_slice() {
                        let exception = self.constructor(&bind.0, &mut tables)?;
                        tables.exceptions.push(exception)?;
                    }
                }
                _ => {}
            }
        }
        Ok(tables)
    }

    // The next datatype, with these constructors.
    fn datatype(
        &mut self,
        constructors: &[(Text, Option<Ty>)],
        tables: &mut Tables,
    ) -> Result<MData, MonoRefusal> {
        let place = self.datatypes.len();
        let variables = match self.typed.parameters.as_slice().get(place) {
            Some(variables) => variables.as_slice(),
            None => &[],
        };
        let first = tables.arguments.min(4_294_967_295) as u32;
        let count = constructors.len().min(4_294_967_295) as u32;
        self.datatypes.push((first, count))?;
        let mut types = Vec::new(self.alloc);
        let params = variables.len().min(4_294_967_295) as u32;
        for i in 0..params {
            types.push(self.grounds.number(Head::Var(i), &[])?)?;
        }
        let around = self.begin(variables, types.as_slice())?;
        let mut cons = Vec::new(self.alloc);
        for it in constructors {
            cons.push(self.constructor(&it.0, tables)?)?;
        }
        self.end(around);
        Ok(MData {
            declaration: tables.declarations,
            params,
            cons: Listed::of(cons),
        })
    }

    // The next constructor or exception.
    fn constructor(
        &mut self,
        name: &Text,
        tables: &mut Tables,
    ) -> Result<(Text, Option<MTy>), MonoRefusal> {
        let place = tables.arguments;
        tables.arguments = place.saturating_add(1);
        let argument = match self.argument(place) {
            Some(class) => {
                let number = self.ground(class)?;
                Some(self.grounds.tree(number)?)
            }
            None => None,
        };
        Ok(basis::constructor(self.alloc, name.as_bytes(), argument)?)
    }
}
