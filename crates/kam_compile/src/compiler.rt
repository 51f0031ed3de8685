// The compiler's state, and what forms have in common.
use crate::stub::Stub;
use code_parts::{Entry, Location, Scope, Seen, Uses, Writer, region_of, sum};
use region_syntax::{MData, MTy, Place};
use sml_syntax::{NoMemory, Text};
use std::alloc::Global;

/// What is at hand while code is written.
#[derive(Drop)]
pub(crate) struct Compiler {
    pub(crate) alloc: Global,
    pub(crate) datatypes: Vec<MData>,
    pub(crate) uses: Uses,
    pub(crate) scope: Scope,
    pub(crate) writer: Writer,
    /// The code that is written once for all its uses, by number.
    pub(crate) stubs: Vec<Stub>,
    /// The numbers of that which isn't written yet.
    pub(crate) waiting: Vec<u32>,
}

/// How many constructors a datatype has without argument, and how many with one.
#[derive(Clone, Copy, Debug)]
pub(crate) struct Shape {
    pub(crate) constants: usize,
    pub(crate) makers: usize,
}

impl Compiler {
    pub(crate) fn entry(&mut self, name: &Text) -> Result<Entry, NoMemory> {
        let number = self.uses.number(name)?;
        Ok(self.scope.entry(number))
    }

    /// Pushes what a name stands for.
    pub(crate) fn name(&mut self, name: &Text) -> Result<(), NoMemory> {
        let entry = self.entry(name)?;
        self.writer.load(entry.location)
    }

    /// Pushes the serial of a region.
    pub(crate) fn region(&mut self, region: Option<u32>) -> Result<(), NoMemory> {
        self.writer.load(self.scope.region(region))
    }

    pub(crate) fn place(&mut self, place: Place) -> Result<(), NoMemory> {
        self.region(region_of(place))
    }

    /// Pushes the places that are passed where a name of a group is used, and answers how many these are.
    pub(crate) fn passed(&mut self, name: &Text, places: &[Place]) -> Result<u64, NoMemory> {
        let number = self.uses.number(name)?;
        let mut count = 0;
        let mut index = 0;
        for place in places {
            if self.uses.is_passed(number, index) {
                self.place(*place)?;
                count = sum(count, 1)?;
            }
            index = u32::saturating_add(index, 1);
        }
        Ok(count)
    }

    /// Pushes so many fields of the value at a location, from the first one on.
    pub(crate) fn fields(&mut self, location: Location, count: u64) -> Result<(), NoMemory> {
        for field in 0..count {
            self.writer.access(Seen::at(location).part(field))?;
        }
        Ok(())
    }

    pub(crate) fn shape(&self, datatype: u32) -> Shape {
        let mut shape = Shape {
            constants: 0,
            makers: 0,
        };
        if let Some(datatype) = self.datatypes.as_slice().get(datatype as usize) {
            for (_, argument) in datatype.cons.as_slice() {
                match argument {
                    None => shape.constants = shape.constants.saturating_add(1),
                    Some(_) => shape.makers = shape.makers.saturating_add(1),
                }
            }
        }
        shape
    }

    /// Whether two values of a type are equal exactly where their words are.
    pub(crate) fn is_word(&self, ty: &MTy) -> bool {
        match ty {
            MTy::Str | MTy::Tuple(_) => false,
            MTy::DataTy(number, _) => self.shape(*number).makers == 0,
            _ => true,
        }
    }
}
