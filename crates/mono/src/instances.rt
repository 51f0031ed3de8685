// The lists of types at which a binding is used.
use sml_syntax::NoMemory;
use std::alloc::Global;
use std::collections::HashMap;

/// The lists of types at which a binding is used, in the order in which they were met, each once.
#[derive(Drop)]
pub(crate) struct Instances {
    alloc: Global,
    numbers: HashMap<Vec<u32>, u32>,
    lists: Vec<Vec<u32>>,
}

impl Instances {
    pub(crate) fn new(alloc: Global) -> Instances {
        Instances {
            alloc,
            numbers: HashMap::new(alloc),
            lists: Vec::new(alloc),
        }
    }

    /// How many lists were met.
    pub(crate) fn count(&self) -> usize {
        self.lists.len()
    }

    /// The number of a list, a new one where it wasn't met before.
    pub(crate) fn number(&mut self, types: &[u32]) -> Result<u32, NoMemory> {
        match self.numbers.get(types) {
            Some(number) => Ok(*number),
            None => self.enter(types),
        }
    }

    // Gives a new list the next number.
    fn enter(&mut self, types: &[u32]) -> Result<u32, NoMemory> {
        let number = self.lists.len();
        if number >= 4_294_967_295 {
            return Err(NoMemory);
        }
        self.lists.push(Vec::from_slice(self.alloc, types)?)?;
        self.numbers
            .insert(Vec::from_slice(self.alloc, types)?, number as u32)?;
        Ok(number as u32)
    }

    /// All lists in order.
    pub(crate) fn into_lists(self) -> Vec<Vec<u32>> {
        let Instances {
            alloc: _,
            numbers: _,
            lists,
        } = self;
        lists
    }
}
