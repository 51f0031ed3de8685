// Names as numbers.
use sml_syntax::{NoMemory, Text};
use std::alloc::Global;
use std::collections::HashMap;

/// Texts that were met, each with its number, from 0 on.
#[derive(Drop)]
pub struct Names {
    numbers: HashMap<Vec<u8>, u32>,
}

impl Names {
    pub fn new(alloc: Global) -> Names {
        Names {
            numbers: HashMap::new(alloc),
        }
    }

    /// The number of a text: the next one where it wasn't met before.
    pub fn number(&mut self, alloc: Global, name: &Text) -> Result<u32, NoMemory> {
        match self.known(name) {
            Some(number) => Ok(number),
            None => self.enter(alloc, name),
        }
    }

    fn known(&self, name: &Text) -> Option<u32> {
        self.numbers.get(name.as_bytes()).copied()
    }

    fn enter(&mut self, alloc: Global, name: &Text) -> Result<u32, NoMemory> {
        let Ok(number) = u32::try_from(self.numbers.len()) else {
            return Err(NoMemory);
        };
        let owned = Vec::from_slice(alloc, name.as_bytes())?;
        self.numbers.insert(owned, number)?;
        Ok(number)
    }
}
