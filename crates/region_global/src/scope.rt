// Which names are those of groups, the innermost bindings last.
use sml_syntax::{NoMemory, Text};
use std::alloc::Global;
use std::collections::HashMap;

/// A binding of a name, by its number.
#[derive(Clone, Copy, Debug, PartialEq, Eq)]
struct Bound {
    name: u32,
    is_of_group: bool,
    /// The binding of that name outside this one.
    outer: Option<usize>,
}

#[derive(Drop)]
pub(crate) struct Scope {
    alloc: Global,
    numbers: HashMap<Vec<u8>, u32>,
    bounds: Vec<Bound>,
    /// For each name its innermost binding.
    innermost: Vec<Option<usize>>,
}

impl Scope {
    pub fn new(alloc: Global) -> Scope {
        Scope {
            alloc,
            numbers: HashMap::new(alloc),
            bounds: Vec::new(alloc),
            innermost: Vec::new(alloc),
        }
    }

    /// How many bindings are in scope, hidden ones too.
    pub fn depth(&self) -> usize {
        self.bounds.len()
    }

    /// Whether a name stands for a function of a group.
    pub fn is_of_group(&self, name: &Text) -> bool {
        let Some(number) = self.numbers.get(name.as_bytes()).copied() else {
            return false;
        };
        let Some(place) = self.innermost_of(number) else {
            return false;
        };
        match self.bounds.get(place) {
            None => false,
            Some(bound) => bound.is_of_group,
        }
    }

    fn innermost_of(&self, number: u32) -> Option<usize> {
        self.innermost.get(number as usize).copied().flatten()
    }

    /// The number of a name: a new one where it wasn't met before.
    pub fn number(&mut self, name: &Text) -> Result<u32, NoMemory> {
        if let Some(number) = self.numbers.get(name.as_bytes()) {
            return Ok(*number);
        }
        let Ok(number) = u32::try_from(self.innermost.len()) else {
            return Err(NoMemory);
        };
        let owned = Vec::from_slice(self.alloc, name.as_bytes())?;
        self.innermost.push(None)?;
        self.numbers.insert(owned, number)?;
        Ok(number)
    }

    /// Adds a name of a group, which hides those of the same name.
    pub fn add_function(&mut self, name: &Text) -> Result<(), NoMemory> {
        let number = self.number(name)?;
        self.enter(number, true)
    }

    /// Adds the names of a pattern.
    pub fn add_all(&mut self, names: &[u32]) -> Result<(), NoMemory> {
        for name in names {
            self.enter(*name, false)?;
        }
        Ok(())
    }

    fn enter(&mut self, name: u32, is_of_group: bool) -> Result<(), NoMemory> {
        let place = self.bounds.len();
        let outer = self.innermost_of(name);
        self.bounds.push(Bound {
            name,
            is_of_group,
            outer,
        })?;
        self.set_innermost(name, Some(place));
        Ok(())
    }

    fn set_innermost(&mut self, name: u32, place: Option<usize>) {
        if let Some(entry) = self.innermost.get_mut(name as usize) {
            *entry = place;
        }
    }

    /// Leaves the scope that had so many bindings.
    pub fn cut(&mut self, depth: usize) {
        for _ in depth..self.bounds.len() {
            if let Some(bound) = self.bounds.pop() {
                self.set_innermost(bound.name, bound.outer);
            }
        }
    }

    /// Takes out the bindings between the two depths.
    pub fn hide(&mut self, outer: usize, inner: usize) -> Result<(), NoMemory> {
        let mut kept: Vec<Bound> = Vec::new(self.alloc);
        for depth in inner..self.bounds.len() {
            if let Some(bound) = self.bounds.get(depth) {
                kept.push(*bound)?;
            }
        }
        self.cut(outer);
        for bound in kept.as_slice() {
            self.enter(bound.name, bound.is_of_group)?;
        }
        Ok(())
    }
}
