// Names and regions, and where their words lie.
use crate::location::Location;
use sml_syntax::NoMemory;
use std::alloc::Global;
use std::collections::HashMap;

/// What a name stands for: where its word lies, and for a function of a group the function that calls it
/// for an instance.
#[derive(Clone, Copy, Debug)]
pub struct Entry {
    pub location: Location,
    pub wrapper: u32,
}

const NO_ENTRY: Entry = Entry {
    location: Location::Nowhere,
    wrapper: 0,
};

/// How far a scope was filled.
#[derive(Clone, Copy)]
pub struct Depth {
    names: usize,
    regions: usize,
}

/// The names, by number, and the regions in scope, and what they stood for before.
#[derive(Drop)]
pub struct Scope {
    names: Vec<Entry>,
    regions: HashMap<u32, Location>,
    former_names: Vec<(u32, Entry)>,
    former_regions: Vec<(u32, Location)>,
}

impl Scope {
    pub fn new(alloc: Global) -> Scope {
        Scope {
            names: Vec::new(alloc),
            regions: HashMap::new(alloc),
            former_names: Vec::new(alloc),
            former_regions: Vec::new(alloc),
        }
    }

    pub fn depth(&self) -> Depth {
        Depth {
            names: self.former_names.len(),
            regions: self.former_regions.len(),
        }
    }

    pub fn entry(&self, name: u32) -> Entry {
        match self.names.as_slice().get(name as usize) {
            Some(entry) => *entry,
            None => NO_ENTRY,
        }
    }

    pub fn location(&self, name: u32) -> Location {
        self.entry(name).location
    }

    pub fn bind(&mut self, name: u32, entry: Entry) -> Result<(), NoMemory> {
        self.make_room(name)?;
        let former = self.entry(name);
        self.former_names.push((name, former))?;
        self.set(name, entry);
        Ok(())
    }

    /// A name that stands for a word, and for the same function as before.
    pub fn move_to(&mut self, name: u32, location: Location) -> Result<(), NoMemory> {
        let wrapper = self.entry(name).wrapper;
        self.bind(name, Entry { location, wrapper })
    }

    /// A name that stands for a word.
    pub fn bind_word(&mut self, name: u32, location: Location) -> Result<(), NoMemory> {
        self.bind(
            name,
            Entry {
                location,
                wrapper: 0,
            },
        )
    }

    fn make_room(&mut self, name: u32) -> Result<(), NoMemory> {
        for _ in self.names.len()..name as usize + 1 {
            self.names.push(NO_ENTRY)?;
        }
        Ok(())
    }

    fn set(&mut self, name: u32, entry: Entry) {
        if let Some(known) = self.names.get_mut(name as usize) {
            *known = entry;
        }
    }

    /// Where the serial of a region lies. One that isn't in scope at run time is the global one.
    pub fn region(&self, region: Option<u32>) -> Location {
        match region {
            Some(region) => match self.regions.get(&region) {
                Some(location) => *location,
                None => Location::Global,
            },
            None => Location::Global,
        }
    }

    /// Whether a region is in scope at run time.
    pub fn has_region(&self, region: u32) -> bool {
        self.region(Some(region)) != Location::Global
    }

    pub fn bind_region(&mut self, region: u32, location: Location) -> Result<(), NoMemory> {
        let former = self.region(Some(region));
        self.former_regions.push((region, former))?;
        self.regions.insert(region, location)?;
        Ok(())
    }

    /// Forgets what was bound since.
    pub fn leave(&mut self, depth: Depth) {
        for _ in depth.names..self.former_names.len() {
            if let Some((name, entry)) = self.former_names.pop() {
                self.set(name, entry);
            }
        }
        for _ in depth.regions..self.former_regions.len() {
            if let Some((region, location)) = self.former_regions.pop() {
                self.restore_region(region, location);
            }
        }
    }

    fn restore_region(&mut self, region: u32, location: Location) {
        if let Some(known) = self.regions.get_mut(&region) {
            *known = location;
        }
    }

    /// Forgets the names that were bound between two depths.
    pub fn hide(&mut self, outer: Depth, inner: Depth) -> Result<(), NoMemory> {
        let mut shown = Vec::new(*self.former_names.allocator());
        for (name, _) in self.former_names.as_slice().iter().skip(inner.names) {
            shown.push((*name, self.entry(*name)))?;
        }
        self.leave(outer);
        for (name, entry) in &shown {
            self.bind(*name, *entry)?;
        }
        Ok(())
    }
}
