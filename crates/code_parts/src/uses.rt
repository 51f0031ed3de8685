// What code uses: names, and regions.
use crate::location::region_of;
use crate::names::Names;
use region_syntax::{FixDef, Place};
use sml_syntax::{NoMemory, Text};
use std::alloc::Global;
use std::collections::{HashMap, HashSet};
use std::mem;

/// What is known of a name.
#[derive(Drop)]
struct Named {
    /// How often it is bound around the place at hand.
    bound: u32,
    /// Whether it was met free.
    met: bool,
    /// How many regions a function of a group of this name binds.
    regions: Option<usize>,
    /// Whether two functions of groups have the name.
    twice: bool,
}

/// What binds a region: a function of a group, by its name and the number of the region among those that
/// it binds, or anything else. Functions of one group may bind the same regions.
#[derive(Clone, Copy, PartialEq, Eq, Hash)]
enum Binder {
    Function(u32, u32),
    Other(u32),
}

/// A place of a use of a name of a group: the name, the number of the place in the use, and its region.
#[derive(Clone, Copy)]
struct Passing {
    name: u32,
    index: u32,
    region: Binder,
}

/// The names and regions that are met in a term, in the order of first use.
#[derive(Drop)]
pub struct Captures {
    pub names: Vec<u32>,
    pub regions: Vec<u32>,
}

/// Which regions code uses, and so which places are passed to functions of groups: the least choice by
/// which each region is used that code writes into, stores in a closure, or passes for a region that is
/// used. A name that two functions of groups have gets all its places.
#[derive(Drop)]
pub struct Uses {
    pub alloc: Global,
    pub names: Names,
    known: Vec<Named>,
    // The names bound around the place at hand.
    bound: Vec<u32>,
    found: Captures,
    seen: HashSet<u32>,
    used: HashSet<Binder>,
    // What binds the regions of the functions around the place at hand, and what did before.
    binders: HashMap<u32, Binder>,
    former_binders: Vec<(u32, Binder)>,
    waiting: Vec<Binder>,
    passings: Vec<Passing>,
    is_settled: bool,
}

impl Uses {
    pub fn new(alloc: Global) -> Uses {
        Uses {
            alloc,
            names: Names::new(alloc),
            known: Vec::new(alloc),
            bound: Vec::new(alloc),
            found: no_captures(alloc),
            seen: HashSet::new(alloc),
            used: HashSet::new(alloc),
            binders: HashMap::new(alloc),
            former_binders: Vec::new(alloc),
            waiting: Vec::new(alloc),
            passings: Vec::new(alloc),
            is_settled: false,
        }
    }

    /// The number of a name.
    pub fn number(&mut self, name: &Text) -> Result<u32, NoMemory> {
        let number = self.names.number(self.alloc, name)?;
        if number as usize >= self.known.len() {
            self.known.push(Named {
                bound: 0,
                met: false,
                regions: None,
                twice: false,
            })?;
        }
        Ok(number)
    }

    // ---- names

    pub fn depth(&self) -> usize {
        self.bound.len()
    }

    pub fn bind(&mut self, name: &Text) -> Result<(), NoMemory> {
        let number = self.number(name)?;
        self.bind_number(number)
    }

    fn bind_number(&mut self, number: u32) -> Result<(), NoMemory> {
        self.bound.push(number)?;
        if let Some(named) = self.known.get_mut(number as usize) {
            named.bound = named.bound.saturating_add(1);
        }
        Ok(())
    }

    /// Forgets what was bound since.
    pub fn unbind(&mut self, depth: usize) {
        for _ in depth..self.bound.len() {
            if let Some(number) = self.bound.pop() {
                self.unbind_number(number);
            }
        }
    }

    fn unbind_number(&mut self, number: u32) {
        if let Some(named) = self.known.get_mut(number as usize) {
            named.bound = named.bound.saturating_sub(1);
        }
    }

    /// Forgets what was bound between two depths.
    pub fn hide(&mut self, outer: usize, inner: usize) -> Result<(), NoMemory> {
        let mut shown = Vec::new(self.alloc);
        for number in self.bound.as_slice().iter().skip(inner) {
            shown.push(*number)?;
        }
        self.unbind(outer);
        for number in &shown {
            self.bind_number(*number)?;
        }
        Ok(())
    }

    /// A use of a name.
    pub fn name(&mut self, name: &Text) -> Result<(), NoMemory> {
        let number = self.number(name)?;
        if self.is_free(number) {
            self.found.names.push(number)?;
        }
        Ok(())
    }

    // Whether it is free and wasn't met, and now it is.
    fn is_free(&mut self, number: u32) -> bool {
        let Some(named) = self.known.get_mut(number as usize) else {
            return false;
        };
        let is_new = named.bound == 0 && !named.met;
        if is_new {
            named.met = true;
        }
        is_new
    }

    // ---- regions

    /// A use of a region.
    pub fn region(&mut self, region: Option<u32>) -> Result<(), NoMemory> {
        let Some(region) = region else {
            return Ok(());
        };
        if !self.is_settled {
            let binder = self.binder(region);
            self.waiting.push(binder)?;
            return Ok(());
        }
        if self.seen.insert(region)? {
            self.found.regions.push(region)?;
        }
        Ok(())
    }

    fn binder(&self, region: u32) -> Binder {
        match self.binders.get(&region) {
            Some(binder) => *binder,
            None => Binder::Other(region),
        }
    }

    /// A use of a name of a group with these places.
    pub fn passed(&mut self, name: &Text, places: &[Place]) -> Result<(), NoMemory> {
        let number = self.number(name)?;
        let mut index = 0;
        for place in places {
            if let Some(region) = region_of(*place) {
                self.passed_at(number, index, region)?;
            }
            index = u32::saturating_add(index, 1);
        }
        Ok(())
    }

    fn passed_at(&mut self, name: u32, index: u32, region: u32) -> Result<(), NoMemory> {
        if !self.is_settled {
            let region = self.binder(region);
            self.passings.push(Passing {
                name,
                index,
                region,
            })?;
            return Ok(());
        }
        if self.is_passed(name, index) {
            return self.region(Some(region));
        }
        Ok(())
    }

    /// The head of a function of a group: the regions that it binds.
    pub fn head(&mut self, def: &FixDef) -> Result<(), NoMemory> {
        if self.is_settled {
            return Ok(());
        }
        let number = self.number(&def.name)?;
        let regions = def.regions.as_slice().len();
        if let Some(named) = self.known.get_mut(number as usize) {
            named.twice = named.regions.is_some();
            named.regions = Some(regions);
        }
        Ok(())
    }

    /// Enters the rules of a function of a group. The answer is what to leave them with.
    pub fn enter(&mut self, def: &FixDef) -> Result<usize, NoMemory> {
        let depth = self.former_binders.len();
        if self.is_settled {
            return Ok(depth);
        }
        let name = self.number(&def.name)?;
        let mut index = 0;
        for region in def.regions.as_slice() {
            let former = self.binder(*region);
            self.former_binders.push((*region, former))?;
            self.binders.insert(*region, Binder::Function(name, index))?;
            index = u32::saturating_add(index, 1);
        }
        Ok(depth)
    }

    pub fn leave(&mut self, depth: usize) {
        for _ in depth..self.former_binders.len() {
            if let Some((region, binder)) = self.former_binders.pop() {
                self.restore_binder(region, binder);
            }
        }
    }

    fn restore_binder(&mut self, region: u32, binder: Binder) {
        if let Some(known) = self.binders.get_mut(&region) {
            *known = binder;
        }
    }

    /// Whether the place of that number is passed where the name is used.
    pub fn is_passed(&self, name: u32, index: u32) -> bool {
        match self.choice(name, index) {
            Choice::Always => true,
            Choice::WhereUsed => self.used.contains(&Binder::Function(name, index)),
            Choice::Never => false,
        }
    }

    // When the place of that number is passed.
    fn choice(&self, name: u32, index: u32) -> Choice {
        let Some(named) = self.known.as_slice().get(name as usize) else {
            return Choice::Always;
        };
        match named.regions {
            Some(regions) if !named.twice => match (index as usize) < regions {
                true => Choice::WhereUsed,
                false => Choice::Never,
            },
            _ => Choice::Always,
        }
    }

    /// Whether code uses a region that a `LetRegion` binds.
    pub fn is_used(&self, region: u32) -> bool {
        self.used.contains(&Binder::Other(region))
    }

    /// What was met since the last call.
    pub fn take(&mut self) -> Captures {
        let empty = no_captures(self.alloc);
        let found = mem::replace(&mut self.found, empty);
        for number in &found.names {
            self.forget(*number);
        }
        self.seen = HashSet::new(self.alloc);
        found
    }

    fn forget(&mut self, number: u32) {
        if let Some(named) = self.known.get_mut(number as usize) {
            named.met = false;
        }
    }

    /// Settles which regions are used, after the whole program was met.
    pub fn settle(&mut self) -> Result<(), NoMemory> {
        let _met = self.take();
        let empty = Vec::new(self.alloc);
        let mut waiting = mem::replace(&mut self.waiting, empty);
        let edges = self.edges(&mut waiting)?;
        let limit = waiting.len().saturating_add(self.passings.len());
        for _ in 0..limit {
            let Some(region) = waiting.pop() else {
                break;
            };
            if self.used.insert(region)? {
                if let Some(targets) = edges.get(&region) {
                    waiting.extend_from_slice(targets.as_slice())?;
                }
            }
        }
        self.is_settled = true;
        Ok(())
    }

    // From each region that a function binds to those that are passed for it; those passed for a place that
    // is always passed are added to the regions that are used.
    fn edges(&self, waiting: &mut Vec<Binder>) -> Result<HashMap<Binder, Vec<Binder>>, NoMemory> {
        let mut edges: HashMap<Binder, Vec<Binder>> = HashMap::new(self.alloc);
        for passing in &self.passings {
            match self.choice(passing.name, passing.index) {
                Choice::Always => waiting.push(passing.region)?,
                Choice::WhereUsed => {
                    let bound = Binder::Function(passing.name, passing.index);
                    let targets = edges.entry(bound)?.or_insert(Vec::new(self.alloc));
                    targets.push(passing.region)?;
                }
                Choice::Never => {}
            }
        }
        Ok(edges)
    }
}

// When a place is passed.
#[derive(Clone, Copy)]
enum Choice {
    Always,
    WhereUsed,
    Never,
}

fn no_captures(alloc: Global) -> Captures {
    Captures {
        names: Vec::new(alloc),
        regions: Vec::new(alloc),
    }
}
