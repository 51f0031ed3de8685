// What bindings generalise.
use crate::context::Context;
use crate::named::Named;
use crate::stands::Stands;
use hm_scheme::{Meaning, Scheme, Status, Stop};
use sml_syntax::{Listed, NoMemory};

impl Context {
    /// Begins a binding, whose first node is that one, and answers its number.
    pub(crate) fn begin_binding(&mut self, node: usize) -> Result<u32, NoMemory> {
        let number = self.general.len();
        if number >= 4_294_967_295 || node >= 4_294_967_295 {
            return Err(NoMemory);
        }
        self.begins.push(node as u32)?;
        self.general.push(Listed::of(Vec::new(self.alloc)))?;
        Ok(number as u32)
    }

    /// Ends a binding, and adds its names to the scope: of their types all variables are generalised that aren't older than the mark.
    pub(crate) fn generalise(
        &mut self,
        number: u32,
        named: &[Named],
        mark: u32,
    ) -> Result<(), Stop> {
        let count = self.types.table.count() as usize;
        for _ in self.met.len()..count {
            self.met.push(0)?;
        }
        for _ in self.listed.len()..count {
            self.listed.push(0)?;
        }
        let mut general = Vec::new(self.alloc);
        for it in named {
            let variables = self.variables(it.class, mark)?;
            for class in variables.as_slice() {
                if is_first_time(&mut self.listed, number.saturating_add(1), *class) {
                    general.push(*class)?;
                }
            }
        }
        for it in named {
            let scheme = if general.is_empty() {
                Scheme::Held(it.class)
            } else {
                Scheme::General(self.over(general.as_slice(), it.class)?, mark)
            };
            let status = Status::Variable;
            self.add(
                it.name,
                Meaning { status, scheme },
                Stands::Bound(number, 0),
            )?;
        }
        if let Some(place) = self.general.get_mut(number as usize) {
            *place = Listed::of(general);
        }
        Ok(())
    }

    // The class of functions that take these classes one after the other, to that class: a copy of it holds a copy of each.
    fn over(&mut self, classes: &[u32], class: u32) -> Result<u32, Stop> {
        let mut whole = class;
        for from in classes.iter().rev() {
            whole = self.types.function(*from, whole)?;
        }
        Ok(whole)
    }

    /// An instance of such a class of functions for the variables of a binding: lists the classes put in, and answers where they
    /// begin in the list, and the class that is left.
    pub(crate) fn taken(&mut self, number: u32, class: u32) -> Result<(u32, u32), Stop> {
        let first = self.put.len();
        if first >= 4_294_967_295 {
            return Err(Stop::NoMemory);
        }
        let count = match self.general.get(number as usize) {
            Some(general) => general.as_slice().len(),
            None => 0,
        };
        let mut rest = class;
        for _ in 0..count {
            self.put.push(self.types.part(rest, 0)?)?;
            rest = self.types.part(rest, 1)?;
        }
        Ok((first as u32, rest))
    }

    // The variables of a class that aren't older than the mark. Each class is walked once.
    fn variables(&mut self, class: u32, mark: u32) -> Result<Vec<u32>, Stop> {
        self.walks = self.walks.checked_add(1).ok_or(Stop::NoMemory)?;
        let mut variables = Vec::new(self.alloc);
        let mut walk = Vec::new(self.alloc);
        walk.push(class)?;
        for _ in 0..u64::MAX {
            match walk.pop() {
                Some(class) => self.meet(mark, class, &mut walk, &mut variables)?,
                None => return Ok(variables),
            }
        }
        Ok(variables)
    }

    // A class of the walk: where it is met for the first time and isn't older than the mark, a variable is listed, and parts are to be
    // walked.
    fn meet(
        &mut self,
        mark: u32,
        class: u32,
        walk: &mut Vec<u32>,
        variables: &mut Vec<u32>,
    ) -> Result<(), Stop> {
        if class >= self.types.table.count() {
            return Err(Stop::Ill);
        }
        let root = self.types.table.find(class);
        if self.types.table.asked(root).birth < mark
            || !is_first_time(&mut self.met, self.walks, root)
        {
            return Ok(());
        }
        match self.types.table.name(root) {
            None => variables.push(root)?,
            Some(name) => {
                for i in 0..self.types.table.arity(name).unwrap_or(0) {
                    walk.push(self.types.part(root, i)?)?;
                }
            }
        }
        Ok(())
    }
}

/// Answers `Ill` where a number stands twice in the list.
pub(crate) fn are_distinct(mut numbers: Vec<u32>) -> Result<(), Stop> {
    numbers.sort()?;
    for i in 1..numbers.len() {
        if numbers[i - 1] == numbers[i] {
            return Err(Stop::Ill);
        }
    }
    Ok(())
}

// Whether a class gets this stamp for the first time.
fn is_first_time(stamps: &mut Vec<u32>, stamp: u32, class: u32) -> bool {
    match stamps.get_mut(class as usize) {
        Some(last) => {
            let first = *last != stamp;
            *last = stamp;
            first
        }
        None => false,
    }
}
