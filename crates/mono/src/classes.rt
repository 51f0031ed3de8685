// Ground types of classes. A class is met once in a copy, and no type is expanded.
use crate::refusal::MonoRefusal;
use crate::shape::Head;
use crate::walk::Walk;
use hm_scheme::TyName;
use region_syntax::MTy;

/// The head that a type of the basis has in ground types.
fn basis_head(place: u32) -> Head {
    match place {
        0 => Head::Int,
        1 => Head::Char,
        2 => Head::Str,
        3 => Head::Exn,
        5 => Head::Data(0),
        6 => Head::Data(1),
        7 => Head::Data(2),
        8 => Head::Data(3),
        9 => Head::Data(4),
        10 => Head::Ref,
        11 => Head::Desc,
        12 => Head::Cache,
        13 => Head::Data(5),
        _ => Head::Unit,
    }
}

impl Walk<'_> {
    /// The type of a node in the copy that is made.
    pub(crate) fn type_of(&mut self, node: u32) -> Result<MTy, MonoRefusal> {
        let class = match self.typed.types.as_slice().get(node as usize) {
            Some(class) => *class,
            None => return Ok(MTy::Unit),
        };
        let number = self.ground(class)?;
        Ok(self.grounds.tree(number)?)
    }

    /// The number of the ground type of a class in the copy that is made.
    pub(crate) fn ground(&mut self, class: u32) -> Result<u32, MonoRefusal> {
        if let Some(number) = self.known(class) {
            return Ok(number);
        }
        let mut path = Vec::new(self.alloc);
        let mut found = Vec::new(self.alloc);
        path.push((class, 0))?;
        for _ in 0..u64::MAX {
            match path.pop() {
                Some((class, place)) => self.step(class, place, &mut path, &mut found)?,
                None => return Ok(found.pop().unwrap_or(self.unit)),
            }
        }
        Err(MonoRefusal::NoMemory)
    }

    // The type that a class was found to have in the copy that is made; unit where there is no such class.
    fn known(&self, class: u32) -> Option<u32> {
        if class >= self.typed.table.count() {
            return Some(self.unit);
        }
        let root = self.typed.table.find(class) as usize;
        match self.met.get(root) {
            Some(met) if *met == self.stamp => self.found.get(root).copied(),
            _ => None,
        }
    }

    // A class of whose parts so many are found: its next part is to be found before it, or it is found itself.
    fn step(
        &mut self,
        class: u32,
        place: u32,
        path: &mut Vec<(u32, u32)>,
        found: &mut Vec<u32>,
    ) -> Result<(), MonoRefusal> {
        if place == 0 {
            if let Some(number) = self.known(class) {
                found.push(number)?;
                return Ok(());
            }
        }
        if class >= self.typed.table.count() {
            return Ok(());
        }
        if let Some(part) = self.typed.table.part(class, place) {
            path.push((class, place.saturating_add(1)))?;
            path.push((part, 0))?;
            return Ok(());
        }
        let root = self.typed.table.find(class);
        let number = match self.typed.table.name(class) {
            None => self.put.get(root as usize).copied().unwrap_or(self.unit),
            Some(name) => {
                let head = self.head_of(name);
                self.over(head, place as usize, found)?
            }
        };
        self.keep(root, number);
        found.push(number)?;
        Ok(())
    }

    // The type with that head over the last so many types of the list, which are taken.
    fn over(&mut self, head: Head, count: usize, found: &mut Vec<u32>) -> Result<u32, MonoRefusal> {
        let from = found.len().saturating_sub(count);
        let number = self.grounds.number(head, &found.as_slice()[from..])?;
        found.truncate(from);
        Ok(number)
    }

    // The head of the types of a name of the table.
    fn head_of(&self, name: u32) -> Head {
        match self.typed.names.as_slice().get(name as usize) {
            Some(TyName::Basis(place)) => basis_head(*place),
            Some(TyName::Arrow) => Head::Arrow,
            Some(TyName::Tuple(_)) => Head::Tuple,
            Some(TyName::Declared(number)) => {
                Head::Data(number.saturating_add(hm_infer::BASIS_DATATYPES))
            }
            None => Head::Unit,
        }
    }

    // Keeps the type of a class for the copy that is made.
    fn keep(&mut self, root: u32, number: u32) {
        if let (Some(met), Some(found)) = (
            self.met.get_mut(root as usize),
            self.found.get_mut(root as usize),
        ) {
            *met = self.stamp;
            *found = number;
        }
    }

    /// Begins a copy in which variables have these types, and answers the one around it.
    pub(crate) fn begin(&mut self, variables: &[u32], types: &[u32]) -> Result<u64, MonoRefusal> {
        for (i, class) in variables.iter().enumerate() {
            let number = types.get(i).copied().unwrap_or(self.unit);
            if *class < self.typed.table.count() {
                let root = self.typed.table.find(*class);
                if let Some(put) = self.put.get_mut(root as usize) {
                    *put = number;
                }
            }
        }
        let around = self.stamp;
        self.stamps = self.stamps.checked_add(1).ok_or(MonoRefusal::NoMemory)?;
        self.stamp = self.stamps;
        Ok(around)
    }

    /// Goes on in the copy around the one that is made.
    pub(crate) fn end(&mut self, around: u64) {
        self.stamp = around;
    }
}
