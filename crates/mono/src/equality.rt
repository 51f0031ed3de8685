// Equality: the types at which it is needed, and those of the parts of their values.
use crate::refusal::MonoRefusal;
use crate::shape::Head;
use crate::walk::Walk;

impl Walk<'_> {
    /// Counts equality at the type of the first argument of a comparison whose node has this class.
    pub(crate) fn compare(&mut self, node: u32) -> Result<(), MonoRefusal> {
        let class = match self.typed.types.as_slice().get(node as usize) {
            Some(class) => *class,
            None => return Ok(()),
        };
        let function = self.ground(class)?;
        let pair = self.part(function, 0);
        let mut work = Vec::new(self.alloc);
        work.push(self.part(pair, 0))?;
        for _ in 0..u64::MAX {
            match work.pop() {
                Some(number) => self.compare_at(number, &mut work)?,
                None => return Ok(()),
            }
        }
        Err(MonoRefusal::NoMemory)
    }

    // A part of a ground type.
    fn part(&self, number: u32, place: usize) -> u32 {
        match self.grounds.parts(number).get(place) {
            Some(part) => *part,
            None => self.unit,
        }
    }

    // Whether equality at a type is needed for the first time.
    fn is_new(&mut self, number: u32) -> Result<bool, MonoRefusal> {
        for _ in self.compared.len()..self.grounds.count() {
            self.compared.push(false)?;
        }
        match self.compared.get_mut(number as usize) {
            Some(compared) if !*compared => {
                *compared = true;
                Ok(true)
            }
            _ => Ok(false),
        }
    }

    // Counts equality at a type, and lists the types of the parts of its values.
    fn compare_at(&mut self, number: u32, work: &mut Vec<u32>) -> Result<(), MonoRefusal> {
        if !self.is_new(number)? {
            return Ok(());
        }
        self.count_one()?;
        match self.grounds.head(number) {
            Head::Tuple => {
                work.extend_from_slice(self.grounds.parts(number))?;
                Ok(())
            }
            Head::Data(datatype) => self.compare_parts(number, datatype, work),
            _ => Ok(()),
        }
    }

    // Lists the types of the arguments of a datatype's constructors, at this type of it.
    fn compare_parts(
        &mut self,
        number: u32,
        datatype: u32,
        work: &mut Vec<u32>,
    ) -> Result<(), MonoRefusal> {
        let item = self.part(number, 0);
        match datatype {
            1 => work.push(self.grounds.number(Head::Tuple, &[item, number])?)?,
            2 => work.push(item)?,
            4 => {
                work.push(item)?;
                work.push(self.grounds.number(Head::Str, &[])?)?;
            }
            _ => self.compare_declared(number, datatype, work)?,
        }
        Ok(())
    }

    fn compare_declared(
        &mut self,
        number: u32,
        datatype: u32,
        work: &mut Vec<u32>,
    ) -> Result<(), MonoRefusal> {
        let place = match datatype.checked_sub(hm_infer::BASIS_DATATYPES) {
            Some(place) => place as usize,
            None => return Ok(()),
        };
        let Some((first, count)) = self.datatypes.get(place).copied() else {
            return Ok(());
        };
        let variables = match self.typed.parameters.as_slice().get(place) {
            Some(variables) => variables.as_slice(),
            None => &[],
        };
        let types = Vec::from_slice(self.alloc, self.grounds.parts(number))?;
        let around = self.begin(variables, types.as_slice())?;
        for i in 0..count {
            if let Some(class) = self.argument((first as usize).saturating_add(i as usize)) {
                work.push(self.ground(class)?)?;
            }
        }
        self.end(around);
        Ok(())
    }

    /// The class of the argument of a declared constructor or exception.
    pub(crate) fn argument(&self, place: usize) -> Option<u32> {
        self.typed
            .arguments
            .as_slice()
            .get(place)
            .copied()
            .flatten()
    }
}
