// Copies of bindings, and uses of them.
ghost use Rattle.std.specs.Prelude.{◌≡◌, ◌+◌, ◌≤◌, Err, OnOk};
ghost use Rattle.mono.specs.declared.refusal.MonoRefusal.TheVariants as refusal;

use crate::instances::Instances;
use crate::naming::Copy;
use crate::refusal::MonoRefusal;
use crate::walk::Walk;
use std::mem;

/// How many instances a program may have.
pub(crate) const MOST_INSTANCES: u32 = 65_536;

impl Walk<'_> {
    /// Counts one more instance.
    pub(crate) fn count_one(&mut self) -> Result<(), MonoRefusal>
        ensures counted { OnOk result (self.new.count ≡ self.old.count + 1) }
        ensures most { OnOk result (self.new.count ≤ 65536) }
        ensures limit { result ≡ Err refusal.InstanceLimit → 65536 ≤ self.old.count }
        ensures memory { result ≡ Err refusal.NoMemory → ⊥ }
    {
        if self.count >= MOST_INSTANCES {
            return Err(MonoRefusal::InstanceLimit);
        }
        self.count += 1;
        Ok(())
    }

    /// The copy that a use of a binding asks for, whose classes put in stand from that place on; none where the binding has one copy alone.
    pub(crate) fn used(&mut self, binding: u32, first: u32) -> Result<Option<Copy>, MonoRefusal> {
        let count = self.variables(binding).len();
        if count == 0 {
            if let Some(it) = self.bindings.get_mut(binding as usize) {
                it.reached = true;
            }
            return Ok(None);
        }
        let mut types = Vec::new(self.alloc);
        for i in 0..count {
            let place = (first as usize).saturating_add(i);
            let number = match self.typed.put.as_slice().get(place) {
                Some(class) => self.ground(*class)?,
                None => self.unit,
            };
            types.push(number)?;
        }
        self.copy_at(binding, types.as_slice())
    }

    /// The copy of a binding at these types.
    pub(crate) fn copy_at(
        &mut self,
        binding: u32,
        types: &[u32],
    ) -> Result<Option<Copy>, MonoRefusal> {
        let Some(it) = self.bindings.get_mut(binding as usize) else {
            return Ok(None);
        };
        let before = it.instances.count();
        let number = it.instances.number(types)?;
        let copy = Copy {
            binding,
            number: it.first.saturating_add(number),
        };
        if it.instances.count() > before {
            self.count_one()?;
        }
        Ok(Some(copy))
    }

    /// The copy of a binding that is made.
    pub(crate) fn own(&self, binding: u32) -> Option<Copy> {
        if self.variables(binding).is_empty() {
            return None;
        }
        let number = match self.bindings.get(binding as usize) {
            Some(it) => it.own,
            None => 0,
        };
        Some(Copy { binding, number })
    }

    /// The lists of types at which a binding is used, with the number of the first copy. Its scope ends.
    pub(crate) fn take(&mut self, binding: u32) -> (u32, Vec<Vec<u32>>) {
        let alloc = self.alloc;
        match self.bindings.get_mut(binding as usize) {
            Some(it) => {
                let instances = mem::replace(&mut it.instances, Instances::new(alloc));
                let first = it.first;
                let count = instances.count().min(4_294_967_295) as u32;
                it.first = first.saturating_add(count);
                (first, instances.into_lists())
            }
            None => (0, Vec::new(alloc)),
        }
    }

    /// Sets the copy of a binding that is made.
    pub(crate) fn make(&mut self, binding: u32, number: u32) {
        if let Some(it) = self.bindings.get_mut(binding as usize) {
            it.own = number;
        }
    }
}
