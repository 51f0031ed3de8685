// What the walk through a typed program keeps.
use crate::grounds::Grounds;
use crate::instances::Instances;
use crate::refusal::MonoRefusal;
use crate::shape::Head;
use hm_infer::{Stands, Typed};
use sml_syntax::NoMemory;
use std::alloc::Global;

/// A binding, in the scope that is walked.
#[derive(Drop)]
pub(crate) struct Binding {
    /// The number of its first copy in the scope.
    pub(crate) first: u32,
    pub(crate) instances: Instances,
    /// The copy that is made.
    pub(crate) own: u32,
    /// Whether a name of it is used behind it.
    pub(crate) reached: bool,
}

#[derive(Drop)]
pub(crate) struct Walk<'a> {
    pub(crate) alloc: Global,
    pub(crate) typed: &'a Typed,
    pub(crate) grounds: Grounds,
    pub(crate) unit: u32,
    /// For each class the types put in for variables, the last copy that met it, and the type that it has there.
    pub(crate) put: Vec<u32>,
    pub(crate) met: Vec<u64>,
    pub(crate) found: Vec<u32>,
    /// The copy that is made, by a number that no other copy has, and how many of these numbers were given.
    pub(crate) stamp: u64,
    pub(crate) stamps: u64,
    pub(crate) bindings: Vec<Binding>,
    /// For each node the binding that begins with it.
    pub(crate) begun: Vec<u32>,
    /// For each declared datatype the place of its first constructor in `Typed::arguments`, and how many it has.
    pub(crate) datatypes: Vec<(u32, u32)>,
    /// For each ground type whether equality at it is counted.
    pub(crate) compared: Vec<bool>,
    /// How many instances there are so far.
    pub(crate) count: u32,
}

impl<'a> Walk<'a> {
    /// Before the last item.
    pub(crate) fn start(alloc: Global, typed: &'a Typed) -> Result<Walk<'a>, MonoRefusal> {
        let mut grounds = Grounds::new(alloc);
        let unit = grounds.number(Head::Unit, &[])?;
        let mut walk = Walk {
            alloc,
            typed,
            grounds,
            unit,
            put: Vec::new(alloc),
            met: Vec::new(alloc),
            found: Vec::new(alloc),
            stamp: 1,
            stamps: 1,
            bindings: Vec::new(alloc),
            begun: Vec::new(alloc),
            datatypes: Vec::new(alloc),
            compared: Vec::new(alloc),
            count: 0,
        };
        walk.make_classes()?;
        walk.make_bindings()?;
        Ok(walk)
    }

    // Room for what is kept of each class.
    fn make_classes(&mut self) -> Result<(), NoMemory> {
        for _ in 0..self.typed.table.count() {
            self.put.push(self.unit)?;
            self.met.push(0)?;
            self.found.push(0)?;
        }
        Ok(())
    }

    // The bindings, and where they begin.
    fn make_bindings(&mut self) -> Result<(), NoMemory> {
        for _ in self.typed.types.as_slice() {
            self.begun.push(u32::MAX)?;
        }
        for (number, node) in self.typed.begins.as_slice().iter().enumerate() {
            self.bindings.push(Binding {
                first: 0,
                instances: Instances::new(self.alloc),
                own: 0,
                reached: false,
            })?;
            if let Some(begun) = self.begun.get_mut(*node as usize) {
                *begun = number.min(4_294_967_295) as u32;
            }
        }
        Ok(())
    }

    /// The number behind the last part of a node.
    pub(crate) fn behind(&self, node: u32) -> u32 {
        match self.typed.ends.as_slice().get(node as usize) {
            Some(end) => *end,
            None => node,
        }
    }

    /// What the name of a node stands for.
    pub(crate) fn stands(&self, node: u32) -> Stands {
        match self.typed.stands.as_slice().get(node as usize) {
            Some(stands) => *stands,
            None => Stands::Nothing,
        }
    }

    /// The binding that begins with a node.
    pub(crate) fn binding_at(&self, node: u32) -> u32 {
        match self.begun.get(node as usize) {
            Some(binding) => *binding,
            None => u32::MAX,
        }
    }

    /// The variables that a binding generalises.
    pub(crate) fn variables(&self, binding: u32) -> &'a [u32] {
        match self.typed.general.as_slice().get(binding as usize) {
            Some(variables) => variables.as_slice(),
            None => &[],
        }
    }
}
