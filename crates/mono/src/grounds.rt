// Ground types, each with one number.
use crate::refusal::MonoRefusal;
use crate::shape::{Head, Shape};
use region_syntax::MTy;
use sml_syntax::{Boxed, Listed, NoMemory};
use std::alloc::Global;
use std::collections::HashMap;

/// How many nodes a ground type may have.
pub(crate) const MOST_NODES: u32 = 4096;

/// A ground type that was met: its shape, how many nodes it has, and its tree.
#[derive(Drop)]
struct Met {
    head: Head,
    parts: Vec<u32>,
    nodes: u32,
    tree: MTy,
}

/// The ground types that were met, each once.
#[derive(Drop)]
pub(crate) struct Grounds {
    alloc: Global,
    numbers: HashMap<Shape, u32>,
    met: Vec<Met>,
}

impl Grounds {
    pub(crate) fn new(alloc: Global) -> Grounds {
        Grounds {
            alloc,
            numbers: HashMap::new(alloc),
            met: Vec::new(alloc),
        }
    }

    /// How many types were met. They are numbered from 0 on.
    pub(crate) fn count(&self) -> usize {
        self.met.len()
    }

    /// The number of the type with this head and these parts.
    pub(crate) fn number(&mut self, head: Head, parts: &[u32]) -> Result<u32, MonoRefusal> {
        let shape = Shape {
            head,
            parts: Vec::from_slice(self.alloc, parts)?,
        };
        match self.numbers.get(&shape) {
            Some(number) => Ok(*number),
            None => self.enter(shape, parts),
        }
    }

    // Gives a new type the next number.
    fn enter(&mut self, shape: Shape, parts: &[u32]) -> Result<u32, MonoRefusal> {
        let number = self.met.len();
        if number >= 4_294_967_295 {
            return Err(MonoRefusal::NoMemory);
        }
        let nodes = self.nodes_over(parts);
        if nodes > MOST_NODES {
            return Err(MonoRefusal::InstanceLimit);
        }
        let tree = self.tree_over(shape.head, parts)?;
        self.met.push(Met {
            head: shape.head,
            parts: Vec::from_slice(self.alloc, parts)?,
            nodes,
            tree,
        })?;
        self.numbers.insert(shape, number as u32)?;
        Ok(number as u32)
    }

    // The nodes of a type with these parts.
    fn nodes_over(&self, parts: &[u32]) -> u32 {
        let mut nodes = 1u32;
        for part in parts {
            if let Some(met) = self.met.get(*part as usize) {
                nodes = nodes.saturating_add(met.nodes);
            }
        }
        nodes
    }

    // The tree of a type over the trees of its parts.
    fn tree_over(&self, head: Head, parts: &[u32]) -> Result<MTy, NoMemory> {
        Ok(match head {
            Head::Int => MTy::Int,
            Head::Char => MTy::Char,
            Head::Str => MTy::Str,
            Head::Unit => MTy::Unit,
            Head::Exn => MTy::Exn,
            Head::Tuple => MTy::Tuple(self.trees(parts)?),
            Head::Arrow => {
                let from = self.boxed(parts, 0)?;
                MTy::Arrow(from, self.boxed(parts, 1)?)
            }
            Head::Data(number) => MTy::DataTy(number, self.trees(parts)?),
            Head::Ref => MTy::Ref(self.boxed(parts, 0)?),
            Head::Cache => {
                let key = self.boxed(parts, 0)?;
                MTy::CacheTy(key, self.boxed(parts, 1)?)
            }
            Head::Desc => MTy::DescTy(self.boxed(parts, 0)?),
            Head::Var(number) => MTy::Var(number),
        })
    }

    fn trees(&self, parts: &[u32]) -> Result<Listed<MTy>, NoMemory> {
        let mut trees = Vec::new(self.alloc);
        for part in parts {
            trees.push(self.tree(*part)?)?;
        }
        Ok(Listed::of(trees))
    }

    fn boxed(&self, parts: &[u32], place: usize) -> Result<Boxed<MTy>, NoMemory> {
        let tree = match parts.get(place) {
            Some(part) => self.tree(*part)?,
            None => MTy::Unit,
        };
        Boxed::new(self.alloc, tree)
    }

    /// The tree of a type; unit where there is no type of that number.
    pub(crate) fn tree(&self, number: u32) -> Result<MTy, NoMemory> {
        match self.met.get(number as usize) {
            Some(met) => met.tree.try_copy(self.alloc),
            None => Ok(MTy::Unit),
        }
    }

    /// What stands at the top of a type.
    pub(crate) fn head(&self, number: u32) -> Head {
        match self.met.get(number as usize) {
            Some(met) => met.head,
            None => Head::Unit,
        }
    }

    /// The parts of a type.
    pub(crate) fn parts(&self, number: u32) -> &[u32] {
        match self.met.get(number as usize) {
            Some(met) => met.parts.as_slice(),
            None => &[],
        }
    }
}
