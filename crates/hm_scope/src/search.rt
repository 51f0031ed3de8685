// A search for the least place without a binding, with the names in scope.
ghost use Rattle.std.specs.Prelude.{◌≡◌, ◌++◌, ◌+◌, length, map, IfOk, OnOk, None, MatchOption};
ghost use Rattle.typing_rules.specs.Scope.{Names, status, has_name, basis_names, inside, AllBound, IsFirstUnbound};
ghost use Rattle.hm_scope.specs.Least.{Sees};

use crate::basis::{basis_types, basis_values};
use sml_syntax::{NoMemory, Program, Text};
use std::alloc::Global;
use std::marker::Model;

/// The names in scope, the innermost last, and the least place found so far.
#[derive(Drop)]
pub(crate) struct Search {
    pub(crate) alloc: Global,
    values: Vec<(Text, bool)>,
    types: Vec<Text>,
    first: Option<u64>,
}

impl Model for Search {
    ghost use Rattle.std.specs.Prelude.{reverse};
    ghost use Rattle.typing_rules.specs.Scope.{Names};
    ghost use Rattle.hm_scope.specs.Least.{Seen};

    ghost Value = { Seen };

    ghost view = { λ s. record { names = record { values = reverse s.values.items; types = reverse s.types.items }; first = s.first } };
}

/// How many names are in scope.
#[derive(Clone, Copy, Debug, PartialEq, Eq)]
pub(crate) struct Depth {
    values: usize,
    types: usize,
}

impl Search {
    fn start(alloc: Global) -> Result<Search, NoMemory>
        ensures { IfOk result (λ s. s ≡ record { names = basis_names; first = None }) }
    {
        Ok(Search {
            alloc,
            values: basis_values(alloc)?,
            types: basis_types(alloc)?,
            first: None,
        })
    }

    /// Something at this place has no binding.
    pub(crate) fn find(&mut self, place: u64)
        ensures { Sees (λ p. p ≡ place) self.old self.new }
    {
        self.first = match self.first {
            Some(first) => Some(first.min(place)),
            None => Some(place),
        };
    }

    /// Whether the name is a constructor, by its innermost binding.
    pub(crate) fn status(&self, name: &[u8]) -> Option<bool>
        ensures { result ≡ status name.now self.now.names.values }
    {
        let mut left = self.values.len();
        while 0 < left {
            left -= 1;
            if self.values[left].0.as_bytes() == name {
                return Some(self.values[left].1);
            }
        }
        None
    }

    pub(crate) fn has_type(&self, name: &[u8]) -> bool
        ensures { result ≡ has_name name.now self.now.names.types }
    {
        let mut left = self.types.len();
        while 0 < left {
            left -= 1;
            if self.types[left].as_bytes() == name {
                return true;
            }
        }
        false
    }

    /// Adds value names, the first of them innermost.
    pub(crate) fn add_values(&mut self, names: &[Text], constructor: bool) -> Result<(), NoMemory>
        ensures values { OnOk result (self.new.names.values ≡ map (λ name. (name, constructor)) names.now ++ self.old.names.values) }
        ensures types { OnOk result (self.new.names.types ≡ self.old.names.types) }
        ensures first { OnOk result (self.new.first ≡ self.old.first) }
    {
        let mut left = names.len();
        while 0 < left {
            left -= 1;
            self.values
                .push((names[left].try_copy(self.alloc)?, constructor))?;
        }
        Ok(())
    }

    /// Adds type names, the first of them innermost.
    pub(crate) fn add_types(&mut self, names: &[Text]) -> Result<(), NoMemory>
        ensures types { OnOk result (self.new.names.types ≡ names.now ++ self.old.names.types) }
        ensures values { OnOk result (self.new.names.values ≡ self.old.names.values) }
        ensures first { OnOk result (self.new.first ≡ self.old.first) }
    {
        let mut left = names.len();
        while 0 < left {
            left -= 1;
            self.types.push(names[left].try_copy(self.alloc)?)?;
        }
        Ok(())
    }

    pub(crate) fn depth(&self) -> Depth
        ensures values { result.values ≡ length self.now.names.values }
        ensures types { result.types ≡ length self.now.names.types }
    {
        Depth {
            values: self.values.len(),
            types: self.types.len(),
        }
    }

    /// Leaves the scope that was so deep.
    pub(crate) fn cut(&mut self, depth: Depth)
        ensures { (more outer : Names) → self.old.names ≡ inside more outer → depth.values ≡ length outer.values → depth.types ≡ length outer.types
            → self.new ≡ record { names = outer; first = self.old.first } }
    {
        self.values.truncate(depth.values);
        self.types.truncate(depth.types);
    }

    /// Takes out what was added between the two depths.
    pub(crate) fn hide(&mut self, outer: Depth, inner: Depth) -> Result<(), NoMemory>
        ensures { (shown hidden names : Names) → self.old.names ≡ inside shown (inside hidden names) → outer.values ≡ length names.values → outer.types ≡ length names.types
            → inner.values ≡ length hidden.values + length names.values → inner.types ≡ length hidden.types + length names.types
            → OnOk result (self.new ≡ record { names = inside shown names; first = self.old.first }) }
    {
        let from = inner.values.min(self.values.len());
        let mut values = self.values.split_off(from)?;
        self.values.truncate(outer.values);
        self.values.append(&mut values)?;
        let from = inner.types.min(self.types.len());
        let mut types = self.types.split_off(from)?;
        self.types.truncate(outer.types);
        self.types.append(&mut types)?;
        Ok(())
    }
}

/// The least place of the program where a name, a type name or a type variable has no binding, as a byte offset in its
/// text. Scopes are those of The Definition of Standard ML (sections 2.9 and 4), outermost the names of the basis.
/// `NoMemory` comes where the list of the names in scope can't grow.
pub fn first_unbound(alloc: Global, program: &Program) -> Result<Option<u64>, NoMemory>
    ensures { IfOk result (λ found. MatchOption found (AllBound program.now) (IsFirstUnbound program.now)) }
{
    let mut search = Search::start(alloc)?;
    search.decs(program.items.as_slice())?;
    Ok(search.first)
}
