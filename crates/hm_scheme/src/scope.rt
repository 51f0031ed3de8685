// What names stand for, the innermost bindings last.
ghost use Rattle.std.specs.Prelude.{◌≡◌, ◌<◌, ◌-◌, ◌∷◌, [], ◌++◌, ℕ, None, length, take, drop, get_or, IfOk, OnOk, OnErr};
ghost use Rattle.hm_scheme.specs.Bindings.{meaning_in, shown};

use sml_syntax::NoMemory;
use std::alloc::Global;
use std::marker::Model;

/// A binding of a name.
#[derive(Clone, Copy, Debug, PartialEq, Eq)]
struct Bound {
    name: u32,
    meaning: u32,
    /// The place of the binding of that name outside this one.
    outer: Option<u32>,
}

/// Names in scope, by their numbers, with numbers for what they stand for. Contracts see it as the list of the bindings, the
/// innermost last.
#[derive(Drop)]
pub struct Scope {
    bounds: Vec<Bound>,
    /// For each name the place of its innermost binding.
    innermost: Vec<Option<u32>>,
}

impl Model for Scope {
    ghost use Rattle.std.specs.Prelude.{List};
    ghost use Rattle.hm_scheme.specs.Bindings.{Binding, shown, IsIndexed};

    ghost Value = { List Binding };

    ghost view = { λ scope. shown scope.bounds.items };

    ghost invariant = { λ scope. IsIndexed scope.bounds.items scope.innermost.items };
}

// The place of a name's innermost binding.
fn place_of(innermost: &[Option<u32>], name: u32) -> Option<u32>
    ensures { result ≡ get_or innermost.now name None }
{
    innermost.get(name as usize).copied().flatten()
}

// Makes the list long enough for a name.
fn make_room(innermost: &mut Vec<Option<u32>>, name: u32) -> Result<(), NoMemory>
    ensures same { (n : ℕ) → get_or innermost.new.items n None ≡ get_or innermost.old.items n None }
    ensures room { OnOk result (name < length innermost.new.items) }
{
    while innermost.len() <= name as usize {
        innermost.push(None)?;
    }
    Ok(())
}

impl Scope {
    /// A scope without names.
    pub fn new(alloc: Global) -> Scope
        ensures { result ≡ [] }
    {
        Scope {
            bounds: Vec::new(alloc),
            innermost: Vec::new(alloc),
        }
    }

    /// How many bindings are in scope, hidden ones too.
    pub fn depth(&self) -> usize
        ensures { result ≡ length self.now }
    {
        self.bounds.len()
    }

    /// What the name stands for.
    pub fn find(&self, name: u32) -> Option<u32>
        ensures { result ≡ meaning_in self.now name }
    {
        match place_of(&self.innermost, name) {
            Some(place) => Some(self.bounds[place as usize].meaning),
            None => None,
        }
    }

    /// Adds a binding, which hides those of the same name.
    pub fn add(&mut self, name: u32, meaning: u32) -> Result<(), NoMemory>
        ensures added { OnOk result (self.new ≡ self.old ++ (name, meaning) ∷ []) }
        ensures kept { OnErr result (self.new ≡ self.old) }
    {
        let place = self.bounds.len();
        if place >= 4_294_967_295 {
            return Err(NoMemory);
        }
        make_room(&mut self.innermost, name)?;
        let outer = place_of(&self.innermost, name);
        self.bounds.push(Bound {
            name,
            meaning,
            outer,
        })?;
        self.innermost[name as usize] = Some(place as u32);
        Ok(())
    }

    // Takes out the innermost binding.
    fn leave(&mut self)
        ensures { self.new ≡ take (length self.old - 1) self.old }
    {
        if let Some(bound) = self.bounds.pop() {
            self.innermost[bound.name as usize] = bound.outer;
        }
    }

    /// Leaves the scope that had so many bindings.
    pub fn cut(&mut self, depth: usize)
        ensures { self.new ≡ take depth self.old }
    {
        while self.depth() > depth {
            self.leave();
        }
    }

    /// Takes out the bindings between the two depths. After want of memory some of those inside may be wanting.
    pub fn hide(&mut self, outer: usize, inner: usize) -> Result<(), NoMemory>
        ensures { OnOk result (self.new ≡ take outer self.old ++ drop inner self.old) }
    {
        let kept = self.inside(inner)?;
        self.cut(outer);
        for bound in kept.as_slice() {
            self.add(bound.name, bound.meaning)?;
        }
        Ok(())
    }

    // The bindings from a depth on.
    fn inside(&self, depth: usize) -> Result<Vec<Bound>, NoMemory>
        ensures { IfOk result (λ kept. shown kept.items ≡ drop depth self.now) }
    {
        let from = depth.min(self.bounds.len());
        Ok(Vec::from_slice(*self.bounds.allocator(), &self.bounds[from..])?)
    }
}
