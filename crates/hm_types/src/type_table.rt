ghost use Rattle.std.specs.Prelude.{◌≡◌, ◌+◌, ◌∷◌, [], ◌++◌, ◌<◌, ◌≤◌, ◌↔◌, ◌⊎◌, ℕ, length, true, false, IfOk, IfSome, IfNone, OnOk, OnErr, Err, Ok, vec_capacity};
ghost use Rattle.hm_types.specs.Classes.{Assign, Allows, Respects, Meets, terms_of, at, asked_at, name_at, name_in, part_in, Stands};
ghost use Rattle.hm_types.specs.Joining.{IsFine, Within, Keeps};
ghost use Rattle.hm_types.specs.Asking.{Lowers};
ghost use Rattle.hm_types.specs.Searching.{Stamped};
ghost use Rattle.hm_types.specs.Kept.{Sorted, IsSettled, Joined};
ghost use Rattle.hm_types.specs.Solving.{Solves, Solved, Joins, MostGeneral, HasNoUnifier, SameClasses, OneMore, IsDeclared, Grows};
ghost use Rattle.hm_types.specs.declared.node.Node.TheVariants.{Variable};
ghost use Rattle.hm_types.specs.declared.refusal.UnifyRefusal.TheVariants as refusal;
ghost use Rattle.type_terms.specs.TypeTerms.{made};

use crate::copy::list_below;
use crate::join::{join, root_of};
use crate::search::is_finite;
use crate::spread::spread;
use crate::{Asked, Equality, Node, TypeName, UnifyRefusal};
use sml_syntax::NoMemory;
use std::alloc::Global;
use std::marker::Model;

/// Type names and classes.
#[derive(Drop)]
pub struct TypeTable {
    alloc: Global,
    names: Vec<TypeName>,
    parts: Vec<u32>,
    nodes: Vec<Node>,
    asked: Vec<Asked>,
    // Numbers that a walk gives to classes; those of earlier walks are smaller.
    marks: Vec<u64>,
    stamp: u64,
    clashed: bool,
    spent: bool,
}

impl Model for TypeTable {
    ghost use Rattle.hm_types.specs.Classes.{TypeGraph};

    ghost Value = { TypeGraph };

    ghost use Rattle.hm_types.specs.Kept.{IsTable};

    ghost view = { λ t. record { names = t.names.items; parts = t.parts.items; nodes = t.nodes.items; asked = t.asked.items; clashed = t.clashed; spent = t.spent } };

    ghost invariant = { λ t. IsTable t.names.items t.parts.items t.nodes.items t.asked.items t.marks.items t.stamp t.clashed t.spent };
}

// Makes room for more classes.
fn make_room(
    nodes: &mut Vec<Node>,
    asked: &mut Vec<Asked>,
    marks: &mut Vec<u64>,
    count: usize,
) -> Result<(), NoMemory>
    ensures nodes { nodes.new.items ≡ nodes.old.items }
    ensures asked { asked.new.items ≡ asked.old.items }
    ensures marks { marks.new.items ≡ marks.old.items }
    ensures room { OnOk result ((length nodes.new.items + count ≤ vec_capacity nodes.new) × (length asked.new.items + count ≤ vec_capacity asked.new) × (length marks.new.items + count ≤ vec_capacity marks.new)) }
{
    nodes.reserve(count)?;
    asked.reserve(count)?;
    marks.reserve(count)?;
    Ok(())
}

// Makes two classes equal, with what follows from that.
fn settle(
    alloc: Global,
    names: &[TypeName],
    parts: &[u32],
    nodes: &mut [Node],
    asked: &mut [Asked],
    marks: &mut [u64],
    stamp: &mut u64,
    a: u32,
    b: u32,
) -> Result<(), UnifyRefusal>
    requires fine { IsFine parts.now nodes.old }
    requires parts { Within (length nodes.old) parts.now }
    requires sorted { Sorted names.now nodes.old }
    requires same { length asked.old ≡ length nodes.old }
    requires stamped { Stamped (length nodes.old) marks.old stamp.old }
    requires settled { IsSettled names.now parts.now nodes.old asked.old }
    requires first { a < length nodes.old }
    requires second { b < length nodes.old }
    ensures joined { IfOk result (λ _. Joined names.now parts.now nodes.old asked.old nodes.new asked.new a b) }
    ensures none { result ≡ Err refusal.Clash → (s : Assign) → Respects parts.now nodes.old s → Meets names.now asked.old s → s a ≡ s b → ⊥ }
    ensures keeps { Keeps parts.now nodes.old nodes.new }
    ensures lowers { Lowers asked.old asked.new }
    ensures stamped { Stamped (length nodes.new) marks.new stamp.new }
{
    let changed = join(alloc, parts, nodes, a, b)?;
    spread(alloc, names, parts, nodes, asked, &changed)?;
    if is_finite(alloc, parts, nodes, asked, marks, stamp, &changed)? {
        return Ok(());
    }
    Err(UnifyRefusal::Clash)
}

impl TypeTable {
    /// A table without names and classes.
    pub fn make(alloc: Global) -> Result<TypeTable, NoMemory>
        ensures empty { IfOk result (λ t. t ≡ record { names = []; parts = []; nodes = []; asked = []; clashed = false; spent = false }) }
    {
        Ok(TypeTable {
            alloc,
            names: Vec::new(alloc),
            parts: Vec::new(alloc),
            nodes: Vec::new(alloc),
            asked: Vec::new(alloc),
            marks: Vec::new(alloc),
            stamp: 0,
            clashed: false,
            spent: false,
        })
    }

    /// How many classes were made. They are numbered from 0 on.
    pub fn count(&self) -> u32
        ensures count { result ≡ length self.now.nodes }
    {
        self.nodes.len() as u32
    }

    /// A new type name. Variables that stand already never take it.
    pub fn declare(&mut self, arity: u32, equality: Equality) -> Result<u32, NoMemory>
        ensures name { IfOk result (λ f. (f ≡ length self.old.names) × IsDeclared self.old self.new arity equality) }
        ensures solutions { (s : Assign) → Solves self.old s ↔ Solves self.new s }
        ensures kept { OnErr result (self.new ≡ self.old) }
    {
        let number = self.names.len();
        if number >= 4294967295 {
            return Err(NoMemory);
        }
        let birth = self.nodes.len() as u32;
        self.names.push(TypeName {
            arity,
            equality,
            birth,
        })?;
        Ok(number as u32)
    }

    /// A new variable, which stands for types of the names declared before it.
    pub fn var(&mut self, equality: bool) -> Result<u32, NoMemory>
        ensures class { IfOk result (λ c. (c ≡ length self.old.nodes) × OneMore self.old self.new × (at self.new.nodes c ≡ Variable)) }
        ensures joins { IfOk result (λ c. Joins self.old self.new (λ s. Allows self.old.names (record { equality = equality; birth = c }) (s c))) }
        ensures kept { OnErr result (self.new ≡ self.old) }
    {
        let class = self.nodes.len();
        if class >= 4294967295 {
            return Err(NoMemory);
        }
        make_room(&mut self.nodes, &mut self.asked, &mut self.marks, 1)?;
        self.nodes.push_reserved(Node::Variable);
        self.asked.push_reserved(Asked {
            equality,
            birth: class as u32,
        });
        self.marks.push_reserved(0);
        Ok(class as u32)
    }

    /// A new class: a type name over other classes.
    pub fn con(&mut self, name: u32, parts: &[u32]) -> Result<u32, NoMemory>
        requires name { name < length self.old.names }
        requires arity { length parts.now ≡ (name_at self.old.names name).arity }
        requires within { Within (length self.old.nodes) parts.now }
        ensures class { IfOk result (λ c. (c ≡ length self.old.nodes) × OneMore self.old self.new) }
        ensures joins { IfOk result (λ c. Joins self.old self.new (λ s. s c ≡ made name (terms_of s parts.now))) }
        ensures kept { OnErr result (self.new ≡ self.old) }
    {
        let class = self.nodes.len();
        let first = self.parts.len();
        if class >= 4294967295 || first + parts.len() >= 4294967296 {
            return Err(NoMemory);
        }
        make_room(&mut self.nodes, &mut self.asked, &mut self.marks, 1)?;
        self.parts.extend_from_slice(parts)?;
        self.nodes
            .push_reserved(Node::Made(name, first as u32, parts.len() as u32));
        self.asked.push_reserved(Asked {
            equality: false,
            birth: class as u32,
        });
        self.marks.push_reserved(0);
        Ok(class as u32)
    }

    /// The class that stands for this one: of classes that were made equal the same one.
    pub fn find(&self, class: u32) -> u32
        requires within { class < length self.now.nodes }
        ensures stands { Stands self.now.nodes class result }
        ensures within { result < length self.now.nodes }
    {
        root_of(&self.parts, &self.nodes, class)
    }

    /// How many arguments a type name takes, none where there is no such name.
    pub fn arity(&self, name: u32) -> Option<u32>
        ensures arity { IfSome result (λ n. (name < length self.now.names) × (n ≡ (name_at self.now.names name).arity)) }
        ensures none { IfNone result (length self.now.names ≤ name) }
    {
        if name as usize >= self.names.len() {
            return None;
        }
        Some(self.names[name as usize].arity)
    }

    /// The type name of a class, none for a variable.
    pub fn name(&self, class: u32) -> Option<u32>
        requires within { class < length self.now.nodes }
        ensures name { (r : ℕ) × Stands self.now.nodes class r × (result ≡ name_in (at self.now.nodes r)) }
    {
        match self.nodes[self.find(class) as usize] {
            Node::Made(name, _, _) => Some(name),
            _ => None,
        }
    }

    /// A part of a class. It stands for the same types as what was given to `con`, by whatever number.
    pub fn part(&self, class: u32, index: u32) -> Option<u32>
        requires within { class < length self.now.nodes }
        ensures part { (r : ℕ) × Stands self.now.nodes class r × (result ≡ part_in self.now.parts index (at self.now.nodes r)) }
        ensures within { IfSome result (λ d. d < length self.now.nodes) }
    {
        match self.nodes[self.find(class) as usize] {
            Node::Made(_, first, count) => {
                if index < count {
                    return Some(self.parts[first as usize + index as usize]);
                }
                None
            }
            _ => None,
        }
    }

    /// What is asked of a class.
    pub fn asked(&self, class: u32) -> Asked
        requires within { class < length self.now.nodes }
        ensures asked { (r : ℕ) × Stands self.now.nodes class r × (result ≡ asked_at self.now.asked r) }
    {
        self.asked[self.find(class) as usize]
    }

    /// Whether the table has solutions, each choice for its variables giving one.
    pub fn is_solved(&self) -> bool
        ensures solved { result ≡ true → Solved self.now }
        ensures not { result ≡ false → (self.now.clashed ≡ true) ⊎ (self.now.spent ≡ true) }
    {
        !self.clashed && !self.spent
    }

    /// Makes two classes equal. `Clash` comes exactly where no solution makes them equal, and from then on always; after
    /// want of memory the table is of no use, and answers so from then on.
    pub fn unify(&mut self, a: u32, b: u32) -> Result<(), UnifyRefusal>
        requires first { a < length self.old.nodes }
        requires second { b < length self.old.nodes }
        ensures most { IfOk result (λ _. MostGeneral self.old self.new a b) }
        ensures none { result ≡ Err refusal.Clash → HasNoUnifier self.old a b × (self.new.clashed ≡ true) }
        ensures stays { self.old.clashed ≡ true → result ≡ Err refusal.Clash }
        ensures memory { result ≡ Err refusal.NoMemory → (self.new.spent ≡ true) × (self.new.clashed ≡ false) }
        ensures wants { self.old.clashed ≡ false → self.old.spent ≡ true → result ≡ Err refusal.NoMemory }
        ensures same { SameClasses self.old self.new }
    {
        if self.clashed {
            return Err(UnifyRefusal::Clash);
        }
        if self.spent {
            return Err(UnifyRefusal::NoMemory);
        }
        let settled = settle(
            self.alloc,
            &self.names,
            &self.parts,
            &mut self.nodes,
            &mut self.asked,
            &mut self.marks,
            &mut self.stamp,
            a,
            b,
        );
        match settled {
            Ok(()) => Ok(()),
            Err(UnifyRefusal::Clash) => {
                self.clashed = true;
                Err(UnifyRefusal::Clash)
            }
            Err(UnifyRefusal::NoMemory) => {
                self.spent = true;
                Err(UnifyRefusal::NoMemory)
            }
        }
    }

    /// A copy of a class with new variables for those that aren't older than the mark, a number of classes. What is older it
    /// shares, and where all is older it is the class itself. After want of memory some copies may stand already.
    pub fn copy(&mut self, class: u32, mark: u32) -> Result<u32, NoMemory>
        requires within { class < length self.old.nodes }
        ensures within { IfOk result (λ d. d < length self.new.nodes) }
        ensures grows { Grows self.old self.new }
    {
        let root = self.find(class);
        if self.asked(root).birth < mark {
            return Ok(root);
        }
        let order = self.order(root, mark)?;
        let floor = self.stamp.saturating_sub(order.len() as u64);
        let mut copies: Vec<u32> = Vec::new(self.alloc);
        for i in 0..order.len() {
            let copy = self.remake(order[i], mark, floor, &copies)?;
            copies.push(copy)?;
        }
        Ok(self.image(root, mark, floor, &copies))
    }

    // The classes that a copy is made of, each after its parts.
    fn order(&mut self, class: u32, mark: u32) -> Result<Vec<u32>, NoMemory>
        requires within { class < length self.old.nodes }
        ensures same { self.new ≡ self.old }
        ensures within { IfOk result (λ order. Within (length self.new.nodes) order.items) }
    {
        let order = list_below(
            self.alloc,
            &self.parts,
            &self.nodes,
            &self.asked,
            &mut self.marks,
            &mut self.stamp,
            class,
            mark,
        )?;
        Ok(order)
    }

    // What stands for a class in a copy.
    fn image(&self, class: u32, mark: u32, floor: u64, copies: &[u32]) -> u32
        requires within { class < length self.now.nodes }
        requires copies { Within (length self.now.nodes) copies.now }
        ensures within { result < length self.now.nodes }
    {
        if self.asked[class as usize].birth < mark {
            return class;
        }
        let number = self.marks[class as usize]
            .saturating_sub(floor)
            .saturating_sub(1);
        match copies.get(number as usize) {
            Some(copy) => *copy,
            None => class,
        }
    }

    // The copy of a class whose parts are copied.
    fn remake(&mut self, class: u32, mark: u32, floor: u64, copies: &[u32]) -> Result<u32, NoMemory>
        requires within { class < length self.old.nodes }
        requires copies { Within (length self.old.nodes) copies.now }
        ensures within { IfOk result (λ d. d < length self.new.nodes) }
        ensures grows { Grows self.old self.new }
    {
        let equality = self.asked[class as usize].equality;
        match self.nodes[class as usize] {
            Node::Variable => self.var(equality),
            Node::Link(older) => Ok(self.image(older, mark, floor, copies)),
            Node::Made(name, first, count) => {
                let parts = self.images(first, count, mark, floor, copies)?;
                self.con(name, &parts)
            }
        }
    }

    // What stands for so many parts, from a place on, in a copy.
    fn images(
        &self,
        first: u32,
        count: u32,
        mark: u32,
        floor: u64,
        copies: &[u32],
    ) -> Result<Vec<u32>, NoMemory>
        requires parts { first + count ≤ length self.now.parts }
        requires copies { Within (length self.now.nodes) copies.now }
        ensures within { IfOk result (λ images. Within (length self.now.nodes) images.items) }
        ensures count { IfOk result (λ images. length images.items ≡ count) }
    {
        let mut images: Vec<u32> = Vec::new(self.alloc);
        for i in 0..count {
            let part = self.parts[first as usize + i as usize];
            images.push(self.image(part, mark, floor, copies))?;
        }
        Ok(images)
    }
}
