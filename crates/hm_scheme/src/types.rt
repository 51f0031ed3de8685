// The table of types, with the type names of the language.
ghost use Rattle.std.specs.Prelude.{◌≡◌, ◌∷◌, [], ◌++◌, ◌+◌, ◌-◌, ◌<◌, ◌≤◌, ◌↔◌, ℕ, length, map, max, true, IfOk, OnOk, OnErr, Err, Some, None, if◌then◌else◌};
ghost use Rattle.std.specs.List.{range_with_len};
ghost use Rattle.hm_types.specs.Classes.{Allows, at, part_in, Stands};
ghost use Rattle.hm_types.specs.Joining.{Within};
ghost use Rattle.hm_types.specs.Solving.{Joins, MostGeneral, HasNoUnifier, SameClasses, OneMore, IsDeclared, Grows};
ghost use Rattle.hm_types.specs.declared.node.Node.TheVariants.{Variable};
ghost use Rattle.hm_types.specs.declared.node.Equality.TheVariants.{Never, Parts};
ghost use Rattle.hm_scheme.specs.declared.type_name.TyName.TheVariants.{Basis, Tuple, Declared};
ghost use Rattle.hm_scheme.specs.Making.{IsApplied, IsMade};
ghost use Rattle.hm_scheme.specs.TypeNames.{Tells, AllTell, start_names};
ghost use Rattle.hm_scheme.specs.declared.refusal.Stop.TheVariants as stop;

use crate::basis::TYPES;
use crate::refusal::Stop;
use crate::type_name::TyName;
use hm_types::{Equality, TypeTable, UnifyRefusal};
use sml_syntax::NoMemory;
use std::alloc::Global;

/// The number of the name of functions. Those of the basis come before it, and tuples of two and more parts behind it.
const ARROW: u32 = 14;

/// Classes of types without arguments.
#[derive(Clone, Copy, Debug, PartialEq, Eq)]
pub struct Plain {
    pub int: u32,
    pub char: u32,
    pub string: u32,
    pub exn: u32,
    pub unit: u32,
    pub bool: u32,
}

const NO_PLAIN: Plain = Plain {
    int: 0,
    char: 0,
    string: 0,
    exn: 0,
    unit: 0,
    bool: 0,
};

/// Types, and what their names stand for.
#[derive(Drop)]
pub struct Types {
    pub alloc: Global,
    /// The classes of the basis's types without arguments, once the table has them.
    pub plain: Plain,
    pub table: TypeTable,
    /// What each name of the table stands for.
    pub names: Vec<TyName>,
    /// How many datatypes were declared.
    pub declared: u32,
    ghost told: { AllTell names.items table.names },
}

impl Types {
    /// A table with the names of the basis, and tuples of up to so many parts, but at least four.
    pub fn start(alloc: Global, widest: u32) -> Result<Types, Stop>
        ensures { IfOk result (λ types. types.names.items ≡ start_names (max widest 4)) }
    {
        let mut types = Types {
            alloc,
            plain: NO_PLAIN,
            table: TypeTable::make(alloc)?,
            names: Vec::new(alloc),
            declared: 0,
        };
        types.declare_basis()?;
        types.declare(2, Equality::Never, TyName::Arrow)?;
        types.declare_tuples(widest.max(4))?;
        types.make_plain()?;
        Ok(types)
    }

    // Declares the types of the basis.
    fn declare_basis(&mut self) -> Result<(), NoMemory>
        ensures { OnOk result (self.new.names.items ≡ self.old.names.items ++ map Basis (range_with_len 0 14)) }
    {
        for i in 0..ARROW {
            let row = &TYPES[i as usize];
            self.declare(row.1, row.2, TyName::Basis(i))?;
        }
        Ok(())
    }

    // Declares tuples of two parts and up to so many.
    fn declare_tuples(&mut self, widest: u32) -> Result<(), NoMemory>
        ensures { OnOk result (self.new.names.items ≡ self.old.names.items ++ map Tuple (range_with_len 2 (widest - 1))) }
    {
        for parts in 1..widest {
            self.declare(parts + 1, Equality::Parts, TyName::Tuple(parts + 1))?;
        }
        Ok(())
    }

    // Makes the classes of types without arguments.
    fn make_plain(&mut self) -> Result<(), Stop>
        ensures { self.new.names ≡ self.old.names }
    {
        self.plain = Plain {
            int: self.con(0, &[])?,
            char: self.con(1, &[])?,
            string: self.con(2, &[])?,
            exn: self.con(3, &[])?,
            unit: self.con(4, &[])?,
            bool: self.con(5, &[])?,
        };
        Ok(())
    }

    // A new name of the table.
    fn declare(&mut self, arity: u32, equality: Equality, name: TyName) -> Result<u32, NoMemory>
        requires { (birth : ℕ) → Tells name (record { arity = arity; equality = equality; birth = birth }) }
        ensures number { IfOk result (λ f. (f ≡ length self.old.table.names) × IsDeclared self.old.table self.new.table arity equality) }
        ensures names { OnOk result (self.new.names.items ≡ self.old.names.items ++ name ∷ []) }
        ensures kept { OnErr result ((self.new.table ≡ self.old.table) × (self.new.names.items ≡ self.old.names.items)) }
        ensures plain { (self.new.plain ≡ self.old.plain) × (self.new.declared ≡ self.old.declared) }
    {
        self.names.reserve(1)?;
        let number = self.table.declare(arity, equality)?;
        self.names.push_reserved(name);
        Ok(number)
    }

    /// A new datatype: its name's number. Its types admit equality where `equal` is true and their arguments do.
    pub fn declare_datatype(&mut self, arity: u32, equal: bool) -> Result<u32, NoMemory>
        ensures number { IfOk result (λ f. (f ≡ length self.old.table.names) × IsDeclared self.old.table self.new.table arity (if equal then Parts else Never)) }
        ensures names { OnOk result (self.new.names.items ≡ self.old.names.items ++ Declared self.old.declared ∷ []) }
    {
        let equality = if equal {
            Equality::Parts
        } else {
            Equality::Never
        };
        let number = self.declare(arity, equality, TyName::Declared(self.declared))?;
        self.declared = self.declared.saturating_add(1);
        Ok(number)
    }

    /// The table, and what its names stand for.
    pub fn finish(self) -> (TypeTable, Vec<TyName>)
        ensures parts { (result.0 ≡ self.table) × (result.1 ≡ self.names) }
        ensures told { AllTell result.1.items result.0.names }
    {
        let Types {
            alloc: _,
            plain: _,
            table,
            names,
            declared: _,
        } = self;
        (table, names)
    }

    /// How many classes there are: a mark, than which later ones aren't older.
    pub fn mark(&self) -> u32
        ensures { result ≡ length self.now.table.nodes }
    {
        self.table.count()
    }

    /// A new variable, of types with equality or of all.
    pub fn var(&mut self, equality: bool) -> Result<u32, Stop>
        ensures class { IfOk result (λ c. (c ≡ length self.old.table.nodes) × OneMore self.old.table self.new.table × (at self.new.table.nodes c ≡ Variable)) }
        ensures joins { IfOk result (λ c. Joins self.old.table self.new.table (λ s. Allows self.old.table.names (record { equality = equality; birth = c }) (s c))) }
        ensures ill { result ≡ Err stop.Ill → ⊥ }
        ensures names { self.new.names ≡ self.old.names }
    {
        Ok(self.table.var(equality)?)
    }

    /// A new class: a type name over classes. `Ill` comes where the name isn't one of the table, or has another number of arguments,
    /// or one of the parts isn't a class.
    pub fn con(&mut self, name: u32, parts: &[u32]) -> Result<u32, Stop>
        ensures made { IfOk result (IsMade self.old.table self.new.table name parts.now) }
        ensures ill { result ≡ Err stop.Ill → IsApplied self.old.table name parts.now → ⊥ }
        ensures kept { OnErr result (self.new.table ≡ self.old.table) }
        ensures names { self.new.names ≡ self.old.names }
    {
        if !self.fits(name, parts) {
            return Err(Stop::Ill);
        }
        Ok(self.table.con(name, parts)?)
    }

    // Whether the name takes these parts.
    fn fits(&self, name: u32, parts: &[u32]) -> bool
        ensures { (result ≡ true) ↔ IsApplied self.now.table name parts.now }
    {
        let count = self.table.count();
        for part in parts {
            if *part >= count {
                return false;
            }
        }
        match self.table.arity(name) {
            Some(arity) => arity as usize == parts.len(),
            None => false,
        }
    }

    /// The class of functions.
    pub fn function(&mut self, from: u32, to: u32) -> Result<u32, Stop>
        ensures made { IfOk result (IsMade self.old.table self.new.table ARROW (from ∷ to ∷ [])) }
        ensures kept { OnErr result (self.new.table ≡ self.old.table) }
    {
        self.con(ARROW, &[from, to])
    }

    /// The class of lists.
    pub fn list(&mut self, item: u32) -> Result<u32, Stop>
        ensures made { IfOk result (IsMade self.old.table self.new.table 6 (item ∷ [])) }
        ensures kept { OnErr result (self.new.table ≡ self.old.table) }
    {
        self.con(6, &[item])
    }

    /// The class of tuples of two and more parts. `Ill` comes where the table has none so wide, too.
    pub fn tuple(&mut self, parts: &[u32]) -> Result<u32, Stop>
        ensures made { IfOk result (IsMade self.old.table self.new.table (13 + length parts.now) parts.now) }
        ensures kept { OnErr result (self.new.table ≡ self.old.table) }
    {
        let count = parts.len();
        if count < 2 || count >= 4_294_967_000 {
            return Err(Stop::Ill);
        }
        self.con(ARROW - 1 + count as u32, parts)
    }

    /// Makes two classes equal. `Ill` comes where no types make them equal, or one isn't a class, and after that for all of them.
    pub fn unify(&mut self, a: u32, b: u32) -> Result<(), Stop>
        ensures most { OnOk result (MostGeneral self.old.table self.new.table a b) }
        ensures none { result ≡ Err stop.Ill → a < length self.old.table.nodes → b < length self.old.table.nodes → HasNoUnifier self.old.table a b }
        ensures same { SameClasses self.old.table self.new.table }
        ensures names { self.new.names ≡ self.old.names }
    {
        let count = self.table.count();
        if a >= count || b >= count {
            return Err(Stop::Ill);
        }
        match self.table.unify(a, b) {
            Ok(()) => Ok(()),
            Err(UnifyRefusal::Clash) => Err(Stop::Ill),
            Err(UnifyRefusal::NoMemory) => Err(Stop::NoMemory),
        }
    }

    /// A copy of what isn't older than the mark.
    pub fn copy(&mut self, class: u32, mark: u32) -> Result<u32, Stop>
        ensures within { IfOk result (λ d. d < length self.new.table.nodes) }
        ensures grows { Grows self.old.table self.new.table }
        ensures ill { result ≡ Err stop.Ill → class < length self.old.table.nodes → mark ≤ length self.old.table.nodes → ⊥ }
        ensures names { self.new.names ≡ self.old.names }
    {
        let count = self.table.count();
        if class >= count || mark > count {
            return Err(Stop::Ill);
        }
        Ok(self.table.copy(class, mark)?)
    }

    /// A part of a class; `Ill` where it isn't a class, or has no such part.
    pub fn part(&self, class: u32, index: u32) -> Result<u32, Stop>
        ensures part { IfOk result (λ d. (r : ℕ) × Stands self.now.table.nodes class r × (part_in self.now.table.parts index (at self.now.table.nodes r) ≡ Some d)) }
        ensures within { IfOk result (λ d. d < length self.now.table.nodes) }
        ensures none { OnErr result (class < length self.now.table.nodes → (r : ℕ) × Stands self.now.table.nodes class r × (part_in self.now.table.parts index (at self.now.table.nodes r) ≡ None)) }
    {
        if class >= self.table.count() {
            return Err(Stop::Ill);
        }
        match self.table.part(class, index) {
            Some(part) => Ok(part),
            None => Err(Stop::Ill),
        }
    }

    /// A type of the basis that is spelt by steps, with new variables.
    pub fn spelt(&mut self, steps: &[u8]) -> Result<u32, Stop> {
        let mut variables = [None, None, None, None];
        let mut stack: Vec<u32> = Vec::new(self.alloc);
        for step in steps {
            let class = self.step(&mut variables, &mut stack, *step)?;
            stack.push(class)?;
        }
        stack.pop().ok_or(Stop::Ill)
    }

    // The class that a step makes.
    fn step(
        &mut self,
        variables: &mut [Option<u32>; 4],
        stack: &mut Vec<u32>,
        step: u8,
    ) -> Result<u32, Stop> {
        match step {
            b'A' => self.variable(&mut variables[0], false),
            b'B' => self.variable(&mut variables[1], false),
            b'C' => self.variable(&mut variables[2], false),
            b'E' => self.variable(&mut variables[3], true),
            b'i' => Ok(self.plain.int),
            b'c' => Ok(self.plain.char),
            b's' => Ok(self.plain.string),
            b'x' => Ok(self.plain.exn),
            b'u' => Ok(self.plain.unit),
            b'b' => Ok(self.plain.bool),
            _ => match name_of_step(step) {
                Some((name, count)) => self.over(name, count, stack),
                None => Err(Stop::Ill),
            },
        }
    }

    // The variable of a letter, the same one for the whole type.
    fn variable(&mut self, found: &mut Option<u32>, equality: bool) -> Result<u32, Stop> {
        match *found {
            Some(class) => Ok(class),
            None => {
                let class = self.var(equality)?;
                *found = Some(class);
                Ok(class)
            }
        }
    }

    // A type name over the last classes of the stack.
    fn over(&mut self, name: u32, count: usize, stack: &mut Vec<u32>) -> Result<u32, Stop> {
        if stack.len() < count {
            return Err(Stop::Ill);
        }
        let from = stack.len() - count;
        let class = self.con(name, &stack[from..])?;
        stack.truncate(from);
        Ok(class)
    }
}

// The type name that a step puts over the last classes, and over how many.
fn name_of_step(step: u8) -> Option<(u32, usize)> {
    match step {
        b'>' => Some((ARROW, 2)),
        b'2' => Some((ARROW + 1, 2)),
        b'3' => Some((ARROW + 2, 3)),
        b'4' => Some((ARROW + 3, 4)),
        b'l' => Some((6, 1)),
        b'p' => Some((7, 1)),
        b'o' => Some((8, 0)),
        b'f' => Some((9, 1)),
        b'r' => Some((10, 1)),
        b't' => Some((11, 1)),
        b'h' => Some((12, 2)),
        b'k' => Some((13, 0)),
        _ => None,
    }
}
