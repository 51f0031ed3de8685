// Code that is written once for all its uses.
use crate::compiler::Compiler;
use code_parts::{Action, Location, Primitive, Seen, compared_of, sum};
use kam_code::Instr;
use region_syntax::{Constructor, MTy};
use sml_syntax::{NoMemory, Text};
use std::alloc::Global;

/// What the code is for: a constructor as a value, a primitive with so many of its arguments (and its type,
/// where the code goes by it), equality at a type.
#[derive(PartialEq, Eq, Drop)]
pub(crate) enum Stub {
    Constructor(Constructor),
    Primitive(Text, u64, Option<MTy>),
    Equality(MTy),
}

impl Stub {
    fn try_copy(&self, alloc: Global) -> Result<Stub, NoMemory> {
        match self {
            Stub::Constructor(con) => Ok(Stub::Constructor(*con)),
            Stub::Primitive(name, have, ty) => {
                let name = name.try_copy(alloc)?;
                Ok(Stub::Primitive(name, *have, copy_type(alloc, ty)?))
            }
            Stub::Equality(ty) => Ok(Stub::Equality(ty.try_copy(alloc)?)),
        }
    }
}

fn copy_type(alloc: Global, ty: &Option<MTy>) -> Result<Option<MTy>, NoMemory> {
    match ty {
        Some(ty) => Ok(Some(ty.try_copy(alloc)?)),
        None => Ok(None),
    }
}

/// More functions than any program has whose code isn't full.
const MANY: usize = 67_108_864;

impl Compiler {
    /// The number of the code.
    pub(crate) fn stub(&mut self, stub: Stub) -> Result<u32, NoMemory> {
        let mut number = 0;
        for known in &self.stubs {
            if *known == stub {
                return Ok(number);
            }
            number = u32::saturating_add(number, 1);
        }
        let number = self.writer.new_stub()?;
        self.waiting.push(number)?;
        self.stubs.push(stub)?;
        Ok(number)
    }

    /// Writes the code that is wanted, the newest first, and what it wants.
    pub(crate) fn write_stubs(&mut self) -> Result<(), NoMemory> {
        for _ in 0..MANY {
            let Some(number) = self.waiting.pop() else {
                return Ok(());
            };
            self.write_stub(number)?;
        }
        Err(NoMemory)
    }

    fn write_stub(&mut self, number: u32) -> Result<(), NoMemory> {
        let Some(stub) = self.stubs.as_slice().get(number as usize) else {
            return Ok(());
        };
        let stub = stub.try_copy(self.alloc)?;
        let outer = self.writer.begin_stub(number);
        match &stub {
            Stub::Constructor(con) => self.constructor_code(*con)?,
            Stub::Primitive(name, have, ty) => self.primitive_code(name, *have, ty)?,
            Stub::Equality(ty) => self.equality_code(ty)?,
        }
        self.writer.end_stub(number, outer)
    }

    fn constructor_code(&mut self, con: Constructor) -> Result<(), NoMemory> {
        let pushed = self.constructor_index(con)?;
        self.writer.emit(Instr::Local(0))?;
        self.writer.emit(Instr::Env(1))?;
        self.writer.emit(Instr::Alloc(sum(pushed, 1)?))?;
        self.writer.emit(Instr::Return)
    }

    fn primitive_code(&mut self, name: &Text, have: u64, ty: &Option<MTy>) -> Result<(), NoMemory> {
        let primitive = Primitive::named(name.as_bytes());
        if sum(have, 1)? < primitive.stages {
            self.next_stage(name, primitive, have, ty)?;
        } else {
            self.last_stage(primitive, have, ty)?;
        }
        self.writer.emit(Instr::Return)
    }

    // The closure of one argument more. The first place is where it lies.
    fn next_stage(
        &mut self,
        name: &Text,
        primitive: Primitive,
        have: u64,
        ty: &Option<MTy>,
    ) -> Result<(), NoMemory> {
        let name = name.try_copy(self.alloc)?;
        let ty = copy_type(self.alloc, ty)?;
        let stub = self.stub(Stub::Primitive(name, sum(have, 1)?, ty))?;
        self.writer.stub_address(stub)?;
        let later = primitive.places_left(have).saturating_sub(1);
        let kept = sum(later, have)?;
        for field in 0..kept {
            self.writer.emit(Instr::Env(sum(field, 2)?))?;
        }
        self.writer.emit(Instr::Local(0))?;
        self.writer.emit(Instr::Env(1))?;
        self.writer.emit(Instr::Alloc(sum(kept, 2)?))
    }

    // The primitive on its last argument.
    fn last_stage(
        &mut self,
        primitive: Primitive,
        have: u64,
        ty: &Option<MTy>,
    ) -> Result<(), NoMemory> {
        if let (Action::Compare(equal), Some(ty)) = (primitive.action, ty) {
            return self.compare_parts(ty, equal);
        }
        let places = primitive.places_left(have);
        for field in 0..have {
            let field = sum(field, sum(places, 1)?)?;
            self.writer.emit(Instr::Env(field))?;
        }
        match primitive.takes_tuple() {
            true => self.fields(Location::Frame(0), primitive.arguments)?,
            false => self.writer.emit(Instr::Local(0))?,
        }
        if places > 0 {
            self.writer.emit(Instr::Env(1))?;
        }
        match ty {
            Some(ty) => self.operate(primitive, ty),
            None => self.operate(primitive, &MTy::Unit),
        }
    }

    // Equality of the two parts of the argument.
    fn compare_parts(&mut self, ty: &MTy, equal: bool) -> Result<(), NoMemory> {
        let argument = Seen::local(0);
        match compared_of(ty) {
            Some(ty) => self.equal(ty, argument.part(0), argument.part(1), equal),
            None => self.writer.emit(Instr::Const(0)),
        }
    }
}
