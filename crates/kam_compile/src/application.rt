// Applications, and constructors and primitives as values.
use crate::compiler::Compiler;
use crate::stub::Stub;
use code_parts::{
    Action, Location, Primitive, cache_types, description, erased, result_type, sum, type_region,
};
use kam_code::Instr;
use region_syntax::{Constructor, MTy, RExp, RExpForm, RTy};
use sml_syntax::{NoMemory, Text};

impl Compiler {
    #[cycle(terms)]
    pub(crate) fn application(&mut self, e: &RExp, depth: u64) -> Result<(), NoMemory> {
        let RExpForm::App(f, argument) = &e.form else {
            return Ok(());
        };
        let (f, argument) = (f.get(), argument.get());
        match &f.form {
            RExpForm::Inst(name, places, _) => {
                self.name(name)?;
                self.exp(argument, sum(depth, 1)?, false)?;
                let passed = self.passed(name, places.as_slice())?;
                self.writer.emit(Instr::Call(sum(passed, 1)?))
            }
            RExpForm::Con(con) => {
                let pushed = self.constructor_index(*con)?;
                self.exp(argument, sum(depth, pushed)?, false)?;
                self.region(type_region(&e.ty))?;
                self.writer.emit(Instr::Alloc(sum(pushed, 1)?))
            }
            RExpForm::Prim(name) => {
                let primitive = Primitive::named(name.as_bytes());
                let pushed = self.begin_stage(name, primitive, &f.ty)?;
                match &argument.form {
                    RExpForm::Tuple(parts, _) if primitive.takes_tuple() => {
                        self.parts(parts.as_slice(), depth)?;
                        self.operate_on(primitive, &f.ty, depth, true)
                    }
                    _ => {
                        self.exp(argument, sum(depth, pushed)?, false)?;
                        self.operate_on(primitive, &f.ty, depth, false)
                    }
                }
            }
            _ => {
                self.exp(f, depth, false)?;
                self.exp(argument, sum(depth, 1)?, false)?;
                self.writer.emit(Instr::Call(1))
            }
        }
    }

    // ---- constructors

    // What comes before the argument in a value: the constructor's index, which a reference hasn't. The
    // answer is the number of words.
    pub(crate) fn constructor_index(&mut self, con: Constructor) -> Result<u64, NoMemory> {
        match con {
            Constructor::Data(_, index) => self.writer.number(index)?,
            Constructor::Exn(number) => self.writer.number(number)?,
            Constructor::Ref => return Ok(0),
        }
        Ok(1)
    }

    /// A constructor that isn't applied.
    pub(crate) fn constructor_value(&mut self, con: Constructor, ty: &RTy) -> Result<(), NoMemory> {
        if let Some(made) = result_type(ty) {
            let stub = self.stub(Stub::Constructor(con))?;
            self.writer.stub_address(stub)?;
            self.region(type_region(made))?;
            self.region(type_region(ty))?;
            return self.writer.emit(Instr::Alloc(2));
        }
        match con {
            Constructor::Data(_, index) => self.writer.number(index),
            Constructor::Exn(number) => {
                self.writer.number(number)?;
                self.writer.emit(Instr::Const(0))?;
                self.writer.emit(Instr::Const(1))?;
                self.writer.emit(Instr::Alloc(2))
            }
            Constructor::Ref => self.writer.emit(Instr::Const(0)),
        }
    }

    // ---- primitives

    /// A primitive that isn't applied.
    pub(crate) fn primitive_value(&mut self, name: &Text, ty: &RTy) -> Result<(), NoMemory> {
        let primitive = Primitive::named(name.as_bytes());
        if primitive.is_constant() {
            return self.writer.emit(Instr::Const(0));
        }
        let places = primitive.places(self.alloc, ty)?;
        let stub = self.primitive_stub(name, primitive, ty, 0)?;
        self.writer.stub_address(stub)?;
        for place in &places {
            self.region(*place)?;
        }
        self.region(type_region(ty))?;
        self.writer.emit(Instr::Alloc(sum(places.len() as u64, 1)?))
    }

    // The code of a primitive's closure with so many arguments.
    fn primitive_stub(
        &mut self,
        name: &Text,
        primitive: Primitive,
        ty: &RTy,
        have: u64,
    ) -> Result<u32, NoMemory> {
        let ty = match primitive.is_typed(name.as_bytes()) {
            true => Some(erased(self.alloc, ty)?),
            false => None,
        };
        let name = name.try_copy(self.alloc)?;
        self.stub(Stub::Primitive(name, have, ty))
    }

    // Of a primitive that takes its arguments one after the other, what comes before the first one in the
    // closure that holds it: the code and the places to come. The answer is the number of words.
    fn begin_stage(
        &mut self,
        name: &Text,
        primitive: Primitive,
        ty: &RTy,
    ) -> Result<u64, NoMemory> {
        if primitive.stages < 2 {
            return Ok(0);
        }
        let stub = self.primitive_stub(name, primitive, ty, 1)?;
        self.writer.stub_address(stub)?;
        let places = primitive.places(self.alloc, ty)?;
        let mut pushed = 1;
        for place in places.as_slice().iter().skip(1) {
            self.region(*place)?;
            pushed = sum(pushed, 1)?;
        }
        Ok(pushed)
    }

    // A primitive on its argument, which lies on the stack, in its parts where these were written out.
    fn operate_on(
        &mut self,
        primitive: Primitive,
        ty: &RTy,
        depth: u64,
        is_spread: bool,
    ) -> Result<(), NoMemory> {
        let region = match result_type(ty) {
            Some(made) => type_region(made),
            None => None,
        };
        if primitive.stages > 1 {
            return self.end_stage(primitive, ty, region);
        }
        if let Action::Compare(equal) = primitive.action {
            return self.compare(ty, depth, is_spread, equal);
        }
        let taken = primitive.takes_tuple() && !is_spread;
        if taken {
            self.fields(Location::Frame(depth), primitive.arguments)?;
        }
        if primitive.makes {
            self.region(region)?;
        }
        let erased = erased(self.alloc, ty)?;
        self.operate(primitive, &erased)?;
        match taken {
            true => self.writer.slide(1),
            false => Ok(()),
        }
    }

    // The closure that holds the first argument.
    fn end_stage(
        &mut self,
        primitive: Primitive,
        ty: &RTy,
        region: Option<u32>,
    ) -> Result<(), NoMemory> {
        let places = primitive.places(self.alloc, ty)?;
        self.region(region)?;
        self.writer.emit(Instr::Alloc(sum(places.len() as u64, 1)?))
    }

    /// The instructions of a primitive whose arguments, and place, lie on the stack.
    pub(crate) fn operate(&mut self, primitive: Primitive, ty: &MTy) -> Result<(), NoMemory> {
        match primitive.action {
            Action::Keep | Action::Compare(_) | Action::Describe => {}
            Action::Do(instr) => self.writer.emit(instr)?,
            Action::CacheMake => {
                self.writer.emit(Instr::CacheMake)?;
                self.writer.emit(Instr::Slide(2))?;
            }
            Action::CacheLook => {
                let (key, value) = self.cache_descriptions(ty)?;
                self.writer.emit(Instr::CacheLook(key, value))?;
            }
            Action::CachePut => {
                let (key, value) = self.cache_descriptions(ty)?;
                self.writer.emit(Instr::CachePut(key, value))?;
            }
            Action::CacheFlush => {
                let (key, value) = self.cache_descriptions(ty)?;
                self.writer.emit(Instr::CacheFlush(key, value))?;
            }
        }
        match primitive.leaves_none {
            true => self.writer.emit(Instr::Const(0)),
            false => Ok(()),
        }
    }

    fn cache_descriptions(&mut self, ty: &MTy) -> Result<(u32, u32), NoMemory> {
        let (key, value) = match cache_types(ty) {
            Some((key, value)) => (
                description(self.alloc, key)?,
                description(self.alloc, value)?,
            ),
            None => (
                description(self.alloc, &MTy::Unit)?,
                description(self.alloc, &MTy::Unit)?,
            ),
        };
        let key = self.writer.desc(key)?;
        Ok((key, self.writer.desc(value)?))
    }
}
