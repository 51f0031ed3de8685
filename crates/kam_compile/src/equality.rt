// Equality, by types: words and texts by an instruction, a tuple of few parts that isn't part of another
// one by its parts, and all else by functions.
use crate::compiler::Compiler;
use crate::stub::Stub;
use code_parts::{Seen, compared_type, erased, instance, sum};
use kam_code::Instr;
use region_syntax::{MTy, RTy};
use sml_syntax::NoMemory;

/// A tuple of more parts is compared by a function.
const FEW: usize = 4;

impl Compiler {
    /// Whether two values are equal, or unequal, which lie on the stack, in their pair where that was made.
    pub(crate) fn compare(
        &mut self,
        ty: &RTy,
        depth: u64,
        is_spread: bool,
        equal: bool,
    ) -> Result<(), NoMemory> {
        let ty = match compared_type(ty) {
            Some(ty) => erased(self.alloc, ty)?,
            None => MTy::Unit,
        };
        if !is_spread {
            let pair = Seen::local(depth);
            self.equal(&ty, pair.part(0), pair.part(1), equal)?;
            return self.writer.slide(1);
        }
        if self.is_word(&ty) {
            self.writer.emit(Instr::Same)?;
            if !equal {
                self.writer.emit(Instr::Const(0))?;
                self.writer.emit(Instr::Same)?;
            }
            return Ok(());
        }
        let second = Seen::local(sum(depth, 1)?);
        self.equal(&ty, Seen::local(depth), second, equal)?;
        self.writer.slide(2)
    }

    /// Whether two values are equal, or unequal, is pushed.
    pub(crate) fn equal(
        &mut self,
        ty: &MTy,
        a: Seen,
        b: Seen,
        equal: bool,
    ) -> Result<(), NoMemory> {
        let mut differing = Vec::new(self.alloc);
        self.opened_test(ty, a, b, None, &mut differing)?;
        self.writer.emit(Instr::Const(i64::from(equal)))?;
        let end = self.writer.jump(Instr::Jump(0))?;
        self.writer.land_all(differing.as_slice())?;
        self.writer.emit(Instr::Const(i64::from(!equal)))?;
        self.writer.land(end)
    }

    // Goes on where two values are equal, and by the jumps elsewhere; `own` is the type of the function of
    // equality at hand. A tuple of few parts is opened.
    fn opened_test(
        &mut self,
        ty: &MTy,
        a: Seen,
        b: Seen,
        own: Option<&MTy>,
        differing: &mut Vec<usize>,
    ) -> Result<(), NoMemory> {
        match ty {
            MTy::Tuple(parts) if parts.as_slice().len() <= FEW => {
                self.part_tests(parts.as_slice(), a, b, own, differing)
            }
            _ => self.test(ty, a, b, own, differing),
        }
    }

    fn part_tests(
        &mut self,
        parts: &[MTy],
        a: Seen,
        b: Seen,
        own: Option<&MTy>,
        differing: &mut Vec<usize>,
    ) -> Result<(), NoMemory> {
        let mut field = 0;
        for part in parts {
            self.test(part, a.part(field), b.part(field), own, differing)?;
            field = sum(field, 1)?;
        }
        Ok(())
    }

    fn test(
        &mut self,
        ty: &MTy,
        a: Seen,
        b: Seen,
        own: Option<&MTy>,
        differing: &mut Vec<usize>,
    ) -> Result<(), NoMemory> {
        if self.is_word(ty) {
            self.both(a, b, Instr::Same)?;
        } else if matches!(ty, MTy::Str) {
            self.both(a, b, Instr::TextCompare)?;
        } else if own == Some(ty) {
            self.writer.emit(Instr::SelfPointer)?;
            self.both(a, b, Instr::Call(2))?;
        } else {
            self.equality_closure(ty)?;
            self.both(a, b, Instr::Call(2))?;
            self.writer.emit(Instr::RegionEnd)?;
        }
        differing.push(self.writer.jump(Instr::JumpNot(0, 1))?)?;
        Ok(())
    }

    fn both(&mut self, a: Seen, b: Seen, instr: Instr) -> Result<(), NoMemory> {
        self.writer.access(a)?;
        self.writer.access(b)?;
        self.writer.emit(instr)
    }

    // The closure of a function of equality, made for one use in a region of its own.
    fn equality_closure(&mut self, ty: &MTy) -> Result<(), NoMemory> {
        let stub = self.stub(Stub::Equality(ty.try_copy(self.alloc)?))?;
        self.writer.emit(Instr::RegionNew)?;
        self.writer.stub_address(stub)?;
        self.writer.emit(Instr::Pick(1))?;
        self.writer.emit(Instr::Alloc(1))
    }

    /// The code of the function of equality at a type, on its two arguments.
    pub(crate) fn equality_code(&mut self, ty: &MTy) -> Result<(), NoMemory> {
        let mut differing = Vec::new(self.alloc);
        match ty {
            MTy::Tuple(parts) => {
                let (a, b) = (Seen::local(0), Seen::local(1));
                self.part_tests(parts.as_slice(), a, b, Some(ty), &mut differing)?;
                self.answer(1)?;
            }
            MTy::DataTy(number, args) => {
                if self.shape(*number).constants > 0 {
                    self.constants_test(&mut differing)?;
                }
                self.maker_tests(ty, *number, args.as_slice(), &mut differing)?;
            }
            _ => {}
        }
        self.writer.land_all(differing.as_slice())?;
        self.answer(0)
    }

    fn answer(&mut self, known: i64) -> Result<(), NoMemory> {
        self.writer.emit(Instr::Const(known))?;
        self.writer.emit(Instr::Return)
    }

    // A constructor without argument is equal to the same word alone.
    fn constants_test(&mut self, differing: &mut Vec<usize>) -> Result<(), NoMemory> {
        let (a, b) = (Seen::local(0), Seen::local(1));
        self.writer.access(a)?;
        self.writer.emit(Instr::Boxed)?;
        let boxed = self.writer.jump(Instr::JumpIf(0))?;
        self.both(a, b, Instr::Same)?;
        self.writer.emit(Instr::Return)?;
        self.writer.land(boxed)?;
        self.writer.access(b)?;
        self.writer.emit(Instr::Boxed)?;
        differing.push(self.writer.jump(Instr::JumpNot(0, 1))?)?;
        Ok(())
    }

    // The constructors with an argument, one after the other.
    fn maker_tests(
        &mut self,
        ty: &MTy,
        number: u32,
        args: &[MTy],
        differing: &mut Vec<usize>,
    ) -> Result<(), NoMemory> {
        let many = self.shape(number).makers > 1;
        let arguments = self.maker_arguments(number, args)?;
        for (index, argument) in &arguments {
            let following = match many {
                true => Some(self.index_tests(*index, differing)?),
                false => None,
            };
            let (a, b) = (Seen::local(0).part(1), Seen::local(1).part(1));
            self.opened_test(argument, a, b, Some(ty), differing)?;
            self.answer(1)?;
            if let Some(jump) = following {
                self.writer.land(jump)?;
            }
        }
        Ok(())
    }

    // The arguments of a datatype's constructors, each with the constructor's index.
    fn maker_arguments(&mut self, number: u32, args: &[MTy]) -> Result<Vec<(u32, MTy)>, NoMemory> {
        let mut arguments = Vec::new(self.alloc);
        let Some(datatype) = self.datatypes.as_slice().get(number as usize) else {
            return Ok(arguments);
        };
        let mut index = 0;
        for (_, argument) in datatype.cons.as_slice() {
            if let Some(argument) = argument {
                arguments.push((index, instance(self.alloc, argument, args)?))?;
            }
            index = u32::saturating_add(index, 1);
        }
        Ok(arguments)
    }

    // Whether both values are made by the constructor of an index. The answer is the jump where the first
    // one isn't.
    fn index_tests(&mut self, index: u32, differing: &mut Vec<usize>) -> Result<usize, NoMemory> {
        self.writer.access(Seen::local(0).part(0))?;
        let following = self.writer.jump(Instr::JumpNot(0, i64::from(index)))?;
        self.writer.access(Seen::local(1).part(0))?;
        let other = self.writer.jump(Instr::JumpNot(0, i64::from(index)))?;
        differing.push(other)?;
        Ok(following)
    }
}
