// Patterns, from left to right.
use crate::compiler::Compiler;
use code_parts::{Location, Seen, sum, type_region};
use kam_code::Instr;
use region_syntax::{Constructor, RPat, RPatForm};
use sml_syntax::{NoMemory, Text};
use std::alloc::Global;

/// A jump of a pattern that doesn't fit, and how many words the frame has there.
#[derive(Clone, Copy)]
pub(crate) struct Failing {
    pub(crate) depth: u64,
    pub(crate) jump: usize,
}

/// What a pattern binds, and the jumps where it doesn't fit, in the order in which the frame grows.
#[derive(Drop)]
pub(crate) struct Matched {
    pub(crate) names: Vec<(u32, Location)>,
    pub(crate) failing: Vec<Failing>,
}

impl Matched {
    pub(crate) fn new(alloc: Global) -> Matched {
        Matched {
            names: Vec::new(alloc),
            failing: Vec::new(alloc),
        }
    }
}

impl Compiler {
    /// The code of a pattern on a value. A part is read where it lies; one with several parts, and one that
    /// a name stands for, is pushed. The answer is the number of words in the frame behind it.
    #[cycle(patterns)]
    pub(crate) fn pattern(
        &mut self,
        pat: &RPat,
        seen: Seen,
        depth: u64,
        matched: &mut Matched,
    ) -> Result<u64, NoMemory> {
        match &pat.form {
            RPatForm::Any | RPatForm::Unit => Ok(depth),
            RPatForm::Int(n) => self.constant(seen, *n, depth, matched),
            RPatForm::Char(c) => self.constant(seen, i64::from(*c), depth, matched),
            RPatForm::Str(text) => self.text_pattern(pat, text, seen, depth, matched),
            RPatForm::Con(con) => self.constructor_pattern(*con, seen, depth, matched),
            RPatForm::Name(name) => {
                let (location, depth) = self.whole(seen, depth)?;
                let number = self.uses.number(name)?;
                matched.names.push((number, location))?;
                Ok(depth)
            }
            RPatForm::Tuple(parts) => {
                let parts = parts.as_slice();
                if !seen.is_deep() && many_matter(parts) == 1 {
                    return self.only_part(parts, seen, depth, matched);
                }
                let (location, depth) = self.whole(seen, depth)?;
                self.part_patterns(parts, location, depth, matched)
            }
            RPatForm::List(items) => {
                let (location, depth) = self.whole(seen, depth)?;
                self.item_patterns(items.as_slice(), location, depth, matched)
            }
            RPatForm::App(con, argument) => {
                let (location, depth) = self.whole(seen, depth)?;
                self.constructor_tests(*con, location, depth, matched)?;
                let part = Seen::at(location).part(argument_field(*con));
                self.pattern(argument.get(), part, depth, matched)
            }
        }
    }

    // The pattern of the first part that matters.
    #[cycle(patterns)]
    fn only_part(
        &mut self,
        parts: &[RPat],
        seen: Seen,
        depth: u64,
        matched: &mut Matched,
    ) -> Result<u64, NoMemory> {
        let mut field = 0;
        for part in parts {
            if matters(part) {
                return self.pattern(part, seen.part(field), depth, matched);
            }
            field = sum(field, 1)?;
        }
        Ok(depth)
    }

    // The patterns of a tuple's parts.
    #[cycle(patterns)]
    fn part_patterns(
        &mut self,
        parts: &[RPat],
        location: Location,
        depth: u64,
        matched: &mut Matched,
    ) -> Result<u64, NoMemory> {
        let mut depth = depth;
        let mut field = 0;
        for part in parts {
            depth = self.pattern(part, Seen::at(location).part(field), depth, matched)?;
            field = sum(field, 1)?;
        }
        Ok(depth)
    }

    // The patterns of a list's items. Each cell but the last is pushed.
    #[cycle(patterns)]
    fn item_patterns(
        &mut self,
        items: &[RPat],
        location: Location,
        depth: u64,
        matched: &mut Matched,
    ) -> Result<u64, NoMemory> {
        let mut depth = depth;
        let mut rest = Seen::at(location);
        for item in items {
            self.boxed_test(rest, depth, matched)?;
            self.writer.access(rest)?;
            self.writer.emit(Instr::Field(1))?;
            let cell = Seen::local(depth);
            rest = cell.part(1);
            depth = self.pattern(item, cell.part(0), sum(depth, 1)?, matched)?;
        }
        self.constant(rest, 0, depth, matched)
    }

    // Pushes a part unless it is the value itself, and answers where it lies, and the words in the frame.
    fn whole(&mut self, seen: Seen, depth: u64) -> Result<(Location, u64), NoMemory> {
        if seen.is_whole() {
            return Ok((seen.location, depth));
        }
        self.writer.access(seen)?;
        Ok((Location::Frame(depth), sum(depth, 1)?))
    }

    // Where the word on top isn't k, the pattern doesn't fit.
    fn fail_unless(&mut self, k: i64, depth: u64, matched: &mut Matched) -> Result<(), NoMemory> {
        let jump = self.writer.jump(Instr::JumpNot(0, k))?;
        matched.failing.push(Failing { depth, jump })?;
        Ok(())
    }

    fn constant(
        &mut self,
        seen: Seen,
        k: i64,
        depth: u64,
        matched: &mut Matched,
    ) -> Result<u64, NoMemory> {
        self.writer.access(seen)?;
        self.fail_unless(k, depth, matched)?;
        Ok(depth)
    }

    fn boxed_test(
        &mut self,
        seen: Seen,
        depth: u64,
        matched: &mut Matched,
    ) -> Result<(), NoMemory> {
        self.writer.access(seen)?;
        self.writer.emit(Instr::Boxed)?;
        self.fail_unless(1, depth, matched)
    }

    fn text_pattern(
        &mut self,
        pat: &RPat,
        text: &Text,
        seen: Seen,
        depth: u64,
        matched: &mut Matched,
    ) -> Result<u64, NoMemory> {
        self.writer.access(seen)?;
        self.region(type_region(&pat.ty))?;
        self.writer.text(text)?;
        self.writer.emit(Instr::TextCompare)?;
        self.fail_unless(1, depth, matched)?;
        Ok(depth)
    }

    // A constructor without argument. The one constructor of a datatype needs no test.
    fn constructor_pattern(
        &mut self,
        con: Constructor,
        seen: Seen,
        depth: u64,
        matched: &mut Matched,
    ) -> Result<u64, NoMemory> {
        match con {
            Constructor::Data(datatype, index) => {
                let shape = self.shape(datatype);
                if shape.constants.saturating_add(shape.makers) == 1 {
                    return Ok(depth);
                }
                self.constant(seen, i64::from(index), depth, matched)
            }
            Constructor::Exn(number) => {
                self.writer.access(seen)?;
                self.writer.emit(Instr::Field(0))?;
                self.fail_unless(i64::from(number), depth, matched)?;
                Ok(depth)
            }
            Constructor::Ref => Ok(depth),
        }
    }

    // Whether a value is made by a constructor with an argument.
    fn constructor_tests(
        &mut self,
        con: Constructor,
        location: Location,
        depth: u64,
        matched: &mut Matched,
    ) -> Result<(), NoMemory> {
        match con {
            Constructor::Data(datatype, index) => {
                let shape = self.shape(datatype);
                if shape.constants > 0 {
                    self.boxed_test(Seen::at(location), depth, matched)?;
                }
                if shape.makers > 1 {
                    self.index_test(index, location, depth, matched)?;
                }
                Ok(())
            }
            Constructor::Exn(number) => self.index_test(number, location, depth, matched),
            Constructor::Ref => Ok(()),
        }
    }

    fn index_test(
        &mut self,
        index: u32,
        location: Location,
        depth: u64,
        matched: &mut Matched,
    ) -> Result<(), NoMemory> {
        self.writer.access(Seen::at(location).part(0))?;
        self.fail_unless(i64::from(index), depth, matched)
    }

    /// What patterns bind stands for what was found.
    pub(crate) fn bind_matched(&mut self, matched: &Matched) -> Result<(), NoMemory> {
        for (name, location) in &matched.names {
            self.scope.bind_word(*name, *location)?;
        }
        Ok(())
    }
}

// Where the argument of a constructor lies in a value.
fn argument_field(con: Constructor) -> u64 {
    match con {
        Constructor::Ref => 0,
        _ => 1,
    }
}

// How many parts matter.
fn many_matter(parts: &[RPat]) -> u64 {
    let mut many: u64 = 0;
    for part in parts {
        if matters(part) {
            many = many.saturating_add(1);
        }
    }
    many
}

fn matters(pat: &RPat) -> bool {
    !matches!(&pat.form, RPatForm::Any | RPatForm::Unit)
}
