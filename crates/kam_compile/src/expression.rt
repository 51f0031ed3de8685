// Expressions.
use crate::compiler::Compiler;
use code_parts::{Location, sum, type_region};
use kam_code::Instr;
use region_syntax::{Place, RExp, RExpForm, RPiece};
use sml_syntax::{NoMemory, Text};

impl Compiler {
    /// An expression, with so many words in the frame before it.
    #[cycle(terms)]
    pub(crate) fn exp(&mut self, e: &RExp, depth: u64, tail: bool) -> Result<(), NoMemory> {
        match &e.form {
            RExpForm::Seq(steps) => self.sequence(steps.as_slice(), depth, tail),
            RExpForm::Let(decs, body) => {
                let outer = self.scope.depth();
                let inner = self.decs(decs.as_slice(), depth)?;
                self.sequence(body.as_slice(), inner, tail)?;
                self.scope.leave(outer);
                self.end_scope(depth, inner, tail)
            }
            RExpForm::Fix(group, body) => {
                let outer = self.scope.depth();
                let inner = self.group(group.as_slice(), depth)?;
                self.exp(body.get(), inner, tail)?;
                self.scope.leave(outer);
                self.end_scope(depth, inner, tail)
            }
            RExpForm::Case(_, _) => self.case(e, depth, tail),
            RExpForm::Handle(_, _) => self.handle(e, depth, tail),
            RExpForm::If(_, _, _) => self.choice(e, depth, tail),
            RExpForm::Both(left, right) => {
                self.exp(left.get(), depth, false)?;
                let other = self.writer.jump(Instr::JumpNot(0, 1))?;
                self.exp(right.get(), depth, tail)?;
                self.known_otherwise(other, 0, tail)
            }
            RExpForm::Either(left, right) => {
                self.exp(left.get(), depth, false)?;
                let other = self.writer.jump(Instr::JumpIf(0))?;
                self.exp(right.get(), depth, tail)?;
                self.known_otherwise(other, 1, tail)
            }
            RExpForm::LetRegion(regions, body) => {
                let outer = self.scope.depth();
                let made = self.begin_regions(regions.as_slice(), depth)?;
                self.exp(body.get(), sum(depth, made)?, tail && made == 0)?;
                self.scope.leave(outer);
                self.end_regions(made, tail)
            }
            _ => {
                self.word(e, depth)?;
                self.writer.return_if(tail)
            }
        }
    }

    // A form that leaves its word in tail positions too.
    #[cycle(terms)]
    fn word(&mut self, e: &RExp, depth: u64) -> Result<(), NoMemory> {
        match &e.form {
            RExpForm::Int(n) => self.writer.emit(Instr::Const(*n)),
            RExpForm::Char(c) => self.writer.emit(Instr::Const(i64::from(*c))),
            RExpForm::Str(text, at) => self.text(text, *at),
            RExpForm::Name(name) => self.name(name),
            RExpForm::Prim(name) => self.primitive_value(name, &e.ty),
            RExpForm::Con(con) => self.constructor_value(*con, &e.ty),
            RExpForm::Tuple(parts, at) => {
                let parts = parts.as_slice();
                self.parts(parts, depth)?;
                self.place(*at)?;
                self.writer.emit(Instr::Alloc(parts.len() as u64))
            }
            RExpForm::List(items, at) => {
                let items = items.as_slice();
                self.items(items, depth)?;
                self.cells(items.len(), *at)
            }
            RExpForm::Quote(pieces, at) => {
                let pieces = pieces.as_slice();
                self.pieces(pieces, *at, depth)?;
                self.cells(pieces.len(), *at)
            }
            RExpForm::App(_, _) => self.application(e, depth),
            RExpForm::Fn(rules, at) => self.function_value(rules.as_slice(), *at),
            RExpForm::Raise(packet) => {
                self.exp(packet.get(), depth, false)?;
                self.writer.emit(Instr::Raise)
            }
            RExpForm::Inst(name, places, _) => {
                self.instance(name, places.as_slice(), type_region(&e.ty))
            }
            _ => self.writer.emit(Instr::Const(0)),
        }
    }

    /// Expressions, each of which leaves its word.
    #[cycle(terms)]
    pub(crate) fn parts(&mut self, es: &[RExp], depth: u64) -> Result<(), NoMemory> {
        let mut depth = depth;
        for e in es {
            self.exp(e, depth, false)?;
            depth = sum(depth, 1)?;
        }
        Ok(())
    }

    // The items of a list, each behind the index of `::`.
    #[cycle(terms)]
    fn items(&mut self, es: &[RExp], depth: u64) -> Result<(), NoMemory> {
        let mut depth = depth;
        for e in es {
            self.writer.emit(Instr::Const(1))?;
            self.exp(e, sum(depth, 1)?, false)?;
            depth = sum(depth, 2)?;
        }
        Ok(())
    }

    // The pieces of a quotation, each behind the index of `::`.
    #[cycle(terms)]
    fn pieces(&mut self, pieces: &[RPiece], at: Place, depth: u64) -> Result<(), NoMemory> {
        let mut depth = depth;
        for piece in pieces {
            self.writer.emit(Instr::Const(1))?;
            match piece {
                RPiece::Plain(text) => {
                    self.writer.emit(Instr::Const(0))?;
                    self.text(text, at)?;
                }
                RPiece::Anti(e) => {
                    self.writer.emit(Instr::Const(1))?;
                    self.exp(e, sum(depth, 2)?, false)?;
                }
            }
            self.place(at)?;
            self.writer.emit(Instr::Alloc(2))?;
            depth = sum(depth, 2)?;
        }
        Ok(())
    }

    // Expressions of which the last one's word stays.
    #[cycle(terms)]
    fn sequence(&mut self, es: &[RExp], depth: u64, tail: bool) -> Result<(), NoMemory> {
        let mut left = es.len();
        for e in es {
            left = left.saturating_sub(1);
            self.exp(e, depth, tail && left == 0)?;
            if left > 0 {
                self.writer.emit(Instr::Pop(1))?;
            }
        }
        Ok(())
    }

    // `if`
    #[cycle(terms)]
    fn choice(&mut self, e: &RExp, depth: u64, tail: bool) -> Result<(), NoMemory> {
        let RExpForm::If(test, yes, no) = &e.form else {
            return Ok(());
        };
        let mut others = Vec::new(self.alloc);
        self.condition(test.get(), depth, &mut others)?;
        self.exp(yes.get(), depth, tail)?;
        let end = self.jump_unless(tail)?;
        self.writer.land_all(others.as_slice())?;
        self.exp(no.get(), depth, tail)?;
        self.writer.land_all(end.as_slice())
    }

    // A test: goes on where it is true, and by the jumps elsewhere.
    #[cycle(terms)]
    fn condition(&mut self, e: &RExp, depth: u64, others: &mut Vec<usize>) -> Result<(), NoMemory> {
        match &e.form {
            RExpForm::Both(left, right) => {
                self.condition(left.get(), depth, others)?;
                self.condition(right.get(), depth, others)
            }
            RExpForm::Either(left, right) => {
                self.exp(left.get(), depth, false)?;
                let yes = self.writer.jump(Instr::JumpIf(0))?;
                self.condition(right.get(), depth, others)?;
                self.writer.land(yes)
            }
            _ => {
                self.exp(e, depth, false)?;
                others.push(self.writer.jump(Instr::JumpNot(0, 1))?)?;
                Ok(())
            }
        }
    }

    // ---- what needs no expression

    // A jump to the end, which a tail position hasn't.
    fn jump_unless(&mut self, tail: bool) -> Result<Vec<usize>, NoMemory> {
        let mut jumps = Vec::new(self.alloc);
        if !tail {
            jumps.push(self.writer.jump(Instr::Jump(0))?)?;
        }
        Ok(jumps)
    }

    // The end of `andalso` and `orelse`: what is known where the first part decides.
    fn known_otherwise(&mut self, other: usize, known: i64, tail: bool) -> Result<(), NoMemory> {
        let end = self.jump_unless(tail)?;
        self.writer.land(other)?;
        self.writer.emit(Instr::Const(known))?;
        self.writer.return_if(tail)?;
        self.writer.land_all(end.as_slice())
    }

    fn text(&mut self, text: &Text, at: Place) -> Result<(), NoMemory> {
        self.place(at)?;
        self.writer.text(text)
    }

    // So many cells of an index and an item each, which lie on the stack.
    fn cells(&mut self, count: usize, at: Place) -> Result<(), NoMemory> {
        self.writer.emit(Instr::Const(0))?;
        for _ in 0..count {
            self.place(at)?;
            self.writer.emit(Instr::Alloc(2))?;
            self.place(at)?;
            self.writer.emit(Instr::Alloc(2))?;
        }
        Ok(())
    }

    fn end_scope(&mut self, outer: u64, inner: u64, tail: bool) -> Result<(), NoMemory> {
        match tail {
            true => Ok(()),
            false => self.writer.slide(inner.saturating_sub(outer)),
        }
    }

    // Begins those of the regions that code uses, and answers how many these are.
    fn begin_regions(&mut self, regions: &[u32], depth: u64) -> Result<u64, NoMemory> {
        let mut made = 0;
        for region in regions {
            if self.uses.is_used(*region) {
                let location = Location::Frame(sum(depth, made)?);
                self.writer.emit(Instr::RegionNew)?;
                self.scope.bind_region(*region, location)?;
                made = sum(made, 1)?;
            }
        }
        Ok(made)
    }

    fn end_regions(&mut self, made: u64, tail: bool) -> Result<(), NoMemory> {
        for _ in 0..made {
            self.writer.emit(Instr::RegionEnd)?;
        }
        self.writer.return_if(tail && made > 0)
    }
}
