// Runs: steps up to the next stop.
ghost use Rattle.std.specs.Prelude.{◌≡◌, ◌+◌, ◌≤◌, ◌<◌, OnOk, IfOk, IsNone, vec_len};

use crate::phase::Phase;
use crate::raises::{DIV, OVERFLOW, taken_by};
use crate::{Machine, Stop};
use kam_code::Instr;
use kam_rows::{Ended, Row, STACK_LIMIT, make_turns};
use kam_store::RegionStore;
use sml_syntax::{NoMemory, Text};
use web_data::{WebAns, WebCall};

// How many slots a stack begins with.
const FIRST_SLOTS: usize = 256;

// The content type of a page that sets none.
const HTML: &[u8] = b"text/html; charset=utf-8";

impl<'a, R: RegionStore> Machine<'a, R> {
    /// Makes steps up to the next stop. A machine that waits at a call gives that call again, and one that stopped
    /// otherwise answers the same again, unless memory is wanting for it.
    pub fn run(&mut self) -> Stop {
        if let Phase::Stopped(ended) = self.phase {
            return self.stop(ended);
        }
        match self.steps() {
            Ok(call) => {
                self.phase = Phase::Waiting;
                Stop::Call(call)
            }
            Err(ended) => self.stop(ended),
        }
    }

    /// The step of the call that waits, with its answer, and the steps up to the next stop. A machine that waits at no
    /// call does what `run` does, and an answer that doesn't fit the call has no step.
    pub fn resume(&mut self, answer: &WebAns) -> Stop {
        if let Phase::Waiting = self.phase {
            self.phase = Phase::Going;
            if let Err(ended) = self.answer(answer) {
                return self.stop(ended);
            }
        }
        self.run()
    }

    // The machine stops for good.
    fn stop(&mut self, ended: Ended) -> Stop {
        match self.told(ended) {
            Ok(stop) => {
                self.phase = Phase::Stopped(ended);
                stop
            }
            Err(NoMemory) => {
                self.phase = Phase::Stopped(Ended::NoMemory);
                Stop::NoMemory
            }
        }
    }

    // The stop of an end.
    fn told(&self, ended: Ended) -> Result<Stop, NoMemory> {
        match ended {
            Ended::Finished => self.finished(),
            Ended::Raised(number) => match self.code.names.as_slice().get(number as usize) {
                Some(name) => Ok(Stop::Raised(name.try_copy(self.alloc)?)),
                None => Ok(Stop::Stuck),
            },
            Ended::BadStatement(place) => Ok(Stop::BadStatement(place)),
            Ended::NoPage => Ok(Stop::NoPage),
            Ended::Budget => Ok(Stop::Budget),
            Ended::StackFull => Ok(Stop::StackFull),
            Ended::ReplyFull => Ok(Stop::ReplyFull),
            Ended::NoMemory => Ok(Stop::NoMemory),
            Ended::Stuck => Ok(Stop::Stuck),
        }
    }

    // The page.
    fn finished(&self) -> Result<Stop, NoMemory> {
        let content_type = match &self.page.content_type {
            Some(text) => text.try_copy(self.alloc)?,
            None => Text::from_bytes(self.alloc, HTML)?,
        };
        let body = Text::from_bytes(self.alloc, self.page.body.as_slice())?;
        Ok(Stop::Finished(self.page.status, content_type, body))
    }

    // The step of the call that waits.
    fn answer(&mut self, answer: &WebAns) -> Result<(), Ended> {
        if self.registers.left == 0 {
            return Err(Ended::Budget);
        }
        let instr = self.instr()?;
        self.answered(instr, answer)
    }

    // The instruction at the address.
    fn instr(&self) -> Result<Instr, Ended> {
        match self.code.instrs.as_slice().get(self.registers.address) {
            Some(instr) => Ok(*instr),
            None => Err(Ended::Stuck),
        }
    }

    // Makes steps up to the next call.
    fn steps(&mut self) -> Result<WebCall, Ended> {
        'round: loop {
            match self.turn() {
                Row::Full => self.grow()?,
                row => {
                    let call = self.beyond(row)?;
                    if let Some(call) = call {
                        return Ok(call);
                    }
                }
            }
        }
    }

    // Makes the steps of the loop.
    fn turn(&mut self) -> Row
        ensures left { self.new.registers.left ≤ self.old.registers.left }
        ensures slots { vec_len self.new.stack ≡ vec_len self.old.stack }
    {
        make_turns(
            self.code.instrs.as_slice(),
            &mut self.registers,
            self.stack.as_mut_slice(),
            &mut self.frames,
            &mut self.store,
        )
    }

    // More slots for the stack.
    fn grow(&mut self) -> Result<(), Ended>
        ensures left { self.new.registers.left ≡ self.old.registers.left }
        ensures slots { OnOk result (vec_len self.old.stack < vec_len self.new.stack) }
        ensures most { OnOk result (vec_len self.new.stack ≤ 4194304) }
    {
        let before = self.stack.len();
        if before >= STACK_LIMIT {
            return Err(Ended::StackFull);
        }
        let slots = before.saturating_mul(2).max(FIRST_SLOTS).min(STACK_LIMIT);
        self.stack.resize(slots, 0)?;
        Ok(())
    }

    // What the loop stopped at: an instruction that isn't made in it, an exception, or an end.
    fn beyond(&mut self, row: Row) -> Result<Option<WebCall>, Ended>
        ensures left { IfOk result (λ made. IsNone made → self.new.registers.left < self.old.registers.left) }
        ensures slots { vec_len self.new.stack ≡ vec_len self.old.stack }
    {
        if let Some(ended) = end_of(row) {
            return Err(ended);
        }
        if self.registers.left == 0 {
            return Err(Ended::Budget);
        }
        let instr = self.instr()?;
        match row {
            Row::Overflow => self.raised(instr, OVERFLOW),
            Row::DivByZero => self.raised(instr, DIV),
            _ => self.slow(instr),
        }
    }

    // An exception of an instruction on numbers.
    fn raised(&mut self, instr: Instr, number: u64) -> Result<Option<WebCall>, Ended>
        requires { 1 ≤ self.old.registers.left }
        ensures left { IfOk result (λ made. IsNone made → self.new.registers.left < self.old.registers.left) }
        ensures slots { vec_len self.new.stack ≡ vec_len self.old.stack }
    {
        let count = taken_by(instr);
        if count > self.registers.top {
            return Err(Ended::Stuck);
        }
        self.throw(count, number)?;
        Ok(None)
    }

    // An instruction that isn't made in the loop: the call that it makes, if any.
    fn slow(&mut self, instr: Instr) -> Result<Option<WebCall>, Ended>
        requires { 1 ≤ self.old.registers.left }
        ensures left { IfOk result (λ made. IsNone made → self.new.registers.left < self.old.registers.left) }
        ensures slots { vec_len self.new.stack ≡ vec_len self.old.stack }
    {
        match instr {
            Instr::CacheLook(d, e) => Ok(Some(self.cache_look(d, e)?)),
            Instr::CachePut(d, e) => Ok(Some(self.cache_put(d, e)?)),
            Instr::CacheFlush(d, e) => Ok(Some(self.cache_flush(d, e)?)),
            Instr::DbDml => self.db_dml(),
            Instr::DbRows => self.db_rows(),
            instr => {
                self.without_call(instr)?;
                Ok(None)
            }
        }
    }

    // An instruction that makes no call.
    fn without_call(&mut self, instr: Instr) -> Result<(), Ended>
        requires { 1 ≤ self.old.registers.left }
        ensures left { OnOk result (self.new.registers.left < self.old.registers.left) }
        ensures slots { vec_len self.new.stack ≡ vec_len self.old.stack }
    {
        match instr {
            Instr::Text(i) => self.text(i),
            Instr::Handler(a) => self.handler(a),
            Instr::HandlerEnd => self.handler_end(),
            Instr::Raise => self.raise(),
            Instr::TextSize => self.text_size(),
            Instr::TextSub => self.text_sub(),
            Instr::TextCut => self.text_cut(),
            Instr::TextCat => self.text_cat(),
            Instr::TextConcat => self.text_concat(),
            Instr::TextCompare => self.text_compare(),
            Instr::TextFromInt => self.text_from_int(),
            Instr::IntFromText => self.int_from_text(),
            Instr::TextFromChar => self.text_from_char(),
            Instr::CharFromInt => self.char_from_int(),
            Instr::Write => self.write_page(),
            Instr::SetType => self.set_type(),
            Instr::SetStatus => self.set_status(),
            Instr::FormFirst => self.form_first(),
            Instr::FormAll => self.form_all(),
            Instr::CacheMake => self.cache_make(),
            _ => Err(Ended::Stuck),
        }
    }
}

// The end that the loop stopped at, if it is one.
fn end_of(row: Row) -> Option<Ended> {
    match row {
        Row::Halted => Some(Ended::Finished),
        Row::Stuck => Some(Ended::Stuck),
        Row::Budget => Some(Ended::Budget),
        Row::StackFull => Some(Ended::StackFull),
        Row::NoPage => Some(Ended::NoPage),
        Row::NoMemory => Some(Ended::NoMemory),
        _ => None,
    }
}
