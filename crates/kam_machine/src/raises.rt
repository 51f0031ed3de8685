// What the instructions outside the loop have in common: words taken, made and put, and exceptions.
ghost use Rattle.std.specs.Prelude.{◌≡◌, ◌+◌, ◌≤◌, ◌<◌, OnOk, vec_len};

use crate::Machine;
use kam_code::{Instr, push_text};
use kam_rows::stored::{append, close_down};
use kam_rows::{Ended, Handler, STACK_LIMIT};
use kam_store::{RegionStore, StoreRefusal};

// The numbers of the exceptions that instructions raise.
pub(crate) const DIV: u64 = 2;

pub(crate) const OVERFLOW: u64 = 3;

pub(crate) const SUBSCRIPT: u64 = 4;

pub(crate) const CHR: u64 = 5;

pub(crate) const FAIL: u64 = 8;

// The words on top, the topmost last.
impl<'a, R: RegionStore> Machine<'a, R> {
    pub(crate) fn one(&self) -> Result<u64, Ended>
        ensures { OnOk result (1 ≤ self.now.registers.top) }
    {
        let top = self.registers.top;
        if top < 1 {
            return Err(Ended::Stuck);
        }
        Ok(self.stack[top - 1])
    }

    pub(crate) fn two(&self) -> Result<(u64, u64), Ended>
        ensures { OnOk result (2 ≤ self.now.registers.top) }
    {
        let top = self.registers.top;
        if top < 2 {
            return Err(Ended::Stuck);
        }
        Ok((self.stack[top - 2], self.stack[top - 1]))
    }

    pub(crate) fn three(&self) -> Result<(u64, u64, u64), Ended>
        ensures { OnOk result (3 ≤ self.now.registers.top) }
    {
        let top = self.registers.top;
        if top < 3 {
            return Err(Ended::Stuck);
        }
        Ok((
            self.stack[top - 3],
            self.stack[top - 2],
            self.stack[top - 1],
        ))
    }

    pub(crate) fn four(&self) -> Result<(u64, u64, u64, u64), Ended>
        ensures { OnOk result (4 ≤ self.now.registers.top) }
    {
        let top = self.registers.top;
        if top < 4 {
            return Err(Ended::Stuck);
        }
        let (c, d) = (self.stack[top - 2], self.stack[top - 1]);
        Ok((self.stack[top - 4], self.stack[top - 3], c, d))
    }
}

// The ends of a step.
impl<'a, R: RegionStore> Machine<'a, R> {
    // The step's 1 is charged, so many words leave, and the next instruction comes.
    pub(crate) fn take(&mut self, count: usize)
        requires left { 1 ≤ self.old.registers.left }
        requires top { count ≤ self.old.registers.top }
        ensures left { self.new.registers.left + 1 ≡ self.old.registers.left }
        ensures top { self.new.registers.top + count ≡ self.old.registers.top }
        ensures slots { vec_len self.new.stack ≡ vec_len self.old.stack }
    {
        self.registers.left -= 1;
        self.registers.top -= count;
        self.registers.address = self.registers.address.wrapping_add(1);
    }

    // The same, and a word comes in their place.
    pub(crate) fn put(&mut self, count: usize, word: u64)
        requires left { 1 ≤ self.old.registers.left }
        requires some { 1 ≤ count }
        requires top { count ≤ self.old.registers.top }
        ensures left { self.new.registers.left + 1 ≡ self.old.registers.left }
        ensures slots { vec_len self.new.stack ≡ vec_len self.old.stack }
    {
        self.take(count);
        let top = self.registers.top;
        self.stack[top] = word;
        self.registers.top = top + 1;
    }

    // The pointer to the end of a live region.
    pub(crate) fn end_of(&mut self, serial: u64) -> Result<u64, Ended>
        ensures left { self.new.registers ≡ self.old.registers }
        ensures slots { vec_len self.new.stack ≡ vec_len self.old.stack }
    {
        Ok(append(&mut self.store, serial, &[])?)
    }

    // Writes words into a region and charges them; the step's own 1 is charged later.
    pub(crate) fn write(&mut self, serial: u64, words: &[u64]) -> Result<u64, Ended>
        requires left { 1 ≤ self.old.registers.left }
        ensures left { OnOk result (1 ≤ self.new.registers.left) }
        ensures less { self.new.registers.left ≤ self.old.registers.left }
        ensures top { self.new.registers.top ≡ self.old.registers.top }
        ensures slots { vec_len self.new.stack ≡ vec_len self.old.stack }
    {
        let count = words.len() as u64;
        if count >= self.registers.left {
            return match append(&mut self.store, serial, &[]) {
                Err(StoreRefusal::Dead) => Err(Ended::Stuck),
                _ => Err(Ended::Budget),
            };
        }
        let pointer = append(&mut self.store, serial, words)?;
        self.registers.left -= count;
        Ok(pointer)
    }

    // Words are made, and their pointer comes in place of so many words.
    pub(crate) fn make(&mut self, count: usize, serial: u64, words: &[u64]) -> Result<(), Ended>
        requires left { 1 ≤ self.old.registers.left }
        requires some { 1 ≤ count }
        requires top { count ≤ self.old.registers.top }
        ensures left { OnOk result (self.new.registers.left < self.old.registers.left) }
        ensures slots { vec_len self.new.stack ≡ vec_len self.old.stack }
    {
        let pointer = self.write(serial, words)?;
        self.put(count, pointer);
        Ok(())
    }

    // A text is made.
    pub(crate) fn make_text(&mut self, count: usize, serial: u64, text: &[u8]) -> Result<(), Ended>
        requires left { 1 ≤ self.old.registers.left }
        requires some { 1 ≤ count }
        requires top { count ≤ self.old.registers.top }
        ensures left { OnOk result (self.new.registers.left < self.old.registers.left) }
        ensures slots { vec_len self.new.stack ≡ vec_len self.old.stack }
    {
        let mut words = Vec::new(self.alloc);
        push_text(&mut words, text)?;
        self.make(count, serial, words.as_slice())
    }

    // Words that were laid out are made, and the word that stands for the value comes in place of so many words.
    pub(crate) fn make_laid(
        &mut self,
        count: usize,
        serial: u64,
        words: &[u64],
        word: u64,
    ) -> Result<(), Ended>
        requires left { 1 ≤ self.old.registers.left }
        requires some { 1 ≤ count }
        requires top { count ≤ self.old.registers.top }
        ensures left { OnOk result (self.new.registers.left < self.old.registers.left) }
        ensures slots { vec_len self.new.stack ≡ vec_len self.old.stack }
    {
        let _pointer = self.write(serial, words)?;
        self.put(count, word);
        Ok(())
    }
}

// Exceptions.
impl<'a, R: RegionStore> Machine<'a, R> {
    // No handler takes an exception, and it has no name.
    fn has_no_end(&self, number: u64) -> bool {
        self.handlers.is_empty() && number >= self.code.names.as_slice().len() as u64
    }

    // So many words leave the stack, and a packet goes to the newest handler or ends the run.
    fn land(&mut self, count: usize, number: u64, packet: u64) -> Result<(), Ended>
        requires left { 1 ≤ self.old.registers.left }
        requires some { 1 ≤ count }
        requires top { count ≤ self.old.registers.top }
        ensures left { self.new.registers.left + 1 ≡ self.old.registers.left }
        ensures slots { vec_len self.new.stack ≡ vec_len self.old.stack }
    {
        self.take(count);
        let Some(handler) = self.handlers.pop() else {
            return Err(Ended::Raised(number));
        };
        close_down(&mut self.store, handler.regions);
        self.frames.truncate(handler.frames);
        let top = self.registers.top.min(handler.words);
        self.stack[top] = packet;
        self.registers.top = top + 1;
        self.registers.room = room_of(self.frames.len(), self.handlers.len());
        self.registers.base = handler.base;
        self.registers.closure = handler.closure;
        self.registers.address = handler.address;
        Ok(())
    }

    // Raises an exception without argument in place of a step that takes so many words.
    pub(crate) fn throw(&mut self, count: usize, number: u64) -> Result<(), Ended>
        requires left { 1 ≤ self.old.registers.left }
        requires some { 1 ≤ count }
        requires top { count ≤ self.old.registers.top }
        ensures left { OnOk result (self.new.registers.left < self.old.registers.left) }
        ensures slots { vec_len self.new.stack ≡ vec_len self.old.stack }
    {
        if self.has_no_end(number) {
            return Err(Ended::Stuck);
        }
        let packet = self.write(1, &[number, 0])?;
        self.land(count, number, packet)
    }

    // Raises `Fail` with a text.
    pub(crate) fn fail(&mut self, count: usize, text: &[u8]) -> Result<(), Ended>
        requires left { 1 ≤ self.old.registers.left }
        requires some { 1 ≤ count }
        requires top { count ≤ self.old.registers.top }
        ensures left { OnOk result (self.new.registers.left < self.old.registers.left) }
        ensures slots { vec_len self.new.stack ≡ vec_len self.old.stack }
    {
        if self.has_no_end(FAIL) {
            return Err(Ended::Stuck);
        }
        let at = self.end_of(1)?;
        let mut words = Vec::new(self.alloc);
        push_text(&mut words, text)?;
        let place = words.len() as u64;
        words.push(FAIL)?;
        words.push(at)?;
        let at = self.write(1, words.as_slice())?;
        self.land(count, FAIL, at.wrapping_add(place))
    }

    // `raise`.
    pub(crate) fn raise(&mut self) -> Result<(), Ended>
        requires { 1 ≤ self.old.registers.left }
        ensures left { OnOk result (self.new.registers.left < self.old.registers.left) }
        ensures slots { vec_len self.new.stack ≡ vec_len self.old.stack }
    {
        let packet = self.one()?;
        if !self.handlers.is_empty() {
            return self.land(1, 0, packet);
        }
        let number = self.store.get(packet, 0)?;
        if self.has_no_end(number) {
            return Err(Ended::Stuck);
        }
        self.land(1, number, packet)
    }

    // `handler`.
    pub(crate) fn handler(&mut self, a: u32) -> Result<(), Ended>
        requires { 1 ≤ self.old.registers.left }
        ensures left { OnOk result (self.new.registers.left < self.old.registers.left) }
        ensures slots { vec_len self.new.stack ≡ vec_len self.old.stack }
    {
        if self.registers.room < 5 || self.registers.top > self.registers.room - 5 {
            return Err(Ended::StackFull);
        }
        self.handlers.push(Handler {
            words: self.registers.top,
            regions: self.store.height(),
            frames: self.frames.len(),
            base: self.registers.base,
            closure: self.registers.closure,
            address: a as usize,
        })?;
        self.registers.room -= 5;
        self.take(0);
        Ok(())
    }

    // `handler_end`.
    pub(crate) fn handler_end(&mut self) -> Result<(), Ended>
        requires { 1 ≤ self.old.registers.left }
        ensures left { OnOk result (self.new.registers.left < self.old.registers.left) }
        ensures slots { vec_len self.new.stack ≡ vec_len self.old.stack }
    {
        if self.handlers.pop().is_none() {
            return Err(Ended::Stuck);
        }
        self.registers.room = self.registers.room.wrapping_add(5);
        self.take(0);
        Ok(())
    }
}

// How many words the stack may have beside so many frames and handlers.
fn room_of(frames: usize, handlers: usize) -> usize {
    STACK_LIMIT
        .saturating_sub(frames.saturating_mul(3))
        .saturating_sub(handlers.saturating_mul(5))
}

/// How many words an instruction takes that may raise `Overflow` or `Div`.
pub(crate) fn taken_by(instr: Instr) -> usize
    ensures { 1 ≤ result }
{
    match instr {
        Instr::Neg => 1,
        _ => 2,
    }
}
