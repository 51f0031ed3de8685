// The machine over one region: it makes the steps of the instructions of straight code.
ghost use Rattle.std.specs.Prelude.{◌≡◌, true, ◌++◌, ◌<◌, ◌^◌, [], ◌∷◌, drop, slice_get, IfOk, OnOk, IfSome, IsSome, IsNone, length};
ghost use Rattle.std.specs.Option.{is_some, unwrap_or, option_copied};
ghost use Rattle.kam_code.specs.State.{start};
ghost use Rattle.kam_code.specs.Word.{spelling};
ghost use Rattle.kam_code.specs.Layout.{text_words};
ghost use Rattle.kam_code.specs.Memory.{text_behind};
ghost use Rattle.kam_code.specs.Step.{Goes, onward, pushed, grown, text_made, thrown, act, step, steps};
ghost use Rattle.smlserver_top.specs.StraightCode.{is_straight, AreStraight};
ghost use Rattle.smlserver_top.specs.OneRegion.{global};
ghost use Rattle.smlserver_top.specs.Stop.{next_of};

use kam_code::{Code, Instr, append_text, push_text};
use sml_syntax::{NoMemory, Text};
use std::alloc::Global;
use std::marker::Model;

// A region's words are fewer than this, and the global region's pointers begin with it.
const LIMIT: u64 = 1 << 32;

// The number of the exception Overflow.
const OVERFLOW: u64 = 3;

/// What comes after a step or a run.
#[derive(Drop)]
pub(crate) enum Stop {
    Going,
    Halted,
    /// An exception that no handler takes, with its name.
    Raised(Text),
    /// The instruction has no step.
    Stuck,
}

/// A machine whose only region is the global one. Each step goes one instruction on, so the charge
/// is the address and the words of the region, and takes no field.
#[derive(Drop)]
pub(crate) struct Machine {
    address: usize,
    stack: Vec<u64>,
    region: Vec<u64>,
    body: Vec<u8>,
}

impl Model for Machine {
    ghost use Rattle.std.specs.Prelude.{◌+◌, [], length, reverse};
    ghost use Rattle.kam_code.specs.State.{State};
    ghost use Rattle.smlserver_top.specs.OneRegion.{one_region};

    ghost Value = { State };

    ghost view = { λ m. one_region [] [] m.address (reverse m.stack.items) m.region.items m.body.items (m.address + length m.region.items) };
}

impl Machine {
    /// A machine before its first step, with an empty form and no databases.
    pub(crate) fn start(alloc: Global) -> Machine
        ensures { result ≡ start [] [] }
    {
        Machine {
            address: 0,
            stack: Vec::new(alloc),
            region: Vec::new(alloc),
            body: Vec::new(alloc),
        }
    }

    /// The body.
    pub(crate) fn into_body(self) -> Text
        ensures { result ≡ self.body }
    {
        let Machine {
            address: _,
            stack: _,
            region: _,
            body,
        } = self;
        Text::from_vec(body)
    }

    // Goes on to the next instruction.
    fn go_on(&mut self) -> Stop
        requires { self.old.address < usize.MAX }
        ensures { next_of result self.new ≡ Goes (onward self.old.stack self.old) }
    {
        self.address += 1;
        Stop::Going
    }

    // Puts a word on the stack.
    fn push(&mut self, word: u64) -> Result<Stop, NoMemory>
        requires { self.old.address < usize.MAX }
        ensures { IfOk result (λ stop. next_of stop self.new ≡ pushed word self.old.stack self.old) }
    {
        self.stack.push(word)?;
        Ok(self.go_on())
    }

    // The top of the stack.
    fn pop(&mut self) -> Option<u64>
        ensures some { IfSome result (λ word. self.old ≡ record self.new { stack = word ∷ self.new.stack }) }
        ensures none { IsNone result → self.old.stack ≡ [] }
    {
        self.stack.pop()
    }

    // Lays a text out in the region.
    #[tactic(auto, using(kam_code::proofs::Packed::text_words_length))]
    fn lay_out(&mut self, text: &[u8]) -> Result<(), NoMemory>
        ensures { OnOk result (self.new ≡ grown 1 (text_words text.now) self.old) }
    {
        push_text(&mut self.region, text)
    }

    // Makes a text in the region of that serial, and puts its pointer on the stack.
    #[tactic(auto, using(crate::proofs::Steps::text_made_global))]
    fn make_text(&mut self, serial: u64, text: &[u8]) -> Result<Stop, NoMemory>
        requires { self.old.address < usize.MAX }
        ensures { IfOk result (λ stop. next_of stop self.new ≡ text_made serial text.now self.old.stack self.old) }
    {
        let place = self.region.len() as u64;
        if serial != 1 || place >= LIMIT {
            return Ok(Stop::Stuck);
        }
        self.lay_out(text)?;
        self.push(LIMIT + place)
    }

    // Makes the packet of an exception without argument.
    fn make_packet(&mut self, number: u64) -> Result<(), NoMemory>
        ensures { OnOk result (self.new ≡ grown 1 (number ∷ 0 ∷ []) self.old) }
    {
        self.region.push(number)?;
        self.region.push(0)?;
        Ok(())
    }

    // Raises an exception without argument, which ends the run.
    #[tactic(auto, using(crate::proofs::Steps::thrown_global))]
    fn throw(&mut self, alloc: Global, code: &Code, number: u64) -> Result<Stop, NoMemory>
        requires { self.old.address < usize.MAX }
        ensures { IfOk result (λ stop. next_of stop self.new ≡ thrown code.now number self.old.stack self.old) }
    {
        if self.region.len() as u64 >= LIMIT {
            return Ok(Stop::Stuck);
        }
        let Some(name) = text_of(code.names.as_slice(), number) else {
            return Ok(Stop::Stuck);
        };
        let name = name.try_copy(alloc)?;
        self.make_packet(number)?;
        self.address += 1;
        Ok(Stop::Raised(name))
    }
}

// The text of that number.
fn text_of(texts: &[Text], number: u64) -> Option<&Text>
    ensures { option_copied result ≡ slice_get texts.now number }
{
    texts.get(number as usize)
}

// The words from a place on.
fn words_from(region: &[u64], place: usize) -> &[u64]
    ensures { result.now ≡ drop place region.now }
{
    let start = region.len().min(place);
    &region[start..]
}

// Adds the text that a pointer leads to, and answers whether there is one.
fn append_behind(region: &[u64], p: u64, bytes: &mut Vec<u8>) -> Result<bool, NoMemory>
    ensures whole { IfOk result (λ whole. whole ≡ is_some (text_behind p (global region.now))) }
    ensures added { OnOk result (bytes.new.items ≡ bytes.old.items ++ unwrap_or (text_behind p (global region.now)) []) }
{
    if p / LIMIT != 1 {
        return Ok(false);
    }
    append_text(bytes, words_from(region, (p % LIMIT) as usize))
}

// One method an instruction.
impl Machine {
    fn text(&mut self, code: &Code, number: u64) -> Result<Stop, NoMemory>
        requires { self.old.address < usize.MAX }
        ensures { IfOk result (λ stop. next_of stop self.new ≡ act code.now (Instr.Text number) self.old) }
    {
        let Some(serial) = self.pop() else {
            return Ok(Stop::Stuck);
        };
        match text_of(code.texts.as_slice(), number) {
            Some(text) => self.make_text(serial, text.as_bytes()),
            None => Ok(Stop::Stuck),
        }
    }

    fn multiply(&mut self, alloc: Global, code: &Code) -> Result<Stop, NoMemory>
        requires { self.old.address < usize.MAX }
        ensures { IfOk result (λ stop. next_of stop self.new ≡ act code.now Instr.Mul self.old) }
    {
        let Some(b) = self.pop() else {
            return Ok(Stop::Stuck);
        };
        let Some(a) = self.pop() else {
            return Ok(Stop::Stuck);
        };
        match a.cast_signed().checked_mul(b.cast_signed()) {
            Some(product) => self.push(product.cast_unsigned()),
            None => self.throw(alloc, code, OVERFLOW),
        }
    }

    fn spell(&mut self, alloc: Global, code: &Code) -> Result<Stop, NoMemory>
        requires { self.old.address < usize.MAX }
        ensures { IfOk result (λ stop. next_of stop self.new ≡ act code.now Instr.TextFromInt self.old) }
    {
        let Some(serial) = self.pop() else {
            return Ok(Stop::Stuck);
        };
        let Some(number) = self.pop() else {
            return Ok(Stop::Stuck);
        };
        let text = spelling(alloc, number.cast_signed())?;
        self.make_text(serial, text.as_slice())
    }

    fn join(&mut self, alloc: Global, code: &Code) -> Result<Stop, NoMemory>
        requires { self.old.address < usize.MAX }
        ensures { IfOk result (λ stop. next_of stop self.new ≡ act code.now Instr.TextCat self.old) }
    {
        let Some(serial) = self.pop() else {
            return Ok(Stop::Stuck);
        };
        let Some(q) = self.pop() else {
            return Ok(Stop::Stuck);
        };
        let Some(p) = self.pop() else {
            return Ok(Stop::Stuck);
        };
        let mut text = Vec::new(alloc);
        if !append_behind(&self.region, p, &mut text)? {
            return Ok(Stop::Stuck);
        }
        if !append_behind(&self.region, q, &mut text)? {
            return Ok(Stop::Stuck);
        }
        self.make_text(serial, text.as_slice())
    }

    fn write(&mut self, code: &Code) -> Result<Stop, NoMemory>
        requires { self.old.address < usize.MAX }
        ensures { IfOk result (λ stop. next_of stop self.new ≡ act code.now Instr.Write self.old) }
    {
        let Some(p) = self.pop() else {
            return Ok(Stop::Stuck);
        };
        if !append_behind(&self.region, p, &mut self.body)? {
            return Ok(Stop::Stuck);
        }
        Ok(self.go_on())
    }

    fn halt(&mut self, code: &Code) -> Stop
        requires { self.old.address < usize.MAX }
        ensures { next_of result self.new ≡ act code.now Instr.Halt self.old }
    {
        self.address += 1;
        Stop::Halted
    }
}

// The decimal text of a number, with ~ for minus.
fn spelling(alloc: Global, number: i64) -> Result<Vec<u8>, NoMemory>
    ensures { IfOk result (λ text. text.items ≡ spelling number) }
{
    let mut text = Vec::new(alloc);
    if number < 0 {
        text.push(b'~')?;
    }
    text.extend_from_slice(number.unsigned_abs().to_string(alloc)?.as_bytes())?;
    Ok(text)
}

// The instruction at an address.
fn instr_at(instrs: &[Instr], address: usize) -> Option<&Instr>
    ensures at { option_copied result ≡ slice_get instrs.now address }
    ensures within { IsSome result → address < length instrs.now }
{
    instrs.get(address)
}

// Steps and runs.
impl Machine {
    // What an instruction of straight code does.
    fn act(&mut self, alloc: Global, code: &Code, instr: Instr) -> Result<Stop, NoMemory>
        requires within { self.old.address < usize.MAX }
        requires straight { is_straight instr ≡ true }
        ensures { IfOk result (λ stop. next_of stop self.new ≡ act code.now instr self.old) }
    {
        match instr {
            Instr::Const(k) => self.push(k.cast_unsigned()),
            Instr::Text(number) => self.text(code, number),
            Instr::Mul => self.multiply(alloc, code),
            Instr::TextFromInt => self.spell(alloc, code),
            Instr::TextCat => self.join(alloc, code),
            Instr::Write => self.write(code),
            Instr::Halt => Ok(self.halt(code)),
            _ => Ok(Stop::Stuck),
        }
    }

    // One step.
    fn step(&mut self, alloc: Global, code: &Code) -> Result<Stop, NoMemory>
        requires straight { AreStraight code.now.instrs }
        ensures { IfOk result (λ stop. next_of stop self.new ≡ step code.now self.old) }
    {
        match instr_at(code.instrs.as_slice(), self.address) {
            Some(instr) => self.act(alloc, code, *instr),
            None => Ok(Stop::Stuck),
        }
    }

    /// So many steps, or fewer where the run ends or a step is wanting.
    #[tactic(auto, using(crate::proofs::Steps::steps_turn))]
    pub(crate) fn run(&mut self, alloc: Global, code: &Code, most: usize) -> Result<Stop, NoMemory>
        requires straight { AreStraight code.now.instrs }
        ensures { IfOk result (λ stop. next_of stop self.new ≡ steps code.now most self.old) }
    {
        for turn in 0..most {
            match self.step(alloc, code)? {
                Stop::Going => {}
                stop => return Ok(stop),
            }
        }
        Ok(Stop::Going)
    }
}
