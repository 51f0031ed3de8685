// Where code is written.
ghost use Rattle.std.specs.Prelude.{◌≡◌, ◌++◌, ◌∷◌, [], OnOk, pos};
ghost use Rattle.kam_code.specs.declared.instr.Instr.TheVariants as i;
ghost use Rattle.code_parts.specs.Locations.{load, access, slide, returned, aimed};

use crate::location::{Location, Path, Seen};
use crate::names::Names;
use kam_code::Instr;
use sml_syntax::{NoMemory, Text};
use std::alloc::Global;
use std::mem;
use web_data::Desc;

/// Where the code that raises `Match` begins, and where that which raises `Bind` does.
pub const MATCH: u32 = 1;

pub const BIND: u32 = 6;

/// The code so far: that of the functions that are done, and that of the function at hand.
#[derive(Drop)]
pub struct Writer {
    alloc: Global,
    /// The addresses as the pass before found them.
    known: Addresses,
    /// And as this pass finds them.
    found: Addresses,
    done: Vec<Instr>,
    out: Vec<Instr>,
    // The address of the function at hand.
    start: u32,
    numbers: Names,
    texts: Vec<Text>,
    descs: Vec<Desc>,
}

/// The addresses of functions by number, and of the code that is written once for all its uses.
#[derive(Drop)]
pub struct Addresses {
    functions: Vec<u32>,
    stubs: Vec<u32>,
}

impl Addresses {
    /// None.
    pub fn none(alloc: Global) -> Addresses {
        Addresses {
            functions: Vec::new(alloc),
            stubs: Vec::new(alloc),
        }
    }
}

/// What a pass gives.
#[derive(Drop)]
pub struct Written {
    pub instrs: Vec<Instr>,
    pub texts: Vec<Text>,
    pub descs: Vec<Desc>,
    pub addresses: Addresses,
}

/// The code around a function while that of the function is written.
#[derive(Drop)]
pub struct Outer {
    out: Vec<Instr>,
    start: u32,
}

impl Writer {
    /// Before anything is written, with the addresses that are known.
    pub fn new(alloc: Global, known: Addresses) -> Writer {
        Writer {
            alloc,
            known,
            found: Addresses::none(alloc),
            done: Vec::new(alloc),
            out: Vec::new(alloc),
            start: 0,
            numbers: Names::new(alloc),
            texts: Vec::new(alloc),
            descs: Vec::new(alloc),
        }
    }

    // ---- instructions

    pub fn emit(&mut self, instr: Instr) -> Result<(), NoMemory>
        ensures { OnOk result (self.new.out.items ≡ self.old.out.items ++ (instr ∷ [])) }
    {
        self.out.push(instr)?;
        Ok(())
    }

    pub fn load(&mut self, location: Location) -> Result<(), NoMemory>
        ensures { OnOk result (self.new.out.items ≡ self.old.out.items ++ (load location ∷ [])) }
    {
        self.emit(location.load())
    }

    /// Pushes a part of a value.
    pub fn access(&mut self, seen: Seen) -> Result<(), NoMemory>
        ensures { OnOk result (self.new.out.items ≡ self.old.out.items ++ access seen) }
    {
        self.load(seen.location)?;
        match seen.path {
            Path::Here => Ok(()),
            Path::Field(field) => self.emit(Instr::Field(field)),
            Path::Fields(first, second) => {
                self.emit(Instr::Field(first))?;
                self.emit(Instr::Field(second))
            }
        }
    }

    /// A number as a word.
    pub fn number(&mut self, number: u32) -> Result<(), NoMemory>
        ensures { OnOk result (self.new.out.items ≡ self.old.out.items ++ (i.Const (pos number) ∷ [])) }
    {
        self.emit(Instr::Const(i64::from(number)))
    }

    /// Drops so many words below the top one.
    pub fn slide(&mut self, words: u64) -> Result<(), NoMemory>
        ensures { OnOk result (self.new.out.items ≡ self.old.out.items ++ slide words) }
    {
        match words {
            0 => Ok(()),
            _ => self.emit(Instr::Slide(words)),
        }
    }

    pub fn return_if(&mut self, tail: bool) -> Result<(), NoMemory>
        ensures { OnOk result (self.new.out.items ≡ self.old.out.items ++ returned tail) }
    {
        match tail {
            true => self.emit(Instr::Return),
            false => Ok(()),
        }
    }

    /// The text of that number in the code, made in the region whose serial was pushed.
    pub fn text(&mut self, text: &Text) -> Result<(), NoMemory> {
        let number = self.numbers.number(self.alloc, text)?;
        if number as usize >= self.texts.len() {
            self.texts.push(text.try_copy(self.alloc)?)?;
        }
        self.emit(Instr::Text(u64::from(number)))
    }

    /// The number of a description in the code.
    pub fn desc(&mut self, desc: Desc) -> Result<u32, NoMemory> {
        let mut number = 0;
        for known in &self.descs {
            if *known == desc {
                return Ok(number);
            }
            number = next(number)?;
        }
        self.descs.push(desc)?;
        Ok(number)
    }

    // ---- jumps

    /// The address of the next instruction.
    pub fn here(&self) -> Result<u32, NoMemory> {
        let Ok(length) = u32::try_from(self.out.len()) else {
            return Err(NoMemory);
        };
        match self.start.checked_add(length) {
            Some(address) => Ok(address),
            None => Err(NoMemory),
        }
    }

    /// A jump whose address isn't known yet. The answer is its place.
    pub fn jump(&mut self, instr: Instr) -> Result<usize, NoMemory> {
        let place = self.out.len();
        self.emit(instr)?;
        Ok(place)
    }

    /// The jump at a place goes to the next instruction.
    pub fn land(&mut self, place: usize) -> Result<(), NoMemory> {
        let address = self.here()?;
        self.aim(place, address);
        Ok(())
    }

    pub fn land_all(&mut self, places: &[usize]) -> Result<(), NoMemory> {
        for place in places {
            self.land(*place)?;
        }
        Ok(())
    }

    /// The jump at a place goes to an address.
    pub fn aim(&mut self, place: usize, address: u32) {
        if let Some(instr) = self.out.get_mut(place) {
            *instr = aimed(*instr, address);
        }
    }

    // ---- functions

    /// The number of a new function.
    pub fn new_function(&mut self) -> Result<u32, NoMemory> {
        new_number(&mut self.found.functions)
    }

    /// The number of new code that is written once for all its uses.
    pub fn new_stub(&mut self) -> Result<u32, NoMemory> {
        new_number(&mut self.found.stubs)
    }

    /// Pushes the address of a function.
    pub fn function_address(&mut self, function: u32) -> Result<(), NoMemory> {
        let address = address_in(&self.known.functions, function);
        self.number(address)
    }

    pub fn stub_address(&mut self, stub: u32) -> Result<(), NoMemory> {
        let address = address_in(&self.known.stubs, stub);
        self.number(address)
    }

    /// Begins the code of a function. The answer is the code around it.
    pub fn begin_function(&mut self, function: u32) -> Outer {
        let address = address_in(&self.known.functions, function);
        self.begin(address)
    }

    pub fn begin_stub(&mut self, stub: u32) -> Outer {
        let address = address_in(&self.known.stubs, stub);
        self.begin(address)
    }

    fn begin(&mut self, address: u32) -> Outer {
        let start = self.start;
        self.start = address;
        let empty = Vec::new(self.alloc);
        Outer {
            out: mem::replace(&mut self.out, empty),
            start,
        }
    }

    /// Ends the code of a function, and goes on with the code around it.
    pub fn end_function(&mut self, function: u32, outer: Outer) -> Result<(), NoMemory> {
        let address = self.end(outer)?;
        set_address(&mut self.found.functions, function, address);
        Ok(())
    }

    pub fn end_stub(&mut self, stub: u32, outer: Outer) -> Result<(), NoMemory> {
        let address = self.end(outer)?;
        set_address(&mut self.found.stubs, stub, address);
        Ok(())
    }

    // The answer is the address at which the code stands.
    fn end(&mut self, outer: Outer) -> Result<u32, NoMemory> {
        let Ok(address) = u32::try_from(self.done.len()) else {
            return Err(NoMemory);
        };
        let Outer { out, start } = outer;
        let code = mem::replace(&mut self.out, out);
        self.done.extend_from_slice(code.as_slice())?;
        self.start = start;
        Ok(address)
    }

    /// The code before all functions: a jump to a function, and what raises `Match` and `Bind`.
    pub fn preamble(&mut self, main: u32) -> Result<(), NoMemory> {
        let main = address_in(&self.known.functions, main);
        self.done.push(Instr::Jump(main))?;
        for exception in 0..2 {
            self.done.push(Instr::Const(exception))?;
            self.done.push(Instr::Const(0))?;
            self.done.push(Instr::Const(1))?;
            self.done.push(Instr::Alloc(2))?;
            self.done.push(Instr::Raise)?;
        }
        Ok(())
    }

    pub fn into_written(self) -> Written {
        let Writer {
            alloc: _,
            known: _,
            found,
            done,
            out: _,
            start: _,
            numbers: _,
            texts,
            descs,
        } = self;
        Written {
            instrs: done,
            texts,
            descs,
            addresses: found,
        }
    }
}

fn new_number(addresses: &mut Vec<u32>) -> Result<u32, NoMemory> {
    let Ok(number) = u32::try_from(addresses.len()) else {
        return Err(NoMemory);
    };
    addresses.push(0)?;
    Ok(number)
}

// The address of that number, which is 0 while none is known.
fn address_in(addresses: &Vec<u32>, number: u32) -> u32 {
    match addresses.as_slice().get(number as usize) {
        Some(address) => *address,
        None => 0,
    }
}

fn set_address(addresses: &mut Vec<u32>, number: u32, address: u32) {
    if let Some(known) = addresses.get_mut(number as usize) {
        *known = address;
    }
}

fn next(number: u32) -> Result<u32, NoMemory> {
    match number.checked_add(1) {
        Some(next) => Ok(next),
        None => Err(NoMemory),
    }
}

// A jump that goes to an address.
fn aimed(instr: Instr, address: u32) -> Instr
    ensures { result ≡ aimed instr address }
{
    match instr {
        Instr::Jump(_) => Instr::Jump(address),
        Instr::JumpIf(_) => Instr::JumpIf(address),
        Instr::JumpNot(_, k) => Instr::JumpNot(address, k),
        Instr::Handler(_) => Instr::Handler(address),
        _ => instr,
    }
}
