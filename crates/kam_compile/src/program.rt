// Programs.
ghost use Rattle.std.specs.Prelude.{◌≡◌, ◌≤◌, true, length, IfOk};
ghost use Rattle.code_parts.specs.Operands.{all_there};

use crate::compiler::Compiler;
use crate::refusal::CompileRefusal;
use code_parts::{Addresses, Scope, Uses, Writer, Written, all_there, program_size};
use kam_code::{Code, Instr};
use region_syntax::{MData, RDec, RProgram};
use sml_syntax::{Listed, NoMemory, Text};
use std::alloc::Global;
use std::mem;

/// The greatest number of instructions.
const GREATEST: u64 = 67_108_864;

/// The code of a program. It takes steps in proportion to the size of the program, and its calls nest no
/// deeper than the program is high. Each jump leads to an instruction, and each text and description that
/// an instruction names is one of the code: this is looked at once more before the code is handed out, and
/// code that failed it would be refused as `NoMemory`, as numbers beyond 32 bits are.
pub fn compile(alloc: Global, program: &RProgram) -> Result<Code, CompileRefusal>
    ensures operands { IfOk result (λ code. all_there code ≡ true) }
    ensures length { IfOk result (λ code. length code.instrs ≤ 67108864) }
{
    if program_size(alloc, program)?.saturating_mul(64) > GREATEST {
        return Err(CompileRefusal::CodeFull);
    }
    let code = code(alloc, program)?;
    if !all_there(&code) || code.instrs.as_slice().len() as u64 > GREATEST {
        return Err(CompileRefusal::NoMemory);
    }
    Ok(code)
}

fn code(alloc: Global, program: &RProgram) -> Result<Code, NoMemory> {
    let names = exception_names(alloc, program)?;
    let uses = settled_uses(alloc, program)?;
    let items = program.items.as_slice();
    let mut compiler = start(alloc, program, uses)?;
    let measured = compiler.pass(items)?;
    compiler.again(measured.addresses);
    let written = compiler.pass(items)?;
    Ok(Code {
        instrs: Listed::of(written.instrs),
        texts: Listed::of(written.texts),
        descs: Listed::of(written.descs),
        names: Listed::of(names),
    })
}

fn exception_names(alloc: Global, program: &RProgram) -> Result<Vec<Text>, NoMemory> {
    let mut names = Vec::new(alloc);
    for (name, _) in program.exceptions.as_slice() {
        names.push(name.try_copy(alloc)?)?;
    }
    Ok(names)
}

fn settled_uses(alloc: Global, program: &RProgram) -> Result<Uses, NoMemory> {
    let mut uses = Uses::new(alloc);
    uses.decs(program.items.as_slice())?;
    uses.unbind(0);
    uses.settle()?;
    Ok(uses)
}

fn start(alloc: Global, program: &RProgram, uses: Uses) -> Result<Compiler, NoMemory> {
    let mut datatypes: Vec<MData> = Vec::new(alloc);
    for datatype in program.datatypes.as_slice() {
        datatypes.push(datatype.try_copy(alloc)?)?;
    }
    Ok(Compiler {
        alloc,
        datatypes,
        uses,
        scope: Scope::new(alloc),
        writer: Writer::new(alloc, Addresses::none(alloc)),
        stubs: Vec::new(alloc),
        waiting: Vec::new(alloc),
    })
}

impl Compiler {
    /// Writes a program.
    fn pass(&mut self, items: &[RDec]) -> Result<Written, NoMemory> {
        let main = self.writer.new_function()?;
        self.writer.preamble(main)?;
        let outer = self.writer.begin_function(main);
        self.decs(items, 0)?;
        self.writer.emit(Instr::Halt)?;
        self.writer.end_function(main, outer)?;
        self.write_stubs()?;
        let empty = Writer::new(self.alloc, Addresses::none(self.alloc));
        let writer = mem::replace(&mut self.writer, empty);
        Ok(writer.into_written())
    }

    /// Begins anew, with the addresses of functions that a pass found.
    fn again(&mut self, addresses: Addresses) {
        self.scope = Scope::new(self.alloc);
        self.writer = Writer::new(self.alloc, addresses);
        self.stubs = Vec::new(self.alloc);
        self.waiting = Vec::new(self.alloc);
    }
}
