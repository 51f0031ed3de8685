// Whether what operands name is there.
ghost use Rattle.std.specs.Prelude.{◌≡◌};
ghost use Rattle.code_parts.specs.Operands.{is_there, all_there};

use kam_code::{Code, Instr};

/// Whether each jump of the code leads to one of its instructions, and each text and description that an
/// instruction names is one of the code.
pub fn all_there(code: &Code) -> bool
    ensures { result ≡ all_there code.now }
{
    let instrs = code.instrs.as_slice();
    let texts = code.texts.as_slice().len();
    let descs = code.descs.as_slice().len();
    let count = instrs.len();
    instrs
        .iter()
        .all(|instr| is_there(count, texts, descs, *instr))
}

fn is_there(instrs: usize, texts: usize, descs: usize, instr: Instr) -> bool
    ensures { result ≡ is_there instrs texts descs instr }
{
    match instr {
        Instr::Text(text) => text < texts as u64,
        Instr::Jump(address) => (address as usize) < instrs,
        Instr::JumpIf(address) => (address as usize) < instrs,
        Instr::JumpNot(address, _) => (address as usize) < instrs,
        Instr::Handler(address) => (address as usize) < instrs,
        Instr::CacheLook(key, value) => (key as usize) < descs && (value as usize) < descs,
        Instr::CachePut(key, value) => (key as usize) < descs && (value as usize) < descs,
        Instr::CacheFlush(key, value) => (key as usize) < descs && (value as usize) < descs,
        _ => true,
    }
}
