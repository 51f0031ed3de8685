// The listing of code.
ghost use Rattle.std.specs.Prelude.{◌≡◌, ◌++◌, IfOk, OnOk};
ghost use Rattle.kam_code.specs.Listing.{mnemonic, signed_operand, first_operand, second_operand, signed_text, number_text, line_head, operands_text, line, listing};

use crate::{Code, Instr};
use sml_syntax::{NoMemory, Text};
use std::alloc::Global;

// The name of an instruction.
fn mnemonic(instr: Instr) -> &'static [u8]
    ensures { result.now ≡ mnemonic instr }
{
    match instr {
        Instr::Const(_) => b"const",
        Instr::Text(_) => b"text",
        Instr::Local(_) => b"local",
        Instr::PutLocal(_) => b"put_local",
        Instr::Env(_) => b"env",
        Instr::SelfPointer => b"self",
        Instr::Pop(_) => b"pop",
        Instr::Slide(_) => b"slide",
        Instr::Pick(_) => b"pick",
        Instr::Add => b"add",
        Instr::Sub => b"sub",
        Instr::Mul => b"mul",
        Instr::Div => b"div",
        Instr::Mod => b"mod",
        Instr::Neg => b"neg",
        Instr::Less => b"lt",
        Instr::LessEqual => b"le",
        Instr::Greater => b"gt",
        Instr::GreaterEqual => b"ge",
        Instr::Same => b"same",
        Instr::Jump(_) => b"jump",
        Instr::JumpIf(_) => b"jump_if",
        Instr::JumpNot(_, _) => b"jump_not",
        Instr::Call(_) => b"call",
        Instr::Return => b"return",
        Instr::Halt => b"halt",
        Instr::RegionNew => b"region_new",
        Instr::RegionEnd => b"region_end",
        Instr::Alloc(_) => b"alloc",
        Instr::Field(_) => b"field",
        Instr::SetField(_) => b"set_field",
        Instr::Boxed => b"boxed",
        Instr::Handler(_) => b"handler",
        Instr::HandlerEnd => b"handler_end",
        Instr::Raise => b"raise",
        Instr::TextSize => b"text_size",
        Instr::TextSub => b"text_sub",
        Instr::TextCut => b"text_cut",
        Instr::TextCat => b"text_cat",
        Instr::TextConcat => b"text_concat",
        Instr::TextCompare => b"text_compare",
        Instr::TextFromInt => b"text_from_int",
        Instr::IntFromText => b"int_from_text",
        Instr::TextFromChar => b"text_from_char",
        Instr::CharFromInt => b"char_from_int",
        Instr::Write => b"write",
        Instr::SetType => b"set_type",
        Instr::SetStatus => b"set_status",
        Instr::FormFirst => b"form_first",
        Instr::FormAll => b"form_all",
        Instr::CacheMake => b"cache_make",
        Instr::CacheLook(_, _) => b"cache_look",
        Instr::CachePut(_, _) => b"cache_put",
        Instr::CacheFlush(_, _) => b"cache_flush",
        Instr::DbDml => b"db_dml",
        Instr::DbRows => b"db_rows",
    }
}

// Its signed operand.
fn signed_operand(instr: Instr) -> Option<i64>
    ensures { result ≡ signed_operand instr }
{
    match instr {
        Instr::Const(k) => Some(k),
        Instr::JumpNot(_, k) => Some(k),
        _ => None,
    }
}

// Its first number.
fn first_operand(instr: Instr) -> Option<u64>
    ensures { result ≡ first_operand instr }
{
    match instr {
        Instr::Text(i) => Some(i),
        Instr::Local(i) => Some(i),
        Instr::PutLocal(i) => Some(i),
        Instr::Env(i) => Some(i),
        Instr::Pop(n) => Some(n),
        Instr::Slide(n) => Some(n),
        Instr::Pick(n) => Some(n),
        Instr::Jump(a) => Some(u64::from(a)),
        Instr::JumpIf(a) => Some(u64::from(a)),
        Instr::JumpNot(a, _) => Some(u64::from(a)),
        Instr::Call(n) => Some(n),
        Instr::Alloc(n) => Some(n),
        Instr::Field(i) => Some(i),
        Instr::SetField(i) => Some(i),
        Instr::Handler(a) => Some(u64::from(a)),
        Instr::CacheLook(d, _) => Some(u64::from(d)),
        Instr::CachePut(d, _) => Some(u64::from(d)),
        Instr::CacheFlush(d, _) => Some(u64::from(d)),
        _ => None,
    }
}

// Its second number.
fn second_operand(instr: Instr) -> Option<u64>
    ensures { result ≡ second_operand instr }
{
    match instr {
        Instr::CacheLook(_, e) => Some(u64::from(e)),
        Instr::CachePut(_, e) => Some(u64::from(e)),
        Instr::CacheFlush(_, e) => Some(u64::from(e)),
        _ => None,
    }
}

// Adds a signed operand behind its space.
fn push_signed(alloc: Global, lines: &mut Vec<u8>, operand: Option<i64>) -> Result<(), NoMemory>
    ensures { OnOk result (lines.new.items ≡ lines.old.items ++ signed_text operand) }
{
    let Some(k) = operand else {
        return Ok(());
    };
    lines.push(b' ')?;
    if k < 0 {
        lines.push(b'~')?;
    }
    lines.extend_from_slice(k.unsigned_abs().to_string(alloc)?.as_bytes())?;
    Ok(())
}

// Adds a number behind its space.
fn push_number(alloc: Global, lines: &mut Vec<u8>, operand: Option<u64>) -> Result<(), NoMemory>
    ensures { OnOk result (lines.new.items ≡ lines.old.items ++ number_text operand) }
{
    let Some(n) = operand else {
        return Ok(());
    };
    lines.push(b' ')?;
    lines.extend_from_slice(n.to_string(alloc)?.as_bytes())?;
    Ok(())
}

// Adds an instruction's number and name.
fn push_head(
    alloc: Global,
    lines: &mut Vec<u8>,
    number: usize,
    instr: Instr,
) -> Result<(), NoMemory>
    ensures { OnOk result (lines.new.items ≡ lines.old.items ++ line_head number instr) }
{
    lines.extend_from_slice(number.to_string(alloc)?.as_bytes())?;
    lines.push(b' ')?;
    lines.extend_from_slice(mnemonic(instr))?;
    Ok(())
}

// Adds its operands.
fn push_operands(alloc: Global, lines: &mut Vec<u8>, instr: Instr) -> Result<(), NoMemory>
    ensures { OnOk result (lines.new.items ≡ lines.old.items ++ operands_text instr) }
{
    push_signed(alloc, lines, signed_operand(instr))?;
    push_number(alloc, lines, first_operand(instr))?;
    push_number(alloc, lines, second_operand(instr))?;
    Ok(())
}

// Adds its line.
fn push_line(
    alloc: Global,
    lines: &mut Vec<u8>,
    number: usize,
    instr: Instr,
) -> Result<(), NoMemory>
    ensures { OnOk result (lines.new.items ≡ lines.old.items ++ line number instr) }
{
    push_head(alloc, lines, number, instr)?;
    push_operands(alloc, lines, instr)?;
    lines.push(b'\n')?;
    Ok(())
}

// Adds the lines of instructions, which are numbered from 0.
fn push_lines(alloc: Global, lines: &mut Vec<u8>, instrs: &[Instr]) -> Result<(), NoMemory>
    ensures { OnOk result (lines.new.items ≡ lines.old.items ++ listing instrs.now) }
{
    let mut number = 0;
    for instr in instrs {
        push_line(alloc, lines, number, *instr)?;
        number += 1;
    }
    Ok(())
}

/// The listing of code: a line an instruction, with its number, its name and its operands.
pub fn list_code(alloc: Global, code: &Code) -> Result<Text, NoMemory>
    ensures { IfOk result (λ text. text ≡ listing code.now.instrs) }
{
    let mut lines = Vec::new(alloc);
    push_lines(alloc, &mut lines, code.instrs.as_slice())?;
    Ok(Text::from_vec(lines))
}
