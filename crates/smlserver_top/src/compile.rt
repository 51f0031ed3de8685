// The code of a script's parts, and its run.
ghost use Rattle.std.specs.Prelude.{◌≡◌, ◌++◌, ◌∷◌, [], length, IfOk, OnOk};
ghost use Rattle.kam_code.specs.Step.{Writes, NeverStuck};
ghost use Rattle.smlserver_top.specs.Parts.{ArePlain, AreSmall, AreFew, text_of};
ghost use Rattle.smlserver_top.specs.StraightCode.{AreStraight};
ghost use Rattle.smlserver_top.specs.Compiled.{part_code, rest_code, code_of, texts_of};

use crate::machine::{Machine, Stop};
use crate::part::Part;
use kam_code::{Code, Instr};
use sml_syntax::{Listed, NoMemory, Text};
use std::alloc::Global;

// Adds the code of a part, and its text.
fn add_part(
    alloc: Global,
    instrs: &mut Vec<Instr>,
    texts: &mut Vec<Text>,
    part: &Part,
) -> Result<(), NoMemory>
    ensures code { OnOk result (instrs.new.items ≡ instrs.old.items ++ part_code (length texts.old.items) part.now) }
    ensures texts { OnOk result (texts.new.items ≡ texts.old.items ++ texts_of (part.now ∷ [])) }
{
    match part {
        Part::Plain(text) => {
            let number = texts.len() as u64;
            texts.push(text.try_copy(alloc)?)?;
            instrs.push(Instr::Const(1))?;
            instrs.push(Instr::Text(number))?;
            Ok(())
        }
        Part::Product(m, n) => {
            instrs.push(Instr::Const(i64::from(*m)))?;
            instrs.push(Instr::Const(i64::from(*n)))?;
            instrs.push(Instr::Mul)?;
            instrs.push(Instr::Const(1))?;
            instrs.push(Instr::TextFromInt)?;
            Ok(())
        }
    }
}

// Adds the code of the other parts, each joined to what is there, which is written at the end.
fn add_rest(
    alloc: Global,
    instrs: &mut Vec<Instr>,
    texts: &mut Vec<Text>,
    parts: &[Part],
) -> Result<(), NoMemory>
    ensures code { OnOk result (instrs.new.items ≡ instrs.old.items ++ rest_code (length texts.old.items) parts.now) }
    ensures texts { OnOk result (texts.new.items ≡ texts.old.items ++ texts_of parts.now) }
{
    for part in parts {
        add_part(alloc, instrs, texts, part)?;
        instrs.push(Instr::Const(1))?;
        instrs.push(Instr::TextCat)?;
    }
    instrs.push(Instr::Write)?;
    instrs.push(Instr::Halt)?;
    Ok(())
}

// The code of the parts. They raise nothing, so it names no exception.
fn code_of(alloc: Global, parts: &[Part]) -> Result<Code, NoMemory>
    ensures instrs { IfOk result (λ code. code.instrs ≡ code_of parts.now) }
    ensures texts { IfOk result (λ code. code.texts ≡ texts_of parts.now) }
{
    let mut instrs = Vec::new(alloc);
    let mut texts = Vec::new(alloc);
    match parts {
        [] => instrs.push(Instr::Halt)?,
        [part, rest @ ..] => {
            add_part(alloc, &mut instrs, &mut texts, part)?;
            add_rest(alloc, &mut instrs, &mut texts, rest)?;
        }
    }
    Ok(Code {
        instrs: Listed::of(instrs),
        texts: Listed::of(texts),
        descs: Listed::of(Vec::new(alloc)),
        names: Listed::of(Vec::new(alloc)),
    })
}

// Code whose steps come to a halt with the parts' text, and of which none is wanting on the way.
fn compile(alloc: Global, parts: &[Part]) -> Result<Code, NoMemory>
    requires plain { ArePlain parts.now }
    requires small { AreSmall parts.now }
    requires few { AreFew parts.now }
    ensures writes { IfOk result (λ code. Writes code (length code.instrs) (text_of parts.now)) }
    ensures never_stuck { IfOk result (λ code. NeverStuck code) }
    ensures straight { IfOk result (λ code. AreStraight code.instrs) }
{
    let code = code_of(alloc, parts)?;
    Ok(code)
}

/// What the parts write: the body at the halt that the steps of their code come to.
pub(crate) fn written(alloc: Global, parts: &[Part]) -> Result<Text, NoMemory>
    requires plain { ArePlain parts.now }
    requires small { AreSmall parts.now }
    requires few { AreFew parts.now }
    ensures body { IfOk result (λ text. text ≡ text_of parts.now) }
{
    let code = compile(alloc, parts)?;
    let mut machine = Machine::start(alloc);
    match machine.run(alloc, &code, code.instrs.as_slice().len())? {
        Stop::Halted => Ok(machine.into_body()),
        _ => unreachable!(),
    }
}
