// Code: instructions, and what their operands number.
ghost use Rattle.std.specs.Prelude.{◌≡◌, true};
ghost use Rattle.std.specs.List.{list_all};
ghost use Rattle.sml_syntax.specs.Ranges.{is_text, is_int};
ghost use Rattle.kam_code.specs.Held.{literal_is_held, is_held};

use crate::Instr;
use sml_syntax::{Listed, Text};
use web_data::Desc;

/// A program of the machine.
#[derive(Drop)]
pub struct Code {
    pub instrs: Listed<Instr>,
    /// The texts that `Text` makes.
    pub texts: Listed<Text>,
    /// The descriptions of keys and values that the cache instructions name.
    pub descs: Listed<Desc>,
    /// The names of the exceptions, by number.
    pub names: Listed<Text>,
}

impl Code {
    /// Changes nothing: its clause is what holds of the texts and literals of every code.
    pub fn holds_bytes(&self)
        ensures { is_held self.now ≡ true }
    {
        hold_texts(&self.texts);
        hold_texts(&self.names);
        hold_literals(&self.instrs);
    }
}

#[tactic(auto, using(crate::proofs::Holding::one_more))]
fn hold_texts(texts: &Listed<Text>)
    ensures { list_all is_text texts.now ≡ true }
{
    for text in texts.as_slice() {
        text.holds_bytes();
    }
}

#[tactic(auto, using(crate::proofs::Holding::one_more))]
fn hold_literals(instrs: &Listed<Instr>)
    ensures { list_all literal_is_held instrs.now ≡ true }
{
    for instr in instrs.as_slice() {
        hold_literal(*instr);
    }
}

fn hold_literal(instr: Instr)
    ensures { literal_is_held instr ≡ true }
{
    match instr {
        Instr::Const(k) => hold_int(k),
        Instr::JumpNot(_, k) => hold_int(k),
        _ => (),
    }
}

// An integer of 64 bits is one.
fn hold_int(k: i64)
    ensures { is_int k ≡ true }
{
    let _ = k;
}
