//! The printer: the text of a tree.
//!
//! - `forms`: tokens in a row, and the names, lists and marks among them.
//! - `types`, `patterns`, `expressions`, `operations`, `functions`, `declarations`: the tokens of each kind of tree.
//! - `places`: where parentheses are wanted.
//! - `spelling`: the bytes of a token.
#![tactic(auto)]

ghost use Rattle.std.specs.Prelude.{◌≡◌, ◌++◌, ◌∷◌, [], IfOk, OnOk};
ghost use Rattle.print_laws.specs.Printing.{printed, dec_forms};
ghost use Rattle.print_laws.specs.Spelled.{spelled};

mod declarations;
mod definitions;
mod expressions;
mod forms;
mod functions;
mod names;
mod operations;
mod patterns;
mod places;
mod quotations;
mod rules;
mod spelling;
mod types;

use declarations::print_dec;
use forms::Forms;
use sml_syntax::{Dec, NoMemory, Program, Text};
use spelling::push_tokens;
use std::alloc::Global;

/// The text of a program, a declaration a line. Where the program is that of some text, this one has it too, with other spans: see
/// `printed_text_reads_back` of `print_laws`. A tree that no text has gets a text too, which need not be one of that tree.
#[tactic(auto, unfolding(print_laws::specs::Printing::printed))]
pub fn print_program(alloc: Global, program: &Program) -> Result<Text, NoMemory>
    ensures { IfOk result (λ text. text ≡ printed program.now) }
{
    let mut out = Vec::new(alloc);
    for dec in program.items.as_slice() {
        push_line(alloc, &mut out, dec)?;
    }
    Ok(Text::from_vec(out))
}

/// Writes a declaration and a line feed at the end.
fn push_line(alloc: Global, out: &mut Vec<u8>, dec: &Dec) -> Result<(), NoMemory>
    ensures { OnOk result (out.new.items ≡ out.old.items ++ (spelled (dec_forms dec.now) ++ 10 ∷ [])) }
{
    let mut forms = Forms::new(alloc);
    print_dec(&mut forms, dec)?;
    push_tokens(out, forms.as_slice())?;
    Ok(out.push(b'\n')?)
}
