// The tokens of the pieces of quotations.
ghost use Rattle.std.specs.Prelude.{◌≡◌, ◌++◌, OnOk, flat_map};
ghost use Rattle.print_laws.specs.Printing.{piece_forms};

use crate::expressions::print_exp;
use crate::forms::Forms;
use crate::names::lone_name;
use sml_syntax::{Listed, NoMemory, Piece, TokenForm};

/// Pieces one after the other.
#[cycle(printed_programs)]
pub(crate) fn print_pieces(forms: &mut Forms, pieces: &Listed<Piece>) -> Result<(), NoMemory>
    ensures { OnOk result (forms.new ≡ forms.old ++ flat_map piece_forms pieces.now) }
{
    for piece in pieces.as_slice() {
        print_piece(forms, piece)?;
    }
    Ok(())
}

/// A text, a name that can only stand behind `^`, or an expression in parentheses.
#[cycle(printed_programs)]
#[tactic(auto, using(print_laws::proofs::Opened::piece_opened))]
fn print_piece(forms: &mut Forms, piece: &Piece) -> Result<(), NoMemory>
    ensures { OnOk result (forms.new ≡ forms.old ++ piece_forms piece.now) }
{
    match piece {
        Piece::Plain(text) => forms.plain(text)?,
        Piece::Anti(exp) => match lone_name(exp) {
            Some(name) => forms.anti(name)?,
            None => {
                forms.push(TokenForm::AntiFrom)?;
                print_exp(forms, exp)?;
                forms.push(TokenForm::AntiTo)?;
            }
        },
    }
    Ok(())
}
