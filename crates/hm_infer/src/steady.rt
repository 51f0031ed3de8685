// Expressions that have no effect.
use crate::context::Context;
use hm_scheme::{Status, Stop};
use sml_syntax::{Exp, ExpForm, Piece, Text};

impl Context {
    /// Whether an expression applies nothing but constructors other than `ref`.
    #[cycle(steady)]
    pub(crate) fn is_steady(&mut self, e: &Exp) -> Result<bool, Stop> {
        match &e.form {
            ExpForm::Int(_)
            | ExpForm::Char(_)
            | ExpForm::Str(_)
            | ExpForm::Name(_)
            | ExpForm::Unit
            | ExpForm::Fn(_) => Ok(true),
            ExpForm::Tuple(es) => self.are_steady(es.as_slice()),
            ExpForm::List(es) => self.are_steady(es.as_slice()),
            ExpForm::Typed(part, _) => self.is_steady(part.get()),
            ExpForm::App(f, argument) => {
                if !self.constructs(f.get())? {
                    return Ok(false);
                }
                self.is_steady(argument.get())
            }
            ExpForm::Quote(pieces) => self.are_steady_pieces(pieces.as_slice()),
            _ => Ok(false),
        }
    }

    #[cycle(steady)]
    fn are_steady(&mut self, es: &[Exp]) -> Result<bool, Stop> {
        for e in es {
            if !self.is_steady(e)? {
                return Ok(false);
            }
        }
        Ok(true)
    }

    #[cycle(steady)]
    fn are_steady_pieces(&mut self, pieces: &[Piece]) -> Result<bool, Stop> {
        for piece in pieces {
            if let Piece::Anti(part) = piece {
                if !self.is_steady(part)? {
                    return Ok(false);
                }
            }
        }
        Ok(true)
    }

    // Whether an expression is a constructor other than `ref`.
    #[cycle(constructs)]
    fn constructs(&mut self, e: &Exp) -> Result<bool, Stop> {
        match &e.form {
            ExpForm::Name(name) => self.is_constructor(name),
            ExpForm::Typed(part, _) => self.constructs(part.get()),
            _ => Ok(false),
        }
    }

    fn is_constructor(&mut self, name: &Text) -> Result<bool, Stop> {
        if name.as_bytes() == b"ref".as_slice() {
            return Ok(false);
        }
        let name = self.name(name.as_bytes())?;
        match self.meaning(name) {
            Some(meaning) => Ok(meaning.status != Status::Variable),
            None => Ok(false),
        }
    }
}
