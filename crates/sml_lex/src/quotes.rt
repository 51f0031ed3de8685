// Where the lexer stands among quotations.
ghost use Rattle.std.specs.Prelude.{◌≡◌, OnOk, IfOk, IfErr, None};
ghost use Rattle.sml_lex.specs.Coded.{refusal_of};
ghost use Rattle.grammar_rules.specs.Tokens as tokens;
ghost use Rattle.sml_lex.specs.Modes as modes;

use crate::refusal::LexRefusal;
use sml_syntax::TokenForm;
use std::alloc::Global;
use std::marker::Model;

/// Outside all quotations, in the text of one, or in an expression of one with its open parentheses.
#[derive(Clone, Copy)]
pub(crate) enum Place {
    Program,
    Text,
    Expression(u64),
}

/// The quotations that are open at a place.
#[derive(Drop)]
pub(crate) struct Quotes {
    place: Place,
    /// Where the outermost one begins.
    start: u64,
    /// The open parentheses of the expressions around, the innermost last.
    around: Vec<u64>,
}

impl Model for Quotes {
    ghost use Rattle.std.specs.Prelude.{reverse};
    ghost use Rattle.grammar_rules.specs.Tokens.{Mode};
    ghost use Rattle.sml_lex.specs.Modes.{mode_of};

    ghost Value = { Mode };

    ghost view = { λ q. mode_of q.place q.start (reverse q.around.items) };
}

impl Quotes {
    pub fn none(alloc: Global) -> Quotes
        ensures { result ≡ tokens.Program }
    {
        Quotes {
            place: Place::Program,
            start: 0,
            around: Vec::new(alloc),
        }
    }

    pub fn is_in_text(&self) -> bool
        ensures { result ≡ modes.is_in_text self.now }
    {
        match self.place {
            Place::Text => true,
            Place::Program => false,
            Place::Expression(_) => false,
        }
    }

    /// The next `)` ends an antiquotation.
    pub fn ends_at_close(&self) -> bool
        ensures { result ≡ modes.ends_at_close self.now }
    {
        match self.place {
            Place::Expression(parens) => parens == 0,
            Place::Program => false,
            Place::Text => false,
        }
    }

    /// The start of the outermost open quotation.
    pub fn outermost(&self) -> Option<u64>
        ensures { result ≡ modes.outermost_of self.now }
    {
        match self.place {
            Place::Program => None,
            Place::Text => Some(self.start),
            Place::Expression(_) => Some(self.start),
        }
    }

    /// Takes a token at a place.
    pub fn take(&mut self, at: u64, form: &TokenForm) -> Result<(), LexRefusal>
        ensures mode { OnOk result (self.new ≡ tokens.behind_token self.old at form.now) }
        ensures memory { IfErr result (λ e. refusal_of e ≡ None) }
    {
        match form {
            TokenForm::QuoteFrom => self.open_quotation(at)?,
            TokenForm::QuoteTo => self.shut_quotation(),
            TokenForm::AntiFrom => self.open_expression(),
            TokenForm::AntiTo => self.shut_expression(),
            TokenForm::Mark(mark) => self.take_mark(mark.as_bytes())?,
            _ => {}
        }
        Ok(())
    }

    fn open_quotation(&mut self, at: u64) -> Result<(), LexRefusal>
        ensures mode { OnOk result (self.new ≡ modes.opened self.old at) }
        ensures memory { IfErr result (λ e. refusal_of e ≡ None) }
    {
        match self.place {
            Place::Program => {
                self.around.clear();
                self.start = at;
                self.place = Place::Text;
            }
            Place::Expression(parens) => {
                self.around.push(parens)?;
                self.place = Place::Text;
            }
            Place::Text => {}
        }
        Ok(())
    }

    fn shut_quotation(&mut self)
        ensures { self.new ≡ modes.shut self.old }
    {
        match self.place {
            Place::Text => {
                self.place = match self.around.pop() {
                    Some(parens) => Place::Expression(parens),
                    None => Place::Program,
                };
            }
            Place::Program => {}
            Place::Expression(_) => {}
        }
    }

    fn open_expression(&mut self)
        ensures { self.new ≡ modes.entered self.old }
    {
        match self.place {
            Place::Text => self.place = Place::Expression(0),
            Place::Program => {}
            Place::Expression(_) => {}
        }
    }

    fn shut_expression(&mut self)
        ensures { self.new ≡ modes.left self.old }
    {
        match self.place {
            Place::Expression(_) => self.place = Place::Text,
            Place::Program => {}
            Place::Text => {}
        }
    }

    fn take_mark(&mut self, mark: &[u8]) -> Result<(), LexRefusal>
        ensures mode { OnOk result (self.new ≡ modes.marked self.old mark.now) }
        ensures memory { IfErr result (λ e. refusal_of e ≡ None) }
    {
        match self.place {
            Place::Expression(parens) => {
                self.place = Place::Expression(parens_behind(mark, parens)?);
            }
            Place::Program => {}
            Place::Text => {}
        }
        Ok(())
    }
}

/// How many parentheses are open behind a mark.
fn parens_behind(mark: &[u8], parens: u64) -> Result<u64, LexRefusal>
    ensures count { IfOk result (λ n. n ≡ tokens.parens_behind mark.now parens) }
    ensures memory { IfErr result (λ e. refusal_of e ≡ None) }
{
    if mark == b"(".as_slice() {
        return parens.checked_add(1).ok_or(LexRefusal::NoMemory);
    }
    if mark == b")".as_slice() {
        return Ok(parens.saturating_sub(1));
    }
    Ok(parens)
}
