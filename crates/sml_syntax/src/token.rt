// Tokens, and the forms that the language lacks.
ghost use Rattle.std.specs.Prelude.{◌≡◌, IfOk};

use crate::{NoMemory, Span, Text};
use std::alloc::Global;

/// A token with its place.
#[derive(Debug, PartialEq, Eq, Drop)]
pub struct Token {
    pub span: Span,
    pub form: TokenForm,
}

impl Token {
    pub fn try_copy(&self, alloc: Global) -> Result<Token, NoMemory>
        ensures { IfOk result (λ copy. copy ≡ self.now) }
    {
        Ok(Token {
            span: self.span,
            form: self.form.try_copy(alloc)?,
        })
    }
}

#[derive(Debug, PartialEq, Eq, Drop)]
pub enum TokenForm {
    Int(i64),
    Char(u8),
    Str(Text),
    /// A name of letters or of symbols.
    Name(Text),
    /// Names of letters joined by dots.
    Long(Text),
    /// A type variable with its prime.
    TyVar(Text),
    /// A reserved word, a reserved symbol or punctuation.
    Mark(Text),
    /// The first backquote of a quotation.
    QuoteFrom,
    /// A nonempty piece of a quotation's text.
    Plain(Text),
    /// `^` with its name.
    Anti(Text),
    /// `^(`
    AntiFrom,
    /// The `)` that ends an antiquotation.
    AntiTo,
    /// The last backquote of a quotation.
    QuoteTo,
}

impl TokenForm {
    pub fn try_copy(&self, alloc: Global) -> Result<TokenForm, NoMemory>
        ensures { IfOk result (λ copy. copy ≡ self.now) }
    {
        match self {
            TokenForm::Int(n) => Ok(TokenForm::Int(*n)),
            TokenForm::Char(c) => Ok(TokenForm::Char(*c)),
            TokenForm::Str(text) => Ok(TokenForm::Str(text.try_copy(alloc)?)),
            TokenForm::Name(name) => Ok(TokenForm::Name(name.try_copy(alloc)?)),
            TokenForm::Long(name) => Ok(TokenForm::Long(name.try_copy(alloc)?)),
            TokenForm::TyVar(name) => Ok(TokenForm::TyVar(name.try_copy(alloc)?)),
            TokenForm::Mark(text) => Ok(TokenForm::Mark(text.try_copy(alloc)?)),
            TokenForm::QuoteFrom => Ok(TokenForm::QuoteFrom),
            TokenForm::Plain(text) => Ok(TokenForm::Plain(text.try_copy(alloc)?)),
            TokenForm::Anti(name) => Ok(TokenForm::Anti(name.try_copy(alloc)?)),
            TokenForm::AntiFrom => Ok(TokenForm::AntiFrom),
            TokenForm::AntiTo => Ok(TokenForm::AntiTo),
            TokenForm::QuoteTo => Ok(TokenForm::QuoteTo),
        }
    }
}

/// A form of Standard ML that this language leaves out.
#[derive(Clone, Copy, Debug, PartialEq, Eq)]
pub enum Lack {
    Module,
    Records,
    Layered,
    Abstype,
    Fixity,
    While,
    Reals,
    Words,
    Hexadecimal,
    Escape,
    LocalType,
    Replication,
    ConstraintVar,
    NestedType,
    InfixClause,
}

impl Lack {
    /// Takes no memory.
    pub fn try_copy(&self, _: Global) -> Result<Lack, NoMemory>
        ensures { IfOk result (λ copy. copy ≡ self.now) }
    {
        Ok(*self)
    }
}
