// The trees of programs, as the parser gives them.
ghost use Rattle.std.specs.Prelude.{◌≡◌, IfOk};

use crate::{Boxed, Listed, NoMemory, Text};
use std::alloc::Global;

/// Where a node stands in its text, as byte offsets: the first byte, and the end of the last token.
/// Parentheses around a node don't belong to it.
#[derive(Clone, Copy, Debug, PartialEq, Eq)]
pub struct Span {
    pub from: u64,
    pub to: u64,
}

impl Span {
    /// Takes no memory.
    pub fn try_copy(&self, _: Global) -> Result<Span, NoMemory>
        ensures { IfOk result (λ copy. copy ≡ self.now) }
    {
        Ok(*self)
    }
}

/// A type.
#[cycle(types)]
#[derive(PartialEq, Eq, Drop)]
pub struct Ty {
    pub span: Span,
    pub form: TyForm,
}

#[cycle(types)]
#[derive(PartialEq, Eq, Drop)]
pub enum TyForm {
    /// A type variable with its prime.
    Var(Text),
    /// A type name and its arguments.
    Con(Text, Listed<Ty>),
    Tuple(Listed<Ty>),
    Arrow(Boxed<Ty>, Boxed<Ty>),
}

/// A pattern.
#[cycle(patterns)]
#[derive(PartialEq, Eq, Drop)]
pub struct Pat {
    pub span: Span,
    pub form: PatForm,
}

#[cycle(patterns)]
#[derive(PartialEq, Eq, Drop)]
pub enum PatForm {
    /// `_`
    Any,
    Int(i64),
    Char(u8),
    Str(Text),
    Unit,
    /// A variable, or a constructor exactly where one of that name is in scope.
    Name(Text),
    Tuple(Listed<Pat>),
    List(Listed<Pat>),
    /// A constructor and the pattern of its argument.
    Con(Text, Boxed<Pat>),
    Typed(Boxed<Pat>, Ty),
}

/// An expression.
#[cycle(programs)]
#[derive(PartialEq, Eq, Drop)]
pub struct Exp {
    pub span: Span,
    pub form: ExpForm,
}

/// Derived forms such as `if` and lists stay as they are written.
#[cycle(programs)]
#[derive(PartialEq, Eq, Drop)]
pub enum ExpForm {
    Int(i64),
    Char(u8),
    Str(Text),
    Name(Text),
    Unit,
    Tuple(Listed<Exp>),
    List(Listed<Exp>),
    /// `( .. ; .. )`
    Seq(Listed<Exp>),
    /// An infix application is that of its name to a tuple.
    App(Boxed<Exp>, Boxed<Exp>),
    Let(Listed<Dec>, Listed<Exp>),
    Fn(Listed<Rule>),
    Case(Boxed<Exp>, Listed<Rule>),
    Handle(Boxed<Exp>, Listed<Rule>),
    Raise(Boxed<Exp>),
    If(Boxed<Exp>, Boxed<Exp>, Boxed<Exp>),
    /// `andalso`
    Both(Boxed<Exp>, Boxed<Exp>),
    /// `orelse`
    Either(Boxed<Exp>, Boxed<Exp>),
    /// A quotation: plain pieces and antiquotations in turn, a plain piece first and last.
    Quote(Listed<Piece>),
    Typed(Boxed<Exp>, Ty),
}

/// `pat => exp`
#[cycle(programs)]
#[derive(PartialEq, Eq, Drop)]
pub struct Rule {
    pub pat: Pat,
    pub body: Exp,
}

/// A piece of a quotation.
#[cycle(programs)]
#[derive(PartialEq, Eq, Drop)]
pub enum Piece {
    Plain(Text),
    Anti(Exp),
}

/// A declaration.
#[cycle(programs)]
#[derive(PartialEq, Eq, Drop)]
pub struct Dec {
    pub span: Span,
    pub form: DecForm,
}

#[cycle(programs)]
#[derive(PartialEq, Eq, Drop)]
pub enum DecForm {
    /// `val pat = exp and ..`
    Val(Listed<(Pat, Exp)>),
    /// `val rec name = fn match and ..`, and `fun` by its derived form.
    ValRec(Listed<(Text, Listed<Rule>)>),
    /// `type`: variables, name and what it stands for.
    Abbrev(Listed<(Listed<Text>, Text, Ty)>),
    /// `datatype`: variables, name and constructors, each with the type of its argument, if any.
    DataDef(Listed<(Listed<Text>, Text, Listed<(Text, Option<Ty>)>)>),
    /// `exception`: name and the type of its argument, if any.
    ExnDef(Listed<(Text, Option<Ty>)>),
    Local(Listed<Dec>, Listed<Dec>),
}

/// A program: its top-level items in order.
#[derive(PartialEq, Eq, Drop)]
pub struct Program {
    pub items: Listed<Dec>,
}
