// Specialised terms: the trees of programs with a type without variables at each node,
// constructors resolved, and one copy of a polymorphic binding for each of its instances.
use crate::{MData, MTy};
use sml_syntax::{Boxed, Constructor, Listed, Text};

/// A pattern.
#[cycle(specialised_patterns)]
#[derive(PartialEq, Eq, Drop)]
pub struct MPat {
    pub ty: MTy,
    pub form: MPatForm,
}

#[cycle(specialised_patterns)]
#[derive(PartialEq, Eq, Drop)]
pub enum MPatForm {
    /// `_`
    Any,
    Int(i64),
    Char(u8),
    Str(Text),
    Unit,
    /// A name that it binds.
    Name(Text),
    Tuple(Listed<MPat>),
    List(Listed<MPat>),
    /// A constructor without an argument.
    Con(Constructor),
    /// A constructor and the pattern of its argument.
    App(Constructor, Boxed<MPat>),
}

/// An expression.
#[cycle(specialised_terms)]
#[derive(PartialEq, Eq, Drop)]
pub struct MExp {
    pub ty: MTy,
    pub form: MExpForm,
}

/// The forms of the language's expressions, without type constraints.
#[cycle(specialised_terms)]
#[derive(PartialEq, Eq, Drop)]
pub enum MExpForm {
    Int(i64),
    Char(u8),
    Str(Text),
    /// A name that a pattern or declaration binds.
    Name(Text),
    /// A primitive of the basis.
    Prim(Text),
    Con(Constructor),
    Unit,
    Tuple(Listed<MExp>),
    List(Listed<MExp>),
    /// `( .. ; .. )`
    Seq(Listed<MExp>),
    App(Boxed<MExp>, Boxed<MExp>),
    Let(Listed<MDec>, Listed<MExp>),
    Fn(Listed<MRule>),
    Case(Boxed<MExp>, Listed<MRule>),
    Handle(Boxed<MExp>, Listed<MRule>),
    Raise(Boxed<MExp>),
    If(Boxed<MExp>, Boxed<MExp>, Boxed<MExp>),
    /// `andalso`
    Both(Boxed<MExp>, Boxed<MExp>),
    /// `orelse`
    Either(Boxed<MExp>, Boxed<MExp>),
    /// A quotation: plain pieces and antiquotations in turn, a plain piece first and last.
    Quote(Listed<MPiece>),
}

/// `pat => exp`
#[cycle(specialised_terms)]
#[derive(PartialEq, Eq, Drop)]
pub struct MRule {
    pub pat: MPat,
    pub body: MExp,
}

/// A piece of a quotation.
#[cycle(specialised_terms)]
#[derive(PartialEq, Eq, Drop)]
pub enum MPiece {
    Plain(Text),
    Anti(MExp),
}

/// `pat = exp`
#[cycle(specialised_terms)]
#[derive(PartialEq, Eq, Drop)]
pub struct MBind {
    pub pat: MPat,
    pub exp: MExp,
}

/// A function of a group: `name = fn match`
#[cycle(specialised_terms)]
#[derive(PartialEq, Eq, Drop)]
pub struct MDef {
    pub name: Text,
    pub rules: Listed<MRule>,
}

/// A declaration of values.
#[cycle(specialised_terms)]
#[derive(PartialEq, Eq, Drop)]
pub enum MDec {
    /// `val pat = exp and ..`
    Val(Listed<MBind>),
    /// `val rec name = fn match and ..`
    ValRec(Listed<MDef>),
    Local(Listed<MDec>, Listed<MDec>),
}

/// A program: the datatypes of the basis and then its own, likewise the exceptions, each with the
/// type of its argument, if any, and its items in order.
#[derive(PartialEq, Eq, Drop)]
pub struct MProgram {
    pub datatypes: Listed<MData>,
    pub exceptions: Listed<(Text, Option<MTy>)>,
    pub items: Listed<MDec>,
}
