// Region terms: specialised terms in which each boxed value has a place.
use crate::{Effect, MData, Place, RTy};
use sml_syntax::{Boxed, Constructor, Listed, Text};

/// A pattern.
#[cycle(region_patterns)]
#[derive(PartialEq, Eq, Drop)]
pub struct RPat {
    pub ty: RTy,
    pub form: RPatForm,
}

#[cycle(region_patterns)]
#[derive(PartialEq, Eq, Drop)]
pub enum RPatForm {
    /// `_`
    Any,
    Int(i64),
    Char(u8),
    /// A text constant, which is made in the place of the text that it is compared with.
    Str(Text),
    Unit,
    /// A name that it binds.
    Name(Text),
    Tuple(Listed<RPat>),
    List(Listed<RPat>),
    /// A constructor without an argument.
    Con(Constructor),
    /// A constructor and the pattern of its argument.
    App(Constructor, Boxed<RPat>),
}

/// An expression.
#[cycle(region_terms)]
#[derive(PartialEq, Eq, Drop)]
pub struct RExp {
    pub ty: RTy,
    pub form: RExpForm,
}

/// A form that makes a boxed value of its own has the place last. A primitive, a constructor or an
/// instance that stands for a function is made at the place of its type, and what an application
/// of a primitive or constructor makes lies at the place of the result's type.
#[cycle(region_terms)]
#[derive(PartialEq, Eq, Drop)]
pub enum RExpForm {
    Int(i64),
    Char(u8),
    Str(Text, Place),
    /// A name that a pattern or `val` binds.
    Name(Text),
    /// A primitive of the basis.
    Prim(Text),
    Con(Constructor),
    Unit,
    Tuple(Listed<RExp>, Place),
    List(Listed<RExp>, Place),
    /// `( .. ; .. )`
    Seq(Listed<RExp>),
    App(Boxed<RExp>, Boxed<RExp>),
    Let(Listed<RDec>, Listed<RExp>),
    Fn(Listed<RRule>, Place),
    Case(Boxed<RExp>, Listed<RRule>),
    Handle(Boxed<RExp>, Listed<RRule>),
    Raise(Boxed<RExp>),
    If(Boxed<RExp>, Boxed<RExp>, Boxed<RExp>),
    /// `andalso`
    Both(Boxed<RExp>, Boxed<RExp>),
    /// `orelse`
    Either(Boxed<RExp>, Boxed<RExp>),
    /// A quotation: plain pieces and antiquotations in turn, a plain piece first and last.
    Quote(Listed<RPiece>, Place),
    /// Fresh regions, which live while the body is evaluated.
    LetRegion(Listed<u32>, Boxed<RExp>),
    /// A group of functions and its scope.
    Fix(Listed<FixDef>, Boxed<RExp>),
    /// A use of a name of a group: places for its regions, and effects for its effect variables.
    Inst(Text, Listed<Place>, Listed<Effect>),
}

/// `pat => exp`
#[cycle(region_terms)]
#[derive(PartialEq, Eq, Drop)]
pub struct RRule {
    pub pat: RPat,
    pub body: RExp,
}

/// A piece of a quotation.
#[cycle(region_terms)]
#[derive(PartialEq, Eq, Drop)]
pub enum RPiece {
    Plain(Text),
    Anti(RExp),
}

/// `pat = exp`
#[cycle(region_terms)]
#[derive(PartialEq, Eq, Drop)]
pub struct RBind {
    pub pat: RPat,
    pub exp: RExp,
}

/// A function of a group: the regions and effect variables that it binds, its type, and where its
/// closure lies.
#[cycle(region_terms)]
#[derive(PartialEq, Eq, Drop)]
pub struct FixDef {
    pub name: Text,
    pub regions: Listed<u32>,
    pub effects: Listed<u32>,
    pub ty: RTy,
    pub rules: Listed<RRule>,
    pub at: Place,
}

/// A declaration of values.
#[cycle(region_terms)]
#[derive(PartialEq, Eq, Drop)]
pub enum RDec {
    /// `val pat = exp and ..`
    Val(Listed<RBind>),
    /// A group of functions, over all that its names scope over.
    ValRec(Listed<FixDef>),
    Local(Listed<RDec>, Listed<RDec>),
}

/// A program: the datatypes of the basis and then its own, likewise the exceptions, each with the
/// type of its argument, if any, and its items in order.
#[derive(PartialEq, Eq, Drop)]
pub struct RProgram {
    pub datatypes: Listed<MData>,
    pub exceptions: Listed<(Text, Option<RTy>)>,
    pub items: Listed<RDec>,
}
