// What builds a tree: each act makes a value of those on top of a stack of values.
use sml_syntax::{Lack, Text};

/// Acts on expressions, rules and pieces. A number alone is the first byte of what is made.
#[derive(Drop)]
pub enum ExpAct {
    /// An integer, from its first byte.
    Int(u64, i64),
    Char(u64, u8),
    Str(u64, Text),
    Name(u64, Text),
    Unit(u64),
    /// No expressions yet.
    NoExps,
    /// The expression on top is the first of a list.
    First,
    /// It joins the list below it.
    Push,
    Tuple(u64),
    List(u64),
    Seq(u64),
    /// The two expressions on top are an application.
    App(u64),
    /// Operand, operator and operand.
    Infix(u64),
    /// An expression and its type.
    Typed(u64),
    Both(u64),
    Either(u64),
    Handle(u64),
    Raise(u64),
    If(u64),
    Case(u64),
    Fn(u64),
    Let(u64),
    NoRules,
    /// A pattern and a body join the rules below them.
    AddRule,
    NoPieces,
    Plain(Text),
    /// The empty piece where no text stands.
    EmptyPlain,
    /// An expression joins the pieces below it.
    AddAnti,
    Quote(u64),
}

/// Acts on patterns. A number alone is the first byte of what is made.
#[derive(Drop)]
pub enum PatAct {
    Any(u64),
    Int(u64, i64),
    Char(u64, u8),
    Str(u64, Text),
    Unit(u64),
    Name(u64, Text),
    NoPats,
    First,
    Push,
    Tuple(u64),
    List(u64),
    /// A name and the pattern of its argument.
    Con(u64),
    /// The two sides of `::`.
    Cons(u64),
    Typed(u64),
    /// The two sides of a clause's infix name.
    Pair(u64),
    /// The patterns on top are those of a clause that has several.
    Tupled,
}

/// Acts on types. A number alone is the first byte of what is made.
#[derive(Drop)]
pub enum TyAct {
    Var(u64, Text),
    NoTys,
    First,
    Push,
    /// A type name on the types of the list.
    Con(u64, Text),
    Tuple(u64),
    Arrow(u64),
}

/// Acts on declarations and their parts. A number alone is the first byte of what is made.
#[derive(Drop)]
pub enum DecAct {
    NoBinds,
    AddBind,
    Val(u64),
    NoRecs,
    /// A result type and its body.
    Constrain(u64),
    /// Patterns and body of a clause.
    AddClause(u64),
    /// The clauses of a function of so many patterns become one rule.
    Curry(u64, u64),
    /// Rules become those of a name.
    AddRec(Text),
    ValRec(u64),
    NoVars,
    AddVar(Text),
    /// The name of a type with the variables before it.
    Head(Text),
    NoAbbrevs,
    AddAbbrev,
    Abbrev(u64),
    NoCons,
    /// A constructor or an exception.
    Con(Text),
    /// It has an argument of the type on top.
    ConOf,
    AddCon,
    NoDatas,
    AddData,
    DataDef(u64),
    ExnDef(u64),
    NoDecs,
    AddDec,
    Local(u64),
    /// An expression becomes a declaration of `it`.
    It(u64),
    /// The declaration on top is the next item of the program.
    Item(u64),
}

/// An act, or a lack that was met.
#[derive(Drop)]
pub enum Act {
    Exp(ExpAct),
    Pat(PatAct),
    Ty(TyAct),
    Dec(DecAct),
    /// A form that the language lacks, and its place.
    Lack(u64, Lack),
}

/// An act and the end of the last token before it, where what it makes ends.
#[derive(Drop)]
pub struct Made {
    pub act: Act,
    pub to: u64,
}
