// What the machine's stack holds.
use crate::act::Act;
use crate::mark::Mark;
use sml_syntax::Text;

/// Expressions.
#[derive(Drop)]
pub enum ExpPhrase {
    Whole,
    AndPart,
    OrPart,
    Operand(u8),
    OpName,
}

/// What may follow an expression or a part of one that began at a place.
#[derive(Drop)]
pub enum ExpRest {
    App(u64),
    Infix(u8, u64),
    Typed(u64),
    And(u64),
    Or(u64),
    Handle(u64),
    Match,
}

/// What follows an opening bracket or `in`.
#[derive(Drop)]
pub enum ExpItems {
    Opened(u64),
    AfterFirst(u64),
    Tuple(u64),
    Seq(u64),
    OpenedList(u64),
    List(u64),
    Let,
}

/// The inside of a quotation.
#[derive(Drop)]
pub enum Quoted {
    Any,
    AfterPlain,
    AntiEnd,
}

/// Patterns.
#[derive(Drop)]
pub enum PatPhrase {
    Whole,
    ConsPart,
    ConsRest(u64),
    TypedRest(u64),
    OpName,
    Argument(u64),
    Atomic,
    OpAtomic,
}

/// Patterns in brackets.
#[derive(Drop)]
pub enum PatItems {
    Opened(u64),
    AfterFirst(u64),
    Tuple(u64),
    OpenedList(u64),
    List(u64),
}

/// Types; the flag allows type variables.
#[derive(Drop)]
pub enum TyPhrase {
    Whole(bool),
    Part(bool),
    ArgumentRest(u64),
    StarRest(bool, u64),
    StarMore(bool),
    ArrowRest(bool, u64),
    AfterFirst(bool, u64),
    More(bool, u64),
    Name(u64),
}

/// Items and declarations.
#[derive(Drop)]
pub enum DecPhrase {
    Items,
    AfterDec,
    AfterExp,
    Inner,
    AfterInner,
    ValFirst(u64),
    ValRest,
    RecBind,
    RecRest,
}

/// Variables and names of `type` and `datatype`.
#[derive(Drop)]
pub enum HeadPhrase {
    Type,
    TypeName,
    Data(bool),
    DataName,
    Var,
    Vars,
    TypeRest,
}

/// Constructors and exceptions.
#[derive(Drop)]
pub enum ConPhrase {
    Body(bool),
    Original,
    Bind,
    Argument,
    Rest,
    DataRest,
    Exn,
    ExnArgument(u64),
    ExnRest,
}

/// The first clause of a function.
#[derive(Drop)]
pub enum FunPhrase {
    Bind,
    Rest,
    Op(u64),
    Head(u64, u64, Text),
    Infix(u64),
    Patterns(u64, Text, u64),
    Equals(u64, u64),
}

/// Its later clauses.
#[derive(Drop)]
pub enum LaterPhrase {
    Rest(Text, u64),
    Clause(Text, u64),
    Op(u64, Text, u64),
    Head(u64, u64, Text, Text),
    Infix(u64, Text),
    Patterns(u64),
}

/// What is still to be done, wanted or read.
#[derive(Drop)]
pub enum Sym {
    Do(Act),
    Want(Mark),
    Exp(ExpPhrase),
    ExpRest(ExpRest),
    ExpItems(ExpItems),
    Quoted(Quoted),
    Pat(PatPhrase),
    PatItems(PatItems),
    Ty(TyPhrase),
    Dec(DecPhrase),
    Head(HeadPhrase),
    Con(ConPhrase),
    Fun(FunPhrase),
    Later(LaterPhrase),
}
