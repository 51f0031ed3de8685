// The values of the language, as its evaluation gives them. No value has an address.
use sml_syntax::{Boxed, Constructor, Listed, Rule, Text};
use web_data::{CacheId, Desc};

#[cycle(values)]
#[derive(PartialEq, Eq, Drop)]
pub enum Value {
    Int(i64),
    Char(u8),
    Str(Text),
    Unit,
    Tuple(Listed<Value>),
    /// A constructor without an argument: the numbers of its datatype and of itself in it.
    Con(u32, u32),
    /// A constructor on its argument.
    Applied(u32, u32, Boxed<Value>),
    /// A packet: an exception by its number, and its argument, if it has one.
    Exn(u32, Option<Boxed<Value>>),
    /// A constructor, an exception or `ref` that takes an argument and has none yet.
    Maker(Constructor),
    /// A reference by its number.
    Ref(u64),
    Fun(Closure),
    /// A primitive by its name, with the arguments so far.
    Prim(Text, Listed<Value>),
    /// A description: a value of `Web.Cache.ty`.
    Desc(Desc),
    Cache(CacheId),
}

/// A function: its rules, what the program binds the names in them to, and the functions of its
/// own declaration, which it may call.
#[cycle(values)]
#[derive(PartialEq, Eq, Drop)]
pub struct Closure {
    pub rules: Listed<Rule>,
    pub env: Listed<(Text, Bound)>,
    pub group: Listed<(Text, Listed<Rule>)>,
}

/// What a name stands for.
#[cycle(values)]
#[derive(PartialEq, Eq, Drop)]
pub enum Bound {
    Variable(Value),
    /// A constructor or an exception, and whether it takes an argument.
    Constructor(Constructor, bool),
}
