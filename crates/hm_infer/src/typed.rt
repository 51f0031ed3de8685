use crate::stands::Stands;
use hm_scheme::TyName;
use hm_types::TypeTable;
use sml_syntax::{Listed, Program};

/// A program with its types.
#[derive(Drop)]
pub struct Typed {
    pub program: Program,
    pub table: TypeTable,
    /// A class for each expression and each pattern, in the order of the text, each before its parts.
    pub types: Listed<u32>,
    /// For each of them, in the same order, the number behind the last of its parts.
    pub ends: Listed<u32>,
    /// For each of them, in the same order, what its name stands for; those behind the last that has a name may be left out.
    pub stands: Listed<Stands>,
    /// The classes that uses of names put in for the variables of their bindings.
    pub put: Listed<u32>,
    /// What the type names of the table stand for.
    pub names: Listed<TyName>,
    /// For each binding in the order of the text the variables that it generalises. A group of functions is one binding, and so
    /// is each pattern of a `val` with its expression.
    pub general: Listed<Listed<u32>>,
    /// For each binding, in the same order, its first node.
    pub begins: Listed<u32>,
    /// For each declared datatype in the order of the text the classes of its variables.
    pub parameters: Listed<Listed<u32>>,
    /// For each declared constructor and exception in the order of the text the class of its argument, if it has one.
    pub arguments: Listed<Option<u32>>,
}
