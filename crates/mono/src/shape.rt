// Ground types by their heads, and by the numbers of their parts.

/// What stands at the top of a ground type.
#[derive(Clone, Copy, Debug, PartialEq, Eq, Hash)]
pub(crate) enum Head {
    Int,
    Char,
    Str,
    Unit,
    Exn,
    Tuple,
    Arrow,
    /// A datatype by its number.
    Data(u32),
    Ref,
    Cache,
    Desc,
    /// A parameter of a datatype's declaration, by its number.
    Var(u32),
}

/// A ground type, one level of it.
#[derive(Debug, PartialEq, Eq, Hash, Drop)]
pub(crate) struct Shape {
    pub(crate) head: Head,
    /// The numbers of its parts.
    pub(crate) parts: Vec<u32>,
}
