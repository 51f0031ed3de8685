/// Which types of a name admit equality.
#[derive(Clone, Copy, Debug, PartialEq, Eq)]
pub enum Equality {
    Never,
    Always,
    /// Those whose arguments all do.
    Parts,
}

/// A type name of a table.
#[derive(Clone, Copy, Debug, PartialEq, Eq)]
pub struct TypeName {
    pub arity: u32,
    pub equality: Equality,
    /// How many classes the table had when the name was declared.
    pub birth: u32,
}

/// What a class is.
#[derive(Clone, Copy, Debug, PartialEq, Eq)]
pub enum Node {
    Variable,
    /// A type name over so many parts, from this place in the table's list of parts on.
    Made(u32, u32, u32),
    /// The same as an older class.
    Link(u32),
}

/// What is asked of a class.
#[derive(Clone, Copy, Debug, PartialEq, Eq)]
pub struct Asked {
    /// Its type has to admit equality.
    pub equality: bool,
    /// Its type has names alone that were declared when the table had at most so many classes.
    pub birth: u32,
}
