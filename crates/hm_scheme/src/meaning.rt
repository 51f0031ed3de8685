// What value names and type names stand for.

/// The type of a name.
#[derive(Clone, Copy, Debug, PartialEq, Eq)]
pub enum Scheme {
    /// One type.
    Held(u32),
    /// A class, of which what isn't older than the mark is made anew for each use.
    General(u32, u32),
    /// A type of the basis, spelt by steps.
    Spelt(&'static str),
}

/// The status of a name.
#[derive(Clone, Copy, Debug, PartialEq, Eq)]
pub enum Status {
    Variable,
    Constant,
    /// A constructor with an argument.
    Applied,
}

/// A value name's meaning.
#[derive(Clone, Copy, Debug, PartialEq, Eq)]
pub struct Meaning {
    pub status: Status,
    pub scheme: Scheme,
}

/// A type name's meaning.
#[derive(Clone, Copy, Debug, PartialEq, Eq)]
pub enum TypeMeaning {
    /// A name of the table.
    Name(u32),
    /// A tuple of its parameters and of what it stands for, of which what isn't older than the mark is made anew.
    Written(u32, u32),
}

/// A type function: how many arguments it takes, which of them have to admit equality so that its types do, none where its types never
/// do, and what it stands for.
#[derive(Drop)]
pub struct TypeFunction {
    pub arity: usize,
    pub equality: Option<Vec<bool>>,
    pub meaning: TypeMeaning,
}
