/// What a type name of the table stands for.
#[derive(Clone, Copy, Debug, PartialEq, Eq)]
pub enum TyName {
    /// A type of the basis, by its place in the table of these.
    Basis(u32),
    Arrow,
    /// Tuples of so many parts.
    Tuple(u32),
    /// A declared datatype, by its number in the order of the text.
    Declared(u32),
}
