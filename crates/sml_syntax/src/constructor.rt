/// What a constructor's name stands for.
#[derive(Clone, Copy, Debug, PartialEq, Eq)]
pub enum Constructor {
    /// One of a datatype: the numbers of the datatype and of the constructor in it.
    Data(u32, u32),
    /// An exception by its number.
    Exn(u32),
    /// `ref`
    Ref,
}
