// Types without variables, and types with places.
use sml_syntax::{Boxed, Listed, Text};

/// A type. The variables stand only in the declaration of a datatype.
#[derive(PartialEq, Eq, Drop)]
pub enum MTy {
    Int,
    Char,
    Str,
    Unit,
    Exn,
    Tuple(Listed<MTy>),
    Arrow(Boxed<MTy>, Boxed<MTy>),
    /// A datatype by its number in the program, and its arguments.
    DataTy(u32, Listed<MTy>),
    Ref(Boxed<MTy>),
    /// A cache, with the types of its keys and values.
    CacheTy(Boxed<MTy>, Boxed<MTy>),
    /// The description of a type.
    DescTy(Boxed<MTy>),
    /// A parameter of the datatype around it, by its number.
    Var(u32),
}

/// A datatype: how many parameters it has, and its constructors in order, each with the type of its
/// argument, if any.
#[derive(PartialEq, Eq, Drop)]
pub struct MData {
    /// The number of the `datatype` declaration that it stands in: those of the basis come first,
    /// one for each of its datatypes, and then the program's in order.
    pub declaration: u32,
    pub params: u32,
    pub cons: Listed<(Text, Option<MTy>)>,
}

/// Where a boxed value lies.
#[derive(Clone, Copy, Debug, PartialEq, Eq)]
pub enum Place {
    /// The region that lives as long as the run.
    Global,
    /// A region by its number in the program.
    Reg(u32),
}

/// The regions that a function makes or follows values in when it is called, and its effect
/// variables: both in order and without repeats, `Global` first.
#[derive(PartialEq, Eq, Drop)]
pub struct Effect {
    pub regions: Listed<Place>,
    pub vars: Listed<u32>,
}

/// A type with a place for each boxed value, and an effect at each function.
#[derive(PartialEq, Eq, Drop)]
pub enum RTy {
    Int,
    Char,
    Unit,
    Str(Place),
    Tuple(Place, Listed<RTy>),
    Arrow(Place, Boxed<RTy>, Effect, Boxed<RTy>),
    /// A datatype by its number, its arguments, the place of its values and of all boxed parts that
    /// its declaration names, and the effect of all functions that its declaration names.
    DataTy {
        number: u32,
        args: Listed<RTy>,
        place: Place,
        effect: Effect,
    },
    Ref(Place, Boxed<RTy>),
    /// Packets, which lie in the global region.
    Exn,
    CacheTy(Place, Boxed<MTy>, Boxed<MTy>),
    DescTy(Boxed<MTy>),
}
