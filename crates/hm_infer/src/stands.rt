// What the names of a program stand for.
use sml_syntax::Constructor;

/// What the name of an expression or a pattern stands for. Datatypes and exceptions are numbered in the order of the text, those of the
/// basis first, and bindings as in `Typed::general`.
#[derive(Clone, Copy, Debug, PartialEq, Eq)]
pub enum Stands {
    /// The node isn't a name.
    Nothing,
    /// A name that the pattern of a rule binds; in a pattern any name that is bound there.
    Parameter,
    /// A name of a binding, where it stands behind it. The classes that are put in for the variables that the binding generalises
    /// stand in `Typed::put` from this place on, in the same order.
    Bound(u32, u32),
    /// A name of a group of functions, in the group itself.
    Own(u32),
    /// A value of the basis.
    Primitive,
    /// A constructor or exception.
    Con(Constructor),
}

/// How many datatypes the basis has.
pub const BASIS_DATATYPES: u32 = 6;

/// How many exceptions the basis has.
pub const BASIS_EXCEPTIONS: u32 = 9;

/// What the constructors of the basis without argument stand for.
pub(crate) const CONSTANTS_STAND: [Stands; 15] = [
    Stands::Con(Constructor::Data(0, 0)),
    Stands::Con(Constructor::Data(0, 1)),
    Stands::Con(Constructor::Data(1, 0)),
    Stands::Con(Constructor::Data(2, 0)),
    Stands::Con(Constructor::Data(3, 0)),
    Stands::Con(Constructor::Data(3, 1)),
    Stands::Con(Constructor::Data(3, 2)),
    Stands::Con(Constructor::Exn(0)),
    Stands::Con(Constructor::Exn(1)),
    Stands::Con(Constructor::Exn(2)),
    Stands::Con(Constructor::Exn(3)),
    Stands::Con(Constructor::Exn(4)),
    Stands::Con(Constructor::Exn(5)),
    Stands::Con(Constructor::Exn(6)),
    Stands::Con(Constructor::Exn(7)),
];

/// What the constructors of the basis with an argument stand for.
pub(crate) const APPLIED_STAND: [Stands; 8] = [
    Stands::Con(Constructor::Data(1, 1)),
    Stands::Con(Constructor::Data(2, 1)),
    Stands::Con(Constructor::Data(4, 0)),
    Stands::Con(Constructor::Data(4, 1)),
    Stands::Con(Constructor::Data(5, 0)),
    Stands::Con(Constructor::Data(5, 1)),
    Stands::Con(Constructor::Ref),
    Stands::Con(Constructor::Exn(8)),
];
