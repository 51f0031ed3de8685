#![tactic(auto)]
//! Names in scope, what they stand for, and a table of types with the type names of the language.
//!
//! Names become numbers (`Names`), a scope says for each what it stands for (`Scope`), and that is a scheme with a status, or a
//! type function (`meaning`). `Types` is a table of types in which the types of the basis, functions, tuples and the declared
//! datatypes have names. The basis is told by tables (`basis`), in which types are spelt by steps. `widest` says how wide
//! the tuples of a program are.

mod basis;
mod meaning;
mod names;
mod refusal;
mod scope;
mod type_name;
mod types;
mod width;

pub use basis::{
    APPLIED, CONSTANTS, FIXED, PRELUDE_LONG, TYPES, VALUES, has_variables, is_among, is_long,
    may_construct, may_declare, tables_spell_the_basis,
};
pub use meaning::{Meaning, Scheme, Status, TypeFunction, TypeMeaning};
pub use names::Names;
pub use refusal::Stop;
pub use scope::Scope;
pub use type_name::TyName;
pub use types::{Plain, Types};
pub use width::widest;
