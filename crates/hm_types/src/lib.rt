#![tactic(auto)]
//! Types as classes of a table: equations between them, and most general unifiers.
//!
//! A class is a variable, a type name over other classes, or the same as an older class (`node`). The solutions of a
//! table give each class a type that its node allows and that has what is asked of the class: equality, and only type
//! names that were declared before the class was made. `unify` joins two classes and what follows from that (`join`),
//! hands what is asked of the joined classes on to their parts (`spread`), and looks for a type that would hold itself
//! (`search`). Nothing here expands a type: each walk visits a class once.

mod copy;
mod join;
mod node;
mod refusal;
mod search;
mod spread;
mod type_table;

pub use node::{Asked, Equality, Node, TypeName};
pub use refusal::UnifyRefusal;
pub use type_table::TypeTable;
