#![tactic(auto)]
//! The first place of a program where something has no binding: a name, a type name or a type variable.
//!
//! `first_unbound` walks the program once, with the names in scope on a stack (`scope`), and keeps the least place that it
//! meets (`search`): types and patterns (`written`), expressions and matches (`expression`), declarations
//! (`declaration`).

mod basis;
mod declaration;
mod expression;
mod search;
mod written;

pub use search::first_unbound;
