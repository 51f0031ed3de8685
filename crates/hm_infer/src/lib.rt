#![tactic(auto)]
//! Types of programs: a type for each expression and pattern, or the first item that has none.
//!
//! `infer` (`program`) looks for names without a binding, and then goes through the items with the names in scope and one table of types
//! (`context`): patterns (`pattern`), expressions (`expression`), declarations of values (`declaration`, `bound`, `binding`), and those
//! of types and exceptions (`type_declaration`, `written`, `equality`). It lists a class for each node on its way (`inference`).

mod binding;
mod bound;
mod context;
mod declaration;
mod equality;
mod expression;
mod inference;
mod named;
mod pattern;
mod program;
mod refusal;
mod stands;
mod steady;
mod type_declaration;
mod typed;
mod uses;
mod written;

pub use program::infer;
pub use refusal::TypeRefusal;
pub use stands::{BASIS_DATATYPES, BASIS_EXCEPTIONS, Stands};
pub use typed::Typed;
