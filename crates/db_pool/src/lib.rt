//! The handle of a database: its name, the keeper that stands, and the spares.
//!
//! Code above the handle is generic in it, by the trait `Handled`: a struct with a type parameter can't be made at a
//! type that holds boxed keepers. Only the calls at the top have boxes in their signatures.
#![tactic(auto)]

mod handle;
mod handled;

pub use handle::Handle;
pub use handled::Handled;
