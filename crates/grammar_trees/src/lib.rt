//! Completeness of the grammar's machine with trees: what the grammar derives the machine accepts, and its acts build
//! that tree.
#![tactic(auto)]

mod laws;

pub use laws::{one_tree, programs_are_accepted};
