//! What the grammar's machine reads, the grammar derives: a tree for all that it accepts, and a beginning of a program
//! where it stops.
//!
//! Theory alone, over lists of tokens. `proofs/Sem` says what each symbol of the machine stands for, `proofs/Fine` what
//! has to hold of an entry of its table, and the files named after phrases prove that of each entry. `proofs/Viable`
//! has the place of the first unexpected token, given that the machine finds each tree.
#![tactic(auto)]

mod laws;

pub use laws::{accepted_tokens_have_a_tree, what_was_read_begins_a_program};
