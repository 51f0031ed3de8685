//! What a program is printed as, token by token, and that the tokens read back.
//!
//! - `Spelled`, `Printing`: the tokens of each kind of tree and their text; `Opened` says the same by the parts of each form.
//! - `SameTree`: trees that are the same, spans aside.
//! - `ReadBack`: the laws.
//! - `Bytes`: forms that can stand one behind another, and the tokens of their text.
//! - `Spelt`: what the tokens of a script fulfil, so that the forms that are printed of their tree can stand so.
#![tactic(auto)]

pub mod bytes;
mod laws;

pub use laws::{
    printed_expressions_read_back, printed_forms_fit, printed_parts_read_back,
    printed_programs_have_their_tree, printed_text_reads_back, same_trees_have_the_same_height,
};
