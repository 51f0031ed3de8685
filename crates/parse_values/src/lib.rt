//! What the acts of the grammar's machine have made so far: parts of a tree, the newest first.
//!
//! A part is taken off where it has the kind that is asked for. Where it has another, all parts are dropped, and nothing
//! is built any more: tokens that have a tree never come there.
#![tactic(auto)]

mod value;

pub use value::{DecVal, DefVal, ExpVal, PatVal, TyVal, Val, Values};
