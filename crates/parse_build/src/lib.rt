//! Trees from acts: what the grammar's machine told of the tokens is made into the items of a program.
//!
//! `build` lets each act change the values so far (`expression`, `pattern`, `types`, `declaration`), and takes the items
//! that are left. It doesn't call itself, but what it builds is dropped by recursion: so heights are judged before it.
#![tactic(auto)]

mod curry;
mod declaration;
mod expression;
mod pattern;
mod program;
mod types;

pub use program::build;
