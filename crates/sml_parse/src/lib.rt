//! The parser: the tree of tokens, or the place where they stop being a program.
//!
//! `parse` reads the tokens by the machine of `sml_grammar`, which tells acts. On the acts the first lack is looked up, then
//! the heights (both in `parse_limits`), and only then is the tree built (`parse_build`). What the machine is for is said by the
//! grammar: `grammar_trees`, `grammar_sound`, `grammar_theorem` and `grammar_limits` have the theorem, and the contract of
//! `parse` speaks of the grammar's relation.
#![tactic(auto)]

mod parser;

pub use parser::{ParseRefusal, parse, tokens_have_one_answer};
