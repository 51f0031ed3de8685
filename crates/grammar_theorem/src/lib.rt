//! The grammar theorem: what the machine does with tokens, said by the grammar.
#![tactic(auto)]

mod laws;

pub use laws::{accepted_tokens_are_their_tree, each_tree_is_accepted, stops_where_unexpected};
