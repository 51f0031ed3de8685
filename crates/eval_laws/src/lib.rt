//! What holds of the evaluation of programs: greater heights, more answers, and worked examples.
#![tactic(auto)]

mod examples;
mod heights;

pub use examples::{
    bind_is_raised, constructors_are_told_apart, division_raises, division_rounds_down,
    hidden_constructor_is_held, plain_piece_is_quoted, references_are_told_apart,
    square_is_remembered,
};
pub use heights::{calls_grow, counts_grow, greater_heights, more_answers};
