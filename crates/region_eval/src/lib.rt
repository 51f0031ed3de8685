//! What specialised and region terms come to, and what holds of that: greater heights, and worked examples.
#![tactic(auto)]

mod examples;
mod heights;

pub use examples::{
    dead_pair_has_no_rule, dead_pair_may_be_held, pair_is_read_in_its_region, product_is_greeted,
    writes_come_in_order,
};
pub use heights::{answers_extend, counts_grow, greater_heights};
