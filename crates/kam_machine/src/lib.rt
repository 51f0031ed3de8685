#![tactic(auto)]
//! The machine that runs scripts: it makes the steps of the instructions over any store of regions.
//!
//! Instructions that take no memory of their own run in the loop of `kam_rows`; the loop is left for the others, which are
//! methods of the machine (`text_rows`, `reply_rows`, `call_rows`, `raises`).

mod call_rows;
mod machine;
mod phase;
mod raises;
mod reply_rows;
mod run;
mod stop;
mod text_rows;

pub use machine::Machine;
pub use stop::Stop;
