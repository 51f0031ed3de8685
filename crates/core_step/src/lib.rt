#![tactic(auto)]
//! The core machine as a program: a state, and the step of one event.
//!
//! `core_step` takes an event where the machine has that step, and refuses every other one with `NotEnabled`. It is a
//! plain body of the definitions and not made to be fast: at each call it replays the whole history.

mod lists;
mod refusal;
mod state;
mod step;

pub use refusal::StepRefusal;
pub use state::CoreState;
pub use step::core_step;
