#![tactic(auto)]
//! The rows of the instruction table of the machine that runs scripts, over any store of regions.
//!
//! Instructions that take no memory of their own run in a loop (`make_turns`) whose registers are a local value, one function
//! an instruction (`stack_rows`, `number_rows`, `store_rows`). The loop is left for the others, which `kam_machine` makes
//! of the parts here: values read from a store (`reading`) and laid out for it (`laying`), numbers in texts (`numbers`),
//! a form's texts (`form`), and the store's own calls with what they leave of words and regions (`stored`).

mod ended;
pub mod form;
mod inner_loop;
pub mod laying;
mod number_rows;
pub mod numbers;
pub mod reading;
mod registers;
mod row;
mod stack_rows;
mod store_rows;
pub mod stored;

pub use ended::Ended;
pub use inner_loop::make_turns;
pub use registers::{Frame, Handler, Registers, STACK_LIMIT};
pub use row::Row;
