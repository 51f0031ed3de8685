//! Pickles: the one spelling of a datum as bytes, by its description. Caches tell keys apart by their pickles.
//!
//! `write` and `read` go over the description and the bytes once, from left to right. Where the bytes are no pickle,
//! reading stops at the first byte that no pickle has there, and that is the place of the refusal.
#![tactic(auto)]

mod answers;
mod fitting;
mod laws;
mod numbers;
mod reading;
mod refusal;
mod writing;

pub use answers::answer_fits;
pub use fitting::fits;
pub use laws::{equal_pickles_are_of_equal_data, no_pickle_begins_another, numbers_are_shortest};
pub use reading::read;
pub use refusal::PickleRefusal;
pub use writing::write;
