// Copies of types and terms. A copy takes steps in proportion to the term's size, and its calls nest
// no deeper than the term is high.
mod lists;
mod region;
mod specialised;
mod types;

pub(crate) use types::copy_datatypes;
