//! What is refused of a program whose tokens have a tree: forms that the language lacks, and items that are too high.
//!
//! Both are read off the acts that the grammar's machine told, so that no tree is built before its height is known:
//! `first_lack` finds the lack of the lowest place (`lacks`, with what it asks of an act in `asked`), `first_high` the
//! first item that is higher than 200 (`height`).
#![tactic(auto)]

mod asked;
mod height;
mod lacks;

pub use height::first_high;
pub use lacks::first_lack;
