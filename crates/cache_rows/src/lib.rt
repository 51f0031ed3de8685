//! The rows of one cache, in the order of birth, as pickled keys and values.
//!
//! `RowStore` says what each call does with them. Two bodies keep to it: `ListRows`, a plain list, and `Rows`, which
//! finds a row by its key and the row that leaves first without a search.
#![tactic(auto)]

mod list_rows;
mod row;
mod row_store;
mod rows;
mod runs;
mod table;

pub use list_rows::ListRows;
pub use row::{Row, RowAns, RowCall};
pub use row_store::RowStore;
pub use rows::Rows;
pub use runs::{moments_rise, run_rows};
