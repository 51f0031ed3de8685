//! A keeper of tables over a database in a file that sqlite3 reads.
//!
//! Each table is one of two columns of text, `k`, which is its key, and `v`. What the file holds no contract can say: the
//! keeper tells no tables, answers only what its command may have, and counts all else as a fault.
#![tactic(auto)]

mod keeper;
mod names;
mod rows;
mod statements;

pub use keeper::SqliteKeeper;
