//! What keeps the tables of a database: the trait, and a keeper in memory.
//!
//! A keeper *tells* its tables and its failing calls where it can. The keeper in memory tells both, and answers as the
//! database machine does: finite maps from table to map from key to value.
#![tactic(auto)]

mod keeper;
mod map_keeper;
mod table;
mod tables;

pub use keeper::{Keeper, KeeperFault};
pub use map_keeper::MapKeeper;
