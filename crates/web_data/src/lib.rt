//! Data, the calls on caches and databases, and their answers: the plain types, with their copies, and the
//! definitions of pickles, statements and fitting answers.
#![tactic(auto)]

mod cache;
mod database;
mod datum;

pub use cache::{CacheAns, CacheCall, CacheId, CacheOp, Kind};
pub use database::{DbAns, DbCmd, WebAns, WebCall};
pub use datum::{Datum, Desc};
