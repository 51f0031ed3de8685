#![tactic(auto)]
//! The caches of all scripts, in sixteen groups by their names.
//!
//! Each call is a step of the cache machine over data (`specs/CacheMachine.antt`). `Caches` finds the group of the call,
//! `CacheGroup` the cache that stands in it, and `StandingCache` writes key and value as pickles and leaves the rest to
//! `cache_rows`. That rows of pickles say the same as rows of data is `specs/Shown.antt`: equal pickles are of equal data.

mod caches;
mod fitting;
mod group;
mod laws;
mod same;
mod standing;

pub use caches::Caches;
pub use fitting::call_fits;
pub use group::{CacheGroup, group_of};
pub use laws::{a_call_has_one_answer, caches_stay_apart};
