//! Regions of words under one contract: kept plainly, or in pages.
#![tactic(auto)]

mod back;
mod page_region;
mod page_store;
mod paging;
mod plain_store;
mod region_store;
mod serials;

pub use back::Back;
pub use page_store::PageStore;
pub use plain_store::PlainStore;
pub use region_store::{Dead, RegionStore, StoreRefusal};
