#![tactic(auto)]
//! Histories of cache and database calls: which are legal, and what makes the calls.
//!
//! An entry is a call that was answered. A history is *legal* where each answer is the one that the cache machine and
//! the database machine give after the entries before it. `Calls` is what makes calls, and `LoneBook` does it for one
//! worker. `core_stays_whole` is the law of all that workers do at once, as a list of atomic events: their pages, their
//! turns at databases, and the one history of their calls.

mod calls;
mod entry;
mod event;
mod laws;
mod lone_book;

pub use calls::Calls;
pub use entry::Entry;
pub use event::{Event, Owner};
pub use laws::{books_are_legal, core_stays_whole, legal_by_object};
pub use lone_book::LoneBook;
