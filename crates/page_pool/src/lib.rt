//! Pages of words, and who has them: each page is in its pool or with one taker.
#![tactic(auto)]

mod lone_pool;
mod page;
mod pages;
mod pass;
mod pool;
mod pool_user;
mod steps;
mod view;

pub use lone_pool::LonePool;
pub use no_memory::NoMemory;
pub use page::Page;
pub use pages::Pages;
pub use pass::PoolPass;
pub use pool::Pool;
pub use pool_user::{PoolMark, PoolUser};
