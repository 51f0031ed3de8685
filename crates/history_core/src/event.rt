// What may happen in the core.
use web_data::{CacheAns, CacheCall, DbAns, DbCmd};

/// One atomic step of a request, whose number comes first. A database is named by its number, from 0.
#[derive(Debug, PartialEq, Eq, Drop)]
pub enum Event {
    Begin(u64),
    /// The page.
    TakePage(u64, u32),
    /// The page.
    GivePage(u64, u32),
    /// The call, its moment in seconds, and the answer.
    CacheCall(u64, CacheCall, u64, CacheAns),
    /// The database.
    TakeHandle(u64, u64),
    /// The database, the command and the answer.
    DbCall(u64, u64, DbCmd, DbAns),
    /// The database.
    GiveHandle(u64, u64),
    End(u64),
}

/// A page that is owned, and the request that owns it.
#[derive(Clone, Copy, Debug, PartialEq, Eq)]
pub struct Owner {
    pub page: u32,
    pub request: u64,
}
