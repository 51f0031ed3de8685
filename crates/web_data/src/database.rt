// Database commands, and all calls that a script makes.
ghost use Rattle.std.specs.Prelude.{◌≡◌, IfOk};

use crate::{CacheAns, CacheCall};
use sml_syntax::{Copied, Listed, NoMemory, Text, copied_three, copied_two};
use std::alloc::Global;

/// A statement, with its table first.
#[derive(Debug, PartialEq, Eq, Drop)]
pub enum DbCmd {
    Create(Text),
    /// A key and a value.
    Insert(Text, Text, Text),
    /// A key.
    Delete(Text, Text),
    /// A key.
    One(Text, Text),
    All(Text),
}

impl DbCmd {
    pub fn try_copy(&self, alloc: Global) -> Result<DbCmd, NoMemory>
        ensures { IfOk result (λ copy. copy ≡ self.now) }
    {
        match self {
            DbCmd::Create(table) => Ok(DbCmd::Create(table.try_copy(alloc)?)),
            DbCmd::Insert(table, key, value) => {
                let (table, key, value) = copied_three(alloc, table, key, value)?;
                Ok(DbCmd::Insert(table, key, value))
            }
            DbCmd::Delete(table, key) => {
                let (table, key) = copied_two(alloc, table, key)?;
                Ok(DbCmd::Delete(table, key))
            }
            DbCmd::One(table, key) => {
                let (table, key) = copied_two(alloc, table, key)?;
                Ok(DbCmd::One(table, key))
            }
            DbCmd::All(table) => Ok(DbCmd::All(table.try_copy(alloc)?)),
        }
    }
}

#[derive(Debug, PartialEq, Eq, Drop)]
pub enum DbAns {
    Done,
    Rows(Listed<Listed<Text>>),
    NoTable,
    TableStands,
    KeyStands,
    /// The database failed: the count of its faults.
    Fault(u64),
}

impl DbAns {
    pub fn try_copy(&self, alloc: Global) -> Result<DbAns, NoMemory>
        ensures { IfOk result (λ copy. copy ≡ self.now) }
    {
        match self {
            DbAns::Done => Ok(DbAns::Done),
            DbAns::Rows(rows) => Ok(DbAns::Rows(rows.copied(alloc)?)),
            DbAns::NoTable => Ok(DbAns::NoTable),
            DbAns::TableStands => Ok(DbAns::TableStands),
            DbAns::KeyStands => Ok(DbAns::KeyStands),
            DbAns::Fault(count) => Ok(DbAns::Fault(*count)),
        }
    }
}

/// A call of a script.
#[derive(Debug, PartialEq, Eq, Drop)]
pub enum WebCall {
    Cache(CacheCall),
    /// The database's name, and the command.
    Db(Text, DbCmd),
}

impl WebCall {
    pub fn try_copy(&self, alloc: Global) -> Result<WebCall, NoMemory>
        ensures { IfOk result (λ copy. copy ≡ self.now) }
    {
        match self {
            WebCall::Cache(call) => Ok(WebCall::Cache(call.try_copy(alloc)?)),
            WebCall::Db(name, command) => {
                let name = name.try_copy(alloc)?;
                Ok(WebCall::Db(name, command.try_copy(alloc)?))
            }
        }
    }
}

/// The answer to a call of a script.
#[derive(Debug, PartialEq, Eq, Drop)]
pub enum WebAns {
    Cache(CacheAns),
    Db(DbAns),
}

impl WebAns {
    pub fn try_copy(&self, alloc: Global) -> Result<WebAns, NoMemory>
        ensures { IfOk result (λ copy. copy ≡ self.now) }
    {
        match self {
            WebAns::Cache(answer) => Ok(WebAns::Cache(answer.try_copy(alloc)?)),
            WebAns::Db(answer) => Ok(WebAns::Db(answer.try_copy(alloc)?)),
        }
    }
}
