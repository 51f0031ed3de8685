// Caches, and the calls on them.
ghost use Rattle.std.specs.Prelude.{◌≡◌, IfOk};

use crate::{Datum, Desc};
use sml_syntax::{Copied, NoMemory, Text, beside};
use std::alloc::Global;

/// How long rows stay, and how many: `used` is true for `WhileUsed` and false for `TimeOut`.
#[derive(Clone, Copy, Debug, PartialEq, Eq)]
pub struct Kind {
    pub used: bool,
    /// In seconds.
    pub time: Option<u64>,
    /// In bytes.
    pub size: Option<u64>,
}

impl Kind {
    /// Takes no memory.
    pub fn try_copy(&self, _: Global) -> Result<Kind, NoMemory>
        ensures { IfOk result (λ copy. copy ≡ self.now) }
    {
        Ok(*self)
    }
}

/// What tells one cache from another.
#[derive(Debug, PartialEq, Eq, Drop)]
pub struct CacheId {
    pub name: Text,
    pub key: Desc,
    pub value: Desc,
    pub kind: Kind,
}

impl CacheId {
    pub fn try_copy(&self, alloc: Global) -> Result<CacheId, NoMemory>
        ensures { IfOk result (λ copy. copy ≡ self.now) }
    {
        Ok(CacheId {
            name: self.name.try_copy(alloc)?,
            key: self.key.try_copy(alloc)?,
            value: self.value.try_copy(alloc)?,
            kind: self.kind,
        })
    }
}

impl Copied for CacheId {
    fn copied(&self, alloc: Global) -> Result<CacheId, NoMemory> {
        self.try_copy(alloc)
    }
}

#[derive(Debug, PartialEq, Eq, Drop)]
pub enum CacheOp {
    /// The key.
    Look(Datum),
    /// The key and the value.
    Put(Datum, Datum),
    Flush,
}

impl CacheOp {
    pub fn try_copy(&self, alloc: Global) -> Result<CacheOp, NoMemory>
        ensures { IfOk result (λ copy. copy ≡ self.now) }
    {
        match self {
            CacheOp::Look(key) => Ok(CacheOp::Look(key.try_copy(alloc)?)),
            CacheOp::Put(key, value) => {
                let key = key.try_copy(alloc)?;
                Ok(CacheOp::Put(key, value.try_copy(alloc)?))
            }
            CacheOp::Flush => Ok(CacheOp::Flush),
        }
    }
}

#[derive(Debug, PartialEq, Eq, Drop)]
pub struct CacheCall {
    pub id: CacheId,
    pub op: CacheOp,
}

impl CacheCall {
    pub fn try_copy(&self, alloc: Global) -> Result<CacheCall, NoMemory>
        ensures { IfOk result (λ copy. copy ≡ self.now) }
    {
        let op = self.op.try_copy(alloc)?;
        let (id, op) = beside(alloc, &self.id, op)?;
        Ok(CacheCall { id, op })
    }
}

#[derive(Debug, PartialEq, Eq, Drop)]
pub enum CacheAns {
    Found(Datum),
    Absent,
    /// Whether the key had no row.
    Fresh(bool),
    Flushed,
    /// No further cache has room in its group.
    Full,
}

impl CacheAns {
    pub fn try_copy(&self, alloc: Global) -> Result<CacheAns, NoMemory>
        ensures { IfOk result (λ copy. copy ≡ self.now) }
    {
        match self {
            CacheAns::Found(value) => Ok(CacheAns::Found(value.try_copy(alloc)?)),
            CacheAns::Absent => Ok(CacheAns::Absent),
            CacheAns::Fresh(fresh) => Ok(CacheAns::Fresh(*fresh)),
            CacheAns::Flushed => Ok(CacheAns::Flushed),
            CacheAns::Full => Ok(CacheAns::Full),
        }
    }
}
