// Groups of caches by their names.
ghost use Rattle.std.specs.Prelude.{◌≡◌, ◌≤◌, ◌%◌, ℕ, List, map, true, sum, IfOk, OnErr, IfSome, IfNone, slice_get, Some};
ghost use Rattle.std.specs.List.{AllByRecursion};
ghost use Rattle.web_data.specs.CacheCalls.{cache_call_fits};
ghost use Rattle.cache_rows.specs.RowMachine.{NoneNamed};
ghost use Rattle.web_cache.specs.CacheMachine.{GroupStep, OpStep, AbsentStep, group_number, id_of, new_group};
ghost use Rattle.web_cache.specs.Shown.{Kept, standing_of, IsBy};

use crate::standing::StandingCache;
use sml_syntax::{NoMemory, Text};
use std::alloc::Global;
use std::marker::Model;
use web_data::{CacheAns, CacheCall, CacheId, CacheOp};

/// How many caches of a group may stand.
const MOST_CACHES: usize = 64;

/// The number of the group of the caches with a name: the sum of its bytes, modulo 16.
pub fn group_of(name: &Text) -> u8
    ensures { result ≡ group_number name.now }
{
    let bytes = name.as_bytes();
    let mut sum: u8 = 0;
    for byte in bytes {
        sum = sum.wrapping_add(*byte);
    }
    sum % 16
}

/// A group of caches.
#[derive(Drop)]
pub struct CacheGroup {
    number: u8,
    caches: Vec<StandingCache>,
    last: u64,
    alloc: Global,
}

impl Model for CacheGroup {
    ghost use Rattle.std.specs.Prelude.{◌≤◌, map};
    ghost use Rattle.std.specs.List.{AllByRecursion};
    ghost use Rattle.web_cache.specs.CacheMachine.{Group};
    ghost use Rattle.web_cache.specs.Shown.{Kept, standing_of, IsBy};

    ghost Value = { Group };

    ghost use Rattle.web_cache.specs.Codes.{group_code};

    ghost coded = { group_code };

    ghost view = { λ g. record { number = g.number; last = g.last; caches = map standing_of g.caches.items } };

    ghost invariant = { λ g. IsBy g.last g.caches.items };
}

impl CacheGroup {
    /// The group of a number, in which no cache stands.
    pub fn make(alloc: Global, group: u8) -> Result<CacheGroup, NoMemory>
        ensures { IfOk result (λ g. g ≡ new_group group) }
    {
        Ok(CacheGroup {
            number: group,
            caches: Vec::new(alloc),
            last: 0,
            alloc,
        })
    }

    /// The last moment.
    pub fn last(&self) -> u64
        ensures { result ≡ self.now.last }
    {
        self.last
    }

    /// Makes a call at a moment.
    pub fn act(&mut self, now: u64, call: &CacheCall) -> Result<CacheAns, NoMemory>
        requires fits { cache_call_fits call.now ≡ true }
        requires moment { self.old.last ≤ now }
        ensures ok { IfOk result (λ answer. GroupStep self.old call.now now self.new answer) }
        ensures err { OnErr result (self.new ≡ self.old) }
    {
        let answer = act_on(self.alloc, &mut self.caches, now, call)?;
        self.last = now;
        Ok(answer)
    }
}

fn act_on(
    alloc: Global,
    caches: &mut Vec<StandingCache>,
    now: u64,
    call: &CacheCall,
) -> Result<CacheAns, NoMemory>
    requires fits { cache_call_fits call.now ≡ true }
    requires moment { IsBy now caches.old.items }
    ensures ok { IfOk result (λ answer. OpStep call.now.id now call.now.op (map standing_of caches.old.items) answer (map standing_of caches.new.items)) }
    ensures err { OnErr result (caches.new.items ≡ caches.old.items) }
    ensures last { IsBy now caches.new.items }
{
    match find(caches.as_slice(), &call.id) {
        Some(at) => caches[at].act(alloc, now, &call.op),
        None => act_absent(alloc, caches, now, call),
    }
}

/// Where a cache is among those that stand.
fn find(caches: &[StandingCache], id: &CacheId) -> Option<usize>
    ensures some { IfSome result (λ at. (cache : Kept) × (slice_get caches.now at ≡ Some cache) × (cache.id ≡ id.now)) }
    ensures none { IfNone result (NoneNamed id_of id.now (map standing_of caches.now)) }
{
    for at in 0..caches.len() {
        if caches[at].is(id) {
            return Some(at);
        }
    }
    None
}

/// Makes a call on a cache that doesn't stand.
fn act_absent(
    alloc: Global,
    caches: &mut Vec<StandingCache>,
    now: u64,
    call: &CacheCall,
) -> Result<CacheAns, NoMemory>
    requires fits { cache_call_fits call.now ≡ true }
    requires moment { IsBy now caches.old.items }
    ensures ok { IfOk result (λ answer. AbsentStep call.now.id now call.now.op (map standing_of caches.old.items) answer (map standing_of caches.new.items)) }
    ensures err { OnErr result (caches.new.items ≡ caches.old.items) }
    ensures last { IsBy now caches.new.items }
{
    match &call.op {
        CacheOp::Look(_) => Ok(CacheAns::Absent),
        CacheOp::Flush => Ok(CacheAns::Flushed),
        CacheOp::Put(_, _) if caches.len() >= MOST_CACHES => Ok(CacheAns::Full),
        CacheOp::Put(_, _) => {
            let mut cache = StandingCache::make(alloc, &call.id)?;
            let answer = cache.act(alloc, now, &call.op)?;
            caches.push(cache)?;
            Ok(answer)
        }
    }
}
