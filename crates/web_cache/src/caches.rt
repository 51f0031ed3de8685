// All caches, in their groups.
ghost use Rattle.std.specs.Prelude.{◌≡◌, ◌≤◌, ◌<◌, true, IfOk, OnErr};
ghost use Rattle.web_data.specs.CacheCalls.{cache_call_fits};
ghost use Rattle.web_cache.specs.CacheMachine.{CacheStep, group_number, last_moment, new_groups};

use crate::group::{CacheGroup, group_of};
use sml_syntax::NoMemory;
use std::alloc::Global;
use std::marker::Model;
use web_data::{CacheAns, CacheCall};

/// The caches of all scripts: sixteen groups, by their numbers.
#[derive(Drop)]
pub struct Caches {
    groups: Vec<CacheGroup>,
}

impl Model for Caches {
    ghost use Rattle.std.specs.Prelude.{◌≡◌, List, length};
    ghost use Rattle.web_cache.specs.CacheMachine.{Group};

    ghost Value = { List Group };

    ghost use Rattle.std.specs.Coded.{coded_list};
    ghost use Rattle.web_cache.specs.Codes.{group_code};

    ghost coded = { coded_list group_code };

    ghost view = { λ c. c.groups.items };

    ghost invariant = { λ c. length c.groups.items ≡ 16 };
}

impl Caches {
    /// No cache stands.
    pub fn make(alloc: Global) -> Result<Caches, NoMemory>
        ensures { IfOk result (λ c. c ≡ new_groups 16) }
    {
        let mut groups = Vec::new(alloc);
        for group in 0..16 {
            groups.push(CacheGroup::make(alloc, group)?)?;
        }
        Ok(Caches { groups })
    }

    /// The last moment of a group.
    pub fn last(&self, group: u8) -> u64
        requires { group < 16 }
        ensures { result ≡ last_moment self.now group }
    {
        self.groups[group as usize].last()
    }

    /// Makes a call at a moment.
    pub fn act(&mut self, now: u64, call: &CacheCall) -> Result<CacheAns, NoMemory>
        requires fits { cache_call_fits call.now ≡ true }
        requires moment { last_moment self.old (group_number call.now.id.name) ≤ now }
        ensures ok { IfOk result (λ answer. CacheStep self.old call.now now self.new answer) }
        ensures err { OnErr result (self.new ≡ self.old) }
    {
        let at = group_of(&call.id.name) as usize;
        self.groups[at].act(now, call)
    }
}
