// A keeper in memory.
ghost use Rattle.std.specs.Prelude.{◌≡◌, [], IfOk};
ghost use Rattle.outside_world.specs.FaultPlan.{fresh_plan};

use crate::tables::Tables;
use crate::{Keeper, KeeperFault};
use sml_syntax::NoMemory;
use std::alloc::Global;
use std::marker::Model;
use web_data::{DbAns, DbCmd};

/// Tables in memory, in ordered maps.
#[derive(Drop)]
pub struct MapKeeper {
    tables: Tables,
    fails: Vec<u64>,
    calls: u64,
    faults: u64,
}

impl Model for MapKeeper {
    ghost use Rattle.std.specs.Prelude.{Some};
    ghost use Rattle.db_keeper.specs.Keeping.{KeeperMeaning};

    ghost Value = { KeeperMeaning };

    ghost view = { λ k. record {
      tables = Some k.tables;
      plan = Some (record { fails = k.fails.items; calls = k.calls; faults = k.faults });
      faults = k.faults;
    } };
}

impl MapKeeper {
    /// No tables, of which the calls with these numbers fail, from 0.
    pub fn make(alloc: Global, fails: &[u64]) -> Result<MapKeeper, NoMemory>
        ensures tables { IfOk result (λ k. k.tables ≡ Some []) }
        ensures plan { IfOk result (λ k. k.plan ≡ Some (fresh_plan fails.now)) }
        ensures faults { IfOk result (λ k. k.faults ≡ 0) }
    {
        Ok(MapKeeper {
            tables: Tables::new(alloc),
            fails: Vec::from_slice(alloc, fails)?,
            calls: 0,
            faults: 0,
        })
    }
}

impl Keeper for MapKeeper {
    ghost meaning = { λ k. k };

    fn act(&mut self, cmd: &DbCmd) -> Result<DbAns, KeeperFault> {
        if self.fails.contains(&self.calls) {
            self.calls = self.calls.saturating_add(1);
            self.faults = self.faults.saturating_add(1);
            return Err(KeeperFault::Failed);
        }
        let answer = self.tables.act(cmd)?;
        self.calls = self.calls.saturating_add(1);
        Ok(answer)
    }

    fn faults(&self) -> u64 {
        self.faults
    }
}
