// Which calls fail.
ghost use Rattle.std.specs.Prelude.{◌≡◌, ◌≤◌, IfOk};
ghost use Rattle.outside_world.specs.FaultPlan.{fresh_plan, next_fails, after_call};

use sml_syntax::NoMemory;
use std::alloc::Global;
use std::marker::Model;

// Counts calls and failures, and says which calls fail.
#[derive(Drop)]
pub struct CallPlan {
    fails: Vec<u64>,
    calls: u64,
    faults: u64,
}

impl Model for CallPlan {
    ghost use Rattle.outside_world.specs.FaultPlan.{FaultPlan};

    ghost Value = { FaultPlan };

    ghost view = { λ p. record { fails = p.fails.items; calls = p.calls; faults = p.faults } };
}

impl CallPlan {
    pub fn make(alloc: Global, fails: &[u64]) -> Result<CallPlan, NoMemory>
        ensures { IfOk result (λ p. p ≡ fresh_plan fails.now) }
    {
        Ok(CallPlan {
            fails: Vec::from_slice(alloc, fails)?,
            calls: 0,
            faults: 0,
        })
    }

    // Counts one more call, and says whether it fails.
    pub fn call_fails(&mut self) -> bool
        ensures fails { result ≡ next_fails self.old }
        ensures after { self.new ≡ after_call self.old }
        ensures count { self.old.faults ≤ self.new.faults }
    {
        let fails = self.fails.contains(&self.calls);
        self.calls = self.calls.saturating_add(1);
        if fails {
            self.faults = self.faults.saturating_add(1);
        }
        fails
    }

    pub fn faults(&self) -> u64
        ensures { result ≡ self.now.faults }
    {
        self.faults
    }
}
