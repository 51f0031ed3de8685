// A clock in memory.
ghost use Rattle.std.specs.Prelude.{◌≡◌, IfOk};
ghost use Rattle.outside_world.specs.Stored.{at_least_zero};

use crate::Clock;
use sml_syntax::NoMemory;
use std::alloc::Global;
use std::marker::Model;

/// A clock that gives its readings one by one, the last one again and again.
#[derive(Drop)]
pub struct MemClock {
    readings: Vec<u64>,
    at: usize,
}

impl Model for MemClock {
    ghost use Rattle.std.specs.Prelude.{◌<◌, List, ℕ, length, drop};

    ghost Value = { List ℕ };

    ghost view = { λ c. drop c.at c.readings.items };

    ghost invariant = { λ c. c.at < length c.readings.items };
}

impl MemClock {
    /// A clock of these readings, or of the one reading 0 where there are none.
    pub fn make(alloc: Global, readings: &[u64]) -> Result<MemClock, NoMemory>
        ensures { IfOk result (λ c. c ≡ at_least_zero readings.now) }
    {
        if readings.is_empty() {
            return Ok(MemClock {
                readings: Vec::from_slice(alloc, &[0])?,
                at: 0,
            });
        }
        Ok(MemClock {
            readings: Vec::from_slice(alloc, readings)?,
            at: 0,
        })
    }
}

impl Clock for MemClock {
    ghost use Rattle.std.specs.Prelude.{Some};

    ghost readings = { λ c. Some c };

    ghost Kept = { Unit {0} };

    ghost kept = { λ _. tt };

    fn now(&mut self) -> u64 {
        let reading = self.readings[self.at];
        if self.at + 1 < self.readings.len() {
            self.at += 1;
        }
        reading
    }
}
