// The clock of the system.
ghost use Rattle.std.specs.Prelude.{◌≡◌, ◌≤◌, None};

use outside_world::Clock;

/// The clock of the system, in whole seconds since 1970. A reading is never below an earlier one: where the
/// system's clock was set back, or can't be read, the last reading stands.
#[derive(Drop)]
pub struct RealClock<'a, R> {
    rt: &'a R,
    last: u64,
}

impl<'a, R: std::rt::Clock> RealClock<'a, R> {
    pub fn make(rt: &'a R) -> RealClock<'a, R>
        ensures { result.last ≡ 0 }
    {
        RealClock { rt, last: 0 }
    }

    fn reading(&mut self) -> u64
        ensures forward { self.old.last ≤ result }
        ensures last { self.new.last ≡ result }
    {
        if let Ok(since) = self.rt.since_1970() {
            self.last = self.last.max(since.as_secs());
        }
        self.last
    }
}

impl<R: std::rt::Clock> Clock for RealClock<'_, R> {
    ghost readings = { λ _. None };

    ghost Kept = { Unit {0} };

    ghost kept = { λ _. tt };

    fn now(&mut self) -> u64 {
        self.reading()
    }
}
