// The time of day.
ghost use Rattle.std.specs.Prelude.{◌≡◌, ℕ, List, Option};
ghost use Rattle.outside_world.specs.Told.{NextReading};

/// A clock of whole seconds, which can't fail.
pub trait Clock {
    /// The readings to come, of which the last one stays, where it tells them.
    ghost readings: { Self → Option (List ℕ) };

    /// The type of `kept`: `Unit {0}` for an object that owns all that it has.
    ghost Kept: { Type 0 };

    /// What no call changes: the references of a borrowed object.
    ghost kept: { Self → Kept };

    fn now(&mut self) -> u64
        ensures reading { NextReading (readings self.old) result (readings self.new) }
        ensures keeps { kept self.new ≡ kept self.old };
}

impl<C: Clock> Clock for &mut C {
    ghost readings = { λ c. C.readings c.now };

    ghost Kept = { ℕ × C.Kept };

    ghost kept = { λ c. (c.ghost_name, C.kept c.now) };

    fn now(&mut self) -> u64 {
        (**self).now()
    }
}
