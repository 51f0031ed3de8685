ghost use Rattle.std.specs.Prelude.{◌≡◌};

use hm_types::UnifyRefusal;
use sml_syntax::NoMemory;
use std::alloc::{AllocError, AllocFailed};

/// Why something has no type.
#[derive(Clone, Copy, Debug, PartialEq, Eq)]
pub enum Stop {
    /// No typing gives it one, or what it was asked of isn't there.
    Ill,
    NoMemory,
}

impl From<NoMemory> for Stop {
    ghost use Rattle.hm_scheme.specs.declared.refusal.Stop.TheVariants as stop;

    ghost from_gives = { λ _ e. e ≡ stop.NoMemory };

    fn from(_: NoMemory) -> Stop {
        Stop::NoMemory
    }
}

impl From<AllocError> for Stop {
    ghost use Rattle.hm_scheme.specs.declared.refusal.Stop.TheVariants as stop;

    ghost from_gives = { λ _ e. e ≡ stop.NoMemory };

    fn from(_: AllocError) -> Stop {
        Stop::NoMemory
    }
}

impl<T: Drop> From<AllocFailed<T>> for Stop {
    ghost use Rattle.hm_scheme.specs.declared.refusal.Stop.TheVariants as stop;

    ghost from_gives = { λ _ e. e ≡ stop.NoMemory };

    fn from(_: AllocFailed<T>) -> Stop {
        Stop::NoMemory
    }
}

impl From<UnifyRefusal> for Stop {
    ghost use Rattle.hm_scheme.specs.Stops.{stop_of};

    ghost from_gives = { λ refusal e. e ≡ stop_of refusal };

    fn from(refusal: UnifyRefusal) -> Stop {
        match refusal {
            UnifyRefusal::Clash => Stop::Ill,
            UnifyRefusal::NoMemory => Stop::NoMemory,
        }
    }
}
