use sml_syntax::NoMemory;
use std::alloc::{AllocError, AllocFailed};

/// Why a program isn't specialised.
#[derive(Clone, Copy, Debug, PartialEq, Eq)]
pub enum MonoRefusal {
    /// It has more than 65,536 instances, or a type of more than 4,096 nodes.
    InstanceLimit,
    NoMemory,
}

impl From<NoMemory> for MonoRefusal {
    ghost use Rattle.mono.specs.declared.refusal.MonoRefusal.TheVariants as refusal;
    ghost use Rattle.std.specs.Prelude.{◌≡◌};

    ghost from_gives = { λ _ e. e ≡ refusal.NoMemory };

    fn from(_: NoMemory) -> MonoRefusal {
        MonoRefusal::NoMemory
    }
}

impl From<AllocError> for MonoRefusal {
    ghost use Rattle.mono.specs.declared.refusal.MonoRefusal.TheVariants as refusal;
    ghost use Rattle.std.specs.Prelude.{◌≡◌};

    ghost from_gives = { λ _ e. e ≡ refusal.NoMemory };

    fn from(_: AllocError) -> MonoRefusal {
        MonoRefusal::NoMemory
    }
}

impl<T: Drop> From<AllocFailed<T>> for MonoRefusal {
    ghost use Rattle.mono.specs.declared.refusal.MonoRefusal.TheVariants as refusal;
    ghost use Rattle.std.specs.Prelude.{◌≡◌};

    ghost from_gives = { λ _ e. e ≡ refusal.NoMemory };

    fn from(_: AllocFailed<T>) -> MonoRefusal {
        MonoRefusal::NoMemory
    }
}
