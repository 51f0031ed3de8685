// Why an event makes no step.
ghost use Rattle.std.specs.Prelude.{◌≡◌};

use sml_syntax::NoMemory;
use std::alloc::{AllocError, AllocFailed};

/// Why an event made no step. The state is as it was.
#[derive(Clone, Copy, Debug, PartialEq, Eq)]
pub enum StepRefusal {
    /// The core has no such step.
    NotEnabled,
    NoMemory,
}

impl From<NoMemory> for StepRefusal {
    ghost use Rattle.core_step.specs.declared.refusal.StepRefusal.TheVariants as refusal;

    ghost from_gives = { λ _ e. e ≡ refusal.NoMemory };

    fn from(_: NoMemory) -> StepRefusal {
        StepRefusal::NoMemory
    }
}

impl From<AllocError> for StepRefusal {
    ghost use Rattle.core_step.specs.declared.refusal.StepRefusal.TheVariants as refusal;

    ghost from_gives = { λ _ e. e ≡ refusal.NoMemory };

    fn from(_: AllocError) -> StepRefusal {
        StepRefusal::NoMemory
    }
}

impl<T: Drop> From<AllocFailed<T>> for StepRefusal {
    ghost use Rattle.core_step.specs.declared.refusal.StepRefusal.TheVariants as refusal;

    ghost from_gives = { λ _ e. e ≡ refusal.NoMemory };

    fn from(_: AllocFailed<T>) -> StepRefusal {
        StepRefusal::NoMemory
    }
}
