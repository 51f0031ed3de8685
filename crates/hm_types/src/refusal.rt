ghost use Rattle.std.specs.Prelude.{◌≡◌};

use sml_syntax::NoMemory;
use std::alloc::{AllocError, AllocFailed};

/// Why two classes were not joined.
#[derive(Clone, Copy, Debug, PartialEq, Eq)]
pub enum UnifyRefusal {
    /// No solution of the table gives both the same type.
    Clash,
    NoMemory,
}

impl<T: Drop> From<AllocFailed<T>> for UnifyRefusal {
    ghost use Rattle.hm_types.specs.declared.refusal.UnifyRefusal.TheVariants as refusal;

    ghost from_gives = { λ _ e. e ≡ refusal.NoMemory };

    fn from(_: AllocFailed<T>) -> UnifyRefusal {
        UnifyRefusal::NoMemory
    }
}

impl From<AllocError> for UnifyRefusal {
    ghost use Rattle.hm_types.specs.declared.refusal.UnifyRefusal.TheVariants as refusal;

    ghost from_gives = { λ _ e. e ≡ refusal.NoMemory };

    fn from(_: AllocError) -> UnifyRefusal {
        UnifyRefusal::NoMemory
    }
}

impl From<NoMemory> for UnifyRefusal {
    ghost use Rattle.hm_types.specs.declared.refusal.UnifyRefusal.TheVariants as refusal;

    ghost from_gives = { λ _ e. e ≡ refusal.NoMemory };

    fn from(_: NoMemory) -> UnifyRefusal {
        UnifyRefusal::NoMemory
    }
}
