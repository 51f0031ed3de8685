ghost use Rattle.std.specs.Prelude.{◌≡◌};

use sml_syntax::NoMemory;
use std::alloc::{AllocError, AllocFailed};

/// Why bytes give no datum.
#[derive(Clone, Copy, Debug, PartialEq, Eq)]
pub enum PickleRefusal {
    /// The bytes are no pickle of the description: the length of their longest prefix that begins one.
    NotAPickle(u64),
    NoMemory,
}

/// Why a part of the bytes gives no part of a datum.
#[derive(Clone, Copy)]
pub(crate) enum Halt {
    /// No pickle goes on behind the bytes so far: how many bytes are left.
    Left(usize),
    NoMemory,
}

impl From<NoMemory> for Halt {
    ghost use Rattle.value_pickle.specs.declared.refusal.Halt.TheVariants as halt;

    ghost from_gives = { λ _ e. e ≡ halt.NoMemory };

    fn from(_: NoMemory) -> Halt {
        Halt::NoMemory
    }
}

impl From<AllocError> for Halt {
    ghost use Rattle.value_pickle.specs.declared.refusal.Halt.TheVariants as halt;

    ghost from_gives = { λ _ e. e ≡ halt.NoMemory };

    fn from(_: AllocError) -> Halt {
        Halt::NoMemory
    }
}

impl<T: Drop> From<AllocFailed<T>> for Halt {
    ghost use Rattle.value_pickle.specs.declared.refusal.Halt.TheVariants as halt;

    ghost from_gives = { λ _ e. e ≡ halt.NoMemory };

    fn from(_: AllocFailed<T>) -> Halt {
        Halt::NoMemory
    }
}
