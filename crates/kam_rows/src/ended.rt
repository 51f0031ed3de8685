// How a run ends, and why a step isn't made.
use kam_store::{Dead, StoreRefusal};
use sml_syntax::NoMemory;
use std::alloc::{AllocError, AllocFailed};

/// Why a run goes on no more.
#[derive(Clone, Copy)]
pub enum Ended {
    Finished,
    /// The exception's number.
    Raised(u64),
    BadStatement(u64),
    NoPage,
    Budget,
    StackFull,
    ReplyFull,
    NoMemory,
    Stuck,
}

impl From<NoMemory> for Ended {
    fn from(_: NoMemory) -> Ended {
        Ended::NoMemory
    }
}

impl From<AllocError> for Ended {
    fn from(_: AllocError) -> Ended {
        Ended::NoMemory
    }
}

impl<T: Drop> From<AllocFailed<T>> for Ended {
    fn from(_: AllocFailed<T>) -> Ended {
        Ended::NoMemory
    }
}

impl From<Dead> for Ended {
    fn from(_: Dead) -> Ended {
        Ended::Stuck
    }
}

impl From<StoreRefusal> for Ended {
    fn from(refusal: StoreRefusal) -> Ended {
        match refusal {
            StoreRefusal::NoPage => Ended::NoPage,
            StoreRefusal::Dead => Ended::Stuck,
            StoreRefusal::NoMemory => Ended::NoMemory,
        }
    }
}
