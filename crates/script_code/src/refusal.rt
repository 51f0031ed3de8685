// Why a project has no code.
use script_loader::LoadRefusal;
use sml_syntax::{NoMemory, Text};
use std::alloc::{AllocError, AllocFailed};

/// Why `load` gives no code. Nothing is held back after it.
#[derive(Debug, Drop)]
pub enum CodeRefusal {
    /// A refusal of the front: of the project file, of a file, or of a text.
    Front(LoadRefusal),
    /// The script in this file has more instances, or larger types, than specialising makes.
    InstanceLimit(Text),
    /// The script in this file is too large for code.
    CodeFull(Text),
    NoMemory,
}

impl From<NoMemory> for CodeRefusal {
    fn from(_: NoMemory) -> CodeRefusal {
        CodeRefusal::NoMemory
    }
}

impl From<AllocError> for CodeRefusal {
    fn from(_: AllocError) -> CodeRefusal {
        CodeRefusal::NoMemory
    }
}

impl<T: Drop> From<AllocFailed<T>> for CodeRefusal {
    fn from(_: AllocFailed<T>) -> CodeRefusal {
        CodeRefusal::NoMemory
    }
}

impl From<LoadRefusal> for CodeRefusal {
    fn from(refusal: LoadRefusal) -> CodeRefusal {
        match refusal {
            LoadRefusal::NoMemory => CodeRefusal::NoMemory,
            refusal => CodeRefusal::Front(refusal),
        }
    }
}
