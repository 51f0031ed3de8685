// Why there is no code.
use sml_syntax::NoMemory;
use std::alloc::AllocError;

/// Why `compile` gives no code. It leaves the program as it was.
#[derive(Clone, Copy, Debug, PartialEq, Eq)]
pub enum CompileRefusal {
    /// 64 times the size of the program passes 67,108,864.
    CodeFull,
    NoMemory,
}

impl From<NoMemory> for CompileRefusal {
    fn from(_: NoMemory) -> CompileRefusal {
        CompileRefusal::NoMemory
    }
}

impl From<AllocError> for CompileRefusal {
    fn from(_: AllocError) -> CompileRefusal {
        CompileRefusal::NoMemory
    }
}
