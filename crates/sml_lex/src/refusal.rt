ghost use Rattle.std.specs.Prelude.{◌≡◌};

use sml_syntax::{Lack, NoMemory};
use std::alloc::{AllocError, AllocFailed};

/// Why a script has no tokens. A place is the number of bytes before it.
#[derive(Clone, Copy, Debug, PartialEq, Eq)]
pub enum LexRefusal {
    /// A byte at which no token begins, a wrong number behind a backslash, or a wrong character.
    BadByte(u64),
    /// A comment that meets the end, at the outermost start.
    OpenComment(u64),
    /// A text that meets a line feed or the end, at its start.
    OpenString(u64),
    /// A quotation that meets the end, at the outermost start.
    OpenQuote(u64),
    /// An integer outside 64 bits, at its first byte.
    WideNumber(u64),
    /// A form that the language lacks.
    Unsupported(u64, Lack),
    NoMemory,
}

impl From<NoMemory> for LexRefusal {
    ghost use Rattle.sml_lex.specs.declared.refusal.LexRefusal.TheVariants as refusal;

    ghost from_gives = { λ _ e. e ≡ refusal.NoMemory };

    fn from(_: NoMemory) -> LexRefusal {
        LexRefusal::NoMemory
    }
}

impl From<AllocError> for LexRefusal {
    ghost use Rattle.sml_lex.specs.declared.refusal.LexRefusal.TheVariants as refusal;

    ghost from_gives = { λ _ e. e ≡ refusal.NoMemory };

    fn from(_: AllocError) -> LexRefusal {
        LexRefusal::NoMemory
    }
}

impl<T: Drop> From<AllocFailed<T>> for LexRefusal {
    ghost use Rattle.sml_lex.specs.declared.refusal.LexRefusal.TheVariants as refusal;

    ghost from_gives = { λ _ e. e ≡ refusal.NoMemory };

    fn from(_: AllocFailed<T>) -> LexRefusal {
        LexRefusal::NoMemory
    }
}
