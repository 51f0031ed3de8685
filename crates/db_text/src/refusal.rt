ghost use Rattle.std.specs.Prelude.{◌≡◌};

use sml_syntax::NoMemory;

/// Why bytes give no command.
#[derive(Clone, Copy, Debug, PartialEq, Eq)]
pub enum DbRefusal {
    /// The bytes are no statement: the length of their longest prefix that begins one.
    BadStatement(u64),
    NoMemory,
}

impl From<NoMemory> for DbRefusal {
    ghost use Rattle.db_text.specs.declared.refusal.DbRefusal.TheVariants as refusal;

    ghost from_gives = { λ _ e. e ≡ refusal.NoMemory };

    fn from(_: NoMemory) -> DbRefusal {
        DbRefusal::NoMemory
    }
}
