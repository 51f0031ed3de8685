use sml_syntax::NoMemory;

/// Why a program has no types.
#[derive(Clone, Copy, Debug, PartialEq, Eq)]
pub enum TypeRefusal {
    /// The least place where a name, a type name or a type variable has no binding.
    Unbound(u64),
    /// The first byte of the item that has no typing behind those before it.
    Ill(u64),
    NoMemory,
}

impl From<NoMemory> for TypeRefusal {
    ghost use Rattle.hm_infer.specs.declared.refusal.TypeRefusal.TheVariants as refusal;
    ghost use Rattle.std.specs.Prelude.{◌≡◌};

    ghost from_gives = { λ _ e. e ≡ refusal.NoMemory };

    fn from(_: NoMemory) -> TypeRefusal {
        TypeRefusal::NoMemory
    }
}
