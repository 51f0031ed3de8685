// What acts are, as the search for lacks asks.
ghost use Rattle.std.specs.Prelude.{◌≡◌, option_copied};
ghost use Rattle.parse_limits.specs.Lacks.{begins_datatypes, ends_datatypes, begins_vars, added_var, head_of, var_of, is_none, is_first, is_push};

use sml_grammar::{Act, DecAct, TyAct};
use sml_syntax::Text;

/// Begins a datatype declaration.
#[tactic(auto, unfolding(crate::specs::Lacks::begins_datatypes))]
pub fn begins_datatypes(act: &Act) -> bool
    ensures { result ≡ begins_datatypes act.now }
{
    match act {
        Act::Dec(act) => match act {
            DecAct::NoDatas => true,
            _ => false,
        },
        _ => false,
    }
}

/// Ends a datatype declaration.
#[tactic(auto, unfolding(crate::specs::Lacks::ends_datatypes))]
pub fn ends_datatypes(act: &Act) -> bool
    ensures { result ≡ ends_datatypes act.now }
{
    match act {
        Act::Dec(act) => match act {
            DecAct::DataDef(_) => true,
            _ => false,
        },
        _ => false,
    }
}

/// Begins a type's variables.
#[tactic(auto, unfolding(crate::specs::Lacks::begins_vars))]
pub fn begins_vars(act: &Act) -> bool
    ensures { result ≡ begins_vars act.now }
{
    match act {
        Act::Dec(act) => match act {
            DecAct::NoVars => true,
            _ => false,
        },
        _ => false,
    }
}

/// Adds a variable of a type.
#[tactic(auto, unfolding(crate::specs::Lacks::added_var))]
pub fn added_var(act: &Act) -> Option<&Text>
    ensures { option_copied result ≡ added_var act.now }
{
    match act {
        Act::Dec(act) => match act {
            DecAct::AddVar(name) => Some(name),
            _ => None,
        },
        _ => None,
    }
}

/// Names a type that is declared.
#[tactic(auto, unfolding(crate::specs::Lacks::head_of))]
pub fn head_of(act: &Act) -> Option<&Text>
    ensures { option_copied result ≡ head_of act.now }
{
    match act {
        Act::Dec(act) => match act {
            DecAct::Head(name) => Some(name),
            _ => None,
        },
        _ => None,
    }
}

/// Makes a type variable.
#[tactic(auto, unfolding(crate::specs::Lacks::var_of))]
pub fn var_of(act: &Act) -> Option<&Text>
    ensures { option_copied result ≡ var_of act.now }
{
    match act {
        Act::Ty(act) => match act {
            TyAct::Var(_, name) => Some(name),
            _ => None,
        },
        _ => None,
    }
}

/// Begins a list of no arguments.
#[tactic(auto, unfolding(crate::specs::Lacks::is_none))]
pub fn is_none(act: &Act) -> bool
    ensures { result ≡ is_none act.now }
{
    match act {
        Act::Ty(act) => match act {
            TyAct::NoTys => true,
            _ => false,
        },
        _ => false,
    }
}

/// Makes a type the first argument.
#[tactic(auto, unfolding(crate::specs::Lacks::is_first))]
pub fn is_first(act: &Act) -> bool
    ensures { result ≡ is_first act.now }
{
    match act {
        Act::Ty(act) => match act {
            TyAct::First => true,
            _ => false,
        },
        _ => false,
    }
}

/// Makes a type a further argument.
#[tactic(auto, unfolding(crate::specs::Lacks::is_push))]
pub fn is_push(act: &Act) -> bool
    ensures { result ≡ is_push act.now }
{
    match act {
        Act::Ty(act) => match act {
            TyAct::Push => true,
            _ => false,
        },
        _ => false,
    }
}
