// The items that acts build.
ghost use Rattle.std.specs.Prelude.{◌≡◌, [], IfOk, OnOk};
ghost use Rattle.parse_build.specs.Building.{apply, apply_all, program_of};

use crate::declaration::perform_dec;
use crate::expression::perform_exp;
use crate::pattern::perform_pat;
use crate::types::perform_ty;
use parse_values::Values;
use sml_grammar::{Act, Made};
use sml_syntax::{Dec, Listed, NoMemory};
use std::alloc::Global;

#[tactic(auto, unfolding(crate::specs::Building::apply))]
fn perform(alloc: Global, values: &mut Values, act: Act, to: u64) -> Result<(), NoMemory>
    ensures { OnOk result (values.new ≡ apply act to values.old) }
{
    match act {
        Act::Exp(act) => perform_exp(alloc, values, act, to),
        Act::Pat(act) => perform_pat(alloc, values, act, to),
        Act::Ty(act) => perform_ty(alloc, values, act, to),
        Act::Dec(act) => perform_dec(alloc, values, act, to),
        Act::Lack(_, _) => Ok(()),
    }
}

/// The items that acts build, in order. Where acts don't fit one another, as acts of tokens with a tree always do, it is no
/// item or fewer.
#[tactic(auto, using(crate::proofs::Folds::apply_last, crate::proofs::Items::built_none, crate::proofs::Items::built_some), unfolding(crate::specs::Building::apply_all))]
pub fn build(alloc: Global, acts: Vec<Made>) -> Result<Listed<Dec>, NoMemory>
    ensures { IfOk result (λ items. items ≡ program_of acts.items) }
{
    let mut values = Values::new(alloc);
    for made in acts {
        perform(alloc, &mut values, made.act, made.to)?;
    }
    match values.take_decs() {
        Some(decs) => Ok(decs),
        None => Ok(Listed::of(Vec::new(alloc))),
    }
}
