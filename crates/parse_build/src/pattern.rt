// Acts on patterns.
ghost use Rattle.std.specs.Prelude.{◌≡◌, ◌∷◌, [], IfOk, OnOk};
ghost use Rattle.parse_build.specs.Building.{apply_pat};
ghost use Rattle.sml_grammar.specs.declared.act.PatAct.{PatAct};

use parse_values::{PatVal, Val, Values};
use sml_grammar::PatAct;
use sml_syntax::{Boxed, Listed, NoMemory, Pat, PatForm, Span, Text};
use std::alloc::Global;

#[tactic(auto, unfolding(crate::specs::Building::apply_pat))]
fn pat_first(alloc: Global, values: &mut Values, to: u64) -> Result<(), NoMemory>
    ensures { OnOk result (values.new ≡ apply_pat PatAct.First to values.old) }
{
    let Some(first) = values.take_pat() else {
        return Ok(());
    };
    let mut all = Vec::new(alloc);
    all.push(first)?;
    values.push(Val::Pat(PatVal::Many(Listed::of(all))))
}

#[tactic(auto, unfolding(crate::specs::Building::apply_pat))]
fn pat_push(values: &mut Values, to: u64) -> Result<(), NoMemory>
    ensures { OnOk result (values.new ≡ apply_pat PatAct.Push to values.old) }
{
    let Some(next) = values.take_pat() else {
        return Ok(());
    };
    let Some(pats) = values.take_pats() else {
        return Ok(());
    };
    let mut all = pats.into_vec();
    all.push(next)?;
    values.push(Val::Pat(PatVal::Many(Listed::of(all))))
}

#[tactic(auto, unfolding(crate::specs::Building::apply_pat))]
fn pat_tuple(values: &mut Values, from: u64, to: u64) -> Result<(), NoMemory>
    ensures { OnOk result (values.new ≡ apply_pat (PatAct.Tuple from) to values.old) }
{
    let Some(pats) = values.take_pats() else {
        return Ok(());
    };
    values.push(Val::Pat(PatVal::One(Pat {
        span: Span { from, to },
        form: PatForm::Tuple(pats),
    })))
}

#[tactic(auto, unfolding(crate::specs::Building::apply_pat))]
fn pat_list(values: &mut Values, from: u64, to: u64) -> Result<(), NoMemory>
    ensures { OnOk result (values.new ≡ apply_pat (PatAct.List from) to values.old) }
{
    let Some(pats) = values.take_pats() else {
        return Ok(());
    };
    values.push(Val::Pat(PatVal::One(Pat {
        span: Span { from, to },
        form: PatForm::List(pats),
    })))
}

#[tactic(auto, unfolding(crate::specs::Building::apply_pat))]
fn pat_con(alloc: Global, values: &mut Values, from: u64, to: u64) -> Result<(), NoMemory>
    ensures { OnOk result (values.new ≡ apply_pat (PatAct.Con from) to values.old) }
{
    let Some(argument) = values.take_pat() else {
        return Ok(());
    };
    let Some(name) = values.take_pat() else {
        return Ok(());
    };
    let PatForm::Name(name) = name.form else {
        values.clear();
        return Ok(());
    };
    values.push(Val::Pat(PatVal::One(Pat {
        span: Span { from, to },
        form: PatForm::Con(name, Boxed::new(alloc, argument)?),
    })))
}

#[tactic(auto, unfolding(crate::specs::Building::apply_pat))]
fn pat_cons(alloc: Global, values: &mut Values, from: u64, to: u64) -> Result<(), NoMemory>
    ensures { OnOk result (values.new ≡ apply_pat (PatAct.Cons from) to values.old) }
{
    let Some(right) = values.take_pat() else {
        return Ok(());
    };
    let Some(left) = values.take_pat() else {
        return Ok(());
    };
    let sides = pair(alloc, left, right)?;
    let both = Pat {
        span: Span { from, to },
        form: PatForm::Tuple(sides),
    };
    let name = Text::from_bytes(alloc, b"::".as_slice())?;
    values.push(Val::Pat(PatVal::One(Pat {
        span: Span { from, to },
        form: PatForm::Con(name, Boxed::new(alloc, both)?),
    })))
}

#[tactic(auto, unfolding(crate::specs::Building::apply_pat))]
fn pat_typed(alloc: Global, values: &mut Values, from: u64, to: u64) -> Result<(), NoMemory>
    ensures { OnOk result (values.new ≡ apply_pat (PatAct.Typed from) to values.old) }
{
    let Some(ty) = values.take_ty() else {
        return Ok(());
    };
    let Some(body) = values.take_pat() else {
        return Ok(());
    };
    values.push(Val::Pat(PatVal::One(Pat {
        span: Span { from, to },
        form: PatForm::Typed(Boxed::new(alloc, body)?, ty),
    })))
}

#[tactic(auto, unfolding(crate::specs::Building::apply_pat))]
fn pat_pair(alloc: Global, values: &mut Values, from: u64, to: u64) -> Result<(), NoMemory>
    ensures { OnOk result (values.new ≡ apply_pat (PatAct.Pair from) to values.old) }
{
    let Some(right) = values.take_pat() else {
        return Ok(());
    };
    let Some(left) = values.take_pat() else {
        return Ok(());
    };
    let sides = pair(alloc, left, right)?;
    values.push(Val::Pat(PatVal::One(Pat {
        span: Span { from, to },
        form: PatForm::Tuple(sides),
    })))
}

#[tactic(auto, unfolding(crate::specs::Building::apply_pat))]
fn pat_tupled(values: &mut Values, to: u64) -> Result<(), NoMemory>
    ensures { OnOk result (values.new ≡ apply_pat PatAct.Tupled to values.old) }
{
    let Some(pats) = values.take_pats() else {
        return Ok(());
    };
    values.push(Val::Pat(PatVal::Tupled(pats)))
}

/// Acts on patterns.
#[tactic(auto, unfolding(crate::specs::Building::apply_pat))]
pub fn perform_pat(alloc: Global, values: &mut Values, act: PatAct, to: u64) -> Result<(), NoMemory>
    ensures { OnOk result (values.new ≡ apply_pat act to values.old) }
{
    match act {
        PatAct::Any(from) => values.push(Val::Pat(PatVal::One(Pat {
            span: Span { from, to },
            form: PatForm::Any,
        }))),
        PatAct::Int(from, number) => values.push(Val::Pat(PatVal::One(Pat {
            span: Span { from, to },
            form: PatForm::Int(number),
        }))),
        PatAct::Char(from, byte) => values.push(Val::Pat(PatVal::One(Pat {
            span: Span { from, to },
            form: PatForm::Char(byte),
        }))),
        PatAct::Str(from, text) => values.push(Val::Pat(PatVal::One(Pat {
            span: Span { from, to },
            form: PatForm::Str(text),
        }))),
        PatAct::Unit(from) => values.push(Val::Pat(PatVal::One(Pat {
            span: Span { from, to },
            form: PatForm::Unit,
        }))),
        PatAct::Name(from, name) => values.push(Val::Pat(PatVal::One(Pat {
            span: Span { from, to },
            form: PatForm::Name(name),
        }))),
        PatAct::NoPats => values.push(Val::Pat(PatVal::Many(Listed::of(Vec::new(alloc))))),
        PatAct::First => pat_first(alloc, values, to),
        PatAct::Push => pat_push(values, to),
        PatAct::Tuple(from) => pat_tuple(values, from, to),
        PatAct::List(from) => pat_list(values, from, to),
        PatAct::Con(from) => pat_con(alloc, values, from, to),
        PatAct::Cons(from) => pat_cons(alloc, values, from, to),
        PatAct::Typed(from) => pat_typed(alloc, values, from, to),
        PatAct::Pair(from) => pat_pair(alloc, values, from, to),
        PatAct::Tupled => pat_tupled(values, to),
    }
}

/// Two patterns as a list.
fn pair(alloc: Global, left: Pat, right: Pat) -> Result<Listed<Pat>, NoMemory>
    ensures { IfOk result (λ sides. sides ≡ left ∷ right ∷ []) }
{
    let mut sides = Vec::new(alloc);
    sides.push(left)?;
    sides.push(right)?;
    Ok(Listed::of(sides))
}
