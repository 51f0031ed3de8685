// Acts on types.
ghost use Rattle.std.specs.Prelude.{◌≡◌, OnOk};
ghost use Rattle.parse_build.specs.Building.{apply_ty};
ghost use Rattle.sml_grammar.specs.declared.act.TyAct.{TyAct};

use parse_values::{TyVal, Val, Values};
use sml_grammar::TyAct;
use sml_syntax::{Boxed, Listed, NoMemory, Span, Text, Ty, TyForm};
use std::alloc::Global;

#[tactic(auto, unfolding(crate::specs::Building::apply_ty))]
fn ty_first(alloc: Global, values: &mut Values, to: u64) -> Result<(), NoMemory>
    ensures { OnOk result (values.new ≡ apply_ty TyAct.First to values.old) }
{
    let Some(first) = values.take_ty() else {
        return Ok(());
    };
    let mut all = Vec::new(alloc);
    all.push(first)?;
    values.push(Val::Ty(TyVal::Many(Listed::of(all))))
}

#[tactic(auto, unfolding(crate::specs::Building::apply_ty))]
fn ty_push(values: &mut Values, to: u64) -> Result<(), NoMemory>
    ensures { OnOk result (values.new ≡ apply_ty TyAct.Push to values.old) }
{
    let Some(next) = values.take_ty() else {
        return Ok(());
    };
    let Some(tys) = values.take_tys() else {
        return Ok(());
    };
    let mut all = tys.into_vec();
    all.push(next)?;
    values.push(Val::Ty(TyVal::Many(Listed::of(all))))
}

#[tactic(auto, unfolding(crate::specs::Building::apply_ty))]
fn ty_con(values: &mut Values, from: u64, name: Text, to: u64) -> Result<(), NoMemory>
    ensures { OnOk result (values.new ≡ apply_ty (TyAct.Con from name) to values.old) }
{
    let Some(tys) = values.take_tys() else {
        return Ok(());
    };
    values.push(Val::Ty(TyVal::One(Ty {
        span: Span { from, to },
        form: TyForm::Con(name, tys),
    })))
}

#[tactic(auto, unfolding(crate::specs::Building::apply_ty))]
fn ty_tuple(values: &mut Values, from: u64, to: u64) -> Result<(), NoMemory>
    ensures { OnOk result (values.new ≡ apply_ty (TyAct.Tuple from) to values.old) }
{
    let Some(tys) = values.take_tys() else {
        return Ok(());
    };
    values.push(Val::Ty(TyVal::One(Ty {
        span: Span { from, to },
        form: TyForm::Tuple(tys),
    })))
}

#[tactic(auto, unfolding(crate::specs::Building::apply_ty))]
fn ty_arrow(alloc: Global, values: &mut Values, from: u64, to: u64) -> Result<(), NoMemory>
    ensures { OnOk result (values.new ≡ apply_ty (TyAct.Arrow from) to values.old) }
{
    let Some(right) = values.take_ty() else {
        return Ok(());
    };
    let Some(left) = values.take_ty() else {
        return Ok(());
    };
    values.push(Val::Ty(TyVal::One(Ty {
        span: Span { from, to },
        form: TyForm::Arrow(Boxed::new(alloc, left)?, Boxed::new(alloc, right)?),
    })))
}

/// Acts on types.
#[tactic(auto, unfolding(crate::specs::Building::apply_ty))]
pub fn perform_ty(alloc: Global, values: &mut Values, act: TyAct, to: u64) -> Result<(), NoMemory>
    ensures { OnOk result (values.new ≡ apply_ty act to values.old) }
{
    match act {
        TyAct::Var(from, name) => values.push(Val::Ty(TyVal::One(Ty {
            span: Span { from, to },
            form: TyForm::Var(name),
        }))),
        TyAct::NoTys => values.push(Val::Ty(TyVal::Many(Listed::of(Vec::new(alloc))))),
        TyAct::First => ty_first(alloc, values, to),
        TyAct::Push => ty_push(values, to),
        TyAct::Con(from, name) => ty_con(values, from, name, to),
        TyAct::Tuple(from) => ty_tuple(values, from, to),
        TyAct::Arrow(from) => ty_arrow(alloc, values, from, to),
    }
}
