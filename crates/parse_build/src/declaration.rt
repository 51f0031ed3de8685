// Acts on declarations and their parts.
ghost use Rattle.std.specs.Prelude.{◌≡◌, ◌++◌, ◌∷◌, [], IfOk, OnOk};
ghost use Rattle.parse_build.specs.Building.{apply_dec};
ghost use Rattle.sml_grammar.specs.declared.act.DecAct.{DecAct};

use crate::curry::curried;
use parse_values::{DecVal, DefVal, ExpVal, Val, Values};
use sml_grammar::DecAct;
use sml_syntax::{
    Boxed, Dec, DecForm, Exp, ExpForm, Listed, NoMemory, Pat, PatForm, Rule, Span, Text,
};
use std::alloc::Global;

#[tactic(auto, unfolding(crate::specs::Building::apply_dec))]
fn dec_add_bind(values: &mut Values, to: u64) -> Result<(), NoMemory>
    ensures { OnOk result (values.new ≡ apply_dec DecAct.AddBind to values.old) }
{
    let Some(body) = values.take_exp() else {
        return Ok(());
    };
    let Some(pat) = values.take_pat() else {
        return Ok(());
    };
    let Some(binds) = values.take_binds() else {
        return Ok(());
    };
    let mut all = binds.into_vec();
    all.push((pat, body))?;
    values.push(Val::Dec(DecVal::Binds(Listed::of(all))))
}

#[tactic(auto, unfolding(crate::specs::Building::apply_dec))]
fn dec_val(values: &mut Values, from: u64, to: u64) -> Result<(), NoMemory>
    ensures { OnOk result (values.new ≡ apply_dec (DecAct.Val from) to values.old) }
{
    let Some(binds) = values.take_binds() else {
        return Ok(());
    };
    values.push(Val::Dec(DecVal::One(Dec {
        span: Span { from, to },
        form: DecForm::Val(binds),
    })))
}

#[tactic(auto, unfolding(crate::specs::Building::apply_dec))]
fn dec_constrain(alloc: Global, values: &mut Values, from: u64, to: u64) -> Result<(), NoMemory>
    ensures { OnOk result (values.new ≡ apply_dec (DecAct.Constrain from) to values.old) }
{
    let Some(body) = values.take_exp() else {
        return Ok(());
    };
    let Some(ty) = values.take_ty() else {
        return Ok(());
    };
    values.push(Val::Exp(ExpVal::One(Exp {
        span: Span { from, to },
        form: ExpForm::Typed(Boxed::new(alloc, body)?, ty),
    })))
}

#[tactic(auto, unfolding(crate::specs::Building::apply_dec))]
fn dec_add_clause(values: &mut Values, from: u64, to: u64) -> Result<(), NoMemory>
    ensures { OnOk result (values.new ≡ apply_dec (DecAct.AddClause from) to values.old) }
{
    let Some(body) = values.take_exp() else {
        return Ok(());
    };
    let Some(pat) = values.take_clause_pat(Span { from, to }) else {
        return Ok(());
    };
    let Some(rules) = values.take_rules() else {
        return Ok(());
    };
    let mut all = rules.into_vec();
    all.push(Rule { pat, body })?;
    values.push(Val::Exp(ExpVal::Rules(Listed::of(all))))
}

#[tactic(auto, unfolding(crate::specs::Building::apply_dec))]
fn dec_curry(
    alloc: Global,
    values: &mut Values,
    from: u64,
    count: u64,
    to: u64,
) -> Result<(), NoMemory>
    ensures { OnOk result (values.new ≡ apply_dec (DecAct.Curry from count) to values.old) }
{
    let Some(rules) = values.take_rules() else {
        return Ok(());
    };
    let rule = curried(alloc, Span { from, to }, count, rules)?;
    let mut all = Vec::new(alloc);
    all.push(rule)?;
    values.push(Val::Exp(ExpVal::Rules(Listed::of(all))))
}

#[tactic(auto, unfolding(crate::specs::Building::apply_dec))]
fn dec_add_rec(values: &mut Values, name: Text, to: u64) -> Result<(), NoMemory>
    ensures { OnOk result (values.new ≡ apply_dec (DecAct.AddRec name) to values.old) }
{
    let Some(rules) = values.take_rules() else {
        return Ok(());
    };
    let Some(recs) = values.take_recs() else {
        return Ok(());
    };
    let mut all = recs.into_vec();
    all.push((name, rules))?;
    values.push(Val::Dec(DecVal::Recs(Listed::of(all))))
}

#[tactic(auto, unfolding(crate::specs::Building::apply_dec))]
fn dec_val_rec(values: &mut Values, from: u64, to: u64) -> Result<(), NoMemory>
    ensures { OnOk result (values.new ≡ apply_dec (DecAct.ValRec from) to values.old) }
{
    let Some(recs) = values.take_recs() else {
        return Ok(());
    };
    values.push(Val::Dec(DecVal::One(Dec {
        span: Span { from, to },
        form: DecForm::ValRec(recs),
    })))
}

#[tactic(auto, unfolding(crate::specs::Building::apply_dec))]
fn dec_add_var(values: &mut Values, name: Text, to: u64) -> Result<(), NoMemory>
    ensures { OnOk result (values.new ≡ apply_dec (DecAct.AddVar name) to values.old) }
{
    let Some(names) = values.take_vars() else {
        return Ok(());
    };
    let mut all = names.into_vec();
    all.push(name)?;
    values.push(Val::Def(DefVal::Vars(Listed::of(all))))
}

#[tactic(auto, unfolding(crate::specs::Building::apply_dec))]
fn dec_head(values: &mut Values, name: Text, to: u64) -> Result<(), NoMemory>
    ensures { OnOk result (values.new ≡ apply_dec (DecAct.Head name) to values.old) }
{
    let Some(names) = values.take_vars() else {
        return Ok(());
    };
    values.push(Val::Def(DefVal::Head(names, name)))
}

#[tactic(auto, unfolding(crate::specs::Building::apply_dec))]
fn dec_add_abbrev(values: &mut Values, to: u64) -> Result<(), NoMemory>
    ensures { OnOk result (values.new ≡ apply_dec DecAct.AddAbbrev to values.old) }
{
    let Some(ty) = values.take_ty() else {
        return Ok(());
    };
    let Some((names, name)) = values.take_head() else {
        return Ok(());
    };
    let Some(abbrevs) = values.take_abbrevs() else {
        return Ok(());
    };
    let mut all = abbrevs.into_vec();
    all.push((names, name, ty))?;
    values.push(Val::Def(DefVal::Abbrevs(Listed::of(all))))
}

#[tactic(auto, unfolding(crate::specs::Building::apply_dec))]
fn dec_abbrev(values: &mut Values, from: u64, to: u64) -> Result<(), NoMemory>
    ensures { OnOk result (values.new ≡ apply_dec (DecAct.Abbrev from) to values.old) }
{
    let Some(abbrevs) = values.take_abbrevs() else {
        return Ok(());
    };
    values.push(Val::Dec(DecVal::One(Dec {
        span: Span { from, to },
        form: DecForm::Abbrev(abbrevs),
    })))
}

#[tactic(auto, unfolding(crate::specs::Building::apply_dec))]
fn dec_con_of(values: &mut Values, to: u64) -> Result<(), NoMemory>
    ensures { OnOk result (values.new ≡ apply_dec DecAct.ConOf to values.old) }
{
    let Some(ty) = values.take_ty() else {
        return Ok(());
    };
    let Some((name, _)) = values.take_con() else {
        return Ok(());
    };
    values.push(Val::Def(DefVal::Con(name, Some(ty))))
}

#[tactic(auto, unfolding(crate::specs::Building::apply_dec))]
fn dec_add_con(values: &mut Values, to: u64) -> Result<(), NoMemory>
    ensures { OnOk result (values.new ≡ apply_dec DecAct.AddCon to values.old) }
{
    let Some((name, argument)) = values.take_con() else {
        return Ok(());
    };
    let Some(cons) = values.take_cons() else {
        return Ok(());
    };
    let mut all = cons.into_vec();
    all.push((name, argument))?;
    values.push(Val::Def(DefVal::Cons(Listed::of(all))))
}

// A list with one more behind its items.
fn with_one<T: Drop>(items: Listed<T>, item: T) -> Result<Listed<T>, NoMemory>
    ensures { IfOk result (λ all. all ≡ items ++ item ∷ []) }
{
    let mut all = items.into_vec();
    all.push(item)?;
    Ok(Listed::of(all))
}

#[tactic(auto, unfolding(crate::specs::Building::apply_dec))]
fn dec_add_data(values: &mut Values, to: u64) -> Result<(), NoMemory>
    ensures { OnOk result (values.new ≡ apply_dec DecAct.AddData to values.old) }
{
    let Some(cons) = values.take_cons() else {
        return Ok(());
    };
    let Some((names, name)) = values.take_head() else {
        return Ok(());
    };
    let Some(datas) = values.take_datas() else {
        return Ok(());
    };
    let all = with_one(datas, (names, name, cons))?;
    values.push(Val::Def(DefVal::Datas(all)))
}

#[tactic(auto, unfolding(crate::specs::Building::apply_dec))]
fn dec_data_def(values: &mut Values, from: u64, to: u64) -> Result<(), NoMemory>
    ensures { OnOk result (values.new ≡ apply_dec (DecAct.DataDef from) to values.old) }
{
    let Some(datas) = values.take_datas() else {
        return Ok(());
    };
    values.push(Val::Dec(DecVal::One(Dec {
        span: Span { from, to },
        form: DecForm::DataDef(datas),
    })))
}

#[tactic(auto, unfolding(crate::specs::Building::apply_dec))]
fn dec_exn_def(values: &mut Values, from: u64, to: u64) -> Result<(), NoMemory>
    ensures { OnOk result (values.new ≡ apply_dec (DecAct.ExnDef from) to values.old) }
{
    let Some(cons) = values.take_cons() else {
        return Ok(());
    };
    values.push(Val::Dec(DecVal::One(Dec {
        span: Span { from, to },
        form: DecForm::ExnDef(cons),
    })))
}

#[tactic(auto, unfolding(crate::specs::Building::apply_dec))]
fn dec_add_dec(values: &mut Values, to: u64) -> Result<(), NoMemory>
    ensures { OnOk result (values.new ≡ apply_dec DecAct.AddDec to values.old) }
{
    let Some(next) = values.take_dec() else {
        return Ok(());
    };
    let Some(decs) = values.take_decs() else {
        return Ok(());
    };
    let mut all = decs.into_vec();
    all.push(next)?;
    values.push(Val::Dec(DecVal::Many(Listed::of(all))))
}

#[tactic(auto, unfolding(crate::specs::Building::apply_dec))]
fn dec_local(values: &mut Values, from: u64, to: u64) -> Result<(), NoMemory>
    ensures { OnOk result (values.new ≡ apply_dec (DecAct.Local from) to values.old) }
{
    let Some(second) = values.take_decs() else {
        return Ok(());
    };
    let Some(first) = values.take_decs() else {
        return Ok(());
    };
    values.push(Val::Dec(DecVal::One(Dec {
        span: Span { from, to },
        form: DecForm::Local(first, second),
    })))
}

#[tactic(auto, unfolding(crate::specs::Building::apply_dec))]
fn dec_it(alloc: Global, values: &mut Values, from: u64, to: u64) -> Result<(), NoMemory>
    ensures { OnOk result (values.new ≡ apply_dec (DecAct.It from) to values.old) }
{
    let Some(body) = values.take_exp() else {
        return Ok(());
    };
    let name = Text::from_bytes(alloc, b"it".as_slice())?;
    let pat = Pat {
        span: Span { from, to },
        form: PatForm::Name(name),
    };
    let mut all = Vec::new(alloc);
    all.push((pat, body))?;
    values.push(Val::Dec(DecVal::One(Dec {
        span: Span { from, to },
        form: DecForm::Val(Listed::of(all)),
    })))
}

/// Acts on declarations and their parts.
#[tactic(auto, unfolding(crate::specs::Building::apply_dec))]
pub fn perform_dec(alloc: Global, values: &mut Values, act: DecAct, to: u64) -> Result<(), NoMemory>
    ensures { OnOk result (values.new ≡ apply_dec act to values.old) }
{
    match act {
        DecAct::NoBinds => values.push(Val::Dec(DecVal::Binds(Listed::of(Vec::new(alloc))))),
        DecAct::AddBind => dec_add_bind(values, to),
        DecAct::Val(from) => dec_val(values, from, to),
        DecAct::NoRecs => values.push(Val::Dec(DecVal::Recs(Listed::of(Vec::new(alloc))))),
        DecAct::Constrain(from) => dec_constrain(alloc, values, from, to),
        DecAct::AddClause(from) => dec_add_clause(values, from, to),
        DecAct::Curry(from, count) => dec_curry(alloc, values, from, count, to),
        DecAct::AddRec(name) => dec_add_rec(values, name, to),
        DecAct::ValRec(from) => dec_val_rec(values, from, to),
        DecAct::NoVars => values.push(Val::Def(DefVal::Vars(Listed::of(Vec::new(alloc))))),
        DecAct::AddVar(name) => dec_add_var(values, name, to),
        DecAct::Head(name) => dec_head(values, name, to),
        DecAct::NoAbbrevs => values.push(Val::Def(DefVal::Abbrevs(Listed::of(Vec::new(alloc))))),
        DecAct::AddAbbrev => dec_add_abbrev(values, to),
        DecAct::Abbrev(from) => dec_abbrev(values, from, to),
        DecAct::NoCons => values.push(Val::Def(DefVal::Cons(Listed::of(Vec::new(alloc))))),
        DecAct::Con(name) => values.push(Val::Def(DefVal::Con(name, None))),
        DecAct::ConOf => dec_con_of(values, to),
        DecAct::AddCon => dec_add_con(values, to),
        DecAct::NoDatas => values.push(Val::Def(DefVal::Datas(Listed::of(Vec::new(alloc))))),
        DecAct::AddData => dec_add_data(values, to),
        DecAct::DataDef(from) => dec_data_def(values, from, to),
        DecAct::ExnDef(from) => dec_exn_def(values, from, to),
        DecAct::NoDecs => values.push(Val::Dec(DecVal::Many(Listed::of(Vec::new(alloc))))),
        DecAct::AddDec => dec_add_dec(values, to),
        DecAct::Local(from) => dec_local(values, from, to),
        DecAct::It(from) => dec_it(alloc, values, from, to),
        DecAct::Item(_) => dec_add_dec(values, to),
    }
}
