// Terms without their regions and places.
ghost use Rattle.std.specs.Prelude.{◌≡◌, ◌∷◌, [], IfOk, map};
ghost use Rattle.region_syntax.specs.GroundTerms.{ground_pat, ground_pat_form, ground_exp, ground_form, ground_rule, ground_bind, ground_piece, ground_def, ground_dec};
ghost use Rattle.region_syntax.specs.GroundTerms as g;
ghost use Rattle.region_syntax.specs.Erasure.{type_erasure, pat_erasure, pat_form_erasure, exp_erasure, form_erasure, rule_erasure, bind_erasure, piece_erasure, def_erasure, dec_erasure};

use crate::types::erase_type;
use region_syntax::{
    FixDef, MBind, MDec, MDef, MExp, MExpForm, MPat, MPatForm, MPiece, MRule, RBind, RDec, RExp,
    RExpForm, RPat, RPatForm, RPiece, RRule, RTy,
};
use sml_syntax::{Boxed, Listed, NoMemory};
use std::alloc::Global;

#[cycle(pattern_erasures)]
#[tactic(auto, using(crate::proofs::ErasedTerms::pat_erased))]
fn erase_pat(alloc: Global, pat: &RPat) -> Result<MPat, NoMemory>
    ensures { IfOk result (λ p. ground_pat p ≡ pat_erasure pat.now) }
{
    Ok(MPat {
        ty: erase_type(alloc, &pat.ty)?,
        form: erase_pat_form(alloc, &pat.form)?,
    })
}

#[cycle(pattern_erasures)]
#[tactic(auto, using(crate::proofs::ErasedTerms::any_pat_erased, crate::proofs::ErasedTerms::int_pat_erased, crate::proofs::ErasedTerms::char_pat_erased, crate::proofs::ErasedTerms::str_pat_erased, crate::proofs::ErasedTerms::unit_pat_erased, crate::proofs::ErasedTerms::name_pat_erased, crate::proofs::ErasedTerms::tuple_pat_erased, crate::proofs::ErasedTerms::list_pat_erased, crate::proofs::ErasedTerms::con_pat_erased, crate::proofs::ErasedTerms::app_pat_erased))]
fn erase_pat_form(alloc: Global, form: &RPatForm) -> Result<MPatForm, NoMemory>
    ensures { IfOk result (λ f. ground_pat_form f ≡ pat_form_erasure form.now) }
{
    match form {
        RPatForm::Any => Ok(MPatForm::Any),
        RPatForm::Int(n) => Ok(MPatForm::Int(*n)),
        RPatForm::Char(c) => Ok(MPatForm::Char(*c)),
        RPatForm::Str(text) => Ok(MPatForm::Str(text.try_copy(alloc)?)),
        RPatForm::Unit => Ok(MPatForm::Unit),
        RPatForm::Name(name) => Ok(MPatForm::Name(name.try_copy(alloc)?)),
        RPatForm::Tuple(parts) => Ok(MPatForm::Tuple(erase_pats(alloc, parts)?)),
        RPatForm::List(items) => Ok(MPatForm::List(erase_pats(alloc, items)?)),
        RPatForm::Con(con) => Ok(MPatForm::Con(*con)),
        RPatForm::App(con, arg) => {
            let arg = Boxed::new(alloc, erase_pat(alloc, arg.get())?)?;
            Ok(MPatForm::App(*con, arg))
        }
    }
}

#[cycle(pattern_erasures)]
#[tactic(auto, using(crate::proofs::Lists::pushed))]
fn erase_pats(alloc: Global, pats: &Listed<RPat>) -> Result<Listed<MPat>, NoMemory>
    ensures { IfOk result (λ ps. map ground_pat ps ≡ map pat_erasure pats.now) }
{
    let mut erased = Vec::new(alloc);
    for pat in pats.as_slice() {
        erased.push(erase_pat(alloc, pat)?)?;
    }
    Ok(Listed::of(erased))
}

#[cycle(term_erasures)]
#[tactic(auto, using(crate::proofs::ErasedTerms::exp_erased))]
fn erase_exp(alloc: Global, exp: &RExp) -> Result<MExp, NoMemory>
    ensures { IfOk result (λ e. ground_exp e ≡ exp_erasure exp.now) }
{
    erase_form(alloc, &exp.form, &exp.ty)
}

#[cycle(term_erasures)]
#[tactic(auto, using(crate::proofs::ErasedTerms::int_erased, crate::proofs::ErasedTerms::char_erased, crate::proofs::ErasedTerms::str_erased, crate::proofs::ErasedTerms::name_erased, crate::proofs::ErasedTerms::prim_erased, crate::proofs::ErasedTerms::con_erased, crate::proofs::ErasedTerms::unit_erased, crate::proofs::ErasedTerms::tuple_erased, crate::proofs::ErasedTerms::list_erased, crate::proofs::ErasedTerms::seq_erased, crate::proofs::ErasedTerms::app_erased, crate::proofs::ErasedTerms::let_erased, crate::proofs::ErasedTerms::fn_erased, crate::proofs::ErasedTerms::case_erased, crate::proofs::ErasedTerms::raise_erased, crate::proofs::ErasedTerms::quote_erased, crate::proofs::ErasedTerms::inst_erased))]
fn erase_form(alloc: Global, form: &RExpForm, ty: &RTy) -> Result<MExp, NoMemory>
    ensures { IfOk result (λ e. ground_exp e ≡ form_erasure (type_erasure ty.now) form.now) }
{
    match form {
        RExpForm::Int(n) => typed(alloc, ty, MExpForm::Int(*n)),
        RExpForm::Char(c) => typed(alloc, ty, MExpForm::Char(*c)),
        RExpForm::Str(text, _) => typed(alloc, ty, MExpForm::Str(text.try_copy(alloc)?)),
        RExpForm::Name(name) => typed(alloc, ty, MExpForm::Name(name.try_copy(alloc)?)),
        RExpForm::Prim(name) => typed(alloc, ty, MExpForm::Prim(name.try_copy(alloc)?)),
        RExpForm::Con(con) => typed(alloc, ty, MExpForm::Con(*con)),
        RExpForm::Unit => typed(alloc, ty, MExpForm::Unit),
        RExpForm::Tuple(parts, _) => typed(alloc, ty, MExpForm::Tuple(erase_exps(alloc, parts)?)),
        RExpForm::List(items, _) => typed(alloc, ty, MExpForm::List(erase_exps(alloc, items)?)),
        RExpForm::Seq(steps) => typed(alloc, ty, MExpForm::Seq(erase_exps(alloc, steps)?)),
        RExpForm::App(f, x) => {
            let f = erase_box(alloc, f)?;
            typed(alloc, ty, MExpForm::App(f, erase_box(alloc, x)?))
        }
        RExpForm::Let(decs, body) => {
            let decs = erase_decs(alloc, decs)?;
            typed(alloc, ty, MExpForm::Let(decs, erase_exps(alloc, body)?))
        }
        RExpForm::Fn(rules, _) => typed(alloc, ty, MExpForm::Fn(erase_rules(alloc, rules)?)),
        RExpForm::Case(x, rules) => {
            let x = erase_box(alloc, x)?;
            typed(alloc, ty, MExpForm::Case(x, erase_rules(alloc, rules)?))
        }
        RExpForm::Handle(x, rules) => {
            let x = erase_box(alloc, x)?;
            typed(alloc, ty, MExpForm::Handle(x, erase_rules(alloc, rules)?))
        }
        RExpForm::Raise(x) => typed(alloc, ty, MExpForm::Raise(erase_box(alloc, x)?)),
        RExpForm::If(x, y, z) => {
            let test = erase_box(alloc, x)?;
            let yes = erase_box(alloc, y)?;
            let no = erase_box(alloc, z)?;
            typed(alloc, ty, MExpForm::If(test, yes, no))
        }
        RExpForm::Both(x, y) => {
            let x = erase_box(alloc, x)?;
            typed(alloc, ty, MExpForm::Both(x, erase_box(alloc, y)?))
        }
        RExpForm::Either(x, y) => {
            let x = erase_box(alloc, x)?;
            typed(alloc, ty, MExpForm::Either(x, erase_box(alloc, y)?))
        }
        RExpForm::Quote(pieces, _) => typed(
            alloc,
            ty,
            MExpForm::Quote(erase_pieces(alloc, pieces)?),
        ),
        RExpForm::LetRegion(_, body) => erase_exp(alloc, body.get()),
        RExpForm::Fix(group, body) => {
            let group = one(alloc, MDec::ValRec(erase_group(alloc, group)?))?;
            let body = one(alloc, erase_exp(alloc, body.get())?)?;
            typed(alloc, ty, MExpForm::Let(group, body))
        }
        RExpForm::Inst(name, _, _) => typed(alloc, ty, MExpForm::Name(name.try_copy(alloc)?)),
    }
}

/// A node of this form, with the type erased.
#[tactic(auto, using(crate::proofs::ErasedTerms::exp_made))]
fn typed(alloc: Global, ty: &RTy, form: MExpForm) -> Result<MExp, NoMemory>
    ensures { IfOk result (λ e. ground_exp e ≡ g.exp (type_erasure ty.now) (ground_form form)) }
{
    Ok(MExp {
        ty: erase_type(alloc, ty)?,
        form,
    })
}

fn one<T: Drop>(alloc: Global, item: T) -> Result<Listed<T>, NoMemory>
    ensures { IfOk result (λ items. items ≡ item ∷ []) }
{
    let mut items = Vec::new(alloc);
    items.push(item)?;
    Ok(Listed::of(items))
}

#[cycle(term_erasures)]
fn erase_box(alloc: Global, exp: &Boxed<RExp>) -> Result<Boxed<MExp>, NoMemory>
    ensures { IfOk result (λ e. ground_exp e ≡ exp_erasure exp.now) }
{
    Boxed::new(alloc, erase_exp(alloc, exp.get())?)
}

#[cycle(term_erasures)]
#[tactic(auto, using(crate::proofs::ErasedTerms::rule_erased))]
fn erase_rule(alloc: Global, rule: &RRule) -> Result<MRule, NoMemory>
    ensures { IfOk result (λ r. ground_rule r ≡ rule_erasure rule.now) }
{
    Ok(MRule {
        pat: erase_pat(alloc, &rule.pat)?,
        body: erase_exp(alloc, &rule.body)?,
    })
}

#[cycle(term_erasures)]
#[tactic(auto, using(crate::proofs::ErasedTerms::bind_erased))]
fn erase_bind(alloc: Global, bind: &RBind) -> Result<MBind, NoMemory>
    ensures { IfOk result (λ b. ground_bind b ≡ bind_erasure bind.now) }
{
    Ok(MBind {
        pat: erase_pat(alloc, &bind.pat)?,
        exp: erase_exp(alloc, &bind.exp)?,
    })
}

#[cycle(term_erasures)]
#[tactic(auto, using(crate::proofs::ErasedTerms::plain_erased, crate::proofs::ErasedTerms::anti_erased))]
fn erase_piece(alloc: Global, piece: &RPiece) -> Result<MPiece, NoMemory>
    ensures { IfOk result (λ p. ground_piece p ≡ piece_erasure piece.now) }
{
    match piece {
        RPiece::Plain(text) => Ok(MPiece::Plain(text.try_copy(alloc)?)),
        RPiece::Anti(exp) => Ok(MPiece::Anti(erase_exp(alloc, exp)?)),
    }
}

#[cycle(term_erasures)]
#[tactic(auto, using(crate::proofs::ErasedTerms::def_erased))]
fn erase_def(alloc: Global, def: &FixDef) -> Result<MDef, NoMemory>
    ensures { IfOk result (λ d. ground_def d ≡ def_erasure def.now) }
{
    Ok(MDef {
        name: def.name.try_copy(alloc)?,
        rules: erase_rules(alloc, &def.rules)?,
    })
}

#[cycle(term_erasures)]
#[tactic(auto, using(crate::proofs::ErasedTerms::val_erased, crate::proofs::ErasedTerms::fun_erased, crate::proofs::ErasedTerms::local_erased))]
fn erase_dec(alloc: Global, dec: &RDec) -> Result<MDec, NoMemory>
    ensures { IfOk result (λ d. ground_dec d ≡ dec_erasure dec.now) }
{
    match dec {
        RDec::Val(binds) => Ok(MDec::Val(erase_binds(alloc, binds)?)),
        RDec::ValRec(group) => Ok(MDec::ValRec(erase_group(alloc, group)?)),
        RDec::Local(hidden, shown) => {
            let hidden = erase_decs(alloc, hidden)?;
            Ok(MDec::Local(hidden, erase_decs(alloc, shown)?))
        }
    }
}

#[cycle(term_erasures)]
#[tactic(auto, using(crate::proofs::Lists::pushed))]
fn erase_exps(alloc: Global, exps: &Listed<RExp>) -> Result<Listed<MExp>, NoMemory>
    ensures { IfOk result (λ es. map ground_exp es ≡ map exp_erasure exps.now) }
{
    let mut erased = Vec::new(alloc);
    for exp in exps.as_slice() {
        erased.push(erase_exp(alloc, exp)?)?;
    }
    Ok(Listed::of(erased))
}

#[cycle(term_erasures)]
#[tactic(auto, using(crate::proofs::Lists::pushed))]
fn erase_rules(alloc: Global, rules: &Listed<RRule>) -> Result<Listed<MRule>, NoMemory>
    ensures { IfOk result (λ es. map ground_rule es ≡ map rule_erasure rules.now) }
{
    let mut erased = Vec::new(alloc);
    for rule in rules.as_slice() {
        erased.push(erase_rule(alloc, rule)?)?;
    }
    Ok(Listed::of(erased))
}

#[cycle(term_erasures)]
#[tactic(auto, using(crate::proofs::Lists::pushed))]
fn erase_binds(alloc: Global, binds: &Listed<RBind>) -> Result<Listed<MBind>, NoMemory>
    ensures { IfOk result (λ es. map ground_bind es ≡ map bind_erasure binds.now) }
{
    let mut erased = Vec::new(alloc);
    for bind in binds.as_slice() {
        erased.push(erase_bind(alloc, bind)?)?;
    }
    Ok(Listed::of(erased))
}

#[cycle(term_erasures)]
#[tactic(auto, using(crate::proofs::Lists::pushed))]
fn erase_pieces(alloc: Global, pieces: &Listed<RPiece>) -> Result<Listed<MPiece>, NoMemory>
    ensures { IfOk result (λ es. map ground_piece es ≡ map piece_erasure pieces.now) }
{
    let mut erased = Vec::new(alloc);
    for piece in pieces.as_slice() {
        erased.push(erase_piece(alloc, piece)?)?;
    }
    Ok(Listed::of(erased))
}

#[cycle(term_erasures)]
#[tactic(auto, using(crate::proofs::Lists::pushed))]
fn erase_group(alloc: Global, group: &Listed<FixDef>) -> Result<Listed<MDef>, NoMemory>
    ensures { IfOk result (λ es. map ground_def es ≡ map def_erasure group.now) }
{
    let mut erased = Vec::new(alloc);
    for def in group.as_slice() {
        erased.push(erase_def(alloc, def)?)?;
    }
    Ok(Listed::of(erased))
}

#[cycle(term_erasures)]
#[tactic(auto, using(crate::proofs::Lists::pushed))]
pub(crate) fn erase_decs(alloc: Global, decs: &Listed<RDec>) -> Result<Listed<MDec>, NoMemory>
    ensures { IfOk result (λ es. map ground_dec es ≡ map dec_erasure decs.now) }
{
    let mut erased = Vec::new(alloc);
    for dec in decs.as_slice() {
        erased.push(erase_dec(alloc, dec)?)?;
    }
    Ok(Listed::of(erased))
}
