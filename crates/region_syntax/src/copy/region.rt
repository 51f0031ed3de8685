// Copies of region terms.
ghost use Rattle.std.specs.Prelude.{◌≡◌, IfOk};

use super::lists::{copy_effects, copy_numbers, copy_places};
use super::types::copy_datatypes;
use crate::{FixDef, RBind, RDec, RExp, RExpForm, RPat, RPatForm, RPiece, RProgram, RRule, RTy};
use sml_syntax::{Boxed, Listed, NoMemory, Text};
use std::alloc::Global;

impl RProgram {
    pub fn try_copy(&self, alloc: Global) -> Result<RProgram, NoMemory>
        ensures { IfOk result (λ copy. copy ≡ self.now) }
    {
        Ok(RProgram {
            datatypes: copy_datatypes(alloc, &self.datatypes)?,
            exceptions: copy_exceptions(alloc, &self.exceptions)?,
            items: copy_decs(alloc, &self.items)?,
        })
    }
}

fn copy_exceptions(
    alloc: Global,
    exceptions: &Listed<(Text, Option<RTy>)>,
) -> Result<Listed<(Text, Option<RTy>)>, NoMemory>
    ensures { IfOk result (λ copy. copy ≡ exceptions.now) }
{
    let mut copies = Vec::new(alloc);
    for exception in exceptions.as_slice() {
        let name = exception.0.try_copy(alloc)?;
        copies.push((name, copy_argument(alloc, &exception.1)?))?;
    }
    Ok(Listed::of(copies))
}

fn copy_argument(alloc: Global, ty: &Option<RTy>) -> Result<Option<RTy>, NoMemory>
    ensures { IfOk result (λ copy. copy ≡ ty.now) }
{
    match ty {
        None => Ok(None),
        Some(ty) => Ok(Some(ty.try_copy(alloc)?)),
    }
}

impl RPat {
    #[cycle(region_pattern_copies)]
    pub fn try_copy(&self, alloc: Global) -> Result<RPat, NoMemory>
        ensures { IfOk result (λ copy. copy ≡ self.now) }
    {
        Ok(RPat {
            ty: self.ty.try_copy(alloc)?,
            form: self.form.try_copy(alloc)?,
        })
    }
}

impl RPatForm {
    #[cycle(region_pattern_copies)]
    pub fn try_copy(&self, alloc: Global) -> Result<RPatForm, NoMemory>
        ensures { IfOk result (λ copy. copy ≡ self.now) }
    {
        match self {
            RPatForm::Any => Ok(RPatForm::Any),
            RPatForm::Int(n) => Ok(RPatForm::Int(*n)),
            RPatForm::Char(c) => Ok(RPatForm::Char(*c)),
            RPatForm::Str(text) => Ok(RPatForm::Str(text.try_copy(alloc)?)),
            RPatForm::Unit => Ok(RPatForm::Unit),
            RPatForm::Name(name) => Ok(RPatForm::Name(name.try_copy(alloc)?)),
            RPatForm::Tuple(parts) => Ok(RPatForm::Tuple(copy_patterns(alloc, parts)?)),
            RPatForm::List(items) => Ok(RPatForm::List(copy_patterns(alloc, items)?)),
            RPatForm::Con(con) => Ok(RPatForm::Con(*con)),
            RPatForm::App(con, arg) => {
                let arg = Boxed::new(alloc, arg.get().try_copy(alloc)?)?;
                Ok(RPatForm::App(*con, arg))
            }
        }
    }
}

#[cycle(region_pattern_copies)]
fn copy_patterns(alloc: Global, pats: &Listed<RPat>) -> Result<Listed<RPat>, NoMemory>
    ensures { IfOk result (λ copy. copy ≡ pats.now) }
{
    let mut copies = Vec::new(alloc);
    for pat in pats.as_slice() {
        copies.push(pat.try_copy(alloc)?)?;
    }
    Ok(Listed::of(copies))
}

impl RExp {
    #[cycle(region_term_copies)]
    pub fn try_copy(&self, alloc: Global) -> Result<RExp, NoMemory>
        ensures { IfOk result (λ copy. copy ≡ self.now) }
    {
        Ok(RExp {
            ty: self.ty.try_copy(alloc)?,
            form: self.form.try_copy(alloc)?,
        })
    }
}

impl RExpForm {
    #[cycle(region_term_copies)]
    pub fn try_copy(&self, alloc: Global) -> Result<RExpForm, NoMemory>
        ensures { IfOk result (λ copy. copy ≡ self.now) }
    {
        match self {
            RExpForm::Int(n) => Ok(RExpForm::Int(*n)),
            RExpForm::Char(c) => Ok(RExpForm::Char(*c)),
            RExpForm::Str(text, at) => Ok(RExpForm::Str(text.try_copy(alloc)?, *at)),
            RExpForm::Name(name) => Ok(RExpForm::Name(name.try_copy(alloc)?)),
            RExpForm::Prim(name) => Ok(RExpForm::Prim(name.try_copy(alloc)?)),
            RExpForm::Con(con) => Ok(RExpForm::Con(*con)),
            RExpForm::Unit => Ok(RExpForm::Unit),
            RExpForm::Tuple(parts, at) => Ok(RExpForm::Tuple(copy_exps(alloc, parts)?, *at)),
            RExpForm::List(items, at) => Ok(RExpForm::List(copy_exps(alloc, items)?, *at)),
            RExpForm::Seq(steps) => Ok(RExpForm::Seq(copy_exps(alloc, steps)?)),
            RExpForm::App(f, x) => Ok(RExpForm::App(copy_box(alloc, f)?, copy_box(alloc, x)?)),
            RExpForm::Let(decs, body) => {
                Ok(RExpForm::Let(copy_decs(alloc, decs)?, copy_exps(alloc, body)?))
            }
            RExpForm::Fn(rules, at) => Ok(RExpForm::Fn(copy_rules(alloc, rules)?, *at)),
            RExpForm::Case(x, rules) => {
                Ok(RExpForm::Case(copy_box(alloc, x)?, copy_rules(alloc, rules)?))
            }
            RExpForm::Handle(x, rules) => {
                Ok(RExpForm::Handle(copy_box(alloc, x)?, copy_rules(alloc, rules)?))
            }
            RExpForm::Raise(x) => Ok(RExpForm::Raise(copy_box(alloc, x)?)),
            RExpForm::If(x, y, z) => {
                let x = copy_box(alloc, x)?;
                Ok(RExpForm::If(x, copy_box(alloc, y)?, copy_box(alloc, z)?))
            }
            RExpForm::Both(x, y) => Ok(RExpForm::Both(copy_box(alloc, x)?, copy_box(alloc, y)?)),
            RExpForm::Either(x, y) => Ok(RExpForm::Either(
                copy_box(alloc, x)?,
                copy_box(alloc, y)?,
            )),
            RExpForm::Quote(pieces, at) => Ok(RExpForm::Quote(copy_pieces(alloc, pieces)?, *at)),
            RExpForm::LetRegion(regions, x) => {
                Ok(RExpForm::LetRegion(copy_numbers(alloc, regions)?, copy_box(alloc, x)?))
            }
            RExpForm::Fix(group, x) => Ok(RExpForm::Fix(
                copy_group(alloc, group)?,
                copy_box(alloc, x)?,
            )),
            RExpForm::Inst(name, places, effects) => {
                let name = name.try_copy(alloc)?;
                let places = copy_places(alloc, places)?;
                Ok(RExpForm::Inst(name, places, copy_effects(alloc, effects)?))
            }
        }
    }
}

impl RRule {
    #[cycle(region_term_copies)]
    pub fn try_copy(&self, alloc: Global) -> Result<RRule, NoMemory>
        ensures { IfOk result (λ copy. copy ≡ self.now) }
    {
        Ok(RRule {
            pat: self.pat.try_copy(alloc)?,
            body: self.body.try_copy(alloc)?,
        })
    }
}

impl RPiece {
    #[cycle(region_term_copies)]
    pub fn try_copy(&self, alloc: Global) -> Result<RPiece, NoMemory>
        ensures { IfOk result (λ copy. copy ≡ self.now) }
    {
        match self {
            RPiece::Plain(text) => Ok(RPiece::Plain(text.try_copy(alloc)?)),
            RPiece::Anti(exp) => Ok(RPiece::Anti(exp.try_copy(alloc)?)),
        }
    }
}

impl FixDef {
    #[cycle(region_term_copies)]
    pub fn try_copy(&self, alloc: Global) -> Result<FixDef, NoMemory>
        ensures { IfOk result (λ copy. copy ≡ self.now) }
    {
        Ok(FixDef {
            name: self.name.try_copy(alloc)?,
            regions: copy_numbers(alloc, &self.regions)?,
            effects: copy_numbers(alloc, &self.effects)?,
            ty: self.ty.try_copy(alloc)?,
            rules: copy_rules(alloc, &self.rules)?,
            at: self.at,
        })
    }
}

impl RBind {
    #[cycle(region_term_copies)]
    pub fn try_copy(&self, alloc: Global) -> Result<RBind, NoMemory>
        ensures { IfOk result (λ copy. copy ≡ self.now) }
    {
        Ok(RBind {
            pat: self.pat.try_copy(alloc)?,
            exp: self.exp.try_copy(alloc)?,
        })
    }
}

impl RDec {
    #[cycle(region_term_copies)]
    pub fn try_copy(&self, alloc: Global) -> Result<RDec, NoMemory>
        ensures { IfOk result (λ copy. copy ≡ self.now) }
    {
        match self {
            RDec::Val(binds) => Ok(RDec::Val(copy_binds(alloc, binds)?)),
            RDec::ValRec(group) => Ok(RDec::ValRec(copy_group(alloc, group)?)),
            RDec::Local(hidden, shown) => {
                let hidden = copy_decs(alloc, hidden)?;
                Ok(RDec::Local(hidden, copy_decs(alloc, shown)?))
            }
        }
    }
}

#[cycle(region_term_copies)]
fn copy_box(alloc: Global, exp: &Boxed<RExp>) -> Result<Boxed<RExp>, NoMemory>
    ensures { IfOk result (λ copy. copy ≡ exp.now) }
{
    Boxed::new(alloc, exp.get().try_copy(alloc)?)
}

#[cycle(region_term_copies)]
fn copy_exps(alloc: Global, exps: &Listed<RExp>) -> Result<Listed<RExp>, NoMemory>
    ensures { IfOk result (λ copy. copy ≡ exps.now) }
{
    let mut copies = Vec::new(alloc);
    for exp in exps.as_slice() {
        copies.push(exp.try_copy(alloc)?)?;
    }
    Ok(Listed::of(copies))
}

#[cycle(region_term_copies)]
fn copy_rules(alloc: Global, rules: &Listed<RRule>) -> Result<Listed<RRule>, NoMemory>
    ensures { IfOk result (λ copy. copy ≡ rules.now) }
{
    let mut copies = Vec::new(alloc);
    for rule in rules.as_slice() {
        copies.push(rule.try_copy(alloc)?)?;
    }
    Ok(Listed::of(copies))
}

#[cycle(region_term_copies)]
fn copy_pieces(alloc: Global, pieces: &Listed<RPiece>) -> Result<Listed<RPiece>, NoMemory>
    ensures { IfOk result (λ copy. copy ≡ pieces.now) }
{
    let mut copies = Vec::new(alloc);
    for piece in pieces.as_slice() {
        copies.push(piece.try_copy(alloc)?)?;
    }
    Ok(Listed::of(copies))
}

#[cycle(region_term_copies)]
fn copy_group(alloc: Global, group: &Listed<FixDef>) -> Result<Listed<FixDef>, NoMemory>
    ensures { IfOk result (λ copy. copy ≡ group.now) }
{
    let mut copies = Vec::new(alloc);
    for def in group.as_slice() {
        copies.push(def.try_copy(alloc)?)?;
    }
    Ok(Listed::of(copies))
}

#[cycle(region_term_copies)]
fn copy_decs(alloc: Global, decs: &Listed<RDec>) -> Result<Listed<RDec>, NoMemory>
    ensures { IfOk result (λ copy. copy ≡ decs.now) }
{
    let mut copies = Vec::new(alloc);
    for dec in decs.as_slice() {
        copies.push(dec.try_copy(alloc)?)?;
    }
    Ok(Listed::of(copies))
}

#[cycle(region_term_copies)]
fn copy_binds(alloc: Global, binds: &Listed<RBind>) -> Result<Listed<RBind>, NoMemory>
    ensures { IfOk result (λ copy. copy ≡ binds.now) }
{
    let mut copies = Vec::new(alloc);
    for bind in binds.as_slice() {
        copies.push(bind.try_copy(alloc)?)?;
    }
    Ok(Listed::of(copies))
}
