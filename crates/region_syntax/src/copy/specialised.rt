// Copies of specialised terms.
ghost use Rattle.std.specs.Prelude.{◌≡◌, IfOk};

use super::types::{copy_constructors, copy_datatypes};
use crate::{MBind, MDec, MDef, MExp, MExpForm, MPat, MPatForm, MPiece, MProgram, MRule};
use sml_syntax::{Boxed, Listed, NoMemory};
use std::alloc::Global;

impl MProgram {
    pub fn try_copy(&self, alloc: Global) -> Result<MProgram, NoMemory>
        ensures { IfOk result (λ copy. copy ≡ self.now) }
    {
        Ok(MProgram {
            datatypes: copy_datatypes(alloc, &self.datatypes)?,
            exceptions: copy_constructors(alloc, &self.exceptions)?,
            items: copy_decs(alloc, &self.items)?,
        })
    }
}

impl MPat {
    #[cycle(specialised_pattern_copies)]
    pub fn try_copy(&self, alloc: Global) -> Result<MPat, NoMemory>
        ensures { IfOk result (λ copy. copy ≡ self.now) }
    {
        Ok(MPat {
            ty: self.ty.try_copy(alloc)?,
            form: self.form.try_copy(alloc)?,
        })
    }
}

impl MPatForm {
    #[cycle(specialised_pattern_copies)]
    pub fn try_copy(&self, alloc: Global) -> Result<MPatForm, NoMemory>
        ensures { IfOk result (λ copy. copy ≡ self.now) }
    {
        match self {
            MPatForm::Any => Ok(MPatForm::Any),
            MPatForm::Int(n) => Ok(MPatForm::Int(*n)),
            MPatForm::Char(c) => Ok(MPatForm::Char(*c)),
            MPatForm::Str(text) => Ok(MPatForm::Str(text.try_copy(alloc)?)),
            MPatForm::Unit => Ok(MPatForm::Unit),
            MPatForm::Name(name) => Ok(MPatForm::Name(name.try_copy(alloc)?)),
            MPatForm::Tuple(parts) => Ok(MPatForm::Tuple(copy_patterns(alloc, parts)?)),
            MPatForm::List(items) => Ok(MPatForm::List(copy_patterns(alloc, items)?)),
            MPatForm::Con(con) => Ok(MPatForm::Con(*con)),
            MPatForm::App(con, arg) => {
                let arg = Boxed::new(alloc, arg.get().try_copy(alloc)?)?;
                Ok(MPatForm::App(*con, arg))
            }
        }
    }
}

#[cycle(specialised_pattern_copies)]
fn copy_patterns(alloc: Global, pats: &Listed<MPat>) -> Result<Listed<MPat>, NoMemory>
    ensures { IfOk result (λ copy. copy ≡ pats.now) }
{
    let mut copies = Vec::new(alloc);
    for pat in pats.as_slice() {
        copies.push(pat.try_copy(alloc)?)?;
    }
    Ok(Listed::of(copies))
}

impl MExp {
    #[cycle(specialised_term_copies)]
    pub fn try_copy(&self, alloc: Global) -> Result<MExp, NoMemory>
        ensures { IfOk result (λ copy. copy ≡ self.now) }
    {
        Ok(MExp {
            ty: self.ty.try_copy(alloc)?,
            form: self.form.try_copy(alloc)?,
        })
    }
}

impl MExpForm {
    #[cycle(specialised_term_copies)]
    pub fn try_copy(&self, alloc: Global) -> Result<MExpForm, NoMemory>
        ensures { IfOk result (λ copy. copy ≡ self.now) }
    {
        Ok(match self {
            MExpForm::Int(n) => MExpForm::Int(*n),
            MExpForm::Char(c) => MExpForm::Char(*c),
            MExpForm::Str(text) => MExpForm::Str(text.try_copy(alloc)?),
            MExpForm::Name(name) => MExpForm::Name(name.try_copy(alloc)?),
            MExpForm::Prim(name) => MExpForm::Prim(name.try_copy(alloc)?),
            MExpForm::Con(con) => MExpForm::Con(*con),
            MExpForm::Unit => MExpForm::Unit,
            MExpForm::Tuple(parts) => MExpForm::Tuple(copy_exps(alloc, parts)?),
            MExpForm::List(items) => MExpForm::List(copy_exps(alloc, items)?),
            MExpForm::Seq(steps) => MExpForm::Seq(copy_exps(alloc, steps)?),
            MExpForm::App(f, x) => MExpForm::App(copy_box(alloc, f)?, copy_box(alloc, x)?),
            MExpForm::Let(decs, body) => {
                MExpForm::Let(copy_decs(alloc, decs)?, copy_exps(alloc, body)?)
            }
            MExpForm::Fn(rules) => MExpForm::Fn(copy_rules(alloc, rules)?),
            MExpForm::Case(x, rules) => {
                MExpForm::Case(copy_box(alloc, x)?, copy_rules(alloc, rules)?)
            }
            MExpForm::Handle(x, rules) => {
                MExpForm::Handle(copy_box(alloc, x)?, copy_rules(alloc, rules)?)
            }
            MExpForm::Raise(x) => MExpForm::Raise(copy_box(alloc, x)?),
            MExpForm::If(x, y, z) => {
                let x = copy_box(alloc, x)?;
                MExpForm::If(x, copy_box(alloc, y)?, copy_box(alloc, z)?)
            }
            MExpForm::Both(x, y) => MExpForm::Both(copy_box(alloc, x)?, copy_box(alloc, y)?),
            MExpForm::Either(x, y) => MExpForm::Either(copy_box(alloc, x)?, copy_box(alloc, y)?),
            MExpForm::Quote(pieces) => MExpForm::Quote(copy_pieces(alloc, pieces)?),
        })
    }
}

impl MRule {
    #[cycle(specialised_term_copies)]
    pub fn try_copy(&self, alloc: Global) -> Result<MRule, NoMemory>
        ensures { IfOk result (λ copy. copy ≡ self.now) }
    {
        Ok(MRule {
            pat: self.pat.try_copy(alloc)?,
            body: self.body.try_copy(alloc)?,
        })
    }
}

impl MPiece {
    #[cycle(specialised_term_copies)]
    pub fn try_copy(&self, alloc: Global) -> Result<MPiece, NoMemory>
        ensures { IfOk result (λ copy. copy ≡ self.now) }
    {
        match self {
            MPiece::Plain(text) => Ok(MPiece::Plain(text.try_copy(alloc)?)),
            MPiece::Anti(exp) => Ok(MPiece::Anti(exp.try_copy(alloc)?)),
        }
    }
}

impl MBind {
    #[cycle(specialised_term_copies)]
    pub fn try_copy(&self, alloc: Global) -> Result<MBind, NoMemory>
        ensures { IfOk result (λ copy. copy ≡ self.now) }
    {
        Ok(MBind {
            pat: self.pat.try_copy(alloc)?,
            exp: self.exp.try_copy(alloc)?,
        })
    }
}

impl MDef {
    #[cycle(specialised_term_copies)]
    pub fn try_copy(&self, alloc: Global) -> Result<MDef, NoMemory>
        ensures { IfOk result (λ copy. copy ≡ self.now) }
    {
        Ok(MDef {
            name: self.name.try_copy(alloc)?,
            rules: copy_rules(alloc, &self.rules)?,
        })
    }
}

impl MDec {
    #[cycle(specialised_term_copies)]
    pub fn try_copy(&self, alloc: Global) -> Result<MDec, NoMemory>
        ensures { IfOk result (λ copy. copy ≡ self.now) }
    {
        match self {
            MDec::Val(binds) => Ok(MDec::Val(copy_binds(alloc, binds)?)),
            MDec::ValRec(group) => Ok(MDec::ValRec(copy_group(alloc, group)?)),
            MDec::Local(hidden, shown) => {
                let hidden = copy_decs(alloc, hidden)?;
                Ok(MDec::Local(hidden, copy_decs(alloc, shown)?))
            }
        }
    }
}

#[cycle(specialised_term_copies)]
fn copy_box(alloc: Global, exp: &Boxed<MExp>) -> Result<Boxed<MExp>, NoMemory>
    ensures { IfOk result (λ copy. copy ≡ exp.now) }
{
    Boxed::new(alloc, exp.get().try_copy(alloc)?)
}

#[cycle(specialised_term_copies)]
fn copy_exps(alloc: Global, exps: &Listed<MExp>) -> Result<Listed<MExp>, NoMemory>
    ensures { IfOk result (λ copy. copy ≡ exps.now) }
{
    let mut copies = Vec::new(alloc);
    for exp in exps.as_slice() {
        copies.push(exp.try_copy(alloc)?)?;
    }
    Ok(Listed::of(copies))
}

#[cycle(specialised_term_copies)]
fn copy_rules(alloc: Global, rules: &Listed<MRule>) -> Result<Listed<MRule>, NoMemory>
    ensures { IfOk result (λ copy. copy ≡ rules.now) }
{
    let mut copies = Vec::new(alloc);
    for rule in rules.as_slice() {
        copies.push(rule.try_copy(alloc)?)?;
    }
    Ok(Listed::of(copies))
}

#[cycle(specialised_term_copies)]
fn copy_pieces(alloc: Global, pieces: &Listed<MPiece>) -> Result<Listed<MPiece>, NoMemory>
    ensures { IfOk result (λ copy. copy ≡ pieces.now) }
{
    let mut copies = Vec::new(alloc);
    for piece in pieces.as_slice() {
        copies.push(piece.try_copy(alloc)?)?;
    }
    Ok(Listed::of(copies))
}

#[cycle(specialised_term_copies)]
fn copy_decs(alloc: Global, decs: &Listed<MDec>) -> Result<Listed<MDec>, NoMemory>
    ensures { IfOk result (λ copy. copy ≡ decs.now) }
{
    let mut copies = Vec::new(alloc);
    for dec in decs.as_slice() {
        copies.push(dec.try_copy(alloc)?)?;
    }
    Ok(Listed::of(copies))
}

#[cycle(specialised_term_copies)]
fn copy_binds(alloc: Global, binds: &Listed<MBind>) -> Result<Listed<MBind>, NoMemory>
    ensures { IfOk result (λ copy. copy ≡ binds.now) }
{
    let mut copies = Vec::new(alloc);
    for bind in binds.as_slice() {
        copies.push(bind.try_copy(alloc)?)?;
    }
    Ok(Listed::of(copies))
}

#[cycle(specialised_term_copies)]
fn copy_group(alloc: Global, group: &Listed<MDef>) -> Result<Listed<MDef>, NoMemory>
    ensures { IfOk result (λ copy. copy ≡ group.now) }
{
    let mut copies = Vec::new(alloc);
    for def in group.as_slice() {
        copies.push(def.try_copy(alloc)?)?;
    }
    Ok(Listed::of(copies))
}
