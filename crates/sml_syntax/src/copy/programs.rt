// Copies of expressions and declarations.
ghost use Rattle.std.specs.Prelude.{◌≡◌, IfOk};

use super::copied::{Copied, beside, with_pair};
use crate::{Boxed, Dec, DecForm, Exp, ExpForm, Listed, NoMemory, Piece, Program, Rule};
use std::alloc::Global;

impl Program {
    pub fn try_copy(&self, alloc: Global) -> Result<Program, NoMemory>
        ensures { IfOk result (λ copy. copy ≡ self.now) }
    {
        Ok(Program {
            items: copy_decs(alloc, &self.items)?,
        })
    }
}

impl Exp {
    #[cycle(program_copies)]
    pub fn try_copy(&self, alloc: Global) -> Result<Exp, NoMemory>
        ensures { IfOk result (λ copy. copy ≡ self.now) }
    {
        Ok(Exp {
            span: self.span,
            form: self.form.try_copy(alloc)?,
        })
    }
}

impl ExpForm {
    #[cycle(program_copies)]
    pub fn try_copy(&self, alloc: Global) -> Result<ExpForm, NoMemory>
        ensures { IfOk result (λ copy. copy ≡ self.now) }
    {
        Ok(match self {
            ExpForm::Int(n) => ExpForm::Int(*n),
            ExpForm::Char(c) => ExpForm::Char(*c),
            ExpForm::Str(text) => ExpForm::Str(text.try_copy(alloc)?),
            ExpForm::Name(name) => ExpForm::Name(name.try_copy(alloc)?),
            ExpForm::Unit => ExpForm::Unit,
            ExpForm::Tuple(parts) => ExpForm::Tuple(copy_exps(alloc, parts)?),
            ExpForm::List(items) => ExpForm::List(copy_exps(alloc, items)?),
            ExpForm::Seq(steps) => ExpForm::Seq(copy_exps(alloc, steps)?),
            ExpForm::App(f, x) => ExpForm::App(copy_box(alloc, f)?, copy_box(alloc, x)?),
            ExpForm::Let(decs, body) => {
                ExpForm::Let(copy_decs(alloc, decs)?, copy_exps(alloc, body)?)
            }
            ExpForm::Fn(rules) => ExpForm::Fn(copy_rules(alloc, rules)?),
            ExpForm::Case(x, rules) => ExpForm::Case(
                copy_box(alloc, x)?,
                copy_rules(alloc, rules)?,
            ),
            ExpForm::Handle(x, rules) => {
                ExpForm::Handle(copy_box(alloc, x)?, copy_rules(alloc, rules)?)
            }
            ExpForm::Raise(x) => ExpForm::Raise(copy_box(alloc, x)?),
            ExpForm::If(x, y, z) => {
                let x = copy_box(alloc, x)?;
                ExpForm::If(x, copy_box(alloc, y)?, copy_box(alloc, z)?)
            }
            ExpForm::Both(x, y) => ExpForm::Both(copy_box(alloc, x)?, copy_box(alloc, y)?),
            ExpForm::Either(x, y) => ExpForm::Either(copy_box(alloc, x)?, copy_box(alloc, y)?),
            ExpForm::Quote(pieces) => ExpForm::Quote(copy_pieces(alloc, pieces)?),
            ExpForm::Typed(x, ty) => ExpForm::Typed(copy_box(alloc, x)?, ty.try_copy(alloc)?),
        })
    }
}

impl Rule {
    #[cycle(program_copies)]
    pub fn try_copy(&self, alloc: Global) -> Result<Rule, NoMemory>
        ensures { IfOk result (λ copy. copy ≡ self.now) }
    {
        let body = self.body.try_copy(alloc)?;
        let (pat, body) = beside(alloc, &self.pat, body)?;
        Ok(Rule { pat, body })
    }
}

impl Copied for Rule {
    fn copied(&self, alloc: Global) -> Result<Rule, NoMemory> {
        self.try_copy(alloc)
    }
}

impl Piece {
    #[cycle(program_copies)]
    pub fn try_copy(&self, alloc: Global) -> Result<Piece, NoMemory>
        ensures { IfOk result (λ copy. copy ≡ self.now) }
    {
        match self {
            Piece::Plain(text) => Ok(Piece::Plain(text.try_copy(alloc)?)),
            Piece::Anti(exp) => Ok(Piece::Anti(exp.try_copy(alloc)?)),
        }
    }
}

impl Dec {
    #[cycle(program_copies)]
    pub fn try_copy(&self, alloc: Global) -> Result<Dec, NoMemory>
        ensures { IfOk result (λ copy. copy ≡ self.now) }
    {
        Ok(Dec {
            span: self.span,
            form: self.form.try_copy(alloc)?,
        })
    }
}

impl DecForm {
    #[cycle(program_copies)]
    pub fn try_copy(&self, alloc: Global) -> Result<DecForm, NoMemory>
        ensures { IfOk result (λ copy. copy ≡ self.now) }
    {
        match self {
            DecForm::Val(binds) => {
                let mut copies = Vec::new(alloc);
                for bind in binds.as_slice() {
                    let body = bind.1.try_copy(alloc)?;
                    copies = with_pair(alloc, copies, &bind.0, body)?;
                }
                Ok(DecForm::Val(Listed::of(copies)))
            }
            DecForm::ValRec(binds) => {
                let mut copies = Vec::new(alloc);
                for bind in binds.as_slice() {
                    let rules = copy_rules(alloc, &bind.1)?;
                    copies = with_pair(alloc, copies, &bind.0, rules)?;
                }
                Ok(DecForm::ValRec(Listed::of(copies)))
            }
            DecForm::Abbrev(binds) => Ok(DecForm::Abbrev(binds.copied(alloc)?)),
            DecForm::DataDef(binds) => Ok(DecForm::DataDef(binds.copied(alloc)?)),
            DecForm::ExnDef(binds) => Ok(DecForm::ExnDef(binds.copied(alloc)?)),
            DecForm::Local(hidden, shown) => {
                let hidden = copy_decs(alloc, hidden)?;
                Ok(DecForm::Local(hidden, copy_decs(alloc, shown)?))
            }
        }
    }
}

#[cycle(program_copies)]
fn copy_box(alloc: Global, exp: &Boxed<Exp>) -> Result<Boxed<Exp>, NoMemory>
    ensures { IfOk result (λ copy. copy ≡ exp.now) }
{
    Boxed::new(alloc, exp.get().try_copy(alloc)?)
}

#[cycle(program_copies)]
fn copy_exps(alloc: Global, exps: &Listed<Exp>) -> Result<Listed<Exp>, NoMemory>
    ensures { IfOk result (λ copy. copy ≡ exps.now) }
{
    let mut copies = Vec::new(alloc);
    for exp in exps.as_slice() {
        copies.push(exp.try_copy(alloc)?)?;
    }
    Ok(Listed::of(copies))
}

#[cycle(program_copies)]
fn copy_rules(alloc: Global, rules: &Listed<Rule>) -> Result<Listed<Rule>, NoMemory>
    ensures { IfOk result (λ copy. copy ≡ rules.now) }
{
    let mut copies = Vec::new(alloc);
    for rule in rules.as_slice() {
        copies.push(rule.try_copy(alloc)?)?;
    }
    Ok(Listed::of(copies))
}

#[cycle(program_copies)]
fn copy_pieces(alloc: Global, pieces: &Listed<Piece>) -> Result<Listed<Piece>, NoMemory>
    ensures { IfOk result (λ copy. copy ≡ pieces.now) }
{
    let mut copies = Vec::new(alloc);
    for piece in pieces.as_slice() {
        copies.push(piece.try_copy(alloc)?)?;
    }
    Ok(Listed::of(copies))
}

#[cycle(program_copies)]
fn copy_decs(alloc: Global, decs: &Listed<Dec>) -> Result<Listed<Dec>, NoMemory>
    ensures { IfOk result (λ copy. copy ≡ decs.now) }
{
    let mut copies = Vec::new(alloc);
    for dec in decs.as_slice() {
        copies.push(dec.try_copy(alloc)?)?;
    }
    Ok(Listed::of(copies))
}
