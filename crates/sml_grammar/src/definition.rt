// Types, datatypes and exceptions at a token.
ghost use Rattle.std.specs.Prelude.{IfOk};
ghost use Rattle.sml_grammar.specs.Tables.{at_head, at_con};
ghost use Rattle.sml_grammar.specs.Moves.{Steps};

use crate::act::{Act, DecAct};
use crate::mark::Mark;
use crate::name::copy_text;
use crate::stack::Stack;
use crate::symbol::{ConPhrase, HeadPhrase, Sym, TyPhrase};
use crate::takes::Step;
use crate::token_sort::TokenSort;
use sml_syntax::{Lack, NoMemory, Token};
use std::alloc::Global;

/// Variables and names of `type` and `datatype`.
pub fn at_head(
    alloc: Global,
    stack: &mut Stack,
    phrase: HeadPhrase,
    sort: TokenSort,
    token: &Token,
) -> Result<Step, NoMemory>
    ensures { IfOk result (λ step. Steps (at_head phrase sort token.now) stack.old step stack.new) }
{
    let at = token.span.from;
    match phrase {
        HeadPhrase::Type => {
            if sort.is_name() {
                let text = copy_text(alloc, token)?;
                stack.push_all([
                    Sym::Do(Act::Dec(DecAct::NoVars)),
                    Sym::Do(Act::Dec(DecAct::Head(text))),
                    Sym::Want(Mark::Equal),
                    Sym::Ty(TyPhrase::Whole(true)),
                    Sym::Do(Act::Dec(DecAct::AddAbbrev)),
                    Sym::Head(HeadPhrase::TypeRest),
                ])?;
                Ok(Step::Takes)
            } else if sort.is_ty_var() {
                let text = copy_text(alloc, token)?;
                stack.push_all([
                    Sym::Do(Act::Dec(DecAct::NoVars)),
                    Sym::Do(Act::Dec(DecAct::AddVar(text))),
                    Sym::Head(HeadPhrase::TypeName),
                ])?;
                Ok(Step::Takes)
            } else if sort.is(Mark::Open) {
                stack.push_all([
                    Sym::Do(Act::Dec(DecAct::NoVars)),
                    Sym::Head(HeadPhrase::Var),
                    Sym::Want(Mark::Comma),
                    Sym::Head(HeadPhrase::Var),
                    Sym::Head(HeadPhrase::Vars),
                    Sym::Head(HeadPhrase::TypeName),
                ])?;
                Ok(Step::Takes)
            } else {
                Ok(Step::Fails)
            }
        }
        HeadPhrase::TypeName => {
            if sort.is_name() {
                let text = copy_text(alloc, token)?;
                stack.push_all([
                    Sym::Do(Act::Dec(DecAct::Head(text))),
                    Sym::Want(Mark::Equal),
                    Sym::Ty(TyPhrase::Whole(true)),
                    Sym::Do(Act::Dec(DecAct::AddAbbrev)),
                    Sym::Head(HeadPhrase::TypeRest),
                ])?;
                Ok(Step::Takes)
            } else {
                Ok(Step::Fails)
            }
        }
        HeadPhrase::Data(first) => {
            if sort.is_name() {
                let text = copy_text(alloc, token)?;
                stack.push_all([
                    Sym::Do(Act::Dec(DecAct::NoVars)),
                    Sym::Do(Act::Dec(DecAct::Head(text))),
                    Sym::Want(Mark::Equal),
                    Sym::Con(ConPhrase::Body(first)),
                ])?;
                Ok(Step::Takes)
            } else if sort.is_ty_var() {
                let text = copy_text(alloc, token)?;
                stack.push_all([
                    Sym::Do(Act::Dec(DecAct::NoVars)),
                    Sym::Do(Act::Dec(DecAct::AddVar(text))),
                    Sym::Head(HeadPhrase::DataName),
                ])?;
                Ok(Step::Takes)
            } else if sort.is(Mark::Open) {
                stack.push_all([
                    Sym::Do(Act::Dec(DecAct::NoVars)),
                    Sym::Head(HeadPhrase::Var),
                    Sym::Want(Mark::Comma),
                    Sym::Head(HeadPhrase::Var),
                    Sym::Head(HeadPhrase::Vars),
                    Sym::Head(HeadPhrase::DataName),
                ])?;
                Ok(Step::Takes)
            } else {
                Ok(Step::Fails)
            }
        }
        HeadPhrase::DataName => {
            if sort.is_name() {
                let text = copy_text(alloc, token)?;
                stack.push_all([
                    Sym::Do(Act::Dec(DecAct::Head(text))),
                    Sym::Want(Mark::Equal),
                    Sym::Con(ConPhrase::Body(false)),
                ])?;
                Ok(Step::Takes)
            } else {
                Ok(Step::Fails)
            }
        }
        HeadPhrase::Var => {
            if sort.is_ty_var() {
                let text = copy_text(alloc, token)?;
                stack.push(Sym::Do(Act::Dec(DecAct::AddVar(text))))?;
                Ok(Step::Takes)
            } else {
                Ok(Step::Fails)
            }
        }
        HeadPhrase::Vars => {
            if sort.is(Mark::Comma) {
                stack.push_all([Sym::Head(HeadPhrase::Var), Sym::Head(HeadPhrase::Vars)])?;
                Ok(Step::Takes)
            } else if sort.is(Mark::Close) {
                Ok(Step::Takes)
            } else {
                Ok(Step::Fails)
            }
        }
        HeadPhrase::TypeRest => {
            if sort.is(Mark::And) {
                stack.push(Sym::Head(HeadPhrase::Type))?;
                Ok(Step::Takes)
            } else {
                Ok(Step::Skips)
            }
        }
    }
}

/// Constructors and exceptions.
pub fn at_con(
    alloc: Global,
    stack: &mut Stack,
    phrase: ConPhrase,
    sort: TokenSort,
    token: &Token,
) -> Result<Step, NoMemory>
    ensures { IfOk result (λ step. Steps (at_con phrase sort token.now) stack.old step stack.new) }
{
    let at = token.span.from;
    match phrase {
        ConPhrase::Body(first) => {
            if sort.is_name() {
                let text = copy_text(alloc, token)?;
                stack.push_all([
                    Sym::Do(Act::Dec(DecAct::NoCons)),
                    Sym::Do(Act::Dec(DecAct::Con(text))),
                    Sym::Con(ConPhrase::Argument),
                    Sym::Do(Act::Dec(DecAct::AddCon)),
                    Sym::Con(ConPhrase::Rest),
                    Sym::Do(Act::Dec(DecAct::AddData)),
                    Sym::Con(ConPhrase::DataRest),
                ])?;
                Ok(Step::Takes)
            } else if sort.is(Mark::Datatype) {
                if first {
                    stack.push_all([
                        Sym::Do(Act::Lack(at, Lack::Replication)),
                        Sym::Do(Act::Dec(DecAct::NoCons)),
                        Sym::Con(ConPhrase::Original),
                        Sym::Do(Act::Dec(DecAct::AddData)),
                    ])?;
                    Ok(Step::Takes)
                } else {
                    Ok(Step::Fails)
                }
            } else {
                Ok(Step::Fails)
            }
        }
        ConPhrase::Original => {
            if sort.is_type_name() {
                Ok(Step::Takes)
            } else {
                Ok(Step::Fails)
            }
        }
        ConPhrase::Bind => {
            if sort.is_name() {
                let text = copy_text(alloc, token)?;
                stack.push_all([
                    Sym::Do(Act::Dec(DecAct::Con(text))),
                    Sym::Con(ConPhrase::Argument),
                    Sym::Do(Act::Dec(DecAct::AddCon)),
                ])?;
                Ok(Step::Takes)
            } else {
                Ok(Step::Fails)
            }
        }
        ConPhrase::Argument => {
            if sort.is(Mark::Of) {
                stack.push_all([
                    Sym::Ty(TyPhrase::Whole(true)),
                    Sym::Do(Act::Dec(DecAct::ConOf)),
                ])?;
                Ok(Step::Takes)
            } else {
                Ok(Step::Skips)
            }
        }
        ConPhrase::Rest => {
            if sort.is(Mark::Bar) {
                stack.push_all([Sym::Con(ConPhrase::Bind), Sym::Con(ConPhrase::Rest)])?;
                Ok(Step::Takes)
            } else {
                Ok(Step::Skips)
            }
        }
        ConPhrase::DataRest => {
            if sort.is(Mark::And) {
                stack.push(Sym::Head(HeadPhrase::Data(false)))?;
                Ok(Step::Takes)
            } else {
                Ok(Step::Skips)
            }
        }
        ConPhrase::Exn => {
            if sort.is_name() {
                let text = copy_text(alloc, token)?;
                stack.push_all([
                    Sym::Do(Act::Dec(DecAct::Con(text))),
                    Sym::Con(ConPhrase::ExnArgument(at)),
                    Sym::Do(Act::Dec(DecAct::AddCon)),
                ])?;
                Ok(Step::Takes)
            } else {
                Ok(Step::Fails)
            }
        }
        ConPhrase::ExnArgument(from) => {
            if sort.is(Mark::Of) {
                stack.push_all([
                    Sym::Ty(TyPhrase::Whole(false)),
                    Sym::Do(Act::Dec(DecAct::ConOf)),
                ])?;
                Ok(Step::Takes)
            } else if sort.is(Mark::Equal) {
                stack.push_all([
                    Sym::Do(Act::Lack(from, Lack::Replication)),
                    Sym::Con(ConPhrase::Original),
                ])?;
                Ok(Step::Takes)
            } else {
                Ok(Step::Skips)
            }
        }
        ConPhrase::ExnRest => {
            if sort.is(Mark::And) {
                stack.push_all([Sym::Con(ConPhrase::Exn), Sym::Con(ConPhrase::ExnRest)])?;
                Ok(Step::Takes)
            } else {
                Ok(Step::Skips)
            }
        }
    }
}
