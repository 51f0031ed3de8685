// Items and declarations at a token.
ghost use Rattle.std.specs.Prelude.{IfOk};
ghost use Rattle.sml_grammar.specs.Tables.{at_dec};
ghost use Rattle.sml_grammar.specs.Moves.{Steps};

use crate::act::{Act, DecAct, ExpAct};
use crate::mark::Mark;
use crate::name::copy_text;
use crate::stack::Stack;
use crate::symbol::{DecPhrase, ExpPhrase, ExpRest, PatPhrase, Sym};
use crate::takes::{Step, push_dec, push_exp, push_pat};
use crate::token_sort::TokenSort;
use sml_syntax::{NoMemory, Token};
use std::alloc::Global;

/// Items and declarations.
pub fn at_dec(
    alloc: Global,
    stack: &mut Stack,
    phrase: DecPhrase,
    sort: TokenSort,
    token: &Token,
) -> Result<Step, NoMemory>
    ensures { IfOk result (λ step. Steps (at_dec phrase sort token.now) stack.old step stack.new) }
{
    let at = token.span.from;
    match phrase {
        DecPhrase::Items => {
            if sort.begins_dec() {
                stack.push_all([
                    Sym::Do(Act::Dec(DecAct::Item(at))),
                    Sym::Dec(DecPhrase::AfterDec),
                ])?;
                push_dec(stack, false, sort, at)?;
                Ok(Step::Takes)
            } else if sort.begins_exp() {
                stack.push_all([
                    Sym::Do(Act::Dec(DecAct::It(at))),
                    Sym::Do(Act::Dec(DecAct::Item(at))),
                    Sym::Dec(DecPhrase::AfterExp),
                ])?;
                push_exp(alloc, stack, sort, token)?;
                Ok(Step::Takes)
            } else {
                Ok(Step::Fails)
            }
        }
        DecPhrase::AfterDec => {
            if sort.is(Mark::Semicolon) {
                stack.push(Sym::Dec(DecPhrase::Items))?;
                Ok(Step::Takes)
            } else if sort.begins_dec() {
                stack.push_all([
                    Sym::Do(Act::Dec(DecAct::Item(at))),
                    Sym::Dec(DecPhrase::AfterDec),
                ])?;
                push_dec(stack, false, sort, at)?;
                Ok(Step::Takes)
            } else {
                Ok(Step::Fails)
            }
        }
        DecPhrase::AfterExp => {
            if sort.is(Mark::Semicolon) {
                stack.push(Sym::Dec(DecPhrase::Items))?;
                Ok(Step::Takes)
            } else {
                Ok(Step::Fails)
            }
        }
        DecPhrase::Inner => {
            if sort.begins_dec() {
                stack.push_all([
                    Sym::Do(Act::Dec(DecAct::AddDec)),
                    Sym::Dec(DecPhrase::AfterInner),
                ])?;
                push_dec(stack, true, sort, at)?;
                Ok(Step::Takes)
            } else {
                Ok(Step::Skips)
            }
        }
        DecPhrase::AfterInner => {
            if sort.is(Mark::Semicolon) {
                stack.push(Sym::Dec(DecPhrase::Inner))?;
                Ok(Step::Takes)
            } else if sort.begins_dec() {
                stack.push_all([
                    Sym::Do(Act::Dec(DecAct::AddDec)),
                    Sym::Dec(DecPhrase::AfterInner),
                ])?;
                push_dec(stack, true, sort, at)?;
                Ok(Step::Takes)
            } else {
                Ok(Step::Skips)
            }
        }
        DecPhrase::ValFirst(from) => {
            if sort.is(Mark::Rec) {
                stack.push_all([
                    Sym::Do(Act::Dec(DecAct::NoRecs)),
                    Sym::Dec(DecPhrase::RecBind),
                    Sym::Dec(DecPhrase::RecRest),
                    Sym::Do(Act::Dec(DecAct::ValRec(from))),
                ])?;
                Ok(Step::Takes)
            } else if sort.begins_pat() {
                stack.push_all([
                    Sym::Want(Mark::Equal),
                    Sym::Exp(ExpPhrase::Whole),
                    Sym::Do(Act::Dec(DecAct::AddBind)),
                    Sym::Dec(DecPhrase::ValRest),
                    Sym::Do(Act::Dec(DecAct::Val(from))),
                ])?;
                push_pat(alloc, stack, sort, token)?;
                stack.push(Sym::Do(Act::Dec(DecAct::NoBinds)))?;
                Ok(Step::Takes)
            } else {
                Ok(Step::Fails)
            }
        }
        DecPhrase::ValRest => {
            if sort.is(Mark::And) {
                stack.push_all([
                    Sym::Pat(PatPhrase::Whole),
                    Sym::Want(Mark::Equal),
                    Sym::Exp(ExpPhrase::Whole),
                    Sym::Do(Act::Dec(DecAct::AddBind)),
                    Sym::Dec(DecPhrase::ValRest),
                ])?;
                Ok(Step::Takes)
            } else {
                Ok(Step::Skips)
            }
        }
        DecPhrase::RecBind => {
            if sort.is_name() {
                let text = copy_text(alloc, token)?;
                stack.push_all([
                    Sym::Want(Mark::Equal),
                    Sym::Want(Mark::Fn),
                    Sym::Do(Act::Exp(ExpAct::NoRules)),
                    Sym::Pat(PatPhrase::Whole),
                    Sym::Want(Mark::DoubleArrow),
                    Sym::Exp(ExpPhrase::Whole),
                    Sym::Do(Act::Exp(ExpAct::AddRule)),
                    Sym::ExpRest(ExpRest::Match),
                    Sym::Do(Act::Dec(DecAct::AddRec(text))),
                ])?;
                Ok(Step::Takes)
            } else {
                Ok(Step::Fails)
            }
        }
        DecPhrase::RecRest => {
            if sort.is(Mark::And) {
                stack.push_all([Sym::Dec(DecPhrase::RecBind), Sym::Dec(DecPhrase::RecRest)])?;
                Ok(Step::Takes)
            } else {
                Ok(Step::Skips)
            }
        }
    }
}
