// Types at a token.
ghost use Rattle.std.specs.Prelude.{IfOk};
ghost use Rattle.sml_grammar.specs.Tables.{at_ty};
ghost use Rattle.sml_grammar.specs.Moves.{Steps};

use crate::act::{Act, TyAct};
use crate::mark::Mark;
use crate::name::copy_text;
use crate::stack::Stack;
use crate::symbol::{Sym, TyPhrase};
use crate::takes::{Step, push_ty};
use crate::token_sort::TokenSort;
use sml_syntax::{NoMemory, Token};
use std::alloc::Global;

/// Types.
pub fn at_ty(
    alloc: Global,
    stack: &mut Stack,
    phrase: TyPhrase,
    sort: TokenSort,
    token: &Token,
) -> Result<Step, NoMemory>
    ensures { IfOk result (λ step. Steps (at_ty phrase sort token.now) stack.old step stack.new) }
{
    let at = token.span.from;
    match phrase {
        TyPhrase::Whole(v) => {
            if sort.begins_ty() {
                stack.push_all([
                    Sym::Ty(TyPhrase::ArgumentRest(at)),
                    Sym::Ty(TyPhrase::StarRest(v, at)),
                    Sym::Ty(TyPhrase::ArrowRest(v, at)),
                ])?;
                push_ty(alloc, stack, v, sort, token)?;
                Ok(Step::Takes)
            } else {
                Ok(Step::Fails)
            }
        }
        TyPhrase::Part(v) => {
            if sort.begins_ty() {
                stack.push(Sym::Ty(TyPhrase::ArgumentRest(at)))?;
                push_ty(alloc, stack, v, sort, token)?;
                Ok(Step::Takes)
            } else {
                Ok(Step::Fails)
            }
        }
        TyPhrase::ArgumentRest(from) => {
            if sort.is_type_name() {
                let text = copy_text(alloc, token)?;
                stack.push_all([
                    Sym::Do(Act::Ty(TyAct::First)),
                    Sym::Do(Act::Ty(TyAct::Con(from, text))),
                    Sym::Ty(TyPhrase::ArgumentRest(from)),
                ])?;
                Ok(Step::Takes)
            } else {
                Ok(Step::Skips)
            }
        }
        TyPhrase::StarRest(v, from) => {
            if sort.is_star() {
                stack.push_all([
                    Sym::Do(Act::Ty(TyAct::First)),
                    Sym::Ty(TyPhrase::Part(v)),
                    Sym::Do(Act::Ty(TyAct::Push)),
                    Sym::Ty(TyPhrase::StarMore(v)),
                    Sym::Do(Act::Ty(TyAct::Tuple(from))),
                ])?;
                Ok(Step::Takes)
            } else {
                Ok(Step::Skips)
            }
        }
        TyPhrase::StarMore(v) => {
            if sort.is_star() {
                stack.push_all([
                    Sym::Ty(TyPhrase::Part(v)),
                    Sym::Do(Act::Ty(TyAct::Push)),
                    Sym::Ty(TyPhrase::StarMore(v)),
                ])?;
                Ok(Step::Takes)
            } else {
                Ok(Step::Skips)
            }
        }
        TyPhrase::ArrowRest(v, from) => {
            if sort.is(Mark::Arrow) {
                stack.push_all([
                    Sym::Ty(TyPhrase::Whole(v)),
                    Sym::Do(Act::Ty(TyAct::Arrow(from))),
                ])?;
                Ok(Step::Takes)
            } else {
                Ok(Step::Skips)
            }
        }
        TyPhrase::AfterFirst(v, from) => {
            if sort.is(Mark::Close) {
                Ok(Step::Takes)
            } else if sort.is(Mark::Comma) {
                stack.push_all([
                    Sym::Do(Act::Ty(TyAct::First)),
                    Sym::Ty(TyPhrase::Whole(v)),
                    Sym::Do(Act::Ty(TyAct::Push)),
                    Sym::Ty(TyPhrase::More(v, from)),
                ])?;
                Ok(Step::Takes)
            } else {
                Ok(Step::Fails)
            }
        }
        TyPhrase::More(v, from) => {
            if sort.is(Mark::Comma) {
                stack.push_all([
                    Sym::Ty(TyPhrase::Whole(v)),
                    Sym::Do(Act::Ty(TyAct::Push)),
                    Sym::Ty(TyPhrase::More(v, from)),
                ])?;
                Ok(Step::Takes)
            } else if sort.is(Mark::Close) {
                stack.push(Sym::Ty(TyPhrase::Name(from)))?;
                Ok(Step::Takes)
            } else {
                Ok(Step::Fails)
            }
        }
        TyPhrase::Name(from) => {
            if sort.is_type_name() {
                let text = copy_text(alloc, token)?;
                stack.push(Sym::Do(Act::Ty(TyAct::Con(from, text))))?;
                Ok(Step::Takes)
            } else {
                Ok(Step::Fails)
            }
        }
    }
}
