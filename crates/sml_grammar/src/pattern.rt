// Patterns at a token.
ghost use Rattle.std.specs.Prelude.{IfOk};
ghost use Rattle.sml_grammar.specs.Tables.{at_pat, at_pat_items};
ghost use Rattle.sml_grammar.specs.Moves.{Steps};

use crate::act::{Act, PatAct};
use crate::mark::Mark;
use crate::name::copy_text;
use crate::stack::Stack;
use crate::symbol::{PatItems, PatPhrase, Sym, TyPhrase};
use crate::takes::{Step, push_atomic_pat, push_pat, push_prefix_pat};
use crate::token_sort::TokenSort;
use sml_syntax::{NoMemory, Token};
use std::alloc::Global;

/// Patterns.
pub fn at_pat(
    alloc: Global,
    stack: &mut Stack,
    phrase: PatPhrase,
    sort: TokenSort,
    token: &Token,
) -> Result<Step, NoMemory>
    ensures { IfOk result (λ step. Steps (at_pat phrase sort token.now) stack.old step stack.new) }
{
    let at = token.span.from;
    match phrase {
        PatPhrase::Whole => {
            if sort.begins_pat() {
                push_pat(alloc, stack, sort, token)?;
                Ok(Step::Takes)
            } else {
                Ok(Step::Fails)
            }
        }
        PatPhrase::ConsPart => {
            if sort.begins_pat() {
                stack.push(Sym::Pat(PatPhrase::ConsRest(at)))?;
                push_prefix_pat(alloc, stack, sort, token)?;
                Ok(Step::Takes)
            } else {
                Ok(Step::Fails)
            }
        }
        PatPhrase::ConsRest(from) => {
            if sort.is_cons() {
                stack.push_all([
                    Sym::Pat(PatPhrase::ConsPart),
                    Sym::Do(Act::Pat(PatAct::Cons(from))),
                ])?;
                Ok(Step::Takes)
            } else {
                Ok(Step::Skips)
            }
        }
        PatPhrase::TypedRest(from) => {
            if sort.is(Mark::Colon) {
                stack.push_all([
                    Sym::Ty(TyPhrase::Whole(false)),
                    Sym::Do(Act::Pat(PatAct::Typed(from))),
                ])?;
                Ok(Step::Takes)
            } else {
                Ok(Step::Skips)
            }
        }
        PatPhrase::OpName => {
            if sort.is_any_name() {
                let text = copy_text(alloc, token)?;
                stack.push_all([
                    Sym::Do(Act::Pat(PatAct::Name(at, text))),
                    Sym::Pat(PatPhrase::Argument(at)),
                ])?;
                Ok(Step::Takes)
            } else {
                Ok(Step::Fails)
            }
        }
        PatPhrase::Argument(from) => {
            if sort.begins_pat() {
                stack.push(Sym::Do(Act::Pat(PatAct::Con(from))))?;
                push_atomic_pat(alloc, stack, sort, token)?;
                Ok(Step::Takes)
            } else {
                Ok(Step::Skips)
            }
        }
        PatPhrase::Atomic => {
            if sort.begins_pat() {
                push_atomic_pat(alloc, stack, sort, token)?;
                Ok(Step::Takes)
            } else {
                Ok(Step::Fails)
            }
        }
        PatPhrase::OpAtomic => {
            if sort.is_any_name() {
                let text = copy_text(alloc, token)?;
                stack.push(Sym::Do(Act::Pat(PatAct::Name(at, text))))?;
                Ok(Step::Takes)
            } else {
                Ok(Step::Fails)
            }
        }
    }
}

/// Patterns in brackets.
pub fn at_pat_items(
    alloc: Global,
    stack: &mut Stack,
    phrase: PatItems,
    sort: TokenSort,
    token: &Token,
) -> Result<Step, NoMemory>
    ensures { IfOk result (λ step. Steps (at_pat_items phrase sort token.now) stack.old step stack.new) }
{
    let at = token.span.from;
    match phrase {
        PatItems::Opened(from) => {
            if sort.is(Mark::Close) {
                stack.push(Sym::Do(Act::Pat(PatAct::Unit(from))))?;
                Ok(Step::Takes)
            } else if sort.begins_pat() {
                stack.push(Sym::PatItems(PatItems::AfterFirst(from)))?;
                push_pat(alloc, stack, sort, token)?;
                Ok(Step::Takes)
            } else {
                Ok(Step::Fails)
            }
        }
        PatItems::AfterFirst(from) => {
            if sort.is(Mark::Close) {
                Ok(Step::Takes)
            } else if sort.is(Mark::Comma) {
                stack.push_all([
                    Sym::Do(Act::Pat(PatAct::First)),
                    Sym::Pat(PatPhrase::Whole),
                    Sym::Do(Act::Pat(PatAct::Push)),
                    Sym::PatItems(PatItems::Tuple(from)),
                ])?;
                Ok(Step::Takes)
            } else {
                Ok(Step::Fails)
            }
        }
        PatItems::Tuple(from) => {
            if sort.is(Mark::Comma) {
                stack.push_all([
                    Sym::Pat(PatPhrase::Whole),
                    Sym::Do(Act::Pat(PatAct::Push)),
                    Sym::PatItems(PatItems::Tuple(from)),
                ])?;
                Ok(Step::Takes)
            } else if sort.is(Mark::Close) {
                stack.push(Sym::Do(Act::Pat(PatAct::Tuple(from))))?;
                Ok(Step::Takes)
            } else {
                Ok(Step::Fails)
            }
        }
        PatItems::OpenedList(from) => {
            if sort.is(Mark::CloseBracket) {
                stack.push_all([
                    Sym::Do(Act::Pat(PatAct::NoPats)),
                    Sym::Do(Act::Pat(PatAct::List(from))),
                ])?;
                Ok(Step::Takes)
            } else if sort.begins_pat() {
                stack.push_all([
                    Sym::Do(Act::Pat(PatAct::Push)),
                    Sym::PatItems(PatItems::List(from)),
                ])?;
                push_pat(alloc, stack, sort, token)?;
                stack.push(Sym::Do(Act::Pat(PatAct::NoPats)))?;
                Ok(Step::Takes)
            } else {
                Ok(Step::Fails)
            }
        }
        PatItems::List(from) => {
            if sort.is(Mark::Comma) {
                stack.push_all([
                    Sym::Pat(PatPhrase::Whole),
                    Sym::Do(Act::Pat(PatAct::Push)),
                    Sym::PatItems(PatItems::List(from)),
                ])?;
                Ok(Step::Takes)
            } else if sort.is(Mark::CloseBracket) {
                stack.push(Sym::Do(Act::Pat(PatAct::List(from))))?;
                Ok(Step::Takes)
            } else {
                Ok(Step::Fails)
            }
        }
    }
}
