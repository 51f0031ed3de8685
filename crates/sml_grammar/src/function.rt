// Clauses of functions at a token.
ghost use Rattle.std.specs.Prelude.{IfOk};
ghost use Rattle.sml_grammar.specs.Tables.{at_fun, at_later};
ghost use Rattle.sml_grammar.specs.Moves.{Steps};

use crate::act::{Act, DecAct, ExpAct, PatAct};
use crate::mark::Mark;
use crate::name::{copy_text, may_be_infix, one_more, text_of};
use crate::stack::Stack;
use crate::symbol::{FunPhrase, LaterPhrase, PatPhrase, Sym};
use crate::takes::{Step, push_atomic_pat, push_body, push_end};
use crate::token_sort::TokenSort;
use sml_syntax::{Lack, NoMemory, Token};
use std::alloc::Global;

/// The first clause of a function.
pub fn at_fun(
    alloc: Global,
    stack: &mut Stack,
    phrase: FunPhrase,
    sort: TokenSort,
    token: &Token,
) -> Result<Step, NoMemory>
    ensures { IfOk result (λ step. Steps (at_fun phrase sort token.now) stack.old step stack.new) }
{
    let at = token.span.from;
    match phrase {
        FunPhrase::Bind => {
            if sort.is(Mark::Op) {
                stack.push_all([
                    Sym::Do(Act::Exp(ExpAct::NoRules)),
                    Sym::Do(Act::Pat(PatAct::NoPats)),
                    Sym::Fun(FunPhrase::Op(at)),
                ])?;
                Ok(Step::Takes)
            } else if sort.is_type_name() {
                let text = copy_text(alloc, token)?;
                stack.push_all([
                    Sym::Do(Act::Exp(ExpAct::NoRules)),
                    Sym::Do(Act::Pat(PatAct::NoPats)),
                    Sym::Fun(FunPhrase::Head(at, at, text)),
                ])?;
                Ok(Step::Takes)
            } else if sort.begins_pat() {
                stack.push(Sym::Fun(FunPhrase::Infix(at)))?;
                push_atomic_pat(alloc, stack, sort, token)?;
                stack.push_all([
                    Sym::Do(Act::Exp(ExpAct::NoRules)),
                    Sym::Do(Act::Pat(PatAct::NoPats)),
                ])?;
                Ok(Step::Takes)
            } else {
                Ok(Step::Fails)
            }
        }
        FunPhrase::Rest => {
            if sort.is(Mark::And) {
                stack.push_all([Sym::Fun(FunPhrase::Bind), Sym::Fun(FunPhrase::Rest)])?;
                Ok(Step::Takes)
            } else {
                Ok(Step::Skips)
            }
        }
        FunPhrase::Op(from) => {
            if sort.is_any_name() {
                let text = copy_text(alloc, token)?;
                stack.push(Sym::Fun(FunPhrase::Head(from, at, text)))?;
                Ok(Step::Takes)
            } else {
                Ok(Step::Fails)
            }
        }
        FunPhrase::Head(from, name_at, head) => {
            if sort.is_infix_name() {
                let text = copy_text(alloc, token)?;
                stack.push_all([
                    Sym::Do(Act::Pat(PatAct::Name(name_at, head))),
                    Sym::Do(Act::Lack(at, Lack::InfixClause)),
                    Sym::Pat(PatPhrase::Atomic),
                    Sym::Do(Act::Pat(PatAct::Pair(from))),
                    Sym::Do(Act::Pat(PatAct::Push)),
                    Sym::Fun(FunPhrase::Equals(from, 1)),
                    Sym::Later(LaterPhrase::Rest(text.try_copy(alloc)?, 1)),
                    Sym::Do(Act::Dec(DecAct::AddRec(text))),
                ])?;
                Ok(Step::Takes)
            } else if sort.begins_pat() {
                stack.push_all([
                    Sym::Do(Act::Pat(PatAct::Push)),
                    Sym::Fun(FunPhrase::Patterns(from, head, 1)),
                ])?;
                push_atomic_pat(alloc, stack, sort, token)?;
                Ok(Step::Takes)
            } else {
                Ok(Step::Fails)
            }
        }
        FunPhrase::Infix(from) => {
            if sort.is_infix_name() {
                let text = copy_text(alloc, token)?;
                stack.push_all([
                    Sym::Do(Act::Lack(at, Lack::InfixClause)),
                    Sym::Pat(PatPhrase::Atomic),
                    Sym::Do(Act::Pat(PatAct::Pair(from))),
                    Sym::Do(Act::Pat(PatAct::Push)),
                    Sym::Fun(FunPhrase::Equals(from, 1)),
                    Sym::Later(LaterPhrase::Rest(text.try_copy(alloc)?, 1)),
                    Sym::Do(Act::Dec(DecAct::AddRec(text))),
                ])?;
                Ok(Step::Takes)
            } else {
                Ok(Step::Fails)
            }
        }
        FunPhrase::Patterns(from, name, count) => {
            if sort.begins_pat() {
                stack.push_all([
                    Sym::Do(Act::Pat(PatAct::Push)),
                    Sym::Fun(FunPhrase::Patterns(from, name, one_more(count))),
                ])?;
                push_atomic_pat(alloc, stack, sort, token)?;
                Ok(Step::Takes)
            } else if sort.begins_body() {
                push_end(stack, from, name.try_copy(alloc)?, count)?;
                stack.push(Sym::Later(LaterPhrase::Rest(name, count)))?;
                push_body(stack, from, count, sort)?;
                Ok(Step::Takes)
            } else {
                Ok(Step::Fails)
            }
        }
        FunPhrase::Equals(from, count) => {
            if sort.begins_body() {
                push_body(stack, from, count, sort)?;
                Ok(Step::Takes)
            } else {
                Ok(Step::Fails)
            }
        }
    }
}

/// Its later clauses.
pub fn at_later(
    alloc: Global,
    stack: &mut Stack,
    phrase: LaterPhrase,
    sort: TokenSort,
    token: &Token,
) -> Result<Step, NoMemory>
    ensures { IfOk result (λ step. Steps (at_later phrase sort token.now) stack.old step stack.new) }
{
    let at = token.span.from;
    match phrase {
        LaterPhrase::Rest(name, count) => {
            if sort.is(Mark::Bar) {
                stack.push_all([
                    Sym::Later(LaterPhrase::Clause(name.try_copy(alloc)?, count)),
                    Sym::Later(LaterPhrase::Rest(name, count)),
                ])?;
                Ok(Step::Takes)
            } else {
                Ok(Step::Skips)
            }
        }
        LaterPhrase::Clause(name, count) => {
            if sort.is(Mark::Op) {
                stack.push_all([
                    Sym::Do(Act::Pat(PatAct::NoPats)),
                    Sym::Later(LaterPhrase::Op(at, name, count)),
                ])?;
                Ok(Step::Takes)
            } else if sort.is_type_name() {
                if may_be_infix(name.as_bytes(), count) {
                    let text = copy_text(alloc, token)?;
                    stack.push_all([
                        Sym::Do(Act::Pat(PatAct::NoPats)),
                        Sym::Later(LaterPhrase::Head(at, at, text, name)),
                    ])?;
                    Ok(Step::Takes)
                } else if name.as_bytes() == text_of(token) {
                    stack.push_all([
                        Sym::Do(Act::Pat(PatAct::NoPats)),
                        Sym::Later(LaterPhrase::Patterns(count)),
                        Sym::Fun(FunPhrase::Equals(at, count)),
                    ])?;
                    Ok(Step::Takes)
                } else {
                    Ok(Step::Fails)
                }
            } else if sort.begins_pat() {
                if may_be_infix(name.as_bytes(), count) {
                    stack.push(Sym::Later(LaterPhrase::Infix(at, name)))?;
                    push_atomic_pat(alloc, stack, sort, token)?;
                    stack.push(Sym::Do(Act::Pat(PatAct::NoPats)))?;
                    Ok(Step::Takes)
                } else {
                    Ok(Step::Fails)
                }
            } else {
                Ok(Step::Fails)
            }
        }
        LaterPhrase::Op(from, name, count) => {
            if sort.is_any_name() {
                if may_be_infix(name.as_bytes(), count) {
                    let text = copy_text(alloc, token)?;
                    stack.push(Sym::Later(LaterPhrase::Head(from, at, text, name)))?;
                    Ok(Step::Takes)
                } else if name.as_bytes() == text_of(token) {
                    stack.push_all([
                        Sym::Later(LaterPhrase::Patterns(count)),
                        Sym::Fun(FunPhrase::Equals(from, count)),
                    ])?;
                    Ok(Step::Takes)
                } else {
                    Ok(Step::Fails)
                }
            } else {
                Ok(Step::Fails)
            }
        }
        LaterPhrase::Head(from, name_at, head, name) => {
            if sort.is_infix_name() {
                if name.as_bytes() == text_of(token) {
                    stack.push_all([
                        Sym::Do(Act::Pat(PatAct::Name(name_at, head))),
                        Sym::Do(Act::Lack(at, Lack::InfixClause)),
                        Sym::Pat(PatPhrase::Atomic),
                        Sym::Do(Act::Pat(PatAct::Pair(from))),
                        Sym::Do(Act::Pat(PatAct::Push)),
                        Sym::Fun(FunPhrase::Equals(from, 1)),
                    ])?;
                    Ok(Step::Takes)
                } else {
                    Ok(Step::Fails)
                }
            } else if sort.begins_pat() {
                if head.as_bytes() == name.as_bytes() {
                    stack.push_all([
                        Sym::Do(Act::Pat(PatAct::Push)),
                        Sym::Fun(FunPhrase::Equals(from, 1)),
                    ])?;
                    push_atomic_pat(alloc, stack, sort, token)?;
                    Ok(Step::Takes)
                } else {
                    Ok(Step::Fails)
                }
            } else {
                Ok(Step::Fails)
            }
        }
        LaterPhrase::Infix(from, name) => {
            if sort.is_infix_name() {
                if name.as_bytes() == text_of(token) {
                    stack.push_all([
                        Sym::Do(Act::Lack(at, Lack::InfixClause)),
                        Sym::Pat(PatPhrase::Atomic),
                        Sym::Do(Act::Pat(PatAct::Pair(from))),
                        Sym::Do(Act::Pat(PatAct::Push)),
                        Sym::Fun(FunPhrase::Equals(from, 1)),
                    ])?;
                    Ok(Step::Takes)
                } else {
                    Ok(Step::Fails)
                }
            } else {
                Ok(Step::Fails)
            }
        }
        LaterPhrase::Patterns(count) => {
            if count == 0 {
                Ok(Step::Skips)
            } else if sort.begins_pat() {
                stack.push_all([
                    Sym::Do(Act::Pat(PatAct::Push)),
                    Sym::Later(LaterPhrase::Patterns(count - 1)),
                ])?;
                push_atomic_pat(alloc, stack, sort, token)?;
                Ok(Step::Takes)
            } else {
                Ok(Step::Fails)
            }
        }
    }
}
