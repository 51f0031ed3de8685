// Expressions at a token.
ghost use Rattle.std.specs.Prelude.{IfOk};
ghost use Rattle.sml_grammar.specs.Tables.{at_exp, at_exp_rest, at_exp_items, at_quoted};
ghost use Rattle.sml_grammar.specs.Moves.{Steps};

use crate::act::{Act, ExpAct};
use crate::mark::Mark;
use crate::name::{copy_text, name_place, operand_level};
use crate::stack::Stack;
use crate::symbol::{ExpItems, ExpPhrase, ExpRest, PatPhrase, Quoted, Sym, TyPhrase};
use crate::takes::{Step, push_atom, push_exp, push_tail};
use crate::token_sort::TokenSort;
use sml_syntax::{NoMemory, Token};
use std::alloc::Global;

/// Expressions.
pub fn at_exp(
    alloc: Global,
    stack: &mut Stack,
    phrase: ExpPhrase,
    sort: TokenSort,
    token: &Token,
) -> Result<Step, NoMemory>
    ensures { IfOk result (λ step. Steps (at_exp phrase sort token.now) stack.old step stack.new) }
{
    let at = token.span.from;
    match phrase {
        ExpPhrase::Whole => {
            if sort.begins_exp() {
                push_exp(alloc, stack, sort, token)?;
                Ok(Step::Takes)
            } else {
                Ok(Step::Fails)
            }
        }
        ExpPhrase::AndPart => {
            if sort.begins_atom() {
                stack.push_all([
                    Sym::ExpRest(ExpRest::App(at)),
                    Sym::ExpRest(ExpRest::Infix(0, at)),
                    Sym::ExpRest(ExpRest::Typed(at)),
                    Sym::ExpRest(ExpRest::And(at)),
                ])?;
                push_atom(alloc, stack, sort, token)?;
                Ok(Step::Takes)
            } else if sort.begins_tail() {
                push_tail(stack, sort, at)?;
                Ok(Step::Takes)
            } else {
                Ok(Step::Fails)
            }
        }
        ExpPhrase::OrPart => {
            if sort.begins_atom() {
                stack.push_all([
                    Sym::ExpRest(ExpRest::App(at)),
                    Sym::ExpRest(ExpRest::Infix(0, at)),
                    Sym::ExpRest(ExpRest::Typed(at)),
                    Sym::ExpRest(ExpRest::And(at)),
                    Sym::ExpRest(ExpRest::Or(at)),
                ])?;
                push_atom(alloc, stack, sort, token)?;
                Ok(Step::Takes)
            } else if sort.begins_tail() {
                push_tail(stack, sort, at)?;
                Ok(Step::Takes)
            } else {
                Ok(Step::Fails)
            }
        }
        ExpPhrase::Operand(m) => {
            if sort.begins_atom() {
                stack.push_all([
                    Sym::ExpRest(ExpRest::App(at)),
                    Sym::ExpRest(ExpRest::Infix(m, at)),
                ])?;
                push_atom(alloc, stack, sort, token)?;
                Ok(Step::Takes)
            } else {
                Ok(Step::Fails)
            }
        }
        ExpPhrase::OpName => {
            if sort.is_op_name() {
                let text = copy_text(alloc, token)?;
                stack.push(Sym::Do(Act::Exp(ExpAct::Name(at, text))))?;
                Ok(Step::Takes)
            } else {
                Ok(Step::Fails)
            }
        }
    }
}

/// What may follow an expression or a part of one.
pub fn at_exp_rest(
    alloc: Global,
    stack: &mut Stack,
    phrase: ExpRest,
    sort: TokenSort,
    token: &Token,
) -> Result<Step, NoMemory>
    ensures { IfOk result (λ step. Steps (at_exp_rest phrase sort token.now) stack.old step stack.new) }
{
    let at = token.span.from;
    match phrase {
        ExpRest::App(from) => {
            if sort.begins_atom() {
                stack.push_all([
                    Sym::Do(Act::Exp(ExpAct::App(from))),
                    Sym::ExpRest(ExpRest::App(from)),
                ])?;
                push_atom(alloc, stack, sort, token)?;
                Ok(Step::Takes)
            } else {
                Ok(Step::Skips)
            }
        }
        ExpRest::Infix(m, from) => {
            if sort.is_infix() {
                if m <= sort.level() {
                    let text = copy_text(alloc, token)?;
                    stack.push_all([
                        Sym::Do(Act::Exp(ExpAct::Name(at, text))),
                        Sym::Exp(ExpPhrase::Operand(operand_level(sort.level()))),
                        Sym::Do(Act::Exp(ExpAct::Infix(from))),
                        Sym::ExpRest(ExpRest::Infix(m, from)),
                    ])?;
                    Ok(Step::Takes)
                } else {
                    Ok(Step::Skips)
                }
            } else {
                Ok(Step::Skips)
            }
        }
        ExpRest::Typed(from) => {
            if sort.is(Mark::Colon) {
                stack.push_all([
                    Sym::Ty(TyPhrase::Whole(false)),
                    Sym::Do(Act::Exp(ExpAct::Typed(from))),
                    Sym::ExpRest(ExpRest::Typed(from)),
                ])?;
                Ok(Step::Takes)
            } else {
                Ok(Step::Skips)
            }
        }
        ExpRest::And(from) => {
            if sort.is(Mark::AndAlso) {
                stack.push_all([
                    Sym::Exp(ExpPhrase::AndPart),
                    Sym::Do(Act::Exp(ExpAct::Both(from))),
                ])?;
                Ok(Step::Takes)
            } else {
                Ok(Step::Skips)
            }
        }
        ExpRest::Or(from) => {
            if sort.is(Mark::OrElse) {
                stack.push_all([
                    Sym::Exp(ExpPhrase::OrPart),
                    Sym::Do(Act::Exp(ExpAct::Either(from))),
                ])?;
                Ok(Step::Takes)
            } else {
                Ok(Step::Skips)
            }
        }
        ExpRest::Handle(from) => {
            if sort.is(Mark::Handle) {
                stack.push_all([
                    Sym::Do(Act::Exp(ExpAct::NoRules)),
                    Sym::Pat(PatPhrase::Whole),
                    Sym::Want(Mark::DoubleArrow),
                    Sym::Exp(ExpPhrase::Whole),
                    Sym::Do(Act::Exp(ExpAct::AddRule)),
                    Sym::ExpRest(ExpRest::Match),
                    Sym::Do(Act::Exp(ExpAct::Handle(from))),
                ])?;
                Ok(Step::Takes)
            } else {
                Ok(Step::Skips)
            }
        }
        ExpRest::Match => {
            if sort.is(Mark::Bar) {
                stack.push_all([
                    Sym::Pat(PatPhrase::Whole),
                    Sym::Want(Mark::DoubleArrow),
                    Sym::Exp(ExpPhrase::Whole),
                    Sym::Do(Act::Exp(ExpAct::AddRule)),
                    Sym::ExpRest(ExpRest::Match),
                ])?;
                Ok(Step::Takes)
            } else {
                Ok(Step::Skips)
            }
        }
    }
}

/// Expressions in brackets, and of `let`.
pub fn at_exp_items(
    alloc: Global,
    stack: &mut Stack,
    phrase: ExpItems,
    sort: TokenSort,
    token: &Token,
) -> Result<Step, NoMemory>
    ensures { IfOk result (λ step. Steps (at_exp_items phrase sort token.now) stack.old step stack.new) }
{
    let at = token.span.from;
    match phrase {
        ExpItems::Opened(from) => {
            if sort.is(Mark::Close) {
                stack.push(Sym::Do(Act::Exp(ExpAct::Unit(from))))?;
                Ok(Step::Takes)
            } else if sort.begins_exp() {
                stack.push(Sym::ExpItems(ExpItems::AfterFirst(from)))?;
                push_exp(alloc, stack, sort, token)?;
                Ok(Step::Takes)
            } else {
                Ok(Step::Fails)
            }
        }
        ExpItems::AfterFirst(from) => {
            if sort.is(Mark::Close) {
                Ok(Step::Takes)
            } else if sort.is(Mark::Comma) {
                stack.push_all([
                    Sym::Do(Act::Exp(ExpAct::First)),
                    Sym::Exp(ExpPhrase::Whole),
                    Sym::Do(Act::Exp(ExpAct::Push)),
                    Sym::ExpItems(ExpItems::Tuple(from)),
                ])?;
                Ok(Step::Takes)
            } else if sort.is(Mark::Semicolon) {
                stack.push_all([
                    Sym::Do(Act::Exp(ExpAct::First)),
                    Sym::Exp(ExpPhrase::Whole),
                    Sym::Do(Act::Exp(ExpAct::Push)),
                    Sym::ExpItems(ExpItems::Seq(from)),
                ])?;
                Ok(Step::Takes)
            } else {
                Ok(Step::Fails)
            }
        }
        ExpItems::Tuple(from) => {
            if sort.is(Mark::Comma) {
                stack.push_all([
                    Sym::Exp(ExpPhrase::Whole),
                    Sym::Do(Act::Exp(ExpAct::Push)),
                    Sym::ExpItems(ExpItems::Tuple(from)),
                ])?;
                Ok(Step::Takes)
            } else if sort.is(Mark::Close) {
                stack.push(Sym::Do(Act::Exp(ExpAct::Tuple(from))))?;
                Ok(Step::Takes)
            } else {
                Ok(Step::Fails)
            }
        }
        ExpItems::Seq(from) => {
            if sort.is(Mark::Semicolon) {
                stack.push_all([
                    Sym::Exp(ExpPhrase::Whole),
                    Sym::Do(Act::Exp(ExpAct::Push)),
                    Sym::ExpItems(ExpItems::Seq(from)),
                ])?;
                Ok(Step::Takes)
            } else if sort.is(Mark::Close) {
                stack.push(Sym::Do(Act::Exp(ExpAct::Seq(from))))?;
                Ok(Step::Takes)
            } else {
                Ok(Step::Fails)
            }
        }
        ExpItems::OpenedList(from) => {
            if sort.is(Mark::CloseBracket) {
                stack.push_all([
                    Sym::Do(Act::Exp(ExpAct::NoExps)),
                    Sym::Do(Act::Exp(ExpAct::List(from))),
                ])?;
                Ok(Step::Takes)
            } else if sort.begins_exp() {
                stack.push_all([
                    Sym::Do(Act::Exp(ExpAct::Push)),
                    Sym::ExpItems(ExpItems::List(from)),
                ])?;
                push_exp(alloc, stack, sort, token)?;
                stack.push(Sym::Do(Act::Exp(ExpAct::NoExps)))?;
                Ok(Step::Takes)
            } else {
                Ok(Step::Fails)
            }
        }
        ExpItems::List(from) => {
            if sort.is(Mark::Comma) {
                stack.push_all([
                    Sym::Exp(ExpPhrase::Whole),
                    Sym::Do(Act::Exp(ExpAct::Push)),
                    Sym::ExpItems(ExpItems::List(from)),
                ])?;
                Ok(Step::Takes)
            } else if sort.is(Mark::CloseBracket) {
                stack.push(Sym::Do(Act::Exp(ExpAct::List(from))))?;
                Ok(Step::Takes)
            } else {
                Ok(Step::Fails)
            }
        }
        ExpItems::Let => {
            if sort.is(Mark::Semicolon) {
                stack.push_all([
                    Sym::Exp(ExpPhrase::Whole),
                    Sym::Do(Act::Exp(ExpAct::Push)),
                    Sym::ExpItems(ExpItems::Let),
                ])?;
                Ok(Step::Takes)
            } else if sort.is(Mark::End) {
                Ok(Step::Takes)
            } else {
                Ok(Step::Fails)
            }
        }
    }
}

/// The inside of a quotation.
pub fn at_quoted(
    alloc: Global,
    stack: &mut Stack,
    phrase: Quoted,
    sort: TokenSort,
    token: &Token,
) -> Result<Step, NoMemory>
    ensures { IfOk result (λ step. Steps (at_quoted phrase sort token.now) stack.old step stack.new) }
{
    let at = token.span.from;
    match phrase {
        Quoted::Any => {
            if sort.is_plain() {
                let text = copy_text(alloc, token)?;
                stack.push_all([
                    Sym::Do(Act::Exp(ExpAct::Plain(text))),
                    Sym::Quoted(Quoted::AfterPlain),
                ])?;
                Ok(Step::Takes)
            } else if sort.is_anti() {
                let text = copy_text(alloc, token)?;
                stack.push_all([
                    Sym::Do(Act::Exp(ExpAct::EmptyPlain)),
                    Sym::Do(Act::Exp(ExpAct::Name(name_place(token.span), text))),
                    Sym::Do(Act::Exp(ExpAct::AddAnti)),
                    Sym::Quoted(Quoted::Any),
                ])?;
                Ok(Step::Takes)
            } else if sort.is_anti_from() {
                stack.push_all([
                    Sym::Do(Act::Exp(ExpAct::EmptyPlain)),
                    Sym::Exp(ExpPhrase::Whole),
                    Sym::Quoted(Quoted::AntiEnd),
                    Sym::Do(Act::Exp(ExpAct::AddAnti)),
                    Sym::Quoted(Quoted::Any),
                ])?;
                Ok(Step::Takes)
            } else if sort.is_quote_to() {
                stack.push(Sym::Do(Act::Exp(ExpAct::EmptyPlain)))?;
                Ok(Step::Takes)
            } else {
                Ok(Step::Fails)
            }
        }
        Quoted::AfterPlain => {
            if sort.is_anti() {
                let text = copy_text(alloc, token)?;
                stack.push_all([
                    Sym::Do(Act::Exp(ExpAct::Name(name_place(token.span), text))),
                    Sym::Do(Act::Exp(ExpAct::AddAnti)),
                    Sym::Quoted(Quoted::Any),
                ])?;
                Ok(Step::Takes)
            } else if sort.is_anti_from() {
                stack.push_all([
                    Sym::Exp(ExpPhrase::Whole),
                    Sym::Quoted(Quoted::AntiEnd),
                    Sym::Do(Act::Exp(ExpAct::AddAnti)),
                    Sym::Quoted(Quoted::Any),
                ])?;
                Ok(Step::Takes)
            } else if sort.is_quote_to() {
                Ok(Step::Takes)
            } else {
                Ok(Step::Fails)
            }
        }
        Quoted::AntiEnd => {
            if sort.is_anti_to() {
                Ok(Step::Takes)
            } else {
                Ok(Step::Fails)
            }
        }
    }
}
