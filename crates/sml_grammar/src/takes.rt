// What is left to be read where a token begins an expression, a pattern, a type, a declaration or a body.
ghost use Rattle.std.specs.Prelude.{◌≡◌, ◌++◌, OnOk};
ghost use Rattle.sml_grammar.specs.Takes.{atom_take, atom_mark_take, exp_take, exp_rests, tail_take, pat_take, pat_mark_take, apat_take, atpat_take, ty_take, dec_take, type_dec_take, body_take, tupled_take, end_take};

use crate::act::{Act, DecAct, ExpAct, PatAct, TyAct};
use crate::mark::Mark;
use crate::name::copy_text;
use crate::stack::Stack;
use crate::symbol::{
    ConPhrase, DecPhrase, ExpItems, ExpPhrase, ExpRest, FunPhrase, HeadPhrase, PatItems, PatPhrase,
    Quoted, Sym, TyPhrase,
};
use crate::token_sort::TokenSort;
use sml_syntax::{Lack, NoMemory, Text, Token};
use std::alloc::Global;

/// What a symbol did at a token.
#[derive(Drop)]
pub enum Step {
    /// It took the token, and its symbols are on the stack.
    Takes,
    /// It derives nothing here, and the symbol below is asked.
    Skips,
    /// It is an act.
    Acts(Act),
    Fails,
}

#[tactic(auto, unfolding(crate::specs::Takes::atom_mark_take))]
fn push_atom_mark(stack: &mut Stack, mark: Mark, at: u64) -> Result<(), NoMemory>
    ensures { OnOk result (stack.new ≡ atom_mark_take mark at ++ stack.old) }
{
    if mark.is(Mark::Op) {
        stack.push(Sym::Exp(ExpPhrase::OpName))
    } else if mark.is(Mark::Open) {
        stack.push(Sym::ExpItems(ExpItems::Opened(at)))
    } else if mark.is(Mark::OpenBracket) {
        stack.push(Sym::ExpItems(ExpItems::OpenedList(at)))
    } else {
        stack.push_all([
            Sym::Do(Act::Dec(DecAct::NoDecs)),
            Sym::Dec(DecPhrase::Inner),
            Sym::Want(Mark::In),
            Sym::Do(Act::Exp(ExpAct::NoExps)),
            Sym::Exp(ExpPhrase::Whole),
            Sym::Do(Act::Exp(ExpAct::Push)),
            Sym::ExpItems(ExpItems::Let),
            Sym::Do(Act::Exp(ExpAct::Let(at))),
        ])
    }
}

/// Begins an atomic expression.
#[tactic(auto, unfolding(crate::specs::Takes::atom_take))]
pub fn push_atom(
    alloc: Global,
    stack: &mut Stack,
    sort: TokenSort,
    token: &Token,
) -> Result<(), NoMemory>
    ensures { OnOk result (stack.new ≡ atom_take sort token.now ++ stack.old) }
{
    let at = token.span.from;
    match sort {
        TokenSort::Int(number) => stack.push(Sym::Do(Act::Exp(ExpAct::Int(at, number)))),
        TokenSort::Char(byte) => stack.push(Sym::Do(Act::Exp(ExpAct::Char(at, byte)))),
        TokenSort::Str => {
            let text = copy_text(alloc, token)?;
            stack.push(Sym::Do(Act::Exp(ExpAct::Str(at, text))))
        }
        TokenSort::Name | TokenSort::Long => {
            let name = copy_text(alloc, token)?;
            stack.push(Sym::Do(Act::Exp(ExpAct::Name(at, name))))
        }
        TokenSort::QuoteFrom => stack.push_all([
            Sym::Do(Act::Exp(ExpAct::NoPieces)),
            Sym::Quoted(Quoted::Any),
            Sym::Do(Act::Exp(ExpAct::Quote(at))),
        ]),
        TokenSort::Mark(mark) => push_atom_mark(stack, mark, at),
        _ => Ok(()),
    }
}

/// Begins an expression that takes all it can.
#[tactic(auto, unfolding(crate::specs::Takes::tail_take))]
pub fn push_tail(stack: &mut Stack, sort: TokenSort, at: u64) -> Result<(), NoMemory>
    ensures { OnOk result (stack.new ≡ tail_take sort at ++ stack.old) }
{
    if sort.is(Mark::Raise) {
        stack.push_all([
            Sym::Exp(ExpPhrase::Whole),
            Sym::Do(Act::Exp(ExpAct::Raise(at))),
        ])
    } else if sort.is(Mark::If) {
        stack.push_all([
            Sym::Exp(ExpPhrase::Whole),
            Sym::Want(Mark::Then),
            Sym::Exp(ExpPhrase::Whole),
            Sym::Want(Mark::Else),
            Sym::Exp(ExpPhrase::Whole),
            Sym::Do(Act::Exp(ExpAct::If(at))),
        ])
    } else if sort.is(Mark::Case) {
        stack.push_all([
            Sym::Exp(ExpPhrase::Whole),
            Sym::Want(Mark::Of),
            Sym::Do(Act::Exp(ExpAct::NoRules)),
            Sym::Pat(PatPhrase::Whole),
            Sym::Want(Mark::DoubleArrow),
            Sym::Exp(ExpPhrase::Whole),
            Sym::Do(Act::Exp(ExpAct::AddRule)),
            Sym::ExpRest(ExpRest::Match),
            Sym::Do(Act::Exp(ExpAct::Case(at))),
        ])
    } else {
        stack.push_all([
            Sym::Do(Act::Exp(ExpAct::NoRules)),
            Sym::Pat(PatPhrase::Whole),
            Sym::Want(Mark::DoubleArrow),
            Sym::Exp(ExpPhrase::Whole),
            Sym::Do(Act::Exp(ExpAct::AddRule)),
            Sym::ExpRest(ExpRest::Match),
            Sym::Do(Act::Exp(ExpAct::Fn(at))),
        ])
    }
}

/// Begins an expression.
#[tactic(auto, unfolding(crate::specs::Takes::exp_take))]
pub fn push_exp(
    alloc: Global,
    stack: &mut Stack,
    sort: TokenSort,
    token: &Token,
) -> Result<(), NoMemory>
    ensures { OnOk result (stack.new ≡ exp_take sort token.now ++ stack.old) }
{
    let at = token.span.from;
    if sort.begins_atom() {
        stack.push_all([
            Sym::ExpRest(ExpRest::App(at)),
            Sym::ExpRest(ExpRest::Infix(0, at)),
            Sym::ExpRest(ExpRest::Typed(at)),
            Sym::ExpRest(ExpRest::And(at)),
            Sym::ExpRest(ExpRest::Or(at)),
            Sym::ExpRest(ExpRest::Handle(at)),
        ])?;
        push_atom(alloc, stack, sort, token)
    } else {
        push_tail(stack, sort, at)
    }
}

#[tactic(auto, unfolding(crate::specs::Takes::pat_mark_take))]
fn push_pat_mark(stack: &mut Stack, mark: Mark, at: u64) -> Result<(), NoMemory>
    ensures { OnOk result (stack.new ≡ pat_mark_take mark at ++ stack.old) }
{
    if mark.is(Mark::Op) {
        stack.push(Sym::Pat(PatPhrase::OpAtomic))
    } else if mark.is(Mark::Open) {
        stack.push(Sym::PatItems(PatItems::Opened(at)))
    } else if mark.is(Mark::OpenBracket) {
        stack.push(Sym::PatItems(PatItems::OpenedList(at)))
    } else {
        stack.push(Sym::Do(Act::Pat(PatAct::Any(at))))
    }
}

/// Begins an atomic pattern.
#[tactic(auto, unfolding(crate::specs::Takes::atpat_take))]
pub fn push_atomic_pat(
    alloc: Global,
    stack: &mut Stack,
    sort: TokenSort,
    token: &Token,
) -> Result<(), NoMemory>
    ensures { OnOk result (stack.new ≡ atpat_take sort token.now ++ stack.old) }
{
    let at = token.span.from;
    match sort {
        TokenSort::Int(number) => stack.push(Sym::Do(Act::Pat(PatAct::Int(at, number)))),
        TokenSort::Char(byte) => stack.push(Sym::Do(Act::Pat(PatAct::Char(at, byte)))),
        TokenSort::Str => {
            let text = copy_text(alloc, token)?;
            stack.push(Sym::Do(Act::Pat(PatAct::Str(at, text))))
        }
        TokenSort::Name | TokenSort::Long => {
            let name = copy_text(alloc, token)?;
            stack.push(Sym::Do(Act::Pat(PatAct::Name(at, name))))
        }
        TokenSort::Mark(mark) => push_pat_mark(stack, mark, at),
        _ => Ok(()),
    }
}

/// Begins a pattern without `::`, of which a name may have an argument.
#[tactic(auto, unfolding(crate::specs::Takes::apat_take))]
pub fn push_prefix_pat(
    alloc: Global,
    stack: &mut Stack,
    sort: TokenSort,
    token: &Token,
) -> Result<(), NoMemory>
    ensures { OnOk result (stack.new ≡ apat_take sort token.now ++ stack.old) }
{
    let at = token.span.from;
    if sort.is_type_name() {
        let name = copy_text(alloc, token)?;
        stack.push_all([
            Sym::Do(Act::Pat(PatAct::Name(at, name))),
            Sym::Pat(PatPhrase::Argument(at)),
        ])
    } else if sort.is(Mark::Op) {
        stack.push(Sym::Pat(PatPhrase::OpName))
    } else {
        push_atomic_pat(alloc, stack, sort, token)
    }
}

/// Begins a pattern.
#[tactic(auto, unfolding(crate::specs::Takes::pat_take))]
pub fn push_pat(
    alloc: Global,
    stack: &mut Stack,
    sort: TokenSort,
    token: &Token,
) -> Result<(), NoMemory>
    ensures { OnOk result (stack.new ≡ pat_take sort token.now ++ stack.old) }
{
    let at = token.span.from;
    stack.push_all([
        Sym::Pat(PatPhrase::ConsRest(at)),
        Sym::Pat(PatPhrase::TypedRest(at)),
    ])?;
    push_prefix_pat(alloc, stack, sort, token)
}

/// Begins a type, with type variables where they are allowed.
#[tactic(auto, unfolding(crate::specs::Takes::ty_take))]
pub fn push_ty(
    alloc: Global,
    stack: &mut Stack,
    allowed: bool,
    sort: TokenSort,
    token: &Token,
) -> Result<(), NoMemory>
    ensures { OnOk result (stack.new ≡ ty_take allowed sort token.now ++ stack.old) }
{
    let at = token.span.from;
    if sort.is_ty_var() {
        let name = copy_text(alloc, token)?;
        stack.push(Sym::Do(Act::Ty(TyAct::Var(at, name))))?;
        if allowed {
            Ok(())
        } else {
            stack.push(Sym::Do(Act::Lack(at, Lack::ConstraintVar)))
        }
    } else if sort.is_type_name() {
        let name = copy_text(alloc, token)?;
        stack.push_all([
            Sym::Do(Act::Ty(TyAct::NoTys)),
            Sym::Do(Act::Ty(TyAct::Con(at, name))),
        ])
    } else {
        stack.push_all([
            Sym::Ty(TyPhrase::Whole(allowed)),
            Sym::Ty(TyPhrase::AfterFirst(allowed, at)),
        ])
    }
}

#[tactic(auto, unfolding(crate::specs::Takes::type_dec_take))]
fn push_type_dec(stack: &mut Stack, sort: TokenSort, at: u64) -> Result<(), NoMemory>
    ensures { OnOk result (stack.new ≡ type_dec_take sort at ++ stack.old) }
{
    if sort.is(Mark::TypeWord) {
        stack.push_all([
            Sym::Do(Act::Dec(DecAct::NoAbbrevs)),
            Sym::Head(HeadPhrase::Type),
            Sym::Do(Act::Dec(DecAct::Abbrev(at))),
        ])
    } else if sort.is(Mark::Datatype) {
        stack.push_all([
            Sym::Do(Act::Dec(DecAct::NoDatas)),
            Sym::Head(HeadPhrase::Data(true)),
            Sym::Do(Act::Dec(DecAct::DataDef(at))),
        ])
    } else {
        stack.push_all([
            Sym::Do(Act::Dec(DecAct::NoCons)),
            Sym::Con(ConPhrase::Exn),
            Sym::Con(ConPhrase::ExnRest),
            Sym::Do(Act::Dec(DecAct::ExnDef(at))),
        ])
    }
}

/// Begins a declaration; in `let` and `local` one of types or exceptions is a lack.
#[tactic(auto, unfolding(crate::specs::Takes::dec_take))]
pub fn push_dec(stack: &mut Stack, inner: bool, sort: TokenSort, at: u64) -> Result<(), NoMemory>
    ensures { OnOk result (stack.new ≡ dec_take inner sort at ++ stack.old) }
{
    if sort.is(Mark::Val) {
        stack.push(Sym::Dec(DecPhrase::ValFirst(at)))
    } else if sort.is(Mark::Fun) {
        stack.push_all([
            Sym::Do(Act::Dec(DecAct::NoRecs)),
            Sym::Fun(FunPhrase::Bind),
            Sym::Fun(FunPhrase::Rest),
            Sym::Do(Act::Dec(DecAct::ValRec(at))),
        ])
    } else if sort.is(Mark::Local) {
        stack.push_all([
            Sym::Do(Act::Dec(DecAct::NoDecs)),
            Sym::Dec(DecPhrase::Inner),
            Sym::Want(Mark::In),
            Sym::Do(Act::Dec(DecAct::NoDecs)),
            Sym::Dec(DecPhrase::Inner),
            Sym::Want(Mark::End),
            Sym::Do(Act::Dec(DecAct::Local(at))),
        ])
    } else {
        push_type_dec(stack, sort, at)?;
        if inner {
            stack.push(Sym::Do(Act::Lack(at, Lack::LocalType)))
        } else {
            Ok(())
        }
    }
}

/// Several patterns of a clause are a tuple.
#[tactic(auto, unfolding(crate::specs::Takes::tupled_take))]
fn push_tupled(stack: &mut Stack, count: u64) -> Result<(), NoMemory>
    ensures { OnOk result (stack.new ≡ tupled_take count ++ stack.old) }
{
    if 1 < count {
        stack.push(Sym::Do(Act::Pat(PatAct::Tupled)))
    } else {
        Ok(())
    }
}

/// The result type and the body of a clause of so many patterns.
#[tactic(auto, unfolding(crate::specs::Takes::body_take))]
pub fn push_body(stack: &mut Stack, from: u64, count: u64, sort: TokenSort) -> Result<(), NoMemory>
    ensures { OnOk result (stack.new ≡ body_take from count sort ++ stack.old) }
{
    if sort.is(Mark::Colon) {
        stack.push_all([
            Sym::Ty(TyPhrase::Whole(false)),
            Sym::Want(Mark::Equal),
            Sym::Exp(ExpPhrase::Whole),
            Sym::Do(Act::Dec(DecAct::Constrain(from))),
            Sym::Do(Act::Dec(DecAct::AddClause(from))),
        ])?;
    } else {
        stack.push_all([
            Sym::Exp(ExpPhrase::Whole),
            Sym::Do(Act::Dec(DecAct::AddClause(from))),
        ])?;
    }
    push_tupled(stack, count)
}

/// The end of a function of so many patterns.
#[tactic(auto, unfolding(crate::specs::Takes::end_take))]
pub fn push_end(stack: &mut Stack, from: u64, name: Text, count: u64) -> Result<(), NoMemory>
    ensures { OnOk result (stack.new ≡ end_take from name count ++ stack.old) }
{
    stack.push(Sym::Do(Act::Dec(DecAct::AddRec(name))))?;
    if 1 < count {
        stack.push(Sym::Do(Act::Dec(DecAct::Curry(from, count))))
    } else {
        Ok(())
    }
}
