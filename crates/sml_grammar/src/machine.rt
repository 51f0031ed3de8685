// The machine: a fold over the tokens.
ghost use Rattle.std.specs.Prelude.{◌≡◌, List, IfOk, option_copied};
ghost use Rattle.sml_grammar.specs.declared.symbol.Sym.{Sym};
ghost use Rattle.sml_grammar.specs.Machine.{start, feed, move_of, move_at, move_end, skips_if, pat_ends, ty_ends, dec_ends, head_ends, con_ends, fun_ends, later_ends, outcome_of};
ghost use Rattle.sml_grammar.specs.Moves.{Steps};
ghost use Rattle.sml_grammar.specs.Reads.{fed_as, Reads};

use crate::act::{Act, DecAct, Made};
use crate::declaration::at_dec;
use crate::definition::{at_con, at_head};
use crate::expression::{at_exp, at_exp_items, at_exp_rest, at_quoted};
use crate::function::{at_fun, at_later};
use crate::pattern::{at_pat, at_pat_items};
use crate::stack::Stack;
use crate::symbol::{
    ConPhrase, DecPhrase, FunPhrase, HeadPhrase, LaterPhrase, PatPhrase, Sym, TyPhrase,
};
use crate::takes::Step;
use crate::token_sort::{TokenSort, sort_of};
use crate::types::at_ty;
use sml_syntax::{NoMemory, Token};
use std::alloc::Global;

/// Why there are no acts.
#[derive(Clone, Copy, Debug, PartialEq, Eq)]
pub enum ReadRefusal {
    /// The place of the first token that can't be taken, or the end of the last token.
    Unexpected(u64),
    NoMemory,
}

impl From<NoMemory> for ReadRefusal {
    ghost use Rattle.sml_grammar.specs.declared.machine.ReadRefusal.TheVariants as refusal;

    ghost from_gives = { λ _ e. e ≡ refusal.NoMemory };

    fn from(_: NoMemory) -> ReadRefusal {
        ReadRefusal::NoMemory
    }
}

/// What a symbol does at a token.
#[tactic(auto, unfolding(crate::specs::Machine::move_at))]
fn at_token(
    alloc: Global,
    stack: &mut Stack,
    symbol: Sym,
    sort: TokenSort,
    token: &Token,
) -> Result<Step, NoMemory>
    ensures { IfOk result (λ step. Steps (move_at symbol sort token.now) stack.old step stack.new) }
{
    match symbol {
        Sym::Do(act) => Ok(Step::Acts(act)),
        Sym::Want(mark) => Ok(if sort.is(mark) {
            Step::Takes
        } else {
            Step::Fails
        }),
        Sym::Exp(phrase) => at_exp(alloc, stack, phrase, sort, token),
        Sym::ExpRest(phrase) => at_exp_rest(alloc, stack, phrase, sort, token),
        Sym::ExpItems(phrase) => at_exp_items(alloc, stack, phrase, sort, token),
        Sym::Quoted(phrase) => at_quoted(alloc, stack, phrase, sort, token),
        Sym::Pat(phrase) => at_pat(alloc, stack, phrase, sort, token),
        Sym::PatItems(phrase) => at_pat_items(alloc, stack, phrase, sort, token),
        Sym::Ty(phrase) => at_ty(alloc, stack, phrase, sort, token),
        Sym::Dec(phrase) => at_dec(alloc, stack, phrase, sort, token),
        Sym::Head(phrase) => at_head(alloc, stack, phrase, sort, token),
        Sym::Con(phrase) => at_con(alloc, stack, phrase, sort, token),
        Sym::Fun(phrase) => at_fun(alloc, stack, phrase, sort, token),
        Sym::Later(phrase) => at_later(alloc, stack, phrase, sort, token),
    }
}

fn pat_ends(phrase: &PatPhrase) -> bool
    ensures { result ≡ pat_ends phrase.now }
{
    match phrase {
        PatPhrase::ConsRest(_) | PatPhrase::TypedRest(_) | PatPhrase::Argument(_) => true,
        _ => false,
    }
}

fn ty_ends(phrase: &TyPhrase) -> bool
    ensures { result ≡ ty_ends phrase.now }
{
    match phrase {
        TyPhrase::ArgumentRest(_)
        | TyPhrase::StarRest(_, _)
        | TyPhrase::StarMore(_)
        | TyPhrase::ArrowRest(_, _) => true,
        _ => false,
    }
}

fn dec_ends(phrase: &DecPhrase) -> bool
    ensures { result ≡ dec_ends phrase.now }
{
    match phrase {
        DecPhrase::ValFirst(_) | DecPhrase::RecBind => false,
        _ => true,
    }
}

fn con_ends(phrase: &ConPhrase) -> bool
    ensures { result ≡ con_ends phrase.now }
{
    match phrase {
        ConPhrase::Argument
        | ConPhrase::Rest
        | ConPhrase::DataRest
        | ConPhrase::ExnArgument(_)
        | ConPhrase::ExnRest => true,
        _ => false,
    }
}

fn later_ends(phrase: &LaterPhrase) -> bool
    ensures { result ≡ later_ends phrase.now }
{
    match phrase {
        LaterPhrase::Rest(_, _) => true,
        LaterPhrase::Patterns(count) => *count == 0,
        _ => false,
    }
}

fn head_ends(phrase: &HeadPhrase) -> bool
    ensures { result ≡ head_ends phrase.now }
{
    match phrase {
        HeadPhrase::TypeRest => true,
        _ => false,
    }
}

fn fun_ends(phrase: &FunPhrase) -> bool
    ensures { result ≡ fun_ends phrase.now }
{
    match phrase {
        FunPhrase::Rest => true,
        _ => false,
    }
}

fn skips_if(may: bool) -> Step
    ensures { (stack : List Sym) → Steps (skips_if may) stack result stack }
{
    if may { Step::Skips } else { Step::Fails }
}

/// What a symbol does at the end of the tokens.
#[tactic(auto, unfolding(crate::specs::Machine::move_end))]
fn at_end(symbol: Sym) -> Step
    ensures { (stack : List Sym) → Steps (move_end symbol) stack result stack }
{
    match symbol {
        Sym::Do(act) => Step::Acts(act),
        Sym::Want(_) => Step::Fails,
        Sym::Exp(_) => Step::Fails,
        Sym::ExpRest(_) => Step::Skips,
        Sym::ExpItems(_) => Step::Fails,
        Sym::Quoted(_) => Step::Fails,
        Sym::Pat(phrase) => skips_if(pat_ends(&phrase)),
        Sym::PatItems(_) => Step::Fails,
        Sym::Ty(phrase) => skips_if(ty_ends(&phrase)),
        Sym::Dec(phrase) => skips_if(dec_ends(&phrase)),
        Sym::Head(phrase) => skips_if(head_ends(&phrase)),
        Sym::Con(phrase) => skips_if(con_ends(&phrase)),
        Sym::Fun(phrase) => skips_if(fun_ends(&phrase)),
        Sym::Later(phrase) => skips_if(later_ends(&phrase)),
    }
}

/// How a token, or the end of the tokens, was met.
#[derive(Clone, Copy, Debug, PartialEq, Eq)]
pub enum Meeting {
    /// The token was taken.
    Goes,
    /// Nothing was left to be read.
    Empties,
    Stuck,
}

/// What a symbol does at a token or at the end.
#[tactic(auto, unfolding(crate::specs::Machine::move_of))]
fn meet(
    alloc: Global,
    stack: &mut Stack,
    symbol: Sym,
    token: Option<&Token>,
) -> Result<Step, NoMemory>
    ensures { IfOk result (λ step. Steps (move_of symbol (option_copied token.entry)) stack.old step stack.new) }
{
    match token {
        Some(token) => {
            let sort = sort_of(token);
            at_token(alloc, stack, symbol, sort, token)
        }
        None => Ok(at_end(symbol)),
    }
}

/// Takes a token, or the end, off the stack, and tells the acts on the way to it.
fn feed(
    alloc: Global,
    stack: &mut Stack,
    acts: &mut Vec<Made>,
    token: Option<&Token>,
    to: u64,
) -> Result<Meeting, NoMemory>
    ensures { IfOk result (λ meeting. feed (option_copied token.entry) stack.old to acts.old.items ≡ fed_as meeting stack.new acts.new.items) }
{
    while let Some(symbol) = stack.pop() {
        match meet(alloc, stack, symbol, token)? {
            Step::Takes => return Ok(Meeting::Goes),
            Step::Skips => {}
            Step::Acts(act) => acts.push(Made { act, to })?,
            Step::Fails => return Ok(Meeting::Stuck),
        }
    }
    Ok(Meeting::Empties)
}

/// The stack before the first token.
fn first_stack(alloc: Global) -> Result<Stack, NoMemory>
    ensures { IfOk result (λ stack. stack ≡ start) }
{
    let mut stack = Stack::new(alloc);
    stack.push_all([
        Sym::Do(Act::Dec(DecAct::NoDecs)),
        Sym::Dec(DecPhrase::Items),
    ])?;
    Ok(stack)
}

/// The acts that build the program of the tokens.
pub fn read(alloc: Global, tokens: &[Token]) -> Result<Vec<Made>, ReadRefusal>
    ensures { Reads result (outcome_of tokens.now) }
{
    let mut stack = first_stack(alloc)?;
    let mut acts = Vec::new(alloc);
    let mut to = 0;
    for token in tokens {
        match feed(alloc, &mut stack, &mut acts, Some(token), to)? {
            Meeting::Goes => to = token.span.to,
            _ => return Err(ReadRefusal::Unexpected(token.span.from)),
        }
    }
    match feed(alloc, &mut stack, &mut acts, None, to)? {
        Meeting::Empties => Ok(acts),
        _ => Err(ReadRefusal::Unexpected(to)),
    }
}
