// One event.
ghost use Rattle.std.specs.Prelude.{◌≡◌, OnOk, OnErr, IsErrOf};
ghost use Rattle.history_core.specs.declared.event.Event.TheVariants as event;
ghost use Rattle.history_core.specs.Core.{Core, CoreStep, Begins, TakesPage, GivesPage, TakesHandle, GivesHandle, Ends, Enters};

use crate::lists::{
    hand_on, holds_some, is_free, is_held_by, is_owned, owns_some, runs, take_out_owner,
    take_out_page, take_out_request,
};
use crate::{CoreState, StepRefusal};
use history_check::is_legal;
use history_core::{Entry, Event, Owner};
use std::alloc::Global;
use web_data::{CacheAns, CacheCall, DbAns, DbCmd, WebAns, WebCall};

/// Makes the step of an event.
pub fn core_step(alloc: Global, state: &mut CoreState, event: &Event) -> Result<(), StepRefusal>
    ensures ok { OnOk result (CoreStep state.old event.now state.new) }
    ensures refused { IsErrOf result StepRefusal.NotEnabled → (new : Core) → CoreStep state.old event.now new → ⊥ }
    ensures err { OnErr result (state.new ≡ state.old) }
{
    match event {
        Event::Begin(request) => begin(state, *request),
        Event::TakePage(request, page) => take_page(state, *request, *page),
        Event::GivePage(request, page) => give_page(state, *request, *page),
        Event::CacheCall(request, call, moment, answer) => {
            call_cache(alloc, state, *request, call, *moment, answer)
        }
        Event::TakeHandle(request, database) => take_handle(state, *request, *database),
        Event::DbCall(request, database, cmd, answer) => {
            call_database(alloc, state, *request, *database, cmd, answer)
        }
        Event::GiveHandle(request, database) => give_handle(state, *request, *database),
        Event::End(request) => end(state, *request),
    }
}

fn begin(state: &mut CoreState, request: u64) -> Result<(), StepRefusal>
    ensures ok { OnOk result (Begins state.old request state.new) }
    ensures refused { IsErrOf result StepRefusal.NotEnabled → (new : Core) → Begins state.old request new → ⊥ }
    ensures err { OnErr result (state.new ≡ state.old) }
{
    if request != state.begun || request == u64::MAX {
        return Err(StepRefusal::NotEnabled);
    }
    state.running.push(request)?;
    state.begun = request + 1;
    Ok(())
}

fn take_page(state: &mut CoreState, request: u64, page: u32) -> Result<(), StepRefusal>
    ensures ok { OnOk result (TakesPage state.old request page state.new) }
    ensures refused { IsErrOf result StepRefusal.NotEnabled → (new : Core) → TakesPage state.old request page new → ⊥ }
    ensures err { OnErr result (state.new ≡ state.old) }
{
    if !runs(state.running.as_slice(), request) || !is_free(state.free.as_slice(), page) {
        return Err(StepRefusal::NotEnabled);
    }
    state.owned.push(Owner { page, request })?;
    take_out_page(&mut state.free, page);
    Ok(())
}

fn give_page(state: &mut CoreState, request: u64, page: u32) -> Result<(), StepRefusal>
    ensures ok { OnOk result (GivesPage state.old request page state.new) }
    ensures refused { IsErrOf result StepRefusal.NotEnabled → (new : Core) → GivesPage state.old request page new → ⊥ }
    ensures err { OnErr result (state.new ≡ state.old) }
{
    if !is_owned(state.owned.as_slice(), request, page) {
        return Err(StepRefusal::NotEnabled);
    }
    state.free.push(page)?;
    take_out_owner(&mut state.owned, request, page);
    Ok(())
}

fn take_handle(state: &mut CoreState, request: u64, database: u64) -> Result<(), StepRefusal>
    ensures ok { OnOk result (TakesHandle state.old request database state.new) }
    ensures refused { IsErrOf result StepRefusal.NotEnabled → (new : Core) → TakesHandle state.old request database new → ⊥ }
    ensures err { OnErr result (state.new ≡ state.old) }
{
    let is_free = is_held_by(state.holders.as_slice(), database, None);
    if !runs(state.running.as_slice(), request) || !is_free {
        return Err(StepRefusal::NotEnabled);
    }
    hand_on(&mut state.holders, database, Some(request));
    Ok(())
}

fn give_handle(state: &mut CoreState, request: u64, database: u64) -> Result<(), StepRefusal>
    ensures ok { OnOk result (GivesHandle state.old request database state.new) }
    ensures refused { IsErrOf result StepRefusal.NotEnabled → (new : Core) → GivesHandle state.old request database new → ⊥ }
    ensures err { OnErr result (state.new ≡ state.old) }
{
    if !is_held_by(state.holders.as_slice(), database, Some(request)) {
        return Err(StepRefusal::NotEnabled);
    }
    hand_on(&mut state.holders, database, None);
    Ok(())
}

fn end(state: &mut CoreState, request: u64) -> Result<(), StepRefusal>
    ensures ok { OnOk result (Ends state.old request state.new) }
    ensures refused { IsErrOf result StepRefusal.NotEnabled → (new : Core) → Ends state.old request new → ⊥ }
    ensures err { OnErr result (state.new ≡ state.old) }
{
    let owns = owns_some(state.owned.as_slice(), request);
    let holds = holds_some(state.holders.as_slice(), request);
    if !runs(state.running.as_slice(), request) || owns || holds {
        return Err(StepRefusal::NotEnabled);
    }
    take_out_request(&mut state.running, request);
    Ok(())
}

fn call_cache(
    alloc: Global,
    state: &mut CoreState,
    request: u64,
    call: &CacheCall,
    moment: u64,
    answer: &CacheAns,
) -> Result<(), StepRefusal>
    ensures ok { OnOk result (CoreStep state.old (event.CacheCall request call.now moment answer.now) state.new) }
    ensures refused { IsErrOf result StepRefusal.NotEnabled → (new : Core) → CoreStep state.old (event.CacheCall request call.now moment answer.now) new → ⊥ }
    ensures err { OnErr result (state.new ≡ state.old) }
{
    if !runs(state.running.as_slice(), request) {
        return Err(StepRefusal::NotEnabled);
    }
    let call = WebCall::Cache(call.try_copy(alloc)?);
    let answer = WebAns::Cache(answer.try_copy(alloc)?);
    let entry = Entry {
        request,
        call,
        moment,
        answer,
    };
    enter(alloc, state, entry)
}

fn call_database(
    alloc: Global,
    state: &mut CoreState,
    request: u64,
    database: u64,
    cmd: &DbCmd,
    answer: &DbAns,
) -> Result<(), StepRefusal>
    ensures ok { OnOk result (CoreStep state.old (event.DbCall request database cmd.now answer.now) state.new) }
    ensures refused { IsErrOf result StepRefusal.NotEnabled → (new : Core) → CoreStep state.old (event.DbCall request database cmd.now answer.now) new → ⊥ }
    ensures err { OnErr result (state.new ≡ state.old) }
{
    let at = database as usize;
    let is_held = is_held_by(state.holders.as_slice(), database, Some(request));
    if !is_held || at >= state.names.len() || at >= state.keepers.len() {
        return Err(StepRefusal::NotEnabled);
    }
    let name = state.names[at].try_copy(alloc)?;
    let call = WebCall::Db(name, cmd.try_copy(alloc)?);
    let answer = WebAns::Db(answer.try_copy(alloc)?);
    let entry = Entry {
        request,
        call,
        moment: 0,
        answer,
    };
    enter(alloc, state, entry)
}

/// Puts an entry last into the history, where that stays legal.
fn enter(alloc: Global, state: &mut CoreState, entry: Entry) -> Result<(), StepRefusal>
    ensures ok { OnOk result (Enters state.old entry state.new) }
    ensures refused { IsErrOf result StepRefusal.NotEnabled → (new : Core) → Enters state.old entry new → ⊥ }
    ensures err { OnErr result (state.new ≡ state.old) }
{
    state.history.push(entry)?;
    let found = is_legal(
        alloc,
        state.names.as_slice(),
        state.keepers.as_slice(),
        state.history.as_slice(),
    );
    if let Ok(true) = found {
        return Ok(());
    }
    state.history.pop();
    match found {
        Ok(_) => Err(StepRefusal::NotEnabled),
        Err(_) => Err(StepRefusal::NoMemory),
    }
}
