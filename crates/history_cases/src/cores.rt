// The core machine event by event, and histories entry by entry, over one database.
use case_lines::Words;
use core_step::{CoreState, StepRefusal, core_step};
use data_words::{read_answer, read_cache_call, read_call, read_command, read_text};
use history_check::{Tables, is_legal, names_differ};
use history_core::{Entry, Event};
use sml_syntax::{Listed, NoMemory, Text};
use std::alloc::Global;
use web_data::{CacheAns, DbAns, WebAns, WebCall};

// A table with its rows: its name, and then keys and values in turn, with commas between them.
fn read_table(alloc: Global, word: &str) -> Result<(Text, Listed<(Text, Text)>), NoMemory> {
    let (name, rest) = word.split_once(',').unwrap_or((word, ""));
    let mut parts = Vec::new(alloc);
    for part in rest.split(',') {
        parts.push(part)?;
    }
    let mut rows = Vec::new(alloc);
    for pair in parts.chunks(2) {
        if let [key, value] = pair {
            rows.push((read_text(alloc, key)?, read_text(alloc, value)?))?;
        }
    }
    Ok((read_text(alloc, name)?, Listed::of(rows)))
}

// A keeper for each word: a table, or none where the word is `-`.
fn read_keepers(alloc: Global, rest: &str) -> Result<Listed<Tables>, NoMemory> {
    let mut keepers = Vec::new(alloc);
    for word in rest.split(' ') {
        let mut tables = Vec::new(alloc);
        if word != "-" {
            tables.push(read_table(alloc, word)?)?;
        }
        keepers.push(Tables {
            rows: Listed::of(tables),
        })?;
    }
    Ok(Listed::of(keepers))
}

fn read_names(alloc: Global) -> Result<Vec<Text>, NoMemory> {
    Ok(Vec::from_array(alloc, [Text::from_bytes(alloc, b"book")?])?)
}

/// A core of so many pages, with the database `book` and its keepers.
pub(crate) fn make_core(alloc: Global, words: &mut Words) -> Result<Option<CoreState>, NoMemory> {
    let pages = words.next().parse().unwrap_or(0);
    let keepers = Vec::from_array(alloc, [read_keepers(alloc, words.rest())?])?;
    let names = read_names(alloc)?;
    if !names_differ(names.as_slice()) || names.len() != keepers.len() {
        return Ok(None);
    }
    Ok(Some(CoreState::make(alloc, pages, names, keepers)?))
}

// Answers of the other kind count as this.
fn cache_answer(answer: WebAns) -> CacheAns {
    match answer {
        WebAns::Cache(answer) => answer,
        WebAns::Db(_) => CacheAns::Absent,
    }
}

fn db_answer(answer: WebAns) -> DbAns {
    match answer {
        WebAns::Db(answer) => answer,
        WebAns::Cache(_) => DbAns::Done,
    }
}

// An event: its word, the request, and what else it has.
fn read_event(alloc: Global, words: &mut Words) -> Result<Event, NoMemory> {
    let word = words.next();
    let request = words.number();
    match word {
        "call" => read_cache_event(alloc, request, words),
        "command" => read_db_event(alloc, request, words),
        word => Ok(plain_event(word, request, words.number())),
    }
}

// An event of a request and a number.
fn plain_event(word: &str, request: u64, number: u64) -> Event {
    match word {
        "begin" => Event::Begin(request),
        "take_page" => Event::TakePage(request, page_of(number)),
        "give_page" => Event::GivePage(request, page_of(number)),
        "take_handle" => Event::TakeHandle(request, number),
        "give_handle" => Event::GiveHandle(request, number),
        _ => Event::End(request),
    }
}

fn page_of(number: u64) -> u32 {
    u32::try_from(number).unwrap_or(0)
}

// The answer comes before the call, as a call that has to go again is dear to check.
fn read_cache_event(alloc: Global, request: u64, words: &mut Words) -> Result<Event, NoMemory> {
    let moment = words.number();
    let (call, answer) = words.rest().split_once(" => ").unwrap_or(("", ""));
    let answer = cache_answer(read_answer(alloc, &mut Words::of(answer))?);
    let call = read_cache_call(alloc, &mut Words::of(call))?;
    Ok(Event::CacheCall(request, call, moment, answer))
}

fn read_db_event(alloc: Global, request: u64, words: &mut Words) -> Result<Event, NoMemory> {
    let database = words.number();
    let (command, answer) = words.rest().split_once(" => ").unwrap_or(("", ""));
    let answer = db_answer(read_answer(alloc, &mut Words::of(answer))?);
    let command = read_command(alloc, &mut Words::of(command))?;
    Ok(Event::DbCall(request, database, command, answer))
}

// The step of the machine, without what is proved of it, which no line here needs.
fn step(alloc: Global, state: &mut CoreState, event: &Event) -> Result<(), StepRefusal> {
    core_step(alloc, state, event)
}

/// `event EVENT`: whether the machine has the step.
pub(crate) fn answer_event(
    alloc: Global,
    state: &mut CoreState,
    words: &mut Words,
    out: &mut String,
) -> Result<(), NoMemory> {
    let event = read_event(alloc, words)?;
    let stepped = step(alloc, state, &event);
    let_go(event);
    match stepped {
        Ok(()) => out.push_str("ok")?,
        Err(StepRefusal::NotEnabled) => out.push_str("not enabled")?,
        Err(StepRefusal::NoMemory) => return Err(NoMemory),
    }
    Ok(())
}

// Lets an event go part by part: as a whole that is dear to check.
fn let_go(event: Event) {
    match event {
        Event::CacheCall(_, call, _, answer) => {
            drop(call);
            drop(answer);
        }
        Event::DbCall(_, _, command, answer) => {
            drop(command);
            drop(answer);
        }
        Event::Begin(_)
        | Event::TakePage(_, _)
        | Event::GivePage(_, _)
        | Event::TakeHandle(_, _)
        | Event::GiveHandle(_, _)
        | Event::End(_) => {}
    }
}

/// `state`: the number of entries, the pages that are free, those that are owned and by which requests, who holds the
/// database, the requests that run, and how many have begun.
pub(crate) fn show_state(state: &CoreState, out: &mut String) -> Result<(), NoMemory> {
    write!(out, "entries {} free", state.history().len())?;
    for page in state.free() {
        write!(out, " {page}")?;
    }
    out.push_str(" owned")?;
    for owner in state.owned() {
        write!(out, " {}:{}", owner.page, owner.request)?;
    }
    for holder in state.holders() {
        match holder {
            Some(request) => write!(out, " held by {request}")?,
            None => out.push_str(" held by none")?,
        }
    }
    out.push_str(" running")?;
    for request in state.running() {
        write!(out, " {request}")?;
    }
    write!(out, " begun {}", state.begun())?;
    Ok(())
}

// The entry of a call, with the answer that the words tell.
fn entry_of(
    alloc: Global,
    request: u64,
    moment: u64,
    call: WebCall,
    words: &mut Words,
) -> Result<Entry, NoMemory> {
    let answer = read_answer(alloc, words)?;
    Ok(Entry {
        request,
        call,
        moment,
        answer,
    })
}

/// Entries so far, over the database `book` with its keepers.
#[derive(Drop)]
pub(crate) struct History {
    names: Vec<Text>,
    keepers: Vec<Listed<Tables>>,
    entries: Vec<Entry>,
}

impl History {
    pub(crate) fn make(alloc: Global, words: &mut Words) -> Result<History, NoMemory> {
        Ok(History {
            names: read_names(alloc)?,
            keepers: Vec::from_array(alloc, [read_keepers(alloc, words.rest())?])?,
            entries: Vec::new(alloc),
        })
    }

    /// `entry REQUEST MOMENT CALL => ANSWER`: whether the history with this entry is legal. Where it isn't, the entry is
    /// left out again.
    pub(crate) fn answer(
        &mut self,
        alloc: Global,
        words: &mut Words,
        out: &mut String,
    ) -> Result<(), NoMemory> {
        let request = words.number();
        let moment = words.number();
        let call = read_call(alloc, words)?;
        words.next();
        let entry = entry_of(alloc, request, moment, call, words)?;
        self.add(entry)?;
        let is_legal_now = self.is_legal_now(alloc)?;
        if !is_legal_now {
            self.remove();
        }
        write!(out, "{is_legal_now}")?;
        Ok(())
    }

    fn add(&mut self, entry: Entry) -> Result<(), NoMemory> {
        self.entries.push(entry)?;
        Ok(())
    }

    fn remove(&mut self) {
        let _ = self.entries.pop();
    }

    fn is_legal_now(&self, alloc: Global) -> Result<bool, NoMemory> {
        let names = self.names.as_slice();
        if !names_differ(names) {
            return Ok(false);
        }
        let keepers = self.keepers.as_slice();
        is_legal(alloc, names, keepers, self.entries.as_slice())
    }
}
