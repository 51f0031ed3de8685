// The machines after a history, by trying its entries.
ghost use Rattle.std.specs.Prelude.{◌≡◌, true, MatchBool, List, IfOk};
ghost use Rattle.web_data.specs.declared.database.DbCmd.{DbCmd as DbCmdValue};
ghost use Rattle.web_data.specs.declared.database.DbAns.TheVariants as db;
ghost use Rattle.db_keeper.specs.Keeping.{KeeperMeaning};
ghost use Rattle.db_pool.specs.Handling.{IsFault};
ghost use Rattle.web_cache.specs.CacheMachine.{Group};
ghost use Rattle.web_cache.specs.Apart.{AreApart};
ghost use Rattle.history_core.specs.LegalHistory.{Database, CacheEntry, KeepersEntry, OnDatabase, LegalHistory, start};
ghost use Rattle.history_core.specs.ByObject.{NamesDiffer};
ghost use Rattle.history_core.specs.Fitting.{AreFitting};
ghost use Rattle.history_check.specs.Given.{AllDiffer, database_given, databases_given};
ghost use Rattle.history_check.specs.Replaying.{Tried, IsSingle};

use crate::same::{same_cache_answer, same_database_answer};
use crate::tables::{Tables, Told};
use history_core::Entry;
use sml_syntax::{Listed, NoMemory, Text};
use std::alloc::Global;
use std::marker::Model;
use web_cache::{Caches, call_fits, group_of};
use web_data::{CacheAns, CacheCall, DbAns, DbCmd, WebAns, WebCall};

/// A database of a history.
#[derive(Drop)]
pub(crate) struct Replayed {
    name: Text,
    keepers: Vec<Told>,
}

impl Model for Replayed {
    ghost use Rattle.history_core.specs.LegalHistory.{Database};
    ghost use Rattle.history_core.specs.Codes.{database_code};

    ghost Value = { Database };

    ghost coded = { database_code };

    ghost view = { λ d. record { name = d.name; keepers = d.keepers.items } };
}

impl Replayed {
    fn is_named(&self, name: &Text) -> bool
        ensures named { result ≡ true → self.now.name ≡ name.now }
        ensures other { self.now.name ≡ name.now → result ≡ true }
    {
        self.name == *name
    }

    /// Runs a command on the keeper that stands, and answers whether that is a step of the history.
    fn step(&mut self, cmd: &DbCmd, answer: &DbAns) -> Result<bool, NoMemory>
        ensures step { IfOk result (λ found. MatchBool found (KeepersEntry cmd.now answer.now self.old.keepers self.new.keepers) ((other : List KeeperMeaning) → KeepersEntry cmd.now answer.now self.old.keepers other → ⊥)) }
        ensures name { self.new.name ≡ self.old.name }
    {
        if let DbAns::Fault(count) = answer {
            return Ok(step_fault(&mut self.keepers, *count));
        }
        step_command(&mut self.keepers, cmd, answer)
    }
}

/// The machines of a history.
#[derive(Drop)]
pub(crate) struct Replay {
    caches: Caches,
    databases: Vec<Replayed>,
}

impl Model for Replay {
    ghost use Rattle.history_core.specs.LegalHistory.{Machines};
    ghost use Rattle.history_core.specs.Codes.{machines_code};

    ghost Value = { Machines };

    ghost coded = { machines_code };

    ghost view = { λ r. record { groups = r.caches; databases = r.databases.items } };
}

impl Replay {
    /// The machines at the start.
    #[tactic(auto, using(crate::proofs::Loading::given_more, crate::proofs::Loading::given_all))]
    pub fn make(
        alloc: Global,
        names: &[Text],
        keepers: &[Listed<Tables>],
    ) -> Result<Replay, NoMemory>
        ensures { IfOk result (λ r. r ≡ start (databases_given names.now keepers.now)) }
    {
        let mut databases = Vec::new(alloc);
        for at in 0..names.len().min(keepers.len()) {
            databases.push(make_database(alloc, &names[at], keepers[at].as_slice())?)?;
        }
        Ok(Replay {
            caches: Caches::make(alloc)?,
            databases,
        })
    }

    /// Steps by an entry, and answers whether that is a step of the machines. Where it is none, the machines are of no
    /// more use.
    pub fn step(&mut self, alloc: Global, entry: &Entry) -> Result<bool, NoMemory>
        requires { IsSingle self.old }
        ensures { IfOk result (Tried self.old entry.now self.new) }
    {
        match (&entry.call, &entry.answer) {
            (WebCall::Cache(call), WebAns::Cache(answer)) => {
                step_caches(alloc, &mut self.caches, call, entry.moment, answer)
            }
            (WebCall::Db(name, cmd), WebAns::Db(answer)) if entry.moment == 0 => {
                step_databases(&mut self.databases, name, cmd, answer)
            }
            _ => Ok(false),
        }
    }
}

fn make_database(alloc: Global, name: &Text, given: &[Tables]) -> Result<Replayed, NoMemory>
    ensures { IfOk result (λ d. d ≡ database_given (name.now, given.now)) }
{
    let mut keepers = Vec::new(alloc);
    for tables in given {
        keepers.push(Told::make(alloc, tables)?)?;
    }
    Ok(Replayed {
        name: name.try_copy(alloc)?,
        keepers,
    })
}

/// Makes a cache call, and answers whether it is one that the history allows.
fn step_caches(
    alloc: Global,
    caches: &mut Caches,
    call: &CacheCall,
    moment: u64,
    answer: &CacheAns,
) -> Result<bool, NoMemory>
    requires apart { AreApart caches.old }
    requires fitting { AreFitting caches.old }
    ensures { IfOk result (λ found. MatchBool found (CacheEntry caches.old call.now moment answer.now caches.new) ((other : List Group) → CacheEntry caches.old call.now moment answer.now other → ⊥)) }
{
    if !call_fits(call) || moment < caches.last(group_of(&call.id.name)) {
        return Ok(false);
    }
    let given = caches.act(moment, call)?;
    same_cache_answer(alloc, call, &given, answer)
}

/// Runs a command on the database of a name, and answers whether that is a step of the history.
fn step_databases(
    databases: &mut Vec<Replayed>,
    name: &Text,
    cmd: &DbCmd,
    answer: &DbAns,
) -> Result<bool, NoMemory>
    requires { NamesDiffer databases.old.items }
    ensures { IfOk result (λ found. MatchBool found (OnDatabase (KeepersEntry cmd.now answer.now) databases.old.items name.now databases.new.items) ((other : List Database) → OnDatabase (KeepersEntry cmd.now answer.now) databases.old.items name.now other → ⊥)) }
{
    for at in 0..databases.len() {
        if databases[at].is_named(name) {
            return databases[at].step(cmd, answer);
        }
    }
    Ok(false)
}

/// Lets the keeper that stands fail with a number, and answers whether that is a step of the history.
fn step_fault(keepers: &mut Vec<Told>, count: u64) -> bool
    ensures { (cmd : DbCmdValue) → MatchBool result (KeepersEntry cmd (db.Fault count) keepers.old.items keepers.new.items) ((other : List KeeperMeaning) → KeepersEntry cmd (db.Fault count) keepers.old.items other → ⊥) }
{
    if keepers.is_empty() || !keepers[0].fail(count) {
        return false;
    }
    if keepers.len() > 1 {
        keepers.remove(0);
    }
    true
}

/// Runs a command that doesn't fail, and answers whether its answer is this one.
fn step_command(keepers: &mut Vec<Told>, cmd: &DbCmd, answer: &DbAns) -> Result<bool, NoMemory>
    requires { IsFault answer.now → ⊥ }
    ensures { IfOk result (λ found. MatchBool found (KeepersEntry cmd.now answer.now keepers.old.items keepers.new.items) ((other : List KeeperMeaning) → KeepersEntry cmd.now answer.now keepers.old.items other → ⊥)) }
{
    if keepers.is_empty() {
        return Ok(false);
    }
    let given = keepers[0].act(cmd)?;
    Ok(same_database_answer(&given, answer))
}

/// Whether these entries are a legal history over databases with these names and keepers.
#[tactic(auto, using(crate::proofs::Judging::going, crate::proofs::Judging::stuck, crate::proofs::Judging::over, crate::proofs::OneStep::starts_single))]
pub fn is_legal(
    alloc: Global,
    names: &[Text],
    keepers: &[Listed<Tables>],
    entries: &[Entry],
) -> Result<bool, NoMemory>
    requires { AllDiffer names.now }
    ensures { IfOk result (λ found. MatchBool found (LegalHistory (databases_given names.now keepers.now) entries.now) (LegalHistory (databases_given names.now keepers.now) entries.now → ⊥)) }
{
    let mut replay = Replay::make(alloc, names, keepers)?;
    for entry in entries {
        if !replay.step(alloc, entry)? {
            return Ok(false);
        }
    }
    Ok(true)
}
