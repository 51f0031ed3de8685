// A cache that stands.
ghost use Rattle.std.specs.Prelude.{◌≡◌, ◌≤◌, ◌↔◌, [], true, IfOk, OnErr, IsTrue};
ghost use Rattle.std.specs.Option.{option_map};
ghost use Rattle.web_data.specs.CacheCalls.{op_fits};
ghost use Rattle.web_data.specs.Data.{has_desc};
ghost use Rattle.web_cache.specs.CacheMachine.{RowsStep};
ghost use Rattle.web_cache.specs.Shown.{Shown, LooksAs, PutsAs, Reads, found, shown_once};

use crate::same::same_cache;
use cache_rows::{RowStore, Rows};
use sml_syntax::{NoMemory, Text};
use std::alloc::Global;
use std::marker::Model;
use value_pickle::{read, write};
use web_data::{CacheAns, CacheId, CacheOp, Datum, Desc};

/// A cache that stands, with the pickles of its rows. Contracts see the rows of data.
#[derive(Drop)]
pub(crate) struct StandingCache {
    id: CacheId,
    rows: Rows,
    ghost shown: { Shown id rows.rows } by { shown_once id rows.rows },
}

impl Model for StandingCache {
    ghost use Rattle.std.specs.Prelude.{◌≡◌};
    ghost use Rattle.web_cache.specs.Shown.{Kept};

    ghost Value = { Kept };

    ghost use Rattle.web_cache.specs.Codes.{kept_code};

    ghost coded = { kept_code };

    ghost view = { λ c. record { id = c.id; rows = c.shown.0; last = c.rows.last } };

    ghost invariant = { λ c. c.rows.kind ≡ c.id.kind };
}

impl StandingCache {
    /// A cache without rows.
    pub fn make(alloc: Global, id: &CacheId) -> Result<StandingCache, NoMemory>
        ensures { IfOk result (λ c. c ≡ record { id = id.now; rows = []; last = 0 }) }
    {
        Ok(StandingCache {
            id: id.try_copy(alloc)?,
            rows: Rows::make(alloc, id.kind)?,
        })
    }

    pub fn is(&self, id: &CacheId) -> bool
        ensures { IsTrue result ↔ (self.now.id ≡ id.now) }
    {
        same_cache(&self.id, id)
    }

    /// Does what an operation does with the rows.
    pub fn act(&mut self, alloc: Global, now: u64, op: &CacheOp) -> Result<CacheAns, NoMemory>
        requires fits { op_fits self.old.id op.now ≡ true }
        requires moment { self.old.last ≤ now }
        ensures ok { IfOk result (λ answer. RowsStep self.old.id now op.now self.old.rows answer self.new.rows) }
        ensures err { OnErr result (self.new ≡ self.old) }
        ensures id { self.new.id ≡ self.old.id }
        ensures last { self.new.last ≤ now }
    {
        match op {
            CacheOp::Look(key) => {
                let value = look(alloc, &self.id, &mut self.rows, now, key)?;
                Ok(found(value))
            }
            CacheOp::Put(key, value) => {
                let fresh = put(alloc, &self.id, &mut self.rows, now, key, value)?;
                Ok(CacheAns::Fresh(fresh))
            }
            CacheOp::Flush => {
                self.rows.flush();
                Ok(CacheAns::Flushed)
            }
        }
    }
}

fn found(value: Option<Datum>) -> CacheAns
    ensures { result ≡ found value }
{
    match value {
        Some(value) => CacheAns::Found(value),
        None => CacheAns::Absent,
    }
}

/// Looks a key up. The value is made before a row changes.
fn look(
    alloc: Global,
    id: &CacheId,
    rows: &mut Rows,
    now: u64,
    key: &Datum,
) -> Result<Option<Datum>, NoMemory>
    requires key { has_desc id.now.key key.now ≡ true }
    requires kind { rows.old.kind ≡ id.now.kind }
    requires moment { rows.old.last ≤ now }
    ensures ok { IfOk result (λ answer. LooksAs id.now now key.now rows.old.rows answer rows.new.rows) }
    ensures err { OnErr result (rows.new ≡ rows.old) }
    ensures kind { rows.new.kind ≡ rows.old.kind }
    ensures last { rows.new.last ≤ now }
{
    let name = write(alloc, &id.key, key)?;
    let value = read_value(alloc, &id.value, rows.peek(now, &name))?;
    rows.look(now, &name)?;
    Ok(value)
}

/// The datum of a pickle, if there is one.
fn read_value(alloc: Global, desc: &Desc, text: Option<&Text>) -> Result<Option<Datum>, NoMemory>
    ensures { IfOk result (Reads desc.now (option_map (λ t. t.now) text.entry)) }
{
    let Some(text) = text else {
        return Ok(None);
    };
    match read(alloc, desc, text.as_bytes()) {
        Ok(value) => Ok(Some(value)),
        // The text is a pickle, so that no other refusal comes.
        Err(_) => Err(NoMemory),
    }
}

fn put(
    alloc: Global,
    id: &CacheId,
    rows: &mut Rows,
    now: u64,
    key: &Datum,
    value: &Datum,
) -> Result<bool, NoMemory>
    requires key { has_desc id.now.key key.now ≡ true }
    requires value { has_desc id.now.value value.now ≡ true }
    requires kind { rows.old.kind ≡ id.now.kind }
    requires moment { rows.old.last ≤ now }
    ensures ok { IfOk result (λ fresh. PutsAs id.now now key.now value.now rows.old.rows fresh rows.new.rows) }
    ensures err { OnErr result (rows.new ≡ rows.old) }
    ensures kind { rows.new.kind ≡ rows.old.kind }
    ensures last { rows.new.last ≤ now }
{
    let name = write(alloc, &id.key, key)?;
    let text = write(alloc, &id.value, value)?;
    rows.put(now, &name, &text)
}
