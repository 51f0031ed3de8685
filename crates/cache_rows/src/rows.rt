// The rows in maps.
ghost use Rattle.std.specs.Prelude.{◌≡◌, ℕ, [], ◌∷◌, ◌++◌, List, IfOk, OnErr};
ghost use Rattle.std.specs.Option.{option_map};
ghost use Rattle.cache_rows.specs.RowMachine.{Foretells, Looks, Puts, PickleRow, LeavesOut, current, new_row, pickle_size, kept};

use crate::row::stays;
use crate::row_store::RowStore;
use crate::table::Table;
use sml_syntax::{NoMemory, Text};
use std::alloc::Global;
use std::marker::Model;
use web_data::Kind;

/// Rows in maps: a lookup and an insert that drops no row take time that grows with the logarithm of the rows.
#[derive(Drop)]
pub struct Rows {
    kind: Kind,
    table: Table,
    last: u64,
    alloc: Global,
}

impl Model for Rows {
    ghost use Rattle.cache_rows.specs.RowMachine.{CacheRows};

    ghost Value = { CacheRows };

    ghost view = { λ r. record { kind = r.kind; rows = r.table; last = r.last } };
}

impl Rows {
    /// No rows.
    pub fn make(alloc: Global, kind: Kind) -> Result<Rows, NoMemory>
        ensures { IfOk result (λ r. r ≡ record { kind = kind; rows = []; last = 0 }) }
    {
        Ok(Rows {
            kind,
            table: Table::new(alloc),
            last: 0,
            alloc,
        })
    }

    /// The value that a lookup at a moment answers. No row changes.
    pub fn peek(&self, now: u64, key: &Text) -> Option<&Text>
        ensures { Foretells self.now.kind now key.now self.now.rows (option_map (λ v. v.now) result) }
    {
        self.table.peek(self.kind, now, key)
    }
}

impl RowStore for Rows {
    ghost state = { λ r. r };

    fn look(&mut self, now: u64, key: &Text) -> Result<Option<Text>, NoMemory> {
        let value = look_up(&mut self.table, self.kind, now, key)?;
        self.last = now;
        Ok(value)
    }

    fn put(&mut self, now: u64, key: &Text, value: &Text) -> Result<bool, NoMemory> {
        let fresh = put_row(self.alloc, &mut self.table, self.kind, now, key, value)?;
        self.last = now;
        Ok(fresh)
    }

    fn flush(&mut self) {
        self.table.clear();
    }

    fn last(&self) -> u64 {
        self.last
    }
}

fn look_up(table: &mut Table, kind: Kind, now: u64, key: &Text) -> Result<Option<Text>, NoMemory>
    ensures ok { IfOk result (λ answer. Looks kind now key.now table.old answer table.new) }
    ensures err { OnErr result (table.new ≡ table.old) }
{
    let value = table.look(kind, now, key)?;
    table.expire(kind.time, now);
    Ok(value)
}

fn put_row(
    alloc: Global,
    table: &mut Table,
    kind: Kind,
    now: u64,
    key: &Text,
    value: &Text,
) -> Result<bool, NoMemory>
    ensures ok { IfOk result (λ fresh. Puts pickle_size kind now key.now value.now table.old fresh table.new) }
    ensures err { OnErr result (table.new ≡ table.old) }
{
    let Some(most) = kind.size else {
        return add(alloc, table, kind.time, now, key, value);
    };
    if size_of(key, value) > most as u128 {
        table.expire(kind.time, now);
        return Ok(table.take_out(key));
    }
    let fresh = add(alloc, table, kind.time, now, key, value)?;
    shrink(table, most);
    Ok(fresh)
}

fn size_of(key: &Text, value: &Text) -> u128
    ensures { result ≡ pickle_size key.now value.now }
{
    key.len() as u128 + value.len() as u128
}

/// Puts a row last in the place of the key's row, drops those that don't stay, and answers whether the key had none that stays.
fn add(
    alloc: Global,
    table: &mut Table,
    time: Option<u64>,
    now: u64,
    key: &Text,
    value: &Text,
) -> Result<bool, NoMemory>
    ensures ok { IfOk result (λ fresh. (rest : List PickleRow) × LeavesOut key.now (current time now table.old) fresh rest × (table.new ≡ rest ++ new_row key.now value.now now ∷ [])) }
    ensures err { OnErr result (table.new ≡ table.old) }
{
    if time == Some(0) {
        // No row stays, and the new one mustn't go with the others.
        let mut alone = Table::new(alloc);
        alone.replace(now, key, value)?;
        *table = alone;
        return Ok(true);
    }
    let fresh = match table.replace(now, key, value)? {
        Some(stamp) => !stays(time, now, stamp),
        None => true,
    };
    table.expire(time, now);
    Ok(fresh)
}

/// Drops rows until they have at most so many bytes.
fn shrink(table: &mut Table, most: u64)
    ensures { table.new ≡ kept pickle_size most [] table.old }
{
    while table.sizes() > most as u128 {
        if !table.drop_first() {
            break;
        }
    }
}
