// Rows by their keys and by the order in which they leave.
ghost use Rattle.std.specs.Prelude.{◌≡◌, ◌-◌, ◌^◌, ℕ, [], List, min, IfOk, OnErr, IsTrue, IsFalse};
ghost use Rattle.std.specs.Option.{option_map};
ghost use Rattle.cache_rows.specs.RowMachine.{PickleRow, Foretells, LeavesOut, key_of, sizes, pickle_size, current};
ghost use Rattle.cache_rows.specs.Indexed.{Answers, Replaces, Restamps, LeavesFirst, rows_of};

use crate::row::stays;
use indexmap::IndexMap;
use sml_syntax::{NoMemory, Text};
use std::alloc::Global;
use std::collections::BTreeMap;
use std::marker::Model;
use web_data::Kind;

/// A row but for its key. A later row has a greater birth.
#[derive(Drop)]
pub(crate) struct Cell {
    value: Text,
    stamp: u64,
    birth: u64,
}

/// Rows by their keys, in the order of birth, and the keys in the order in which the rows leave: by stamp and birth.
#[derive(Drop)]
pub(crate) struct Table {
    rows: IndexMap<Vec<u8>, Cell>,
    order: BTreeMap<(u64, u64), Text>,
    births: u64,
    /// The sum of the rows' sizes.
    sizes: u128,
    alloc: Global,
}

impl Model for Table {
    ghost use Rattle.std.specs.Prelude.{List};
    ghost use Rattle.cache_rows.specs.RowMachine.{PickleRow};
    ghost use Rattle.cache_rows.specs.Indexed.{Indexed, rows_of};

    ghost Value = { List PickleRow };

    ghost view = { λ t. rows_of t.rows.entries };

    ghost invariant = { λ t. Indexed t.rows.entries t.order.entries t.births t.sizes };
}

impl Table {
    pub fn new(alloc: Global) -> Table
        ensures { result ≡ [] }
    {
        Table {
            rows: IndexMap::new(alloc),
            order: BTreeMap::new(alloc),
            births: 0,
            sizes: 0,
            alloc,
        }
    }

    /// The sum of the rows' sizes.
    pub fn sizes(&self) -> u128
        ensures { result ≡ sizes pickle_size self.now }
    {
        self.sizes
    }

    pub fn clear(&mut self)
        ensures { self.new ≡ [] }
    {
        self.rows.clear();
        self.order.clear();
        self.sizes = 0;
    }

    /// The value of the key's row, where it stays. It gets the moment as its stamp where the cache is `WhileUsed`.
    pub fn look(&mut self, kind: Kind, now: u64, key: &Text) -> Result<Option<Text>, NoMemory>
        ensures ok { IfOk result (λ answer. Answers kind now key.now self.old answer self.new) }
        ensures err { OnErr result (self.new ≡ self.old) }
    {
        let Some(cell) = self.rows.get(key.as_bytes()) else {
            return Ok(None);
        };
        if !stays(kind.time, now, cell.stamp) {
            return Ok(None);
        }
        let value = cell.value.try_copy(self.alloc)?;
        let (stamp, birth) = (cell.stamp, cell.birth);
        if kind.used && stamp != now {
            self.order.insert((now, birth), key.try_copy(self.alloc)?)?;
            set_stamp(&mut self.rows, key.as_bytes(), now);
            self.order.remove(&(stamp, birth));
        }
        Ok(Some(value))
    }

    /// The value of the key's row, where it stays.
    pub fn peek(&self, kind: Kind, now: u64, key: &Text) -> Option<&Text>
        ensures { Foretells kind now key.now self.now (option_map (λ v. v.now) result) }
    {
        let Some(cell) = self.rows.get(key.as_bytes()) else {
            return None;
        };
        if !stays(kind.time, now, cell.stamp) {
            return None;
        }
        Some(&cell.value)
    }

    /// Puts a row last in the place of the key's row, and answers the stamp of that row.
    pub fn replace(&mut self, now: u64, key: &Text, value: &Text) -> Result<Option<u64>, NoMemory>
        ensures ok { IfOk result (λ stamp. Replaces now key.now value.now self.old stamp self.new) }
        ensures err { OnErr result (self.new ≡ self.old) }
    {
        let birth = self.births;
        if birth == u64::MAX {
            return Err(NoMemory);
        }
        let name = Vec::from_slice(self.alloc, key.as_bytes())?;
        let value = value.try_copy(self.alloc)?;
        let Some(sizes) = self.sizes.checked_add(size_of(key, &value)) else {
            return Err(NoMemory);
        };
        self.rows.reserve(1)?;
        self.order.insert((now, birth), key.try_copy(self.alloc)?)?;
        let (stamp, sizes) = match self.rows.shift_remove(key.as_bytes()) {
            Some(old) => {
                self.order.remove(&(old.stamp, old.birth));
                (
                    Some(old.stamp),
                    sizes.saturating_sub(size_of(key, &old.value)),
                )
            }
            None => (None, sizes),
        };
        let cell = Cell {
            value,
            stamp: now,
            birth,
        };
        // There is room for it.
        let _ = self.rows.insert(name, cell);
        self.births = birth + 1;
        self.sizes = sizes;
        Ok(stamp)
    }

    /// Takes the key's row out, and answers whether there was none.
    pub fn take_out(&mut self, key: &Text) -> bool
        ensures { LeavesOut key.now self.old result self.new }
    {
        let Some(cell) = self.rows.shift_remove(key.as_bytes()) else {
            return true;
        };
        self.order.remove(&(cell.stamp, cell.birth));
        self.sizes = self.sizes.saturating_sub(size_of(key, &cell.value));
        false
    }

    /// Takes the row out that leaves first, if there is a row.
    pub fn drop_first(&mut self) -> bool
        ensures some { IsTrue result → LeavesFirst self.old self.new }
        ensures none { IsFalse result → (self.old ≡ []) × (self.new ≡ []) }
    {
        let Some((_, key)) = self.order.pop_first() else {
            return false;
        };
        if let Some(cell) = self.rows.shift_remove(key.as_bytes()) {
            self.sizes = self.sizes.saturating_sub(size_of(&key, &cell.value));
        }
        true
    }

    /// Drops the rows that don't stay.
    pub fn expire(&mut self, time: Option<u64>, now: u64)
        ensures { self.new ≡ current time now self.old }
    {
        let Some((place, _)) = self.order.first_key_value() else {
            return;
        };
        if stays(time, now, place.0) {
            return;
        }
        self.rows.retain(|_, cell| stays(time, now, cell.stamp));
        self.order.retain(|place, _| stays(time, now, place.0));
        self.sizes = sizes_of(&self.rows);
    }
}

/// Gives the key's row a stamp, if there is one.
fn set_stamp(rows: &mut IndexMap<Vec<u8>, Cell>, key: &[u8], stamp: u64)
    ensures { Restamps key.now stamp rows.old.entries rows.new.entries }
{
    if let Some(cell) = rows.get_mut(key) {
        cell.stamp = stamp;
    }
}

fn size_of(key: &Text, value: &Text) -> u128
    ensures { result ≡ pickle_size key.now value.now }
{
    key.len() as u128 + value.len() as u128
}

/// The sum of the rows' sizes, as far as 128 bits hold it.
fn sizes_of(rows: &IndexMap<Vec<u8>, Cell>) -> u128
    ensures { result ≡ min (sizes pickle_size (rows_of rows.now.entries)) (2 ^ 128 - 1) }
{
    let mut sum: u128 = 0;
    for (key, cell) in rows.iter() {
        sum = sum.saturating_add(key.len() as u128 + cell.value.len() as u128);
    }
    sum
}
