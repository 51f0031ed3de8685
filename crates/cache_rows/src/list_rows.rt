// The rows as a plain list.
ghost use Rattle.std.specs.Prelude.{◌≡◌, ◌≤◌, ◌<◌, ◌^◌, ◌-◌, ◌↔◌, ℕ, [], ◌∷◌, ◌++◌, List, length, min, Some, slice_get, nat_lt, vec_len, vec_capacity, IfOk, IfSome, IfNone, OnErr, IsTrue};
ghost use Rattle.cache_rows.specs.RowMachine.{PickleRow, NoneNamed, Looks, Puts, LeavesOut, key_of, sizes, pickle_size, current, kept, settled, stays as stays_at};
ghost use Rattle.cache_rows.specs.Indexed.{FirstToLeave};

use crate::row::{Row, stays};
use crate::row_store::RowStore;
use sml_syntax::{NoMemory, Text};
use std::alloc::Global;
use std::marker::Model;
use web_data::Kind;

/// Rows in a list, in the order of birth.
#[derive(Drop)]
pub struct ListRows {
    kind: Kind,
    rows: Vec<Row<Text, Text>>,
    last: u64,
    alloc: Global,
}

impl Model for ListRows {
    ghost use Rattle.cache_rows.specs.RowMachine.{CacheRows};

    ghost Value = { CacheRows };

    ghost view = { λ r. record { kind = r.kind; rows = r.rows.items; last = r.last } };
}

impl ListRows {
    /// No rows.
    pub fn make(alloc: Global, kind: Kind) -> Result<ListRows, NoMemory>
        ensures { IfOk result (λ r. r ≡ record { kind = kind; rows = []; last = 0 }) }
    {
        Ok(ListRows {
            kind,
            rows: Vec::new(alloc),
            last: 0,
            alloc,
        })
    }
}

impl RowStore for ListRows {
    ghost state = { λ r. r };

    fn look(&mut self, now: u64, key: &Text) -> Result<Option<Text>, NoMemory> {
        let value = look_up(self.alloc, &mut self.rows, self.kind, now, key)?;
        self.last = now;
        Ok(value)
    }

    fn put(&mut self, now: u64, key: &Text, value: &Text) -> Result<bool, NoMemory> {
        let row = Row {
            key: key.try_copy(self.alloc)?,
            value: value.try_copy(self.alloc)?,
            stamp: now,
        };
        let fresh = put_row(&mut self.rows, self.kind, row)?;
        self.last = now;
        Ok(fresh)
    }

    fn flush(&mut self) {
        self.rows.clear();
    }

    fn last(&self) -> u64 {
        self.last
    }
}

fn look_up(
    alloc: Global,
    rows: &mut Vec<Row<Text, Text>>,
    kind: Kind,
    now: u64,
    key: &Text,
) -> Result<Option<Text>, NoMemory>
    ensures ok { IfOk result (λ answer. Looks kind now key.now rows.old.items answer rows.new.items) }
    ensures err { OnErr result (rows.new.items ≡ rows.old.items) }
{
    let Some(at) = find(rows.as_slice(), kind.time, now, key) else {
        drop_expired(rows, kind.time, now);
        return Ok(None);
    };
    let value = rows[at].value.try_copy(alloc)?;
    if kind.used {
        rows[at].stamp = now;
    }
    drop_expired(rows, kind.time, now);
    Ok(Some(value))
}

fn put_row(
    rows: &mut Vec<Row<Text, Text>>,
    kind: Kind,
    row: Row<Text, Text>,
) -> Result<bool, NoMemory>
    ensures ok { IfOk result (λ fresh. Puts pickle_size kind row.stamp row.key row.value rows.old.items fresh rows.new.items) }
    ensures err { OnErr result (rows.new.items ≡ rows.old.items) }
{
    rows.reserve(1)?;
    drop_expired(rows, kind.time, row.stamp);
    let fresh = take_out(rows, &row.key);
    settle(rows, kind.size, row);
    Ok(fresh)
}

fn same(a: &Text, b: &Text) -> bool
    ensures { IsTrue result ↔ (a.now ≡ b.now) }
{
    a == b
}

/// Where the key's row is among those that stay at a moment.
fn find(rows: &[Row<Text, Text>], time: Option<u64>, now: u64, key: &Text) -> Option<usize>
    ensures some { IfSome result (λ at. (row : PickleRow) × (slice_get rows.now at ≡ Some row) × IsTrue (stays_at time now row.stamp) × (row.key ≡ key.now)) }
    ensures none { IfNone result (NoneNamed key_of key.now (current time now rows.now)) }
{
    for at in 0..rows.len() {
        if stays(time, now, rows[at].stamp) && same(&rows[at].key, key) {
            return Some(at);
        }
    }
    None
}

fn drop_expired(rows: &mut Vec<Row<Text, Text>>, time: Option<u64>, now: u64)
    ensures items { rows.new.items ≡ current time now rows.old.items }
    ensures bound { vec_len rows.new ≤ vec_len rows.old }
    ensures capacity { vec_capacity rows.new ≡ vec_capacity rows.old }
{
    rows.retain(|row| stays(time, now, row.stamp));
}

/// Takes the key's row out, and answers whether there was none.
fn take_out(rows: &mut Vec<Row<Text, Text>>, key: &Text) -> bool
    ensures rest { LeavesOut key.now rows.old.items result rows.new.items }
    ensures bound { vec_len rows.new ≤ vec_len rows.old }
    ensures capacity { vec_capacity rows.new ≡ vec_capacity rows.old }
{
    match find(rows.as_slice(), None, 0, key) {
        Some(at) => {
            rows.remove(at);
            false
        }
        None => true,
    }
}

/// Puts a row last, unless it is larger than the cache, and drops rows until they fit.
fn settle(rows: &mut Vec<Row<Text, Text>>, size: Option<u64>, row: Row<Text, Text>)
    requires { vec_len rows.old < vec_capacity rows.old }
    ensures { rows.new.items ≡ settled pickle_size size rows.old.items row }
{
    let Some(most) = size else {
        rows.push_reserved(row);
        return;
    };
    if size_of(&row) <= most as u128 {
        rows.push_reserved(row);
        shrink(rows, most);
    }
}

fn size_of(row: &Row<Text, Text>) -> u128
    ensures { result ≡ pickle_size row.now.key row.now.value }
{
    row.key.len() as u128 + row.value.len() as u128
}

/// The sum of the sizes, as far as 128 bits hold it.
fn sizes_of(rows: &[Row<Text, Text>]) -> u128
    ensures { result ≡ min (sizes pickle_size rows.now) (2 ^ 128 - 1) }
{
    let mut sum: u128 = 0;
    for row in rows {
        sum = sum.saturating_add(size_of(row));
    }
    sum
}

/// The first of the rows with the least stamp.
fn first_to_leave(rows: &[Row<Text, Text>]) -> usize
    requires { 0 < length rows.now }
    ensures { (least : ℕ) × FirstToLeave rows.now result least }
{
    let mut first = 0;
    let mut least = rows[0].stamp;
    for at in 1..rows.len() {
        let stamp = rows[at].stamp;
        if stamp < least {
            first = at;
            least = stamp;
        }
    }
    first
}

/// Drops rows until they have at most so many bytes.
fn shrink(rows: &mut Vec<Row<Text, Text>>, most: u64)
    ensures { rows.new.items ≡ kept pickle_size most [] rows.old.items }
{
    while !rows.is_empty() && sizes_of(rows.as_slice()) > most as u128 {
        let first = first_to_leave(rows.as_slice());
        rows.remove(first);
    }
}
