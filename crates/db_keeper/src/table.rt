// One table in an ordered map, from keys to values.
ghost use Rattle.std.specs.Prelude.{◌≡◌, IfOk, OnOk, OnErr, [], ◌∷◌, map};
ghost use Rattle.web_data.specs.DatabaseAnswers.{row_of_entry, KeysAscend};
ghost use Rattle.db_keeper.specs.DatabaseMachine.{rows_of_value, under, without};
ghost use Rattle.db_keeper.specs.Shown.{table_of, insert_answer, with_row};

use sml_syntax::{Listed, NoMemory, Text};
use std::alloc::Global;
use std::collections::BTreeMap;
use web_data::DbAns;

/// Values by their keys.
pub(crate) type Table = BTreeMap<Vec<u8>, Text>;

/// Puts a row into a table, unless its key stands.
pub(crate) fn insert_row(
    alloc: Global,
    table: &mut Table,
    key: &Text,
    value: &Text,
) -> Result<DbAns, NoMemory>
    ensures answer { IfOk result (λ answer. answer ≡ insert_answer key.now (table_of table.old)) }
    ensures ok { OnOk result (table_of table.new ≡ with_row key.now value.now (table_of table.old)) }
    ensures err { OnErr result (table_of table.new ≡ table_of table.old) }
{
    if table.contains_key(key.as_bytes()) {
        return Ok(DbAns::KeyStands);
    }
    let key = Vec::from_slice(alloc, key.as_bytes())?;
    table.insert(key, value.try_copy(alloc)?)?;
    Ok(DbAns::Done)
}

/// Takes a key's row out of a table, if there is one.
pub(crate) fn remove_row(table: &mut Table, key: &Text)
    ensures { table_of table.new ≡ without key.now (table_of table.old) }
{
    table.remove(key.as_bytes());
}

/// The row of a key's value, if there is one.
pub(crate) fn value_row(
    alloc: Global,
    table: &Table,
    key: &Text,
) -> Result<Listed<Listed<Text>>, NoMemory>
    ensures { IfOk result (λ rows. rows ≡ rows_of_value (under key.now (table_of table.now))) }
{
    match table.get(key.as_bytes()) {
        Some(value) => one_row(alloc, value),
        None => Ok(Listed::of(Vec::new(alloc))),
    }
}

/// A value as the only row.
fn one_row(alloc: Global, value: &Text) -> Result<Listed<Listed<Text>>, NoMemory>
    ensures { IfOk result (λ rows. rows ≡ (value.now ∷ []) ∷ []) }
{
    let mut row = Vec::with_capacity(alloc, 1)?;
    row.push(value.try_copy(alloc)?)?;
    let mut rows = Vec::with_capacity(alloc, 1)?;
    rows.push(Listed::of(row))?;
    Ok(Listed::of(rows))
}

/// Each key with its value, in order.
pub(crate) fn all_rows(alloc: Global, table: &Table) -> Result<Listed<Listed<Text>>, NoMemory>
    ensures rows { IfOk result (λ rows. rows ≡ map row_of_entry (table_of table.now)) }
    ensures ascend { OnOk result (KeysAscend (table_of table.now)) }
{
    let mut rows = Vec::with_capacity(alloc, table.len())?;
    for (key, value) in table.iter() {
        rows.push(pair_row(alloc, key, value)?)?;
    }
    Ok(Listed::of(rows))
}

/// A key and its value.
fn pair_row(alloc: Global, key: &[u8], value: &Text) -> Result<Listed<Text>, NoMemory>
    ensures { IfOk result (λ row. row ≡ row_of_entry (key.now, value.now)) }
{
    let mut row = Vec::with_capacity(alloc, 2)?;
    row.push(Text::from_bytes(alloc, key)?)?;
    row.push(value.try_copy(alloc)?)?;
    Ok(Listed::of(row))
}
