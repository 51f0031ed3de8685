// Rows of a file as rows of an answer.
ghost use Rattle.std.specs.Prelude.{◌≡◌, ◌⊎◌, IfOk, IfSome, OnOk, IsTrue, List, ℕ, [], ◌∷◌, ◌++◌, map};
ghost use Rattle.std.specs.Cmp.Lexicographic.{slice_cmp};
ghost use Rattle.std.specs.Ordering.{nat_cmp};
ghost use Rattle.std.specs.declared.cmp.Ordering.TheVariants.{Less};
ghost use Rattle.web_data.specs.DatabaseAnswers.{KeysAscend, row_of_entry};

use db_keeper::KeeperFault;
use sml_syntax::{Listed, NoMemory, Text};
use sqlite::Row;
use sqlite::types::ValueRef;
use std::alloc::Global;

/// The one row of a value, if there is one. More rows, and a value that is no text, are a fault.
pub(crate) fn value_row(alloc: Global, found: &[Row]) -> Result<Listed<Listed<Text>>, KeeperFault>
    ensures { IfOk result (λ rows. (rows ≡ []) ⊎ ((value : List ℕ) × (rows ≡ (value ∷ []) ∷ []))) }
{
    match found {
        [] => Ok(Listed::of(Vec::new(alloc))),
        [row] => Ok(one_row(alloc, text_at(row, 0)?)?),
        _ => Err(KeeperFault::Failed),
    }
}

fn one_row(alloc: Global, value: &[u8]) -> Result<Listed<Listed<Text>>, NoMemory>
    ensures { IfOk result (λ rows. rows ≡ (value.now ∷ []) ∷ []) }
{
    let mut row = Vec::with_capacity(alloc, 1)?;
    row.push(Text::from_bytes(alloc, value)?)?;
    let mut rows = Vec::with_capacity(alloc, 1)?;
    rows.push(Listed::of(row))?;
    Ok(Listed::of(rows))
}

/// Each key with its value. Keys that don't ascend, and what is no text, are a fault.
pub(crate) fn all_rows(alloc: Global, found: &[Row]) -> Result<Listed<Listed<Text>>, KeeperFault>
    ensures { IfOk result (λ rows. (entries : List (List ℕ × List ℕ)) × KeysAscend entries × (rows ≡ map row_of_entry entries)) }
{
    let mut rows = Vec::new(alloc);
    let mut last = None;
    for row in found {
        let key = text_at(row, 0)?;
        if !is_behind(last, key) {
            return Err(KeeperFault::Failed);
        }
        push_row(alloc, &mut rows, key, text_at(row, 1)?)?;
        last = Some(key);
    }
    Ok(Listed::of(rows))
}

fn is_behind(last: Option<&[u8]>, key: &[u8]) -> bool
    ensures { IsTrue result → IfSome last.entry (λ before. slice_cmp nat_cmp before.now key.now ≡ Less) }
{
    match last {
        Some(before) => before.cmp(key).is_lt(),
        None => true,
    }
}

fn push_row(
    alloc: Global,
    rows: &mut Vec<Listed<Text>>,
    key: &[u8],
    value: &[u8],
) -> Result<(), NoMemory>
    ensures { OnOk result (rows.new.items ≡ rows.old.items ++ row_of_entry (key.now, value.now) ∷ []) }
{
    let mut row = Vec::with_capacity(alloc, 2)?;
    row.push(Text::from_bytes(alloc, key)?)?;
    row.push(Text::from_bytes(alloc, value)?)?;
    rows.push(Listed::of(row))?;
    Ok(())
}

fn text_at<'a>(row: &'a Row, at: usize) -> Result<&'a [u8], KeeperFault> {
    match row.get_ref(at) {
        Ok(ValueRef::Text(text)) => Ok(text),
        _ => Err(KeeperFault::Failed),
    }
}
