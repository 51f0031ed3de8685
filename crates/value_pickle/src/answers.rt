// Which answers a waiting script goes on with.
ghost use Rattle.std.specs.Prelude.{◌≡◌, true};
ghost use Rattle.web_data.specs.CacheCalls.{cache_answer_fits};
ghost use Rattle.web_data.specs.DatabaseAnswers.{FitsCommand};
ghost use Rattle.std.specs.Ordering.{nat_cmp, is_lt};
ghost use Rattle.std.specs.Cmp.Lexicographic.{slice_cmp};
ghost use Rattle.value_pickle.specs.Answers as answers;
ghost use Rattle.value_pickle.specs.Answers.{FitsCall, IsValue};

use crate::fits;
use sml_syntax::{Listed, Text};
use std::cmp::Ordering;
use web_data::{CacheAns, CacheCall, CacheOp, DbAns, DbCmd, WebAns, WebCall};

/// Whether an answer fits a call, so that a script that waits at the call goes on with it. Takes no memory.
pub fn answer_fits(call: &WebCall, answer: &WebAns) -> bool
    ensures fits { result ≡ true → FitsCall call.now answer.now }
    ensures fits_where { FitsCall call.now answer.now → result ≡ true }
{
    match (call, answer) {
        (WebCall::Cache(_), WebAns::Cache(CacheAns::Full)) => false,
        (WebCall::Cache(call), WebAns::Cache(answer)) => cache_answer_fits(call, answer),
        (WebCall::Db(_, command), WebAns::Db(answer)) => db_answer_fits(command, answer),
        _ => false,
    }
}

fn cache_answer_fits(call: &CacheCall, answer: &CacheAns) -> bool
    ensures { result ≡ cache_answer_fits call.now answer.now }
{
    match (&call.op, answer) {
        (CacheOp::Look(_), CacheAns::Found(value)) => fits(&call.id.value, value),
        (CacheOp::Look(_), CacheAns::Absent) => true,
        (CacheOp::Put(_, _), CacheAns::Fresh(_)) => true,
        (CacheOp::Put(_, _), CacheAns::Full) => true,
        (CacheOp::Flush, CacheAns::Flushed) => true,
        _ => false,
    }
}

fn db_answer_fits(command: &DbCmd, answer: &DbAns) -> bool
    ensures fits { result ≡ true → FitsCommand command.now answer.now }
    ensures fits_where { FitsCommand command.now answer.now → result ≡ true }
{
    match (command, answer) {
        (DbCmd::Create(_), DbAns::Done | DbAns::TableStands) => true,
        (DbCmd::Insert(_, _, _), DbAns::Done | DbAns::NoTable | DbAns::KeyStands) => true,
        (DbCmd::Delete(_, _), DbAns::Done | DbAns::NoTable) => true,
        (DbCmd::One(_, _) | DbCmd::All(_), DbAns::NoTable) => true,
        (DbCmd::One(_, _), DbAns::Rows(rows)) => is_value(rows.as_slice()),
        (DbCmd::All(_), DbAns::Rows(rows)) => are_entries(rows.as_slice()),
        _ => false,
    }
}

/// No row, or one that is one text.
fn is_value(rows: &[Listed<Text>]) -> bool
    ensures fits { result ≡ true → IsValue rows.now }
    ensures fits_where { IsValue rows.now → result ≡ true }
{
    match rows {
        [] => true,
        [row] => row.as_slice().len() == 1,
        _ => false,
    }
}

/// Rows of a key and a value, whose keys ascend.
fn are_entries(rows: &[Listed<Text>]) -> bool
    ensures { result ≡ answers.are_entries rows.now }
{
    let mut rest = rows;
    while let [row, more @ ..] = rest {
        if row.as_slice().len() != 2 {
            return false;
        }
        if !precedes(row.as_slice(), more) {
            return false;
        }
        rest = more;
    }
    true
}

/// Whether the first text of a row is below that of the next.
fn precedes(row: &[Text], rows: &[Listed<Text>]) -> bool
    ensures { result ≡ answers.precedes row.now rows.now }
{
    let [key, ..] = row else {
        return true;
    };
    let [next, ..] = rows else {
        return true;
    };
    match next.as_slice() {
        [other, ..] => is_below(key, other),
        [] => true,
    }
}

/// Whether a text is below another, by their bytes.
fn is_below(a: &Text, b: &Text) -> bool
    ensures { result ≡ is_lt (slice_cmp nat_cmp a.now b.now) }
{
    a.as_bytes().cmp(b.as_bytes()) == Ordering::Less
}
