// A list of calls, one after another.
ghost use Rattle.std.specs.Prelude.{◌≡◌, ◌≤◌, ◌↔◌, ℕ, List, take, IfOk, OnErr, IsTrue};
ghost use Rattle.cache_rows.specs.RowMachine.{RowRun, RowStep, MomentsRise, moment_of};
ghost use Rattle.cache_rows.specs.declared.row.RowAns.{RowAns as Answer};

use crate::row::{RowAns, RowCall};
use crate::row_store::RowStore;
use sml_syntax::NoMemory;
use std::alloc::Global;

/// Makes the calls in turn. After want of memory the rows are those after some first calls.
pub fn run_rows<R: RowStore>(
    alloc: Global,
    rows: &mut R,
    calls: &[RowCall],
) -> Result<Vec<RowAns>, NoMemory>
    requires { MomentsRise (R.state rows.old).last calls.now }
    ensures ok { IfOk result (λ answers. RowRun (R.state rows.old) calls.now answers.items (R.state rows.new)) }
    ensures err { OnErr result ((n : ℕ) × (answers : List Answer) × RowRun (R.state rows.old) (take n calls.now) answers (R.state rows.new)) }
{
    let mut answers = Vec::with_capacity(alloc, calls.len())?;
    for call in calls {
        let answer = run_call(rows, call)?;
        answers.push(answer)?;
    }
    Ok(answers)
}

fn run_call<R: RowStore>(rows: &mut R, call: &RowCall) -> Result<RowAns, NoMemory>
    requires { (R.state rows.old).last ≤ moment_of call.now }
    ensures ok { IfOk result (λ answer. RowStep (R.state rows.old) call.now answer (R.state rows.new)) }
    ensures err { OnErr result (R.state rows.new ≡ R.state rows.old) }
{
    match call {
        RowCall::Look(now, key) => Ok(RowAns::Found(rows.look(*now, key)?)),
        RowCall::Put(now, key, value) => Ok(RowAns::Fresh(rows.put(*now, key, value)?)),
        RowCall::Flush(_) => {
            rows.flush();
            Ok(RowAns::Flushed)
        }
    }
}

/// Whether the moments of the calls don't fall and none is below `last`.
pub fn moments_rise(last: u64, calls: &[RowCall]) -> bool
    ensures { IsTrue result ↔ MomentsRise last calls.now }
{
    let mut last = last;
    for call in calls {
        let now = moment_of(call);
        if now < last {
            return false;
        }
        last = now;
    }
    true
}

fn moment_of(call: &RowCall) -> u64
    ensures { result ≡ moment_of call.now }
{
    match call {
        RowCall::Look(now, _) => *now,
        RowCall::Put(now, _, _) => *now,
        RowCall::Flush(now) => *now,
    }
}
