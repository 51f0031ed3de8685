// A book for one worker: the calls of a request, readings that fall, a fault and a spare.
ghost use Rattle.std.specs.Prelude.{◌≡◌, ◌<◌, length, true, None};
ghost use Rattle.web_data.specs.CacheCalls.{cache_call_fits};
ghost use Rattle.history_core.specs.Calling.{IsRunning};

use crate::copied::text;
use db_keeper::{Keeper, MapKeeper};
use db_pool::{Handle, Handled};
use history_core::{Calls, LoneBook};
use std::process::Abort;
use std::test::Fail;
use web_data::{CacheAns, CacheCall, CacheId, CacheOp, Datum, DbAns, DbCmd, Desc, Kind};

// A call on a cache from integers to integers, whose rows stay ten seconds.
fn call(rt: &(impl Abort + AllocGlobal), value: Option<i64>) -> CacheCall
    ensures { cache_call_fits result ≡ true }
{
    let id = CacheId {
        name: text(rt, "sq"),
        key: Desc::Int,
        value: Desc::Int,
        kind: Kind {
            used: false,
            time: Some(10),
            size: None,
        },
    };
    let op = match value {
        None => CacheOp::Look(Datum::Int(7)),
        Some(value) => CacheOp::Put(Datum::Int(7), Datum::Int(value)),
    };
    CacheCall { id, op }
}

fn answers<B: Calls>(
    rt: &(impl Abort + AllocGlobal),
    book: &mut B,
    reading: u64,
    value: Option<i64>,
    want: &CacheAns,
) -> Result<(), Fail>
    requires { IsRunning (B.meaning book.old) }
    ensures { B.meaning book.new ≡ B.meaning book.old }
{
    let given = book.cache(reading, &call(rt, value))?;
    assert!(rt; given == *want, "{reading}");
    Ok(())
}

// A square is looked up, kept and found again, also where the clock fell behind.
fn memoises<B: Calls>(rt: &(impl Abort + AllocGlobal), book: &mut B) -> Result<(), Fail>
    requires { IsRunning (B.meaning book.old) }
{
    answers(rt, book, 100, None, &CacheAns::Absent)?;
    answers(rt, book, 100, Some(49), &CacheAns::Fresh(true))?;
    answers(rt, book, 90, None, &CacheAns::Found(Datum::Int(49)))
}

// The keeper fails at its second call, and the spare has no tables.
fn creates<B: Calls>(rt: &(impl Abort + AllocGlobal), book: &mut B) -> Result<(), Fail>
    requires running { IsRunning (B.meaning book.old) }
    requires there { 0 < length (B.meaning book.old).names }
{
    let create = DbCmd::Create(text(rt, "t"));
    assert_eq!(rt; book.db(0, &create)?, DbAns::Done);
    assert_eq!(rt; book.db(0, &create)?, DbAns::Fault(1));
    assert_eq!(rt; book.db(0, &create)?, DbAns::Done);
    book.end();
    Ok(())
}

fn lone_book<H: Handled>(rt: &(impl Abort + AllocGlobal), handles: Vec<H>) -> Result<(), Fail>
    requires { 0 < length handles.items }
{
    let mut book = LoneBook::make(rt.alloc(), handles)?;
    assert_eq!(rt; book.begin(), 0);
    creates(rt, &mut book)?;
    assert_eq!(rt; book.calls(), 3);
    assert_eq!(rt; book.requests(), 1);
    Ok(())
}

fn lone_caches<H: Handled>(rt: &(impl Abort + AllocGlobal), handles: Vec<H>) -> Result<(), Fail> {
    let mut book = LoneBook::make(rt.alloc(), handles)?;
    book.begin();
    memoises(rt, &mut book)
}

#[test]
fn books_make_calls(rt: HostRuntime) -> Result<(), Fail> {
    let alloc = rt.alloc();
    let mut keepers: Vec<Box<dyn Keeper + Send>> = Vec::new(alloc);
    keepers.push(Box::new(alloc, MapKeeper::make(alloc, &[1])?)?)?;
    keepers.push(Box::new(alloc, MapKeeper::make(alloc, &[])?)?)?;
    let mut handles: Vec<Handle> = Vec::new(alloc);
    handles.push(Handle::make(alloc, text(&rt, "book"), keepers)?)?;
    lone_book(&rt, handles)?;
    let none: Vec<Handle> = Vec::new(alloc);
    lone_caches(&rt, none)
}
