use cache_rows::{RowStore, Rows};
use sml_syntax::Text;
use std::io;
use std::time::Instant;
use web_data::Kind;

// The bytes of a row: its key and its value have eight each.
const ROW: u64 = 16;

/// A hundred rows, ten of which are pushed out.
pub fn small(rt: &HostRuntime) -> io::Result<()> {
    let mut rows = make(rt, 100)?;
    let fresh = put_all(rt, &mut rows, 0, 100)?;
    let found = look_all(rt, &mut rows, 0, 100)?;
    let pushed = put_all(rt, &mut rows, 100, 110)?;
    let left = look_all(rt, &mut rows, 0, 110)?;
    println!(rt; "cache_rows: {fresh} rows put, {found} found, {pushed} more put, {left} left")
}

/// So many rows, with the time of an insert, of a lookup and of an insert that pushes a row out.
pub fn timed(rt: &HostRuntime, count: u32) -> io::Result<()> {
    let count = count.max(1) as u64;
    let more = 1000.min(count);
    let mut rows = make(rt, count)?;
    let start = Instant::now(rt)?;
    let fresh = put_all(rt, &mut rows, 0, count)?;
    let puts = start.elapsed(rt)?.as_micros();
    let start = Instant::now(rt)?;
    let found = look_all(rt, &mut rows, 0, count)?;
    let looks = start.elapsed(rt)?.as_micros();
    let start = Instant::now(rt)?;
    let pushed = put_all(rt, &mut rows, count, count.saturating_add(more))?;
    let pushes = start.elapsed(rt)?.as_micros();
    println!(rt;
        "cache_rows: {fresh} rows put in {puts} us, {found} found in {looks} us, {pushed} more in {pushes} us"
    )
}

fn make(rt: &HostRuntime, count: u64) -> io::Result<Rows> {
    let kind = Kind {
        used: true,
        time: None,
        size: Some(ROW.saturating_mul(count)),
    };
    let Ok(rows) = Rows::make(rt.alloc(), kind) else {
        return Err(io::Error::from(io::ErrorKind::OutOfMemory));
    };
    Ok(rows)
}

// Puts a row under each number, and counts those whose key had none.
fn put_all(rt: &HostRuntime, rows: &mut Rows, from: u64, to: u64) -> io::Result<u64> {
    let mut fresh: u64 = 0;
    for number in from..to {
        let key = text(rt, number)?;
        let now = rows.last();
        match rows.put(now, &key, &key) {
            Ok(true) => fresh = fresh.saturating_add(1),
            Ok(false) => {}
            Err(_) => return Err(io::Error::from(io::ErrorKind::OutOfMemory)),
        }
    }
    Ok(fresh)
}

// Looks each number up, a second later each time, and counts those that are found.
fn look_all(rt: &HostRuntime, rows: &mut Rows, from: u64, to: u64) -> io::Result<u64> {
    let mut found: u64 = 0;
    for number in from..to {
        let key = text(rt, number)?;
        let now = rows.last().saturating_add(1);
        match rows.look(now, &key) {
            Ok(Some(_)) => found = found.saturating_add(1),
            Ok(None) => {}
            Err(_) => return Err(io::Error::from(io::ErrorKind::OutOfMemory)),
        }
    }
    Ok(found)
}

fn text(rt: &HostRuntime, number: u64) -> io::Result<Text> {
    let bytes = number.to_le_bytes();
    let Ok(text) = Text::from_bytes(rt.alloc(), bytes.as_slice()) else {
        return Err(io::Error::from(io::ErrorKind::OutOfMemory));
    };
    Ok(text)
}
