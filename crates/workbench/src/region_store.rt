ghost use Rattle.std.specs.Prelude.{◌≡◌, ◌+◌, ◌*◌, ◌^◌, ◌<◌, ◌≤◌, []};
ghost use Rattle.kam_store.specs.Store.{words_in};

use kam_store::{PageStore, RegionStore};
use page_pool::LonePool;
use std::io;
use std::time::Instant;

// The most pairs that a load may have.
const MOST: u32 = 100000000;

/// A thousand pairs, whose sum is printed.
pub fn small(rt: &HostRuntime) -> io::Result<()> {
    let sum = load(rt, 1000)?;
    println!(rt; "region_store: 1000 pairs, sum {sum}")
}

/// So many pairs, with the time that they took.
pub fn timed(rt: &HostRuntime, pairs: u32) -> io::Result<()> {
    let start = Instant::now(rt)?;
    let sum = load(rt, pairs.min(MOST))?;
    let micros = start.elapsed(rt)?.as_micros();
    println!(rt; "region_store: {pairs} pairs, sum {sum}, {micros} us")
}

// Pairs of words through a store of 64 pages, and the sum of those read back.
fn load(rt: &HostRuntime, pairs: u32) -> io::Result<u64>
    requires { pairs ≤ 100000000 }
{
    let Ok(pool) = LonePool::make(rt.alloc(), 64) else {
        return Err(io::Error::from(io::ErrorKind::OutOfMemory));
    };
    let Ok(mut store) = PageStore::make(rt.alloc(), pool) else {
        return Err(io::Error::from(io::ErrorKind::OutOfMemory));
    };
    Ok(sum_of(&mut store, pairs))
}

// Each pair is written to the highest region and read back; each hundred is a region.
#[inline(never)]
fn sum_of<S: RegionStore>(store: &mut S, pairs: u32) -> u64
    requires few { pairs ≤ 100000000 }
    requires made { (S.store store.old).made ≡ 0 }
    requires live { (S.store store.old).live ≡ [] }
{
    let mut sum: u64 = 0;
    let mut serial: u64 = 0;
    for index in 0..pairs {
        if index % 100 == 0 {
            serial = next_region(store);
        }
        sum = sum.wrapping_add(pair(store, serial, index as u64));
    }
    sum
}

// Ends the highest region and makes another.
fn next_region<S: RegionStore>(store: &mut S) -> u64
    requires { (S.store store.old).made + 1 < 2 ^ 32 }
    ensures made { (S.store store.new).made ≤ (S.store store.old).made + 1 }
    ensures words { words_in (S.store store.new).live ≤ words_in (S.store store.old).live }
{
    close_highest(store);
    store.region_new().unwrap_or(0)
}

fn close_highest<S: RegionStore>(store: &mut S)
    ensures made { (S.store store.new).made ≡ (S.store store.old).made }
    ensures words { words_in (S.store store.new).live ≤ words_in (S.store store.old).live }
{
    if store.height() > 0 {
        store.close_top();
    }
}

// Writes a pair and reads its first word back.
#[inline]
fn pair<S: RegionStore>(store: &mut S, serial: u64, word: u64) -> u64
    requires { words_in (S.store store.old).live + 2 < 2 ^ 32 }
    ensures made { (S.store store.new).made ≡ (S.store store.old).made }
    ensures words { words_in (S.store store.new).live ≤ words_in (S.store store.old).live + 2 }
{
    match store.alloc_words(serial, &[word, 7]) {
        Ok(pointer) => store.get(pointer, 0).unwrap_or(0),
        Err(_) => 0,
    }
}
