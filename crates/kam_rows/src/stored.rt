// The calls on a store, with what they leave of words and regions.
ghost use Rattle.std.specs.Prelude.{◌≡◌, ◌+◌, ◌≤◌, ◌<◌, ◌^◌, length, OnErr};
ghost use Rattle.kam_store.specs.Store.{words_in};

use kam_store::{Dead, RegionStore, StoreRefusal};

/// Words at the end of a region.
#[inline]
pub fn append<R: RegionStore>(
    store: &mut R,
    serial: u64,
    words: &[u64],
) -> Result<u64, StoreRefusal>
    requires { words_in (R.store store.old).live + length words.now < 2 ^ 32 }
    ensures made { (R.store store.new).made ≤ (R.store store.old).made }
    ensures words { words_in (R.store store.new).live ≤ words_in (R.store store.old).live + length words.now }
    ensures kept { OnErr result (words_in (R.store store.new).live ≤ words_in (R.store store.old).live) }
{
    store.alloc_words(serial, words)
}

/// A new region.
#[inline]
pub fn open<R: RegionStore>(store: &mut R) -> Result<u64, StoreRefusal>
    requires { (R.store store.old).made + 1 < 2 ^ 32 }
    ensures made { (R.store store.new).made ≤ (R.store store.old).made + 1 }
    ensures words { words_in (R.store store.new).live ≤ words_in (R.store store.old).live }
    ensures kept { OnErr result ((R.store store.new).made ≤ (R.store store.old).made) }
{
    store.region_new()
}

/// The newest region ends, if it is the one with this serial.
#[inline]
pub fn close<R: RegionStore>(store: &mut R, serial: u64) -> bool
    ensures made { (R.store store.new).made ≤ (R.store store.old).made }
    ensures words { words_in (R.store store.new).live ≤ words_in (R.store store.old).live }
{
    let Some(newest) = store.top() else {
        return false;
    };
    if newest != serial {
        return false;
    }
    store.close_top();
    true
}

/// All but so many lowest regions end.
pub fn close_down<R: RegionStore>(store: &mut R, height: u64)
    ensures made { (R.store store.new).made ≤ (R.store store.old).made }
    ensures words { words_in (R.store store.new).live ≤ words_in (R.store store.old).live }
{
    if height < store.height() {
        store.close_to(height);
    }
}

/// Another word behind a pointer.
#[inline]
pub fn put_field<R: RegionStore>(
    store: &mut R,
    pointer: u64,
    field: u64,
    word: u64,
) -> Result<(), Dead>
    ensures made { (R.store store.new).made ≤ (R.store store.old).made }
    ensures words { words_in (R.store store.new).live ≤ words_in (R.store store.old).live }
{
    store.set(pointer, field, word)
}
