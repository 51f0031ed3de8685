// A row, and the calls on rows with their answers.
ghost use Rattle.std.specs.Prelude.{◌≡◌};
ghost use Rattle.cache_rows.specs.RowMachine.{stays};

use sml_syntax::Text;

/// A row of a cache. The stamp is the moment of its insert, or of its last use.
#[derive(Debug, Drop)]
pub struct Row<K, V> {
    pub key: K,
    pub value: V,
    pub stamp: u64,
}

/// A call on the rows of a cache. The number is its moment.
#[derive(Debug, PartialEq, Eq, Drop)]
pub enum RowCall {
    /// The key.
    Look(u64, Text),
    /// The key and the value.
    Put(u64, Text, Text),
    Flush(u64),
}

#[derive(Debug, PartialEq, Eq, Drop)]
pub enum RowAns {
    Found(Option<Text>),
    /// Whether the key had no row.
    Fresh(bool),
    Flushed,
}

/// Whether a row with this stamp stays at a moment, by the cache's time.
pub(crate) fn stays(time: Option<u64>, now: u64, stamp: u64) -> bool
    ensures { result ≡ stays time now stamp }
{
    match time {
        Some(time) => now.saturating_sub(stamp) < time,
        None => true,
    }
}
