// What keeps the rows of a cache.
ghost use Rattle.std.specs.Prelude.{◌≡◌, ◌≤◌, IfOk, OnErr, Option};
ghost use Rattle.std.specs.Option.{option_map};
ghost use Rattle.cache_rows.specs.RowMachine.{CacheRows, LookStep, PutStep, flushed};

use sml_syntax::{NoMemory, Text};

/// Keeps the rows of one cache.
pub trait RowStore {
    /// The cache's kind, its rows in the order of birth, and its last moment.
    ghost state: { Self → CacheRows };

    /// The value of the key's row, if there is one.
    fn look(&mut self, now: u64, key: &Text) -> Result<Option<Text>, NoMemory>
        requires { (state self.old).last ≤ now }
        ensures ok { IfOk result (λ answer. LookStep (state self.old) now key.now answer (state self.new)) }
        ensures err { OnErr result (state self.new ≡ state self.old) };

    /// Puts a row in, and answers whether the key had none.
    fn put(&mut self, now: u64, key: &Text, value: &Text) -> Result<bool, NoMemory>
        requires { (state self.old).last ≤ now }
        ensures ok { IfOk result (λ fresh. PutStep (state self.old) now key.now value.now fresh (state self.new)) }
        ensures err { OnErr result (state self.new ≡ state self.old) };

    /// Drops all rows. The last moment stays.
    fn flush(&mut self)
        ensures { state self.new ≡ flushed (state self.old) };

    /// The last moment.
    fn last(&self) -> u64
        ensures { result ≡ (state self.now).last };
}
