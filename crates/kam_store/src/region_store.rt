ghost use Rattle.std.specs.Prelude.{◌≡◌, ℕ, ◌+◌, ◌-◌, ◌*◌, ◌^◌, ◌<◌, ◌≤◌, ◌↔◌, None, length, take, slice_get, IfOk, OnOk, OnErr, IsErr};
ghost use Rattle.std.specs.Result.{IsErrOf, result_ok};
ghost use Rattle.kam_store.specs.Store.{StoreState, AreSerials, serials_of, length_at, words_at, word_at, with_region, with_word, with_live};
ghost use Rattle.kam_store.specs.Writing.{Writes, LacksPage, LacksMemory};

/// Why a region or a write was refused.
#[derive(Clone, Copy, Debug, PartialEq, Eq)]
pub enum StoreRefusal {
    /// No page was to be had.
    NoPage,
    /// The region isn't live.
    Dead,
    /// Memory is wanting.
    NoMemory,
}

/// The region isn't live, or the field isn't written.
#[derive(Clone, Copy, Debug, PartialEq, Eq)]
pub struct Dead;

/// Regions that end in the reverse order of their making, each a list of words that grows.
/// A pointer is a region's serial times 2^32 and a place in the region.
pub trait RegionStore {
    /// What tells where the pages come from.
    type Mark;

    /// All that a store means.
    ghost store: { Self → StoreState Self.Mark };

    /// Makes a region above the live ones, and answers its serial.
    fn region_new(&mut self) -> Result<u64, StoreRefusal>
        requires { (store self.old).made + 1 < 2 ^ 32 }
        ensures serial { IfOk result (λ serial. serial ≡ (store self.old).made + 1) }
        ensures made { OnOk result (store self.new ≡ with_region (store self.old)) }
        ensures memory { OnErr result (IsErrOf result StoreRefusal.NoMemory) }
        ensures err { OnErr result (store self.new ≡ store self.old) };

    /// Ends the highest region.
    fn close_top(&mut self)
        requires { 0 < length (store self.old).live }
        ensures { store self.new ≡ with_live (store self.old) (take (length (store self.old).live - 1) (store self.old).live) };

    /// Ends all regions but so many lowest ones.
    fn close_to(&mut self, height: u64)
        requires { height ≤ length (store self.old).live }
        ensures { store self.new ≡ with_live (store self.old) (take height (store self.old).live) };

    /// Appends words to a live region, and answers the pointer to the first of them.
    fn alloc_words(&mut self, serial: u64, words: &[u64]) -> Result<u64, StoreRefusal>
        requires { length_at serial (store self.old).live + length words.now < 2 ^ 32 }
        ensures written { IfOk result (λ pointer. Writes (store self.old) serial words.now pointer (store self.new)) }

        // `Dead` comes exactly where no region with the serial is live.
        ensures dead { IsErrOf result StoreRefusal.Dead ↔ (words_at serial (store self.old).live ≡ None) }
        ensures unchanged { IsErrOf result StoreRefusal.Dead → store self.new ≡ store self.old }

        ensures no_page { IsErrOf result StoreRefusal.NoPage → LacksPage (store self.old) serial words.now (store self.new) }
        ensures no_memory { IsErrOf result StoreRefusal.NoMemory → LacksMemory (store self.old) serial words.now (store self.new) };

    /// The word that lies so many words behind a pointer.
    fn get(&self, pointer: u64, field: u64) -> Result<u64, Dead>
        ensures { result_ok result ≡ word_at (store self.now) pointer field };

    /// Writes over that word.
    fn set(&mut self, pointer: u64, field: u64, word: u64) -> Result<(), Dead>
        ensures dead { IsErr result ↔ (word_at (store self.old) pointer field ≡ None) }
        ensures written { OnOk result (store self.new ≡ with_word (store self.old) pointer field word) }
        ensures err { OnErr result (store self.new ≡ store self.old) };

    /// How often no page was to be had.
    fn dries(&self) -> u64
        ensures { result ≡ (store self.now).dries };

    /// How many regions are live.
    fn height(&self) -> u64
        ensures height { result ≡ length (store self.now).live }
        ensures serials { AreSerials (store self.now) };

    /// The serial of the highest region.
    fn top(&self) -> Option<u64>
        ensures { result ≡ slice_get (serials_of (store self.now).live) (length (store self.now).live - 1) };
}
