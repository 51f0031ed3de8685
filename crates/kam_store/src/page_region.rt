ghost use Rattle.std.specs.Prelude.{◌≡◌, ◌+◌, ◌*◌, ◌/◌, ◌^◌, ◌<◌, vec_len};

use crate::StoreRefusal;
use crate::paging::{PAGE_WORDS, make_room, put_word, shrink, write};
use page_pool::{NoMemory, Page, Pages};
use std::alloc::Global;

/// One region's words, the first `used` of those in its pages; no page is without a used word.
#[derive(Drop)]
pub(crate) struct PageRegion {
    used: usize,
    pages: Vec<Page>,
    ghost tight: { vec_len pages ≡ (used + 127) / 128 },
}

impl PageRegion {
    ghost use Rattle.std.specs.Prelude.{ℕ, ◌≤◌, [], ◌++◌, length, slice_get, slice_set, Some, OnOk, OnErr};
    ghost use Rattle.std.specs.Result.{IsErrOf};
    ghost use Rattle.kam_store.specs.Moves.{MovesPages, PeakWithin, IsUnmet, MeetsNone, AreOut};
    ghost use Rattle.kam_store.specs.Paging.{content_of, numbers_of, more_pages, KeepsRegions};

    pub(crate) fn make(pages: Vec<Page>) -> PageRegion
        requires { pages.items ≡ [] }
        ensures content { content_of result ≡ [] }
        ensures numbers { numbers_of result ≡ [] }
    {
        PageRegion { used: 0, pages }
    }

    /// How many words it has.
    #[inline]
    pub(crate) fn used(&self) -> usize
        ensures { result ≡ length (content_of self.now) }
    {
        self.used
    }

    /// How many pages it has.
    #[inline]
    pub(crate) fn pages(&self) -> usize
        ensures { result ≡ length (numbers_of self.now) }
    {
        self.pages.len()
    }

    #[inline]
    pub(crate) fn word(&self, at: usize) -> u64
        requires { at < length (content_of self.now) }
        ensures { slice_get (content_of self.now) at ≡ Some result }
    {
        self.pages[at / PAGE_WORDS].word(at % PAGE_WORDS)
    }

    #[inline]
    pub(crate) fn put(&mut self, at: usize, word: u64)
        requires { at < length (content_of self.old) }
        ensures content { content_of self.new ≡ slice_set (content_of self.old) at word }
        ensures numbers { numbers_of self.new ≡ numbers_of self.old }
    {
        put_word(self.pages.as_mut_slice(), at, word);
    }

    /// Adds words at the end, in pages that are taken as needed.
    #[inline]
    pub(crate) fn append<P: Pages>(
        &mut self,
        pool: &mut P,
        words: &[u64],
    ) -> Result<(), StoreRefusal>
        requires { length (content_of self.old) + length words.now < 2 ^ 32 }
        ensures ok { OnOk result (content_of self.new ≡ content_of self.old ++ words.now) }
        ensures err { OnErr result ((content_of self.new ≡ content_of self.old) × (numbers_of self.new ≡ numbers_of self.old)) }
        ensures moved { MovesPages (P.holding pool.old) (numbers_of self.old) (P.holding pool.new) (numbers_of self.new) }
        ensures peak { PeakWithin (P.holding pool.old) (more_pages self.old words.now) (P.holding pool.new) }
        ensures met { IsErrOf result StoreRefusal.NoPage → MeetsNone (P.holding pool.old) (more_pages self.old words.now) (P.holding pool.new) }
        ensures unmet { (IsErrOf result StoreRefusal.NoPage → ⊥) → IsUnmet (P.holding pool.old) (P.holding pool.new) }
        ensures alive { IsErrOf result StoreRefusal.Dead → ⊥ }
    {
        let start = self.used;
        let end = start + words.len();
        let wanted = (end + 127) / PAGE_WORDS;
        make_room(&mut self.pages, pool, wanted)?;
        write(self.pages.as_mut_slice(), start, words);
        self.used = end;
        Ok(())
    }

    /// Room for one region more, without words, above the live ones.
    pub(crate) fn make_room(
        alloc: Global,
        regions: &mut Vec<PageRegion>,
        live: usize,
    ) -> Result<(), NoMemory>
        requires { live ≤ vec_len regions.old }
        ensures kept { KeepsRegions regions.old.items regions.new.items }
        ensures ok { OnOk result (live < vec_len regions.new) }
    {
        if live < regions.len() {
            return Ok(());
        }
        let region = PageRegion::make(Vec::new(alloc));
        regions.push(region)?;
        Ok(())
    }

    /// Gives all pages back.
    #[inline]
    pub(crate) fn clear<P: Pages>(&mut self, pool: &mut P)
        requires { AreOut (P.holding pool.old) (numbers_of self.old) }
        ensures content { content_of self.new ≡ [] }
        ensures numbers { numbers_of self.new ≡ [] }
        ensures moved { MovesPages (P.holding pool.old) (numbers_of self.old) (P.holding pool.new) [] }
        ensures unmet { IsUnmet (P.holding pool.old) (P.holding pool.new) }
        ensures peak { (P.holding pool.new).peak ≡ (P.holding pool.old).peak }
    {
        shrink(&mut self.pages, pool, 0);
        self.used = 0;
    }
}
