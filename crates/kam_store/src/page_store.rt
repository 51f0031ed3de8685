ghost use Rattle.std.specs.Prelude.{◌≡◌, length, IfOk, IfErr};
ghost use Rattle.kam_store.specs.Store.{pages_of, load_of};
ghost use Rattle.kam_store.specs.Paged.{paged_state, IsStarted, IsFinished};

use crate::page_region::PageRegion;
use crate::serials::Serials;
use crate::{Back, Dead, RegionStore, StoreRefusal};
use page_pool::Pages;
use std::alloc::Global;
use std::marker::Model;

/// Regions in pages of 128 words. A region has no page more than its words need, and no word of
/// a page's earlier owner is ever answered.
#[derive(Drop)]
pub struct PageStore<P: Pages> {
    alloc: Global,
    serials: Serials,
    // The live regions and, above them, regions without words that are kept for the next ones.
    regions: Vec<PageRegion>,
    held: u64,
    pages: P,
}

impl<P: Pages> Model for PageStore<P> {
    ghost use Rattle.kam_store.specs.Paged.{Paged, paged_code};

    ghost Value = { Paged P };

    ghost coded = { paged_code P.code };

    ghost use Rattle.kam_store.specs.Plain.{live_of};
    ghost use Rattle.kam_store.specs.PagedKept.{contents, IsPaged};

    ghost view = { λ s. record { made = s.serials.made; live = live_of s.serials.live (contents s.regions.items); pages = s.pages } };

    ghost invariant = { λ s. IsPaged s.serials s.regions.items s.held (P.holding s.pages) };
}

impl<P: Pages> PageStore<P> {
    /// A store with no region, which takes its pages from `pages`.
    pub fn make(alloc: Global, pages: P) -> Result<PageStore<P>, Back<P>>
        ensures made { IfOk result (λ s. IsStarted s pages) }
        ensures back { IfErr result (λ b. b.given ≡ pages) }
    {
        let Ok(serials) = Serials::make(alloc) else {
            return Err(Back { given: pages });
        };
        Ok(PageStore {
            alloc,
            serials,
            regions: Vec::new(alloc),
            held: 0,
            pages,
        })
    }

    /// How many pages it holds. All pages that are out are these and those that were out when the
    /// store was made.
    pub fn held(&self) -> u64
        ensures held { result ≡ pages_of self.now.live }
        ensures load { length (P.holding self.now.pages).out ≡ load_of (paged_state (P.holding self.now.pages) self.now.made self.now.live) }
    {
        self.held
    }

    /// Ends all regions, and hands the pages' source back.
    pub fn finish(mut self) -> P
        ensures { IsFinished (paged_state (P.holding self.pages) self.made self.live) (P.holding result) }
    {
        self.close_to(0);
        let PageStore {
            alloc: _,
            serials: _,
            regions: _,
            held: _,
            pages,
        } = self;
        pages
    }
}

impl<P: Pages> RegionStore for PageStore<P> {
    type Mark = P::Mark;

    ghost store = { λ s. paged_state (P.holding s.pages) s.made s.live };

    #[inline]
    fn region_new(&mut self) -> Result<u64, StoreRefusal> {
        let live = self.serials.len();
        let Ok(()) = PageRegion::make_room(self.alloc, &mut self.regions, live) else {
            return Err(StoreRefusal::NoMemory);
        };
        let Ok(serial) = self.serials.add() else {
            return Err(StoreRefusal::NoMemory);
        };
        Ok(serial)
    }

    #[inline]
    fn close_top(&mut self) {
        let top = self.serials.len() - 1;
        self.serials.truncate(top);
        let region = &mut self.regions[top];
        self.held -= region.pages() as u64;
        region.clear(&mut self.pages);
    }

    #[inline]
    fn close_to(&mut self, height: u64) {
        for closed in height..self.height() {
            self.close_top();
        }
    }

    #[inline]
    fn alloc_words(&mut self, serial: u64, words: &[u64]) -> Result<u64, StoreRefusal> {
        let Some(place) = self.serials.place(serial) else {
            return Err(StoreRefusal::Dead);
        };
        let region = &mut self.regions[place];
        let offset = region.used() as u64;
        let before = region.pages() as u64;
        if let Err(refusal) = region.append(&mut self.pages, words) {
            return Err(refusal);
        }
        self.held += region.pages() as u64 - before;
        Ok(serial * 4294967296 + offset)
    }

    #[inline]
    fn get(&self, pointer: u64, field: u64) -> Result<u64, Dead> {
        let Some(place) = self.serials.place(pointer / 4294967296) else {
            return Err(Dead);
        };
        let region = &self.regions[place];
        let at = (pointer % 4294967296).saturating_add(field) as usize;
        if at >= region.used() {
            return Err(Dead);
        }
        Ok(region.word(at))
    }

    #[inline]
    fn set(&mut self, pointer: u64, field: u64, word: u64) -> Result<(), Dead> {
        let Some(place) = self.serials.place(pointer / 4294967296) else {
            return Err(Dead);
        };
        let region = &mut self.regions[place];
        let at = (pointer % 4294967296).saturating_add(field) as usize;
        if region.used() <= at {
            return Err(Dead);
        }
        region.put(at, word);
        Ok(())
    }

    #[inline]
    fn dries(&self) -> u64 {
        self.pages.dries()
    }

    #[inline]
    fn height(&self) -> u64 {
        self.serials.len() as u64
    }

    #[inline]
    fn top(&self) -> Option<u64> {
        self.serials.top()
    }
}
