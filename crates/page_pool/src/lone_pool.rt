ghost use Rattle.std.specs.Prelude.{◌≡◌, ◌<◌, ◌↔◌, [], None, IfOk, IfSome, IfNone, IsNone};
ghost use Rattle.page_pool.specs.Holding.{TakesPage, FindsNone, GivesPage, times};
ghost use Rattle.page_pool.specs.Lone.{lone_holding, numbers_of, HasEachOnce, HasFullLow};
ghost use Rattle.page_pool.specs.PageWords.{number_of};

use crate::{NoMemory, Page, Pages};
use std::alloc::Global;
use std::marker::Model;

/// A pool for one taker, which waits for nobody.
#[derive(Drop)]
pub struct LonePool {
    free: Vec<Page>,
    made: u32,
    peak: u32,
    low: Option<u32>,
    dries: u64,
}

impl Model for LonePool {
    ghost use Rattle.page_pool.specs.Lone.{LonePages};
    ghost use Rattle.std.specs.Prelude.{map};

    ghost Value = { LonePages };

    ghost use Rattle.page_pool.specs.Kept.{IsLone};
    ghost use Rattle.page_pool.specs.PageWords.{numbers};

    ghost view = { λ p. record { free = numbers p.free.items; made = p.made; peak = p.peak; low = p.low; dries = p.dries } };

    ghost invariant = { IsLone };
}

impl LonePool {
    /// A pool of so many pages, numbered from 0 on.
    pub fn make(alloc: Global, pages: u32) -> Result<LonePool, NoMemory>
        ensures { IfOk result (λ pool. pool ≡ record { free = numbers_of pages; made = pages; peak = 0; low = None; dries = 0 }) }
    {
        Ok(LonePool {
            free: Page::make_all(alloc, pages)?,
            made: pages,
            peak: 0,
            low: None,
            dries: 0,
        })
    }
}

impl Pages for LonePool {
    type Mark = u32;

    ghost holding = { lone_holding };

    #[inline]
    fn take(&mut self) -> Option<Page>
        ensures taken { IfSome result (λ page. TakesPage (lone_holding self.old) (number_of page) (lone_holding self.new)) }
        ensures dry { IfNone result (FindsNone (lone_holding self.old) (lone_holding self.new)) }
        ensures exact { IsNone result ↔ (self.old.free ≡ []) }
        ensures each { HasEachOnce self.new }
        ensures full { HasFullLow self.new }
    {
        match self.free.pop() {
            Some(page) => {
                let out = self.made - self.free.len() as u32;
                self.peak = self.peak.max(out);
                Some(page)
            }
            None => {
                self.low = Some(self.made);
                self.dries = self.dries.saturating_add(1);
                None
            }
        }
    }

    #[inline]
    fn give(&mut self, page: Page)
        requires { 0 < times (number_of page) (lone_holding self.old).out }
        ensures given { GivesPage (lone_holding self.old) (number_of page) (lone_holding self.new) }
        ensures each { HasEachOnce self.new }
        ensures full { HasFullLow self.new }
    {
        self.free.push_reserved(page);
    }

    #[inline]
    fn dries(&self) -> u64
        ensures dries { result ≡ (lone_holding self.now).dries }
        ensures each { HasEachOnce self.now }
        ensures full { HasFullLow self.now }
    {
        self.dries
    }
}
