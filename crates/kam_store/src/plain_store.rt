ghost use Rattle.std.specs.Prelude.{◌≡◌, [], IfOk, None};
ghost use Rattle.kam_store.specs.Plain.{plain_state};

use crate::serials::Serials;
use crate::{Dead, RegionStore, StoreRefusal};
use page_pool::NoMemory;
use std::alloc::Global;
use std::marker::Model;

/// Regions that are lists, as long as there is memory.
#[derive(Drop)]
pub struct PlainStore {
    alloc: Global,
    serials: Serials,
    regions: Vec<Vec<u64>>,
}

impl Model for PlainStore {
    ghost use Rattle.std.specs.Prelude.{◌≡◌, vec_len, length};
    ghost use Rattle.kam_store.specs.Plain.{PlainRegions};

    ghost Value = { PlainRegions };

    ghost use Rattle.kam_store.specs.PlainKept.{lists, IsPlain};
    ghost use Rattle.kam_store.specs.Plain.{live_of};

    ghost view = { λ s. record { made = s.serials.made; live = live_of s.serials.live (lists s.regions.items) } };

    ghost invariant = { IsPlain };
}

impl PlainStore {
    pub fn make(alloc: Global) -> Result<PlainStore, NoMemory>
        ensures { IfOk result (λ s. s ≡ record { made = 0; live = [] }) }
    {
        let serials = Serials::make(alloc)?;
        Ok(PlainStore {
            alloc,
            serials,
            regions: Vec::new(alloc),
        })
    }
}

impl RegionStore for PlainStore {
    type Mark = u64;

    ghost store = { plain_state };

    #[inline]
    fn region_new(&mut self) -> Result<u64, StoreRefusal> {
        if self.regions.reserve(1).is_err() {
            return Err(StoreRefusal::NoMemory);
        }
        let Ok(serial) = self.serials.add() else {
            return Err(StoreRefusal::NoMemory);
        };
        self.regions.push_reserved(Vec::new(self.alloc));
        Ok(serial)
    }

    #[inline]
    fn close_top(&mut self) {
        let top = self.serials.len() - 1;
        self.serials.truncate(top);
        self.regions.truncate(top);
    }

    #[inline]
    fn close_to(&mut self, height: u64) {
        self.serials.truncate(height as usize);
        self.regions.truncate(height as usize);
    }

    #[inline]
    fn alloc_words(&mut self, serial: u64, words: &[u64]) -> Result<u64, StoreRefusal> {
        let Some(place) = self.serials.place(serial) else {
            return Err(StoreRefusal::Dead);
        };
        let region = &mut self.regions[place];
        let offset = region.len() as u64;
        let Ok(()) = region.extend_from_slice(words) else {
            return Err(StoreRefusal::NoMemory);
        };
        Ok(serial * 4294967296 + offset)
    }

    #[inline]
    fn get(&self, pointer: u64, field: u64) -> Result<u64, Dead> {
        let Some(place) = self.serials.place(pointer / 4294967296) else {
            return Err(Dead);
        };
        let region = &self.regions[place];
        let at = (pointer % 4294967296).saturating_add(field) as usize;
        if at >= region.len() {
            return Err(Dead);
        }
        Ok(region[at])
    }

    #[inline]
    fn set(&mut self, pointer: u64, field: u64, word: u64) -> Result<(), Dead> {
        let Some(place) = self.serials.place(pointer / 4294967296) else {
            return Err(Dead);
        };
        let region = &mut self.regions[place];
        let at = (pointer % 4294967296).saturating_add(field) as usize;
        if region.len() <= at {
            return Err(Dead);
        }
        region[at] = word;
        Ok(())
    }

    #[inline]
    fn dries(&self) -> u64 {
        0
    }

    #[inline]
    fn height(&self) -> u64 {
        self.serials.len() as u64
    }

    #[inline]
    fn top(&self) -> Option<u64> {
        self.serials.top()
    }
}
