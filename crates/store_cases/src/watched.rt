ghost use Rattle.std.specs.Prelude.{◌≤◌};
ghost use Rattle.kam_store.specs.Store.{words_in};

use crate::answer::Answer;
use kam_store::RegionStore;

// What cases may ask of a store.
const MOST: u64 = 1000000;

/// A store and bounds on what was asked of it, so that its conditions hold.
#[derive(Drop)]
pub(crate) struct Watched<S: RegionStore> {
    store: S,
    made: u64,
    words: u64,
    ghost few: { (S.store store).made ≤ made },
    ghost small: { words_in (S.store store).live ≤ words },
}

impl<S: RegionStore> Watched<S> {
    ghost use Rattle.std.specs.Prelude.{◌≡◌, []};

    pub(crate) fn new(store: S) -> Watched<S>
        requires made { (S.store store).made ≡ 0 }
        requires live { (S.store store).live ≡ [] }
    {
        Watched {
            store,
            made: 0,
            words: 0,
        }
    }

    pub(crate) fn store(&self) -> &S {
        &self.store
    }

    pub(crate) fn into_store(self) -> S {
        let Watched {
            store,
            made: _,
            words: _,
        } = self;
        store
    }

    pub(crate) fn region_new(&mut self) -> Answer {
        if self.made >= MOST {
            return Answer::Spent;
        }
        self.made += 1;
        Answer::of_write(self.store.region_new())
    }

    pub(crate) fn close_top(&mut self) -> Answer {
        if self.store.height() > 0 {
            self.store.close_top();
        }
        Answer::Done
    }

    pub(crate) fn close_to(&mut self, height: u64) -> Answer {
        if height <= self.store.height() {
            self.store.close_to(height);
        }
        Answer::Done
    }

    pub(crate) fn alloc_words(&mut self, serial: u64, words: &[u64]) -> Answer {
        if words.len() as u64 >= MOST || self.words >= MOST {
            return Answer::Spent;
        }
        self.words += words.len() as u64;
        Answer::of_write(self.store.alloc_words(serial, words))
    }

    pub(crate) fn get(&self, pointer: u64, field: u64) -> Answer {
        Answer::of_get(self.store.get(pointer, field))
    }

    pub(crate) fn set(&mut self, pointer: u64, field: u64, word: u64) -> Answer {
        Answer::of_set(self.store.set(pointer, field, word))
    }
}
