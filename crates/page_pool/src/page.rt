ghost use Rattle.std.specs.Prelude.{◌≡◌, ◌<◌, length, slice_get, slice_set, IfOk, vec_len};

use crate::NoMemory;
use std::alloc::Global;

/// How many words a page has.
const PAGE_WORDS: usize = 128;

/// A page of 128 words, with its number in its pool. What its words say when it is taken is left
/// from whoever had it before.
#[derive(Drop)]
pub struct Page {
    number: u32,
    words: Vec<u64>,
    ghost whole: { vec_len words ≡ 128 },
}

impl Page {
    ghost use Rattle.page_pool.specs.PageWords.{number_of, numbers, words_of};
    ghost use Rattle.page_pool.specs.Lone.{numbers_of};
    ghost use Rattle.std.specs.Prelude.{◌≤◌, vec_capacity};

    // A page of zeros.
    pub(crate) fn make(alloc: Global, number: u32) -> Result<Page, NoMemory>
        ensures { IfOk result (λ page. number_of page ≡ number) }
    {
        let words = vec![in alloc; 0u64; PAGE_WORDS]?;
        Ok(Page { number, words })
    }

    // So many pages, numbered from 0 on.
    pub(crate) fn make_all(alloc: Global, pages: u32) -> Result<Vec<Page>, NoMemory>
        ensures numbers { IfOk result (λ all. numbers all.items ≡ numbers_of pages) }
        ensures room { IfOk result (λ all. pages ≤ vec_capacity all) }
    {
        let mut all = Vec::with_capacity(alloc, pages as usize)?;
        for number in 0..pages {
            let page = Page::make(alloc, number)?;
            all.push_reserved(page);
        }
        Ok(all)
    }

    /// The word at a place.
    #[inline]
    pub fn word(&self, at: usize) -> u64
        requires { at < 128 }
        ensures { slice_get (words_of self.now) at ≡ Some result }
    {
        self.words[at]
    }

    /// Writes the word at a place.
    #[inline]
    pub fn put(&mut self, at: usize, word: u64)
        requires { at < 128 }
        ensures number { number_of self.new ≡ number_of self.old }
        ensures words { words_of self.new ≡ slice_set (words_of self.old) at word }
    {
        self.words[at] = word;
    }
}
