//! Answers cases of stores of regions, plain and in pages. docs/TESTING.md tells their lines.
#![tactic(auto)]

mod answer;
mod watched;

use answer::Answer;
use case_lines::{Cases, Words, numbers_of, run_files};
use kam_store::{PageStore, PlainStore, RegionStore};
use no_memory::NoMemory;
use page_pool::{LonePool, Pages};
use std::alloc::{AllocError, Global};
use std::io;
use watched::Watched;

/// A plain store, and one in the pages of a pool. Of these the second alone may be there.
#[derive(Drop)]
struct Stores {
    plain: Option<Watched<PlainStore>>,
    paged: Option<Watched<PageStore<LonePool>>>,
}

fn make_paged(alloc: Global, pages: u32) -> Result<Option<Watched<PageStore<LonePool>>>, NoMemory> {
    match PageStore::make(alloc, LonePool::make(alloc, pages)?) {
        Ok(store) => Ok(Some(Watched::new(store))),
        Err(_) => Err(NoMemory),
    }
}

// So many words, from a number on.
fn counted(alloc: Global, count: u64, first: u64) -> Result<Vec<u64>, NoMemory> {
    let mut words = Vec::new(alloc);
    for n in 0..count {
        words.push(first.wrapping_add(n))?;
    }
    Ok(words)
}

// The answer of a store to a line.
fn call<S: RegionStore>(
    alloc: Global,
    store: &mut Watched<S>,
    line: &str,
) -> Result<Answer, NoMemory> {
    let mut words = Words::of(line);
    match words.next() {
        "new" => Ok(store.region_new()),
        "close" => Ok(store.close_top()),
        "close_to" => Ok(store.close_to(words.number())),
        "alloc" => {
            let serial = words.number();
            let count = words.number();
            let given = counted(alloc, count, words.number())?;
            Ok(store.alloc_words(serial, given.as_slice()))
        }
        "alloc_words" => {
            let serial = words.number();
            let given = numbers_of(alloc, words.next())?;
            Ok(store.alloc_words(serial, given.as_slice()))
        }
        "get" => {
            let pointer = words.number();
            Ok(store.get(pointer, words.number()))
        }
        _ => {
            let pointer = words.number();
            let field = words.number();
            Ok(store.set(pointer, field, words.number()))
        }
    }
}

fn show_answer(out: &mut String, answer: Answer) -> Result<(), NoMemory> {
    match answer {
        Answer::Done => out.push_str("done")?,
        Answer::Word(word) => write!(out, "{word}")?,
        Answer::Dead => out.push_str("dead")?,
        Answer::NoPage => out.push_str("no page")?,
        Answer::NoMemory => return Err(NoMemory),
        Answer::Spent => out.push_str("too much")?,
    }
    Ok(())
}

// The last and the first word of a new page, to whose last word 9 was written.
fn show_page(out: &mut String, pool: &mut LonePool) -> Result<(), NoMemory> {
    if let Some(mut page) = pool.take() {
        page.put(127, 9);
        write!(out, "{} {}, ", page.word(127), page.word(0))?;
        pool.give(page);
    }
    Ok(())
}

// Whether the next page has words of an earlier owner.
fn show_left(out: &mut String, pool: &mut LonePool) -> Result<(), NoMemory> {
    if let Some(page) = pool.take() {
        let is_left = page.word(0) > 0;
        write!(out, "{is_left}, ")?;
        pool.give(page);
    }
    Ok(())
}

// How many pages a pool gives, and whether it runs dry then.
fn show_pages(out: &mut String, mut pool: LonePool) -> Result<(), NoMemory> {
    let before = pool.dries();
    let mut count: u64 = 0;
    for _ in 0..100_000u32 {
        if pool.take().is_none() {
            break;
        }
        count = count.saturating_add(1);
    }
    write!(out, "{count} pages, dry {before} and {}", pool.dries())?;
    Ok(())
}

impl Stores {
    fn answer_plain(
        &mut self,
        alloc: Global,
        line: &str,
        out: &mut String,
    ) -> Result<(), NoMemory> {
        if let Some(store) = &mut self.plain {
            show_answer(out, call(alloc, store, line)?)?;
            write!(out, " height {}", store.store().height())?;
        }
        Ok(())
    }

    fn answer_paged(
        &mut self,
        alloc: Global,
        line: &str,
        out: &mut String,
    ) -> Result<(), NoMemory> {
        if let Some(store) = &mut self.paged {
            show_answer(out, call(alloc, store, line)?)?;
            write!(out, " height {}", store.store().height())?;
        }
        Ok(())
    }

    // The answer of both stores, and the pages that the second holds.
    fn answer_call(&mut self, alloc: Global, line: &str, out: &mut String) -> Result<(), NoMemory> {
        let mut first = String::new(alloc);
        self.answer_plain(alloc, line, &mut first)?;
        let mut second = String::new(alloc);
        self.answer_paged(alloc, line, &mut second)?;
        out.push_str(second.as_str())?;
        if self.plain.is_some() && first.as_str() != second.as_str() {
            write!(out, " but plain {}", first.as_str())?;
        }
        if let Some(store) = &self.paged {
            write!(out, " held {}", store.store().held())?;
        }
        Ok(())
    }

    // Ends the second store, and tells of its pool.
    fn finish(&mut self, word: &str, out: &mut String) -> Result<(), NoMemory> {
        if let Some(store) = self.paged.take() {
            let mut pool = store.into_store().finish();
            if word == "finish_left" {
                show_left(out, &mut pool)?;
            }
            show_pages(out, pool)?;
        }
        Ok(())
    }

    fn answer_line(&mut self, alloc: Global, line: &str, out: &mut String) -> Result<(), NoMemory> {
        let mut words = Words::of(line);
        let word = words.next();
        match word {
            "stores" | "paged" => {
                self.paged = make_paged(alloc, words.next().parse().unwrap_or(0))?;
                self.plain = None;
                if word == "stores" {
                    self.plain = Some(Watched::new(PlainStore::make(alloc)?));
                }
                Ok(out.push_str(word)?)
            }
            "pool" => {
                let mut pool = LonePool::make(alloc, words.next().parse().unwrap_or(0))?;
                show_page(out, &mut pool)?;
                show_pages(out, pool)
            }
            "dries" => match &self.paged {
                Some(store) => Ok(write!(out, "{}", store.store().dries())?),
                None => Ok(out.push_str("no store")?),
            },
            "finish" | "finish_left" => self.finish(word, out),
            _ => self.answer_call(alloc, line, out),
        }
    }
}

impl Cases for Stores {
    fn answer(&mut self, alloc: Global, line: &str, out: &mut String) -> Result<(), AllocError> {
        match self.answer_line(alloc, line, out) {
            Ok(()) => Ok(()),
            Err(NoMemory) => Err(AllocError),
        }
    }
}

fn main(rt: HostRuntime) -> io::Result<()> {
    let mut stores = Stores {
        plain: None,
        paged: None,
    };
    run_files(&rt, &mut stores)
}
