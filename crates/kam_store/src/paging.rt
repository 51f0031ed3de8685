ghost use Rattle.std.specs.Prelude.{◌≡◌, ℕ, ◌+◌, ◌-◌, ◌*◌, ◌^◌, ◌<◌, ◌≤◌, [], ◌++◌, length, take, drop, map, slice_set, OnOk, OnErr, vec_len};
ghost use Rattle.std.specs.Result.{IsErrOf};
ghost use Rattle.page_pool.specs.PageWords.{number_of};
ghost use Rattle.kam_store.specs.Moves.{MovesPages, PeakWithin, IsUnmet, MeetsNone, AreOut};
ghost use Rattle.kam_store.specs.Joined.{joined, numbers};

use crate::StoreRefusal;
use page_pool::{Page, Pages};

// How many words a page has.
pub(crate) const PAGE_WORDS: usize = 128;

// Takes pages until there are so many, or gives back those taken.
#[inline(never)]
pub(crate) fn grow<P: Pages>(
    pages: &mut Vec<Page>,
    pool: &mut P,
    wanted: usize,
) -> Result<(), StoreRefusal>
    requires { vec_len pages.old ≤ wanted }
    ensures ok { OnOk result ((take (vec_len pages.old) pages.new.items ≡ pages.old.items) × (vec_len pages.new ≡ wanted)) }
    ensures err { OnErr result (pages.new.items ≡ pages.old.items) }
    ensures moved { MovesPages (P.holding pool.old) (numbers pages.old.items) (P.holding pool.new) (numbers pages.new.items) }
    ensures peak { PeakWithin (P.holding pool.old) (wanted - vec_len pages.old) (P.holding pool.new) }
    ensures met { IsErrOf result StoreRefusal.NoPage → MeetsNone (P.holding pool.old) (wanted - vec_len pages.old) (P.holding pool.new) }
    ensures unmet { (IsErrOf result StoreRefusal.NoPage → ⊥) → IsUnmet (P.holding pool.old) (P.holding pool.new) }
    ensures alive { IsErrOf result StoreRefusal.Dead → ⊥ }
{
    let kept = pages.len();
    for count in kept..wanted {
        if let Err(refusal) = add_page(pages, pool) {
            shrink(pages, pool, kept);
            return Err(refusal);
        }
    }
    Ok(())
}

// The same, where mostly no page is wanted.
#[inline]
pub(crate) fn make_room<P: Pages>(
    pages: &mut Vec<Page>,
    pool: &mut P,
    wanted: usize,
) -> Result<(), StoreRefusal>
    requires { vec_len pages.old ≤ wanted }
    ensures ok { OnOk result ((take (vec_len pages.old) pages.new.items ≡ pages.old.items) × (vec_len pages.new ≡ wanted)) }
    ensures err { OnErr result (pages.new.items ≡ pages.old.items) }
    ensures moved { MovesPages (P.holding pool.old) (numbers pages.old.items) (P.holding pool.new) (numbers pages.new.items) }
    ensures peak { PeakWithin (P.holding pool.old) (wanted - vec_len pages.old) (P.holding pool.new) }
    ensures met { IsErrOf result StoreRefusal.NoPage → MeetsNone (P.holding pool.old) (wanted - vec_len pages.old) (P.holding pool.new) }
    ensures unmet { (IsErrOf result StoreRefusal.NoPage → ⊥) → IsUnmet (P.holding pool.old) (P.holding pool.new) }
    ensures alive { IsErrOf result StoreRefusal.Dead → ⊥ }
{
    if pages.len() < wanted {
        return grow(pages, pool, wanted);
    }
    Ok(())
}

// Takes one page more, or none.
fn add_page<P: Pages>(pages: &mut Vec<Page>, pool: &mut P) -> Result<(), StoreRefusal>
    ensures ok { OnOk result ((take (vec_len pages.old) pages.new.items ≡ pages.old.items) × (vec_len pages.new ≡ vec_len pages.old + 1)) }
    ensures err { OnErr result (pages.new.items ≡ pages.old.items) }
    ensures moved { MovesPages (P.holding pool.old) (numbers pages.old.items) (P.holding pool.new) (numbers pages.new.items) }
    ensures peak { PeakWithin (P.holding pool.old) 1 (P.holding pool.new) }
    ensures met { IsErrOf result StoreRefusal.NoPage → MeetsNone (P.holding pool.old) 1 (P.holding pool.new) }
    ensures unmet { (IsErrOf result StoreRefusal.NoPage → ⊥) → IsUnmet (P.holding pool.old) (P.holding pool.new) }
    ensures alive { IsErrOf result StoreRefusal.Dead → ⊥ }
{
    let Some(page) = pool.take() else {
        return Err(StoreRefusal::NoPage);
    };
    match pages.push(page) {
        Ok(()) => Ok(()),
        Err(refused) => {
            pool.give(refused.value);
            Err(StoreRefusal::NoMemory)
        }
    }
}

// Gives the last pages back until there are so many.
pub(crate) fn shrink<P: Pages>(pages: &mut Vec<Page>, pool: &mut P, kept: usize)
    requires { AreOut (P.holding pool.old) (numbers (drop kept pages.old.items)) }
    ensures pages { pages.new.items ≡ take kept pages.old.items }
    ensures moved { MovesPages (P.holding pool.old) (numbers pages.old.items) (P.holding pool.new) (numbers pages.new.items) }
    ensures unmet { IsUnmet (P.holding pool.old) (P.holding pool.new) }
    ensures peak { (P.holding pool.new).peak ≡ (P.holding pool.old).peak }
{
    while kept < pages.len() {
        let Some(page) = pages.pop() else {
            return;
        };
        pool.give(page);
    }
}

// Writes a word into the page in which it lies.
#[inline]
pub(crate) fn put_word(pages: &mut [Page], at: usize, word: u64)
    requires { at < 128 * length pages.old }
    ensures words { joined pages.new ≡ slice_set (joined pages.old) at word }
    ensures numbers { numbers pages.new ≡ numbers pages.old }
{
    pages[at / PAGE_WORDS].put(at % PAGE_WORDS, word);
}

// Writes words in a row.
#[inline]
pub(crate) fn write(pages: &mut [Page], start: usize, words: &[u64])
    requires room { start + length words.now ≤ 128 * length pages.old }
    requires short { start + length words.now < 2 ^ 32 }
    ensures words { take (start + length words.now) (joined pages.new) ≡ take start (joined pages.old) ++ words.now }
    ensures numbers { numbers pages.new ≡ numbers pages.old }
{
    let mut at = start;
    for word in words {
        put_word(pages, at, *word);
        at += 1;
    }
}
