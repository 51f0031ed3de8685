ghost use Rattle.std.specs.Prelude.{◌≡◌, ℕ, ◌+◌, ◌-◌, ◌^◌, ◌<◌, ◌≤◌, [], ◌∷◌, ◌++◌, length, take, slice_get, Some, None, IfOk, OnOk, OnErr, IfSome, IsNone};
ghost use Rattle.kam_store.specs.Store.{RisesTo};

use page_pool::NoMemory;
use std::alloc::Global;
use std::marker::Model;

// How many serials there are of which at most one has a hint.
const HINTS: usize = 256;

/// The serials of the live regions, the lowest first, found in a few steps.
#[derive(Drop)]
pub(crate) struct Serials {
    made: u64,
    live: Vec<u64>,
    // Where the serials with a remainder by 256 were put last: a guess, which is tried.
    hints: Vec<u32>,
}

impl Model for Serials {
    ghost use Rattle.std.specs.Prelude.{◌≡◌, ◌^◌, ◌<◌, vec_len};
    ghost use Rattle.kam_store.specs.Store.{RisesTo};
    ghost use Rattle.kam_store.specs.Serials.{SerialList};

    ghost Value = { SerialList };

    ghost view = { λ s. record { made = s.made; live = s.live.items } };

    ghost invariant = { λ s. (RisesTo s.made 0 s.live.items) × (s.made < 2 ^ 32) × (vec_len s.hints ≡ 256) };
}

impl Serials {
    pub(crate) fn make(alloc: Global) -> Result<Serials, NoMemory>
        ensures { IfOk result (λ s. s ≡ record { made = 0; live = [] }) }
    {
        let hints = vec![in alloc; 0u32; HINTS]?;
        Ok(Serials {
            made: 0,
            live: Vec::new(alloc),
            hints,
        })
    }

    /// Adds the next serial at the end.
    #[inline]
    pub(crate) fn add(&mut self) -> Result<u64, NoMemory>
        requires { self.old.made + 1 < 2 ^ 32 }
        ensures serial { IfOk result (λ serial. serial ≡ self.old.made + 1) }
        ensures ok { OnOk result (self.new ≡ record { made = self.old.made + 1; live = self.old.live ++ (self.old.made + 1) ∷ [] }) }
        ensures err { OnErr result (self.new ≡ self.old) }
    {
        let serial = self.made + 1;
        let place = self.live.len();
        self.live.push(serial)?;
        self.made = serial;
        self.hints[(serial % 256) as usize] = place as u32;
        Ok(serial)
    }

    /// Leaves so many lowest ones.
    #[inline]
    pub(crate) fn truncate(&mut self, height: usize)
        ensures { self.new ≡ record self.old { live = take height self.old.live } }
    {
        self.live.truncate(height);
    }

    #[inline]
    pub(crate) fn len(&self) -> usize
        ensures len { result ≡ length self.now.live }
        ensures rises { RisesTo self.now.made 0 self.now.live }
        ensures few { self.now.made < 2 ^ 32 }
    {
        let _ = &self.made;
        self.live.len()
    }

    /// The last one.
    #[inline]
    pub(crate) fn top(&self) -> Option<u64>
        ensures { result ≡ slice_get self.now.live (length self.now.live - 1) }
    {
        self.live.as_slice().last().copied()
    }

    /// The place of a live serial.
    #[inline]
    pub(crate) fn place(&self, serial: u64) -> Option<usize>
        ensures found { IfSome result (λ k. slice_get self.now.live k ≡ Some serial) }
        ensures none { IsNone result → (k : ℕ) → slice_get self.now.live k ≡ Some serial → ⊥ }
        ensures rises { RisesTo self.now.made 0 self.now.live }
        ensures few { self.now.made < 2 ^ 32 }
    {
        let live = self.live.as_slice();
        let hint = self.hints[(serial % 256) as usize] as usize;
        if hint < live.len() && live[hint] == serial {
            return Some(hint);
        }
        by_halves(live, serial)
    }
}

// The place of a number in a rising list.
#[inline(never)]
fn by_halves(live: &[u64], serial: u64) -> Option<usize>
    requires { (high : ℕ) × RisesTo high 0 live.now }
    ensures found { IfSome result (λ k. slice_get live.now k ≡ Some serial) }
    ensures none { IsNone result → (k : ℕ) → slice_get live.now k ≡ Some serial → ⊥ }
{
    live.binary_search(&serial).ok()
}
