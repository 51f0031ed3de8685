// The state of the core.
ghost use Rattle.std.specs.Prelude.{◌≡◌, length, IfOk};
ghost use Rattle.history_core.specs.Core.{core_start};
ghost use Rattle.history_check.specs.Given.{AllDiffer, databases_given};

use history_check::Tables;
use history_core::{Entry, Owner};
use sml_syntax::{Listed, NoMemory, Text};
use std::alloc::Global;
use std::marker::Model;

/// Pages, the holders of databases, the history, and the requests.
#[derive(Drop)]
pub struct CoreState {
    pub(crate) free: Vec<u32>,
    pub(crate) owned: Vec<Owner>,
    pub(crate) holders: Vec<Option<u64>>,
    pub(crate) names: Vec<Text>,
    pub(crate) keepers: Vec<Listed<Tables>>,
    pub(crate) history: Vec<Entry>,
    pub(crate) running: Vec<u64>,
    pub(crate) begun: u64,
}

impl Model for CoreState {
    ghost use Rattle.history_core.specs.Core.{Core};
    ghost use Rattle.history_check.specs.Given.{AllDiffer, databases_given};
    ghost use Rattle.core_step.specs.Codes.{core_code};

    ghost Value = { Core };

    ghost coded = { core_code };

    ghost view = { λ s. record {
      free = s.free.items;
      owned = s.owned.items;
      holders = s.holders.items;
      databases = databases_given s.names.items s.keepers.items;
      history = s.history.items;
      running = s.running.items;
      begun = s.begun;
    } };

    ghost invariant = { λ s. AllDiffer s.names.items };
}

impl CoreState {
    /// The pages from 0 on are free, and nothing else is there. Each database has a list of keepers, of which the first
    /// one stands. The keepers tell their tables and no failing calls, and their counts of faults are 0.
    #[tactic(auto, using(crate::proofs::Starting::push_none, crate::proofs::Starting::all_none))]
    pub fn make(
        alloc: Global,
        pages: u32,
        names: Vec<Text>,
        keepers: Vec<Listed<Tables>>,
    ) -> Result<CoreState, NoMemory>
        requires whole { length names.items ≡ length keepers.items }
        requires differ { AllDiffer names.items }
        ensures { IfOk result (λ s. s ≡ core_start pages (databases_given names.items keepers.items)) }
    {
        let mut free = Vec::with_capacity(alloc, pages as usize)?;
        for page in 0..pages {
            free.push(page)?;
        }
        let mut holders = Vec::with_capacity(alloc, names.len())?;
        for _ in 0..names.len() {
            holders.push(None)?;
        }
        Ok(CoreState {
            free,
            owned: Vec::new(alloc),
            holders,
            names,
            keepers,
            history: Vec::new(alloc),
            running: Vec::new(alloc),
            begun: 0,
        })
    }

    /// The pages that nobody owns.
    pub fn free(&self) -> &[u32]
        ensures { result.now ≡ self.now.free }
    {
        self.free.as_slice()
    }

    /// The pages that are owned, each with its owner.
    pub fn owned(&self) -> &[Owner]
        ensures { result.now ≡ self.now.owned }
    {
        self.owned.as_slice()
    }

    /// The request that holds each database.
    pub fn holders(&self) -> &[Option<u64>]
        ensures { result.now ≡ self.now.holders }
    {
        self.holders.as_slice()
    }

    /// The history so far.
    pub fn history(&self) -> &[Entry]
        ensures { result.now ≡ self.now.history }
    {
        self.history.as_slice()
    }

    /// The requests that run, in the order of their beginnings.
    pub fn running(&self) -> &[u64]
        ensures { result.now ≡ self.now.running }
    {
        self.running.as_slice()
    }

    /// How many requests began.
    pub fn begun(&self) -> u64
        ensures { result ≡ self.now.begun }
    {
        self.begun
    }
}
