ghost use Rattle.std.specs.Prelude.{◌≡◌, ◌+◌, ◌≤◌, [], vec_len};
ghost use Rattle.kam_store.specs.Store.{words_in};

use crate::phase::Phase;
use kam_code::Code;
use kam_rows::stored::open;
use kam_rows::{Frame, Handler, Registers, STACK_LIMIT};
use kam_store::{Back, RegionStore};
use sml_syntax::Text;
use std::alloc::Global;
use web_messages::FormVars;

/// The page so far.
#[derive(Drop)]
pub(crate) struct Page {
    pub status: u16,
    /// `None` where none was set.
    pub content_type: Option<Text>,
    pub body: Vec<u8>,
}

/// A run of a code: it stops where the code ends, where a call waits for its answer, or where something is short.
pub struct Machine<'a, R: RegionStore> {
    pub(crate) alloc: Global,
    pub(crate) code: &'a Code,
    pub(crate) databases: &'a [Text],
    pub(crate) form: &'a FormVars,
    pub(crate) budget: u64,
    pub(crate) registers: Registers,
    // The words of the stack are the first `registers.top` of these, the top last.
    pub(crate) stack: Vec<u64>,
    pub(crate) frames: Vec<Frame>,
    pub(crate) handlers: Vec<Handler>,
    pub(crate) store: R,
    pub(crate) page: Page,
    pub(crate) phase: Phase,
    ghost fits: { registers.top ≤ vec_len stack },
    ghost charged: { registers.left ≤ budget },
    ghost words: { words_in (R.store store).live + registers.left ≤ 1000000000 },
    ghost made: { (R.store store).made + registers.left ≤ 1000000001 },
}

impl<'a, R: RegionStore> Machine<'a, R> {
    /// A machine before its first instruction, which borrows its code. Its global region is made here: want of memory
    /// hands the store back as it was.
    pub fn start(
        alloc: Global,
        code: &'a Code,
        mut store: R,
        databases: &'a [Text],
        form: &'a FormVars,
        budget: u64,
    ) -> Result<Machine<'a, R>, Back<R>>
        requires new { (R.store store).made ≡ 0 }
        requires empty { (R.store store).live ≡ [] }
        requires budget { budget ≤ 1000000000 }
    {
        if open(&mut store).is_err() {
            return Err(Back { given: store });
        }
        let registers = Registers {
            address: 0,
            base: 0,
            closure: 0,
            top: 0,
            room: STACK_LIMIT,
            left: budget,
        };
        Ok(Machine {
            alloc,
            code,
            databases,
            form,
            budget,
            registers,
            stack: Vec::new(alloc),
            frames: Vec::new(alloc),
            handlers: Vec::new(alloc),
            store,
            page: Page {
                status: 200,
                content_type: None,
                body: Vec::new(alloc),
            },
            phase: Phase::Going,
        })
    }

    /// The steps made so far and the words that they wrote into regions.
    pub fn charge(&self) -> u64 {
        self.budget - self.registers.left
    }

    /// The store, in which all of the machine's regions still stand.
    pub fn finish(self) -> R {
        let Machine {
            alloc: _,
            code: _,
            databases: _,
            form: _,
            budget: _,
            registers: _,
            stack: _,
            frames: _,
            handlers: _,
            store,
            page: _,
            phase: _,
        } = self;
        store
    }
}
