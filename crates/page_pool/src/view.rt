ghost use Rattle.std.specs.Prelude.{ℕ, List, Bool, Option};
ghost use Rattle.std.specs.Borrow.{ftrue};
ghost use Rattle.std.specs.Coded.{coded_option, coded_ℕ};

use std::marker::Model;

// What a pass of a shared pool has, knows and met. No value of it is made.
pub struct View {
    // Its parts of the right to wait, whether it waits for a turn or has one, its ticket, and whether it has the turn.
    pub ghost parts: { ℕ },
    pub ghost waits: { ℕ },
    pub ghost ticket: { ℕ },
    pub ghost turn: { Bool },
    // How many pages the pool has, and the numbers of the free ones as this pass found them in its last turn.
    pub ghost made: { ℕ },
    pub ghost found: { List ℕ },
    // The pages that it holds, the most that it held, the fewest that it held when none was free, and how many passes
    // that it is made of ever asked for one.
    pub ghost pages: { List ℕ },
    pub ghost peak: { ℕ },
    pub ghost low: { Option ℕ } by { coded_option coded_ℕ },
    pub ghost askers: { ℕ },
}

impl Model for View {
    ghost also_owns = { λ _. ftrue };
}
