ghost use Rattle.std.specs.Prelude.{◌≡◌, ◌<◌, IfSome, IfNone};
ghost use Rattle.std.specs.Borrow.{ftrue};
ghost use Rattle.atomic_table.specs.Seated.{TableId, table_id_coded};
ghost use Rattle.std.specs.Prelude.{ℕ};

use crate::pass::PoolPass;
use crate::pool::Pool;
use crate::{Page, Pages};
use std::marker::Model;
use std::sync::Wait;

/// Where the pages of a pass come from: its pool, how many pages that has, the pass's parts, and
/// the greater of 1 and its askers. No value of it is made.
pub struct PoolMark {
    pub ghost pool: { TableId } by { table_id_coded },
    pub ghost made: { ℕ },
    pub ghost parts: { ℕ },
    pub ghost askers: { ℕ },
}

impl Model for PoolMark {
    ghost also_owns = { λ _. ftrue };
}

/// A pass with its pool, as one taker of pages.
#[derive(Drop)]
pub struct PoolUser<'a, R: Wait> {
    rt: &'a R,
    pool: &'a Pool,
    pass: PoolPass,
    dries: u64,
    ghost ours: { pass.seat.table_id ≡ pool.now.table.shared.table_id },
}

impl<'a, R: Wait> PoolUser<'a, R> {
    ghost use Rattle.page_pool.specs.Passes.{state_of, IsPassOf};

    pub fn make(rt: &'a R, pool: &'a Pool, pass: PoolPass) -> PoolUser<'a, R>
        requires { IsPassOf pool.now pass }
        ensures { (result.dries ≡ 0) × (state_of result.pass ≡ state_of pass) }
    {
        PoolUser {
            rt,
            pool,
            pass,
            dries: 0,
        }
    }

    /// The pass, with all that it has and met.
    pub fn into_pass(self) -> PoolPass
        ensures { state_of result ≡ state_of self.entry.pass }
    {
        let PoolUser {
            rt: _,
            pool: _,
            pass,
            dries: _,
        } = self;
        pass
    }
}

impl<'a, R: Wait> Pages for PoolUser<'a, R> {
    ghost use Rattle.page_pool.specs.Users.{user_holding};
    ghost use Rattle.page_pool.specs.Passes.{state_of};

    type Mark = PoolMark;

    ghost holding = { λ u. user_holding (state_of u.pass) u.dries };

    fn take(&mut self) -> Option<Page> {
        let page = self.pool.take(self.rt, &mut self.pass);
        if page.is_none() {
            self.dries = self.dries.saturating_add(1);
        }
        page
    }

    fn give(&mut self, page: Page) {
        self.pool.give(self.rt, &mut self.pass, page);
    }

    fn dries(&self) -> u64 {
        self.dries
    }
}
