ghost use Rattle.std.specs.Prelude.{◌≡◌, ℕ, ◌+◌, ◌-◌, ◌%◌, ◌^◌, ◌<◌, ◌≤◌, ◌↔◌, true, false, [], ◌∷◌, ◌++◌, length, None, IfOk, IfSome, IfNone, IsNone, vec_capacity};
ghost use Rattle.turns.specs.Turns.{all_parts};
ghost use Rattle.page_pool.specs.Views.{Rests, queued, with_turn, took, missed, gave, last_of};
ghost use Rattle.page_pool.specs.Sharing.{HasList, saw, IsFair};

use crate::pass::PoolPass;
use crate::steps::{Cut, Draw, Gave, Missed, See, Sharing, Slot, Took, Weigh, Whole};
use crate::view::View;
use crate::{NoMemory, Page};
use atomic_table::{Refused, Seat, Table};
use std::alloc::Global;
use std::sync::Wait;
use turns::Looks;

// The words of the table, and its one slot.
const TICKETS: usize = 0;

const SERVING: usize = 1;

const FREE: usize = 0;

/// A pool whose pages many workers take, each with a pass of its own. Each page is free or with one
/// pass. Calls that take or give a page wait for a turn, in the order in which they came.
#[derive(Drop)]
pub struct Pool {
    table: Table<Slot, View, u32, Sharing, Global>,
    ghost sized: { (table.shared.table_id.words ≡ 2) × (table.shared.table_id.slots ≡ 1) },
}

impl Pool {
    ghost use Rattle.page_pool.specs.Holding.{times};
    ghost use Rattle.page_pool.specs.PageWords.{numbers};
    ghost use Rattle.page_pool.specs.PageWords.{number_of};
    ghost use Rattle.page_pool.specs.Passes.{state_of, pool_id, new_pass, IsPassOf, Takes, FindsDry, Gives, joined, SharesFairly};

    /// A pool of so many pages, numbered from 0 on, with a pass that has all parts.
    pub fn make(alloc: Global, pages: u32) -> Result<(Pool, PoolPass), NoMemory>
        ensures { IfOk result (λ r. state_of r.1 ≡ new_pass (pool_id r.0) pages all_parts) }
    {
        let free = Page::make_all(alloc, pages)?;
        let slots: Vec<Slot> = vec![in alloc; Some(free)]?;
        match Table::new(alloc, &[0, 0], slots, &pages) {
            Ok((table, seat)) => Ok((Pool { table }, PoolPass { seat })),
            Err(Refused { slots: _ }) => Err(NoMemory),
        }
    }

    /// A page, or none where none was free in this call's turn.
    pub fn take<R: Wait>(&self, rt: &R, pass: &mut PoolPass) -> Option<Page>
        requires pool { IsPassOf self.now pass.old }
        ensures taken { IfSome result (λ page. Takes (state_of pass.old) (number_of page) (state_of pass.new)) }
        ensures dry { IfNone result (FindsDry (state_of pass.old) (state_of pass.new)) }
        ensures exact { IsNone result ↔ ((state_of pass.new).found ≡ []) }
    {
        let mut free = self.enter(rt, &mut pass.seat);
        match free.pop() {
            Some(page) => {
                self.end_taking(&mut pass.seat, free);
                Some(page)
            }
            None => {
                self.end_missing(&mut pass.seat, free);
                None
            }
        }
    }

    /// Takes a page back that the pass holds.
    pub fn give<R: Wait>(&self, rt: &R, pass: &mut PoolPass, page: Page)
        requires pool { IsPassOf self.now pass.old }
        requires held { 0 < times (number_of page) (state_of pass.old).pages }
        ensures { Gives (state_of pass.old) (number_of page) (state_of pass.new) }
    {
        let mut free = self.enter(rt, &mut pass.seat);
        free.push_reserved(page);
        self.end_giving(&mut pass.seat, free);
    }

    /// A new pass, which gets one of this one's parts.
    pub fn split(&self, pass: &mut PoolPass) -> PoolPass
        requires pool { IsPassOf self.now pass.old }
        requires parts { 2 ≤ (state_of pass.old).parts }
        ensures pass { state_of pass.new ≡ record (state_of pass.old) { parts = (state_of pass.old).parts - 1 } }
        ensures new { state_of result ≡ new_pass (pool_id self.now) (state_of pass.old).made 1 }
    {
        let seat = self.table.shared.split_seat::<Cut>(&mut pass.seat);
        PoolPass { seat }
    }

    /// All that the other pass has goes to this one. Where this one then has all parts, it knows that
    /// the pool shared its pages fairly.
    pub fn join(&self, pass: &mut PoolPass, other: PoolPass)
        requires pool { IsPassOf self.now pass.old }
        requires other { IsPassOf self.now other }
        ensures both { state_of pass.new ≡ joined (state_of pass.old) (state_of other) }
        ensures fair { (state_of pass.new).parts ≡ all_parts → SharesFairly (state_of pass.new) }
    {
        let PoolPass { seat } = other;
        self.table.shared.join_seat::<Whole>(&mut pass.seat, seat);
        self.table.shared.load::<Weigh>(&mut pass.seat, TICKETS);
    }

    /// Ends the pool, and answers how many pages were free.
    pub fn close(self, pass: PoolPass) -> u32
        requires pool { IsPassOf self pass }
        requires all { (state_of pass).parts ≡ all_parts }
        ensures free { result + length (state_of pass).pages ≡ (state_of pass).made }
        ensures fair { SharesFairly (state_of pass) }
    {
        let Pool { table } = self;
        let PoolPass { seat } = pass;
        let mut closed = table.close_with(seat);
        let slot = closed.take(FREE);
        closed.free();
        match slot {
            Some(free) => free.len() as u32,
            None => unreachable!(),
        }
    }

    fn draw(&self, seat: &mut Seat<Slot, View>) -> u64
        requires table { seat.old.table_id ≡ self.now.table.shared.table_id }
        requires rests { Rests seat.old.me }
        ensures table { (seat.new.table_id ≡ seat.old.table_id) × (seat.new.me.1 ≡ seat.old.me.1) }
        ensures ticket { (t : ℕ) × (result ≡ t % 2 ^ 64) × (seat.new.me.0 ≡ queued t seat.old.me.0) }
    {
        self.table.shared.fetch_add::<Draw>(seat, TICKETS, 1)
    }

    #[inline]
    fn see(&self, seat: &mut Seat<Slot, View>) -> u64
        requires table { seat.old.table_id ≡ self.now.table.shared.table_id }
        requires waits { (seat.old.me.0.waits ≡ 1) × (seat.old.me.0.turn ≡ false) }
        ensures table { seat.new.table_id ≡ seat.old.table_id }
        ensures turn { result ≡ seat.old.me.0.ticket % 2 ^ 64 → (y : _) × HasList seat.old.me y seat.new.me }
        ensures none { (result ≡ seat.old.me.0.ticket % 2 ^ 64 → ⊥) → (seat.new.me ≡ seat.old.me) }
    {
        self.table.shared.load::<See>(seat, SERVING)
    }

    // Waits for the turn of the ticket.
    fn wait<R: Wait>(&self, rt: &R, seat: &mut Seat<Slot, View>, ticket: u64)
        requires table { seat.old.table_id ≡ self.now.table.shared.table_id }
        requires waits { (seat.old.me.0.waits ≡ 1) × (seat.old.me.0.turn ≡ false) }
        requires ticket { ticket ≡ seat.old.me.0.ticket % 2 ^ 64 }
        ensures table { seat.new.table_id ≡ seat.old.table_id }
        ensures turn { (y : _) × HasList seat.old.me y seat.new.me }
    {
        let mut looks = Looks::none();
        for _ in rt.forever() {
            if self.see(seat) == ticket {
                return;
            }
            looks.wait();
        }
        unreachable!()
    }

    // Waits for a turn, and takes the free list out.
    fn enter<R: Wait>(&self, rt: &R, seat: &mut Seat<Slot, View>) -> Vec<Page>
        requires table { seat.old.table_id ≡ self.now.table.shared.table_id }
        requires rests { Rests seat.old.me }
        ensures table { seat.new.table_id ≡ seat.old.table_id }
        ensures view { (t : ℕ) × (seat.new.me.0 ≡ with_turn (numbers result.items) (queued t seat.old.me.0)) }
        ensures slot { seat.new.me.1 ≡ (0, None) ∷ [] }
        ensures fits { length result.items + length seat.old.me.0.pages ≤ seat.old.me.0.made }
        ensures room { seat.old.me.0.made ≤ vec_capacity result }
    {
        let ticket = self.draw(seat);
        self.wait(rt, seat, ticket);
        match self.table.shared.exchange(seat, FREE, None) {
            Some(free) => free,
            None => unreachable!(),
        }
    }

    // Puts the free list back without its last page, and ends the turn.
    fn end_taking(&self, seat: &mut Seat<Slot, View>, free: Vec<Page>)
        requires table { seat.old.table_id ≡ self.now.table.shared.table_id }
        requires turn { (seat.old.me.0.turn ≡ true) × (seat.old.me.1 ≡ (0, None) ∷ []) }
        requires left { (n : ℕ) × (seat.old.me.0.found ≡ numbers free.items ++ n ∷ []) }
        requires room { seat.old.me.0.made ≤ vec_capacity free }
        ensures table { seat.new.table_id ≡ seat.old.table_id }
        ensures view { seat.new.me.0 ≡ took seat.old.me.0 }
        ensures slot { seat.new.me.1 ≡ [] }
        ensures fresh { times (last_of seat.old.me.0.found) seat.old.me.0.pages ≡ 0 }
    {
        self.table.shared.exchange(seat, FREE, Some(free));
        self.table.shared.fetch_add::<Took>(seat, SERVING, 1);
    }

    // Puts the free list back, in which there was no page, and ends the turn.
    fn end_missing(&self, seat: &mut Seat<Slot, View>, free: Vec<Page>)
        requires table { seat.old.table_id ≡ self.now.table.shared.table_id }
        requires turn { (seat.old.me.0.turn ≡ true) × (seat.old.me.1 ≡ (0, None) ∷ []) }
        requires none { (seat.old.me.0.found ≡ []) × (free.items ≡ []) }
        requires room { seat.old.me.0.made ≤ vec_capacity free }
        ensures table { seat.new.table_id ≡ seat.old.table_id }
        ensures view { seat.new.me.0 ≡ missed seat.old.me.0 }
        ensures slot { seat.new.me.1 ≡ [] }
    {
        self.table.shared.exchange(seat, FREE, Some(free));
        self.table.shared.fetch_add::<Missed>(seat, SERVING, 1);
    }

    // Puts the free list back with a page more, and ends the turn.
    fn end_giving(&self, seat: &mut Seat<Slot, View>, free: Vec<Page>)
        requires table { seat.old.table_id ≡ self.now.table.shared.table_id }
        requires turn { (seat.old.me.0.turn ≡ true) × (seat.old.me.1 ≡ (0, None) ∷ []) }
        requires more { (n : ℕ) × (numbers free.items ≡ seat.old.me.0.found ++ n ∷ []) × (0 < times n seat.old.me.0.pages) }
        requires room { seat.old.me.0.made ≤ vec_capacity free }
        ensures table { seat.new.table_id ≡ seat.old.table_id }
        ensures view { seat.new.me.0 ≡ gave (last_of (numbers free.items)) seat.old.me.0 }
        ensures slot { seat.new.me.1 ≡ [] }
    {
        self.table.shared.exchange(seat, FREE, Some(free));
        self.table.shared.fetch_add::<Gave>(seat, SERVING, 1);
    }
}
