ghost use Rattle.page_pool.specs.Views.{Rests};

use crate::steps::Slot;
use crate::view::View;
use atomic_table::Seat;

/// What one worker takes pages of a shared pool with. It belongs to the pool that it was made by.
#[derive(Drop)]
pub struct PoolPass {
    pub(crate) seat: Seat<Slot, View>,
    ghost rests: { Rests seat.me },
}
