// The rule of a shared pool's table, and what each step tells.
ghost use Rattle.page_pool.specs.Views.{blank, gone, left_of_split, right_of_split, both_of_join};
ghost use Rattle.page_pool.specs.Sharing.{AreShared, drew, saw, took_page, missed_page, gave_page, weighed};
ghost use Rattle.turns.specs.Turns.{all_parts};

use crate::Page;
use crate::view::View;
use atomic_table::{Join, Play, Split, TableRule};

pub(crate) type Slot = Option<Vec<Page>>;

// The key is how many pages were made.
pub struct Sharing;

impl TableRule<Slot, View, u32> for Sharing {
    ghost holds = { AreShared };

    ghost first = { λ made. blank made all_parts };
}

pub struct Draw;

impl Play<Slot, View> for Draw {
    ghost then = { drew };
}

pub struct See;

impl Play<Slot, View> for See {
    ghost then = { saw };
}

pub struct Took;

impl Play<Slot, View> for Took {
    ghost then = { took_page };
}

pub struct Missed;

impl Play<Slot, View> for Missed {
    ghost then = { missed_page };
}

pub struct Gave;

impl Play<Slot, View> for Gave {
    ghost then = { gave_page };
}

pub struct Weigh;

impl Play<Slot, View> for Weigh {
    ghost then = { weighed };
}

pub struct Cut;

impl Split<View> for Cut {
    ghost left = { left_of_split };

    ghost right = { right_of_split };
}

pub struct Whole;

impl Join<View> for Whole {
    ghost both = { both_of_join };

    ghost spent = { gone };
}
