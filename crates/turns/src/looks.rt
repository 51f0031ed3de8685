ghost use Rattle.std.specs.Prelude.{◌≡◌};

use std::hint::spin_loop;
use std::thread::yield_now;

// How many looks go by before the processor is left to others.
const BUSY_LOOKS: u32 = 100;

/// How often a thread has looked for its turn.
#[derive(Clone, Copy, Debug, PartialEq, Eq)]
pub struct Looks {
    so_far: u32,
}

impl Looks {
    pub fn none() -> Looks
        ensures { result.so_far ≡ 0 }
    {
        Looks { so_far: 0 }
    }

    /// Comes between two looks. After a hundred of them it lets other threads run, so that who has
    /// the turn gets a processor where there are more threads than processors.
    #[inline]
    pub fn wait(&mut self) {
        if self.so_far < BUSY_LOOKS {
            self.so_far += 1;
            spin_loop();
        } else {
            yield_now();
        }
    }
}
