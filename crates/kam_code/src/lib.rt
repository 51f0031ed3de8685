#![tactic(auto)]
//! The instructions of the machine that runs scripts, and how their steps go.
//!
//! `specs/State.antt` is what the machine holds, `specs/Step.antt` what each instruction does with
//! it, `specs/Run.antt` what code makes of a form, databases and answers, `specs/Held.antt` what
//! memory holds of code, `specs/Layout.antt` and `specs/Memory.antt` how texts and the other values
//! lie in words, and `specs/Listing.antt` the lines that `list_code` gives.

mod code;
mod instr;
mod laws;
mod layout;
mod listing;

pub use code::Code;
pub use instr::Instr;
pub use laws::{
    call_returns, ended_run_lacks_no_step, pair_is_read, raise_leaves_two_frames,
    steps_are_reached, steps_grow, text_is_made, text_is_read_back, text_stays, turns_go_on,
};
pub use layout::{append_text, push_text};
pub use listing::list_code;
