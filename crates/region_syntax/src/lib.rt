//! Specialised and region terms: the trees between typing and code, and the erasure of the regions.
#![tactic(auto)]

mod copy;
mod laws;
mod region;
mod specialised;
mod types;

pub use laws::{
    accepted_programs_fit, bounds_go_by_work_and_depth, copies_have_one_twin, empty_val_is_refused,
    first_failing_goes_by_parts, none_fails_where_all_hold, work_and_depth_are_one,
};
pub use region::{FixDef, RBind, RDec, RExp, RExpForm, RPat, RPatForm, RPiece, RProgram, RRule};
pub use sml_syntax::Constructor;
pub use specialised::{MBind, MDec, MDef, MExp, MExpForm, MPat, MPatForm, MPiece, MProgram, MRule};
pub use types::{Effect, MData, MTy, Place, RTy};
