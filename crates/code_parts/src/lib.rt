//! What the compiler knows of terms before it writes code: names, regions and places that code uses, what closures hold, types and
//! their descriptions, primitives' rows, the size of a program; and the writer of code in two passes.
#![tactic(auto)]

mod captures;
mod descriptions;
mod location;
mod names;
mod operands;
mod primitive;
mod scope;
mod size;
mod types;
mod uses;
mod writer;

pub use captures::clause_arguments;
pub use descriptions::{cache_types, description};
pub use location::{Location, Path, Seen, region_of, sum, type_region};
pub use names::Names;
pub use operands::all_there;
pub use primitive::{Action, Primitive};
pub use scope::{Depth, Entry, Scope};
pub use size::program_size;
pub use types::{compared_of, compared_type, erased, instance, result_type};
pub use uses::{Captures, Uses};
pub use writer::{Addresses, BIND, MATCH, Outer, Writer, Written};
