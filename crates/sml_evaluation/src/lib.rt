//! The meaning of programs: values, the primitives of the basis, evaluation by height, and the page of a
//! project. Definitions, with the types of values that they are about.
#![tactic(auto)]

mod copies;
mod value;

pub use value::{Bound, Closure, Value};
