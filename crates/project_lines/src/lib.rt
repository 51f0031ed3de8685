//! The project file: what its lines say, or the first bad one among them.
#![tactic(auto)]

mod line;
mod lines;
mod names;
mod order;
mod project;

pub use project::{LineFault, Project, ProjectFile, ProjectRefusal, read_project};
