#![tactic(auto)]
//! The loader of projects, as far as the types of their scripts.
//!
//! `load_front` goes step by step, each for all files before the next: the project file and the files that it names are
//! read in their order (`project`, `source`), each text has its start in the programs of scripts (`placed`), then each is cut
//! into tokens (`tokens`), then each is parsed (`trees`, `load`). Then each script's program is put together (`scripts`) and
//! typed (`typing`, `front`). The first mistake in this order is answered (`refusal`).

mod front;
mod load;
mod placed;
mod project;
mod refusal;
mod scripts;
mod source;
mod tokens;
mod trees;
mod typing;

pub use front::{FrontScript, LoadedFront, load_front};
pub use refusal::LoadRefusal;
