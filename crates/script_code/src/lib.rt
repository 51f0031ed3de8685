//! Loaded code: a project whose scripts are read, typed, specialised, given regions, checked and compiled.
//!
//! `load` goes as the loader's front does, and then takes one script after the other through the middle (`scripts`): each step
//! that refuses names the script's file.
#![tactic(auto)]

mod loaded;
mod refusal;
mod scripts;

pub use loaded::{Loaded, LoadedScript, Regions, load};
pub use refusal::CodeRefusal;
