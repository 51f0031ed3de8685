#![tactic(auto)]
//! Histories that are tried entry by entry on the machines: whether they are legal.
//!
//! `is_legal` decides it exactly, over databases whose keepers are given by their tables.

mod names;
mod replay;
mod same;
mod tables;

pub use names::names_differ;
pub use replay::is_legal;
pub use tables::Tables;
