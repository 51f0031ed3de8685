#![tactic(auto)]
//! Specialising: a copy of each polymorphic binding for each list of types at which it is used.
//!
//! `specialise` (`program`) walks the items from the last to the first, so that all uses of a binding are known before its copies are made.
//! What a binding is used at stands in its `Instances`; making the copies one by one fills those of the bindings further out. Types are
//! met as classes of the table (`classes`) and become ground types, each with one number (`grounds`).

mod basis;
mod classes;
mod copies;
mod declaration;
mod equality;
mod expression;
mod grounds;
mod instances;
mod naming;
mod pattern;
mod program;
mod refusal;
mod shape;
mod tables;
mod walk;

pub use program::specialise;
pub use refusal::MonoRefusal;
