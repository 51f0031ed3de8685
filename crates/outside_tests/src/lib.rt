//! Tests of the objects in memory that stand for the outside, each through its trait.
#![tactic(auto)]

#[cfg(test)]
mod connections;
#[cfg(test)]
mod outside;
