//! Turns at objects that threads share: each object has a ticket word and a serving word. A seat
//! draws a ticket, looks at the serving word until it says the ticket, and so has the turn.
//!
//! The definitions stand in `specs/`, and what each step keeps is proved in `proofs/`, over plain
//! lists, so that every table of words and slots can use it. Here is only how to wait.
#![tactic(auto)]

mod looks;

pub use looks::Looks;
