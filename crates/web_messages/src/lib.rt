//! Requests, replies, and what gives each request its reply.
#![tactic(auto)]

mod answerer;
mod request;

pub use answerer::Answerer;
pub use request::{FormVars, Refusal, Reply, Request};
