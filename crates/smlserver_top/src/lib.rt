//! The commands of the server, from words to a status, and what is said to people of refusals.
#![tactic(auto)]

mod answer;
mod commands;
mod compile;
mod databases;
mod explanation;
mod loading;
mod machine;
mod page;
mod part;
mod place;
mod refusal;
mod run;
mod sentences;
mod spelling;
mod straight;
mod told;
mod words;

pub use explanation::explain;
pub use refusal::{line_of, refused_line};
pub use run::run_words;
