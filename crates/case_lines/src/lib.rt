//! Files of cases: a line is a call in words, and its answer is a line too. Empty lines and lines that begin with `#`
//! are left out. A text in such a line is ASCII, in which a backslash and two hexadecimal digits stand for a byte.
#![tactic(auto)]

mod parts;
mod run;
mod text;
mod words;

pub use parts::{numbers_of, parts_of, quoted_of};
pub use run::{Cases, run_files};
pub use text::{bytes_of, hex_of, show_hex, show_text};
pub use words::Words;
