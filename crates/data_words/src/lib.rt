//! Data, calls and answers as words of a line of a case file, and back. docs/TESTING.md tells their forms.
#![tactic(auto)]

mod forms;
mod shown;

pub use forms::{
    read_answer, read_cache_call, read_call, read_command, read_datum, read_desc, read_kind,
    read_text,
};
pub use shown::{show_cache_answer, show_command, show_datum, show_db_answer, show_word};
