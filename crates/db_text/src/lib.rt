//! The statements of a database: five forms of SQL over tables of a key and a value each.
//!
//! `read_cmd` tries the forms one after the other. Each is a list of parts, and the bytes are read part by part; where
//! no form takes all bytes, the place is the farthest at which one of them stopped.
#![tactic(auto)]

ghost use Rattle.std.specs.Prelude.{◌≡◌, ◌⊎◌, ◌≤◌, ℕ, IfOk, Err};
ghost use Rattle.web_data.specs.declared.database.DbCmd.{DbCmd as Command};
ghost use Rattle.web_data.specs.Statements.{Statement, NoStatement};
ghost use Rattle.db_text.specs.Answers.{GivesCommand, GivesPlace};

mod forms;
mod laws;
mod parts;
mod refusal;

use forms::{FORMS, Reading, command, read_form};
pub use laws::statements_are_told;
pub use refusal::DbRefusal;
use std::alloc::Global;
use web_data::DbCmd;

/// The command of a statement. `BadStatement` comes exactly where the bytes are none, and has the length of their
/// longest prefix that begins one.
pub fn read_cmd(alloc: Global, bytes: &[u8]) -> Result<DbCmd, DbRefusal>
    ensures command { IfOk result (λ c. Statement bytes.now c) }
    ensures refusal { (place : ℕ) → result ≡ Err (DbRefusal.BadStatement place) → NoStatement bytes.now place }
    ensures command_where { (c : Command) → Statement bytes.now c → GivesCommand result c }
    ensures refusal_where { (place : ℕ) → NoStatement bytes.now place → GivesPlace result place }
{
    let mut place = 0;
    for form in FORMS {
        match read_form(alloc, bytes, form)? {
            Reading::Whole(texts) => return Ok(command(form, texts)),
            Reading::Stops(at) => place = farther(place, at),
        }
    }
    Err(DbRefusal::BadStatement(place as u64))
}

/// The greater of two places.
fn farther(a: usize, b: usize) -> usize
    ensures first { a ≤ result }
    ensures second { b ≤ result }
    ensures one { (result ≡ a) ⊎ (result ≡ b) }
{
    if a < b {
        return b;
    }
    a
}
