// Statements, and the commands that they are.
use case_lines::bytes_of;
use data_words::show_command;
use db_text::{DbRefusal, read_cmd};
use sml_syntax::NoMemory;
use std::alloc::Global;

/// `statement TEXT`: the command, or the place where it goes wrong.
pub(crate) fn answer_statement(
    alloc: Global,
    text: &str,
    out: &mut String,
) -> Result<(), NoMemory> {
    let bytes = bytes_of(alloc, text)?;
    match read_cmd(alloc, bytes.as_slice()) {
        Ok(command) => show_command(out, &command)?,
        Err(DbRefusal::BadStatement(place)) => write!(out, "BadStatement {place}")?,
        Err(DbRefusal::NoMemory) => return Err(NoMemory),
    }
    Ok(())
}
