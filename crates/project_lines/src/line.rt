// The lines of a project file.
ghost use Rattle.std.specs.Prelude.{◌≡◌, IfOk};
ghost use Rattle.project_lines.specs.Reading.{library_of, script_of, database_of, line_of};

use crate::names::{after, count, is_database_name, is_file_name, is_path, path_split};
use sml_syntax::{NoMemory, Text};
use std::alloc::Global;

/// A line of a project file that isn't skipped.
#[derive(Debug, Drop, PartialEq, Eq)]
pub enum Line {
    /// `smlserver 1`
    Header,
    /// `lib FILE`
    Library(Text),
    /// `script PATH FILE`
    Script(Text, Text),
    /// `database NAME`
    Database(Text),
    /// `budget N`
    Budget(u64),
    /// `pages N`
    Pages(u64),
}

/// The sorts of lines.
#[derive(Clone, Copy, Debug, PartialEq, Eq)]
pub enum Sort {
    Header,
    Library,
    Script,
    Database,
    Budget,
    Pages,
}

fn library(alloc: Global, name: &[u8]) -> Result<Option<Line>, NoMemory>
    ensures { IfOk result (λ found. found ≡ library_of name.now) }
{
    if !is_file_name(name) {
        return Ok(None);
    }
    Ok(Some(Line::Library(Text::from_bytes(alloc, name)?)))
}

fn script(alloc: Global, text: &[u8]) -> Result<Option<Line>, NoMemory>
    ensures { IfOk result (λ found. found ≡ script_of text.now) }
{
    let (path, rest) = path_split(text);
    let Some(name) = after(b" ", rest) else {
        return Ok(None);
    };
    if !is_path(path) {
        return Ok(None);
    }
    if !is_file_name(name) {
        return Ok(None);
    }
    let path = Text::from_bytes(alloc, path)?;
    Ok(Some(Line::Script(path, Text::from_bytes(alloc, name)?)))
}

fn database(alloc: Global, name: &[u8]) -> Result<Option<Line>, NoMemory>
    ensures { IfOk result (λ found. found ≡ database_of name.now) }
{
    if !is_database_name(name) {
        return Ok(None);
    }
    Ok(Some(Line::Database(Text::from_bytes(alloc, name)?)))
}

/// What a line says, where it says something.
#[tactic(auto, unfolding(crate::specs::Reading::line_of))]
pub(crate) fn read_line(alloc: Global, text: &[u8]) -> Result<Option<Line>, NoMemory>
    ensures { IfOk result (λ found. found ≡ line_of text.now) }
{
    if text == b"smlserver 1".as_slice() {
        return Ok(Some(Line::Header));
    }
    if let Some(name) = after(b"lib ", text) {
        return library(alloc, name);
    }
    if let Some(rest) = after(b"script ", text) {
        return script(alloc, rest);
    }
    if let Some(name) = after(b"database ", text) {
        return database(alloc, name);
    }
    if let Some(digits) = after(b"budget ", text) {
        return match count(digits, 1_000_000_000) {
            Some(n) => Ok(Some(Line::Budget(n))),
            None => Ok(None),
        };
    }
    if let Some(digits) = after(b"pages ", text) {
        return match count(digits, 65_536) {
            Some(n) => Ok(Some(Line::Pages(n))),
            None => Ok(None),
        };
    }
    Ok(None)
}
