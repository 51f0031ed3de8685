// What is said to people of a refusal.
ghost use Rattle.std.specs.Prelude.{◌≡◌, ◌≤◌, ◌++◌, ℕ, List, Option, IfOk, OnOk, IfSome, IsNone};
ghost use Rattle.std.specs.Option.{option_copied};
ghost use Rattle.outside_world.specs.Told.{HoldsFile};
ghost use Rattle.smlserver_top.specs.RefusedLine.{Tells};
ghost use Rattle.smlserver_top.specs.Explained.{on_file, on_line, head_at, marked_at, on_place, shows_of, IsUnread, IsSaid, IsExplained};

use crate::place::{feeds, first_line, last_line, push_blanks, source_line, split_at};
use crate::sentences::{Shows, sentence_of, shows_of};
use crate::told::{Told, read_told};
use outside_world::{FileRefusal, Files};
use sml_syntax::{NoMemory, Text};
use std::alloc::Global;

/// The greatest length of a text that is read for an explanation.
const MOST: u64 = 1 << 20;

// The text of a file, where it can be read.
fn text_of<F: Files>(files: &mut F, name: &Text) -> Result<Option<Text>, NoMemory>
    ensures text { IfOk result (λ found. IfSome found (HoldsFile (F.contents files.old) name.now)) }
    ensures none { IfOk result (λ found. IsNone found → IsUnread (F.contents files.old) (F.file_count files.old) (F.file_count files.new) name.now) }
    ensures same { F.contents files.new ≡ F.contents files.old }
    ensures count { F.file_count files.old ≤ F.file_count files.new }
    ensures keeps { F.kept files.new ≡ F.kept files.old }
{
    match files.read_file(name, MOST) {
        Ok(text) => Ok(Some(text)),
        Err(FileRefusal::Long) => Ok(None),
        Err(FileRefusal::Absent) => Ok(None),
        Err(FileRefusal::Failed) => Ok(None),
        Err(FileRefusal::NoMemory) => Err(NoMemory),
    }
}

// A sentence on a file as a whole.
fn on_file(alloc: Global, file: &[u8], sentence: &str) -> Result<Text, NoMemory>
    ensures { IfOk result (λ text. text ≡ on_file file.now sentence.now) }
{
    let mut text = Vec::from_slice(alloc, file)?;
    text.extend_from_slice(b": ")?;
    text.extend_from_slice(sentence.as_bytes())?;
    text.push(b'\n')?;
    Ok(Text::from_vec(text))
}

// A sentence on a line.
fn on_line(
    alloc: Global,
    file: &[u8],
    source: &[u8],
    number: u64,
    sentence: &str,
) -> Result<Text, NoMemory>
    ensures { IfOk result (λ text. text ≡ on_line file.now source.now number sentence.now) }
{
    let mut text = Vec::from_slice(alloc, file)?;
    text.push(b':')?;
    text.extend_from_slice(number.to_string(alloc)?.as_bytes())?;
    text.extend_from_slice(b": ")?;
    text.extend_from_slice(sentence.as_bytes())?;
    text.push(b'\n')?;
    text.extend_from_slice(source_line(number, source))?;
    text.push(b'\n')?;
    Ok(Text::from_vec(text))
}

// A file, and the line and the column of a place in it.
fn head_at(alloc: Global, file: &[u8], source: &[u8], place: u64) -> Result<Vec<u8>, NoMemory>
    ensures { IfOk result (λ text. text.items ≡ head_at file.now source.now place) }
{
    let (before, _) = split_at(source, place);
    let line = feeds(before) as u64 + 1;
    let column = last_line(before).len() as u64 + 1;
    let mut text = Vec::from_slice(alloc, file)?;
    text.push(b':')?;
    text.extend_from_slice(line.to_string(alloc)?.as_bytes())?;
    text.push(b':')?;
    text.extend_from_slice(column.to_string(alloc)?.as_bytes())?;
    text.extend_from_slice(b": ")?;
    Ok(text)
}

// Adds the line that holds a place, and a caret under it.
fn push_marked(text: &mut Vec<u8>, source: &[u8], place: u64) -> Result<(), NoMemory>
    ensures { OnOk result (text.new.items ≡ text.old.items ++ marked_at source.now place) }
{
    let (before, behind) = split_at(source, place);
    let front = last_line(before);
    text.extend_from_slice(front)?;
    text.extend_from_slice(first_line(behind))?;
    text.push(b'\n')?;
    push_blanks(text, front)?;
    text.extend_from_slice(b"^\n")?;
    Ok(())
}

// A sentence on a place.
fn on_place(
    alloc: Global,
    file: &[u8],
    source: &[u8],
    place: u64,
    sentence: &str,
) -> Result<Text, NoMemory>
    ensures { IfOk result (λ text. text ≡ on_place file.now source.now place sentence.now) }
{
    let mut text = head_at(alloc, file, source, place)?;
    text.extend_from_slice(sentence.as_bytes())?;
    text.push(b'\n')?;
    push_marked(&mut text, source, place)?;
    Ok(Text::from_vec(text))
}

// What is said of a line of the project file.
fn said_on_line(
    alloc: Global,
    project: &Text,
    source: Option<Text>,
    number: u64,
    sentence: &str,
) -> Result<Text, NoMemory>
    ensures read { IfOk result (λ text. IfSome source (λ source. text ≡ on_line project.now source number sentence.now)) }
    ensures unread { IfOk result (λ text. IsNone source → text ≡ on_file project.now sentence.now) }
{
    let project = project.as_bytes();
    match source {
        Some(source) => on_line(alloc, project, source.as_bytes(), number, sentence),
        None => on_file(alloc, project, sentence),
    }
}

// What is said of a place in a file.
fn said_on_place<F: Files>(
    alloc: Global,
    files: &mut F,
    file: &[u8],
    place: u64,
    sentence: &str,
) -> Result<Text, NoMemory>
    ensures said { IfOk result (IsSaid (F.contents files.old) (F.file_count files.old) (F.file_count files.new) file.now sentence.now (λ source. on_place file.now source place sentence.now)) }
    ensures same { F.contents files.new ≡ F.contents files.old }
    ensures count { F.file_count files.old ≤ F.file_count files.new }
    ensures keeps { F.kept files.new ≡ F.kept files.old }
{
    let name = Text::from_bytes(alloc, file)?;
    match text_of(files, &name)? {
        Some(source) => on_place(alloc, file, source.as_bytes(), place, sentence),
        None => on_file(alloc, file, sentence),
    }
}

// What is said of what a line tells. The project's file is read first.
fn say<F: Files>(alloc: Global, files: &mut F, project: &Text, told: Told) -> Result<Text, NoMemory>
    ensures said { IfOk result (λ text. (sentence : List ℕ) × IsExplained (F.contents files.old) (F.file_count files.old) (F.file_count files.new) project.now told.entry.file.now told.entry.place sentence (shows_of told.entry.name.now (option_copied told.entry.lack)) text) }
    ensures same { F.contents files.new ≡ F.contents files.old }
    ensures count { F.file_count files.old ≤ F.file_count files.new }
    ensures keeps { F.kept files.new ≡ F.kept files.old }
{
    let source = text_of(files, project)?;
    let sentence = sentence_of(told.name, told.lack);
    match shows_of(told.name, told.lack) {
        Shows::Line => said_on_line(alloc, project, source, told.place, sentence),
        Shows::Place => said_on_place(alloc, files, told.file, told.place, sentence),
        Shows::Whole => on_file(alloc, told.file, sentence),
    }
}

/// What the line of a refusal of this project means, for people: the file and the place, a sentence that says what is wrong
/// and what to do, the line of the file and a caret under the place. The project's file is read first, and then the file that
/// is told. Of another line nothing is said.
pub fn explain<F: Files>(
    alloc: Global,
    files: &mut F,
    project: &Text,
    line: &[u8],
) -> Result<Text, NoMemory>
    ensures explained { IfOk result (λ text. (file : List ℕ) → (place : ℕ) → (name : List ℕ) → (lack : Option (List ℕ)) → Tells line.now file place name lack
        → (sentence : List ℕ) × IsExplained (F.contents files.old) (F.file_count files.old) (F.file_count files.new) project.now file place sentence (shows_of name lack) text) }
    ensures same { F.contents files.new ≡ F.contents files.old }
    ensures count { F.file_count files.old ≤ F.file_count files.new }
    ensures keeps { F.kept files.new ≡ F.kept files.old }
{
    match read_told(line) {
        Some(told) => say(alloc, files, project, told),
        None => Ok(Text::from_vec(Vec::new(alloc))),
    }
}
