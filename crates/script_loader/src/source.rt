// The files of a project with their texts, which are read in the project's order.
ghost use Rattle.std.specs.Prelude.{◌≡◌, ◌≤◌, ◌++◌, ◌∷◌, [], length, IfOk, IfErr};
ghost use Rattle.outside_world.specs.Told.{HoldsFile};
ghost use Rattle.script_loader.specs.Refusals.{IsTold};
ghost use Rattle.script_loader.specs.Sources.{name_of, bytes_of, AreRead, IsUnread, IsFirstUnread};
ghost use Rattle.script_loader.specs.Reading.{TakesFile};

use crate::refusal::{LoadRefusal, file_fault, too_large};
use outside_world::{FileRefusal, Files};
use project_lines::ProjectFile;
use sml_syntax::Text;
use std::alloc::Global;

/// A file of a project, and its text.
#[derive(Drop)]
pub(crate) struct Source {
    pub name: Text,
    pub text: Text,
}

fn name_of(file: &ProjectFile) -> &Text
    ensures { result.now ≡ name_of file.now }
{
    match file {
        ProjectFile::Library(name) => name,
        ProjectFile::Script(_, name) => name,
    }
}

/// The text of a file, of at most `left` bytes.
#[tactic(auto, using(crate::proofs::Read::told_absent, crate::proofs::Read::told_failed, crate::proofs::Read::told_long))]
pub(crate) fn read_text<F: Files>(
    alloc: Global,
    files: &mut F,
    project: &Text,
    name: &Text,
    left: u64,
) -> Result<Text, LoadRefusal>
    ensures text { IfOk result (λ text. HoldsFile (F.contents files.old) name.now text) }
    ensures within { IfOk result (λ text. length text ≤ left) }
    ensures refused { IfErr result (IsTold (IsUnread (F.contents files.old) (F.file_count files.old) (F.file_count files.new) project.now left name.now)) }
    ensures same { F.contents files.new ≡ F.contents files.old }
    ensures count { F.file_count files.old ≤ F.file_count files.new }
    ensures keeps { F.kept files.new ≡ F.kept files.old }
{
    match files.read_file(name, left) {
        Ok(text) => Ok(text),
        Err(FileRefusal::Long) => Err(too_large(alloc, project)),
        Err(FileRefusal::Absent) => Err(file_fault(alloc, name)),
        Err(FileRefusal::Failed) => Err(file_fault(alloc, name)),
        Err(FileRefusal::NoMemory) => Err(LoadRefusal::NoMemory),
    }
}

// Reads one more file, and answers how many bytes are left after it.
fn read_more<F: Files>(
    alloc: Global,
    files: &mut F,
    project: &Text,
    file: &ProjectFile,
    left: u64,
    sources: &mut Vec<Source>,
) -> Result<u64, LoadRefusal>
    ensures ok { IfOk result (λ then. TakesFile (F.contents files.old) file.now left sources.old.items then sources.new.items) }
    ensures refused { IfErr result (IsTold (IsUnread (F.contents files.old) (F.file_count files.old) (F.file_count files.new) project.now left (name_of file.now))) }
    ensures same { F.contents files.new ≡ F.contents files.old }
    ensures count { F.file_count files.old ≤ F.file_count files.new }
    ensures keeps { F.kept files.new ≡ F.kept files.old }
{
    let text = read_text(alloc, files, project, name_of(file), left)?;
    let name = name_of(file).try_copy(alloc)?;
    let then = left - text.len();
    sources.push(Source { name, text })?;
    Ok(then)
}

/// The texts of files, in their order, of at most `most` bytes together. `TooLarge` names the project.
#[tactic(auto, using(crate::proofs::Read::none_read, crate::proofs::Read::all_read, crate::proofs::Read::all_within))]
pub(crate) fn read_sources<F: Files>(
    alloc: Global,
    files: &mut F,
    project: &Text,
    named: &[ProjectFile],
    most: u64,
) -> Result<Vec<Source>, LoadRefusal>
    ensures read { IfOk result (λ sources. AreRead (F.contents files.old) named.now sources.items) }
    ensures within { IfOk result (λ sources. bytes_of sources.items ≤ most) }
    ensures refused { IfErr result (IsTold (IsFirstUnread (F.contents files.old) (F.file_count files.old) (F.file_count files.new) project.now most named.now)) }
    ensures same { F.contents files.new ≡ F.contents files.old }
    ensures count { F.file_count files.old ≤ F.file_count files.new }
    ensures keeps { F.kept files.new ≡ F.kept files.old }
{
    let mut sources = Vec::new(alloc);
    let mut left = most;
    for file in named {
        left = read_more(alloc, files, project, file, left, &mut sources)?;
    }
    Ok(sources)
}
