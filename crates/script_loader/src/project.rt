// A project file, and the files that it names.
ghost use Rattle.std.specs.Prelude.{◌≡◌, ◌≤◌, IfOk, IfErr};
ghost use Rattle.script_loader.specs.Refusals.{IsTold};
ghost use Rattle.script_loader.specs.Project.{HoldsProject, HoldsFiles, IsBadFile, IsUnreadable};

use crate::refusal::{LoadRefusal, line_refusal};
use crate::source::{Source, read_sources, read_text};
use outside_world::Files;
use project_lines::{Project, read_project};
use sml_syntax::Text;
use std::alloc::Global;

/// The greatest number of bytes of a project file and the files that it names.
const MOST: u64 = 1 << 20;

/// A project, and the files that it names with their texts.
#[derive(Drop)]
pub(crate) struct ProjectSources {
    pub project: Project,
    pub sources: Vec<Source>,
}

// The project, and how many bytes are left of the limit.
#[tactic(auto, using(crate::proofs::Read::told_bad_line, crate::proofs::Read::told_unread))]
fn read_file<F: Files>(
    alloc: Global,
    files: &mut F,
    name: &Text,
) -> Result<(Project, u64), LoadRefusal>
    ensures read { IfOk result (λ read. HoldsProject (F.contents files.old) name.now read.0 read.1) }
    ensures refused { IfErr result (IsTold (IsBadFile (F.contents files.old) (F.file_count files.old) (F.file_count files.new) name.now)) }
    ensures same { F.contents files.new ≡ F.contents files.old }
    ensures count { F.file_count files.old ≤ F.file_count files.new }
    ensures keeps { F.kept files.new ≡ F.kept files.old }
{
    let text = read_text(alloc, files, name, name, MOST)?;
    match read_project(alloc, text.as_bytes()) {
        Ok(project) => Ok((project, MOST - text.len())),
        Err(refusal) => Err(line_refusal(alloc, name, refusal)),
    }
}

/// The project of this name, and the files that it names.
pub(crate) fn read_files<F: Files>(
    alloc: Global,
    files: &mut F,
    name: &Text,
) -> Result<ProjectSources, LoadRefusal>
    ensures read { IfOk result (λ read. HoldsFiles (F.contents files.old) name.now read.project read.sources.items) }
    ensures refused { IfErr result (IsTold (IsUnreadable (F.contents files.old) (F.file_count files.old) (F.file_count files.new) name.now)) }
    ensures same { F.contents files.new ≡ F.contents files.old }
    ensures count { F.file_count files.old ≤ F.file_count files.new }
    ensures keeps { F.kept files.new ≡ F.kept files.old }
{
    let (project, left) = read_file(alloc, files, name)?;
    let sources = read_sources(alloc, files, name, project.files.as_slice(), left)?;
    Ok(ProjectSources { project, sources })
}
