// The trees of a project.
ghost use Rattle.std.specs.Prelude.{◌≡◌, ◌≤◌, [], ◌∷◌, IfOk, IfErr};
ghost use Rattle.script_loader.specs.Refusals.{IsTold};
ghost use Rattle.script_loader.specs.Places.{prelude_source};
ghost use Rattle.script_loader.specs.Trees.{IsTreeOf};
ghost use Rattle.script_loader.specs.Cause.{IsFirstMistake, LoadCause, HasTrees};

use crate::placed::{Placed, place_texts, prelude_source};
use crate::project::{ProjectSources, read_files};
use crate::refusal::LoadRefusal;
use crate::trees::{source_tree, source_trees};
use outside_world::Files;
use project_lines::Project;
use sml_syntax::{Listed, Program, Text};
use std::alloc::Global;

/// A project, and the trees of the prelude and of the files that it names.
#[derive(Drop)]
pub(crate) struct ProjectTrees {
    pub project: Project,
    pub prelude: Program,
    /// One for each file of the project, in its order.
    pub files: Listed<Placed>,
    /// One for each file of the project, in its order.
    pub trees: Listed<Program>,
}

/// Reads a project and its files, and gives their trees. Each file is read before any is cut into tokens, and each is cut
/// before any is parsed.
pub(crate) fn load_trees<F: Files>(
    alloc: Global,
    files: &mut F,
    project: &Text,
) -> Result<ProjectTrees, LoadRefusal>
    ensures trees { IfOk result (HasTrees (F.contents files.old) project.now) }
    ensures cause { IfErr result (IsTold (LoadCause (F.contents files.old) (F.file_count files.old) (F.file_count files.new) project.now)) }
    ensures same { F.contents files.new ≡ F.contents files.old }
    ensures count { F.file_count files.old ≤ F.file_count files.new }
    ensures keeps { F.kept files.new ≡ F.kept files.old }
{
    let source = prelude_source(alloc)?;
    let prelude = source_tree(alloc, &source)?;
    let ProjectSources { project, sources } = read_files(alloc, files, project)?;
    let texts = place_texts(alloc, source.text.len(), project.files.as_slice(), &sources)?;
    let trees = Listed::of(source_trees(alloc, &texts)?);
    let files = Listed::of(texts);
    Ok(ProjectTrees {
        project,
        prelude,
        files,
        trees,
    })
}
