// The front of a project: its lines, and its scripts with their types.
ghost use Rattle.std.specs.Prelude.{◌≡◌, ◌≤◌, IfOk, IfErr};
ghost use Rattle.script_loader.specs.Refusals.{IsTold};
ghost use Rattle.script_loader.specs.Cause.{LoadCause, HasTrees, AreSure};
ghost use Rattle.script_loader.specs.Front.{IsFrontOf, HasFront, IsUnboundIn, TypeCause, FrontCause, GivesCause, GivesFront, GivesUnbound};
ghost use Rattle.script_loader.specs.declared.load.ProjectTrees.{ProjectTrees as TreesSeen};
ghost use Rattle.script_loader.specs.declared.refusal.LoadRefusal.{LoadRefusal as RefusalSeen};

use crate::load::{ProjectTrees, load_trees};
use crate::refusal::LoadRefusal;
use crate::typing::type_scripts;
use hm_infer::Typed;
use outside_world::Files;
use project_lines::Project;
use sml_syntax::{Listed, Text};
use std::alloc::Global;

/// A project, and its scripts with their types.
#[derive(Drop)]
pub struct LoadedFront {
    pub project: Project,
    /// One for each script line, in the project's order.
    pub scripts: Listed<FrontScript>,
}

/// A script with the types of its program: the declarations of the prelude, of the libraries in their order, and of the
/// script. Places in it count from the start of the prelude's text, each text following the one before.
#[derive(Drop)]
pub struct FrontScript {
    /// The path of requests.
    pub path: Text,
    /// The name of the script's file.
    pub file: Text,
    pub typed: Typed,
    /// How many of the program's declarations are the prelude's.
    pub prelude: u64,
    /// How many of them stand before the script's own.
    pub before: u64,
}

/// Reads a project and its files, and gives its scripts with their types. Each file is read before any is cut into tokens,
/// each is cut before any is parsed, and each is parsed before any script is typed. The first mistake in this order is
/// answered; a script's types are asked for only where those of the scripts before it were found. After a refusal nothing
/// is held back.
pub fn load_front<F: Files>(
    alloc: Global,
    files: &mut F,
    project: &Text,
) -> Result<LoadedFront, LoadRefusal>
    ensures front { IfOk result (HasFront (F.contents files.old) project.now) }
    ensures cause { IfErr result (IsTold (FrontCause (F.contents files.old) (F.file_count files.old) (F.file_count files.new) project.now)) }

    // Where the files tell what they hold and no read fails, each of these comes wherever it may.
    ensures cause_where { AreSure (F.contents files.old) (F.file_count files.old) (F.file_count files.new) → (e : RefusalSeen) → LoadCause (F.contents files.old) (F.file_count files.old) (F.file_count files.new) project.now e → GivesCause result e }
    ensures trees_where { AreSure (F.contents files.old) (F.file_count files.old) (F.file_count files.new) → (trees : TreesSeen) → HasTrees (F.contents files.old) project.now trees → GivesFront result trees }
    ensures unbound_where { AreSure (F.contents files.old) (F.file_count files.old) (F.file_count files.new) → (trees : TreesSeen) → HasTrees (F.contents files.old) project.now trees → (e : RefusalSeen) → IsUnboundIn trees e → GivesUnbound result trees e }
    ensures same { F.contents files.new ≡ F.contents files.old }
    ensures count { F.file_count files.old ≤ F.file_count files.new }
    ensures keeps { F.kept files.new ≡ F.kept files.old }
{
    find_front(alloc, files, project)
}

fn find_front<F: Files>(
    alloc: Global,
    files: &mut F,
    project: &Text,
) -> Result<LoadedFront, LoadRefusal>
    ensures front { IfOk result (HasFront (F.contents files.old) project.now) }
    ensures cause { IfErr result (IsTold (FrontCause (F.contents files.old) (F.file_count files.old) (F.file_count files.new) project.now)) }
    ensures same { F.contents files.new ≡ F.contents files.old }
    ensures count { F.file_count files.old ≤ F.file_count files.new }
    ensures keeps { F.kept files.new ≡ F.kept files.old }
{
    let trees = load_trees(alloc, files, project)?;
    front_of(alloc, trees)
}

// The front of a project with these trees.
fn front_of(alloc: Global, trees: ProjectTrees) -> Result<LoadedFront, LoadRefusal>
    ensures front { IfOk result (IsFrontOf trees) }
    ensures refused { IfErr result (IsTold (TypeCause trees)) }
{
    let scripts = Listed::of(type_scripts(alloc, &trees)?);
    let ProjectTrees { project, .. } = trees;
    Ok(LoadedFront { project, scripts })
}
