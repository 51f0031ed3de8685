// The programs of a project's scripts.
ghost use Rattle.std.specs.Prelude.{◌≡◌, ◌++◌, [], ◌∷◌, length, IfOk, OnOk};
ghost use Rattle.sml_evaluation.specs.Page.{all_decs};
ghost use Rattle.script_loader.specs.Places.{of_libraries};
ghost use Rattle.script_loader.specs.Scripts.{scripts_of};
ghost use Rattle.script_loader.specs.Behind.{script_behind, scripts_behind};

use crate::load::ProjectTrees;
use project_lines::ProjectFile;
use sml_syntax::{Dec, Listed, NoMemory, Program, Text};
use std::alloc::Global;

/// A script with all that it stands on.
#[derive(Drop)]
pub(crate) struct ScriptProgram {
    /// The path of requests.
    pub path: Text,
    /// The name of the script's file.
    pub file: Text,
    /// The declarations of the prelude, of the libraries in their order, and of the script.
    pub program: Program,
    /// How many of them are the prelude's.
    pub prelude: u64,
    /// How many of them stand before the script's own.
    pub before: u64,
}

// What each script stands on: the declarations of the prelude and the libraries, and how many of them are the prelude's.
#[derive(Drop)]
struct Base {
    decs: Program,
    prelude: u64,
}

// Adds the declarations of a tree.
fn add_items(alloc: Global, decs: &mut Vec<Dec>, tree: &Program) -> Result<(), NoMemory>
    ensures { OnOk result (decs.new.items ≡ decs.old.items ++ tree.now.items) }
{
    for dec in tree.items.as_slice() {
        decs.push(dec.try_copy(alloc)?)?;
    }
    Ok(())
}

// Adds the declarations of a tree that is a library's.
fn add_library(
    alloc: Global,
    decs: &mut Vec<Dec>,
    file: &ProjectFile,
    tree: &Program,
) -> Result<(), NoMemory>
    ensures { OnOk result (decs.new.items ≡ decs.old.items ++ all_decs (of_libraries (file.now ∷ []) (tree.now ∷ []))) }
{
    match file {
        ProjectFile::Library(_) => add_items(alloc, decs, tree),
        ProjectFile::Script(_, _) => Ok(()),
    }
}

// Adds the declarations of the libraries.
fn add_libraries(
    alloc: Global,
    decs: &mut Vec<Dec>,
    files: &[ProjectFile],
    trees: &[Program],
) -> Result<(), NoMemory>
    ensures { OnOk result (decs.new.items ≡ decs.old.items ++ all_decs (of_libraries files.now trees.now)) }
{
    for i in 0..files.len().min(trees.len()) {
        add_library(alloc, decs, &files[i], &trees[i])?;
    }
    Ok(())
}

// A script whose declarations stand behind others.
fn script_behind(
    alloc: Global,
    base: &Base,
    path: &Text,
    file: &Text,
    tree: &Program,
) -> Result<ScriptProgram, NoMemory>
    ensures { IfOk result (λ script. script ≡ script_behind base.now path.now file.now tree.now) }
{
    let mut items = Vec::new(alloc);
    add_items(alloc, &mut items, &base.decs)?;
    add_items(alloc, &mut items, tree)?;
    let program = Program {
        items: Listed::of(items),
    };
    let path = path.try_copy(alloc)?;
    let file = file.try_copy(alloc)?;
    Ok(ScriptProgram {
        path,
        file,
        program,
        prelude: base.prelude,
        before: base.decs.items.as_slice().len() as u64,
    })
}

// Adds a file that is a script.
fn add_script(
    alloc: Global,
    scripts: &mut Vec<ScriptProgram>,
    base: &Base,
    file: &ProjectFile,
    tree: &Program,
) -> Result<(), NoMemory>
    ensures { OnOk result (scripts.new.items ≡ scripts.old.items ++ scripts_behind base.now (file.now ∷ []) (tree.now ∷ [])) }
{
    match file {
        ProjectFile::Library(_) => Ok(()),
        ProjectFile::Script(path, name) => {
            scripts.push(script_behind(alloc, base, path, name, tree)?)?;
            Ok(())
        }
    }
}

// The scripts, each with its declarations behind others.
fn scripts_behind(
    alloc: Global,
    base: &Base,
    files: &[ProjectFile],
    trees: &[Program],
) -> Result<Vec<ScriptProgram>, NoMemory>
    ensures { IfOk result (λ scripts. scripts.items ≡ scripts_behind base.now files.now trees.now) }
{
    let mut scripts = Vec::new(alloc);
    for i in 0..files.len().min(trees.len()) {
        add_script(alloc, &mut scripts, base, &files[i], &trees[i])?;
    }
    Ok(scripts)
}

/// The program of each script of a project, in the project's order. A script takes all libraries, those also that stand
/// behind it.
#[tactic(auto, using(crate::proofs::Programs::same_scripts))]
pub(crate) fn script_programs(
    alloc: Global,
    project: &ProjectTrees,
) -> Result<Vec<ScriptProgram>, NoMemory>
    ensures { IfOk result (λ scripts. scripts.items ≡ scripts_of project.now) }
{
    let files = project.project.files.as_slice();
    let trees = project.trees.as_slice();
    let mut items = Vec::new(alloc);
    add_items(alloc, &mut items, &project.prelude)?;
    let prelude = items.len() as u64;
    add_libraries(alloc, &mut items, files, trees)?;
    let decs = Program {
        items: Listed::of(items),
    };
    scripts_behind(alloc, &Base { decs, prelude }, files, trees)
}
