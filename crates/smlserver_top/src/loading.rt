// A project as it is loaded for a command.
ghost use Rattle.std.specs.Prelude.{◌≡◌, ◌≤◌, List, ℕ, IfOk, Some};
ghost use Rattle.script_loader.specs.Cause.{LoadCause, HasTrees, AreSure};
ghost use Rattle.script_loader.specs.Front.{IsUnboundIn};
ghost use Rattle.script_loader.specs.Seen.{Trees};
ghost use Rattle.script_loader.specs.declared.refusal.LoadRefusal.{LoadRefusal as RefusalSeen};
ghost use Rattle.smlserver_top.specs.Loading.{IsLoading, IsCauseLoading, IsTreesLoading, IsUnboundLoading};

use crate::answer::{Answer, refusal_answer};
use outside_world::Files;
use script_loader::{LoadRefusal, LoadedFront, load_front};
use sml_syntax::{NoMemory, Text};
use std::alloc::Global;

/// A project's front, or the answer that it isn't loaded.
#[derive(Drop)]
pub(crate) enum Loading {
    Front(LoadedFront),
    Refused(Answer),
}

/// Loads a project.
pub(crate) fn load_project<F: Files>(
    alloc: Global,
    files: &mut F,
    project: &[u8],
) -> Result<Loading, NoMemory>
    ensures told { IfOk result (IsLoading (F.contents files.old) (F.file_count files.old) (F.file_count files.new) project.now) }
    ensures cause_where { AreSure (F.contents files.old) (F.file_count files.old) (F.file_count files.new) → (e : RefusalSeen) → LoadCause (F.contents files.old) (F.file_count files.old) (F.file_count files.new) project.now e → IfOk result (IsCauseLoading e) }
    ensures trees_where { AreSure (F.contents files.old) (F.file_count files.old) (F.file_count files.new) → (trees : Trees) → HasTrees (F.contents files.old) project.now trees → IfOk result (IsTreesLoading trees) }
    ensures unbound_where { AreSure (F.contents files.old) (F.file_count files.old) (F.file_count files.new) → (trees : Trees) → HasTrees (F.contents files.old) project.now trees → (e : RefusalSeen) → IsUnboundIn trees e → IfOk result (IsUnboundLoading trees e) }
    ensures same { F.contents files.new ≡ F.contents files.old }
    ensures count { F.file_count files.old ≤ F.file_count files.new }
    ensures keeps { F.kept files.new ≡ F.kept files.old }
{
    let project = Text::from_bytes(alloc, project)?;
    match load_front(alloc, files, &project) {
        Ok(front) => Ok(Loading::Front(front)),
        Err(refusal) => Ok(Loading::Refused(refusal_answer(alloc, &refusal)?)),
    }
}
