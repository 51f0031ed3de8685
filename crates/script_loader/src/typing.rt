// The types of a project's scripts.
ghost use Rattle.std.specs.Prelude.{◌≡◌, length, IfOk, IfErr};
ghost use Rattle.script_loader.specs.Lists.{Each, Stops};
ghost use Rattle.typing_rules.specs.Scope.{AllBound};
ghost use Rattle.hm_infer.specs.Numbering.{HasNodes};
ghost use Rattle.script_loader.specs.Refusals.{Tells, IsTold};
ghost use Rattle.script_loader.specs.Front.{IsTyped, TypeCause};
ghost use Rattle.script_loader.specs.Scripts.{scripts_of, texts_before};
ghost use Rattle.script_loader.specs.Untyped.{IsUntyped, typing, typing_at};

use crate::front::FrontScript;
use crate::load::ProjectTrees;
use crate::placed::place_in;
use crate::refusal::LoadRefusal;
use crate::scripts::{ScriptProgram, script_programs};
use hm_infer::{TypeRefusal, Typed, infer};
use sml_syntax::{NoMemory, Text};
use std::alloc::Global;

// A refusal of types at a place of a script's program, as one of a load.
fn type_refusal(
    alloc: Global,
    trees: &ProjectTrees,
    file: &Text,
    refusal: TypeRefusal,
) -> LoadRefusal
    ensures { Tells result (typing (texts_before trees.now) file.now refusal) }
{
    let place = match refusal {
        TypeRefusal::Unbound(place) => place,
        TypeRefusal::Ill(place) => place,
        TypeRefusal::NoMemory => return LoadRefusal::NoMemory,
    };
    let files = trees.project.files.as_slice();
    match place_in(alloc, files, trees.files.as_slice(), file, place) {
        Ok((file, place)) => named_typing(file, place, refusal),
        Err(NoMemory) => LoadRefusal::NoMemory,
    }
}

fn named_typing(file: Text, place: u64, refusal: TypeRefusal) -> LoadRefusal
    ensures { result ≡ typing_at file place refusal }
{
    match refusal {
        TypeRefusal::Unbound(_) => LoadRefusal::Unbound { file, place },
        TypeRefusal::Ill(_) => LoadRefusal::Ill { file, place },
        TypeRefusal::NoMemory => LoadRefusal::NoMemory,
    }
}

// A script with the types of its program.
fn typed_script(
    alloc: Global,
    script: &ScriptProgram,
    typed: Typed,
) -> Result<FrontScript, NoMemory>
    requires program { typed.program ≡ script.now.program }
    requires types { HasNodes script.now.program (length typed.types) }
    requires bound { AllBound script.now.program }
    ensures { IfOk result (IsTyped script.now) }
{
    Ok(FrontScript {
        path: script.path.try_copy(alloc)?,
        file: script.file.try_copy(alloc)?,
        typed,
        prelude: script.prelude,
        before: script.before,
    })
}

fn type_script(
    alloc: Global,
    trees: &ProjectTrees,
    script: &ScriptProgram,
) -> Result<FrontScript, LoadRefusal>
    ensures typed { IfOk result (IsTyped script.now) }
    ensures refused { IfErr result (IsTold (IsUntyped (texts_before trees.now) script.now)) }
{
    match infer(alloc, &script.program) {
        Ok(typed) => Ok(typed_script(alloc, script, typed)?),
        Err(refusal) => Err(type_refusal(alloc, trees, &script.file, refusal)),
    }
}

// The scripts, each with the types of its program, in their order.
fn type_programs(
    alloc: Global,
    trees: &ProjectTrees,
    scripts: &[ScriptProgram],
) -> Result<Vec<FrontScript>, LoadRefusal>
    ensures typed { IfOk result (λ typed. Each IsTyped scripts.now typed.items) }
    ensures refused { IfErr result (IsTold (Stops IsTyped (IsUntyped (texts_before trees.now)) scripts.now)) }
{
    let mut typed = Vec::new(alloc);
    for script in scripts {
        typed.push(type_script(alloc, trees, script)?)?;
    }
    Ok(typed)
}

/// The scripts of a project with the types of their programs.
#[tactic(auto, using(crate::proofs::Untyped::told_untyped))]
pub(crate) fn type_scripts(
    alloc: Global,
    trees: &ProjectTrees,
) -> Result<Vec<FrontScript>, LoadRefusal>
    ensures typed { IfOk result (λ typed. Each IsTyped (scripts_of trees.now) typed.items) }
    ensures refused { IfErr result (IsTold (TypeCause trees.now)) }
{
    let scripts = script_programs(alloc, trees)?;
    type_programs(alloc, trees, &scripts)
}
