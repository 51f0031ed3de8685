// The page of a script.
ghost use Rattle.std.specs.Prelude.{◌≡◌, drop, IfOk, Some};
ghost use Rattle.std.specs.Option.{option_copied};
ghost use Rattle.script_loader.specs.declared.refusal.LoadRefusal.TheVariants as refusal;
ghost use Rattle.smlserver_top.specs.Databases.{same_names};
ghost use Rattle.smlserver_top.specs.Page.{program_of, programs_of, own_items, IsTheLine, IsScriptAnswer, IsPathAnswer, IsLoadedAnswer};
ghost use Rattle.smlserver_top.specs.Script.{script_in};

use crate::answer::{Answer, answer_of, not_built_answer, refusal_answer};
use crate::compile::written;
use crate::databases::same_names;
use crate::straight::{StraightError, straight_parts};
use script_loader::{FrontScript, LoadRefusal, LoadedFront};
use sml_syntax::{Dec, NoMemory, Text};
use std::alloc::Global;

// The script under a path.
fn script_in<'a>(path: &[u8], scripts: &'a [FrontScript]) -> Option<&'a FrontScript>
    ensures { option_copied result ≡ script_in path.now scripts.now }
{
    for script in scripts {
        if script.path.as_bytes() == path {
            return Some(script);
        }
    }
    None
}

// The declarations of a script's own file.
fn own_items(script: &FrontScript) -> &[Dec]
    ensures { result.now ≡ own_items (program_of script.now) }
{
    let items = script.typed.program.items.as_slice();
    if script.before >= items.len() as u64 {
        return &[];
    }
    &items[script.before as usize..]
}

// What a script answers.
fn script_answer(alloc: Global, script: &FrontScript) -> Result<Answer, NoMemory>
    ensures { IfOk result (λ answer. IsScriptAnswer (Some (program_of script.now)) answer.status answer.text) }
{
    if script.before != script.prelude {
        return not_built_answer(alloc, &script.file);
    }
    match straight_parts(alloc, own_items(script)) {
        Ok(parts) => {
            let text = written(alloc, &parts)?;
            Ok(Answer { status: 0, text })
        }
        Err(StraightError::NotForm) => not_built_answer(alloc, &script.file),
        Err(StraightError::NoMemory) => Err(NoMemory),
    }
}

// What the scripts of a project answer at a path.
fn path_answer(alloc: Global, front: &LoadedFront, path: &[u8]) -> Result<Answer, NoMemory>
    ensures { IfOk result (λ answer. IsPathAnswer path.now (programs_of front.now) answer.status answer.text) }
{
    match script_in(path, front.scripts.as_slice()) {
        Some(script) => script_answer(alloc, script),
        None => answer_of(alloc, 1, b"404 no script"),
    }
}

// The answer where the databases that are given aren't those that the project names.
fn names_answer(alloc: Global, project: &[u8]) -> Result<Answer, NoMemory>
    ensures { IfOk result (λ answer. IsTheLine (refusal.DatabaseNames project.now 0) answer.status answer.text) }
{
    let file = Text::from_bytes(alloc, project)?;
    let refusal = LoadRefusal::DatabaseNames { file, place: 0 };
    refusal_answer(alloc, &refusal)
}

/// What a project that is loaded answers at a path, where databases of these names are given.
pub(crate) fn loaded_answer(
    alloc: Global,
    front: &LoadedFront,
    given: &[Text],
    project: &[u8],
    path: &[u8],
) -> Result<Answer, NoMemory>
    ensures { IfOk result (λ answer. IsLoadedAnswer (same_names given.now front.now.project.databases) project.now path.now (programs_of front.now) answer.status answer.text) }
{
    if same_names(given, front.project.databases.as_slice()) {
        path_answer(alloc, front, path)
    } else {
        names_answer(alloc, project)
    }
}
