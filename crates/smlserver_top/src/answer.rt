// Answers of commands.
ghost use Rattle.std.specs.Prelude.{◌≡◌, IfOk};
ghost use Rattle.smlserver_top.specs.Refusal.{not_built_line};
ghost use Rattle.smlserver_top.specs.Page.{IsTheLine};

use crate::refusal::{line_of, refused_line};
use script_loader::LoadRefusal;
use sml_syntax::{NoMemory, Text};
use std::alloc::Global;

/// The exit status of a command, and what it writes.
#[derive(Drop)]
pub(crate) struct Answer {
    pub status: u8,
    pub text: Text,
}

pub(crate) fn answer_of(alloc: Global, status: u8, bytes: &[u8]) -> Result<Answer, NoMemory>
    ensures { IfOk result (λ answer. answer ≡ record { status = status; text = bytes.now }) }
{
    let text = Text::from_bytes(alloc, bytes)?;
    Ok(Answer { status, text })
}

/// The answer where a project isn't loaded.
pub(crate) fn refusal_answer(alloc: Global, refusal: &LoadRefusal) -> Result<Answer, NoMemory>
    ensures { IfOk result (λ answer. IsTheLine refusal.now answer.status answer.text) }
{
    let text = line_of(alloc, refusal)?;
    Ok(Answer { status: 3, text })
}

/// The answer where a script isn't run.
pub(crate) fn not_built_answer(alloc: Global, file: &Text) -> Result<Answer, NoMemory>
    ensures status { IfOk result (λ answer. answer.status ≡ 3) }
    ensures line { IfOk result (λ answer. answer.text ≡ not_built_line file.now) }
{
    let text = refused_line(alloc, file, 0, b"NotBuilt", None)?;
    Ok(Answer { status: 3, text })
}
