// The answers of the commands.
ghost use Rattle.std.specs.Prelude.{◌≡◌, ◌<◌, ◌≤◌, List, ℕ, map, IfOk, Some};
ghost use Rattle.script_loader.specs.Cause.{LoadCause, HasTrees, AreSure};
ghost use Rattle.script_loader.specs.Front.{IsUnboundIn};
ghost use Rattle.script_loader.specs.Seen.{Trees};
ghost use Rattle.script_loader.specs.declared.refusal.LoadRefusal.{LoadRefusal as RefusalSeen};
ghost use Rattle.smlserver_top.specs.Words.{IsPageCommand, IsCheckCommand, AsksFor};
ghost use Rattle.smlserver_top.specs.Databases.{given_by};
ghost use Rattle.smlserver_top.specs.Page.{IsPageAnswer, IsCheckAnswer, IsTheLine, IsPageOfTrees, IsCheckOfTrees, IsUnboundAnswer};
ghost use Rattle.smlserver_top.specs.Commands.{IsAnswer};

use crate::answer::{Answer, answer_of};
use crate::loading::{Loading, load_project};
use crate::page::loaded_answer;
use crate::words::{check_words, page_words};
use outside_world::Files;
use sml_syntax::{NoMemory, Text};
use std::alloc::Global;

// What `page` answers, where databases of these names are given.
fn page_answer<F: Files>(
    alloc: Global,
    files: &mut F,
    given: &[Text],
    project: &[u8],
    path: &[u8],
) -> Result<Answer, NoMemory>
    ensures told { IfOk result (λ answer. IsPageAnswer (F.contents files.old) (F.file_count files.old) (F.file_count files.new) given.now project.now path.now answer.status answer.text) }
    ensures cause_where { AreSure (F.contents files.old) (F.file_count files.old) (F.file_count files.new) → (e : RefusalSeen) → LoadCause (F.contents files.old) (F.file_count files.old) (F.file_count files.new) project.now e → IfOk result (λ answer. IsTheLine e answer.status answer.text) }
    ensures trees_where { AreSure (F.contents files.old) (F.file_count files.old) (F.file_count files.new) → (trees : Trees) → HasTrees (F.contents files.old) project.now trees → IfOk result (λ answer. IsPageOfTrees given.now trees project.now path.now answer.status answer.text) }
    ensures unbound_where { AreSure (F.contents files.old) (F.file_count files.old) (F.file_count files.new) → (trees : Trees) → HasTrees (F.contents files.old) project.now trees → (e : RefusalSeen) → IsUnboundIn trees e → IfOk result (λ answer. IsUnboundAnswer trees e answer.status answer.text) }
    ensures same { F.contents files.new ≡ F.contents files.old }
    ensures count { F.file_count files.old ≤ F.file_count files.new }
    ensures keeps { F.kept files.new ≡ F.kept files.old }
{
    match load_project(alloc, files, project)? {
        Loading::Front(front) => loaded_answer(alloc, &front, given, project, path),
        Loading::Refused(answer) => Ok(answer),
    }
}

// What `check` answers.
fn check_answer<F: Files>(alloc: Global, files: &mut F, project: &[u8]) -> Result<Answer, NoMemory>
    ensures told { IfOk result (λ answer. IsCheckAnswer (F.contents files.old) (F.file_count files.old) (F.file_count files.new) project.now answer.status answer.text) }
    ensures cause_where { AreSure (F.contents files.old) (F.file_count files.old) (F.file_count files.new) → (e : RefusalSeen) → LoadCause (F.contents files.old) (F.file_count files.old) (F.file_count files.new) project.now e → IfOk result (λ answer. IsTheLine e answer.status answer.text) }
    ensures trees_where { AreSure (F.contents files.old) (F.file_count files.old) (F.file_count files.new) → (trees : Trees) → HasTrees (F.contents files.old) project.now trees → IfOk result (λ answer. IsCheckOfTrees trees answer.status answer.text) }
    ensures unbound_where { AreSure (F.contents files.old) (F.file_count files.old) (F.file_count files.new) → (trees : Trees) → HasTrees (F.contents files.old) project.now trees → (e : RefusalSeen) → IsUnboundIn trees e → IfOk result (λ answer. IsUnboundAnswer trees e answer.status answer.text) }
    ensures same { F.contents files.new ≡ F.contents files.old }
    ensures count { F.file_count files.old ≤ F.file_count files.new }
    ensures keeps { F.kept files.new ≡ F.kept files.old }
{
    match load_project(alloc, files, project)? {
        Loading::Front(_) => answer_of(alloc, 0, b"ok\n"),
        Loading::Refused(answer) => Ok(answer),
    }
}

/// What the words answer.
pub(crate) fn words_answer<F: Files>(
    alloc: Global,
    words: &[&str],
    files: &mut F,
) -> Result<Answer, NoMemory>
    ensures told { IfOk result (λ answer. IsAnswer (F.contents files.old) (F.file_count files.old) (F.file_count files.new) (map (λ w. w.now) words.now) answer.status answer.text) }
    ensures cause_where { AreSure (F.contents files.old) (F.file_count files.old) (F.file_count files.new) → (project : List ℕ) → (e : RefusalSeen) → AsksFor (map (λ w. w.now) words.now) project → LoadCause (F.contents files.old) (F.file_count files.old) (F.file_count files.new) project e → IfOk result (λ answer. IsTheLine e answer.status answer.text) }
    ensures page_where { AreSure (F.contents files.old) (F.file_count files.old) (F.file_count files.new) → (project : List ℕ) → (path : List ℕ) → (trees : Trees) → IsPageCommand (map (λ w. w.now) words.now) project path → HasTrees (F.contents files.old) project trees → IfOk result (λ answer. IsPageOfTrees (given_by (map (λ w. w.now) words.now)) trees project path answer.status answer.text) }
    ensures check_where { AreSure (F.contents files.old) (F.file_count files.old) (F.file_count files.new) → (project : List ℕ) → (trees : Trees) → IsCheckCommand (map (λ w. w.now) words.now) project → HasTrees (F.contents files.old) project trees → IfOk result (λ answer. IsCheckOfTrees trees answer.status answer.text) }
    ensures unbound_where { AreSure (F.contents files.old) (F.file_count files.old) (F.file_count files.new) → (project : List ℕ) → (trees : Trees) → AsksFor (map (λ w. w.now) words.now) project → HasTrees (F.contents files.old) project trees → (e : RefusalSeen) → IsUnboundIn trees e → IfOk result (λ answer. IsUnboundAnswer trees e answer.status answer.text) }
    ensures same { F.contents files.new ≡ F.contents files.old }
    ensures count { F.file_count files.old ≤ F.file_count files.new }
    ensures keeps { F.kept files.new ≡ F.kept files.old }
{
    if let Some((project, path)) = page_words(words) {
        return page_answer(alloc, files, &[], project, path);
    }
    if let Some(project) = check_words(words) {
        return check_answer(alloc, files, project);
    }
    answer_of(alloc, 2, b"bad words\n")
}
