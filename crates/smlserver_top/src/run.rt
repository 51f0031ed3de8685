// The commands.
ghost use Rattle.std.specs.Prelude.{◌≡◌, ◌⊎◌, ◌<◌, ◌≤◌, ℕ, List, map, IfOk, Some};
ghost use Rattle.outside_world.specs.Told.{Rose, grown, GrewByFront};
ghost use Rattle.script_loader.specs.Cause.{LoadCause, HasTrees, AreSure};
ghost use Rattle.script_loader.specs.Front.{IsUnboundIn};
ghost use Rattle.script_loader.specs.Seen.{Trees};
ghost use Rattle.script_loader.specs.declared.refusal.LoadRefusal.{LoadRefusal as RefusalSeen};
ghost use Rattle.smlserver_top.specs.Words.{IsPageCommand, IsCheckCommand, AsksFor, AreBadWords};
ghost use Rattle.smlserver_top.specs.Databases.{given_by};
ghost use Rattle.smlserver_top.specs.Page.{no_script_body, ok_line, IsLoaded, IsTheLine, IsPageOfTrees, IsCheckOfTrees, IsUnboundAnswer};
ghost use Rattle.smlserver_top.specs.Commands.{bad_words_line, IsStatus, IsPage, IsNotFound, AreOtherNames, IsNotBuilt, IsRefused, IsAnswer, IsText, IsEnd, IsUnfinished};

use crate::commands::words_answer;
use outside_world::{Clock, Files, Sink, Source, WriteRefusal, write_all};
use sml_syntax::NoMemory;
use std::alloc::Global;

// Writes the bytes, and answers the status, unless the write fails.
fn finish<K: Sink>(output: &mut K, bytes: &[u8], status: u8) -> u8
    requires { status < 4 }
    ensures among { (result ≡ status) ⊎ ((result ≡ 4) ⊎ (result ≡ 7)) }
    ensures written { result ≡ status → K.written output.new ≡ grown (K.written output.old) bytes.now }
    ensures fault { result ≡ 4 → Rose (K.write_count output.old) (K.write_count output.new) }
    ensures unfinished { (result ≡ 4) ⊎ (result ≡ 7) → GrewByFront (K.written output.old) bytes.now (K.written output.new) }
    ensures count { K.write_count output.old ≤ K.write_count output.new }
    ensures keeps { K.kept output.new ≡ K.kept output.old }
{
    match write_all(output, bytes) {
        Ok(()) => status,
        Err(WriteRefusal::Failed) => 4,
        Err(WriteRefusal::NoMemory) => 7,
    }
}

// Writes what the words answer, and gives the status.
fn write_answer<F: Files, K: Sink>(
    alloc: Global,
    words: &[&str],
    files: &mut F,
    output: &mut K,
) -> u8
    ensures told { IsEnd result (λ text. K.written output.new ≡ grown (K.written output.old) text) (IsAnswer (F.contents files.old) (F.file_count files.old) (F.file_count files.new) (map (λ w. w.now) words.now)) }
    ensures cause_where { AreSure (F.contents files.old) (F.file_count files.old) (F.file_count files.new) → (project : List ℕ) → (e : RefusalSeen) → AsksFor (map (λ w. w.now) words.now) project → LoadCause (F.contents files.old) (F.file_count files.old) (F.file_count files.new) project e
        → IsEnd result (λ text. K.written output.new ≡ grown (K.written output.old) text) (IsTheLine e) }
    ensures page_where { AreSure (F.contents files.old) (F.file_count files.old) (F.file_count files.new) → (project : List ℕ) → (path : List ℕ) → (trees : Trees) → IsPageCommand (map (λ w. w.now) words.now) project path → HasTrees (F.contents files.old) project trees
        → IsEnd result (λ text. K.written output.new ≡ grown (K.written output.old) text) (IsPageOfTrees (given_by (map (λ w. w.now) words.now)) trees project path) }
    ensures check_where { AreSure (F.contents files.old) (F.file_count files.old) (F.file_count files.new) → (project : List ℕ) → (trees : Trees) → IsCheckCommand (map (λ w. w.now) words.now) project → HasTrees (F.contents files.old) project trees
        → IsEnd result (λ text. K.written output.new ≡ grown (K.written output.old) text) (IsCheckOfTrees trees) }
    ensures unbound_where { AreSure (F.contents files.old) (F.file_count files.old) (F.file_count files.new) → (project : List ℕ) → (trees : Trees) → AsksFor (map (λ w. w.now) words.now) project → HasTrees (F.contents files.old) project trees → (e : RefusalSeen) → IsUnboundIn trees e
        → IsEnd result (λ text. K.written output.new ≡ grown (K.written output.old) text) (IsUnboundAnswer trees e) }
    ensures write_fault { result ≡ 4 → Rose (K.write_count output.old) (K.write_count output.new) }
    ensures unfinished { (result ≡ 4) ⊎ (result ≡ 7) → IsUnfinished (K.written output.old) (K.written output.new)
        (IsText (F.contents files.old) (F.file_count files.old) (F.file_count files.new) (map (λ w. w.now) words.now)) }
    ensures write_count { K.write_count output.old ≤ K.write_count output.new }
    ensures file_count { F.file_count files.old ≤ F.file_count files.new }
    ensures contents { F.contents files.new ≡ F.contents files.old }
    ensures keeps_files { F.kept files.new ≡ F.kept files.old }
    ensures keeps_output { K.kept output.new ≡ K.kept output.old }
{
    match words_answer(alloc, words, files) {
        Ok(answer) => finish(output, answer.text.as_bytes(), answer.status),
        Err(NoMemory) => 7,
    }
}

/// Does what the words ask, writes to the output, and answers the exit status. Status 7 is want of memory.
pub fn run_words<F: Files, S: Source, K: Sink, C: Clock>(
    alloc: Global,
    words: &[&str],
    files: &mut F,
    input: &mut S,
    output: &mut K,
    clock: &mut C,
) -> u8
    ensures statuses { IsStatus result }

    // 2: the words are of no command.
    ensures bad_words { result ≡ 2 → AreBadWords (map (λ w. w.now) words.now)
        × (K.written output.new ≡ grown (K.written output.old) bad_words_line) }
    ensures bad_words_only { AreBadWords (map (λ w. w.now) words.now) → (result ≡ 2) ⊎ ((result ≡ 4) ⊎ (result ≡ 7)) }

    // 3: the project isn't loaded, by the line that names the file, the place and the refusal; or it names other databases than
    // are given; or its script isn't run.
    ensures refused { result ≡ 3 → (line : List ℕ)
        × (IsRefused (F.contents files.old) (F.file_count files.old) (F.file_count files.new) (map (λ w. w.now) words.now) line
        ⊎ (AreOtherNames (F.contents files.old) (map (λ w. w.now) words.now) line
        ⊎ IsNotBuilt (F.contents files.old) (map (λ w. w.now) words.now) line))
        × (K.written output.new ≡ grown (K.written output.old) line) }

    // Where the files tell what they hold and no read fails, what refuses the project up to its trees is told, and nothing else.
    ensures cause_where { AreSure (F.contents files.old) (F.file_count files.old) (F.file_count files.new) → (project : List ℕ) → (e : RefusalSeen) → AsksFor (map (λ w. w.now) words.now) project → LoadCause (F.contents files.old) (F.file_count files.old) (F.file_count files.new) project e
        → IsEnd result (λ text. K.written output.new ≡ grown (K.written output.old) text) (IsTheLine e) }

    // So is the first name without a binding, unless no types were found for an item of an earlier script.
    ensures unbound_where { AreSure (F.contents files.old) (F.file_count files.old) (F.file_count files.new) → (project : List ℕ) → (trees : Trees) → AsksFor (map (λ w. w.now) words.now) project → HasTrees (F.contents files.old) project trees → (e : RefusalSeen) → IsUnboundIn trees e
        → IsEnd result (λ text. K.written output.new ≡ grown (K.written output.old) text) (IsUnboundAnswer trees e) }

    // And by the trees of the project its databases and the script under the path decide which of 0, 1 and 3 it is, unless a
    // script isn't typed.
    ensures page_where { AreSure (F.contents files.old) (F.file_count files.old) (F.file_count files.new) → (project : List ℕ) → (path : List ℕ) → (trees : Trees) → IsPageCommand (map (λ w. w.now) words.now) project path → HasTrees (F.contents files.old) project trees
        → IsEnd result (λ text. K.written output.new ≡ grown (K.written output.old) text) (IsPageOfTrees (given_by (map (λ w. w.now) words.now)) trees project path) }
    ensures check_where { AreSure (F.contents files.old) (F.file_count files.old) (F.file_count files.new) → (project : List ℕ) → (trees : Trees) → IsCheckCommand (map (λ w. w.now) words.now) project → HasTrees (F.contents files.old) project trees
        → IsEnd result (λ text. K.written output.new ≡ grown (K.written output.old) text) (IsCheckOfTrees trees) }

    // 4 and 7: a write failed, or memory ran out, and at most a front of the answer is written.
    ensures write_fault { result ≡ 4 → Rose (K.write_count output.old) (K.write_count output.new) }
    ensures unfinished { (result ≡ 4) ⊎ (result ≡ 7) → IsUnfinished (K.written output.old) (K.written output.new)
        (IsText (F.contents files.old) (F.file_count files.old) (F.file_count files.new) (map (λ w. w.now) words.now)) }

    // 1: the project is loaded, the databases are given that it names, and it has no script under the path.
    ensures not_found { result ≡ 1 → IsNotFound (F.contents files.old) (map (λ w. w.now) words.now)
        × (K.written output.new ≡ grown (K.written output.old) no_script_body) }

    // 0: the output grew by the body of the page of the files, or by the line of a project that is loaded.
    ensures page { (project : List ℕ) → (path : List ℕ) → IsPageCommand (map (λ w. w.now) words.now) project path → result ≡ 0 → (body : List ℕ)
        × IsPage (F.contents files.old) (given_by (map (λ w. w.now) words.now)) project path body
        × (K.written output.new ≡ grown (K.written output.old) body) }
    ensures checked { (project : List ℕ) → IsCheckCommand (map (λ w. w.now) words.now) project → result ≡ 0
        → IsLoaded (F.contents files.old) project × (K.written output.new ≡ grown (K.written output.old) ok_line) }

    // What stays as it was: no count falls, and neither the input nor the clock is read.
    ensures write_count { K.write_count output.old ≤ K.write_count output.new }
    ensures file_count { F.file_count files.old ≤ F.file_count files.new }
    ensures contents { F.contents files.new ≡ F.contents files.old }
    ensures keeps_files { F.kept files.new ≡ F.kept files.old }
    ensures keeps_output { K.kept output.new ≡ K.kept output.old }
    ensures input { input.new ≡ input.old }
    ensures clock { clock.new ≡ clock.old }
{
    write_answer(alloc, words, files, output)
}
