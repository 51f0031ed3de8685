// Files in memory.
ghost use Rattle.std.specs.Prelude.{◌≡◌, ◌<◌, ◌≤◌, ◌↔◌, [], ◌∷◌, length, IfOk, OnOk, OnErr, IsErrOf};
ghost use Rattle.std.specs.Option.{option_copied};
ghost use Rattle.outside_world.specs.FaultPlan.{fresh_plan};
ghost use Rattle.outside_world.specs.Stored.{text_under};

use crate::memory::fault_plan::CallPlan;
use crate::{FileRefusal, Files};
use sml_syntax::{NoMemory, Text};
use std::alloc::{AllocError, AllocFailed, Global};
use std::marker::Model;

// The newest text under a name.
fn find_text<'a>(texts: &'a [(Text, Text)], name: &Text) -> Option<&'a Text>
    ensures { option_copied result ≡ text_under texts.now name.now }
{
    for (held, text) in texts {
        if held.as_bytes() == name.as_bytes() {
            return Some(text);
        }
    }
    None
}

// Puts a text under a name, before those that stand there.
fn put_text(texts: &mut Vec<(Text, Text)>, name: &Text, bytes: &Text) -> Result<(), NoMemory>
    ensures ok { OnOk result (texts.new.items ≡ (name.now, bytes.now) ∷ texts.old.items) }
    ensures err { OnErr result (texts.new.items ≡ texts.old.items) }
{
    let alloc = *texts.allocator();
    let entry = (name.try_copy(alloc)?, bytes.try_copy(alloc)?);
    texts.insert(0, entry)?;
    Ok(())
}

// A copy, unless the text is longer than that.
fn copy_within(alloc: Global, text: &Text, most: u64) -> Result<Text, FileRefusal>
    ensures ok { IfOk result (λ t. (t ≡ text.now) × (length t ≤ most)) }
    ensures long { IsErrOf result FileRefusal.Long ↔ (most < length text.now) }
    ensures absent { ¬ IsErrOf result FileRefusal.Absent }
    ensures failed { ¬ IsErrOf result FileRefusal.Failed }
{
    if text.len() > most {
        return Err(FileRefusal::Long);
    }
    match text.try_copy(alloc) {
        Ok(copy) => Ok(copy),
        Err(_) => Err(FileRefusal::NoMemory),
    }
}

/// Files that were put there.
#[derive(Drop)]
pub struct MemFiles {
    texts: Vec<(Text, Text)>,
    plan: CallPlan,
}

impl Model for MemFiles {
    ghost use Rattle.outside_world.specs.Stored.{FilesState};

    ghost Value = { FilesState };

    ghost view = { λ f. record { texts = f.texts.items; plan = f.plan } };
}

impl MemFiles {
    /// No files, of which the reads with these numbers fail, from 0.
    pub fn make(alloc: Global, fails: &[u64]) -> Result<MemFiles, NoMemory>
        ensures texts { IfOk result (λ f. f.texts ≡ []) }
        ensures plan { IfOk result (λ f. f.plan ≡ fresh_plan fails.now) }
    {
        Ok(MemFiles {
            texts: Vec::new(alloc),
            plan: CallPlan::make(alloc, fails)?,
        })
    }

    /// Puts a file there. A file that stands under that name is hidden by it.
    pub fn put_file(&mut self, name: &Text, bytes: &Text) -> Result<(), NoMemory>
        ensures ok { OnOk result (self.new.texts ≡ (name.now, bytes.now) ∷ self.old.texts) }
        ensures err { OnErr result (self.new.texts ≡ self.old.texts) }
        ensures plan { self.new.plan ≡ self.old.plan }
    {
        put_text(&mut self.texts, name, bytes)
    }
}

impl Files for MemFiles {
    ghost use Rattle.std.specs.Prelude.{Some};
    ghost use Rattle.outside_world.specs.Stored.{text_under};

    ghost contents = { λ f. Some (text_under f.texts) };

    ghost file_count = { λ f. f.plan.faults };

    ghost file_plan = { λ f. Some f.plan };

    ghost Kept = { Unit {0} };

    ghost kept = { λ _. tt };

    fn read_file(&mut self, name: &Text, most: u64) -> Result<Text, FileRefusal> {
        if self.plan.call_fails() {
            return Err(FileRefusal::Failed);
        }
        match find_text(&self.texts, name) {
            None => Err(FileRefusal::Absent),
            Some(text) => copy_within(*self.texts.allocator(), text, most),
        }
    }

    fn file_faults(&self) -> u64 {
        self.plan.faults()
    }
}

/// Files that were put there, and the empty file under each other name. No read fails but for memory.
#[derive(Drop)]
pub struct SureFiles {
    texts: Vec<(Text, Text)>,
}

impl Model for SureFiles {
    ghost use Rattle.std.specs.Prelude.{List, ℕ};

    ghost Value = { List (List ℕ × List ℕ) };

    ghost view = { λ f. f.texts.items };
}

impl SureFiles {
    /// Files that are all empty.
    pub fn make(alloc: Global) -> Result<SureFiles, NoMemory>
        ensures { IfOk result (λ f. f ≡ []) }
    {
        Ok(SureFiles {
            texts: Vec::new(alloc),
        })
    }

    /// Puts a file there. A file that stands under that name is hidden by it.
    pub fn put_file(&mut self, name: &Text, bytes: &Text) -> Result<(), NoMemory>
        ensures ok { OnOk result (self.new ≡ (name.now, bytes.now) ∷ self.old) }
        ensures err { OnErr result (self.new ≡ self.old) }
    {
        put_text(&mut self.texts, name, bytes)
    }
}

impl Files for SureFiles {
    ghost use Rattle.std.specs.Prelude.{Some};
    ghost use Rattle.outside_world.specs.Stored.{text_under, or_empty};

    ghost contents = { λ f. Some (λ name. or_empty (text_under f name)) };

    ghost file_count = { λ _. 0 };

    ghost Kept = { Unit {0} };

    ghost kept = { λ _. tt };

    fn read_file(&mut self, name: &Text, most: u64) -> Result<Text, FileRefusal> {
        let alloc = *self.texts.allocator();
        match find_text(&self.texts, name) {
            None => Ok(Text::from_vec(Vec::new(alloc))),
            Some(text) => copy_within(alloc, text, most),
        }
    }

    fn file_faults(&self) -> u64 {
        0
    }
}
