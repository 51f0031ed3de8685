// A book for one worker.
ghost use Rattle.std.specs.Prelude.{◌≡◌, ◌<◌, length, slice_get, Some, IfOk, OnErr};
ghost use Rattle.db_pool.specs.Handling.{HandleKept};
ghost use Rattle.history_core.specs.Book.{new_book, databases_of, HandleAnswers};

use crate::Calls;
use db_pool::Handled;
use sml_syntax::NoMemory;
use std::alloc::Global;
use std::marker::Model;
use web_cache::{Caches, group_of};
use web_data::{CacheAns, CacheCall, DbAns, DbCmd};

/// The caches and the databases of one worker. It waits for nobody, and keeps no history.
#[derive(Drop)]
pub struct LoneBook<H: Handled> {
    caches: Caches,
    handles: Vec<H>,
    calls: u64,
    requests: u64,
    running: Option<u64>,
}

impl<H: Handled> Model for LoneBook<H> {
    ghost use Rattle.std.specs.Prelude.{◌≡◌};
    ghost use Rattle.history_core.specs.Book.{Book, databases_of};
    ghost use Rattle.history_core.specs.Codes.{book_code};
    ghost use Rattle.history_core.specs.Fitting.{AreFitting};

    ghost Value = { Book };

    ghost coded = { book_code };

    ghost view = { λ b. record { machines = record { groups = b.caches; databases = databases_of H.name H.keepers b.handles.items }; calls = b.calls; requests = b.requests; running = b.running } };

    ghost invariant = { λ b. AreFitting b.caches };
}

impl<H: Handled> LoneBook<H> {
    /// No cache stands, and no request began.
    pub fn make(alloc: Global, handles: Vec<H>) -> Result<LoneBook<H>, NoMemory>
        ensures { IfOk result (λ b. b ≡ new_book (databases_of H.name H.keepers handles.items)) }
    {
        Ok(LoneBook {
            caches: Caches::make(alloc)?,
            handles,
            calls: 0,
            requests: 0,
            running: None,
        })
    }

    /// How many calls were answered, up to the greatest number.
    pub fn calls(&self) -> u64
        ensures { result ≡ self.now.calls }
    {
        self.calls
    }

    /// How many requests began, up to the greatest number.
    pub fn requests(&self) -> u64
        ensures { result ≡ self.now.requests }
    {
        self.requests
    }
}

impl<H: Handled> Calls for LoneBook<H> {
    ghost use Rattle.history_core.specs.Book.{seen, BookStep};

    ghost meaning = { seen };

    ghost step = { BookStep };

    fn begin(&mut self) -> u64 {
        let number = self.requests;
        self.requests = number.saturating_add(1);
        self.running = Some(number);
        number
    }

    fn cache(&mut self, reading: u64, call: &CacheCall) -> Result<CacheAns, NoMemory> {
        let moment = self.caches.last(group_of(&call.id.name)).max(reading);
        let answer = self.caches.act(moment, call)?;
        self.calls = self.calls.saturating_add(1);
        Ok(answer)
    }

    fn db(&mut self, database: u64, cmd: &DbCmd) -> Result<DbAns, NoMemory> {
        let answer = act_on(&mut self.handles[database as usize], cmd)?;
        self.calls = self.calls.saturating_add(1);
        Ok(answer)
    }

    fn end(&mut self) {
        self.running = None;
    }
}

// Runs a command, and lets a spare stand after a fault.
fn act_on<H: Handled>(handle: &mut H, cmd: &DbCmd) -> Result<DbAns, NoMemory>
    ensures ok { IfOk result (λ a. HandleAnswers cmd.now a (H.keepers handle.old) (H.keepers handle.new)) }
    ensures err { OnErr result (HandleKept (H.keepers handle.old) (H.keepers handle.new)) }
    ensures name { H.name handle.new ≡ H.name handle.old }
{
    let answer = handle.act(cmd)?;
    if let DbAns::Fault(_) = &answer {
        handle.replace();
    }
    Ok(answer)
}
