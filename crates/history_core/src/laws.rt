// Laws of histories.
ghost use Rattle.std.specs.Prelude.{◌↔◌, ℕ, List, ◌∷◌, []};
ghost use Rattle.history_core.specs.declared.entry.Entry.{Entry as EntryValue};
ghost use Rattle.history_core.specs.declared.event.Event.{Event as EventValue};
ghost use Rattle.history_core.specs.Core.{Core, CoreRun, IsWhole, core_start};
ghost use Rattle.history_core.specs.LegalHistory.{Database, Machines, LegalHistory, LegalRun};
ghost use Rattle.history_core.specs.ByObject.{LegalByObject, NamesDiffer, EachNamesOne};
ghost use Rattle.history_core.specs.Calling.{Act, Chain, entries_of};
ghost use Rattle.history_core.specs.Book.{Book, BookStep, MachinesShow, new_book};

/// A history is legal exactly where its entries on each group of caches and on each database are legal by themselves. So
/// neighbouring entries on different objects may change places.
#[tactic(auto, using(crate::proofs::Objects::by_object))]
pub fn legal_by_object()
    ensures { (databases : List Database) (entries : List EntryValue) → NamesDiffer databases → EachNamesOne databases entries → LegalHistory databases entries ↔ LegalByObject databases entries }
{}

/// Each call that a lone book answers is one step of the machines of its history, and nothing else changes them. So what is
/// done through a new book is a legal history.
#[tactic(auto, using(crate::proofs::Books::book_step, crate::proofs::Books::books_are_legal))]
pub fn books_are_legal()
    ensures step { (machines : Machines) (old new : Book) (act : Act) → MachinesShow machines old → BookStep old act new → (machines' : Machines) × LegalRun machines (entries_of (act ∷ [])) machines' × MachinesShow machines' new }
    ensures history { (databases : List Database) (acts : List Act) (new : Book) → Chain BookStep (new_book databases) acts new → LegalHistory databases (entries_of acts) }
{}

/// After every list of events that are enabled one after another: each page is free or owned by one request, which runs;
/// each database has at most one holder, which runs; the history is legal; and the request of each entry has begun.
#[tactic(auto, using(crate::proofs::Whole::run_whole))]
pub fn core_stays_whole()
    ensures { (pages : ℕ) (databases : List Database) (events : List EventValue) (s : Core) → CoreRun (core_start pages databases) events s → IsWhole pages s }
{}
