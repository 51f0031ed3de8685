// What keeps tables.
ghost use Rattle.std.specs.Prelude.{◌≡◌, ◌≤◌, ◌↔◌, IfOk, OnErr, IsErrOf};
ghost use Rattle.web_data.specs.DatabaseAnswers.{FitsCommand};
ghost use Rattle.outside_world.specs.Told.{Rose};
ghost use Rattle.outside_world.specs.FaultPlan.{FailsAsPlanned, plan_after};
ghost use Rattle.db_keeper.specs.Keeping.{KeeperMeaning, AnswersBy};

use sml_syntax::NoMemory;
use std::alloc::{AllocError, AllocFailed};
use web_data::{DbAns, DbCmd};

/// Why a keeper gave no answer. The tables are as they were.
#[derive(Clone, Copy, Debug, PartialEq, Eq)]
pub enum KeeperFault {
    Failed,
    NoMemory,
}

impl From<NoMemory> for KeeperFault {
    ghost use Rattle.db_keeper.specs.declared.keeper.KeeperFault.TheVariants as fault;

    ghost from_gives = { λ _ e. e ≡ fault.NoMemory };

    fn from(_: NoMemory) -> KeeperFault {
        KeeperFault::NoMemory
    }
}

/// Keeps the tables of a database.
pub trait Keeper: Drop {
    /// The tables and the failing calls, where it tells them, and how many calls failed.
    ghost meaning: { Self → KeeperMeaning };

    /// Runs a command. The calls that fail are numbered from 0, and one that answers `NoMemory` has no number.
    fn act(&mut self, cmd: &DbCmd) -> Result<DbAns, KeeperFault>
        ensures fits { IfOk result (FitsCommand cmd.now) }
        ensures ok { IfOk result (λ answer. AnswersBy (meaning self.old).tables cmd.now answer (meaning self.new).tables) }
        ensures err { OnErr result ((meaning self.new).tables ≡ (meaning self.old).tables) }

        ensures failed { IsErrOf result KeeperFault.Failed → Rose (meaning self.old).faults (meaning self.new).faults }
        ensures count { (meaning self.old).faults ≤ (meaning self.new).faults }
        ensures planned { FailsAsPlanned (meaning self.old).plan (IsErrOf result KeeperFault.Failed) }
        ensures plan { ¬ IsErrOf result KeeperFault.NoMemory → (meaning self.new).plan ≡ plan_after (meaning self.old).plan }
        ensures no_call { IsErrOf result KeeperFault.NoMemory → (meaning self.new).plan ≡ (meaning self.old).plan };

    /// How many calls failed.
    fn faults(&self) -> u64
        ensures { result ≡ (meaning self.now).faults };
}

impl Keeper for Box<dyn Keeper + Send> {
    ghost meaning = { λ b. (Keeper-box b).meaning b.value };

    fn act(&mut self, cmd: &DbCmd) -> Result<DbAns, KeeperFault> {
        (**self).act(cmd)
    }

    fn faults(&self) -> u64 {
        (**self).faults()
    }
}
