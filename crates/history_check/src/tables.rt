// Tables that are handed in, and keepers made of them.
ghost use Rattle.std.specs.Prelude.{◌≡◌, true, None, Option, IfOk, OnOk};
ghost use Rattle.web_data.specs.declared.database.DbAns.{DbAns as DbAnsValue};
ghost use Rattle.web_data.specs.DatabaseAnswers.{FitsCommand};
ghost use Rattle.outside_world.specs.Told.{Rose};
ghost use Rattle.db_keeper.specs.DatabaseMachine.{Tables as TablesValue};
ghost use Rattle.db_keeper.specs.Keeping.{AnswersBy};
ghost use Rattle.history_check.specs.Given.{after_command, filled, keeper_given};

use db_keeper::{Keeper, MapKeeper};
use sml_syntax::{Listed, NoMemory, Text};
use std::alloc::Global;
use std::marker::Model;
use web_data::{DbAns, DbCmd};

/// The tables of a keeper: names, and rows of a key and a value. Of two tables with one name the first one counts, and
/// it gets the rows of both; of two rows with one key the first one counts.
#[derive(Debug, PartialEq, Eq, Drop)]
pub struct Tables {
    pub rows: Listed<(Text, Listed<(Text, Text)>)>,
}

/// A keeper of a history: its tables, and the number of its last fault, or 0.
#[derive(Drop)]
pub(crate) struct Told {
    keeper: MapKeeper,
    last: u64,
}

impl Model for Told {
    ghost use Rattle.std.specs.Prelude.{None};
    ghost use Rattle.db_keeper.specs.Keeping.{KeeperMeaning};
    ghost use Rattle.history_check.specs.Given.{AreTold};

    ghost Value = { KeeperMeaning };

    ghost view = { λ k. record { tables = k.keeper.tables; plan = None; faults = k.last } };

    ghost invariant = { λ k. AreTold k.keeper.tables };
}

impl Told {
    /// The keeper of these tables.
    #[tactic(auto, using(crate::proofs::Loading::create_one))]
    pub fn make(alloc: Global, given: &Tables) -> Result<Told, NoMemory>
        ensures { IfOk result (λ k. k ≡ keeper_given given.now) }
    {
        let mut told = Told {
            keeper: MapKeeper::make(alloc, &[])?,
            last: 0,
        };
        for table in given.rows.as_slice() {
            told.run(&DbCmd::Create(table.0.try_copy(alloc)?))?;
            told.fill(alloc, &table.0, table.1.as_slice())?;
        }
        Ok(told)
    }

    #[tactic(auto, using(crate::proofs::Loading::fill_one))]
    fn fill(&mut self, alloc: Global, name: &Text, rows: &[(Text, Text)]) -> Result<(), NoMemory>
        ensures { OnOk result (self.new ≡ filled name.now rows.now self.old) }
    {
        for row in rows {
            let table = name.try_copy(alloc)?;
            let key = row.0.try_copy(alloc)?;
            self.run(&DbCmd::Insert(table, key, row.1.try_copy(alloc)?))?;
        }
        Ok(())
    }

    #[tactic(auto, using(crate::proofs::Loading::run_one))]
    fn run(&mut self, cmd: &DbCmd) -> Result<(), NoMemory>
        ensures { OnOk result (self.new ≡ after_command cmd.now self.old) }
    {
        self.act(cmd)?;
        Ok(())
    }

    /// Runs a command. No call of the keeper fails, so that no other refusal comes.
    pub fn act(&mut self, cmd: &DbCmd) -> Result<DbAns, NoMemory>
        ensures fits { IfOk result (FitsCommand cmd.now) }
        ensures ok { IfOk result (λ a. AnswersBy self.old.tables cmd.now a self.new.tables) }
        ensures only { IfOk result (λ a. (b : DbAnsValue) (other : Option TablesValue) → AnswersBy self.old.tables cmd.now b other → b ≡ a) }
        ensures faults { self.new.faults ≡ self.old.faults }
        ensures plan { (self.new.plan ≡ None) × (self.old.plan ≡ None) }
    {
        match self.keeper.act(cmd) {
            Ok(answer) => Ok(answer),
            Err(_) => Err(NoMemory),
        }
    }

    /// Fails with a number, where it may.
    pub fn fail(&mut self, count: u64) -> bool
        ensures rose { result ≡ true → Rose self.old.faults count }
        ensures rises { Rose self.old.faults count → result ≡ true }
        ensures tables { self.new.tables ≡ self.old.tables }
        ensures faults { result ≡ true → self.new.faults ≡ count }
        ensures plan { (self.new.plan ≡ None) × (self.old.plan ≡ None) }
    {
        if count <= self.last && count < u64::MAX {
            return false;
        }
        self.last = count;
        true
    }
}
