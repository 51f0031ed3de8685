// Tables in ordered maps, from their names to maps from keys to values.
ghost use Rattle.std.specs.Prelude.{◌≡◌, [], IfOk, OnErr};
ghost use Rattle.web_data.specs.DatabaseAnswers.{FitsCommand};
ghost use Rattle.web_data.specs.declared.database.DbCmd.TheVariants as cmd;
ghost use Rattle.db_keeper.specs.DatabaseMachine.{TableStep};

use crate::table::{Table, all_rows, insert_row, remove_row, value_row};
use sml_syntax::{NoMemory, Text};
use std::alloc::Global;
use std::collections::BTreeMap;
use std::marker::Model;
use web_data::{DbAns, DbCmd};

/// The tables of a database by their names.
#[derive(Drop)]
pub(crate) struct Tables {
    tables: BTreeMap<Vec<u8>, Table>,
    alloc: Global,
}

impl Model for Tables {
    ghost use Rattle.db_keeper.specs.DatabaseMachine as machine;
    ghost use Rattle.db_keeper.specs.Shown.{tables_of};

    ghost Value = { machine.Tables };

    ghost view = { λ t. tables_of t.tables };
}

impl Tables {
    pub fn new(alloc: Global) -> Tables
        ensures { result ≡ [] }
    {
        Tables {
            tables: BTreeMap::new(alloc),
            alloc,
        }
    }

    /// Runs a command.
    pub fn act(&mut self, command: &DbCmd) -> Result<DbAns, NoMemory>
        ensures fits { IfOk result (FitsCommand command.now) }
        ensures ok { IfOk result (λ answer. TableStep self.old command.now answer self.new) }
        ensures err { OnErr result (self.new ≡ self.old) }
    {
        match command {
            DbCmd::Create(name) => self.create(name),
            DbCmd::Insert(name, key, value) => self.insert(name, key, value),
            DbCmd::Delete(name, key) => Ok(self.delete(name, key)),
            DbCmd::One(name, key) => self.one(name, key),
            DbCmd::All(name) => self.all(name),
        }
    }

    fn create(&mut self, name: &Text) -> Result<DbAns, NoMemory>
        ensures fits { IfOk result (FitsCommand (cmd.Create name.now)) }
        ensures ok { IfOk result (λ answer. TableStep self.old (cmd.Create name.now) answer self.new) }
        ensures err { OnErr result (self.new ≡ self.old) }
    {
        if self.tables.contains_key(name.as_bytes()) {
            return Ok(DbAns::TableStands);
        }
        let name = Vec::from_slice(self.alloc, name.as_bytes())?;
        self.tables.insert(name, BTreeMap::new(self.alloc))?;
        Ok(DbAns::Done)
    }

    fn insert(&mut self, name: &Text, key: &Text, value: &Text) -> Result<DbAns, NoMemory>
        ensures fits { IfOk result (FitsCommand (cmd.Insert name.now key.now value.now)) }
        ensures ok { IfOk result (λ answer. TableStep self.old (cmd.Insert name.now key.now value.now) answer self.new) }
        ensures err { OnErr result (self.new ≡ self.old) }
    {
        let Some(table) = self.tables.get_mut(name.as_bytes()) else {
            return Ok(DbAns::NoTable);
        };
        insert_row(self.alloc, table, key, value)
    }

    fn delete(&mut self, name: &Text, key: &Text) -> DbAns
        ensures fits { FitsCommand (cmd.Delete name.now key.now) result }
        ensures step { TableStep self.old (cmd.Delete name.now key.now) result self.new }
    {
        let Some(table) = self.tables.get_mut(name.as_bytes()) else {
            return DbAns::NoTable;
        };
        remove_row(table, key);
        DbAns::Done
    }

    fn one(&self, name: &Text, key: &Text) -> Result<DbAns, NoMemory>
        ensures fits { IfOk result (FitsCommand (cmd.One name.now key.now)) }
        ensures ok { IfOk result (λ answer. TableStep self.now (cmd.One name.now key.now) answer self.now) }
    {
        match self.tables.get(name.as_bytes()) {
            Some(table) => Ok(DbAns::Rows(value_row(self.alloc, table, key)?)),
            None => Ok(DbAns::NoTable),
        }
    }

    fn all(&self, name: &Text) -> Result<DbAns, NoMemory>
        ensures fits { IfOk result (FitsCommand (cmd.All name.now)) }
        ensures ok { IfOk result (λ answer. TableStep self.now (cmd.All name.now) answer self.now) }
    {
        match self.tables.get(name.as_bytes()) {
            Some(table) => Ok(DbAns::Rows(all_rows(self.alloc, table)?)),
            None => Ok(DbAns::NoTable),
        }
    }
}
