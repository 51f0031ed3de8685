// A keeper over a connection to a file.
ghost use Rattle.std.specs.Prelude.{◌≡◌, IfOk, None};

use crate::statements::run;
use db_keeper::{Keeper, KeeperFault};
use sml_syntax::NoMemory;
use sqlite::{Connection, File, FileStore};
use std::alloc::Global;
use web_data::{DbAns, DbCmd};

/// Tables in a file. It tells neither its tables nor its failing calls.
#[derive(Drop)]
pub struct SqliteKeeper {
    connection: Option<Connection<FileStore<File>>>,
    faults: u64,
    alloc: Global,
}

impl SqliteKeeper {
    /// Takes a connection, and runs no statement. Without one each call fails.
    pub fn adopt(
        alloc: Global,
        connection: Option<Connection<FileStore<File>>>,
    ) -> Result<SqliteKeeper, NoMemory>
        ensures { IfOk result (λ k. k.faults ≡ 0) }
    {
        Ok(SqliteKeeper {
            connection,
            faults: 0,
            alloc,
        })
    }
}

impl Keeper for SqliteKeeper {
    ghost meaning = { λ k. record { tables = None; plan = None; faults = k.faults } };

    fn act(&mut self, cmd: &DbCmd) -> Result<DbAns, KeeperFault> {
        let answer = match &mut self.connection {
            Some(connection) => run(self.alloc, connection, cmd),
            None => Err(KeeperFault::Failed),
        };
        if let Err(KeeperFault::Failed) = answer {
            self.faults = self.faults.saturating_add(1);
        }
        answer
    }

    fn faults(&self) -> u64 {
        self.faults
    }
}
