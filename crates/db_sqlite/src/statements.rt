// Each command as a statement of SQL. Keys and values are bound to it; of a command only the table's name stands in it.
ghost use Rattle.std.specs.Prelude.{◌≡◌, IfOk, IfErr};
ghost use Rattle.web_data.specs.DatabaseAnswers.{FitsCommand};
ghost use Rattle.web_data.specs.declared.database.DbAns.TheVariants as ans;
ghost use Rattle.web_data.specs.declared.database.DbCmd.TheVariants as cmd;
ghost use Rattle.db_sqlite.specs.Refusals.{fault_of};

use crate::names::file_name;
use crate::rows::{all_rows, value_row};
use db_keeper::KeeperFault;
use sml_syntax::{NoMemory, Text};
use sqlite::types::ValueRef;
use sqlite::{Connection, Constraint, Error, ErrorCode, File, FileStore, Row};
use sqlite_resolve::CompileError;
use std::alloc::Global;
use web_data::{DbAns, DbCmd};

/// A connection to a database in a file.
pub(crate) type FileConnection = Connection<FileStore<File>>;

/// Runs a command. What the file answers and the command may not have is a fault.
pub(crate) fn run(
    alloc: Global,
    connection: &mut FileConnection,
    command: &DbCmd,
) -> Result<DbAns, KeeperFault>
    ensures { IfOk result (FitsCommand command.now) }
{
    match command {
        DbCmd::Create(table) => create(alloc, connection, table),
        DbCmd::Insert(table, key, value) => insert(alloc, connection, table, key, value),
        DbCmd::Delete(table, key) => delete(alloc, connection, table, key),
        DbCmd::One(table, key) => one(alloc, connection, table, key),
        DbCmd::All(table) => all(alloc, connection, table),
    }
}

fn create(
    alloc: Global,
    connection: &mut FileConnection,
    table: &Text,
) -> Result<DbAns, KeeperFault>
    ensures { IfOk result (FitsCommand (cmd.Create table.now)) }
{
    let columns = "(k TEXT NOT NULL PRIMARY KEY, v TEXT NOT NULL)";
    let sql = sql(alloc, "CREATE TABLE", table, columns)?;
    match change(connection, sql.as_str(), &[]) {
        Ok(_) => Ok(DbAns::Done),
        Err(Error::SqlInputError(CompileError::Exists)) => Ok(DbAns::TableStands),
        Err(error) => Err(fault(error)),
    }
}

fn insert(
    alloc: Global,
    connection: &mut FileConnection,
    table: &Text,
    key: &Text,
    value: &Text,
) -> Result<DbAns, KeeperFault>
    ensures { IfOk result (FitsCommand (cmd.Insert table.now key.now value.now)) }
{
    let sql = sql(alloc, "INSERT INTO", table, "(k, v) VALUES (?1, ?2)")?;
    match change(connection, sql.as_str(), &[text(key), text(value)]) {
        Ok(1) => Ok(DbAns::Done),
        Ok(_) => Err(KeeperFault::Failed),
        Err(Error::SqliteFailure(ErrorCode::ConstraintViolation(Constraint::Unique))) => Ok(
            DbAns::KeyStands,
        ),
        Err(error) => no_table(error),
    }
}

fn delete(
    alloc: Global,
    connection: &mut FileConnection,
    table: &Text,
    key: &Text,
) -> Result<DbAns, KeeperFault>
    ensures { IfOk result (FitsCommand (cmd.Delete table.now key.now)) }
{
    let sql = sql(alloc, "DELETE FROM", table, "WHERE k = ?1")?;
    match change(connection, sql.as_str(), &[text(key)]) {
        Ok(count) if count < 2 => Ok(DbAns::Done),
        Ok(_) => Err(KeeperFault::Failed),
        Err(error) => no_table(error),
    }
}

fn one(
    alloc: Global,
    connection: &mut FileConnection,
    table: &Text,
    key: &Text,
) -> Result<DbAns, KeeperFault>
    ensures { IfOk result (FitsCommand (cmd.One table.now key.now)) }
{
    let sql = sql(alloc, "SELECT v FROM", table, "WHERE k = ?1")?;
    match show(connection, sql.as_str(), &[text(key)]) {
        Ok(found) => Ok(DbAns::Rows(value_row(alloc, found.as_slice())?)),
        Err(error) => no_table(error),
    }
}

fn all(alloc: Global, connection: &mut FileConnection, table: &Text) -> Result<DbAns, KeeperFault>
    ensures { IfOk result (FitsCommand (cmd.All table.now)) }
{
    let sql = sql(alloc, "SELECT k, v FROM", table, "ORDER BY k")?;
    match show(connection, sql.as_str(), &[]) {
        Ok(found) => Ok(DbAns::Rows(all_rows(alloc, found.as_slice())?)),
        Err(error) => no_table(error),
    }
}

// The text of a statement on a table, whose name is quoted.
fn sql(alloc: Global, before: &str, table: &Text, after: &str) -> Result<String, KeeperFault> {
    let name = file_name(alloc, table)?;
    match format!(in alloc; "{before} \"{name}\" {after}") {
        Ok(sql) => Ok(sql),
        Err(_) => Err(KeeperFault::NoMemory),
    }
}

// The two calls on a connection have no clauses here, so that no proof carries those of the library.
fn change(
    connection: &mut FileConnection,
    sql: &str,
    values: &[ValueRef<'_>],
) -> Result<usize, Error> {
    connection.execute(sql, values)
}

fn show(
    connection: &mut FileConnection,
    sql: &str,
    values: &[ValueRef<'_>],
) -> Result<Vec<Row>, Error> {
    connection.query_all(sql, values)
}

fn text<'a>(text: &'a Text) -> ValueRef<'a> {
    ValueRef::Text(text.as_bytes())
}

// A statement on a table that is wanting has an answer.
fn no_table(error: Error) -> Result<DbAns, KeeperFault>
    ensures ok { IfOk result (λ answer. answer ≡ ans.NoTable) }
    ensures err { IfErr result (λ f. f ≡ fault_of error) }
{
    match error {
        Error::SqlInputError(CompileError::NoSuchTable) => Ok(DbAns::NoTable),
        error => Err(fault(error)),
    }
}

fn fault(error: Error) -> KeeperFault
    ensures { result ≡ fault_of error }
{
    match error {
        Error::SqliteFailure(ErrorCode::OutOfMemory) => KeeperFault::NoMemory,
        _ => KeeperFault::Failed,
    }
}
