// The files of databases.
use sml_syntax::NoMemory;
use sqlite::{Connection, Error, ErrorCode, File, FileStore};

/// A connection to the file of a database, or none where it can't be opened.
pub fn open(rt: &HostRuntime, file: &str) -> Result<Option<Connection<FileStore<File>>>, NoMemory> {
    match Connection::open(rt, file) {
        Ok(connection) => Ok(Some(connection)),
        Err(Error::SqliteFailure(ErrorCode::OutOfMemory)) => Err(NoMemory),
        Err(_) => Ok(None),
    }
}
