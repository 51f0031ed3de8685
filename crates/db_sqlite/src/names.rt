// The name of a table in a file.
ghost use Rattle.std.specs.Prelude.{◌≡◌, ◌++◌, ◌∷◌, [], ◌<◌, IfOk, OnOk, All, string_bytes};
ghost use Rattle.db_sqlite.specs.Names.{read_back, IsFileByte, Writes};

use db_keeper::KeeperFault;
use sml_syntax::Text;
use std::alloc::Global;

/// A table's name as it is written in a file, where case doesn't matter and names that begin with `sqlite_` are not
/// free. A text that no statement has as a table's name is a fault.
pub(crate) fn file_name(alloc: Global, table: &Text) -> Result<String, KeeperFault>
    ensures reads { IfOk result (λ name. read_back (string_bytes name) ≡ table.now) }
    ensures bytes { IfOk result (λ name. All IsFileByte (string_bytes name)) }
{
    let table = table.as_bytes();
    let mut name = String::new(alloc);
    if table.starts_with(b"sqlite_") {
        push_byte(&mut name, b'%')?;
    }
    for b in table {
        push_written(&mut name, *b)?;
    }
    Ok(name)
}

fn push_written(name: &mut String, b: u8) -> Result<(), KeeperFault>
    ensures { OnOk result (Writes b (string_bytes name.old) (string_bytes name.new)) }
{
    if !b.is_ascii_alphanumeric() && b != b'_' {
        return Err(KeeperFault::Failed);
    }
    if !b.is_ascii_uppercase() {
        return push_byte(name, b);
    }
    push_byte(name, b'^')?;
    push_byte(name, b + 32)
}

fn push_byte(name: &mut String, b: u8) -> Result<(), KeeperFault>
    requires { b < 128 }
    ensures { OnOk result (string_bytes name.new ≡ string_bytes name.old ++ b ∷ []) }
{
    match name.push(char::from(b)) {
        Ok(()) => Ok(()),
        Err(_) => Err(KeeperFault::NoMemory),
    }
}
