// What the program says of itself.
ghost use Rattle.std.specs.Prelude.{◌≡◌, ◌⊎◌};
ghost use Rattle.outside_world.specs.Told.{Rose, grown};

use crate::NO_MEMORY;
use crate::streams::WRITE_FAULT;
use outside_world::{Sink, WriteRefusal, write_all};

/// What `--version` prints: the program's version, and the toolchain that it was proved with.
pub const VERSION: &str = "smlserver 0.1.0 (rattle-kit-13f logic dac8208d650f15bf)\n";

/// What `--help` prints.
pub const USAGE: &str = "smlserver: web pages by scripts in Standard ML

Usage:
  smlserver page PROJECT PATH QUERY   writes the page at PATH; QUERY is empty (\"\") so far
  smlserver check PROJECT             writes `ok` where the project has no mistake
  smlserver --help                    writes this text
  smlserver --version                 writes the version

PROJECT is the name of a project file. Its first line is `smlserver 1`, and behind it come lines
`lib FILE`, `script PATH FILE`, `database NAME`, `budget N` and `pages N`. Each FILE lies in the
folder of the project file.

Exit statuses:
  0  the page was written, or the project has no mistake
  1  the project has no script at PATH; `404 no script` was written
  2  the words are none of the above; `bad words` was written
  3  the project was refused, or its script isn't run yet; a line `refused FILE PLACE NAME` was
     written, and to standard error what it means and the line of the file
  4  a write failed
  7  memory was wanting
";

/// Writes a text. The answer is the program's status.
pub fn print_text<K: Sink>(output: &mut K, text: &str) -> u8
    ensures statuses { (result ≡ 0) ⊎ ((result ≡ WRITE_FAULT) ⊎ (result ≡ NO_MEMORY)) }
    ensures ok { result ≡ 0 → K.written output.new ≡ grown (K.written output.old) text.now }
    ensures failed { result ≡ WRITE_FAULT → Rose (K.write_count output.old) (K.write_count output.new) }
{
    match write_all(output, text.as_bytes()) {
        Ok(()) => 0,
        Err(WriteRefusal::Failed) => WRITE_FAULT,
        Err(WriteRefusal::NoMemory) => NO_MEMORY,
    }
}
