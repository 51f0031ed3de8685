// Input and output of the system, with a buffer each.
ghost use Rattle.std.specs.Prelude.{◌≡◌, ◌≢◌, ◌++◌, None, [], IfOk, IsSome, IsTrue};
ghost use Rattle.std.specs.Io.Buffered.{writer_buffer};
ghost use Rattle.outside_world.specs.Told.{Rose};

use outside_world::{Failed, Sink, Source, WriteRefusal};
use sml_syntax::NoMemory;
use std::alloc::Global;
use std::io::{BufReader, BufWriter, Read, Write};

/// The status where a write failed.
pub const WRITE_FAULT: u8 = 4;

/// A reader of the system. It tells nothing of its bytes.
#[derive(Drop)]
pub struct StreamSource<R: Read + Drop> {
    reader: BufReader<R>,
    faults: u64,
}

impl<R: Read + Drop> StreamSource<R> {
    pub fn make(alloc: Global, reader: R) -> Result<StreamSource<R>, NoMemory>
        ensures { IfOk result (λ s. s.faults ≡ 0) }
    {
        let Ok(reader) = BufReader::new(alloc, reader) else {
            return Err(NoMemory);
        };
        Ok(StreamSource { reader, faults: 0 })
    }
}

impl<R: Read + Drop> Source for StreamSource<R> {
    ghost given = { λ _. None };

    ghost left = { λ _. None };

    ghost read_count = { λ s. s.faults };

    ghost Kept = { Unit {0} };

    ghost kept = { λ _. tt };

    fn read(&mut self, piece: &mut [u8]) -> Result<usize, Failed> {
        match self.reader.read(piece) {
            Ok(n) => Ok(n),
            Err(_) => {
                self.faults = self.faults.saturating_add(1);
                Err(Failed)
            }
        }
    }

    fn read_faults(&self) -> u64 {
        self.faults
    }
}

/// The greatest number of bytes of an output that are kept.
const KEPT_MOST: usize = 8192;

/// A writer of the system. It tells nothing of its bytes, and holds some back until `finish`. It keeps a short output, so
/// that the line of a refusal can be read again.
#[derive(Drop)]
pub struct StreamSink<W: Write + Drop> {
    writer: BufWriter<W>,
    faults: u64,
    taken: Vec<u8>,
    is_whole: bool,
}

impl<W: Write + Drop> StreamSink<W> {
    pub fn make(alloc: Global, writer: W) -> Result<StreamSink<W>, NoMemory>
        ensures count { IfOk result (λ k. k.faults ≡ 0) }
        ensures empty { IfOk result (λ k. writer_buffer k.writer ≡ []) }
    {
        let Ok(writer) = BufWriter::new(alloc, writer) else {
            return Err(NoMemory);
        };
        Ok(StreamSink {
            writer,
            faults: 0,
            taken: Vec::new(alloc),
            is_whole: true,
        })
    }

    /// All that was written, where it is short and memory was there to keep it.
    pub fn whole_output(&self) -> Option<&[u8]>
        ensures { IsSome result → IsTrue self.now.is_whole }
    {
        if self.is_whole {
            Some(&self.taken)
        } else {
            None
        }
    }

    // Keeps what was taken, unless it is too much.
    fn keep(&mut self, bytes: &[u8])
        ensures whole { IsTrue self.new.is_whole → IsTrue self.old.is_whole × (self.new.taken.items ≡ self.old.taken.items ++ bytes.now) }
        ensures faults { self.new.faults ≡ self.old.faults }
    {
        if !self.is_whole {
            return;
        }
        if bytes.len() > KEPT_MOST || self.taken.len() > KEPT_MOST - bytes.len() {
            self.is_whole = false;
            return;
        }
        if self.taken.extend_from_slice(bytes).is_err() {
            self.is_whole = false;
        }
    }

    /// Writes what was held back. The status stays as it was, unless that failed.
    pub fn finish(&mut self, status: u8) -> u8
        ensures status { result ≢ status → result ≡ WRITE_FAULT }
        ensures failed { result ≢ status → Rose self.old.faults self.new.faults }
        ensures written { result ≢ WRITE_FAULT → writer_buffer self.new.writer ≡ [] }
    {
        if self.writer.flush().is_ok() {
            return status;
        }
        self.faults = self.faults.saturating_add(1);
        WRITE_FAULT
    }
}

impl<W: Write + Drop> Sink for StreamSink<W> {
    ghost written = { λ _. None };

    ghost write_count = { λ k. k.faults };

    ghost Kept = { Unit {0} };

    ghost kept = { λ _. tt };

    fn write(&mut self, piece: &[u8]) -> Result<usize, WriteRefusal> {
        match self.writer.write(piece) {
            Ok(n) if n > 0 || piece.is_empty() => {
                self.keep(&piece[..n]);
                Ok(n)
            }
            _ => {
                self.faults = self.faults.saturating_add(1);
                Err(WriteRefusal::Failed)
            }
        }
    }

    fn write_faults(&self) -> u64 {
        self.faults
    }
}
