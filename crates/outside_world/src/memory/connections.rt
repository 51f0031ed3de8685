// Connections in memory.
ghost use Rattle.std.specs.Prelude.{◌≡◌, ◌<◌, ◌≤◌, ◌++◌, [], length, take, min, IfOk};
ghost use Rattle.outside_world.specs.FaultPlan.{fresh_plan};
ghost use Rattle.outside_world.specs.Stored.{piece_size, sizes_after};

use crate::memory::fault_plan::CallPlan;
use crate::memory::sinks::{MemSink, SureSink};
use crate::memory::sources::Unread;
use crate::{Conn, Failed, Sink, Source, WriteRefusal};
use sml_syntax::NoMemory;
use std::alloc::Global;
use std::marker::Model;

// The sizes of the pieces to come.
#[derive(Drop)]
struct Cuts {
    sizes: Vec<u64>,
    at: usize,
}

impl Model for Cuts {
    ghost use Rattle.std.specs.Prelude.{List, ℕ, drop};

    ghost Value = { List ℕ };

    ghost view = { λ c. drop c.at c.sizes.items };
}

impl Cuts {
    fn make(alloc: Global, sizes: &[u64]) -> Result<Cuts, NoMemory>
        ensures { IfOk result (λ c. c ≡ sizes.now) }
    {
        Ok(Cuts {
            sizes: Vec::from_slice(alloc, sizes)?,
            at: 0,
        })
    }

    // The size of the next piece, where so many bytes fit. Sizes of 0 are skipped.
    fn next_size(&mut self, room: usize) -> usize
        ensures size { result ≡ piece_size self.old room }
        ensures sizes { self.new ≡ sizes_after self.old }
        ensures within { result ≤ room }
        ensures some { 0 < room → 0 < result }
    {
        while self.at < self.sizes.len() {
            let size = self.sizes[self.at];
            self.at += 1;
            if size > 0 {
                return (size.min(room as u64)) as usize;
            }
        }
        room
    }
}

// Gives at most so many bytes.
fn give_most(bytes: &mut Unread, piece: &mut [u8], most: usize) -> usize
    requires { most ≤ length piece.old }
    ensures count { result ≡ min most (length bytes.old.left) }
    ensures given { bytes.new.given ≡ bytes.old.given ++ take result piece.new }
    ensures left { bytes.old.left ≡ take result piece.new ++ bytes.new.left }
{
    bytes.give(&mut piece[..most])
}

/// A connection of the bytes that it was made of, which holds what was written. No read takes memory.
#[derive(Drop)]
pub struct MemConn {
    bytes: Unread,
    cuts: Cuts,
    reads: CallPlan,
    sink: MemSink,
}

impl Model for MemConn {
    ghost use Rattle.outside_world.specs.Stored.{ConnState};

    ghost Value = { ConnState };

    ghost view = { λ c. record { given = c.bytes.given; left = c.bytes.left; reads = c.reads; written = c.sink.written; writes = c.sink.plan } };
}

impl MemConn {
    /// A connection whose reads and writes with these numbers fail, from 0. Reads give pieces of the sizes in `cuts`,
    /// where they fit, and then all that fits.
    pub fn make(
        alloc: Global,
        bytes: &[u8],
        cuts: &[u64],
        read_fails: &[u64],
        write_fails: &[u64],
    ) -> Result<MemConn, NoMemory>
        ensures given { IfOk result (λ c. c.given ≡ []) }
        ensures left { IfOk result (λ c. c.left ≡ bytes.now) }
        ensures reads { IfOk result (λ c. c.reads ≡ fresh_plan read_fails.now) }
        ensures written { IfOk result (λ c. c.written ≡ []) }
        ensures writes { IfOk result (λ c. c.writes ≡ fresh_plan write_fails.now) }
    {
        Ok(MemConn {
            bytes: Unread::make(alloc, bytes)?,
            cuts: Cuts::make(alloc, cuts)?,
            reads: CallPlan::make(alloc, read_fails)?,
            sink: MemSink::make(alloc, write_fails)?,
        })
    }

    /// The bytes that were written.
    pub fn written(&self) -> &[u8]
        ensures { result.now ≡ self.now.written }
    {
        self.sink.written()
    }
}

impl Source for MemConn {
    ghost use Rattle.std.specs.Prelude.{List, ℕ, Some};
    ghost use Rattle.outside_world.specs.FaultPlan.{FaultPlan};

    ghost given = { λ c. Some c.given };

    ghost left = { λ c. Some c.left };

    ghost read_count = { λ c. c.reads.faults };

    ghost read_plan = { λ c. Some c.reads };

    ghost Kept = { List ℕ × FaultPlan };

    ghost kept = { λ c. (c.written, c.writes) };

    fn read(&mut self, piece: &mut [u8]) -> Result<usize, Failed> {
        if self.reads.call_fails() {
            return Err(Failed);
        }
        let most = self.cuts.next_size(piece.len());
        Ok(give_most(&mut self.bytes, piece, most))
    }

    fn read_faults(&self) -> u64 {
        self.reads.faults()
    }
}

impl Sink for MemConn {
    ghost use Rattle.std.specs.Prelude.{List, ℕ, Some};
    ghost use Rattle.outside_world.specs.FaultPlan.{FaultPlan};

    ghost written = { λ c. Some c.written };

    ghost write_count = { λ c. c.writes.faults };

    ghost write_plan = { λ c. Some c.writes };

    ghost Kept = { List ℕ × List ℕ × FaultPlan };

    ghost kept = { λ c. (c.given, c.left, c.reads) };

    fn write(&mut self, piece: &[u8]) -> Result<usize, WriteRefusal> {
        self.sink.write(piece)
    }

    fn write_faults(&self) -> u64 {
        self.sink.write_faults()
    }
}

impl Conn for MemConn {
    ghost use Rattle.std.specs.Prelude.{Some, false};
    ghost use Rattle.std.proofs.Common.{ap, refl};

    ghost Lasting = { Unit {0} };

    ghost lasting = { λ _. tt };

    ghost is_extra = { λ _. false };

    ghost read_keeps = { λ a b e. (ap (λ k. Some k.0) e, ap (λ k. k.1.faults) e, refl, refl) };

    ghost write_keeps = { λ a b e. (ap (λ k. Some k.0) e, ap (λ k. Some k.1) e, ap (λ k. k.2.faults) e, refl, refl) };

    fn finish(&mut self) {}

    fn extra(&self) -> bool {
        false
    }
}

/// A connection of the bytes that it was made of, which holds what was written. No read fails, and no write but for
/// memory.
#[derive(Drop)]
pub struct SureConn {
    bytes: Unread,
    cuts: Cuts,
    sink: SureSink,
}

impl Model for SureConn {
    ghost use Rattle.outside_world.specs.Stored.{SureConnState};

    ghost Value = { SureConnState };

    ghost view = { λ c. record { given = c.bytes.given; left = c.bytes.left; written = c.sink } };
}

impl SureConn {
    /// Reads give pieces of the sizes in `cuts`, where they fit, and then all that fits.
    pub fn make(alloc: Global, bytes: &[u8], cuts: &[u64]) -> Result<SureConn, NoMemory>
        ensures given { IfOk result (λ c. c.given ≡ []) }
        ensures left { IfOk result (λ c. c.left ≡ bytes.now) }
        ensures written { IfOk result (λ c. c.written ≡ []) }
    {
        Ok(SureConn {
            bytes: Unread::make(alloc, bytes)?,
            cuts: Cuts::make(alloc, cuts)?,
            sink: SureSink::make(alloc)?,
        })
    }

    /// The bytes that were written.
    pub fn written(&self) -> &[u8]
        ensures { result.now ≡ self.now.written }
    {
        self.sink.written()
    }
}

impl Source for SureConn {
    ghost use Rattle.std.specs.Prelude.{List, ℕ, Some};

    ghost given = { λ c. Some c.given };

    ghost left = { λ c. Some c.left };

    ghost read_count = { λ _. 0 };

    ghost Kept = { List ℕ };

    ghost kept = { λ c. c.written };

    fn read(&mut self, piece: &mut [u8]) -> Result<usize, Failed> {
        let most = self.cuts.next_size(piece.len());
        Ok(give_most(&mut self.bytes, piece, most))
    }

    fn read_faults(&self) -> u64 {
        0
    }
}

impl Sink for SureConn {
    ghost use Rattle.std.specs.Prelude.{List, ℕ, Some};

    ghost written = { λ c. Some c.written };

    ghost write_count = { λ _. 0 };

    ghost Kept = { List ℕ × List ℕ };

    ghost kept = { λ c. (c.given, c.left) };

    fn write(&mut self, piece: &[u8]) -> Result<usize, WriteRefusal> {
        self.sink.write(piece)
    }

    fn write_faults(&self) -> u64 {
        0
    }
}

impl Conn for SureConn {
    ghost use Rattle.std.specs.Prelude.{Some, false};
    ghost use Rattle.std.proofs.Common.{ap, refl};

    ghost Lasting = { Unit {0} };

    ghost lasting = { λ _. tt };

    ghost is_extra = { λ _. false };

    ghost read_keeps = { λ a b e. (ap (λ k. Some k) e, refl, refl, refl) };

    ghost write_keeps = { λ a b e. (ap (λ k. Some k.0) e, ap (λ k. Some k.1) e, refl, refl, refl) };

    fn finish(&mut self) {}

    fn extra(&self) -> bool {
        false
    }
}
