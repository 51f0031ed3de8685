// What is written, kept in memory.
ghost use Rattle.std.specs.Prelude.{◌≡◌, ◌++◌, [], IfOk, OnOk, OnErr};
ghost use Rattle.outside_world.specs.FaultPlan.{fresh_plan};

use crate::memory::fault_plan::CallPlan;
use crate::{Sink, WriteRefusal};
use sml_syntax::NoMemory;
use std::alloc::Global;
use std::marker::Model;

/// A sink that holds what was written.
#[derive(Drop)]
pub struct MemSink {
    bytes: Vec<u8>,
    plan: CallPlan,
}

impl Model for MemSink {
    ghost use Rattle.outside_world.specs.Stored.{SinkState};

    ghost Value = { SinkState };

    ghost view = { λ k. record { written = k.bytes.items; plan = k.plan } };
}

impl MemSink {
    /// An empty sink whose writes with these numbers fail, from 0.
    pub fn make(alloc: Global, fails: &[u64]) -> Result<MemSink, NoMemory>
        ensures written { IfOk result (λ k. k.written ≡ []) }
        ensures plan { IfOk result (λ k. k.plan ≡ fresh_plan fails.now) }
    {
        Ok(MemSink {
            bytes: Vec::new(alloc),
            plan: CallPlan::make(alloc, fails)?,
        })
    }

    pub fn written(&self) -> &[u8]
        ensures { result.now ≡ self.now.written }
    {
        self.bytes.as_slice()
    }
}

impl Sink for MemSink {
    ghost use Rattle.std.specs.Prelude.{Some};

    ghost written = { λ k. Some k.written };

    ghost write_count = { λ k. k.plan.faults };

    ghost write_plan = { λ k. Some k.plan };

    ghost Kept = { Unit {0} };

    ghost kept = { λ _. tt };

    fn write(&mut self, piece: &[u8]) -> Result<usize, WriteRefusal> {
        if self.plan.call_fails() {
            return Err(WriteRefusal::Failed);
        }
        match self.bytes.extend_from_slice(piece) {
            Ok(()) => Ok(piece.len()),
            Err(_) => Err(WriteRefusal::NoMemory),
        }
    }

    fn write_faults(&self) -> u64 {
        self.plan.faults()
    }
}

/// A sink that holds what was written, of which no write fails but for memory.
#[derive(Drop)]
pub struct SureSink {
    bytes: Vec<u8>,
}

impl Model for SureSink {
    ghost use Rattle.std.specs.Prelude.{List, ℕ};

    ghost Value = { List ℕ };

    ghost view = { λ k. k.bytes.items };
}

impl SureSink {
    /// An empty sink.
    pub fn make(alloc: Global) -> Result<SureSink, NoMemory>
        ensures { IfOk result (λ k. k ≡ []) }
    {
        Ok(SureSink {
            bytes: Vec::new(alloc),
        })
    }

    pub fn written(&self) -> &[u8]
        ensures { result.now ≡ self.now }
    {
        self.bytes.as_slice()
    }
}

impl Sink for SureSink {
    ghost use Rattle.std.specs.Prelude.{Some};

    ghost written = { λ k. Some k };

    ghost write_count = { λ _. 0 };

    ghost Kept = { Unit {0} };

    ghost kept = { λ _. tt };

    fn write(&mut self, piece: &[u8]) -> Result<usize, WriteRefusal> {
        match self.bytes.extend_from_slice(piece) {
            Ok(()) => Ok(piece.len()),
            Err(_) => Err(WriteRefusal::NoMemory),
        }
    }

    fn write_faults(&self) -> u64 {
        0
    }
}
