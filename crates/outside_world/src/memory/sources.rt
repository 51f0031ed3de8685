// Bytes in memory to be read.
ghost use Rattle.std.specs.Prelude.{◌≡◌, ◌<◌, ◌≤◌, ◌++◌, [], length, take, min, IfOk};
ghost use Rattle.outside_world.specs.FaultPlan.{fresh_plan};

use crate::memory::fault_plan::CallPlan;
use crate::{Failed, Source};
use sml_syntax::NoMemory;
use std::alloc::Global;
use std::marker::Model;

// Bytes, and how many of them were given.
#[derive(Drop)]
pub struct Unread {
    bytes: Vec<u8>,
    at: usize,
}

impl Model for Unread {
    ghost use Rattle.std.specs.Prelude.{◌≤◌, length, take, drop};
    ghost use Rattle.outside_world.specs.Stored.{PartlyRead};

    ghost Value = { PartlyRead };

    ghost view = { λ u. record { given = take u.at u.bytes.items; left = drop u.at u.bytes.items } };

    ghost invariant = { λ u. u.at ≤ length u.bytes.items };
}

impl Unread {
    pub fn make(alloc: Global, bytes: &[u8]) -> Result<Unread, NoMemory>
        ensures { IfOk result (λ u. u ≡ record { given = []; left = bytes.now }) }
    {
        Ok(Unread {
            bytes: Vec::from_slice(alloc, bytes)?,
            at: 0,
        })
    }

    // Gives as many bytes as the piece has room for.
    pub fn give(&mut self, piece: &mut [u8]) -> usize
        ensures count { result ≡ min (length piece.old) (length self.old.left) }
        ensures given { self.new.given ≡ self.old.given ++ take result piece.new }
        ensures left { self.old.left ≡ take result piece.new ++ self.new.left }
    {
        let n = copy_front(&self.bytes[self.at..], piece);
        self.at += n;
        n
    }
}

// Copies as much of the bytes as the piece has room for.
fn copy_front(bytes: &[u8], piece: &mut [u8]) -> usize
    ensures count { result ≡ min (length piece.old) (length bytes.now) }
    ensures front { take result piece.new ≡ take result bytes.now }
{
    let n = piece.len().min(bytes.len());
    piece[..n].copy_from_slice(&bytes[..n]);
    n
}

/// A source of the bytes that it was made of. No read takes memory.
#[derive(Drop)]
pub struct MemSource {
    bytes: Unread,
    plan: CallPlan,
}

impl Model for MemSource {
    ghost use Rattle.outside_world.specs.Stored.{SourceState};

    ghost Value = { SourceState };

    ghost view = { λ s. record { given = s.bytes.given; left = s.bytes.left; plan = s.plan } };
}

impl MemSource {
    /// A source whose reads with these numbers fail, from 0.
    pub fn make(alloc: Global, bytes: &[u8], fails: &[u64]) -> Result<MemSource, NoMemory>
        ensures given { IfOk result (λ s. s.given ≡ []) }
        ensures left { IfOk result (λ s. s.left ≡ bytes.now) }
        ensures plan { IfOk result (λ s. s.plan ≡ fresh_plan fails.now) }
    {
        Ok(MemSource {
            bytes: Unread::make(alloc, bytes)?,
            plan: CallPlan::make(alloc, fails)?,
        })
    }
}

impl Source for MemSource {
    ghost use Rattle.std.specs.Prelude.{Some};

    ghost given = { λ s. Some s.given };

    ghost left = { λ s. Some s.left };

    ghost read_count = { λ s. s.plan.faults };

    ghost read_plan = { λ s. Some s.plan };

    ghost Kept = { Unit {0} };

    ghost kept = { λ _. tt };

    fn read(&mut self, piece: &mut [u8]) -> Result<usize, Failed> {
        if self.plan.call_fails() {
            return Err(Failed);
        }
        Ok(self.bytes.give(piece))
    }

    fn read_faults(&self) -> u64 {
        self.plan.faults()
    }
}

/// A source of the bytes that it was made of, of which no read fails. No read takes memory.
#[derive(Drop)]
pub struct SureSource {
    bytes: Unread,
}

impl Model for SureSource {
    ghost use Rattle.outside_world.specs.Stored.{PartlyRead};

    ghost Value = { PartlyRead };

    ghost view = { λ s. s.bytes };
}

impl SureSource {
    pub fn make(alloc: Global, bytes: &[u8]) -> Result<SureSource, NoMemory>
        ensures given { IfOk result (λ s. s.given ≡ []) }
        ensures left { IfOk result (λ s. s.left ≡ bytes.now) }
    {
        Ok(SureSource {
            bytes: Unread::make(alloc, bytes)?,
        })
    }
}

impl Source for SureSource {
    ghost use Rattle.std.specs.Prelude.{Some};

    ghost given = { λ s. Some s.given };

    ghost left = { λ s. Some s.left };

    ghost read_count = { λ _. 0 };

    ghost Kept = { Unit {0} };

    ghost kept = { λ _. tt };

    fn read(&mut self, piece: &mut [u8]) -> Result<usize, Failed> {
        Ok(self.bytes.give(piece))
    }

    fn read_faults(&self) -> u64 {
        0
    }
}
