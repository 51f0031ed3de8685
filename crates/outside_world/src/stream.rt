// Bytes in and bytes out.
ghost use Rattle.std.specs.Prelude.{◌≡◌, ◌<◌, ◌≤◌, ℕ, List, Option, None, length, take, IfOk, OnOk, OnErr, IsErr, IsErrOf};
ghost use Rattle.outside_world.specs.Told.{Rose, grown, led, IsUsedUp, GrewByFront};
ghost use Rattle.outside_world.specs.FaultPlan.{FaultPlan, FailsAsPlanned, plan_after};

/// A call that failed.
#[derive(Clone, Copy, Debug, PartialEq, Eq)]
pub struct Failed;

/// Why a write took nothing.
#[derive(Clone, Copy, Debug, PartialEq, Eq)]
pub enum WriteRefusal {
    Failed,
    NoMemory,
}

/// Where bytes come from.
pub trait Source {
    /// The bytes that it gave, where it tells them.
    ghost given: { Self → Option (List ℕ) };

    /// The bytes that it has left, where it tells them.
    ghost left: { Self → Option (List ℕ) };

    /// How many reads failed.
    ghost read_count: { Self → ℕ };

    /// Which reads fail, where it tells that.
    ghost read_plan: { Self → Option FaultPlan } = { λ _. None };

    /// The type of `kept`: `Unit {0}` for an object that owns all that it has.
    ghost Kept: { Type 0 };

    /// What no read changes: the references of a borrowed object, and what the other half of a connection tells.
    ghost kept: { Self → Kept };

    /// Puts a front of what is left into the front of the piece, and answers how many bytes. Zero bytes for a piece
    /// that isn't empty is the end of the input. The rest of the piece may have changed, after a failure all of it.
    fn read(&mut self, piece: &mut [u8]) -> Result<usize, Failed>
        ensures within { IfOk result (λ n. n ≤ length piece.new) }
        ensures given { IfOk result (λ n. given self.new ≡ grown (given self.old) (take n piece.new)) }
        ensures left { IfOk result (λ n. left self.old ≡ led (take n piece.new) (left self.new)) }
        ensures end { IfOk result (λ n. n ≡ 0 → 0 < length piece.old → IsUsedUp (left self.old)) }
        ensures err_given { OnErr result (given self.new ≡ given self.old) }
        ensures err_left { OnErr result (left self.new ≡ left self.old) }

        ensures failed { OnErr result (Rose (read_count self.old) (read_count self.new)) }
        ensures count { read_count self.old ≤ read_count self.new }
        ensures planned { FailsAsPlanned (read_plan self.old) (IsErr result) }
        ensures plan { read_plan self.new ≡ plan_after (read_plan self.old) }
        ensures keeps { kept self.new ≡ kept self.old };

    /// How many reads failed.
    fn read_faults(&self) -> u64
        ensures { result ≡ read_count self.now };
}

/// Where bytes go.
pub trait Sink {
    /// The bytes that it holds, where it tells them.
    ghost written: { Self → Option (List ℕ) };

    /// How many writes failed.
    ghost write_count: { Self → ℕ };

    /// Which writes fail, where it tells that.
    ghost write_plan: { Self → Option FaultPlan } = { λ _. None };

    /// The type of `kept`: `Unit {0}` for an object that owns all that it has.
    ghost Kept: { Type 0 };

    /// What no write changes: the references of a borrowed object, and what the other half of a connection tells.
    ghost kept: { Self → Kept };

    /// Takes a front of the piece, and answers how many bytes. It takes some of a piece that isn't empty.
    fn write(&mut self, piece: &[u8]) -> Result<usize, WriteRefusal>
        ensures within { IfOk result (λ n. n ≤ length piece.now) }
        ensures some { IfOk result (λ n. 0 < length piece.now → 0 < n) }
        ensures ok { IfOk result (λ n. written self.new ≡ grown (written self.old) (take n piece.now)) }
        ensures err { OnErr result (written self.new ≡ written self.old) }

        ensures failed { IsErrOf result WriteRefusal.Failed → Rose (write_count self.old) (write_count self.new) }
        ensures count { write_count self.old ≤ write_count self.new }
        ensures planned { FailsAsPlanned (write_plan self.old) (IsErrOf result WriteRefusal.Failed) }
        ensures plan { write_plan self.new ≡ plan_after (write_plan self.old) }
        ensures keeps { kept self.new ≡ kept self.old };

    /// How many writes failed.
    fn write_faults(&self) -> u64
        ensures { result ≡ write_count self.now };
}

/// Writes all the bytes, in as many writes as the sink needs.
pub fn write_all<K: Sink>(sink: &mut K, bytes: &[u8]) -> Result<(), WriteRefusal>
    ensures ok { OnOk result (K.written sink.new ≡ grown (K.written sink.old) bytes.now) }
    ensures err { OnErr result (GrewByFront (K.written sink.old) bytes.now (K.written sink.new)) }
    ensures failed { IsErrOf result WriteRefusal.Failed → Rose (K.write_count sink.old) (K.write_count sink.new) }
    ensures count { K.write_count sink.old ≤ K.write_count sink.new }
    ensures keeps { K.kept sink.new ≡ K.kept sink.old }
{
    let mut at = 0;
    while at < bytes.len() {
        let took = sink.write(&bytes[at..])?;
        at += took;
    }
    Ok(())
}
