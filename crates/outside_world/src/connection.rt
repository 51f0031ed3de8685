// Bytes in and out over one link.
ghost use Rattle.std.specs.Prelude.{◌≡◌, Bool};

use crate::{Failed, Sink, Source, WriteRefusal};

/// A connection, which gives bytes and takes bytes. A read leaves what was written, and a write what was given and is
/// left.
pub trait Conn: Source + Sink {
    /// The type of `lasting`: `Unit {0}` for a connection that owns all that it has.
    ghost Lasting: { Type 0 };

    /// What no call changes: the references of a borrowed object.
    ghost lasting: { Self → Lasting };

    /// Whether it is one that the door's list doesn't have.
    ghost is_extra: { Self → Bool };

    /// Ends the connection, and changes nothing that it tells.
    fn finish(&mut self)
        ensures given { Self.given self.new ≡ Self.given self.old }
        ensures left { Self.left self.new ≡ Self.left self.old }
        ensures read_count { Self.read_count self.new ≡ Self.read_count self.old }
        ensures read_kept { Self.Source.kept self.new ≡ Self.Source.kept self.old }
        ensures written { Self.written self.new ≡ Self.written self.old }
        ensures write_count { Self.write_count self.new ≡ Self.write_count self.old }
        ensures write_kept { Self.Sink.kept self.new ≡ Self.Sink.kept self.old }
        ensures lasting { lasting self.new ≡ lasting self.old }
        ensures extra { is_extra self.new ≡ is_extra self.old };

    /// Whether it is one that the door's list doesn't have. No call changes it.
    fn extra(&self) -> bool
        ensures { result ≡ is_extra self.now };

    /// What a read keeps has in it what was written.
    ghost read_keeps: { (a b : Self) → Self.Source.kept a ≡ Self.Source.kept b → (Self.written a ≡ Self.written b) × (Self.write_count a ≡ Self.write_count b) × (lasting a ≡ lasting b) × (is_extra a ≡ is_extra b) };

    /// What a write keeps has in it what was given and is left.
    ghost write_keeps: { (a b : Self) → Self.Sink.kept a ≡ Self.Sink.kept b → (Self.given a ≡ Self.given b) × (Self.left a ≡ Self.left b) × (Self.read_count a ≡ Self.read_count b) × (lasting a ≡ lasting b) × (is_extra a ≡ is_extra b) };
}

/// A source and a sink as one connection. Its `finish` does nothing.
#[derive(Drop)]
pub struct Both<'a, S, K> {
    source: &'a mut S,
    sink: &'a mut K,
}

impl<'a, S: Source, K: Sink> Both<'a, S, K> {
    pub fn make(source: &'a mut S, sink: &'a mut K) -> Both<'a, S, K>
        ensures source { result.source ≡ source.entry }
        ensures sink { result.sink ≡ sink.entry }
    {
        Both { source, sink }
    }
}

impl<'a, S: Source, K: Sink> Source for Both<'a, S, K> {
    ghost use Rattle.std.specs.Prelude.{ℕ};
    ghost use Rattle.std.specs.Borrow.{MutBor};

    ghost given = { λ b. S.given b.source.now };

    ghost left = { λ b. S.left b.source.now };

    ghost read_count = { λ b. S.read_count b.source.now };

    ghost read_plan = { λ b. S.read_plan b.source.now };

    ghost Kept = { ℕ × S.Kept × MutBor K };

    ghost kept = { λ b. (b.source.ghost_name, S.kept b.source.now, b.sink) };

    fn read(&mut self, piece: &mut [u8]) -> Result<usize, Failed> {
        self.source.read(piece)
    }

    fn read_faults(&self) -> u64 {
        self.source.read_faults()
    }
}

impl<'a, S: Source, K: Sink> Sink for Both<'a, S, K> {
    ghost use Rattle.std.specs.Prelude.{ℕ};
    ghost use Rattle.std.specs.Borrow.{MutBor};

    ghost written = { λ b. K.written b.sink.now };

    ghost write_count = { λ b. K.write_count b.sink.now };

    ghost write_plan = { λ b. K.write_plan b.sink.now };

    ghost Kept = { ℕ × K.Kept × MutBor S };

    ghost kept = { λ b. (b.sink.ghost_name, K.kept b.sink.now, b.source) };

    fn write(&mut self, piece: &[u8]) -> Result<usize, WriteRefusal> {
        self.sink.write(piece)
    }

    fn write_faults(&self) -> u64 {
        self.sink.write_faults()
    }
}

impl<'a, S: Source, K: Sink> Conn for Both<'a, S, K> {
    ghost use Rattle.std.specs.Prelude.{ℕ, false};
    ghost use Rattle.std.proofs.Common.{ap, refl};

    ghost Lasting = { ℕ × S.Kept × (ℕ × K.Kept) };

    ghost lasting = { λ b. (b.source.ghost_name, S.kept b.source.now, (b.sink.ghost_name, K.kept b.sink.now)) };

    ghost is_extra = { λ _. false };

    ghost read_keeps = { λ a b e. (ap (λ k. K.written k.2.now) e, ap (λ k. K.write_count k.2.now) e, ap (λ k. (k.0, k.1, (k.2.ghost_name, K.kept k.2.now))) e, refl) };

    ghost write_keeps = { λ a b e. (ap (λ k. S.given k.2.now) e, ap (λ k. S.left k.2.now) e, ap (λ k. S.read_count k.2.now) e, ap (λ k. (k.2.ghost_name, S.kept k.2.now, (k.0, k.1))) e, refl) };

    fn finish(&mut self) {}

    fn extra(&self) -> bool {
        false
    }
}
