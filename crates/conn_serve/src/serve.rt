// A connection, piece by piece.
ghost use Rattle.std.specs.Prelude.{◌≡◌, ◌≤◌, ◌<◌, false, [], length, take, IfOk, IfErr, OnErr};
ghost use Rattle.outside_world.specs.Told.{Rose, IsUsedUp};
ghost use Rattle.http_read.specs.Messages.{HasFront, Held};
ghost use Rattle.conn_serve.specs.Serving.{IsServed, told_by};
ghost use Rattle.conn_serve.specs.Steps.{Gives, InputEnds, PieceGoesOn, PieceEnds};

use crate::Ended;
use crate::answers::answer_held;
use http_read::Reader;
use outside_world::{Conn, Failed};
use std::alloc::Global;
use web_messages::Answerer;

// The most bytes that are read of one connection.
const MOST_BYTES: u64 = 1 << 40;

const PIECE: usize = 4096;

// How a connection ends whose input has ended.
fn end_of_input(reader: &Reader) -> Ended
    ensures { InputEnds reader.now.held result }
{
    match reader.held() {
        0 => Ended::AtEnd,
        held => Ended::Truncated(held),
    }
}

// Reads a piece, of which a front is given.
fn read_link<L: Conn>(link: &mut L, piece: &mut [u8]) -> Result<usize, Failed>
    ensures within { IfOk result (λ n. n ≤ length piece.new) }
    ensures room { length piece.new ≡ length piece.old }
    ensures ok { IfOk result (λ n. Gives (take n piece.new) (told_by L.given L.left L.read_count L.written L.write_count link.old) (told_by L.given L.left L.read_count L.written L.write_count link.new)) }
    ensures end { IfOk result (λ n. n ≡ 0 → 0 < length piece.old → IsUsedUp (L.left link.new)) }
    ensures err { OnErr result (Gives [] (told_by L.given L.left L.read_count L.written L.write_count link.old) (told_by L.given L.left L.read_count L.written L.write_count link.new)) }
    ensures failed { OnErr result (Rose (L.read_count link.old) (L.read_count link.new)) }
    ensures count { L.read_count link.old ≤ L.read_count link.new }
    ensures written { L.written link.new ≡ L.written link.old }
    ensures writes { L.write_count link.new ≡ L.write_count link.old }
    ensures lasting { L.lasting link.new ≡ L.lasting link.old }
    ensures extra { L.is_extra link.new ≡ L.is_extra link.old }
{
    link.read(piece)
}

// Reads a piece and answers the messages that it completes. Answers how many bytes came, or how the connection ends.
fn serve_piece<L: Conn, A: Answerer>(
    alloc: Global,
    reader: &mut Reader,
    link: &mut L,
    answerer: &mut A,
    piece: &mut [u8],
) -> Result<usize, Ended>
    requires open { reader.old.closed ≡ false }
    requires front { HasFront reader.old.held Held }
    requires room { 0 < length piece.old }
    ensures within { IfOk result (λ n. n ≤ length piece.old) }
    ensures ok { IfOk result (PieceGoesOn A.answers answerer.old answerer.new (told_by L.given L.left L.read_count L.written L.write_count link.old) (told_by L.given L.left L.read_count L.written L.write_count link.new) reader.old.held reader.new) }
    ensures err { IfErr result (PieceEnds A.answers answerer.old answerer.new (told_by L.given L.left L.read_count L.written L.write_count link.old) (told_by L.given L.left L.read_count L.written L.write_count link.new) reader.old.held (length piece.old)) }
    ensures reads { L.read_count link.old ≤ L.read_count link.new }
    ensures writes { L.write_count link.old ≤ L.write_count link.new }
    ensures lasting { L.lasting link.new ≡ L.lasting link.old }
    ensures extra { L.is_extra link.new ≡ L.is_extra link.old }
{
    match read_link(link, piece) {
        Err(_) => Err(Ended::ReadFault),
        Ok(0) => Err(end_of_input(reader)),
        Ok(n) => {
            let Ok(()) = reader.feed(&piece[..n]) else {
                return Err(Ended::NoMemory);
            };
            answer_held(alloc, reader, link, answerer)?;
            Ok(n)
        }
    }
}

// Serves the link until the connection ends.
fn serve_pieces<L: Conn, A: Answerer>(alloc: Global, link: &mut L, answerer: &mut A) -> Ended
    ensures served { IsServed A.answers answerer.old answerer.new (told_by L.given L.left L.read_count L.written L.write_count link.old) (told_by L.given L.left L.read_count L.written L.write_count link.new) result }
    ensures reads { L.read_count link.old ≤ L.read_count link.new }
    ensures writes { L.write_count link.old ≤ L.write_count link.new }
    ensures lasting { L.lasting link.new ≡ L.lasting link.old }
    ensures extra { L.is_extra link.new ≡ L.is_extra link.old }
{
    let Ok(mut reader) = Reader::make(alloc) else {
        return Ended::NoMemory;
    };
    let mut piece = [0u8; PIECE];
    let mut read = 0u64;
    while read < MOST_BYTES {
        let room = (MOST_BYTES - read).min(PIECE as u64) as usize;
        match serve_piece(alloc, &mut reader, link, answerer, &mut piece[..room]) {
            Err(ended) => return ended,
            Ok(n) => read += n as u64,
        }
    }
    Ended::TurnsSpent
}

/// Answers the messages of a connection in order, and ends it. Each reply is one write, where the link takes it whole.
/// The messages that are whole are answered before more is read; what is held then is less than one message, of at most
/// 16,384 bytes and a body, and one piece.
pub fn serve_conn<L: Conn, A: Answerer>(alloc: Global, link: &mut L, answerer: &mut A) -> Ended
    ensures served { IsServed A.answers answerer.old answerer.new (told_by L.given L.left L.read_count L.written L.write_count link.old) (told_by L.given L.left L.read_count L.written L.write_count link.new) result }
    ensures reads { L.read_count link.old ≤ L.read_count link.new }
    ensures writes { L.write_count link.old ≤ L.write_count link.new }
    ensures lasting { L.lasting link.new ≡ L.lasting link.old }
    ensures extra { L.is_extra link.new ≡ L.is_extra link.old }
{
    let ended = serve_pieces(alloc, link, answerer);
    link.finish();
    ended
}
