// Messages out of pieces.
ghost use Rattle.std.specs.Prelude.{◌≡◌, ◌≤◌, ◌++◌, [], None, Some, Ok, false, length, drop, IfOk, OnOk, OnErr};
ghost use Rattle.http_read.specs.Messages.{HasHead};
ghost use Rattle.http_read.specs.Reader.{IsAtStage, IsLooked, IsNext, Answers, stage_fault};

use crate::head::read_parts;
use crate::parts::Parts;
use crate::request::make_request;
use crate::search::{Found, search};
use sml_syntax::NoMemory;
use std::alloc::Global;
use std::marker::Model;
use web_messages::Request;

/// What the reader answers.
#[derive(Debug, PartialEq, Eq, Drop)]
pub enum Next {
    Request(Request),
    /// More bytes are needed.
    More,
    /// Bytes that are no message, with the status of the answer. From then on this is the answer.
    Bad(u16),
}

// How far the bytes were looked at.
#[derive(Clone, Copy)]
pub enum Stage {
    // The first bytes, so many, have so many LF and no end of a head.
    Search(usize, usize),
    // A head, whose body may be whole or not.
    Body(Parts),
    // Bytes that are no message.
    Fault(u16),
}

// Reads the head.
fn look_head(held: &[u8], k: usize) -> Stage
    requires { HasHead held.now k }
    ensures { IsLooked held.now result }
{
    match read_parts(&held[..k]) {
        Ok(parts) => Stage::Body(parts),
        Err(status) => Stage::Fault(status),
    }
}

// Looks for a head, where that isn't done yet.
fn look(held: &[u8], stage: Stage) -> Stage
    requires { IsAtStage held.now stage }
    ensures looked { IsLooked held.now result }
    ensures stays { (status : _) → stage_fault stage ≡ Some status → stage_fault result ≡ Some status }
{
    match stage {
        Stage::Search(seen, count) => match search(held, seen, count) {
            Found::Nothing(count) => Stage::Search(held.len(), count),
            Found::TooLong => Stage::Fault(431),
            Found::Head(k) => look_head(held, k),
        },
        Stage::Body(parts) => Stage::Body(parts),
        Stage::Fault(status) => Stage::Fault(status),
    }
}

// The message at the front, and how many bytes it has, after a look.
#[tactic(auto, using(crate::proofs::Requests::head_fits, crate::proofs::Requests::awaits_at, crate::proofs::Requests::path_fits, crate::proofs::Requests::query_fits, crate::proofs::Requests::message_of))]
fn message_at(alloc: Global, held: &[u8], stage: Stage) -> Result<(Next, usize), NoMemory>
    requires { IsLooked held.now stage }
    ensures ok { IfOk result (λ found. IsNext held.now stage found.0 found.1) }
    ensures err { OnErr result (stage_fault stage ≡ None) }
{
    match stage {
        Stage::Search(_, _) => Ok((Next::More, 0)),
        Stage::Fault(status) => Ok((Next::Bad(status), 0)),
        Stage::Body(parts) => {
            if held.len() - parts.head < parts.body {
                return Ok((Next::More, 0));
            }
            let size = parts.head + parts.body;
            let request = make_request(alloc, &held[..size], &parts)?;
            Ok((Next::Request(request), size))
        }
    }
}

// Removes the first bytes.
fn remove_front(bytes: &mut Vec<u8>, n: usize)
    requires { n ≤ length bytes.old.items }
    ensures { bytes.new.items ≡ drop n bytes.old.items }
{
    let rest = bytes.len() - n;
    bytes.copy_within(n.., 0);
    bytes.truncate(rest);
}

/// A reader of requests. It is fed with pieces of a stream, and gives the messages of all the bytes.
///
/// Contracts see the bytes that are in no message yet, the fault where one was met, and whether the last message was
/// closing.
#[derive(Drop)]
pub struct Reader {
    bytes: Vec<u8>,
    // How many of the bytes are of earlier messages.
    start: usize,
    stage: Stage,
    closed: bool,
}

impl Model for Reader {
    ghost use Rattle.std.specs.Prelude.{◌≤◌, length, drop};
    ghost use Rattle.http_read.specs.Reader.{ReaderState, IsAtStage, stage_fault};

    ghost Value = { ReaderState };

    ghost view = { λ r. record { held = drop r.start r.bytes.items; fault = stage_fault r.stage; closed = r.closed } };

    ghost invariant = { λ r. (r.start ≤ length r.bytes.items) × IsAtStage (drop r.start r.bytes.items) r.stage };
}

impl Reader {
    pub fn make(alloc: Global) -> Result<Reader, NoMemory>
        ensures { IfOk result (λ r. r ≡ record { held = []; fault = None; closed = false }) }
    {
        Ok(Reader {
            bytes: Vec::new(alloc),
            start: 0,
            stage: Stage::Search(0, 0),
            closed: false,
        })
    }

    /// Takes one more piece. After a refusal the reader is as before.
    pub fn feed(&mut self, piece: &[u8]) -> Result<(), NoMemory>
        ensures ok { OnOk result (self.new ≡ record self.old { held = self.old.held ++ piece.now }) }
        ensures err { OnErr result (self.new ≡ self.old) }
    {
        self.forget_given();
        self.bytes.extend_from_slice(piece)?;
        Ok(())
    }

    // Lets go of the bytes of earlier messages, where they are more than half. So each byte is moved at most once for
    // each byte that is fed.
    fn forget_given(&mut self)
        ensures { self.new ≡ self.old }
    {
        if self.start > self.bytes.len() / 2 {
            remove_front(&mut self.bytes, self.start);
            self.start = 0;
        }
    }

    /// The next message of the bytes, if it is whole. After a refusal the reader is as before. After a closing message
    /// nothing more is asked.
    pub fn next(&mut self) -> Result<Next, NoMemory>
        requires open { self.old.closed ≡ false }
        ensures answer { Answers self.old result self.new }
        ensures again { (status : _) → self.old.fault ≡ Some status → result ≡ Ok (Next.Bad status) }
    {
        let stage = look(&self.bytes[self.start..], self.stage);
        self.stage = stage;
        let alloc = *self.bytes.allocator();
        let (next, size) = message_at(alloc, &self.bytes[self.start..], stage)?;
        match next {
            Next::More => Ok(Next::More),
            Next::Bad(status) => Ok(Next::Bad(status)),
            Next::Request(request) => {
                self.start += size;
                self.stage = Stage::Search(0, 0);
                self.closed = request.closing;
                Ok(Next::Request(request))
            }
        }
    }

    /// How many bytes are in no message yet.
    pub fn held(&self) -> u64
        ensures { result ≡ length self.now.held }
    {
        (self.bytes.len() - self.start) as u64
    }
}
