// Answers to the messages at hand.
ghost use Rattle.std.specs.Prelude.{◌≡◌, ◌≤◌, false, IfErr, OnOk};
ghost use Rattle.http_reply.specs.ReplyBytes.{IsFaultStatus};
ghost use Rattle.conn_serve.specs.Serving.{told_by};
ghost use Rattle.conn_serve.specs.Steps.{Takes, SendEnds, Replied, ReplyEnds, FaultEnds, GoesOn, EndsOn, IsOfAnswers};

use crate::Ended;
use http_read::{Next, Reader};
use http_reply::{bad_bytes, reply_bytes};
use outside_world::{Conn, WriteRefusal, write_all};
use sml_syntax::Text;
use std::alloc::Global;
use web_messages::{Answerer, Request};

// Writes bytes to the link.
fn send<L: Conn>(link: &mut L, bytes: &Text) -> Result<(), Ended>
    ensures ok { OnOk result (Takes bytes.now (told_by L.given L.left L.read_count L.written L.write_count link.old) (told_by L.given L.left L.read_count L.written L.write_count link.new)) }
    ensures err { IfErr result (SendEnds bytes.now (told_by L.given L.left L.read_count L.written L.write_count link.old) (told_by L.given L.left L.read_count L.written L.write_count link.new)) }
    ensures count { L.write_count link.old ≤ L.write_count link.new }
    ensures keeps { L.Sink.kept link.new ≡ L.Sink.kept link.old }
{
    match write_all(link, bytes.as_bytes()) {
        Ok(()) => Ok(()),
        Err(WriteRefusal::Failed) => Err(Ended::WriteFault),
        Err(WriteRefusal::NoMemory) => Err(Ended::NoMemory),
    }
}

// Answers a request. An `Err` says how the connection ends with it.
fn answer_one<L: Conn, A: Answerer>(
    alloc: Global,
    link: &mut L,
    answerer: &mut A,
    request: &Request,
) -> Result<(), Ended>
    ensures open { OnOk result (request.now.closing ≡ false) }
    ensures ok { OnOk result (Replied A.answers answerer.old answerer.new request.now (λ bytes. Takes bytes (told_by L.given L.left L.read_count L.written L.write_count link.old) (told_by L.given L.left L.read_count L.written L.write_count link.new))) }
    ensures err { IfErr result (λ end. Replied A.answers answerer.old answerer.new request.now (ReplyEnds request.now.closing (told_by L.given L.left L.read_count L.written L.write_count link.old) (told_by L.given L.left L.read_count L.written L.write_count link.new) end)) }
    ensures count { L.write_count link.old ≤ L.write_count link.new }
    ensures keeps { L.Sink.kept link.new ≡ L.Sink.kept link.old }
{
    let reply = answerer.answer(request);
    let Ok(bytes) = reply_bytes(alloc, &reply, request.closing) else {
        return Err(Ended::NoMemory);
    };
    send(link, &bytes)?;
    if request.closing {
        return Err(Ended::Closed);
    }
    Ok(())
}

// Answers bytes that are no message, with which the connection ends.
fn refuse<L: Conn>(alloc: Global, link: &mut L, status: u16) -> Ended
    requires { IsFaultStatus status }
    ensures ends { FaultEnds status (told_by L.given L.left L.read_count L.written L.write_count link.old) (told_by L.given L.left L.read_count L.written L.write_count link.new) result }
    ensures count { L.write_count link.old ≤ L.write_count link.new }
    ensures keeps { L.Sink.kept link.new ≡ L.Sink.kept link.old }
{
    let Ok(bytes) = bad_bytes(alloc, status) else {
        return Ended::NoMemory;
    };
    match send(link, &bytes) {
        Ok(()) => Ended::BadInput(status),
        Err(ended) => ended,
    }
}

/// Answers the messages that are whole. An `Err` says how the connection ends with them.
pub fn answer_held<L: Conn, A: Answerer>(
    alloc: Global,
    reader: &mut Reader,
    link: &mut L,
    answerer: &mut A,
) -> Result<(), Ended>
    requires { reader.old.closed ≡ false }
    ensures ok { OnOk result (GoesOn A.answers answerer.old answerer.new (told_by L.given L.left L.read_count L.written L.write_count link.old) (told_by L.given L.left L.read_count L.written L.write_count link.new) reader.old.held reader.new) }
    ensures err { IfErr result (EndsOn A.answers answerer.old answerer.new (told_by L.given L.left L.read_count L.written L.write_count link.old) (told_by L.given L.left L.read_count L.written L.write_count link.new) reader.old.held) }
    ensures cause { IfErr result IsOfAnswers }
    ensures count { L.write_count link.old ≤ L.write_count link.new }
    ensures keeps { L.Sink.kept link.new ≡ L.Sink.kept link.old }
{
    loop {
        match reader.next() {
            Err(_) => return Err(Ended::NoMemory),
            Ok(Next::More) => return Ok(()),
            Ok(Next::Bad(status)) => return Err(refuse(alloc, link, status)),
            Ok(Next::Request(request)) => answer_one(alloc, link, answerer, &request)?,
        }
    }
}
