// Connections in memory, answered by a fixed page.
use conn_serve::{Ended, serve_conn};
use outside_world::SureConn;
use sml_syntax::{NoMemory, Text};
use std::alloc::Global;
use std::io;
use std::time::Instant;
use web_messages::{Answerer, Refusal, Reply, Request};

const REQUEST: &[u8] = b"GET /hello HTTP/1.1\r\nHost: a\r\n\r\n";

// What gives each request the same page.
#[derive(Drop)]
struct Fixed {
    alloc: Global,
}

impl Fixed {
    fn page(&self) -> Result<Reply, NoMemory> {
        Ok(Reply::Finished {
            status: 200,
            ctype: Text::from_bytes(self.alloc, b"text/html; charset=utf-8")?,
            body: Text::from_bytes(self.alloc, b"<p>42</p>")?,
        })
    }
}

impl Answerer for Fixed {
    ghost answers = { λ _ _ _ _. Unit {0} };

    fn answer(&mut self, _request: &Request) -> Reply {
        match self.page() {
            Ok(reply) => reply,
            Err(NoMemory) => Reply::Refused(Refusal::NoMemory),
        }
    }
}

fn no_memory<T>() -> io::Result<T> {
    Err(io::Error::from(io::ErrorKind::OutOfMemory))
}

/// A thousand requests, and how many bytes their replies have.
pub fn small(rt: &HostRuntime) -> io::Result<()> {
    let input = pipelined(rt, 1000)?;
    let written = serve(rt, input.as_slice(), &[])?;
    println!(rt; "serving: 1000 requests, {written} bytes written")
}

/// So many requests one behind the other, with the time that they took.
pub fn timed(rt: &HostRuntime, requests: u32) -> io::Result<()> {
    let input = pipelined(rt, requests)?;
    let start = Instant::now(rt)?;
    let written = serve(rt, input.as_slice(), &[])?;
    let micros = start.elapsed(rt)?.as_micros();
    println!(rt; "serving: {requests} requests, {written} bytes written, {micros} us")
}

/// The same, where each read gives one byte.
pub fn timed_bytes(rt: &HostRuntime, requests: u32) -> io::Result<()> {
    let input = pipelined(rt, requests)?;
    let mut ones = Vec::new(rt.alloc());
    for _ in 0..input.len() {
        if ones.push(1).is_err() {
            return no_memory();
        }
    }
    let start = Instant::now(rt)?;
    let written = serve(rt, input.as_slice(), ones.as_slice())?;
    let micros = start.elapsed(rt)?.as_micros();
    println!(rt; "serving_bytes: {requests} requests, {written} bytes written, {micros} us")
}

fn pipelined(rt: &HostRuntime, requests: u32) -> io::Result<Vec<u8>> {
    let mut input = Vec::new(rt.alloc());
    for _ in 0..requests {
        if input.extend_from_slice(REQUEST).is_err() {
            return no_memory();
        }
    }
    Ok(input)
}

// Serves the input, by pieces of these sizes, and answers how many bytes were written.
fn serve(rt: &HostRuntime, input: &[u8], cuts: &[u64]) -> io::Result<usize> {
    let Ok(mut link) = SureConn::make(rt.alloc(), input, cuts) else {
        return no_memory();
    };
    let mut fixed = Fixed { alloc: rt.alloc() };
    match serve_conn(rt.alloc(), &mut link, &mut fixed) {
        Ended::AtEnd => Ok(link.written().len()),
        _ => no_memory(),
    }
}
