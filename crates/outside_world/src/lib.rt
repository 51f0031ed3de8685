#![tactic(auto)]
//! What a program reads, writes and asks of the world around it: traits, and objects in memory that implement them.
//!
//! An object of the outside *tells* what it holds or has left where it can: each such ghost member is an `Option`.
//! Objects in memory tell everything. A file, a socket or a terminal tells nothing, and what a program does with it
//! is then known from the clauses at `None`.
//!
//! Each object counts its faults. A call answers `Failed` only where its count rose, and no count falls.

mod clock;
mod connection;
mod files;
mod memory;
mod stream;

pub use clock::Clock;
pub use connection::{Both, Conn};
pub use files::{FileRefusal, Files};
pub use memory::{
    MemClock, MemConn, MemFiles, MemSink, MemSource, SureConn, SureFiles, SureSink, SureSource,
};
pub use stream::{Failed, Sink, Source, WriteRefusal, write_all};
