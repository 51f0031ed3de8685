#![tactic(auto)]
//! One connection: its messages are answered in order, until it ends.
//!
//! A connection is read piece by piece (`serve`), and the messages that are whole are answered before the next piece is
//! read (`answers`). So what a client gets doesn't depend on how its bytes were cut, and no more is held than one message
//! and one piece.

mod answers;
mod serve;

pub use serve::serve_conn;

/// How a connection ended.
#[derive(Clone, Copy, Debug, PartialEq, Eq)]
pub enum Ended {
    /// The input ended, and nothing was held.
    AtEnd,
    /// The last message asked for it. Bytes that follow it get no answer.
    Closed,
    /// Bytes that are no message, with the status of the answer, which was written.
    BadInput(u16),
    /// The input ended, and so many bytes were held. They got no answer.
    Truncated(u64),
    ReadFault,
    /// A write failed. Of the last answer a front was written.
    WriteFault,
    /// So many bytes were read that the connection has had its share.
    TurnsSpent,
    NoMemory,
}
