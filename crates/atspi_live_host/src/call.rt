//! What is asked of a host, and what it answers.

use atspi_base::{Bytes, Text};

/// What a call of a host came to.
#[derive(Clone, Copy, Debug, PartialEq, Eq)]
pub enum Did {
    /// The number of a link that was given, or how many bytes were moved.
    Done(u32),
    /// Nothing is ready.
    NotYet,
    /// The peer has ended.
    End,
    Failed,
}

/// A call that was made, with its answer.
#[derive(Drop)]
pub enum Call {
    /// The path.
    Listen(Text, Did),
    Accept(Did),
    /// The path.
    Connect(Text, Did),
    /// The link, and the bytes that were taken.
    Read(u32, Bytes, Did),
    /// The link, and the bytes that were offered.
    Write(u32, Bytes, Did),
    /// The link.
    Close(u32),
}
