//! How a run of an end is over.

use atspi_types::Fault;

/// How a run of an end is over.
#[derive(Clone, Copy, Debug, PartialEq, Eq)]
pub enum Ending {
    /// All rounds were done.
    RoundsDone,
    /// The peer ended.
    PeerEnded,
    /// A read or a write failed.
    HostFailed,
    /// The server did not say what a client awaits, or a line of it was too long.
    NotAuthenticated,
    /// A message of the peer is malformed: how many bytes of messages stand before it, and its fault, whose place
    /// counts from its first byte.
    Malformed(u64, Fault),
    /// The messages of the end would pass number 4,294,967,295.
    Spent,
    NoMemory,
}
