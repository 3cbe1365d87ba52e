//! Hosts in memory, what is given on their links, and what runs over them come to.

ghost use Rattle.std.specs.Prelude.{◌≡◌, [], Some};

use atspi_base::{MemSink, Text};
use atspi_live_host::{Call, Did, Host, MemHost, Peer};
use std::alloc::Global;
use std::collections::VecDeque;
use std::process::Abort;

/// The number of a call that never comes.
pub const NEVER: u64 = u64::MAX;

/// What a run came to: its status, what was given on the link, what was written, and how many calls of the host were
/// made.
#[derive(Drop)]
pub struct Run {
    pub status: u8,
    pub given: Vec<u8>,
    pub written: MemSink,
    pub calls: usize,
}

impl Run {
    /// Whether it has this status, and gave and wrote just these bytes.
    pub fn is(&self, status: u8, given: &[u8], written: &[u8]) -> bool {
        self.status == status && self.given.as_slice() == given && self.written.bytes() == written
    }

    /// Whether it has this status, and wrote just these bytes.
    pub fn wrote(&self, status: u8, written: &[u8]) -> bool {
        self.status == status && self.written.bytes() == written
    }
}

/// What a run over a host with one link came to.
pub fn run_of(rt: &impl Abort, alloc: Global, status: u8, written: MemSink, host: &MemHost) -> Run {
    let calls = host.calls().unwrap_or(&[]);
    Run {
        status,
        given: given(rt, alloc, calls),
        written,
        calls: calls.len(),
    }
}

/// The bytes of some slices, one behind the other.
pub fn joined(rt: &impl Abort, alloc: Global, parts: &[&[u8]]) -> Vec<u8> {
    let mut bytes = Vec::new(alloc);
    for part in parts {
        bytes.extend_from_slice(part).expect(rt, "memory");
    }
    bytes
}

/// What a call gave on the first link.
fn given_by(call: &Call) -> &[u8] {
    match call {
        Call::Write(0, offered, Did::Done(n)) => {
            let offered = offered.as_slice();
            &offered[..(*n as usize).min(offered.len())]
        }
        _ => &[],
    }
}

/// What was given on the first link by a list of calls.
fn given(rt: &impl Abort, alloc: Global, calls: &[Call]) -> Vec<u8> {
    let mut bytes = Vec::new(alloc);
    for call in calls {
        bytes.extend_from_slice(given_by(call)).expect(rt, "memory");
    }
    bytes
}

/// Pieces of a stream, one for each read.
fn pieces(rt: &impl Abort, alloc: Global, parts: &[&[u8]]) -> VecDeque<Vec<u8>> {
    let mut pieces = VecDeque::new(alloc);
    for part in parts {
        let piece = part.to_vec(alloc).expect(rt, "memory");
        pieces.push_back(piece).expect(rt, "memory");
    }
    pieces
}

/// One number.
pub fn numbers(rt: &impl Abort, alloc: Global, number: u64) -> Vec<u64> {
    let mut numbers = Vec::new(alloc);
    numbers.push(number).expect(rt, "memory");
    numbers
}

/// A peer that sends these pieces, and ends behind them or not.
fn peers(rt: &impl Abort, alloc: Global, parts: &[&[u8]], ends: bool) -> Vec<Peer> {
    let mut peers = Vec::new(alloc);
    let peer = Peer::new(pieces(rt, alloc, parts), ends);
    peers.push(peer).expect(rt, "memory");
    peers
}

/// A host with a peer that sends these pieces, and ends behind them or not; the call with this number fails.
pub fn host_of(rt: &impl Abort, alloc: Global, parts: &[&[u8]], ends: bool, failing: u64) -> MemHost
    ensures calls { ⟦<MemHost as Host>⟧.calls result ≡ Some [] }
    ensures links { ⟦<MemHost as Host>⟧.links result ≡ [] }
{
    let peers = peers(rt, alloc, parts, ends);
    MemHost::new(alloc, peers, numbers(rt, alloc, failing))
}

/// Where the bus is.
pub fn path(rt: &impl Abort, alloc: Global) -> Text {
    Text::read(alloc, b"/run/bus").expect(rt, "a path")
}
