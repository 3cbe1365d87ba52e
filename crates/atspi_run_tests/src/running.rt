//! Runs of the program over memory.

use atspi_base::{MemSink, MemSource};
use atspi_live_host::{MemHost, Peer};
use atspi_run::run;
use std::alloc::Global;
use std::collections::VecDeque;

/// How the outside behaves: how many bytes a call moves at the most, which read and which write fail, and how many
/// peers a host has.
#[derive(Clone, Copy)]
pub struct Outside {
    pub most: usize,
    pub failing_read: u64,
    pub failing_write: u64,
    pub peers: usize,
}

/// The number of a call that never comes.
pub const NEVER: u64 = u64::MAX;

/// An outside that moves all bytes, and never fails.
pub const AMPLE: Outside = Outside {
    most: usize::MAX,
    failing_read: NEVER,
    failing_write: NEVER,
    peers: 0,
};

/// These words.
fn words_of(alloc: Global, words: &[&str]) -> Option<Vec<String>> {
    let mut list = Vec::new(alloc);
    for word in words {
        list.push(String::from_str(alloc, word).ok()?).ok()?;
    }
    Some(list)
}

/// So many peers, each of which has nothing to send and ends.
fn peers_of(alloc: Global, count: usize) -> Option<Vec<Peer>> {
    let mut peers = Vec::new(alloc);
    for _ in 0..count {
        peers.push(Peer::new(VecDeque::new(alloc), true)).ok()?;
    }
    Some(peers)
}

/// The status of a run, and what it wrote.
pub fn ran(
    alloc: Global,
    words: &[&str],
    input: Vec<u8>,
    outside: Outside,
) -> Option<(u8, Vec<u8>)> {
    let words = words_of(alloc, words)?;
    let most = outside.most.max(1);
    let mut source = MemSource::in_pieces(input, most, [outside.failing_read].to_vec(alloc).ok()?);
    let mut sink = MemSink::in_pieces(alloc, most, [outside.failing_write].to_vec(alloc).ok()?);
    let peers = peers_of(alloc, outside.peers)?;
    let mut host = MemHost::new(alloc, peers, Vec::new(alloc));
    let status = run(alloc, &words, &mut source, &mut sink, &mut host);
    Some((status, sink.bytes().to_vec(alloc).ok()?))
}

/// What a run is to come to: its status, and what it writes.
#[derive(Clone, Copy)]
pub struct Due<'a> {
    pub status: u8,
    pub output: &'a [u8],
}

/// Whether a run comes to what is due.
pub fn comes_to(
    alloc: Global,
    words: &[&str],
    input: Vec<u8>,
    outside: Outside,
    due: Due<'_>,
) -> Option<bool> {
    let (status, written) = ran(alloc, words, input, outside)?;
    Some(status == due.status && written.as_slice() == due.output)
}
