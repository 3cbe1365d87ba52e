//! Runs of `hit` over memory.

use atspi_base::{MemSink, MemSource};
use atspi_run_hit::hit;
use std::alloc::Global;

/// The number of a call that never comes.
pub const NEVER: u64 = u64::MAX;

/// How the outside behaves: how many bytes a call moves at the most, and which read and which write fail.
#[derive(Clone, Copy)]
pub struct Outside {
    pub most: usize,
    pub failing_read: u64,
    pub failing_write: u64,
}

/// An outside that moves all bytes, and never fails.
pub const AMPLE: Outside = Outside {
    most: usize::MAX,
    failing_read: NEVER,
    failing_write: NEVER,
};

/// Whether an input ends with this status, and writes this.
pub fn ends(
    alloc: Global,
    input: Vec<u8>,
    outside: Outside,
    status: u8,
    text: &[u8],
) -> Option<bool> {
    let most = outside.most.max(1);
    let mut source = MemSource::in_pieces(input, most, [outside.failing_read].to_vec(alloc).ok()?);
    let mut sink = MemSink::in_pieces(alloc, most, [outside.failing_write].to_vec(alloc).ok()?);
    let ended = hit(alloc, &mut source, &mut sink);
    Some(ended == status && sink.bytes() == text)
}

/// The same of a text, over an outside that never fails.
pub fn comes_to(alloc: Global, input: &str, status: u8, text: &str) -> bool {
    let Ok(bytes) = Vec::from_slice(alloc, input.as_bytes()) else {
        return false;
    };
    ends(alloc, bytes, AMPLE, status, text.as_bytes()) == Some(true)
}
