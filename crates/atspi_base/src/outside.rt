//! The outside: where bytes come from, where they go, and what a failure of either means.

ghost use Rattle.std.specs.Prelude.{◌≡◌, ℕ, ◌<◌, ◌≤◌, List, Option, length, IfOk, OnOk, OnErr};
ghost use Rattle.std.specs.Io.KnownBytes.{ReadConsumes, WriteAppends, Appends};
ghost use Rattle.atspi_base.specs.Outside.{CountsFault, AppendsPart};

use std::alloc::{AllocError, AllocFailed};
use thiserror::Error;

/// A call of the outside that failed.
#[derive(Clone, Copy, Debug, PartialEq, Eq, Error)]
#[error("a call of the outside failed")]
pub struct Failed;

/// There is no memory left. The one answer that no contract ties to a cause.
#[derive(Clone, Copy, Debug, PartialEq, Eq, Error)]
#[error("out of memory")]
pub struct NoMemory;

impl From<AllocError> for NoMemory {
    fn from(_: AllocError) -> Self {
        NoMemory
    }
}

impl<T: Drop> From<AllocFailed<T>> for NoMemory {
    fn from(_: AllocFailed<T>) -> Self {
        NoMemory
    }
}

/// Where bytes come from.
pub trait Source {
    /// The bytes that are left, where the source tells them.
    ghost left: { Self → Option (List ℕ) };

    /// How often a call has failed. The count stops at the last value of 64 bits.
    ghost faults: { Self → ℕ };

    /// Moves some of the bytes that are left to the front of `into` and answers how many; 0 comes at the end alone.
    /// A call that fails takes nothing, and is counted.
    fn read(&mut self, into: &mut [u8]) -> Result<usize, Failed>
        requires { 0 < length into.old }
        ensures bytes { ReadConsumes (left self.old) (left self.new) result into.new }
        ensures within { IfOk result (λ n. n ≤ length into.old) }
        ensures cause { CountsFault (faults self.old) (faults self.new) result };
}

/// Where bytes go.
pub trait Sink {
    /// The bytes that were written, where the sink tells them.
    ghost written: { Self → Option (List ℕ) };

    /// How often a call has failed. The count stops at the last value of 64 bits.
    ghost faults: { Self → ℕ };

    /// Appends the first of the bytes, at least one, and answers how many. A call that fails appends nothing, and is
    /// counted; a writer that takes nothing has failed.
    fn write(&mut self, bytes: &[u8]) -> Result<usize, Failed>
        requires { 0 < length bytes.now }
        ensures bytes { WriteAppends (written self.old) (written self.new) result bytes.now }
        ensures within { IfOk result (λ n. (0 < n) × (n ≤ length bytes.now)) }
        ensures cause { CountsFault (faults self.old) (faults self.new) result };
}

/// Writes all the bytes, in as many calls as it takes. Where one fails, a front of them was written.
pub fn write_all<K: Sink>(sink: &mut K, bytes: &[u8]) -> Result<(), Failed>
    ensures ok { OnOk result (Appends (K.written sink.old) (K.written sink.new) bytes.now) }
    ensures err { OnErr result (AppendsPart (K.written sink.old) (K.written sink.new) bytes.now) }
    ensures cause { CountsFault (K.faults sink.old) (K.faults sink.new) result }
{
    let mut at = 0;
    while at < bytes.len() {
        let Ok(n) = sink.write(&bytes[at..]) else {
            return Err(Failed);
        };
        at += n;
    }
    Ok(())
}
