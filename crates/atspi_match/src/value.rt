//! The spelling of a value: quoted parts, and bytes outside them.

ghost use Rattle.std.specs.Prelude.{◌≡◌, ◌≤◌, length, IfErr, IfOk};
ghost use Rattle.atspi_match.specs.inner.Values.{IsNext, IsSpelled, IsStillOpen};
ghost use Rattle.atspi_match.specs.declared.value.ValueFault.TheVariants.{NoMemory};

use crate::runs::{count_plain, count_quotable};
use std::alloc::{AllocError, AllocFailed, Global};

/// A value, and how many bytes spell it.
#[derive(Drop)]
pub(crate) struct Spelled {
    pub value: Vec<u8>,
    pub len: usize,
}

/// Why no value is spelled.
#[derive(Clone, Copy)]
pub(crate) enum ValueFault {
    /// The apostrophe at this place is not closed.
    NotClosed(usize),
    NoMemory,
}

impl From<AllocError> for ValueFault {
    ghost from_gives = { λ _ e. e ≡ NoMemory };

    fn from(_: AllocError) -> ValueFault {
        ValueFault::NoMemory
    }
}

impl<T: Drop> From<AllocFailed<T>> for ValueFault {
    ghost from_gives = { λ _ e. e ≡ NoMemory };

    fn from(_: AllocFailed<T>) -> ValueFault {
        ValueFault::NoMemory
    }
}

/// What comes next outside quoted parts.
#[derive(Clone, Copy)]
pub(crate) enum Next {
    /// A comma, or nothing.
    End,
    /// `\'`
    Escaped,
    /// An apostrophe that opens a quoted part.
    Quote,
    /// So many bytes that stand for themselves.
    Plain(usize),
}

fn next_in(bytes: &[u8]) -> Next
    ensures { IsNext result bytes.now }
{
    if bytes.is_empty() {
        Next::End
    } else if bytes[0] == b',' {
        Next::End
    } else if bytes[0] == b'\'' {
        Next::Quote
    } else if bytes[0] == b'\\' && bytes.len() > 1 && bytes[1] == b'\'' {
        Next::Escaped
    } else {
        Next::Plain(1 + count_plain(&bytes[1..]))
    }
}

/// The value that the bytes spell, up to a comma outside quoted parts or to the end.
pub(crate) fn read_value(alloc: Global, bytes: &[u8]) -> Result<Spelled, ValueFault>
    ensures ok { IfOk result (λ v. IsSpelled bytes.now v.value.items v.len) }
    ensures open { IfErr result (λ e. IsStillOpen e bytes.now) }
    ensures within { IfOk result (λ v. v.len ≤ length bytes.now) }
{
    let mut value = Vec::new(alloc);
    let mut at = 0;
    'parts: loop {
        let rest = &bytes[at..];
        match next_in(rest) {
            Next::End => return Ok(Spelled { value, len: at }),
            Next::Plain(count) => {
                value.extend_from_slice(&rest[..count])?;
                at += count;
            }
            Next::Escaped => {
                value.push(b'\'')?;
                at += 2;
            }
            Next::Quote => {
                let inside = &rest[1..];
                let count = count_quotable(inside);
                if count == inside.len() {
                    return Err(ValueFault::NotClosed(at));
                }
                value.extend_from_slice(&inside[..count])?;
                at += count + 2;
            }
        }
    }
}
