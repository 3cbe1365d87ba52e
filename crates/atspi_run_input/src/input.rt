//! Reading an input to its end.

ghost use Rattle.std.specs.Prelude.{◌≡◌, ◌≤◌, [], length, IfOk};
ghost use Rattle.atspi_run_input.specs.Reading.{Blames, HasRead, end_status, is_whole};

use atspi_base::{NoMemory, Source};
use std::alloc::{AllocError, Global};

/// The longest input, in bytes.
pub const INPUT_LIMIT: usize = 16_777_216;

/// How the reading of an input ended.
#[derive(Clone, Copy, Debug, PartialEq, Eq)]
pub enum End {
    /// The source has no more.
    Whole,
    /// The source gave more than the limit.
    TooLong,
    /// The source failed.
    Failed,
}

impl End {
    /// Whether all that the source had was read.
    pub fn is_whole(self) -> bool
        ensures { result ≡ is_whole self }
    {
        match self {
            End::Whole => true,
            End::TooLong => false,
            End::Failed => false,
        }
    }

    /// The status of a run whose lines were all done.
    pub fn status(self) -> u8
        ensures { result ≡ end_status self }
    {
        match self {
            End::Whole => 0,
            End::TooLong => 8,
            End::Failed => 3,
        }
    }
}

/// Reads the source to its end, or to the limit.
pub fn read_all<S: Source>(
    alloc: Global,
    source: &mut S,
    text: &mut Vec<u8>,
) -> Result<End, NoMemory>
    requires { text.old.items ≡ [] }
    ensures read { IfOk result (λ end. HasRead end (S.left source.old) (S.left source.new) text.new.items) }
    ensures limit { IfOk result (λ _. length text.new.items ≤ INPUT_LIMIT) }
    ensures faults { S.faults source.old ≤ S.faults source.new }
    ensures cause { Blames result (S.faults source.old) (S.faults source.new) }
{
    let mut chunk = [0u8; 4096];
    loop {
        let Ok(n) = source.read(&mut chunk) else {
            return Ok(End::Failed);
        };
        if n == 0 {
            return Ok(End::Whole);
        }
        let room = INPUT_LIMIT - text.len();
        if n > room {
            text.extend_from_slice(&chunk[..room])?;
            return Ok(End::TooLong);
        }
        text.extend_from_slice(&chunk[..n])?;
    }
}
