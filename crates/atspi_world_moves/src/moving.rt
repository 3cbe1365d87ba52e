//! Moving the bytes of a link.

ghost use Rattle.std.specs.Prelude.{◌≡◌, ◌<◌, ◌≤◌, ◌++◌, length, take, IfOk, OnErr};
ghost use Rattle.atspi_stream.specs.Stream.{AwaitsMore};
ghost use Rattle.atspi_world_moves.specs.inner.Filled.{IsAwaited};

use atspi_base::NoMemory;
use atspi_world_links::{Link, missing};

/// Moves the first bytes of those that wait to an end: at most so many, and at most those that its next message awaits.
/// Answers how many; they are still to be taken away. After want of memory all is as before.
pub fn carry(waiting: &[u8], at_end: &mut Link, most: usize) -> Result<usize, NoMemory>
    ensures most { IfOk result (λ count. count ≤ most) }
    ensures there { IfOk result (λ count. count ≤ length waiting.now) }
    ensures moved { IfOk result (λ count. at_end.new ≡ at_end.old ++ take count waiting.now) }
    ensures some { 0 < most → 0 < length waiting.now → AwaitsMore at_end.old → IfOk result (λ count. 0 < count) }
    ensures awaited { IfOk result (λ count. IsAwaited at_end.old count) }
    ensures err { OnErr result (at_end.new ≡ at_end.old) }
{
    let count = most.min(waiting.len()).min(missing(at_end.as_slice()));
    at_end.feed(&waiting[..count])?;
    Ok(count)
}
