//! `replay`: a script is read, done, and its trace written.

ghost use Rattle.std.specs.Prelude.{◌≡◌, All, length};
ghost use Rattle.atspi_script_lines.specs.declared.limits.TheConstants.{APP_COUNT};
ghost use Rattle.atspi_run_replay.specs.Causes.{Causes};
ghost use Rattle.atspi_run_replay.specs.Run.{Replayed};
ghost use Rattle.atspi_run_replay.specs.inner.Run.{end_status, stop_status};
ghost use Rattle.atspi_trace.specs.Work.{spare_count};

use crate::input::{End, SCRIPT_LIMIT, read_all};
use crate::naming::{Halt, Stop};
use crate::playing::play;
use atspi_base::{Sink, Source};
use atspi_trace_texts::TraceOptions;
use atspi_world_ends::{Application, Follower};
use std::alloc::Global;

/// The status of a script whose lines were all done, by how its reading ended.
fn end_status(end: End) -> u8
    ensures { result ≡ end_status end }
{
    match end {
        End::Whole => 0,
        End::TooLong => 8,
        End::Failed => 3,
    }
}

/// The status of a script whose lines were not all done.
pub(crate) fn stop_status(stop: Stop) -> u8
    ensures { result ≡ stop_status stop }
{
    match stop {
        Stop::Refused(_) => 1,
        Stop::Write => 4,
        Stop::NoMemory => 5,
        Stop::Halted(Halt::RegistryLost) => 9,
        Stop::Halted(Halt::Spent) => 13,
    }
}

/// Reads a script, does it in a world over these kits and spares, and writes the text of its trace, which is a lawful
/// trace of the lines that were done. There are kits for sixteen applications, and spares for sixteen exchanges: over
/// fewer a world would refuse a line that no lawful trace refuses.
///
/// Status 0: the input was read to its end, and all its lines were done. 1: a line is refused, and those before it were
/// done. 3: the source failed, behind whole lines that were done. 4: the sink failed. 5: no memory is left. 8: the
/// input is longer than the limit, and the whole lines inside it were done. 9: the registry was dropped at its quota.
/// 13: a message would pass the last number.
pub fn replay<A: Application, R: Follower, S: Source, K: Sink>(
    alloc: Global,
    options: TraceOptions,
    source: &mut S,
    sink: &mut K,
    kits: Vec<A::Kit>,
    spares: Vec<A::Spare>,
) -> u8
    requires kits { All A.is_kit kits.items }
    requires spares { All A.is_spare spares.items }
    requires kit_count { length kits.items ≡ APP_COUNT }
    requires spare_count { length spares.items ≡ spare_count }
    ensures replayed { Replayed options SCRIPT_LIMIT result (S.left source.old) (S.left source.new) (K.written sink.old)
        (K.written sink.new) }
    ensures causes { Causes result (S.faults source.old) (S.faults source.new) (K.faults sink.old) (K.faults sink.new) }
{
    let mut text = Vec::new(alloc);
    let Ok(end) = read_all(alloc, source, &mut text) else {
        return 5;
    };
    match play::<A, R, K>(alloc, options, &text, end.is_whole(), sink, kits, spares) {
        Ok(()) => end_status(end),
        Err(stop) => stop_status(stop),
    }
}
