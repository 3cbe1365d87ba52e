//! The line of a fault of the peer, and the status of a run.

ghost use Rattle.std.specs.Prelude.{◌≤◌};
ghost use Rattle.atspi_script.specs.FaultText.{fault_line};
ghost use Rattle.atspi_live_conversation.specs.Reports.{Reports, SinkBlamed, Writes};

use crate::ending::Ending;
use atspi_base::{Bytes, Sink, write_all};
use atspi_script::put_fault;
use std::alloc::Global;

/// Writes the line of a fault. Status 6 where it was written, 4 where the sink failed.
fn tell_fault<K: Sink>(alloc: Global, start: u64, place: u64, reason: u8, sink: &mut K) -> u8
    ensures writes { Writes (fault_line start place reason) result (K.written sink.old) (K.written sink.new) }
    ensures cause { SinkBlamed result (K.faults sink.old) (K.faults sink.new) }
    ensures later { K.faults sink.old ≤ K.faults sink.new }
{
    let mut line = Bytes::new(alloc);
    if put_fault(start, place, reason, &mut line).is_err() {
        return 5;
    }
    match write_all(sink, line.as_slice()) {
        Ok(()) => 6,
        Err(_) => 4,
    }
}

/// The status of a run that ended so. Where a message was malformed, its line is written.
pub fn report<K: Sink>(alloc: Global, ending: Ending, sink: &mut K) -> u8
    ensures reports { Reports ending result (K.written sink.old) (K.written sink.new) }
    ensures cause { SinkBlamed result (K.faults sink.old) (K.faults sink.new) }
    ensures later { K.faults sink.old ≤ K.faults sink.new }
{
    match ending {
        Ending::PeerEnded => 0,
        Ending::NoMemory => 5,
        Ending::Malformed(start, fault) => {
            tell_fault(alloc, start, u64::from(fault.place), fault.reason, sink)
        }
        Ending::HostFailed => 7,
        Ending::RoundsDone => 8,
        Ending::NotAuthenticated => 10,
        Ending::Spent => 13,
    }
}
