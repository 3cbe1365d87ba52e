//! Reading a stream of messages, and writing each as a line.

ghost use Rattle.std.specs.Prelude.{◌≡◌, ◌≤◌, ◌-◌, [], length, IfOk, OnOk, OnErr, MatchResult};
ghost use Rattle.atspi_run_check.specs.Check.{Checked};
ghost use Rattle.atspi_run_check.specs.Causes.{Causes};
ghost use Rattle.atspi_run_check.specs.Complete.{EndsAsDueOf, NoneFailed};
ghost use Rattle.atspi_run_check.specs.inner.Taking.{BlamesLines, BlamesSink, BlamesSource, Ends, Shown, TakesIn, Told};
ghost use Rattle.atspi_run_check.specs.inner.Taking.{ToldPart, halt_status};

use crate::lines::{Halt, tell, tell_fault, write_waiting};
use atspi_base::{Bytes, Sink, Source};
use atspi_stream::{Feeder, Got};
use atspi_types::Fault;
use std::alloc::Global;

/// The longest input, in bytes.
pub const CHECK_LIMIT: usize = 1_073_741_824;

/// As many bytes are asked of the source at once.
const PIECE: usize = 65_536;

/// How taking in a stream ended.
#[derive(Clone, Copy, Debug, PartialEq, Eq)]
pub enum End {
    /// The source has no more.
    Whole,
    /// The source gave more than the limit.
    TooLong,
    /// The source failed.
    Failed,
    /// A message is at fault.
    Malformed(Fault),
    /// The lines could not all be put.
    Halted(Halt),
}

/// Puts the line of each whole message that is held, and answers the fault behind them. `fed` bytes were fed in all.
fn tell_whole<K: Sink>(
    feeder: &mut Feeder,
    fed: usize,
    out: &mut Bytes,
    sink: &mut K,
) -> Result<Option<Fault>, Halt>
    requires { length feeder.old ≤ fed }
    ensures ok { IfOk result
        (λ fault. Told fault (fed - length feeder.old) feeder.old feeder.new out.old out.new (K.written sink.old)
        (K.written sink.new)) }
    ensures err { OnErr result
        (ToldPart (fed - length feeder.old) feeder.old out.old (K.written sink.old) (K.written sink.new)) }
    ensures cause { BlamesLines result (K.faults sink.old) (K.faults sink.new) }
{
    'messages: loop {
        let start = fed - feeder.len();
        match feeder.next() {
            Got::Message(message) => {
                if let Err(halt) = tell(start as u64, &message, out, sink) {
                    return Err(halt);
                }
            }
            Got::NotYet => return Ok(None),
            Got::Bad(fault) => return Ok(Some(fault)),
        }
    }
}

/// Writes the line of each whole message that is held, and answers the fault behind them.
fn show_whole<K: Sink>(
    feeder: &mut Feeder,
    fed: usize,
    out: &mut Bytes,
    sink: &mut K,
) -> Result<Option<Fault>, Halt>
    requires held { length feeder.old ≤ fed }
    requires none_waits { out.old ≡ [] }
    ensures ok { IfOk result
        (λ fault. Shown fault (fed - length feeder.old) feeder.old feeder.new (K.written sink.old)
        (K.written sink.new)) }
    ensures none_waits { OnOk result (out.new ≡ []) }
    ensures err { OnErr result
        (ToldPart (fed - length feeder.old) feeder.old [] (K.written sink.old) (K.written sink.new)) }
    ensures cause { BlamesLines result (K.faults sink.old) (K.faults sink.new) }
{
    let fault = match tell_whole(feeder, fed, out, sink) {
        Ok(fault) => fault,
        Err(halt) => return Err(halt),
    };
    let written = write_waiting(out, sink);
    if let Err(halt) = written {
        return Err(halt);
    }
    Ok(fault)
}

/// Takes in the source to its end, to the limit or to a fault, and writes the line of each message before it reads on.
/// Answers how many bytes were fed, too.
fn take_in<S: Source, K: Sink>(
    alloc: Global,
    source: &mut S,
    feeder: &mut Feeder,
    sink: &mut K,
) -> (End, usize)
    requires { feeder.old ≡ [] }
    ensures taken { TakesIn result.0 (S.left source.old) (S.left source.new) feeder.new result.1 (K.written sink.old)
        (K.written sink.new) }
    ensures later { S.faults source.old ≤ S.faults source.new }
    ensures source { BlamesSource (S.faults source.old) (S.faults source.new) result.0 }
    ensures sink { BlamesSink (K.faults sink.old) (K.faults sink.new) result.0 }
{
    let mut piece = [0u8; PIECE];
    let mut out = Bytes::new(alloc);
    let mut fed = 0;
    'pieces: loop {
        // who watches has seen the line of each message before more is asked for
        prove!(out.is_empty());
        let Ok(n) = source.read(&mut piece) else {
            return (End::Failed, fed);
        };
        if n == 0 {
            return (End::Whole, fed);
        }
        let taken = n.min(CHECK_LIMIT - fed);
        let Ok(()) = feeder.feed(&piece[..taken]) else {
            return (End::Halted(Halt::NoMemory), fed);
        };
        fed += taken;
        match show_whole(feeder, fed, &mut out, sink) {
            Ok(None) => {}
            Ok(Some(fault)) => return (End::Malformed(fault), fed),
            Err(halt) => return (End::Halted(halt), fed),
        }
        if taken < n {
            return (End::TooLong, fed);
        }
    }
}

/// The status where the line of a fault was written, or that of the halt.
fn fault_status(told: Result<(), Halt>) -> u8
    ensures { MatchResult told (λ _. result ≡ 6) (λ halt. result ≡ halt_status halt) }
{
    match told {
        Ok(()) => 6,
        Err(halt) => halt.status(),
    }
}

/// Reads the source, and writes a line for each message and one for the first fault. Answers the status.
fn check_stream<S: Source, K: Sink>(alloc: Global, source: &mut S, sink: &mut K) -> u8
    ensures ends { Ends result (S.left source.old) (S.left source.new) (K.written sink.old) (K.written sink.new) }
    ensures causes { Causes result (S.faults source.old) (S.faults source.new) (K.faults sink.old) (K.faults sink.new) }
{
    let mut feeder = Feeder::new(alloc);
    let (end, fed) = take_in(alloc, source, &mut feeder, sink);
    let held = feeder.len();
    let start = fed.saturating_sub(held) as u64;
    match end {
        End::Whole if held == 0 => 0,
        End::Whole => fault_status(tell_fault(alloc, start, held as u64, 36, sink)),
        End::TooLong => 8,
        End::Failed => 3,
        End::Malformed(fault) => {
            fault_status(tell_fault(alloc, start, fault.place as u64, fault.reason, sink))
        }
        End::Halted(halt) => halt.status(),
    }
}

/// Reads the source, and writes a line for each message and one for the first fault; what one read gave is told before
/// the next. Status 0: the source was read to its end and is whole messages. 3: it failed, behind whole messages. 4:
/// the sink failed. 5: no memory is left. 6: a message is malformed, or the source ends inside one. 8: it is longer
/// than the limit.
pub fn check<S: Source, K: Sink>(alloc: Global, source: &mut S, sink: &mut K) -> u8
    ensures checked { Checked CHECK_LIMIT result (S.left source.old) (S.left source.new) (K.written sink.old)
        (K.written sink.new) }
    ensures causes { Causes result (S.faults source.old) (S.faults source.new) (K.faults sink.old) (K.faults sink.new) }
    ensures complete { NoneFailed (S.faults source.old) (S.faults source.new)
        → NoneFailed (K.faults sink.old) (K.faults sink.new) → EndsAsDueOf CHECK_LIMIT result (S.left source.old) }
{
    check_stream(alloc, source, sink)
}
