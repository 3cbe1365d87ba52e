//! The lines of `check`: those of one read wait in a buffer, and are written in whole blocks.

ghost use Rattle.std.specs.Prelude.{◌≡◌, ◌++◌, [], OnOk, OnErr};
ghost use Rattle.std.specs.Io.KnownBytes.{Appends};
ghost use Rattle.atspi_base.specs.Outside.{AppendsPart};
ghost use Rattle.atspi_message_in_place.specs.View.{envelope_at};
ghost use Rattle.atspi_run_check.specs.Check.{message_line};
ghost use Rattle.atspi_script.specs.FaultText.{fault_line};
ghost use Rattle.atspi_run_check.specs.inner.Taking.{BlamesLines, Puts, halt_status};

use atspi_base::{Bytes, NoMemory, Sink, put_decimal, write_all};
use atspi_message_in_place::MessageRef;
use atspi_script::{message_text, put_fault};
use std::alloc::Global;

/// So many bytes wait before they are written.
const BLOCK: usize = 65_536;

/// Why lines were not all written.
#[derive(Clone, Copy, Debug, PartialEq, Eq)]
pub enum Halt {
    /// The sink failed.
    Write,
    /// There is no memory left.
    NoMemory,
}

impl Halt {
    /// The status that it ends a run with.
    pub fn status(self) -> u8
        ensures { result ≡ halt_status self }
    {
        match self {
            Halt::Write => 4,
            Halt::NoMemory => 5,
        }
    }
}

/// Appends the line of a message.
#[inline(always)]
fn put_message(start: u64, message: &MessageRef, out: &mut Bytes) -> Result<(), NoMemory>
    ensures { OnOk result (out.new ≡ out.old ++ message_line start (envelope_at message.now)) }
{
    put_decimal(start, out)?;
    out.push(b' ')?;
    message_text(message, out)?;
    out.push(b'\n')
}

/// Appends the line of a message, and writes what waits once it is a block.
#[inline(always)]
pub fn tell<K: Sink>(
    start: u64,
    message: &MessageRef,
    out: &mut Bytes,
    sink: &mut K,
) -> Result<(), Halt>
    ensures ok { OnOk result
        (Puts out.old out.new (K.written sink.old) (K.written sink.new)
        (message_line start (envelope_at message.now))) }
    ensures err { OnErr result
        (AppendsPart (K.written sink.old) (K.written sink.new)
        (out.old ++ message_line start (envelope_at message.now))) }
    ensures cause { BlamesLines result (K.faults sink.old) (K.faults sink.new) }
{
    let Ok(()) = put_message(start, message, out) else {
        return Err(Halt::NoMemory);
    };
    if out.len() < BLOCK {
        return Ok(());
    }
    write_waiting(out, sink)
}

/// Writes all that waits.
pub fn write_waiting<K: Sink>(out: &mut Bytes, sink: &mut K) -> Result<(), Halt>
    ensures ok { OnOk result (Appends (K.written sink.old) (K.written sink.new) out.old) }
    ensures none_waits { OnOk result (out.new ≡ []) }
    ensures err { OnErr result (AppendsPart (K.written sink.old) (K.written sink.new) out.old) }
    ensures cause { BlamesLines result (K.faults sink.old) (K.faults sink.new) }
{
    let Ok(()) = write_all(sink, out.as_slice()) else {
        return Err(Halt::Write);
    };
    out.truncate(0);
    Ok(())
}

/// Writes the line of a fault.
pub fn tell_fault<K: Sink>(
    alloc: Global,
    start: u64,
    place: u64,
    reason: u8,
    sink: &mut K,
) -> Result<(), Halt>
    ensures ok { OnOk result (Appends (K.written sink.old) (K.written sink.new) (fault_line start place reason)) }
    ensures err { OnErr result (AppendsPart (K.written sink.old) (K.written sink.new) (fault_line start place reason)) }
    ensures cause { BlamesLines result (K.faults sink.old) (K.faults sink.new) }
{
    let mut line = Bytes::new(alloc);
    let Ok(()) = put_fault(start, place, reason, &mut line) else {
        return Err(Halt::NoMemory);
    };
    write_waiting(&mut line, sink)
}
