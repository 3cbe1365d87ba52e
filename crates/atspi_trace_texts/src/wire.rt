//! The bytes of a message as a line of a trace.

ghost use Rattle.std.specs.Prelude.{◌≡◌, ◌++◌, OnOk, OnErr, length, take};
ghost use Rattle.atspi_trace_texts.specs.EventText.{ended};
ghost use Rattle.atspi_trace_texts.specs.TraceText.{wire_line};

use atspi_base::{Bytes, NoMemory};
use std::alloc::Global;

/// Appends bytes as a line: `= ` and two hex digits for each, lower-case. After want of memory `out` is as before.
pub fn write_wire(alloc: Global, bytes: &[u8], out: &mut Bytes) -> Result<(), NoMemory>
    ensures ok { OnOk result (out.new ≡ out.old ++ ended (wire_line bytes.now)) }
    ensures err { OnErr result (out.new ≡ out.old) }
{
    let len = out.len();
    let written = put_wire(alloc, bytes, out);
    if written.is_err() {
        out.truncate(len);
    }
    written
}

/// Appends the line. After want of memory a front of it was appended.
fn put_wire(alloc: Global, bytes: &[u8], out: &mut Bytes) -> Result<(), NoMemory>
    ensures ok { OnOk result (out.new ≡ out.old ++ ended (wire_line bytes.now)) }
    ensures front { take (length out.old) out.new ≡ out.old }
{
    let digits = hex::encode(alloc, bytes)?;
    out.extend(b"= ")?;
    out.extend(digits.as_bytes())?;
    out.push(b'\n')
}
