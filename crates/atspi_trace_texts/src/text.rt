//! The text of an event.

ghost use Rattle.std.specs.Prelude.{◌≡◌, ◌++◌, OnOk, OnErr, length, take};
ghost use Rattle.std.specs.List.{flat_map};
ghost use Rattle.atspi_trace_texts.specs.EventText.{ended, event_text, row_lines};

use crate::heads::put_line;
use crate::listing::put_rows;
use atspi_base::{Bytes, NoMemory};
use atspi_trace_events::Event;

/// Appends the lines of the rows that an event shows.
fn put_shown(event: &Event, out: &mut Bytes) -> Result<(), NoMemory>
    ensures ok { OnOk result (out.new ≡ out.old ++ flat_map ended (row_lines event.now)) }
    ensures front { take (length out.old) out.new ≡ out.old }
{
    match event {
        Event::Show {
            rows: Some(shown),
            ..
        } => put_rows(shown.as_slice(), out),
        _ => Ok(()),
    }
}

/// Appends an event's text. After want of memory a front of it was appended.
fn put_event(event: &Event, out: &mut Bytes) -> Result<(), NoMemory>
    ensures ok { OnOk result (out.new ≡ out.old ++ event_text event.now) }
    ensures front { take (length out.old) out.new ≡ out.old }
{
    put_line(event, out)?;
    out.push(b'\n')?;
    put_shown(event, out)
}

/// Appends the text of an event: its line, and a line for each row that it shows. After want of memory `out` is as
/// before.
pub fn write_event(event: &Event, out: &mut Bytes) -> Result<(), NoMemory>
    ensures ok { OnOk result (out.new ≡ out.old ++ event_text event.now) }
    ensures err { OnErr result (out.new ≡ out.old) }
{
    let len = out.len();
    let written = put_event(event, out);
    if written.is_err() {
        out.truncate(len);
    }
    written
}
