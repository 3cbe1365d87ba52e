//! The text of rows, without the names of who shows them and of what.

ghost use Rattle.std.specs.Prelude.{◌≡◌, ◌++◌, OnOk, OnErr, length, map, take};
ghost use Rattle.std.specs.List.{flat_map};
ghost use Rattle.atspi_trace_texts.specs.EventText.{ended, rows_text};
ghost use Rattle.atspi_trace_texts.specs.Rows.{row_line};

use crate::rows::put_row;
use atspi_base::{Bytes, NoMemory, put_decimal};
use atspi_trace_events::{Shown, ShownRow};

/// Appends the rows' lines, each with its line feed. After want of memory a front of them was appended.
pub(crate) fn put_rows(rows: &[ShownRow], out: &mut Bytes) -> Result<(), NoMemory>
    ensures ok { OnOk result (out.new ≡ out.old ++ flat_map ended (map row_line rows.now)) }
    ensures front { take (length out.old) out.new ≡ out.old }
{
    for row in rows {
        put_row(row, out)?;
        out.push(b'\n')?;
    }
    Ok(())
}

/// Appends how many rows there are, and the line of each. After want of memory a front of it was appended.
fn put_counted(rows: &[ShownRow], out: &mut Bytes) -> Result<(), NoMemory>
    ensures ok { OnOk result (out.new ≡ out.old ++ rows_text rows.now) }
    ensures front { take (length out.old) out.new ≡ out.old }
{
    put_decimal(rows.len() as u64, out)?;
    out.push(b'\n')?;
    put_rows(rows, out)
}

/// Appends what a reader shows of an application, as the text of an event of showing has it behind the names: how many
/// rows there are, and a line of each, in order. After want of memory `out` is as before.
pub fn write_shown(shown: &Shown, out: &mut Bytes) -> Result<(), NoMemory>
    ensures ok { OnOk result (out.new ≡ out.old ++ rows_text shown.now) }
    ensures err { OnErr result (out.new ≡ out.old) }
{
    let len = out.len();
    let written = put_counted(shown.as_slice(), out);
    if written.is_err() {
        out.truncate(len);
    }
    written
}
