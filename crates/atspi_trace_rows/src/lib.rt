//! The rows of a walk over what a reader holds, as text.
#![tactic(auto)]

pub mod showing;

ghost use Rattle.std.specs.Prelude.{◌≡◌, ◌++◌, map, OnErr, OnOk};
ghost use Rattle.atspi_trace.specs.play.Playing.{shown_sight};
ghost use Rattle.atspi_trace_rows.specs.RowsText.{rows_text};

use crate::showing::shown_rows;
use atspi_base::{Bytes, NoMemory};
use atspi_cache_arena::Rows;
use atspi_trace_texts::write_shown;
use std::alloc::Global;

/// Appends how many rows a walk shows, and a line of each, as a trace has them behind the names. After want of memory
/// `out` is as before.
pub fn write_rows(alloc: Global, rows: Rows<'_>, out: &mut Bytes) -> Result<(), NoMemory>
    ensures ok { OnOk result (out.new ≡ out.old ++ rows_text (map shown_sight rows.entry)) }
    ensures err { OnErr result (out.new ≡ out.old) }
{
    let shown = shown_rows(alloc, rows)?;
    write_shown(&shown, out)
}
