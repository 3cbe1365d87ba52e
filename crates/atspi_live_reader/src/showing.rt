//! What a reader shows at the end: the rows of each application that it holds.

ghost use Rattle.std.specs.Prelude.{◌≡◌, ◌++◌, map, OnOk};
ghost use Rattle.atspi_trace.specs.play.Playing.{shown_sight};
ghost use Rattle.atspi_reader.specs.ReaderOf.{reader_of};
ghost use Rattle.atspi_live_reader.specs.Shows.{show_text, shown_in, shown_of};

use atspi_base::valid_names::BusName;
use atspi_base::{Bytes, NoMemory};
use atspi_cache_arena::Rows;
use atspi_reader::Reader;
use atspi_trace_rows::write_rows;
use std::alloc::Global;

/// Appends the line of an application, and a line of each of its rows.
fn put_show(alloc: Global, name: &BusName, rows: Rows<'_>, out: &mut Bytes) -> Result<(), NoMemory>
    ensures { OnOk result (out.new ≡ out.old ++ show_text name.now (map shown_sight rows.entry)) }
{
    out.extend(b"show ")?;
    out.extend(name.as_str().as_bytes())?;
    out.push(b' ')?;
    write_rows(alloc, rows, out)
}

/// Appends what a reader holds of an application.
fn put_view(alloc: Global, reader: &Reader, name: &BusName, out: &mut Bytes) -> Result<(), NoMemory>
    ensures { OnOk result (out.new ≡ out.old ++ shown_of (reader_of reader.now) name.now) }
{
    match reader.view(name) {
        Some(rows) => put_show(alloc, name, rows, out),
        None => Ok(()),
    }
}

/// Appends what a reader holds of each application, in the order in which they became known.
pub(crate) fn put_views(alloc: Global, reader: &Reader, out: &mut Bytes) -> Result<(), NoMemory>
    ensures { OnOk result (out.new ≡ out.old ++ shown_in (reader_of reader.now)) }
{
    'apps: for k in 0..u32::MAX {
        let Some(name) = reader.held(k) else {
            return Ok(());
        };
        put_view(alloc, reader, name, out)?;
    }
    // more applications than memory could hold
    Err(NoMemory)
}
