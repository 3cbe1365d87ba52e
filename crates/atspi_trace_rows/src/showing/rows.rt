//! The rows that a reader shows.

ghost use Rattle.std.specs.Prelude.{◌≡◌, ◌-◌, ◌^◌, map, length, min, IfOk};
ghost use Rattle.std.specs.Option.{option_copied};
ghost use Rattle.atspi_cache_arena.specs.Walk.{seen_sight};
ghost use Rattle.atspi_trace.specs.play.Playing.{shown_sight};

use atspi_base::NoMemory;
use atspi_base::valid_names::Path;
use atspi_cache_arena::{Rows, Seen};
use atspi_trace_events::{Shown, ShownRow};
use atspi_tree_model::{NumPart, Part, Row};
use std::alloc::Global;

/// An equal number of a row.
fn copy_number(part: &NumPart) -> NumPart
    ensures { result ≡ part.now }
{
    match part {
        NumPart::Absent => NumPart::Absent,
        NumPart::Unknown => NumPart::Unknown,
        NumPart::Known(n) => NumPart::Known(*n),
    }
}

/// An equal text of a row.
fn copy_text(alloc: Global, part: &Part) -> Result<Part, NoMemory>
    ensures { IfOk result (λ copy. copy ≡ part.now) }
{
    match part {
        Part::Absent => Ok(Part::Absent),
        Part::Unknown => Ok(Part::Unknown),
        Part::Known(text) => Ok(Part::Known(text.copy(alloc)?)),
    }
}

/// An equal row.
fn copy_row(alloc: Global, row: &Row) -> Result<Row, NoMemory>
    ensures { IfOk result (λ copy. copy ≡ row.now) }
{
    Ok(Row {
        path: row.path.copy(alloc)?,
        name: row.name.copy(alloc)?,
        description: row.description.copy(alloc)?,
        role: row.role,
        states: row.states,
        faces: row.faces,
        text: copy_text(alloc, &row.text)?,
        caret: copy_number(&row.caret),
        columns: copy_number(&row.columns),
    })
}

/// An equal path, where there is one.
fn copy_path(alloc: Global, path: Option<&Path>) -> Result<Option<Path>, NoMemory>
    ensures { IfOk result (λ copy. copy ≡ option_copied path.entry) }
{
    match path {
        Some(path) => Ok(Some(path.copy(alloc)?)),
        None => Ok(None),
    }
}

/// A row with its place.
fn shown_row(alloc: Global, seen: &Seen<'_>) -> Result<ShownRow, NoMemory>
    ensures { IfOk result (λ row. row ≡ shown_sight (seen_sight seen.now)) }
{
    Ok(ShownRow {
        parent: copy_path(alloc, seen.parent)?,
        index: seen.index,
        row: copy_row(alloc, seen.row)?,
    })
}

/// The rows of a walk, each with its place, in preorder. Each row is walked to once.
pub fn shown_rows(alloc: Global, rows: Rows<'_>) -> Result<Shown, NoMemory>
    ensures { IfOk result (λ shown. shown ≡ map shown_sight rows.entry) }
{
    let mut list = Vec::new(alloc);
    let mut rest = rows;
    while let Some(seen) = rest.next() {
        list.push(shown_row(alloc, &seen)?)?;
    }
    Ok(Shown::from_vec(list))
}

/// How many rows a walk shows, as far as a `usize` counts. Takes no memory.
pub fn count_rows(rows: Rows<'_>) -> usize
    ensures { result ≡ min (length rows.entry) (2 ^ 64 - 1) }
{
    let mut count: usize = 0;
    let mut rest = rows;
    while let Some(_seen) = rest.next() {
        count = count.saturating_add(1);
    }
    count
}
