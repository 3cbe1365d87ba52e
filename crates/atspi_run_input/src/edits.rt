//! An edit that is a line by itself.

ghost use Rattle.std.specs.Prelude.{◌≡◌};
ghost use Rattle.atspi_run_input.specs.Edits.{EditIn, edit_in};

use atspi_script_lines::{Line, LineFault, parse_line};
use atspi_tree_model::Edit;
use std::alloc::Global;

/// An edit line of a script is this and an edit.
const EDIT: &[u8] = b"edit a0 ";

/// The edit of an edit line.
fn edit_in(line: Line) -> Option<Edit>
    ensures { result ≡ edit_in line }
{
    match line {
        Line::Edit { edit, .. } => Some(edit),
        _ => None,
    }
}

/// The edit that the bytes spell.
pub fn edit_of(alloc: Global, bytes: &[u8]) -> Result<Edit, LineFault>
    ensures { EditIn result bytes.now }
{
    let Ok(mut line) = Vec::from_slice(alloc, EDIT) else {
        return Err(LineFault::NoMemory);
    };
    if line.extend_from_slice(bytes).is_err() {
        return Err(LineFault::NoMemory);
    }
    match parse_line(alloc, &line) {
        Ok(line) => match edit_in(line) {
            Some(edit) => Ok(edit),
            None => Err(LineFault::Form),
        },
        // with what stands before it the line may be too long, and is then no edit either
        Err(LineFault::Long) => Err(LineFault::Form),
        Err(LineFault::NotUtf8) => Err(LineFault::Form),
        Err(LineFault::Form) => Err(LineFault::Form),
        Err(LineFault::NoMemory) => Err(LineFault::NoMemory),
    }
}
