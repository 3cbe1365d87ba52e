//! What a line of an application's input asks for.

ghost use Rattle.std.specs.Prelude.{◌≡◌, ◌<◌, ◌^◌, ℕ, ◌++◌, List, MatchOption, codes};
ghost use Rattle.std.specs.Fmt.{decimal};
ghost use Rattle.atspi_live_app.specs.Asking.{IsWait};
ghost use Rattle.atspi_live_app.specs.inner.Asking.{AsksFor, EditIn, OtherIn, edit_in, plain_in};

use atspi_base::Text;
use atspi_script_lines::{Line, LineFault, parse_line, read_number};
use atspi_tree_model::Edit;
use std::alloc::Global;

/// An edit line of a script is this and an edit.
const EDIT: &[u8] = b"edit a0 ";

/// What a line asks for.
#[derive(Drop)]
pub enum Ask {
    /// An empty line or a comment.
    Nothing,
    /// The application starts, with the name of its root.
    Start(Text),
    Edit(Edit),
    /// Nothing is done for so many rounds.
    Wait(u32),
}

/// The edit of an edit line.
fn edit_in(line: Line) -> Option<Edit>
    ensures { result ≡ edit_in line }
{
    match line {
        Line::Edit { edit, .. } => Some(edit),
        _ => None,
    }
}

/// The edit that the bytes spell.
fn edit_of(alloc: Global, bytes: &[u8]) -> Result<Edit, LineFault>
    ensures { EditIn result bytes.now }
{
    let Ok(mut line) = Vec::from_slice(alloc, EDIT) else {
        return Err(LineFault::NoMemory);
    };
    if line.extend_from_slice(bytes).is_err() {
        return Err(LineFault::NoMemory);
    }
    match parse_line(alloc, &line) {
        Ok(line) => match edit_in(line) {
            Some(edit) => Ok(edit),
            None => Err(LineFault::Form),
        },
        // with what stands before it the line may be too long, and is then no edit either
        Err(LineFault::Long) => Err(LineFault::Form),
        Err(LineFault::NotUtf8) => Err(LineFault::Form),
        Err(LineFault::Form) => Err(LineFault::Form),
        Err(LineFault::NoMemory) => Err(LineFault::NoMemory),
    }
}

/// The rounds of a line that asks to wait.
fn wait_of(bytes: &[u8]) -> Option<u32>
    ensures { MatchOption result ((n : ℕ) → IsWait n bytes.now → ⊥) (λ n. IsWait n bytes.now) }
{
    if !bytes.starts_with(b"wait ") {
        return None;
    }
    read_number(&bytes[5..])
}

/// What a line asks for that is neither empty nor a start.
fn other_of(alloc: Global, bytes: &[u8]) -> Result<Ask, LineFault>
    ensures { OtherIn result bytes.now }
{
    if let Some(rounds) = wait_of(bytes) {
        return Ok(Ask::Wait(rounds));
    }
    match edit_of(alloc, bytes) {
        Ok(edit) => Ok(Ask::Edit(edit)),
        Err(fault) => Err(fault),
    }
}

/// What a line of a script asks for that an input has too, but for edits.
fn plain_in(line: Line) -> Option<Ask>
    ensures { result ≡ plain_in line }
{
    match line {
        Line::Blank => Some(Ask::Nothing),
        Line::App(name) => Some(Ask::Start(name)),
        _ => None,
    }
}

/// What a line asks for. Refused for the first reason that holds: `Long` for more than 65,536 bytes, `NotUtf8` for
/// bytes that are not UTF-8, `Form` for bytes that ask for nothing of this.
pub(crate) fn ask_of(alloc: Global, bytes: &[u8]) -> Result<Ask, LineFault>
    ensures { AsksFor result bytes.now }
{
    match parse_line(alloc, bytes) {
        Ok(line) => match plain_in(line) {
            Some(ask) => Ok(ask),
            None => other_of(alloc, bytes),
        },
        Err(LineFault::Form) => other_of(alloc, bytes),
        Err(LineFault::Long) => Err(LineFault::Long),
        Err(LineFault::NotUtf8) => Err(LineFault::NotUtf8),
        Err(LineFault::NoMemory) => Err(LineFault::NoMemory),
    }
}
