//! The changes of one row.

ghost use Rattle.std.specs.Prelude.{◌≡◌};
ghost use Rattle.atspi_tree_model.specs.News.{known_number_to, told_number, told_text, with_count};
ghost use Rattle.atspi_tree_model.specs.States.{with_state};
ghost use Rattle.atspi_cache_arena.specs.Change.{changed};

use atspi_base::Text;
use atspi_tree_model::{NumPart, Part, Row};

/// A change of a row. None changes its path.
#[derive(Drop)]
pub enum Change {
    /// All that an item says of a row that is known.
    Renewed {
        name: Text,
        description: Text,
        role: u32,
        states: u64,
        faces: u8,
    },
    Name(Text),
    Description(Text),
    Role(u32),
    /// The state of this bit is on, or off.
    State(u8, bool),
    /// Another text part.
    Text(Part),
    /// The answer to a call for the text.
    TextIs(Text),
    /// The caret went to this place.
    Caret(i32),
    /// The answer to a call for the caret.
    CaretIs(i32),
    /// The answer to a call for the count of columns.
    ColumnsIs(i32),
}

/// The set with a state, or without it. A bit of 64 or more is none.
fn with_state(states: u64, state: u8, on: bool) -> u64
    ensures { result ≡ with_state state on states }
{
    if state >= 64 {
        return states;
    }
    let bit = 1u64 << state;
    if on {
        states | bit
    } else {
        states & (u64::MAX - bit)
    }
}

/// A text that was told, of a node that has one.
fn told_text(part: &mut Part, text: Text)
    ensures { part.new ≡ told_text text part.old }
{
    match part {
        Part::Absent => {}
        _ => *part = Part::Known(text),
    }
}

/// A number that goes to another. Below zero it changes nothing.
fn known_number_to(part: NumPart, number: i32) -> NumPart
    ensures { result ≡ with_count number known_number_to part }
{
    match part {
        NumPart::Known(_) if number >= 0 => NumPart::Known(number as u32),
        _ => part,
    }
}

/// A number that was told, of a node that has one. Below zero it tells nothing.
fn told_number(part: NumPart, number: i32) -> NumPart
    ensures { result ≡ with_count number told_number part }
{
    match part {
        NumPart::Absent => part,
        _ if number >= 0 => NumPart::Known(number as u32),
        _ => part,
    }
}

/// Changes a row.
pub(crate) fn apply(row: &mut Row, with: Change)
    ensures { row.new ≡ changed with row.old }
{
    match with {
        Change::Renewed {
            name,
            description,
            role,
            states,
            faces,
        } => {
            row.name = name;
            row.description = description;
            row.role = role;
            row.states = states;
            row.faces = faces;
        }
        Change::Name(name) => row.name = name,
        Change::Description(description) => row.description = description,
        Change::Role(role) => row.role = role,
        Change::State(state, on) => row.states = with_state(row.states, state, on),
        Change::Text(text) => row.text = text,
        Change::TextIs(text) => told_text(&mut row.text, text),
        Change::Caret(at) => row.caret = known_number_to(row.caret, at),
        Change::CaretIs(at) => row.caret = told_number(row.caret, at),
        Change::ColumnsIs(count) => row.columns = told_number(row.columns, count),
    }
}
