//! Reading the unit of a text at a cursor.

ghost use Rattle.std.specs.Prelude.{◌≡◌, ◌<◌, length, chars};
ghost use Rattle.atspi_units.specs.Units.{units};
ghost use Rattle.atspi_cursors.specs.Reading.{IsRead, place_read};

use atspi_units::{Grain, unit_at};

/// Which unit is read at a cursor.
#[derive(Clone, Copy, Debug, PartialEq, Eq)]
pub enum Way {
    /// The one that holds the character behind the cursor, which stays.
    Here,
    /// The same; then the cursor stands at its end.
    Next,
    /// The one that holds the character before the cursor, which then stands at its start.
    Prev,
}

/// A unit that was read: where it starts, and where the next one does, in characters; and the cursor behind that.
#[derive(Clone, Copy, Debug, PartialEq, Eq)]
pub struct Reading {
    pub start: u32,
    pub end: u32,
    pub cursor: u32,
}

/// The place of the character whose unit is read.
fn place_read(way: Way, cursor: u32) -> Option<u32>
    ensures { result ≡ place_read way cursor }
{
    match way {
        Way::Here | Way::Next => Some(cursor),
        Way::Prev => cursor.checked_sub(1),
    }
}

/// What is read at a cursor of a text. None where there is no character behind the cursor, or before it, by the way;
/// then the cursor stays. Takes no memory.
pub fn read(way: Way, unit: Grain, text: &str, cursor: u32) -> Option<Reading>
    requires { length (chars text.now) < 4294967295 }
    ensures { IsRead way (units unit (chars text.now)) cursor result }
{
    let at = place_read(way, cursor)?;
    let (start, end) = unit_at(unit, text, at)?;
    let cursor = match way {
        Way::Here => cursor,
        Way::Next => end,
        Way::Prev => start,
    };
    Some(Reading { start, end, cursor })
}
