//! What is read at a cursor: the rows of a table.

ghost use Rattle.std.specs.Prelude.{◌≡◌, length, chars};

use atspi_cursors::{Cursors, Way, read};
use atspi_units::Grain;
use std::alloc::Global;

/// How many characters a text has.
fn count(text: &str) -> usize
    ensures { result ≡ length (chars text.now) }
{
    text.chars().count()
}

fn way_of(word: &str) -> Way {
    match word {
        "here" => Way::Here,
        "next" => Way::Next,
        _ => Way::Prev,
    }
}

fn grain_of(word: &str) -> Grain {
    match word {
        "char" => Grain::Char,
        "word" => Grain::Word,
        _ => Grain::Line,
    }
}

/// Whether a row says what is read of a text: the way, the unit and the cursor, and behind `=` the unit's start and end and
/// the cursor then, or `none`.
pub(crate) fn is_read(text: &str, row: &str) -> Option<bool> {
    let (asked, due) = row.split_once(" = ")?;
    let (way, rest) = asked.split_once(' ')?;
    let (unit, cursor) = rest.split_once(' ')?;
    let cursor = cursor.parse::<u32>().ok()?;
    if 1000 <= count(text) {
        return None;
    }
    match read(way_of(way), grain_of(unit), text, cursor) {
        None => Some(due == "none"),
        Some(told) => {
            let (start, rest) = due.split_once(' ')?;
            let (end, then) = rest.split_once(' ')?;
            let is_unit = told.start == start.parse::<u32>().ok()?
                && told.end == end.parse::<u32>().ok()?;
            Some(is_unit && told.cursor == then.parse::<u32>().ok()?)
        }
    }
}

/// Where the cursors of two texts are after a change of one.
pub(crate) fn moved(alloc: Global) -> Option<(u32, u32, u32)> {
    let mut cursors = Cursors::new(alloc);
    cursors.put(1, 4).ok()?;
    cursors.put(2, 4).ok()?;
    cursors.inserted(1, 0, 3);
    cursors.deleted(2, 1, 2);
    cursors.inserted(3, 0, 3);
    Some((cursors.at(1), cursors.at(2), cursors.at(3)))
}
