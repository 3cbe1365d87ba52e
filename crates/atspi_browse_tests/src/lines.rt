//! Lines as they are read, told in words.

use atspi_browse::{UnitLine, read_unit_line};
use atspi_cursors::Way;
use atspi_units::Grain;

fn way_word(way: Way) -> &'static str {
    match way {
        Way::Here => "here",
        Way::Next => "next",
        Way::Prev => "prev",
    }
}

fn grain_word(grain: Grain) -> &'static str {
    match grain {
        Grain::Char => "char",
        Grain::Word => "word",
        Grain::Line => "line",
    }
}

/// Whether the line has these numbers and words.
fn is(line: &UnitLine, due: &str) -> Option<bool> {
    let mut words = due.split(' ');
    Some(
        words.next()?.parse::<u32>().ok()? == line.reader
            && words.next()?.parse::<u32>().ok()? == line.app
            && words.next()?.parse::<u32>().ok()? == line.node
            && words.next()? == way_word(line.way)
            && words.next()? == grain_word(line.grain),
    )
}

/// Whether a row holds: a line, and behind ` => ` its numbers and words, or `none`.
pub fn is_read(row: &str) -> Option<bool> {
    let (line, due) = row.split_once(" => ")?;
    match read_unit_line(line.as_bytes()) {
        Some(line) => is(&line, due),
        None => Some(due == "none"),
    }
}
