//! Tables of pieces: a row is a text with `÷` where pieces end, and with `␊` and `␍` for a line feed and a return.

ghost use Rattle.std.specs.Prelude.{◌≡◌, ◌<◌, length, chars};

use atspi_units::{Grain, unit_at};
use std::alloc::Global;

/// How many characters a text has.
pub(crate) fn count(text: &str) -> usize
    ensures { result ≡ length (chars text.now) }
{
    text.chars().count()
}

/// The text of a row.
pub(crate) fn text_of(alloc: Global, row: &str) -> Option<String> {
    let mut text = String::new(alloc);
    for c in row.chars() {
        match c {
            '÷' => {}
            '␊' => text.push('\n').ok()?,
            '␍' => text.push('\r').ok()?,
            _ => text.push(c).ok()?,
        }
    }
    Some(text)
}

/// Whether it is told at a place that one piece stands from one place up to another.
fn is_told(unit: Grain, text: &str, at: u32, start: u32, end: u32) -> bool
    requires { length (chars text.now) < 1000 }
{
    match unit_at(unit, text, at) {
        None => false,
        Some(told) => told.0 == start && told.1 == end,
    }
}

/// The same at each of its characters.
fn is_told_inside(unit: Grain, text: &str, start: u32, end: u32) -> bool
    requires { length (chars text.now) < 1000 }
{
    for at in start..end {
        if !is_told(unit, text, at, start, end) {
            return false;
        }
    }
    start < end
}

/// Whether the pieces of a text are those of a row, and none holds what stands behind them.
fn are_told(unit: Grain, text: &str, row: &str) -> bool
    requires { length (chars text.now) < 1000 }
{
    let mut start = 0u32;
    for piece in row.split('÷') {
        let end = start.saturating_add((count(piece) % 1000) as u32);
        if !is_told_inside(unit, text, start, end) {
            return false;
        }
        start = end;
    }
    unit_at(unit, text, start).is_none()
}

/// Whether a row says what is told of its text.
pub(crate) fn holds(unit: Grain, text: &str, row: &str) -> bool {
    count(text) < 1000 && are_told(unit, text, row)
}
