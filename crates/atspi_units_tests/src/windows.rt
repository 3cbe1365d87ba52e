//! Windows of short texts: what is told of a piece there, beside what is told in the whole text.

ghost use Rattle.std.specs.Prelude.{◌<◌, length, chars};

use crate::rows::count;
use atspi_units::{Grain, Reaches, unit_at, unit_within};

/// Whether the window tells nothing of a character but what the whole text does, and all where it is the whole.
fn agrees(unit: Grain, text: &str, window: &str, reaches: Reaches, before: u32, at: u32) -> bool
    requires text { length (chars text.now) < 1000 }
    requires window { length (chars window.now) < 1000 }
{
    match unit_within(unit, window, reaches, at) {
        None => !reaches.start || !reaches.end,
        Some(told) => match unit_at(unit, text, before.saturating_add(at)) {
            None => false,
            Some(due) => {
                due.0 == before.saturating_add(told.0) && due.1 == before.saturating_add(told.1)
            }
        },
    }
}

/// The same of each character of a window that stands behind so many.
fn agrees_inside(unit: Grain, text: &str, window: &str, reaches: Reaches, before: u32) -> bool
    requires { length (chars text.now) < 1000 }
{
    let inside = count(window);
    if 1000 <= inside {
        return false;
    }
    for at in 0..inside as u32 {
        if !agrees(unit, text, window, reaches, before, at) {
            return false;
        }
    }
    true
}

/// The same of a window between two bytes, where these begin characters.
fn window_agrees(unit: Grain, text: &str, from: usize, to: usize) -> bool
    requires { length (chars text.now) < 1000 }
{
    let reaches = Reaches {
        start: from == 0,
        end: to == text.len(),
    };
    let before = match text.get(..from) {
        None => return true,
        Some(front) => (count(front) % 1000) as u32,
    };
    match text.get(from..to) {
        None => true,
        Some(window) => agrees_inside(unit, text, window, reaches, before),
    }
}

/// The same of all windows that begin at a byte.
fn windows_agree_from(unit: Grain, text: &str, from: usize) -> bool
    requires { length (chars text.now) < 1000 }
{
    for to in from..text.len().saturating_add(1) {
        if !window_agrees(unit, text, from, to) {
            return false;
        }
    }
    true
}

fn windows_agree(unit: Grain, text: &str) -> bool
    requires { length (chars text.now) < 1000 }
{
    for from in 0..text.len() {
        if !windows_agree_from(unit, text, from) {
            return false;
        }
    }
    true
}

/// Whether all windows of a text tell nothing but what the text tells.
pub(crate) fn hold_in_windows(unit: Grain, text: &str) -> bool {
    count(text) < 1000 && windows_agree(unit, text)
}

/// What a window that reaches no end of the text tells of a character.
pub(crate) fn told_inside(unit: Grain, window: &str, at: u32) -> Option<(u32, u32)> {
    if 1000 <= count(window) {
        return None;
    }
    let reaches = Reaches {
        start: false,
        end: false,
    };
    unit_within(unit, window, reaches, at)
}
