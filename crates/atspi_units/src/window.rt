//! The piece that holds a character, told from a window of the text.

ghost use Rattle.std.specs.Prelude.{◌≡◌, ◌<◌, ◌≤◌, true, length, chars, IfSome, IsSome};
ghost use Rattle.atspi_units.specs.Windows.{IsUnitWithin};

use crate::stretch::stretch_at;
use crate::{Grain, unit_at};

/// Which ends of a text a window of it reaches.
#[derive(Clone, Copy, Debug, PartialEq, Eq)]
pub struct Reaches {
    pub start: bool,
    pub end: bool,
}

/// The piece of a text that holds a character, told from a window of the text: where it starts, and where the next one
/// does. Places count characters from the start of the window. None where the window does not show both ends of the
/// piece, so that a larger one is to be looked at; one that reaches both ends of the text shows them. A line is shown
/// by the line feed before it, its own and what follows that; a word by a character before it that no word holds with
/// others (a blank, most punctuation, an ideograph), and another behind it with what follows that. Takes no memory.
pub fn unit_within(unit: Grain, window: &str, reaches: Reaches, at: u32) -> Option<(u32, u32)>
    requires { length (chars window.now) < 4294967295 }
    ensures unit { IfSome result (λ (start, end). IsUnitWithin unit (chars window.now) reaches at start end) }
    ensures told { reaches.start ≡ true → reaches.end ≡ true → at < length (chars window.now) → IsSome result }
{
    let stretch = stretch_at(unit, window, reaches, at)?;
    let before = stretch.from.chars;
    let part = &window[stretch.from.bytes..stretch.to.bytes];
    let (start, end) = unit_at(unit, part, at - before)?;
    Some((before + start, before + end))
}
