//! The part of a window that holds a character, between two places where a unit surely ends.

ghost use Rattle.std.specs.Prelude.{◌≡◌, ◌+◌, ◌*◌, ◌<◌, ◌≤◌, true, length, chars, encode_utf8, IfSome, IsSome};
ghost use Rattle.atspi_units.specs.inner.Stretches.{IsStretch};

use crate::Grain;
use crate::seam::ends_behind;
use crate::window::Reaches;

/// A place in a text: so many characters stand before it, which take so many bytes.
#[derive(Clone, Copy)]
pub(crate) struct Place {
    pub(crate) chars: u32,
    pub(crate) bytes: usize,
}

/// What stands from one place up to another.
#[derive(Clone, Copy)]
pub(crate) struct Stretch {
    pub(crate) from: Place,
    pub(crate) to: Place,
}

impl Place {
    /// The start of a text.
    const START: Place = Place { chars: 0, bytes: 0 };

    /// The place behind one more character.
    fn behind(self, c: char) -> Place
        requires chars { self.chars + 1 < 4294967296 }
        requires bytes { self.bytes ≤ 4 * self.chars }
        ensures chars { result.chars ≡ self.chars + 1 }
        ensures bytes { result.bytes ≡ self.bytes + length (encode_utf8 c) }
        ensures within { result.bytes ≤ 4 * result.chars }
    {
        Place {
            chars: self.chars + 1,
            bytes: self.bytes + c.len_utf8(),
        }
    }
}

/// The shortest part of the window that holds a character and lies between places where a unit surely ends, be it at an
/// end of the text. None where the window does not show that, or has no such character.
pub(crate) fn stretch_at(unit: Grain, window: &str, reaches: Reaches, at: u32) -> Option<Stretch>
    requires { length (chars window.now) < 4294967295 }
    ensures stretch { IfSome result (IsStretch unit (chars window.now) reaches at) }
    ensures told { reaches.start ≡ true → reaches.end ≡ true → at < length (chars window.now) → IsSome result }
{
    let mut from = if reaches.start {
        Some(Place::START)
    } else {
        None
    };
    let mut here = Place::START;
    let mut last = None;
    for c in window.chars() {
        if ends_behind(unit, last, c) {
            if at < here.chars {
                let from = from?;
                return Some(Stretch { from, to: here });
            }
            from = Some(here);
        }
        last = Some(c);
        here = here.behind(c);
    }
    if !reaches.end || here.chars <= at {
        return None;
    }
    let from = from?;
    Some(Stretch { from, to: here })
}
