//! Which piece of a text holds a character.

ghost use Rattle.std.specs.Prelude.{◌≡◌, ◌<◌, ◌≤◌, length, chars, MatchOption};
ghost use Rattle.atspi_units.specs.Units.{units, IsUnitAt};
ghost use Rattle.atspi_units.specs.declared.grain.Grain.TheVariants.{Char, Word, Line};

use crate::Grain;
use unicode_segmentation::UnicodeSegmentation;

/// The piece of the text that holds the character at a place: where it starts, and where the next one does. Places
/// count characters from 0. None where the text has no character there. Takes no memory.
pub fn unit_at(unit: Grain, text: &str, at: u32) -> Option<(u32, u32)>
    requires { length (chars text.now) < 4294967295 }
    ensures { MatchOption result (length (chars text.now) ≤ at)
        (λ (start, end). IsUnitAt (units unit (chars text.now)) at start end) }
{
    match unit {
        Grain::Char => char_at(text, at),
        Grain::Word => word_at(text, at),
        Grain::Line => line_at(text, at),
    }
}

/// How many characters a text has.
fn count(text: &str) -> usize
    ensures { result ≡ length (chars text.now) }
{
    text.chars().count()
}

fn char_at(text: &str, at: u32) -> Option<(u32, u32)>
    requires { length (chars text.now) < 4294967295 }
    ensures { MatchOption result (length (chars text.now) ≤ at)
        (λ (start, end). IsUnitAt (units Char (chars text.now)) at start end) }
{
    if count(text) <= at as usize {
        return None;
    }
    Some((at, at + 1))
}

fn word_at(text: &str, at: u32) -> Option<(u32, u32)>
    requires { length (chars text.now) < 4294967295 }
    ensures { MatchOption result (length (chars text.now) ≤ at)
        (λ (start, end). IsUnitAt (units Word (chars text.now)) at start end) }
{
    let mut start = 0;
    for piece in text.split_word_bounds() {
        let end = start + count(piece) as u32;
        if at < end {
            return Some((start, end));
        }
        start = end;
    }
    None
}

fn line_at(text: &str, at: u32) -> Option<(u32, u32)>
    requires { length (chars text.now) < 4294967295 }
    ensures { MatchOption result (length (chars text.now) ≤ at)
        (λ (start, end). IsUnitAt (units Line (chars text.now)) at start end) }
{
    let mut start = 0;
    let mut end = 0;
    for c in text.chars() {
        end += 1;
        if c == '\n' {
            if at < end {
                return Some((start, end));
            }
            start = end;
        }
    }
    if at < end { Some((start, end)) } else { None }
}
