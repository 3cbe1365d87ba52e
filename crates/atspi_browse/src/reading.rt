//! Reading bytes as a line that asks for a unit.

ghost use Rattle.std.specs.Prelude.{◌≡◌, ◌∷◌, [], ℕ, List, MatchOption, codes};
ghost use Rattle.atspi_script_lines.specs.Words.{SpellsWords, literal, number, app_name, reader_name};
ghost use Rattle.atspi_script_lines.specs.inner.Reading.{LeadAll};
ghost use Rattle.atspi_browse.specs.UnitLine.{SpellsUnit, grain_word, unit_words, way_word};
ghost use Rattle.atspi_browse.specs.declared.line.UnitLine.{UnitLine as AnyLine};
ghost use Rattle.atspi_cursors.specs.declared.reading.Way.{Way as AnyWay};
ghost use Rattle.atspi_units.specs.declared.grain.Grain.{Grain as AnyGrain};

use crate::line::UnitLine;
use crate::words::{next_app, next_grain, next_number, next_reader, next_way, split_word};
use atspi_cursors::Way;
use atspi_units::Grain;

/// The reader, the application and the node in front, and what follows them.
fn next_text(bytes: &[u8]) -> Option<(u32, u32, u32, &[u8])>
    ensures { MatchOption result
        ((r a n : ℕ) (rest : List ℕ) → LeadAll (reader_name r ∷ app_name a ∷ number n ∷ []) rest bytes.now → ⊥)
        (λ r. LeadAll (reader_name r.0 ∷ app_name r.1 ∷ number r.2 ∷ []) r.3.now bytes.now) }
{
    let Some((reader, behind_reader)) = next_reader(bytes) else {
        return None;
    };
    let Some((app, behind_app)) = next_app(behind_reader) else {
        return None;
    };
    match next_number(behind_app) {
        Some((node, rest)) => Some((reader, app, node, rest)),
        None => None,
    }
}

/// The units that the last word names.
fn last_grain(bytes: &[u8]) -> Option<Grain>
    ensures { MatchOption result
        ((grain : AnyGrain) → SpellsWords (literal (grain_word grain) ∷ []) bytes.now → ⊥)
        (λ grain. SpellsWords (literal (grain_word grain) ∷ []) bytes.now) }
{
    let Some((grain, rest)) = next_grain(bytes) else {
        return None;
    };
    if !rest.is_empty() {
        return None;
    }
    Some(grain)
}

/// The way and the units that the last two words name.
fn last_words(bytes: &[u8]) -> Option<(Way, Grain)>
    ensures { MatchOption result
        ((way : AnyWay) (grain : AnyGrain)
        → SpellsWords (literal (way_word way) ∷ literal (grain_word grain) ∷ []) bytes.now → ⊥)
        (λ r. SpellsWords (literal (way_word r.0) ∷ literal (grain_word r.1) ∷ []) bytes.now) }
{
    let Some((way, rest)) = next_way(bytes) else {
        return None;
    };
    match last_grain(rest) {
        Some(grain) => Some((way, grain)),
        None => None,
    }
}

/// The line whose words behind the first one are these bytes.
fn line_of(bytes: &[u8]) -> Option<UnitLine>
    ensures { MatchOption result ((l : AnyLine) → SpellsWords (unit_words l) bytes.now → ⊥)
        (λ l. SpellsWords (unit_words l) bytes.now) }
{
    let Some((reader, app, node, rest)) = next_text(bytes) else {
        return None;
    };
    match last_words(rest) {
        Some((way, grain)) => Some(UnitLine {
            reader,
            app,
            node,
            way,
            grain,
        }),
        None => None,
    }
}

/// The line that the bytes spell, none where they spell none that asks for a unit. Takes no memory.
pub fn read_unit_line(bytes: &[u8]) -> Option<UnitLine>
    ensures { MatchOption result ((l : AnyLine) → SpellsUnit l bytes.now → ⊥) (λ l. SpellsUnit l bytes.now) }
{
    let (word, rest) = split_word(bytes);
    if word != b"unit".as_slice() {
        return None;
    }
    line_of(rest)
}
