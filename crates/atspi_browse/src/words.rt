//! The words of a line as bytes: each stands behind a space and has none in it.

ghost use Rattle.std.specs.Prelude.{◌≡◌, ◌∷◌, ◌++◌, ◌<◌, List, ℕ, MatchOption};
ghost use Rattle.std.specs.Fmt.{decimal};
ghost use Rattle.atspi_cursors.specs.declared.reading.Way.{Way as AnyWay};
ghost use Rattle.atspi_units.specs.declared.grain.Grain.{Grain as AnyGrain};
ghost use Rattle.atspi_script_lines.specs.inner.Reading.{HasNoSpace};
ghost use Rattle.atspi_script_lines.specs.Words.{IsBehind, Leads, literal, number, app_name, reader_name};
ghost use Rattle.atspi_script_lines.specs.declared.limits.TheConstants.{APP_COUNT, READER_COUNT};
ghost use Rattle.atspi_browse.specs.UnitLine.{grain_word, way_word};

use atspi_cursors::Way;
use atspi_script_lines::{APP_COUNT, READER_COUNT, read_number};
use atspi_units::Grain;

/// The bytes before the first space, all where there is none, and the rest from that space on.
pub(crate) fn split_word(bytes: &[u8]) -> (&[u8], &[u8])
    ensures all { bytes.now ≡ result.0.now ++ result.1.now }
    ensures free { HasNoSpace result.0.now }
    ensures behind { IsBehind result.1.now }
{
    for (i, b) in bytes.iter().enumerate() {
        if *b == b' ' {
            return (&bytes[..i], &bytes[i..]);
        }
    }
    (bytes, &bytes[bytes.len()..])
}

/// What stands behind the space that the bytes begin with.
fn behind_space(bytes: &[u8]) -> Option<&[u8]>
    ensures { MatchOption result ((rest : List ℕ) → bytes.now ≡ 32 ∷ rest → ⊥) (λ r. bytes.now ≡ 32 ∷ r.now) }
{
    match bytes {
        [b' ', rest @ ..] => Some(rest),
        _ => None,
    }
}

/// The word that stands in front, whatever it is, and what follows it.
fn next_word(bytes: &[u8]) -> Option<(&[u8], &[u8])>
    ensures { MatchOption result ((rest : List ℕ) → bytes.now ≡ 32 ∷ rest → ⊥)
        (λ r. HasNoSpace r.0.now × Leads (literal r.0.now) r.1.now bytes.now) }
{
    let Some(behind) = behind_space(bytes) else {
        return None;
    };
    Some(split_word(behind))
}

/// The number of the application that a word names.
fn read_app(word: &[u8]) -> Option<u32>
    ensures { MatchOption result ((a : ℕ) → a < APP_COUNT → word.now ≡ 97 ∷ decimal a → ⊥)
        (λ a. (a < APP_COUNT) × (word.now ≡ 97 ∷ decimal a)) }
{
    let [b'a', digits @ ..] = word else {
        return None;
    };
    let Some(app) = read_number(digits) else {
        return None;
    };
    if APP_COUNT <= app {
        return None;
    }
    Some(app)
}

/// The number of the reader that a word names.
fn read_reader(word: &[u8]) -> Option<u32>
    ensures { MatchOption result ((r : ℕ) → r < READER_COUNT → word.now ≡ 114 ∷ decimal r → ⊥)
        (λ r. (r < READER_COUNT) × (word.now ≡ 114 ∷ decimal r)) }
{
    let [b'r', digits @ ..] = word else {
        return None;
    };
    let Some(reader) = read_number(digits) else {
        return None;
    };
    if READER_COUNT <= reader {
        return None;
    }
    Some(reader)
}

/// The application that is named in front, and what follows.
pub(crate) fn next_app(bytes: &[u8]) -> Option<(u32, &[u8])>
    ensures { MatchOption result ((a : ℕ) (rest : List ℕ) → Leads (app_name a) rest bytes.now → ⊥)
        (λ r. Leads (app_name r.0) r.1.now bytes.now) }
{
    let Some((word, rest)) = next_word(bytes) else {
        return None;
    };
    match read_app(word) {
        Some(app) => Some((app, rest)),
        None => None,
    }
}

/// The reader that is named in front, and what follows.
pub(crate) fn next_reader(bytes: &[u8]) -> Option<(u32, &[u8])>
    ensures { MatchOption result ((a : ℕ) (rest : List ℕ) → Leads (reader_name a) rest bytes.now → ⊥)
        (λ r. Leads (reader_name r.0) r.1.now bytes.now) }
{
    let Some((word, rest)) = next_word(bytes) else {
        return None;
    };
    match read_reader(word) {
        Some(reader) => Some((reader, rest)),
        None => None,
    }
}

/// The number in front, and what follows it.
pub(crate) fn next_number(bytes: &[u8]) -> Option<(u32, &[u8])>
    ensures { MatchOption result ((n : ℕ) (rest : List ℕ) → Leads (number n) rest bytes.now → ⊥)
        (λ r. Leads (number r.0) r.1.now bytes.now) }
{
    let Some((word, rest)) = next_word(bytes) else {
        return None;
    };
    match read_number(word) {
        Some(n) => Some((n, rest)),
        None => None,
    }
}

/// The way that is named in front, and what follows.
pub(crate) fn next_way(bytes: &[u8]) -> Option<(Way, &[u8])>
    ensures { MatchOption result ((way : AnyWay) (rest : List ℕ) → Leads (literal (way_word way)) rest bytes.now → ⊥)
        (λ r. Leads (literal (way_word r.0)) r.1.now bytes.now) }
{
    let Some((word, rest)) = next_word(bytes) else {
        return None;
    };
    if word == b"here".as_slice() {
        return Some((Way::Here, rest));
    }
    if word == b"next".as_slice() {
        return Some((Way::Next, rest));
    }
    if word == b"prev".as_slice() {
        return Some((Way::Prev, rest));
    }
    None
}

/// The units that are named in front, and what follows.
pub(crate) fn next_grain(bytes: &[u8]) -> Option<(Grain, &[u8])>
    ensures { MatchOption result
        ((grain : AnyGrain) (rest : List ℕ) → Leads (literal (grain_word grain)) rest bytes.now → ⊥)
        (λ r. Leads (literal (grain_word r.0)) r.1.now bytes.now) }
{
    let Some((word, rest)) = next_word(bytes) else {
        return None;
    };
    if word == b"char".as_slice() {
        return Some((Grain::Char, rest));
    }
    if word == b"word".as_slice() {
        return Some((Grain::Word, rest));
    }
    if word == b"line".as_slice() {
        return Some((Grain::Line, rest));
    }
    None
}
