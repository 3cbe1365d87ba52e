//! Names of ends in a line: `a0` to `a15`, `r0` to `r3`, `reg`.

ghost use Rattle.std.specs.Prelude.{◌≡◌, ℕ, ◌<◌, List, ◌∷◌, MatchOption};
ghost use Rattle.std.specs.Fmt.{decimal};
ghost use Rattle.atspi_script_lines.specs.Words.{Leads, SpellsParty, app_name, reader_name, party_name};
ghost use Rattle.atspi_script_lines.specs.declared.limits.TheConstants.{APP_COUNT, READER_COUNT};
ghost use Rattle.atspi_script_lines.specs.declared.line.Party.{Party as AnyParty};

use crate::Party;
use crate::limits::{APP_COUNT, READER_COUNT};
use crate::numbers::read_number;
use crate::words::next_word;

/// The number of the application that a word names.
fn read_app(word: &[u8]) -> Option<u32>
    ensures { MatchOption result ((a : ℕ) → a < APP_COUNT → word.now ≡ 97 ∷ decimal a → ⊥)
        (λ a. (a < APP_COUNT) × (word.now ≡ 97 ∷ decimal a)) }
{
    let [b'a', digits @ ..] = word else {
        return None;
    };
    let Some(app) = read_number(digits) else {
        return None;
    };
    if APP_COUNT <= app {
        return None;
    }
    Some(app)
}

/// The number of the reader that a word names.
fn read_reader(word: &[u8]) -> Option<u32>
    ensures { MatchOption result ((r : ℕ) → r < READER_COUNT → word.now ≡ 114 ∷ decimal r → ⊥)
        (λ r. (r < READER_COUNT) × (word.now ≡ 114 ∷ decimal r)) }
{
    let [b'r', digits @ ..] = word else {
        return None;
    };
    let Some(reader) = read_number(digits) else {
        return None;
    };
    if READER_COUNT <= reader {
        return None;
    }
    Some(reader)
}

/// The end that a word names.
fn read_party(word: &[u8]) -> Option<Party>
    ensures { MatchOption result ((who : AnyParty) → SpellsParty who word.now → ⊥) (λ who. SpellsParty who word.now) }
{
    if word == b"reg".as_slice() {
        return Some(Party::Registry);
    }
    if let Some(app) = read_app(word) {
        return Some(Party::App(app));
    }
    match read_reader(word) {
        Some(reader) => Some(Party::Reader(reader)),
        None => None,
    }
}

/// The application that is named in front, and what follows.
pub(crate) fn next_app(bytes: &[u8]) -> Option<(u32, &[u8])>
    ensures { MatchOption result ((a : ℕ) (rest : List ℕ) → Leads (app_name a) rest bytes.now → ⊥)
        (λ r. Leads (app_name r.0) r.1.now bytes.now) }
{
    let Some((word, rest)) = next_word(bytes) else {
        return None;
    };
    match read_app(word) {
        Some(app) => Some((app, rest)),
        None => None,
    }
}

/// The reader that is named in front, and what follows.
pub(crate) fn next_reader(bytes: &[u8]) -> Option<(u32, &[u8])>
    ensures { MatchOption result ((a : ℕ) (rest : List ℕ) → Leads (reader_name a) rest bytes.now → ⊥)
        (λ r. Leads (reader_name r.0) r.1.now bytes.now) }
{
    let Some((word, rest)) = next_word(bytes) else {
        return None;
    };
    match read_reader(word) {
        Some(reader) => Some((reader, rest)),
        None => None,
    }
}

/// The end that is named in front, and what follows.
pub(crate) fn next_party(bytes: &[u8]) -> Option<(Party, &[u8])>
    ensures { MatchOption result ((who : AnyParty) (rest : List ℕ) → Leads (party_name who) rest bytes.now → ⊥)
        (λ r. Leads (party_name r.0) r.1.now bytes.now) }
{
    let Some((word, rest)) = next_word(bytes) else {
        return None;
    };
    match read_party(word) {
        Some(who) => Some((who, rest)),
        None => None,
    }
}
