//! Numbers of a line: decimal, without sign or leading zero.

ghost use Rattle.std.specs.Prelude.{◌≡◌, ◌↔◌, ℕ, ◌<◌, ◌≤◌, ◌^◌, List, IsTrue, MatchOption};
ghost use Rattle.std.specs.Fmt.{decimal};
ghost use Rattle.atspi_script_lines.specs.inner.Reading.{IsTidy};
ghost use Rattle.atspi_script_lines.specs.Words.{Leads, number, place, quota};

use crate::limits::{PLACE_LIMIT, QUOTA_LEAST, QUOTA_MOST};
use crate::words::next_word;

/// Whether a word may be a number: it has no sign, and no zero before other digits.
fn is_tidy(word: &[u8]) -> bool
    ensures { IsTrue result ↔ IsTidy word.now }
{
    !word.is_empty() && word[0] != b'+' && (word[0] != b'0' || word.len() == 1)
}

/// The number below 2 ^ 32 that a word spells in decimal, without sign or leading zero.
pub fn read_number(word: &[u8]) -> Option<u32>
    ensures { MatchOption result ((n : ℕ) → n < 2 ^ 32 → word.now ≡ decimal n → ⊥)
        (λ n. (n < 2 ^ 32) × (word.now ≡ decimal n)) }
{
    if !is_tidy(word) {
        return None;
    }
    let Ok(text) = std::str::from_utf8(word) else {
        return None;
    };
    text.parse::<u32>().ok()
}

/// The number in front, and what follows it.
pub(crate) fn next_number(bytes: &[u8]) -> Option<(u32, &[u8])>
    ensures { MatchOption result ((n : ℕ) (rest : List ℕ) → Leads (number n) rest bytes.now → ⊥)
        (λ r. Leads (number r.0) r.1.now bytes.now) }
{
    let Some((word, rest)) = next_word(bytes) else {
        return None;
    };
    match read_number(word) {
        Some(n) => Some((n, rest)),
        None => None,
    }
}

/// The number of a call in front, and what follows it.
pub(crate) fn next_place(bytes: &[u8]) -> Option<(u32, &[u8])>
    ensures { MatchOption result ((n : ℕ) (rest : List ℕ) → Leads (place n) rest bytes.now → ⊥)
        (λ r. Leads (place r.0) r.1.now bytes.now) }
{
    let Some((n, rest)) = next_number(bytes) else {
        return None;
    };
    if PLACE_LIMIT < n {
        return None;
    }
    Some((n, rest))
}

/// The quota in front, and what follows it.
pub(crate) fn next_quota(bytes: &[u8]) -> Option<(u32, &[u8])>
    ensures { MatchOption result ((n : ℕ) (rest : List ℕ) → Leads (quota n) rest bytes.now → ⊥)
        (λ r. Leads (quota r.0) r.1.now bytes.now) }
{
    let Some((n, rest)) = next_number(bytes) else {
        return None;
    };
    if n < QUOTA_LEAST {
        return None;
    }
    if QUOTA_MOST < n {
        return None;
    }
    Some((n, rest))
}
