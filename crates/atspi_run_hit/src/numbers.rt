//! Numbers of a line: decimal, behind a `-` where they are negative, without other sign or leading zero.

ghost use Rattle.std.specs.Prelude.{◌≡◌, ◌<◌, ◌∷◌, ℕ, ℤ, suc, pos, negsuc, List, FitsSigned, MatchOption};
ghost use Rattle.std.specs.Int.{w32};
ghost use Rattle.atspi_script_lines.specs.Words.{Leads, number};
ghost use Rattle.atspi_run_hit.specs.Words.{signed};
ghost use Rattle.atspi_run_hit.specs.inner.Reads.{ReadsBelow, ReadsFrom, ReadsSigned};

use crate::words::next_word;
use atspi_script_lines::read_number;

/// The number below 0 of this size, of those of 32 bits.
fn below_zero(size: u32) -> Option<i32>
    ensures { MatchOption result ((k : ℕ) → k < 2147483648 → size ≡ suc k → ⊥)
        (λ z. (k : ℕ) × (k < 2147483648) × (size ≡ suc k) × (z ≡ negsuc k)) }
{
    if size == 0 {
        return None;
    }
    if size > 2_147_483_648 {
        return None;
    }
    Some(-((size - 1) as i32) - 1)
}

/// The number of this size that is not below 0, of those of 32 bits.
fn from_zero(size: u32) -> Option<i32>
    ensures { MatchOption result (size < 2147483648 → ⊥) (λ z. (size < 2147483648) × (z ≡ pos size)) }
{
    if size > 2_147_483_647 {
        return None;
    }
    Some(size as i32)
}

/// What stands behind the `-` that a word begins with.
fn behind_minus(word: &[u8]) -> Option<&[u8]>
    ensures { MatchOption result ((rest : List ℕ) → word.now ≡ 45 ∷ rest → ⊥) (λ r. word.now ≡ 45 ∷ r.now) }
{
    match word {
        [b'-', rest @ ..] => Some(rest),
        _ => None,
    }
}

/// The number below 0 whose size the digits spell.
fn read_below(digits: &[u8]) -> Option<i32>
    ensures { ReadsBelow result digits.now }
{
    match read_number(digits) {
        Some(size) => below_zero(size),
        None => None,
    }
}

/// The number not below 0 that a word spells.
fn read_from(word: &[u8]) -> Option<i32>
    ensures { ReadsFrom result word.now }
{
    match read_number(word) {
        Some(size) => from_zero(size),
        None => None,
    }
}

/// The number of 32 bits that a word spells.
fn read_signed(word: &[u8]) -> Option<i32>
    ensures { ReadsSigned result word.now }
{
    match behind_minus(word) {
        Some(digits) => read_below(digits),
        None => read_from(word),
    }
}

/// The number in front, and what follows it.
pub(crate) fn next_number(bytes: &[u8]) -> Option<(u32, &[u8])>
    ensures { MatchOption result ((n : ℕ) (rest : List ℕ) → Leads (number n) rest bytes.now → ⊥)
        (λ r. Leads (number r.0) r.1.now bytes.now) }
{
    let Some((word, rest)) = next_word(bytes) else {
        return None;
    };
    match read_number(word) {
        Some(n) => Some((n, rest)),
        None => None,
    }
}

/// The signed number in front, and what follows it.
pub(crate) fn next_signed(bytes: &[u8]) -> Option<(i32, &[u8])>
    ensures { MatchOption result
        ((z : ℤ) (rest : List ℕ) → FitsSigned w32 z → Leads (signed z) rest bytes.now → ⊥)
        (λ r. FitsSigned w32 r.0 × Leads (signed r.0) r.1.now bytes.now) }
{
    let Some((word, rest)) = next_word(bytes) else {
        return None;
    };
    match read_signed(word) {
        Some(z) => Some((z, rest)),
        None => None,
    }
}
