//! Quoted texts of a line.

ghost use Rattle.std.specs.Prelude.{◌≡◌, ◌↔◌, ◌≤◌, ℕ, ◌<◌, List, [], ◌∷◌, ◌++◌, length, take, IfOk, IsTrue};
ghost use Rattle.std.specs.Prelude.{MatchOption, encode_utf8_all};
ghost use Rattle.std.specs.List.{flat_map};
ghost use Rattle.atspi_base.specs.Quoted.{escaped, hex_digit, in_quotes, is_marked};
ghost use Rattle.atspi_script_lines.specs.inner.Reading.{IsTextOf, Reads, StartsEscaped};
ghost use Rattle.atspi_script_lines.specs.Words.{IsBehind, Leads, quote};

use crate::words::behind_space;
use atspi_base::{NoMemory, Text, TextFault, is_control_byte};
use std::alloc::Global;

/// Whether a byte is written behind a backslash: the quote or the backslash.
fn is_marked_byte(byte: u8) -> bool
    ensures { result ≡ is_marked byte }
{
    byte == b'"' || byte == b'\\'
}

/// The number that a lower-case digit stands for.
fn hex_value(digit: u8) -> Option<u8>
    ensures { MatchOption result ((n : ℕ) → n < 16 → digit ≡ hex_digit n → ⊥) (λ n. (n < 16) × (digit ≡ hex_digit n)) }
{
    match digit {
        b'0'..=b'9' => Some(digit - b'0'),
        b'a'..=b'f' => Some(digit - b'a' + 10),
        _ => None,
    }
}

/// The byte that stands at the front of what is between quotes, and how many bytes it is written with.
fn first_byte(bytes: &[u8]) -> Option<(u8, usize)>
    ensures { MatchOption result ((b : ℕ) (tail : List ℕ) → bytes.now ≡ escaped b ++ tail → ⊥)
        (λ r. StartsEscaped bytes.now r.0 r.1) }
{
    match bytes {
        [b'\\', b'"', ..] => Some((b'"', 2)),
        [b'\\', b'\\', ..] => Some((b'\\', 2)),
        [b'\\', b'x', high, low, ..] => {
            let byte = hex_value(*high)? * 16 + hex_value(*low)?;
            if is_control_byte(byte) {
                Some((byte, 4))
            } else {
                None
            }
        }
        [byte, ..] => {
            if *byte == b'"' || *byte == b'\\' || is_control_byte(*byte) {
                None
            } else {
                Some((*byte, 1))
            }
        }
        [] => None,
    }
}

/// How many bytes at the front stand between quotes as they are.
fn plain_front(bytes: &[u8]) -> usize
    ensures within { result ≤ length bytes.now }
    ensures plain { flat_map escaped (take result bytes.now) ≡ take result bytes.now }
{
    for i in 0..bytes.len() {
        if is_marked_byte(bytes[i]) || is_control_byte(bytes[i]) {
            return i;
        }
    }
    bytes.len()
}

/// What stands behind the quote that the bytes begin with.
fn behind_quote(bytes: &[u8]) -> Option<&[u8]>
    ensures { MatchOption result ((rest : List ℕ) → bytes.now ≡ 34 ∷ rest → ⊥) (λ r. bytes.now ≡ 34 ∷ r.now) }
{
    match bytes {
        [b'"', rest @ ..] => Some(rest),
        _ => None,
    }
}

/// The bytes that stand in quotes at the front, and what follows them.
fn unquoted(alloc: Global, bytes: &[u8]) -> Result<Option<(Vec<u8>, &[u8])>, NoMemory>
    ensures { IfOk result
        (λ found. MatchOption found ((raw rest : List ℕ) → bytes.now ≡ in_quotes raw ++ rest → ⊥)
        (λ r. bytes.now ≡ in_quotes r.0.items ++ r.1.now)) }
{
    let Some(inner) = behind_quote(bytes) else {
        return Ok(None);
    };
    let mut out = Vec::new(alloc);
    let mut at = 0;
    while at < inner.len() && inner[at] != b'"' {
        let plain = plain_front(&inner[at..]);
        if plain > 0 {
            out.extend_from_slice(&inner[at..at + plain])?;
            at += plain;
            continue;
        }
        let Some((byte, len)) = first_byte(&inner[at..]) else {
            return Ok(None);
        };
        out.push(byte)?;
        at += len;
    }
    if at == inner.len() {
        return Ok(None);
    }
    Ok(Some((out, &inner[at + 1..])))
}

/// The text of these bytes.
fn text_of(alloc: Global, raw: &[u8]) -> Result<Option<Text>, NoMemory>
    ensures { Reads (IsTextOf raw.now) result }
{
    if raw.len() > u32::MAX as usize {
        return Ok(None);
    }
    match Text::read(alloc, raw) {
        Ok(text) => Ok(Some(text)),
        Err(TextFault::NoMemory) => Err(NoMemory),
        Err(TextFault::Zero(_)) => Ok(None),
        Err(TextFault::Utf8(_)) => Ok(None),
    }
}

/// The quoted text in front, and what follows it.
pub(crate) fn next_text(alloc: Global, bytes: &[u8]) -> Result<Option<(Text, &[u8])>, NoMemory>
    ensures { IfOk result
        (λ found. MatchOption found ((text rest : List ℕ) → Leads (quote text) rest bytes.now → ⊥)
        (λ r. Leads (quote r.0) r.1.now bytes.now)) }
{
    let Some(behind) = behind_space(bytes) else {
        return Ok(None);
    };
    let Some((raw, rest)) = unquoted(alloc, behind)? else {
        return Ok(None);
    };
    if !is_end(rest) {
        return Ok(None);
    }
    match text_of(alloc, &raw)? {
        Some(text) => Ok(Some((text, rest))),
        None => Ok(None),
    }
}

/// Whether nothing follows a word, or a space.
fn is_end(rest: &[u8]) -> bool
    ensures { IsTrue result ↔ IsBehind rest.now }
{
    rest.is_empty() || rest[0] == b' '
}
