//! What may follow a form's first word up to the end of the line: numbers and a text.

ghost use Rattle.std.specs.Prelude.{ℕ, [], ◌∷◌};
ghost use Rattle.atspi_base.specs.declared.text.Text.{Text as AnyText};
ghost use Rattle.atspi_script_lines.specs.inner.Reading.{Finds, Reads};
ghost use Rattle.atspi_script_lines.specs.Words.{SpellsWords, number, place, quote};

use crate::numbers::{next_number, next_place};
use crate::quoted::next_text;
use atspi_base::{NoMemory, Text};
use std::alloc::Global;

/// One number.
pub(crate) fn read_one(bytes: &[u8]) -> Option<u32>
    ensures { Finds (λ n. SpellsWords (number n ∷ []) bytes.now) result }
{
    let Some((n, rest)) = next_number(bytes) else {
        return None;
    };
    if !rest.is_empty() {
        return None;
    }
    Some(n)
}

/// Two numbers.
pub(crate) fn read_two(bytes: &[u8]) -> Option<(u32, u32)>
    ensures { Finds (λ (r : ℕ × ℕ). SpellsWords (number r.0 ∷ number r.1 ∷ []) bytes.now) result }
{
    let Some((first, rest)) = next_number(bytes) else {
        return None;
    };
    match read_one(rest) {
        Some(second) => Some((first, second)),
        None => None,
    }
}

/// Three numbers.
pub(crate) fn read_three(bytes: &[u8]) -> Option<(u32, u32, u32)>
    ensures { Finds (λ (r : ℕ × ℕ × ℕ). SpellsWords (number r.0 ∷ number r.1 ∷ number r.2 ∷ []) bytes.now) result }
{
    let Some((first, rest)) = next_number(bytes) else {
        return None;
    };
    match read_two(rest) {
        Some((second, third)) => Some((first, second, third)),
        None => None,
    }
}

/// One text.
pub(crate) fn read_text(alloc: Global, bytes: &[u8]) -> Result<Option<Text>, NoMemory>
    ensures { Reads (λ text. SpellsWords (quote text ∷ []) bytes.now) result }
{
    let Some((text, rest)) = next_text(alloc, bytes)? else {
        return Ok(None);
    };
    if !rest.is_empty() {
        return Ok(None);
    }
    Ok(Some(text))
}

/// A number and a text.
pub(crate) fn read_number_text(alloc: Global, bytes: &[u8]) -> Result<Option<(u32, Text)>, NoMemory>
    ensures { Reads (λ (r : ℕ × AnyText). SpellsWords (number r.0 ∷ quote r.1 ∷ []) bytes.now) result }
{
    let Some((n, rest)) = next_number(bytes) else {
        return Ok(None);
    };
    match read_text(alloc, rest)? {
        Some(text) => Ok(Some((n, text))),
        None => Ok(None),
    }
}

/// Two numbers and a text.
pub(crate) fn read_numbers_text(
    alloc: Global,
    bytes: &[u8],
) -> Result<Option<(u32, u32, Text)>, NoMemory>
    ensures { Reads (λ (r : ℕ × ℕ × AnyText). SpellsWords (number r.0 ∷ number r.1 ∷ quote r.2 ∷ []) bytes.now) result }
{
    let Some((first, rest)) = next_number(bytes) else {
        return Ok(None);
    };
    match read_number_text(alloc, rest)? {
        Some((second, text)) => Ok(Some((first, second, text))),
        None => Ok(None),
    }
}

/// One number of a call.
pub(crate) fn read_place(bytes: &[u8]) -> Option<u32>
    ensures { Finds (λ n. SpellsWords (place n ∷ []) bytes.now) result }
{
    let Some((n, rest)) = next_place(bytes) else {
        return None;
    };
    if !rest.is_empty() {
        return None;
    }
    Some(n)
}

/// Two numbers of a call.
pub(crate) fn read_places(bytes: &[u8]) -> Option<(u32, u32)>
    ensures { Finds (λ (r : ℕ × ℕ). SpellsWords (place r.0 ∷ place r.1 ∷ []) bytes.now) result }
{
    let Some((first, rest)) = next_place(bytes) else {
        return None;
    };
    match read_place(rest) {
        Some(second) => Some((first, second)),
        None => None,
    }
}

/// A number of a call and a text.
pub(crate) fn read_place_text(alloc: Global, bytes: &[u8]) -> Result<Option<(u32, Text)>, NoMemory>
    ensures { Reads (λ (r : ℕ × AnyText). SpellsWords (place r.0 ∷ quote r.1 ∷ []) bytes.now) result }
{
    let Some((n, rest)) = next_place(bytes) else {
        return Ok(None);
    };
    match read_text(alloc, rest)? {
        Some(text) => Ok(Some((n, text))),
        None => Ok(None),
    }
}
