//! What may follow the first word of a line of its own, up to the end of the line.

ghost use Rattle.std.specs.Prelude.{◌↔◌, ℕ, ℤ, List, [], ◌∷◌, FitsSigned, IsTrue, MatchOption};
ghost use Rattle.std.specs.Int.{w32};
ghost use Rattle.atspi_script_lines.specs.inner.Reading.{Finds};
ghost use Rattle.atspi_script_lines.specs.Words.{Leads, SpellsWords, literal, number};
ghost use Rattle.atspi_hit.specs.declared.cells.Way.{Way as AnyWay};
ghost use Rattle.atspi_hit.specs.declared.rect.Rect.{Rect as AnyRect};
ghost use Rattle.atspi_run_hit.specs.Words.{IsPoint, IsRect, rect_words, signed, way_word};

use crate::line::{CORNER_LIMIT, SIZE_LIMIT};
use crate::numbers::{next_number, next_signed};
use crate::words::{is_word, next_word};
use atspi_hit::{Rect, Way};

/// One number.
pub(crate) fn read_one(bytes: &[u8]) -> Option<u32>
    ensures { Finds (λ n. SpellsWords (number n ∷ []) bytes.now) result }
{
    let Some((n, rest)) = next_number(bytes) else {
        return None;
    };
    if !rest.is_empty() {
        return None;
    }
    Some(n)
}

/// Two numbers.
pub(crate) fn read_two(bytes: &[u8]) -> Option<(u32, u32)>
    ensures { Finds (λ (r : ℕ × ℕ). SpellsWords (number r.0 ∷ number r.1 ∷ []) bytes.now) result }
{
    let Some((first, rest)) = next_number(bytes) else {
        return None;
    };
    match read_one(rest) {
        Some(second) => Some((first, second)),
        None => None,
    }
}

/// The last signed number.
fn read_last_signed(bytes: &[u8]) -> Option<i32>
    ensures { Finds (λ z. FitsSigned w32 z × SpellsWords (signed z ∷ []) bytes.now) result }
{
    let Some((z, rest)) = next_signed(bytes) else {
        return None;
    };
    if !rest.is_empty() {
        return None;
    }
    Some(z)
}

/// The coordinates of a point.
fn read_coordinates(bytes: &[u8]) -> Option<(i32, i32)>
    ensures { Finds (λ (r : ℤ × ℤ). IsPoint r.0 r.1 × SpellsWords (signed r.0 ∷ signed r.1 ∷ []) bytes.now) result }
{
    let Some((x, rest)) = next_signed(bytes) else {
        return None;
    };
    match read_last_signed(rest) {
        Some(y) => Some((x, y)),
        None => None,
    }
}

/// A node and a point.
pub(crate) fn read_point(bytes: &[u8]) -> Option<(u32, i32, i32)>
    ensures { Finds
        (λ (r : ℕ × ℤ × ℤ). IsPoint r.1 r.2
        × SpellsWords (number r.0 ∷ signed r.1 ∷ signed r.2 ∷ []) bytes.now) result }
{
    let Some((node, rest)) = next_number(bytes) else {
        return None;
    };
    match read_coordinates(rest) {
        Some((x, y)) => Some((node, x, y)),
        None => None,
    }
}

/// Whether a rectangle keeps within the limits of a line.
fn is_allowed(rect: Rect) -> bool
    ensures { IsTrue result ↔ IsRect rect }
{
    rect.x.unsigned_abs() <= CORNER_LIMIT
        && rect.y.unsigned_abs() <= CORNER_LIMIT
        && rect.w <= SIZE_LIMIT
        && rect.h <= SIZE_LIMIT
}

/// The second coordinate of a corner, and a width and a height.
fn read_rest(bytes: &[u8]) -> Option<(i32, u32, u32)>
    ensures { Finds
        (λ (r : ℤ × ℕ × ℕ). FitsSigned w32 r.0
        × SpellsWords (signed r.0 ∷ number r.1 ∷ number r.2 ∷ []) bytes.now) result }
{
    let Some((y, rest)) = next_signed(bytes) else {
        return None;
    };
    match read_two(rest) {
        Some((w, h)) => Some((y, w, h)),
        None => None,
    }
}

/// A rectangle, whatever its numbers.
fn read_any_rect(bytes: &[u8]) -> Option<Rect>
    ensures { Finds (λ r. IsPoint r.x r.y × SpellsWords (rect_words r) bytes.now) result }
{
    let Some((x, rest)) = next_signed(bytes) else {
        return None;
    };
    match read_rest(rest) {
        Some((y, w, h)) => Some(Rect { x, y, w, h }),
        None => None,
    }
}

/// A rectangle.
fn read_rect(bytes: &[u8]) -> Option<Rect>
    ensures { Finds (λ r. IsRect r × SpellsWords (rect_words r) bytes.now) result }
{
    let Some(rect) = read_any_rect(bytes) else {
        return None;
    };
    if !is_allowed(rect) {
        return None;
    }
    Some(rect)
}

/// A node and a rectangle.
pub(crate) fn read_placing(bytes: &[u8]) -> Option<(u32, Rect)>
    ensures { Finds
        (λ (p : ℕ × AnyRect). IsRect p.1 × SpellsWords (number p.0 ∷ rect_words p.1) bytes.now) result }
{
    let Some((node, rest)) = next_number(bytes) else {
        return None;
    };
    match read_rect(rest) {
        Some(rect) => Some((node, rect)),
        None => None,
    }
}

/// The way in front, and what follows it.
fn next_way(bytes: &[u8]) -> Option<(Way, &[u8])>
    ensures { MatchOption result ((way : AnyWay) (rest : List ℕ) → Leads (literal (way_word way)) rest bytes.now → ⊥)
        (λ r. Leads (literal (way_word r.0)) r.1.now bytes.now) }
{
    let Some((word, rest)) = next_word(bytes) else {
        return None;
    };
    if is_word(word, b"up") {
        return Some((Way::Up, rest));
    }
    if is_word(word, b"down") {
        return Some((Way::Down, rest));
    }
    if is_word(word, b"left") {
        return Some((Way::Left, rest));
    }
    if is_word(word, b"right") {
        return Some((Way::Right, rest));
    }
    None
}

/// The last way.
fn read_way(bytes: &[u8]) -> Option<Way>
    ensures { Finds (λ way. SpellsWords (literal (way_word way) ∷ []) bytes.now) result }
{
    let Some((way, rest)) = next_way(bytes) else {
        return None;
    };
    if !rest.is_empty() {
        return None;
    }
    Some(way)
}

/// The index of a cell and a way.
fn read_index_way(bytes: &[u8]) -> Option<(u32, Way)>
    ensures { Finds
        (λ (r : ℕ × AnyWay). SpellsWords (number r.0 ∷ literal (way_word r.1) ∷ []) bytes.now) result }
{
    let Some((index, rest)) = next_number(bytes) else {
        return None;
    };
    match read_way(rest) {
        Some(way) => Some((index, way)),
        None => None,
    }
}

/// A table, the index of a cell, and a way.
pub(crate) fn read_cell(bytes: &[u8]) -> Option<(u32, u32, Way)>
    ensures { Finds
        (λ (r : ℕ × ℕ × AnyWay). SpellsWords (number r.0 ∷ number r.1 ∷ literal (way_word r.2) ∷ []) bytes.now) result }
{
    let Some((node, rest)) = next_number(bytes) else {
        return None;
    };
    match read_index_way(rest) {
        Some((index, way)) => Some((node, index, way)),
        None => None,
    }
}
