//! What a line asks for, by its words.

ghost use Rattle.std.specs.Prelude.{◌≡◌, codes};
ghost use Rattle.atspi_script_lines.specs.inner.Reading.{Finds};
ghost use Rattle.atspi_run_hit.specs.Words.{AreOwn};
ghost use Rattle.atspi_run_hit.specs.inner.Reads.{IsOwnOf, OtherIn, ReadsHit, plain_in};

use crate::line::HitLine;
use crate::shapes::{read_cell, read_one, read_placing, read_point, read_two};
use crate::words::{is_word, split_word};
use atspi_hit_answers::Ask;
use atspi_run_input::edit_of;
use atspi_script_lines::{Line, LineFault, parse_line};
use std::alloc::Global;

/// A node is placed.
fn read_place(bytes: &[u8]) -> Option<HitLine>
    ensures { Finds (IsOwnOf (codes "place") bytes.now) result }
{
    match read_placing(bytes) {
        Some((node, rect)) => Some(HitLine::Place { node, rect }),
        None => None,
    }
}

/// Where a node stands.
fn read_extents(bytes: &[u8]) -> Option<HitLine>
    ensures { Finds (IsOwnOf (codes "extents") bytes.now) result }
{
    match read_one(bytes) {
        Some(node) => Some(HitLine::Call {
            node,
            ask: Ask::Extents,
        }),
        None => None,
    }
}

/// Whether a point is in a node's rectangle.
fn read_inside(bytes: &[u8]) -> Option<HitLine>
    ensures { Finds (IsOwnOf (codes "inside") bytes.now) result }
{
    match read_point(bytes) {
        Some((node, x, y)) => Some(HitLine::Call {
            node,
            ask: Ask::Contains { x, y },
        }),
        None => None,
    }
}

/// Which node is at a point.
fn read_at_point(bytes: &[u8]) -> Option<HitLine>
    ensures { Finds (IsOwnOf (codes "point") bytes.now) result }
{
    match read_point(bytes) {
        Some((node, x, y)) => Some(HitLine::Call {
            node,
            ask: Ask::AccessibleAtPoint { x, y },
        }),
        None => None,
    }
}

/// The cell beside a cell.
fn read_beside(bytes: &[u8]) -> Option<HitLine>
    ensures { Finds (IsOwnOf (codes "cell") bytes.now) result }
{
    match read_cell(bytes) {
        Some((node, index, way)) => Some(HitLine::Cell { node, index, way }),
        None => None,
    }
}

/// The targets of a relation.
fn read_follow(bytes: &[u8]) -> Option<HitLine>
    ensures { Finds (IsOwnOf (codes "follow") bytes.now) result }
{
    match read_two(bytes) {
        Some((node, kind)) => Some(HitLine::Follow { node, kind }),
        None => None,
    }
}

/// A line of its own, by its first word and what follows it.
fn own_of(word: &[u8], bytes: &[u8]) -> Option<HitLine>
    ensures { Finds (IsOwnOf word.now bytes.now) result }
{
    if is_word(word, b"place") {
        return read_place(bytes);
    }
    if is_word(word, b"extents") {
        return read_extents(bytes);
    }
    if is_word(word, b"inside") {
        return read_inside(bytes);
    }
    if is_word(word, b"point") {
        return read_at_point(bytes);
    }
    if is_word(word, b"cell") {
        return read_beside(bytes);
    }
    if is_word(word, b"follow") {
        return read_follow(bytes);
    }
    None
}

/// The line of its own that the bytes spell.
fn own_line(bytes: &[u8]) -> Option<HitLine>
    ensures { Finds (λ line. AreOwn line bytes.now) result }
{
    let (word, rest) = split_word(bytes);
    own_of(word, rest)
}

/// What a line asks for that is neither empty nor a start.
fn other_of(alloc: Global, bytes: &[u8]) -> Result<HitLine, LineFault>
    ensures { OtherIn result bytes.now }
{
    if let Some(line) = own_line(bytes) {
        return Ok(line);
    }
    match edit_of(alloc, bytes) {
        Ok(edit) => Ok(HitLine::Edit(edit)),
        Err(fault) => Err(fault),
    }
}

/// What a line of a script asks for that an input has too, but for edits.
fn plain_in(line: Line) -> Option<HitLine>
    ensures { result ≡ plain_in line }
{
    match line {
        Line::Blank => Some(HitLine::Nothing),
        Line::App(name) => Some(HitLine::App(name)),
        _ => None,
    }
}

/// What a line asks for. Refused for the first reason that holds: `Long` for more than 65,536 bytes, `NotUtf8` for
/// bytes that are not UTF-8, `Form` for bytes that ask for nothing of this.
pub(crate) fn line_of(alloc: Global, bytes: &[u8]) -> Result<HitLine, LineFault>
    ensures { ReadsHit result bytes.now }
{
    match parse_line(alloc, bytes) {
        Ok(line) => match plain_in(line) {
            Some(plain) => Ok(plain),
            None => other_of(alloc, bytes),
        },
        Err(LineFault::Form) => other_of(alloc, bytes),
        Err(LineFault::Long) => Err(LineFault::Long),
        Err(LineFault::NotUtf8) => Err(LineFault::NotUtf8),
        Err(LineFault::NoMemory) => Err(LineFault::NoMemory),
    }
}
