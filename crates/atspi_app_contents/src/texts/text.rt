//! Parts of texts, their characters, and how many there are.

ghost use Rattle.std.specs.Prelude.{◌≡◌, ◌<◌, get_or, slice_get, length, IfOk};
ghost use Rattle.atspi_types.specs.Data.{text_data};
ghost use Rattle.atspi_types.specs.DataView.{data_of};
ghost use Rattle.atspi_protocol.specs.objects.Texts as texts_of;
ghost use Rattle.atspi_protocol.specs.objects.Children as children;
ghost use Rattle.atspi_protocol.specs.objects.Values as values;
ghost use Rattle.atspi_app_contents.specs.texts.inner.Parts as parts;
ghost use Rattle.atspi_app_contents.specs.texts.Texts.{KeepsText, text_at};
ghost use Rattle.atspi_app_contents.specs.texts.inner.Texts.{code_of};

use crate::texts::values::{count, empty};
use atspi_base::{NoMemory, Text};
use atspi_faces::face::Face;
use atspi_types::Value;
use std::alloc::Global;

/// Where a part begins.
fn start_at(place: i32) -> u32
    ensures { result ≡ parts.start_at place }
{
    if place < 0 { 0 } else { place as u32 }
}

/// Where a part of a text with so many characters ends.
fn end_at(place: i32, count: u32) -> u32
    ensures { result ≡ parts.end_at place count }
{
    if place < 0 {
        count
    } else if place as u32 <= count {
        place as u32
    } else {
        count
    }
}

/// The characters of a node's text from one place up to another.
fn part_of<C: Face>(
    alloc: Global,
    texts: &C,
    node: u32,
    start: i32,
    end: i32,
) -> Result<Text, NoMemory>
    requires { KeepsText (C.of_kind texts.now) (C.nodes texts.now) node }
    ensures { IfOk result (λ part. part ≡ texts_of.part_of (text_at (C.nodes texts.now) node).characters start end) }
{
    let _ = texts.kind();
    let from = start_at(start);
    let to = end_at(end, texts.count(node));
    if to <= from {
        return empty(alloc);
    }
    texts.part(node, from, to)
}

/// The characters of a node's text from one place up to another (AT-SPI2, interface Text). A place below 0 is the
/// beginning as a start and the end as an end, and an end behind the text is its end. The one refusal is want of
/// memory.
pub fn part<C: Face>(
    alloc: Global,
    texts: &C,
    node: u32,
    start: i32,
    end: i32,
) -> Result<Value, NoMemory>
    requires { KeepsText (C.of_kind texts.now) (C.nodes texts.now) node }
    ensures { IfOk result
        (λ value. data_of value
        ≡ text_data (texts_of.part_of (text_at (C.nodes texts.now) node).characters start end)) }
{
    Ok(Value::Text(part_of(alloc, texts, node, start, end)?))
}

/// How many characters the text of a node has.
pub fn character_count<C: Face>(texts: &C, node: u32) -> Value
    requires { KeepsText (C.of_kind texts.now) (C.nodes texts.now) node }
    ensures { data_of result ≡ values.count_data (length (text_at (C.nodes texts.now) node).characters) }
{
    let _ = texts.kind();
    count(texts.count(node))
}

/// The code point of a text's first character, 0 where it has none.
fn first_code(text: &Text) -> u32
    ensures code { result ≡ get_or text.now 0 0 }
    ensures small { result < 1114112 }
{
    match text.as_str().chars().next() {
        Some(c) => c as u32,
        None => 0,
    }
}

/// The code point of the character at a place, 0 where there is none.
fn code_there<C: Face>(texts: &C, node: u32, from: u32) -> Result<u32, NoMemory>
    requires { KeepsText (C.of_kind texts.now) (C.nodes texts.now) node }
    ensures code { IfOk result (λ code. code ≡ code_of (slice_get (text_at (C.nodes texts.now) node).characters from)) }
    ensures small { IfOk result (λ code. code < 1114112) }
{
    let _ = texts.kind();
    if texts.count(node) <= from {
        return Ok(0);
    }
    let text = texts.part(node, from, from + 1)?;
    Ok(first_code(&text))
}

/// The same at an index from outside; none is below 0.
fn code_at<C: Face>(texts: &C, node: u32, index: i32) -> Result<u32, NoMemory>
    requires { KeepsText (C.of_kind texts.now) (C.nodes texts.now) node }
    ensures code { IfOk result
        (λ code. code ≡ code_of (children.at index (text_at (C.nodes texts.now) node).characters)) }
    ensures small { IfOk result (λ code. code < 1114112) }
{
    if index < 0 {
        return Ok(0);
    }
    code_there(texts, node, index as u32)
}

/// The code point of the character at an index, 0 where there is none. The one refusal is want of memory.
pub fn character<C: Face>(texts: &C, node: u32, index: i32) -> Result<Value, NoMemory>
    requires { KeepsText (C.of_kind texts.now) (C.nodes texts.now) node }
    ensures { IfOk result
        (λ value. data_of value
        ≡ texts_of.character_data (children.at index (text_at (C.nodes texts.now) node).characters)) }
{
    Ok(count(code_at(texts, node, index)?))
}
