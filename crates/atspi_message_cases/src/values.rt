//! Values as a message has them.

ghost use Rattle.std.specs.Prelude.{◌<◌};

use crate::items::{put_item, put_items};
use atspi_base::Bytes;

/// Where the length of an array stands, and where its elements begin.
#[derive(Clone, Copy)]
pub(crate) struct Opened {
    place: usize,
    start: usize,
}

/// Appends zeros up to a multiple of a number.
pub(crate) fn pad(out: &mut Bytes, unit: usize) -> Option<()>
    requires { 0 < unit }
{
    for _zero in 0..(unit - out.len() % unit) % unit {
        out.push(0).ok()?;
    }
    Some(())
}

/// Appends a number.
pub(crate) fn put_u32(out: &mut Bytes, n: u32) -> Option<()> {
    pad(out, 4)?;
    out.extend(&n.to_le_bytes()).ok()
}

/// Appends a number with a sign.
pub(crate) fn put_i32(out: &mut Bytes, n: i32) -> Option<()> {
    pad(out, 4)?;
    out.extend(&n.to_le_bytes()).ok()
}

/// Appends a text or a path, of which a front and the rest are given.
pub(crate) fn put_joined(out: &mut Bytes, front: &str, rest: &str) -> Option<()> {
    let length = front.len().checked_add(rest.len())?;
    put_u32(out, u32::try_from(length).ok()?)?;
    out.extend(front.as_bytes()).ok()?;
    out.extend(rest.as_bytes()).ok()?;
    out.push(0).ok()
}

/// Appends a text or a path.
pub(crate) fn put_text(out: &mut Bytes, text: &str) -> Option<()> {
    put_joined(out, "", text)
}

/// Appends a signature.
pub(crate) fn put_signature(out: &mut Bytes, codes: &[u8]) -> Option<()> {
    out.push(u8::try_from(codes.len()).ok()?).ok()?;
    out.extend(codes).ok()?;
    out.push(0).ok()
}

/// Appends the structure of two texts, or of a text and a path.
pub(crate) fn put_pair(out: &mut Bytes, first: &str, second: &str) -> Option<()> {
    pad(out, 8)?;
    put_text(out, first)?;
    put_text(out, second)
}

/// An array begins, of elements that stand at multiples of eight, or of four.
pub(crate) fn begin(out: &mut Bytes, eight: bool) -> Option<Opened> {
    put_u32(out, 0)?;
    let place = out.len().checked_sub(4)?;
    if eight {
        pad(out, 8)?;
    }
    Some(Opened {
        place,
        start: out.len(),
    })
}

/// Sets bytes that are there.
pub(crate) fn set(out: &mut Bytes, place: usize, bytes: &[u8]) -> Option<()> {
    if out.len() < place.checked_add(bytes.len())? {
        return None;
    }
    out.set(place, bytes);
    Some(())
}

/// An array ends: its length is set.
pub(crate) fn end(out: &mut Bytes, opened: Opened) -> Option<()> {
    let length = u32::try_from(out.len().checked_sub(opened.start)?).ok()?;
    set(out, opened.place, &length.to_le_bytes())
}

/// Appends a value of a type that is neither a variant nor an array.
fn put_plain(out: &mut Bytes, ty: &str, value: &str) -> Option<()> {
    match ty {
        "s" | "o" => put_text(out, value),
        "g" => put_signature(out, value.as_bytes()),
        "u" => put_u32(out, value.parse::<u32>().ok()?),
        "i" => put_i32(out, value.parse::<i32>().ok()?),
        "b" => put_u32(out, u32::from(value == "true")),
        "(so)" | "(ss)" => {
            let (first, second) = value.split_once('@')?;
            put_pair(out, first, second)
        }
        _ => None,
    }
}

/// Appends an array; a semicolon stands between any two values.
fn put_list(out: &mut Bytes, ty: &str, values: &str) -> Option<()> {
    let opened = begin(out, ty.starts_with("(") || ty.starts_with("{"))?;
    if !values.is_empty() {
        for value in values.split(';') {
            put_plain(out, ty, value)?;
        }
    }
    end(out, opened)
}

/// Appends a variant. Without a type it holds a text.
fn put_variant(out: &mut Bytes, ty: &str, value: &str) -> Option<()> {
    let ty = if ty.is_empty() { "s" } else { ty };
    put_signature(out, ty.as_bytes())?;
    put_plain(out, ty, value)
}

/// Appends a value of a type.
pub(crate) fn put_value(out: &mut Bytes, ty: &str, value: &str) -> Option<()> {
    if ty == "item" {
        let (bus, item) = value.split_once(';')?;
        return put_item(out, bus, item);
    }
    if ty == "items" {
        return put_items(out, value);
    }
    if let Some(element) = ty.strip_prefix("a") {
        return put_list(out, element, value);
    }
    match ty.strip_prefix("v") {
        Some(inner) => put_variant(out, inner, value),
        None => put_plain(out, ty, value),
    }
}

/// The codes of the type of a value that a word gives.
pub(crate) fn codes_of(ty: &str) -> &str {
    match ty {
        "item" => "((so)(so)(so)iiassusau)",
        "items" => "a((so)(so)(so)iiassusau)",
        _ => {
            if ty.starts_with("v") {
                return "v";
            }
            ty
        }
    }
}
