//! Types where they lie in their codes: what they tell of themselves, and the two readers side by side on codes from a
//! seed.

use crate::rows::{put_pair, signature};
use atspi_base::{Bytes, put_decimal};
use atspi_marshal_in_place::codes::{Shape, TyRef, TysRef};
use std::alloc::Global;

/// How many types there are.
pub(crate) fn count(types: TysRef<'_>) -> u32 {
    let mut rest = types;
    let mut count = 0u32;
    for _type in 0..256 {
        if rest.next().is_none() {
            return count;
        }
        count = count.saturating_add(1);
    }
    count
}

/// Appends the codes of each type with a blank before them, and a full stop.
fn put_each(out: &mut Bytes, types: TysRef<'_>) {
    let mut rest = types;
    for _type in 0..count(types) {
        if let Some(ty) = rest.next() {
            put_word(out, ty.codes());
        }
    }
    if rest.is_empty() && rest.next().is_none() {
        let _ = out.push(b'.');
    }
}

/// A word for none, for one alone, and for many.
fn number_word(types: TysRef<'_>) -> &'static str {
    if types.is_empty() {
        "none"
    } else if types.single().is_some() {
        "only"
    } else {
        "many"
    }
}

/// Appends how many types the signature has that bytes are, and the codes of each.
pub(crate) fn put_types(out: &mut Bytes, bytes: &[u8]) {
    if let Ok(types) = TysRef::parse(bytes) {
        let _ = out.extend(number_word(types).as_bytes());
        put_each(out, types);
    }
}

/// A word for a shape.
fn shape_word(shape: Shape<'_>) -> &'static str {
    match shape {
        Shape::Byte => "byte",
        Shape::Bool => "bool",
        Shape::I16 => "i16",
        Shape::U16 => "u16",
        Shape::I32 => "i32",
        Shape::U32 => "u32",
        Shape::I64 => "i64",
        Shape::U64 => "u64",
        Shape::Double => "double",
        Shape::Text => "text",
        Shape::Path => "path",
        Shape::Sig => "signature",
        Shape::Variant => "variant",
        Shape::Array(_) => "array",
        Shape::Struct(_) => "struct",
        Shape::Dict(_, _) => "dict",
    }
}

/// The codes of the types in a shape.
fn within(shape: Shape<'_>) -> (&[u8], &[u8]) {
    match shape {
        Shape::Array(element) => (element.codes(), b"-"),
        Shape::Struct(fields) => (fields.codes(), b"-"),
        Shape::Dict(key, value) => (key.codes(), value.codes()),
        _ => (b"-", b"-"),
    }
}

/// The letter where it holds, and else a dash.
fn mark(holds: bool, letter: u8) -> u8 {
    if holds { letter } else { b'-' }
}

/// Which parts a type has: `e` an element, `f` fields, `d` an entry.
fn parts(ty: TyRef<'_>) -> [u8; 3] {
    [
        mark(ty.element().is_some(), b'e'),
        mark(ty.fields().is_some(), b'f'),
        mark(ty.entry().is_some(), b'd'),
    ]
}

/// Appends a blank and a word.
fn put_word(out: &mut Bytes, word: &[u8]) {
    let _ = out.push(b' ');
    let _ = out.extend(word);
}

/// Appends what a type tells of itself.
fn put_told(out: &mut Bytes, ty: TyRef<'_>) {
    let (first, second) = within(ty.shape());
    let _ = out.extend(shape_word(ty.shape()).as_bytes());
    put_word(out, first);
    put_word(out, second);
    let _ = out.push(b' ');
    let _ = put_decimal(ty.alignment() as u64, out);
    put_word(out, &[mark(ty.is_basic(), b'b')]);
    put_word(out, &parts(ty));
    put_word(out, &[ty.code()]);
    put_word(out, ty.codes());
}

/// The same of the one type that bytes are; `none` where they are not one alone, and the reason and the place of their
/// first fault.
pub(crate) fn put_type(out: &mut Bytes, bytes: &[u8]) {
    match TyRef::parse(bytes) {
        Ok(Some(ty)) => put_told(out, ty),
        Ok(None) => {
            let _ = out.extend(b"none");
        }
        Err(fault) => put_pair(out, (u32::from(fault.reason), fault.place)),
    }
}

/// The one type of the codes.
fn one(codes: &[u8]) -> Option<TyRef<'_>> {
    TyRef::parse(codes).ok()?
}

/// Whether two codes spell the same type.
fn are_same(first: &[u8], second: &[u8]) -> Option<bool> {
    Some(one(first)?.is(one(second)?))
}

/// Whether the list of no types is empty.
fn is_nothing() -> bool {
    let mut none = TysRef::none();
    none.is_empty() && none.single().is_none() && none.codes().is_empty() && none.next().is_none()
}

#[test]
fn types_are_told_apart(rt: HostRuntime) {
    assert!(rt; are_same(b"a(ii)", b"a(ii)") == Some(true));
    assert!(rt; are_same(b"ay", b"an") == Some(false));
    assert!(rt; are_same(b"(y)", b"(yy)") == Some(false));
    assert!(rt; is_nothing());
}

/// What is due of a signature of one byte.
fn due_of(byte: u8) -> (u32, u32) {
    match byte {
        b'a' => (4, 1),
        b'(' => (6, 1),
        b')' | b'}' => (6, 0),
        b'{' => (7, 0),
        b'h' => (3, 0),
        _ if b"ybnqiuxtdsogv".contains(&byte) => (0, 1),
        _ => (2, 0),
    }
}

/// The first byte that is read otherwise than is due, alone.
fn first_misread(alloc: Global) -> Option<u8> {
    for byte in 0..=255u8 {
        if signature(alloc, &[byte]) != due_of(byte) {
            return Some(byte);
        }
    }
    None
}

/// The codes that are drawn. Openers and closers stand often, so that many lists are signatures and many are nearly so.
const CODES: &[u8; 32] = b"ybnqiuxtdsogvvaaaaaa((()))a{{}}h";

/// The next number of a row that begins with a seed, below a limit that is not 0.
fn draw(state: &mut u64, below: u64) -> u64 {
    *state = state
        .wrapping_mul(6364136223846793005)
        .wrapping_add(1442695040888963407);
    *state / 4294967296 % below.max(1)
}

/// Fewer than twelve drawn codes.
fn drawn(alloc: Global, state: &mut u64) -> Vec<u8> {
    let mut bytes = Vec::new(alloc);
    for _code in 0..draw(state, 12) {
        let code = CODES[(draw(state, 32) % 32) as usize];
        let _ = bytes.push(code);
    }
    bytes
}

/// How many of 20,000 drawn lists of codes are signatures; 0 if the two readers do not tell the same of each.
fn signatures_drawn(alloc: Global) -> u32 {
    let mut state = 20261127u64;
    let mut read = 0u32;
    for _list in 0..20_000 {
        match signature(alloc, &drawn(alloc, &mut state)) {
            (0, _) => read = read.saturating_add(1),
            (98, _) => return 0,
            _ => {}
        }
    }
    read
}

#[test]
fn both_readers_of_signatures_tell_the_same(rt: HostRuntime) {
    assert!(rt; first_misread(rt.alloc()).is_none());
    assert!(rt; signatures_drawn(rt.alloc()) > 1000);
}
