//! Values that were passed, jumped over.

ghost use Rattle.std.specs.Prelude.{◌≡◌, ◌<◌, ◌≤◌, ◌+◌, length, false, IsTrue, Ok};
ghost use Rattle.std.specs.Int.{w32};
ghost use Rattle.atspi_types.specs.Kinds.{variant};
ghost use Rattle.atspi_marshal_in_place.specs.codes.TyRefs.{ref_kind, refs_kinds};
ghost use Rattle.atspi_marshal_in_place.specs.codes.Shapes.{shape_kind};
ghost use Rattle.atspi_marshal.specs.Input.{number_in, byte_in, aligned, PlacesFit, ReachTo};
ghost use Rattle.atspi_marshal.specs.Faults.{end_of, place_of};
ghost use Rattle.atspi_marshal.specs.Reading.{input_of, read, is_structure};
ghost use Rattle.atspi_marshal_in_place.specs.Passing.{after, read_all};
ghost use Rattle.atspi_marshal_in_place.specs.Known.{is_read, is_variant};

use crate::codes::{Shape, TyRef, TysRef};
use crate::passing::number_size;
use crate::plain::align_up;
use crate::text::known_type;
use atspi_marshal::{Bound, Marshalled, byte_at, u32_at};

/// The place behind a number of `size` bytes.
#[inline(always)]
fn jump_fixed(size: usize, at: usize) -> usize
    requires { (0 < size) × (size ≤ 8) × (at < 4294967296) }
    ensures { result ≡ aligned size at + size }
{
    align_up(size, at) + size
}

/// The same. Each size has an arm of its own, so that the machine divides by a constant.
#[inline(always)]
fn jump_number(size: usize, at: usize) -> usize
    requires { (0 < size) × (size ≤ 8) × (at < 4294967296) }
    ensures { result ≡ aligned size at + size }
{
    match size {
        4 => jump_fixed(4, at),
        8 => jump_fixed(8, at),
        1 => jump_fixed(1, at),
        _ => jump_fixed(size, at),
    }
}

/// The place behind a text or a path.
#[inline(always)]
fn jump_long(input: &Marshalled, at: usize) -> usize
    requires { ReachTo input.now (aligned 4 at + 4) }
    ensures { result ≡ aligned 4 at + 5 + number_in (input_of input.now) w32 (aligned 4 at) }
{
    let place = align_up(4, at);
    place + 5 + u32_at(input, place) as usize
}

/// The place behind a signature, be it a value or that of a variant.
#[inline(always)]
fn jump_short(input: &Marshalled, at: usize) -> usize
    requires { (at < length input.now.bytes.now) × PlacesFit input.now.bytes.now }
    ensures { result ≡ aligned 1 at + 2 + byte_in (input_of input.now) (aligned 1 at) }
{
    at + 2 + byte_at(input, at) as usize
}

/// The place behind an array whose elements stand at multiples of `align`.
#[inline(always)]
fn jump_array(input: &Marshalled, align: usize, at: usize) -> usize
    requires align { (0 < align) × (align ≤ 8) }
    requires end { ReachTo input.now (aligned 4 at + 4) }
    ensures { result ≡ aligned align (aligned 4 at + 4) + number_in (input_of input.now) w32 (aligned 4 at) }
{
    let place = align_up(4, at);
    align_up(align, place + 4) + u32_at(input, place) as usize
}

/// The place behind a value that was passed. Numbers, texts and paths are told by the first code of their type.
#[cycle(jump)]
#[inline(always)]
pub fn jump(input: &Marshalled, levels: u8, ty: TyRef, bound: Bound, at: usize) -> usize
    requires at { at ≤ bound.end }
    requires end { ReachTo input.now bound.end }
    requires known { IsTrue (is_read (after (read (input_of input.now) levels (ref_kind ty) bound at))) }
    ensures place { after (read (input_of input.now) levels (ref_kind ty.entry) bound at) ≡ Ok result }
    ensures within { (at ≤ result) × (result ≤ bound.end) }
{
    let code = ty.code();
    let size = number_size(code);
    if size != 0 {
        return jump_number(size, at);
    }
    if code == b's' {
        return jump_long(input, at);
    }
    if code == b'o' {
        return jump_long(input, at);
    }
    jump_any(input, levels, ty, bound, at)
}

/// The same of any type, those too.
#[cycle(jump)]
fn jump_any(input: &Marshalled, levels: u8, ty: TyRef, bound: Bound, at: usize) -> usize
    requires at { at ≤ bound.end }
    requires end { ReachTo input.now bound.end }
    requires known { IsTrue (is_read (after (read (input_of input.now) levels (ref_kind ty) bound at))) }
    ensures place { after (read (input_of input.now) levels (ref_kind ty.entry) bound at) ≡ Ok result }
    ensures within { (at ≤ result) × (result ≤ bound.end) }
{
    let code = ty.code();
    if code == b'v' {
        return jump_variant(input, levels, bound, at);
    }
    match ty.fields() {
        Some(types) => jump_fields(input, levels - 1, types, bound, align_up(8, at)),
        None => jump_other(input, levels, ty, bound, at),
    }
}

/// The place behind a value that was passed and is no struct and no variant.
#[inline(always)]
fn jump_other(input: &Marshalled, levels: u8, ty: TyRef, bound: Bound, at: usize) -> usize
    requires end { ReachTo input.now bound.end }
    requires known { IsTrue (is_read (after (read (input_of input.now) levels (ref_kind ty) bound at))) }
    requires other { is_structure (ref_kind ty) ≡ false }
    requires plain { is_variant (ref_kind ty) ≡ false }
    ensures place { after (read (input_of input.now) levels (ref_kind ty.entry) bound at) ≡ Ok result }
    ensures within { (at ≤ result) × (result ≤ bound.end) }
{
    jump_single(input, ty.shape(), at)
}

/// The place behind a variant that was passed: that behind the value in it, whose type is not looked at again.
#[cycle(jump)]
#[inline(always)]
fn jump_variant(input: &Marshalled, levels: u8, bound: Bound, at: usize) -> usize
    requires end { ReachTo input.now bound.end }
    requires known { IsTrue (is_read (after (read (input_of input.now) levels variant bound at))) }
    ensures place { after (read (input_of input.now) levels variant bound at) ≡ Ok result }
    ensures within { (at ≤ result) × (result ≤ bound.end) }
{
    let len = byte_at(input, at) as usize;
    let inner = known_type(input, at);
    jump(input, levels - 1, inner, bound, at + 2 + len)
}

/// The place where a value ends that is no struct and no variant, by what it begins with.
#[inline(always)]
fn jump_single(input: &Marshalled, shape: Shape, at: usize) -> usize
    requires { ReachTo input.now (end_of (input_of input.now) (shape_kind shape) (place_of (shape_kind shape) at)) }
    ensures { result ≡ end_of (input_of input.now) (shape_kind shape.entry) (place_of (shape_kind shape.entry) at) }
{
    match shape {
        Shape::Byte => at + 1,
        Shape::Bool => align_up(4, at) + 4,
        Shape::I16 => align_up(2, at) + 2,
        Shape::U16 => align_up(2, at) + 2,
        Shape::I32 => align_up(4, at) + 4,
        Shape::U32 => align_up(4, at) + 4,
        Shape::I64 => align_up(8, at) + 8,
        Shape::U64 => align_up(8, at) + 8,
        Shape::Double => align_up(8, at) + 8,
        Shape::Text => jump_long(input, at),
        Shape::Path => jump_long(input, at),
        Shape::Sig => jump_short(input, at),
        Shape::Array(element) => jump_array(input, element.alignment(), at),
        Shape::Struct(_) => align_up(8, at),
        Shape::Variant => jump_short(input, at),
        Shape::Dict(_, _) => jump_array(input, 8, at),
    }
}

/// The place behind values that were passed, one after the other.
#[cycle(jump)]
#[inline(always)]
pub fn jump_fields(
    input: &Marshalled,
    levels: u8,
    types: TysRef,
    bound: Bound,
    start: usize,
) -> usize
    requires at { start ≤ bound.end }
    requires end { ReachTo input.now bound.end }
    requires known { IsTrue (is_read (after (read_all (input_of input.now) levels (refs_kinds types) bound start))) }
    ensures place { after (read_all (input_of input.now) levels (refs_kinds types.entry) bound start) ≡ Ok result }
    ensures within { (start ≤ result) × (result ≤ bound.end) }
{
    let mut rest = types;
    let mut at = start;
    'rest: while let Some(ty) = rest.next() {
        at = jump(input, levels, ty, bound, at);
    }
    at
}
