//! Items that hold others: arrays, structs, dictionaries and variants.

ghost use Rattle.std.specs.Prelude.{◌≡◌, ◌<◌, ◌≤◌, ◌+◌, ◌-◌, ◌==◌, length, map, true, [], ◌∷◌, IfOk, IfErr, IfSome};
ghost use Rattle.std.specs.Prelude.{is_some};
ghost use Rattle.std.specs.Int.{w32};
ghost use Rattle.atspi_types.specs.Kinds.{structure, kinds_of, alignment, byte};
ghost use Rattle.atspi_types.specs.KindView.{kind_of, kinds_in};
ghost use Rattle.atspi_types.specs.DataView.{data_of, all_data, all_pairs};
ghost use Rattle.atspi_types.specs.Data.{number_data, variant_data};
ghost use Rattle.atspi_marshal.specs.Input.{number_in, byte_in, slice_in, aligned, ReachTo};
ghost use Rattle.atspi_marshal.specs.Faults.{entry_kind};
ghost use Rattle.atspi_marshal.specs.Reading.{input_of, Gives, Fails, dictionary_body_at, read, single_at, array_place};
ghost use Rattle.atspi_marshal.specs.Reading.{array_body_at, array_at, dictionary_at, structure_at, variant_body_at};
ghost use Rattle.atspi_marshal.specs.Reading.{inner_at, elements_at, fields_at, short_at, deep_at, first_of, is_byte};
ghost use Rattle.atspi_marshal.specs.Reading.{is_structure, struct_of, structs_in};

use crate::codes::plain_type;
use crate::input::{Bound, Marshalled, bad, byte_at, slice, u32_at};
use crate::making::{array_of, dictionary_of};
use crate::plain::{
    boolean_value, byte_value, double_value, i16_value, i32_value, i64_value, padding, room,
    u16_value, u32_value, u64_value,
};
use crate::text::{path_value, short, signature_at, signature_value, text_value};
use atspi_types::{Pairs, ReadFault, Ty, Tys, Value, Values};
use std::alloc::Global;

/// The place of an array's length, whose elements stand at multiples of `align`.
#[tactic(auto, unfolding(crate::specs::Reading::array_place))]
fn array_front(
    input: &Marshalled,
    align: usize,
    bound: Bound,
    at: usize,
) -> Result<usize, ReadFault>
    requires align { (0 < align) × (align ≤ 8) }
    requires at { at ≤ bound.end }
    requires end { ReachTo input.now bound.end }
    ensures place { Gives (λ p. p) result (array_place (input_of input.now) align bound at) }
    ensures within { IfOk result
        (λ p. (at ≤ p) × (aligned align (p + 4) + number_in (input_of input.now) w32 p ≤ bound.end)) }
{
    let place = room(input, 4, 4, bound, at)?;
    let len = u32_at(input, place) as usize;
    if 67108864 < len {
        return Err(bad(place, 17));
    }
    let unpadded = place + 4;
    let start = unpadded + (align - unpadded % align) % align;
    if bound.end < start + len {
        return Err(bad(place, bound.reason));
    }
    Ok(place)
}

/// Whether the type is that of bytes.
fn is_byte(ty: &Ty) -> bool
    ensures { result ≡ is_byte (kind_of ty.now) }
{
    matches!(ty, Ty::Byte)
}

/// The bytes from a place to an end.
fn bytes(
    alloc: Global,
    input: &Marshalled,
    inside: Bound,
    start: usize,
) -> Result<Values, ReadFault>
    requires { (start ≤ inside.end) × (inside.end ≤ length input.now.bytes.now) }
    ensures ok { IfOk result
        (λ values. all_data values
        ≡ map (number_data byte) (slice_in (input_of input.now) start (inside.end - start))) }
    ensures err { IfErr result (λ e. e ≡ ReadFault.NoMemory) }
{
    let slice = slice(input, start, inside.end - start);
    Ok(Values::from_bytes(slice.to_vec(alloc)?))
}

/// The types of a struct's fields.
fn struct_fields(ty: &Ty) -> Option<&[Ty]>
    ensures is { is_some result ≡ is_structure (kind_of ty.now) }
    ensures fields { IfSome result (λ fields. kind_of ty.now ≡ structure (kinds_of (map kind_of fields.now))) }
{
    match ty {
        Ty::Struct(fields) => Some(fields.as_slice()),
        Ty::Byte
        | Ty::Bool
        | Ty::I16
        | Ty::U16
        | Ty::I32
        | Ty::U32
        | Ty::I64
        | Ty::U64
        | Ty::Double
        | Ty::Text
        | Ty::Path
        | Ty::Sig
        | Ty::Array(_)
        | Ty::Variant
        | Ty::Dict(_) => None,
    }
}

/// The first inner item of a struct that is no struct itself.
fn first_item(ty: &Ty) -> &Ty
    ensures { kind_of result.now ≡ first_of (kind_of ty.now) }
{
    let mut item = ty;
    while let Ty::Struct(fields) = item {
        let Some(first) = fields.as_slice().first() else {
            return item;
        };
        item = first;
    }
    item
}

/// A value of the type that has so many levels of containers at most.
#[cycle(read)]
pub fn value(
    alloc: Global,
    input: &Marshalled,
    levels: u8,
    ty: &Ty,
    bound: Bound,
    at: usize,
) -> Result<(Value, usize), ReadFault>
    requires at { at ≤ bound.end }
    requires end { ReachTo input.now bound.end }
    ensures read { Gives (λ x. (data_of x.0, x.1)) result (read (input_of input.now) levels (kind_of ty.now) bound at) }
    ensures within { IfOk result (λ x. (at ≤ x.1) × (x.1 ≤ bound.end)) }
{
    match struct_fields(ty) {
        Some(fields) => structure(alloc, input, levels, fields, bound, at),
        None => single(alloc, input, levels, ty, bound, at),
    }
}

/// A value of a type that is no struct.
#[cycle(read)]
#[inline(always)]
fn single(
    alloc: Global,
    input: &Marshalled,
    levels: u8,
    ty: &Ty,
    bound: Bound,
    at: usize,
) -> Result<(Value, usize), ReadFault>
    requires at { at ≤ bound.end }
    requires end { ReachTo input.now bound.end }
    ensures read { Gives (λ x. (data_of x.0, x.1)) result
        (single_at (levels == 0) (read (input_of input.now) (levels - 1)) (input_of input.now) (kind_of ty.now) bound
        at) }
    ensures within { IfOk result (λ x. (at ≤ x.1) × (x.1 ≤ bound.end)) }
{
    match ty {
        Ty::Byte => byte_value(input, bound, at),
        Ty::Bool => boolean_value(input, bound, at),
        Ty::I16 => i16_value(input, bound, at),
        Ty::U16 => u16_value(input, bound, at),
        Ty::I32 => i32_value(input, bound, at),
        Ty::U32 => u32_value(input, bound, at),
        Ty::I64 => i64_value(input, bound, at),
        Ty::U64 => u64_value(input, bound, at),
        Ty::Double => double_value(input, bound, at),
        Ty::Text => text_value(alloc, input, bound, at),
        Ty::Path => path_value(alloc, input, bound, at),
        Ty::Sig => signature_value(alloc, input, bound, at),
        Ty::Array(element) => array(alloc, input, levels, element, bound, at),
        Ty::Struct(_) => Err(bad(at, 20)),
        Ty::Variant => variant(alloc, input, levels, bound, at),
        Ty::Dict(entry) => dictionary(alloc, input, levels, &entry.key, &entry.value, bound, at),
    }
}

/// An array.
#[cycle(read)]
#[tactic(auto, unfolding(crate::specs::Reading::array_at))]
fn array(
    alloc: Global,
    input: &Marshalled,
    levels: u8,
    element: &Ty,
    bound: Bound,
    at: usize,
) -> Result<(Value, usize), ReadFault>
    requires at { at ≤ bound.end }
    requires end { ReachTo input.now bound.end }
    ensures read { Gives (λ x. (data_of x.0, x.1)) result
        (array_at (levels == 0) (read (input_of input.now) (levels - 1)) (input_of input.now) (kind_of element.now)
        bound at) }
    ensures within { IfOk result (λ x. (at ≤ x.1) × (x.1 ≤ bound.end)) }
{
    let place = array_front(input, element.alignment(), bound, at)?;
    if levels == 0 {
        return Err(bad(place, 20));
    }
    array_body(alloc, input, levels - 1, element, place)
}

/// The array whose length stands at a place.
#[cycle(read)]
#[tactic(auto, unfolding(crate::specs::Reading::array_body_at))]
fn array_body(
    alloc: Global,
    input: &Marshalled,
    levels: u8,
    element: &Ty,
    place: usize,
) -> Result<(Value, usize), ReadFault>
    requires { ReachTo input.now
        (aligned (alignment (kind_of element.now)) (place + 4) + number_in (input_of input.now) w32 place) }
    ensures read { Gives (λ x. (data_of x.0, x.1)) result
        (array_body_at (read (input_of input.now) levels) (input_of input.now) (kind_of element.now) place) }
    ensures within { IfOk result
        (λ x. x.1 ≡ aligned (alignment (kind_of element.now)) (place + 4) + number_in (input_of input.now) w32 place) }
{
    let len = u32_at(input, place) as usize;
    let align = element.alignment();
    let unpadded = place + 4;
    let inside = Bound {
        end: unpadded + (align - unpadded % align) % align + len,
        reason: 18,
    };
    let start = padding(input, align, inside, unpadded)?;
    let items = items_of(alloc, input, levels, element, inside, len, start)?;
    Ok((array_of(alloc, element, items)?, inside.end))
}

/// The elements of an array, from a place to its end. Bytes are moved as a whole.
#[cycle(read)]
fn items_of(
    alloc: Global,
    input: &Marshalled,
    levels: u8,
    element: &Ty,
    inside: Bound,
    len: usize,
    start: usize,
) -> Result<Values, ReadFault>
    requires at { (start ≤ inside.end) × (inside.end ≤ start + len) }
    requires end { ReachTo input.now inside.end }
    ensures read { Gives all_data result
        (elements_at (read (input_of input.now) levels (kind_of element.now) inside) inside.end len start) }
{
    if is_byte(element) {
        return bytes(alloc, input, inside, start);
    }
    elements(alloc, input, levels, element, inside, len, start)
}

/// The elements of an array, from a place to its end.
#[cycle(read)]
fn elements(
    alloc: Global,
    input: &Marshalled,
    levels: u8,
    element: &Ty,
    inside: Bound,
    len: usize,
    start: usize,
) -> Result<Values, ReadFault>
    requires at { start ≤ inside.end }
    requires end { ReachTo input.now inside.end }
    ensures read { Gives all_data result
        (elements_at (read (input_of input.now) levels (kind_of element.now) inside) inside.end len start) }
{
    let mut items = Values::new(alloc);
    let mut at = start;
    for _ in 0..len {
        if at == inside.end {
            return Ok(items);
        }
        let (item, next) = value(alloc, input, levels, element, inside, at)?;
        items.push(item)?;
        at = next;
    }
    Ok(items)
}

/// A dictionary.
#[cycle(read)]
#[tactic(auto, unfolding(crate::specs::Reading::dictionary_at))]
fn dictionary(
    alloc: Global,
    input: &Marshalled,
    levels: u8,
    key: &Ty,
    value: &Ty,
    bound: Bound,
    at: usize,
) -> Result<(Value, usize), ReadFault>
    requires at { at ≤ bound.end }
    requires end { ReachTo input.now bound.end }
    ensures read { Gives (λ x. (data_of x.0, x.1)) result
        (dictionary_at (levels == 0) (read (input_of input.now) (levels - 1)) (input_of input.now) (kind_of key.now)
        (kind_of value.now) bound at) }
    ensures within { IfOk result (λ x. (at ≤ x.1) × (x.1 ≤ bound.end)) }
{
    let place = array_front(input, 8, bound, at)?;
    if levels == 0 {
        return Err(bad(place, 20));
    }
    dictionary_body(alloc, input, levels - 1, key, value, place)
}

/// The dictionary whose length stands at a place.
#[cycle(read)]
#[tactic(auto, unfolding(crate::specs::Reading::array_body_at))]
fn dictionary_body(
    alloc: Global,
    input: &Marshalled,
    levels: u8,
    key: &Ty,
    value: &Ty,
    place: usize,
) -> Result<(Value, usize), ReadFault>
    requires { ReachTo input.now (aligned 8 (place + 4) + number_in (input_of input.now) w32 place) }
    ensures read { Gives (λ x. (data_of x.0, x.1)) result
        (dictionary_body_at (read (input_of input.now) levels) (input_of input.now) (kind_of key.now)
        (kind_of value.now) place) }
    ensures within { IfOk result (λ x. x.1 ≡ aligned 8 (place + 4) + number_in (input_of input.now) w32 place) }
{
    let len = u32_at(input, place) as usize;
    let unpadded = place + 4;
    let inside = Bound {
        end: unpadded + (8 - unpadded % 8) % 8 + len,
        reason: 18,
    };
    let start = padding(input, 8, inside, unpadded)?;
    let pairs = entries(alloc, input, levels, key, value, inside, len, start)?;
    Ok((dictionary_of(alloc, key, value, pairs)?, inside.end))
}

/// The entries of a dictionary, from a place to its end.
#[cycle(read)]
fn entries(
    alloc: Global,
    input: &Marshalled,
    levels: u8,
    key: &Ty,
    value: &Ty,
    inside: Bound,
    len: usize,
    start: usize,
) -> Result<Pairs, ReadFault>
    requires at { start ≤ inside.end }
    requires end { ReachTo input.now inside.end }
    ensures read { Gives (λ ps. structs_in (all_pairs ps)) result
        (elements_at (read (input_of input.now) levels (entry_kind (kind_of key.now) (kind_of value.now)) inside)
        inside.end len start) }
{
    let mut pairs = Pairs::new(alloc);
    let mut at = start;
    for _ in 0..len {
        if at == inside.end {
            return Ok(pairs);
        }
        let (first, second, next) = entry(alloc, input, levels, key, value, inside, at)?;
        pairs.push(first, second)?;
        at = next;
    }
    Ok(pairs)
}

/// An entry: its key and its value, and the place behind it.
#[cycle(read)]
fn entry(
    alloc: Global,
    input: &Marshalled,
    levels: u8,
    key: &Ty,
    value_type: &Ty,
    bound: Bound,
    at: usize,
) -> Result<(Value, Value, usize), ReadFault>
    requires at { at ≤ bound.end }
    requires end { ReachTo input.now bound.end }
    ensures read { Gives (λ x. (struct_of (data_of x.0) (data_of x.1), x.2)) result
        (read (input_of input.now) levels (entry_kind (kind_of key.now) (kind_of value_type.now)) bound at) }
    ensures within { IfOk result (λ x. (at ≤ x.2) × (x.2 ≤ bound.end)) }
{
    pair(alloc, input, levels, key, value_type, bound, at)
}

/// A key and its value, as the fields of a struct.
#[cycle(read)]
#[tactic(auto, unfolding(crate::specs::Reading::structure_at))]
fn pair(
    alloc: Global,
    input: &Marshalled,
    levels: u8,
    key: &Ty,
    value_type: &Ty,
    bound: Bound,
    at: usize,
) -> Result<(Value, Value, usize), ReadFault>
    requires at { at ≤ bound.end }
    requires end { ReachTo input.now bound.end }
    ensures read { Gives (λ x. (struct_of (data_of x.0) (data_of x.1), x.2)) result
        (structure_at (levels == 0) (read (input_of input.now) (levels - 1)) (input_of input.now)
        (kind_of key.now ∷ kind_of value_type.now ∷ []) bound at) }
    ensures within { IfOk result (λ x. (at ≤ x.2) × (x.2 ≤ bound.end)) }
{
    let place = padding(input, 8, bound, at)?;
    if levels == 0 {
        return Err(too_deep(alloc, input, first_item(key), bound, place));
    }
    let (first, between) = value(alloc, input, levels - 1, key, bound, place)?;
    match value(alloc, input, levels - 1, value_type, bound, between) {
        Ok((second, end)) => Ok((first, second, end)),
        Err(refused) => {
            drop(first);
            Err(refused)
        }
    }
}

/// A struct.
#[cycle(read)]
#[tactic(auto, unfolding(crate::specs::Reading::structure_at))]
fn structure(
    alloc: Global,
    input: &Marshalled,
    levels: u8,
    fields: &[Ty],
    bound: Bound,
    at: usize,
) -> Result<(Value, usize), ReadFault>
    requires at { at ≤ bound.end }
    requires end { ReachTo input.now bound.end }
    ensures read { Gives (λ x. (data_of x.0, x.1)) result
        (structure_at (levels == 0) (read (input_of input.now) (levels - 1)) (input_of input.now)
        (map kind_of fields.now) bound at) }
    ensures within { IfOk result (λ x. (at ≤ x.1) × (x.1 ≤ bound.end)) }
{
    let place = padding(input, 8, bound, at)?;
    if levels == 0 {
        let [first, ..] = fields else {
            return Err(bad(place, 20));
        };
        return Err(too_deep(alloc, input, first_item(first), bound, place));
    }
    let (items, end) = fields_of(alloc, input, levels - 1, fields, bound, place)?;
    Ok((Value::Struct(items), end))
}

/// Why a struct at a place is refused that is too deep: what its first inner item tells there for a lesser reason, or
/// the depth.
#[cycle(read)]
fn too_deep(alloc: Global, input: &Marshalled, first: &Ty, bound: Bound, place: usize) -> ReadFault
    requires at { place ≤ bound.end }
    requires end { ReachTo input.now bound.end }
    ensures { Fails result
        (deep_at place
        (single_at true (read (input_of input.now) 0) (input_of input.now) (kind_of first.now) bound place)) }
{
    match single(alloc, input, 0, first, bound, place) {
        Err(ReadFault::NoMemory) => ReadFault::NoMemory,
        Err(ReadFault::Bad(fault)) => {
            if fault.reason < 20 && fault.place as usize == place {
                return ReadFault::Bad(fault);
            }
            bad(place, 20)
        }
        Ok((item, _)) => {
            drop(item);
            bad(place, 20)
        }
    }
}

/// The fields of a struct, one behind the other.
#[cycle(read)]
pub fn fields_of(
    alloc: Global,
    input: &Marshalled,
    levels: u8,
    fields: &[Ty],
    bound: Bound,
    start: usize,
) -> Result<(Values, usize), ReadFault>
    requires at { start ≤ bound.end }
    requires end { ReachTo input.now bound.end }
    ensures read { Gives (λ x. (all_data x.0, x.1)) result
        (fields_at (λ k q. read (input_of input.now) levels k bound q) (map kind_of fields.now) start) }
    ensures within { IfOk result (λ x. (start ≤ x.1) × (x.1 ≤ bound.end)) }
{
    let mut items = Vec::with_capacity(alloc, fields.len())?;
    let mut at = start;
    for field in fields {
        let (item, next) = value(alloc, input, levels, field, bound, at)?;
        items.push(item)?;
        at = next;
    }
    Ok((Values::from_vec(items), at))
}

/// A variant.
#[cycle(read)]
#[tactic(auto, unfolding(crate::specs::Reading::short_at))]
fn variant(
    alloc: Global,
    input: &Marshalled,
    levels: u8,
    bound: Bound,
    at: usize,
) -> Result<(Value, usize), ReadFault>
    requires at { at ≤ bound.end }
    requires end { ReachTo input.now bound.end }
    ensures read { Gives (λ x. (data_of x.0, x.1)) result
        (short_at (variant_body_at (levels == 0) (read (input_of input.now) (levels - 1)) (input_of input.now) bound)
        (input_of input.now) bound at) }
    ensures within { IfOk result (λ x. (at ≤ x.1) × (x.1 ≤ bound.end)) }
{
    let place = short(input, bound, at)?;
    variant_body(alloc, input, levels, bound, place)
}

/// The variant whose signature's length stands at a place.
#[cycle(read)]
#[tactic(auto, unfolding(crate::specs::Reading::variant_body_at))]
fn variant_body(
    alloc: Global,
    input: &Marshalled,
    levels: u8,
    bound: Bound,
    place: usize,
) -> Result<(Value, usize), ReadFault>
    requires at { place + 2 + byte_in (input_of input.now) place ≤ bound.end }
    requires end { ReachTo input.now bound.end }
    ensures read { Gives (λ x. (data_of x.0, x.1)) result
        (variant_body_at (levels == 0) (read (input_of input.now) (levels - 1)) (input_of input.now) bound place) }
    ensures within { IfOk result (λ x. (place ≤ x.1) × (x.1 ≤ bound.end)) }
{
    if let Some(ty) = plain_type(input, place) {
        return inner(alloc, input, levels, ty, bound, place);
    }
    match signature_at(alloc, input, place) {
        Ok(signature) => match signature.single() {
            Some(ty) => inner(alloc, input, levels, ty, bound, place),
            None => Err(bad(place, 16)),
        },
        Err(ReadFault::Bad(fault)) => {
            if levels == 0 {
                return Err(bad(place, 20));
            }
            Err(bad(place + 1 + fault.place as usize, fault.reason))
        }
        Err(ReadFault::NoMemory) => Err(ReadFault::NoMemory),
    }
}

/// The variant of a type whose signature's length stands at a place.
#[cycle(read)]
fn inner(
    alloc: Global,
    input: &Marshalled,
    levels: u8,
    ty: Ty,
    bound: Bound,
    place: usize,
) -> Result<(Value, usize), ReadFault>
    requires at { place + 2 + byte_in (input_of input.now) place ≤ bound.end }
    requires end { ReachTo input.now bound.end }
    ensures read { Gives (λ x. (data_of x.0, x.1)) result
        (inner_at (levels == 0) (read (input_of input.now) (levels - 1)) (input_of input.now) bound place
        (kind_of ty)) }
    ensures within { IfOk result (λ x. (place ≤ x.1) × (x.1 ≤ bound.end)) }
{
    match inner_item(alloc, input, levels, &ty, bound, place) {
        Ok((item, end)) => Ok((Value::Variant(ty, item), end)),
        Err(refused) => {
            drop(ty);
            Err(refused)
        }
    }
}

/// The item of that variant. Its type is lent, so that nothing is held while it is read.
#[cycle(read)]
#[tactic(auto, unfolding(crate::specs::Reading::inner_at))]
fn inner_item(
    alloc: Global,
    input: &Marshalled,
    levels: u8,
    ty: &Ty,
    bound: Bound,
    place: usize,
) -> Result<(Box<Value>, usize), ReadFault>
    requires at { place + 2 + byte_in (input_of input.now) place ≤ bound.end }
    requires end { ReachTo input.now bound.end }
    ensures read { Gives (λ x. (variant_data (kind_of ty.now) (data_of x.0.value), x.1)) result
        (inner_at (levels == 0) (read (input_of input.now) (levels - 1)) (input_of input.now) bound place
        (kind_of ty.now)) }
    ensures within { IfOk result (λ x. (place ≤ x.1) × (x.1 ≤ bound.end)) }
{
    let len = byte_at(input, place) as usize;
    if levels == 0 {
        return Err(bad(place, 20));
    }
    if byte_at(input, place + 1 + len) != 0 {
        return Err(bad(place + 1 + len, 12));
    }
    let (item, end) = value(alloc, input, levels - 1, ty, bound, place + 2 + len)?;
    Ok((Box::new(alloc, item)?, end))
}
