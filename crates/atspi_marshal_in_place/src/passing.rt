//! Passing values: where they end, or the first fault. Nothing is kept, and no memory is taken.

ghost use Rattle.std.specs.Prelude.{◌≡◌, ◌<◌, ◌≤◌, ◌+◌, ◌-◌, ◌==◌, true, [], ◌∷◌, IfOk, Err};
ghost use Rattle.std.specs.Int.{w32};
ghost use Rattle.atspi_types.specs.Kinds.{alignment, structure, kinds_of};
ghost use Rattle.atspi_marshal_in_place.specs.codes.Codes.{leaf_of};
ghost use Rattle.atspi_marshal_in_place.specs.codes.TyRefs.{ref_kind, refs_kinds};
ghost use Rattle.atspi_marshal_in_place.specs.codes.Shapes.{shape_kind};
ghost use Rattle.atspi_marshal.specs.Input.{number_in, byte_in, aligned, ReachTo};
ghost use Rattle.atspi_marshal.specs.Faults.{entry_kind};
ghost use Rattle.atspi_marshal.specs.Reading.{input_of, read, single_at, array_place, array_body_at, array_at};
ghost use Rattle.atspi_marshal.specs.Reading.{dictionary_at, dictionary_body_at, structure_at, variant_body_at};
ghost use Rattle.atspi_marshal.specs.Reading.{inner_at, elements_at, short_at, deep_at, first_of};
ghost use Rattle.atspi_marshal_in_place.specs.Passing.{after, up_to, read_all, numbers_at, number_len};

use crate::codes::{Shape, TyRef, TysRef};
use crate::plain::{fault, padding, pass_boolean, pass_fixed, pass_number, room};
use crate::text::{pass_path, pass_signature, pass_text, short, type_at};
use atspi_marshal::{Bound, Marshalled, byte_at, u32_at};
use atspi_types::Fault;

/// How many bytes a number has whose type is this code, and 0 of what is no number.
#[inline(always)]
pub fn number_size(code: u8) -> usize
    ensures size { result ≡ number_len (leaf_of code) }
    ensures within { result ≤ 8 }
{
    match code {
        b'y' => 1,
        b'n' => 2,
        b'q' => 2,
        b'i' => 4,
        b'u' => 4,
        b'x' => 8,
        b't' => 8,
        b'd' => 8,
        _ => 0,
    }
}

/// The place behind numbers of so many bytes that take `len` bytes up to the end: by their length alone.
#[inline(always)]
fn numbers(size: usize, len: usize, end: usize) -> Result<usize, Fault>
    requires size { 0 < size }
    requires end { (len ≤ end) × (end < 4294967296) }
    ensures { result ≡ numbers_at size len end }
{
    let over = len % size;
    if over == 0 {
        return Ok(end);
    }
    Err(fault(end - over, 18))
}

/// The place of an array's length, whose elements stand at multiples of `align`.
#[tactic(auto, unfolding(atspi_marshal::specs::Reading::array_place))]
#[inline(always)]
fn array_front(input: &Marshalled, align: usize, bound: Bound, at: usize) -> Result<usize, Fault>
    requires align { (0 < align) × (align ≤ 8) }
    requires at { at ≤ bound.end }
    requires end { ReachTo input.now bound.end }
    ensures place { result ≡ array_place (input_of input.now) align bound at }
    ensures within { IfOk result
        (λ p. (at ≤ p) × (aligned align (p + 4) + number_in (input_of input.now) w32 p ≤ bound.end)) }
{
    let place = room(input, 4, 4, bound, at)?;
    let len = u32_at(input, place) as usize;
    if 67108864 < len {
        return Err(fault(place, 17));
    }
    let unpadded = place + 4;
    let start = unpadded + (align - unpadded % align) % align;
    if bound.end < start + len {
        return Err(fault(place, bound.reason));
    }
    Ok(place)
}

/// The first inner item of a struct that is no struct itself.
fn first_item<'a>(ty: TyRef<'a>) -> TyRef<'a>
    ensures { ref_kind result ≡ first_of (ref_kind ty.entry) }
{
    let mut item = ty;
    'layers: while let Some(mut fields) = item.fields() {
        let Some(first) = fields.next() else {
            return item;
        };
        item = first;
    }
    item
}

/// The place behind a value of the type that has so many levels of containers at most. Numbers, texts and paths are
/// told by the first code of their type.
#[cycle(pass)]
#[inline(always)]
pub fn pass(
    input: &Marshalled,
    levels: u8,
    ty: TyRef,
    bound: Bound,
    at: usize,
) -> Result<usize, Fault>
    requires at { at ≤ bound.end }
    requires end { ReachTo input.now bound.end }
    ensures place { result ≡ after (read (input_of input.now) levels (ref_kind ty.entry) bound at) }
    ensures within { IfOk result (λ p. (at ≤ p) × (p ≤ bound.end)) }
{
    let code = ty.code();
    let size = number_size(code);
    if size != 0 {
        return pass_number(input, size, bound, at);
    }
    // handed on by value: what a call writes through memory would keep the place behind a number there too
    let place = match code {
        b's' => pass_text(input, bound, at)?,
        b'o' => pass_path(input, bound, at)?,
        _ => other(input, levels, ty, bound, at)?,
    };
    Ok(place)
}

/// The same of any type, those too.
#[cycle(pass)]
fn other(input: &Marshalled, levels: u8, ty: TyRef, bound: Bound, at: usize) -> Result<usize, Fault>
    requires at { at ≤ bound.end }
    requires end { ReachTo input.now bound.end }
    ensures place { result ≡ after (read (input_of input.now) levels (ref_kind ty.entry) bound at) }
    ensures within { IfOk result (λ p. (at ≤ p) × (p ≤ bound.end)) }
{
    match ty.fields() {
        Some(types) => structure(input, levels, types, bound, at),
        None => single(input, levels, ty.shape(), bound, at),
    }
}

/// The place behind a value of a type that is no struct.
#[cycle(pass)]
#[inline(always)]
fn single(
    input: &Marshalled,
    levels: u8,
    shape: Shape,
    bound: Bound,
    at: usize,
) -> Result<usize, Fault>
    requires at { at ≤ bound.end }
    requires end { ReachTo input.now bound.end }
    ensures place { result
        ≡ after
        (single_at (levels == 0) (read (input_of input.now) (levels - 1)) (input_of input.now)
        (shape_kind shape.entry) bound at) }
    ensures within { IfOk result (λ p. (at ≤ p) × (p ≤ bound.end)) }
{
    match shape {
        Shape::Byte => pass_fixed(input, 1, bound, at),
        Shape::Bool => pass_boolean(input, bound, at),
        Shape::I16 => pass_fixed(input, 2, bound, at),
        Shape::U16 => pass_fixed(input, 2, bound, at),
        Shape::I32 => pass_fixed(input, 4, bound, at),
        Shape::U32 => pass_fixed(input, 4, bound, at),
        Shape::I64 => pass_fixed(input, 8, bound, at),
        Shape::U64 => pass_fixed(input, 8, bound, at),
        Shape::Double => pass_fixed(input, 8, bound, at),
        Shape::Text => pass_text(input, bound, at),
        Shape::Path => pass_path(input, bound, at),
        Shape::Sig => pass_signature(input, bound, at),
        Shape::Array(element) => array(input, levels, element, bound, at),
        Shape::Struct(_) => Err(fault(at, 20)),
        Shape::Variant => variant(input, levels, bound, at),
        Shape::Dict(key, value) => dictionary(input, levels, key, value, bound, at),
    }
}

/// The place behind an array.
#[cycle(pass)]
#[tactic(auto, unfolding(atspi_marshal::specs::Reading::array_at))]
fn array(
    input: &Marshalled,
    levels: u8,
    element: TyRef,
    bound: Bound,
    at: usize,
) -> Result<usize, Fault>
    requires at { at ≤ bound.end }
    requires end { ReachTo input.now bound.end }
    ensures place { result
        ≡ after
        (array_at (levels == 0) (read (input_of input.now) (levels - 1)) (input_of input.now)
        (ref_kind element.entry) bound at) }
    ensures within { IfOk result (λ p. (at ≤ p) × (p ≤ bound.end)) }
{
    let place = array_front(input, element.alignment(), bound, at)?;
    if levels == 0 {
        return Err(fault(place, 20));
    }
    array_body(input, levels - 1, element, place)
}

/// The place behind the array whose length stands at a place.
#[cycle(pass)]
#[tactic(auto, unfolding(atspi_marshal::specs::Reading::array_body_at))]
#[inline(always)]
fn array_body(input: &Marshalled, levels: u8, element: TyRef, place: usize) -> Result<usize, Fault>
    requires { ReachTo input.now
        (aligned (alignment (ref_kind element)) (place + 4) + number_in (input_of input.now) w32 place) }
    ensures place { result
        ≡ after (array_body_at (read (input_of input.now) levels) (input_of input.now) (ref_kind element.entry) place) }
    ensures within { IfOk result
        (λ p. p ≡ aligned (alignment (ref_kind element.entry)) (place + 4) + number_in (input_of input.now) w32 place) }
{
    let len = u32_at(input, place) as usize;
    let align = element.alignment();
    let unpadded = place + 4;
    let inside = Bound {
        end: unpadded + (align - unpadded % align) % align + len,
        reason: 18,
    };
    let start = padding(input, align, inside, unpadded)?;
    let code = element.code();
    let size = number_size(code);
    if size != 0 {
        return numbers(size, len, inside.end);
    }
    match element.fields() {
        Some(types) => structures(input, levels, types, inside, len, start),
        None => elements(input, levels, element, inside, len, start),
    }
}

/// The elements of an array, from a place to its end.
#[cycle(pass)]
fn elements(
    input: &Marshalled,
    levels: u8,
    element: TyRef,
    inside: Bound,
    len: usize,
    start: usize,
) -> Result<usize, Fault>
    requires at { start ≤ inside.end }
    requires end { ReachTo input.now inside.end }
    ensures place { result
        ≡ up_to inside.end
        (elements_at (read (input_of input.now) levels (ref_kind element.entry) inside) inside.end len start) }
    ensures within { IfOk result (λ p. p ≡ inside.end) }
{
    let mut at = start;
    for _ in 0..len {
        if at == inside.end {
            return Ok(inside.end);
        }
        at = pass(input, levels, element, inside, at)?;
    }
    Ok(inside.end)
}

/// The same of structs, whose types are found once for all.
#[cycle(pass)]
fn structures(
    input: &Marshalled,
    levels: u8,
    types: TysRef,
    inside: Bound,
    len: usize,
    start: usize,
) -> Result<usize, Fault>
    requires at { start ≤ inside.end }
    requires end { ReachTo input.now inside.end }
    ensures place { result
        ≡ up_to inside.end
        (elements_at (read (input_of input.now) levels (structure (kinds_of (refs_kinds types.entry))) inside)
        inside.end len start) }
    ensures within { IfOk result (λ p. p ≡ inside.end) }
{
    let mut at = start;
    for _ in 0..len {
        if at == inside.end {
            return Ok(inside.end);
        }
        at = structure(input, levels, types, inside, at)?;
    }
    Ok(inside.end)
}

/// The place behind a dictionary.
#[cycle(pass)]
#[tactic(auto, unfolding(atspi_marshal::specs::Reading::dictionary_at))]
fn dictionary(
    input: &Marshalled,
    levels: u8,
    key: TyRef,
    value: TyRef,
    bound: Bound,
    at: usize,
) -> Result<usize, Fault>
    requires at { at ≤ bound.end }
    requires end { ReachTo input.now bound.end }
    ensures place { result
        ≡ after
        (dictionary_at (levels == 0) (read (input_of input.now) (levels - 1)) (input_of input.now)
        (ref_kind key.entry) (ref_kind value.entry) bound at) }
    ensures within { IfOk result (λ p. (at ≤ p) × (p ≤ bound.end)) }
{
    let place = array_front(input, 8, bound, at)?;
    if levels == 0 {
        return Err(fault(place, 20));
    }
    dictionary_body(input, levels - 1, key, value, place)
}

/// The place behind the dictionary whose length stands at a place.
#[cycle(pass)]
#[tactic(auto, unfolding(atspi_marshal::specs::Reading::array_body_at))]
fn dictionary_body(
    input: &Marshalled,
    levels: u8,
    key: TyRef,
    value: TyRef,
    place: usize,
) -> Result<usize, Fault>
    requires { ReachTo input.now (aligned 8 (place + 4) + number_in (input_of input.now) w32 place) }
    ensures place { result
        ≡ after
        (dictionary_body_at (read (input_of input.now) levels) (input_of input.now) (ref_kind key.entry)
        (ref_kind value.entry) place) }
    ensures within { IfOk result (λ p. p ≡ aligned 8 (place + 4) + number_in (input_of input.now) w32 place) }
{
    let len = u32_at(input, place) as usize;
    let unpadded = place + 4;
    let inside = Bound {
        end: unpadded + (8 - unpadded % 8) % 8 + len,
        reason: 18,
    };
    let start = padding(input, 8, inside, unpadded)?;
    entries(input, levels, key, value, inside, len, start)
}

/// The entries of a dictionary, from a place to its end.
#[cycle(pass)]
fn entries(
    input: &Marshalled,
    levels: u8,
    key: TyRef,
    value: TyRef,
    inside: Bound,
    len: usize,
    start: usize,
) -> Result<usize, Fault>
    requires at { start ≤ inside.end }
    requires end { ReachTo input.now inside.end }
    ensures place { result
        ≡ up_to inside.end
        (elements_at
        (read (input_of input.now) levels (entry_kind (ref_kind key.entry) (ref_kind value.entry)) inside)
        inside.end len start) }
    ensures within { IfOk result (λ p. p ≡ inside.end) }
{
    let mut at = start;
    for _ in 0..len {
        if at == inside.end {
            return Ok(inside.end);
        }
        at = entry(input, levels, key, value, inside, at)?;
    }
    Ok(inside.end)
}

/// The place behind an entry.
#[cycle(pass)]
#[inline(always)]
fn entry(
    input: &Marshalled,
    levels: u8,
    key: TyRef,
    value: TyRef,
    bound: Bound,
    at: usize,
) -> Result<usize, Fault>
    requires at { at ≤ bound.end }
    requires end { ReachTo input.now bound.end }
    ensures place { result
        ≡ after (read (input_of input.now) levels (entry_kind (ref_kind key.entry) (ref_kind value.entry)) bound at) }
    ensures within { IfOk result (λ p. (at ≤ p) × (p ≤ bound.end)) }
{
    pair(input, levels, key, value, bound, at)
}

/// The place behind a key and its value, as the fields of a struct.
#[cycle(pass)]
#[tactic(auto, unfolding(atspi_marshal::specs::Reading::structure_at))]
#[inline(always)]
fn pair(
    input: &Marshalled,
    levels: u8,
    key: TyRef,
    value: TyRef,
    bound: Bound,
    at: usize,
) -> Result<usize, Fault>
    requires at { at ≤ bound.end }
    requires end { ReachTo input.now bound.end }
    ensures place { result
        ≡ after
        (structure_at (levels == 0) (read (input_of input.now) (levels - 1)) (input_of input.now)
        (ref_kind key.entry ∷ ref_kind value.entry ∷ []) bound at) }
    ensures within { IfOk result (λ p. (at ≤ p) × (p ≤ bound.end)) }
{
    let place = padding(input, 8, bound, at)?;
    if levels == 0 {
        return Err(too_deep(input, first_item(key), bound, place));
    }
    let between = pass(input, levels - 1, key, bound, place)?;
    pass(input, levels - 1, value, bound, between)
}

/// The place behind a struct.
#[cycle(pass)]
#[tactic(auto, unfolding(atspi_marshal::specs::Reading::structure_at))]
#[inline(always)]
fn structure(
    input: &Marshalled,
    levels: u8,
    types: TysRef,
    bound: Bound,
    at: usize,
) -> Result<usize, Fault>
    requires at { at ≤ bound.end }
    requires end { ReachTo input.now bound.end }
    ensures place { result
        ≡ after
        (structure_at (levels == 0) (read (input_of input.now) (levels - 1)) (input_of input.now)
        (refs_kinds types.entry) bound at) }
    ensures within { IfOk result (λ p. (at ≤ p) × (p ≤ bound.end)) }
{
    let place = padding(input, 8, bound, at)?;
    if levels == 0 {
        let mut rest = types;
        return match rest.next() {
            Some(first) => Err(too_deep(input, first_item(first), bound, place)),
            None => Err(fault(place, 20)),
        };
    }
    fields(input, levels - 1, types, bound, place)
}

/// Why a struct at a place is refused that is too deep: what its first inner item tells there for a lesser reason, or
/// the depth.
#[cycle(pass)]
#[cold]
fn too_deep(input: &Marshalled, first: TyRef, bound: Bound, place: usize) -> Fault
    requires at { place ≤ bound.end }
    requires end { ReachTo input.now bound.end }
    ensures { Err result
        ≡ deep_at place
        (single_at true (read (input_of input.now) 0) (input_of input.now) (ref_kind first.entry) bound place) }
{
    match single(input, 0, first.shape(), bound, place) {
        Err(wrong) => {
            if wrong.reason < 20 && wrong.place as usize == place {
                return wrong;
            }
            fault(place, 20)
        }
        Ok(_) => fault(place, 20),
    }
}

/// The place behind values of the types, one after the other.
#[cycle(pass)]
#[inline(always)]
pub fn fields(
    input: &Marshalled,
    levels: u8,
    types: TysRef,
    bound: Bound,
    start: usize,
) -> Result<usize, Fault>
    requires at { start ≤ bound.end }
    requires end { ReachTo input.now bound.end }
    ensures place { result ≡ after (read_all (input_of input.now) levels (refs_kinds types.entry) bound start) }
    ensures within { IfOk result (λ p. (start ≤ p) × (p ≤ bound.end)) }
{
    let mut rest = types;
    let mut at = start;
    'rest: while let Some(ty) = rest.next() {
        at = pass(input, levels, ty, bound, at)?;
    }
    Ok(at)
}

/// The place behind a variant.
#[cycle(pass)]
#[tactic(auto, unfolding(atspi_marshal::specs::Reading::short_at))]
fn variant(input: &Marshalled, levels: u8, bound: Bound, at: usize) -> Result<usize, Fault>
    requires at { at ≤ bound.end }
    requires end { ReachTo input.now bound.end }
    ensures place { result
        ≡ after
        (short_at
        (variant_body_at (levels == 0) (read (input_of input.now) (levels - 1)) (input_of input.now) bound)
        (input_of input.now) bound at) }
    ensures within { IfOk result (λ p. (at ≤ p) × (p ≤ bound.end)) }
{
    let place = short(input, bound, at)?;
    variant_body(input, levels, bound, place)
}

/// The place behind the variant whose signature's length stands at a place.
#[cycle(pass)]
#[tactic(auto, unfolding(atspi_marshal::specs::Reading::variant_body_at))]
#[inline(always)]
fn variant_body(input: &Marshalled, levels: u8, bound: Bound, place: usize) -> Result<usize, Fault>
    requires at { place + 2 + byte_in (input_of input.now) place ≤ bound.end }
    requires end { ReachTo input.now bound.end }
    ensures place { result
        ≡ after
        (variant_body_at (levels == 0) (read (input_of input.now) (levels - 1)) (input_of input.now) bound place) }
    ensures within { IfOk result (λ p. (place ≤ p) × (p ≤ bound.end)) }
{
    match type_at(input, place) {
        Ok(Some(ty)) => inner(input, levels, ty, bound, place),
        Ok(None) => Err(fault(place, 16)),
        Err(wrong) => {
            if levels == 0 {
                return Err(fault(place, 20));
            }
            Err(fault(place + 1 + wrong.place as usize, wrong.reason))
        }
    }
}

/// The place behind the variant of a type whose signature's length stands at a place.
#[cycle(pass)]
#[tactic(auto, unfolding(atspi_marshal::specs::Reading::inner_at))]
#[inline(always)]
fn inner(
    input: &Marshalled,
    levels: u8,
    ty: TyRef,
    bound: Bound,
    place: usize,
) -> Result<usize, Fault>
    requires at { place + 2 + byte_in (input_of input.now) place ≤ bound.end }
    requires end { ReachTo input.now bound.end }
    ensures place { result
        ≡ after
        (inner_at (levels == 0) (read (input_of input.now) (levels - 1)) (input_of input.now) bound place
        (ref_kind ty.entry)) }
    ensures within { IfOk result (λ p. (place ≤ p) × (p ≤ bound.end)) }
{
    let len = byte_at(input, place) as usize;
    if levels == 0 {
        return Err(fault(place, 20));
    }
    if byte_at(input, place + 1 + len) != 0 {
        return Err(fault(place + 1 + len, 12));
    }
    pass(input, levels - 1, ty, bound, place + 2 + len)
}
