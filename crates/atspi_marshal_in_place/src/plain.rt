//! Padding, numbers and booleans that are passed.

ghost use Rattle.std.specs.Prelude.{◌≡◌, ◌<◌, ◌≤◌, ◌+◌, ◌==◌, length, IfOk};
ghost use Rattle.atspi_marshal.specs.Input.{aligned, ReachTo};
ghost use Rattle.atspi_marshal.specs.Reading.{input_of, zeros_in_front, passing_reason, padding_at, room_at};
ghost use Rattle.atspi_marshal.specs.Reading.{boolean_at};
ghost use Rattle.atspi_marshal_in_place.specs.Passing.{after, fixed_at};

use atspi_marshal::{Bound, Marshalled, u32_at};
use atspi_types::Fault;

/// A fault at a place.
pub fn fault(place: usize, reason: u8) -> Fault
    requires { place < 4294967296 }
    ensures { result ≡ record { place = place; reason = reason } }
{
    Fault {
        place: place as u32,
        reason,
    }
}

/// The next multiple of `align`. Of a power of two that is known the machine only adds and cuts off the low bits.
#[inline(always)]
pub fn align_up(align: usize, at: usize) -> usize
    requires { (0 < align) × (align ≤ 8) × (at < 4294967296) }
    ensures { result ≡ aligned align at }
{
    let last = at + (align - 1);
    last - last % align
}

/// How many zero bytes stand in front.
#[inline(always)]
fn zeros_before(bytes: &[u8]) -> usize
    ensures { result ≡ zeros_in_front bytes.now }
{
    for i in 0..bytes.len() {
        if bytes[i] != 0 {
            return i;
        }
    }
    bytes.len()
}

/// The reason of padding that passes the end, unless its first byte is there and not 0.
#[cold]
fn reason_of_passing(input: &Marshalled, bound: Bound, at: usize) -> u8
    requires { bound.end ≤ length input.now.bytes.now }
    ensures { result ≡ passing_reason (input_of input.now) bound at }
{
    if at < bound.end && input.bytes[at] != 0 {
        10
    } else {
        bound.reason
    }
}

/// Whether the bytes are zeros. Up to four, as nearly all padding is, are looked at together; four, which stand before
/// numbers of 64 bits, are asked for first.
#[inline(always)]
fn are_zeros(bytes: &[u8]) -> bool
    ensures { result ≡ (zeros_in_front bytes.now == length bytes.now) }
{
    match bytes {
        [a, b, c, d] => (*a == 0) & (*b == 0) & (*c == 0) & (*d == 0),
        [a] => *a == 0,
        [a, b] => (*a == 0) & (*b == 0),
        [a, b, c] => (*a == 0) & (*b == 0) & (*c == 0),
        _ => zeros_before(bytes) == bytes.len(),
    }
}

/// The place behind padding that is looked at byte by byte.
#[cold]
#[tactic(auto, unfolding(atspi_marshal::specs::Reading::padding_at))]
fn counted(input: &Marshalled, align: usize, bound: Bound, at: usize) -> Result<usize, Fault>
    requires align { (0 < align) × (align ≤ 8) }
    requires at { at ≤ bound.end }
    requires end { ReachTo input.now bound.end }
    ensures place { result ≡ padding_at (input_of input.now) align bound at }
    ensures within { IfOk result (λ p. (p ≡ aligned align at) × (at ≤ p) × (p ≤ bound.end)) }
{
    let place = at + (align - at % align) % align;
    if bound.end < place {
        return Err(fault(at, reason_of_passing(input, bound, at)));
    }
    let zeros = zeros_before(&input.bytes[at..place]);
    if zeros < place - at {
        return Err(fault(at + zeros, 10));
    }
    Ok(place)
}

/// The place behind padding that is zeros, as nearly all is; where it is not, they are counted.
#[inline(always)]
fn looked_at(input: &Marshalled, align: usize, bound: Bound, at: usize) -> Result<usize, Fault>
    requires align { (0 < align) × (align ≤ 8) }
    requires at { at ≤ bound.end }
    requires end { ReachTo input.now bound.end }
    ensures place { result ≡ padding_at (input_of input.now) align bound at }
    ensures within { IfOk result (λ p. (p ≡ aligned align at) × (at ≤ p) × (p ≤ bound.end)) }
{
    let place = at + (align - at % align) % align;
    if place <= bound.end {
        if are_zeros(&input.bytes[at..place]) {
            return Ok(place);
        }
    }
    // handed on by value: what a call writes through memory would keep the place above there too
    let behind = counted(input, align, bound, at)?;
    Ok(behind)
}

/// The place behind the padding up to a multiple of `align`.
#[inline(always)]
pub fn padding(input: &Marshalled, align: usize, bound: Bound, at: usize) -> Result<usize, Fault>
    requires align { (0 < align) × (align ≤ 8) }
    requires at { at ≤ bound.end }
    requires end { ReachTo input.now bound.end }
    ensures place { result ≡ padding_at (input_of input.now) align bound at }
    ensures within { IfOk result (λ p. (p ≡ aligned align at) × (at ≤ p) × (p ≤ bound.end)) }
{
    if at % align == 0 {
        return Ok(at);
    }
    looked_at(input, align, bound, at)
}

/// The place of an item of `len` bytes, behind its padding.
#[inline(always)]
#[tactic(auto, unfolding(atspi_marshal::specs::Reading::room_at))]
pub fn room(
    input: &Marshalled,
    align: usize,
    len: usize,
    bound: Bound,
    at: usize,
) -> Result<usize, Fault>
    requires align { (0 < align) × (align ≤ 8) × (len ≤ 8) }
    requires at { at ≤ bound.end }
    requires end { ReachTo input.now bound.end }
    ensures place { result ≡ room_at (input_of input.now) align len bound at }
    ensures within { IfOk result (λ p. (at ≤ p) × (p + len ≤ bound.end)) }
{
    let place = padding(input, align, bound, at)?;
    if bound.end < place + len {
        return Err(fault(place, bound.reason));
    }
    Ok(place)
}

/// The place behind an item of `len` bytes that any bytes may be.
#[inline(always)]
#[tactic(auto, unfolding(crate::specs::Passing::fixed_at))]
pub fn pass_fixed(input: &Marshalled, len: usize, bound: Bound, at: usize) -> Result<usize, Fault>
    requires len { (0 < len) × (len ≤ 8) }
    requires at { at ≤ bound.end }
    requires end { ReachTo input.now bound.end }
    ensures place { result ≡ fixed_at (input_of input.now) len bound at }
    ensures within { IfOk result (λ p. (at < p) × (p ≤ bound.end)) }
{
    let place = room(input, len, len, bound, at)?;
    Ok(place + len)
}

/// The place behind a number of `size` bytes. Each size has an arm of its own, so that the machine divides by a
/// constant.
#[inline(always)]
pub fn pass_number(input: &Marshalled, size: usize, bound: Bound, at: usize) -> Result<usize, Fault>
    requires size { (0 < size) × (size ≤ 8) }
    requires at { at ≤ bound.end }
    requires end { ReachTo input.now bound.end }
    ensures place { result ≡ fixed_at (input_of input.now) size bound at }
    ensures within { IfOk result (λ p. (at < p) × (p ≤ bound.end)) }
{
    match size {
        4 => pass_fixed(input, 4, bound, at),
        8 => pass_fixed(input, 8, bound, at),
        1 => pass_fixed(input, 1, bound, at),
        _ => pass_fixed(input, size, bound, at),
    }
}

/// The place behind a boolean.
#[tactic(auto, unfolding(atspi_marshal::specs::Reading::boolean_at))]
pub fn pass_boolean(input: &Marshalled, bound: Bound, at: usize) -> Result<usize, Fault>
    requires at { at ≤ bound.end }
    requires end { ReachTo input.now bound.end }
    ensures place { result ≡ after (boolean_at (input_of input.now) bound at) }
    ensures within { IfOk result (λ p. (at < p) × (p ≤ bound.end)) }
{
    let place = room(input, 4, 4, bound, at)?;
    if 1 < u32_at(input, place) {
        return Err(fault(place, 11));
    }
    Ok(place + 4)
}
