//! Padding, and items that are numbers and booleans.

ghost use Rattle.std.specs.Prelude.{◌≡◌, ◌<◌, ◌≤◌, ◌+◌, length, IfOk};
ghost use Rattle.std.specs.Int.{w16, w32, w64};
ghost use Rattle.atspi_types.specs.Kinds.{byte, i16, u16, i32, u32, i64, u64, double};
ghost use Rattle.atspi_types.specs.DataView.{data_of};
ghost use Rattle.atspi_marshal.specs.Input.{Input, number_in, aligned, ReachTo};
ghost use Rattle.atspi_marshal.specs.Reading.{input_of, Gives, zeros_in_front, passing_reason, padding_at, room_at};
ghost use Rattle.atspi_marshal.specs.Reading.{number_at, boolean_at};

use crate::input::{
    Bound, Marshalled, bad, byte_at, i16_at, i32_at, i64_at, u16_at, u32_at, u64_at,
};
use atspi_types::{ReadFault, Value};

/// How many zero bytes stand in front.
fn zeros_before(bytes: &[u8]) -> usize
    ensures { result ≡ zeros_in_front bytes.now }
{
    for i in 0..bytes.len() {
        if bytes[i] != 0 {
            return i;
        }
    }
    bytes.len()
}

/// The place behind the padding up to a multiple of `align`.
#[tactic(auto, unfolding(crate::specs::Reading::padding_at))]
pub fn padding(
    input: &Marshalled,
    align: usize,
    bound: Bound,
    at: usize,
) -> Result<usize, ReadFault>
    requires align { (0 < align) × (align ≤ 8) }
    requires at { at ≤ bound.end }
    requires end { ReachTo input.now bound.end }
    ensures place { Gives (λ p. p) result (padding_at (input_of input.now) align bound at) }
    ensures aligned { IfOk result (λ p. p ≡ aligned align at) }
    ensures within { IfOk result (λ p. (at ≤ p) × (p ≤ bound.end)) }
{
    let place = at + (align - at % align) % align;
    if bound.end < place {
        return Err(bad(at, passing_reason(input, bound, at)));
    }
    let zeros = zeros_before(&input.bytes[at..place]);
    if zeros < place - at {
        return Err(bad(at + zeros, 10));
    }
    Ok(place)
}

/// The reason of padding that passes the end, unless its first byte is there and not 0.
fn passing_reason(input: &Marshalled, bound: Bound, at: usize) -> u8
    requires { bound.end ≤ length input.now.bytes.now }
    ensures { result ≡ passing_reason (input_of input.now) bound at }
{
    if at < bound.end && input.bytes[at] != 0 {
        10
    } else {
        bound.reason
    }
}

/// The place of an item of `len` bytes, behind its padding.
#[tactic(auto, unfolding(crate::specs::Reading::room_at))]
pub fn room(
    input: &Marshalled,
    align: usize,
    len: usize,
    bound: Bound,
    at: usize,
) -> Result<usize, ReadFault>
    requires align { (0 < align) × (align ≤ 8) × (len ≤ 8) }
    requires at { at ≤ bound.end }
    requires end { ReachTo input.now bound.end }
    ensures place { Gives (λ p. p) result (room_at (input_of input.now) align len bound at) }
    ensures within { IfOk result (λ p. (at ≤ p) × (p + len ≤ bound.end)) }
{
    let place = padding(input, align, bound, at)?;
    if bound.end < place + len {
        return Err(bad(place, bound.reason));
    }
    Ok(place)
}

/// A byte.
#[tactic(auto, unfolding(crate::specs::Reading::number_at))]
pub fn byte_value(input: &Marshalled, bound: Bound, at: usize) -> Result<(Value, usize), ReadFault>
    requires at { at ≤ bound.end }
    requires end { ReachTo input.now bound.end }
    ensures read { Gives (λ x. (data_of x.0, x.1)) result (number_at (input_of input.now) byte bound at) }
    ensures within { IfOk result (λ x. (at < x.1) × (x.1 ≤ bound.end)) }
{
    let place = room(input, 1, 1, bound, at)?;
    Ok((Value::Byte(byte_at(input, place)), place + 1))
}

/// A signed number of 16 bits.
#[tactic(auto, unfolding(crate::specs::Reading::number_at))]
pub fn i16_value(input: &Marshalled, bound: Bound, at: usize) -> Result<(Value, usize), ReadFault>
    requires at { at ≤ bound.end }
    requires end { ReachTo input.now bound.end }
    ensures read { Gives (λ x. (data_of x.0, x.1)) result (number_at (input_of input.now) i16 bound at) }
    ensures within { IfOk result (λ x. (at < x.1) × (x.1 ≤ bound.end)) }
{
    let place = room(input, 2, 2, bound, at)?;
    Ok((Value::I16(i16_at(input, place)), place + 2))
}

/// A number of 16 bits.
#[tactic(auto, unfolding(crate::specs::Reading::number_at))]
pub fn u16_value(input: &Marshalled, bound: Bound, at: usize) -> Result<(Value, usize), ReadFault>
    requires at { at ≤ bound.end }
    requires end { ReachTo input.now bound.end }
    ensures read { Gives (λ x. (data_of x.0, x.1)) result (number_at (input_of input.now) u16 bound at) }
    ensures within { IfOk result (λ x. (at < x.1) × (x.1 ≤ bound.end)) }
{
    let place = room(input, 2, 2, bound, at)?;
    Ok((Value::U16(u16_at(input, place)), place + 2))
}

/// A signed number of 32 bits.
#[tactic(auto, unfolding(crate::specs::Reading::number_at))]
pub fn i32_value(input: &Marshalled, bound: Bound, at: usize) -> Result<(Value, usize), ReadFault>
    requires at { at ≤ bound.end }
    requires end { ReachTo input.now bound.end }
    ensures read { Gives (λ x. (data_of x.0, x.1)) result (number_at (input_of input.now) i32 bound at) }
    ensures within { IfOk result (λ x. (at < x.1) × (x.1 ≤ bound.end)) }
{
    let place = room(input, 4, 4, bound, at)?;
    Ok((Value::I32(i32_at(input, place)), place + 4))
}

/// A number of 32 bits.
#[tactic(auto, unfolding(crate::specs::Reading::number_at))]
pub fn u32_value(input: &Marshalled, bound: Bound, at: usize) -> Result<(Value, usize), ReadFault>
    requires at { at ≤ bound.end }
    requires end { ReachTo input.now bound.end }
    ensures read { Gives (λ x. (data_of x.0, x.1)) result (number_at (input_of input.now) u32 bound at) }
    ensures within { IfOk result (λ x. (at < x.1) × (x.1 ≤ bound.end)) }
{
    let place = room(input, 4, 4, bound, at)?;
    Ok((Value::U32(u32_at(input, place)), place + 4))
}

/// A signed number of 64 bits.
#[tactic(auto, unfolding(crate::specs::Reading::number_at))]
pub fn i64_value(input: &Marshalled, bound: Bound, at: usize) -> Result<(Value, usize), ReadFault>
    requires at { at ≤ bound.end }
    requires end { ReachTo input.now bound.end }
    ensures read { Gives (λ x. (data_of x.0, x.1)) result (number_at (input_of input.now) i64 bound at) }
    ensures within { IfOk result (λ x. (at < x.1) × (x.1 ≤ bound.end)) }
{
    let place = room(input, 8, 8, bound, at)?;
    Ok((Value::I64(i64_at(input, place)), place + 8))
}

/// A number of 64 bits.
#[tactic(auto, unfolding(crate::specs::Reading::number_at))]
pub fn u64_value(input: &Marshalled, bound: Bound, at: usize) -> Result<(Value, usize), ReadFault>
    requires at { at ≤ bound.end }
    requires end { ReachTo input.now bound.end }
    ensures read { Gives (λ x. (data_of x.0, x.1)) result (number_at (input_of input.now) u64 bound at) }
    ensures within { IfOk result (λ x. (at < x.1) × (x.1 ≤ bound.end)) }
{
    let place = room(input, 8, 8, bound, at)?;
    Ok((Value::U64(u64_at(input, place)), place + 8))
}

/// A double.
#[tactic(auto, unfolding(crate::specs::Reading::number_at))]
pub fn double_value(
    input: &Marshalled,
    bound: Bound,
    at: usize,
) -> Result<(Value, usize), ReadFault>
    requires at { at ≤ bound.end }
    requires end { ReachTo input.now bound.end }
    ensures read { Gives (λ x. (data_of x.0, x.1)) result (number_at (input_of input.now) double bound at) }
    ensures within { IfOk result (λ x. (at < x.1) × (x.1 ≤ bound.end)) }
{
    let place = room(input, 8, 8, bound, at)?;
    Ok((Value::Double(u64_at(input, place)), place + 8))
}

/// A boolean.
#[tactic(auto, unfolding(crate::specs::Reading::boolean_at))]
pub fn boolean_value(
    input: &Marshalled,
    bound: Bound,
    at: usize,
) -> Result<(Value, usize), ReadFault>
    requires at { at ≤ bound.end }
    requires end { ReachTo input.now bound.end }
    ensures read { Gives (λ x. (data_of x.0, x.1)) result (boolean_at (input_of input.now) bound at) }
    ensures within { IfOk result (λ x. (at < x.1) × (x.1 ≤ bound.end)) }
{
    let place = room(input, 4, 4, bound, at)?;
    let number = u32_at(input, place);
    if 1 < number {
        return Err(bad(place, 11));
    }
    Ok((Value::Bool(number == 1), place + 4))
}
