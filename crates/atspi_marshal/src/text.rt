//! Texts, paths and signatures.

ghost use Rattle.std.specs.Prelude.{◌≡◌, ◌<◌, ◌≤◌, ◌+◌, IfOk};
ghost use Rattle.std.specs.Int.{w32};
ghost use Rattle.atspi_types.specs.DataView.{data_of};
ghost use Rattle.atspi_types.specs.SignatureView.{signature_types};
ghost use Rattle.atspi_types.specs.SignatureReading.{signature_in};
ghost use Rattle.atspi_marshal.specs.Faults.{short_in};
ghost use Rattle.atspi_marshal.specs.Input.{number_in, byte_in, ReachTo};
ghost use Rattle.atspi_marshal.specs.Reading.{input_of, Gives, FaultsBy, long_place, short_place, long_at, short_at};
ghost use Rattle.atspi_marshal.specs.Reading.{text_body_at, path_body_at, signature_body_at};

use crate::input::{Bound, Marshalled, bad, byte_at, slice, u32_at};
use crate::plain::room;
use atspi_base::valid_names::{NameFault, Path};
use atspi_base::{Text, TextFault};
use atspi_types::{ReadFault, Signature, Value};
use std::alloc::Global;

/// The place of a length of 32 bits whose bytes, and the zero byte behind them, are inside the bound.
#[tactic(auto, unfolding(crate::specs::Reading::long_place))]
pub fn long(input: &Marshalled, bound: Bound, at: usize) -> Result<usize, ReadFault>
    requires at { at ≤ bound.end }
    requires end { ReachTo input.now bound.end }
    ensures place { Gives (λ p. p) result (long_place (input_of input.now) bound at) }
    ensures within { IfOk result (λ p. (at ≤ p) × (p + 5 + number_in (input_of input.now) w32 p ≤ bound.end)) }
{
    let place = room(input, 4, 4, bound, at)?;
    let len = u32_at(input, place) as usize;
    if bound.end < place + 5 + len {
        return Err(bad(place, bound.reason));
    }
    Ok(place)
}

/// The same of a length of 8 bits.
#[tactic(auto, unfolding(crate::specs::Reading::short_place))]
pub fn short(input: &Marshalled, bound: Bound, at: usize) -> Result<usize, ReadFault>
    requires at { at ≤ bound.end }
    requires end { ReachTo input.now bound.end }
    ensures place { Gives (λ p. p) result (short_place (input_of input.now) bound at) }
    ensures within { IfOk result (λ p. (at ≤ p) × (p + 2 + byte_in (input_of input.now) p ≤ bound.end)) }
{
    let place = room(input, 1, 1, bound, at)?;
    let len = byte_at(input, place) as usize;
    if bound.end < place + 2 + len {
        return Err(bad(place, bound.reason));
    }
    Ok(place)
}

/// The text whose length stands at a place.
#[tactic(auto, unfolding(crate::specs::Reading::text_body_at))]
fn text_body(alloc: Global, input: &Marshalled, place: usize) -> Result<(Value, usize), ReadFault>
    requires { ReachTo input.now (place + 5 + number_in (input_of input.now) w32 place) }
    ensures read { Gives (λ x. (data_of x.0, x.1)) result (text_body_at (input_of input.now) place) }
    ensures within { IfOk result (λ x. x.1 ≡ place + 5 + number_in (input_of input.now) w32 place) }
{
    let len = u32_at(input, place) as usize;
    let start = place + 4;
    let end = start + len;
    match Text::read(alloc, slice(input, start, len)) {
        Ok(text) => {
            if byte_at(input, end) != 0 {
                return Err(bad(end, 12));
            }
            Ok((Value::Text(text), end + 1))
        }
        Err(TextFault::Zero(zero)) => Err(bad(start + zero as usize, 13)),
        Err(TextFault::Utf8(first)) => Err(bad(start + first as usize, 14)),
        Err(TextFault::NoMemory) => Err(ReadFault::NoMemory),
    }
}

/// A text.
#[tactic(auto, unfolding(crate::specs::Reading::long_at))]
pub fn text_value(
    alloc: Global,
    input: &Marshalled,
    bound: Bound,
    at: usize,
) -> Result<(Value, usize), ReadFault>
    requires at { at ≤ bound.end }
    requires end { ReachTo input.now bound.end }
    ensures read { Gives (λ x. (data_of x.0, x.1)) result
        (long_at (text_body_at (input_of input.now)) (input_of input.now) bound at) }
    ensures within { IfOk result (λ x. (at < x.1) × (x.1 ≤ bound.end)) }
{
    let place = long(input, bound, at)?;
    text_body(alloc, input, place)
}

/// The path whose length stands at a place.
#[tactic(auto, unfolding(crate::specs::Reading::path_body_at))]
fn path_body(alloc: Global, input: &Marshalled, place: usize) -> Result<(Value, usize), ReadFault>
    requires { ReachTo input.now (place + 5 + number_in (input_of input.now) w32 place) }
    ensures read { Gives (λ x. (data_of x.0, x.1)) result (path_body_at (input_of input.now) place) }
    ensures within { IfOk result (λ x. x.1 ≡ place + 5 + number_in (input_of input.now) w32 place) }
{
    let len = u32_at(input, place) as usize;
    let start = place + 4;
    let end = start + len;
    match Path::read(alloc, slice(input, start, len)) {
        Ok(path) => {
            if byte_at(input, end) != 0 {
                return Err(bad(end, 12));
            }
            Ok((Value::Path(path), end + 1))
        }
        Err(NameFault::Form) => Err(bad(place, 15)),
        Err(NameFault::NoMemory) => Err(ReadFault::NoMemory),
    }
}

/// A path.
#[tactic(auto, unfolding(crate::specs::Reading::long_at))]
pub fn path_value(
    alloc: Global,
    input: &Marshalled,
    bound: Bound,
    at: usize,
) -> Result<(Value, usize), ReadFault>
    requires at { at ≤ bound.end }
    requires end { ReachTo input.now bound.end }
    ensures read { Gives (λ x. (data_of x.0, x.1)) result
        (long_at (path_body_at (input_of input.now)) (input_of input.now) bound at) }
    ensures within { IfOk result (λ x. (at < x.1) × (x.1 ≤ bound.end)) }
{
    let place = long(input, bound, at)?;
    path_body(alloc, input, place)
}

/// The types of the signature whose length stands at a place. The place of a fault counts from its first byte.
pub fn signature_at(alloc: Global, input: &Marshalled, place: usize) -> Result<Signature, ReadFault>
    requires { ReachTo input.now (place + 2 + byte_in (input_of input.now) place) }
    ensures read { Gives signature_types result (signature_in (short_in (input_of input.now) place)) }
    ensures place { FaultsBy result (byte_in (input_of input.now) place) }
{
    let len = byte_at(input, place) as usize;
    Signature::parse(alloc, slice(input, place + 1, len))
}

/// The signature whose length stands at a place.
#[tactic(auto, unfolding(crate::specs::Reading::signature_body_at))]
fn signature_body(
    alloc: Global,
    input: &Marshalled,
    place: usize,
) -> Result<(Value, usize), ReadFault>
    requires { ReachTo input.now (place + 2 + byte_in (input_of input.now) place) }
    ensures read { Gives (λ x. (data_of x.0, x.1)) result (signature_body_at (input_of input.now) place) }
    ensures within { IfOk result (λ x. x.1 ≡ place + 2 + byte_in (input_of input.now) place) }
{
    let start = place + 1;
    let end = start + byte_at(input, place) as usize;
    match signature_at(alloc, input, place) {
        Ok(signature) => {
            if byte_at(input, end) != 0 {
                return Err(bad(end, 12));
            }
            Ok((Value::Sig(signature), end + 1))
        }
        Err(ReadFault::Bad(fault)) => Err(bad(start + fault.place as usize, fault.reason)),
        Err(ReadFault::NoMemory) => Err(ReadFault::NoMemory),
    }
}

/// A signature.
#[tactic(auto, unfolding(crate::specs::Reading::short_at))]
pub fn signature_value(
    alloc: Global,
    input: &Marshalled,
    bound: Bound,
    at: usize,
) -> Result<(Value, usize), ReadFault>
    requires at { at ≤ bound.end }
    requires end { ReachTo input.now bound.end }
    ensures read { Gives (λ x. (data_of x.0, x.1)) result
        (short_at (signature_body_at (input_of input.now)) (input_of input.now) bound at) }
    ensures within { IfOk result (λ x. (at < x.1) × (x.1 ≤ bound.end)) }
{
    let place = short(input, bound, at)?;
    signature_body(alloc, input, place)
}
