//! Names of a header: bytes that are of a rule, lent as text.

ghost use Rattle.std.specs.Prelude.{◌≡◌, ◌<◌, ◌≤◌, ◌+◌, IfOk};
ghost use Rattle.std.specs.Int.{w32};
ghost use Rattle.atspi_marshal.specs.Input.{number_in, ReachTo};
ghost use Rattle.atspi_marshal.specs.Reading.{input_of};
ghost use Rattle.atspi_message.specs.inner.Reading.{is_name, name_data, name_body_at, name_at};
ghost use Rattle.atspi_message_in_place.specs.inner.Codes.{name_code};
ghost use Rattle.atspi_message_in_place.specs.View.{Reads};

use crate::code::{NameCode, reason_of};
use atspi_base::valid_names::{is_bus_name, is_interface, is_member, is_path};
use atspi_marshal::{Bound, Marshalled, byte_at, u32_at};
use atspi_marshal_in_place::{fault, long, slice};
use atspi_types::Fault;

/// Whether the bytes are of the field's rule.
#[inline(always)]
fn is_name(code: NameCode, bytes: &[u8]) -> bool
    ensures { result ≡ is_name (name_code code) bytes.now }
{
    match code {
        NameCode::Path => is_path(bytes),
        NameCode::Interface => is_interface(bytes),
        NameCode::Member => is_member(bytes),
        NameCode::Error => is_interface(bytes),
        NameCode::Destination => is_bus_name(bytes),
        NameCode::Sender => is_bus_name(bytes),
    }
}

/// The name whose length stands at a place, and the place behind it.
#[tactic(auto, unfolding(atspi_message::specs::inner::Reading::name_body_at))]
#[inline(always)]
fn name_body<'a>(
    input: &Marshalled<'a>,
    code: NameCode,
    place: usize,
) -> Result<(&'a str, usize), Fault>
    requires { ReachTo input.now (place + 5 + number_in (input_of input.now) w32 place) }
    ensures name { Reads (λ x. (name_data (name_code code) x.0.now, x.1)) result
        (name_body_at (name_code code) (input_of input.now) place) }
    ensures within { IfOk result (λ x. x.1 ≡ place + 5 + number_in (input_of input.now) w32 place) }
{
    let len = u32_at(input, place) as usize;
    let bytes = slice(input.bytes, place + 4, len);
    if !is_name(code, bytes) {
        return Err(fault(place, reason_of(code)));
    }
    let end = place + 4 + len;
    if byte_at(input, end) != 0 {
        return Err(fault(end, 12));
    }
    // SAFETY: a name of any rule is ASCII.
    let text = unsafe { std::str::from_utf8_unchecked(bytes) };
    Ok((text, end + 1))
}

/// A name, and the place behind it.
#[tactic(auto, unfolding(atspi_message::specs::inner::Reading::name_at, atspi_marshal::specs::Reading::long_at))]
#[inline(always)]
pub fn name<'a>(
    input: &Marshalled<'a>,
    code: NameCode,
    bound: Bound,
    at: usize,
) -> Result<(&'a str, usize), Fault>
    requires at { at ≤ bound.end }
    requires end { ReachTo input.now bound.end }
    ensures name { Reads (λ x. (name_data (name_code code) x.0.now, x.1)) result
        (name_at (name_code code) (input_of input.now) bound at) }
    ensures within { IfOk result (λ x. (at < x.1) × (x.1 ≤ bound.end)) }
{
    let place = long(input, bound, at)?;
    name_body(input, code, place)
}
