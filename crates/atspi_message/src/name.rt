//! Names of a header: texts that are read in their rule.

ghost use Rattle.std.specs.Prelude.{◌≡◌, ◌<◌, ◌≤◌, ◌+◌, IfOk};
ghost use Rattle.std.specs.Int.{w32};
ghost use Rattle.atspi_types.specs.Data.{path_data, text_data};
ghost use Rattle.atspi_marshal.specs.Input.{number_in, ReachTo};
ghost use Rattle.atspi_marshal.specs.Reading.{input_of, Gives};
ghost use Rattle.atspi_message.specs.inner.Reading.{name_body_at, name_at};
ghost use Rattle.atspi_message.specs.declared.code.Code.TheVariants.{Path as PathCode, Interface as InterfaceCode};
ghost use Rattle.atspi_message.specs.declared.code.Code.TheVariants.{Member as MemberCode, Error as ErrorCode};
ghost use Rattle.atspi_message.specs.declared.code.Code.TheVariants.{Destination as DestinationCode};
ghost use Rattle.atspi_message.specs.declared.code.Code.TheVariants.{Sender as SenderCode};

use atspi_base::valid_names::{BusName, Interface, Member, NameFault, Path};
use atspi_marshal::{Bound, Marshalled, bad, byte_at, long, slice, u32_at};
use atspi_types::ReadFault;
use std::alloc::Global;

/// A path whose length stands at a place.
#[tactic(auto, unfolding(crate::specs::inner::Reading::name_body_at))]
fn path_body(alloc: Global, input: &Marshalled, place: usize) -> Result<(Path, usize), ReadFault>
    requires { ReachTo input.now (place + 5 + number_in (input_of input.now) w32 place) }
    ensures path { Gives (λ x. (path_data x.0, x.1)) result (name_body_at PathCode (input_of input.now) place) }
    ensures within { IfOk result (λ x. x.1 ≡ place + 5 + number_in (input_of input.now) w32 place) }
{
    let len = u32_at(input, place) as usize;
    let end = place + 4 + len;
    match Path::read(alloc, slice(input, place + 4, len)) {
        Ok(name) => {
            if byte_at(input, end) != 0 {
                return Err(bad(end, 12));
            }
            Ok((name, end + 1))
        }
        Err(NameFault::Form) => Err(bad(place, 15)),
        Err(NameFault::NoMemory) => Err(ReadFault::NoMemory),
    }
}

/// A path, and the place behind it.
#[tactic(auto, unfolding(crate::specs::inner::Reading::name_at, atspi_marshal::specs::Reading::long_at))]
pub fn path(
    alloc: Global,
    input: &Marshalled,
    bound: Bound,
    at: usize,
) -> Result<(Path, usize), ReadFault>
    requires at { at ≤ bound.end }
    requires end { ReachTo input.now bound.end }
    ensures path { Gives (λ x. (path_data x.0, x.1)) result (name_at PathCode (input_of input.now) bound at) }
    ensures within { IfOk result (λ x. (at < x.1) × (x.1 ≤ bound.end)) }
{
    let place = long(input, bound, at)?;
    path_body(alloc, input, place)
}

/// The name of an interface or of an error whose length stands at a place.
#[tactic(auto, unfolding(crate::specs::inner::Reading::name_body_at))]
fn interface_body(
    alloc: Global,
    input: &Marshalled,
    place: usize,
) -> Result<(Interface, usize), ReadFault>
    requires { ReachTo input.now (place + 5 + number_in (input_of input.now) w32 place) }
    ensures interface { Gives (λ x. (text_data x.0, x.1)) result
        (name_body_at InterfaceCode (input_of input.now) place) }
    ensures error { Gives (λ x. (text_data x.0, x.1)) result (name_body_at ErrorCode (input_of input.now) place) }
    ensures within { IfOk result (λ x. x.1 ≡ place + 5 + number_in (input_of input.now) w32 place) }
{
    let len = u32_at(input, place) as usize;
    let end = place + 4 + len;
    match Interface::read(alloc, slice(input, place + 4, len)) {
        Ok(name) => {
            if byte_at(input, end) != 0 {
                return Err(bad(end, 12));
            }
            Ok((name, end + 1))
        }
        Err(NameFault::Form) => Err(bad(place, 31)),
        Err(NameFault::NoMemory) => Err(ReadFault::NoMemory),
    }
}

/// The name of an interface or of an error, and the place behind it.
#[tactic(auto, unfolding(crate::specs::inner::Reading::name_at, atspi_marshal::specs::Reading::long_at))]
pub fn interface(
    alloc: Global,
    input: &Marshalled,
    bound: Bound,
    at: usize,
) -> Result<(Interface, usize), ReadFault>
    requires at { at ≤ bound.end }
    requires end { ReachTo input.now bound.end }
    ensures interface { Gives (λ x. (text_data x.0, x.1)) result (name_at InterfaceCode (input_of input.now) bound at) }
    ensures error { Gives (λ x. (text_data x.0, x.1)) result (name_at ErrorCode (input_of input.now) bound at) }
    ensures within { IfOk result (λ x. (at < x.1) × (x.1 ≤ bound.end)) }
{
    let place = long(input, bound, at)?;
    interface_body(alloc, input, place)
}

/// The name of a member whose length stands at a place.
#[tactic(auto, unfolding(crate::specs::inner::Reading::name_body_at))]
fn member_body(
    alloc: Global,
    input: &Marshalled,
    place: usize,
) -> Result<(Member, usize), ReadFault>
    requires { ReachTo input.now (place + 5 + number_in (input_of input.now) w32 place) }
    ensures member { Gives (λ x. (text_data x.0, x.1)) result (name_body_at MemberCode (input_of input.now) place) }
    ensures within { IfOk result (λ x. x.1 ≡ place + 5 + number_in (input_of input.now) w32 place) }
{
    let len = u32_at(input, place) as usize;
    let end = place + 4 + len;
    match Member::read(alloc, slice(input, place + 4, len)) {
        Ok(name) => {
            if byte_at(input, end) != 0 {
                return Err(bad(end, 12));
            }
            Ok((name, end + 1))
        }
        Err(NameFault::Form) => Err(bad(place, 31)),
        Err(NameFault::NoMemory) => Err(ReadFault::NoMemory),
    }
}

/// The name of a member, and the place behind it.
#[tactic(auto, unfolding(crate::specs::inner::Reading::name_at, atspi_marshal::specs::Reading::long_at))]
pub fn member(
    alloc: Global,
    input: &Marshalled,
    bound: Bound,
    at: usize,
) -> Result<(Member, usize), ReadFault>
    requires at { at ≤ bound.end }
    requires end { ReachTo input.now bound.end }
    ensures member { Gives (λ x. (text_data x.0, x.1)) result (name_at MemberCode (input_of input.now) bound at) }
    ensures within { IfOk result (λ x. (at < x.1) × (x.1 ≤ bound.end)) }
{
    let place = long(input, bound, at)?;
    member_body(alloc, input, place)
}

/// A bus name whose length stands at a place.
#[tactic(auto, unfolding(crate::specs::inner::Reading::name_body_at))]
fn bus_name_body(
    alloc: Global,
    input: &Marshalled,
    place: usize,
) -> Result<(BusName, usize), ReadFault>
    requires { ReachTo input.now (place + 5 + number_in (input_of input.now) w32 place) }
    ensures destination { Gives (λ x. (text_data x.0, x.1)) result
        (name_body_at DestinationCode (input_of input.now) place) }
    ensures sender { Gives (λ x. (text_data x.0, x.1)) result (name_body_at SenderCode (input_of input.now) place) }
    ensures within { IfOk result (λ x. x.1 ≡ place + 5 + number_in (input_of input.now) w32 place) }
{
    let len = u32_at(input, place) as usize;
    let end = place + 4 + len;
    match BusName::read(alloc, slice(input, place + 4, len)) {
        Ok(name) => {
            if byte_at(input, end) != 0 {
                return Err(bad(end, 12));
            }
            Ok((name, end + 1))
        }
        Err(NameFault::Form) => Err(bad(place, 31)),
        Err(NameFault::NoMemory) => Err(ReadFault::NoMemory),
    }
}

/// A bus name, and the place behind it.
#[tactic(auto, unfolding(crate::specs::inner::Reading::name_at, atspi_marshal::specs::Reading::long_at))]
pub fn bus_name(
    alloc: Global,
    input: &Marshalled,
    bound: Bound,
    at: usize,
) -> Result<(BusName, usize), ReadFault>
    requires at { at ≤ bound.end }
    requires end { ReachTo input.now bound.end }
    ensures destination { Gives (λ x. (text_data x.0, x.1)) result
        (name_at DestinationCode (input_of input.now) bound at) }
    ensures sender { Gives (λ x. (text_data x.0, x.1)) result (name_at SenderCode (input_of input.now) bound at) }
    ensures within { IfOk result (λ x. (at < x.1) × (x.1 ≤ bound.end)) }
{
    let place = long(input, bound, at)?;
    bus_name_body(alloc, input, place)
}
