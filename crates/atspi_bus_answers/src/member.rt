//! Which member a call asks for.

ghost use Rattle.std.specs.Prelude.{◌≡◌, bytes_eq};
ghost use Rattle.std.specs.List.{list_any};
ghost use Rattle.atspi_message_in_place.specs.View.{bytes_of, envelope_at};
ghost use Rattle.atspi_match.specs.routing.Members as members;
ghost use Rattle.atspi_bus_answers.specs.Lines as lines;

use crate::BusError;
use atspi_match::routing::BusMember;
use atspi_message_in_place::MessageRef;

/// The interface of the bus.
const BUS: &str = "org.freedesktop.DBus";

/// The interface that each end has.
const PEER: &str = "org.freedesktop.DBus.Peer";

/// Whether the bus has the interface that a call names.
fn is_known(interface: Option<&str>) -> bool
    ensures { result ≡ list_any (members.is_of (bytes_of interface.entry)) members.member_lines }
{
    match interface {
        Some(name) => name == BUS || name == PEER,
        None => true,
    }
}

/// Whether a call asks for this member of this interface.
fn is_asked(interface: Option<&str>, member: Option<&str>, of: &str, name: &str) -> bool
    ensures { result ≡ lines.is_named (bytes_of interface.entry) (bytes_of member.entry) of.now name.now }
{
    let Some(asked) = member else {
        return false;
    };
    match interface {
        Some(interface) => interface == of && asked == name,
        None => asked == name,
    }
}

/// The member that a call asks for.
fn asked(interface: Option<&str>, member: Option<&str>) -> Option<BusMember>
    ensures { result ≡ lines.member_in (bytes_of interface.entry) (bytes_of member.entry) members.member_lines }
{
    if is_asked(interface, member, BUS, "Hello") {
        Some(BusMember::Hello)
    } else if is_asked(interface, member, BUS, "RequestName") {
        Some(BusMember::RequestName)
    } else if is_asked(interface, member, BUS, "ReleaseName") {
        Some(BusMember::ReleaseName)
    } else if is_asked(interface, member, BUS, "NameHasOwner") {
        Some(BusMember::NameHasOwner)
    } else if is_asked(interface, member, BUS, "GetNameOwner") {
        Some(BusMember::GetNameOwner)
    } else if is_asked(interface, member, BUS, "ListNames") {
        Some(BusMember::ListNames)
    } else if is_asked(interface, member, BUS, "ListQueuedOwners") {
        Some(BusMember::ListQueuedOwners)
    } else if is_asked(interface, member, BUS, "AddMatch") {
        Some(BusMember::AddMatch)
    } else if is_asked(interface, member, BUS, "RemoveMatch") {
        Some(BusMember::RemoveMatch)
    } else if is_asked(interface, member, BUS, "GetId") {
        Some(BusMember::GetId)
    } else if is_asked(interface, member, PEER, "Ping") {
        Some(BusMember::Ping)
    } else {
        None
    }
}

/// Whether the bytes are just these.
fn is(bytes: &[u8], others: &[u8]) -> bool
    ensures { result ≡ bytes_eq bytes.now others.now }
{
    bytes == others
}

/// The codes of the types of a member's arguments.
fn takes(member: BusMember) -> &'static [u8]
    ensures { result.now ≡ lines.takes_of member }
{
    match member {
        BusMember::RequestName => b"su".as_slice(),
        BusMember::ReleaseName
        | BusMember::NameHasOwner
        | BusMember::GetNameOwner
        | BusMember::ListQueuedOwners
        | BusMember::AddMatch
        | BusMember::RemoveMatch => b"s".as_slice(),
        BusMember::Hello | BusMember::ListNames | BusMember::GetId | BusMember::Ping => &[],
    }
}

/// The member of the bus that a call asks for, at any path (D-Bus Specification, "Message Bus Messages"), or the error
/// that it gets: looked for first by interface, then by member, then by arguments.
pub fn member_of(m: &MessageRef) -> Result<BusMember, BusError>
    ensures { members.member_of (envelope_at m.now) ≡ lines.as_named result }
{
    if !is_known(m.interface) {
        return Err(BusError::UnknownInterface);
    }
    let Some(member) = asked(m.interface, m.member) else {
        return Err(BusError::UnknownMethod);
    };
    if !is(m.body.types().codes(), takes(member)) {
        return Err(BusError::InvalidArgs);
    }
    Ok(member)
}
