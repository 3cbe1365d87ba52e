//! Messages whose names stand in the program.

ghost use Rattle.std.specs.Prelude.{◌≡◌, true, IfOk};
ghost use Rattle.atspi_types.specs.DataView.{all_data};
ghost use Rattle.atspi_base.specs.valid_names.Names.{is_bus_name, is_interface, is_member, is_path};
ghost use Rattle.atspi_message.specs.Envelope.{envelope_of};
ghost use Rattle.atspi_protocol.specs.ends.Messages as messages;
ghost use Rattle.atspi_protocol.specs.ends.Places.{bus, bus_path, cache_path};
ghost use Rattle.atspi_protocol.specs.members.Interfaces.{cache};

use atspi_base::NoMemory;
use atspi_message::Message;
use atspi_protocol::ends::{bus_name, call_to, interface, member, path, signal_of};
use atspi_types::Values;
use std::alloc::Global;

/// A call of a member of an interface, of an object of another end.
pub fn call(
    alloc: Global,
    to: &str,
    at: &str,
    of: &str,
    name: &str,
    body: Values,
) -> Result<Message, NoMemory>
    requires to { is_bus_name to.now ≡ true }
    requires at { is_path at.now ≡ true }
    requires of { is_interface of.now ≡ true }
    requires name { is_member name.now ≡ true }
    ensures { IfOk result
        (λ message. envelope_of message ≡ messages.call_to to.now at.now of.now name.now (all_data body)) }
{
    let to = bus_name(alloc, to)?;
    let at = path(alloc, at)?;
    let of = interface(alloc, of)?;
    let name = member(alloc, name)?;
    Ok(call_to(to, at, of, name, body))
}

/// A call of a member of the bus (D-Bus Specification, "Message Bus Messages").
#[tactic(auto, unfolding(atspi_base::specs::valid_names::Names::is_bus_name, atspi_base::specs::valid_names::Names::is_path, atspi_base::specs::valid_names::Names::is_interface, atspi_base::specs::valid_names::Elements::are_two_or_more, atspi_base::specs::valid_names::Elements::are_elements, atspi_base::specs::valid_names::Elements::parts_of))]
pub fn bus_call(alloc: Global, name: &str, body: Values) -> Result<Message, NoMemory>
    requires { is_member name.now ≡ true }
    ensures { IfOk result
        (λ message. envelope_of message ≡ messages.call_to bus bus_path bus name.now (all_data body)) }
{
    call(
        alloc,
        "org.freedesktop.DBus",
        "/org/freedesktop/DBus",
        "org.freedesktop.DBus",
        name,
        body,
    )
}

/// A signal of an object.
pub fn signal(
    alloc: Global,
    at: &str,
    of: &str,
    name: &str,
    body: Values,
) -> Result<Message, NoMemory>
    requires at { is_path at.now ≡ true }
    requires of { is_interface of.now ≡ true }
    requires name { is_member name.now ≡ true }
    ensures { IfOk result (λ message. envelope_of message ≡ messages.signal_of at.now of.now name.now (all_data body)) }
{
    let at = path(alloc, at)?;
    let of = interface(alloc, of)?;
    let name = member(alloc, name)?;
    Ok(signal_of(at, of, name, body))
}

/// A signal of the object for the whole tree (AT-SPI2's interface file Cache).
#[tactic(auto, unfolding(atspi_base::specs::valid_names::Names::is_path, atspi_base::specs::valid_names::Names::is_interface, atspi_base::specs::valid_names::Elements::are_two_or_more, atspi_base::specs::valid_names::Elements::are_elements, atspi_base::specs::valid_names::Elements::parts_of))]
pub fn cache_signal(alloc: Global, name: &str, body: Values) -> Result<Message, NoMemory>
    requires { is_member name.now ≡ true }
    ensures { IfOk result
        (λ message. envelope_of message ≡ messages.signal_of cache_path cache name.now (all_data body)) }
{
    signal(
        alloc,
        "/org/a11y/atspi/cache",
        "org.a11y.atspi.Cache",
        name,
        body,
    )
}
