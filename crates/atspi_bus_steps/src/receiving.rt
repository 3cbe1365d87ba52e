//! Who receives a message.

ghost use Rattle.std.specs.Prelude.{◌≡◌, ℕ, List, [], true, filter, Contains, IfOk, IsTrue};
ghost use Rattle.std.specs.List.{list_any};
ghost use Rattle.std.specs.List.Sorted.{IsStrictlyIncreasing};
ghost use Rattle.atspi_base.specs.valid_names.Names.{is_bus_name};
ghost use Rattle.atspi_message.specs.Envelope.{envelope_of};
ghost use Rattle.atspi_message.specs.Bytes.{IsMessage};
ghost use Rattle.atspi_message_in_place.specs.View.{envelope_at};
ghost use Rattle.atspi_names.specs.Queue.{owner_in};
ghost use Rattle.atspi_names.specs.Owners.{list_of};
ghost use Rattle.atspi_match.specs.routing.Routing as routing;
ghost use Rattle.atspi_match.specs.routing.Routing.{asks_for, one_or_none};
ghost use Rattle.atspi_bus_steps.specs.InnerBus.{parts};
ghost use Rattle.atspi_bus_steps.specs.inner.Asking.{has_joined};
ghost use Rattle.atspi_bus_steps.specs.Spelled.{IsOwn};

use crate::handing::Spelled;
use atspi_base::valid_names::{BusName, NameFault};
use atspi_base::{NoMemory, Nums, Steps};
use atspi_match::RuleIndex;
use atspi_message::Message;
use atspi_message_forwarding::readings::laws::messages_are_asked_for;
use atspi_message_in_place::MessageRef;
use atspi_names::Names;
use std::alloc::Global;

/// Whether a connection has joined.
fn has(joined: &[u32], conn: u32) -> bool
    requires { IsStrictlyIncreasing joined.now }
    ensures { result ≡ has_joined joined.now conn }
{
    joined.binary_search(&conn).is_ok()
}

/// The connections among those found that have joined.
fn still_joined(alloc: Global, joined: &[u32], found: &[u32]) -> Result<Vec<u32>, NoMemory>
    requires { IsStrictlyIncreasing joined.now }
    ensures { IfOk result (λ conns. conns.items ≡ filter (has_joined joined.now) found.now) }
{
    let mut conns = Vec::with_capacity(alloc, found.len())?;
    for conn in found {
        if has(joined, *conn) {
            conns.push(*conn)?;
        }
    }
    Ok(conns)
}

/// The connections that ask for a message, in order of joining.
fn asking(
    alloc: Global,
    joined: &[u32],
    names: &Names,
    rules: &RuleIndex,
    m: &MessageRef,
) -> Result<Vec<u32>, NoMemory>
    requires { IsStrictlyIncreasing joined.now }
    ensures { IfOk result
        (λ conns. conns.items
        ≡ filter (asks_for (parts joined.now names.now rules.now) (envelope_at m.now)) joined.now) }
{
    let mut found = Nums::new(alloc);
    let mut steps = Steps::new();
    rules.receivers(m, names, &mut found, &mut steps)?;
    still_joined(alloc, joined, found.as_slice())
}

/// The connection that owns the name, if one does.
fn owner_of(alloc: Global, names: &Names, name: &BusName) -> Result<Vec<u32>, NoMemory>
    ensures { IfOk result (λ conns. conns.items ≡ one_or_none (owner_in (list_of names.now.lists name.now))) }
{
    let mut conns = Vec::new(alloc);
    if let Some(conn) = names.owner(name) {
        conns.push(conn)?;
    }
    Ok(conns)
}

/// The bus name that the text is.
pub fn bus_name(alloc: Global, text: &str) -> Result<BusName, NoMemory>
    requires { is_bus_name text.now ≡ true }
    ensures { IfOk result (λ name. name ≡ text.now) }
{
    match BusName::read(alloc, text.as_bytes()) {
        Ok(name) => Ok(name),
        Err(NameFault::NoMemory) => Err(NoMemory),
        Err(NameFault::Form) => unreachable!(),
    }
}

/// Who receives a message (D-Bus Specification, "Message Bus Message Routing"): the owner of its destination, or those
/// who ask for it.
pub fn receivers(
    alloc: Global,
    joined: &[u32],
    names: &Names,
    rules: &RuleIndex,
    m: &MessageRef,
) -> Result<Vec<u32>, NoMemory>
    requires { IsStrictlyIncreasing joined.now }
    ensures { IfOk result
        (λ conns. conns.items ≡ routing.receivers (parts joined.now names.now rules.now) (envelope_at m.now)) }
{
    match m.destination {
        Some(text) => {
            let name = bus_name(alloc, text)?;
            owner_of(alloc, names, &name)
        }
        None => {
            if m.kind == 4 {
                asking(alloc, joined, names, rules, m)
            } else {
                Ok(Vec::new(alloc))
            }
        }
    }
}

/// Who receives a message of the bus's own, which these bytes are.
pub fn receivers_of_own(
    alloc: Global,
    joined: &[u32],
    names: &Names,
    rules: &RuleIndex,
    message: &Message,
    bytes: &[u8],
) -> Result<Vec<u32>, NoMemory>
    requires joined { IsStrictlyIncreasing joined.now }
    requires message { IsMessage (envelope_of message.now) bytes.now }
    ensures { IfOk result
        (λ conns. conns.items ≡ routing.receivers (parts joined.now names.now rules.now) (envelope_of message.now)) }
{
    messages_are_asked_for();
    match MessageRef::parse(bytes) {
        Ok(m) => receivers(alloc, joined, names, rules, &m),
        Err(_) => unreachable!(),
    }
}

/// Who receives a message of the bus's own: where it is too long for the wire, the owner of its destination, since it
/// is no signal.
pub fn receivers_of(
    alloc: Global,
    joined: &[u32],
    names: &Names,
    rules: &RuleIndex,
    message: &Message,
    spelled: &Spelled,
) -> Result<Vec<u32>, NoMemory>
    requires joined { IsStrictlyIncreasing joined.now }
    requires own { IsOwn spelled.now (envelope_of message.now) }
    ensures { IfOk result
        (λ conns. conns.items ≡ routing.receivers (parts joined.now names.now rules.now) (envelope_of message.now)) }
{
    match spelled {
        Spelled::Bytes(bytes) => {
            receivers_of_own(alloc, joined, names, rules, message, bytes.as_slice())
        }
        Spelled::TooLong(_) => match &message.destination {
            Some(name) => owner_of(alloc, names, name),
            None => Ok(Vec::new(alloc)),
        },
    }
}
