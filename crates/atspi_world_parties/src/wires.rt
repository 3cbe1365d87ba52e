//! The bytes of the messages that a trace tells.

ghost use Rattle.std.specs.Prelude.{◌≡◌, ◌≤◌, ◌++◌, length, slice_get, IfOk, OnOk, OnErr};
ghost use Rattle.std.specs.Option.{option_copied};
ghost use Rattle.atspi_message.specs.Envelope.{envelope_of};
ghost use Rattle.atspi_message.specs.Bytes.{written};
ghost use Rattle.atspi_world_parties.specs.Places as places;
ghost use Rattle.atspi_world_parties.specs.Wires as wires;
ghost use Rattle.atspi_world_parties.specs.Wires.{as_taken, name_if, wire_bytes};

use crate::places::{is_party, post_of};
use atspi_base::valid_names::BusName;
use atspi_base::{Bytes, NoMemory};
use atspi_message::{Message, WriteFault};
use atspi_script_lines::Party;
use atspi_trace_events::Event;
use atspi_world_links::{Post, SendFault, meets_rules};
use std::alloc::Global;

/// The message of a party with this serial, where an event tells that it was sent.
fn sent_here(event: &Event, who: Party, serial: u32) -> Option<&Message>
    ensures { option_copied result ≡ wires.sent_here who serial event.now }
{
    match event {
        Event::Sent {
            who: sender,
            message,
        } => {
            if is_party(*sender, who) && message.serial == serial {
                Some(message)
            } else {
                None
            }
        }
        Event::Start { .. }
        | Event::Step { .. }
        | Event::Got { .. }
        | Event::Hears { .. }
        | Event::Deaf { .. }
        | Event::Say { .. }
        | Event::Show { .. }
        | Event::Exit { .. }
        | Event::Gone { .. }
        | Event::Dropped { .. }
        | Event::Busy(_)
        | Event::Quiet => None,
    }
}

/// The last message of a party with this serial that was sent before a place of a trace. Looked for from that place
/// back, so that it costs what was told between the two.
fn sent_before(trace: &[Event], place: usize, who: Party, serial: u32) -> Option<&Message>
    requires { place ≤ length trace.now }
    ensures { option_copied result ≡ wires.sent_before who serial trace.now place }
{
    let mut left = place;
    while left > 0 {
        left -= 1;
        match sent_here(&trace[left], who, serial) {
            Some(message) => return Some(message),
            None => {}
        }
    }
    None
}

/// Appends the bytes of a message. After a fault nothing was appended.
fn write(message: &Message, out: &mut Bytes) -> Result<(), SendFault>
    ensures ok { OnOk result (out.new ≡ out.old ++ written (envelope_of message.now)) }
    ensures err { OnErr result (out.new ≡ out.old) }
{
    if !meets_rules(message) {
        return Err(SendFault::Unsendable);
    }
    match message.write(out) {
        Ok(()) => Ok(()),
        Err(WriteFault::Big) => Err(SendFault::Unsendable),
        Err(WriteFault::NoMemory) => Err(SendFault::NoMemory),
    }
}

/// The unique name of a party, once the bus gave it.
fn name_of(posts: &[Post], who: Party) -> Option<&BusName>
    ensures { option_copied result ≡ name_if (places.post_of who posts.now) }
{
    match post_of(posts, who) {
        Some(post) => post.name.as_ref(),
        None => None,
    }
}

/// An equal name, where there is one.
fn copy_name(alloc: Global, name: Option<&BusName>) -> Result<Option<BusName>, NoMemory>
    ensures { IfOk result (λ copy. copy ≡ option_copied name.entry) }
{
    match name {
        Some(name) => Ok(Some(name.copy(alloc)?)),
        None => Ok(None),
    }
}

/// The same message with this sender.
fn signed(message: Message, sender: Option<BusName>) -> Message
    ensures { envelope_of result ≡ record (envelope_of message) { sender = sender } }
{
    Message { sender, ..message }
}

/// Appends the bytes of an end's message with the sender that the bus set. After a fault nothing was appended.
fn write_from(
    alloc: Global,
    message: &Message,
    sender: Option<&BusName>,
    out: &mut Bytes,
) -> Result<(), SendFault>
    ensures ok { OnOk result
        (out.new ≡ out.old ++ written (record (envelope_of message.now) { sender = option_copied sender.entry })) }
    ensures err { OnErr result (out.new ≡ out.old) }
{
    let name = copy_name(alloc, sender)?;
    let taken = signed(message.copy(alloc)?, name);
    write(&taken, out)
}

/// Appends the bytes of a message of a sender as its taker got it. After a fault nothing was appended.
fn write_taken(
    alloc: Global,
    posts: &[Post],
    taker: Party,
    sender: Party,
    message: &Message,
    out: &mut Bytes,
) -> Result<(), SendFault>
    ensures ok { OnOk result
        (out.new ≡ out.old ++ written (as_taken posts.now taker sender (envelope_of message.now))) }
    ensures err { OnErr result (out.new ≡ out.old) }
{
    if is_party(taker, Party::Bus) || is_party(sender, Party::Bus) {
        return write(message, out);
    }
    write_from(alloc, message, name_of(posts, sender), out)
}

/// Appends the bytes of the message that the event at a place of a trace tells: as it was sent, or as it was taken,
/// that is, with the sender that the bus set where the taker is another end. A message that was taken is the last one
/// that its sender sent with that serial before the event; it is looked for from the event back. Nothing for an event
/// other than Sent and Got, and where there is no such event or message. After a fault nothing was appended: Unsendable
/// where the message breaks a rule, or passes the limits of the wire with that sender.
pub fn write_event(
    alloc: Global,
    posts: &[Post],
    trace: &[Event],
    event: usize,
    out: &mut Bytes,
) -> Result<(), SendFault>
    ensures ok { OnOk result (out.new ≡ out.old ++ wire_bytes posts.now trace.now event (slice_get trace.now event)) }
    ensures err { OnErr result (out.new ≡ out.old) }
{
    if event >= trace.len() {
        return Ok(());
    }
    match &trace[event] {
        Event::Sent { message, .. } => write(message, out),
        Event::Got {
            taker,
            sender,
            serial,
        } => match sent_before(trace, event, *sender, *serial) {
            Some(message) => write_taken(alloc, posts, *taker, *sender, message, out),
            None => Ok(()),
        },
        Event::Start { .. }
        | Event::Step { .. }
        | Event::Hears { .. }
        | Event::Deaf { .. }
        | Event::Say { .. }
        | Event::Show { .. }
        | Event::Exit { .. }
        | Event::Gone { .. }
        | Event::Dropped { .. }
        | Event::Busy(_)
        | Event::Quiet => Ok(()),
    }
}
