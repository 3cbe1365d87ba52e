//! A message of the bus's own that is said in place: it goes to all of its receivers, or to none.

ghost use Rattle.std.specs.Prelude.{◌≡◌, ◌<◌, ◌^◌, length, map, All, IfOk, IfSome, OnErr, IsErrOf, MatchBool};
ghost use Rattle.std.specs.Prelude.{MatchOption};
ghost use Rattle.std.specs.VecDeque.{deque_len, deque_capacity};
ghost use Rattle.atspi_message.specs.Bytes.{written};
ghost use Rattle.atspi_message.specs.Envelope.{Envelope, envelope_of};
ghost use Rattle.atspi_message.specs.Rules.{MeetsRules};
ghost use Rattle.atspi_bus_queues.specs.Each.{WentToEach};
ghost use Rattle.atspi_match.specs.routing.Queues.{Bus, Waiting, stepped};
ghost use Rattle.atspi_match.specs.routing.Routing as routing;
ghost use Rattle.atspi_match.specs.routing.Steps.{speaks};
ghost use Rattle.atspi_bus_steps.specs.InnerBus.{inner_of, state_of};
ghost use Rattle.atspi_bus_steps.specs.Sayable.{MaySay};
ghost use Rattle.atspi_bus_steps.specs.Sound.{IsReady};
ghost use Rattle.atspi_bus.specs.inner.Said.{IsHanded, IsSaid};

use atspi_base::Bytes;
use atspi_bus_queues::Queues;
use atspi_bus_steps::{BusFault, Inner, Spelled, receivers_of_own, write_own};
use atspi_message::Message;
use std::collections::VecDeque;

/// What went to whom where a message was said: its bytes, and its receivers.
#[derive(Drop)]
pub struct Said {
    pub bytes: Bytes,
    pub receivers: Vec<u32>,
}

/// A message with its number as it is written, and who receives it; none where it is too long for the wire.
fn addressed(inner: &Inner, message: &Message) -> Result<Option<Said>, BusFault>
    requires ready { IsReady (state_of inner.now) }
    requires meets { MeetsRules (envelope_of message.now) }
    ensures bytes { IfOk result (λ found. IfSome found (λ said. said.bytes ≡ written (envelope_of message.now))) }
    ensures short { IfOk result (λ found. IfSome found (λ said. length said.bytes < 2 ^ 32)) }
    ensures receivers { IfOk result (λ found. IfSome found
        (λ said. said.receivers.items ≡ routing.receivers (state_of inner.now) (envelope_of message.now))) }
    ensures spent { IsErrOf result BusFault.Spent → ⊥ }
{
    let alloc = inner.alloc;
    let Spelled::Bytes(bytes) = write_own(alloc, message)? else {
        return Ok(None);
    };
    let (names, rules) = (&inner.names, &inner.rules);
    let lent = bytes.as_slice();
    let receivers = receivers_of_own(alloc, &inner.joined, names, rules, message, lent)?;
    Ok(Some(Said { bytes, receivers }))
}

/// Puts a message with its number behind what waits for each of its receivers, where each has room for it, and makes
/// room among the messages that nobody has asked for. Where one has none, and after a fault, all is as before.
fn hand_each(inner: &mut Inner, message: &Message) -> Result<Option<Said>, BusFault>
    requires ready { IsReady (state_of inner.old) }
    requires meets { MeetsRules (envelope_of message.now) }
    ensures ok { IfOk result (λ said. MatchOption said (inner_of inner.new ≡ inner_of inner.old)
        (λ said. IsHanded (inner_of inner.old) (inner_of inner.new) (envelope_of message.now) said.bytes
        said.receivers.items)) }
    ensures room { IfOk result (λ _. deque_len inner.new.own < deque_capacity inner.new.own) }
    ensures due { (inner_of inner.new).waiting.due ≡ (inner_of inner.old).waiting.due }
    ensures spent { IsErrOf result BusFault.Spent → ⊥ }
    ensures err { OnErr result (inner_of inner.new ≡ inner_of inner.old) }
{
    inner.own.reserve(1)?;
    let Some(said) = addressed(inner, message)? else {
        return Ok(None);
    };
    let bytes = said.bytes.as_slice();
    let went = inner.queues.push_each(&said.receivers, bytes)?;
    if !went {
        return Ok(None);
    }
    Ok(Some(said))
}

/// Says a message with the next number, where each of its receivers has room for it, and answers what went to whom.
/// Where one has none, where no number is left, and after a fault, all is as before.
pub fn say_in_place(inner: &mut Inner, message: Message) -> Result<Option<Said>, BusFault>
    requires ready { IsReady (state_of inner.old) }
    requires sayable { MaySay (envelope_of message) }
    ensures ok { IfOk result (λ said. MatchOption said (inner_of inner.new ≡ inner_of inner.old)
        (λ said. IsSaid (inner_of inner.old) (inner_of inner.new) (envelope_of message) said.bytes
        said.receivers.items)) }
    ensures ready { IsReady (state_of inner.new) }
    ensures due { (inner_of inner.new).waiting.due ≡ (inner_of inner.old).waiting.due }
    ensures spent { IsErrOf result BusFault.Spent → ⊥ }
    ensures err { OnErr result (inner_of inner.new ≡ inner_of inner.old) }
{
    if inner.next > u64::from(u32::MAX) {
        return Ok(None);
    }
    let mut message = message;
    message.serial = inner.next as u32;
    match hand_each(inner, &message)? {
        Some(said) => {
            inner.own.push_back_reserved(message);
            inner.next += 1;
            Ok(Some(said))
        }
        None => Ok(None),
    }
}

/// Takes bytes back that went to some connections, from the last to the first.
fn take_back_each(queues: &mut Queues, conns: &[u32], bytes: &[u8])
    requires small { length bytes.now < 2 ^ 32 }
    requires went { (before : Waiting) × WentToEach queues.old.quota before queues.old.waiting bytes.now conns.now }
    ensures { (before : Waiting) → WentToEach queues.old.quota before queues.old.waiting bytes.now conns.now
        → queues.new ≡ record queues.old { waiting = before } }
{
    for i in 0..conns.len() {
        let conn = conns[conns.len() - 1 - i];
        queues.take_back(conn, bytes.len() as u32);
    }
}

/// Takes back the message that was said last.
pub fn unsay(inner: &mut Inner, said: &Said)
    requires { (first : Bus) × (e : Envelope)
        × IsSaid first (inner_of inner.old) e said.now.bytes said.now.receivers.items }
    ensures { (first : Bus) (e : Envelope) → IsSaid first (inner_of inner.old) e said.now.bytes said.now.receivers.items
        → inner_of inner.new ≡ first }
{
    let bytes = said.bytes.as_slice();
    take_back_each(&mut inner.queues, &said.receivers, bytes);
    let _ = inner.own.pop_back();
    inner.next -= 1;
}

/// Says messages in place, one behind the other: all of them, or none. Where one has no room at a receiver, where the
/// numbers do not suffice, and after a fault, all is as before.
pub fn say_each(inner: &mut Inner, told: &mut VecDeque<Message>) -> Result<bool, BusFault>
    requires ready { IsReady (state_of inner.old) }
    requires sayable { All MaySay (map envelope_of told.old.items) }
    ensures ok { IfOk result (λ went. MatchBool went
        (inner_of inner.new
        ≡ stepped (inner_of inner.old) (speaks (state_of inner.old) (map envelope_of told.old.items)))
        (inner_of inner.new ≡ inner_of inner.old)) }
    ensures ready { IsReady (state_of inner.new) }
    ensures due { (inner_of inner.new).waiting.due ≡ (inner_of inner.old).waiting.due }
    ensures spent { IsErrOf result BusFault.Spent → ⊥ }
    ensures err { OnErr result (inner_of inner.new ≡ inner_of inner.old) }
{
    let Some(message) = told.pop_front() else {
        return Ok(true);
    };
    let Some(said) = say_in_place(inner, message)? else {
        return Ok(false);
    };
    match say_each(inner, told) {
        Ok(true) => Ok(true),
        Ok(false) => {
            unsay(inner, &said);
            Ok(false)
        }
        Err(fault) => {
            unsay(inner, &said);
            Err(fault)
        }
    }
}
