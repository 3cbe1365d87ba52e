//! Messages written, and handed to their receivers.

ghost use Rattle.std.specs.Prelude.{◌≡◌, ◌<◌, ◌^◌, List, ℕ, length, IfOk, OnOk, IsErrOf};
ghost use Rattle.atspi_message.specs.Envelope.{envelope_of};
ghost use Rattle.atspi_message.specs.Rules.{MeetsRules};
ghost use Rattle.atspi_message.specs.Bytes.{written};
ghost use Rattle.atspi_message_in_place.specs.View.{envelope_at};
ghost use Rattle.atspi_bus_steps.specs.inner.Handing.{queued_each};
ghost use Rattle.atspi_bus_steps.specs.Spelled.{IsLong, StandsFor, IsOwn};

use crate::BusFault;
use atspi_base::{Bytes, NoMemory};
use atspi_bus_queues::Queues;
use atspi_marshal::WriteFault;
use atspi_match::routing::Why;
use atspi_message::Message;
use atspi_message_forwarding::{list_length, write_from, written_length};
use atspi_message_in_place::MessageRef;
use std::alloc::Global;

/// Room for so many bytes is made at once for a message of the bus's own: most are shorter.
const ROOM: usize = 512;

/// The most bytes that a queue takes.
const MOST: u32 = 67_108_864;

/// A message that is to be handed to its receivers, as it is written.
#[derive(Drop)]
pub enum Spelled {
    Bytes(Bytes),
    /// It passes a limit of the wire by its sender, or by its list of names, and is not written. So many bytes it would
    /// have, as they are told: 4,294,967,295 at most.
    TooLong(u32),
}

/// A message of the bus's own that passes a limit of the wire: a list of names that a connection asked for. No other is
/// so long, by the law `only_lists_are_long` of `atspi_bus_laws`.
fn too_long(message: &Message) -> Result<Spelled, BusFault>
    ensures spelled { IfOk result (λ s. StandsFor s (written (envelope_of message.now))) }
    ensures own { IfOk result (λ s. IsOwn s (envelope_of message.now)) }
    ensures other { IsErrOf result BusFault.Spent → ⊥ }
{
    match list_length(message) {
        Some(len) if len > MOST && message.kind != 4 => Ok(Spelled::TooLong(len)),
        _ => Err(BusFault::NoMemory),
    }
}

/// A message of the bus's own, as it is written.
pub fn write_own(alloc: Global, message: &Message) -> Result<Spelled, BusFault>
    requires { MeetsRules (envelope_of message.now) }
    ensures spelled { IfOk result (λ s. StandsFor s (written (envelope_of message.now))) }
    ensures own { IfOk result (λ s. IsOwn s (envelope_of message.now)) }
    ensures other { IsErrOf result BusFault.Spent → ⊥ }
{
    let mut bytes = Bytes::from_vec(Vec::with_capacity(alloc, ROOM)?);
    match message.write(&mut bytes) {
        Ok(()) => Ok(Spelled::Bytes(bytes)),
        Err(WriteFault::Big) => too_long(message),
        Err(WriteFault::NoMemory) => Err(BusFault::NoMemory),
    }
}

/// A message that is passed on, as it is written: no value is made.
pub fn write_again(alloc: Global, m: &MessageRef) -> Result<Spelled, BusFault>
    requires { MeetsRules (envelope_at m.now) }
    ensures spelled { IfOk result (λ s. StandsFor s (written (envelope_at m.now))) }
    ensures other { IsErrOf result BusFault.Spent → ⊥ }
{
    match write_from(alloc, m) {
        Ok(bytes) => Ok(Spelled::Bytes(bytes)),
        Err(WriteFault::Big) => Ok(Spelled::TooLong(written_length(m))),
        Err(WriteFault::NoMemory) => Err(BusFault::NoMemory),
    }
}

/// Hands bytes to some connections, one after the other.
fn hand_bytes(queues: &mut Queues, bytes: &[u8], receivers: &[u32]) -> Result<(), NoMemory>
    requires { length bytes.now < 2 ^ 32 }
    ensures { OnOk result (queues.new ≡ record queues.old {
      waiting = queued_each queues.old.quota queues.old.waiting bytes.now receivers.now;
    }) }
{
    for conn in receivers {
        queues.push(*conn, bytes)?;
    }
    Ok(())
}

/// Does the same with bytes that pass each quota, of which only their number is known: each connection is to be closed.
fn refuse_each(queues: &mut Queues, len: u32, receivers: &[u32]) -> Result<(), NoMemory>
    ensures { OnOk result ((bytes : List ℕ) → IsLong bytes len → queues.new ≡ record queues.old {
      waiting = queued_each queues.old.quota queues.old.waiting bytes receivers.now;
    }) }
{
    queues.stay_within();
    for conn in receivers {
        let queued = queues.waiting(*conn);
        queues.doom(*conn, Why::Quota { queued, len })?;
    }
    Ok(())
}

/// Hands a message to some connections, one after the other.
pub fn hand_out(queues: &mut Queues, spelled: &Spelled, receivers: &[u32]) -> Result<(), NoMemory>
    requires { (bytes : List ℕ) × StandsFor spelled.now bytes }
    ensures { OnOk result ((bytes : List ℕ) → StandsFor spelled.now bytes → queues.new ≡ record queues.old {
      waiting = queued_each queues.old.quota queues.old.waiting bytes receivers.now;
    }) }
{
    match spelled {
        Spelled::Bytes(bytes) => hand_bytes(queues, bytes.as_slice(), receivers),
        Spelled::TooLong(len) => refuse_each(queues, *len, receivers),
    }
}
