//! The first message of bytes.

ghost use Rattle.std.specs.Prelude.{◌≡◌, ◌<◌, ◌≤◌, ◌+◌, ◌++◌, ◌↔◌, ℕ, List, length, take, IfSome};
ghost use Rattle.atspi_message.specs.Envelope.{Envelope};
ghost use Rattle.atspi_message.specs.Bytes.{IsMessage};
ghost use Rattle.atspi_message_in_place.specs.View.{envelope_at};
ghost use Rattle.atspi_stream.specs.Stream.{stated, AwaitsMore};
ghost use Rattle.atspi_world_links.specs.Firsts.{IsGiven};

use atspi_message::total;
use atspi_message_in_place::MessageRef;

/// A message that bytes begin with, read where it lies.
#[derive(Clone, Copy)]
pub struct Whole<'a> {
    pub message: MessageRef<'a>,
    /// How many bytes it takes.
    pub len: usize,
}

/// The message that bytes begin with (D-Bus Specification, "Message Protocol"). None where they begin with no whole
/// message. Takes no memory.
pub fn first_message(bytes: &[u8]) -> Option<Whole<'_>>
    ensures within { IfSome result (λ first. first.len ≤ length bytes.now) }
    ensures message { IfSome result (λ first. IsMessage (envelope_at first.message) (take first.len bytes.now)) }
    // a message at the front is given
    ensures given { (e : Envelope) (own rest : List ℕ) → IsMessage e own → bytes.now ≡ own ++ rest
        → IsGiven result e (length own) }
{
    let Some(front) = bytes.first_chunk::<16>() else {
        return None;
    };
    let len = match total(front) {
        Ok(len) => len as usize,
        Err(_) => return None,
    };
    if bytes.len() < len {
        return None;
    }
    match MessageRef::parse(&bytes[..len]) {
        Ok(message) => Some(Whole { message, len }),
        Err(_) => None,
    }
}

/// How many bytes a message that begins with these awaits: those that its first 16 lack, and once these are there,
/// those that it lacks in whole. 0 exactly where it is whole, or malformed in its first 16 bytes. Takes no memory.
pub fn missing(held: &[u8]) -> usize
    ensures awaits { (0 < result) ↔ AwaitsMore held.now }
    ensures front { length held.now < 16 → length held.now + result ≡ 16 }
    ensures rest { 16 ≤ length held.now → 0 < result → length held.now + result ≡ stated held.now }
{
    let Some(first) = held.first_chunk::<16>() else {
        return 16 - held.len();
    };
    match total(first) {
        Ok(length) => (length as usize).saturating_sub(held.len()),
        Err(_) => 0,
    }
}
