//! The bytes of a message, read from the line that tells them, and the message that they are.

ghost use Rattle.std.specs.Prelude.{◌≡◌, ◌↔◌, ◌∷◌, ◌++◌, codes, false, ℕ, List, IfOk, IsTrue, MatchOption, Ok, is_ok};
ghost use Rattle.hex.specs.Hex.{IsBytes, decode_of, encode_lower};
ghost use Rattle.atspi_message.specs.Bytes.{FitsWire, IsMessage, rising_fields, written};
ghost use Rattle.atspi_message.specs.Envelope.{Envelope, envelope_of};
ghost use Rattle.atspi_message.specs.Rules.{MeetsRules};
ghost use Rattle.atspi_trace_texts.specs.InTrace.{IsWritable};
ghost use Rattle.atspi_trace_texts.specs.TraceText.{wire_line};
ghost use Rattle.atspi_audit_text.specs.inner.Lines.{Finds};

use crate::lines::next_line;
use atspi_base::{Bytes, NoMemory};
use atspi_message::{Message, WriteFault, total};
use atspi_types::ReadFault;
use hex::FromHexError;
use std::alloc::Global;

/// The bytes that digits spell, capital ones among them.
fn decoded(alloc: Global, digits: &[u8]) -> Result<Option<Vec<u8>>, NoMemory>
    ensures { Finds (is_ok (decode_of digits.now) ≡ false) (λ bytes. decode_of digits.now ≡ Ok bytes.items) result }
{
    match hex::decode(alloc, digits) {
        Ok(bytes) => Ok(Some(bytes)),
        Err(FromHexError::OutOfMemory) => Err(NoMemory),
        Err(_) => Ok(None),
    }
}

/// The bytes that lower-case digits spell.
fn of_digits(alloc: Global, digits: &[u8]) -> Result<Option<Vec<u8>>, NoMemory>
    ensures { Finds ((bytes : List ℕ) → IsBytes bytes → digits.now ≡ encode_lower bytes → ⊥)
        (λ bytes. IsBytes bytes.items × (digits.now ≡ encode_lower bytes.items)) result }
{
    let Some(bytes) = decoded(alloc, digits)? else {
        return Ok(None);
    };
    let lower = hex::encode(alloc, bytes.as_slice())?;
    if lower.as_bytes() != digits {
        return Ok(None);
    }
    Ok(Some(bytes))
}

/// The digits of a line that tells bytes.
fn digits_in(line: &[u8]) -> Option<&[u8]>
    ensures { MatchOption result ((digits : List ℕ) → line.now ≡ codes "= " ++ digits → ⊥)
        (λ digits. line.now ≡ codes "= " ++ digits.now) }
{
    line.strip_prefix(b"= ".as_slice())
}

/// The bytes that the line in front tells, and what follows the line.
pub(crate) fn next_bytes(alloc: Global, text: &[u8]) -> Result<Option<(Bytes, &[u8])>, NoMemory>
    ensures { Finds ((bytes rest : List ℕ) → IsBytes bytes → text.now ≡ wire_line bytes ++ 10 ∷ rest → ⊥)
        (λ r. IsBytes r.0 × (text.now ≡ wire_line r.0 ++ 10 ∷ r.1.now)) result }
{
    let Some((line, rest)) = next_line(text) else {
        return Ok(None);
    };
    let Some(digits) = digits_in(line) else {
        return Ok(None);
    };
    match of_digits(alloc, digits)? {
        Some(bytes) => Ok(Some((Bytes::from_vec(bytes), rest))),
        None => Ok(None),
    }
}

/// The message that the bytes are.
fn message_of(alloc: Global, bytes: &[u8]) -> Result<Option<Message>, NoMemory>
    ensures { Finds ((e : Envelope) → IsMessage e bytes.now → ⊥) (λ m. IsMessage (envelope_of m) bytes.now) result }
{
    let Some(front) = bytes.first_chunk::<16>() else {
        return Ok(None);
    };
    let len = match total(front) {
        Ok(len) => len as usize,
        Err(_) => return Ok(None),
    };
    if len != bytes.len() {
        return Ok(None);
    }
    match Message::parse(alloc, bytes) {
        Ok(message) => Ok(Some(message)),
        Err(ReadFault::NoMemory) => Err(NoMemory),
        Err(ReadFault::Bad(_)) => Ok(None),
    }
}

/// Whether the bytes are those that the message is written as.
fn is_written(alloc: Global, message: &Message, bytes: &[u8]) -> Result<bool, NoMemory>
    requires { MeetsRules (envelope_of message.now) }
    ensures { IfOk result
        (λ yes. IsTrue yes
        ↔ (FitsWire (envelope_of message.now) (rising_fields (envelope_of message.now))
        × (bytes.now ≡ written (envelope_of message.now)))) }
{
    let mut own = Bytes::new(alloc);
    match message.write(&mut own) {
        Ok(()) => Ok(own.as_slice() == bytes),
        Err(WriteFault::NoMemory) => Err(NoMemory),
        Err(WriteFault::Big) => Ok(false),
    }
}

/// The message that is written as the bytes.
pub(crate) fn written_as(alloc: Global, bytes: &[u8]) -> Result<Option<Message>, NoMemory>
    ensures { Finds ((e : Envelope) → IsWritable e → bytes.now ≡ written e → ⊥)
        (λ m. IsWritable (envelope_of m) × (bytes.now ≡ written (envelope_of m))) result }
{
    let Some(message) = message_of(alloc, bytes)? else {
        return Ok(None);
    };
    let is_own = is_written(alloc, &message, bytes)?;
    if !is_own {
        return Ok(None);
    }
    Ok(Some(message))
}
