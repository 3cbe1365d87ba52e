//! What a reader sent, where that stands next in a text.

ghost use Rattle.std.specs.Prelude.{◌≡◌, ◌↔◌, ◌<◌, ◌++◌, ℕ, List, codes, IfOk, IsTrue, MatchOption, OnOk};
ghost use Rattle.atspi_message.specs.Bytes.{written};
ghost use Rattle.atspi_message.specs.Envelope.{Envelope, envelope_of};
ghost use Rattle.atspi_message.specs.declared.message.Message.{Message as AnyMessage};
ghost use Rattle.atspi_script_lines.specs.declared.limits.TheConstants.{READER_COUNT};
ghost use Rattle.atspi_trace_texts.specs.InTrace.{IsWritable};
ghost use Rattle.atspi_audit_text.specs.Told.{IsOfReader, of_reader};
ghost use Rattle.atspi_audit_text.specs.inner.Lines.{Finds, IsLineWith, NamesReader, sent_line};

use crate::lines::next_line;
use crate::wire::{next_bytes, written_as};
use atspi_base::{Bytes, NoMemory, put_decimal};
use atspi_message::Message;
use atspi_script_lines::READER_COUNT;
use atspi_trace_texts::messages::message_text;
use std::alloc::Global;

/// A message that a reader sent, with its bytes.
#[derive(Drop)]
pub struct ReaderSent {
    pub reader: u32,
    pub message: Message,
    pub bytes: Bytes,
}

/// What stands behind the word of a message that a reader sent.
fn behind_word(text: &[u8]) -> Option<&[u8]>
    ensures { MatchOption result ((rest : List ℕ) → text.now ≡ codes "sent r" ++ rest → ⊥)
        (λ rest. text.now ≡ codes "sent r" ++ rest.now) }
{
    text.strip_prefix(b"sent r".as_slice())
}

/// The reader whose message the line in front is, if it is one of a reader.
fn named_in(text: &[u8]) -> Option<u32>
    ensures { MatchOption result ((reader : ℕ) (tail : List ℕ) → NamesReader reader tail text.now → ⊥)
        (λ n. (n < READER_COUNT) × ((reader : ℕ) (tail : List ℕ) → NamesReader reader tail text.now → reader ≡ n)) }
{
    let Some(name) = behind_word(text) else {
        return None;
    };
    if name.is_empty() {
        return None;
    }
    let digit = name[0];
    if digit < b'0' {
        return None;
    }
    let reader = (digit - b'0') as u32;
    if READER_COUNT <= reader {
        return None;
    }
    Some(reader)
}

/// The line in front, the bytes that the line behind it tells, and what follows.
fn next_told(alloc: Global, text: &[u8]) -> Result<Option<(&[u8], Bytes, &[u8])>, NoMemory>
    ensures { Finds ((line bytes rest : List ℕ) → IsLineWith line bytes rest text.now → ⊥)
        (λ r. IsLineWith r.0.now r.1 r.2.now text.now) result }
{
    let Some((line, behind)) = next_line(text) else {
        return Ok(None);
    };
    match next_bytes(alloc, behind)? {
        Some((bytes, rest)) => Ok(Some((line, bytes, rest))),
        None => Ok(None),
    }
}

/// Appends the line of a message that a reader sent. After want of memory a front of it was appended.
fn put_line(reader: u32, message: &Message, out: &mut Bytes) -> Result<(), NoMemory>
    ensures { OnOk result (out.new ≡ out.old ++ sent_line reader (envelope_of message.now)) }
{
    out.extend(b"sent r")?;
    put_decimal(reader as u64, out)?;
    out.push(b' ')?;
    message_text(message, out)?;
    Ok(())
}

/// Whether this is the line of a message that a reader sent.
fn is_line(alloc: Global, reader: u32, message: &Message, line: &[u8]) -> Result<bool, NoMemory>
    ensures { IfOk result (λ yes. IsTrue yes ↔ (line.now ≡ sent_line reader (envelope_of message.now))) }
{
    let mut own = Bytes::new(alloc);
    put_line(reader, message, &mut own)?;
    Ok(own.as_slice() == line)
}

/// The message with these bytes that this line tells as one of a reader.
fn message_told(
    alloc: Global,
    reader: u32,
    line: &[u8],
    bytes: &[u8],
) -> Result<Option<Message>, NoMemory>
    ensures { Finds
        ((e : Envelope) → IsWritable e → bytes.now ≡ written e → line.now ≡ sent_line reader e → ⊥)
        (λ m. IsWritable (envelope_of m) × (bytes.now ≡ written (envelope_of m))
        × (line.now ≡ sent_line reader (envelope_of m))) result }
{
    let Some(message) = written_as(alloc, bytes)? else {
        return Ok(None);
    };
    let is_told = is_line(alloc, reader, &message, line)?;
    if !is_told {
        return Ok(None);
    }
    Ok(Some(message))
}

/// The message that a reader sent, with its bytes, where the text begins with that; and what follows it. None exactly
/// where it does not.
pub fn next_of_reader(alloc: Global, text: &[u8]) -> Result<Option<(ReaderSent, &[u8])>, NoMemory>
    ensures { IfOk result
        (λ found. MatchOption found
        ((reader : ℕ) (message : AnyMessage) (rest : List ℕ) → IsOfReader reader message
        → text.now ≡ of_reader reader message ++ rest → ⊥)
        (λ r. IsOfReader r.0.reader r.0.message × (r.0.bytes ≡ written (envelope_of r.0.message))
        × (text.now ≡ of_reader r.0.reader r.0.message ++ r.1.now))) }
{
    let Some(reader) = named_in(text) else {
        return Ok(None);
    };
    let Some((line, bytes, rest)) = next_told(alloc, text)? else {
        return Ok(None);
    };
    match message_told(alloc, reader, line, bytes.as_slice())? {
        Some(message) => Ok(Some((
            ReaderSent {
                reader,
                message,
                bytes,
            },
            rest,
        ))),
        None => Ok(None),
    }
}
