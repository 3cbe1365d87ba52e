//! What a reader does, one thing after another, as messages for the link and lines for the output.

ghost use Rattle.std.specs.Prelude.{◌≡◌, ◌<◌, ◌++◌, List, [], false, length, IfNone, IfSome, IsTrue, OnOk};
ghost use Rattle.atspi_message.specs.Envelope.{Envelope, envelope_of};
ghost use Rattle.atspi_reader.specs.ReaderOf.{IsReader, reader_of};
ghost use Rattle.atspi_live_reader.specs.Spoken.{say_line};
ghost use Rattle.atspi_live_reader.specs.Handed.{GivesSo, HandsOver, KeepsLine};
ghost use Rattle.atspi_live_reader.specs.inner.Handed.{GivesRest, HandsAll};
ghost use Rattle.atspi_live_reader.specs.declared.handed.Handed.{Handed};

use crate::handed::Handed;
use atspi_base::valid_names::BusName;
use atspi_base::{Bytes, NoMemory, Text, put_quoted};
use atspi_message::Message;
use atspi_protocol::following::ReaderEvent;
use atspi_reader::Reader;

/// Appends the line of what is spoken about an application.
fn put_line(name: &BusName, text: &Text, lines: &mut Bytes) -> Result<(), NoMemory>
    ensures { OnOk result (lines.new ≡ lines.old ++ say_line name.now text.now) }
{
    lines.extend(b"say ")?;
    lines.extend(name.as_str().as_bytes())?;
    lines.push(b' ')?;
    put_quoted(text, lines)?;
    lines.push(b'\n')
}

/// Keeps the line of what is spoken. Where there is no memory for it, `starved` says so from then on.
fn keep_line(name: &BusName, text: &Text, lines: &mut Bytes, starved: &mut bool)
    ensures { KeepsLine starved.old starved.new lines.old lines.new (say_line name.now text.now) }
{
    if put_line(name, text, lines).is_err() {
        *starved = true;
    }
}

/// Takes the oldest thing that a reader did: a message, or a line that is kept with those that are to be written.
fn hand_over(reader: &mut Reader, lines: &mut Bytes, starved: &mut bool) -> Handed
    requires { IsReader reader.old }
    ensures hands { HandsOver result (reader_of reader.old) (reader_of reader.new) starved.old starved.new lines.old
        lines.new }
    ensures all { result ≡ Handed.Nothing → (reader_of reader.new).out ≡ [] }
    ensures stays { IsReader reader.new }
{
    match reader.next() {
        Some(ReaderEvent::Send(message)) => Handed::Message(message),
        Some(ReaderEvent::Say(name, text)) => {
            keep_line(&name, &text, lines, starved);
            Handed::Aside
        }
        Some(ReaderEvent::Gone(_)) => Handed::Aside,
        None => Handed::Nothing,
    }
}

/// The oldest message of a reader that was not handed out. The lines that it spoke before that are kept.
pub(crate) fn next_message(
    reader: &mut Reader,
    lines: &mut Bytes,
    starved: &mut bool,
) -> Option<Message>
    requires { IsReader reader.old }
    ensures hands { HandsAll envelope_of result (reader_of reader.old) (reader_of reader.new) starved.old starved.new
        lines.old lines.new }
    ensures stays { IsReader reader.new }
    ensures all { IfNone result ((reader_of reader.new).out ≡ []) }
    ensures fewer { IfSome result (λ m. length (reader_of reader.new).out < length (reader_of reader.old).out) }
{
    'events: loop {
        match hand_over(reader, lines, starved) {
            Handed::Message(message) => return Some(message),
            Handed::Aside => {}
            Handed::Nothing => return None,
        }
    }
}

/// Lets the oldest message go that was not handed out, and keeps the lines that were spoken before it. Whether there
/// was one.
fn let_go(reader: &mut Reader, lines: &mut Bytes, starved: &mut bool) -> bool
    requires { IsReader reader.old }
    ensures gives { (messages : List Envelope)
        × GivesSo messages (reader_of reader.old) (reader_of reader.new) starved.old starved.new lines.old lines.new }
    ensures stays { IsReader reader.new }
    ensures all { result ≡ false → (reader_of reader.new).out ≡ [] }
    ensures fewer { IsTrue result → length (reader_of reader.new).out < length (reader_of reader.old).out }
{
    let message = next_message(reader, lines, starved);
    message.is_some()
}

/// Takes all that a reader did and that was not handed out yet. The lines that it spoke are kept; the messages, for
/// which there is no link any more, are let go.
pub(crate) fn take_rest(reader: &mut Reader, lines: &mut Bytes, starved: &mut bool)
    requires { IsReader reader.old }
    ensures { GivesRest (reader_of reader.old) (reader_of reader.new) starved.old starved.new lines.old lines.new }
{
    'messages: while let_go(reader, lines, starved) {}
}
