//! The line that tells an event, without its line feed. After want of memory a front of it was appended.

ghost use Rattle.std.specs.Prelude.{◌≡◌, [], ◌∷◌, ◌++◌, OnOk, codes, length, take};
ghost use Rattle.atspi_script_lines.specs.Words.{app_name, literal, number, quote, reader_name};
ghost use Rattle.atspi_message.specs.Envelope.{envelope_of};
ghost use Rattle.atspi_script.specs.MessageText.{message_text as text_of_message};
ghost use Rattle.atspi_trace_texts.specs.EventForms.{count_text, end_word, name_words, step_form};
ghost use Rattle.atspi_trace_texts.specs.EventText.{event_line};
ghost use Rattle.atspi_trace_texts.specs.Written.{words_behind, words_text};

use crate::messages::message_text;
use crate::steps::put_step;
use crate::words::{put_app, put_number, put_party, put_reader, put_text, put_word};
use atspi_base::valid_names::BusName;
use atspi_base::{Bytes, NoMemory, Text, put_decimal};
use atspi_message::Message;
use atspi_script_lines::Party;
use atspi_trace_events::{Event, Shown};
use atspi_tree_model::Step;

/// Appends that an end was started, and the name of an application's root.
fn put_start(who: Party, name: &Option<Text>, out: &mut Bytes) -> Result<(), NoMemory>
    ensures ok { OnOk result
        (out.new ≡ out.old ++ words_text (literal (codes "start") ∷ end_word who ∷ name_words name.now)) }
    ensures front { take (length out.old) out.new ≡ out.old }
{
    out.extend(b"start")?;
    put_party(who, out)?;
    match name {
        Some(name) => put_text(name, out),
        None => Ok(()),
    }
}

/// Appends that an application's tree changed, and how.
fn put_change(app: u32, step: &Step, out: &mut Bytes) -> Result<(), NoMemory>
    ensures ok { OnOk result
        (out.new ≡ out.old ++ words_text (literal (codes "step") ∷ app_name app ∷ step_form step.now)) }
    ensures front { take (length out.old) out.new ≡ out.old }
{
    out.extend(b"step")?;
    put_app(app, out)?;
    put_step(step, out)
}

/// Appends a word and a party.
fn put_end(word: &[u8], who: Party, out: &mut Bytes) -> Result<(), NoMemory>
    ensures ok { OnOk result (out.new ≡ out.old ++ words_text (literal word.now ∷ end_word who ∷ [])) }
    ensures front { take (length out.old) out.new ≡ out.old }
{
    out.extend(word)?;
    put_party(who, out)
}

/// Appends the text of a message behind a space.
fn put_message(message: &Message, out: &mut Bytes) -> Result<(), NoMemory>
    ensures ok { OnOk result (out.new ≡ out.old ++ 32 ∷ text_of_message (envelope_of message.now)) }
    ensures front { take (length out.old) out.new ≡ out.old }
{
    out.push(b' ')?;
    message_text(message, out)
}

/// Appends that a message was sent, and its text.
fn put_sent(who: Party, message: &Message, out: &mut Bytes) -> Result<(), NoMemory>
    ensures ok { OnOk result
        (out.new
        ≡ out.old
        ++ (words_text (literal (codes "sent") ∷ end_word who ∷ []) ++ 32
        ∷ text_of_message (envelope_of message.now))) }
    ensures front { take (length out.old) out.new ≡ out.old }
{
    put_end(b"sent", who, out)?;
    put_message(message, out)
}

/// Appends whose message was taken, and its serial.
fn put_taken(sender: Party, serial: u32, out: &mut Bytes) -> Result<(), NoMemory>
    ensures ok { OnOk result (out.new ≡ out.old ++ words_behind (end_word sender ∷ number serial ∷ [])) }
    ensures front { take (length out.old) out.new ≡ out.old }
{
    put_party(sender, out)?;
    put_number(serial, out)
}

/// Appends who took whose message, and its serial.
fn put_got(taker: Party, sender: Party, serial: u32, out: &mut Bytes) -> Result<(), NoMemory>
    ensures ok { OnOk result
        (out.new
        ≡ out.old ++ words_text (literal (codes "got") ∷ end_word taker ∷ end_word sender ∷ number serial ∷ [])) }
    ensures front { take (length out.old) out.new ≡ out.old }
{
    put_end(b"got", taker, out)?;
    put_taken(sender, serial, out)
}

/// Appends a word, who heard of whom, and the pattern of events.
fn put_hearing(
    word: &[u8],
    app: u32,
    listener: &BusName,
    pattern: &Text,
    out: &mut Bytes,
) -> Result<(), NoMemory>
    ensures ok { OnOk result
        (out.new
        ≡ out.old ++ words_text (literal word.now ∷ app_name app ∷ literal listener.now ∷ quote pattern.now ∷ [])) }
    ensures front { take (length out.old) out.new ≡ out.old }
{
    out.extend(word)?;
    put_app(app, out)?;
    put_word(listener.as_str().as_bytes(), out)?;
    put_text(pattern, out)
}

/// Appends a word, a reader and an application.
fn put_pair(word: &[u8], reader: u32, app: u32, out: &mut Bytes) -> Result<(), NoMemory>
    ensures ok { OnOk result
        (out.new ≡ out.old ++ words_text (literal word.now ∷ reader_name reader ∷ app_name app ∷ [])) }
    ensures front { take (length out.old) out.new ≡ out.old }
{
    out.extend(word)?;
    put_reader(reader, out)?;
    put_app(app, out)
}

/// Appends what a reader said of an application.
fn put_say(reader: u32, app: u32, text: &Text, out: &mut Bytes) -> Result<(), NoMemory>
    ensures ok { OnOk result
        (out.new
        ≡ out.old ++ words_text (literal (codes "say") ∷ reader_name reader ∷ app_name app ∷ quote text.now ∷ [])) }
    ensures front { take (length out.old) out.new ≡ out.old }
{
    put_pair(b"say", reader, app, out)?;
    put_text(text, out)
}

/// Appends how many rows are shown, or `none`.
fn put_count(rows: &Option<Shown>, out: &mut Bytes) -> Result<(), NoMemory>
    ensures ok { OnOk result (out.new ≡ out.old ++ words_behind (literal (count_text rows.now) ∷ [])) }
    ensures front { take (length out.old) out.new ≡ out.old }
{
    match rows {
        None => out.extend(b" none"),
        Some(shown) => {
            out.push(b' ')?;
            put_decimal(shown.as_slice().len() as u64, out)
        }
    }
}

/// Appends that a reader showed an application, and how many rows.
fn put_show(reader: u32, app: u32, rows: &Option<Shown>, out: &mut Bytes) -> Result<(), NoMemory>
    ensures ok { OnOk result
        (out.new
        ≡ out.old
        ++ words_text
        (literal (codes "show") ∷ reader_name reader ∷ app_name app ∷ literal (count_text rows.now) ∷ [])) }
    ensures front { take (length out.old) out.new ≡ out.old }
{
    put_pair(b"show", reader, app, out)?;
    put_count(rows, out)
}

/// Appends who was dropped, what waited, and what was too much.
fn put_dropped(who: Party, queued: u32, len: u32, out: &mut Bytes) -> Result<(), NoMemory>
    ensures ok { OnOk result
        (out.new ≡ out.old ++ words_text (literal (codes "dropped") ∷ end_word who ∷ number queued ∷ number len ∷ [])) }
    ensures front { take (length out.old) out.new ≡ out.old }
{
    out.extend(b"dropped")?;
    put_party(who, out)?;
    put_number(queued, out)?;
    put_number(len, out)
}

/// Appends that something waits behind so many turns.
fn put_busy(turns: u32, out: &mut Bytes) -> Result<(), NoMemory>
    ensures ok { OnOk result (out.new ≡ out.old ++ words_text (literal (codes "busy") ∷ number turns ∷ [])) }
    ensures front { take (length out.old) out.new ≡ out.old }
{
    out.extend(b"busy")?;
    put_number(turns, out)
}

/// Appends the event's line.
pub(crate) fn put_line(event: &Event, out: &mut Bytes) -> Result<(), NoMemory>
    ensures ok { OnOk result (out.new ≡ out.old ++ event_line event.now) }
    ensures front { take (length out.old) out.new ≡ out.old }
{
    match event {
        Event::Start { who, name } => put_start(*who, name, out),
        Event::Step { app, step } => put_change(*app, step, out),
        Event::Sent { who, message } => put_sent(*who, message, out),
        Event::Got {
            taker,
            sender,
            serial,
        } => put_got(*taker, *sender, *serial, out),
        Event::Hears {
            app,
            listener,
            pattern,
        } => put_hearing(b"hears", *app, listener, pattern, out),
        Event::Deaf {
            app,
            listener,
            pattern,
        } => put_hearing(b"deaf", *app, listener, pattern, out),
        Event::Say { reader, app, text } => put_say(*reader, *app, text, out),
        Event::Show { reader, app, rows } => put_show(*reader, *app, rows, out),
        Event::Exit { who } => put_end(b"exit", *who, out),
        Event::Gone { reader, app } => put_pair(b"gone", *reader, *app, out),
        Event::Dropped { who, queued, len } => put_dropped(*who, *queued, *len, out),
        Event::Busy(turns) => put_busy(*turns, out),
        Event::Quiet => out.extend(b"quiet"),
    }
}
