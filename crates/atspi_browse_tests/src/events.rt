//! Cursors over events, in words.

use atspi_base::{Bytes, Text};
use atspi_browse::{Places, read_unit_line, write_unit};
use atspi_message::{Message, total};
use atspi_message_cases::bytes_of;
use atspi_script_lines::Party;
use atspi_trace_events::Event;
use std::alloc::Global;

/// The message of these words, as one that is owned.
fn message_of(alloc: Global, words: &str) -> Option<Message> {
    let bytes = bytes_of(alloc, words)?;
    let bytes = bytes.as_slice();
    let length = total(bytes.first_chunk::<16>()?).ok()?;
    if length as usize != bytes.len() {
        return None;
    }
    Message::parse(alloc, bytes).ok()
}

/// `a0` and `r0` are the ends with these numbers, `reg` is the registry.
fn party_of(word: &str) -> Option<Party> {
    if word == "reg" {
        return Some(Party::Registry);
    }
    match word.split_at_checked(1)? {
        ("a", number) => Some(Party::App(number.parse::<u32>().ok()?)),
        ("r", number) => Some(Party::Reader(number.parse::<u32>().ok()?)),
        _ => None,
    }
}

/// The event of a line: `sent WHO MESSAGE`, `got TAKER SENDER SERIAL`, `gone READER APP`.
fn event_of(alloc: Global, line: &str) -> Option<Event> {
    let (word, rest) = line.split_once(' ')?;
    let mut words = rest.split(' ');
    match word {
        "sent" => {
            let (who, message) = rest.split_once(' ')?;
            let who = party_of(who)?;
            let message = message_of(alloc, message)?;
            Some(Event::Sent { who, message })
        }
        "got" => Some(Event::Got {
            taker: party_of(words.next()?)?,
            sender: party_of(words.next()?)?,
            serial: words.next()?.parse::<u32>().ok()?,
        }),
        "gone" => Some(Event::Gone {
            reader: words.next()?.parse::<u32>().ok()?,
            app: words.next()?.parse::<u32>().ok()?,
        }),
        _ => None,
    }
}

/// A text of at most so many bytes.
const MOST: usize = 65_536;

/// The text of these characters.
fn text_of(alloc: Global, characters: &str) -> Option<Text> {
    if characters.len() > MOST {
        return None;
    }
    Text::read(alloc, characters.as_bytes()).ok()
}

/// A line is heeded or, where it asks for a unit, read in the text, and what that writes is appended.
fn step(
    alloc: Global,
    places: &mut Places,
    line: &str,
    text: &mut Text,
    out: &mut Bytes,
) -> Option<()> {
    if let Some(unit) = read_unit_line(line.as_bytes()) {
        let reading = places.read(unit, text).ok()?;
        return write_unit(&unit, text, reading, out).ok();
    }
    if let Some(characters) = line.strip_prefix("text ") {
        *text = text_of(alloc, characters)?;
        return Some(());
    }
    let event = event_of(alloc, line)?;
    places.heed(&event).ok()
}

/// What the unit lines among these lines write.
pub fn told(alloc: Global, lines: &str) -> Option<Bytes> {
    let mut places = Places::new(alloc);
    let mut text = text_of(alloc, "")?;
    let mut out = Bytes::new(alloc);
    for line in lines.lines() {
        step(alloc, &mut places, line, &mut text, &mut out)?;
    }
    Some(out)
}
