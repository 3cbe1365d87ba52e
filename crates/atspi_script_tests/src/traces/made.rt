//! Events made for these tests, and their texts.

use atspi_base::valid_names::{BusName, Path};
use atspi_base::{Bytes, NoMemory, Text, Texts};
use atspi_script_lines::Party;
use atspi_trace_events::Event;
use atspi_trace_texts::{is_brief, write_event};
use atspi_tree_model::Seed;
use std::alloc::Global;

/// What spells an event: a word, up to three more, and what stands behind `|` where one is there.
#[derive(Clone, Copy)]
pub(crate) struct Words<'a> {
    pub(crate) word: &'a str,
    pub(crate) first: &'a str,
    pub(crate) second: &'a str,
    pub(crate) third: &'a str,
    pub(crate) text: Option<&'a str>,
}

/// The words of a text.
pub(crate) fn words_of(spelled: &str) -> Words<'_> {
    let (front, text) = match spelled.split_once('|') {
        Some((front, text)) => (front, Some(text)),
        None => (spelled, None),
    };
    let mut words = front.split(' ');
    Words {
        word: words.next().unwrap_or(""),
        first: words.next().unwrap_or(""),
        second: words.next().unwrap_or(""),
        third: words.next().unwrap_or(""),
        text,
    }
}

/// A number; 0 where the word is none.
pub(crate) fn number(word: &str) -> u32 {
    word.parse::<u32>().unwrap_or(0)
}

/// A text, no longer than a line.
pub(crate) fn text(alloc: Global, characters: &str) -> Option<Text> {
    if characters.len() > 65_536 {
        return None;
    }
    Text::read(alloc, characters.as_bytes()).ok()
}

/// A path.
pub(crate) fn path(alloc: Global, bytes: &str) -> Option<Path> {
    Path::read(alloc, bytes.as_bytes()).ok()
}

/// A bus name.
fn bus_name(alloc: Global, bytes: &str) -> Option<BusName> {
    BusName::read(alloc, bytes.as_bytes()).ok()
}

/// A party: `bus`, `reg`, `a` or `r` and a number.
fn party_of(word: &str) -> Party {
    match word {
        "bus" => Party::Bus,
        "reg" => Party::Registry,
        _ => match word.strip_prefix('a') {
            Some(app) => Party::App(number(app)),
            None => Party::Reader(number(word.strip_prefix('r').unwrap_or(""))),
        },
    }
}

/// The start of an end, with the name of a root where there is one.
fn start(alloc: Global, who: Party, name: Option<&str>) -> Option<Event> {
    let name = match name {
        Some(name) => Some(text(alloc, name)?),
        None => None,
    };
    Some(Event::Start { who, name })
}

/// An application hears of a listener, or hears that it listens no longer.
fn heard(alloc: Global, words: Words, pattern: Text) -> Option<Event> {
    let app = number(words.first);
    let listener = bus_name(alloc, words.second)?;
    Some(match words.word {
        "hears" => Event::Hears {
            app,
            listener,
            pattern,
        },
        _ => Event::Deaf {
            app,
            listener,
            pattern,
        },
    })
}

/// An event with a text.
fn spoken(alloc: Global, words: Words) -> Option<Event> {
    let text = text(alloc, words.text.unwrap_or(""))?;
    match words.word {
        "say" => Some(Event::Say {
            reader: number(words.first),
            app: number(words.second),
            text,
        }),
        _ => heard(alloc, words, text),
    }
}

/// An event that is neither a step nor a message that is sent, nor shows rows.
pub(crate) fn event_of(alloc: Global, words: Words) -> Option<Event> {
    let who = party_of(words.first);
    let (first, second, third) = (
        number(words.first),
        number(words.second),
        number(words.third),
    );
    match words.word {
        "start" => start(alloc, who, words.text),
        "exit" => Some(Event::Exit { who }),
        "gone" => Some(Event::Gone {
            reader: first,
            app: second,
        }),
        "dropped" => Some(Event::Dropped {
            who,
            queued: second,
            len: third,
        }),
        "busy" => Some(Event::Busy(first)),
        "quiet" => Some(Event::Quiet),
        "show" => Some(Event::Show {
            reader: first,
            app: second,
            rows: None,
        }),
        "got" => Some(Event::Got {
            taker: who,
            sender: party_of(words.second),
            serial: third,
        }),
        _ => spoken(alloc, words),
    }
}

/// Adds a clause to what a node begins with: `text=` or `static=`, `columns=`, `select`, or the name of an action.
fn put_clause(alloc: Global, seed: &mut Seed, clause: &str) -> Option<()> {
    match clause.split_once('=') {
        Some(("columns", count)) => seed.columns = Some(number(count)),
        Some((word, characters)) => {
            seed.text = Some(text(alloc, characters)?);
            seed.editable = word == "text";
        }
        None => {
            if clause == "select" {
                seed.select = true;
            } else {
                seed.actions.push(text(alloc, clause)?).ok()?;
            }
        }
    }
    Some(())
}

/// What a node begins with: its role, its name and its clauses, with `;` between two.
pub(crate) fn seed(alloc: Global, spelled: &str) -> Option<Seed> {
    let mut parts = spelled.split(';');
    let role = number(parts.next().unwrap_or(""));
    let mut seed = Seed {
        role,
        name: text(alloc, parts.next().unwrap_or(""))?,
        text: None,
        editable: false,
        columns: None,
        select: false,
        actions: Texts::new(alloc),
    };
    for clause in parts {
        put_clause(alloc, &mut seed, clause)?;
    }
    Some(seed)
}

/// Appends an event's text behind two characters.
fn put_event(event: &Event, out: &mut Bytes) -> Result<(), NoMemory> {
    out.extend(b"> ")?;
    write_event(event, out)
}

/// Whether this is a line behind these two characters, with a line's end behind it.
fn is_line(told: &[u8], due: &str) -> Option<bool> {
    let line = told.strip_prefix(b"> ")?;
    Some(line.strip_suffix(b"\n") == Some(due.as_bytes()))
}

/// Whether an event's text, behind what was there, is this with a line's end behind it.
fn is_told(alloc: Global, event: &Event, due: &str) -> bool {
    let mut out = Bytes::new(alloc);
    let put = put_event(event, &mut out);
    let is_due = is_line(out.as_slice(), due);
    put.is_ok() && is_due == Some(true)
}

/// Whether an event is told so, or whether the brief text keeps it (`kept`) or not (`left out`).
fn is_due(alloc: Global, event: &Event, due: &str) -> bool {
    match due {
        "kept" => is_brief(event),
        "left out" => !is_brief(event),
        _ => is_told(alloc, event, due),
    }
}

/// The same of an event that was made for it, which is let go here alone.
pub(crate) fn tells(alloc: Global, event: Event, due: &str) -> bool {
    is_due(alloc, &event, due)
}
