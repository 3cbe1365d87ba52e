//! What a reader does and keeps, as texts.

use atspi_base::valid_names::BusName;
use atspi_cache::Seen;
use atspi_message::Message;
use atspi_protocol::following::ReaderEvent;
use atspi_reader::Reader;
use atspi_tree_model::{NumPart, Part};
use atspi_types::ValueRef;
use std::alloc::Global;

/// Appends a text behind what parts it from the last one.
pub(crate) fn push_part(text: &mut String, gap: &str, part: &str) -> Option<()> {
    if !text.is_empty() {
        text.push_str(gap).ok()?;
    }
    text.push_str(part).ok()
}

/// Appends a number.
pub(crate) fn push_number(text: &mut String, alloc: Global, number: i64) -> Option<()> {
    let digits = format!(in alloc; "{number}").ok()?;
    text.push_str(digits.as_str()).ok()
}

/// The first argument of a message, where it is a text.
fn first_text(message: &Message) -> &str {
    if message.body.len() == 0 {
        return "";
    }
    match message.body.at(0) {
        ValueRef::Text(text) => text.as_str(),
        _ => "",
    }
}

/// Appends a message: its serial, member, destination and path, and its first argument, where that is a text.
fn push_message(text: &mut String, alloc: Global, message: &Message) -> Option<()> {
    push_part(text, "; ", "")?;
    push_number(text, alloc, i64::from(message.serial))?;
    if let Some(member) = &message.member {
        push_part(text, " ", member.as_str())?;
    }
    if let Some(to) = &message.destination {
        push_part(text, " ", to.as_str())?;
    }
    if let Some(path) = &message.path {
        push_part(text, " ", path.as_str())?;
    }
    let argument = first_text(message);
    if argument.is_empty() {
        return Some(());
    }
    push_part(text, " ", argument)
}

/// Appends a spoken line.
fn push_spoken(text: &mut String, name: &BusName, line: &str) -> Option<()> {
    push_part(text, "; ", "say")?;
    push_part(text, " ", name.as_str())?;
    push_part(text, " ", line)
}

/// Appends that an application is gone.
fn push_gone(text: &mut String, name: &BusName) -> Option<()> {
    push_part(text, "; ", "gone")?;
    push_part(text, " ", name.as_str())
}

/// Appends what a reader did.
pub(crate) fn push_event(text: &mut String, alloc: Global, event: &ReaderEvent) -> Option<()> {
    match event {
        ReaderEvent::Send(message) => push_message(text, alloc, message),
        ReaderEvent::Say(name, line) => push_spoken(text, name, line.as_str()),
        ReaderEvent::Gone(name) => push_gone(text, name),
    }
}

/// Appends a text part: `-` where there is none, `?` where it is not known.
fn push_text(text: &mut String, part: &Part) -> Option<()> {
    match part {
        Part::Absent => push_part(text, " ", "-"),
        Part::Unknown => push_part(text, " ", "?"),
        Part::Known(known) => {
            push_part(text, " ", "=")?;
            text.push_str(known.as_str()).ok()
        }
    }
}

/// Appends a number part, in the same way.
fn push_count(text: &mut String, alloc: Global, part: NumPart) -> Option<()> {
    match part {
        NumPart::Absent => push_part(text, " ", "-"),
        NumPart::Unknown => push_part(text, " ", "?"),
        NumPart::Known(number) => {
            push_part(text, " ", "")?;
            push_number(text, alloc, i64::from(number))
        }
    }
}

/// Appends where a row stands: `<PARENT@INDEX` for all but the root.
fn push_place(text: &mut String, alloc: Global, seen: Seen) -> Option<()> {
    match seen.parent {
        Some(parent) => {
            text.push_str("<").ok()?;
            text.push_str(parent.as_str()).ok()?;
            text.push_str("@").ok()?;
            push_number(text, alloc, i64::from(seen.index))
        }
        None => Some(()),
    }
}

/// Appends a row: its path and place, its name, and its text, caret and columns.
fn push_seen(text: &mut String, alloc: Global, seen: Seen) -> Option<()> {
    push_part(text, ", ", seen.row.path.as_str())?;
    push_place(text, alloc, seen)?;
    push_part(text, " ", seen.row.name.as_str())?;
    push_text(text, &seen.row.text)?;
    push_count(text, alloc, seen.row.caret)?;
    push_count(text, alloc, seen.row.columns)
}

/// Appends the rows of an application in preorder, or `none` where it is not held.
pub(crate) fn push_rows(
    text: &mut String,
    alloc: Global,
    reader: &Reader,
    name: &BusName,
) -> Option<()> {
    let Some(rows) = reader.view(name) else {
        return text.push_str("none").ok();
    };
    for seen in rows {
        push_seen(text, alloc, seen)?;
    }
    Some(())
}

/// Appends the names of the applications that are held, in order, up to a hundred.
pub(crate) fn push_held(text: &mut String, reader: &Reader) -> Option<()> {
    for k in 0..100 {
        match reader.held(k) {
            Some(name) => push_part(text, " ", name.as_str())?,
            None => return Some(()),
        }
    }
    None
}
