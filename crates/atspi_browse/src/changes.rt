//! What a message tells of a text: characters that were put in, or taken out.

ghost use Rattle.std.specs.Prelude.{◌≡◌, ◌==◌, ◌&&◌, ◌<◌, ◌^◌, ℕ, List, Some, MatchOption, codes, bytes_eq};
ghost use Rattle.std.specs.Prelude.{chars, true};
ghost use Rattle.std.specs.Char.{is_ascii};
ghost use Rattle.std.specs.List.{list_all};
ghost use Rattle.atspi_types.specs.Data.{text_data, variant_data, number_data};
ghost use Rattle.atspi_types.specs.Kinds.{Kind, i32};
ghost use Rattle.atspi_types.specs.Borrowed.{ref_data};
ghost use Rattle.atspi_types.specs.DataView.{all_data};
ghost use Rattle.atspi_message.specs.Envelope.{envelope_of};
ghost use Rattle.atspi_protocol.specs.news.Arguments.{event_in, signed};
ghost use Rattle.atspi_protocol.specs.news.Events.{is_front};
ghost use Rattle.atspi_protocol.specs.news.NewsOf.{event_interface, or_empty};
ghost use Rattle.atspi_tree_model.specs.Path.{path_of};
ghost use Rattle.atspi_browse.specs.Cursor.{of_message};
ghost use Rattle.atspi_browse.specs.inner.Changes.{moment_of, moment_at, of_deletion, of_events, of_insertion};
ghost use Rattle.atspi_browse.specs.inner.Changes.{of_minor};

use atspi_app_calls::node_at;
use atspi_base::Text;
use atspi_message::Message;
use atspi_types::{Value, ValueRef, Values};

/// A change of a text: so many characters were put in at a place, or taken out from one on.
#[derive(Clone, Copy, Debug, PartialEq, Eq)]
pub enum Change {
    Inserted { at: u32, count: u32 },
    Deleted { at: u32, count: u32 },
}

/// A change of the text of a node.
#[derive(Clone, Copy, Debug, PartialEq, Eq)]
pub struct NodeChange {
    pub node: u32,
    pub change: Change,
}

/// Whether a text begins with a word.
fn begins_with(text: &str, word: &str) -> bool
    requires { list_all is_ascii word.now ≡ true }
    ensures { result ≡ is_front word.now (chars text.now) }
{
    text.as_bytes().starts_with(word.as_bytes())
}

/// Characters were put in.
fn inserted(at: i32, text: &Text) -> Option<Change>
    ensures { moment_of result ≡ of_insertion at text.now }
{
    if at < 0 {
        return None;
    }
    Some(Change::Inserted {
        at: at as u32,
        count: text.count(),
    })
}

/// Characters were taken out.
fn deleted(at: i32, count: i32) -> Option<Change>
    ensures { moment_of result ≡ of_deletion at count }
{
    if at < 0 {
        return None;
    }
    if count < 0 {
        return None;
    }
    Some(Change::Deleted {
        at: at as u32,
        count: count as u32,
    })
}

/// What an event of a text tells, by its arguments.
fn event_told(minor: &Text, at: i32, count: i32, text: &Text) -> Option<Change>
    ensures { moment_of result ≡ of_minor minor.now at count text.now }
{
    let name = minor.as_str();
    if begins_with(name, "insert") {
        return inserted(at, text);
    }
    if begins_with(name, "delete") {
        return deleted(at, count);
    }
    None
}

/// The text that a value is.
fn text_in(value: ValueRef<'_>) -> Option<&Text>
    ensures { MatchOption result ((text : List ℕ) → ref_data value.entry ≡ text_data text → ⊥)
        (λ text. ref_data value.entry ≡ text_data text.now) }
{
    match value {
        ValueRef::Text(text) => Some(text),
        _ => None,
    }
}

/// The signed number of 32 bits that a value is.
fn number_in(value: ValueRef<'_>) -> Option<i32>
    ensures { MatchOption result ((bits : ℕ) → ref_data value.entry ≡ number_data i32 bits → ⊥)
        (λ number. (bits : ℕ) × (ref_data value.entry ≡ number_data i32 bits) × (signed bits ≡ number)) }
{
    match value {
        ValueRef::I32(number) => Some(number),
        _ => None,
    }
}

/// The text in a variant.
fn text_within(value: ValueRef<'_>) -> Option<&Text>
    ensures { MatchOption result
        ((kind : Kind) (text : List ℕ) → ref_data value.entry ≡ variant_data kind (text_data text) → ⊥)
        (λ text. (kind : Kind) × (ref_data value.entry ≡ variant_data kind (text_data text.now))) }
{
    match value {
        ValueRef::Variant(_, inner) => match inner {
            Value::Text(text) => Some(text),
            _ => None,
        },
        _ => None,
    }
}

/// What the body of an event of a text tells.
fn body_told(body: &Values) -> Option<Change>
    ensures { moment_of result ≡ of_events (event_in (all_data body.now)) }
{
    if body.len() < 4 {
        return None;
    }
    let Some(minor) = text_in(body.at(0)) else {
        return None;
    };
    let Some(at) = number_in(body.at(1)) else {
        return None;
    };
    let Some(count) = number_in(body.at(2)) else {
        return None;
    };
    let Some(text) = text_within(body.at(3)) else {
        return None;
    };
    event_told(minor, at, count, text)
}

/// Whether a message has the interface of events of objects.
fn is_of_object(m: &Message) -> bool
    ensures { result ≡ bytes_eq (or_empty m.now.interface) event_interface }
{
    match &m.interface {
        Some(name) => name.as_str() == "org.a11y.atspi.Event.Object",
        None => false,
    }
}

/// Whether a message has the member of changes of texts.
fn is_of_text(m: &Message) -> bool
    ensures { result ≡ bytes_eq (or_empty m.now.member) (codes "TextChanged") }
{
    match &m.member {
        Some(name) => name.as_str() == "TextChanged",
        None => false,
    }
}

/// Whether a message is an event of a text.
fn is_text_event(m: &Message) -> bool
    ensures { result
        ≡ (m.now.kind == 4)
        && (bytes_eq (or_empty m.now.interface) event_interface
        && bytes_eq (or_empty m.now.member) (codes "TextChanged")) }
{
    m.kind == 4 && (is_of_object(m) && is_of_text(m))
}

/// What a message tells of the text of a node, none where it tells of no text.
pub fn change_told(m: &Message) -> Option<NodeChange>
    ensures { (n : ℕ) → n < 2 ^ 32 → of_message (path_of n) (Some (envelope_of m.now)) ≡ moment_at n result }
{
    if !is_text_event(m) {
        return None;
    }
    let Some(path) = &m.path else {
        return None;
    };
    let Some(node) = node_at(path.as_str()) else {
        return None;
    };
    match body_told(&m.body) {
        Some(change) => Some(NodeChange { node, change }),
        None => None,
    }
}
