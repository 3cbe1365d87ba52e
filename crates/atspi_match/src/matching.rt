//! Whether a message meets a rule.

ghost use Rattle.std.specs.Prelude.{◌≡◌, ◌↔◌, IsTrue, IsSomeAnd, Some, option_copied, slice_get};
ghost use Rattle.std.specs.Option.{option_map};
ghost use Rattle.atspi_marshal_in_place.specs.Items.{item_data, fields_data};
ghost use Rattle.atspi_message_in_place.specs.View.{bytes_of, envelope_at};
ghost use Rattle.atspi_match.specs.Matching as matching;
ghost use Rattle.atspi_match.specs.Matching.{Matches, Holds, GoesBy, Owns, BeginsWith, EndsInSlash, IsWithin};
ghost use Rattle.atspi_match.specs.Matching.{IsPathWithin, IsSameBranch};

use crate::{Condition, Rule};
use atspi_base::valid_names::BusName;
use atspi_marshal_in_place::Item;
use atspi_message_in_place::MessageRef;
use atspi_names::Names;

impl Rule {
    /// Whether the message meets each condition of the rule (D-Bus Specification, "Match Rules"). The owners of
    /// well-known names are those of the call.
    pub fn matches(&self, m: &MessageRef, names: &Names) -> bool
        ensures { IsTrue result ↔ Matches self.now (envelope_at m.now) names.now }
    {
        self.conditions()
            .iter()
            .all(|condition| holds(condition, m, names))
    }
}

/// Whether the condition holds of the message.
fn holds(condition: &Condition, m: &MessageRef, names: &Names) -> bool
    ensures { IsTrue result ↔ Holds (envelope_at m.now) names.now condition.now }
{
    match condition {
        Condition::Kind(kind) => m.kind == kind.number(),
        Condition::Sender(name) => goes_by(names, name, m.sender),
        Condition::Interface(name) => is_named(m.interface, name.as_str()),
        Condition::Member(name) => is_named(m.member, name.as_str()),
        Condition::Path(path) => is_named(m.path, path.as_str()),
        Condition::PathNamespace(namespace) => match m.path {
            Some(path) => is_path_within(namespace.as_str().as_bytes(), path.as_bytes()),
            None => false,
        },
        Condition::Destination(name) => goes_by(names, name, m.destination),
        Condition::Arg { index, text } => match text_argument(m, *index) {
            Some(argument) => argument == text.as_str().as_bytes(),
            None => false,
        },
        Condition::ArgPath { index, text } => match text_or_path_argument(m, *index) {
            Some(argument) => is_same_branch(text.as_str().as_bytes(), argument),
            None => false,
        },
        Condition::Arg0Namespace(namespace) => match text_argument(m, 0) {
            Some(argument) => is_within(b'.', namespace.as_str().as_bytes(), argument),
            None => false,
        },
        Condition::Eavesdrop(_) => true,
    }
}

/// Whether a field is there and has the name.
fn is_named(field: Option<&str>, name: &str) -> bool
    ensures { IsTrue result ↔ (bytes_of field.entry ≡ Some name.now) }
{
    match field {
        Some(field) => field == name,
        None => false,
    }
}

/// Whether a sender or a destination goes by the name: literally, or as its owner.
fn goes_by(names: &Names, name: &BusName, field: Option<&str>) -> bool
    ensures { IsTrue result ↔ IsSomeAnd (bytes_of field.entry) (GoesBy names.now name.now) }
{
    match field {
        Some(field) => { field == name.as_str() || (!name.is_unique() && owns(names, name, field)) }
        None => false,
    }
}

/// Whether the connection that owns the name has the unique name.
fn owns(names: &Names, name: &BusName, unique: &str) -> bool
    ensures { IsTrue result ↔ Owns names.now name.now unique.now }
{
    let Some(conn) = names.owner(name) else {
        return false;
    };
    match names.unique_name(conn) {
        Some(owner) => owner.as_str() == unique,
        None => false,
    }
}

/// Whether the path lies in the namespace.
fn is_path_within(namespace: &[u8], path: &[u8]) -> bool
    ensures { IsTrue result ↔ IsPathWithin namespace.now path.now }
{
    namespace == b"/".as_slice() || is_within(b'/', namespace, path)
}

/// Whether the text is the namespace, or begins with it and the separator.
fn is_within(separator: u8, namespace: &[u8], text: &[u8]) -> bool
    ensures { IsTrue result ↔ IsWithin separator namespace.now text.now }
{
    match text.strip_prefix(namespace) {
        Some([]) => true,
        Some([first, ..]) => *first == separator,
        None => false,
    }
}

/// Whether the two are the same path, or one of them ends in `/` and the other begins with it.
fn is_same_branch(a: &[u8], b: &[u8]) -> bool
    ensures { IsTrue result ↔ IsSameBranch a.now b.now }
{
    a == b || (ends_in_slash(a) && begins_with(b, a)) || (ends_in_slash(b) && begins_with(a, b))
}

/// Whether the text ends in `/`.
fn ends_in_slash(text: &[u8]) -> bool
    ensures { IsTrue result ↔ EndsInSlash text.now }
{
    text.ends_with(b"/")
}

/// Whether the text begins with another.
fn begins_with(text: &[u8], front: &[u8]) -> bool
    ensures { IsTrue result ↔ BeginsWith text.now front.now }
{
    text.starts_with(front)
}

/// The argument of this number, counted from 0, where it lies.
fn argument<'a>(m: &MessageRef<'a>, index: u8) -> Option<Item<'a>>
    ensures { option_map item_data result ≡ slice_get (fields_data m.now.body) index }
{
    let mut rest = m.body;
    for _ in 0..index {
        rest.next()?;
    }
    rest.next()
}

/// The bytes of the text that is the argument of this number.
pub fn text_argument<'a>(m: &MessageRef<'a>, index: u8) -> Option<&'a [u8]>
    ensures { option_copied result ≡ matching.text_argument (envelope_at m.now) index }
{
    let text = argument(m, index)?.text()?;
    Some(text.as_bytes())
}

/// The bytes of the text or path that is the argument of this number.
fn text_or_path_argument<'a>(m: &MessageRef<'a>, index: u8) -> Option<&'a [u8]>
    ensures { option_copied result ≡ matching.text_or_path_argument (envelope_at m.now) index }
{
    let item = argument(m, index)?;
    if let Some(text) = item.text() {
        return Some(text.as_bytes());
    }
    let path = item.path()?;
    Some(path.as_bytes())
}
