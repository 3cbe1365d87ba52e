//! The children of the registry.

ghost use Rattle.std.specs.Prelude.{◌≡◌, ◌==◌, ◌&&◌, ◌++◌, ◌∷◌, [], bytes_eq, IfOk, OnOk};
ghost use Rattle.std.specs.Option.{option_map};
ghost use Rattle.atspi_marshal_in_place.specs.Items.{item_data, fields_data, elements_data};
ghost use Rattle.atspi_message_in_place.specs.View.{bytes_of, envelope_at};
ghost use Rattle.atspi_protocol.specs.news.Arguments as arguments;
ghost use Rattle.atspi_protocol.specs.news.Arguments.{signature_of};
ghost use Rattle.atspi_protocol.specs.news.Replies.{elements_of};
ghost use Rattle.atspi_reader_news.specs.Seen.{reference_seen, elements_seen};
ghost use Rattle.atspi_protocol.specs.following.ReaderState.{ReaderState};
ghost use Rattle.atspi_protocol.specs.following.Known as known;
ghost use Rattle.atspi_protocol.specs.following.Replied.{children_signature};

use crate::sender::{is_word, sender_of};
use atspi_base::NoMemory;
use atspi_marshal_in_place::{Elements, Fields, Item};
use atspi_message_in_place::MessageRef;
use atspi_reader_news::{ReferenceRef, event_in, is_word as is_text, only, reference};
use atspi_tree_model::Reference;
use std::alloc::Global;

/// The child that an event with these arguments tells to be added.
fn child_added<'a>(body: Fields<'a>) -> Option<ReferenceRef<'a>>
    ensures { option_map reference_seen result ≡ known.child_added (arguments.event_in (fields_data body.entry)) }
{
    let e = event_in(body)?;
    if is_text(e.minor, "add") {
        return reference(e.value);
    }
    None
}

/// The new child of the registry with this name that a message tells (AT-SPI2, ChildrenChanged of interface
/// Event.Object).
pub fn new_child<'a>(registry: Option<&str>, m: &MessageRef<'a>) -> Option<ReferenceRef<'a>>
    ensures { (s : ReaderState) → s.registry ≡ bytes_of registry.entry
        → option_map reference_seen result ≡ known.new_child s (envelope_at m.now) }
{
    let registry = registry?;
    if m.kind != 4 || sender_of(m) != registry {
        return None;
    }
    if !is_word(m.interface, "org.a11y.atspi.Event.Object")
        || !is_word(m.member, "ChildrenChanged")
    {
        return None;
    }
    child_added(m.body)
}

/// Whether the body is one list of references, by its signature.
fn has_references(body: Fields) -> bool
    ensures { result ≡ bytes_eq (signature_of (fields_data body.entry)) children_signature }
{
    body.types().codes() == b"a(so)".as_slice()
}

/// Whether a message returns references, as GetChildren of the registry's root does.
pub fn returns_children(m: &MessageRef) -> bool
    ensures { result
        ≡ ((envelope_at m.now).kind == 2 && bytes_eq (signature_of (envelope_at m.now).body) children_signature) }
{
    m.kind == 2 && has_references(m.body)
}

/// A reference is put behind others, if the value is one.
fn push_reference(alloc: Global, found: &mut Vec<Reference>, value: Item) -> Result<(), NoMemory>
    ensures { OnOk result (found.new.items ≡ found.old.items ++ known.references_among (item_data value.entry ∷ [])) }
{
    if let Some(reference) = reference(value) {
        found.push(reference.owned(alloc)?)?;
    }
    Ok(())
}

/// The references among values.
fn references_of(alloc: Global, elements: Elements) -> Result<Vec<Reference>, NoMemory>
    ensures { IfOk result (λ found. found.items ≡ known.references_among (elements_data elements.entry)) }
{
    let mut found = Vec::new(alloc);
    let mut rest = elements;
    while let Some(element) = rest.next() {
        push_reference(alloc, &mut found, element)?;
    }
    Ok(found)
}

/// The references in an array.
fn references_in(alloc: Global, value: Item) -> Result<Vec<Reference>, NoMemory>
    ensures { IfOk result (λ found. found.items ≡ known.references_among (elements_seen (item_data value.entry))) }
{
    match value.elements() {
        Some(elements) => references_of(alloc, elements),
        None => Ok(Vec::new(alloc)),
    }
}

/// The references that a message returns. Memory alone can be wanting.
pub fn references(alloc: Global, m: &MessageRef) -> Result<Vec<Reference>, NoMemory>
    ensures { IfOk result (λ found. found.items ≡ known.references_among (elements_of (envelope_at m.now).body)) }
{
    match only(m.body) {
        Some(value) => references_in(alloc, value),
        None => Ok(Vec::new(alloc)),
    }
}
