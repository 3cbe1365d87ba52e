//! What the replies to a reader's own calls tell.

ghost use Rattle.std.specs.Prelude.{◌≡◌, ◌∷◌, ◌++◌, [], bytes_eq, IfOk, OnOk};
ghost use Rattle.atspi_marshal_in_place.specs.Items.{item_data, fields_data, elements_data};
ghost use Rattle.atspi_message_in_place.specs.View.{envelope_at};
ghost use Rattle.atspi_protocol.specs.news.Replies as definitions;
ghost use Rattle.atspi_protocol.specs.news.Replies.{elements_of, items_among, items_signature};
ghost use Rattle.atspi_protocol.specs.news.Arguments.{signature_of};
ghost use Rattle.atspi_reader_news.specs.Seen.{count_seen, elements_seen};

use crate::argument::only;
use crate::event::text_of;
use crate::item::item;
use atspi_base::NoMemory;
use atspi_base::valid_names::Path;
use atspi_marshal_in_place::{Elements, Fields, Item};
use atspi_message_in_place::MessageRef;
use atspi_protocol::news::PartName;
use atspi_tree_model::{Items, News};
use std::alloc::Global;

/// Whether the body is one list of items, by its signature.
fn has_items(body: Fields) -> bool
    ensures { result ≡ bytes_eq (signature_of (fields_data body.entry)) items_signature }
{
    body.types().codes() == b"a((so)(so)(so)iiassusau)".as_slice()
}

/// The items that a reply to GetItems tells; a misformed one, or an error, tells none. Memory alone can be wanting.
pub fn items_told(alloc: Global, m: &MessageRef<'_>) -> Result<Option<Items>, NoMemory>
    ensures { IfOk result (λ items. items ≡ definitions.items_told (envelope_at m.now)) }
{
    if m.kind != 2 {
        return Ok(None);
    }
    if !has_items(m.body) {
        return Ok(None);
    }
    Ok(Some(items(alloc, m.body)?))
}

/// The items in the array that comes first.
fn items(alloc: Global, body: Fields) -> Result<Items, NoMemory>
    ensures { IfOk result (λ items. items ≡ items_among (elements_of (fields_data body.entry))) }
{
    match only(body) {
        Some(value) => items_in(alloc, value),
        None => Ok(Items::new(alloc)),
    }
}

/// The items in an array.
fn items_in(alloc: Global, value: Item) -> Result<Items, NoMemory>
    ensures { IfOk result (λ items. items ≡ items_among (elements_seen (item_data value.entry))) }
{
    match value.elements() {
        Some(elements) => items_of(alloc, elements),
        None => Ok(Items::new(alloc)),
    }
}

/// An element is put behind items, if it is one.
fn push_item(alloc: Global, items: &mut Items, element: Item) -> Result<(), NoMemory>
    ensures { OnOk result (items.new ≡ items.old ++ items_among (item_data element.entry ∷ [])) }
{
    match item(element) {
        Some(item) => {
            items.push(item.owned(alloc)?)?;
            Ok(())
        }
        None => Ok(()),
    }
}

/// The items among values.
fn items_of(alloc: Global, elements: Elements) -> Result<Items, NoMemory>
    ensures { IfOk result (λ items. items ≡ items_among (elements_data elements.entry)) }
{
    let mut items = Items::new(alloc);
    let mut rest = elements;
    while let Some(element) = rest.next() {
        push_item(alloc, &mut items, element)?;
    }
    Ok(items)
}

/// The number that is told: one that is not negative, in a variant.
fn count_of(value: Item) -> Option<i32>
    ensures { result ≡ count_seen (item_data value.entry) }
{
    let count = value.variant()?.i32()?;
    if count < 0 {
        return None;
    }
    Some(count)
}

/// The part that a reply tells of the row with this path; a misformed one, or an error, tells none. Memory alone can be
/// wanting.
pub fn part_told(
    alloc: Global,
    part: PartName,
    path: &Path,
    m: &MessageRef<'_>,
) -> Result<Option<News>, NoMemory>
    ensures { IfOk result (λ news. news ≡ definitions.part_told part path.now (envelope_at m.now)) }
{
    if m.kind != 2 {
        return Ok(None);
    }
    match only(m.body) {
        Some(value) => part_in(alloc, part, path, value),
        None => Ok(None),
    }
}

/// The part that the one value of a return tells.
fn part_in(
    alloc: Global,
    part: PartName,
    path: &Path,
    value: Item,
) -> Result<Option<News>, NoMemory>
    ensures { IfOk result (λ news. news ≡ definitions.part_in part path.now (item_data value.entry ∷ [])) }
{
    match part {
        PartName::Text => match text_of(alloc, value)? {
            Some(text) => Ok(Some(News::TextIs(path.copy(alloc)?, text))),
            None => Ok(None),
        },
        PartName::Caret => match count_of(value) {
            Some(count) => Ok(Some(News::CaretIs(path.copy(alloc)?, count))),
            None => Ok(None),
        },
        PartName::Columns => match count_of(value) {
            Some(count) => Ok(Some(News::ColumnsIs(path.copy(alloc)?, count))),
            None => Ok(None),
        },
    }
}
