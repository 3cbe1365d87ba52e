//! Arguments that edits keep, and places from outside.

ghost use Rattle.std.specs.Prelude.{◌≡◌, Some, IfOk};
ghost use Rattle.atspi_marshal_in_place.specs.Items.{item_data, fields_data};
ghost use Rattle.atspi_protocol.specs.members.Arguments.{characters_in, text_at};
ghost use Rattle.atspi_app_contents.specs.values.Places.{place_of};

use crate::values::empty;
use atspi_base::{NoMemory, Text};
use atspi_marshal_in_place::{Fields, Item};
use std::alloc::Global;

/// A place or an index; none below 0.
pub(crate) fn place(index: i32) -> Option<u32>
    ensures { result ≡ place_of index }
{
    if index < 0 { None } else { Some(index as u32) }
}

/// The text, and an empty one for another value.
fn owned(alloc: Global, item: Item) -> Result<Text, NoMemory>
    ensures { IfOk result (λ text. text ≡ characters_in (Some (item_data item.entry))) }
{
    match item.text() {
        Some(text) => Text::of(alloc, text),
        None => empty(alloc),
    }
}

/// The first argument where it is a text, and an empty one else.
pub(crate) fn first_owned(alloc: Global, args: Fields) -> Result<Text, NoMemory>
    ensures { IfOk result (λ text. text ≡ text_at 0 (fields_data args.entry)) }
{
    let mut rest = args;
    match rest.next() {
        Some(first) => owned(alloc, first),
        None => empty(alloc),
    }
}

/// The second argument where it is a text, and an empty one else.
pub(crate) fn second_owned(alloc: Global, args: Fields) -> Result<Text, NoMemory>
    ensures { IfOk result (λ text. text ≡ text_at 1 (fields_data args.entry)) }
{
    let mut rest = args;
    match rest.next() {
        Some(_) => first_owned(alloc, rest),
        None => empty(alloc),
    }
}
