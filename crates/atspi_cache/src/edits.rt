//! A text with characters put in or taken out.

ghost use Rattle.std.specs.Prelude.{◌≡◌, ◌+◌, ◌≤◌, length, chars, IfOk};
ghost use Rattle.atspi_tree_model.specs.Row.{delete_there, insert_there, with_delete, with_insert};

use atspi_base::{NoMemory, Text, byte_of};
use atspi_cache_arena::spot;
use std::alloc::Global;

/// The text with another put in before the character at a place. `Err` comes for want of memory, or of room for more
/// bytes than a text has.
fn with_insert(alloc: Global, old: &Text, at: usize, more: &Text) -> Result<Text, NoMemory>
    requires { at ≤ length old.now }
    ensures { IfOk result (λ text. text ≡ with_insert at more.now old.now) }
{
    let text = more.as_str();
    let before = old.as_str();
    if u32::MAX as usize - before.len() < text.len() {
        return Err(NoMemory);
    }
    let place = byte_of(before, at);
    let mut string = String::from_str(alloc, before)?;
    if string.insert_str(place, text).is_err() {
        return Err(NoMemory);
    }
    Text::of(alloc, &string)
}

/// The text without so many characters from a place on. `Err` comes for want of memory.
fn with_delete(alloc: Global, old: &Text, at: usize, len: usize) -> Result<Text, NoMemory>
    requires { at + len ≤ length old.now }
    ensures { IfOk result (λ text. text ≡ with_delete at len old.now) }
{
    let before = old.as_str();
    let start = byte_of(before, at);
    let bytes = byte_of(&before[start..], len);
    let mut string = String::from_str(alloc, before)?;
    if string.replace_range(start..start + bytes, "").is_err() {
        return Err(NoMemory);
    }
    Text::of(alloc, &string)
}

/// The same where the place is in the text, and else the text as it is.
pub(crate) fn insert_there(
    alloc: Global,
    old: &Text,
    at: i32,
    more: &Text,
) -> Result<Text, NoMemory>
    ensures { IfOk result (λ text. text ≡ insert_there at more.now old.now) }
{
    let Some(place) = spot(at) else {
        return old.copy(alloc);
    };
    if place > old.count() as usize {
        return old.copy(alloc);
    }
    with_insert(alloc, old, place, more)
}

/// The same where the whole range is in the text, and else the text as it is.
pub(crate) fn delete_there(alloc: Global, old: &Text, at: i32, len: i32) -> Result<Text, NoMemory>
    ensures { IfOk result (λ text. text ≡ delete_there at len old.now) }
{
    let Some(place) = spot(at) else {
        return old.copy(alloc);
    };
    let Some(many) = spot(len) else {
        return old.copy(alloc);
    };
    let count = old.count() as usize;
    if place > count || many > count - place {
        return old.copy(alloc);
    }
    with_delete(alloc, old, place, many)
}
