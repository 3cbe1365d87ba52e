//! Deeds in a line, one small reader a form.

ghost use Rattle.std.specs.Prelude.{codes};
ghost use Rattle.atspi_script_lines.specs.Forms.{deed_form};
ghost use Rattle.atspi_script_lines.specs.inner.Reading.{Finds, IsDeedOf, Reads};
ghost use Rattle.atspi_script_lines.specs.Words.{SpellsWords};

use crate::Deed;
use crate::shapes::{read_place, read_place_text, read_places, read_text};
use crate::words::{is_word, next_word};
use atspi_base::NoMemory;
use std::alloc::Global;

/// The caret goes to a place.
fn read_set_caret(bytes: &[u8]) -> Option<Deed>
    ensures { Finds (IsDeedOf (codes "set-caret") bytes.now) result }
{
    match read_place(bytes) {
        Some(at) => Some(Deed::SetCaret { at }),
        None => None,
    }
}

/// A child is selected.
fn read_select_child(bytes: &[u8]) -> Option<Deed>
    ensures { Finds (IsDeedOf (codes "select-child") bytes.now) result }
{
    match read_place(bytes) {
        Some(index) => Some(Deed::SelectChild { index }),
        None => None,
    }
}

/// A child is selected no more.
fn read_deselect_child(bytes: &[u8]) -> Option<Deed>
    ensures { Finds (IsDeedOf (codes "deselect-child") bytes.now) result }
{
    match read_place(bytes) {
        Some(index) => Some(Deed::DeselectChild { index }),
        None => None,
    }
}

/// An action is done.
fn read_do_action(bytes: &[u8]) -> Option<Deed>
    ensures { Finds (IsDeedOf (codes "do-action") bytes.now) result }
{
    match read_place(bytes) {
        Some(index) => Some(Deed::DoAction { index }),
        None => None,
    }
}

/// Characters go.
fn read_delete_text(bytes: &[u8]) -> Option<Deed>
    ensures { Finds (IsDeedOf (codes "delete-text") bytes.now) result }
{
    match read_places(bytes) {
        Some((from, to)) => Some(Deed::DeleteText { from, to }),
        None => None,
    }
}

/// A text is put in.
fn read_insert_text(alloc: Global, bytes: &[u8]) -> Result<Option<Deed>, NoMemory>
    ensures { Reads (IsDeedOf (codes "insert-text") bytes.now) result }
{
    match read_place_text(alloc, bytes)? {
        Some((at, text)) => Ok(Some(Deed::InsertText { at, text })),
        None => Ok(None),
    }
}

/// The text is replaced.
fn read_set_text(alloc: Global, bytes: &[u8]) -> Result<Option<Deed>, NoMemory>
    ensures { Reads (IsDeedOf (codes "set-text") bytes.now) result }
{
    match read_text(alloc, bytes)? {
        Some(text) => Ok(Some(Deed::SetText { text })),
        None => Ok(None),
    }
}

/// All children are selected.
fn read_select_all(bytes: &[u8]) -> Option<Deed>
    ensures { Finds (IsDeedOf (codes "select-all") bytes.now) result }
{
    if !bytes.is_empty() {
        return None;
    }
    Some(Deed::SelectAll)
}

/// No child is selected any more.
fn read_clear_selection(bytes: &[u8]) -> Option<Deed>
    ensures { Finds (IsDeedOf (codes "clear-selection") bytes.now) result }
{
    if !bytes.is_empty() {
        return None;
    }
    Some(Deed::ClearSelection)
}

/// A deed, by its first word and what follows it.
fn read_deed_of(alloc: Global, word: &[u8], bytes: &[u8]) -> Result<Option<Deed>, NoMemory>
    ensures { Reads (IsDeedOf word.now bytes.now) result }
{
    if is_word(word, b"set-caret") {
        return Ok(read_set_caret(bytes));
    }
    if is_word(word, b"select-child") {
        return Ok(read_select_child(bytes));
    }
    if is_word(word, b"deselect-child") {
        return Ok(read_deselect_child(bytes));
    }
    if is_word(word, b"do-action") {
        return Ok(read_do_action(bytes));
    }
    if is_word(word, b"delete-text") {
        return Ok(read_delete_text(bytes));
    }
    if is_word(word, b"insert-text") {
        return read_insert_text(alloc, bytes);
    }
    if is_word(word, b"set-text") {
        return read_set_text(alloc, bytes);
    }
    if is_word(word, b"select-all") {
        return Ok(read_select_all(bytes));
    }
    if is_word(word, b"clear-selection") {
        return Ok(read_clear_selection(bytes));
    }
    Ok(None)
}

/// A deed.
pub(crate) fn read_deed(alloc: Global, bytes: &[u8]) -> Result<Option<Deed>, NoMemory>
    ensures { Reads (λ deed. SpellsWords (deed_form deed) bytes.now) result }
{
    let Some((word, rest)) = next_word(bytes) else {
        return Ok(None);
    };
    read_deed_of(alloc, word, rest)
}
