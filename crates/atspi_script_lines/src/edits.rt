//! Edits in a line, one small reader a form; of an insertion see `inserts`.

ghost use Rattle.std.specs.Prelude.{◌≡◌, true, [], ◌∷◌, codes};
ghost use Rattle.atspi_tree_model.specs.Edits.{IsEdit};
ghost use Rattle.atspi_script_lines.specs.Forms.{edit_form, switch_word};
ghost use Rattle.atspi_script_lines.specs.inner.Reading.{Finds, IsEditOf, Reads, has_no_text};
ghost use Rattle.atspi_script_lines.specs.Words.{SpellsWords, literal};

use crate::inserts::read_insert;
use crate::numbers::next_number;
use crate::shapes::{read_number_text, read_numbers_text, read_one, read_three, read_two};
use crate::tables::{next_role, next_state};
use crate::words::{is_word, next_word};
use atspi_base::NoMemory;
use atspi_tree_model::Edit;
use std::alloc::Global;

/// A node goes.
fn read_remove(bytes: &[u8]) -> Option<Edit>
    ensures { Finds (IsEditOf (codes "remove") bytes.now) result }
{
    match read_one(bytes) {
        Some(node) => Some(Edit::Remove { node }),
        None => None,
    }
}

/// The focus goes to a node.
fn read_focus(bytes: &[u8]) -> Option<Edit>
    ensures { Finds (IsEditOf (codes "focus") bytes.now) result }
{
    match read_one(bytes) {
        Some(node) => Some(Edit::Focus { node }),
        None => None,
    }
}

/// No text is selected any more.
fn read_unmark(bytes: &[u8]) -> Option<Edit>
    ensures { Finds (IsEditOf (codes "unmark") bytes.now) result }
{
    match read_one(bytes) {
        Some(node) => Some(Edit::Unmark { node }),
        None => None,
    }
}

/// The caret goes to a place.
fn read_caret(bytes: &[u8]) -> Option<Edit>
    ensures { Finds (IsEditOf (codes "caret") bytes.now) result }
{
    match read_two(bytes) {
        Some((node, at)) => Some(Edit::Caret { node, at }),
        None => None,
    }
}

/// A child is selected.
fn read_select(bytes: &[u8]) -> Option<Edit>
    ensures { Finds (IsEditOf (codes "select") bytes.now) result }
{
    match read_two(bytes) {
        Some((node, index)) => Some(Edit::Select { node, index }),
        None => None,
    }
}

/// A child is selected no more.
fn read_deselect(bytes: &[u8]) -> Option<Edit>
    ensures { Finds (IsEditOf (codes "deselect") bytes.now) result }
{
    match read_two(bytes) {
        Some((node, index)) => Some(Edit::Deselect { node, index }),
        None => None,
    }
}

/// An action is done.
fn read_press(bytes: &[u8]) -> Option<Edit>
    ensures { Finds (IsEditOf (codes "press") bytes.now) result }
{
    match read_two(bytes) {
        Some((node, index)) => Some(Edit::Press { node, index }),
        None => None,
    }
}

/// A node goes elsewhere.
fn read_move(bytes: &[u8]) -> Option<Edit>
    ensures { Finds (IsEditOf (codes "move") bytes.now) result }
{
    match read_three(bytes) {
        Some((node, parent, index)) => Some(Edit::Move {
            node,
            parent,
            index,
        }),
        None => None,
    }
}

/// Characters are cut out.
fn read_cut(bytes: &[u8]) -> Option<Edit>
    ensures { Finds (IsEditOf (codes "cut") bytes.now) result }
{
    match read_three(bytes) {
        Some((node, from, to)) => Some(Edit::Cut { node, from, to }),
        None => None,
    }
}

/// A range is selected.
fn read_mark(bytes: &[u8]) -> Option<Edit>
    ensures { Finds (IsEditOf (codes "mark") bytes.now) result }
{
    match read_three(bytes) {
        Some((node, from, to)) => Some(Edit::Mark { node, from, to }),
        None => None,
    }
}

/// A relation gets a target.
fn read_relate(bytes: &[u8]) -> Option<Edit>
    ensures { Finds (IsEditOf (codes "relate") bytes.now) result }
{
    match read_three(bytes) {
        Some((node, kind, target)) => Some(Edit::Relate { node, kind, target }),
        None => None,
    }
}

/// A relation loses a target.
fn read_unrelate(bytes: &[u8]) -> Option<Edit>
    ensures { Finds (IsEditOf (codes "unrelate") bytes.now) result }
{
    match read_three(bytes) {
        Some((node, kind, target)) => Some(Edit::Unrelate { node, kind, target }),
        None => None,
    }
}

/// A node gets a name.
fn read_name(alloc: Global, bytes: &[u8]) -> Result<Option<Edit>, NoMemory>
    ensures { Reads (IsEditOf (codes "name") bytes.now) result }
{
    match read_number_text(alloc, bytes)? {
        Some((node, text)) => Ok(Some(Edit::Name { node, text })),
        None => Ok(None),
    }
}

/// A node gets a description.
fn read_describe(alloc: Global, bytes: &[u8]) -> Result<Option<Edit>, NoMemory>
    ensures { Reads (IsEditOf (codes "describe") bytes.now) result }
{
    match read_number_text(alloc, bytes)? {
        Some((node, text)) => Ok(Some(Edit::Describe { node, text })),
        None => Ok(None),
    }
}

/// A text is typed.
fn read_type(alloc: Global, bytes: &[u8]) -> Result<Option<Edit>, NoMemory>
    ensures { Reads (IsEditOf (codes "type") bytes.now) result }
{
    match read_number_text(alloc, bytes)? {
        Some((node, text)) => Ok(Some(Edit::Keys { node, text })),
        None => Ok(None),
    }
}

/// A text is put in.
fn read_put(alloc: Global, bytes: &[u8]) -> Result<Option<Edit>, NoMemory>
    ensures { Reads (IsEditOf (codes "put") bytes.now) result }
{
    match read_numbers_text(alloc, bytes)? {
        Some((node, at, text)) => Ok(Some(Edit::Put { node, at, text })),
        None => Ok(None),
    }
}

/// A node gets a role.
fn read_role(bytes: &[u8]) -> Option<Edit>
    ensures { Finds (IsEditOf (codes "role") bytes.now) result }
{
    let Some((node, behind)) = next_number(bytes) else {
        return None;
    };
    let Some((role, rest)) = next_role(behind) else {
        return None;
    };
    if !rest.is_empty() {
        return None;
    }
    Some(Edit::Role { node, role })
}

/// Whether a state is set to on, where it is set.
fn read_switch(bytes: &[u8]) -> Option<bool>
    ensures { Finds (λ on. SpellsWords (literal (switch_word on) ∷ []) bytes.now) result }
{
    if bytes == b" on".as_slice() {
        return Some(true);
    }
    if bytes == b" off".as_slice() {
        return Some(false);
    }
    None
}

/// A state is set.
fn read_state(bytes: &[u8]) -> Option<Edit>
    ensures { Finds (IsEditOf (codes "state") bytes.now) result }
{
    let Some((node, behind)) = next_number(bytes) else {
        return None;
    };
    let Some((state, rest)) = next_state(behind) else {
        return None;
    };
    match read_switch(rest) {
        Some(on) => Some(Edit::State { node, state, on }),
        None => None,
    }
}

/// An edit of one of the forms that have no text, by its first word.
fn read_plain_edit(word: &[u8], bytes: &[u8]) -> Option<Edit>
    ensures { Finds (λ edit. (has_no_text edit ≡ true) × IsEditOf word.now bytes.now edit) result }
{
    if is_word(word, b"remove") {
        return read_remove(bytes);
    }
    if is_word(word, b"focus") {
        return read_focus(bytes);
    }
    if is_word(word, b"unmark") {
        return read_unmark(bytes);
    }
    if is_word(word, b"caret") {
        return read_caret(bytes);
    }
    if is_word(word, b"select") {
        return read_select(bytes);
    }
    if is_word(word, b"deselect") {
        return read_deselect(bytes);
    }
    if is_word(word, b"press") {
        return read_press(bytes);
    }
    if is_word(word, b"move") {
        return read_move(bytes);
    }
    if is_word(word, b"cut") {
        return read_cut(bytes);
    }
    if is_word(word, b"mark") {
        return read_mark(bytes);
    }
    if is_word(word, b"relate") {
        return read_relate(bytes);
    }
    if is_word(word, b"unrelate") {
        return read_unrelate(bytes);
    }
    if is_word(word, b"role") {
        return read_role(bytes);
    }
    if is_word(word, b"state") {
        return read_state(bytes);
    }
    None
}

/// An edit, by its first word and what follows it.
fn read_edit_of(alloc: Global, word: &[u8], bytes: &[u8]) -> Result<Option<Edit>, NoMemory>
    ensures { Reads (IsEditOf word.now bytes.now) result }
{
    if is_word(word, b"insert") {
        return read_insert(alloc, bytes);
    }
    if is_word(word, b"name") {
        return read_name(alloc, bytes);
    }
    if is_word(word, b"describe") {
        return read_describe(alloc, bytes);
    }
    if is_word(word, b"put") {
        return read_put(alloc, bytes);
    }
    if is_word(word, b"type") {
        return read_type(alloc, bytes);
    }
    Ok(read_plain_edit(word, bytes))
}

/// An edit.
pub(crate) fn read_edit(alloc: Global, bytes: &[u8]) -> Result<Option<Edit>, NoMemory>
    ensures { Reads (λ edit. IsEdit edit × SpellsWords (edit_form edit) bytes.now) result }
{
    let Some((word, rest)) = next_word(bytes) else {
        return Ok(None);
    };
    read_edit_of(alloc, word, rest)
}
