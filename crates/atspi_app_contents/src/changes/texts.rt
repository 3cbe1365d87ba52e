//! The members that change a text, its caret or its selections.

ghost use Rattle.std.specs.Prelude.{◌≡◌, [], true, IfOk};
ghost use Rattle.atspi_marshal_in_place.specs.Items.{fields_data};
ghost use Rattle.atspi_tree_model.specs.declared.contents.FaceData.TheVariants.{Chars};
ghost use Rattle.atspi_tree_model.specs.declared.edit.Edit.TheVariants.{Put};
ghost use Rattle.atspi_tree.specs.TreeShape.{TreeShape};
ghost use Rattle.atspi_tree_edits.specs.Answers.{IsKnown, edit_steps};
ghost use Rattle.atspi_app_contents.specs.changes.inner.Steps.{exchanged, granted};
ghost use Rattle.atspi_app_contents.specs.changes.Changing.{changes_text};
ghost use Rattle.atspi_app_contents.specs.changes.inner.Changing.{ChangesText};

use crate::changes::arguments::{first_owned, place, second_owned};
use crate::changes::edited::{and_more, granted};
use crate::changes::marks::{known_count, known_marks, removed, replaced};
use crate::values::{empty, place_of};
use atspi_app_calls::reading::{first_signed, second_signed, third_signed};
use atspi_base::{Marks, NoMemory, Text};
use atspi_marshal_in_place::Fields;
use atspi_protocol::members::ObjectMember;
use atspi_tree::Tree;
use atspi_tree_model::{Edit, FaceData, StepList};
use std::alloc::Global;

/// SetCaretOffset.
fn set_caret_offset(
    alloc: Global,
    tree: &Tree,
    node: u32,
    args: Fields,
    known: &FaceData,
) -> Result<Option<StepList>, NoMemory>
    requires { IsKnown known.now }
    ensures { IfOk result
        (λ steps. ChangesText tree.now known.now node ObjectMember.SetCaretOffset (fields_data args.entry) steps) }
{
    match place(first_signed(args)) {
        Some(at) => granted(alloc, tree, Edit::Caret { node, at }, known),
        None => Ok(None),
    }
}

/// AddSelection.
fn add_selection(
    alloc: Global,
    tree: &Tree,
    node: u32,
    args: Fields,
    known: &FaceData,
) -> Result<Option<StepList>, NoMemory>
    requires { IsKnown known.now }
    ensures { IfOk result
        (λ steps. ChangesText tree.now known.now node ObjectMember.AddSelection (fields_data args.entry) steps) }
{
    let Some(from) = place(first_signed(args)) else {
        return Ok(None);
    };
    let Some(to) = place(second_signed(args)) else {
        return Ok(None);
    };
    granted(alloc, tree, Edit::Mark { node, from, to }, known)
}

/// RemoveSelection.
fn remove_selection(
    alloc: Global,
    node: u32,
    args: Fields,
    known: &FaceData,
) -> Result<Option<StepList>, NoMemory>
    ensures { IfOk result
        (λ steps. (t : TreeShape)
        → ChangesText t known.now node ObjectMember.RemoveSelection (fields_data args.entry) steps) }
{
    match place_of(first_signed(args)) {
        Some(index) => removed(alloc, node, known_marks(known), index),
        None => Ok(None),
    }
}

/// SetSelection.
fn set_selection(
    alloc: Global,
    node: u32,
    args: Fields,
    known: &FaceData,
) -> Result<Option<StepList>, NoMemory>
    ensures { IfOk result
        (λ steps. (t : TreeShape)
        → ChangesText t known.now node ObjectMember.SetSelection (fields_data args.entry) steps) }
{
    let Some(index) = place_of(first_signed(args)) else {
        return Ok(None);
    };
    let Some(from) = place(second_signed(args)) else {
        return Ok(None);
    };
    let Some(to) = place(third_signed(args)) else {
        return Ok(None);
    };
    replaced(alloc, node, known, index, from, to)
}

/// InsertText.
fn insert_text(
    alloc: Global,
    tree: &Tree,
    node: u32,
    args: Fields,
    known: &FaceData,
) -> Result<Option<StepList>, NoMemory>
    requires { IsKnown known.now }
    ensures { IfOk result
        (λ steps. ChangesText tree.now known.now node ObjectMember.InsertText (fields_data args.entry) steps) }
{
    let Some(at) = place(first_signed(args)) else {
        return Ok(None);
    };
    let text = second_owned(alloc, args)?;
    granted(alloc, tree, Edit::Put { node, at, text }, known)
}

/// DeleteText.
fn delete_text(
    alloc: Global,
    tree: &Tree,
    node: u32,
    args: Fields,
    known: &FaceData,
) -> Result<Option<StepList>, NoMemory>
    requires { IsKnown known.now }
    ensures { IfOk result
        (λ steps. ChangesText tree.now known.now node ObjectMember.DeleteText (fields_data args.entry) steps) }
{
    let Some(from) = place(first_signed(args)) else {
        return Ok(None);
    };
    let Some(to) = place(second_signed(args)) else {
        return Ok(None);
    };
    granted(alloc, tree, Edit::Cut { node, from, to }, known)
}

/// The steps of a text that is put into an empty one, none where that is refused.
fn put_alone(
    alloc: Global,
    tree: &Tree,
    node: u32,
    text: Text,
) -> Result<Option<StepList>, NoMemory>
    ensures { IfOk result (λ steps. steps ≡ granted (edit_steps tree.now (Chars [] 0 []) (Put node 0 text))) }
{
    let empty = FaceData::Chars {
        text: empty(alloc)?,
        caret: 0,
        marks: Marks::new(alloc),
    };
    granted(alloc, tree, Edit::Put { node, at: 0, text }, &empty)
}

/// All characters that are known are cut, and a text is put in.
fn exchange(
    alloc: Global,
    tree: &Tree,
    node: u32,
    text: Text,
    known: &FaceData,
) -> Result<Option<StepList>, NoMemory>
    requires { IsKnown known.now }
    ensures { IfOk result (λ steps. steps ≡ exchanged tree.now known.now node text) }
{
    let to = known_count(known);
    let more = put_alone(alloc, tree, node, text)?;
    let cut = granted(alloc, tree, Edit::Cut { node, from: 0, to }, known)?;
    and_more(cut, more)
}

/// SetTextContents.
fn set_text_contents(
    alloc: Global,
    tree: &Tree,
    node: u32,
    args: Fields,
    known: &FaceData,
) -> Result<Option<StepList>, NoMemory>
    requires { IsKnown known.now }
    ensures { IfOk result
        (λ steps. ChangesText tree.now known.now node ObjectMember.SetTextContents (fields_data args.entry) steps) }
{
    let text = first_owned(alloc, args)?;
    exchange(alloc, tree, node, text, known)
}

/// What a call of a member that changes a text, its caret or its selections does to the text that is known (AT-SPI2,
/// interfaces Text and EditableText). The one refusal is want of memory.
pub(crate) fn change_text(
    alloc: Global,
    tree: &Tree,
    node: u32,
    member: ObjectMember,
    args: Fields,
    known: &FaceData,
) -> Result<Option<StepList>, NoMemory>
    requires known { IsKnown known.now }
    requires member { changes_text member ≡ true }
    ensures { IfOk result (λ steps. ChangesText tree.now known.now node member (fields_data args.entry) steps) }
{
    match member {
        ObjectMember::SetCaretOffset => set_caret_offset(alloc, tree, node, args, known),
        ObjectMember::AddSelection => add_selection(alloc, tree, node, args, known),
        ObjectMember::RemoveSelection => remove_selection(alloc, node, args, known),
        ObjectMember::SetSelection => set_selection(alloc, node, args, known),
        ObjectMember::SetTextContents => set_text_contents(alloc, tree, node, args, known),
        ObjectMember::InsertText => insert_text(alloc, tree, node, args, known),
        ObjectMember::DeleteText => delete_text(alloc, tree, node, args, known),
        _ => unreachable!(),
    }
}
