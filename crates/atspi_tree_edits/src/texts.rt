//! The steps of edits of a node's text, its caret and its selections.

ghost use Rattle.std.specs.Prelude.{◌≡◌, ◌+◌, ◌++◌, ◌<◌, ◌^◌, ◌∷◌, [], length, IfOk};
ghost use Rattle.atspi_tree_model.specs.Edits.{known_text, putting, typing};
ghost use Rattle.atspi_tree_model.specs.declared.edit.Edit.TheVariants.{Caret, Keys, Mark, Put, Unmark};
ghost use Rattle.atspi_tree_edits.specs.Answers.{GivesSteps, IsKnown, edit_steps};

use crate::fault::EditRefused;
use crate::parts::one_step;
use crate::refusals::{
    Face, caret_fault, face_fault, keys_fault, known_caret, known_marks, mark_fault, put_fault,
};
use atspi_base::{Marks, NoMemory, Text};
use atspi_tree::Tree;
use atspi_tree_model::{FaceData, Step, StepList};
use std::alloc::Global;

/// A text is put in, and a caret behind the place goes on.
fn putting(alloc: Global, node: u32, at: u32, text: &Text, caret: u32) -> Result<StepList, NoMemory>
    requires { caret + length text.now < 2 ^ 32 }
    ensures { IfOk result (λ steps. steps ≡ putting node at text.now caret) }
{
    let count = text.count();
    let mut steps = StepList::new(alloc);
    if count == 0 {
        return Ok(steps);
    }
    let text = text.copy(alloc)?;
    steps.push(Step::Insert { node, at, text })?;
    if at < caret {
        let at = caret + count;
        steps.push(Step::Caret { node, at })?;
    }
    Ok(steps)
}

/// The steps of a text put in.
pub(crate) fn put(
    alloc: Global,
    tree: &Tree,
    node: u32,
    at: u32,
    text: &Text,
    known: &FaceData,
) -> Result<StepList, EditRefused>
    requires { IsKnown known.now }
    ensures { GivesSteps result (edit_steps tree.now known.now (Put node at text.now)) }
{
    if let Some(fault) = put_fault(tree, node, at, text, known) {
        return Err(EditRefused::Refused(fault));
    }
    Ok(putting(alloc, node, at, text, known_caret(known))?)
}

/// A text is typed at the caret, which goes behind it.
fn typing(alloc: Global, node: u32, text: &Text, caret: u32) -> Result<StepList, NoMemory>
    requires { caret + length text.now < 2 ^ 32 }
    ensures { IfOk result (λ steps. steps ≡ typing node text.now caret) }
{
    let count = text.count();
    let mut steps = StepList::new(alloc);
    if count == 0 {
        return Ok(steps);
    }
    let text = text.copy(alloc)?;
    steps.push(Step::Insert {
        node,
        at: caret,
        text,
    })?;
    let at = caret + count;
    steps.push(Step::Caret { node, at })?;
    Ok(steps)
}

/// The steps of a text typed.
pub(crate) fn keys(
    alloc: Global,
    tree: &Tree,
    node: u32,
    text: &Text,
    known: &FaceData,
) -> Result<StepList, EditRefused>
    requires { IsKnown known.now }
    ensures { GivesSteps result (edit_steps tree.now known.now (Keys node text.now)) }
{
    if let Some(fault) = keys_fault(tree, node, text, known) {
        return Err(EditRefused::Refused(fault));
    }
    Ok(typing(alloc, node, text, known_caret(known))?)
}

/// The steps of another place of the caret.
pub(crate) fn caret(
    alloc: Global,
    tree: &Tree,
    node: u32,
    at: u32,
    known: &FaceData,
) -> Result<StepList, EditRefused>
    ensures { GivesSteps result (edit_steps tree.now known.now (Caret node at)) }
{
    if let Some(fault) = caret_fault(tree, node, at, known) {
        return Err(EditRefused::Refused(fault));
    }
    if known_caret(known) == at {
        return Ok(StepList::new(alloc));
    }
    Ok(one_step(alloc, Step::Caret { node, at })?)
}

/// The ranges that are known and one more.
fn marks_with(alloc: Global, known: &FaceData, from: u32, to: u32) -> Result<Marks, NoMemory>
    ensures { IfOk result (λ marks. marks ≡ (known_text known.now).selections ++ (from, to) ∷ []) }
{
    match known {
        FaceData::Chars { marks, .. } => with_mark(alloc, marks, from, to),
        _ => {
            let mut marks = Marks::new(alloc);
            marks.push((from, to))?;
            Ok(marks)
        }
    }
}

/// Some ranges and one more.
fn with_mark(alloc: Global, marks: &Marks, from: u32, to: u32) -> Result<Marks, NoMemory>
    ensures { IfOk result (λ more. more ≡ marks.now ++ (from, to) ∷ []) }
{
    let mut marks = marks.copy(alloc)?;
    marks.push((from, to))?;
    Ok(marks)
}

/// The steps of another selection.
pub(crate) fn mark(
    alloc: Global,
    tree: &Tree,
    node: u32,
    from: u32,
    to: u32,
    known: &FaceData,
) -> Result<StepList, EditRefused>
    ensures { GivesSteps result (edit_steps tree.now known.now (Mark node from to)) }
{
    if let Some(fault) = mark_fault(tree, node, from, to, known) {
        return Err(EditRefused::Refused(fault));
    }
    let marks = marks_with(alloc, known, from, to)?;
    Ok(one_step(alloc, Step::TextSelect { node, marks })?)
}

/// The steps of no selection any more.
pub(crate) fn unmark(
    alloc: Global,
    tree: &Tree,
    node: u32,
    known: &FaceData,
) -> Result<StepList, EditRefused>
    ensures { GivesSteps result (edit_steps tree.now known.now (Unmark node)) }
{
    if let Some(fault) = face_fault(tree, node, Face::Text) {
        return Err(EditRefused::Refused(fault));
    }
    if known_marks(known) == 0 {
        return Ok(StepList::new(alloc));
    }
    let marks = Marks::new(alloc);
    Ok(one_step(alloc, Step::TextSelect { node, marks })?)
}
