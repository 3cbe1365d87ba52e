//! The steps of an action.

ghost use Rattle.std.specs.Prelude.{◌≡◌, ◌++◌, ◌∷◌, ◌<◌, [], IfOk, MatchResult, Some, bytes_eq, drop, encode_utf8_all};
ghost use Rattle.std.specs.Prelude.{false, true, length};
ghost use Rattle.atspi_tree_model.specs.Edits.{acting, first_fault, flipping, known_actions, refusals, switched};
ghost use Rattle.atspi_tree_model.specs.declared.edit.Edit.TheVariants.{Press};
ghost use Rattle.atspi_tree_model.specs.declared.step.Step.TheVariants.{SetState};
ghost use Rattle.atspi_tree_edits.specs.Answers.{GivesSteps, edit_steps};
ghost use Rattle.atspi_tree_edits.specs.inner.Deeds.{IsDeed};

use crate::fault::EditRefused;
use crate::focus::focusing;
use crate::parts::one_step;
use crate::refusals::{Face, face_fault};
use crate::states::{has_state, push_switch};
use atspi_base::{NoMemory, Text};
use atspi_tree::Tree;
use atspi_tree_model::{EditFault, FaceData, Step, StepList};
use std::alloc::Global;

/// The names of the actions that are known.
fn names(known: &FaceData) -> &[Text]
    ensures { result.now ≡ known_actions known.now }
{
    match known {
        FaceData::Deeds(actions) => actions.as_slice(),
        _ => &[],
    }
}

/// Whether a text is a word of ASCII.
fn is_word(text: &Text, word: &str) -> bool
    requires { encode_utf8_all word.now ≡ word.now }
    ensures { result ≡ bytes_eq text.now word.now }
{
    text.as_str() == word
}

/// The step that turns a state over.
fn flip(alloc: Global, tree: &Tree, node: u32, state: u8) -> Result<StepList, NoMemory>
    requires { state < 44 }
    ensures { IfOk result (λ steps. steps ≡ flipping tree.now.rows node state) }
{
    let on = !has_state(tree, node, state);
    one_step(alloc, Step::SetState { node, state, on })
}

/// The steps of a node that is pressed and let go.
fn push_button(alloc: Global, tree: &Tree, node: u32) -> Result<StepList, NoMemory>
    ensures { IfOk result (λ steps. steps ≡ switched tree.now.rows node 20 true ++ SetState node 20 false ∷ []) }
{
    let mut steps = StepList::new(alloc);
    push_switch(&mut steps, tree, node, 20, true)?;
    steps.push(Step::SetState {
        node,
        state: 20,
        on: false,
    })?;
    Ok(steps)
}

/// The steps of an action by its name.
fn act(alloc: Global, tree: &Tree, node: u32, name: &Text) -> Result<StepList, NoMemory>
    ensures { IfOk result (λ steps. steps ≡ acting tree.now.rows tree.now.added node name.now) }
{
    if is_word(name, "toggle") {
        return flip(alloc, tree, node, 4);
    }
    if is_word(name, "expand") {
        return flip(alloc, tree, node, 10);
    }
    if is_word(name, "press") {
        return push_button(alloc, tree, node);
    }
    if is_word(name, "focus") {
        return focusing(alloc, tree, node);
    }
    Ok(StepList::new(alloc))
}

/// The name of the action to be done, or the reason to refuse it.
fn deed<'a>(tree: &Tree, node: u32, index: u32, known: &'a FaceData) -> Result<&'a Text, EditFault>
    ensures { MatchResult result (λ name. IsDeed tree.now known.now node index name.now)
        (λ fault. first_fault (refusals tree.now.rows tree.now.added known.now (Press node index)) ≡ Some fault) }
{
    if let Some(fault) = face_fault(tree, node, Face::Action) {
        return Err(fault);
    }
    let names = names(known);
    if names.len() <= index as usize {
        return Err(EditFault::BadIndex);
    }
    Ok(&names[index as usize])
}

/// The steps of an action that is done.
#[tactic(auto, using(crate::proofs::Deeds::presses))]
pub(crate) fn press(
    alloc: Global,
    tree: &Tree,
    node: u32,
    index: u32,
    known: &FaceData,
) -> Result<StepList, EditRefused>
    ensures { GivesSteps result (edit_steps tree.now known.now (Press node index)) }
{
    match deed(tree, node, index, known) {
        Ok(name) => Ok(act(alloc, tree, node, name)?),
        Err(fault) => Err(EditRefused::Refused(fault)),
    }
}
