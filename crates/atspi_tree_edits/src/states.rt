//! The steps of edits of a node's states.

ghost use Rattle.std.specs.Prelude.{◌≡◌, ◌++◌, ◌<◌, ◌==◌, OnOk, OnErr};
ghost use Rattle.atspi_tree_model.specs.Edits.{node_has_state, switched};
ghost use Rattle.atspi_tree_model.specs.States.{has_state};
ghost use Rattle.atspi_tree_model.specs.declared.contents.FaceData.{FaceData};
ghost use Rattle.atspi_tree_model.specs.declared.edit.Edit.TheVariants.{State};
ghost use Rattle.atspi_tree_edits.specs.Answers.{GivesSteps, edit_steps};

use crate::fault::EditRefused;
use crate::refusals::node_fault;
use atspi_base::NoMemory;
use atspi_tree::Tree;
use atspi_tree_model::{Step, StepList};
use std::alloc::Global;

/// Whether a set has a state.
fn is_set(states: u64, state: u8) -> bool
    requires { state < 44 }
    ensures { result ≡ has_state state states }
{
    (states >> state) % 2 == 1
}

/// Whether a node is there and has a state.
pub(crate) fn has_state(tree: &Tree, node: u32, state: u8) -> bool
    requires { state < 44 }
    ensures { result ≡ node_has_state tree.now.rows node state }
{
    if tree.has(node) {
        is_set(tree.states(node), state)
    } else {
        false
    }
}

/// Appends the step that sets a state or clears it, none where it is so. After want of memory the list is as before.
pub(crate) fn push_switch(
    steps: &mut StepList,
    tree: &Tree,
    node: u32,
    state: u8,
    on: bool,
) -> Result<(), NoMemory>
    requires { state < 44 }
    ensures ok { OnOk result (steps.new ≡ steps.old ++ switched tree.now.rows node state on) }
    ensures err { OnErr result (steps.new ≡ steps.old) }
{
    if has_state(tree, node, state) == on {
        return Ok(());
    }
    steps.push(Step::SetState { node, state, on })
}

/// The steps of a state.
pub(crate) fn state(
    alloc: Global,
    tree: &Tree,
    node: u32,
    state: u8,
    on: bool,
) -> Result<StepList, EditRefused>
    requires { state < 44 }
    ensures { (known : FaceData) → GivesSteps result (edit_steps tree.now known (State node state on)) }
{
    if let Some(fault) = node_fault(tree, node) {
        return Err(EditRefused::Refused(fault));
    }
    let mut steps = StepList::new(alloc);
    push_switch(&mut steps, tree, node, state, on)?;
    Ok(steps)
}
