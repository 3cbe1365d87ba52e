//! The steps of edits of the focus.

ghost use Rattle.std.specs.Prelude.{◌≡◌, ◌++◌, ◌∷◌, [], IfOk, OnOk};
ghost use Rattle.atspi_tree_model.specs.Edits.{focusing, numbers_to};
ghost use Rattle.atspi_tree_model.specs.declared.contents.FaceData.{FaceData};
ghost use Rattle.atspi_tree_model.specs.declared.edit.Edit.TheVariants.{Focus};
ghost use Rattle.atspi_tree_edits.specs.Answers.{GivesSteps, edit_steps};
ghost use Rattle.atspi_tree_edits.specs.inner.Switches.{unfocusing};

use crate::fault::EditRefused;
use crate::refusals::node_fault;
use crate::states::push_switch;
use atspi_base::NoMemory;
use atspi_tree::Tree;
use atspi_tree_model::StepList;
use std::alloc::Global;

/// Appends the step that takes the focus from a node, none where the node has it not or is the one that the focus goes
/// to.
fn push_unfocus(steps: &mut StepList, tree: &Tree, node: u32, other: u32) -> Result<(), NoMemory>
    ensures { OnOk result (steps.new ≡ steps.old ++ unfocusing tree.now.rows node (other ∷ [])) }
{
    if other == node {
        return Ok(());
    }
    push_switch(steps, tree, other, 12, false)
}

/// Appends the steps that take the focus from each node but one, by rising number. Each node that there is is looked
/// up, and no number that is free.
fn push_others(steps: &mut StepList, tree: &Tree, node: u32) -> Result<(), NoMemory>
    ensures { OnOk result (steps.new ≡ steps.old ++ unfocusing tree.now.rows node (numbers_to tree.now.added)) }
{
    let mut from = 0u32;
    while let Some(other) = tree.next_node(from) {
        push_unfocus(steps, tree, node, other)?;
        match other.checked_add(1) {
            Some(next) => from = next,
            None => return Ok(()),
        }
    }
    Ok(())
}

/// The steps that give a node the focus.
pub(crate) fn focusing(alloc: Global, tree: &Tree, node: u32) -> Result<StepList, NoMemory>
    ensures { IfOk result (λ steps. steps ≡ focusing tree.now.rows tree.now.added node) }
{
    let mut steps = StepList::new(alloc);
    push_others(&mut steps, tree, node)?;
    push_switch(&mut steps, tree, node, 12, true)?;
    Ok(steps)
}

/// The steps of the focus on a node.
pub(crate) fn focus(alloc: Global, tree: &Tree, node: u32) -> Result<StepList, EditRefused>
    ensures { (known : FaceData) → GivesSteps result (edit_steps tree.now known (Focus node)) }
{
    if let Some(fault) = node_fault(tree, node) {
        return Err(EditRefused::Refused(fault));
    }
    Ok(focusing(alloc, tree, node)?)
}
