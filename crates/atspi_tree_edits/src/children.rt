//! The steps of edits that select a child, or select it no more.

ghost use Rattle.std.specs.Prelude.{◌≡◌, ◌<◌, ◌++◌, [], true, false, cond, length, IfOk, OnOk, MatchResult, Some};
ghost use Rattle.std.specs.Prelude.{slice_index};
ghost use Rattle.atspi_tree_model.specs.Edits.{children_of, first_fault, node_has_state, others, refusals, switched};
ghost use Rattle.atspi_tree_model.specs.Forest.{has, width};
ghost use Rattle.atspi_tree_model.specs.Tree.{is_shape};
ghost use Rattle.atspi_tree_model.specs.declared.contents.FaceData.TheVariants.{Deeds};
ghost use Rattle.atspi_tree_model.specs.declared.edit.Edit.TheVariants.{Deselect, Select};
ghost use Rattle.atspi_tree.specs.TreeShape.{numbers};
ghost use Rattle.atspi_tree_edits.specs.Answers.{GivesSteps, edit_steps};
ghost use Rattle.atspi_tree_edits.specs.inner.Selection.{IsChild};
ghost use Rattle.atspi_tree_edits.specs.inner.Switches.{unselecting};

use crate::fault::EditRefused;
use crate::inserts::child_count;
use crate::refusals::{Face, has_face};
use crate::states::{has_state, push_switch};
use atspi_base::NoMemory;
use atspi_tree::Tree;
use atspi_tree_model::{EditFault, StepList};
use std::alloc::Global;

/// The child at an index.
fn child_at(tree: &Tree, node: u32, index: u32) -> u32
    requires there { has (is_shape node) tree.now.rows ≡ true }
    requires in_range { index < width (children_of tree.now.rows node) }
    ensures { result ≡ slice_index (numbers (children_of tree.now.rows node)) index }
{
    tree.children(node)[index as usize]
}

/// The child whose selection is edited, or the reason to refuse it.
fn selectable(tree: &Tree, node: u32, index: u32) -> Result<u32, EditFault>
    ensures { MatchResult result (IsChild tree.now node index)
        (λ fault. first_fault (refusals tree.now.rows tree.now.added (Deeds []) (Deselect node index)) ≡ Some fault) }
{
    if !tree.has(node) {
        return Err(EditFault::NoNode);
    }
    if !has_face(tree, node, Face::Selection) {
        return Err(EditFault::NoFace);
    }
    if child_count(tree, node) <= index as usize {
        return Err(EditFault::BadIndex);
    }
    Ok(child_at(tree, node, index))
}

/// The steps that select a node no more.
fn unselect(alloc: Global, tree: &Tree, node: u32) -> Result<StepList, NoMemory>
    ensures { IfOk result (λ steps. steps ≡ switched tree.now.rows node 23 false) }
{
    let mut steps = StepList::new(alloc);
    push_switch(&mut steps, tree, node, 23, false)?;
    Ok(steps)
}

/// The steps of a child that is selected no more.
#[tactic(auto, using(crate::proofs::SelectedChild::deselects))]
pub(crate) fn deselect(
    alloc: Global,
    tree: &Tree,
    node: u32,
    index: u32,
) -> Result<StepList, EditRefused>
    ensures { GivesSteps result (edit_steps tree.now (Deeds []) (Deselect node index)) }
{
    match selectable(tree, node, index) {
        Ok(child) => Ok(unselect(alloc, tree, child)?),
        Err(fault) => Err(EditRefused::Refused(fault)),
    }
}

/// Appends the steps that select some nodes no more, none for a node that is not selected.
fn push_unselect(steps: &mut StepList, tree: &Tree, nodes: &[u32]) -> Result<(), NoMemory>
    ensures { OnOk result (steps.new ≡ steps.old ++ unselecting tree.now.rows nodes.now) }
{
    for node in nodes {
        push_switch(steps, tree, *node, 23, false)?;
    }
    Ok(())
}

/// The same for all but the node at an index.
fn push_others(
    steps: &mut StepList,
    tree: &Tree,
    nodes: &[u32],
    index: usize,
) -> Result<(), NoMemory>
    requires { index < length nodes.now }
    ensures { OnOk result (steps.new ≡ steps.old ++ unselecting tree.now.rows (others index nodes.now)) }
{
    push_unselect(steps, tree, &nodes[..index])?;
    push_unselect(steps, tree, &nodes[index + 1..])
}

/// The same for a node's children, where no more than one of them can be selected.
fn push_alone(
    steps: &mut StepList,
    tree: &Tree,
    node: u32,
    children: &[u32],
    index: usize,
) -> Result<(), NoMemory>
    requires { index < length children.now }
    ensures { OnOk result
        (steps.new
        ≡ steps.old
        ++ cond (node_has_state tree.now.rows node 18) []
        (unselecting tree.now.rows (others index children.now))) }
{
    if has_state(tree, node, 18) {
        return Ok(());
    }
    push_others(steps, tree, children, index)
}

/// The steps that select a child.
fn choose(
    alloc: Global,
    tree: &Tree,
    node: u32,
    index: u32,
    child: u32,
) -> Result<StepList, NoMemory>
    requires { IsChild tree.now node index child }
    ensures { IfOk result
        (λ steps. steps
        ≡ cond (node_has_state tree.now.rows node 18) []
        (unselecting tree.now.rows (others index (numbers (children_of tree.now.rows node))))
        ++ switched tree.now.rows child 23 true) }
{
    let mut steps = StepList::new(alloc);
    push_alone(&mut steps, tree, node, tree.children(node), index as usize)?;
    push_switch(&mut steps, tree, child, 23, true)?;
    Ok(steps)
}

/// The steps of a child that is selected.
#[tactic(auto, using(crate::proofs::SelectedChild::selects))]
pub(crate) fn select(
    alloc: Global,
    tree: &Tree,
    node: u32,
    index: u32,
) -> Result<StepList, EditRefused>
    ensures { GivesSteps result (edit_steps tree.now (Deeds []) (Select node index)) }
{
    match selectable(tree, node, index) {
        Ok(child) => Ok(choose(alloc, tree, node, index, child)?),
        Err(fault) => Err(EditRefused::Refused(fault)),
    }
}
