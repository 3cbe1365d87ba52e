//! The steps of edits of what a node is called, of its role and its states.

ghost use Rattle.std.specs.Prelude.{◌≡◌, ◌&&◌, ◌<◌, ◌==◌, true, bytes_eq, IfOk};
ghost use Rattle.atspi_tree_model.specs.Forest.{has};
ghost use Rattle.atspi_tree_model.specs.Tree.{is_shape};
ghost use Rattle.atspi_tree_model.specs.declared.contents.FaceData.{FaceData};
ghost use Rattle.atspi_tree_model.specs.declared.edit.Edit.TheVariants.{Describe, Name, Remove, Role};
ghost use Rattle.atspi_tree.specs.TreeShape.{IsLawful};
ghost use Rattle.atspi_tree_edits.specs.Answers.{GivesSteps, edit_steps};

use crate::fault::EditRefused;
use crate::parts::one_step;
use crate::refusals::{name_fault, node_fault, remove_fault};
use atspi_base::Text;
use atspi_tree::Tree;
use atspi_tree_model::{Step, StepList};
use std::alloc::Global;

/// The steps of a removal.
pub(crate) fn remove(alloc: Global, tree: &Tree, node: u32) -> Result<StepList, EditRefused>
    ensures { (known : FaceData) → GivesSteps result (edit_steps tree.now known (Remove node)) }
{
    if let Some(fault) = remove_fault(tree, node) {
        return Err(EditRefused::Refused(fault));
    }
    Ok(one_step(alloc, Step::Remove { node })?)
}

/// Whether a node is there and has this name.
fn has_name(tree: &Tree, node: u32, text: &Text) -> bool
    ensures { result ≡ has (λ row. is_shape node row && bytes_eq row.name text.now) tree.now.rows }
{
    if tree.has(node) {
        tree.name(node).is(text)
    } else {
        false
    }
}

/// The steps of a new name.
pub(crate) fn name(
    alloc: Global,
    tree: &Tree,
    node: u32,
    text: &Text,
) -> Result<StepList, EditRefused>
    ensures { (known : FaceData) → GivesSteps result (edit_steps tree.now known (Name node text.now)) }
{
    if let Some(fault) = name_fault(tree, node, text) {
        return Err(EditRefused::Refused(fault));
    }
    if has_name(tree, node, text) {
        return Ok(StepList::new(alloc));
    }
    let text = text.copy(alloc)?;
    Ok(one_step(alloc, Step::SetName { node, text })?)
}

/// Whether a node is there and has this description.
fn has_description(tree: &Tree, node: u32, text: &Text) -> bool
    ensures { result ≡ has (λ row. is_shape node row && bytes_eq row.description text.now) tree.now.rows }
{
    if tree.has(node) {
        tree.description(node).is(text)
    } else {
        false
    }
}

/// The steps of a new description.
pub(crate) fn describe(
    alloc: Global,
    tree: &Tree,
    node: u32,
    text: &Text,
) -> Result<StepList, EditRefused>
    ensures { (known : FaceData) → GivesSteps result (edit_steps tree.now known (Describe node text.now)) }
{
    if let Some(fault) = name_fault(tree, node, text) {
        return Err(EditRefused::Refused(fault));
    }
    if has_description(tree, node, text) {
        return Ok(StepList::new(alloc));
    }
    let text = text.copy(alloc)?;
    Ok(one_step(alloc, Step::SetDescription { node, text })?)
}

/// Whether a node is there and has this role.
fn has_role(tree: &Tree, node: u32, role: u32) -> bool
    ensures { result ≡ has (λ row. is_shape node row && (row.role == role)) tree.now.rows }
{
    if tree.has(node) {
        tree.role(node) == role
    } else {
        false
    }
}

/// The steps of a new role.
pub(crate) fn role(
    alloc: Global,
    tree: &Tree,
    node: u32,
    role: u32,
) -> Result<StepList, EditRefused>
    ensures { (known : FaceData) → GivesSteps result (edit_steps tree.now known (Role node role)) }
{
    if let Some(fault) = node_fault(tree, node) {
        return Err(EditRefused::Refused(fault));
    }
    if has_role(tree, node, role) {
        return Ok(StepList::new(alloc));
    }
    Ok(one_step(alloc, Step::SetRole { node, role })?)
}
