//! The steps of edits of a node's relations.

ghost use Rattle.std.specs.Prelude.{◌≡◌, ◌==◌, ◌||◌, ◌++◌, ◌∷◌, [], nat_lt, not, filter, IfOk};
ghost use Rattle.atspi_tree_model.specs.Edits.{first_fault, is_among, lacks_node};
ghost use Rattle.atspi_tree_model.specs.declared.contents.FaceData.{FaceData};
ghost use Rattle.atspi_tree_model.specs.declared.edit.Edit.TheVariants.{Relate, Unrelate};
ghost use Rattle.atspi_tree_model.specs.declared.step.Step.TheVariants.{Relate as RelateStep};
ghost use Rattle.atspi_tree_model.specs.declared.edit.EditFault.TheVariants.{BadIndex, NoNode};
ghost use Rattle.atspi_tree_edits.specs.Answers.{GivesSteps, edit_steps};

use crate::fault::EditRefused;
use crate::parts::one_step;
use atspi_base::{NoMemory, Nums};
use atspi_tree::Tree;
use atspi_tree_model::{EditFault, Step, StepList};
use std::alloc::Global;

/// The reason to refuse a relation of a kind with a target.
fn relation_fault(tree: &Tree, node: u32, kind: u32, target: u32) -> Option<EditFault>
    ensures { result
        ≡ first_fault
        ((lacks_node tree.now.rows node || lacks_node tree.now.rows target, NoNode)
        ∷ ((kind == 0) || nat_lt 18 kind, BadIndex) ∷ []) }
{
    if !tree.has(node) || !tree.has(target) {
        return Some(EditFault::NoNode);
    }
    if kind == 0 || kind > 18 {
        return Some(EditFault::BadIndex);
    }
    None
}

/// Whether a number is in a list.
fn is_among(numbers: &[u32], number: u32) -> bool
    ensures { result ≡ is_among number numbers.now }
{
    for n in numbers {
        if *n == number {
            return true;
        }
    }
    false
}

/// The steps of one more target.
pub(crate) fn relate(
    alloc: Global,
    tree: &Tree,
    node: u32,
    kind: u32,
    target: u32,
) -> Result<StepList, EditRefused>
    ensures { (known : FaceData) → GivesSteps result (edit_steps tree.now known (Relate node kind target)) }
{
    if let Some(fault) = relation_fault(tree, node, kind, target) {
        return Err(EditRefused::Refused(fault));
    }
    let targets = tree.targets(node, kind);
    if is_among(targets, target) {
        return Ok(StepList::new(alloc));
    }
    Ok(more(alloc, node, kind, targets, target)?)
}

/// The step of one more target.
fn more(
    alloc: Global,
    node: u32,
    kind: u32,
    targets: &[u32],
    target: u32,
) -> Result<StepList, NoMemory>
    ensures { IfOk result (λ steps. steps ≡ RelateStep node kind (targets.now ++ target ∷ []) ∷ []) }
{
    let mut targets = Nums::from_vec(targets.to_vec(alloc)?);
    targets.push(target)?;
    one_step(
        alloc,
        Step::Relate {
            node,
            kind,
            targets,
        },
    )
}

/// The steps of one target less.
pub(crate) fn unrelate(
    alloc: Global,
    tree: &Tree,
    node: u32,
    kind: u32,
    target: u32,
) -> Result<StepList, EditRefused>
    ensures { (known : FaceData) → GivesSteps result (edit_steps tree.now known (Unrelate node kind target)) }
{
    if let Some(fault) = relation_fault(tree, node, kind, target) {
        return Err(EditRefused::Refused(fault));
    }
    let targets = tree.targets(node, kind);
    if !is_among(targets, target) {
        return Ok(StepList::new(alloc));
    }
    Ok(less(alloc, node, kind, targets, target)?)
}

/// The step of one target less.
fn less(
    alloc: Global,
    node: u32,
    kind: u32,
    targets: &[u32],
    target: u32,
) -> Result<StepList, NoMemory>
    ensures { IfOk result (λ steps. steps ≡ RelateStep node kind (filter (λ t. not (t == target)) targets.now) ∷ []) }
{
    let left = targets
        .iter()
        .copied()
        .filter(|t| *t != target)
        .collect(alloc)?;
    one_step(
        alloc,
        Step::Relate {
            node,
            kind,
            targets: Nums::from_vec(left),
        },
    )
}
