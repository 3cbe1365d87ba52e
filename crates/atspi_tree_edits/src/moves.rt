//! The steps of a move.

ghost use Rattle.std.specs.Prelude.{◌≡◌, [], true, length};
ghost use Rattle.atspi_tree_model.specs.Edits.{children_of, first_fault, is_seat, refusals};
ghost use Rattle.atspi_tree_model.specs.Forest.{has, take_out, width};
ghost use Rattle.atspi_tree_model.specs.RowRules.{shapes};
ghost use Rattle.atspi_tree_model.specs.Tree.{in_subtree, is_shape, seat_of};
ghost use Rattle.atspi_tree_model.specs.declared.contents.FaceData.{FaceData};
ghost use Rattle.atspi_tree_model.specs.declared.contents.FaceData.TheVariants.{Deeds};
ghost use Rattle.atspi_tree_model.specs.declared.edit.Edit.TheVariants.{Move};
ghost use Rattle.atspi_tree.specs.Table.{all_but};
ghost use Rattle.atspi_tree.specs.TreeShape.{IsLawful};
ghost use Rattle.atspi_tree_edits.specs.Answers.{GivesSteps, edit_steps};
ghost use Rattle.atspi_tree.specs.inner.Places.{index_in};

use crate::fault::EditRefused;
use crate::parts::one_step;
use atspi_tree::Tree;
use atspi_tree_model::{EditFault, Step, StepList};
use std::alloc::Global;

/// How many of some numbers are not this one.
fn count_others(numbers: &[u32], number: u32) -> usize
    ensures { result ≡ length (all_but number numbers.now) }
{
    numbers.iter().filter(|n| **n != number).count()
}

/// How many children a node has, one of them not counted.
fn room(tree: &Tree, parent: u32, node: u32) -> usize
    requires { has (is_shape parent) tree.now.rows ≡ true }
    ensures { result ≡ width (take_out (is_shape node) (children_of tree.now.rows parent)) }
{
    count_others(tree.children(parent), node)
}

/// Whether a node is another, or below it. Looks at the nodes from it up to the other, or to the root.
fn is_below(tree: &Tree, top: u32, node: u32) -> bool
    requires there { has (is_shape node) tree.now.rows ≡ true }
    requires top_there { has (is_shape top) tree.now.rows ≡ true }
    requires lawful { IsLawful tree.now }
    ensures { result ≡ in_subtree shapes top tree.now.rows node }
{
    let mut at = node;
    while at != top {
        match tree.parent(at) {
            Some(parent) => at = parent,
            None => return false,
        }
    }
    true
}

/// The index of the first number that is this one, or how many numbers there are.
fn index_of(numbers: &[u32], number: u32) -> usize
    ensures { result ≡ index_in number numbers.now }
{
    for (i, n) in numbers.iter().enumerate() {
        if *n == number {
            return i;
        }
    }
    numbers.len()
}

/// Whether a node stands at this index of this parent.
fn is_at(tree: &Tree, node: u32, parent: u32, index: u32) -> bool
    requires there { has (is_shape node) tree.now.rows ≡ true }
    requires parent_there { has (is_shape parent) tree.now.rows ≡ true }
    requires lawful { IsLawful tree.now }
    ensures { result ≡ is_seat parent index (seat_of shapes node tree.now.rows) }
{
    let Some(up) = tree.parent(node) else {
        return false;
    };
    if up != parent {
        return false;
    }
    index_of(tree.children(parent), node) == index as usize
}

/// The reason to refuse a move.
fn move_fault(tree: &Tree, node: u32, parent: u32, index: u32) -> Option<EditFault>
    ensures lawful { IsLawful tree.now }
    ensures answer { result ≡ first_fault (refusals tree.now.rows tree.now.added (Deeds []) (Move node parent index)) }
{
    if !tree.has(node) {
        return Some(EditFault::NoNode);
    }
    if !tree.has(parent) {
        return Some(EditFault::NoNode);
    }
    if node == 0 {
        return Some(EditFault::IsRoot);
    }
    if room(tree, parent, node) < index as usize {
        return Some(EditFault::BadIndex);
    }
    if is_below(tree, node, parent) {
        return Some(EditFault::Cycle);
    }
    None
}

/// The steps of a move.
pub(crate) fn shift(
    alloc: Global,
    tree: &Tree,
    node: u32,
    parent: u32,
    index: u32,
) -> Result<StepList, EditRefused>
    ensures { (known : FaceData) → GivesSteps result (edit_steps tree.now known (Move node parent index)) }
{
    if let Some(fault) = move_fault(tree, node, parent, index) {
        return Err(EditRefused::Refused(fault));
    }
    if is_at(tree, node, parent, index) {
        return Ok(StepList::new(alloc));
    }
    Ok(one_step(
        alloc,
        Step::Move {
            node,
            parent,
            index,
        },
    )?)
}
