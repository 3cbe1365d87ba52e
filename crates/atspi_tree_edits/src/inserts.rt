//! The steps of edits that put a new node in.

ghost use Rattle.std.specs.Prelude.{◌≡◌, ◌||◌, nat_lt, true, []};
ghost use Rattle.atspi_tree_model.specs.Edits.{bad_columns, children_of, first_fault, is_full, is_long_name};
ghost use Rattle.atspi_tree_model.specs.Edits.{is_long_text, refusals, text_length};
ghost use Rattle.atspi_tree_model.specs.Forest.{has, width};
ghost use Rattle.atspi_tree_model.specs.Tree.{is_shape};
ghost use Rattle.atspi_tree_model.specs.declared.contents.FaceData.TheVariants.{Deeds};
ghost use Rattle.atspi_tree_model.specs.declared.edit.Edit.TheVariants.{Insert};
ghost use Rattle.atspi_tree_edits.specs.Answers.{GivesSteps, edit_steps};

use crate::copies::copy_seed;
use crate::fault::EditRefused;
use crate::parts::{is_long_name, is_long_text, one_step};
use atspi_base::Text;
use atspi_tree::Tree;
use atspi_tree_model::{EditFault, Seed, Step, StepList};
use std::alloc::Global;

/// Whether a count of columns is one that no table has.
fn has_bad_columns(columns: Option<u32>) -> bool
    ensures { result ≡ bad_columns columns }
{
    match columns {
        Some(count) => count == 0 || count > 1024,
        None => false,
    }
}

/// Whether a text that may be there is too long.
fn is_long(text: &Option<Text>) -> bool
    ensures { result ≡ is_long_text (text_length text.now) }
{
    match text {
        Some(text) => is_long_text(u64::from(text.count())),
        None => false,
    }
}

/// How many children a node has.
pub(crate) fn child_count(tree: &Tree, node: u32) -> usize
    requires { has (is_shape node) tree.now.rows ≡ true }
    ensures { result ≡ width (children_of tree.now.rows node) }
{
    tree.children(node).len()
}

/// Whether an index is behind all children of the new node's parent, or the new node's columns are none that a table
/// has.
fn is_bad_place(children: usize, index: u32, seed: &Seed) -> bool
    ensures { result ≡ (nat_lt children index || bad_columns seed.now.columns) }
{
    children < index as usize || has_bad_columns(seed.columns)
}

/// Whether the tree has all the nodes that a tree may have, or all numbers were taken.
fn is_full(tree: &Tree) -> bool
    ensures { result ≡ is_full tree.now.rows tree.now.added }
{
    tree.len() >= 8192 || tree.made() >= u32::MAX
}

/// Whether the name or the text of a new node is too long.
fn is_too_long(seed: &Seed) -> bool
    ensures { result ≡ (is_long_name seed.now.name || is_long_text (text_length seed.now.text)) }
{
    is_long_name(&seed.name) || is_long(&seed.text)
}

/// The reason to refuse a new node.
fn insert_fault(tree: &Tree, parent: u32, index: u32, seed: &Seed) -> Option<EditFault>
    ensures { result ≡ first_fault (refusals tree.now.rows tree.now.added (Deeds []) (Insert parent index seed.now)) }
{
    if !tree.has(parent) {
        return Some(EditFault::NoNode);
    }
    if is_bad_place(child_count(tree, parent), index, seed) {
        return Some(EditFault::BadIndex);
    }
    if is_full(tree) {
        return Some(EditFault::Full);
    }
    if is_too_long(seed) {
        return Some(EditFault::TextFull);
    }
    None
}

/// The steps of a new node.
pub(crate) fn insert(
    alloc: Global,
    tree: &Tree,
    parent: u32,
    index: u32,
    seed: &Seed,
) -> Result<StepList, EditRefused>
    ensures { GivesSteps result (edit_steps tree.now (Deeds []) (Insert parent index seed.now)) }
{
    if let Some(fault) = insert_fault(tree, parent, index, seed) {
        return Err(EditRefused::Refused(fault));
    }
    let node = tree.made() + 1;
    let seed = copy_seed(alloc, seed)?;
    Ok(one_step(
        alloc,
        Step::Add {
            node,
            parent,
            index,
            seed,
        },
    )?)
}
