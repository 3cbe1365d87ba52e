//! Which nodes are selected.

ghost use Rattle.std.specs.Prelude.{◌≡◌, ◌≤◌, true, length, slice_get};
ghost use Rattle.std.specs.List.{list_all};
ghost use Rattle.atspi_tree_model.specs.Forest.{has};
ghost use Rattle.atspi_tree_model.specs.States.{has_state};
ghost use Rattle.atspi_tree_model.specs.Tree.{is_shape};
ghost use Rattle.atspi_tree.specs.TreeShape.{children_of};
ghost use Rattle.atspi_app_contents.specs.values.Numbers.{is_selected, is_selected_there, node_at, selected_among};

use atspi_tree::Tree;

/// Whether a set of states has Selected.
fn has_selected(states: u64) -> bool
    ensures { result ≡ has_state 23 states }
{
    (states >> 23) % 2 == 1
}

/// Whether a node is there and selected.
pub fn is_selected(tree: &Tree, node: u32) -> bool
    ensures { result ≡ is_selected tree.now.rows node }
{
    if tree.has(node) {
        has_selected(tree.states(node))
    } else {
        false
    }
}

/// The same of a node that may be none.
pub fn is_selected_there(tree: &Tree, node: Option<u32>) -> bool
    ensures { result ≡ is_selected_there tree.now.rows node }
{
    match node {
        Some(node) => is_selected(tree, node),
        None => false,
    }
}

/// The one of some nodes that stands at a place among those that are selected.
#[tactic(auto, using(crate::proofs::OfValues::Chosen::passed, crate::proofs::OfValues::Chosen::counted, crate::proofs::OfValues::Chosen::reached, crate::proofs::OfValues::Chosen::ended))]
pub fn nth_selected(tree: &Tree, nodes: &[u32], place: usize) -> Option<u32>
    ensures { result ≡ slice_get (selected_among tree.now.rows nodes.now) place }
{
    let mut left = place;
    for node in nodes {
        if !is_selected(tree, *node) {
            continue;
        }
        if left == 0 {
            return Some(*node);
        }
        left -= 1;
    }
    None
}

/// The child at a place among those that are selected, if there is one.
pub fn selected_child(tree: &Tree, node: u32, place: Option<usize>) -> Option<u32>
    requires { has (is_shape node) tree.now.rows ≡ true }
    ensures { result ≡ node_at (selected_among tree.now.rows (children_of node tree.now)) place }
{
    match place {
        Some(place) => nth_selected(tree, tree.children(node), place),
        None => None,
    }
}

/// How many of some nodes are selected.
#[tactic(auto, using(crate::proofs::OfValues::Chosen::count_is, crate::proofs::OfValues::Chosen::count_within))]
pub fn selected_count(tree: &Tree, nodes: &[u32]) -> usize
    ensures count { result ≡ length (selected_among tree.now.rows nodes.now) }
    ensures within { result ≤ length nodes.now }
{
    nodes
        .iter()
        .filter(|node| is_selected(tree, **node))
        .count()
}

/// Whether all of some nodes are selected.
pub fn are_selected(tree: &Tree, nodes: &[u32]) -> bool
    ensures { result ≡ list_all (is_selected tree.now.rows) nodes.now }
{
    nodes.iter().all(|node| is_selected(tree, *node))
}
