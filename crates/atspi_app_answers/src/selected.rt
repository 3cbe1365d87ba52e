//! How many children of a node are selected.

ghost use Rattle.std.specs.Prelude.{◌≡◌, ◌≤◌, true, filter, length, All};
ghost use Rattle.atspi_tree_model.specs.Forest.{has};
ghost use Rattle.atspi_tree_model.specs.States.{has_state};
ghost use Rattle.atspi_tree_model.specs.Tree.{is_shape};
ghost use Rattle.atspi_tree.specs.TreeShape.{children_of};
ghost use Rattle.atspi_app_answers.specs.inner.Selected.{is_selected_in};

use atspi_tree::Tree;

/// Whether the states have the state Selected, the 23rd.
fn has_selected(states: u64) -> bool
    ensures { result ≡ has_state 23 states }
{
    (states >> 23) % 2 == 1
}

/// Whether a node is selected.
fn is_selected(tree: &Tree, node: u32) -> bool
    requires { has (is_shape node) tree.now.rows ≡ true }
    ensures { result ≡ is_selected_in tree.now node }
{
    has_selected(tree.states(node))
}

/// How many of these nodes are selected.
fn selected_among(tree: &Tree, nodes: &[u32]) -> u32
    requires there { All (λ n. has (is_shape n) tree.now.rows ≡ true) nodes.now }
    requires few { length nodes.now ≤ 8192 }
    ensures { result ≡ length (filter (is_selected_in tree.now) nodes.now) }
{
    let mut count = 0u32;
    for node in nodes {
        if is_selected(tree, *node) {
            count += 1;
        }
    }
    count
}

/// How many children of a node are selected. Looks at each child.
pub(crate) fn selected_count(tree: &Tree, node: u32) -> u32
    requires { has (is_shape node) tree.now.rows ≡ true }
    ensures { result ≡ length (filter (is_selected_in tree.now) (children_of node tree.now)) }
{
    tree.is_lawful();
    selected_among(tree, tree.children(node))
}
