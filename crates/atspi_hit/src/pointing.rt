//! Which node is at a point: from a node down, from child to child.

ghost use Rattle.std.specs.Prelude.{◌≡◌, true};
ghost use Rattle.atspi_tree_model.specs.Forest.{has};
ghost use Rattle.atspi_tree_model.specs.States.{has_state};
ghost use Rattle.atspi_tree_model.specs.Tree.{is_shape};
ghost use Rattle.atspi_tree.specs.TreeShape.{children_of};
ghost use Rattle.atspi_hit.specs.Places as places;
ghost use Rattle.atspi_hit.specs.Places.{rect_at};
ghost use Rattle.atspi_hit.specs.Pointing.{at_point, showing};
ghost use Rattle.atspi_hit.specs.inner.Covering.{covers_node, last_of};

use crate::layout::Layout;
use crate::rect::Rect;
use atspi_tree::Tree;

/// The bit of the state showing.
const SHOWING: u32 = 25;

/// Whether states have showing among them.
fn is_showing(states: u64) -> bool
    ensures { result ≡ has_state showing states }
{
    (states >> SHOWING) & 1 == 1
}

/// A point of the screen.
#[derive(Clone, Copy)]
struct Point {
    x: i32,
    y: i32,
}

/// Whether a point is in a rectangle.
fn is_in(point: &Point, rect: Rect) -> bool
    ensures { result ≡ places.covers rect point.now.x point.now.y }
{
    rect.covers(point.x, point.y)
}

/// Whether a node of the tree is showing and covers the point.
fn covers(tree: &Tree, layout: &Layout, node: u32, point: &Point) -> bool
    ensures { result ≡ covers_node tree.now (rect_at layout.now) point.now.x point.now.y node }
{
    if !is_in(point, layout.rect(node)) {
        return false;
    }
    if !tree.has(node) {
        return false;
    }
    is_showing(tree.states(node))
}

/// The last of some nodes that covers the point. Looks at them from the last on.
fn last_covering(tree: &Tree, layout: &Layout, nodes: &[u32], point: &Point) -> Option<u32>
    ensures { result ≡ last_of (covers_node tree.now (rect_at layout.now) point.now.x point.now.y) nodes.now }
{
    let mut left = nodes.len();
    while left > 0 {
        left -= 1;
        let node = nodes[left];
        if covers(tree, layout, node, point) {
            return Some(node);
        }
    }
    None
}

/// The last node in preorder of those at and below a node that cover the point with each node on the way to them.
fn deepest(tree: &Tree, layout: &Layout, from: u32, point: &Point) -> Option<u32>
    requires { has (is_shape from) tree.now.rows ≡ true }
    ensures { result ≡ at_point tree.now (rect_at layout.now) from point.now.x point.now.y }
{
    tree.is_lawful();
    if !covers(tree, layout, from, point) {
        return None;
    }
    let mut at = from;
    while let Some(child) = last_covering(tree, layout, tree.children(at), point) {
        at = child;
    }
    Some(at)
}

/// The node at a point of the screen, of those at and below a node: the last in preorder that covers the point, with
/// each node on the way to it. A node covers a point where its state showing is set and the point is in its rectangle.
/// Looks at the children of each node on that way, from the last on, and at no others. Takes no memory.
pub fn at_point(tree: &Tree, layout: &Layout, from: u32, x: i32, y: i32) -> Option<u32>
    requires { has (is_shape from) tree.now.rows ≡ true }
    ensures { result ≡ at_point tree.now (rect_at layout.now) from x y }
{
    deepest(tree, layout, from, &Point { x, y })
}
