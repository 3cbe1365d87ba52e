//! The children of a node, its parent, and its index.

ghost use Rattle.std.specs.Prelude.{◌≡◌, ◌≤◌, pos, [], None, true, length, slice_get, IfOk};
ghost use Rattle.atspi_types.specs.DataView.{data_of};
ghost use Rattle.atspi_tree_model.specs.Forest.{has};
ghost use Rattle.atspi_tree_model.specs.RowRules.{shapes};
ghost use Rattle.atspi_tree_model.specs.Tree.{is_shape, seat_of};
ghost use Rattle.atspi_protocol.specs.objects.Children as children;
ghost use Rattle.atspi_tree.specs.inner.Places.{index_in};
ghost use Rattle.atspi_tree.specs.TreeShape.{children_of};
ghost use Rattle.atspi_app_values.specs.Numbers.{index_of, parent_of, place_of};

use crate::values::node_reference;
use atspi_base::{NoMemory, Text};
use atspi_protocol::ends::path;
use atspi_protocol_messages::{reference, word};
use atspi_tree::Tree;
use atspi_types::Value;
use std::alloc::Global;

/// An index or a place from outside; none below 0.
pub fn place_of(index: i32) -> Option<usize>
    ensures { result ≡ place_of index }
{
    if index < 0 {
        None
    } else {
        Some(index as usize)
    }
}

/// The child at a place.
fn nth_child(tree: &Tree, node: u32, place: usize) -> Option<u32>
    requires { has (is_shape node) tree.now.rows ≡ true }
    ensures { result ≡ slice_get (children_of node tree.now) place }
{
    tree.children(node).get(place).copied()
}

/// The child at an index.
pub fn child_at(tree: &Tree, node: u32, index: i32) -> Option<u32>
    requires { has (is_shape node) tree.now.rows ≡ true }
    ensures { result ≡ children.at index (children_of node tree.now) }
{
    match place_of(index) {
        Some(place) => nth_child(tree, node, place),
        None => None,
    }
}

/// How many children a node has.
#[tactic(auto, using(crate::proofs::Indexes::few_children))]
pub fn child_count(tree: &Tree, node: u32) -> u32
    requires there { has (is_shape node) tree.now.rows ≡ true }
    ensures count { result ≡ length (children_of node tree.now) }
    ensures few { result ≤ 8192 }
{
    tree.is_lawful();
    tree.children(node).len() as u32
}

/// The index of the first number that is this one, or how many numbers there are.
fn index_among(numbers: &[u32], number: u32) -> usize
    ensures index { result ≡ index_in number numbers.now }
    ensures within { result ≤ length numbers.now }
{
    for (i, n) in numbers.iter().enumerate() {
        if *n == number {
            return i;
        }
    }
    numbers.len()
}

/// A small number, signed.
fn small(n: usize) -> i32
    requires { n ≤ 8192 }
    ensures { result ≡ pos n }
{
    n as i32
}

/// The index of a node among its parent's children, -1 of the root.
pub fn index_in_parent(tree: &Tree, node: u32) -> i32
    requires { has (is_shape node) tree.now.rows ≡ true }
    ensures { result ≡ index_of (seat_of shapes node tree.now.rows) }
{
    tree.is_lawful();
    match tree.parent(node) {
        Some(parent) => small(index_among(tree.children(parent), node)),
        None => -1,
    }
}

/// The root of the registry, which is the parent of each root.
#[tactic(auto, unfolding(atspi_base::specs::valid_names::Names::is_path, atspi_base::specs::valid_names::Elements::are_elements, atspi_base::specs::valid_names::Elements::parts_of))]
fn registry_root(alloc: Global) -> Result<Value, NoMemory>
    ensures { IfOk result (λ value. data_of value ≡ parent_of [] None) }
{
    let root = path(alloc, "/org/a11y/atspi/accessible/root")?;
    let bus = word(alloc, "org.a11y.atspi.Registry")?;
    reference(alloc, &bus, root)
}

/// The parent of a node.
pub fn parent(alloc: Global, tree: &Tree, bus: &Text, node: u32) -> Result<Value, NoMemory>
    requires { has (is_shape node) tree.now.rows ≡ true }
    ensures { IfOk result (λ value. data_of value ≡ parent_of bus.now (seat_of shapes node tree.now.rows)) }
{
    tree.is_lawful();
    match tree.parent(node) {
        Some(parent) => node_reference(alloc, bus, parent),
        None => registry_root(alloc),
    }
}
