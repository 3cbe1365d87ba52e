//! Items of nodes, as owned ones.

ghost use Rattle.std.specs.Prelude.{◌≡◌, ◌≢◌, ◌≤◌, pos, true, length, IfOk, IfSome};
ghost use Rattle.atspi_tree_model.specs.Announce as announce;
ghost use Rattle.atspi_tree_model.specs.Announce.{item_of};
ghost use Rattle.atspi_tree_model.specs.Forest.{has};
ghost use Rattle.atspi_tree_model.specs.RowRules as rules;
ghost use Rattle.atspi_tree_model.specs.RowRules.{rows};
ghost use Rattle.atspi_tree_model.specs.Tree.{is_shape};
ghost use Rattle.atspi_tree.specs.TreeShape.{children_of, row_of, IsLawful};
ghost use Rattle.atspi_app_items.specs.Bare.{bare};
ghost use Rattle.atspi_app_items.specs.Seated.{of_registry, parent_reference};

use crate::names::interfaces;
use atspi_base::{NoMemory, Text};
use atspi_protocol::ends::path;
use atspi_protocol_messages::node_path;
use atspi_tree::Tree;
use atspi_tree_model::{Item, Kinds, Reference, Seed};
use std::alloc::Global;

/// The states of a new node: enabled (8), sensitive (24), showing (25) and visible (30).
const FIRST_STATES: u64 = 0x4300_0100;

/// A reference to a node of the application with this bus name.
pub fn own(alloc: Global, bus: &Text, node: u32) -> Result<Reference, NoMemory>
    ensures { IfOk result (λ r. r ≡ announce.own bus.now node) }
{
    Ok(Reference {
        bus: bus.copy(alloc)?,
        path: node_path(alloc, node)?,
    })
}

/// A count, or a place, as a signed number.
pub fn signed(n: u32) -> i32
    requires { n ≤ 2147483647 }
    ensures { result ≡ pos n }
{
    n as i32
}

/// The interfaces of a new node.
fn first_kinds(seed: &Seed) -> Kinds
    ensures { result ≡ rules.first_kinds seed.now }
{
    Kinds {
        text: seed.text.is_some(),
        editable: seed.editable,
        selection: seed.select,
        table: seed.columns.is_some(),
        action: seed.actions.len() != 0,
    }
}

/// The item of a new node, at an index of its parent.
pub fn new_item(
    alloc: Global,
    bus: &Text,
    node: u32,
    parent: u32,
    index: u32,
    seed: &Seed,
) -> Result<Item, NoMemory>
    requires { index ≤ 2147483647 }
    ensures { IfOk result
        (λ item. item ≡ item_of bus.now (announce.own bus.now parent) (pos index) 0 (rows.first node seed.now)) }
{
    let object = own(alloc, bus, node)?;
    let application = own(alloc, bus, 0)?;
    let above = own(alloc, bus, parent)?;
    let names = interfaces(alloc, node == 0, first_kinds(seed))?;
    let title = seed.name.copy(alloc)?;
    let description = Text::of(alloc, "")?;
    let place = signed(index);
    Ok(Item {
        object,
        application,
        parent: above,
        index: place,
        children: 0,
        interfaces: names,
        name: title,
        role: seed.role,
        description,
        states: FIRST_STATES,
    })
}

/// How many children a node has.
#[tactic(auto, using(crate::proofs::Few::children_few))]
fn count(tree: &Tree, node: u32) -> i32
    requires there { has (is_shape node) tree.now.rows ≡ true }
    ensures { result ≡ pos (length (children_of node tree.now)) }
{
    tree.is_lawful();
    signed(tree.children(node).len() as u32)
}

/// The parent of a root: the registry's.
#[tactic(auto, unfolding(atspi_base::specs::valid_names::Names::is_path, atspi_base::specs::valid_names::Elements::are_elements, atspi_base::specs::valid_names::Elements::parts_of))]
fn registry_root(alloc: Global) -> Result<Reference, NoMemory>
    ensures { IfOk result (λ r. r ≡ of_registry) }
{
    Ok(Reference {
        bus: Text::of(alloc, "org.a11y.atspi.Registry")?,
        path: path(alloc, "/org/a11y/atspi/accessible/root")?,
    })
}

/// The parent of a node: a root's is the registry's.
fn parent_of(alloc: Global, bus: &Text, up: Option<u32>) -> Result<Reference, NoMemory>
    ensures { IfOk result (λ r. r ≡ parent_reference bus.now up) }
{
    match up {
        Some(parent) => own(alloc, bus, parent),
        None => registry_root(alloc),
    }
}

/// The item of a node that is in the tree, with this parent and index.
pub fn node_item(
    alloc: Global,
    bus: &Text,
    tree: &Tree,
    node: u32,
    up: Option<u32>,
    index: i32,
) -> Result<Item, NoMemory>
    requires there { has (is_shape node) tree.now.rows ≡ true }
    ensures { IfOk result
        (λ item. IfSome (row_of node tree.now)
        (λ row. item
        ≡ item_of bus.now (parent_reference bus.now up) index (length (children_of node tree.now))
        (bare row))) }
{
    let object = own(alloc, bus, node)?;
    let application = own(alloc, bus, 0)?;
    let parent = parent_of(alloc, bus, up)?;
    let kinds = tree.kinds(node);
    let names = interfaces(alloc, node == 0, kinds)?;
    let title = tree.name(node).copy(alloc)?;
    let description = tree.description(node).copy(alloc)?;
    let children = count(tree, node);
    let role = tree.role(node);
    let states = tree.states(node);
    Ok(Item {
        object,
        application,
        parent,
        index,
        children,
        interfaces: names,
        name: title,
        role,
        description,
        states,
    })
}
