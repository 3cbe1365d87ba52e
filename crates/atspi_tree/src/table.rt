//! The writes to a table of cells.

ghost use Rattle.std.specs.Prelude.{◌≡◌, ◌≤◌, ◌+◌, ℕ, List, None, Some, length, OnOk, OnErr};
ghost use Rattle.atspi_tree_model.specs.Row.{Holds};
ghost use Rattle.atspi_tree_model.specs.RowRules.{changed_shape};
ghost use Rattle.atspi_tree_model.specs.declared.step.Step.TheVariants.{SetDescription, SetName, SetRole, SetState};
ghost use Rattle.std.specs.Prelude.{◌<◌, ◌==◌, true, false};
ghost use Rattle.atspi_tree_model.specs.Edits.{is_among};
ghost use Rattle.std.specs.Option.{option_map};
ghost use Rattle.std.specs.Ordering.{nat_cmp};
ghost use Rattle.std.specs.BTreeSet.{contains};
ghost use Rattle.atspi_tree_model.specs.Map.{times};
ghost use Rattle.atspi_tree.specs.Table.{ChangesAt, Forgets, IsClean, Kept, Prunes, Rehangs, Relists, all_but};
ghost use Rattle.atspi_tree.specs.Table.{forgets_target, kept, look_in, moved_child, with_child, with_parent, with_row};
ghost use Rattle.atspi_tree.specs.Table.{without_child};
ghost use Rattle.atspi_tree.specs.Namers.{has_namer};
ghost use Rattle.atspi_tree.specs.Relations.{with_relations};

use crate::cell::Cell;
use crate::relations::Relations;
use crate::states::{drop_child, shift, unlist, with_state};
use atspi_base::{NoMemory, Text};
use std::collections::{BTreeMap, BTreeSet};
use std::mem::replace;

/// Puts a cell under a number that has none.
pub(crate) fn put_cell(
    cells: &mut BTreeMap<u32, Cell>,
    node: u32,
    cell: Cell,
) -> Result<(), NoMemory>
    requires is_new { look_in cells.old.entries node ≡ None }
    ensures put { OnOk result (ChangesAt cells.old.entries cells.new.entries node (kept node cell)) }
    ensures size { OnOk result (length cells.new.entries ≡ length cells.old.entries + 1) }
    ensures err { OnErr result (cells.new.entries ≡ cells.old.entries) }
{
    match cells.insert(node, cell) {
        Ok(_) => Ok(()),
        Err(_) => Err(NoMemory),
    }
}

/// Puts a number among the children of a node.
pub(crate) fn insert_child(
    cells: &mut BTreeMap<u32, Cell>,
    parent: u32,
    index: usize,
    node: u32,
) -> Result<(), NoMemory>
    requires in_range { Holds (λ k. index ≤ length k.children) (look_in cells.old.entries parent) }
    ensures put { (k : Kept) → look_in cells.old.entries parent ≡ Some k
        → OnOk result (ChangesAt cells.old.entries cells.new.entries parent (with_child index node k)) }
    ensures size { length cells.new.entries ≡ length cells.old.entries }
    ensures err { OnErr result ((n : ℕ) → look_in cells.new.entries n ≡ look_in cells.old.entries n) }
{
    match cells.get_mut(&parent) {
        Some(cell) => match cell.children.insert(index, node) {
            Ok(()) => Ok(()),
            Err(_) => Err(NoMemory),
        },
        None => unreachable!(),
    }
}

/// Gives a node another name.
pub(crate) fn set_name(cells: &mut BTreeMap<u32, Cell>, node: u32, name: Text)
    ensures put { (k : Kept) → look_in cells.old.entries node ≡ Some k
        → ChangesAt cells.old.entries cells.new.entries node (with_row (changed_shape (SetName node name)) k) }
    ensures size { length cells.new.entries ≡ length cells.old.entries }
{
    if let Some(cell) = cells.get_mut(&node) {
        cell.name = name;
    }
}

/// Gives a node another description.
pub(crate) fn set_description(cells: &mut BTreeMap<u32, Cell>, node: u32, description: Text)
    ensures put { (k : Kept) → look_in cells.old.entries node ≡ Some k
        → ChangesAt cells.old.entries cells.new.entries node
        (with_row (changed_shape (SetDescription node description)) k) }
    ensures size { length cells.new.entries ≡ length cells.old.entries }
{
    if let Some(cell) = cells.get_mut(&node) {
        cell.description = description;
    }
}

/// Gives a node another role.
pub(crate) fn set_role(cells: &mut BTreeMap<u32, Cell>, node: u32, role: u32)
    ensures put { (k : Kept) → look_in cells.old.entries node ≡ Some k
        → ChangesAt cells.old.entries cells.new.entries node (with_row (changed_shape (SetRole node role)) k) }
    ensures size { length cells.new.entries ≡ length cells.old.entries }
{
    if let Some(cell) = cells.get_mut(&node) {
        cell.role = role;
    }
}

/// Gives a node other relations, and hands out those that it had.
pub(crate) fn set_relations(
    cells: &mut BTreeMap<u32, Cell>,
    node: u32,
    relations: Relations,
) -> Relations
    ensures put { (k : Kept) → look_in cells.old.entries node ≡ Some k
        → ChangesAt cells.old.entries cells.new.entries node (with_row (with_relations relations) k) }
    ensures size { length cells.new.entries ≡ length cells.old.entries }
{
    match cells.get_mut(&node) {
        Some(cell) => replace(&mut cell.relations, relations),
        None => relations,
    }
}

/// Sets a state of a node, or clears it.
pub(crate) fn set_states(cells: &mut BTreeMap<u32, Cell>, node: u32, state: u8, on: bool)
    requires { state < 44 }
    ensures put { (k : Kept) → look_in cells.old.entries node ≡ Some k
        → ChangesAt cells.old.entries cells.new.entries node (with_row (changed_shape (SetState node state on)) k) }
    ensures size { length cells.new.entries ≡ length cells.old.entries }
{
    if let Some(cell) = cells.get_mut(&node) {
        cell.states = with_state(cell.states, state, on);
    }
}

/// Gives a node another parent.
pub(crate) fn set_parent(cells: &mut BTreeMap<u32, Cell>, node: u32, parent: u32)
    ensures put { (k : Kept) → look_in cells.old.entries node ≡ Some k
        → ChangesAt cells.old.entries cells.new.entries node (with_parent parent k) }
    ensures size { length cells.new.entries ≡ length cells.old.entries }
{
    if let Some(cell) = cells.get_mut(&node) {
        cell.parent = Some(parent);
    }
}

/// Takes a number out of the children of a node.
pub(crate) fn remove_child(cells: &mut BTreeMap<u32, Cell>, parent: u32, node: u32)
    ensures put { (k : Kept) → look_in cells.old.entries parent ≡ Some k
        → ChangesAt cells.old.entries cells.new.entries parent (without_child node k) }
    ensures size { length cells.new.entries ≡ length cells.old.entries }
{
    if let Some(cell) = cells.get_mut(&parent) {
        drop_child(&mut cell.children, node);
    }
}

/// Puts a child of a node at another index among the others.
pub(crate) fn shift_child(cells: &mut BTreeMap<u32, Cell>, parent: u32, index: usize, node: u32)
    requires in_range { Holds
        (λ k. (is_among node k.children ≡ true) × (index ≤ length (without_child node k).children))
        (look_in cells.old.entries parent) }
    ensures put { (k : Kept) → look_in cells.old.entries parent ≡ Some k
        → ChangesAt cells.old.entries cells.new.entries parent (moved_child index node k) }
    ensures size { length cells.new.entries ≡ length cells.old.entries }
{
    if let Some(cell) = cells.get_mut(&parent) {
        shift(&mut cell.children, index, node);
    }
}

/// Takes a node out of the children of one and puts it among those of another, at an index that counts them without it.
/// After want of memory all is as before.
fn relist(
    cells: &mut BTreeMap<u32, Cell>,
    old: u32,
    new: u32,
    index: usize,
    node: u32,
) -> Result<(), NoMemory>
    requires from { Holds (λ k. is_among node k.children ≡ true) (look_in cells.old.entries old) }
    requires in_range { Holds (λ k. index ≤ length (all_but node k.children)) (look_in cells.old.entries new) }
    requires only_there { (old == new) ≡ false
        → Holds (λ k. all_but node k.children ≡ k.children) (look_in cells.old.entries new) }
    ensures put { OnOk result (Relists cells.old.entries cells.new.entries old new index node) }
    ensures size { length cells.new.entries ≡ length cells.old.entries }
    ensures err { OnErr result ((n : ℕ) → look_in cells.new.entries n ≡ look_in cells.old.entries n) }
{
    if old == new {
        shift_child(cells, new, index, node);
        return Ok(());
    }
    insert_child(cells, new, index, node)?;
    remove_child(cells, old, node);
    Ok(())
}

/// Moves a node from its parent to another, at an index that counts the children without it. After want of memory all
/// is as before.
pub(crate) fn rehang(
    cells: &mut BTreeMap<u32, Cell>,
    old: u32,
    new: u32,
    index: usize,
    node: u32,
) -> Result<(), NoMemory>
    requires from { Holds (λ k. is_among node k.children ≡ true) (look_in cells.old.entries old) }
    requires in_range { Holds (λ k. index ≤ length (all_but node k.children)) (look_in cells.old.entries new) }
    requires only_there { (old == new) ≡ false
        → Holds (λ k. all_but node k.children ≡ k.children) (look_in cells.old.entries new) }
    requires apart { (new == node) ≡ false }
    requires not_own { (old == node) ≡ false }
    requires there { Holds (λ k. Unit {0}) (look_in cells.old.entries node) }
    ensures put { OnOk result (Rehangs cells.old.entries cells.new.entries old new index node) }
    ensures size { length cells.new.entries ≡ length cells.old.entries }
    ensures err { OnErr result ((n : ℕ) → look_in cells.new.entries n ≡ look_in cells.old.entries n) }
{
    relist(cells, old, new, index, node)?;
    set_parent(cells, node, new);
    Ok(())
}

/// Takes a number out of the children of a node, which lists it once at most.
fn unlist_child(cells: &mut BTreeMap<u32, Cell>, parent: u32, node: u32)
    requires { Holds (λ k. times node k.children ≤ 1) (look_in cells.old.entries parent) }
    ensures put { (k : Kept) → look_in cells.old.entries parent ≡ Some k
        → ChangesAt cells.old.entries cells.new.entries parent (without_child node k) }
    ensures size { length cells.new.entries ≡ length cells.old.entries }
{
    if let Some(cell) = cells.get_mut(&parent) {
        unlist(&mut cell.children, node);
    }
}

/// Takes a node out of the table and of the children of its parent. Hands out the relations that it had.
pub(crate) fn prune(cells: &mut BTreeMap<u32, Cell>, parent: u32, node: u32) -> Relations
    requires once { Holds (λ k. times node k.children ≤ 1) (look_in cells.old.entries parent) }
    requires apart { (parent == node) ≡ false }
    requires there { Holds (λ k. Unit {0}) (look_in cells.old.entries node) }
    ensures put { Prunes cells.old.entries cells.new.entries parent node }
    ensures size { length cells.new.entries + 1 ≡ length cells.old.entries }
{
    unlist_child(cells, parent, node);
    match cells.remove(&node) {
        Some(cell) => cell.relations,
        None => unreachable!(),
    }
}

/// Takes a number out of the targets of a node's relations, where the node is there.
fn forget_target(cells: &mut BTreeMap<u32, Cell>, node: u32, target: u32)
    ensures here { look_in cells.new.entries node
        ≡ option_map (forgets_target target) (look_in cells.old.entries node) }
    ensures others { (m : ℕ) → (m == node) ≡ false → look_in cells.new.entries m ≡ look_in cells.old.entries m }
    ensures size { length cells.new.entries ≡ length cells.old.entries }
{
    if let Some(cell) = cells.get_mut(&node) {
        cell.relations.drop_target(target);
    }
}

/// Takes a number out of the targets of all relations. Looks at those of the nodes that may name it, of which there are
/// some.
fn forget_targets(cells: &mut BTreeMap<u32, Cell>, namers: &BTreeSet<u32>, target: u32)
    requires { (m : ℕ) → contains nat_cmp namers.now m ≡ false → IsClean target (look_in cells.old.entries m) }
    ensures put { Forgets cells.old.entries cells.new.entries target }
    ensures size { length cells.new.entries ≡ length cells.old.entries }
{
    for node in namers {
        forget_target(cells, *node, target);
    }
}

/// The same where there may be no such node.
pub(crate) fn forget_named(
    cells: &mut BTreeMap<u32, Cell>,
    namers: &Option<BTreeSet<u32>>,
    target: u32,
)
    requires { (m : ℕ) → has_namer namers.now m ≡ false → IsClean target (look_in cells.old.entries m) }
    ensures put { Forgets cells.old.entries cells.new.entries target }
    ensures size { length cells.new.entries ≡ length cells.old.entries }
{
    if let Some(nodes) = namers {
        forget_targets(cells, nodes, target);
    }
}
