//! Signals of nodes that come, go and move, where a listener asks for them.

ghost use Rattle.std.specs.Prelude.{◌≡◌, ◌≤◌, ◌∷◌, ◌++◌, [], true, pos, codes, length, map, None, Some, OnOk, IfOk};
ghost use Rattle.std.specs.Prelude.{IfSome};
ghost use Rattle.std.specs.Option.{option_map};
ghost use Rattle.atspi_tree_model.specs.Announce as announce;
ghost use Rattle.atspi_tree_model.specs.Announce.{item_of};
ghost use Rattle.atspi_tree_model.specs.Forest.{has, labels, pick};
ghost use Rattle.atspi_tree_model.specs.Path.{path_of};
ghost use Rattle.atspi_tree_model.specs.RowRules.{rows, shapes};
ghost use Rattle.atspi_tree_model.specs.Tree.{is_shape, seat_of};
ghost use Rattle.atspi_message.specs.Envelope.{envelope_of};
ghost use Rattle.atspi_protocol.specs.ends.Places.{reference};
ghost use Rattle.atspi_protocol.specs.announcing.Signals as signals;
ghost use Rattle.atspi_protocol.specs.announcing.Announced as announcements;
ghost use Rattle.atspi_tree.specs.inner.Places.{index_in};
ghost use Rattle.atspi_tree.specs.Seats.{seats_below};
ghost use Rattle.atspi_tree.specs.TreeShape.{children_of, parent_of, row_of};
ghost use Rattle.atspi_app_items.specs.Bare.{bare};
ghost use Rattle.atspi_app_signals.specs.Asked.{messages_asked};

use atspi_app_items::{new_item, node_added, node_item};
use atspi_app_known::heard::Heard;
use atspi_base::{NoMemory, Text};
use atspi_message::Message;
use atspi_protocol::ends::Mail;
use atspi_protocol_messages::{child_added, child_removed, node_removed, parent_changed};
use atspi_tree::Tree;
use atspi_tree_model::Seed;
use std::alloc::Global;

/// The item of a new node, as a message.
fn new_node(
    alloc: Global,
    bus: &Text,
    node: u32,
    parent: u32,
    index: u32,
    seed: &Seed,
) -> Result<Message, NoMemory>
    requires { index ≤ 8192 }
    ensures { IfOk result
        (λ message. envelope_of message
        ≡ (signals.added
        (item_of bus.now (announce.own bus.now parent) (pos index) 0 (rows.first node seed.now))).message) }
{
    let item = new_item(alloc, bus, node, parent, index, seed)?;
    let message = node_added(alloc, &item)?;
    Ok(message)
}

/// A new node has this item.
fn new_told(
    alloc: Global,
    heard: &Heard,
    bus: &Text,
    node: u32,
    parent: u32,
    index: u32,
    seed: &Seed,
    mail: &mut Mail,
) -> Result<(), NoMemory>
    requires { index ≤ 8192 }
    ensures { OnOk result
        (mail.new
        ≡ mail.old
        ++ messages_asked heard.now
        (signals.added
        (item_of bus.now (announce.own bus.now parent) (pos index) 0 (rows.first node seed.now))
        ∷ [])) }
{
    if !heard.is_covered("children-changed", "add") {
        return Ok(());
    }
    mail.push(new_node(alloc, bus, node, parent, index, seed)?)?;
    Ok(())
}

/// A parent has another child.
fn arrived(
    alloc: Global,
    heard: &Heard,
    bus: &Text,
    node: u32,
    parent: u32,
    index: u32,
    mail: &mut Mail,
) -> Result<(), NoMemory>
    requires { index ≤ 8192 }
    ensures { OnOk result
        (mail.new
        ≡ mail.old
        ++ messages_asked heard.now (signals.child_changed bus.now parent (codes "add") index node ∷ [])) }
{
    if !heard.is_covered("children-changed", "add") {
        return Ok(());
    }
    mail.push(child_added(alloc, bus, parent, index, node)?)?;
    Ok(())
}

/// A node is new below a parent.
pub(crate) fn added(
    alloc: Global,
    heard: &Heard,
    bus: &Text,
    node: u32,
    parent: u32,
    index: u32,
    seed: &Seed,
    mail: &mut Mail,
) -> Result<(), NoMemory>
    requires { index ≤ 8192 }
    ensures { OnOk result
        (mail.new
        ≡ mail.old
        ++ messages_asked heard.now
        (signals.added
        (item_of bus.now (announce.own bus.now parent) (pos index) 0 (rows.first node seed.now))
        ∷ signals.child_changed bus.now parent (codes "add") index node ∷ [])) }
{
    new_told(alloc, heard, bus, node, parent, index, seed, mail)?;
    arrived(alloc, heard, bus, node, parent, index, mail)?;
    Ok(())
}

/// The index of the first number that is this one, or how many numbers there are.
fn index_of(numbers: &[u32], number: u32) -> usize
    ensures { result ≡ index_in number numbers.now }
{
    for (i, n) in numbers.iter().enumerate() {
        if *n == number {
            return i;
        }
    }
    numbers.len()
}

/// The index of a node among the children of its parent.
fn seat_index(tree: &Tree, node: u32, parent: u32) -> u32
    requires { parent_of node tree.now ≡ Some (Some parent) }
    ensures seat { seat_of shapes node tree.now.rows ≡ Some (Some parent, result) }
    ensures small { result ≤ 8192 }
{
    tree.is_lawful();
    index_of(tree.children(parent), node) as u32
}

/// A node left its seat.
fn left(
    alloc: Global,
    heard: &Heard,
    bus: &Text,
    tree: &Tree,
    node: u32,
    mail: &mut Mail,
) -> Result<(), NoMemory>
    requires { has (is_shape node) tree.now.rows ≡ true }
    ensures { OnOk result
        (mail.new
        ≡ mail.old
        ++ messages_asked heard.now (announcements.left bus.now node (seat_of shapes node tree.now.rows))) }
{
    if !heard.is_covered("children-changed", "remove") {
        return Ok(());
    }
    let Some(parent) = tree.parent(node) else {
        return Ok(());
    };
    let index = seat_index(tree, node, parent);
    mail.push(child_removed(alloc, bus, parent, index, node)?)?;
    Ok(())
}

/// It is told of nodes that they are gone, one after another.
fn gone_below(
    alloc: Global,
    bus: &Text,
    tree: &Tree,
    node: u32,
    mail: &mut Mail,
) -> Result<(), NoMemory>
    requires { has (is_shape node) tree.now.rows ≡ true }
    ensures { OnOk result
        (mail.new ≡ mail.old ++ map (λ seat. (signals.removed bus.now seat.node).message) (seats_below node tree.now)) }
{
    let mut walk = tree.seats_below(node);
    while let Some(seat) = walk.next() {
        mail.push(node_removed(alloc, bus, seat.node)?)?;
    }
    Ok(())
}

/// It is told of a node, and of all below it, that they are gone.
fn gone(
    alloc: Global,
    heard: &Heard,
    bus: &Text,
    tree: &Tree,
    node: u32,
    mail: &mut Mail,
) -> Result<(), NoMemory>
    requires { has (is_shape node) tree.now.rows ≡ true }
    ensures { OnOk result
        (mail.new
        ≡ mail.old
        ++ messages_asked heard.now
        (map (λ row. signals.removed bus.now row.node) (labels (pick (is_shape node) tree.now.rows)))) }
{
    tree.is_lawful();
    if !heard.is_covered("children-changed", "remove") {
        return Ok(());
    }
    mail.push(node_removed(alloc, bus, node)?)?;
    gone_below(alloc, bus, tree, node, mail)?;
    Ok(())
}

/// A node is gone with all that is below it.
pub(crate) fn removed(
    alloc: Global,
    heard: &Heard,
    bus: &Text,
    tree: &Tree,
    node: u32,
    mail: &mut Mail,
) -> Result<(), NoMemory>
    requires { has (is_shape node) tree.now.rows ≡ true }
    ensures { OnOk result
        (mail.new
        ≡ mail.old
        ++ messages_asked heard.now
        (announcements.left bus.now node (seat_of shapes node tree.now.rows)
        ++ map (λ row. signals.removed bus.now row.node)
        (labels (pick (is_shape node) tree.now.rows)))) }
{
    left(alloc, heard, bus, tree, node, mail)?;
    gone(alloc, heard, bus, tree, node, mail)?;
    Ok(())
}

/// An index as a signed number.
fn signed(n: u32) -> i32
    requires { n ≤ 2147483647 }
    ensures { result ≡ pos n }
{
    n as i32
}

/// The item of a node at its new place, as a message.
fn moved_node(
    alloc: Global,
    bus: &Text,
    tree: &Tree,
    node: u32,
    parent: u32,
    index: u32,
) -> Result<Message, NoMemory>
    requires there { has (is_shape node) tree.now.rows ≡ true }
    requires index { index ≤ 8192 }
    ensures { IfOk result
        (λ message. IfSome (row_of node tree.now)
        (λ row. envelope_of message
        ≡ (signals.added
        (item_of bus.now (announce.own bus.now parent) (pos index) (length (children_of node tree.now))
        (bare row))).message)) }
{
    let place = signed(index);
    let item = node_item(alloc, bus, tree, node, Some(parent), place)?;
    let message = node_added(alloc, &item)?;
    Ok(message)
}

/// A node that moved has this item.
fn moved_told(
    alloc: Global,
    heard: &Heard,
    bus: &Text,
    tree: &Tree,
    node: u32,
    parent: u32,
    index: u32,
    mail: &mut Mail,
) -> Result<(), NoMemory>
    requires there { has (is_shape node) tree.now.rows ≡ true }
    requires index { index ≤ 8192 }
    ensures { OnOk result
        (mail.new
        ≡ mail.old
        ++ messages_asked heard.now
        (announcements.told_node bus.now parent index (length (children_of node tree.now))
        (option_map bare (row_of node tree.now)))) }
{
    if !heard.is_covered("children-changed", "add") {
        return Ok(());
    }
    mail.push(moved_node(alloc, bus, tree, node, parent, index)?)?;
    Ok(())
}

/// A node has another parent.
fn reparented(
    alloc: Global,
    heard: &Heard,
    bus: &Text,
    node: u32,
    parent: u32,
    mail: &mut Mail,
) -> Result<(), NoMemory>
    ensures { OnOk result
        (mail.new
        ≡ mail.old
        ++ messages_asked heard.now
        (signals.property_changed node (codes "accessible-parent") (reference bus.now (path_of parent))
        ∷ [])) }
{
    if !heard.is_covered("property-change", "accessible-parent") {
        return Ok(());
    }
    mail.push(parent_changed(alloc, bus, node, parent)?)?;
    Ok(())
}

/// A node has another parent, which has another child.
fn settled(
    alloc: Global,
    heard: &Heard,
    bus: &Text,
    node: u32,
    parent: u32,
    index: u32,
    mail: &mut Mail,
) -> Result<(), NoMemory>
    requires { index ≤ 8192 }
    ensures { OnOk result
        (mail.new
        ≡ mail.old
        ++ messages_asked heard.now
        (signals.property_changed node (codes "accessible-parent") (reference bus.now (path_of parent))
        ∷ signals.child_changed bus.now parent (codes "add") index node ∷ [])) }
{
    reparented(alloc, heard, bus, node, parent, mail)?;
    arrived(alloc, heard, bus, node, parent, index, mail)?;
    Ok(())
}

/// A node went to another place.
pub(crate) fn moved(
    alloc: Global,
    heard: &Heard,
    bus: &Text,
    tree: &Tree,
    node: u32,
    parent: u32,
    index: u32,
    mail: &mut Mail,
) -> Result<(), NoMemory>
    requires there { has (is_shape node) tree.now.rows ≡ true }
    requires index { index ≤ 8192 }
    ensures { OnOk result
        (mail.new
        ≡ mail.old
        ++ messages_asked heard.now
        (announcements.told_node bus.now parent index (length (children_of node tree.now))
        (option_map bare (row_of node tree.now))
        ++ announcements.left bus.now node (seat_of shapes node tree.now.rows)
        ++ signals.property_changed node (codes "accessible-parent")
        (reference bus.now (path_of parent))
        ∷ signals.child_changed bus.now parent (codes "add") index node ∷ [])) }
{
    moved_told(alloc, heard, bus, tree, node, parent, index, mail)?;
    left(alloc, heard, bus, tree, node, mail)?;
    settled(alloc, heard, bus, node, parent, index, mail)?;
    Ok(())
}
