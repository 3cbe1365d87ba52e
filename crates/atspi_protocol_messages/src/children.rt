//! Events of nodes that come and go.

ghost use Rattle.std.specs.Prelude.{◌≡◌, ◌≤◌, ◌<◌, ◌^◌, true, length, IfOk, codes};
ghost use Rattle.atspi_message.specs.Envelope.{envelope_of};
ghost use Rattle.atspi_tree_model.specs.Path.{path_of};
ghost use Rattle.atspi_protocol.specs.ends.Places as places;
ghost use Rattle.atspi_protocol.specs.announcing.Signals as signals;
ghost use Rattle.atspi_protocol_messages.specs.Plain.{are_plain};

use crate::bodies::{details, event, put_node};
use crate::named::cache_signal;
use crate::paths::node_path;
use crate::values::{reference, signed};
use atspi_base::{NoMemory, Text};
use atspi_message::Message;
use atspi_types::Values;
use std::alloc::Global;

/// A parent has another child at this index, or no longer has it.
#[tactic(auto, unfolding(atspi_base::specs::valid_names::Names::is_member))]
fn child_changed(
    alloc: Global,
    bus: &Text,
    parent: u32,
    minor: &str,
    index: u32,
    child: u32,
) -> Result<Message, NoMemory>
    requires plain { are_plain minor.now ≡ true }
    requires short { length minor.now < 2 ^ 32 }
    requires index { index ≤ 8192 }
    ensures { IfOk result
        (λ message. envelope_of message ≡ (signals.child_changed bus.now parent minor.now index child).message) }
{
    let mut body = details(alloc, minor, signed(index), 0)?;
    put_node(alloc, &mut body, bus, child)?;
    event(alloc, parent, "ChildrenChanged", body)
}

/// A parent has another child at this index.
pub fn child_added(
    alloc: Global,
    bus: &Text,
    parent: u32,
    index: u32,
    child: u32,
) -> Result<Message, NoMemory>
    requires index { index ≤ 8192 }
    ensures { IfOk result
        (λ message. envelope_of message ≡ (signals.child_changed bus.now parent (codes "add") index child).message) }
{
    child_changed(alloc, bus, parent, "add", index, child)
}

/// A parent has lost the child that stood at this index.
pub fn child_removed(
    alloc: Global,
    bus: &Text,
    parent: u32,
    index: u32,
    child: u32,
) -> Result<Message, NoMemory>
    requires index { index ≤ 8192 }
    ensures { IfOk result
        (λ message. envelope_of message ≡ (signals.child_changed bus.now parent (codes "remove") index child).message) }
{
    child_changed(alloc, bus, parent, "remove", index, child)
}

/// A node has another parent.
#[tactic(auto, unfolding(atspi_base::specs::valid_names::Names::is_member))]
pub fn parent_changed(
    alloc: Global,
    bus: &Text,
    node: u32,
    parent: u32,
) -> Result<Message, NoMemory>
    ensures { IfOk result
        (λ message. envelope_of message
        ≡ (signals.property_changed node (codes "accessible-parent")
        (places.reference bus.now (path_of parent))).message) }
{
    let mut body = details(alloc, "accessible-parent", 0, 0)?;
    put_node(alloc, &mut body, bus, parent)?;
    event(alloc, node, "PropertyChange", body)
}

/// A node is gone, as the object for the whole tree tells it.
#[tactic(auto, unfolding(atspi_base::specs::valid_names::Names::is_member))]
pub fn node_removed(alloc: Global, bus: &Text, node: u32) -> Result<Message, NoMemory>
    ensures { IfOk result (λ message. envelope_of message ≡ (signals.removed bus.now node).message) }
{
    let gone = node_path(alloc, node)?;
    let gone = reference(alloc, bus, gone)?;
    let mut body = Values::new(alloc);
    body.push(gone)?;
    cache_signal(alloc, "RemoveAccessible", body)
}
