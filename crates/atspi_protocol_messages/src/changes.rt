//! Events of a node that changes.

ghost use Rattle.std.specs.Prelude.{◌≡◌, ◌≤◌, ◌<◌, ◌^◌, true, IfOk, codes, length};
ghost use Rattle.atspi_types.specs.Kinds.{u32};
ghost use Rattle.atspi_types.specs.Data.{text_data, number_data};
ghost use Rattle.atspi_message.specs.Envelope.{envelope_of};
ghost use Rattle.atspi_protocol.specs.announcing.Signals as signals;
ghost use Rattle.atspi_protocol_messages.specs.Plain.{are_plain};

use crate::bodies::{details, event, put_text, put_value};
use crate::values::{name_of, nothing, number, signed};
use atspi_base::{NoMemory, Text};
use atspi_message::Message;
use atspi_types::Ty;
use std::alloc::Global;

/// A property of a node has another text.
#[tactic(auto, unfolding(atspi_base::specs::valid_names::Names::is_member))]
fn property_changed(alloc: Global, node: u32, minor: &str, text: &Text) -> Result<Message, NoMemory>
    requires plain { are_plain minor.now ≡ true }
    requires short { length minor.now < 2 ^ 32 }
    ensures { IfOk result
        (λ message. envelope_of message ≡ (signals.property_changed node minor.now (text_data text.now)).message) }
{
    let mut body = details(alloc, minor, 0, 0)?;
    put_text(alloc, &mut body, text)?;
    event(alloc, node, "PropertyChange", body)
}

/// A node has another name.
pub fn name_changed(alloc: Global, node: u32, name: &Text) -> Result<Message, NoMemory>
    ensures { IfOk result
        (λ message. envelope_of message
        ≡ (signals.property_changed node (codes "accessible-name") (text_data name.now)).message) }
{
    property_changed(alloc, node, "accessible-name", name)
}

/// A node has another description.
pub fn description_changed(alloc: Global, node: u32, text: &Text) -> Result<Message, NoMemory>
    ensures { IfOk result
        (λ message. envelope_of message
        ≡ (signals.property_changed node (codes "accessible-description") (text_data text.now)).message) }
{
    property_changed(alloc, node, "accessible-description", text)
}

/// A node has another role.
#[tactic(auto, unfolding(atspi_base::specs::valid_names::Names::is_member))]
pub fn role_changed(alloc: Global, node: u32, role: u32) -> Result<Message, NoMemory>
    ensures { IfOk result
        (λ message. envelope_of message
        ≡ (signals.property_changed node (codes "accessible-role") (number_data u32 role)).message) }
{
    let mut body = details(alloc, "accessible-role", 0, 0)?;
    put_value(alloc, &mut body, Ty::U32, number(role))?;
    event(alloc, node, "PropertyChange", body)
}

/// A state of a node is on, or off.
#[tactic(auto, unfolding(atspi_base::specs::valid_names::Names::is_member))]
pub fn state_changed(alloc: Global, node: u32, state: u8, on: bool) -> Result<Message, NoMemory>
    requires state { state < 44 }
    ensures { IfOk result (λ message. envelope_of message ≡ (signals.state_changed node state on).message) }
{
    let mut body = details(alloc, name_of(state), if on { 1 } else { 0 }, 0)?;
    put_value(alloc, &mut body, Ty::I32, nothing())?;
    event(alloc, node, "StateChanged", body)
}

/// A text was put in, or taken out, at this place.
#[tactic(auto, unfolding(atspi_base::specs::valid_names::Names::is_member))]
fn text_changed(
    alloc: Global,
    node: u32,
    minor: &str,
    at: u32,
    text: &Text,
) -> Result<Message, NoMemory>
    requires plain { are_plain minor.now ≡ true }
    requires word { length minor.now < 2 ^ 32 }
    requires at { at ≤ 1048576 }
    requires short { length text.now ≤ 1048576 }
    ensures { IfOk result
        (λ message. envelope_of message ≡ (signals.text_changed node minor.now at (length text.now) text.now).message) }
{
    let mut body = details(alloc, minor, signed(at), signed(text.count()))?;
    put_text(alloc, &mut body, text)?;
    event(alloc, node, "TextChanged", body)
}

/// A text was put in at this place.
pub fn text_inserted(alloc: Global, node: u32, at: u32, text: &Text) -> Result<Message, NoMemory>
    requires at { at ≤ 1048576 }
    requires short { length text.now ≤ 1048576 }
    ensures { IfOk result
        (λ message. envelope_of message
        ≡ (signals.text_changed node (codes "insert") at (length text.now) text.now).message) }
{
    text_changed(alloc, node, "insert", at, text)
}

/// A text was taken out at this place.
pub fn text_deleted(alloc: Global, node: u32, at: u32, text: &Text) -> Result<Message, NoMemory>
    requires at { at ≤ 1048576 }
    requires short { length text.now ≤ 1048576 }
    ensures { IfOk result
        (λ message. envelope_of message
        ≡ (signals.text_changed node (codes "delete") at (length text.now) text.now).message) }
{
    text_changed(alloc, node, "delete", at, text)
}

/// The caret went to this place.
#[tactic(auto, unfolding(atspi_base::specs::valid_names::Names::is_member))]
pub fn caret_moved(alloc: Global, node: u32, at: u32) -> Result<Message, NoMemory>
    requires at { at ≤ 1048576 }
    ensures { IfOk result (λ message. envelope_of message ≡ (signals.caret_moved node at).message) }
{
    let mut body = details(alloc, "", signed(at), 0)?;
    put_value(alloc, &mut body, Ty::I32, nothing())?;
    event(alloc, node, "TextCaretMoved", body)
}
