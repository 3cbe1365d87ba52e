//! Signals of a node that changes, where a listener asks for them.

ghost use Rattle.std.specs.Prelude.{◌≡◌, ◌≤◌, ◌<◌, ◌∷◌, ◌++◌, [], codes, length, OnOk};
ghost use Rattle.atspi_types.specs.Kinds.{u32};
ghost use Rattle.atspi_types.specs.Data.{text_data, number_data};
ghost use Rattle.atspi_protocol.specs.announcing.Signals as signals;
ghost use Rattle.atspi_app_signals.specs.Asked.{messages_asked};

use crate::state::name_of;
use atspi_app_known::heard::Heard;
use atspi_base::{NoMemory, Text};
use atspi_protocol::ends::Mail;
use atspi_protocol_messages::{
    caret_moved, description_changed, name_changed, role_changed, state_changed, text_deleted,
    text_inserted,
};
use std::alloc::Global;

/// A node has another name.
#[tactic(auto, using(crate::proofs::Asked::asked_one, crate::proofs::Asked::asked_none))]
pub(crate) fn name(
    alloc: Global,
    heard: &Heard,
    node: u32,
    text: &Text,
    mail: &mut Mail,
) -> Result<(), NoMemory>
    ensures { OnOk result
        (mail.new
        ≡ mail.old
        ++ messages_asked heard.now
        (signals.property_changed node (codes "accessible-name") (text_data text.now) ∷ [])) }
{
    if heard.is_covered("property-change", "accessible-name") {
        mail.push(name_changed(alloc, node, text)?)?;
    }
    Ok(())
}

/// A node has another description.
#[tactic(auto, using(crate::proofs::Asked::asked_one, crate::proofs::Asked::asked_none))]
pub(crate) fn description(
    alloc: Global,
    heard: &Heard,
    node: u32,
    text: &Text,
    mail: &mut Mail,
) -> Result<(), NoMemory>
    ensures { OnOk result
        (mail.new
        ≡ mail.old
        ++ messages_asked heard.now
        (signals.property_changed node (codes "accessible-description") (text_data text.now) ∷ [])) }
{
    if heard.is_covered("property-change", "accessible-description") {
        mail.push(description_changed(alloc, node, text)?)?;
    }
    Ok(())
}

/// A node has another role.
#[tactic(auto, using(crate::proofs::Asked::asked_one, crate::proofs::Asked::asked_none))]
pub(crate) fn role(
    alloc: Global,
    heard: &Heard,
    node: u32,
    role: u32,
    mail: &mut Mail,
) -> Result<(), NoMemory>
    ensures { OnOk result
        (mail.new
        ≡ mail.old
        ++ messages_asked heard.now
        (signals.property_changed node (codes "accessible-role") (number_data u32 role) ∷ [])) }
{
    if heard.is_covered("property-change", "accessible-role") {
        mail.push(role_changed(alloc, node, role)?)?;
    }
    Ok(())
}

/// A state of a node is on, or off.
pub(crate) fn state(
    alloc: Global,
    heard: &Heard,
    node: u32,
    state: u8,
    on: bool,
    mail: &mut Mail,
) -> Result<(), NoMemory>
    requires { state < 44 }
    ensures { OnOk result (mail.new ≡ mail.old ++ messages_asked heard.now (signals.state_changed node state on ∷ [])) }
{
    if !heard.is_covered("state-changed", name_of(state)) {
        return Ok(());
    }
    mail.push(state_changed(alloc, node, state, on)?)?;
    Ok(())
}

/// A text was put in.
#[tactic(auto, using(crate::proofs::Asked::asked_one, crate::proofs::Asked::asked_none))]
pub(crate) fn inserted(
    alloc: Global,
    heard: &Heard,
    node: u32,
    at: u32,
    text: &Text,
    mail: &mut Mail,
) -> Result<(), NoMemory>
    requires at { at ≤ 1048576 }
    requires short { length text.now ≤ 1048576 }
    ensures { OnOk result
        (mail.new
        ≡ mail.old
        ++ messages_asked heard.now
        (signals.text_changed node (codes "insert") at (length text.now) text.now ∷ [])) }
{
    if heard.is_covered("text-changed", "insert") {
        mail.push(text_inserted(alloc, node, at, text)?)?;
    }
    Ok(())
}

/// A text was taken out.
#[tactic(auto, using(crate::proofs::Asked::asked_one, crate::proofs::Asked::asked_none))]
pub(crate) fn deleted(
    alloc: Global,
    heard: &Heard,
    node: u32,
    at: u32,
    text: &Text,
    mail: &mut Mail,
) -> Result<(), NoMemory>
    requires at { at ≤ 1048576 }
    requires short { length text.now ≤ 1048576 }
    ensures { OnOk result
        (mail.new
        ≡ mail.old
        ++ messages_asked heard.now
        (signals.text_changed node (codes "delete") at (length text.now) text.now ∷ [])) }
{
    if heard.is_covered("text-changed", "delete") {
        mail.push(text_deleted(alloc, node, at, text)?)?;
    }
    Ok(())
}

/// The caret went to another place.
#[tactic(auto, using(crate::proofs::Asked::asked_one, crate::proofs::Asked::asked_none))]
pub(crate) fn caret(
    alloc: Global,
    heard: &Heard,
    node: u32,
    at: u32,
    mail: &mut Mail,
) -> Result<(), NoMemory>
    requires { at ≤ 1048576 }
    ensures { OnOk result (mail.new ≡ mail.old ++ messages_asked heard.now (signals.caret_moved node at ∷ [])) }
{
    if heard.is_covered("text-caret-moved", "") {
        mail.push(caret_moved(alloc, node, at)?)?;
    }
    Ok(())
}
