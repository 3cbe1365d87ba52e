//! The calls that a reader's user asks for.

ghost use Rattle.std.specs.Prelude.{◌≡◌, ◌≢◌, ◌≤◌, true, length, IfOk};
ghost use Rattle.atspi_types.specs.DataView.{all_data};
ghost use Rattle.atspi_base.specs.valid_names.Names.{is_member};
ghost use Rattle.atspi_message.specs.Envelope.{envelope_of};
ghost use Rattle.atspi_message.specs.Rules.{MeetsRules};
ghost use Rattle.atspi_script_lines.specs.declared.deed.Deed.TheVariants.{SetCaret, InsertText, DeleteText, SetText};
ghost use Rattle.atspi_script_lines.specs.declared.deed.Deed.TheVariants.{SelectChild, DeselectChild, SelectAll};
ghost use Rattle.atspi_script_lines.specs.declared.deed.Deed.TheVariants.{ClearSelection, DoAction};
ghost use Rattle.atspi_protocol.specs.ends.Messages as messages;
ghost use Rattle.atspi_protocol.specs.members.Interfaces as interfaces;
ghost use Rattle.atspi_protocol.specs.following.Calls as calls;
ghost use Rattle.atspi_reader_calls.specs.Deeds.{MayBeAsked};

use crate::bodies::{nothing, number, one, placed, text, two};
use crate::own::numbered;
use crate::targets::object_call;
use atspi_base::valid_names::{BusName, Path};
use atspi_base::{NoMemory, Text};
use atspi_message::Message;
use atspi_protocol_messages::node_path;
use atspi_script_lines::Deed;
use atspi_types::Values;
use std::alloc::Global;

/// A call of interface EditableText.
#[tactic(auto, unfolding(atspi_base::specs::valid_names::Names::is_interface, atspi_base::specs::valid_names::Elements::are_two_or_more, atspi_base::specs::valid_names::Elements::are_elements, atspi_base::specs::valid_names::Elements::parts_of))]
fn text_call(
    alloc: Global,
    name: &BusName,
    node: Path,
    asked: &str,
    body: Values,
) -> Result<Message, NoMemory>
    requires { is_member asked.now ≡ true }
    ensures { IfOk result
        (λ message. envelope_of message
        ≡ messages.call_to name.now node interfaces.editable_text asked.now (all_data body)) }
{
    object_call(
        alloc,
        name,
        node,
        "org.a11y.atspi.EditableText",
        asked,
        body,
    )
}

/// A call of interface Selection.
#[tactic(auto, unfolding(atspi_base::specs::valid_names::Names::is_interface, atspi_base::specs::valid_names::Elements::are_two_or_more, atspi_base::specs::valid_names::Elements::are_elements, atspi_base::specs::valid_names::Elements::parts_of))]
fn selection_call(
    alloc: Global,
    name: &BusName,
    node: Path,
    asked: &str,
    body: Values,
) -> Result<Message, NoMemory>
    requires { is_member asked.now ≡ true }
    ensures { IfOk result
        (λ message. envelope_of message
        ≡ messages.call_to name.now node interfaces.selection asked.now (all_data body)) }
{
    object_call(alloc, name, node, "org.a11y.atspi.Selection", asked, body)
}

/// The caret goes before the character at a place.
#[tactic(auto, unfolding(atspi_base::specs::valid_names::Names::is_interface, atspi_base::specs::valid_names::Names::is_member, atspi_base::specs::valid_names::Elements::are_two_or_more, atspi_base::specs::valid_names::Elements::are_elements, atspi_base::specs::valid_names::Elements::parts_of))]
fn caret_call(alloc: Global, name: &BusName, node: Path, at: u32) -> Result<Message, NoMemory>
    requires { at ≤ 2147483647 }
    ensures { IfOk result (λ message. envelope_of message ≡ calls.deed_call name.now node (SetCaret at)) }
{
    let body = one(alloc, number(at))?;
    object_call(
        alloc,
        name,
        node,
        "org.a11y.atspi.Text",
        "SetCaretOffset",
        body,
    )
}

/// An action is done.
#[tactic(auto, unfolding(atspi_base::specs::valid_names::Names::is_interface, atspi_base::specs::valid_names::Names::is_member, atspi_base::specs::valid_names::Elements::are_two_or_more, atspi_base::specs::valid_names::Elements::are_elements, atspi_base::specs::valid_names::Elements::parts_of))]
fn action_call(alloc: Global, name: &BusName, node: Path, index: u32) -> Result<Message, NoMemory>
    requires { index ≤ 2147483647 }
    ensures { IfOk result (λ message. envelope_of message ≡ calls.deed_call name.now node (DoAction index)) }
{
    let body = one(alloc, number(index))?;
    object_call(alloc, name, node, "org.a11y.atspi.Action", "DoAction", body)
}

/// A text is put in at a place.
#[tactic(auto, unfolding(atspi_base::specs::valid_names::Names::is_member))]
fn insert_call(
    alloc: Global,
    name: &BusName,
    node: Path,
    at: u32,
    text: &Text,
) -> Result<Message, NoMemory>
    requires at { at ≤ 2147483647 }
    requires short { length text.now ≤ 1048576 }
    ensures { IfOk result (λ message. envelope_of message ≡ calls.deed_call name.now node (InsertText at text.now)) }
{
    let body = placed(alloc, at, text)?;
    text_call(alloc, name, node, "InsertText", body)
}

/// Characters are taken out.
#[tactic(auto, unfolding(atspi_base::specs::valid_names::Names::is_member))]
fn delete_call(
    alloc: Global,
    name: &BusName,
    node: Path,
    from: u32,
    to: u32,
) -> Result<Message, NoMemory>
    requires from { from ≤ 2147483647 }
    requires to { to ≤ 2147483647 }
    ensures { IfOk result (λ message. envelope_of message ≡ calls.deed_call name.now node (DeleteText from to)) }
{
    let body = two(alloc, from, to)?;
    text_call(alloc, name, node, "DeleteText", body)
}

/// The whole text is replaced.
#[tactic(auto, unfolding(atspi_base::specs::valid_names::Names::is_member))]
fn contents_call(
    alloc: Global,
    name: &BusName,
    node: Path,
    contents: &Text,
) -> Result<Message, NoMemory>
    ensures { IfOk result (λ message. envelope_of message ≡ calls.deed_call name.now node (SetText contents.now)) }
{
    let body = text(alloc, contents)?;
    text_call(alloc, name, node, "SetTextContents", body)
}

/// A child is selected.
#[tactic(auto, unfolding(atspi_base::specs::valid_names::Names::is_member))]
fn select_call(alloc: Global, name: &BusName, node: Path, index: u32) -> Result<Message, NoMemory>
    requires { index ≤ 2147483647 }
    ensures { IfOk result (λ message. envelope_of message ≡ calls.deed_call name.now node (SelectChild index)) }
{
    let body = one(alloc, number(index))?;
    selection_call(alloc, name, node, "SelectChild", body)
}

/// A child is selected no more.
#[tactic(auto, unfolding(atspi_base::specs::valid_names::Names::is_member))]
fn deselect_call(alloc: Global, name: &BusName, node: Path, index: u32) -> Result<Message, NoMemory>
    requires { index ≤ 2147483647 }
    ensures { IfOk result (λ message. envelope_of message ≡ calls.deed_call name.now node (DeselectChild index)) }
{
    let body = one(alloc, number(index))?;
    selection_call(alloc, name, node, "DeselectChild", body)
}

/// What a user asks of a node, by the node's path, before it has its number (AT-SPI2, interfaces Text, EditableText,
/// Selection and Action). Memory alone can be wanting.
#[tactic(auto, unfolding(atspi_base::specs::valid_names::Names::is_member))]
pub fn deed_call(
    alloc: Global,
    name: &BusName,
    node: Path,
    deed: &Deed,
) -> Result<Message, NoMemory>
    requires { MayBeAsked deed.now }
    ensures { IfOk result (λ message. envelope_of message ≡ calls.deed_call name.now node deed.now) }
{
    match deed {
        Deed::SetCaret { at } => caret_call(alloc, name, node, *at),
        Deed::InsertText { at, text } => insert_call(alloc, name, node, *at, text),
        Deed::DeleteText { from, to } => delete_call(alloc, name, node, *from, *to),
        Deed::SetText { text } => contents_call(alloc, name, node, text),
        Deed::SelectChild { index } => select_call(alloc, name, node, *index),
        Deed::DeselectChild { index } => deselect_call(alloc, name, node, *index),
        Deed::SelectAll => selection_call(alloc, name, node, "SelectAll", nothing(alloc)),
        Deed::ClearSelection => selection_call(alloc, name, node, "ClearSelection", nothing(alloc)),
        Deed::DoAction { index } => action_call(alloc, name, node, *index),
    }
}

/// What a user asks of a node, by the node's number, with the call's own number. It can be written where that is not 0.
/// Memory alone can be wanting.
pub fn user_call(
    alloc: Global,
    serial: u32,
    name: &BusName,
    node: u32,
    deed: &Deed,
) -> Result<Message, NoMemory>
    requires { MayBeAsked deed.now }
    ensures call { IfOk result (λ message. envelope_of message ≡ calls.user_call serial name.now node deed.now) }
    ensures meets { serial ≢ 0 → IfOk result (λ message. MeetsRules (envelope_of message)) }
{
    let path = node_path(alloc, node)?;
    let message = deed_call(alloc, name, path, deed)?;
    Ok(numbered(message, serial))
}
