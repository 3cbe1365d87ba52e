//! The calls of a reader's own.

ghost use Rattle.std.specs.Prelude.{◌≡◌, ◌≢◌, IfOk};
ghost use Rattle.atspi_message.specs.Envelope.{envelope_of};
ghost use Rattle.atspi_message.specs.Rules.{MeetsRules};
ghost use Rattle.atspi_protocol.specs.declared.following.question.Question.TheVariants.{GetItems};
ghost use Rattle.atspi_protocol.specs.following.Calls as calls;

use crate::bodies::{caret_property, columns_property, nothing, text, whole};
use crate::targets::{cache_object, children_call, object_call, register_call};
use atspi_base::NoMemory;
use atspi_base::valid_names::{BusName, Path};
use atspi_message::Message;
use atspi_protocol::following::Question;
use atspi_protocol::news::PartName;
use atspi_protocol_messages::bus_call;
use std::alloc::Global;

/// The message with its number.
pub(crate) fn numbered(message: Message, serial: u32) -> Message
    ensures { envelope_of result ≡ record (envelope_of message) { serial = serial } }
{
    let mut numbered = message;
    numbered.serial = serial;
    numbered
}

/// The call that asks for a part of the row with this path.
#[tactic(auto, unfolding(atspi_base::specs::valid_names::Names::is_interface, atspi_base::specs::valid_names::Names::is_member, atspi_base::specs::valid_names::Elements::are_two_or_more, atspi_base::specs::valid_names::Elements::are_elements, atspi_base::specs::valid_names::Elements::parts_of))]
fn part_call(
    alloc: Global,
    name: &BusName,
    path: &Path,
    part: PartName,
) -> Result<Message, NoMemory>
    ensures { IfOk result (λ message. envelope_of message ≡ calls.part_call name.now path.now part) }
{
    let object = path.copy(alloc)?;
    match part {
        PartName::Text => {
            let body = whole(alloc)?;
            object_call(alloc, name, object, "org.a11y.atspi.Text", "GetText", body)
        }
        PartName::Caret => {
            let body = caret_property(alloc)?;
            object_call(
                alloc,
                name,
                object,
                "org.freedesktop.DBus.Properties",
                "Get",
                body,
            )
        }
        PartName::Columns => {
            let body = columns_property(alloc)?;
            object_call(
                alloc,
                name,
                object,
                "org.freedesktop.DBus.Properties",
                "Get",
                body,
            )
        }
    }
}

/// The call that asks for all items of an application.
#[tactic(auto, unfolding(atspi_base::specs::valid_names::Names::is_interface, atspi_base::specs::valid_names::Names::is_member, atspi_base::specs::valid_names::Elements::are_two_or_more, atspi_base::specs::valid_names::Elements::are_elements, atspi_base::specs::valid_names::Elements::parts_of))]
fn items_call(alloc: Global, name: &BusName) -> Result<Message, NoMemory>
    ensures { IfOk result (λ message. envelope_of message ≡ calls.own_call (GetItems name.now)) }
{
    let object = cache_object(alloc)?;
    let body = nothing(alloc);
    object_call(
        alloc,
        name,
        object,
        "org.a11y.atspi.Cache",
        "GetItems",
        body,
    )
}

/// A call of the reader's own, before it has its number (D-Bus Specification, "Message Bus Messages"; AT-SPI2,
/// interfaces Registry, Accessible, Cache and Text). Memory alone can be wanting.
#[tactic(auto, unfolding(atspi_base::specs::valid_names::Names::is_member))]
pub fn own_call(alloc: Global, question: &Question) -> Result<Message, NoMemory>
    ensures { IfOk result (λ message. envelope_of message ≡ calls.own_call question.now) }
{
    match question {
        Question::Hello => bus_call(alloc, "Hello", nothing(alloc)),
        Question::AddMatch(rule) => bus_call(alloc, "AddMatch", text(alloc, rule)?),
        Question::RegisterEvent(pattern) => register_call(alloc, text(alloc, pattern)?),
        Question::GetChildren => children_call(alloc, nothing(alloc)),
        Question::GetItems(name) => items_call(alloc, name),
        Question::GetPart(name, path, part) => part_call(alloc, name, path, *part),
    }
}

/// A call of the reader's own, with its number. It can be written where the number is not 0. Memory alone can be
/// wanting.
pub fn asking(alloc: Global, serial: u32, question: &Question) -> Result<Message, NoMemory>
    ensures call { IfOk result (λ message. envelope_of message ≡ calls.asking serial question.now) }
    ensures meets { serial ≢ 0 → IfOk result (λ message. MeetsRules (envelope_of message)) }
{
    let message = own_call(alloc, question)?;
    Ok(numbered(message, serial))
}
