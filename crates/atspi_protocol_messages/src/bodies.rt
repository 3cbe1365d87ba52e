//! The body of an event at a node, and the message round it.

ghost use Rattle.std.specs.Prelude.{◌≡◌, ◌<◌, ◌^◌, ◌∷◌, ◌++◌, [], true, length, IfOk, OnOk};
ghost use Rattle.atspi_types.specs.KindView.{kind_of};
ghost use Rattle.atspi_types.specs.Kinds.{text, variant};
ghost use Rattle.atspi_types.specs.Data.{text_data, dictionary_data, entries_of, type_of};
ghost use Rattle.atspi_types.specs.DataView.{data_of, all_data};
ghost use Rattle.atspi_base.specs.valid_names.Names.{is_member};
ghost use Rattle.atspi_tree_model.specs.Path.{path_of};
ghost use Rattle.atspi_message.specs.Envelope.{envelope_of};
ghost use Rattle.atspi_protocol.specs.ends.Messages as messages;
ghost use Rattle.atspi_protocol.specs.ends.Places as places;
ghost use Rattle.atspi_protocol.specs.members.Arguments.{int};
ghost use Rattle.atspi_protocol.specs.objects.Values.{in_variant};
ghost use Rattle.atspi_protocol.specs.news.NewsOf.{event_interface};
ghost use Rattle.atspi_protocol_messages.specs.Plain.{are_plain};

use crate::paths::node_path;
use crate::values::{reference, reference_type, word};
use atspi_base::{NoMemory, Text};
use atspi_message::Message;
use atspi_protocol::ends::{interface, member, signal_of};
use atspi_types::{Pairs, Ty, Value, Values};
use std::alloc::Global;

/// What the body of an event begins with: the minor word, and two details.
pub(crate) fn details(
    alloc: Global,
    minor: &str,
    first: i32,
    second: i32,
) -> Result<Values, NoMemory>
    requires plain { are_plain minor.now ≡ true }
    requires short { length minor.now < 2 ^ 32 }
    ensures { IfOk result (λ body. all_data body ≡ text_data minor.now ∷ int first ∷ int second ∷ []) }
{
    let minor = word(alloc, minor)?;
    let mut body = Values::new(alloc);
    body.push(Value::Text(minor))?;
    body.push(Value::I32(first))?;
    body.push(Value::I32(second))?;
    Ok(body)
}

/// What follows: a value in a variant.
pub(crate) fn put_value(
    alloc: Global,
    body: &mut Values,
    ty: Ty,
    value: Value,
) -> Result<(), NoMemory>
    requires typed { kind_of ty ≡ type_of (data_of value) }
    ensures { OnOk result (all_data body.new ≡ all_data body.old ++ in_variant (data_of value) ∷ []) }
{
    let value = Box::new(alloc, value)?;
    Ok(body.push(Value::Variant(ty, value))?)
}

/// A text there.
pub(crate) fn put_text(alloc: Global, body: &mut Values, text: &Text) -> Result<(), NoMemory>
    ensures { OnOk result (all_data body.new ≡ all_data body.old ++ in_variant (text_data text.now) ∷ []) }
{
    let text = text.copy(alloc)?;
    put_value(alloc, body, Ty::Text, Value::Text(text))
}

/// A reference to a node there.
pub(crate) fn put_node(
    alloc: Global,
    body: &mut Values,
    bus: &Text,
    node: u32,
) -> Result<(), NoMemory>
    ensures { OnOk result
        (all_data body.new ≡ all_data body.old ++ in_variant (places.reference bus.now (path_of node)) ∷ []) }
{
    let path = node_path(alloc, node)?;
    let ty = reference_type(alloc)?;
    let value = reference(alloc, bus, path)?;
    put_value(alloc, body, ty, value)
}

/// The event of this name at a node, whose body ends with no more properties.
#[tactic(auto, unfolding(atspi_base::specs::valid_names::Names::is_interface, atspi_base::specs::valid_names::Elements::are_two_or_more, atspi_base::specs::valid_names::Elements::are_elements, atspi_base::specs::valid_names::Elements::parts_of))]
pub(crate) fn event(alloc: Global, node: u32, name: &str, body: Values) -> Result<Message, NoMemory>
    requires member { is_member name.now ≡ true }
    ensures { IfOk result
        (λ message. envelope_of message
        ≡ messages.signal_of (path_of node) event_interface name.now
        (all_data body ++ dictionary_data text variant (entries_of []) ∷ [])) }
{
    let mut body = body;
    body.push(Value::Dict(Ty::Text, Ty::Variant, Pairs::new(alloc)))?;
    let path = node_path(alloc, node)?;
    let interface = interface(alloc, "org.a11y.atspi.Event.Object")?;
    let member = member(alloc, name)?;
    Ok(signal_of(path, interface, member, body))
}
