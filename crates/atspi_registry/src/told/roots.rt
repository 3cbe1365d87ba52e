//! News of children, and the call that gives them their numbers.

ghost use Rattle.std.specs.Prelude.{◌≡◌, ◌<◌, ◌^◌, [], ◌∷◌, true, length, codes, IfOk};
ghost use Rattle.atspi_types.specs.Kinds.{i32 as signed, number, text, variant};
ghost use Rattle.atspi_types.specs.Data.{text_data, variant_data, dictionary_data, no_entries};
ghost use Rattle.atspi_types.specs.DataView.{data_of, all_data};
ghost use Rattle.atspi_message.specs.Envelope.{envelope_of};
ghost use Rattle.atspi_protocol.specs.ends.Messages as messages;
ghost use Rattle.atspi_protocol.specs.ends.Places.{reference, reference_kind, root_path};
ghost use Rattle.atspi_protocol.specs.registering.Told as told;
ghost use Rattle.atspi_protocol.specs.registering.Told.{count};
ghost use Rattle.atspi_protocol_messages.specs.Plain.{are_plain};

use crate::told::properties::count_variant;
use crate::told::values::{count_value, reference_value};
use atspi_base::NoMemory;
use atspi_base::valid_names::{BusName, Path};
use atspi_message::Message;
use atspi_protocol::ends::{call_to, interface, member};
use atspi_protocol_messages::{reference_type, signal, word};
use atspi_types::{Pairs, Ty, Value, Values};
use std::alloc::Global;

/// A reference in a variant.
fn reference_variant(alloc: Global, name: &BusName, place: &Path) -> Result<Value, NoMemory>
    ensures { IfOk result (λ value. data_of value ≡ variant_data reference_kind (reference name.now place.now)) }
{
    let value = reference_value(alloc, name, place)?;
    let value = Box::new(alloc, value)?;
    let ty = reference_type(alloc)?;
    Ok(Value::Variant(ty, value))
}

/// The body of news of a child.
fn news_body(
    alloc: Global,
    minor: &str,
    index: usize,
    name: &BusName,
    place: &Path,
) -> Result<Values, NoMemory>
    requires plain { are_plain minor.now ≡ true }
    requires short { length minor.now < 2 ^ 32 }
    ensures { IfOk result (λ body. all_data body
        ≡ text_data minor.now ∷ count index ∷ count 0 ∷ variant_data reference_kind (reference name.now place.now)
        ∷ dictionary_data text variant no_entries ∷ []) }
{
    let minor = word(alloc, minor)?;
    let mut body = Values::new(alloc);
    body.push(Value::Text(minor))?;
    body.push(count_value(index))?;
    body.push(count_value(0))?;
    body.push(reference_variant(alloc, name, place)?)?;
    body.push(Value::Dict(Ty::Text, Ty::Variant, Pairs::new(alloc)))?;
    Ok(body)
}

/// News of a child.
#[tactic(auto, unfolding(atspi_base::specs::valid_names::Names::is_path, atspi_base::specs::valid_names::Names::is_interface, atspi_base::specs::valid_names::Names::is_member, atspi_base::specs::valid_names::Elements::are_two_or_more, atspi_base::specs::valid_names::Elements::are_elements, atspi_base::specs::valid_names::Elements::parts_of))]
fn news(alloc: Global, body: Values) -> Result<Message, NoMemory>
    ensures { IfOk result
        (λ message. envelope_of message
        ≡ messages.signal_of root_path (codes "org.a11y.atspi.Event.Object") (codes "ChildrenChanged")
        (all_data body)) }
{
    signal(
        alloc,
        "/org/a11y/atspi/accessible/root",
        "org.a11y.atspi.Event.Object",
        "ChildrenChanged",
        body,
    )
}

/// A child came to an index.
pub fn child_added(
    alloc: Global,
    index: usize,
    name: &BusName,
    place: &Path,
) -> Result<Message, NoMemory>
    ensures { IfOk result
        (λ message. envelope_of message ≡ told.children_changed (codes "add") index (name.now, place.now)) }
{
    let body = news_body(alloc, "add", index, name, place)?;
    news(alloc, body)
}

/// A child went from an index.
pub fn child_removed(
    alloc: Global,
    index: usize,
    name: &BusName,
    place: &Path,
) -> Result<Message, NoMemory>
    ensures { IfOk result
        (λ message. envelope_of message ≡ told.children_changed (codes "remove") index (name.now, place.now)) }
{
    let body = news_body(alloc, "remove", index, name, place)?;
    news(alloc, body)
}

/// The body of the call that gives a root its number.
fn id_body(alloc: Global, n: usize) -> Result<Values, NoMemory>
    ensures { IfOk result
        (λ body. all_data body
        ≡ text_data (codes "org.a11y.atspi.Application") ∷ text_data (codes "Id")
        ∷ variant_data (number signed) (count n) ∷ []) }
{
    let mut body = Values::new(alloc);
    body.push(Value::Text(word(alloc, "org.a11y.atspi.Application")?))?;
    body.push(Value::Text(word(alloc, "Id")?))?;
    body.push(count_variant(alloc, n)?)?;
    Ok(body)
}

/// The call that gives an embedded root its number.
#[tactic(auto, unfolding(atspi_base::specs::valid_names::Names::is_interface, atspi_base::specs::valid_names::Names::is_member, atspi_base::specs::valid_names::Elements::are_two_or_more, atspi_base::specs::valid_names::Elements::are_elements, atspi_base::specs::valid_names::Elements::parts_of))]
pub fn id_call(alloc: Global, name: &BusName, place: &Path, n: usize) -> Result<Message, NoMemory>
    ensures { IfOk result (λ message. envelope_of message ≡ told.id_call (name.now, place.now) n) }
{
    let body = id_body(alloc, n)?;
    Ok(call_to(
        name.copy(alloc)?,
        place.copy(alloc)?,
        interface(alloc, "org.freedesktop.DBus.Properties")?,
        member(alloc, "Set")?,
        body,
    ))
}
