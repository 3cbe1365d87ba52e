//! An item of the list of all nodes, as a value and as a signal.

ghost use Rattle.std.specs.Prelude.{◌≡◌, ◌∷◌, ◌++◌, [], IfOk, OnOk};
ghost use Rattle.atspi_types.specs.Kinds.{u32};
ghost use Rattle.atspi_types.specs.Data.{text_data, number_data};
ghost use Rattle.atspi_types.specs.DataView.{data_of, all_data};
ghost use Rattle.atspi_message.specs.Envelope.{envelope_of};
ghost use Rattle.atspi_protocol.specs.members.Arguments.{int};
ghost use Rattle.atspi_protocol.specs.objects.Values as values;
ghost use Rattle.atspi_protocol.specs.announcing.Signals as signals;

use atspi_base::{NoMemory, Texts};
use atspi_message::Message;
use atspi_protocol_messages::{cache_signal, reference};
use atspi_tree_model::{Item, Reference};
use atspi_types::{Ty, Value, Values};
use std::alloc::Global;

/// A reference as a value.
fn reference_value(alloc: Global, r: &Reference) -> Result<Value, NoMemory>
    ensures { IfOk result (λ value. data_of value ≡ values.reference_data r.now) }
{
    let path = r.path.copy(alloc)?;
    reference(alloc, &r.bus, path)
}

/// Texts as a value.
fn texts_value(alloc: Global, texts: &Texts) -> Result<Value, NoMemory>
    ensures { IfOk result (λ value. data_of value ≡ values.texts_data texts.now) }
{
    let names = texts.as_slice();
    let mut elements = Vec::with_capacity(alloc, names.len())?;
    for name in names {
        elements.push(Value::Text(name.copy(alloc)?))?;
    }
    Ok(Value::Array(Ty::Text, Values::from_vec(elements)))
}

/// States as a value of two words, the low one first.
fn words_value(alloc: Global, states: u64) -> Result<Value, NoMemory>
    ensures { IfOk result (λ value. data_of value ≡ values.words_data states) }
{
    let mut words = Values::new(alloc);
    words.push(Value::U32((states % 4_294_967_296) as u32))?;
    words.push(Value::U32((states / 4_294_967_296) as u32))?;
    Ok(Value::Array(Ty::U32, words))
}

/// What an item begins with: the node, its application and its parent.
fn put_places(alloc: Global, fields: &mut Values, item: &Item) -> Result<(), NoMemory>
    ensures { OnOk result
        (all_data fields.new
        ≡ all_data fields.old ++ values.reference_data item.now.object ∷ values.reference_data item.now.application
        ∷ values.reference_data item.now.parent ∷ []) }
{
    fields.push(reference_value(alloc, &item.object)?)?;
    fields.push(reference_value(alloc, &item.application)?)?;
    fields.push(reference_value(alloc, &item.parent)?)?;
    Ok(())
}

/// What follows: its index and its count of children.
fn put_numbers(fields: &mut Values, item: &Item) -> Result<(), NoMemory>
    ensures { OnOk result
        (all_data fields.new ≡ all_data fields.old ++ int item.now.index ∷ int item.now.children ∷ []) }
{
    fields.push(Value::I32(item.index))?;
    fields.push(Value::I32(item.children))?;
    Ok(())
}

/// And its interfaces, name and role.
fn put_names(alloc: Global, fields: &mut Values, item: &Item) -> Result<(), NoMemory>
    ensures { OnOk result
        (all_data fields.new
        ≡ all_data fields.old ++ values.texts_data item.now.interfaces ∷ text_data item.now.name
        ∷ number_data u32 item.now.role ∷ []) }
{
    fields.push(texts_value(alloc, &item.interfaces)?)?;
    fields.push(Value::Text(item.name.copy(alloc)?))?;
    fields.push(Value::U32(item.role))?;
    Ok(())
}

/// And its description and states.
fn put_states(alloc: Global, fields: &mut Values, item: &Item) -> Result<(), NoMemory>
    ensures { OnOk result
        (all_data fields.new
        ≡ all_data fields.old ++ text_data item.now.description ∷ values.words_data item.now.states ∷ []) }
{
    fields.push(Value::Text(item.description.copy(alloc)?))?;
    fields.push(words_value(alloc, item.states)?)?;
    Ok(())
}

/// An item as a value.
pub fn item_value(alloc: Global, item: &Item) -> Result<Value, NoMemory>
    ensures { IfOk result (λ value. data_of value ≡ values.item_data item.now) }
{
    let mut fields = Values::new(alloc);
    put_places(alloc, &mut fields, item)?;
    put_numbers(&mut fields, item)?;
    put_names(alloc, &mut fields, item)?;
    put_states(alloc, &mut fields, item)?;
    Ok(Value::Struct(fields))
}

/// A node is there, as the object for the whole tree tells it: AddAccessible.
#[tactic(auto, unfolding(atspi_base::specs::valid_names::Names::is_member))]
pub fn node_added(alloc: Global, item: &Item) -> Result<Message, NoMemory>
    ensures { IfOk result (λ message. envelope_of message ≡ (signals.added item.now).message) }
{
    let value = item_value(alloc, item)?;
    let mut body = Values::new(alloc);
    body.push(value)?;
    cache_signal(alloc, "AddAccessible", body)
}
