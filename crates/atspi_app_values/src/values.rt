//! Values that tell of nodes.

ghost use Rattle.std.specs.Prelude.{◌≡◌, ◌<◌, ◌≤◌, ◌^◌, [], None, Some, true, length, IfOk};
ghost use Rattle.atspi_types.specs.Kinds.{u32, text as text_kind};
ghost use Rattle.atspi_types.specs.Data.{text_data, number_data, dictionary_data, entries_of};
ghost use Rattle.atspi_protocol.specs.members.Arguments.{int};
ghost use Rattle.atspi_types.specs.DataView.{data_of};
ghost use Rattle.atspi_protocol.specs.objects.Values as values;
ghost use Rattle.atspi_protocol_messages.specs.Plain.{are_plain};
ghost use Rattle.atspi_app_values.specs.Numbers.{numbered_or_null, numbered_references};

use atspi_base::{NoMemory, Text};
use atspi_protocol::ends::path;
use atspi_protocol_messages::{node_path, reference, reference_type, word};
use atspi_tables::role_name;
use atspi_types::{Pairs, Ty, Value, Values};
use std::alloc::Global;

/// A text that stands in the program.
pub fn literal(alloc: Global, text: &str) -> Result<Value, NoMemory>
    requires plain { are_plain text.now ≡ true }
    requires short { length text.now < 2 ^ 32 }
    ensures { IfOk result (λ value. data_of value ≡ text_data text.now) }
{
    Ok(Value::Text(word(alloc, text)?))
}

/// A signed number.
pub fn signed(n: i32) -> Value
    ensures { data_of result ≡ int n }
{
    Value::I32(n)
}

/// A number without a sign.
pub fn number(n: u32) -> Value
    ensures { data_of result ≡ number_data u32 n }
{
    Value::U32(n)
}

/// A text.
pub fn text(alloc: Global, text: &Text) -> Result<Value, NoMemory>
    ensures { IfOk result (λ value. data_of value ≡ text_data text.now) }
{
    Ok(Value::Text(text.copy(alloc)?))
}

/// No pairs of texts.
pub fn no_pairs(alloc: Global) -> Value
    ensures { data_of result ≡ dictionary_data text_kind text_kind (entries_of []) }
{
    Value::Dict(Ty::Text, Ty::Text, Pairs::new(alloc))
}

/// A count.
pub fn count(n: u32) -> Value
    requires { n ≤ 2147483647 }
    ensures { data_of result ≡ values.count_data n }
{
    Value::I32(n as i32)
}

/// A node, or none.
pub fn reference_or_null(alloc: Global, bus: &Text, node: Option<u32>) -> Result<Value, NoMemory>
    ensures { IfOk result (λ value. data_of value ≡ numbered_or_null bus.now node) }
{
    match node {
        Some(node) => reference(alloc, bus, node_path(alloc, node)?),
        None => null_reference(alloc, bus),
    }
}

/// The node that is none.
#[tactic(auto, unfolding(atspi_base::specs::valid_names::Names::is_path, atspi_base::specs::valid_names::Elements::are_elements, atspi_base::specs::valid_names::Elements::parts_of))]
fn null_reference(alloc: Global, bus: &Text) -> Result<Value, NoMemory>
    ensures { IfOk result (λ value. data_of value ≡ numbered_or_null bus.now None) }
{
    let null = path(alloc, "/org/a11y/atspi/null")?;
    reference(alloc, bus, null)
}

/// A node.
pub fn node_reference(alloc: Global, bus: &Text, node: u32) -> Result<Value, NoMemory>
    ensures { IfOk result (λ value. data_of value ≡ numbered_or_null bus.now (Some node)) }
{
    let place = node_path(alloc, node)?;
    reference(alloc, bus, place)
}

/// Several nodes.
pub fn references(alloc: Global, bus: &Text, nodes: &[u32]) -> Result<Value, NoMemory>
    ensures { IfOk result (λ value. data_of value ≡ numbered_references bus.now nodes.now) }
{
    let mut elements = Vec::with_capacity(alloc, nodes.len())?;
    for node in nodes {
        elements.push(node_reference(alloc, bus, *node)?)?;
    }
    let ty = reference_type(alloc)?;
    Ok(Value::Array(ty, Values::from_vec(elements)))
}

/// States as two words, the low one first.
pub fn words(alloc: Global, states: u64) -> Result<Value, NoMemory>
    ensures { IfOk result (λ value. data_of value ≡ values.words_data states) }
{
    let mut words = Values::new(alloc);
    words.push(Value::U32((states % 4_294_967_296) as u32))?;
    words.push(Value::U32((states / 4_294_967_296) as u32))?;
    Ok(Value::Array(Ty::U32, words))
}

/// The name of a role.
fn role_word(role: u32) -> &'static str
    ensures name { result.now ≡ values.role_name role }
    ensures plain { are_plain result.now ≡ true }
    ensures short { length result.now < 2 ^ 32 }
{
    role_name(role)
}

/// The spoken name of a role.
pub fn role_text(alloc: Global, role: u32) -> Result<Value, NoMemory>
    ensures { IfOk result (λ value. data_of value ≡ text_data (values.role_name role)) }
{
    literal(alloc, role_word(role))
}
