//! The calls of a start.

ghost use Rattle.std.specs.Prelude.{◌≡◌, ℕ, List, [], ◌∷◌, IfOk};
ghost use Rattle.atspi_types.specs.Data.{text_data};
ghost use Rattle.atspi_types.specs.DataView.{all_data};
ghost use Rattle.atspi_message.specs.Envelope.{envelope_of};
ghost use Rattle.atspi_protocol.specs.ends.Places as places;
ghost use Rattle.atspi_protocol.specs.exporting.Exporter as exporter;
ghost use Rattle.atspi_protocol.specs.exporting.Starting.{registry_signals, start_call};

use atspi_base::{NoMemory, Text};
use atspi_message::Message;
use atspi_protocol_messages::{bus_call, call, node_path, reference};
use atspi_types::{Value, Values};
use std::alloc::Global;

/// Hello (D-Bus Specification, "Message Bus Messages").
#[tactic(auto, unfolding(atspi_base::specs::valid_names::Names::is_member))]
pub(crate) fn hello_call(alloc: Global) -> Result<Message, NoMemory>
    ensures { IfOk result (λ message. (name : List ℕ) → envelope_of message ≡ start_call name exporter.hello) }
{
    bus_call(alloc, "Hello", Values::new(alloc))
}

/// The rule by which an application asks the bus for the registry's signals.
fn rule(alloc: Global) -> Result<Text, NoMemory>
    ensures { IfOk result (λ rule. rule ≡ registry_signals) }
{
    Text::of(
        alloc,
        "type='signal',sender='org.a11y.atspi.Registry',interface='org.a11y.atspi.Registry'",
    )
}

/// The rule as the arguments of a call.
fn rule_body(alloc: Global) -> Result<Values, NoMemory>
    ensures { IfOk result (λ body. all_data body ≡ text_data registry_signals ∷ []) }
{
    let rule = rule(alloc)?;
    let mut body = Values::new(alloc);
    body.push(Value::Text(rule))?;
    Ok(body)
}

/// AddMatch of that rule (D-Bus Specification, "Message Bus Messages").
#[tactic(auto, unfolding(atspi_base::specs::valid_names::Names::is_member))]
pub(crate) fn match_call(alloc: Global) -> Result<Message, NoMemory>
    ensures { IfOk result (λ message. (name : List ℕ) → envelope_of message ≡ start_call name exporter.add_match) }
{
    let body = rule_body(alloc)?;
    bus_call(alloc, "AddMatch", body)
}

/// GetRegisteredEvents (AT-SPI2's interface file Registry).
#[tactic(auto, unfolding(atspi_base::specs::valid_names::Names::is_member, atspi_base::specs::valid_names::Names::is_bus_name, atspi_base::specs::valid_names::Names::is_path, atspi_base::specs::valid_names::Names::is_interface, atspi_base::specs::valid_names::Elements::are_two_or_more, atspi_base::specs::valid_names::Elements::are_elements, atspi_base::specs::valid_names::Elements::parts_of))]
pub(crate) fn events_call(alloc: Global) -> Result<Message, NoMemory>
    ensures { IfOk result
        (λ message. (name : List ℕ) → envelope_of message ≡ start_call name exporter.get_registered_events) }
{
    call(
        alloc,
        "org.a11y.atspi.Registry",
        "/org/a11y/atspi/registry",
        "org.a11y.atspi.Registry",
        "GetRegisteredEvents",
        Values::new(alloc),
    )
}

/// The root of the application with this name, as the arguments of a call.
#[tactic(auto, unfolding(atspi_tree_model::specs::Path::path_of))]
fn root_body(alloc: Global, name: &Text) -> Result<Values, NoMemory>
    ensures { IfOk result (λ body. all_data body ≡ places.reference name.now places.root_path ∷ []) }
{
    let path = node_path(alloc, 0)?;
    let root = reference(alloc, name, path)?;
    let mut body = Values::new(alloc);
    body.push(root)?;
    Ok(body)
}

/// Embed of its root, by the application with this name (AT-SPI2's interface file Socket).
#[tactic(auto, unfolding(atspi_base::specs::valid_names::Names::is_member, atspi_base::specs::valid_names::Names::is_bus_name, atspi_base::specs::valid_names::Names::is_path, atspi_base::specs::valid_names::Names::is_interface, atspi_base::specs::valid_names::Elements::are_two_or_more, atspi_base::specs::valid_names::Elements::are_elements, atspi_base::specs::valid_names::Elements::parts_of))]
pub(crate) fn embed_call(alloc: Global, name: &Text) -> Result<Message, NoMemory>
    ensures { IfOk result (λ message. envelope_of message ≡ start_call name.now exporter.embed) }
{
    let body = root_body(alloc, name)?;
    call(
        alloc,
        "org.a11y.atspi.Registry",
        "/org/a11y/atspi/accessible/root",
        "org.a11y.atspi.Socket",
        "Embed",
        body,
    )
}
