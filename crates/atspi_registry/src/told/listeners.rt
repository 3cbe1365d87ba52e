//! News of listeners.

ghost use Rattle.std.specs.Prelude.{◌≡◌, [], ◌∷◌, true, IfOk};
ghost use Rattle.atspi_types.specs.Data.{text_data};
ghost use Rattle.atspi_types.specs.DataView.{data_of, all_data};
ghost use Rattle.atspi_base.specs.valid_names.Names.{is_member};
ghost use Rattle.atspi_message.specs.Envelope.{envelope_of};
ghost use Rattle.atspi_protocol.specs.ends.Messages as messages;
ghost use Rattle.atspi_protocol.specs.ends.Places.{registry, registry_path};
ghost use Rattle.atspi_protocol.specs.registering.Told as told;

use crate::told::values::name_value;
use atspi_base::valid_names::BusName;
use atspi_base::{NoMemory, Text};
use atspi_message::Message;
use atspi_protocol_messages::signal;
use atspi_types::{Value, Values};
use std::alloc::Global;

/// The pair as the body of a message.
pub(crate) fn pair_body(alloc: Global, name: &BusName, pattern: &Text) -> Result<Values, NoMemory>
    ensures { IfOk result (λ body. all_data body ≡ text_data name.now ∷ text_data pattern.now ∷ []) }
{
    let mut body = Values::new(alloc);
    body.push(name_value(alloc, name)?)?;
    body.push(Value::Text(pattern.copy(alloc)?))?;
    Ok(body)
}

/// A signal of the registry's object.
#[tactic(auto, unfolding(atspi_base::specs::valid_names::Names::is_path, atspi_base::specs::valid_names::Names::is_interface, atspi_base::specs::valid_names::Elements::are_two_or_more, atspi_base::specs::valid_names::Elements::are_elements, atspi_base::specs::valid_names::Elements::parts_of))]
fn news(alloc: Global, name: &str, body: Values) -> Result<Message, NoMemory>
    requires { is_member name.now ≡ true }
    ensures { IfOk result
        (λ message. envelope_of message ≡ messages.signal_of registry_path registry name.now (all_data body)) }
{
    signal(
        alloc,
        "/org/a11y/atspi/registry",
        "org.a11y.atspi.Registry",
        name,
        body,
    )
}

/// A listener has a pattern more.
#[tactic(auto, unfolding(atspi_base::specs::valid_names::Names::is_member))]
pub fn registered(alloc: Global, name: &BusName, pattern: &Text) -> Result<Message, NoMemory>
    ensures { IfOk result (λ message. envelope_of message ≡ told.registered (name.now, pattern.now)) }
{
    let body = pair_body(alloc, name, pattern)?;
    news(alloc, "EventListenerRegistered", body)
}

/// A listener has a pattern less.
#[tactic(auto, unfolding(atspi_base::specs::valid_names::Names::is_member))]
pub fn deregistered(alloc: Global, name: &BusName, pattern: &Text) -> Result<Message, NoMemory>
    ensures { IfOk result (λ message. envelope_of message ≡ told.deregistered (name.now, pattern.now)) }
{
    let body = pair_body(alloc, name, pattern)?;
    news(alloc, "EventListenerDeregistered", body)
}
