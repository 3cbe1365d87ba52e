//! The calls to the bus at the start.

ghost use Rattle.std.specs.Prelude.{◌≡◌, IfOk};
ghost use Rattle.atspi_message.specs.Envelope.{envelope_of};
ghost use Rattle.atspi_protocol.specs.registering.Told as told;

use atspi_base::NoMemory;
use atspi_message::Message;
use atspi_protocol_messages::{bus_call, word};
use atspi_types::{Value, Values};
use std::alloc::Global;

/// Hello.
#[tactic(auto, unfolding(atspi_base::specs::valid_names::Names::is_member))]
pub fn hello_call(alloc: Global) -> Result<Message, NoMemory>
    ensures { IfOk result (λ message. envelope_of message ≡ told.hello_call) }
{
    bus_call(alloc, "Hello", Values::new(alloc))
}

/// RequestName of the registry's well-known name, which does not queue.
#[tactic(auto, unfolding(atspi_base::specs::valid_names::Names::is_member))]
pub fn request_call(alloc: Global) -> Result<Message, NoMemory>
    ensures { IfOk result (λ message. envelope_of message ≡ told.request_call) }
{
    let name = word(alloc, "org.a11y.atspi.Registry")?;
    let mut body = Values::new(alloc);
    body.push(Value::Text(name))?;
    body.push(Value::U32(4))?;
    bus_call(alloc, "RequestName", body)
}

/// AddMatch of the bus's news of owners.
#[tactic(auto, unfolding(atspi_base::specs::valid_names::Names::is_member))]
pub fn match_call(alloc: Global) -> Result<Message, NoMemory>
    ensures { IfOk result (λ message. envelope_of message ≡ told.match_call) }
{
    let rule = word(
        alloc,
        "type='signal',interface='org.freedesktop.DBus',member='NameOwnerChanged'",
    )?;
    let mut body = Values::new(alloc);
    body.push(Value::Text(rule))?;
    bus_call(alloc, "AddMatch", body)
}
