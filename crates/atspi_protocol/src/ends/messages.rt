//! The messages that ends send, before they have their numbers.

ghost use Rattle.std.specs.Prelude.{◌≡◌, [], ◌∷◌, IfOk};
ghost use Rattle.atspi_types.specs.Data.{text_data};
ghost use Rattle.atspi_types.specs.DataView.{all_data};
ghost use Rattle.atspi_message.specs.Envelope.{envelope_of};
ghost use Rattle.atspi_protocol.specs.ends.Messages as messages;
ghost use Rattle.atspi_protocol.specs.ends.Messages.{error_word};

use crate::ends::error::CallError;
use crate::ends::names::interface;
use atspi_base::valid_names::{BusName, Interface, Member, Path};
use atspi_base::{NoMemory, Text};
use atspi_message::Message;
use atspi_types::{Order, Value, Values};
use std::alloc::Global;

/// A call of a member of another end's object.
pub fn call_to(
    destination: BusName,
    path: Path,
    interface: Interface,
    member: Member,
    body: Values,
) -> Message
    ensures { envelope_of result ≡ messages.call_to destination path interface member (all_data body) }
{
    Message {
        order: Order::Little,
        kind: 1,
        flags: 0,
        serial: 0,
        path: Some(path),
        interface: Some(interface),
        member: Some(member),
        error: None,
        reply: None,
        destination: Some(destination),
        sender: None,
        body,
    }
}

/// A signal to all that ask for it.
pub fn signal_of(path: Path, interface: Interface, member: Member, body: Values) -> Message
    ensures { envelope_of result ≡ messages.signal_of path interface member (all_data body) }
{
    Message {
        order: Order::Little,
        kind: 4,
        flags: 1,
        serial: 0,
        path: Some(path),
        interface: Some(interface),
        member: Some(member),
        error: None,
        reply: None,
        destination: None,
        sender: None,
        body,
    }
}

/// What a caller's call with this serial returns.
pub fn return_to(caller: BusName, serial: u32, body: Values) -> Message
    ensures { envelope_of result ≡ messages.return_to caller serial (all_data body) }
{
    Message {
        order: Order::Little,
        kind: 2,
        flags: 1,
        serial: 0,
        path: None,
        interface: None,
        member: None,
        error: None,
        reply: Some(serial),
        destination: Some(caller),
        sender: None,
        body,
    }
}

/// Or the error, with the last word of its name as its text.
pub fn error_to(
    alloc: Global,
    caller: BusName,
    serial: u32,
    error: CallError,
) -> Result<Message, NoMemory>
    ensures { IfOk result (λ message. envelope_of message ≡ messages.error_to caller serial (error_word error)) }
{
    let name = interface(alloc, error.name())?;
    let body = word_body(alloc, error)?;
    Ok(Message {
        order: Order::Little,
        kind: 3,
        flags: 1,
        serial: 0,
        path: None,
        interface: None,
        member: None,
        error: Some(name),
        reply: Some(serial),
        destination: Some(caller),
        sender: None,
        body,
    })
}

/// The last word of an error's name, as the body of a message.
fn word_body(alloc: Global, error: CallError) -> Result<Values, NoMemory>
    ensures { IfOk result (λ body. all_data body ≡ text_data (error_word error) ∷ []) }
{
    let mut body = Values::new(alloc);
    body.push(Value::Text(Text::of(alloc, error.word())?))?;
    Ok(body)
}
