//! The launcher's messages and values.

ghost use Rattle.std.specs.Prelude.{◌≡◌, [], ◌∷◌, ◌++◌, IfOk, OnOk, true};
ghost use Rattle.atspi_base.specs.valid_names.Names.{is_bus_name};
ghost use Rattle.atspi_message.specs.Envelope.{envelope_of};
ghost use Rattle.atspi_message_in_place.specs.View.{envelope_at};
ghost use Rattle.atspi_protocol.specs.ends.Messages as messages;
ghost use Rattle.atspi_protocol.specs.ends.Messages.{error_word, fails, replies, returns};
ghost use Rattle.atspi_types.specs.Data.{dictionary_data, entry, no_entries, text_data};
ghost use Rattle.atspi_types.specs.DataView.{all_data, all_pairs, data_of};
ghost use Rattle.atspi_types.specs.Kinds.{text, variant};
ghost use Rattle.atspi_launcher.specs.Asked as asked;
ghost use Rattle.atspi_launcher.specs.Described.{description};
ghost use Rattle.atspi_launcher.specs.Launching as launching;

use crate::ask::Status;
use atspi_base::{NoMemory, Text};
use atspi_message::Message;
use atspi_message_in_place::MessageRef;
use atspi_protocol::ends::{CallError, Mail, bus_name, error_to, return_to};
use atspi_protocol_messages::{bus_call, signal, word};
use atspi_types::{Pairs, Ty, Value, Values};
use std::alloc::Global;

/// What the object has, as clients of the bus ask for it.
const DESCRIPTION: &str = "<node><interface name=\"org.a11y.Bus\">\
    <method name=\"GetAddress\"><arg type=\"s\" direction=\"out\"/></method>\
    </interface><interface name=\"org.a11y.Status\">\
    <property name=\"IsEnabled\" type=\"b\" access=\"readwrite\"/>\
    <property name=\"ScreenReaderEnabled\" type=\"b\" access=\"readwrite\"/>\
    </interface></node>";

/// Hello.
#[tactic(auto, unfolding(atspi_base::specs::valid_names::Names::is_member))]
fn hello_call(alloc: Global) -> Result<Message, NoMemory>
    ensures { IfOk result (λ message. envelope_of message ≡ launching.hello_call) }
{
    bus_call(alloc, "Hello", Values::new(alloc))
}

/// RequestName of the launcher's well-known name: it takes the place of an owner that lets it, and does not queue.
#[tactic(auto, unfolding(atspi_base::specs::valid_names::Names::is_member))]
fn request_call(alloc: Global) -> Result<Message, NoMemory>
    ensures { IfOk result (λ message. envelope_of message ≡ launching.request_call) }
{
    let name = word(alloc, "org.a11y.Bus")?;
    let mut body = Values::new(alloc);
    body.push(Value::Text(name))?;
    body.push(Value::U32(6))?;
    bus_call(alloc, "RequestName", body)
}

/// The two calls at the start.
pub fn greeting(alloc: Global) -> Result<Mail, NoMemory>
    ensures { IfOk result (λ mail. mail ≡ launching.hello_call ∷ launching.request_call ∷ []) }
{
    let mut mail = Mail::new(alloc);
    mail.push(hello_call(alloc)?)?;
    mail.push(request_call(alloc)?)?;
    Ok(mail)
}

/// One value.
fn one(alloc: Global, value: Value) -> Result<Values, NoMemory>
    ensures { IfOk result (λ values. all_data values ≡ data_of value ∷ []) }
{
    let mut values = Values::new(alloc);
    values.push(value)?;
    Ok(values)
}

/// A text, alone.
pub fn text_body(alloc: Global, text: &Text) -> Result<Values, NoMemory>
    ensures { IfOk result (λ values. all_data values ≡ text_data text.now ∷ []) }
{
    one(alloc, Value::Text(text.copy(alloc)?))
}

/// The description, alone.
pub fn description_body(alloc: Global) -> Result<Values, NoMemory>
    ensures { IfOk result (λ values. all_data values ≡ text_data description ∷ []) }
{
    one(alloc, Value::Text(word(alloc, DESCRIPTION)?))
}

/// A boolean in a variant.
fn switch(alloc: Global, on: bool) -> Result<Value, NoMemory>
    ensures { IfOk result (λ value. data_of value ≡ launching.as_variant on) }
{
    let value = Box::new(alloc, Value::Bool(on))?;
    Ok(Value::Variant(Ty::Bool, value))
}

/// The same, alone.
pub fn switch_body(alloc: Global, on: bool) -> Result<Values, NoMemory>
    ensures { IfOk result (λ values. all_data values ≡ launching.as_variant on ∷ []) }
{
    one(alloc, switch(alloc, on)?)
}

/// The name of a property.
fn name_of(alloc: Global, status: Status) -> Result<Value, NoMemory>
    ensures { IfOk result (λ value. data_of value ≡ text_data (asked.name_of status)) }
{
    let name = match status {
        Status::IsEnabled => word(alloc, "IsEnabled")?,
        Status::ScreenReaderEnabled => word(alloc, "ScreenReaderEnabled")?,
    };
    Ok(Value::Text(name))
}

/// Both properties with their values.
pub fn all_body(alloc: Global, enabled: bool, screen_reader: bool) -> Result<Values, NoMemory>
    ensures { IfOk result (λ values. all_data values
        ≡ dictionary_data text variant
        (entry (text_data (asked.name_of Status.IsEnabled)) (launching.as_variant enabled)
        (entry (text_data (asked.name_of Status.ScreenReaderEnabled)) (launching.as_variant screen_reader)
        no_entries)) ∷ []) }
{
    let mut pairs = Pairs::new(alloc);
    let name = name_of(alloc, Status::IsEnabled)?;
    let value = switch(alloc, enabled)?;
    pairs.push(name, value)?;
    let name = name_of(alloc, Status::ScreenReaderEnabled)?;
    let value = switch(alloc, screen_reader)?;
    pairs.push(name, value)?;
    one(alloc, Value::Dict(Ty::Text, Ty::Variant, pairs))
}

/// No property.
pub fn none_body(alloc: Global) -> Result<Values, NoMemory>
    ensures { IfOk result (λ values. all_data values ≡ dictionary_data text variant no_entries ∷ []) }
{
    one(alloc, Value::Dict(Ty::Text, Ty::Variant, Pairs::new(alloc)))
}

/// A property and its new value.
fn changed_entry(alloc: Global, status: Status, on: bool) -> Result<Pairs, NoMemory>
    ensures { IfOk result (λ pairs. all_pairs pairs
        ≡ (text_data (asked.name_of status), launching.as_variant on) ∷ []) }
{
    let mut pairs = Pairs::new(alloc);
    let name = name_of(alloc, status)?;
    let value = switch(alloc, on)?;
    pairs.push(name, value)?;
    Ok(pairs)
}

/// That a property has another value.
#[tactic(auto, unfolding(atspi_base::specs::valid_names::Names::is_member, atspi_base::specs::valid_names::Names::is_path, atspi_base::specs::valid_names::Names::is_interface, atspi_base::specs::valid_names::Elements::are_two_or_more, atspi_base::specs::valid_names::Elements::are_elements, atspi_base::specs::valid_names::Elements::parts_of))]
pub fn changed(alloc: Global, status: Status, on: bool) -> Result<Message, NoMemory>
    ensures { IfOk result (λ message. envelope_of message ≡ launching.changed status on) }
{
    let interface = word(alloc, "org.a11y.Status")?;
    let pairs = changed_entry(alloc, status, on)?;
    let mut body = Values::new(alloc);
    body.push(Value::Text(interface))?;
    body.push(Value::Dict(Ty::Text, Ty::Variant, pairs))?;
    body.push(Value::Array(Ty::Text, Values::new(alloc)))?;
    signal(
        alloc,
        "/org/a11y/bus",
        "org.freedesktop.DBus.Properties",
        "PropertiesChanged",
        body,
    )
}

/// Whether the caller waits for a reply.
fn expects_reply(call: &MessageRef) -> bool
    ensures { result ≡ messages.expects_reply (envelope_at call.now) }
{
    call.kind == 1 && call.flags & 1 == 0
}

/// Values are returned to the caller, where it waits for them, behind what is told before.
pub fn returned(
    alloc: Global,
    call: &MessageRef,
    caller: &str,
    values: Values,
    mail: &mut Mail,
) -> Result<(), NoMemory>
    requires { is_bus_name caller.now ≡ true }
    ensures { OnOk result
        (mail.new ≡ mail.old ++ replies caller.now (envelope_at call.now) (returns (all_data values))) }
{
    if expects_reply(call) {
        let caller = bus_name(alloc, caller)?;
        mail.push(return_to(caller, call.serial, values))?;
    }
    Ok(())
}

/// The caller gets an error, where it waits for a reply.
pub fn refused(
    alloc: Global,
    call: &MessageRef,
    caller: &str,
    error: CallError,
) -> Result<Mail, NoMemory>
    requires { is_bus_name caller.now ≡ true }
    ensures { IfOk result (λ mail. mail ≡ replies caller.now (envelope_at call.now) (fails (error_word error))) }
{
    let mut mail = Mail::new(alloc);
    if expects_reply(call) {
        let caller = bus_name(alloc, caller)?;
        mail.push(error_to(alloc, caller, call.serial, error)?)?;
    }
    Ok(mail)
}
