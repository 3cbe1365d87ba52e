//! What a call asks of the launcher's object, read where it lies.

ghost use Rattle.std.specs.Prelude.{◌≡◌, chars, encode_utf8_all};
ghost use Rattle.std.specs.List.{list_any};
ghost use Rattle.atspi_marshal_in_place.specs.Items.{fields_data};
ghost use Rattle.atspi_message_in_place.specs.View.{bytes_of, envelope_at};
ghost use Rattle.atspi_protocol.specs.members.Asked.{is_text, is_text_if_there};
ghost use Rattle.atspi_launcher.specs.Asked as asked;
ghost use Rattle.atspi_launcher.specs.inner.Reads.{SwitchComes, TextComes};

use crate::ask::{Ask, Status};
use atspi_marshal_in_place::Fields;
use atspi_message_in_place::MessageRef;
use atspi_protocol::ends::CallError;

const LAUNCHER: &str = "org.a11y.Bus";

const STATUS: &str = "org.a11y.Status";

const PROPERTIES: &str = "org.freedesktop.DBus.Properties";

const INTROSPECTABLE: &str = "org.freedesktop.DBus.Introspectable";

const PEER: &str = "org.freedesktop.DBus.Peer";

/// Whether a field is there and is the text.
fn is_text(field: Option<&str>, text: &str) -> bool
    ensures { result ≡ is_text (bytes_of field.entry) text.now }
{
    match field {
        Some(field) => field == text,
        None => false,
    }
}

/// Whether a field is the text, if it is there.
fn is_text_if_there(field: Option<&str>, text: &str) -> bool
    ensures { result ≡ is_text_if_there (bytes_of field.entry) text.now }
{
    match field {
        Some(field) => field == text,
        None => true,
    }
}

/// Whether the object has the interface.
fn has_interface(name: &str) -> bool
    ensures { result ≡ asked.has_interface name.now }
{
    name == LAUNCHER
        || name == STATUS
        || name == PROPERTIES
        || name == INTROSPECTABLE
        || name == PEER
}

/// Whether the object has the interface that a call names, if it names one.
fn is_of_object(interface: Option<&str>) -> bool
    ensures { result ≡ list_any (is_text_if_there (bytes_of interface.entry)) asked.interfaces }
{
    is_text_if_there(interface, LAUNCHER)
        || is_text_if_there(interface, STATUS)
        || is_text_if_there(interface, PROPERTIES)
        || is_text_if_there(interface, INTROSPECTABLE)
        || is_text_if_there(interface, PEER)
}

/// The next value where it is a text.
fn next_text<'a>(values: &mut Fields<'a>) -> Option<&'a str>
    ensures { TextComes result (fields_data values.old) (fields_data values.new) }
{
    match values.next() {
        None => None,
        Some(item) => match item.text() {
            None => None,
            Some(text) => Some(text),
        },
    }
}

/// The next value where it is a boolean in a variant.
fn next_switch(values: &mut Fields) -> Option<bool>
    ensures { SwitchComes result (fields_data values.old) (fields_data values.new) }
{
    match values.next() {
        None => None,
        Some(item) => match item.variant() {
            None => None,
            Some(inner) => match inner.bool() {
                None => None,
                Some(on) => Some(on),
            },
        },
    }
}

/// The property of this name of an interface.
fn property(interface: &str, name: &str) -> Result<Status, CallError>
    ensures { result ≡ asked.property interface.now name.now }
{
    if interface != STATUS {
        return Err(if has_interface(interface) {
            CallError::UnknownProperty
        } else {
            CallError::UnknownInterface
        });
    }
    if name == "IsEnabled" {
        Ok(Status::IsEnabled)
    } else if name == "ScreenReaderEnabled" {
        Ok(Status::ScreenReaderEnabled)
    } else {
        Err(CallError::UnknownProperty)
    }
}

/// The same of texts that are told by their characters.
fn property_of(interface: &str, name: &str) -> Result<Status, CallError>
    ensures { result
        ≡ asked.property (encode_utf8_all (chars interface.now)) (encode_utf8_all (chars name.now)) }
{
    property(interface, name)
}

/// A member that takes nothing.
fn without_arguments(ask: Ask, body: Fields) -> Result<Ask, CallError>
    ensures { result ≡ asked.without_arguments ask (fields_data body.entry) }
{
    let mut values = body;
    match values.next() {
        Some(_) => Err(CallError::InvalidArgs),
        None => Ok(ask),
    }
}

/// Get, by an interface and a property's name.
fn gets(body: Fields) -> Result<Ask, CallError>
    ensures { result ≡ asked.gets (fields_data body.entry) }
{
    let mut values = body;
    let Some(interface) = next_text(&mut values) else {
        return Err(CallError::InvalidArgs);
    };
    let Some(name) = next_text(&mut values) else {
        return Err(CallError::InvalidArgs);
    };
    if values.next().is_some() {
        return Err(CallError::InvalidArgs);
    }
    match property_of(interface, name) {
        Ok(status) => Ok(Ask::Get(status)),
        Err(error) => Err(error),
    }
}

/// All properties of an interface.
fn all_of(interface: &str) -> Result<Ask, CallError>
    ensures { result ≡ asked.all_of interface.now }
{
    if interface == STATUS {
        Ok(Ask::AllProperties)
    } else if has_interface(interface) {
        Ok(Ask::NoProperties)
    } else {
        Err(CallError::UnknownInterface)
    }
}

/// The same of a text that is told by its characters.
fn all_properties_of(interface: &str) -> Result<Ask, CallError>
    ensures { result ≡ asked.all_of (encode_utf8_all (chars interface.now)) }
{
    all_of(interface)
}

/// GetAll, by an interface.
fn gets_all(body: Fields) -> Result<Ask, CallError>
    ensures { result ≡ asked.gets_all (fields_data body.entry) }
{
    let mut values = body;
    let Some(interface) = next_text(&mut values) else {
        return Err(CallError::InvalidArgs);
    };
    match values.next() {
        Some(_) => Err(CallError::InvalidArgs),
        None => all_properties_of(interface),
    }
}

/// Set, by an interface, a property's name and a boolean.
fn sets(body: Fields) -> Result<Ask, CallError>
    ensures { result ≡ asked.sets (fields_data body.entry) }
{
    let mut values = body;
    let Some(interface) = next_text(&mut values) else {
        return Err(CallError::InvalidArgs);
    };
    let Some(name) = next_text(&mut values) else {
        return Err(CallError::InvalidArgs);
    };
    let Some(on) = next_switch(&mut values) else {
        return Err(CallError::InvalidArgs);
    };
    if values.next().is_some() {
        return Err(CallError::InvalidArgs);
    }
    match property_of(interface, name) {
        Ok(status) => Ok(Ask::Set(status, on)),
        Err(error) => Err(error),
    }
}

/// Whether a call asks for this member of this interface, where it names an interface.
fn is_for(m: &MessageRef, interface: &str, member: &str) -> bool
    ensures { result ≡ asked.is_for (envelope_at m.now) interface.now member.now }
{
    is_text(m.member, member) && is_text_if_there(m.interface, interface)
}

/// The member that a call asks for, with its arguments.
fn member_of(m: &MessageRef) -> Result<Ask, CallError>
    ensures { result ≡ asked.member_of (envelope_at m.now) }
{
    if is_for(m, LAUNCHER, "GetAddress") {
        without_arguments(Ask::Address, m.body)
    } else if is_for(m, PROPERTIES, "Get") {
        gets(m.body)
    } else if is_for(m, PROPERTIES, "GetAll") {
        gets_all(m.body)
    } else if is_for(m, PROPERTIES, "Set") {
        sets(m.body)
    } else if is_for(m, INTROSPECTABLE, "Introspect") {
        without_arguments(Ask::Introspect, m.body)
    } else if is_for(m, PEER, "Ping") {
        without_arguments(Ask::Ping, m.body)
    } else {
        Err(CallError::UnknownMethod)
    }
}

/// What a call asks of the launcher's object, or why it is refused (D-Bus Specification, "Standard Interfaces").
pub fn asked(m: &MessageRef) -> Result<Ask, CallError>
    ensures { result ≡ asked.asked (envelope_at m.now) }
{
    if !is_text(m.path, "/org/a11y/bus") {
        return Err(CallError::UnknownObject);
    }
    if !is_of_object(m.interface) {
        return Err(CallError::UnknownInterface);
    }
    member_of(m)
}
