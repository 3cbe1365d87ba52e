//! Which member of an object a call asks for.

ghost use Rattle.std.specs.Prelude.{◌≡◌, None, Some, true, bytes_eq};
ghost use Rattle.atspi_message_in_place.specs.View.{bytes_of, envelope_at};
ghost use Rattle.atspi_app_calls.specs.reading.inner.Errors.{as_word};
ghost use Rattle.atspi_tree_model.specs.Forest as forest;
ghost use Rattle.atspi_protocol.specs.members.Asked as asked;
ghost use Rattle.atspi_app_calls.specs.declared.interface.AppInterface.TheVariants as interfaces;
ghost use Rattle.atspi_app_calls.specs.Object.{object_of};
ghost use Rattle.atspi_app_calls.specs.inner.Lines.{line_named, lent_line, offered_lines, meant_line, at};

use crate::interface::{AppInterface, interface_named};
use crate::lines::{Line, line_in};
use crate::object::AppObject;
use atspi_message_in_place::MessageRef;
use atspi_protocol::ends::CallError;
use atspi_protocol::members::ObjectMember;

/// The member of an interface that the object has, of this name.
fn offered(object: AppObject, interface: AppInterface, name: &str) -> Option<Line>
    ensures { lent_line result ≡ line_named name.now (offered_lines (object_of object) interface) }
{
    if object.has(interface) {
        line_in(interface, name)
    } else {
        None
    }
}

/// The first of two, if it is there, and else the second.
fn first_of(first: Option<Line>, second: Option<Line>) -> Option<Line>
    ensures { lent_line result ≡ forest.first_of (lent_line first.entry) (lent_line second.entry) }
{
    match first {
        Some(_) => first,
        None => second,
    }
}

/// The member of this name of one of the interfaces behind Text.
fn in_later(object: AppObject, name: &str) -> Option<Line>
    ensures { lent_line result
        ≡ forest.first_of (at object name.now interfaces.Selection)
        (forest.first_of (at object name.now interfaces.Table)
        (forest.first_of (at object name.now interfaces.Action)
        (forest.first_of (at object name.now interfaces.Properties)
        (at object name.now interfaces.Peer)))) }
{
    let selection = offered(object, AppInterface::Selection, name);
    let table = offered(object, AppInterface::Table, name);
    let action = offered(object, AppInterface::Action, name);
    let properties = offered(object, AppInterface::Properties, name);
    let peer = offered(object, AppInterface::Peer, name);
    first_of(
        selection,
        first_of(table, first_of(action, first_of(properties, peer))),
    )
}

/// The member of this name, of the first interface of the object that has one.
fn in_any(object: AppObject, name: &str) -> Option<Line>
    ensures { lent_line result ≡ meant_line (object_of object) None name.now }
{
    let accessible = offered(object, AppInterface::Accessible, name);
    let application = offered(object, AppInterface::Application, name);
    let cache = offered(object, AppInterface::Cache, name);
    let text = offered(object, AppInterface::Text, name);
    let editable = offered(object, AppInterface::EditableText, name);
    let later = in_later(object, name);
    first_of(
        accessible,
        first_of(
            application,
            first_of(cache, first_of(text, first_of(editable, later))),
        ),
    )
}

/// The member of this name of an interface that the object has.
fn in_one(object: AppObject, interface: &str, name: &str) -> Option<Line>
    requires has { asked.has_interface (object_of object) (Some interface.now) ≡ true }
    ensures { lent_line result ≡ meant_line (object_of object) (Some interface.now) name.now }
{
    match interface_named(interface) {
        Some(interface) => line_in(interface, name),
        None => unreachable!(),
    }
}

/// The member of this name, of the interface that is named, if one is.
fn line_of(object: AppObject, interface: Option<&str>, name: &str) -> Option<Line>
    requires has { asked.has_interface (object_of object) (bytes_of interface) ≡ true }
    ensures { lent_line result ≡ meant_line (object_of object) (bytes_of interface.entry) name.now }
{
    match interface {
        Some(interface) => in_one(object, interface, name),
        None => in_any(object, name),
    }
}

/// Whether the codes of types are those that a member takes.
fn are_taken(codes: &[u8], takes: &[u8]) -> bool
    ensures { result ≡ bytes_eq codes.now takes.now }
{
    codes == takes
}

/// The member of the object that a call asks for, or the error that it gets: looked for first by interface, then by
/// member, then by arguments.
pub(crate) fn member_of(object: AppObject, m: &MessageRef) -> Result<ObjectMember, CallError>
    ensures { asked.member_of (object_of object) (envelope_at m.now).interface (envelope_at m.now).member
        (envelope_at m.now).body ≡ as_word result }
{
    if !object.has_named(m.interface) {
        return Err(CallError::UnknownInterface);
    }
    let Some(name) = m.member else {
        return Err(CallError::UnknownMethod);
    };
    let Some((member, takes)) = line_of(object, m.interface, name) else {
        return Err(CallError::UnknownMethod);
    };
    if !are_taken(m.body.types().codes(), takes) {
        return Err(CallError::InvalidArgs);
    }
    Ok(member)
}
