//! Which member of an object a call asks for.

ghost use Rattle.std.specs.Prelude.{◌≡◌, ◌≢◌, IfOk, IfSome};
ghost use Rattle.atspi_message_in_place.specs.View.{bytes_of, envelope_at};
ghost use Rattle.atspi_protocol.specs.declared.members.member.ObjectMember.TheVariants.{GetStringAtOffset};
ghost use Rattle.atspi_protocol.specs.members.Asked as asked;
ghost use Rattle.atspi_registry.specs.calls.inner.Object as objects;
ghost use Rattle.atspi_registry.specs.calls.inner.Object.{object_of, lines_of, as_word};
ghost use Rattle.atspi_registry.specs.declared.calls.object.RegistryObject.TheVariants.{Listeners, Root};

use crate::calls::object::{ACCESSIBLE, PEER, PROPERTIES, REGISTRY, RegistryObject, SOCKET};
use atspi_message_in_place::MessageRef;
use atspi_protocol::ends::CallError;
use atspi_protocol::members::ObjectMember;

/// Whether a call asks for this member of this interface.
fn is_named(interface: Option<&str>, member: Option<&str>, of: &str, name: &str) -> bool
    ensures { result ≡ objects.is_named (bytes_of interface.entry) (bytes_of member.entry) of.now name.now }
{
    let Some(asked) = member else {
        return false;
    };
    match interface {
        Some(interface) => interface == of && asked == name,
        None => asked == name,
    }
}

/// The member of the object for listeners.
fn of_listeners(interface: Option<&str>, member: Option<&str>) -> Option<ObjectMember>
    ensures member { result
        ≡ objects.member_in (bytes_of interface.entry) (bytes_of member.entry) (lines_of Listeners) }
    ensures textless { IfSome result (λ found. found ≢ GetStringAtOffset) }
{
    if is_named(interface, member, REGISTRY, "RegisterEvent") {
        Some(ObjectMember::RegisterEvent)
    } else if is_named(interface, member, REGISTRY, "DeregisterEvent") {
        Some(ObjectMember::DeregisterEvent)
    } else if is_named(interface, member, REGISTRY, "GetRegisteredEvents") {
        Some(ObjectMember::GetRegisteredEvents)
    } else if is_named(interface, member, PROPERTIES, "Get") {
        Some(ObjectMember::Get)
    } else if is_named(interface, member, PROPERTIES, "GetAll") {
        Some(ObjectMember::GetAll)
    } else if is_named(interface, member, PROPERTIES, "Set") {
        Some(ObjectMember::Set)
    } else if is_named(interface, member, PEER, "Ping") {
        Some(ObjectMember::Ping)
    } else {
        None
    }
}

/// The member of the root.
fn of_root(interface: Option<&str>, member: Option<&str>) -> Option<ObjectMember>
    ensures member { result ≡ objects.member_in (bytes_of interface.entry) (bytes_of member.entry) (lines_of Root) }
    ensures textless { IfSome result (λ found. found ≢ GetStringAtOffset) }
{
    if is_named(interface, member, ACCESSIBLE, "GetChildAtIndex") {
        Some(ObjectMember::GetChildAtIndex)
    } else if is_named(interface, member, ACCESSIBLE, "GetChildren") {
        Some(ObjectMember::GetChildren)
    } else if is_named(interface, member, ACCESSIBLE, "GetRole") {
        Some(ObjectMember::GetRole)
    } else if is_named(interface, member, ACCESSIBLE, "GetRoleName") {
        Some(ObjectMember::GetRoleName)
    } else if is_named(interface, member, SOCKET, "Embed") {
        Some(ObjectMember::Embed)
    } else if is_named(interface, member, SOCKET, "Unembed") {
        Some(ObjectMember::Unembed)
    } else if is_named(interface, member, PROPERTIES, "Get") {
        Some(ObjectMember::Get)
    } else if is_named(interface, member, PROPERTIES, "GetAll") {
        Some(ObjectMember::GetAll)
    } else if is_named(interface, member, PROPERTIES, "Set") {
        Some(ObjectMember::Set)
    } else if is_named(interface, member, PEER, "Ping") {
        Some(ObjectMember::Ping)
    } else {
        None
    }
}

/// The codes of the types of a member's arguments.
fn takes_of(member: ObjectMember) -> &'static [u8]
    ensures { result.now ≡ objects.takes_of member }
{
    match member {
        ObjectMember::RegisterEvent | ObjectMember::DeregisterEvent | ObjectMember::GetAll => {
            b"s".as_slice()
        }
        ObjectMember::GetChildAtIndex => b"i".as_slice(),
        ObjectMember::Embed | ObjectMember::Unembed => b"(so)".as_slice(),
        ObjectMember::Get => b"ss".as_slice(),
        ObjectMember::Set => b"ssv".as_slice(),
        _ => &[],
    }
}

/// Whether the types of a body are those of a member's arguments. Behind the pattern of RegisterEvent others may stand.
fn are_taken(member: ObjectMember, codes: &[u8]) -> bool
    ensures { result ≡ objects.are_taken member codes.now }
{
    if member == ObjectMember::RegisterEvent {
        codes.starts_with(takes_of(member))
    } else {
        codes == takes_of(member)
    }
}

/// Whether the object has the interface that a call names, if it names one.
fn has_named(object: RegistryObject, interface: Option<&str>) -> bool
    ensures { result ≡ asked.has_interface (object_of object) (bytes_of interface.entry) }
{
    match interface {
        Some(interface) => object.has(interface),
        None => true,
    }
}

/// The member with this name.
fn found(
    object: RegistryObject,
    interface: Option<&str>,
    member: Option<&str>,
) -> Option<ObjectMember>
    ensures member { result ≡ objects.member_in (bytes_of interface.entry) (bytes_of member.entry) (lines_of object) }
    ensures textless { IfSome result (λ found. found ≢ GetStringAtOffset) }
{
    match object {
        RegistryObject::Listeners => of_listeners(interface, member),
        RegistryObject::Root => of_root(interface, member),
    }
}

/// The member of the object that a call asks for, or the error that it gets: looked for first by interface, then by
/// member, then by arguments.
pub fn member_of(object: RegistryObject, m: &MessageRef) -> Result<ObjectMember, CallError>
    ensures member { asked.member_of (object_of object) (envelope_at m.now).interface (envelope_at m.now).member
        (envelope_at m.now).body ≡ as_word result }
    ensures textless { IfOk result (λ member. member ≢ GetStringAtOffset) }
{
    if !has_named(object, m.interface) {
        return Err(CallError::UnknownInterface);
    }
    let Some(member) = found(object, m.interface, m.member) else {
        return Err(CallError::UnknownMethod);
    };
    if !are_taken(member, m.body.types().codes()) {
        return Err(CallError::InvalidArgs);
    }
    Ok(member)
}
