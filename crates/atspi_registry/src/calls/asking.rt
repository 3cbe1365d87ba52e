//! What a call asks of the registry, or the error that it gets.

ghost use Rattle.std.specs.Prelude.{◌≡◌, ◌≢◌, ℕ, List, [], bytes_eq, chars, IfOk};
ghost use Rattle.atspi_message_in_place.specs.View.{envelope_at};
ghost use Rattle.atspi_protocol.specs.registering.RegistryState.{RegistryState};
ghost use Rattle.atspi_protocol.specs.registering.Answers.{object_at};
ghost use Rattle.atspi_protocol.specs.registering.Steps.{answer_to};
ghost use Rattle.atspi_protocol.specs.declared.members.member.ObjectMember.TheVariants.{GetStringAtOffset};
ghost use Rattle.atspi_protocol.specs.members.Asked as asked;
ghost use Rattle.atspi_registry.specs.calls.inner.Object.{object_of};
ghost use Rattle.atspi_registry.specs.calls.Ask.{ask_answer, IsLent};
ghost use Rattle.atspi_registry.specs.calls.inner.Ask.{IsProperty, AreProperties, refusal_of};

use crate::calls::arguments::{first_reference, first_signed, first_text, second_text};
use crate::calls::ask::Ask;
use crate::calls::member::member_of;
use crate::calls::object::{ACCESSIBLE, RegistryObject, object_at};
use atspi_message_in_place::MessageRef;
use atspi_protocol::ends::CallError;
use atspi_protocol::members::ObjectMember;

/// Whether a text is the word.
fn is_word(text: &str, word: &str) -> bool
    ensures { result ≡ bytes_eq text.now word.now }
{
    text == word
}

/// The property of an object, by the names of its interface and of itself.
fn property(object: RegistryObject, interface: &str, name: &str) -> Result<Ask<'static>, CallError>
    ensures lent { IfOk result IsLent }
    ensures property { IsProperty result (asked.property_of (object_of object) (chars interface.now) (chars name.now)) }
{
    if !object.has(interface) {
        return Err(CallError::UnknownInterface);
    }
    if !is_word(interface, ACCESSIBLE) {
        return Err(CallError::UnknownProperty);
    }
    if is_word(name, "Name") {
        return Ok(Ask::Name);
    }
    if is_word(name, "ChildCount") {
        return Ok(Ask::ChildCount);
    }
    Err(CallError::UnknownProperty)
}

/// All properties of an interface of an object.
fn properties(object: RegistryObject, interface: &str) -> Result<Ask<'static>, CallError>
    ensures lent { IfOk result IsLent }
    ensures properties { AreProperties result (asked.properties_of (object_of object) (chars interface.now)) }
{
    if !object.has(interface) {
        return Err(CallError::UnknownInterface);
    }
    if is_word(interface, ACCESSIBLE) {
        return Ok(Ask::AllProperties);
    }
    Ok(Ask::NoProperties)
}

/// Why a property cannot be set: it is none, or it can only be read.
fn refusal(property: Result<Ask, CallError>) -> CallError
    ensures { result ≡ refusal_of property.entry }
{
    match property {
        Ok(_) => CallError::PropertyReadOnly,
        Err(error) => error,
    }
}

/// What a call of a member asks that an object of the registry has: none has a text.
fn of_member<'a>(
    object: RegistryObject,
    member: ObjectMember,
    m: &MessageRef<'a>,
) -> Result<Ask<'a>, CallError>
    requires textless { member ≢ GetStringAtOffset }
    ensures asked { (s : RegistryState) (own caller : List ℕ) → caller ≢ []
        → answer_to s own caller (asked.asked_by (object_of object) (envelope_at m.now).body member)
        ≡ ask_answer result s own caller }
    ensures lent { IfOk result IsLent }
{
    match member {
        ObjectMember::RegisterEvent => Ok(Ask::Register(first_text(m.body))),
        ObjectMember::DeregisterEvent => Ok(Ask::Deregister(first_text(m.body))),
        ObjectMember::GetRegisteredEvents => Ok(Ask::Registered),
        ObjectMember::Embed => match first_reference(m.body) {
            Some((name, path)) => Ok(Ask::Embed(name, path)),
            None => Err(CallError::InvalidArgs),
        },
        ObjectMember::Unembed => match first_reference(m.body) {
            Some((name, path)) => Ok(Ask::Unembed(name, path)),
            None => Err(CallError::InvalidArgs),
        },
        ObjectMember::GetChildren => Ok(Ask::Children),
        ObjectMember::GetChildAtIndex => Ok(Ask::ChildAt(first_signed(m.body))),
        ObjectMember::GetRole => Ok(Ask::Role),
        ObjectMember::GetRoleName => Ok(Ask::RoleName),
        ObjectMember::Get => property(object, first_text(m.body), second_text(m.body)),
        ObjectMember::GetAll => properties(object, first_text(m.body)),
        ObjectMember::Set => Err(refusal(property(
            object,
            first_text(m.body),
            second_text(m.body),
        ))),
        ObjectMember::Ping => Ok(Ask::Ping),
        _ => Err(CallError::UnknownMethod),
    }
}

/// What a call asks of the registry's objects, or the error that it gets (AT-SPI2's registry and socket interfaces).
pub fn asked<'a>(m: &MessageRef<'a>) -> Result<Ask<'a>, CallError>
    ensures asked { (s : RegistryState) (own caller : List ℕ) → caller ≢ []
        → answer_to s own caller
        (asked.asked (object_at (envelope_at m.now).path) (envelope_at m.now).interface
        (envelope_at m.now).member (envelope_at m.now).body) ≡ ask_answer result s own caller }
    ensures lent { IfOk result IsLent }
{
    let Some(object) = object_at(m.path) else {
        return Err(CallError::UnknownObject);
    };
    let member = member_of(object, m)?;
    of_member(object, member, m)
}
