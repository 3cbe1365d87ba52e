//! What a call asks of an object, or the error that it gets.

ghost use Rattle.std.specs.Prelude.{◌≡◌, ℕ, List, Option, Result, Ok, Some, IsOkAnd, chars};
ghost use Rattle.atspi_types.specs.Data.{Data};
ghost use Rattle.atspi_message_in_place.specs.View.{envelope_at};
ghost use Rattle.atspi_app_calls.specs.reading.Arguments.{IsSigned};
ghost use Rattle.atspi_protocol.specs.members.Asked as asked;
ghost use Rattle.atspi_protocol.specs.members.Table.{PropertyLine};
ghost use Rattle.atspi_app_calls.specs.Object.{object_of};
ghost use Rattle.atspi_app_calls.specs.Ask.{as_asked};
ghost use Rattle.atspi_app_calls.specs.inner.Ask.{IsLine, IsFound, AreAll};

use crate::ask::Ask;
use crate::interface::{AppInterface, interface_named};
use crate::member::member_of;
use crate::object::AppObject;
use crate::properties::property_in;
use crate::reading::{first_text, grain_of, second_text, second_unsigned, third_set_signed};
use atspi_message_in_place::MessageRef;
use atspi_protocol::ends::CallError;
use atspi_protocol::members::{ObjectMember, ObjectProperty};
use atspi_units::Grain;

/// The interface of this name, where the object has it.
fn interface_of(object: AppObject, interface: &str) -> Result<AppInterface, CallError>
    ensures { AreAll result (asked.properties_of (object_of object) (chars interface.now)) }
{
    let Some(named) = interface_named(interface) else {
        return Err(CallError::UnknownInterface);
    };
    if !object.has(named) {
        return Err(CallError::UnknownInterface);
    }
    Ok(named)
}

/// The property of an object, by the names of its interface and of itself.
fn property(object: AppObject, interface: &str, name: &str) -> Result<ObjectProperty, CallError>
    ensures { IsFound result (asked.property_of (object_of object) (chars interface.now) (chars name.now)) }
{
    match interface_of(object, interface) {
        Ok(named) => match property_in(named, name) {
            Some(property) => Ok(property),
            None => Err(CallError::UnknownProperty),
        },
        Err(error) => Err(error),
    }
}

/// Another value for a property: a number for that of the application alone.
fn set_one(property: ObjectProperty, value: Option<i32>) -> Result<Ask, CallError>
    ensures { (found : Result PropertyLine (List ℕ)) (v : Option Data) (body : List Data)
        → IsOkAnd found (IsLine property) → IsSigned value v
        → asked.and_then (asked.set_to v) found ≡ as_asked body result }
{
    match property {
        ObjectProperty::Id => match value {
            Some(number) => Ok(Ask::SetId(number)),
            None => Err(CallError::InvalidArgs),
        },
        _ => Err(CallError::PropertyReadOnly),
    }
}

/// What is asked by Set.
fn setting(
    property: Result<ObjectProperty, CallError>,
    value: Option<i32>,
) -> Result<Ask, CallError>
    ensures { (found : Result PropertyLine (List ℕ)) (v : Option Data) (body : List Data) → IsFound property found
        → IsSigned value v → asked.and_then (asked.set_to v) found ≡ as_asked body result }
{
    match property {
        Ok(property) => set_one(property, value),
        Err(error) => Err(error),
    }
}

/// What is asked by Get.
fn getting(property: Result<ObjectProperty, CallError>) -> Result<Ask, CallError>
    ensures { (found : Result PropertyLine (List ℕ)) (body : List Data) → IsFound property found
        → asked.and_then (λ (l : PropertyLine). Ok (asked.gets l.property)) found ≡ as_asked body result }
{
    match property {
        Ok(property) => Ok(Ask::Get(property)),
        Err(error) => Err(error),
    }
}

/// What is asked by GetAll.
fn getting_all(interface: Result<AppInterface, CallError>) -> Result<Ask, CallError>
    ensures { (found : Result (List PropertyLine) (List ℕ)) (body : List Data) → AreAll interface found
        → asked.and_then (λ ls. Ok (asked.gets_all ls)) found ≡ as_asked body result }
{
    match interface {
        Ok(interface) => Ok(Ask::GetAll(interface)),
        Err(error) => Err(error),
    }
}

/// What is asked of the pieces of a text, where it is said of which.
fn pieces(grain: Option<Grain>) -> Result<Ask, CallError>
    ensures { (body : List Data) → asked.pieces_asked body grain ≡ as_asked body result }
{
    match grain {
        Some(_) => Ok(Ask::Call(ObjectMember::GetStringAtOffset)),
        None => Err(CallError::InvalidArgs),
    }
}

/// What a call of a member asks.
fn of_member(object: AppObject, member: ObjectMember, m: &MessageRef) -> Result<Ask, CallError>
    ensures { asked.asked_by (object_of object) (envelope_at m.now).body member
        ≡ as_asked (envelope_at m.now).body result }
{
    match member {
        ObjectMember::Get => getting(property(object, first_text(m.body), second_text(m.body))),
        ObjectMember::GetAll => getting_all(interface_of(object, first_text(m.body))),
        ObjectMember::Set => setting(
            property(object, first_text(m.body), second_text(m.body)),
            third_set_signed(m.body),
        ),
        ObjectMember::GetStringAtOffset => pieces(grain_of(second_unsigned(m.body))),
        _ => Ok(Ask::Call(member)),
    }
}

/// What a call asks of an object of an application, or the error that it gets (AT-SPI2's interface files; D-Bus
/// Specification, "Standard Interfaces").
pub fn asked(object: AppObject, m: &MessageRef) -> Result<Ask, CallError>
    ensures { asked.asked (Some (object_of object)) (envelope_at m.now).interface (envelope_at m.now).member
        (envelope_at m.now).body ≡ as_asked (envelope_at m.now).body result }
{
    let member = member_of(object, m)?;
    of_member(object, member, m)
}
