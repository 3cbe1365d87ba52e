//! The condition that a key and a value make.

ghost use Rattle.std.specs.Prelude.{◌≡◌, ◌≢◌, ℕ, List, bytes_eq, encode_utf8_all, IfOk, IfSome, IfNone, Err};
ghost use Rattle.atspi_match.specs.Conditions.{IsCondition, IsNamespace, IsText, bool_text, type_text, value_text};
ghost use Rattle.atspi_match.specs.inner.Keys.{IsKey, key_of, NoCondition};
ghost use Rattle.atspi_match.specs.declared.condition.MessageType.{MessageType};
ghost use Rattle.std.specs.Prelude.{Bool};
ghost use Rattle.std.specs.List.{list_all};
ghost use Rattle.atspi_base.specs.valid_names.Elements.{may_follow};
ghost use Rattle.atspi_base.specs.valid_names.Elements as elements;
ghost use Rattle.atspi_base.specs.declared.valid_names.elements.Form.TheVariants as Form;

use crate::key::{Key, is};
use crate::{Condition, MessageType};
use atspi_base::valid_names::{BusName, Interface, Member, NameFault, Path};
use atspi_base::{Text, TextFault};
use std::alloc::Global;

/// The type of message that has this name.
fn read_type(value: &[u8]) -> Option<MessageType>
    ensures known { IfSome result (λ t. type_text t ≡ value.now) }
    ensures unknown { IfNone result ((t : MessageType) → type_text t ≢ value.now) }
{
    if is(value, b"signal") {
        Some(MessageType::Signal)
    } else if is(value, b"method_call") {
        Some(MessageType::MethodCall)
    } else if is(value, b"method_return") {
        Some(MessageType::MethodReturn)
    } else if is(value, b"error") {
        Some(MessageType::Error)
    } else {
        None
    }
}

/// The truth value that has this name.
fn read_bool(value: &[u8]) -> Option<bool>
    ensures known { IfSome result (λ b. bool_text b ≡ value.now) }
    ensures unknown { IfNone result ((b : Bool) → bool_text b ≢ value.now) }
{
    if is(value, b"true") {
        Some(true)
    } else if is(value, b"false") {
        Some(false)
    } else {
        None
    }
}

/// The text that the bytes spell. `Form` where they are not UTF-8, have a zero byte, or are too many for a text.
fn read_text(alloc: Global, value: &[u8]) -> Result<Text, NameFault>
    ensures ok { IfOk result (λ text. IsText text × (encode_utf8_all text ≡ value.now)) }
    ensures form { result ≡ Err NameFault.Form → (text : List ℕ) → IsText text → encode_utf8_all text ≢ value.now }
{
    if value.len() >= 0x1_0000_0000 {
        return Err(NameFault::Form);
    }
    match Text::read(alloc, value) {
        Ok(text) => Ok(text),
        Err(TextFault::NoMemory) => Err(NameFault::NoMemory),
        Err(TextFault::Zero(_)) => Err(NameFault::Form),
        Err(TextFault::Utf8(_)) => Err(NameFault::Form),
    }
}

/// Whether each byte may stand in a well-known bus name, between its dots.
fn all_follow(bytes: &[u8]) -> bool
    ensures { result ≡ list_all (may_follow Form.WellKnown) bytes.now }
{
    bytes
        .iter()
        .all(|b| b.is_ascii_alphanumeric() || *b == b'_' || *b == b'-')
}

/// Whether the bytes are one element of a well-known bus name.
fn is_element(bytes: &[u8]) -> bool
    ensures { result ≡ elements.is_element Form.WellKnown bytes.now }
{
    all_follow(bytes) && !bytes.is_empty() && !bytes[0].is_ascii_digit()
}

/// Fails where the bytes are neither a bus name nor one element of a well-known one.
fn check_namespace(alloc: Global, value: &[u8]) -> Result<(), NameFault>
    ensures ok { IfOk result (λ _. IsNamespace value.now) }
    ensures form { result ≡ Err NameFault.Form → IsNamespace value.now → ⊥ }
{
    if !is_element(value) || value.len() > 255 {
        BusName::read(alloc, value)?;
    }
    Ok(())
}

/// The condition on the key with the value. `Form` where the key may not have the value.
pub(crate) fn read_condition(alloc: Global, key: Key, value: &[u8]) -> Result<Condition, NameFault>
    requires { IsKey key }
    ensures ok { IfOk result (λ c. IsCondition c × (key_of c ≡ key) × (value_text c ≡ value.now)) }
    ensures form { result ≡ Err NameFault.Form → NoCondition key value.now }
{
    match key {
        Key::Kind => Ok(Condition::Kind(read_type(value).ok_or(NameFault::Form)?)),
        Key::Sender => Ok(Condition::Sender(BusName::read(alloc, value)?)),
        Key::Interface => Ok(Condition::Interface(Interface::read(alloc, value)?)),
        Key::Member => Ok(Condition::Member(Member::read(alloc, value)?)),
        Key::Path => Ok(Condition::Path(Path::read(alloc, value)?)),
        Key::PathNamespace => Ok(Condition::PathNamespace(Path::read(alloc, value)?)),
        Key::Destination => Ok(Condition::Destination(BusName::read(alloc, value)?)),
        Key::Arg(index) => {
            let text = read_text(alloc, value)?;
            Ok(Condition::Arg { index, text })
        }
        Key::ArgPath(index) => {
            let text = read_text(alloc, value)?;
            Ok(Condition::ArgPath { index, text })
        }
        Key::Arg0Namespace => {
            check_namespace(alloc, value)?;
            Ok(Condition::Arg0Namespace(read_text(alloc, value)?))
        }
        Key::Eavesdrop => Ok(Condition::Eavesdrop(read_bool(value).ok_or(NameFault::Form)?)),
    }
}
