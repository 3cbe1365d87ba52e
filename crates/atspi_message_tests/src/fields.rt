//! The header and the body of a message, kept and where it lies.

use crate::passing::lent;
use crate::samples::{BIG, BODY, HELLO, RETURN, UNKNOWN};
use atspi_message::Message;
use atspi_message_in_place::MessageRef;
use std::alloc::Global;

/// Whether a message is the call of Hello, by each of its header fields.
fn is_hello(message: &MessageRef<'_>) -> bool {
    (message.kind, message.flags, message.serial) == (1, 0, 1)
        && message.path == Some("/org/freedesktop/DBus")
        && message.interface == Some("org.freedesktop.DBus")
        && message.member == Some("Hello")
        && message.destination == Some("org.freedesktop.DBus")
        && message.sender.is_none()
        && message.error.is_none()
        && message.reply.is_none()
        && message.body.types().is_empty()
}

/// The serial of a message, and that of the call that it replies to.
fn serials(bytes: &[u8]) -> Option<(u32, Option<u32>)> {
    let message = lent(bytes)?;
    Some((message.serial, message.reply))
}

/// The values of a body `yu`, if there are no others.
fn byte_and_number(bytes: &[u8]) -> Option<(u8, u32)> {
    let mut body = lent(bytes)?.body;
    let (first, second, last) = (body.next(), body.next(), body.next());
    if last.is_some() {
        return None;
    }
    Some((first?.u8()?, second?.u32()?))
}

/// Whether a message has no value.
fn has_no_value(bytes: &[u8]) -> bool {
    match lent(bytes) {
        Some(message) => {
            let mut body = message.body;
            body.next().is_none()
        }
        None => false,
    }
}

#[test]
fn a_message_has_the_fields_and_values_of_its_bytes(rt: HostRuntime) {
    assert!(rt; lent(HELLO).is_some_and(|message| is_hello(&message)));
    assert!(rt; serials(RETURN) == Some((2, Some(1))));
    assert!(rt; serials(BIG) == Some((2, Some(1))));
    assert!(rt; byte_and_number(BODY) == Some((7, 9)));
    assert!(rt; has_no_value(UNKNOWN));
}

/// Whether a message has the names of the call of Hello.
fn has_names(message: &Message) -> bool {
    let (Some(path), Some(interface), Some(member), Some(destination)) = (
        &message.path,
        &message.interface,
        &message.member,
        &message.destination,
    ) else {
        return false;
    };
    path.as_str() == "/org/freedesktop/DBus"
        && interface.as_str() == "org.freedesktop.DBus"
        && member.as_str() == "Hello"
        && destination.as_str() == "org.freedesktop.DBus"
}

/// Whether a kept message is the call of Hello.
fn is_kept_hello(message: &Message) -> bool {
    (message.kind, message.flags, message.serial) == (1, 0, 1)
        && message.error.is_none()
        && message.body.len() == 0
        && has_names(message)
}

/// Whether a message is the call of Hello, its serial, the one that it replies to, and how many values it has.
fn looked_at(message: &Message) -> (bool, u32, Option<u32>, usize) {
    (
        is_kept_hello(message),
        message.serial,
        message.reply,
        message.body.len(),
    )
}

/// The same of the message that bytes are, kept.
fn kept(alloc: Global, bytes: &[u8]) -> Option<(bool, u32, Option<u32>, usize)> {
    match lent(bytes)?.owned(alloc) {
        Ok(message) => Some(looked_at(&message)),
        Err(_) => None,
    }
}

/// Whether the messages are kept with the fields and values of their bytes.
fn are_kept(alloc: Global) -> bool {
    kept(alloc, HELLO) == Some((true, 1, None, 0))
        && kept(alloc, RETURN) == Some((false, 2, Some(1), 0))
        && kept(alloc, BIG) == Some((false, 2, Some(1), 0))
        && kept(alloc, BODY) == Some((false, 3, None, 2))
}

#[test]
fn a_message_is_kept_with_its_fields_and_values(rt: HostRuntime) {
    assert!(rt; are_kept(rt.alloc()));
}
