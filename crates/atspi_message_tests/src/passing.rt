//! Messages that are passed on: what is written of one that lies in bytes.

ghost use Rattle.std.specs.Prelude.{IfSome};
ghost use Rattle.atspi_types.specs.Data.{items_of, AreWellTyped};
ghost use Rattle.atspi_types.specs.DataView.{all_data};
ghost use Rattle.atspi_message.specs.Envelope.{envelope_of};
ghost use Rattle.atspi_message.specs.Rules.{MeetsRules};
ghost use Rattle.atspi_message_in_place.specs.View.{envelope_at};

use crate::samples::{
    CALL_BIG, CALL_BIG_PASSED, CALL_BIG_SENT, CALL_LITTLE, CALL_LITTLE_PASSED, CALL_LITTLE_SENT,
};
use atspi_base::valid_names::BusName;
use atspi_base::{Bytes, Text};
use atspi_message::{Message, total};
use atspi_message_forwarding::{list_length, write_from, written_length};
use atspi_message_in_place::MessageRef;
use atspi_types::{Order, Ty, Value, Values};
use std::alloc::Global;
use std::process::Abort;
use std::test::*;

/// The message that bytes are, where they are one.
pub(crate) fn lent<'a>(bytes: &'a [u8]) -> Option<MessageRef<'a>>
    ensures { IfSome result (λ m. MeetsRules (envelope_at m)) }
{
    let first = bytes.first_chunk::<16>()?;
    let length = total(first).ok()?;
    if length as usize != bytes.len() {
        return None;
    }
    MessageRef::parse(bytes).ok()
}

/// The message with a sender.
fn with_sender<'a>(m: &MessageRef<'a>, name: &'a BusName) -> MessageRef<'a>
    requires { MeetsRules (envelope_at m.now) }
    ensures { MeetsRules (envelope_at result) }
{
    MessageRef {
        order: m.order,
        kind: m.kind,
        flags: m.flags,
        serial: m.serial,
        path: m.path,
        interface: m.interface,
        member: m.member,
        error: m.error,
        reply: m.reply,
        destination: m.destination,
        sender: Some(name.as_str()),
        body: m.body,
        body_bytes: m.body_bytes,
    }
}

/// Whether the message is passed on as these bytes, and is known before to have so many.
pub(crate) fn is_passed(alloc: Global, m: &MessageRef, due: &[u8]) -> bool
    requires { MeetsRules (envelope_at m.now) }
{
    match write_from(alloc, m) {
        Ok(passed) => passed.as_slice() == due && written_length(m) as usize == due.len(),
        Err(_) => false,
    }
}

/// What the message that bytes are is passed on as.
pub(crate) fn passed(alloc: Global, bytes: &[u8]) -> Option<Bytes> {
    match lent(bytes) {
        Some(m) => write_from(alloc, &m).ok(),
        None => None,
    }
}

/// Whether the message that bytes are is passed on with a sender as these bytes.
fn is_sent(alloc: Global, name: &BusName, bytes: &[u8], due: &[u8]) -> bool {
    match lent(bytes) {
        Some(m) => is_passed(alloc, &with_sender(&m, name), due),
        None => false,
    }
}

/// Whether the calls are passed on with this sender.
fn are_sent(alloc: Global, name: &BusName) -> bool {
    is_sent(alloc, name, CALL_LITTLE, CALL_LITTLE_PASSED)
        && is_sent(alloc, name, CALL_LITTLE_SENT, CALL_LITTLE_PASSED)
        && is_sent(alloc, name, CALL_LITTLE_PASSED, CALL_LITTLE_PASSED)
        && is_sent(alloc, name, CALL_BIG, CALL_BIG_PASSED)
        && is_sent(alloc, name, CALL_BIG_SENT, CALL_BIG_PASSED)
        && is_sent(alloc, name, CALL_BIG_PASSED, CALL_BIG_PASSED)
}

#[test]
fn a_message_is_passed_on_with_its_sender(rt: HostRuntime) {
    let sent = BusName::read(rt.alloc(), b":1.5").is_ok_and(|name| are_sent(rt.alloc(), &name));
    assert!(rt; sent);
}

/// A return of values.
fn return_of(order: Order, destination: Option<BusName>, body: Values) -> Message
    requires { AreWellTyped (items_of (all_data body)) }
    ensures { MeetsRules (envelope_of result) }
{
    Message {
        order,
        kind: 2,
        flags: 1,
        serial: 7,
        path: None,
        interface: None,
        member: None,
        error: None,
        reply: Some(9),
        destination,
        sender: None,
        body,
    }
}

/// A text of a list.
fn short_text(alloc: Global, text: &str) -> Option<Text> {
    let bytes = text.as_bytes();
    if bytes.len() > 255 {
        return None;
    }
    Text::read(alloc, bytes).ok()
}

/// A body that is one list of texts.
fn list_of(alloc: Global, texts: &str) -> Option<Values> {
    let mut items = Values::new(alloc);
    for text in texts.split(' ') {
        items.push(Value::Text(short_text(alloc, text)?)).ok()?;
    }
    let mut body = Values::new(alloc);
    body.push(Value::Array(Ty::Text, items)).ok()?;
    Some(body)
}

/// Whether a return of a list of these texts is known to have as many bytes as are written of it.
fn is_counted(rt: &impl Abort, alloc: Global, order: Order, to: &[u8], texts: &str) -> bool {
    let body = list_of(alloc, texts).expect(rt, "memory");
    assert!(rt; body.are_well_typed());
    let message = return_of(order, BusName::read(alloc, to).ok(), body);
    let mut bytes = Bytes::new(alloc);
    message.write(&mut bytes).is_ok()
        && list_length(&message).is_some_and(|len| len as usize == bytes.as_slice().len())
}

#[test]
fn a_list_of_names_has_as_many_bytes_as_are_written(rt: HostRuntime) {
    let alloc = rt.alloc();
    for texts in [
        "",
        "a",
        "abc abcd",
        "  a",
        ":1.0 :1.10 org.freedesktop.DBus",
        "abcdefgh  i",
    ] {
        assert!(rt; is_counted(&rt, alloc, Order::Little, b":1.5", texts));
        assert!(rt; is_counted(&rt, alloc, Order::Big, b":1.12345", texts));
        assert!(rt; is_counted(&rt, alloc, Order::Little, b"", texts));
    }
}

#[test]
fn of_another_body_nothing_is_known(rt: HostRuntime) {
    let alloc = rt.alloc();
    let body = Values::new(alloc);
    assert!(rt; body.are_well_typed());
    assert!(rt; list_length(&return_of(Order::Little, None, body)).is_none());
}
