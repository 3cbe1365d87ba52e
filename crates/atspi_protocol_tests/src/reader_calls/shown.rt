//! Calls as texts that tables can have, read from the bytes that they are written as.

ghost use Rattle.atspi_message.specs.Envelope.{envelope_of};
ghost use Rattle.atspi_message.specs.Rules.{MeetsRules};

use crate::made::{lent, put};
use atspi_base::valid_names::BusName;
use atspi_base::{Bytes, Text, put_decimal, put_signed};
use atspi_marshal_in_place::{Fields, Item};
use atspi_message::Message;
use atspi_message_in_place::MessageRef;
use std::alloc::Global;
use std::process::Abort;

/// A text of at most 1,000 bytes.
pub fn text(rt: &impl Abort, alloc: Global, value: &str) -> Text {
    assert!(rt; value.len() <= 1000);
    Text::read(alloc, value.as_bytes()).expect(rt, "a text")
}

/// The name `:1.7`.
pub fn bus_name(rt: &impl Abort, alloc: Global) -> BusName {
    BusName::read(alloc, b":1.7").expect(rt, "a name")
}

/// Appends a blank and an argument: a text between `<` and `>`, or a number.
fn put_argument(rt: &impl Abort, out: &mut Bytes, item: Item) {
    put(rt, out, b" ");
    match item.text() {
        Some(text) => {
            put(rt, out, b"<");
            put(rt, out, text.as_bytes());
            put(rt, out, b">");
        }
        None => {
            let n = item.i32().expect(rt, "a number");
            put_signed(i64::from(n), out).expect(rt, "memory");
        }
    }
}

/// Appends the arguments, at most eight.
fn put_arguments(rt: &impl Abort, out: &mut Bytes, body: Fields) {
    let mut rest = body;
    for _argument in 0..8_u8 {
        if let Some(item) = rest.next() {
            put_argument(rt, out, item);
        }
    }
    assert!(rt; rest.next().is_none());
}

/// Appends a number and a blank.
fn put_number(rt: &impl Abort, out: &mut Bytes, n: u32) {
    put_decimal(u64::from(n), out).expect(rt, "memory");
    put(rt, out, b" ");
}

/// Appends a name, `?` for none.
fn put_name(rt: &impl Abort, out: &mut Bytes, name: Option<&str>) {
    put(rt, out, name.unwrap_or("?").as_bytes());
}

/// Appends the call: its type, flags and serial, the names of its header, and its arguments.
fn put_call(rt: &impl Abort, out: &mut Bytes, call: &MessageRef) {
    put_number(rt, out, u32::from(call.kind));
    put_number(rt, out, u32::from(call.flags));
    put_number(rt, out, call.serial);
    put_name(rt, out, call.destination);
    put(rt, out, b" ");
    put_name(rt, out, call.path);
    put(rt, out, b" ");
    put_name(rt, out, call.interface);
    put(rt, out, b" ");
    put_name(rt, out, call.member);
    put_arguments(rt, out, call.body);
}

/// The bytes that a call is written as; it is let go.
fn written(rt: &impl Abort, alloc: Global, message: Message) -> Bytes
    requires { MeetsRules (envelope_of message) }
{
    let mut out = Bytes::new(alloc);
    message.write(&mut out).expect(rt, "memory");
    out
}

/// Whether the call is this text.
pub fn is_shown(rt: &impl Abort, alloc: Global, message: Message, due: &str) -> bool
    requires { MeetsRules (envelope_of message) }
{
    let bytes = written(rt, alloc, message);
    let call = lent(rt, bytes.as_slice(), 1);
    let mut out = Bytes::new(alloc);
    put_call(rt, &mut out, &call);
    out.as_slice() == due.as_bytes()
}
