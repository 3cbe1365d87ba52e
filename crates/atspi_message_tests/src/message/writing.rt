//! Messages that are put together, as they are written, and those that pass a limit.

ghost use Rattle.std.specs.Prelude.{◌≡◌, IfOk, IfSome};
ghost use Rattle.atspi_types.specs.Kinds.{variant};
ghost use Rattle.atspi_types.specs.Data.{items_of, type_of, IsWellTyped, AreWellTyped};
ghost use Rattle.atspi_types.specs.DataView.{data_of, all_data};
ghost use Rattle.atspi_message.specs.Envelope.{envelope_of};
ghost use Rattle.atspi_message.specs.Rules.{MeetsRules};

use super::is_written;
use crate::samples::HELLO;
use atspi_base::valid_names::{BusName, Interface, Member, Path};
use atspi_base::{Bytes, NoMemory};
use atspi_message::{Message, WriteFault};
use atspi_types::{Order, Ty, Value, Values};
use std::alloc::Global;
use std::test::*;

/// The call of Hello.
fn hello(alloc: Global) -> Option<Message>
    ensures { IfSome result (λ message. MeetsRules (envelope_of message)) }
{
    let path = Path::read(alloc, b"/org/freedesktop/DBus").ok()?;
    let interface = Interface::read(alloc, b"org.freedesktop.DBus").ok()?;
    let member = Member::read(alloc, b"Hello").ok()?;
    let destination = BusName::read(alloc, b"org.freedesktop.DBus").ok()?;
    Some(Message {
        order: Order::Little,
        kind: 1,
        flags: 0,
        serial: 1,
        path: Some(path),
        interface: Some(interface),
        member: Some(member),
        error: None,
        reply: None,
        destination: Some(destination),
        sender: None,
        body: Values::new(alloc),
    })
}

/// Whether the call of Hello that was made is written as its bytes.
fn made_hello_is_written(alloc: Global) -> bool {
    match hello(alloc) {
        Some(message) => is_written(alloc, &message, b"", HELLO),
        None => false,
    }
}

#[test]
fn a_message_that_was_made_is_written(rt: HostRuntime) {
    assert!(rt; made_hello_is_written(rt.alloc()));
}

/// How many bytes there are after a return with this body was written behind three, and whether it was too big.
fn written(alloc: Global, body: Values) -> (usize, bool)
    requires { AreWellTyped (items_of (all_data body)) }
{
    let message = Message {
        order: Order::Little,
        kind: 2,
        flags: 1,
        serial: 2,
        path: None,
        interface: None,
        member: None,
        error: None,
        reply: Some(1),
        destination: None,
        sender: None,
        body,
    };
    let mut out = Bytes::new(alloc);
    let _ = out.extend(b"abc");
    let done = message.write(&mut out);
    (out.len(), matches!(done, Err(WriteFault::Big)))
}

/// A variant in so many others.
fn nested(alloc: Global, depth: u32) -> Result<Value, NoMemory>
    ensures { IfOk result (λ value. IsWellTyped (data_of value)) }
{
    let mut value = Value::Variant(Ty::Byte, Box::new(alloc, Value::Byte(7))?);
    for _ in 0..depth {
        value = Value::Variant(Ty::Variant, Box::new(alloc, value)?);
    }
    Ok(value)
}

/// A body of one value.
fn one(alloc: Global, value: Value) -> Option<Values>
    requires { IsWellTyped (data_of value) }
    ensures { IfSome result (λ body. AreWellTyped (items_of (all_data body))) }
{
    let mut body = Values::new(alloc);
    body.push(value).ok()?;
    Some(body)
}

/// Bytes, each a value by itself.
fn zeros(alloc: Global, count: u32) -> Result<Values, NoMemory>
    ensures { IfOk result (λ body. AreWellTyped (items_of (all_data body))) }
{
    let bytes = vec![in alloc; 0u8; count as usize]?;
    Ok(Values::from_bytes(bytes))
}

/// An array of so many bytes.
fn array_of(alloc: Global, count: u32) -> Result<Value, NoMemory>
    ensures { IfOk result (λ value. IsWellTyped (data_of value)) }
{
    let bytes = vec![in alloc; 0u8; count as usize]?;
    Ok(Value::Array(Ty::Byte, Values::from_bytes(bytes)))
}

/// The body that a word and a number spell.
fn body_of(alloc: Global, word: &str, n: u32) -> Option<Values>
    ensures { IfSome result (λ body. AreWellTyped (items_of (all_data body))) }
{
    match word {
        "nested" => one(alloc, nested(alloc, n).ok()?),
        "bytes" => zeros(alloc, n).ok(),
        _ => one(alloc, array_of(alloc, n).ok()?),
    }
}

/// Bodies of a return, how many bytes there are after it was written behind three, and whether it was too big.
const LIMITS: &str = "\
nested 63 => 228 false
nested 64 => 3 true
bytes 0 => 27 false
bytes 255 => 546 false
bytes 256 => 3 true
array 1 => 40 false
array 67108865 => 3 true";

/// Whether writing a return with the body of a row answers what is due.
fn holds(alloc: Global, row: &str) -> bool {
    let (spelled, due) = row.split_once(" => ").unwrap_or((row, ""));
    let (word, n) = spelled.split_once(' ').unwrap_or((spelled, ""));
    let (length, is_big) = due.split_once(' ').unwrap_or((due, ""));
    match body_of(alloc, word, n.parse::<u32>().unwrap_or(0)) {
        Some(body) => {
            written(alloc, body) == (length.parse::<usize>().unwrap_or(0), is_big == "true")
        }
        None => false,
    }
}

#[test]
fn what_passes_a_limit_is_too_big(rt: HostRuntime) {
    for row in LIMITS.lines() {
        assert!(rt; holds(rt.alloc(), row), "{row}");
    }
}
