//! Each member called with one value, of each type that words cannot say: numbers of other widths, and a double. Each
//! call is refused. (A value of the type of descriptors makes bytes no message.)

use crate::others::{MEMBERS, put_front};
use crate::plays::begun;
use crate::tables::example;
use atspi_app::{AppEvent, Application};
use atspi_app_cases::play;
use atspi_base::Bytes;
use atspi_message::Message;
use atspi_message_cases::{bytes_of, lent};
use std::alloc::Global;

/// The codes of the types, and how many bytes a value has.
const TYPES: [(u8, usize); 6] = [
    (b'y', 1),
    (b'n', 2),
    (b'q', 2),
    (b'x', 8),
    (b't', 8),
    (b'd', 8),
];

/// Sets bytes that are there.
fn set(out: &mut Bytes, at: usize, bytes: &[u8]) -> Option<()> {
    if out.len() < at.checked_add(bytes.len())? {
        return None;
    }
    out.set(at, bytes);
    Some(())
}

/// Appends to a message without values, whose fields end at a multiple of eight, the field of a value's type, and the
/// value, so many zeros.
fn put_value(out: &mut Bytes, code: u8, size: usize) -> Option<()> {
    out.extend(&[8, 1, b'g', 0, 1, code, 0]).ok()?;
    let fields = u32::try_from(out.len().checked_sub(16)?).ok()?;
    set(out, 12, &fields.to_le_bytes())?;
    for _zero in 0..size.saturating_add(1) {
        out.push(0).ok()?;
    }
    let length = u32::try_from(size).ok()?;
    set(out, 4, &length.to_le_bytes())
}

/// A call of a member with such a value.
fn call_with(alloc: Global, line: &str, code: u8, size: usize) -> Option<Bytes> {
    let mut words = String::from_str(alloc, "call 5 :1.6 ").ok()?;
    put_front(&mut words, line, 3)?;
    let mut out = bytes_of(alloc, &words)?;
    match put_value(&mut out, code, size) {
        Some(()) => Some(out),
        None => None,
    }
}

/// Whether a message is the error that the values are wrong.
fn is_refusal(message: &Message) -> bool {
    match &message.error {
        Some(name) => name.as_str() == "org.freedesktop.DBus.Error.InvalidArgs",
        None => false,
    }
}

/// Whether what happened is that such an error is sent.
fn is_refused(event: Option<AppEvent>) -> bool {
    match event {
        Some(AppEvent::Send(message)) => is_refusal(&message),
        _ => false,
    }
}

/// Whether an application answers a message by such an error alone.
fn refuses<A: Application>(alloc: Global, app: &mut A, bytes: &[u8]) -> Option<bool>
    requires app { A.is_app app.old }
    ensures app { A.is_app app.new }
{
    let message = lent(bytes)?;
    app.take(alloc, &message).ok()?;
    let refused = is_refused(app.next());
    Some(refused && app.next().is_none())
}

/// Whether an application refuses a call of a member with a value of each type.
fn refuses_all<A: Application>(alloc: Global, app: &mut A, line: &str) -> Option<bool>
    requires app { A.is_app app.old }
    ensures app { A.is_app app.new }
{
    for (code, size) in TYPES {
        let bytes = call_with(alloc, line, code, size)?;
        if !refuses(alloc, app, bytes.as_slice())? {
            return Some(false);
        }
    }
    Some(true)
}

/// Whether an application gets the example, and refuses such calls of each member.
fn refuses_each<A: Application>(alloc: Global, app: &mut A) -> Option<bool>
    requires app { A.is_app app.old }
    ensures app { A.is_app app.new }
{
    let script = example(alloc)?;
    let mut told = Bytes::new(alloc);
    play(alloc, app, &script, &mut told)?;
    for line in MEMBERS.lines() {
        if !refuses_all(alloc, app, line)? {
            return Some(false);
        }
    }
    Some(true)
}

/// Whether a new application does.
fn refuses_anew(alloc: Global) -> Option<bool> {
    match begun(alloc) {
        Some(mut app) => refuses_each(alloc, &mut app),
        None => None,
    }
}

/// Each type at each member.
#[test]
fn numbers_of_other_widths_are_refused(rt: HostRuntime) {
    let refused = refuses_anew(rt.alloc());
    assert!(rt; refused == Some(true));
}
