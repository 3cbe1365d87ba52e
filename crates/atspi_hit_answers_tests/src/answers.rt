//! Replies as texts, and calls that are at fault.

use crate::room::{Room, worked};
use atspi_base::Bytes;
use atspi_base::valid_names::{BusName, Interface, Member, Path};
use atspi_hit_answers::{Ask, answer, reply};
use atspi_message::Message;
use atspi_protocol::ends::call_to;
use atspi_trace_texts::messages::message_text;
use atspi_types::{Value, Values};
use std::alloc::Global;
use std::test::*;

/// Whether a message has this text.
fn is_told(alloc: Global, message: &Message, text: &str) -> Option<bool> {
    let mut out = Bytes::new(alloc);
    message_text(message, &mut out).ok()?;
    Some(out.as_slice() == text.as_bytes())
}

/// Whether the reply for a node has this text.
fn tells(alloc: Global, room: &Room, node: u32, ask: Ask, serial: u32, text: &str) -> Option<bool> {
    let caller = BusName::read(alloc, b":1.0").ok()?;
    let message = reply(
        alloc,
        &room.tree,
        &room.layout,
        &room.name,
        node,
        ask,
        caller,
        serial,
        serial,
    );
    is_told(alloc, &message.ok()?, text)
}

/// The replies of the room, by the form of a message's text.
#[test]
fn replies(rt: HostRuntime) {
    let alloc = rt.alloc();
    let room = worked(alloc).expect(&rt, "memory");
    let rows = [
        (
            0,
            Ask::AccessibleAtPoint { x: 25, y: 25 },
            "return l 1 1 reply=1 destination=:1.0 signature=(so) [(\":1.1\" \"/org/a11y/atspi/accessible/3\")]",
        ),
        (
            0,
            Ask::AccessibleAtPoint { x: 15, y: 15 },
            "return l 1 2 reply=2 destination=:1.0 signature=(so) [(\":1.1\" \"/org/a11y/atspi/accessible/2\")]",
        ),
        (
            0,
            Ask::AccessibleAtPoint { x: 59, y: 59 },
            "return l 1 3 reply=3 destination=:1.0 signature=(so) [(\":1.1\" \"/org/a11y/atspi/accessible/1\")]",
        ),
        (
            0,
            Ask::AccessibleAtPoint { x: 100, y: 0 },
            "return l 1 4 reply=4 destination=:1.0 signature=(so) [(\":1.1\" \"/org/a11y/atspi/null\")]",
        ),
        (
            3,
            Ask::Extents,
            "return l 1 5 reply=5 destination=:1.0 signature=(iiii) [(20 20 30 30)]",
        ),
        (
            2,
            Ask::Contains { x: 40, y: 40 },
            "return l 1 6 reply=6 destination=:1.0 signature=b [false]",
        ),
        (
            2,
            Ask::Contains { x: 39, y: 39 },
            "return l 1 7 reply=7 destination=:1.0 signature=b [true]",
        ),
        (
            0,
            Ask::AccessibleAtPoint { x: 1, y: 1 },
            "return l 1 8 reply=8 destination=:1.0 signature=(so) [(\":1.1\" \"/org/a11y/atspi/accessible/root\")]",
        ),
        (
            9,
            Ask::Extents,
            "error l 1 9 error=org.freedesktop.DBus.Error.UnknownObject reply=9 destination=:1.0 signature=s [\"UnknownObject\"]",
        ),
    ];
    let mut serial = 0u32;
    for (node, ask, text) in rows {
        serial = serial.saturating_add(1);
        let told = tells(alloc, &room, node, ask, serial, text).expect(&rt, "memory");
        assert!(rt; told, "reply {serial}");
    }
}

/// A call of Component with this path, member and body, from `:1.0`.
fn call(alloc: Global, path: &str, member: &str, body: Values) -> Option<Message> {
    let mut call = call_to(
        BusName::read(alloc, b":1.1").ok()?,
        Path::read(alloc, path.as_bytes()).ok()?,
        Interface::read(alloc, b"org.a11y.atspi.Component").ok()?,
        Member::read(alloc, member.as_bytes()).ok()?,
        body,
    );
    call.serial = 77;
    call.sender = Some(BusName::read(alloc, b":1.0").ok()?);
    Some(call)
}

/// A point as arguments, with a coordinate type.
fn point(alloc: Global, x: i32, y: i32, kind: u32) -> Option<Values> {
    let mut body = Values::new(alloc);
    body.push(Value::I32(x)).ok()?;
    body.push(Value::I32(y)).ok()?;
    body.push(Value::U32(kind)).ok()?;
    Some(body)
}

/// A coordinate type as the only argument.
fn kind(alloc: Global, kind: u32) -> Option<Values> {
    let mut body = Values::new(alloc);
    body.push(Value::U32(kind)).ok()?;
    Some(body)
}

/// Whether a call is answered with this text behind the message's serial.
fn answers(alloc: Global, path: &str, member: &str, body: Values, text: &str) -> Option<bool> {
    let room = worked(alloc)?;
    let call = call(alloc, path, member, body)?;
    let Some(_) = &call.sender else {
        return None;
    };
    let message = answer(alloc, &room.tree, &room.layout, &room.name, &call, 5).ok()?;
    is_told(alloc, &message, text)
}

/// The path of the panel.
const PANEL: &str = "/org/a11y/atspi/accessible/1";

/// Each member once.
#[test]
fn members(rt: HostRuntime) {
    let alloc = rt.alloc();
    let body = point(alloc, 10, 59, 0).expect(&rt, "memory");
    let yes = "return l 1 5 reply=77 destination=:1.0 signature=b [true]";
    let told = answers(alloc, PANEL, "Contains", body, yes).expect(&rt, "memory");
    assert!(rt; told);
    let body = point(alloc, 15, 15, 0).expect(&rt, "memory");
    let second =
        "return l 1 5 reply=77 destination=:1.0 signature=(so) [(\":1.1\" \"/org/a11y/atspi/accessible/2\")]";
    let told = answers(alloc, PANEL, "GetAccessibleAtPoint", body, second).expect(&rt, "memory");
    assert!(rt; told);
    let body = kind(alloc, 0).expect(&rt, "memory");
    let extents = "return l 1 5 reply=77 destination=:1.0 signature=(iiii) [(10 10 50 50)]";
    let told = answers(alloc, PANEL, "GetExtents", body, extents).expect(&rt, "memory");
    assert!(rt; told);
}

/// Whether a call is refused with this word.
fn is_refused(alloc: Global, path: &str, member: &str, body: Values, word: &str) -> Option<bool> {
    let text = format!(in alloc;
        "error l 1 5 error=org.freedesktop.DBus.Error.{word} reply=77 destination=:1.0 signature=s [\"{word}\"]"
    ).ok()?;
    answers(alloc, path, member, body, text.as_str())
}

/// The path is judged first, then the member, then the arguments.
#[test]
fn faults(rt: HostRuntime) {
    let alloc = rt.alloc();
    let body = kind(alloc, 1).expect(&rt, "memory");
    let told = is_refused(
        alloc,
        "/org/a11y/atspi/accessible/4",
        "GetSize",
        body,
        "UnknownObject",
    );
    assert!(rt; told.expect(&rt, "memory"));
    let body = kind(alloc, 1).expect(&rt, "memory");
    let told = is_refused(
        alloc,
        "/org/a11y/atspi/accessible/01",
        "GetExtents",
        body,
        "UnknownObject",
    );
    assert!(rt; told.expect(&rt, "memory"));
    let body = kind(alloc, 1).expect(&rt, "memory");
    let told = is_refused(alloc, PANEL, "GetSize", body, "UnknownMethod");
    assert!(rt; told.expect(&rt, "memory"));
    let body = kind(alloc, 1).expect(&rt, "memory");
    let told = is_refused(alloc, PANEL, "GetExtents", body, "InvalidArgs");
    assert!(rt; told.expect(&rt, "memory"));
    let body = point(alloc, 1, 1, 1).expect(&rt, "memory");
    let told = is_refused(alloc, PANEL, "Contains", body, "InvalidArgs");
    assert!(rt; told.expect(&rt, "memory"));
    let body = kind(alloc, 0).expect(&rt, "memory");
    let told = is_refused(alloc, PANEL, "GetAccessibleAtPoint", body, "InvalidArgs");
    assert!(rt; told.expect(&rt, "memory"));
    let body = point(alloc, 1, 1, 0).expect(&rt, "memory");
    let told = is_refused(alloc, PANEL, "GetExtents", body, "InvalidArgs");
    assert!(rt; told.expect(&rt, "memory"));
}
