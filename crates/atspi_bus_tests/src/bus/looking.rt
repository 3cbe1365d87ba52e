//! What connections receive, and what the bus tells of closings and of its own messages.

use atspi_base::{Bytes, put_decimal};
use atspi_bus::Bus;
use atspi_bus_cases::lent;
use atspi_match::routing::Why;
use atspi_message::total;
use atspi_script::message_text;
use std::alloc::Global;
use std::process::Abort;

/// Appends a text.
pub(crate) fn put(rt: &impl Abort, out: &mut Bytes, text: &str) {
    out.extend(text.as_bytes()).expect(rt, "memory");
}

/// Appends a number behind a blank.
pub(crate) fn put_number(rt: &impl Abort, out: &mut Bytes, n: u32) {
    put(rt, out, " ");
    put_decimal(u64::from(n), out).expect(rt, "memory");
}

/// All bytes that wait for a connection, which are taken out.
pub(crate) fn taken(rt: &impl Abort, alloc: Global, bus: &mut Bus, conn: u32) -> Vec<u8> {
    let mut all = Vec::new(alloc);
    for _ in 0..bus.waiting(conn) {
        let waiting = bus.waiting(conn) as usize;
        let piece = bus.front(conn);
        let length = piece.len().min(waiting) as u32;
        all.extend_from_slice(piece).expect(rt, "memory");
        bus.pop(conn, length);
        if length == 0 {
            break;
        }
    }
    all
}

/// Appends a line for the message at the front of some bytes, and gives the bytes behind it.
fn put_first<'a>(rt: &impl Abort, bytes: &'a [u8], out: &mut Bytes) -> &'a [u8] {
    let first = bytes.first_chunk::<16>().expect(rt, "a front");
    let length = total(first).expect(rt, "a length") as usize;
    assert!(rt; length <= bytes.len());
    let (message, rest) = bytes.split_at(length);
    put(rt, out, "> ");
    let message = lent(message).expect(rt, "a message");
    message_text(&message, out).expect(rt, "memory");
    put(rt, out, "\n");
    rest
}

/// Appends what a connection receives, a line for each message, which is taken out, or that it is nothing.
pub(crate) fn put_received(
    rt: &impl Abort,
    alloc: Global,
    bus: &mut Bus,
    conn: u32,
    out: &mut Bytes,
) {
    let bytes = taken(rt, alloc, bus, conn);
    let mut rest: &[u8] = &bytes;
    for _ in 0..bytes.len() {
        if !rest.is_empty() {
            rest = put_first(rt, rest, out);
        }
    }
    if bytes.is_empty() {
        put(rt, out, "> nothing\n");
    }
}

/// Appends why a connection is closed.
fn put_why(rt: &impl Abort, why: Why, out: &mut Bytes) {
    match why {
        Why::NotHello => put(rt, out, " not-hello"),
        Why::Quota { queued, len } => {
            put(rt, out, " quota");
            put_number(rt, out, queued);
            put_number(rt, out, len);
        }
    }
}

/// Appends the closings, a line for each.
pub(crate) fn put_closings(rt: &impl Abort, bus: &mut Bus, out: &mut Bytes) {
    for _ in 0..100 {
        if let Some(closing) = bus.closed() {
            put(rt, out, "> closed");
            put_number(rt, out, closing.conn);
            put_why(rt, closing.why, out);
            put(rt, out, " after");
            put_number(rt, out, closing.after);
            put(rt, out, "\n");
        }
    }
    put(rt, out, "> no closing\n");
}

/// Appends the serials of the bus's own messages, in one line.
pub(crate) fn put_own(rt: &impl Abort, bus: &mut Bus, out: &mut Bytes) {
    put(rt, out, "> own");
    for _ in 0..100 {
        if let Some(message) = bus.own() {
            put_number(rt, out, message.serial);
        }
    }
    put(rt, out, "\n");
}
