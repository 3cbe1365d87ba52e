//! Tables: what connections do, line by line, and what comes of it.

use crate::bus::letters::{letter, number};
use crate::bus::longest::longest;
use crate::bus::looking::{put, put_closings, put_number, put_own, put_received, taken};
use atspi_base::Bytes;
use atspi_bus::Bus;
use atspi_bus_cases::{Letter, lent, write};
use std::alloc::Global;
use std::process::Abort;

/// Takes a message of a connection.
fn take(rt: &impl Abort, bus: &mut Bus, conn: u32, bytes: &[u8]) {
    let message = lent(bytes).expect(rt, "a message");
    bus.take(conn, &message).expect(rt, "memory");
}

/// Takes a letter of a connection.
fn send(rt: &impl Abort, alloc: Global, bus: &mut Bus, conn: u32, letter: &Letter) {
    let mut bytes = Bytes::new(alloc);
    write(&mut bytes, letter).expect(rt, "a letter");
    take(rt, bus, conn, bytes.as_slice());
}

/// Takes a message of hexadecimal digits.
fn send_raw(rt: &impl Abort, alloc: Global, bus: &mut Bus, conn: u32, digits: &str) {
    let bytes = hex::decode(alloc, digits).expect(rt, "digits");
    take(rt, bus, conn, &bytes);
}

/// What a line does of a connection.
fn step(rt: &impl Abort, alloc: Global, bus: &mut Bus, line: &str, out: &mut Bytes) {
    let mut words = line.split_whitespace();
    let word = words.next().unwrap_or("");
    let conn = number(rt, &mut words);
    match word {
        "leave" => bus.leave(conn).expect(rt, "memory"),
        "read" => put_received(rt, alloc, bus, conn, out),
        "skip" => {
            taken(rt, alloc, bus, conn);
        }
        "waiting" => {
            put(rt, out, ">");
            put_number(rt, out, bus.waiting(conn));
            put(rt, out, " bytes\n");
        }
        "raw" => send_raw(rt, alloc, bus, conn, words.next().unwrap_or("")),
        "longest" => take(rt, bus, conn, longest(rt, alloc).as_slice()),
        _ => send(rt, alloc, bus, conn, &letter(rt, word, &mut words)),
    }
}

/// What a line does.
fn act(rt: &impl Abort, alloc: Global, bus: &mut Bus, line: &str, out: &mut Bytes) {
    match line {
        "join" => assert!(rt; bus.join().is_ok()),
        "closings" => put_closings(rt, bus, out),
        "own" => put_own(rt, bus, out),
        _ => step(rt, alloc, bus, line, out),
    }
}

/// Does the lines of a table that do not begin with `>`, and appends each of them and what it tells.
fn play_on(rt: &impl Abort, alloc: Global, bus: &mut Bus, table: &str, out: &mut Bytes) {
    for line in table.lines() {
        if !line.starts_with("> ") {
            put(rt, out, line);
            put(rt, out, "\n");
            act(rt, alloc, bus, line, out);
        }
    }
}

/// Does the lines of a table on a bus with a quota: what they tell is what the table says behind each of them. The
/// lines are `join`; `bus C SERIAL MEMBER [TEXT [NUMBER]]`, `call`, `signal` and `other C SERIAL TO MEMBER [TEXT]`,
/// `return` and `error C SERIAL TO REPLY`, with `-` for no destination and `-quiet` for flag 1; `raw C DIGITS`;
/// `longest C`; `leave C`; `read C`, `skip C`, `waiting C`; `closings`; `own`.
pub(crate) fn play(rt: &impl Abort, alloc: Global, quota: u32, due: &str) {
    let mut bus = Bus::new(alloc, quota);
    let mut out = Bytes::new(alloc);
    play_on(rt, alloc, &mut bus, due, &mut out);
    let told = std::str::from_utf8(out.as_slice()).unwrap_or("no text");
    assert!(rt; told == due, "{told}");
}
