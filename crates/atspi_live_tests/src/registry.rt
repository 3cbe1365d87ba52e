//! The registry over a host in memory, with answers of a bus worked out by hand.

use crate::hosts::{NEVER, Run, host_of, joined, path, run_of};
use atspi_base::MemSink;
use atspi_live_registry::registry;
use std::alloc::Global;
use std::process::Abort;
use std::test::*;

/// What a server says to a client that names no uid.
const CHALLENGE: &[u8] = b"DATA\x0d\x0a";

/// And then: its number, in 32 hex digits.
const GRANT: &[u8] = b"OK 61747370693200000000000000000001\x0d\x0a";

/// The first line of a client.
const HAIL: &[u8] = b"\0AUTH EXTERNAL\x0d\x0a";

/// The last.
const BEGIN: &[u8] = b"BEGIN\x0d\x0a";

/// The call of Hello, with number 1.
const HELLO: &[u8] =
    b"l\x01\0\x01\0\0\0\0\x01\0\0\0m\0\0\0\x01\x01o\0\x15\0\0\0/org/freedesktop/DBus\0\0\0\x02\x01s\0\x14\0\0\0org.freedesktop.DBus\0\0\0\0\x03\x01s\0\x05\0\0\0Hello\0\0\0\x06\x01s\0\x14\0\0\0org.freedesktop.DBus\0\0\0\0";

/// The call of RequestName, with number 2: the registry's name, and flags 4.
const REQUEST: &[u8] =
    b"l\x01\0\x01 \0\0\0\x02\0\0\0\x80\0\0\0\x01\x01o\0\x15\0\0\0/org/freedesktop/DBus\0\0\0\x02\x01s\0\x14\0\0\0org.freedesktop.DBus\0\0\0\0\x03\x01s\0\x0b\0\0\0RequestName\0\0\0\0\0\x06\x01s\0\x14\0\0\0org.freedesktop.DBus\0\0\0\0\x08\x01g\0\x02su\0\x17\0\0\0org.a11y.atspi.Registry\0\x04\0\0\0";

/// The call of AddMatch, with number 3: news of owners.
const MATCH: &[u8] =
    b"l\x01\0\x01M\0\0\0\x03\0\0\0\x7f\0\0\0\x01\x01o\0\x15\0\0\0/org/freedesktop/DBus\0\0\0\x02\x01s\0\x14\0\0\0org.freedesktop.DBus\0\0\0\0\x03\x01s\0\x08\0\0\0AddMatch\0\0\0\0\0\0\0\0\x06\x01s\0\x14\0\0\0org.freedesktop.DBus\0\0\0\0\x08\x01g\0\x01s\0\0H\0\0\0type='signal',interface='org.freedesktop.DBus',member='NameOwnerChanged'\0";

/// The bus's return to Hello: the unique name `:1.0`.
const NAMED: &[u8] =
    b"l\x02\x01\x01\x09\0\0\0\x01\0\0\0?\0\0\0\x05\x01u\0\x01\0\0\0\x06\x01s\0\x04\0\0\0:1.0\0\0\0\0\x07\x01s\0\x14\0\0\0org.freedesktop.DBus\0\0\0\0\x08\x01g\0\x01s\0\0\x04\0\0\0:1.0\0";

/// The call of GetRegisteredEvents by `:1.5`, with number 9.
const ASKED: &[u8] =
    b"l\x01\0\x01\0\0\0\0\x09\0\0\0\x95\0\0\0\x01\x01o\0\x18\0\0\0/org/a11y/atspi/registry\0\0\0\0\0\0\0\0\x02\x01s\0\x17\0\0\0org.a11y.atspi.Registry\0\x03\x01s\0\x13\0\0\0GetRegisteredEvents\0\0\0\0\0\x06\x01s\0\x17\0\0\0org.a11y.atspi.Registry\0\x07\x01s\0\x04\0\0\0:1.5\0\0\0\0";

/// The return to it, with number 4: no pairs.
const ANSWERED: &[u8] =
    b"l\x02\x01\x01\x08\0\0\0\x04\0\0\0#\0\0\0\x05\x01u\0\x09\0\0\0\x06\x01s\0\x04\0\0\0:1.5\0\0\0\0\x08\x01g\0\x05a(ss)\0\0\0\0\0\0\0\0\0\0\0\0\0\0";

/// The registry does so many rounds with a peer that sends these pieces; the call with this number fails.
fn run_with(
    rt: &impl Abort,
    alloc: Global,
    parts: &[&[u8]],
    ends: bool,
    failing: u64,
    rounds: u32,
) -> Run {
    let mut host = host_of(rt, alloc, parts, ends, failing);
    let mut written = MemSink::new(alloc, Vec::new(alloc));
    let path = path(rt, alloc);
    let status = registry(alloc, &path, rounds, &mut written, &mut host);
    run_of(rt, alloc, status, written, &host)
}

#[test]
fn registers_and_answers(rt: HostRuntime) {
    let alloc = rt.alloc();
    // a pause behind the challenge, and the bus's first message is cut
    let third = joined(&rt, alloc, &[GRANT, &NAMED[..10]]);
    let fourth = joined(&rt, alloc, &[&NAMED[10..], ASKED]);
    let run = run_with(
        &rt,
        alloc,
        &[CHALLENGE, b"", &third, &fourth],
        true,
        NEVER,
        10,
    );
    let due: &[&[u8]] = &[HAIL, CHALLENGE, BEGIN, HELLO, REQUEST, MATCH, ANSWERED];
    let due = joined(&rt, alloc, due);
    assert!(rt; run.is(0, due.as_slice(), b""));
    // a connect, five reads and three writes: nothing waits in the second round, and in the last the peer has ended
    assert!(rt; run.calls == 9);
}

#[test]
fn does_its_rounds(rt: HostRuntime) {
    let run = run_with(&rt, rt.alloc(), &[], false, NEVER, 3);
    assert!(rt; run.is(8, HAIL, b""));
    // a connect, three reads, and a write in the first round
    assert!(rt; run.calls == 5);
}

#[test]
fn is_not_connected(rt: HostRuntime) {
    let run = run_with(&rt, rt.alloc(), &[], false, 0, 3);
    assert!(rt; run.is(7, b"", b""));
    assert!(rt; run.calls == 1);
}

#[test]
fn a_write_fails(rt: HostRuntime) {
    let run = run_with(&rt, rt.alloc(), &[CHALLENGE], false, 2, 3);
    assert!(rt; run.is(7, b"", b""));
    assert!(rt; run.calls == 3);
}

#[test]
fn is_rejected(rt: HostRuntime) {
    let parts: &[&[u8]] = &[CHALLENGE, b"REJECTED EXTERNAL\r\n"];
    let run = run_with(&rt, rt.alloc(), parts, false, NEVER, 9);
    assert!(rt; run.is(10, b"\0AUTH EXTERNAL\r\nDATA\r\n", b""));
}

#[test]
fn a_message_is_malformed(rt: HostRuntime) {
    let alloc = rt.alloc();
    // behind a whole message of 89 bytes, 16 bytes that begin with no order of bytes
    let unordered = b"x\x01\0\x01\0\0\0\0\x01\0\0\0\0\0\0\0";
    let parts: &[&[u8]] = &[CHALLENGE, GRANT, NAMED, unordered];
    let run = run_with(&rt, alloc, parts, false, NEVER, 9);
    let due = joined(&rt, alloc, &[HAIL, CHALLENGE, BEGIN, HELLO, REQUEST, MATCH]);
    assert!(rt; run.is(6, due.as_slice(), b"fault 89 0 22\n"));
}

#[test]
fn the_peer_ends_at_once(rt: HostRuntime) {
    let run = run_with(&rt, rt.alloc(), &[], true, NEVER, 3);
    assert!(rt; run.status == 0);
    assert!(rt; run.calls == 2);
}
