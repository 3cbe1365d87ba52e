//! The reader over a host in memory, with answers of a bus worked out by hand.

use crate::hosts::{NEVER, Run, host_of, joined, path, run_of};
use atspi_base::MemSink;
use atspi_live_reader::read;
use std::alloc::Global;
use std::process::Abort;
use std::test::*;

const CHALLENGE: &[u8] = b"DATA\x0d\x0a";

const GRANT: &[u8] = b"OK 61747370693200000000000000000001\x0d\x0a";

/// The lines of a client.
const LINES: &[u8] = b"\0AUTH EXTERNAL\x0d\x0aDATA\x0d\x0aBEGIN\x0d\x0a";

/// The call of Hello, with number 1.
const HELLO: &[u8] =
    b"l\x01\0\x01\0\0\0\0\x01\0\0\0m\0\0\0\x01\x01o\0\x15\0\0\0/org/freedesktop/DBus\0\0\0\x02\x01s\0\x14\0\0\0org.freedesktop.DBus\0\0\0\0\x03\x01s\0\x05\0\0\0Hello\0\0\0\x06\x01s\0\x14\0\0\0org.freedesktop.DBus\0\0\0\0";

/// The call of AddMatch, with number 2: news of owners.
const MATCH: &[u8] =
    b"l\x01\0\x01M\0\0\0\x02\0\0\0\x7f\0\0\0\x01\x01o\0\x15\0\0\0/org/freedesktop/DBus\0\0\0\x02\x01s\0\x14\0\0\0org.freedesktop.DBus\0\0\0\0\x03\x01s\0\x08\0\0\0AddMatch\0\0\0\0\0\0\0\0\x06\x01s\0\x14\0\0\0org.freedesktop.DBus\0\0\0\0\x08\x01g\0\x01s\0\0H\0\0\0type='signal',interface='org.freedesktop.DBus',member='NameOwnerChanged'\0";

/// The bus's return to Hello: the unique name `:1.0`.
const NAMED: &[u8] =
    b"l\x02\x01\x01\x09\0\0\0\x01\0\0\0?\0\0\0\x05\x01u\0\x01\0\0\0\x06\x01s\0\x04\0\0\0:1.0\0\0\0\0\x07\x01s\0\x14\0\0\0org.freedesktop.DBus\0\0\0\0\x08\x01g\0\x01s\0\0\x04\0\0\0:1.0\0";

/// A return without a body: what stands before its number, between that and the number of the call, and behind that.
const ANSWER: [&[u8]; 3] = [
    b"l\x02\x01\x01\0\0\0\0",
    b"5\0\0\0\x05\x01u\0",
    b"\0\0\0\x06\x01s\0\x04\0\0\0:1.0\0\0\0\0\x07\x01s\0\x14\0\0\0org.freedesktop.DBus\0\0\0\0",
];

/// The registry's return to GetChildren, which has number 10: the root of `:1.2`.
const CHILDREN: &[u8] =
    b"l\x02\x01\x018\0\0\0\x0c\0\0\03\0\0\0\x05\x01u\0\x0a\0\0\0\x06\x01s\0\x04\0\0\0:1.0\0\0\0\0\x07\x01s\0\x04\0\0\0:1.1\0\0\0\0\x08\x01g\0\x05a(so)\0\0\0\0\0\00\0\0\0\0\0\0\0\x04\0\0\0:1.2\0\0\0\0\x1f\0\0\0/org/a11y/atspi/accessible/root\0";

/// The return of `:1.2` to GetItems, which has number 11: its root, an application with the name Demo.
const ITEMS: &[u8] =
    b"l\x02\x01\x01\x08\x01\0\0\x04\0\0\0F\0\0\0\x05\x01u\0\x0b\0\0\0\x06\x01s\0\x04\0\0\0:1.0\0\0\0\0\x07\x01s\0\x04\0\0\0:1.2\0\0\0\0\x08\x01g\0\x18a((so)(so)(so)iiassusau)\0\0\0\0\x01\0\0\0\0\0\0\x04\0\0\0:1.2\0\0\0\0\x1f\0\0\0/org/a11y/atspi/accessible/root\0\x04\0\0\0:1.2\0\0\0\0\x1f\0\0\0/org/a11y/atspi/accessible/root\0\x04\0\0\0:1.1\0\0\0\0\x1f\0\0\0/org/a11y/atspi/accessible/root\0\0\0\0\0\0\0\0\0?\0\0\0\x19\0\0\0org.a11y.atspi.Accessible\0\0\0\x1a\0\0\0org.a11y.atspi.Application\0\0\x04\0\0\0Demo\0\0\0\0K\0\0\0\0\0\0\0\0\0\0\0\x08\0\0\0\0\x01\0C\0\0\0\0";

/// The bus tells that the connection `:1.2` has ended.
const GONE: &[u8] =
    b"l\x04\x01\x01\x1d\0\0\0\x14\0\0\0\x89\0\0\0\x01\x01o\0\x15\0\0\0/org/freedesktop/DBus\0\0\0\x02\x01s\0\x14\0\0\0org.freedesktop.DBus\0\0\0\0\x03\x01s\0\x10\0\0\0NameOwnerChanged\0\0\0\0\0\0\0\0\x07\x01s\0\x14\0\0\0org.freedesktop.DBus\0\0\0\0\x08\x01g\0\x03sss\0\0\0\0\0\0\0\0\x04\0\0\0:1.2\0\0\0\0\x04\0\0\0:1.2\0\0\0\0\0\0\0\0\0";

/// The front of a call whose number is 0.
const FAULTY: &[u8] = b"l\x01\0\x01\0\0\0\0\0\0\0\0m\0\0\0";

/// The reader does so many rounds with a peer that sends these pieces; the call with this number fails.
fn run_with(
    rt: &impl Abort,
    alloc: Global,
    parts: &[&[u8]],
    ends: bool,
    failing: u64,
    rounds: u32,
) -> Run {
    let mut host = host_of(rt, alloc, parts, ends, failing);
    let mut written = MemSink::new(alloc, Vec::new(alloc));
    let path = path(rt, alloc);
    let status = read(alloc, &path, rounds, &mut written, &mut host);
    run_of(rt, alloc, status, written, &host)
}

#[test]
fn starts(rt: HostRuntime) {
    let alloc = rt.alloc();
    let run = run_with(&rt, alloc, &[CHALLENGE, GRANT, NAMED], true, NEVER, 9);
    let due = joined(&rt, alloc, &[LINES, HELLO, MATCH]);
    assert!(rt; run.is(0, due.as_slice(), b""));
}

/// The return to the call with this number.
fn answer(rt: &impl Abort, number: u8, bytes: &mut Vec<u8>) {
    let [front, middle, rest] = ANSWER;
    bytes.extend_from_slice(front).expect(rt, "memory");
    bytes.push(number).expect(rt, "memory");
    bytes.extend_from_slice(b"\0\0\0").expect(rt, "memory");
    bytes.extend_from_slice(middle).expect(rt, "memory");
    bytes.push(number).expect(rt, "memory");
    bytes.extend_from_slice(rest).expect(rt, "memory");
}

/// The returns to the calls with the numbers 2 to 9.
fn answers(rt: &impl Abort, alloc: Global) -> Vec<u8> {
    let mut bytes = Vec::new(alloc);
    for number in 2u8..10 {
        answer(rt, number, &mut bytes);
    }
    bytes
}

#[test]
fn shows_what_it_holds(rt: HostRuntime) {
    let alloc = rt.alloc();
    let answers = answers(&rt, alloc);
    let parts: &[&[u8]] = &[CHALLENGE, GRANT, NAMED, &answers, CHILDREN, ITEMS];
    let due = b"show :1.2 1\n| root - -1 application 0000000043000100 \"Demo\" \"\" - - - -\n";
    assert!(rt; run_with(&rt, alloc, parts, true, NEVER, 20).wrote(0, due));
    // with one read fewer the peer has not ended yet
    assert!(rt; run_with(&rt, alloc, parts, true, NEVER, 6).wrote(8, b""));
}

#[test]
fn is_not_connected(rt: HostRuntime) {
    assert!(rt; run_with(&rt, rt.alloc(), &[], false, 0, 5).status == 7);
}

#[test]
fn is_rejected(rt: HostRuntime) {
    let parts: &[&[u8]] = &[CHALLENGE, b"REJECTED EXTERNAL\r\n"];
    assert!(rt; run_with(&rt, rt.alloc(), parts, false, NEVER, 5).status == 10);
}

#[test]
fn a_message_is_malformed(rt: HostRuntime) {
    let parts: &[&[u8]] = &[CHALLENGE, GRANT, FAULTY];
    assert!(rt; run_with(&rt, rt.alloc(), parts, false, NEVER, 5).wrote(6, b"fault 0 8 26\n"));
}

/// A reader hears in one piece of an application, what that holds, and that it has ended; and then some bytes more.
fn run_to_a_stop(rt: &impl Abort, alloc: Global, behind: &[u8], failing: u64) -> Run {
    let answers = answers(rt, alloc);
    let last = joined(rt, alloc, &[CHILDREN, ITEMS, GONE, behind]);
    let parts: &[&[u8]] = &[CHALLENGE, GRANT, NAMED, &answers, &last];
    run_with(rt, alloc, parts, false, failing, 20)
}

#[test]
fn speaks_up_to_a_fault(rt: HostRuntime) {
    let due = b"say :1.2 \"Demo, closed\"\nfault 1334 8 26\n";
    assert!(rt; run_to_a_stop(&rt, rt.alloc(), FAULTY, NEVER).wrote(6, due));
}

#[test]
fn speaks_though_a_write_fails(rt: HostRuntime) {
    // the write of the round in which the line is spoken: a connect, and then a read and a write in each of five rounds
    let due = b"say :1.2 \"Demo, closed\"\n";
    assert!(rt; run_to_a_stop(&rt, rt.alloc(), b"", 10).wrote(7, due));
}

#[test]
fn does_its_rounds(rt: HostRuntime) {
    assert!(rt; run_with(&rt, rt.alloc(), &[CHALLENGE], false, NEVER, 5).status == 8);
}
