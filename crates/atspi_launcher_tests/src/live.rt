//! The launcher over a host in memory, with answers of a bus worked out by hand.

ghost use Rattle.std.specs.Prelude.{◌≡◌, [], Some};

use atspi_base::{MemSink, Text};
use atspi_live_host::{Call, Did, Host, MemHost, Peer};
use atspi_live_launcher::launcher;
use std::alloc::Global;
use std::collections::VecDeque;
use std::process::Abort;
use std::test::*;

/// What a server says to a client that names no uid.
const CHALLENGE: &[u8] = b"DATA\x0d\x0a";

/// And then: its number, in 32 hex digits.
const GRANT: &[u8] = b"OK 61747370693200000000000000000001\x0d\x0a";

/// The lines of a client.
const LINES: &[u8] = b"\0AUTH EXTERNAL\x0d\x0aDATA\x0d\x0aBEGIN\x0d\x0a";

/// The call of Hello, with number 1.
const HELLO: &[u8] =
    b"l\x01\0\x01\0\0\0\0\x01\0\0\0m\0\0\0\x01\x01o\0\x15\0\0\0/org/freedesktop/DBus\0\0\0\x02\x01s\0\x14\0\0\0org.freedesktop.DBus\0\0\0\0\x03\x01s\0\x05\0\0\0Hello\0\0\0\x06\x01s\0\x14\0\0\0org.freedesktop.DBus\0\0\0\0";

/// The call of RequestName, with number 2: the launcher's name, and flags 6.
const REQUEST: &[u8] =
    b"l\x01\0\x01\x18\0\0\0\x02\0\0\0\x80\0\0\0\x01\x01o\0\x15\0\0\0/org/freedesktop/DBus\0\0\0\x02\x01s\0\x14\0\0\0org.freedesktop.DBus\0\0\0\0\x03\x01s\0\x0b\0\0\0RequestName\0\0\0\0\0\x06\x01s\0\x14\0\0\0org.freedesktop.DBus\0\0\0\0\x08\x01g\0\x02su\0\x0c\0\0\0org.a11y.Bus\0\0\0\0\x06\0\0\0";

/// The call of GetAddress by `:1.5`, with number 9.
const ASKED: &[u8] =
    b"l\x01\0\x01\0\0\0\0\x09\0\0\0m\0\0\0\x01\x01o\0\x0d\0\0\0/org/a11y/bus\0\0\0\x02\x01s\0\x0c\0\0\0org.a11y.Bus\0\0\0\0\x03\x01s\0\x0a\0\0\0GetAddress\0\0\0\0\0\0\x06\x01s\0\x0c\0\0\0org.a11y.Bus\0\0\0\0\x07\x01s\0\x04\0\0\0:1.5\0\0\0\0";

/// The return to it, with number 3.
const ANSWERED: &[u8] =
    b"l\x02\x01\x01\x15\0\0\0\x03\0\0\0\x1f\0\0\0\x05\x01u\0\x09\0\0\0\x06\x01s\0\x04\0\0\0:1.5\0\0\0\0\x08\x01g\0\x01s\0\0\x10\0\0\0unix:path=/tmp/a\0";

/// The bytes that a call gave on the first link.
fn given_by(call: &Call) -> &[u8] {
    match call {
        Call::Write(0, offered, Did::Done(n)) => {
            let offered = offered.as_slice();
            &offered[..(*n as usize).min(offered.len())]
        }
        _ => &[],
    }
}

/// Whether the calls gave these parts, one behind the other.
fn gave(rt: &impl Abort, alloc: Global, calls: &[Call], parts: &[&[u8]]) -> bool {
    let mut due = Vec::new(alloc);
    for part in parts {
        due.extend_from_slice(part).expect(rt, "memory");
    }
    let mut given = Vec::new(alloc);
    for call in calls {
        given.extend_from_slice(given_by(call)).expect(rt, "memory");
    }
    given.as_slice() == due.as_slice()
}

/// A host with a peer that sends these pieces and ends behind them.
fn host_of(rt: &impl Abort, alloc: Global, parts: &[&[u8]]) -> MemHost
    ensures calls { ⟦<MemHost as Host>⟧.calls result ≡ Some [] }
    ensures links { ⟦<MemHost as Host>⟧.links result ≡ [] }
{
    let mut pieces = VecDeque::new(alloc);
    for part in parts {
        let piece = part.to_vec(alloc).expect(rt, "memory");
        pieces.push_back(piece).expect(rt, "memory");
    }
    let mut peers = Vec::new(alloc);
    peers.push(Peer::new(pieces, true)).expect(rt, "memory");
    MemHost::new(alloc, peers, Vec::new(alloc))
}

#[test]
fn tells_the_address(rt: HostRuntime) {
    let alloc = rt.alloc();
    let parts: &[&[u8]] = &[CHALLENGE, GRANT, ASKED];
    let mut host = host_of(&rt, alloc, parts);
    let mut written = MemSink::new(alloc, Vec::new(alloc));
    let path = Text::of(alloc, "/run/bus").expect(&rt, "memory");
    let address = Text::of(alloc, "unix:path=/tmp/a").expect(&rt, "memory");
    let status = launcher(alloc, &path, address, 9, &mut written, &mut host);
    assert!(rt; status == 0);
    assert!(rt; written.bytes().is_empty());
    let due: &[&[u8]] = &[LINES, HELLO, REQUEST, ANSWERED];
    assert!(rt; gave(&rt, alloc, host.calls().unwrap_or(&[]), due));
}
