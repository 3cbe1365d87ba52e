//! A stranger at the live bus, beside a client that keeps the rules.

use crate::links::{closed, given, host_of, path, put_pieces};
use atspi_live_bus::bus;
use atspi_live_host::{MemHost, Peer};
use std::alloc::Global;
use std::collections::VecDeque;
use std::process::Abort;

/// What a client sends first: the zero byte and its lines.
const LOGIN: &[u8] = b"\0AUTH EXTERNAL 31303030\r\nBEGIN\r\n";

/// What it is answered.
pub const GRANT: &[u8] = b"OK 61747370693200000000000000000001\r\n";

/// The call of Hello, with number 1.
const HELLO: &[u8] =
    b"l\x01\0\x01\0\0\0\0\x01\0\0\0m\0\0\0\x01\x01o\0\x15\0\0\0/org/freedesktop/DBus\0\0\0\x02\x01s\0\x14\0\0\0org.freedesktop.DBus\0\0\0\0\x03\x01s\0\x05\0\0\0Hello\0\0\0\x06\x01s\0\x14\0\0\0org.freedesktop.DBus\0\0\0\0";

/// A peer that logs in, says Hello and sends some bytes in few pieces, and then others, a byte for each read.
pub fn guest(rt: &impl Abort, alloc: Global, bytes: &[u8], slowly: &[u8]) -> Peer {
    let mut pieces = VecDeque::new(alloc);
    put_pieces(rt, alloc, &mut pieces, LOGIN, 4096);
    put_pieces(rt, alloc, &mut pieces, HELLO, 4096);
    put_pieces(rt, alloc, &mut pieces, bytes, 4096);
    put_pieces(rt, alloc, &mut pieces, slowly, 1);
    Peer::new(pieces, false)
}

/// What the bus makes of a stranger and a client in so many rounds.
pub fn served(
    rt: &impl Abort,
    alloc: Global,
    stranger: Peer,
    client: Peer,
    rounds: u32,
) -> MemHost {
    let mut peers = Vec::new(alloc);
    peers.push(stranger).expect(rt, "memory");
    peers.push(client).expect(rt, "memory");
    let mut host = host_of(alloc, peers);
    let path = path(rt, alloc);
    let status = bus(alloc, &path, rounds, &mut host);
    assert!(rt; status == 8);
    host
}

/// Whether the bus closes the link of a stranger that sends these bytes behind its Hello, and it alone: the other
/// client is given a line of 37 bytes, and the 258 of the return to Hello and of NameAcquired.
pub fn closes(rt: &impl Abort, alloc: Global, bytes: &[u8]) -> bool {
    let stranger = guest(rt, alloc, bytes, b"");
    let client = guest(rt, alloc, b"", b"");
    let host = served(rt, alloc, stranger, client, 9);
    closed("a", &host) && given(rt, alloc, 1, &host).len() == 295
}
