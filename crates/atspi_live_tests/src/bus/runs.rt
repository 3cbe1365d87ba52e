//! Runs of the bus, as words: what clients send and are given, with bytes worked out by hand.

use atspi_base::Text;
use atspi_live_host::{Call, Did, Peer};
use std::alloc::Global;
use std::collections::VecDeque;
use std::process::Abort;

/// What a client sends first, all at once: the zero byte and its lines.
const LOGIN: &[u8] = b"\0AUTH EXTERNAL 31303030\x0d\x0aBEGIN\x0d\x0a";

/// What it is answered.
const GRANT: &[u8] = b"OK 61747370693200000000000000000001\x0d\x0a";

/// The call of Hello, with number 1.
const HELLO: &[u8] =
    b"l\x01\0\x01\0\0\0\0\x01\0\0\0m\0\0\0\x01\x01o\0\x15\0\0\0/org/freedesktop/DBus\0\0\0\x02\x01s\0\x14\0\0\0org.freedesktop.DBus\0\0\0\0\x03\x01s\0\x05\0\0\0Hello\0\0\0\x06\x01s\0\x14\0\0\0org.freedesktop.DBus\0\0\0\0";

/// The return to Hello of the first connection: the unique name `:1.0`.
const NAMED: &[u8] =
    b"l\x02\x01\x01\x09\0\0\0\x01\0\0\0?\0\0\0\x05\x01u\0\x01\0\0\0\x06\x01s\0\x04\0\0\0:1.0\0\0\0\0\x07\x01s\0\x14\0\0\0org.freedesktop.DBus\0\0\0\0\x08\x01g\0\x01s\0\0\x04\0\0\0:1.0\0";

/// The signal NameAcquired that follows it, with number 2.
const ACQUIRED: &[u8] =
    b"l\x04\x01\x01\x09\0\0\0\x02\0\0\0\x8f\0\0\0\x01\x01o\0\x15\0\0\0/org/freedesktop/DBus\0\0\0\x02\x01s\0\x14\0\0\0org.freedesktop.DBus\0\0\0\0\x03\x01s\0\x0c\0\0\0NameAcquired\0\0\0\0\x06\x01s\0\x04\0\0\0:1.0\0\0\0\0\x07\x01s\0\x14\0\0\0org.freedesktop.DBus\0\0\0\0\x08\x01g\0\x01s\0\0\x04\0\0\0:1.0\0";

/// More bytes than a line may have.
const LONG: [u8; 16_385] = [b'A'; 16_385];

/// The bytes of a word.
pub fn bytes_of(word: &str) -> &'static [u8] {
    match word {
        "login" => LOGIN,
        "no_zero" => b"AUTH EXTERNAL\x0d\x0a",
        "early" => b"\0BEGIN\x0d\x0a",
        "zero" => b"\0",
        "long" => &LONG,
        "hello" => HELLO,
        "half" => &HELLO[..60],
        "noise" => b"x\x01\0\x01\0\0\0\0\x01\0\0\0\0\0\0\0",
        "grant" => GRANT,
        "named" => NAMED,
        "acquired" => ACQUIRED,
        _ => b"",
    }
}

/// Appends a piece.
pub fn put_piece(rt: &impl Abort, alloc: Global, piece: &[u8], pieces: &mut VecDeque<Vec<u8>>) {
    let piece = piece.to_vec(alloc).expect(rt, "memory");
    pieces.push_back(piece).expect(rt, "memory");
}

/// Appends the bytes of a word as one piece or, behind `slowly_`, each as a piece of its own.
fn put_word(rt: &impl Abort, alloc: Global, word: &str, pieces: &mut VecDeque<Vec<u8>>) {
    let Some(slow) = word.strip_prefix("slowly_") else {
        return put_piece(rt, alloc, bytes_of(word), pieces);
    };
    for byte in bytes_of(slow) {
        put_piece(rt, alloc, &[*byte], pieces);
    }
}

/// A peer that sends these words, one for each read, and stays, or ends behind them where `end` is the last word.
pub fn peer(rt: &impl Abort, alloc: Global, words: &str) -> Peer {
    let sent = words.strip_suffix(" end").unwrap_or(words);
    let mut pieces = VecDeque::new(alloc);
    for word in sent.split(' ') {
        put_word(rt, alloc, word, &mut pieces);
    }
    Peer::new(pieces, sent.len() < words.len())
}

/// The path of the socket.
pub fn path(rt: &impl Abort, alloc: Global) -> Text {
    Text::read(alloc, b"/run/bus").expect(rt, "a path")
}

/// What a call gave on a link.
fn given_by(link: u32, call: &Call) -> &[u8] {
    match call {
        Call::Write(on, offered, Did::Done(n)) if *on == link => {
            let offered = offered.as_slice();
            &offered[..(*n as usize).min(offered.len())]
        }
        _ => &[],
    }
}

/// What was given on a link.
pub fn given(rt: &impl Abort, alloc: Global, link: u32, calls: &[Call]) -> Vec<u8> {
    let mut bytes = Vec::new(alloc);
    for call in calls {
        bytes
            .extend_from_slice(given_by(link, call))
            .expect(rt, "memory");
    }
    bytes
}

/// Whether just these links were closed, in this order, each as a letter from `a` on.
pub fn closed(letters: &str, calls: &[Call]) -> bool {
    let mut due = letters.bytes();
    for call in calls {
        if let Call::Close(link) = call {
            if due.next() != Some(b'a' + (*link % 26) as u8) {
                return false;
            }
        }
    }
    due.next().is_none()
}
