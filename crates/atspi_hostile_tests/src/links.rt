//! Links in memory: what peers send on them, and what was given.

ghost use Rattle.std.specs.Prelude.{◌≡◌, [], Some};

use atspi_base::Text;
use atspi_live_host::{Call, Did, Host, MemHost, Peer};
use std::alloc::Global;
use std::collections::VecDeque;
use std::process::Abort;

/// Appends bytes.
pub fn put(rt: &impl Abort, out: &mut Vec<u8>, bytes: &[u8]) {
    out.extend_from_slice(bytes).expect(rt, "memory");
}

/// Appends what words of hexadecimal digits spell; `64*017600` is a word so many times.
pub fn put_digits(rt: &impl Abort, alloc: Global, out: &mut Vec<u8>, words: &str) {
    for word in words.split(' ') {
        let (count, digits) = word.split_once('*').unwrap_or(("1", word));
        let bytes = hex::decode(alloc, digits).expect(rt, "digits");
        for _ in 0..count.parse::<u32>().expect(rt, "a number") {
            put(rt, out, &bytes);
        }
    }
}

/// Appends bytes as pieces, a piece for each read, of at most so many bytes each.
pub fn put_pieces(
    rt: &impl Abort,
    alloc: Global,
    pieces: &mut VecDeque<Vec<u8>>,
    bytes: &[u8],
    most: usize,
) {
    for piece in bytes.chunks(most.max(1)) {
        let piece = piece.to_vec(alloc).expect(rt, "memory");
        pieces.push_back(piece).expect(rt, "memory");
    }
}

/// A host with these peers.
pub fn host_of(alloc: Global, peers: Vec<Peer>) -> MemHost
    ensures calls { ⟦<MemHost as Host>⟧.calls result ≡ Some [] }
    ensures links { ⟦<MemHost as Host>⟧.links result ≡ [] }
{
    MemHost::new(alloc, peers, Vec::new(alloc))
}

/// Where the bus is.
pub fn path(rt: &impl Abort, alloc: Global) -> Text {
    Text::read(alloc, b"/run/bus").expect(rt, "a path")
}

/// What a call gave on a link.
fn given_by(link: u32, call: &Call) -> &[u8] {
    match call {
        Call::Write(on, offered, Did::Done(n)) if *on == link => {
            let offered = offered.as_slice();
            &offered[..(*n as usize).min(offered.len())]
        }
        _ => &[],
    }
}

/// What was given on a link.
pub fn given(rt: &impl Abort, alloc: Global, link: u32, host: &MemHost) -> Vec<u8> {
    let mut bytes = Vec::new(alloc);
    for call in host.calls().unwrap_or(&[]) {
        put(rt, &mut bytes, given_by(link, call));
    }
    bytes
}

/// Whether just these links were closed, in this order, each as a letter from `a` on.
pub fn closed(letters: &str, host: &MemHost) -> bool {
    let mut due = letters.bytes();
    for call in host.calls().unwrap_or(&[]) {
        if let Call::Close(link) = call {
            if due.next() != Some(b'a' + (*link % 26) as u8) {
                return false;
            }
        }
    }
    due.next().is_none()
}
