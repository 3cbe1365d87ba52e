//! A client that never reads, while others are served.

ghost use Rattle.std.specs.Prelude.{◌≡◌, ℕ, List, Option, None, []};
ghost use Rattle.atspi_live_host.specs.declared.call.Call.{Call};

use crate::bus::runs::{bytes_of, closed, given, path, peer, put_piece};
use atspi_base::Text;
use atspi_live_bus::bus;
use atspi_live_host::{Call, Did, Host, MemHost, Peer};
use std::alloc::Global;
use std::collections::VecDeque;
use std::process::Abort;

/// A signal of 60,000 bytes to `:1.0`, up to its array.
const HEAD: &[u8] =
    b"l\x04\x01\x01\x64\xea\0\0\x02\0\0\0H\0\0\0\x01\x01o\0\x02\0\0\0/a\0\0\0\0\0\0\x02\x01s\0\x03\0\0\0a.b\0\0\0\0\0\x03\x01s\0\x01\0\0\0C\0\0\0\0\0\0\0\x06\x01s\0\x04\0\0\0:1.0\0\0\0\0\x08\x01g\0\x02ay\0";

/// So many of them, with their sender's name 60,108 bytes each, are more than 16,777,216 bytes.
const SIGNALS: u32 = 281;

/// In so many rounds all of them are read, 15 reads each.
const ROUNDS: u32 = 4300;

/// A host in memory whose first link takes nothing, since its peer never reads. It tells no calls to contracts.
#[derive(Drop)]
struct Unread {
    host: MemHost,
}

impl Host for Unread {
    ghost calls = { λ _. None };

    ghost links = { λ h. ⟦<MemHost as Host>⟧.links h.host };

    ghost faults = { λ h. ⟦<MemHost as Host>⟧.faults h.host };

    ghost link_faults = { λ h. ⟦<MemHost as Host>⟧.link_faults h.host };

    fn listen(&mut self, path: &Text) -> Did {
        self.host.listen(path)
    }

    fn accept(&mut self) -> Did {
        self.host.accept()
    }

    fn connect(&mut self, path: &Text) -> Did {
        self.host.connect(path)
    }

    fn read(&mut self, link: u32, into: &mut [u8]) -> Did {
        self.host.read(link, into)
    }

    fn write(&mut self, link: u32, bytes: &[u8]) -> Did {
        if link == 0 {
            return Did::NotYet;
        }
        self.host.write(link, bytes)
    }

    fn close(&mut self, link: u32) {
        self.host.close(link);
    }
}

/// A client that says Hello and then sends the signals.
fn sender(rt: &impl Abort, alloc: Global) -> Peer {
    let mut signal = HEAD.to_vec(alloc).expect(rt, "memory");
    signal
        .extend_from_slice(&60_000u32.to_le_bytes())
        .expect(rt, "memory");
    signal
        .extend_from_slice(&[0u8; 60_000])
        .expect(rt, "memory");
    let mut pieces = VecDeque::new(alloc);
    put_piece(rt, alloc, bytes_of("login"), &mut pieces);
    put_piece(rt, alloc, bytes_of("hello"), &mut pieces);
    for _ in 0..SIGNALS {
        put_piece(rt, alloc, &signal, &mut pieces);
    }
    Peer::new(pieces, false)
}

/// A client that never reads, the sender, and a client that logs in slowly.
fn peers(rt: &impl Abort, alloc: Global) -> Vec<Peer> {
    let mut peers = Vec::new(alloc);
    peers
        .push(peer(rt, alloc, "login hello"))
        .expect(rt, "memory");
    peers.push(sender(rt, alloc)).expect(rt, "memory");
    peers
        .push(peer(rt, alloc, "slowly_login slowly_hello"))
        .expect(rt, "memory");
    peers
}

/// Whether the first link alone was closed, and so many bytes were given: none on it, and on the others a line of 37
/// bytes, and the 258 of the return to Hello and of NameAcquired.
fn is_due(rt: &impl Abort, alloc: Global, calls: &[Call]) -> bool {
    closed("a", calls)
        && given(rt, alloc, 0, calls).is_empty()
        && given(rt, alloc, 1, calls).len() == 295
        && given(rt, alloc, 2, calls).len() == 295
}

#[test]
fn a_client_that_never_reads_is_closed_at_its_quota(rt: HostRuntime) {
    let path = path(&rt, rt.alloc());
    let peers = peers(&rt, rt.alloc());
    let mut host = Unread {
        host: MemHost::new(rt.alloc(), peers, Vec::new(rt.alloc())),
    };
    let status = bus(rt.alloc(), &path, ROUNDS, &mut host);
    let calls = host.host.calls().unwrap_or(&[]);
    assert!(rt; status == 8 && is_due(&rt, rt.alloc(), calls));
}
