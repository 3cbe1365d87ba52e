//! What the bus does with clients and strangers, a run a row.

ghost use Rattle.std.specs.Prelude.{◌≡◌, [], Some};

use crate::bus::runs::{bytes_of, closed, given, path, peer};
use atspi_live_bus::bus;
use atspi_live_host::{Call, Host, MemHost};
use std::alloc::Global;
use std::process::Abort;

/// A client between two signs `|`, a word for each of its pieces, `N*` before N of the same; the number of the call
/// that fails; rounds; status; the links that are closed, `m` being the 65th, which waits until one of 64 leaves; what
/// is given on the first link, and on the second.
const ROWS: &str = "\
login hello;never;400;8;;grant named acquired;
login noise|login hello;never;900;8;a;grant;grant named acquired
no_zero|early;never;9;8;ab;;
silent|login hello;never;400;8;;;grant named acquired
slowly_login slowly_hello|silent;never;400;8;;grant named acquired;
login half|login hello;never;400;8;;grant;grant named acquired
login half end|login hello;never;400;8;a;grant;grant named acquired
zero long|login hello;never;400;8;a;;grant named acquired
login hello noise|silent;never;400;8;a;grant named acquired;
slowly_login slowly_half|login hello|62*silent|no_zero;never;130;8;;grant;grant named acquired
slowly_login slowly_half end|login hello|62*silent|no_zero;never;130;8;am;grant;grant named acquired
login named;never;9;8;a;grant;
login;0;9;7;;;
;1;9;7;;;
login;2;9;8;a;;
login;3;9;8;a;;
login hello;never;1;8;;grant;
login hello;never;2;8;;grant named acquired;";

/// A run of the bus, and what is due of it.
#[derive(Clone, Copy)]
struct Row<'a> {
    sent: &'a str,
    failing: u64,
    rounds: u32,
    status: u8,
    closed: &'a str,
    first: &'a str,
    second: &'a str,
}

/// A row of the table.
fn row_of<'a>(rt: &impl Abort, line: &'a str) -> Row<'a> {
    let mut fields = line.split(';');
    Row {
        sent: fields.next().unwrap_or(""),
        failing: fields
            .next()
            .unwrap_or("")
            .parse::<u64>()
            .unwrap_or(u64::MAX),
        rounds: fields
            .next()
            .unwrap_or("")
            .parse::<u32>()
            .expect(rt, "rounds"),
        status: fields
            .next()
            .unwrap_or("")
            .parse::<u8>()
            .expect(rt, "a status"),
        closed: fields.next().unwrap_or("?"),
        first: fields.next().unwrap_or("?"),
        second: fields.next().unwrap_or("?"),
    }
}

/// How many peers send these words, and the words.
fn times(words: &str) -> (u32, &str) {
    match words.split_once('*') {
        Some((count, words)) => (count.parse::<u32>().unwrap_or(0), words),
        None => (1, words),
    }
}

/// A host with peers that send these words, a peer between two signs `|`, whose call with this number fails.
fn host_of(rt: &impl Abort, alloc: Global, sent: &str, failing: u64) -> MemHost
    ensures calls { ⟦<MemHost as Host>⟧.calls result ≡ Some [] }
    ensures links { ⟦<MemHost as Host>⟧.links result ≡ [] }
{
    let mut peers = Vec::new(alloc);
    for part in sent.split('|') {
        let (count, words) = times(part);
        for _ in 0..count {
            peers.push(peer(rt, alloc, words)).expect(rt, "memory");
        }
    }
    let numbers = [failing].to_vec(alloc).expect(rt, "memory");
    MemHost::new(alloc, peers, numbers)
}

/// Whether just the bytes of these words were given on a link.
fn gave(rt: &impl Abort, alloc: Global, link: u32, words: &str, calls: &[Call]) -> bool {
    let mut due = Vec::new(alloc);
    for word in words.split(' ') {
        due.extend_from_slice(bytes_of(word)).expect(rt, "memory");
    }
    given(rt, alloc, link, calls) == due
}

/// Whether the bus does what a row says.
fn holds(rt: &impl Abort, alloc: Global, line: &str) -> bool {
    let row = row_of(rt, line);
    let path = path(rt, alloc);
    let mut host = host_of(rt, alloc, row.sent, row.failing);
    let status = bus(alloc, &path, row.rounds, &mut host);
    let calls = host.calls().unwrap_or(&[]);
    status == row.status
        && closed(row.closed, calls)
        && gave(rt, alloc, 0, row.first, calls)
        && gave(rt, alloc, 1, row.second, calls)
}

#[test]
fn each_row_holds(rt: HostRuntime) {
    for line in ROWS.split('\n') {
        assert!(rt; holds(&rt, rt.alloc(), line), "{line}");
    }
}
