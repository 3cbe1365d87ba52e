//! The application over a host in memory, with messages of a bus and of a registry worked out by hand.

use crate::hosts::{NEVER, Run, host_of, joined, numbers, path, run_of};
use atspi_app::App;
use atspi_app_exported::Kit;
use atspi_base::{MemSink, MemSource};
use atspi_faces::{Deeds, Grid, PlainText};
use atspi_live_app::app;
use atspi_live_host::MemHost;
use std::alloc::Global;
use std::process::Abort;
use std::test::*;

const CHALLENGE: &[u8] = b"DATA\x0d\x0a";

const GRANT: &[u8] = b"OK 61747370693200000000000000000001\x0d\x0a";

/// The lines of a client.
const LINES: &[u8] = b"\0AUTH EXTERNAL\x0d\x0aDATA\x0d\x0aBEGIN\x0d\x0a";

/// The call of Hello, with number 1.
const HELLO: &[u8] =
    b"l\x01\0\x01\0\0\0\0\x01\0\0\0m\0\0\0\x01\x01o\0\x15\0\0\0/org/freedesktop/DBus\0\0\0\x02\x01s\0\x14\0\0\0org.freedesktop.DBus\0\0\0\0\x03\x01s\0\x05\0\0\0Hello\0\0\0\x06\x01s\0\x14\0\0\0org.freedesktop.DBus\0\0\0\0";

/// The call of AddMatch, with number 2: signals of the registry.
const MATCH: &[u8] =
    b"l\x01\0\x01W\0\0\0\x02\0\0\0\x7f\0\0\0\x01\x01o\0\x15\0\0\0/org/freedesktop/DBus\0\0\0\x02\x01s\0\x14\0\0\0org.freedesktop.DBus\0\0\0\0\x03\x01s\0\x08\0\0\0AddMatch\0\0\0\0\0\0\0\0\x06\x01s\0\x14\0\0\0org.freedesktop.DBus\0\0\0\0\x08\x01g\0\x01s\0\0R\0\0\0type='signal',sender='org.a11y.atspi.Registry',interface='org.a11y.atspi.Registry'\0";

/// The call of GetRegisteredEvents, with number 3.
const EVENTS: &[u8] =
    b"l\x01\0\x01\0\0\0\0\x03\0\0\0\x88\0\0\0\x01\x01o\0\x18\0\0\0/org/a11y/atspi/registry\0\0\0\0\0\0\0\0\x02\x01s\0\x17\0\0\0org.a11y.atspi.Registry\0\x03\x01s\0\x13\0\0\0GetRegisteredEvents\0\0\0\0\0\x06\x01s\0\x17\0\0\0org.a11y.atspi.Registry\0";

/// The call of Embed, with number 4: the root of :1.0.
const EMBED: &[u8] =
    b"l\x01\0\x010\0\0\0\x04\0\0\0\x82\0\0\0\x01\x01o\0\x1f\0\0\0/org/a11y/atspi/accessible/root\0\x02\x01s\0\x15\0\0\0org.a11y.atspi.Socket\0\0\0\x03\x01s\0\x05\0\0\0Embed\0\0\0\x06\x01s\0\x17\0\0\0org.a11y.atspi.Registry\0\x08\x01g\0\x04(so)\0\0\0\0\0\0\0\x04\0\0\0:1.0\0\0\0\0\x1f\0\0\0/org/a11y/atspi/accessible/root\0";

/// The signal PropertyChange of the root, with number 5: its name is x.
const SIGNAL: &[u8] =
    b"l\x04\x01\x010\0\0\0\x05\0\0\0w\0\0\0\x01\x01o\0\x1f\0\0\0/org/a11y/atspi/accessible/root\0\x02\x01s\0\x1b\0\0\0org.a11y.atspi.Event.Object\0\0\0\0\0\x03\x01s\0\x0e\0\0\0PropertyChange\0\0\x08\x01g\0\x09siiva{sv}\0\0\x0f\0\0\0accessible-name\0\0\0\0\0\0\0\0\0\x01s\0\0\x01\0\0\0x\0\0\0\0\0\0\0\0\0\0\0";

/// The return to Hello: the unique name :1.0.
const NAMED: &[u8] =
    b"l\x02\x01\x01\x09\0\0\0\x01\0\0\0?\0\0\0\x05\x01u\0\x01\0\0\0\x06\x01s\0\x04\0\0\0:1.0\0\0\0\0\x07\x01s\0\x14\0\0\0org.freedesktop.DBus\0\0\0\0\x08\x01g\0\x01s\0\0\x04\0\0\0:1.0\0";

/// The return to AddMatch.
const MATCHED: &[u8] =
    b"l\x02\x01\x01\0\0\0\0\x02\0\0\05\0\0\0\x05\x01u\0\x02\0\0\0\x06\x01s\0\x04\0\0\0:1.0\0\0\0\0\x07\x01s\0\x14\0\0\0org.freedesktop.DBus\0\0\0\0";

/// The return to GetRegisteredEvents: :1.9 listens to object:property-change.
const LISTED: &[u8] =
    b"l\x02\x01\x01/\0\0\0\x03\0\0\03\0\0\0\x05\x01u\0\x03\0\0\0\x06\x01s\0\x04\0\0\0:1.0\0\0\0\0\x07\x01s\0\x04\0\0\0:1.1\0\0\0\0\x08\x01g\0\x05a(ss)\0\0\0\0\0\0'\0\0\0\0\0\0\0\x04\0\0\0:1.9\0\0\0\0\x16\0\0\0object:property-change\0";

/// The first 16 bytes of that return, and the others.
const LISTED_FRONT: &[u8] = b"l\x02\x01\x01/\0\0\0\x03\0\0\03\0\0\0";

const LISTED_REST: &[u8] =
    b"\x05\x01u\0\x03\0\0\0\x06\x01s\0\x04\0\0\0:1.0\0\0\0\0\x07\x01s\0\x04\0\0\0:1.1\0\0\0\0\x08\x01g\0\x05a(ss)\0\0\0\0\0\0'\0\0\0\0\0\0\0\x04\0\0\0:1.9\0\0\0\0\x16\0\0\0object:property-change\0";

/// A source of these bytes, whose call with this number fails.
fn source_of(rt: &impl Abort, alloc: Global, input: &[u8], failing: u64) -> MemSource {
    let bytes = input.to_vec(alloc).expect(rt, "memory");
    MemSource::new(bytes, numbers(rt, alloc, failing))
}

/// The application does so many rounds with this input and a peer that sends these pieces; the calls with these numbers
/// fail, one of the source and one of the host.
fn run_with(
    rt: &impl Abort,
    alloc: Global,
    input: &[u8],
    parts: &[&[u8]],
    failing: (u64, u64),
    rounds: u32,
) -> Run {
    let mut host = host_of(rt, alloc, parts, false, failing.1);
    let mut source = source_of(rt, alloc, input, failing.0);
    let mut written = MemSink::new(alloc, Vec::new(alloc));
    let path = path(rt, alloc);
    let kit = Kit {
        chars: Box::new(alloc, PlainText::new(alloc)).expect(rt, "memory"),
        grid: Box::new(alloc, Grid::new(alloc)).expect(rt, "memory"),
        deeds: Box::new(alloc, Deeds::new(alloc)).expect(rt, "memory"),
    };
    let status = app::<App, MemSource, MemSink, MemHost>(
        alloc,
        &path,
        rounds,
        &mut source,
        &mut written,
        &mut host,
        kit,
    );
    run_of(rt, alloc, status, written, &host)
}

/// Whether a run with a silent peer has this status and writes just this line.
fn is_written(
    rt: &impl Abort,
    alloc: Global,
    input: &[u8],
    rounds: u32,
    status: u8,
    line: &[u8],
) -> bool {
    run_with(rt, alloc, input, &[], (NEVER, NEVER), rounds).wrote(status, line)
}

/// Whether nine rounds with this input and a peer that sends these pieces give just what is due, and write nothing.
fn gives(rt: &impl Abort, alloc: Global, input: &[u8], parts: &[&[u8]], due: &[&[u8]]) -> bool {
    let due = joined(rt, alloc, due);
    run_with(rt, alloc, input, parts, (NEVER, NEVER), 9).is(8, due.as_slice(), b"")
}

#[test]
fn tells_an_edit(rt: HostRuntime) {
    // the edit stands before the sixth read
    let input = b"app \"T\"\nwait 4\nname 0 \"x\"\n";
    let parts: &[&[u8]] = &[CHALLENGE, GRANT, NAMED, MATCHED, LISTED];
    let due: &[&[u8]] = &[LINES, HELLO, MATCH, EVENTS, EMBED, SIGNAL];
    assert!(rt; gives(&rt, rt.alloc(), input, parts, due));
}

#[test]
fn does_a_line_before_the_read_of_its_round(rt: HostRuntime) {
    // the edit stands before the fifth read, in which it is listed who listens: nobody listens yet
    let input = b"app \"T\"\nwait 3\nname 0 \"x\"\n";
    let parts: &[&[u8]] = &[CHALLENGE, GRANT, NAMED, MATCHED, LISTED];
    let due: &[&[u8]] = &[LINES, HELLO, MATCH, EVENTS, EMBED];
    assert!(rt; gives(&rt, rt.alloc(), input, parts, due));
}

#[test]
fn takes_a_message_with_its_last_byte(rt: HostRuntime) {
    // the sixth read makes it whole
    let parts: &[&[u8]] = &[CHALLENGE, GRANT, NAMED, MATCHED, LISTED_FRONT, LISTED_REST];
    let silent: &[&[u8]] = &[LINES, HELLO, MATCH, EVENTS, EMBED];
    let told: &[&[u8]] = &[LINES, HELLO, MATCH, EVENTS, EMBED, SIGNAL];
    let sixth = b"app \"T\"\nwait 4\nname 0 \"x\"\n";
    assert!(rt; gives(&rt, rt.alloc(), sixth, parts, silent));
    let seventh = b"app \"T\"\nwait 5\nname 0 \"x\"\n";
    assert!(rt; gives(&rt, rt.alloc(), seventh, parts, told));
}

#[test]
fn refuses_an_edit(rt: HostRuntime) {
    let input = b"app \"Demo\"\nremove 0";
    let run = run_with(&rt, rt.alloc(), input, &[], (NEVER, NEVER), 50);
    // one whole round was done
    assert!(rt; run.is(1, b"\0AUTH EXTERNAL\x0d\x0a", b"refused 2 IsRoot\n"));
}

#[test]
fn refuses_lines(rt: HostRuntime) {
    let alloc = rt.alloc();
    assert!(rt; is_written(&rt, alloc, b"", 9, 1, b"refused 1 Form\n"));
    assert!(rt; is_written(&rt, alloc, b"# no\n\n", 9, 1, b"refused 3 Form\n"));
    assert!(rt; is_written(&rt, alloc, b"frob", 9, 1, b"refused 1 Form\n"));
    assert!(rt; is_written(&rt, alloc, b"name 0 \"x\"\n", 9, 1, b"refused 1 Form\n"));
    assert!(rt; is_written(&rt, alloc, b"wait 1\n", 9, 1, b"refused 1 Form\n"));
    let twice = b"app \"A\"\napp \"B\"";
    assert!(rt; is_written(&rt, alloc, twice, 9, 1, b"refused 2 Form\n"));
    let torn = b"app \"A\"\n\xff\n";
    assert!(rt; is_written(&rt, alloc, torn, 9, 1, b"refused 2 NotUtf8\n"));
}

#[test]
fn counts_rounds(rt: HostRuntime) {
    // the last line comes before the eighth read
    let input = b"# x\napp \"A\"\n\nwait 3\nwait 0\nfocus 9\n";
    assert!(rt; is_written(&rt, rt.alloc(), input, 7, 8, b""));
    assert!(rt; is_written(&rt, rt.alloc(), input, 8, 1, b"refused 6 NoNode\n"));
}

/// The status of five rounds with these pieces, where calls with these numbers fail.
fn status_of(rt: &impl Abort, alloc: Global, parts: &[&[u8]], failing: (u64, u64)) -> u8 {
    run_with(rt, alloc, b"app \"T\"\n", parts, failing, 5).status
}

#[test]
fn fails(rt: HostRuntime) {
    let alloc = rt.alloc();
    assert!(rt; status_of(&rt, alloc, &[], (0, NEVER)) == 3);
    assert!(rt; status_of(&rt, alloc, &[], (NEVER, 0)) == 7);
    assert!(rt; status_of(&rt, alloc, &[], (NEVER, 1)) == 7);
    let rejected: &[&[u8]] = &[CHALLENGE, b"REJECTED EXTERNAL\r\n"];
    assert!(rt; status_of(&rt, alloc, rejected, (NEVER, NEVER)) == 10);
}
