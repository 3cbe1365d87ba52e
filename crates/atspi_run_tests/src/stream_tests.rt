//! Streams of messages as worked out by hand, and the lines that are written of them.

ghost use Rattle.std.specs.Prelude.{ℕ, List, Option, None};

use atspi_base::{Failed, MemSink, MemSource, Source};
use atspi_run_check::check;
use std::alloc::Global;

/// A case of `check`: the input, the numbers of the reads and of the writes that fail (none: 99), and what is due.
struct Stream {
    name: &'static str,
    input: &'static [u8],
    failing_read: u64,
    failing_write: u64,
    status: u8,
    output: &'static str,
}

/// The call of Hello, 128 bytes, and its line.
pub const HELLO: &[u8] = b"l\x01\0\x01\0\0\0\0\x01\0\0\0\x6d\0\0\0\
\x01\x01o\0\x15\0\0\0/org/freedesktop/DBus\0\0\0\
\x02\x01s\0\x14\0\0\0org.freedesktop.DBus\0\0\0\0\
\x03\x01s\0\x05\0\0\0Hello\0\0\0\
\x06\x01s\0\x14\0\0\0org.freedesktop.DBus\0\0\0\0";

const HELLO_LINE: &str =
    "0 call l 0 1 path=/org/freedesktop/DBus interface=org.freedesktop.DBus member=Hello destination=org.freedesktop.DBus\n";

/// Streams and what is written of them, worked out by hand.
const STREAMS: [Stream; 14] = [
    Stream {
        name: "an empty input",
        input: b"",
        failing_read: 99,
        failing_write: 99,
        status: 0,
        output: "",
    },
    Stream {
        name: "one call",
        input: HELLO,
        failing_read: 99,
        failing_write: 99,
        status: 0,
        output: HELLO_LINE,
    },
    Stream {
        name: "a call of serial 0",
        input: b"l\x01\0\x01\0\0\0\0\0\0\0\0\x6d\0\0\0",
        failing_read: 99,
        failing_write: 99,
        status: 6,
        output: "fault 0 8 26\n",
    },
    Stream {
        name: "a return to serial 0",
        input: b"l\x02\x01\x01\0\0\0\0\x01\0\0\0\x08\0\0\0\x05\x01u\0\0\0\0\0",
        failing_read: 99,
        failing_write: 99,
        status: 6,
        output: "fault 0 20 32\n",
    },
    Stream {
        name: "a descriptor is passed",
        input: b"l\x05\0\x01\0\0\0\0\x01\0\0\0\x08\0\0\0\x09\x01u\0\x01\0\0\0",
        failing_read: 99,
        failing_write: 99,
        status: 6,
        output: "fault 0 20 33\n",
    },
    Stream {
        name: "a body without SIGNATURE",
        input: b"l\x05\0\x01\x01\0\0\0\x01\0\0\0\0\0\0\0\x07",
        failing_read: 99,
        failing_write: 99,
        status: 6,
        output: "fault 0 16 35\n",
    },
    Stream {
        name: "a field the second time",
        input: b"l\x02\x01\x01\0\0\0\0\x01\0\0\0\x10\0\0\0\x05\x01u\0\x01\0\0\0\x05\x01u\0\x01\0\0\0",
        failing_read: 99,
        failing_write: 99,
        status: 6,
        output: "fault 0 24 30\n",
    },
    Stream {
        name: "a stream that ends inside its first message",
        input: b"l\x01\0\x01\0\0\0\0\x01\0\0\0\x6d\0\0\0\x01\x01o\0",
        failing_read: 99,
        failing_write: 99,
        status: 6,
        output: "fault 0 20 36\n",
    },
    Stream {
        name: "a stream that ends inside its second message",
        input: b"l\x02\x01\x01\0\0\0\0\x02\0\0\0\x08\0\0\0\x05\x01u\0\x01\0\0\0lll",
        failing_read: 99,
        failing_write: 99,
        status: 6,
        output: "0 return l 1 2 reply=1\nfault 24 3 36\n",
    },
    Stream {
        name: "the place of a message counts bytes, in either order",
        input: b"l\x02\x01\x01\0\0\0\0\x02\0\0\0\x08\0\0\0\x05\x01u\0\x01\0\0\0\
B\x02\x01\x01\0\0\0\0\0\0\0\x03\0\0\0\x08\x05\x01u\0\0\0\0\x01",
        failing_read: 99,
        failing_write: 99,
        status: 0,
        output: "0 return l 1 2 reply=1\n24 return B 1 3 reply=1\n",
    },
    Stream {
        name: "nothing is told behind a fault",
        input: b"l\x02\x01\x01\0\0\0\0\x02\0\0\0\x08\0\0\0\x05\x01u\0\x01\0\0\0\
l\x02\x01\x01\0\0\0\0\x02\0\0\0\x08\0\0\0\x05\x01u\0\0\0\0\0\
l\x02\x01\x01\0\0\0\0\x02\0\0\0\x08\0\0\0\x05\x01u\0\x01\0\0\0",
        failing_read: 99,
        failing_write: 99,
        status: 6,
        output: "0 return l 1 2 reply=1\nfault 24 20 32\n",
    },
    Stream {
        name: "a read fails behind a whole message",
        input: b"l\x02\x01\x01\0\0\0\0\x02\0\0\0\x08\0\0\0\x05\x01u\0\x01\0\0\0lll",
        failing_read: 1,
        failing_write: 99,
        status: 3,
        output: "0 return l 1 2 reply=1\n",
    },
    Stream {
        name: "the first read fails",
        input: HELLO,
        failing_read: 0,
        failing_write: 99,
        status: 3,
        output: "",
    },
    Stream {
        name: "the first write fails",
        input: HELLO,
        failing_read: 99,
        failing_write: 0,
        status: 4,
        output: "",
    },
];

/// What `check` answers and writes of an input.
fn checked(
    alloc: Global,
    input: &[u8],
    failing_read: u64,
    failing_write: u64,
) -> Option<(u8, Vec<u8>)> {
    let input = input.to_vec(alloc).ok()?;
    let mut source = MemSource::new(input, [failing_read].to_vec(alloc).ok()?);
    let mut sink = MemSink::new(alloc, [failing_write].to_vec(alloc).ok()?);
    let status = check(alloc, &mut source, &mut sink);
    Some((status, sink.bytes().to_vec(alloc).ok()?))
}

/// Whether a case comes to what is due.
fn holds(alloc: Global, case: &Stream) -> Option<bool> {
    let (status, output) = checked(alloc, case.input, case.failing_read, case.failing_write)?;
    Some(status == case.status && output.as_slice() == case.output.as_bytes())
}

#[test]
fn streams_are_checked_as_worked_out_by_hand(rt: HostRuntime) {
    for case in &STREAMS {
        assert!(rt; holds(rt.alloc(), case) == Some(true), "{}", case.name);
    }
}

/// A message so many times.
fn repeated(alloc: Global, message: &[u8], count: usize) -> Option<Vec<u8>> {
    let mut input = Vec::new(alloc);
    for _ in 0..count {
        input.extend_from_slice(message).ok()?;
    }
    Some(input)
}

/// How many bytes are written of a message so many times, where that ends well, and how many before a second write that
/// fails, where these are a front of the others.
fn written_of(alloc: Global, message: &[u8], count: usize) -> Option<(usize, usize)> {
    let input = repeated(alloc, message, count)?;
    let (status, output) = checked(alloc, &input, 99, 99)?;
    let (broken, front) = checked(alloc, &input, 99, 1)?;
    if (status, broken) == (0, 4) && output.as_slice().starts_with(&front) {
        Some((output.len(), front.len()))
    } else {
        None
    }
}

#[test]
fn what_a_read_gave_is_written_at_once(rt: HostRuntime) {
    // lines of 115 bytes, each behind a blank and its start: 0, 128, .. 127872; the first read gives 512 messages, up
    // to the one that starts at 65408
    assert!(rt; written_of(rt.alloc(), HELLO, 1000) == Some((121_129, 61_863)));
}

/// A return of 24 bytes; its line has 22 and its start.
const RETURN: &[u8] = b"l\x02\x01\x01\0\0\0\0\x02\0\0\0\x08\0\0\0\x05\x01u\0\x01\0\0\0";

#[test]
fn lines_are_written_in_blocks(rt: HostRuntime) {
    // one read of 65,520 bytes, whose lines are longer than a block
    let (all, front) = written_of(rt.alloc(), RETURN, 2730).unwrap_or((0, 0));
    assert!(rt; all == 73_245 && 65_536 <= front && front < 65_536 + 27);
}

/// A body that is told a fault: the types of its message, its bytes, and the line that is due. The message is of a type
/// without a meaning; its one field is SIGNATURE, whose types begin at 21, so the body begins at 24 where they are at
/// most two.
struct Body {
    types: &'static [u8],
    body: &'static [u8],
    line: &'static str,
}

/// Each reason of a signature, a value or a body, once.
const BODIES: [Body; 19] = [
    Body {
        types: b"y!",
        body: b"",
        line: "fault 0 22 2\n",
    },
    Body {
        types: b"yh",
        body: b"",
        line: "fault 0 22 3\n",
    },
    Body {
        types: b"a",
        body: b"",
        line: "fault 0 22 4\n",
    },
    Body {
        types: b"()",
        body: b"",
        line: "fault 0 22 5\n",
    },
    Body {
        types: b"(i",
        body: b"",
        line: "fault 0 23 6\n",
    },
    Body {
        types: b"{yy}",
        body: b"",
        line: "fault 0 21 7\n",
    },
    Body {
        types: b"a{vs}",
        body: b"",
        line: "fault 0 23 8\n",
    },
    Body {
        types: b"aaaaaaaaaaaaaaaaaaaaaaaaaaaaaaaaay",
        body: b"",
        line: "fault 0 53 9\n",
    },
    Body {
        types: b"yu",
        body: b"\x01\0\0\x01\x02\0\0\0",
        line: "fault 0 27 10\n",
    },
    Body {
        types: b"b",
        body: b"\x02\0\0\0",
        line: "fault 0 24 11\n",
    },
    Body {
        types: b"s",
        body: b"\x01\0\0\0aa",
        line: "fault 0 29 12\n",
    },
    Body {
        types: b"s",
        body: b"\x02\0\0\0a\0\0",
        line: "fault 0 29 13\n",
    },
    Body {
        types: b"s",
        body: b"\x02\0\0\0a\xff\0",
        line: "fault 0 29 14\n",
    },
    Body {
        types: b"o",
        body: b"\x02\0\0\0//\0",
        line: "fault 0 24 15\n",
    },
    Body {
        types: b"v",
        body: b"\x02yy\0\0\0",
        line: "fault 0 24 16\n",
    },
    Body {
        types: b"ay",
        body: b"\x01\0\0\x04",
        line: "fault 0 24 17\n",
    },
    Body {
        types: b"au",
        body: b"\x03\0\0\0\0\0\0\0",
        line: "fault 0 28 18\n",
    },
    Body {
        types: b"u",
        body: b"\0\0\0",
        line: "fault 0 24 19\n",
    },
    Body {
        types: b"y",
        body: b"\x01\x02",
        line: "fault 0 25 21\n",
    },
];

/// The bytes before the types of such a message, its lengths in their places.
fn front_of(body: u8, types: u8) -> [u8; 21] {
    [
        b'l',
        5,
        0,
        1,
        body,
        0,
        0,
        0,
        1,
        0,
        0,
        0,
        types.saturating_add(6),
        0,
        0,
        0,
        8,
        1,
        b'g',
        0,
        types,
    ]
}

/// A message with such a body.
fn with_body(alloc: Global, types: &[u8], body: &[u8]) -> Option<Vec<u8>> {
    let mut bytes = Vec::new(alloc);
    let front = front_of((body.len() % 200) as u8, (types.len() % 200) as u8);
    bytes.extend_from_slice(&front).ok()?;
    bytes.extend_from_slice(types).ok()?;
    bytes.push(0).ok()?;
    let padding = (8 - bytes.len() % 8) % 8;
    bytes.extend_from_slice(&[0u8; 8][..padding]).ok()?;
    bytes.extend_from_slice(body).ok()?;
    Some(bytes)
}

/// Whether an input is told this line, and nothing before it.
fn is_told(alloc: Global, input: &[u8], line: &str) -> Option<bool> {
    let (status, output) = checked(alloc, input, 99, 99)?;
    Some(status == 6 && output.as_slice() == line.as_bytes())
}

/// Whether a body is told its line.
fn body_is_told(alloc: Global, body: &Body) -> Option<bool> {
    is_told(alloc, &with_body(alloc, body.types, body.body)?, body.line)
}

#[test]
fn each_reason_of_a_body_is_told(rt: HostRuntime) {
    for body in &BODIES {
        assert!(rt;
            body_is_told(rt.alloc(), body) == Some(true),
            "{}",
            body.line
        );
    }
}

/// A change of one byte of the call of Hello, and the line that is due.
struct Change {
    place: usize,
    byte: u8,
    line: &'static str,
}

/// Each reason of a header, once.
const CHANGES: [Change; 11] = [
    Change {
        place: 0,
        byte: b'x',
        line: "fault 0 0 22\n",
    },
    Change {
        place: 1,
        byte: 0,
        line: "fault 0 1 23\n",
    },
    Change {
        place: 3,
        byte: 2,
        line: "fault 0 3 24\n",
    },
    Change {
        place: 7,
        byte: 8,
        line: "fault 0 4 25\n",
    },
    Change {
        place: 8,
        byte: 0,
        line: "fault 0 8 26\n",
    },
    Change {
        place: 15,
        byte: 5,
        line: "fault 0 12 27\n",
    },
    Change {
        place: 16,
        byte: 0,
        line: "fault 0 16 28\n",
    },
    Change {
        place: 18,
        byte: b's',
        line: "fault 0 17 29\n",
    },
    Change {
        place: 48,
        byte: 1,
        line: "fault 0 48 30\n",
    },
    Change {
        place: 56,
        byte: b'1',
        line: "fault 0 52 31\n",
    },
    Change {
        place: 80,
        byte: 10,
        line: "fault 0 125 34\n",
    },
];

/// The call of Hello with one byte changed.
fn changed_call(alloc: Global, place: usize, byte: u8) -> Option<Vec<u8>> {
    let mut input = HELLO.to_vec(alloc).ok()?;
    *input.get_mut(place)? = byte;
    Some(input)
}

/// Whether a change is told its line.
fn change_is_told(alloc: Global, change: &Change) -> Option<bool> {
    is_told(
        alloc,
        &changed_call(alloc, change.place, change.byte)?,
        change.line,
    )
}

#[test]
fn each_reason_of_a_header_is_told(rt: HostRuntime) {
    for change in &CHANGES {
        assert!(rt;
            change_is_told(rt.alloc(), change) == Some(true),
            "{}",
            change.line
        );
    }
}

/// A message whose body is so many variants, one in another, about a byte.
fn variants(alloc: Global, count: usize) -> Option<Vec<u8>> {
    let mut body = repeated(alloc, b"\x01v\0", count)?;
    body.extend_from_slice(b"\x01y\0\x05").ok()?;
    with_body(alloc, b"v", &body)
}

#[test]
fn sixty_five_containers_are_one_too_many(rt: HostRuntime) {
    let input = variants(rt.alloc(), 64).unwrap_or(Vec::new(rt.alloc()));
    assert!(rt; is_told(rt.alloc(), &input, "fault 0 216 20\n") == Some(true));
}

/// A source that gives one call of Hello in a read, as often as is said, and counts its reads.
#[derive(Drop)]
struct Live {
    messages: u64,
    reads: u64,
}

impl Source for Live {
    ghost left = { λ _. None };

    ghost faults = { λ _. 0 };

    fn read(&mut self, into: &mut [u8]) -> Result<usize, Failed> {
        self.reads = self.reads.saturating_add(1);
        if self.messages == 0 || into.len() < HELLO.len() {
            return Ok(0);
        }
        self.messages -= 1;
        let (front, _) = into.split_at_mut(HELLO.len());
        front.copy_from_slice(HELLO);
        Ok(HELLO.len())
    }
}

/// How many reads there were of nine messages, and how many lines were written, where a write fails with status 4.
fn read_and_written(alloc: Global, failing_write: u64) -> Option<(u64, usize)> {
    let mut source = Live {
        messages: 9,
        reads: 0,
    };
    let mut sink = MemSink::new(alloc, [failing_write].to_vec(alloc).ok()?);
    if check(alloc, &mut source, &mut sink) != 4 {
        return None;
    }
    let lines = sink.bytes().iter().filter(|&&byte| byte == b'\n').count();
    Some((source.reads, lines))
}

#[test]
fn a_line_is_written_before_the_next_read(rt: HostRuntime) {
    // each read was told before the next: the write that fails is the last read's own
    assert!(rt; read_and_written(rt.alloc(), 0) == Some((1, 0)));
    assert!(rt; read_and_written(rt.alloc(), 1) == Some((2, 1)));
    assert!(rt; read_and_written(rt.alloc(), 2) == Some((3, 2)));
    assert!(rt; read_and_written(rt.alloc(), 3) == Some((4, 3)));
}
