//! Bytes that are no message, by the place and the reason of their fault, and messages that are cut: what each end makes
//! of them.

use crate::bus::closes;
use crate::ends::{Outside, checked, run};
use crate::links::{put, put_digits};
use std::alloc::Global;
use std::process::Abort;

/// A place, a reason, and the bytes that have that fault first. They are messages of a type without a meaning, but
/// where a reason speaks of a type.
const FAULTS: &str = "\
22 2 6c050001 00000000 01000000 08000000 08016700 02792100
22 3 6c050001 00000000 01000000 08000000 08016700 02796800
22 4 6c050001 00000000 01000000 07000000 08016700 01610000
22 5 6c050001 00000000 01000000 08000000 08016700 02282900
23 6 6c050001 00000000 01000000 08000000 08016700 02286900
22 6 6c050001 00000000 01000000 08000000 08016700 02792900
21 7 6c050001 00000000 01000000 0a000000 08016700 047b7979 7d000000 00000000
23 8 6c050001 00000000 01000000 0b000000 08016700 05617b76 737d0000 00000000
24 8 6c050001 00000000 01000000 0a000000 08016700 04617b79 7d000000 00000000
53 9 6c050001 00000000 01000000 28000000 08016700 22 33*61 7900
53 9 6c050001 00000000 01000000 48000000 08016700 42 33*28 79 32*29 00
28 10 6c050001 00000000 01000000 18000000 06017300 03000000 612e6200 01000000 05017500 01000000
27 10 6c050001 08000000 01000000 08000000 08016700 02797500 01000001 02000000
31 10 42050001 00000000 00000001 0000000c 06017300 00000003 612e6200 00000001
24 11 6c050001 04000000 01000000 07000000 08016700 01620000 02000000
24 11 42050001 00000004 00000001 00000007 08016700 01620000 00000100
29 12 6c050001 06000000 01000000 07000000 08016700 01730000 01000000 6161
29 13 6c050001 07000000 01000000 07000000 08016700 01730000 02000000 610000
29 14 6c050001 07000000 01000000 07000000 08016700 01730000 02000000 61ff00
24 15 6c050001 07000000 01000000 07000000 08016700 016f0000 02000000 2f2f00
20 15 6c040001 00000000 01000000 0b000000 01016f00 02000000 2f2f0000 00000000
24 16 6c050001 06000000 01000000 07000000 08016700 01760000 02797900 0000
24 16 6c050001 02000000 01000000 07000000 08016700 01760000 0000
24 17 6c050001 04000000 01000000 08000000 08016700 02617900 01000004
28 18 6c050001 08000000 01000000 08000000 08016700 02617500 03000000 00000000
20 18 6c050001 00000000 01000000 08000000 06017300 01000000
24 19 6c050001 03000000 01000000 07000000 08016700 01750000 000000
24 19 6c050001 0c000000 01000000 07000000 08016700 01730000 09000000 61616161 61616161
216 20 6c050001 c4000000 01000000 07000000 08016700 01760000 64*017600 01790005
25 21 6c050001 02000000 01000000 07000000 08016700 01790000 0102
0 22 78050001 00000000 01000000 00000000
1 23 6c000001 00000000 01000000 00000000
3 24 6c050002 00000000 01000000 00000000
4 25 6c050001 00000008 01000000 00000000
4 25 42050001 08000000 00000001 00000000
8 26 6c050001 00000000 00000000 00000000
12 27 6c050001 00000000 01000000 01000004
16 28 6c050001 00000000 01000000 08000000 00017500 01000000
17 29 6c020001 00000000 01000000 08000000 05016900 01000000
24 30 6c020001 00000000 01000000 10000000 05017500 01000000 05017500 01000000
20 31 6c050001 00000000 01000000 0b000000 06017300 02000000 612e0000 00000000
20 31 6c050001 00000000 01000000 0a000000 02017300 01000000 61000000 00000000
20 31 6c050001 00000000 01000000 09000000 03017300 00000000 00 7*00
20 32 6c020001 00000000 01000000 08000000 05017500 00000000
20 33 6c050001 00000000 01000000 08000000 09017500 01000000
16 34 6c020001 00000000 01000000 00000000
24 34 6c030001 00000000 01000000 08000000 05017500 01000000
26 34 6c010001 00000000 01000000 0a000000 01016f00 01000000 2f00 6*00
16 35 6c050001 01000000 01000000 00000000 07";

/// A message of a type without a meaning and without fields, which every end passes over, and its line.
const BEFORE: &str = "6c050001 00000000 01000000 00000000";

const BEFORE_LINE: &str = "0 type-5 l 0 1\n";

/// The ends that have one link.
const ENDS: &str = "read registry app";

/// The text of a line that names a fault behind that message, and what stands before it.
fn fault_line(alloc: Global, before: &str, place: &str, reason: &str) -> Option<String> {
    format!(in alloc; "{before}fault 16 {place} {reason}\n").ok()
}

/// Whether a run of each end has a status and writes a text, where bytes come in such pieces.
fn all_write(
    rt: &impl Abort,
    alloc: Global,
    bytes: &[u8],
    outside: Outside,
    due: (u8, &str),
) -> bool {
    for end in ENDS.split(' ') {
        if !run(rt, alloc, end, bytes, outside).wrote(due.0, due.1.as_bytes()) {
            return false;
        }
    }
    true
}

/// Bytes at once, or a byte for each read.
fn pieces_of(most: usize, ends: bool) -> Outside {
    Outside {
        most,
        ends,
        failing_write: None,
        rounds: 400,
    }
}

/// Whether `check` comes to this status and this text.
fn is_checked(rt: &impl Abort, alloc: Global, bytes: &[u8], status: u8, text: &str) -> bool {
    let (is, written) = checked(rt, alloc, bytes);
    is == status && written.as_slice() == text.as_bytes()
}

/// Whether each end tells the fault of a row.
fn holds(rt: &impl Abort, alloc: Global, row: &str) -> bool {
    let (place, rest) = row.split_once(' ').unwrap_or((row, ""));
    let (reason, digits) = rest.split_once(' ').unwrap_or((rest, ""));
    let mut bytes = Vec::new(alloc);
    put_digits(rt, alloc, &mut bytes, BEFORE);
    put_digits(rt, alloc, &mut bytes, digits);
    let line = fault_line(alloc, "", place, reason).expect(rt, "memory");
    let lines = fault_line(alloc, BEFORE_LINE, place, reason).expect(rt, "memory");
    is_checked(rt, alloc, &bytes, 6, &lines)
        && all_write(rt, alloc, &bytes, pieces_of(4096, false), (6, &line))
        && all_write(rt, alloc, &bytes, pieces_of(1, true), (6, &line))
        && closes(rt, alloc, &bytes[bytes.len().min(16)..])
}

/// Stops at a row that does not hold, and shows it.
pub fn stop_unless(rt: &impl Abort, row: &str, holds: bool) {
    assert!(rt; holds, "{row}");
}

#[test]
fn each_reason_is_told_by_each_end(rt: HostRuntime) {
    for row in FAULTS.lines() {
        stop_unless(&rt, row, holds(&rt, rt.alloc(), row));
    }
}

/// A return of 36 bytes, with a number, in either order of bytes.
const WHOLE: &str = "\
6c020101 04000000 02000000 0f000000 05017500 01000000 08016700 01750000 07000000
42020101 00000004 00000002 0000000f 05017500 00000001 08016700 01750000 00000007";

/// Whether a link that ends behind so many bytes of a message ends well, and `check` tells the cut.
fn is_cut(rt: &impl Abort, alloc: Global, message: &[u8], count: usize) -> bool {
    let front = &message[..count.min(message.len())];
    let told = format!(in alloc; "fault 0 {count} 36\n").expect(rt, "memory");
    is_checked(rt, alloc, front, 6, &told)
        && all_write(rt, alloc, front, pieces_of(4096, true), (0, ""))
        && all_write(rt, alloc, front, pieces_of(1, true), (0, ""))
}

/// Whether it is so of each front of a message.
fn each_front_is_cut(rt: &impl Abort, alloc: Global, words: &str) -> bool {
    let mut message = Vec::new(alloc);
    put_digits(rt, alloc, &mut message, words);
    for count in 1..message.len() {
        if !is_cut(rt, alloc, &message, count) {
            return false;
        }
    }
    true
}

#[test]
fn a_link_may_end_inside_a_message(rt: HostRuntime) {
    for row in WHOLE.lines() {
        stop_unless(&rt, row, each_front_is_cut(&rt, rt.alloc(), row));
    }
}
