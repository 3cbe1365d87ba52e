//! Scripts at their limits, and an outside that fails or moves few bytes in a call. What is due was worked out by hand.

use crate::running::{AMPLE, Due, NEVER, Outside, comes_to, ran};
use crate::stream_tests::HELLO;
use std::alloc::Global;

/// A script: a front, so many bytes `x`, and an end.
struct Padded {
    front: &'static [u8],
    count: usize,
    end: &'static [u8],
    status: u8,
    output: &'static [u8],
}

/// Lines and names at their limits and one byte past them, and lines that are not UTF-8.
const LINES: [Padded; 10] = [
    Padded {
        front: b"#",
        count: 65_535,
        end: b"\nfrob\n",
        status: 1,
        output: b"refused 2 Form\n",
    },
    Padded {
        front: b"#",
        count: 65_536,
        end: b"\nfrob\n",
        status: 1,
        output: b"refused 1 Long\n",
    },
    Padded {
        front: b"#",
        count: 65_535,
        end: b"",
        status: 0,
        output: b"",
    },
    Padded {
        front: b"#",
        count: 65_536,
        end: b"",
        status: 1,
        output: b"refused 1 Long\n",
    },
    Padded {
        front: b"app \"",
        count: 511,
        end: b"\"\nfrob\n",
        status: 1,
        output: b"refused 2 Form\n",
    },
    Padded {
        front: b"app \"",
        count: 512,
        end: b"\"\nfrob\n",
        status: 1,
        output: b"refused 1 TextFull\n",
    },
    Padded {
        front: b"#\xc3\xa9",
        count: 1,
        end: b"\nfrob\n",
        status: 1,
        output: b"refused 2 Form\n",
    },
    Padded {
        front: b"#\xff",
        count: 1,
        end: b"\nfrob\n",
        status: 1,
        output: b"refused 1 NotUtf8\n",
    },
    Padded {
        front: b"#\xc3",
        count: 1,
        end: b"\nfrob\n",
        status: 1,
        output: b"refused 1 NotUtf8\n",
    },
    Padded {
        front: b"app \"\xed\xa0\x80",
        count: 1,
        end: b"\"\nfrob\n",
        status: 1,
        output: b"refused 1 NotUtf8\n",
    },
];

/// Whether a replay of a script comes to what is due.
fn is_replayed(
    alloc: Global,
    script: Vec<u8>,
    outside: Outside,
    status: u8,
    output: &[u8],
) -> Option<bool> {
    let due = Due { status, output };
    comes_to(alloc, &["replay", "--brief"], script, outside, due)
}

/// A front, so many bytes `x`, and an end.
fn script_of(alloc: Global, row: &Padded) -> Option<Vec<u8>> {
    let mut script = row.front.to_vec(alloc).ok()?;
    for _ in 0..row.count {
        script.push(b'x').ok()?;
    }
    script.extend_from_slice(row.end).ok()?;
    Some(script)
}

/// Whether a row comes to what is due.
fn holds(alloc: Global, row: &Padded) -> Option<bool> {
    let script = script_of(alloc, row)?;
    is_replayed(alloc, script, AMPLE, row.status, row.output)
}

#[test]
fn lines_and_names_end_at_their_limits(rt: HostRuntime) {
    for row in &LINES {
        assert!(rt; holds(rt.alloc(), row) == Some(true), "{} bytes", row.count);
    }
}

/// A name with each escape there is, and names with what is none.
const NAMES: [(&str, u8, &str); 8] = [
    (
        "\\\"\\\\\\x01\\x02\\x03\\x04\\x05\\x06\\x07\\x08\\x09\\x0a\\x0b\\x0c\\x0d\\x0e\\x0f\\x10\\x11\\x12\\x13\\x14\\x15\\x16\\x17\\x18\\x19\\x1a\\x1b\\x1c\\x1d\\x1e\\x1f\\x7f",
        0,
        "quiet\nshow r0 a0 1\n| root - -1 application 0000000043000100 \"\\\"\\\\\\x01\\x02\\x03\\x04\\x05\\x06\\x07\\x08\\x09\\x0a\\x0b\\x0c\\x0d\\x0e\\x0f\\x10\\x11\\x12\\x13\\x14\\x15\\x16\\x17\\x18\\x19\\x1a\\x1b\\x1c\\x1d\\x1e\\x1f\\x7f\" \"\" - - - -\n",
    ),
    ("\\x00", 1, "refused 1 Form\n"),
    ("\\x20", 1, "refused 1 Form\n"),
    ("\\x0A", 1, "refused 1 Form\n"),
    ("\\x1", 1, "refused 1 Form\n"),
    ("\\n", 1, "refused 1 Form\n"),
    ("\\", 1, "refused 1 Form\n"),
    ("\u{1}", 1, "refused 1 Form\n"),
];

/// A script in which a reader shows an application of this name.
fn named(alloc: Global, name: &str) -> Option<Vec<u8>> {
    let mut script = b"app \"".to_vec(alloc).ok()?;
    script.extend_from_slice(name.as_bytes()).ok()?;
    script
        .extend_from_slice(b"\"\nreader\ndrain\nshow r0 a0\n")
        .ok()?;
    Some(script)
}

/// Whether a name is shown so.
fn is_named(alloc: Global, row: &(&str, u8, &str)) -> Option<bool> {
    let (name, status, output) = row;
    let script = named(alloc, name)?;
    is_replayed(alloc, script, AMPLE, *status, output.as_bytes())
}

#[test]
fn names_are_quoted_with_every_escape(rt: HostRuntime) {
    for row in &NAMES {
        assert!(rt; is_named(rt.alloc(), row) == Some(true), "{}", row.0);
    }
}

/// Scripts about their limit of 16,777,216 bytes: how many bytes of comments, and what stands behind them.
const LONG: [(usize, &str, u8, &str); 5] = [
    (16_777_216, "", 0, "show r0 a0 none\n"),
    (16_777_216, "#", 8, "show r0 a0 none\n"),
    (
        16_777_206,
        "show r0 a0",
        0,
        "show r0 a0 none\nshow r0 a0 none\n",
    ),
    (16_777_206, "show r0 a0\n", 8, "show r0 a0 none\n"),
    (
        16_777_205,
        "show r0 a0\n#",
        8,
        "show r0 a0 none\nshow r0 a0 none\n",
    ),
];

/// A script that shows once, with comments up to so many bytes, and an end.
fn long_script(alloc: Global, size: usize, end: &str) -> Option<Vec<u8>> {
    let mut script = b"app \"D\"\nreader\nshow r0 a0\n".to_vec(alloc).ok()?;
    script.resize(size.saturating_sub(1), b'#').ok()?;
    for line in 1..256usize {
        if let Some(last) = script.get_mut(line * 65_536 - 1) {
            *last = b'\n';
        }
    }
    script.push(b'\n').ok()?;
    script.extend_from_slice(end.as_bytes()).ok()?;
    Some(script)
}

/// Whether such a script comes to what is due.
fn ends_so(alloc: Global, row: &(usize, &str, u8, &str)) -> Option<bool> {
    let (size, end, status, output) = row;
    let script = long_script(alloc, *size, end)?;
    is_replayed(alloc, script, AMPLE, *status, output.as_bytes())
}

#[test]
fn scripts_end_at_their_limit(rt: HostRuntime) {
    for row in &LONG {
        assert!(rt;
            ends_so(rt.alloc(), row) == Some(true),
            "{} bytes, {}",
            row.0,
            row.1
        );
    }
}

/// A script of 37 bytes: its first show ends with byte 26, its second with byte 37.
const TWICE: &[u8] = b"app \"D\"\nreader\nshow r0 a0\nshow r0 a0\n";

/// What is written of it.
const SHOWN: &[u8] = b"show r0 a0 none\nshow r0 a0 none\n";

/// What is due where the source fails behind so many bytes.
fn shown_of(read: u64) -> &'static [u8] {
    if read < 26 {
        b""
    } else if read < 37 {
        b"show r0 a0 none\n"
    } else {
        SHOWN
    }
}

/// Whether a replay of these bytes comes to what is due.
fn replays(
    alloc: Global,
    script: &[u8],
    outside: Outside,
    status: u8,
    output: &[u8],
) -> Option<bool> {
    is_replayed(alloc, script.to_vec(alloc).ok()?, outside, status, output)
}

#[test]
fn a_read_that_fails_ends_behind_the_whole_lines_before_it(rt: HostRuntime) {
    for failing_read in 0..38u64 {
        let outside = Outside {
            most: 1,
            failing_read,
            failing_write: NEVER,
            peers: 0,
        };
        let holds = replays(rt.alloc(), TWICE, outside, 3, shown_of(failing_read));
        assert!(rt; holds == Some(true), "behind {failing_read} bytes");
    }
}

/// Whether, where the sink takes one byte in a call and fails after so many, the status is 4 and as many bytes are
/// written.
fn is_cut(alloc: Global, script: &[u8], written: u64, output: &[u8]) -> Option<bool> {
    let outside = Outside {
        most: 1,
        failing_read: NEVER,
        failing_write: written,
        peers: 0,
    };
    let due = output.get(..written as usize).unwrap_or(output);
    replays(alloc, script, outside, 4, due)
}

#[test]
fn a_write_that_fails_leaves_a_front_of_the_output(rt: HostRuntime) {
    for written in 0..32u64 {
        assert!(rt;
            is_cut(rt.alloc(), TWICE, written, SHOWN) == Some(true),
            "{written} bytes"
        );
    }
    for written in 0..15u64 {
        let holds = is_cut(rt.alloc(), b"frob\n", written, b"refused 1 Form\n");
        assert!(rt; holds == Some(true), "{written} bytes");
    }
}

/// Whether pieces of a size give the same output.
fn is_same_in_pieces(alloc: Global, most: usize) -> bool {
    let outside = Outside {
        most,
        failing_read: NEVER,
        failing_write: NEVER,
        peers: 0,
    };
    replays(alloc, TWICE, outside, 0, SHOWN) == Some(true)
        && replays(alloc, b"frob\n", outside, 1, b"refused 1 Form\n") == Some(true)
}

#[test]
fn pieces_of_any_size_give_the_same_output(rt: HostRuntime) {
    assert!(rt; is_same_in_pieces(rt.alloc(), 1));
    assert!(rt; is_same_in_pieces(rt.alloc(), 2));
    assert!(rt; is_same_in_pieces(rt.alloc(), 7));
    assert!(rt; is_same_in_pieces(rt.alloc(), 36));
    assert!(rt; is_same_in_pieces(rt.alloc(), 37));
    assert!(rt; is_same_in_pieces(rt.alloc(), 4096));
}

/// Commands, with a blank between two words, and their inputs.
const COMMANDS: [(&str, &[u8]); 9] = [
    ("replay", b"app \"D\"\n"),
    ("replay --wire", b"app \"D\"\n"),
    ("replay --brief --wire", TWICE),
    ("replay --brief", b"app \"D\"\nedit a0 remove 0\n"),
    ("check", HELLO),
    ("check", b"x\0\0\0\0\0\0\0\0\0\0\0\0\0\0\0"),
    ("make 2 1", b""),
    ("--version", b""),
    ("frob", b""),
];

/// What a command comes to, where so many bytes are moved in a call and a write fails.
fn ran_with(
    alloc: Global,
    words: &str,
    input: &[u8],
    most: usize,
    failing_write: u64,
) -> Option<(u8, Vec<u8>)> {
    let mut list = Vec::new(alloc);
    for word in words.split(' ') {
        list.push(word).ok()?;
    }
    let outside = Outside {
        most,
        failing_read: NEVER,
        failing_write,
        peers: 0,
    };
    ran(alloc, &list, input.to_vec(alloc).ok()?, outside)
}

/// Whether a command writes something, the same where each call moves one byte, and a front of it with status 4 where
/// a byte cannot be written.
fn is_cut_at_each_byte(alloc: Global, words: &str, input: &[u8]) -> Option<bool> {
    let whole = ran_with(alloc, words, input, usize::MAX, NEVER)?;
    if ran_with(alloc, words, input, 1, NEVER)? != whole {
        return Some(false);
    }
    for written in 0..whole.1.len() {
        let (status, front) = ran_with(alloc, words, input, 1, written as u64)?;
        if status != 4 || front.len() != written || !whole.1.as_slice().starts_with(&front) {
            return Some(false);
        }
    }
    Some(!whole.1.is_empty())
}

#[test]
fn what_each_command_writes_is_cut_where_a_write_fails(rt: HostRuntime) {
    for (words, input) in &COMMANDS {
        let holds = is_cut_at_each_byte(rt.alloc(), words, input);
        assert!(rt; holds == Some(true), "{words}");
    }
}
