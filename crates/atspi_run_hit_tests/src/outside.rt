//! Sources and sinks that fail, that move little, and inputs at the limit.

use crate::running::{AMPLE, NEVER, Outside, ends};
use std::alloc::Global;
use std::test::*;

/// An input that writes three lines, the last of them a refusal.
const INPUT: &[u8] = b"app \"T\"\nfollow 0 1\nextents 0\nremove 0\nfollow 0 1\n";

/// What it writes.
const TEXT: &[u8] =
    b"follow none\nreturn l 1 1 reply=1 destination=:1.0 signature=(iiii) [(0 0 0 0)]\nrefused 4 IsRoot\n";

/// Whether the input comes to this.
fn comes_to(alloc: Global, outside: Outside, status: u8, text: &[u8]) -> Option<bool> {
    ends(
        alloc,
        Vec::from_slice(alloc, INPUT).ok()?,
        outside,
        status,
        text,
    )
}

/// Whether, where the sink takes one byte in a call and fails after so many, the status is 4 and as many bytes are
/// written.
fn is_cut(alloc: Global, written: u64) -> Option<bool> {
    let outside = Outside {
        most: 1,
        failing_read: NEVER,
        failing_write: written,
    };
    comes_to(
        alloc,
        outside,
        4,
        TEXT.get(..written as usize).unwrap_or(TEXT),
    )
}

#[test]
fn a_write_that_fails(rt: HostRuntime) {
    for written in 0..TEXT.len() as u64 {
        assert!(rt;
            is_cut(rt.alloc(), written) == Some(true),
            "{written} bytes"
        );
    }
}

/// Whether pieces of a size give the same.
fn is_same(alloc: Global, most: usize) -> bool {
    let outside = Outside {
        most,
        failing_read: NEVER,
        failing_write: NEVER,
    };
    comes_to(alloc, outside, 1, TEXT) == Some(true)
}

#[test]
fn pieces_of_any_size(rt: HostRuntime) {
    assert!(rt; is_same(rt.alloc(), 1));
    assert!(rt; is_same(rt.alloc(), 2));
    assert!(rt; is_same(rt.alloc(), 7));
    assert!(rt; is_same(rt.alloc(), usize::MAX));
}

/// Whether, where the source fails behind so many bytes, the status is this and this is written: the whole lines
/// before are done.
fn is_read(alloc: Global, bytes: u64, status: u8, text: &[u8]) -> Option<bool> {
    let outside = Outside {
        most: 1,
        failing_read: bytes,
        failing_write: NEVER,
    };
    comes_to(alloc, outside, status, text)
}

#[test]
fn a_read_that_fails(rt: HostRuntime) {
    let alloc = rt.alloc();
    assert!(rt; is_read(alloc, 0, 3, b"") == Some(true));
    assert!(rt; is_read(alloc, 18, 3, b"") == Some(true));
    assert!(rt; is_read(alloc, 19, 3, b"follow none\n") == Some(true));
    assert!(rt; is_read(alloc, 37, 3, TEXT.get(..79).unwrap_or(TEXT)) == Some(true));
    assert!(rt; is_read(alloc, 38, 1, TEXT) == Some(true));
}

/// Comments of so many bytes in all, each line feed counted, and an unfinished line that is no line where the input
/// passes the limit.
fn comments(alloc: Global, count: usize) -> Option<Vec<u8>> {
    let mut input = Vec::new(alloc);
    for at in 0..count {
        input
            .push(if at % 32_768 == 32_767 { b'\n' } else { b'#' })
            .ok()?;
    }
    Some(input)
}

#[test]
fn inputs_at_the_limit(rt: HostRuntime) {
    let alloc = rt.alloc();
    let whole = comments(alloc, 16_777_216).expect(&rt, "memory");
    assert!(rt; ends(alloc, whole, AMPLE, 0, b"") == Some(true));
    let longer = comments(alloc, 16_777_217).expect(&rt, "memory");
    assert!(rt; ends(alloc, longer, AMPLE, 8, b"") == Some(true));
}
