//! Texts that no reader's message begins: cut anywhere, changed anywhere, long lines, numbers too large.

use crate::readers::{SENT_HELLO, found};
use atspi_base::{Bytes, NoMemory};
use std::alloc::Global;
use std::test::*;

/// Whether each front of the text but the whole is none.
fn is_none_cut(alloc: Global, text: &[u8]) -> bool {
    for len in 0..text.len() {
        if found(alloc, &text[..len]).is_some() {
            return false;
        }
    }
    true
}

#[test]
fn a_text_that_is_cut_is_none(rt: HostRuntime) {
    assert!(rt; is_none_cut(rt.alloc(), SENT_HELLO.as_bytes()));
}

/// Appends a text with the last bit of one byte turned.
fn put_turned(text: &[u8], at: usize, out: &mut Bytes) -> Result<(), NoMemory> {
    for (i, byte) in text.iter().enumerate() {
        let turned = if i == at { *byte ^ 1 } else { *byte };
        out.push(turned)?;
    }
    Ok(())
}

/// What is found in a text with one byte turned.
fn found_turned(alloc: Global, text: &[u8], at: usize) -> Option<(u32, usize)> {
    let mut turned = Bytes::new(alloc);
    match put_turned(text, at, &mut turned) {
        Ok(()) => found(alloc, turned.as_slice()),
        Err(_) => Some((99, 2)),
    }
}

/// The place of the reader's digit, behind `sent r`.
const DIGIT: usize = 6;

/// Whether a text with one byte turned is none, but for another reader's digit.
fn is_none_turned(alloc: Global, text: &[u8]) -> bool {
    for at in 0..text.len() {
        let due = if at == DIGIT { Some((1, 0)) } else { None };
        if found_turned(alloc, text, at) != due {
            return false;
        }
    }
    true
}

#[test]
fn a_text_with_one_byte_changed_is_none(rt: HostRuntime) {
    assert!(rt; is_none_turned(rt.alloc(), SENT_HELLO.as_bytes()));
}

/// What stands in place of `sent r0 call l 0 1 `, and whether the text is then one of a reader.
const HEADS: &str = "\
sent r3 call l 0 1 => 3
sent r4 call l 0 1 => none
sent r10 call l 0 1 => none
sent r00 call l 0 1 => none
sent r4294967296 call l 0 1 => none
sent r99999999999999999999 call l 0 1 => none
sent r call l 0 1 => none
sent r/ call l 0 1 => none
sent a0 call l 0 1 => none
sent reg call l 0 1 => none
sent bus call l 0 1 => none
got r0 bus 1 => none
sent r0  call l 0 1 => none
sent r0 call l 0 2 => none
sent r0 call l 0 01 => none
sent r0 call l 0 4294967297 => none
sent r0 call l 256 1 => none
sent r0 call B 0 1 => none
sent r0 signal l 0 1 => none
-- => none";

/// Appends a text with another head.
fn put_headed(head: &str, out: &mut Bytes) -> Result<(), NoMemory> {
    out.extend(head.as_bytes())?;
    out.push(b' ')?;
    let text = SENT_HELLO.as_bytes();
    let rest = text
        .strip_prefix(b"sent r0 call l 0 1 ".as_slice())
        .unwrap_or(text);
    out.extend(rest)
}

/// Whether a row of heads is as it says.
fn is_headed_so(alloc: Global, row: &str) -> Option<bool> {
    let (head, due) = row.split_once(" => ")?;
    let due = due.parse::<u32>().ok();
    let mut text = Bytes::new(alloc);
    put_headed(head, &mut text).ok()?;
    let reader = found(alloc, text.as_slice()).map(|it| it.0);
    Some(reader == due)
}

#[test]
fn other_words_and_numbers_are_none(rt: HostRuntime) {
    for row in HEADS.lines() {
        assert!(rt; is_headed_so(rt.alloc(), row) == Some(true), "{row}");
    }
}

/// Appends a piece so many times.
fn put_many(piece: &str, count: u32, out: &mut Bytes) -> Result<(), NoMemory> {
    for _ in 0..count {
        out.extend(piece.as_bytes())?;
    }
    Ok(())
}

/// Appends a front, a piece so many times, and a back.
fn put_long(
    front: &str,
    piece: &str,
    count: u32,
    back: &str,
    out: &mut Bytes,
) -> Result<(), NoMemory> {
    out.extend(front.as_bytes())?;
    put_many(piece, count, out)?;
    out.extend(back.as_bytes())
}

/// What is found in such a text.
fn found_long(
    alloc: Global,
    front: &str,
    piece: &str,
    count: u32,
    back: &str,
) -> Option<(u32, usize)> {
    let mut text = Bytes::new(alloc);
    match put_long(front, piece, count, back, &mut text) {
        Ok(()) => found(alloc, text.as_slice()),
        Err(_) => Some((99, 3)),
    }
}

#[test]
fn long_lines_are_none(rt: HostRuntime) {
    let alloc = rt.alloc();
    assert!(rt; found_long(alloc, "sent r0 ", "x", 66_560, "\n= 00\n").is_none());
    assert!(rt; found_long(alloc, "sent r0 x\n= ", "00", 66_560, "\n").is_none());
    assert!(rt; found_long(alloc, "sent r0 x\n= ", "00", 66_560, "").is_none());
    assert!(rt; found_long(alloc, "sent r0 call l 0 ", "1", 66_560, "\n= 6c\n").is_none());
}

#[test]
fn separators_are_none(rt: HostRuntime) {
    assert!(rt; found_long(rt.alloc(), "", "--\n", 100_000, SENT_HELLO).is_none());
    assert!(rt; found_long(rt.alloc(), SENT_HELLO, "--\n", 100_000, "") == Some((0, 300_000)));
}
