//! The first fault of bytes that are no message, as both readers tell it: the one that keeps a message, and the one
//! that leaves it where it lies.

use crate::samples::{BIG, BODY, HELLO, RETURN, UNKNOWN};
use atspi_message::{Message, total};
use atspi_message_in_place::MessageRef;
use atspi_types::{Fault, ReadFault};
use std::alloc::Global;
use std::process::Abort;

/// What the reader tells that leaves a message where it lies: (0, 0), or the place and the reason of the first fault.
fn told_lying(read: Result<MessageRef<'_>, Fault>) -> (u32, u32) {
    match read {
        Ok(_) => (0, 0),
        Err(fault) => (fault.place, u32::from(fault.reason)),
    }
}

/// The same of the reader that keeps a message.
fn told_kept(read: Result<Message, ReadFault>) -> (u32, u32) {
    match read {
        Ok(_) => (0, 0),
        Err(ReadFault::Bad(fault)) => (fault.place, u32::from(fault.reason)),
        Err(ReadFault::NoMemory) => (0, 99),
    }
}

/// What both readers tell; (length, 100) where a message is not as long as it states, (0, 97) where they differ.
fn told(alloc: Global, bytes: &[u8]) -> (u32, u32) {
    let Some(first) = bytes.first_chunk::<16>() else {
        return (0, 98);
    };
    match total(first) {
        Err(fault) => (fault.place, u32::from(fault.reason)),
        Ok(length) => {
            if length as usize != bytes.len() {
                return (length, 100);
            }
            let lying = told_lying(MessageRef::parse(bytes));
            let kept = told_kept(Message::parse(alloc, bytes));
            if lying == kept { lying } else { (0, 97) }
        }
    }
}

/// The number that a word spells.
fn number(word: &str) -> u32 {
    word.parse::<u32>().unwrap_or(u32::MAX)
}

/// The byte that a word spells: a number, or a letter behind a quote.
fn byte_of(word: &str) -> u8 {
    match word.strip_prefix('\'') {
        Some(letter) => letter.as_bytes().first().copied().unwrap_or(0),
        None => word.parse::<u8>().unwrap_or(0),
    }
}

/// Changes a byte, as `PLACE:BYTE` spells it, where there is one.
fn change(bytes: &mut [u8], spelled: &str) {
    let (place, byte) = spelled.split_once(':').unwrap_or((spelled, ""));
    if let Some(old) = bytes.get_mut(number(place) as usize) {
        *old = byte_of(byte);
    }
}

/// The first bytes, so many of them, with zeros where they are fewer.
fn first_bytes(alloc: Global, bytes: &[u8], len: u32) -> Vec<u8> {
    let mut all = Vec::new(alloc);
    for place in 0..len.min(200) {
        let _ = all.push(bytes.get(place as usize).copied().unwrap_or(0));
    }
    all
}

/// The first bytes, some of them changed, as `LENGTH bytes CHANGES` spells it.
pub(crate) fn changed(alloc: Global, bytes: &[u8], spelled: &str) -> Vec<u8> {
    let mut words = spelled.split(' ');
    let mut all = first_bytes(alloc, bytes, number(words.next().unwrap_or("")));
    for word in words.skip(1) {
        change(&mut all, word);
    }
    all
}

/// Whether a row `LENGTH bytes CHANGES => PLACE REASON` of a message holds.
fn holds(alloc: Global, bytes: &[u8], row: &str) -> bool {
    let (spelled, due) = row.split_once(" => ").unwrap_or((row, ""));
    let (place, reason) = due.split_once(' ').unwrap_or((due, ""));
    told(alloc, &changed(alloc, bytes, spelled)) == (number(place), number(reason))
}

/// Each row of a message holds.
fn try_rows(rt: &impl Abort, alloc: Global, bytes: &[u8], rows: &str) {
    for row in rows.lines() {
        assert!(rt; holds(alloc, bytes, row), "{row}");
    }
}

/// The call of Hello.
const CALLS: &str = "\
128 bytes => 0 0
128 bytes 2:255 => 0 0
128 bytes 1:4 => 0 0
128 bytes 1:5 => 0 0
128 bytes 1:255 => 0 0
128 bytes 0:'x => 0 22
128 bytes 0:'B => 4 25
128 bytes 1:0 => 1 23
128 bytes 3:2 => 3 24
128 bytes 7:8 => 4 25
128 bytes 8:0 => 8 26
128 bytes 15:5 => 12 27
128 bytes 16:0 => 16 28
128 bytes 48:1 => 48 30
128 bytes 18:'s => 17 29
128 bytes 18:'h => 18 3
128 bytes 17:2 => 19 2
128 bytes 17:0 => 17 16
128 bytes 24:'x => 20 15
128 bytes 45:1 => 45 12
128 bytes 46:1 => 46 10
128 bytes 56:'1 => 52 31
128 bytes 88:'1 => 84 31
128 bytes 104:'. => 100 31
128 bytes 96:5 => 97 29
128 bytes 100:21 => 100 18
128 bytes 80:10 => 125 34
128 bytes 80:10 125:1 => 125 10
128 bytes 16:10 => 125 34
128 bytes 1:2 => 125 34
128 bytes 1:3 => 125 34
128 bytes 1:4 16:10 => 125 34
128 bytes 1:4 48:10 => 125 34
128 bytes 1:4 80:10 => 125 34
128 bytes 50:'o => 49 29
128 bytes 82:'g => 81 29
128 bytes 98:'o => 97 29
128 bytes 96:7 98:'o => 97 29
128 bytes 96:4 98:'o => 97 29
128 bytes 96:9 => 97 29
128 bytes 1:3 48:4 => 125 34
128 bytes 127:1 => 127 10";

/// A return.
const RETURNS: &str = "\
24 bytes => 0 0
24 bytes 20:0 => 20 32
24 bytes 16:9 => 20 33
24 bytes 16:9 20:0 => 24 34
24 bytes 18:'i => 17 29
24 bytes 1:1 => 24 34
24 bytes 1:3 => 24 34";

/// A message with a body.
const BODIES: &str = "\
32 bytes => 0 0
33 bytes 4:9 => 32 21
31 bytes 4:7 => 28 19
24 bytes 4:0 => 24 19
32 bytes 16:10 => 24 35
32 bytes 12:6 20:0 21:0 22:0 => 24 35
32 bytes 26:1 => 26 10
32 bytes 21:'( => 23 6
32 bytes 18:'s => 17 29";

/// A message with a field without a meaning.
const FIELDS: &str = "\
24 bytes => 0 0
24 bytes 18:'b => 20 18
24 bytes 17:0 => 17 16
24 bytes 18:'( => 19 6
24 bytes 19:1 => 19 12
24 bytes 21:1 => 21 10";

#[test]
fn the_first_fault_is_told(rt: HostRuntime) {
    try_rows(&rt, rt.alloc(), HELLO, CALLS);
    try_rows(&rt, rt.alloc(), RETURN, RETURNS);
    try_rows(&rt, rt.alloc(), BIG, "24 bytes => 0 0");
    try_rows(&rt, rt.alloc(), BODY, BODIES);
    try_rows(&rt, rt.alloc(), UNKNOWN, FIELDS);
}
