//! Streams of messages, in pieces.

use crate::faults::changed;
use crate::samples::{HELLO, RETURN};
use atspi_stream::{Feeder, Got};
use std::alloc::Global;
use std::test::*;

/// A return in the other order, of serial 3.
const BIG: &[u8] = b"B\x02\x01\x01\0\0\0\0\0\0\0\x03\0\0\0\x08\x05\x01u\0\0\0\0\x01";

/// A return of serial 2 that replies to serial 0.
const BAD: &[u8] = b"l\x02\x01\x01\0\0\0\0\x02\0\0\0\x08\0\0\0\x05\x01u\0\0\0\0\0";

/// What a feeder gives next: (1, serial) for a message, (0, 0) for none yet, (place, reason) for a fault.
fn next_of(feeder: &mut Feeder) -> (u32, u32) {
    match feeder.next() {
        Got::Message(message) => (1, message.serial),
        Got::NotYet => (0, 0),
        Got::Bad(fault) => (fault.place, fault.reason as u32),
    }
}

/// Whether a feeder takes bytes.
fn takes(feeder: &mut Feeder, piece: &[u8]) -> bool {
    feeder.feed(piece).is_ok()
}

/// Whether a feeder takes bytes and then gives this.
fn gives(feeder: &mut Feeder, piece: &[u8], due: (u32, u32)) -> bool {
    takes(feeder, piece) && next_of(feeder) == due
}

/// Whether of bytes in two pieces comes this behind each of the two, and so many bytes are held at the end.
fn come(
    alloc: Global,
    bytes: &[u8],
    cut: usize,
    first: (u32, u32),
    second: (u32, u32),
    held: usize,
) -> bool {
    let mut feeder = Feeder::new(alloc);
    let (front, back) = bytes.split_at(cut.min(bytes.len()));
    let is_first = gives(&mut feeder, front, first);
    let is_second = gives(&mut feeder, back, second);
    is_first && is_second && feeder.len() == held
}

/// How many bytes are missing behind the first ones.
fn missing_behind(alloc: Global, bytes: &[u8], count: usize) -> usize {
    let mut feeder = Feeder::new(alloc);
    let (front, _) = bytes.split_at(count.min(bytes.len()));
    let _ = feeder.feed(front);
    feeder.missing()
}

/// How many messages come until something else does.
fn count_messages(feeder: &mut Feeder) -> u32 {
    for count in 0..u32::MAX {
        let Got::Message(_) = feeder.next() else {
            return count;
        };
    }
    u32::MAX
}

/// Some bytes, many times.
fn repeated(alloc: Global, bytes: &[u8], count: u32) -> Vec<u8> {
    let mut all = Vec::new(alloc);
    for _ in 0..count {
        let _ = all.extend_from_slice(bytes);
    }
    all
}

/// How many messages come of a stream that is fed byte by byte, and how many bytes are held at the end.
fn byte_by_byte(alloc: Global, bytes: &[u8]) -> (u64, usize) {
    let mut feeder = Feeder::new(alloc);
    let mut messages = 0u64;
    for byte in bytes {
        let _ = feeder.feed(&[*byte]);
        messages = messages.saturating_add(count_messages(&mut feeder) as u64);
    }
    (messages, feeder.len())
}

/// The first cut of the call of Hello behind which it does not come with its last byte.
fn first_bad_cut(alloc: Global) -> Option<usize> {
    for cut in 0..128 {
        if !come(alloc, HELLO, cut, (0, 0), (1, 1), 0) {
            return Some(cut);
        }
    }
    None
}

/// The call of Hello without its last byte.
fn all_but_one(alloc: Global) -> Vec<u8> {
    changed(alloc, HELLO, "127 bytes")
}

#[test]
fn a_message_comes_with_its_last_byte(rt: HostRuntime) {
    assert!(rt; first_bad_cut(rt.alloc()).is_none());
    assert!(rt; come(rt.alloc(), HELLO, 128, (1, 1), (0, 0), 0));
    assert!(rt; byte_by_byte(rt.alloc(), HELLO) == (1, 0));
    assert!(rt; byte_by_byte(rt.alloc(), &all_but_one(rt.alloc())) == (0, 127));
    assert!(rt; come(rt.alloc(), BIG, 8, (0, 0), (1, 3), 0));
}

/// Behind how many bytes of the call of Hello how many are missing.
const MISSING: &[(usize, usize)] = &[(0, 16), (15, 1), (16, 112), (127, 1), (128, 0)];

/// Whether behind so many bytes so many are missing.
fn are_missing(alloc: Global) -> bool {
    for (count, missing) in MISSING {
        if missing_behind(alloc, HELLO, *count) != *missing {
            return false;
        }
    }
    missing_behind(alloc, BIG, 16) == 8
}

/// Whether the call of Hello with serial 0, which is at fault in its first 16 bytes, is told as soon as these are
/// there, and none of its bytes is awaited.
fn early_fault_is_told(alloc: Global) -> bool {
    let early = changed(alloc, HELLO, "128 bytes 8:0");
    missing_behind(alloc, &early, 16) == 0
        && come(alloc, &early, 16, (8, 26), (8, 26), 128)
        && come(alloc, &early, 15, (0, 0), (8, 26), 128)
}

#[test]
fn what_is_missing_is_told(rt: HostRuntime) {
    assert!(rt; are_missing(rt.alloc()));
    assert!(rt; early_fault_is_told(rt.alloc()));
}

/// Whether a message comes, then a fault, and nothing behind it.
fn ends_with_a_fault(feeder: &mut Feeder) -> bool {
    takes(feeder, RETURN)
        && takes(feeder, BAD)
        && gives(feeder, RETURN, (1, 2))
        && next_of(feeder) == (20, 32)
        && next_of(feeder) == (20, 32)
        && gives(feeder, BIG, (20, 32))
        && feeder.len() == 72
}

#[test]
fn nothing_comes_behind_a_fault(rt: HostRuntime) {
    let mut feeder = Feeder::new(rt.alloc());
    assert!(rt; ends_with_a_fault(&mut feeder));
}

/// Whether a feeder gives a million messages of one piece.
fn gives_a_million(feeder: &mut Feeder, million: &[u8]) -> bool {
    million.len() == 24_000_000
        && takes(feeder, million)
        && count_messages(feeder) == 1_000_000
        && feeder.len() == 0
}

/// Whether a million messages come of one piece.
fn a_million_come(alloc: Global) -> bool {
    let mut feeder = Feeder::new(alloc);
    let million = repeated(alloc, RETURN, 1_000_000);
    gives_a_million(&mut feeder, &million)
}

/// How many messages come of ten thousand, byte by byte, and how many bytes are held at the end.
fn ten_thousand_byte_by_byte(alloc: Global) -> (u64, usize) {
    let some = repeated(alloc, HELLO, 10_000);
    byte_by_byte(alloc, &some)
}

#[test]
fn a_long_stream_is_linear_work(rt: HostRuntime) {
    assert!(rt; a_million_come(rt.alloc()));
    assert!(rt; ten_thousand_byte_by_byte(rt.alloc()) == (10_000, 0));
}

/// A message of a type without a meaning, as far as the first of its two arrays of bytes: 32 bytes of header, and a
/// length of 67,108,844. With both arrays it has 134,217,728 bytes, as many as a message may have.
const LONGEST: &[u8] = b"l\x05\0\x01\xe0\xff\xff\x07\x05\0\0\0\x0a\0\0\0\
\x08\x01g\0\x04ayay\0\0\0\0\0\0\0\xec\xff\xff\x03";

/// Whether nothing comes of a feeder before a piece, which it then takes.
fn waits_for(feeder: &mut Feeder, piece: &[u8]) -> bool {
    next_of(feeder) == (0, 0) && takes(feeder, piece)
}

/// Whether the next message has serial 5 and two arrays of 67,108,844 bytes.
fn gives_longest(feeder: &mut Feeder) -> Option<bool> {
    let Got::Message(message) = feeder.next() else {
        return None;
    };
    let mut body = message.body;
    let first = body.next()?.bytes()?.len();
    let second = body.next()?.bytes()?.len();
    let is_due = first == 67_108_844 && second == 67_108_844 && body.next().is_none();
    Some(message.serial == 5 && is_due)
}

/// Whether a feeder takes the longest message in pieces, of which each array is one, and gives it.
fn takes_longest(feeder: &mut Feeder, array: &[u8]) -> bool {
    let (_, second_length) = LONGEST.split_at(LONGEST.len().min(32));
    waits_for(feeder, LONGEST)
        && waits_for(feeder, array)
        && waits_for(feeder, second_length)
        && waits_for(feeder, array)
        && feeder.len() == 134_217_728
        && gives_longest(feeder) == Some(true)
        && next_of(feeder) == (0, 0)
        && feeder.len() == 0
}

/// Whether a body that is one byte longer passes the limit.
fn refuses_longer(feeder: &mut Feeder, longer: &[u8]) -> bool {
    gives(feeder, longer, (4, 25)) && feeder.len() == 36
}

/// Whether the longest message is given, and one that states a longer body is refused behind it.
fn longest_is_given(alloc: Global, longer: &[u8]) -> bool {
    let mut feeder = Feeder::new(alloc);
    match vec![in alloc; 7u8; 67_108_844] {
        Ok(array) => takes_longest(&mut feeder, &array) && refuses_longer(&mut feeder, longer),
        Err(_) => false,
    }
}

#[test]
fn the_longest_message_is_given(rt: HostRuntime) {
    let longer = changed(rt.alloc(), LONGEST, "36 bytes 4:225");
    assert!(rt; longest_is_given(rt.alloc(), &longer));
}
