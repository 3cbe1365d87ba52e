//! Bytes from seeds, of which the three readers tell the same, and bodies of which some values were handed out.

use crate::marshal::told;
use atspi_base::Bytes;
use atspi_marshal_in_place::Fields;
use atspi_marshal_in_place::codes::TysRef;
use atspi_types::{Order, ValueRef, Values};
use std::alloc::Global;
use std::process::Abort;
use std::test::*;

/// A byte by the high byte of a state: small ones mostly, so that lengths are within bounds often.
fn byte_of(high: u8) -> u8 {
    match high % 8 {
        0 => 1,
        1 => 4,
        2 => b'/',
        3 => b'y',
        4 => high,
        _ => 0,
    }
}

/// 40 bytes from a seed.
fn seeded(seed: u32) -> [u8; 40] {
    let mut bytes = [0u8; 40];
    let mut state = seed;
    for byte in &mut bytes {
        state = state.wrapping_mul(1664525).wrapping_add(1013904223);
        *byte = byte_of((state >> 24) as u8);
    }
    bytes
}

/// In how many of the two orders the bytes of a seed are read as a value, as all readers tell; 1000 where they differ.
fn read_at(alloc: Global, codes: &str, seed: u32) -> u32 {
    let bytes = seeded(seed);
    let (little, _) = told(alloc, Order::Little, codes.as_bytes(), 0, &bytes);
    let (big, _) = told(alloc, Order::Big, codes.as_bytes(), 0, &bytes);
    if little > 90 || big > 90 {
        return 1000;
    }
    u32::from(little == 0) + u32::from(big == 0)
}

/// How often the bytes of 60 seeds are read as a value of each of these types.
fn times_read(rt: &impl Abort, alloc: Global, all: &str) -> u32 {
    let mut times = 0u32;
    for codes in all.split(' ') {
        for seed in 0..60 {
            let read = read_at(alloc, codes, seed);
            assert!(rt; read <= 2, "{codes} {seed}");
            times = times.wrapping_add(read);
        }
    }
    times
}

/// The codes of types.
const TYPES: &str = "y b n q i u x t d s o g v ay aq at as (ybs) a(y) a(yv) a{yu} a{sv} a{y(ay)}";

#[test]
fn readers_tell_the_same_of_bytes_from_seeds(rt: HostRuntime) {
    // Not all bytes are refused.
    assert!(rt; times_read(&rt, rt.alloc(), TYPES) > 100);
}

/// How many values there are, and the last where it is a number.
fn count_and_last(values: &Values) -> (usize, u32) {
    if values.len() == 0 {
        return (0, 0);
    }
    match values.at(values.len() - 1) {
        ValueRef::U32(n) => (values.len(), n),
        _ => (values.len(), 0),
    }
}

/// How many of the values of a body are left, behind so many that were handed out, and the last of them where it is a
/// number.
fn left(alloc: Global, behind: u32) -> Option<(usize, u32)> {
    let types = TysRef::parse(b"yu").ok()?;
    let (mut fields, _) = Fields::read(Order::Big, b"\x05\0\0\0\0\0\0\x06", 0, types).ok()?;
    for _value in 0..behind {
        let _ = fields.next();
    }
    match fields.values(alloc) {
        Ok(values) => Some(count_and_last(&values)),
        Err(_) => None,
    }
}

#[test]
fn what_is_left_is_owned_in_order(rt: HostRuntime) {
    assert!(rt; left(rt.alloc(), 0) == Some((2, 6)));
    assert!(rt; left(rt.alloc(), 1) == Some((1, 6)));
}
