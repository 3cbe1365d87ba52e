//! A listener with many pairs: they are listed, and it leaves with all of them.

use crate::registry::filled::{Filling, fill};
use crate::registry::plays::goes_on;
use atspi_base::Bytes;
use std::alloc::Global;
use std::test::*;

/// How many pairs the listener `:1.2` has; beside each the listener `:1.3` has one with the same pattern.
const PAIRS: u32 = 500;

/// A listener registers a pattern of a number, which is told by the message of another.
const REGISTERS: &str = "\
> quiet 1 $W registry Registry RegisterEvent s=object:$A
signal l 1 $B path=/org/a11y/atspi/registry interface=org.a11y.atspi.Registry member=EventListenerRegistered signature=ss [\"$W\" \"object:$A\"]
";

/// The pair of a listener that left is told.
const LOST: &str =
    "signal l 1 $B path=/org/a11y/atspi/registry interface=org.a11y.atspi.Registry member=EventListenerDeregistered signature=ss [\"$W\" \"object:$A\"]\n";

/// Appends a line for a listener's pattern, filled with the message's number too.
fn put(out: &mut Bytes, lines: &str, word: &str, first: u32, second: u32) -> Option<()> {
    let filling = Filling {
        word,
        first,
        second,
    };
    fill(out, lines, filling)
}

/// Both listeners register all patterns, by turns.
fn put_registered(out: &mut Bytes) -> Option<()> {
    let mut number = 4u32;
    for pattern in 0..PAIRS {
        put(out, REGISTERS, ":1.2", pattern, number)?;
        put(out, REGISTERS, ":1.3", pattern, number.saturating_add(1))?;
        number = number.saturating_add(2);
    }
    Some(())
}

/// The first listener leaves, which is told of each of its pairs.
fn put_lost(out: &mut Bytes) -> Option<()> {
    out.extend(b"> signal 9 bus bus bus NameOwnerChanged s=:1.2 s=:1.2 s=\n")
        .ok()?;
    let mut number = 1004u32;
    for pattern in 0..PAIRS {
        put(out, LOST, ":1.2", pattern, number)?;
        number = number.saturating_add(1);
    }
    Some(())
}

/// The pairs of the other are left.
fn put_left(out: &mut Bytes) -> Option<()> {
    out.extend(
        b"> call 9 :1.4 registry Registry GetRegisteredEvents\nreturn l 1 1504 reply=9 destination=:1.4 signature=a(ss) [[",
    ).ok()?;
    for pattern in 0..PAIRS {
        let gap = if pattern == 0 { "" } else { " " };
        put(out, "$W(\":1.3\" \"object:$A\")", gap, pattern, 0)?;
    }
    out.extend(b"]]\n").ok()
}

/// The whole conversation.
fn script(alloc: Global) -> Option<Bytes> {
    let mut out = Bytes::new(alloc);
    put_registered(&mut out)?;
    put_lost(&mut out)?;
    put_left(&mut out)?;
    Some(out)
}

#[test]
fn a_listener_leaves_with_many_pairs(rt: HostRuntime) {
    let script = script(rt.alloc()).expect(&rt, "memory");
    let text = std::str::from_utf8(script.as_slice()).expect(&rt, "a text");
    assert!(rt; goes_on(&rt, text));
}
