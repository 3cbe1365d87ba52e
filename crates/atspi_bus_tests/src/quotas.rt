//! Quotas: 89 bytes of a return and 169 of a signal fit a quota of 258, and not one of 257.

use crate::words::{check, number, put, put_number};
use atspi_bus_queues::Queues;
use atspi_match::routing::Why;
use std::alloc::Global;
use std::process::Abort;
use std::str::SplitWhitespace;

/// Pushes the bytes that a word spells: itself, or the letter `x` as often as it says behind `x*`; fewer than 1,000.
fn push(rt: &impl Abort, alloc: Global, queues: &mut Queues, conn: u32, word: &str) {
    let bytes = match word.strip_prefix("x*") {
        Some(count) => "x".repeat(alloc, count.parse::<usize>().expect(rt, "a number")),
        None => word.repeat(alloc, 1),
    };
    let bytes = bytes.expect(rt, "memory");
    assert!(rt; bytes.len() < 1000);
    queues.push(conn, bytes.as_bytes()).expect(rt, "memory");
}

/// Takes so many bytes from the front, where so many wait.
fn pop(rt: &impl Abort, queues: &mut Queues, conn: u32, n: u32) {
    assert!(rt; n <= queues.waiting(conn));
    queues.pop(conn, n);
}

/// Takes so many bytes back, where so many wait.
fn take_back(rt: &impl Abort, queues: &mut Queues, conn: u32, n: u32) {
    assert!(rt; n <= queues.waiting(conn));
    queues.take_back(conn, n);
}

/// Tells why a connection is to be closed.
fn put_why(rt: &impl Abort, told: &mut String, why: Why) {
    match why {
        Why::NotHello => put(rt, told, " not-hello"),
        Why::Quota { queued, len } => {
            put(rt, told, " ");
            put_number(rt, told, queued);
            put(rt, told, " ");
            put_number(rt, told, len);
        }
    }
}

/// Tells which connection is to be closed first.
fn put_due(rt: &impl Abort, told: &mut String, due: Option<(u32, Why)>) {
    match due {
        Some((conn, why)) => {
            put_number(rt, told, conn);
            put_why(rt, told, why);
        }
        None => put(rt, told, "none"),
    }
}

/// Does to a connection what a word says, and those behind it.
fn change(
    rt: &impl Abort,
    alloc: Global,
    queues: &mut Queues,
    word: &str,
    words: &mut SplitWhitespace,
) {
    let conn = number(rt, words);
    match word {
        "open" => queues.open_queue(conn).expect(rt, "memory"),
        "doom" => queues.doom(conn, Why::NotHello).expect(rt, "memory"),
        "close" => queues.close(conn),
        "pop" => pop(rt, queues, conn, number(rt, words)),
        "back" => take_back(rt, queues, conn, number(rt, words)),
        _ => push(rt, alloc, queues, conn, words.next().unwrap_or("")),
    }
}

/// Does what words ask for, and tells what comes of it.
fn ask(rt: &impl Abort, alloc: Global, queues: &mut Queues, asked: &str, told: &mut String) {
    let mut words = asked.split_whitespace();
    match words.next().unwrap_or("") {
        "due" => put_due(rt, told, queues.first_due()),
        "waiting" => put_number(rt, told, queues.waiting(number(rt, &mut words))),
        "front" => {
            let front = queues.front(number(rt, &mut words));
            put(rt, told, std::str::from_utf8(front).unwrap_or("no text"));
        }
        word => change(rt, alloc, queues, word, &mut words),
    }
}

/// Whether a row `WORDS => DUE` comes to what is due.
fn holds(rt: &impl Abort, alloc: Global, queues: &mut Queues, row: &str) -> bool {
    let (asked, due) = row.split_once(" =>").expect(rt, "a row");
    let mut told = String::new(alloc);
    ask(rt, alloc, queues, asked, &mut told);
    told.as_str() == due.trim()
}

/// Each row holds, one behind another, of queues with this quota.
fn play(rt: &impl Abort, alloc: Global, quota: u32, rows: &str) {
    let mut queues = Queues::new(alloc, quota);
    for row in rows.lines() {
        check(rt, row, holds(rt, alloc, &mut queues, row));
    }
}

/// A return and a signal, for which there is room.
const ROOM: &str = "\
open 4 =>
push 4 x*89 =>
push 4 x*169 =>
waiting 4 => 258
due => none";

/// The same with one byte too few. Nothing goes to one that is to be closed, and its reason stays.
const NO_ROOM: &str = "\
open 4 =>
push 4 x*89 =>
push 4 x*169 =>
waiting 4 => 89
due => 4 89 169
push 4 x =>
doom 4 =>
waiting 4 => 89
due => 4 89 169";

#[test]
fn a_quota_is_kept_to_the_byte(rt: HostRuntime) {
    play(&rt, rt.alloc(), 259, ROOM);
    play(&rt, rt.alloc(), 258, ROOM);
    play(&rt, rt.alloc(), 257, NO_ROOM);
}

/// Closings in the order of their causes.
const CLOSINGS: &str = "\
open 0 =>
open 1 =>
open 2 =>
open 3 =>
doom 2 =>
push 0 four =>
push 1 fit =>
due => 2 not-hello
close 2 =>
due => 0 0 4
close 0 =>
due => none
waiting 1 => 3";

/// What is pushed, popped and taken back comes out in order.
const ORDER: &str = "\
open 7 =>
push 7 abc =>
push 7 def =>
front 7 => abcdef
pop 7 2 =>
front 7 => cdef
back 7 3 =>
front 7 => c
close 7 =>
waiting 7 => 0
front 7 =>";

#[test]
fn what_waits_and_closings_are_in_order(rt: HostRuntime) {
    play(&rt, rt.alloc(), 3, CLOSINGS);
    play(&rt, rt.alloc(), 1000, ORDER);
}
