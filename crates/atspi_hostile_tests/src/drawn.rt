//! Messages in words, drawn.

use crate::links::put;
use atspi_message_cases::bytes_of;
use std::alloc::Global;
use std::process::Abort;

/// What a stranger says: of each field of a message the words that it may be, with a blank between two. A member stands
/// behind its interface and a `:`.
#[derive(Clone, Copy)]
pub struct Says {
    pub kinds: &'static str,
    pub senders: &'static str,
    pub paths: &'static str,
    pub members: &'static str,
    pub values: &'static str,
}

/// How many messages are drawn.
pub const MESSAGES: u32 = 3_000;

/// A number below a limit that is not 0, drawn from a state that goes on.
pub fn draw(state: &mut u64, below: u32) -> u32 {
    *state = state
        .wrapping_mul(6_364_136_223_846_793_005)
        .wrapping_add(1_442_695_040_888_963_407);
    ((*state >> 33) % u64::from(below.max(1))) as u32
}

/// One of the words of a text, drawn.
pub fn one_of<'a>(state: &mut u64, words: &'a str) -> &'a str {
    let count = words.split(' ').count().min(255) as u32;
    let number = draw(state, count) as usize;
    words.split(' ').nth(number).unwrap_or("")
}

/// Appends up to three values behind the words of a message.
fn put_values(rt: &impl Abort, state: &mut u64, values: &str, words: &mut String) {
    for _ in 0..draw(state, 4) {
        words.push_str(" ").expect(rt, "memory");
        words.push_str(one_of(state, values)).expect(rt, "memory");
    }
}

/// The words of a return, or of an error, to a call whose serial is 1,000 or more.
fn reply(alloc: Global, state: &mut u64, kind: &str, serial: u32, sender: &str) -> Option<String> {
    let name = if kind == "error" { " a.B" } else { "" };
    let to = draw(state, 4000).saturating_add(1000);
    format!(in alloc; "{kind} {serial} {sender} {to}{name}").ok()
}

/// An interface and a member; a signal has an interface.
fn named<'a>(kind: &str, names: &'a str) -> (&'a str, &'a str) {
    let (interface, member) = names.split_once(':').unwrap_or(("-", names));
    if kind == "signal" && interface == "-" {
        return ("a.B", member);
    }
    (interface, member)
}

/// The words of a message of another type.
fn letter(
    alloc: Global,
    state: &mut u64,
    says: Says,
    kind: &str,
    serial: u32,
    sender: &str,
) -> Option<String> {
    let path = one_of(state, says.paths);
    let (interface, member) = named(kind, one_of(state, says.members));
    format!(in alloc; "{kind} {serial} {sender} {path} {interface} {member}").ok()
}

/// The words of a message with a serial.
fn words_of(rt: &impl Abort, alloc: Global, state: &mut u64, says: Says, serial: u32) -> String {
    let kind = one_of(state, says.kinds);
    let sender = one_of(state, says.senders);
    let words = match kind {
        "return" | "error" => reply(alloc, state, kind, serial, sender),
        _ => letter(alloc, state, says, kind, serial, sender),
    };
    let mut words = words.expect(rt, "memory");
    put_values(rt, state, says.values, &mut words);
    words
}

/// Appends the bytes of a message in words.
pub fn put_message(rt: &impl Abort, alloc: Global, out: &mut Vec<u8>, words: &str) {
    let bytes = bytes_of(alloc, words);
    assert!(rt; bytes.is_some(), "{words}");
    put(rt, out, bytes.expect(rt, "words").as_slice());
}

/// Appends messages, a line each.
pub fn put_lines(rt: &impl Abort, alloc: Global, out: &mut Vec<u8>, lines: &str) {
    for words in lines.lines() {
        put_message(rt, alloc, out, words);
    }
}

/// Whether a message in words is a call that is to be answered: it has a sender.
fn wants_reply(words: &str) -> bool {
    let mut words = words.split(' ');
    words.next() == Some("call") && words.nth(1) != Some("-")
}

/// Appends drawn messages. Answers how many of them are calls that are to be answered.
pub fn put_drawn(rt: &impl Abort, alloc: Global, seed: u64, says: Says, out: &mut Vec<u8>) -> u32 {
    let mut state = seed;
    let mut calls = 0u32;
    for message in 0..MESSAGES {
        let words = words_of(rt, alloc, &mut state, says, message.saturating_add(100));
        put_message(rt, alloc, out, &words);
        if wants_reply(&words) {
            calls = calls.saturating_add(1);
        }
    }
    calls
}
