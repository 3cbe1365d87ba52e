//! Letters of connections, in words.

use atspi_bus_cases::Letter;
use std::process::Abort;
use std::str::SplitWhitespace;

/// A number in words.
pub(crate) fn number(rt: &impl Abort, words: &mut SplitWhitespace) -> u32 {
    let word = words.next().expect(rt, "a word");
    word.parse::<u32>().expect(rt, "a number")
}

/// A destination in words, `-` for none.
fn name<'a>(words: &mut SplitWhitespace<'a>) -> Option<&'a str> {
    match words.next() {
        Some("-") => None,
        name => name,
    }
}

/// The letter of `SERIAL MEMBER [TEXT [NUMBER]]`, a call of the bus.
fn bus_letter<'a>(rt: &impl Abort, words: &mut SplitWhitespace<'a>, flags: u8) -> Letter<'a> {
    let serial = number(rt, words);
    let member = words.next();
    let text = words.next();
    let number = match words.next() {
        Some(digits) => Some(digits.parse::<u32>().expect(rt, "a number")),
        None => None,
    };
    Letter {
        kind: 1,
        flags,
        serial,
        to: Some("org.freedesktop.DBus"),
        member,
        reply: None,
        text,
        number,
    }
}

/// The letter of `SERIAL TO MEMBER [TEXT]`.
fn member_letter<'a>(
    rt: &impl Abort,
    words: &mut SplitWhitespace<'a>,
    kind: u8,
    flags: u8,
) -> Letter<'a> {
    let serial = number(rt, words);
    let to = name(words);
    let member = words.next();
    Letter {
        kind,
        flags,
        serial,
        to,
        member,
        reply: None,
        text: words.next(),
        number: None,
    }
}

/// The letter of `SERIAL TO REPLY`.
fn reply_letter<'a>(rt: &impl Abort, words: &mut SplitWhitespace<'a>, kind: u8) -> Letter<'a> {
    let serial = number(rt, words);
    let to = name(words);
    let reply = number(rt, words);
    Letter {
        kind,
        flags: 0,
        serial,
        to,
        member: None,
        reply: Some(reply),
        text: None,
        number: None,
    }
}

/// The letter of a word and what stands behind the connection.
pub(crate) fn letter<'a>(
    rt: &impl Abort,
    word: &str,
    words: &mut SplitWhitespace<'a>,
) -> Letter<'a> {
    match word {
        "bus" => bus_letter(rt, words, 0),
        "bus-quiet" => bus_letter(rt, words, 1),
        "call" => member_letter(rt, words, 1, 0),
        "call-quiet" => member_letter(rt, words, 1, 1),
        "signal" => member_letter(rt, words, 4, 0),
        "signal-quiet" => member_letter(rt, words, 4, 1),
        "other" => member_letter(rt, words, 5, 0),
        "return" => reply_letter(rt, words, 2),
        other => {
            assert!(rt; other == "error");
            reply_letter(rt, words, 3)
        }
    }
}
