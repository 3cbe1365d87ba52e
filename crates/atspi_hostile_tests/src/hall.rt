//! Three thousand drawn messages of a stranger at the bus, while a client listens to all signals: nobody is closed, all
//! that both are given is messages by the rules, signals come in their order, and the client is answered behind them.

use crate::bus::{GRANT, guest, served};
use crate::drawn::{MESSAGES, draw, one_of};
use crate::ends::checked;
use crate::links::{closed, given, put};
use atspi_base::Bytes;
use atspi_bus_cases::{Letter, write};
use atspi_live_host::{MemHost, Peer};
use std::alloc::Global;
use std::process::Abort;

/// Where a stranger's messages go; `-` for no destination.
const TO: &str =
    "org.freedesktop.DBus org.freedesktop.DBus org.freedesktop.DBus :1.0 :1.1 :1.7 a.b - -";

/// Members of the bus, and others.
const MEMBERS: &str =
    "Hello RequestName ReleaseName NameHasOwner GetNameOwner ListNames ListQueuedOwners AddMatch AddMatch \
RemoveMatch GetId Ping NameOwnerChanged M N";

/// Their texts: names, rules, and what is none; `-` for no text.
const TEXTS: &str =
    "- - a.b c.d :1.0 :1.1 :1.9 org.freedesktop.DBus a type='signal' member='M' type='error',member='N' \
sender='a.b' arg0='x' path='a' x= , eavesdrop='true' type='signal',type='signal'";

/// A word, or none for `-`.
fn some_word<'a>(state: &mut u64, words: &'a str) -> Option<&'a str> {
    let word = one_of(state, words);
    if word == "-" { None } else { Some(word) }
}

/// A drawn message with a serial.
fn drawn(state: &mut u64, serial: u32) -> Letter<'static> {
    let kind = [1, 1, 1, 2, 3, 4, 4, 5][draw(state, 8) as usize % 8];
    let reply = draw(state, 3_000).saturating_add(1);
    let number = draw(state, 16);
    Letter {
        kind,
        flags: (draw(state, 5) / 4).min(1) as u8,
        serial,
        to: some_word(state, TO),
        member: Some(one_of(state, MEMBERS)),
        reply: if kind == 2 || kind == 3 {
            Some(reply)
        } else {
            None
        },
        text: some_word(state, TEXTS),
        number: if number < 9 { Some(number) } else { None },
    }
}

/// Appends a message.
fn put_letter(rt: &impl Abort, alloc: Global, out: &mut Vec<u8>, letter: &Letter) {
    let mut bytes = Bytes::new(alloc);
    write(&mut bytes, letter).expect(rt, "a letter");
    put(rt, out, bytes.as_slice());
}

/// A stranger that sends drawn messages behind its Hello, with serials that rise.
fn stranger(rt: &impl Abort, alloc: Global) -> Peer {
    let mut state = 5u64;
    let mut bytes = Vec::new(alloc);
    for message in 0..MESSAGES {
        let letter = drawn(&mut state, message.saturating_add(2));
        put_letter(rt, alloc, &mut bytes, &letter);
    }
    guest(rt, alloc, &bytes, b"")
}

/// A call of the bus.
fn call(serial: u32, member: &'static str, text: Option<&'static str>) -> Letter<'static> {
    Letter {
        kind: 1,
        flags: 0,
        serial,
        to: Some("org.freedesktop.DBus"),
        member: Some(member),
        reply: None,
        text,
        number: None,
    }
}

/// A client that asks for all signals, and then, a byte for each read and so behind all that the stranger says, for the
/// bus's number.
fn listener(rt: &impl Abort, alloc: Global) -> Peer {
    let mut bytes = Vec::new(alloc);
    put_letter(
        rt,
        alloc,
        &mut bytes,
        &call(2, "AddMatch", Some("type='signal'")),
    );
    let mut slowly = Vec::new(alloc);
    put_letter(rt, alloc, &mut slowly, &call(3, "GetId", None));
    guest(rt, alloc, &bytes, &slowly)
}

/// What stands behind the number of the reply to that, in its line.
const ANSWERED: &str =
    " reply=3 destination=:1.1 sender=org.freedesktop.DBus signature=s [\"61747370693200000000000000000001\"]\n";

/// The lines of the messages that were given on a link behind the line that grants; none where they are none.
fn lines(rt: &impl Abort, alloc: Global, link: u32, host: &MemHost) -> Option<Vec<u8>> {
    let given = given(rt, alloc, link, host);
    let said = given.as_slice().strip_prefix(GRANT)?;
    let (status, lines) = checked(rt, alloc, said);
    if status == 0 { Some(lines) } else { None }
}

/// The serial of a message of the stranger, whose line this is.
fn serial_of(line: &str) -> Option<u32> {
    if !line.contains(" sender=:1.0") {
        return None;
    }
    line.split(' ').nth(4)?.parse::<u32>().ok()
}

/// How many messages of the stranger came, where their serials rise.
fn came_in_order(lines: &str) -> Option<u32> {
    let mut last = 0u32;
    let mut count = 0u32;
    for line in lines.lines() {
        if let Some(serial) = serial_of(line) {
            if serial <= last {
                return None;
            }
            last = serial;
            count = count.saturating_add(1);
        }
    }
    Some(count)
}

/// Whether many messages of the stranger came, in their order, to the listener.
fn is_served(rt: &impl Abort, alloc: Global, host: &MemHost) -> Option<bool> {
    let to_listener = lines(rt, alloc, 1, host)?;
    lines(rt, alloc, 0, host)?;
    let text = std::str::from_utf8(&to_listener).ok()?;
    Some(closed("", host) && came_in_order(text)? > MESSAGES / 20 && text.ends_with(ANSWERED))
}

#[test]
fn a_stranger_takes_nobody_down(rt: HostRuntime) {
    let (stranger, listener) = (stranger(&rt, rt.alloc()), listener(&rt, rt.alloc()));
    let host = served(&rt, rt.alloc(), stranger, listener, 2_000);
    assert!(rt; is_served(&rt, rt.alloc(), &host) == Some(true));
}
