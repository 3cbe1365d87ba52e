//! Messages that were sent, and the bytes of messages. What is due was worked out by hand.

use crate::traces::made::tells;
use atspi_base::{Bytes, NoMemory};
use atspi_message::{Message, total};
use atspi_script_lines::Party;
use atspi_trace_events::Event;
use atspi_trace_texts::write_wire;
use std::alloc::Global;
use std::test::*;

/// The call of Hello.
const HELLO: [u8; 128] = *b"l\x01\0\x01\0\0\0\0\x01\0\0\0\x6d\0\0\0\
\x01\x01o\0\x15\0\0\0/org/freedesktop/DBus\0\0\0\
\x02\x01s\0\x14\0\0\0org.freedesktop.DBus\0\0\0\0\
\x03\x01s\0\x05\0\0\0Hello\0\0\0\
\x06\x01s\0\x14\0\0\0org.freedesktop.DBus\0\0\0\0";

/// Its bytes as a line.
const HELLO_LINE: &str =
    "= 6c01000100000000010000006d00000001016f00150000002f6f72672f667265656465736b746f702f4442757300000002017300140000006f72672e667265656465736b746f702e4442757300000000030173000500000048656c6c6f00000006017300140000006f72672e667265656465736b746f702e4442757300000000\n";

/// The message of these bytes.
fn parsed(alloc: Global, bytes: &[u8]) -> Option<Message> {
    let first = bytes.first_chunk::<16>()?;
    let length = total(first).ok()?;
    if length as usize != bytes.len() {
        return None;
    }
    Message::parse(alloc, bytes).ok()
}

/// Whether the message of these bytes, sent by the application 0, is told so.
fn sent_tells(alloc: Global, bytes: &[u8], due: &str) -> Option<bool> {
    let sent = Event::Sent {
        who: Party::App(0),
        message: parsed(alloc, bytes)?,
    };
    Some(tells(alloc, sent, due))
}

#[test]
fn a_message_sent_is_told_with_its_text(rt: HostRuntime) {
    let due =
        "sent a0 call l 0 1 path=/org/freedesktop/DBus interface=org.freedesktop.DBus member=Hello destination=org.freedesktop.DBus";
    assert!(rt; sent_tells(rt.alloc(), &HELLO, due) == Some(true));
}

/// Appends the line of these bytes behind two characters.
fn put_line(alloc: Global, bytes: &[u8], out: &mut Bytes) -> Result<(), NoMemory> {
    out.extend(b"> ")?;
    write_wire(alloc, bytes, out)
}

/// Whether the line of these bytes, behind what was there, is this.
fn is_line(alloc: Global, bytes: &[u8], due: &str) -> bool {
    let mut out = Bytes::new(alloc);
    let put = put_line(alloc, bytes, &mut out);
    let is_due = out.as_slice().strip_prefix(b"> ") == Some(due.as_bytes());
    put.is_ok() && is_due
}

#[test]
fn bytes_are_a_line_of_hex(rt: HostRuntime) {
    assert!(rt; is_line(rt.alloc(), &HELLO, HELLO_LINE));
    assert!(rt; is_line(rt.alloc(), &[0, 9, 10, 255], "= 00090aff\n"));
    assert!(rt; is_line(rt.alloc(), &[], "= \n"));
}
