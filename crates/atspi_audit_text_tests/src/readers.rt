//! What a reader sent, read from texts. What is due was worked out by hand.

use atspi_audit_text::{ReaderSent, events_have_one_reading, next_of_reader, traces_are_told};
use std::alloc::Global;
use std::test::*;

/// The call of Hello.
pub(crate) const HELLO: [u8; 128] = *b"l\x01\0\x01\0\0\0\0\x01\0\0\0\x6d\0\0\0\
\x01\x01o\0\x15\0\0\0/org/freedesktop/DBus\0\0\0\
\x02\x01s\0\x14\0\0\0org.freedesktop.DBus\0\0\0\0\
\x03\x01s\0\x05\0\0\0Hello\0\0\0\
\x06\x01s\0\x14\0\0\0org.freedesktop.DBus\0\0\0\0";

/// Its line as one of a reader, and that of its bytes.
pub(crate) const SENT_HELLO: &str = "\
sent r0 call l 0 1 path=/org/freedesktop/DBus interface=org.freedesktop.DBus member=Hello \
destination=org.freedesktop.DBus\n\
= 6c01000100000000010000006d00000001016f00150000002f6f72672f667265\
656465736b746f702f4442757300000002017300140000006f72672e66726565\
6465736b746f702e4442757300000000030173000500000048656c6c6f000000\
06017300140000006f72672e667265656465736b746f702e4442757300000000\n";

/// Whether this is that call, sent by this reader.
fn is_hello(sent: &ReaderSent, reader: u32) -> bool {
    sent.reader == reader
        && sent.message.serial == 1
        && sent.message.flags == 0
        && sent.bytes.as_slice() == HELLO.as_slice()
}

/// Which reader sent that call by the text in front, and how many bytes follow. None where the text begins with no
/// message of a reader; an answer that nothing here expects where it is another message.
pub(crate) fn found(alloc: Global, text: &[u8]) -> Option<(u32, usize)> {
    match next_of_reader(alloc, text) {
        Ok(Some((sent, rest))) => {
            let reader = sent.reader;
            if is_hello(&sent, reader) {
                Some((reader, rest.len()))
            } else {
                Some((99, 0))
            }
        }
        Ok(None) => None,
        Err(_) => Some((99, 1)),
    }
}

#[test]
fn a_message_of_a_reader_is_read(rt: HostRuntime) {
    events_have_one_reading();
    traces_are_told();
    assert!(rt; found(rt.alloc(), SENT_HELLO.as_bytes()) == Some((0, 0)));
}
