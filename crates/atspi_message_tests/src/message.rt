//! Messages as they are written: kept ones, copies of them, and those that lie in bytes.

ghost use Rattle.std.specs.Prelude.{IfSome};
ghost use Rattle.atspi_message.specs.Envelope.{envelope_of};
ghost use Rattle.atspi_message.specs.Rules.{MeetsRules};
ghost use Rattle.atspi_message_in_place.specs.View.{envelope_at};

mod writing;

use crate::passing::{is_passed, lent, passed};
use crate::samples::*;
use atspi_base::Bytes;
use atspi_message::{Message, total};
use atspi_message_in_place::MessageRef;
use std::alloc::Global;
use std::test::*;

/// Whether a message is written as these bytes, behind what stood there.
fn is_written(alloc: Global, message: &Message, front: &[u8], due: &[u8]) -> bool
    requires { MeetsRules (envelope_of message.now) }
{
    let mut out = Bytes::new(alloc);
    let has_front = out.extend(front).is_ok();
    let has_message = message.write(&mut out).is_ok();
    has_front && has_message && out.as_slice().strip_prefix(front) == Some(due)
}

/// Whether a copy of a message is written as these bytes.
fn is_copied(alloc: Global, message: &Message, due: &[u8]) -> bool
    requires { MeetsRules (envelope_of message.now) }
{
    match message.copy(alloc) {
        Ok(copy) => is_written(alloc, &copy, b"", due),
        Err(_) => false,
    }
}

/// Whether a message and its copy are written as these bytes, behind nothing and behind three bytes.
fn goes(alloc: Global, message: &Message, due: &[u8]) -> bool
    requires { MeetsRules (envelope_of message.now) }
{
    is_written(alloc, message, b"", due)
        && is_written(alloc, message, b"abc", due)
        && is_copied(alloc, message, due)
}

/// The message that bytes are, where they are one.
fn kept(alloc: Global, bytes: &[u8]) -> Option<Message>
    ensures { IfSome result (λ message. MeetsRules (envelope_of message)) }
{
    let first = bytes.first_chunk::<16>()?;
    let length = total(first).ok()?;
    if length as usize != bytes.len() {
        return None;
    }
    Message::parse(alloc, bytes).ok()
}

/// Whether the message that bytes are goes as these.
fn kept_goes(alloc: Global, bytes: &[u8], due: &[u8]) -> bool {
    match kept(alloc, bytes) {
        Some(message) => goes(alloc, &message, due),
        None => false,
    }
}

/// Whether a message that lies in bytes is written as these once it is kept.
fn is_kept(alloc: Global, message: &MessageRef<'_>, due: &[u8]) -> bool
    requires { MeetsRules (envelope_at message.now) }
{
    match message.owned(alloc) {
        Ok(message) => is_written(alloc, &message, b"", due),
        Err(_) => false,
    }
}

/// Whether the message that bytes are is passed on as these, and kept goes as these, from either reader.
fn all_go(alloc: Global, bytes: &[u8], due: &[u8]) -> bool {
    match lent(bytes) {
        Some(message) => {
            is_passed(alloc, &message, due)
                && is_kept(alloc, &message, due)
                && kept_goes(alloc, bytes, due)
        }
        None => false,
    }
}

/// Whether the message that bytes are, kept, is written as it is passed on.
fn goes_as_passed(alloc: Global, bytes: &[u8]) -> bool {
    match passed(alloc, bytes) {
        Some(due) => all_go(alloc, bytes, due.as_slice()),
        None => false,
    }
}

/// Whether each message is written with its fields in rising order.
fn all_go_in_rising_order(alloc: Global) -> bool {
    all_go(alloc, HELLO, HELLO)
        && all_go(alloc, RETURN, RETURN)
        && all_go(alloc, BIG, BIG)
        && all_go(alloc, BODY, BODY)
        && all_go(alloc, EVERY, EVERY)
        && all_go(alloc, EVERY_BIG, EVERY_BIG)
        && all_go(alloc, MIXED, RISING)
        && all_go(alloc, EMPTY, EMPTY_RISING)
        && all_go(alloc, OTHER, OTHER)
}

#[test]
fn a_message_is_written_in_rising_order(rt: HostRuntime) {
    assert!(rt; all_go_in_rising_order(rt.alloc()));
}

/// Whether each call, kept, is written as it is passed on.
fn calls_go_as_passed(alloc: Global) -> bool {
    goes_as_passed(alloc, CALL_LITTLE)
        && goes_as_passed(alloc, CALL_LITTLE_SENT)
        && goes_as_passed(alloc, CALL_LITTLE_PASSED)
        && goes_as_passed(alloc, CALL_BIG)
        && goes_as_passed(alloc, CALL_BIG_SENT)
        && goes_as_passed(alloc, CALL_BIG_PASSED)
}

#[test]
fn a_message_is_written_as_it_is_passed_on(rt: HostRuntime) {
    assert!(rt; calls_go_as_passed(rt.alloc()));
}
