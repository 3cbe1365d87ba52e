//! The bytes of what an application announces, against messages that are put together value by value, or by hand.

use crate::plays::{NAMED, begun};
use atspi_app::Application;
use atspi_app_cases::{play, send};
use atspi_base::Bytes;
use atspi_message_cases::bytes_of;
use atspi_world_links::Link;
use std::alloc::Global;

/// A node that nobody hears of, and then a listener that asks for everything.
const BEFORE: &str = "\
> edit a0 insert 0 0 panel \"P\"
> signal 9 :1.0 registry Registry EventListenerRegistered s=:1.2 s=object
";

/// Steps of each kind with the messages that tell them, in words or, behind `=`, as bytes; `-` where there is none.
const STEPS: &str = "\
edit a0 insert 0 1 text \"x\" text \"né\" action \"press\" -> =6c04010130010000050000007500000001016f00150000002f6f72672f613131792f61747370692f636163686500000002017300140000006f72672e613131792e61747370692e436163686500000000030173000d00000041646441636365737369626c6500000008016700172828736f2928736f2928736f296969617373757361752900000000040000003a312e35000000001c0000002f6f72672f613131792f61747370692f61636365737369626c652f3200000000040000003a312e35000000001f0000002f6f72672f613131792f61747370692f61636365737369626c652f726f6f7400040000003a312e35000000001f0000002f6f72672f613131792f61747370692f61636365737369626c652f726f6f7400010000000000000072000000190000006f72672e613131792e61747370692e41636365737369626c65000000130000006f72672e613131792e61747370692e54657874001b0000006f72672e613131792e61747370692e4564697461626c655465787400150000006f72672e613131792e61747370692e416374696f6e00000001000000780000003d0000000000000000000000080000000001004300000000|signal 6 - root Event.Object ChildrenChanged s=add i=1 i=0 v(so)=:1.5@/org/a11y/atspi/accessible/2 a{sv}=
edit a0 name 2 \"y\" -> signal 7 - 2 Event.Object PropertyChange s=accessible-name i=0 i=0 v=y a{sv}=
edit a0 describe 2 \"z\" -> signal 8 - 2 Event.Object PropertyChange s=accessible-description i=0 i=0 v=z a{sv}=
edit a0 role 2 79 -> signal 9 - 2 Event.Object PropertyChange s=accessible-role i=0 i=0 vu=79 a{sv}=
edit a0 focus 2 -> signal 10 - 2 Event.Object StateChanged s=focused i=1 i=0 vi=0 a{sv}=
edit a0 type 2 \"ü!\" -> signal 11 - 2 Event.Object TextChanged s=insert i=0 i=2 v=ü! a{sv}=|signal 12 - 2 Event.Object TextCaretMoved s= i=2 i=0 vi=0 a{sv}=
edit a0 cut 2 0 1 -> signal 13 - 2 Event.Object TextCaretMoved s= i=1 i=0 vi=0 a{sv}=|signal 14 - 2 Event.Object TextChanged s=delete i=0 i=1 v=ü a{sv}=
edit a0 move 2 1 0 -> =6c040101300100000f0000007500000001016f00150000002f6f72672f613131792f61747370692f636163686500000002017300140000006f72672e613131792e61747370692e436163686500000000030173000d00000041646441636365737369626c6500000008016700172828736f2928736f2928736f296969617373757361752900000000040000003a312e35000000001c0000002f6f72672f613131792f61747370692f61636365737369626c652f3200000000040000003a312e35000000001f0000002f6f72672f613131792f61747370692f61636365737369626c652f726f6f7400040000003a312e35000000001c0000002f6f72672f613131792f61747370692f61636365737369626c652f3100000000000000000000000072000000190000006f72672e613131792e61747370692e41636365737369626c65000000130000006f72672e613131792e61747370692e54657874001b0000006f72672e613131792e61747370692e4564697461626c655465787400150000006f72672e613131792e61747370692e416374696f6e00000001000000790000004f000000010000007a000000080000000011004300000000|signal 16 - root Event.Object ChildrenChanged s=remove i=1 i=0 v(so)=:1.5@/org/a11y/atspi/accessible/2 a{sv}=|signal 17 - 2 Event.Object PropertyChange s=accessible-parent i=0 i=0 v(so)=:1.5@/org/a11y/atspi/accessible/1 a{sv}=|signal 18 - 1 Event.Object ChildrenChanged s=add i=0 i=0 v(so)=:1.5@/org/a11y/atspi/accessible/2 a{sv}=
edit a0 focus 1 -> signal 19 - 2 Event.Object StateChanged s=focused i=0 i=0 vi=0 a{sv}=|signal 20 - 1 Event.Object StateChanged s=focused i=1 i=0 vi=0 a{sv}=
edit a0 mark 2 0 1 -> -
edit a0 relate 2 1 1 -> -
edit a0 remove 2 -> signal 21 - 1 Event.Object ChildrenChanged s=remove i=0 i=0 v(so)=:1.5@/org/a11y/atspi/accessible/2 a{sv}=|signal 22 - cache Cache RemoveAccessible (so)=:1.5@/org/a11y/atspi/accessible/2
";

/// Appends the bytes that digits spell.
fn put_digits(alloc: Global, due: &mut Bytes, digits: &str) -> Option<()> {
    let bytes = hex::decode(alloc, digits).ok()?;
    due.extend(bytes.as_slice()).ok()
}

/// Appends the bytes of a message in words.
fn put_words(alloc: Global, due: &mut Bytes, words: &str) -> Option<()> {
    let bytes = bytes_of(alloc, words)?;
    due.extend(bytes.as_slice()).ok()
}

/// Appends the bytes of messages.
fn put_messages(alloc: Global, due: &mut Bytes, messages: &str) -> Option<()> {
    if messages == "-" {
        return Some(());
    }
    for words in messages.split('|') {
        match words.strip_prefix("=") {
            Some(digits) => put_digits(alloc, due, digits)?,
            None => put_words(alloc, due, words)?,
        }
    }
    Some(())
}

/// The lines of a table of steps, and the bytes that are due.
fn put_steps(alloc: Global, script: &mut String, due: &mut Bytes, steps: &str) -> Option<()> {
    for row in steps.lines() {
        let (line, messages) = row.split_once(" -> ")?;
        script.push_str(line).ok()?;
        script.push_str("\n").ok()?;
        put_messages(alloc, due, messages)?;
    }
    Some(())
}

/// An application plays its start and what stands before a table.
fn plays<A: Application>(alloc: Global, app: &mut A) -> Option<()>
    requires app { A.is_app app.old }
    ensures app { A.is_app app.new }
{
    let mut said = Bytes::new(alloc);
    play(alloc, app, NAMED, &mut said)?;
    play(alloc, app, BEFORE, &mut said)
}

/// Whether an application that has started sends just the bytes that are due.
fn writes<A: Application>(alloc: Global, app: &mut A, script: &str, due: &[u8]) -> bool
    requires app { A.is_app app.old }
{
    let mut link = Link::new(alloc);
    let sent = send(alloc, app, script, &mut link);
    link.as_slice() == due && sent.is_some()
}

/// Whether a new application, which starts, sends just the bytes that are due.
fn writes_anew(alloc: Global, script: &str, due: &[u8]) -> bool {
    match begun(alloc) {
        Some(mut app) => plays(alloc, &mut app).is_some() && writes(alloc, &mut app, script, due),
        None => false,
    }
}

/// Byte by byte.
#[test]
fn steps_are_written(rt: HostRuntime) {
    let alloc = rt.alloc();
    let mut script = String::new(alloc);
    let mut due = Bytes::new(alloc);
    let read = put_steps(alloc, &mut script, &mut due, STEPS);
    assert!(rt; read.is_some());
    assert!(rt; writes_anew(alloc, &script, due.as_slice()));
}
