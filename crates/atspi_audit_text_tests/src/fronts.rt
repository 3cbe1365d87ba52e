//! Whether texts begin with an event, and what follows it. What is due was worked out by hand.

use atspi_audit_text::{Told, behind};
use atspi_base::Bytes;
use atspi_script_lines::Party;
use atspi_trace_events::Event;
use std::alloc::Global;
use std::test::*;

/// An event by its word.
fn event_of(word: &str) -> Event {
    match word {
        "exit" => Event::Exit { who: Party::App(0) },
        "gone" => Event::Gone { reader: 0, app: 15 },
        "busy" => Event::Busy(7),
        "got" => Event::Got {
            taker: Party::Reader(0),
            sender: Party::Bus,
            serial: 7,
        },
        _ => Event::Quiet,
    }
}

/// The bytes behind it, where there are some: the word says which.
fn bytes_of(alloc: Global, word: &str) -> Option<Option<Bytes>> {
    let mut bytes = Bytes::new(alloc);
    match word {
        "none" => return Some(None),
        "two" => bytes.extend(&[0, 171]).ok()?,
        _ => {}
    }
    Some(Some(bytes))
}

/// An event as a trace tells it: its word, and that of its bytes.
fn told_of(alloc: Global, event: &str, bytes: &str) -> Option<Told> {
    let bytes = bytes_of(alloc, bytes)?;
    Some(Told {
        event: event_of(event),
        bytes,
    })
}

/// What follows an event in a text, in words: `no` where the text does not begin with it.
fn rest_of<'a>(alloc: Global, event: &str, bytes: &str, text: &'a str) -> Option<&'a [u8]> {
    let told = told_of(alloc, event, bytes)?;
    let rest = behind(alloc, &told, text.as_bytes()).ok()?;
    Some(rest.unwrap_or(b"no".as_slice()))
}

/// Rows of an event, its bytes, a text and what follows in it, with `|` between rows and `>` between the four.
const ROWS: &str = "\
quiet>none>quiet\n>|\
quiet>none>quiet\nquiet\n>quiet\n|\
quiet>none>quiet>no|\
quiet>none>>no|\
quiet>none>Quiet\n>no|\
quiet>none> quiet\n>no|\
quiet>none>quiet \n>no|\
quiet>none>quiet\r\n>no|\
quiet>none>\nquiet\n>no|\
busy>none>busy 7\n--\n>--\n|\
busy>none>busy 07\n>no|\
busy>none>busy 4294967303\n>no|\
busy>none>busy 8\n>no|\
exit>none>exit a0\nx>x|\
exit>none>exit a1\n>no|\
exit>none>exit r0\n>no|\
gone>none>gone r0 a15\n>|\
gone>none>gone r0 a1\n>no|\
got>none>got r0 bus 7\n= 00ab\n>= 00ab\n|\
got>two>got r0 bus 7\n= 00ab\nquiet\n>quiet\n|\
got>two>got r0 bus 7\nquiet\n>no|\
got>two>got r0 bus 7\n= 00AB\n>no|\
got>two>got r0 bus 7\n= 00ac\n>no|\
got>two>got r0 bus 7\n= 00ab00\n>no|\
got>two>got r0 bus 7\n=00ab\n>no|\
got>two>got r0 bus 7\n= 00ab>no|\
got>empty>got r0 bus 7\n= \n>|\
got>empty>got r0 bus 7\n>no";

/// Whether a row is as it says.
fn is_so(alloc: Global, row: &str) -> Option<bool> {
    let mut words = row.split('>');
    let (event, bytes) = (words.next()?, words.next()?);
    let (text, due) = (words.next()?, words.next()?);
    Some(rest_of(alloc, event, bytes, text) == Some(due.as_bytes()))
}

#[test]
fn texts_begin_with_events(rt: HostRuntime) {
    for row in ROWS.split('|') {
        assert!(rt; is_so(rt.alloc(), row) == Some(true), "{row}");
    }
}
