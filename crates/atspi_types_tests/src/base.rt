//! Texts, lists, digits, and the fakes of the outside.

ghost use Rattle.std.specs.Prelude.{◌<◌, length};

use atspi_base::{
    Bytes, Failed, Marks, MemSink, MemSource, Nums, Source, Steps, Text, Texts, hex_digit_of,
    is_control_byte, put_decimal, put_quoted, write_all,
};
use std::alloc::Global;
use std::test::*;

/// Whether a text is a copy of it and no other, and is its characters.
fn is_itself(one: &Text, same: &Text, other: &Text) -> bool {
    one.is(same) && !one.is(other) && same.as_str() == "café"
}

/// Whether texts are their characters.
fn texts_are_their_characters(alloc: Global) -> Option<bool> {
    let one = Text::read(alloc, b"caf\xc3\xa9").ok()?;
    let same = one.copy(alloc).ok()?;
    let other = Text::read(alloc, b"cafe").ok()?;
    Some(is_itself(&one, &same, &other))
}

/// Whether a text is put in quotes.
fn a_text_is_quoted(alloc: Global) -> bool {
    let mut out = Bytes::new(alloc);
    match Text::read(alloc, b"say \"\xc3\xa9\"") {
        Ok(text) => {
            put_quoted(&text, &mut out).is_ok()
                && out.as_slice() == b"\"say \\\"\xc3\xa9\\\"\"".as_slice()
        }
        Err(_) => false,
    }
}

/// Whether bytes keep their order.
fn bytes_keep_their_order(alloc: Global) -> bool {
    let mut bytes = Bytes::new(alloc);
    let done = bytes.is_empty() && bytes.extend(b"abcdef").is_ok() && bytes.push(103).is_ok();
    if !done || bytes.len() != 7 {
        return false;
    }
    bytes.set(1, b"XY");
    bytes.truncate(5);
    Bytes::from_vec(bytes.into_vec()).as_slice() == b"aXYde".as_slice()
}

/// Appends the text of a word.
fn push_text(alloc: Global, texts: &mut Texts, word: &[u8]) -> Option<()>
    requires { length word.now < 10 }
{
    texts.push(Text::read(alloc, word).ok()?).ok()
}

/// Whether these are the texts `one` and `two`.
fn are_two(texts: &Texts) -> bool {
    match texts.as_slice() {
        [first, second] => first.as_str() == "one" && second.as_str() == "two",
        _ => false,
    }
}

/// Whether a copy of the texts `one` and `two` is the same, and one is left where the list is cut.
fn texts_keep_their_order(alloc: Global) -> bool {
    let mut texts = Texts::new(alloc);
    if push_text(alloc, &mut texts, b"one").is_none()
        || push_text(alloc, &mut texts, b"two").is_none()
    {
        return false;
    }
    let is_copied = texts.copy(alloc).is_ok_and(|copy| are_two(&copy));
    texts.truncate(1);
    is_copied && Texts::from_vec(texts.into_vec()).len() == 1
}

/// Whether numbers keep their order.
fn numbers_keep_their_order(alloc: Global) -> bool {
    let mut numbers = Nums::new(alloc);
    if numbers.push(7).is_err() || numbers.push(9).is_err() || numbers.len() != 2 {
        return false;
    }
    numbers.truncate(1);
    match numbers.copy(alloc) {
        Ok(copy) => Nums::from_vec(copy.into_vec()).as_slice() == [7].as_slice(),
        Err(_) => false,
    }
}

/// Whether ranges keep their order.
fn ranges_keep_their_order(alloc: Global) -> bool {
    let mut ranges = Marks::new(alloc);
    if ranges.push((1, 3)).is_err() || ranges.len() != 1 {
        return false;
    }
    match ranges.copy(alloc) {
        Ok(copy) => Marks::from_vec(copy.into_vec()).as_slice() == [(1, 3)].as_slice(),
        Err(_) => false,
    }
}

/// Whether two steps are counted.
fn steps_are_counted() -> bool {
    let mut steps = Steps::new();
    steps.tick();
    steps.tick();
    steps.count() == 2
}

/// Whether lists keep their order.
fn lists_keep_their_order(alloc: Global) -> bool {
    bytes_keep_their_order(alloc)
        && texts_keep_their_order(alloc)
        && numbers_keep_their_order(alloc)
        && ranges_keep_their_order(alloc)
}

#[test]
fn texts_and_lists_keep_what_they_are_given(rt: HostRuntime) {
    assert!(rt; texts_are_their_characters(rt.alloc()) == Some(true));
    assert!(rt; a_text_is_quoted(rt.alloc()));
    assert!(rt; lists_keep_their_order(rt.alloc()));
}

#[test]
fn steps_are_counted_and_bytes_are_told_apart(rt: HostRuntime) {
    assert!(rt; steps_are_counted());
    assert!(rt; hex_digit_of(9) == b'9' && hex_digit_of(10) == b'a');
    assert!(rt; is_control_byte(31) && !is_control_byte(32));
}

/// Appends what reading answers so many times: the number of bytes and what the buffer has then, or `-`.
fn draw(source: &mut MemSource, times: u32, out: &mut Bytes) -> bool {
    let mut piece = [0u8; 3];
    for _read in 0..times {
        let done = match source.read(&mut piece) {
            Ok(count) => put_decimal(count as u64, out).is_ok() && out.extend(&piece).is_ok(),
            Err(Failed) => out.push(b'-').is_ok(),
        };
        if !done {
            return false;
        }
    }
    true
}

/// Whether reading from a source so many times answers what is due.
fn is_drawn(alloc: Global, source: Option<MemSource>, times: u32, due: &[u8]) -> bool {
    let mut out = Bytes::new(alloc);
    match source {
        Some(mut source) => draw(&mut source, times, &mut out) && out.as_slice() == due,
        None => false,
    }
}

/// A source of five bytes whose second reading fails.
fn failing_source(alloc: Global) -> Option<MemSource> {
    let failing = [1].to_vec(alloc).ok()?;
    Some(MemSource::new(b"hello".to_vec(alloc).ok()?, failing))
}

/// A source that gives two bytes at the most.
fn source_in_pieces(alloc: Global) -> Option<MemSource> {
    let bytes = b"abc".to_vec(alloc).ok()?;
    Some(MemSource::in_pieces(bytes, 2, Vec::new(alloc)))
}

/// Appends what writing words answers, with `|` between two: `+`, or `-` where it fails.
fn sink_words(sink: &mut MemSink, words: &str, out: &mut Bytes) -> bool {
    for word in words.split('|') {
        let told = match write_all(sink, word.as_bytes()) {
            Ok(()) => b'+',
            Err(Failed) => b'-',
        };
        if out.push(told).is_err() {
            return false;
        }
    }
    true
}

/// Whether writing words to a sink answers what is due, and these bytes are written then.
fn is_sunk(alloc: Global, mut sink: MemSink, words: &str, due: &[u8], written: &[u8]) -> bool {
    let mut out = Bytes::new(alloc);
    sink_words(&mut sink, words, &mut out) && out.as_slice() == due && sink.bytes() == written
}

/// Whether a sink fails at its third writing.
fn a_sink_fails(alloc: Global) -> Option<bool> {
    let sink = MemSink::new(alloc, [2].to_vec(alloc).ok()?);
    Some(is_sunk(alloc, sink, "one |two|three", b"++-", b"one two"))
}

/// Whether a sink that takes one byte at the most fails at the fourth.
fn a_sink_in_pieces_fails(alloc: Global) -> Option<bool> {
    let sink = MemSink::in_pieces(alloc, 1, [3].to_vec(alloc).ok()?);
    Some(is_sunk(alloc, sink, "four", b"-", b"fou"))
}

#[test]
fn fakes_of_the_outside_fail_and_move_as_told(rt: HostRuntime) {
    let source = failing_source(rt.alloc());
    assert!(rt; is_drawn(rt.alloc(), source, 4, b"3hel-2lol0lol"));
    let source = source_in_pieces(rt.alloc());
    assert!(rt; is_drawn(rt.alloc(), source, 3, b"2ab\x001cb\x000cb\0"));
    assert!(rt; a_sink_fails(rt.alloc()) == Some(true));
    assert!(rt; a_sink_in_pieces_fails(rt.alloc()) == Some(true));
}
