//! Messages in words.

use crate::values::{begin, codes_of, end, pad, put_joined, put_u32, put_value, set};
use atspi_base::Bytes;
use std::alloc::Global;

/// Whether a word is a node's number.
fn is_number(word: &str) -> bool {
    match word.as_bytes().first() {
        Some(byte) => byte.is_ascii_digit(),
        None => false,
    }
}

/// Whether a word begins with a capital.
fn is_capital(word: &str) -> bool {
    match word.as_bytes().first() {
        Some(byte) => byte.is_ascii_uppercase(),
        None => false,
    }
}

/// The front and the rest of the path that has a name here, that a node's number stands for, or that the word itself
/// is.
fn path_of(word: &str) -> (&str, &str) {
    match word {
        "registry" => ("/org/a11y/atspi/", "registry"),
        "root" => ("/org/a11y/atspi/accessible/", "root"),
        "cache" => ("/org/a11y/atspi/", "cache"),
        "bus" => ("/org/freedesktop/", "DBus"),
        _ => {
            let front = if is_number(word) {
                "/org/a11y/atspi/accessible/"
            } else {
                ""
            };
            (front, word)
        }
    }
}

/// The same of an interface: words that begin with a capital stand for those of AT-SPI2, `Properties` and `Peer` for
/// those of D-Bus.
fn interface_of(word: &str) -> (&str, &str) {
    if word == "Properties" || word == "Peer" {
        return ("org.freedesktop.DBus.", word);
    }
    if is_capital(word) {
        return ("org.a11y.atspi.", word);
    }
    ("", bus_of(word))
}

/// The bus's name, where the word is `bus`, or the word itself.
fn bus_of(word: &str) -> &str {
    match word {
        "bus" => "org.freedesktop.DBus",
        _ => word,
    }
}

/// A type of messages with its flags: a call, a call that wants no reply, a return, an error, a signal, or a type
/// without a meaning.
fn kind_of(word: &str) -> Option<(u8, u8)> {
    match word {
        "call" => Some((1, 0)),
        "quiet" => Some((1, 1)),
        "return" => Some((2, 1)),
        "error" => Some((3, 1)),
        "signal" => Some((4, 1)),
        "other" => Some((5, 0)),
        _ => None,
    }
}

/// How many words stand before the values of a message of a type.
fn words_before_values(kind: u8) -> usize {
    match kind {
        2 => 4,
        3 => 5,
        _ => 6,
    }
}

/// Appends a field that is a text, or a path, of which a front and the rest are given. The word `-` stands for none.
fn put_field(out: &mut Bytes, code: u8, ty: u8, (front, rest): (&str, &str)) -> Option<()> {
    if rest == "-" {
        return Some(());
    }
    pad(out, 8)?;
    out.extend(&[code, 1, ty, 0]).ok()?;
    put_joined(out, front, rest)
}

/// Appends the field of the serial of the call that a message replies to.
fn put_reply(out: &mut Bytes, serial: &str) -> Option<()> {
    pad(out, 8)?;
    out.extend(&[5, 1, b'u', 0]).ok()?;
    put_u32(out, serial.parse::<u32>().ok()?)
}

/// Appends the fields of a message of a type, but for that of its values' types.
fn put_fields(out: &mut Bytes, kind: u8, line: &str) -> Option<()> {
    let mut words = line.split_whitespace().skip(2);
    let sender = bus_of(words.next()?);
    if kind == 2 || kind == 3 {
        put_reply(out, words.next()?)?;
    } else {
        put_field(out, 1, b'o', path_of(words.next()?))?;
        put_field(out, 2, b's', interface_of(words.next()?))?;
        put_field(out, 3, b's', ("", words.next()?))?;
    }
    if kind == 3 {
        put_field(out, 4, b's', ("", words.next()?))?;
    }
    put_field(out, 7, b's', ("", sender))
}

/// Appends the codes of the types of the values, which follow so many words.
fn put_codes(out: &mut Bytes, line: &str, before: usize) -> Option<()> {
    for word in line.split_whitespace().skip(before) {
        let (ty, _) = word.split_once('=')?;
        out.extend(codes_of(ty).as_bytes()).ok()?;
    }
    Some(())
}

/// Appends the field of the types of the values, where there are some.
fn put_types(out: &mut Bytes, line: &str, before: usize) -> Option<()> {
    if line.split_whitespace().skip(before).next().is_none() {
        return Some(());
    }
    pad(out, 8)?;
    out.extend(&[8, 1, b'g', 0, 0]).ok()?;
    let start = out.len();
    put_codes(out, line, before)?;
    let length = u8::try_from(out.len().checked_sub(start)?).ok()?;
    set(out, start.checked_sub(1)?, &[length])?;
    out.push(0).ok()
}

/// Appends the values: each is `TYPE=VALUE`, a text `s`, a path `o`, a signature `g`, a number `u` or `i`, a truth
/// value `b`, a pair `(so)=NAME@PATH` or `(ss)`; a variant `v` of a text, or `vu`, `vi` and so on; an array
/// `as=ONE;TWO` of plain values; `item` and `items` of an application.
fn put_values(out: &mut Bytes, line: &str, before: usize) -> Option<()> {
    for word in line.split_whitespace().skip(before) {
        let (ty, value) = word.split_once('=')?;
        put_value(out, ty, value)?;
    }
    Some(())
}

/// Appends a message. The length of its body, which stands behind the first four bytes, is set at the end.
fn put_message(out: &mut Bytes, line: &str) -> Option<()> {
    let mut words = line.split_whitespace();
    let (kind, flags) = kind_of(words.next()?)?;
    let serial = words.next()?.parse::<u32>().ok()?;
    let before = words_before_values(kind);
    out.extend(&[b'l', kind, flags, 1, 0, 0, 0, 0]).ok()?;
    put_u32(out, serial)?;
    let fields = begin(out, true)?;
    put_fields(out, kind, line)?;
    put_types(out, line, before)?;
    end(out, fields)?;
    pad(out, 8)?;
    let start = out.len();
    put_values(out, line, before)?;
    let length = u32::try_from(out.len().checked_sub(start)?).ok()?;
    set(out, 4, &length.to_le_bytes())
}

/// The bytes of a message: `KIND SERIAL SENDER`, then for a return `REPLY`, the serial of the call, for an error the
/// same and its name, and else `PATH INTERFACE MEMBER`, then its values. The word `-` stands for a field that is not
/// there.
pub fn bytes_of(alloc: Global, words: &str) -> Option<Bytes> {
    let mut out = Bytes::new(alloc);
    match put_message(&mut out, words) {
        Some(()) => Some(out),
        None => None,
    }
}
