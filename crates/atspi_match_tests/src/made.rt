//! Signals that tests are about, as bytes: put together word by word, least byte first (D-Bus Specification, "Message
//! Format").

ghost use Rattle.std.specs.Prelude.{◌<◌};

use atspi_base::Bytes;
use atspi_message::total;
use atspi_message_in_place::MessageRef;
use std::alloc::Global;

// What finds no memory is left out; then the bytes are no message.

/// Appends zeros up to a multiple of 4 or 8.
fn pad(out: &mut Bytes, unit: usize)
    requires { 0 < unit }
{
    let few = (unit - out.len() % unit) % unit;
    let (zeros, _) = b"\0\0\0\0\0\0\0".split_at(few.min(7));
    let _ = out.extend(zeros);
}

/// Appends a number of four bytes.
fn put_four(out: &mut Bytes, number: usize) {
    pad(out, 4);
    let _ = out.extend(&u32::try_from(number).unwrap_or(0).to_le_bytes());
}

/// Appends a text or a path.
fn put_text(out: &mut Bytes, text: &str) {
    put_four(out, text.len());
    let _ = out.extend(text.as_bytes());
    let _ = out.push(0);
}

/// Appends a signature.
fn put_signature(out: &mut Bytes, codes: &str) {
    let _ = out.push(u8::try_from(codes.len()).unwrap_or(0));
    let _ = out.extend(codes.as_bytes());
    let _ = out.push(0);
}

/// Appends what a word spells: a text or a path `s=`, a number `u=`.
fn put_word(out: &mut Bytes, word: &str) {
    let (kind, value) = word.split_once('=').unwrap_or((word, ""));
    if kind == "u" {
        put_four(out, value.parse::<usize>().unwrap_or(0));
    } else {
        put_text(out, value);
    }
}

/// Appends what words spell, with `|` between two.
fn put_words(out: &mut Bytes, words: &str) {
    if words.is_empty() {
        return;
    }
    for word in words.split('|') {
        put_word(out, word);
    }
}

/// The names in the header of a signal, each where it is there.
#[derive(Clone, Copy)]
pub(crate) struct Header<'a> {
    pub path: Option<&'a str>,
    pub interface: Option<&'a str>,
    pub member: Option<&'a str>,
    pub destination: Option<&'a str>,
    pub sender: Option<&'a str>,
}

/// Appends a field with a text or a path of these codes, where it is there.
fn put_field(out: &mut Bytes, number: u8, codes: &str, value: Option<&str>) {
    if let Some(text) = value {
        pad(out, 8);
        let _ = out.push(number);
        put_signature(out, codes);
        put_text(out, text);
    }
}

/// Appends the fields of a signal.
fn put_fields(out: &mut Bytes, header: Header<'_>, codes: &str) {
    put_field(out, 1, "o", header.path);
    put_field(out, 2, "s", header.interface);
    put_field(out, 3, "s", header.member);
    put_field(out, 6, "s", header.destination);
    put_field(out, 7, "s", header.sender);
    pad(out, 8);
    let _ = out.push(8);
    put_signature(out, "g");
    put_signature(out, codes);
}

/// The bytes of a signal with these names, the codes of its values' types, and the values, with `|` between two.
pub(crate) fn signal_with(alloc: Global, header: Header<'_>, codes: &str, words: &str) -> Bytes {
    let mut fields = Bytes::new(alloc);
    put_fields(&mut fields, header, codes);
    let mut body = Bytes::new(alloc);
    put_words(&mut body, words);
    let mut out = Bytes::new(alloc);
    let _ = out.extend(b"l\x04\0\x01");
    put_four(&mut out, body.len());
    put_four(&mut out, 1);
    put_four(&mut out, fields.len());
    let _ = out.extend(fields.as_slice());
    pad(&mut out, 8);
    let _ = out.extend(body.as_slice());
    out
}

/// The bytes of a signal of a connection to `:1.1`; no sender where its name is empty. It is spelled by its path, the
/// codes of its values' types, and the values, with `|` between two.
pub(crate) fn signal_of<'a>(alloc: Global, sender: &'a str, spelled: &'a str) -> Bytes {
    let (path, carried) = spelled.split_once('|').unwrap_or((spelled, ""));
    let (codes, words) = carried.split_once('|').unwrap_or((carried, ""));
    let header = Header {
        path: Some(path),
        interface: Some("org.example.Events"),
        member: Some("Changed"),
        destination: Some(":1.1"),
        sender: if sender.is_empty() {
            None
        } else {
            Some(sender)
        },
    };
    signal_with(alloc, header, codes, words)
}

/// The message that the bytes are, where it lies, taken for one of a type.
pub(crate) fn lent(bytes: &[u8], kind: u8) -> Option<MessageRef<'_>> {
    let length = total(bytes.first_chunk::<16>()?).ok()?;
    if length as usize != bytes.len() {
        return None;
    }
    match MessageRef::parse(bytes) {
        Ok(mut message) => {
            message.kind = kind;
            Some(message)
        }
        Err(_) => None,
    }
}
