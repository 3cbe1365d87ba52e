//! Messages that tests are about, as bytes: put together word by word, least byte first (D-Bus Specification, "Message
//! Format").

ghost use Rattle.std.specs.Prelude.{◌<◌};

use atspi_base::Bytes;
use atspi_message::total;
use atspi_message_in_place::MessageRef;
use std::alloc::Global;
use std::process::Abort;

/// Appends bytes.
pub fn put(rt: &impl Abort, out: &mut Bytes, bytes: &[u8]) {
    out.extend(bytes).expect(rt, "memory");
}

/// Appends zeros up to a multiple of 4 or 8.
fn pad(rt: &impl Abort, out: &mut Bytes, unit: usize)
    requires { 0 < unit }
{
    let few = (unit - out.len() % unit) % unit;
    let (zeros, _) = b"\0\0\0\0\0\0\0".split_at(few.min(7));
    put(rt, out, zeros);
}

/// Appends a number of four bytes.
fn put_four(rt: &impl Abort, out: &mut Bytes, four: [u8; 4]) {
    pad(rt, out, 4);
    put(rt, out, &four);
}

/// Appends a length.
fn put_length(rt: &impl Abort, out: &mut Bytes, length: usize) {
    let length = u32::try_from(length).expect(rt, "a length");
    put_four(rt, out, length.to_le_bytes());
}

/// Appends a text or a path.
fn put_text(rt: &impl Abort, out: &mut Bytes, text: &str) {
    put_length(rt, out, text.len());
    put(rt, out, text.as_bytes());
    put(rt, out, b"\0");
}

/// Appends a signature.
fn put_signature(rt: &impl Abort, out: &mut Bytes, codes: &str) {
    let length = u8::try_from(codes.len()).expect(rt, "a length");
    put(rt, out, &[length]);
    put(rt, out, codes.as_bytes());
    put(rt, out, b"\0");
}

/// Appends what a word spells: a text or a path `s=`, a number `u=` or `i=`, a byte `b=`, a signature `v=`, zeros
/// before a struct or its like `(`.
fn put_word(rt: &impl Abort, out: &mut Bytes, word: &str) {
    let (kind, value) = word.split_once('=').unwrap_or((word, ""));
    match kind {
        "s" => put_text(rt, out, value),
        "u" => {
            let n = value.parse::<u32>().expect(rt, "a number");
            put_four(rt, out, n.to_le_bytes());
        }
        "i" => {
            let n = value.parse::<i32>().expect(rt, "a number");
            put_four(rt, out, n.to_le_bytes());
        }
        "b" => put(rt, out, &[value.parse::<u8>().expect(rt, "a byte")]),
        "v" => put_signature(rt, out, value),
        other => {
            stop_unless(rt, word, other == "(");
            pad(rt, out, 8);
        }
    }
}

/// Appends what words spell, with `|` between two; nothing for no words.
fn put_words(rt: &impl Abort, out: &mut Bytes, words: &str) {
    for word in words.split_terminator('|') {
        put_word(rt, out, word);
    }
}

/// Appends a list of so many items of `:1.7/a`, with indexes from 0. Each takes 124 bytes, and 4 more before the next.
fn put_items(rt: &impl Abort, out: &mut Bytes, count: u32) {
    let length = count.saturating_mul(128).saturating_sub(4);
    put_four(rt, out, length.to_le_bytes());
    pad(rt, out, 8);
    for index in 0..count {
        put_words(rt, out, "(|s=:1.7|s=/a|(|s=:1.7|s=/r|(|s=é|s=/p");
        put_four(rt, out, index.to_le_bytes());
        put_words(rt, out, "i=0|u=13|s=a.B|s=|s=OK|u=43|s=Does it|u=4|u=1");
    }
}

/// Appends values: words with `|` between two, of which the first may be `items=COUNT`; nothing for no values.
fn put_values(rt: &impl Abort, out: &mut Bytes, words: &str) {
    let Some(spelled) = words.strip_prefix("items=") else {
        return put_words(rt, out, words);
    };
    let (count, rest) = spelled.split_once('|').unwrap_or((spelled, ""));
    put_items(rt, out, count.parse::<u32>().expect(rt, "a number"));
    put_words(rt, out, rest);
}

/// A message of these fields and values. In front stand its order, its type, its flags and 1.
fn message(rt: &impl Abort, alloc: Global, front: [u8; 4], fields: &[u8], words: &str) -> Bytes {
    let mut body = Bytes::new(alloc);
    put_values(rt, &mut body, words);
    let mut out = Bytes::new(alloc);
    put(rt, &mut out, &front);
    put_length(rt, &mut out, body.len());
    put_words(rt, &mut out, "u=9");
    put_length(rt, &mut out, fields.len());
    put(rt, &mut out, fields);
    pad(rt, &mut out, 8);
    put(rt, &mut out, body.as_slice());
    out
}

/// Appends the words before a field, and the text that it has.
fn put_field(rt: &impl Abort, fields: &mut Bytes, words: &str, text: &str) {
    put_words(rt, fields, words);
    put_text(rt, fields, text);
}

/// Appends the field of the types of values.
fn put_types(rt: &impl Abort, fields: &mut Bytes, codes: &str) {
    put_words(rt, fields, "(|b=8|v=g");
    put_signature(rt, fields, codes);
}

/// Appends the fields of a call of a member of `/org/a11y/atspi/accessible/7`, of an interface or, where it is a dash,
/// of none, with values of these types.
fn put_call(rt: &impl Abort, fields: &mut Bytes, interface: &str, member: &str, codes: &str) {
    put_words(rt, fields, "(|b=1|v=o|s=/org/a11y/atspi/accessible/7");
    if interface != "-" {
        put_field(rt, fields, "(|b=2|v=s", interface);
    }
    put_field(rt, fields, "(|b=3|v=s", member);
    if !codes.is_empty() {
        put_types(rt, fields, codes);
    }
}

/// A text up to a sign `|`, and what stands behind it.
fn parted(spelled: &str) -> (&str, &str) {
    spelled.split_once('|').unwrap_or((spelled, ""))
}

/// The bytes of a call without a sender. It is spelled by its interface, a blank, its member, and behind `|` the codes
/// of its values' types, `|` and the values.
pub fn call(rt: &impl Abort, alloc: Global, spelled: &str) -> Bytes {
    let (names, carried) = parted(spelled);
    let (interface, member) = names.split_once(' ').expect(rt, "a member");
    let (codes, words) = parted(carried);
    let mut fields = Bytes::new(alloc);
    put_call(rt, &mut fields, interface, member, codes);
    message(rt, alloc, [b'l', 1, 0, 1], fields.as_slice(), words)
}

/// The bytes of a signal of the node `/n` at `:1.7`. It is spelled by its member, `|`, and what it carries: the codes
/// of its values' types, `|` and the values.
pub fn signal(rt: &impl Abort, alloc: Global, interface: &str, spelled: &str) -> Bytes {
    let (member, carried) = parted(spelled);
    let (codes, words) = parted(carried);
    let mut fields = Bytes::new(alloc);
    put_field(rt, &mut fields, "(|b=1|v=o|s=/n|(|b=2|v=s", interface);
    put_field(rt, &mut fields, "(|b=3|v=s", member);
    put_words(rt, &mut fields, "(|b=7|v=s|s=:1.7");
    put_types(rt, &mut fields, codes);
    message(rt, alloc, [b'l', 4, 1, 1], fields.as_slice(), words)
}

/// The bytes of what a call of `:1.7` returns, spelled by what it carries.
pub fn returned(rt: &impl Abort, alloc: Global, carried: &str) -> Bytes {
    let (codes, words) = parted(carried);
    let mut fields = Bytes::new(alloc);
    put_words(rt, &mut fields, "(|b=5|v=u|u=4|(|b=7|v=s|s=:1.7");
    put_types(rt, &mut fields, codes);
    message(rt, alloc, [b'l', 2, 1, 1], fields.as_slice(), words)
}

/// The message that the bytes are, where it lies, taken for one of a type.
pub fn lent<'a>(rt: &impl Abort, bytes: &'a [u8], kind: u8) -> MessageRef<'a> {
    let first = bytes.first_chunk::<16>().expect(rt, "a front");
    let length = total(first).expect(rt, "a length");
    assert!(rt; length as usize == bytes.len());
    let mut message = MessageRef::parse(bytes).expect(rt, "a message");
    message.kind = kind;
    message
}

/// Stops at a row that does not hold, and shows it.
pub fn stop_unless(rt: &impl Abort, row: &str, holds: bool) {
    assert!(rt; holds, "{row}");
}
