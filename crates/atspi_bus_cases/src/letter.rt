//! Messages that connections send, as bytes: they are put together here field by field, by no code of the product's
//! (D-Bus Specification, "Message Format"), least byte first.

ghost use Rattle.std.specs.Prelude.{◌<◌};

use atspi_base::Bytes;

/// What a message says: its type, flags and serial, its destination, its member, the serial that it replies to, and the
/// text and the number of its body. Its path is `/`, a signal's interface `i.f`, and an error's name `e.r`.
#[derive(Clone, Copy)]
pub struct Letter<'a> {
    pub kind: u8,
    pub flags: u8,
    pub serial: u32,
    pub to: Option<&'a str>,
    pub member: Option<&'a str>,
    pub reply: Option<u32>,
    pub text: Option<&'a str>,
    pub number: Option<u32>,
}

/// Appends zeros up to a multiple of a number.
fn pad(out: &mut Bytes, unit: usize) -> Option<()>
    requires { 0 < unit }
{
    for _zero in 0..(unit - out.len() % unit) % unit {
        out.push(0).ok()?;
    }
    Some(())
}

/// Appends a number.
fn put_u32(out: &mut Bytes, n: u32) -> Option<()> {
    pad(out, 4)?;
    out.extend(&n.to_le_bytes()).ok()
}

/// Appends a text or a path.
fn put_text(out: &mut Bytes, text: &str) -> Option<()> {
    put_u32(out, u32::try_from(text.len()).ok()?)?;
    out.extend(text.as_bytes()).ok()?;
    out.push(0).ok()
}

/// Appends a field that is a text or a path, if it is there.
fn put_name(out: &mut Bytes, code: u8, ty: u8, name: Option<&str>) -> Option<()> {
    match name {
        Some(name) => {
            pad(out, 8)?;
            out.extend(&[code, 1, ty, 0]).ok()?;
            put_text(out, name)
        }
        None => Some(()),
    }
}

/// Appends the serial of the call that is answered, if there is one.
fn put_reply(out: &mut Bytes, reply: Option<u32>) -> Option<()> {
    match reply {
        Some(serial) => {
            pad(out, 8)?;
            out.extend(&[5, 1, b'u', 0]).ok()?;
            put_u32(out, serial)
        }
        None => Some(()),
    }
}

/// Appends the signature of the body, if it has a value.
fn put_types(out: &mut Bytes, letter: &Letter) -> Option<()> {
    let types: &[u8] = match (letter.text.is_some(), letter.number.is_some()) {
        (true, true) => &[2, b's', b'u', 0],
        (true, false) => &[1, b's', 0],
        (false, true) => &[1, b'u', 0],
        (false, false) => return Some(()),
    };
    pad(out, 8)?;
    out.extend(&[8, 1, b'g', 0]).ok()?;
    out.extend(types).ok()
}

/// A word, if a type is the one that has it.
fn word_for<'a>(kind: u8, wanted: u8, word: &'a str) -> Option<&'a str> {
    if kind == wanted { Some(word) } else { None }
}

/// Appends the fields.
fn put_fields(out: &mut Bytes, letter: &Letter) -> Option<()> {
    put_name(out, 1, b'o', Some("/"))?;
    put_name(out, 2, b's', word_for(letter.kind, 4, "i.f"))?;
    put_name(out, 3, b's', letter.member)?;
    put_name(out, 4, b's', word_for(letter.kind, 3, "e.r"))?;
    put_reply(out, letter.reply)?;
    put_name(out, 6, b's', letter.to)?;
    put_types(out, letter)
}

/// Appends the values of the body.
fn put_body(out: &mut Bytes, letter: &Letter) -> Option<()> {
    if let Some(text) = letter.text {
        put_text(out, text)?;
    }
    if let Some(number) = letter.number {
        put_u32(out, number)?;
    }
    Some(())
}

/// Writes at a place how many bytes stand behind another one.
fn set_length(out: &mut Bytes, place: usize, start: usize) -> Option<()> {
    let length = u32::try_from(out.len().checked_sub(start)?).ok()?;
    if out.len() < place.checked_add(4)? {
        return None;
    }
    out.set(place, &length.to_le_bytes());
    Some(())
}

/// Appends a letter to bytes of which there are none yet.
pub fn write(out: &mut Bytes, letter: &Letter) -> Option<()> {
    out.extend(&[b'l', letter.kind, letter.flags, 1]).ok()?;
    put_u32(out, 0)?;
    put_u32(out, letter.serial)?;
    put_u32(out, 0)?;
    put_fields(out, letter)?;
    set_length(out, 12, 16)?;
    pad(out, 8)?;
    let start = out.len();
    put_body(out, letter)?;
    set_length(out, 4, start)
}
