//! Quoted texts: how a text is written in scripts, in traces and in the texts of messages.

ghost use Rattle.std.specs.Prelude.{◌≡◌, ◌≤◌, ◌<◌, [], ◌∷◌, ◌++◌, length, take, slice_index, OnOk, OnErr};
ghost use Rattle.std.specs.List.{flat_map};
ghost use Rattle.atspi_base.specs.Quoted.{escaped, in_quotes, is_control, is_marked, quoted};

use crate::digits::hex_digit_of;
use crate::{Bytes, NoMemory, Text};

/// Whether a byte is written in hex between quotes: a control character.
pub fn is_control_byte(byte: u8) -> bool
    ensures { result ≡ is_control byte }
{
    byte < 32 || byte == 127
}

/// Whether a byte is written behind a backslash: the quote or the backslash.
fn is_marked_byte(byte: u8) -> bool
    ensures { result ≡ is_marked byte }
{
    byte == b'"' || byte == b'\\'
}

/// Appends a byte as it stands between quotes. After want of memory nothing was appended.
fn put_byte(byte: u8, out: &mut Bytes) -> Result<(), NoMemory>
    ensures ok { OnOk result (out.new ≡ out.old ++ escaped byte) }
    ensures front { take (length out.old) out.new ≡ out.old }
{
    if is_marked_byte(byte) {
        return out.extend(&[b'\\', byte]);
    }
    if is_control_byte(byte) {
        return out.extend(&[
            b'\\',
            b'x',
            hex_digit_of(byte / 16),
            hex_digit_of(byte % 16),
        ]);
    }
    out.push(byte)
}

/// How many bytes at the front stand between quotes as they are.
fn plain_front(bytes: &[u8]) -> usize
    ensures within { result ≤ length bytes.now }
    ensures plain { flat_map escaped (take result bytes.now) ≡ take result bytes.now }
{
    for i in 0..bytes.len() {
        if is_marked_byte(bytes[i]) || is_control_byte(bytes[i]) {
            return i;
        }
    }
    bytes.len()
}

/// Appends bytes in quotes. After want of memory a front of that was appended.
fn write_in_quotes(bytes: &[u8], out: &mut Bytes) -> Result<(), NoMemory>
    ensures ok { OnOk result (out.new ≡ out.old ++ in_quotes bytes.now) }
    ensures front { take (length out.old) out.new ≡ out.old }
{
    out.push(b'"')?;
    let mut at = 0;
    while at < bytes.len() {
        let plain = plain_front(&bytes[at..]);
        out.extend(&bytes[at..at + plain])?;
        at += plain;
        if at < bytes.len() {
            put_byte(bytes[at], out)?;
            at += 1;
        }
    }
    out.push(b'"')
}

/// Appends bytes in quotes. After want of memory nothing was appended.
pub fn put_in_quotes(bytes: &[u8], out: &mut Bytes) -> Result<(), NoMemory>
    ensures ok { OnOk result (out.new ≡ out.old ++ in_quotes bytes.now) }
    ensures err { OnErr result (out.new ≡ out.old) }
{
    let before = out.len();
    let written = write_in_quotes(bytes, out);
    if written.is_err() {
        out.truncate(before);
    }
    written
}

/// Appends a text in quotes. After want of memory nothing was appended.
pub fn put_quoted(text: &Text, out: &mut Bytes) -> Result<(), NoMemory>
    ensures ok { OnOk result (out.new ≡ out.old ++ quoted text.now) }
    ensures err { OnErr result (out.new ≡ out.old) }
{
    put_in_quotes(text.as_str().as_bytes(), out)
}
