//! What is told of bytes: the rows of this crate's tables.

use crate::codes::{count, put_type, put_types};
use crate::spelled::put_spelled;
use atspi_base::valid_names::{
    BusName, Interface, Member, Path, is_bus_name, is_interface, is_member, is_path,
};
use atspi_base::{
    Bytes, Text, TextFault, put_decimal, put_hex, put_in_quotes, put_signed, read_str,
};
use atspi_marshal_in_place::codes::TysRef;
use atspi_types::{Fault, ReadFault, Signature};
use std::alloc::Global;
use std::process::Abort;

/// What is asked of bytes.
#[derive(Clone, Copy)]
pub(crate) enum Asked {
    /// Reading them as a text: 0 and the characters, 1 and the place of a zero byte, or 2 and the place where UTF-8
    /// ends.
    Text,
    /// The bytes in quotes.
    Quotes,
    /// Two numbers: the first in hex and in decimal, and the second with its sign.
    Digits,
    /// Which kinds of name they are: `p` path, `b` bus name, `i` interface, `m` member.
    Names,
    /// Reading them as a signature: 0 and the number of types, or the reason and the place.
    Signature,
    /// The codes of a copy of the signature that they are.
    Copied,
    /// The codes of each type of the signature that they are, where it lies.
    Types,
    /// What the one type tells of itself that they are.
    Type,
}

/// What reading bytes as a text answers.
fn reading(alloc: Global, bytes: &[u8]) -> (u32, u32) {
    if bytes.len() > 100 {
        return (9, 9);
    }
    match Text::read(alloc, bytes) {
        Ok(text) => (0, text.count()),
        Err(TextFault::Zero(place)) => (1, place),
        Err(TextFault::Utf8(place)) => (2, place),
        Err(TextFault::NoMemory) => (3, 0),
    }
}

/// What reading a signature where it lies answers.
fn lying(bytes: &[u8]) -> (u32, u32) {
    match TysRef::parse(bytes) {
        Ok(types) => (0, count(types)),
        Err(Fault { place, reason }) => (reason as u32, place),
    }
}

/// What reading an owned signature answers.
fn owned(alloc: Global, bytes: &[u8]) -> (u32, u32) {
    match Signature::parse(alloc, bytes) {
        Ok(signature) => (0, signature.types().len().min(999) as u32),
        Err(ReadFault::Bad(fault)) => (fault.reason as u32, fault.place),
        Err(ReadFault::NoMemory) => (99, 0),
    }
}

/// What both readers of signatures answer; (98, 0) where they differ.
pub(crate) fn signature(alloc: Global, bytes: &[u8]) -> (u32, u32) {
    let told = owned(alloc, bytes);
    if lying(bytes) == told { told } else { (98, 0) }
}

/// The letter where bytes are read and pass the test too, a dash where they do neither, and else a question mark.
fn mark(is_read: bool, passes: bool, letter: u8) -> u8 {
    if is_read != passes {
        b'?'
    } else if passes {
        letter
    } else {
        b'-'
    }
}

/// Which kinds of name the bytes are.
fn names(alloc: Global, bytes: &[u8]) -> [u8; 4] {
    [
        mark(Path::read(alloc, bytes).is_ok(), is_path(bytes), b'p'),
        mark(
            BusName::read(alloc, bytes).is_ok(),
            is_bus_name(bytes),
            b'b',
        ),
        mark(
            Interface::read(alloc, bytes).is_ok(),
            is_interface(bytes),
            b'i',
        ),
        mark(Member::read(alloc, bytes).is_ok(), is_member(bytes), b'm'),
    ]
}

// What finds no memory is left out; then what is told is not what is due.

/// Appends two numbers.
pub(crate) fn put_pair(out: &mut Bytes, pair: (u32, u32)) {
    let _ = put_decimal(u64::from(pair.0), out);
    let _ = out.push(b' ');
    let _ = put_decimal(u64::from(pair.1), out);
}

/// Appends a number in hex and in decimal, and one with its sign.
fn put_digits(out: &mut Bytes, unsigned: u64, signed: i64) {
    let _ = put_hex(unsigned, out);
    let _ = out.push(b' ');
    let _ = put_decimal(unsigned, out);
    let _ = out.push(b' ');
    let _ = put_signed(signed, out);
}

/// The same of the two numbers that bytes spell with a blank between them.
fn put_numbers(out: &mut Bytes, bytes: &[u8]) {
    if bytes.len() > 100 {
        return;
    }
    let (unsigned, signed) = read_str(bytes)
        .unwrap_or("")
        .split_once(' ')
        .unwrap_or(("1", "1"));
    put_digits(
        out,
        unsigned.parse::<u64>().unwrap_or(1),
        signed.parse::<i64>().unwrap_or(1),
    );
}

/// Appends the codes of a copy of the signature.
fn put_copy(alloc: Global, out: &mut Bytes, signature: &Signature) {
    if let Ok(copy) = signature.copy(alloc) {
        let _ = copy.write(out);
    }
}

/// The same of the signature that bytes are, behind the word `codes`.
fn put_signature(alloc: Global, out: &mut Bytes, bytes: &[u8]) {
    if let Ok(signature) = Signature::parse(alloc, bytes) {
        let _ = out.extend(b"codes ");
        put_copy(alloc, out, &signature);
    }
}

/// Appends what is told of bytes.
fn put_told(alloc: Global, out: &mut Bytes, asked: Asked, bytes: &[u8]) {
    match asked {
        Asked::Text => put_pair(out, reading(alloc, bytes)),
        Asked::Quotes => {
            let _ = put_in_quotes(bytes, out);
        }
        Asked::Digits => put_numbers(out, bytes),
        Asked::Names => {
            let _ = out.extend(&names(alloc, bytes));
        }
        Asked::Signature => put_pair(out, signature(alloc, bytes)),
        Asked::Copied => put_signature(alloc, out, bytes),
        Asked::Types => put_types(out, bytes),
        Asked::Type => put_type(out, bytes),
    }
}

/// Whether of the bytes of a row is told what is due, as `BYTES => DUE`.
fn holds(alloc: Global, asked: Asked, row: &str) -> bool {
    let (spelled, told) = row.split_once(" => ").unwrap_or((row, ""));
    let mut bytes = Bytes::new(alloc);
    let mut due = Bytes::new(alloc);
    let mut out = Bytes::new(alloc);
    put_spelled(&mut bytes, spelled);
    put_spelled(&mut due, told);
    put_told(alloc, &mut out, asked, bytes.as_slice());
    out.as_slice() == due.as_slice()
}

/// Each row holds.
pub(crate) fn try_rows(rt: &impl Abort, alloc: Global, asked: Asked, rows: &str) {
    for row in rows.lines() {
        assert!(rt; holds(alloc, asked, row), "{row}");
    }
}
