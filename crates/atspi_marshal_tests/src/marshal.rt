//! Byte lists, and what decoding them answers.

ghost use Rattle.std.specs.Prelude.{◌≡◌, ◌≤◌, length};
ghost use Rattle.atspi_types.specs.Kinds.{IsLawful};
ghost use Rattle.atspi_types.specs.KindView.{kind_of};
ghost use Rattle.atspi_types.specs.Data.{IsWellTyped};
ghost use Rattle.atspi_types.specs.DataView.{data_of};

mod bodies;
mod empty;
mod ends;
mod faults;
mod items;
mod levels;
mod limits;
mod padding;
mod places;
mod signatures;
mod writing;

use atspi_base::Bytes;
use atspi_marshal::{Bound, Marshalled, decode, encode, is_read_again, no_front_of_another};
use atspi_marshal_in_place::codes::{TyRef, TysRef};
use atspi_marshal_in_place::{Fields, Item, pass};
use atspi_types::{Fault, Order, ReadFault, Signature, Ty, Value, ValueRef};
use std::alloc::Global;
use std::process::Abort;
use std::test::*;

/// The number that a digit of 16 stands for.
fn digit(c: u8) -> u8 {
    match c {
        b'0'..=b'9' => c - b'0',
        b'a'..=b'f' => c - b'a' + 10,
        _ => 0,
    }
}

/// Appends the bytes that a text names by two digits each. The text `-` names none.
pub(crate) fn append(bytes: &mut Bytes, text: &str) -> bool {
    for pair in text.as_bytes().chunks_exact(2) {
        if bytes.push((digit(pair[0]) << 4) | digit(pair[1])).is_err() {
            return false;
        }
    }
    true
}

/// Appends so many times the bytes of a front, and the bytes of what follows it.
fn append_all(bytes: &mut Bytes, count: u32, front: &str, last: &str) -> bool {
    for _time in 0..count {
        if !append(bytes, front) {
            return false;
        }
    }
    append(bytes, last)
}

/// Whether a value is written as these bytes, behind what stood there.
fn is_written(alloc: Global, order: Order, at: u32, value: &Value, due: &[u8]) -> bool
    requires place { at ≤ 134217728 }
    requires typed { IsWellTyped (data_of value.now) }
{
    let mut out = Bytes::new(alloc);
    if out.extend(b"abc").is_err() || encode(order, at, value, &mut out).is_err() {
        return false;
    }
    out.as_slice().strip_prefix(b"abc") == Some(due)
}

/// The same of a value of which its types are looked at first.
fn is_typed_and_written(alloc: Global, order: Order, at: u32, value: &Value, due: &[u8]) -> bool
    requires { at ≤ 134217728 }
{
    value.is_well_typed() && is_written(alloc, order, at, value, due)
}

/// Whether a value that lies in bytes, made an owned one, is written as these bytes.
fn is_owned(alloc: Global, order: Order, at: u32, item: Item<'_>, due: &[u8]) -> bool
    requires { at ≤ 134217728 }
{
    match item.value(alloc) {
        Ok(value) => is_typed_and_written(alloc, order, at, &value, due),
        Err(_) => false,
    }
}

/// The same of the first value that lies at a place.
fn lies(alloc: Global, order: Order, codes: &[u8], at: u32, bytes: &[u8], due: &[u8]) -> bool
    requires { (at ≤ length bytes.now) × (length bytes.now ≤ 134217728) }
{
    let Ok(types) = TysRef::parse(codes) else {
        return false;
    };
    let Ok((mut fields, _)) = Fields::read(order, bytes, at as usize, types) else {
        return false;
    };
    match fields.next() {
        Some(item) => is_owned(alloc, order, at, item, due),
        None => false,
    }
}

/// 0 where a value is written again both as it was read and as it lies, and else 95.
fn mark(again: bool, lying: bool) -> u32 {
    if again && lying { 0 } else { 95 }
}

/// What decoding a value of a type, which these codes spell, answers: 0 and the place behind the value, or the reason
/// and its place. A value that is read has to be written again as it was, and so has the one where it lies.
fn answer(alloc: Global, order: Order, ty: &Ty, codes: &[u8], at: u32, bytes: &[u8]) -> (u32, u32)
    requires { IsLawful (kind_of ty.now) × (at ≤ length bytes.now) × (length bytes.now ≤ 134217728) }
{
    match decode(alloc, order, bytes, at, ty) {
        Ok((value, end)) => {
            let due = &bytes[at as usize..end as usize];
            // both are asked, since it is dear to prove that the value goes in more than one place
            (
                mark(
                    is_written(alloc, order, at, &value, due),
                    lies(alloc, order, codes, at, bytes, due),
                ),
                end,
            )
        }
        Err(ReadFault::Bad(fault)) => (u32::from(fault.reason), fault.place),
        Err(ReadFault::NoMemory) => (96, 0),
    }
}

/// The same of the type that the codes spell.
fn decoded(alloc: Global, order: Order, codes: &[u8], at: u32, bytes: &[u8]) -> (u32, u32)
    requires { (at ≤ length bytes.now) × (length bytes.now ≤ 134217728) }
{
    match Signature::parse(alloc, codes) {
        Ok(signature) => match signature.types() {
            [ty] => answer(alloc, order, ty, codes, at, bytes),
            _ => (97, 0),
        },
        Err(_) => (98, 0),
    }
}

/// What passing over a value answers.
fn passed(order: Order, ty: TyRef<'_>, at: u32, bytes: &[u8]) -> (u32, u32)
    requires { (at ≤ length bytes.now) × (length bytes.now ≤ 134217728) }
{
    let bound = Bound {
        end: bytes.len(),
        reason: 19,
    };
    match pass(&Marshalled { order, bytes }, 64, ty, bound, at as usize) {
        Ok(end) => (0, end as u32),
        Err(Fault { place, reason }) => (u32::from(reason), place),
    }
}

/// What reading the values of a body where they lie answers; (99, 0) of bytes that are no signature.
fn walked(order: Order, codes: &[u8], at: u32, bytes: &[u8]) -> (u32, u32)
    requires { (at ≤ length bytes.now) × (length bytes.now ≤ 134217728) }
{
    let Ok(types) = TysRef::parse(codes) else {
        return (99, 0);
    };
    match Fields::read(order, bytes, at as usize, types) {
        Ok((_, end)) => (0, u32::try_from(end).unwrap_or(u32::MAX)),
        Err(Fault { place, reason }) => (u32::from(reason), place),
    }
}

/// What all three readers answer of a value at a place; (94, 0) where they differ. A body of no value, or of several,
/// is walked alone.
pub(crate) fn told(alloc: Global, order: Order, codes: &[u8], at: u32, bytes: &[u8]) -> (u32, u32)
    requires { (at ≤ length bytes.now) × (length bytes.now ≤ 134217728) }
{
    let walked = walked(order, codes, at, bytes);
    let Ok(Some(ty)) = TyRef::parse(codes) else {
        return walked;
    };
    if passed(order, ty, at, bytes) == walked && decoded(alloc, order, codes, at, bytes) == walked {
        walked
    } else {
        (94, 0)
    }
}

/// An order of bytes by its letter.
fn order_of(letter: &str) -> Order {
    if letter == "b" {
        Order::Big
    } else {
        Order::Little
    }
}

/// The number that a word spells.
fn number(word: Option<&str>) -> u32 {
    word.unwrap_or("").parse::<u32>().unwrap_or(u32::MAX)
}

/// Whether a row holds. It has the order (little or big), the type, the place, then the bytes as so many times a front
/// and what follows it, and what is due: 0 and the place behind the value, or the reason and its place.
fn holds(alloc: Global, row: &str) -> bool {
    let mut words = row.split(' ');
    let order = order_of(words.next().unwrap_or(""));
    let codes = words.next().unwrap_or("").as_bytes();
    let at = number(words.next());
    let count = number(words.next());
    let front = words.next().unwrap_or("");
    let last = words.next().unwrap_or("");
    let due = (number(words.next()), number(words.next()));
    let mut bytes = Bytes::new(alloc);
    append_all(&mut bytes, count, front, last)
        && bytes.len() <= 2000
        && at as usize <= bytes.len()
        && told(alloc, order, codes, at, bytes.as_slice()) == due
}

/// Each row of a table holds.
fn try_rows(rt: &impl Abort, alloc: Global, rows: &str) {
    for row in rows.lines() {
        assert!(rt; holds(alloc, row), "{row}");
    }
}

#[test]
fn values_are_read_or_refused_at_the_first_fault(rt: HostRuntime) {
    try_rows(&rt, rt.alloc(), places::ROWS);
    try_rows(&rt, rt.alloc(), padding::ROWS);
    try_rows(&rt, rt.alloc(), empty::ROWS);
    try_rows(&rt, rt.alloc(), items::ROWS);
    try_rows(&rt, rt.alloc(), limits::ROWS);
    try_rows(&rt, rt.alloc(), ends::ROWS);
    try_rows(&rt, rt.alloc(), levels::ROWS);
    try_rows(&rt, rt.alloc(), signatures::ROWS);
    try_rows(&rt, rt.alloc(), faults::ROWS);
    try_rows(&rt, rt.alloc(), bodies::ROWS);
}

/// The number that a value is, where it is one of 16 bits.
fn number_of(value: ValueRef<'_>) -> Option<i32> {
    match value {
        ValueRef::U16(n) => Some(i32::from(n)),
        ValueRef::I16(n) => Some(i32::from(n)),
        _ => None,
    }
}

/// The number that two bytes are, read as a value of a type.
fn number_read(alloc: Global, order: Order, ty: &Ty, bytes: [u8; 2]) -> Option<i32>
    requires { IsLawful (kind_of ty.now) }
{
    match decode(alloc, order, &bytes, 0, ty) {
        Ok(read) => number_of(read.0.borrowed()),
        Err(_) => None,
    }
}

#[test]
fn numbers_are_read_and_written(rt: HostRuntime) {
    assert!(rt; number_read(rt.alloc(), Order::Big, &Ty::U16, [1, 2]) == Some(258));
    assert!(rt; number_read(rt.alloc(), Order::Little, &Ty::I16, [0xfe, 0xff]) == Some(-2));
    assert!(rt;
        is_written(
            rt.alloc(),
            Order::Big,
            1,
            &Value::U32(258),
            b"\0\0\0\0\0\x01\x02"
        )
    );
    no_front_of_another();
    is_read_again();
}
