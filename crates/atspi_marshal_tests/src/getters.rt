//! Which getters of a value that lies in bytes answer, by its type.

use crate::marshal::append;
use atspi_base::Bytes;
use atspi_marshal_in_place::codes::TysRef;
use atspi_marshal_in_place::{Fields, Item};
use atspi_types::Order;
use std::alloc::Global;
use std::test::*;

/// The letter where there is something, and else a dash.
fn mark(is_there: bool, letter: u8) -> u8 {
    if is_there { letter } else { b'-' }
}

/// Which getters of numbers answer, by the codes of their types.
fn numbers(item: Item<'_>) -> [u8; 9] {
    [
        mark(item.u8().is_some(), b'y'),
        mark(item.bool().is_some(), b'b'),
        mark(item.i16().is_some(), b'n'),
        mark(item.u16().is_some(), b'q'),
        mark(item.i32().is_some(), b'i'),
        mark(item.u32().is_some(), b'u'),
        mark(item.i64().is_some(), b'x'),
        mark(item.u64().is_some(), b't'),
        mark(item.double().is_some(), b'd'),
    ]
}

/// Which of the others answer: `s` text, `o` path, `g` signature, `v` variant, `a` elements, `B` bytes, `r` fields, `e`
/// entries.
fn others(item: Item<'_>) -> [u8; 8] {
    [
        mark(item.text().is_some(), b's'),
        mark(item.path().is_some(), b'o'),
        mark(item.signature().is_some(), b'g'),
        mark(item.variant().is_some(), b'v'),
        mark(item.elements().is_some(), b'a'),
        mark(item.bytes().is_some(), b'B'),
        mark(item.fields().is_some(), b'r'),
        mark(item.entries().is_some(), b'e'),
    ]
}

/// The number that a value is, by whichever getter answers; 0 where it is none.
fn number(item: Item<'_>) -> i64 {
    let unsigned = u64::from(item.u8().unwrap_or(0))
        | u64::from(item.u16().unwrap_or(0))
        | u64::from(item.u32().unwrap_or(0))
        | u64::from(item.bool().unwrap_or(false))
        | item.u64().unwrap_or(0)
        | item.double().unwrap_or(0);
    let signed = i64::from(item.i16().unwrap_or(0))
        | i64::from(item.i32().unwrap_or(0))
        | item.i64().unwrap_or(0);
    unsigned.cast_signed() | signed
}

/// The text or the path that a value is; a dash where it is neither.
fn text(item: Item<'_>) -> &str {
    item.text().or(item.path()).unwrap_or("-")
}

/// The first value in a container, or the value of its first entry.
fn first_in(item: Item<'_>) -> Option<Item<'_>> {
    if let Some(mut elements) = item.elements() {
        return elements.next();
    }
    if let Some(mut fields) = item.fields() {
        return fields.next();
    }
    match item.entries() {
        Some(mut entries) => match entries.next() {
            Some(entry) => Some(entry.value),
            None => None,
        },
        None => item.variant(),
    }
}

/// Whether the first value in the first values in one another, of which the outermost is this, is the number or the
/// text that is due.
fn is_innermost(item: Item<'_>, due_number: &str, due_text: &str) -> bool {
    let mut inner = item;
    for _level in 0..4 {
        if let Some(next) = first_in(inner) {
            inner = next;
        }
    }
    number(inner) == due_number.parse::<i64>().unwrap_or(0) && text(inner) == due_text
}

/// The one value of a body.
fn only<'a>(codes: &'a [u8], bytes: &'a [u8]) -> Option<Item<'a>> {
    let Ok(types) = TysRef::parse(codes) else {
        return None;
    };
    if bytes.len() > 1000 {
        return None;
    }
    match Fields::read(Order::Little, bytes, 0, types) {
        Ok((mut fields, _)) => {
            let item = fields.next();
            if fields.next().is_none() { item } else { None }
        }
        Err(_) => None,
    }
}

/// The codes of types, a value of each in hex, the getters that answer, and the number and the text of the innermost
/// first value (0 and a dash where it is none).
const ROWS: &str = "\
y 07 y-------- -------- 7 -
b 01000000 -b------- -------- 1 -
n feff --n------ -------- -2 -
q 0301 ---q----- -------- 259 -
i fdffffff ----i---- -------- -3 -
u 09010000 -----u--- -------- 265 -
x ffffffffffffffff ------x-- -------- -1 -
t 0b01000000000000 -------t- -------- 267 -
d 000000000000f03f --------d -------- 4607182418800017408 -
s 02000000c3a900 --------- s------- 0 \u{e9}
o 020000002f6100 --------- -o------ 0 /a
g 05612879762900 --------- --g----- 0 -
v 01760001790005 --------- ---v---- 5 -
ay 03000000616263 --------- ----aB-- 97 -
aq 0400000001000200 --------- ----a--- 1 -
as 0e0000000100000061000000010000006200 --------- ----a--- 0 a
(ybs) 0100000001000000010000006100 --------- ------r- 1 -
a(y) 0900000000000000010000000000000002 --------- ----a--- 1 -
a{yu} 10000000000000000100000009000000020000000a000000 --------- -------e 9 -
a{sv} 100000000000000001000000610001750000000005000000 --------- -------e 5 -
a(us) 1a000000000000000100000001000000610000000000000002000000010000006200 --------- ----a--- 1 -
u 09000000 -----u--- -------- 9 -
q 0300 ---q----- -------- 3 -
t 0b00000000000000 -------t- -------- 11 -";

/// Whether of the value of a row just those getters answer that are due, and the innermost first value is the due one.
fn holds(alloc: Global, row: &str) -> bool {
    let mut words = row.split(' ');
    let codes = words.next().unwrap_or("").as_bytes();
    let spelled = words.next().unwrap_or("");
    let due_numbers = words.next().unwrap_or("");
    let due_others = words.next().unwrap_or("");
    let due_number = words.next().unwrap_or("");
    let due_text = words.next().unwrap_or("");
    let mut bytes = Bytes::new(alloc);
    let is_spelled = append(&mut bytes, spelled);
    match only(codes, bytes.as_slice()) {
        Some(item) => {
            is_spelled
                && numbers(item).as_slice() == due_numbers.as_bytes()
                && others(item).as_slice() == due_others.as_bytes()
                && is_innermost(item, due_number, due_text)
        }
        None => false,
    }
}

#[test]
fn getters_answer_by_the_type(rt: HostRuntime) {
    for row in ROWS.lines() {
        assert!(rt; holds(rt.alloc(), row), "{row}");
    }
}
