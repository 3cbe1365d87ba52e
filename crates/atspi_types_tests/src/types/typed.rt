//! Types that are lawful or not, and values that are well typed or not and are copied.

use super::*;
use atspi_base::Bytes;
use atspi_types::{EntryType, tests_decide};

// The helpers leave out what finds no memory; then what is told is not what is due.

fn structure(alloc: Global, field: Option<Ty>) -> Ty {
    let mut fields = Tys::new(alloc);
    if let Some(ty) = field {
        let _ = fields.push(ty);
    }
    match Box::new(alloc, fields) {
        Ok(fields) => Ty::Struct(fields),
        Err(_) => Ty::Sig,
    }
}

fn array(alloc: Global, element: Ty) -> Ty {
    match Box::new(alloc, element) {
        Ok(element) => Ty::Array(element),
        Err(_) => Ty::Sig,
    }
}

fn dictionary(alloc: Global, key: Ty, value: Ty) -> Ty {
    match Box::new(alloc, EntryType { key, value }) {
        Ok(entry) => Ty::Dict(entry),
        Err(_) => Ty::Sig,
    }
}

/// The type of a row; each row has another.
fn type_of_row(alloc: Global, row: usize) -> Ty {
    match row {
        0 => Ty::Byte,
        1 => array(alloc, Ty::Variant),
        2 => structure(alloc, Some(Ty::Byte)),
        3 => structure(alloc, None),
        4 => array(alloc, structure(alloc, None)),
        5 => structure(alloc, Some(structure(alloc, None))),
        6 => dictionary(alloc, Ty::Text, Ty::Variant),
        7 => dictionary(alloc, Ty::Variant, Ty::Text),
        _ => dictionary(alloc, Ty::Text, structure(alloc, None)),
    }
}

/// Which of the rows are lawful.
const LAWFUL: &[u8; 9] = b"+++---+--";

/// The types of all rows.
fn all_types(alloc: Global) -> Tys {
    let mut types = Tys::new(alloc);
    for row in 0..9usize {
        let _ = types.push(type_of_row(alloc, row));
    }
    types
}

/// A plus where it holds, and else a dash.
fn mark(holds: bool) -> u8 {
    if holds { b'+' } else { b'-' }
}

/// Appends a mark for each type, whether it is lawful.
fn put_lawful(out: &mut Bytes, types: &[Ty]) {
    for ty in types {
        let _ = out.push(mark(ty.is_lawful()));
    }
}

/// Whether a type is the one of a row alone.
fn is_of_row(ty: &Ty, types: &[Ty], row: usize) -> bool {
    for (place, other) in types.iter().enumerate() {
        if ty.is(other) != (place == row) {
            return false;
        }
    }
    true
}

/// Whether each type is itself alone.
fn are_apart(types: &[Ty]) -> bool {
    for (row, ty) in types.iter().enumerate() {
        if !is_of_row(ty, types, row) {
            return false;
        }
    }
    true
}

#[test]
fn types_are_lawful_or_not_and_each_is_itself_alone(rt: HostRuntime) {
    tests_decide();
    let types = all_types(rt.alloc());
    let mut out = Bytes::new(rt.alloc());
    put_lawful(&mut out, types.as_slice());
    assert!(rt; out.as_slice() == LAWFUL.as_slice());
    assert!(rt; are_apart(types.as_slice()));
}

fn byte() -> Value {
    Value::Byte(7)
}

fn one(alloc: Global, value: Value) -> Values {
    let mut values = Values::new(alloc);
    let _ = values.push(value);
    values
}

fn two(alloc: Global, first: Value, second: Value) -> Values {
    let mut values = one(alloc, first);
    let _ = values.push(second);
    values
}

fn entry(alloc: Global, types: EntryType, key: Value, value: Value) -> Value {
    let mut pairs = Pairs::new(alloc);
    let _ = pairs.push(key, value);
    Value::Dict(types.key, types.value, pairs)
}

fn variant(alloc: Global, ty: Ty, value: Value) -> Value {
    match Box::new(alloc, value).ok() {
        Some(value) => Value::Variant(ty, value),
        None => Value::Bool(false),
    }
}

/// Which of all values are well typed: the structs and arrays, then the dictionaries and variants.
const WELL_TYPED: &[u8; 18] = b"-+-+--+-+-+---++--";

/// The struct or array of a row.
fn struct_or_array(alloc: Global, row: usize) -> Value {
    match row {
        0 => Value::Struct(Values::new(alloc)),
        1 => Value::Struct(one(alloc, byte())),
        2 => Value::Struct(one(alloc, Value::Struct(Values::new(alloc)))),
        3 => Value::Array(Ty::Byte, two(alloc, byte(), byte())),
        4 => Value::Array(Ty::U32, two(alloc, byte(), byte())),
        5 => Value::Array(Ty::Byte, two(alloc, byte(), Value::U32(7))),
        6 => Value::Array(Ty::U32, Values::from_bytes(Vec::new(alloc))),
        7 => Value::Array(structure(alloc, None), Values::new(alloc)),
        8 => structs(alloc, byte()),
        _ => structs(alloc, Value::U32(7)),
    }
}

/// An array of structs of a byte: one that is, and one of this value.
fn structs(alloc: Global, second: Value) -> Value {
    let first = Value::Struct(one(alloc, byte()));
    let second = Value::Struct(one(alloc, second));
    Value::Array(structure(alloc, Some(Ty::Byte)), two(alloc, first, second))
}

/// The types of a key and a value.
fn types(key: Ty, value: Ty) -> EntryType {
    EntryType { key, value }
}

/// The dictionary or variant of a row.
fn entry_or_variant(alloc: Global, row: usize) -> Value {
    match row {
        0 => entry(alloc, types(Ty::Byte, Ty::U32), byte(), Value::U32(5)),
        1 => entry(alloc, types(Ty::Byte, Ty::U32), byte(), byte()),
        2 => entry(alloc, types(Ty::U32, Ty::Byte), byte(), byte()),
        3 => keyed_by_struct(alloc),
        4 => variant(alloc, Ty::Byte, byte()),
        5 => variant(alloc, Ty::Variant, variant(alloc, Ty::Byte, byte())),
        6 => variant(alloc, Ty::Variant, variant(alloc, Ty::U32, byte())),
        _ => variant(alloc, Ty::U32, byte()),
    }
}

/// A dictionary whose key is a struct.
fn keyed_by_struct(alloc: Global) -> Value {
    let key = Value::Struct(one(alloc, byte()));
    entry(
        alloc,
        types(structure(alloc, Some(Ty::Byte)), Ty::Byte),
        key,
        byte(),
    )
}

/// The structs and arrays of all rows, and behind them the dictionaries and variants.
fn push_all(alloc: Global, values: &mut Values) {
    for row in 0..10usize {
        let _ = values.push(struct_or_array(alloc, row));
    }
    for row in 0..8usize {
        let _ = values.push(entry_or_variant(alloc, row));
    }
}

/// Appends a copy of each value.
fn push_copies(alloc: Global, copies: &mut Values, values: &Values) {
    if let Run::Values(items) = values.run() {
        for value in items {
            if let Ok(copy) = value.copy(alloc) {
                let _ = copies.push(copy);
            }
        }
    }
}

/// Appends a mark for each value, whether it is well typed.
fn put_typed(out: &mut Bytes, values: &Values) {
    if let Run::Values(items) = values.run() {
        for value in items {
            let _ = out.push(mark(value.is_well_typed()));
        }
    }
}

/// Whether these are the values of all rows, well typed where that is due.
fn are_typed(alloc: Global, values: &Values) -> bool {
    let mut out = Bytes::new(alloc);
    put_typed(&mut out, values);
    out.as_slice() == WELL_TYPED.as_slice()
}

/// Whether a value is the dictionary from the byte 7 to the number 5.
fn is_dictionary(value: ValueRef<'_>) -> bool {
    match value {
        ValueRef::Dict(key, _, pairs) => {
            key.alignment() == 1 && matches!(pairs.as_slice(), [(Value::Byte(7), Value::U32(5))])
        }
        _ => false,
    }
}

/// Whether values are well typed or not, and so are their copies.
fn values_are_typed(alloc: Global) -> bool {
    let mut values = Values::new(alloc);
    let mut copies = Values::new(alloc);
    push_all(alloc, &mut values);
    push_copies(alloc, &mut copies, &values);
    are_typed(alloc, &values)
        && are_typed(alloc, &copies)
        && copies.len() == 18
        && is_dictionary(copies.at(10))
}

#[test]
fn values_are_well_typed_or_not_and_so_are_their_copies(rt: HostRuntime) {
    assert!(rt; values_are_typed(rt.alloc()));
}
