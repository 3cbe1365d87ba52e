//! Names that are compared, types that fit a signature, and lists of values.

mod typed;

use atspi_base::valid_names::BusName;
use atspi_types::{Pairs, Run, Ty, Tys, Value, ValueRef, Values};
use std::alloc::Global;
use std::test::*;

/// Arrays in one another, with bytes in the last.
fn arrays(alloc: Global, levels: u32) -> Option<Ty> {
    let mut deep = Ty::Byte;
    for _level in 0..levels {
        deep = Ty::Array(Box::new(alloc, deep).ok()?);
    }
    Some(deep)
}

/// Whether so many arrays in one another fit a signature.
fn arrays_fit(alloc: Global, levels: u32) -> Option<bool> {
    let mut types = Tys::new(alloc);
    types.push(arrays(alloc, levels)?).ok()?;
    Some(types.fits_signature())
}

/// Whether a name of a connection, a well-known name and a copy of that are told apart and ordered.
fn are_compared(unique: &BusName, known: &BusName, same: &BusName) -> bool {
    unique.is_unique()
        && !known.is_unique()
        && known.is(same)
        && !known.is(unique)
        && unique < known
        && same.as_str() == "a.b"
}

/// Whether bus names are compared.
fn bus_names_are_compared(alloc: Global) -> Option<bool> {
    let unique = BusName::read(alloc, b":1.0").ok()?;
    let known = BusName::read(alloc, b"a.b").ok()?;
    let same = known.copy(alloc).ok()?;
    Some(are_compared(&unique, &known, &same))
}

/// Whether these are the bytes 7, 8 and 9, and then the number -1.
fn are_bytes_and_one(values: &Values) -> bool {
    values.len() == 4
        && matches!(values.at(2), ValueRef::Byte(9))
        && matches!(values.at(3), ValueRef::I32(-1))
}

/// Appends the bytes 7, 8 and 9, and tells whether they are kept as a run.
fn push_bytes(values: &mut Values) -> bool {
    for byte in 7..10u8 {
        if values.push(Value::Byte(byte)).is_err() {
            return false;
        }
    }
    matches!(values.run(), Run::Bytes([7, 8, 9]))
}

/// Whether values are kept in order: bytes as a run, until another comes behind them.
fn values_are_kept_in_order(alloc: Global) -> bool {
    let mut values = Values::new(alloc);
    push_bytes(&mut values) && values.push(Value::I32(-1)).is_ok() && are_bytes_and_one(&values)
}

/// A copy of the doubles of the bits 1 and 2.
fn two_doubles(alloc: Global) -> Option<Values> {
    let bits = [1u64, 2].to_vec(alloc).ok()?;
    Values::from_doubles(bits).copy(alloc).ok()
}

/// Whether doubles are copied as a run.
fn doubles_are_copied(alloc: Global) -> bool {
    match two_doubles(alloc) {
        Some(copy) => matches!(copy.run(), Run::Doubles([1, 2])),
        None => false,
    }
}

#[test]
fn names_types_and_values_are_kept(rt: HostRuntime) {
    assert!(rt; arrays_fit(rt.alloc(), 32) == Some(true));
    assert!(rt; arrays_fit(rt.alloc(), 33) == Some(false));
    assert!(rt; bus_names_are_compared(rt.alloc()) == Some(true));
    assert!(rt; values_are_kept_in_order(rt.alloc()) && doubles_are_copied(rt.alloc()));
}
