//! Values as they are written, and those that pass a limit.

ghost use Rattle.std.specs.Prelude.{◌≡◌, ◌≤◌, IfOk, IfSome};
ghost use Rattle.atspi_types.specs.Kinds.{variant, IsLawful};
ghost use Rattle.atspi_types.specs.KindView.{kind_of};
ghost use Rattle.atspi_types.specs.Data.{items_of, type_of, AreWellTyped, IsWellTyped};
ghost use Rattle.atspi_types.specs.DataView.{all_data, data_of};

use super::*;
use atspi_base::NoMemory;
use atspi_marshal::{
    WriteFault, append_u32, begin_array, end_array, put_counted, put_padded, put_padding,
    put_types, put_u32, put_values, set_u32,
};
use atspi_types::Values;

/// Appends the bytes of each step, and tells the places behind them.
fn append_steps(values: &Values, out: &mut Bytes) -> [usize; 7]
    requires { AreWellTyped (items_of (all_data values.now)) }
{
    // behind byte 0 of a message
    let number = put_u32(Order::Big, 1, 258, out).unwrap_or(0);
    let _ = append_u32(Order::Little, 258, out);
    let padded = put_padded(8, 12, b"\x07", out).unwrap_or(0);
    let padding = put_padding(2, 17, 0, out).unwrap_or(0);
    let counted = put_counted(Order::Little, 18, b"ab", out).unwrap_or(0);
    let types = put_types(27, values, out).unwrap_or(0);
    let items = put_values(Order::Big, 64, 31, values, out).unwrap_or(0);
    let array = begin_array(8, 33, out).unwrap_or(0);
    let _ = append_u32(Order::Big, 3, out);
    [number, padded, padding, counted, types, items, array]
}

/// Whether the steps append their bytes, and two lengths are set in these.
fn steps_are_appended(alloc: Global, bytes: Vec<u8>) -> bool {
    let values = Values::from_bytes(bytes);
    let mut out = Bytes::new(alloc);
    if !values.are_well_typed() {
        return false;
    }
    let places = append_steps(&values, &mut out);
    if out.len() != 43 {
        return false;
    }
    let is_ended = end_array(Order::Big, 35, 4, &mut out).is_ok();
    set_u32(Order::Little, 3, 772, &mut out);
    is_ended && places == [8, 17, 18, 27, 31, 33, 40] && out.as_slice() == STEPS
}

#[test]
fn each_step_appends_its_bytes(rt: HostRuntime) {
    let bytes = [1u8, 2].to_vec(rt.alloc()).expect(&rt, "memory");
    assert!(rt; steps_are_appended(rt.alloc(), bytes));
}

/// The bytes of all steps.
const STEPS: &[u8] =
    b"\0\0\0\x04\x03\0\0\x02\x01\0\0\0\0\0\0\x07\0\0\0\x02\0\0\0ab\0\x02yy\0\x01\x02\0\0\0\0\0\0\x04\0\0\0\x03";

/// A variant in so many others.
fn nested(alloc: Global, depth: u32) -> Result<Value, NoMemory>
    ensures { IfOk result (λ value. IsWellTyped (data_of value)) }
{
    let mut value = Value::Variant(Ty::Byte, Box::new(alloc, Value::Byte(7))?);
    for _ in 0..depth {
        value = Value::Variant(Ty::Variant, Box::new(alloc, value)?);
    }
    Ok(value)
}

/// The type of arrays of bytes in so many arrays.
fn arrays(alloc: Global, depth: u32) -> Result<Ty, NoMemory>
    ensures { IfOk result (λ ty. IsLawful (kind_of ty)) }
{
    let mut ty = Ty::Byte;
    for _ in 0..depth {
        ty = Ty::Array(Box::new(alloc, ty)?);
    }
    Ok(ty)
}

/// A variant with an empty array, whose elements are so deep.
fn variant_of_array(alloc: Global, depth: u32) -> Result<Value, NoMemory>
    ensures { IfOk result (λ value. IsWellTyped (data_of value)) }
{
    let element = arrays(alloc, depth)?;
    let ty = Ty::Array(Box::new(alloc, element.copy(alloc)?)?);
    let value = Value::Array(element, Values::new(alloc));
    Ok(Value::Variant(ty, Box::new(alloc, value)?))
}

/// An array of so many bytes.
fn array_of(alloc: Global, count: u32) -> Result<Value, NoMemory>
    ensures { IfOk result (λ value. IsWellTyped (data_of value)) }
{
    let bytes = vec![in alloc; 0u8; count as usize]?;
    Ok(Value::Array(Ty::Byte, Values::from_bytes(bytes)))
}

/// The value that a word and a number spell.
fn value_of(alloc: Global, word: &str, n: u32) -> Option<Value>
    ensures { IfSome result (λ value. IsWellTyped (data_of value)) }
{
    match word {
        "byte" => Some(Value::Byte(7)),
        "number" => Some(Value::U32(7)),
        "double" => Some(Value::Double(7)),
        "nested" => nested(alloc, n).ok(),
        "typed" => variant_of_array(alloc, n).ok(),
        _ => array_of(alloc, n).ok(),
    }
}

/// How many bytes are appended, where those before stay; none of a value that is too big.
fn appended(alloc: Global, at: u32, value: &Value) -> Option<usize>
    requires place { at ≤ 134217728 }
    requires typed { IsWellTyped (data_of value.now) }
{
    let mut out = Bytes::new(alloc);
    out.extend(b"abc").ok()?;
    match encode(Order::Big, at, value, &mut out) {
        Ok(()) => Some(out.as_slice().strip_prefix(b"abc")?.len()),
        Err(WriteFault::Big) => {
            if out.as_slice() == b"abc".as_slice() {
                None
            } else {
                Some(0)
            }
        }
        Err(WriteFault::NoMemory) => Some(0),
    }
}

/// A place in a message, a value, and how many bytes are appended there; `big` where it is too big. Variants have 64
/// levels at the most, each of three bytes and the last with a byte more. A variant of 32 arrays in one another has 33
/// letters, their count, a zero byte, a byte of padding and the array's length. The last rows are at the end of a
/// message.
const LIMITS: &str = "\
0 nested 63 => 193
0 nested 64 => big
0 typed 31 => 40
0 typed 32 => big
0 array 67108864 => 67108868
0 array 67108865 => big
134217727 byte 7 => 1
134217728 byte 7 => big
134217724 number 7 => 4
134217721 number 7 => 7
134217725 number 7 => big
134217720 double 7 => 8
134217721 double 7 => big
134217728 double 7 => big
134217723 array 0 => 5
134217723 array 1 => big
134217535 nested 63 => 193
134217536 nested 63 => big";

/// Whether the value of a row is appended as is due.
fn is_appended(alloc: Global, row: &str) -> bool {
    let (asked, due) = row.split_once(" => ").unwrap_or((row, ""));
    let due = due.parse::<usize>().ok();
    let mut words = asked.split(' ');
    let at = number(words.next());
    let word = words.next().unwrap_or("");
    if at > 134_217_728 {
        return false;
    }
    match value_of(alloc, word, number(words.next())) {
        Some(value) => appended(alloc, at, &value) == due,
        None => false,
    }
}

#[test]
fn what_passes_a_limit_is_not_written(rt: HostRuntime) {
    for row in LIMITS.lines() {
        assert!(rt; is_appended(rt.alloc(), row), "{row}");
    }
}
