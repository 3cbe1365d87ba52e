//! Writing values.

ghost use Rattle.std.specs.Prelude.{◌≡◌, ◌≤◌, ◌++◌, length, take, OnOk, OnErr, IsErrOf};
ghost use Rattle.atspi_types.specs.KindView.{kind_of};
ghost use Rattle.atspi_types.specs.Data.{items_of, entries_of, type_of, types_of, array_data, structure_data};
ghost use Rattle.atspi_types.specs.Data.{dictionary_data, variant_data, text_data, path_data, IsWellTyped};
ghost use Rattle.atspi_types.specs.Data.{AreWellTyped};
ghost use Rattle.atspi_types.specs.DataView.{data_of, all_data, all_pairs};
ghost use Rattle.atspi_types.specs.Borrowed.{ref_data};
ghost use Rattle.atspi_marshal.specs.Spelling.{spelling, spellings, Fits, FieldsFit};
ghost use Rattle.atspi_marshal.specs.Reading.{struct_of, structs_in};
ghost use Rattle.atspi_marshal.specs.Writing.{FitsMessage, Writes, TakesLevel};

mod fault;
mod plain;
pub mod steps;

use atspi_base::valid_names::Path;
use atspi_base::{Bytes, Text};
use atspi_types::{Order, Pairs, Run, Signature, Ty, Value, ValueRef, Values};
pub use fault::WriteFault;
use plain::{
    begin_array, end_array, length_place, put_bytes, put_counted, put_padded, put_padding,
    put_signature, put_type, put_u16, put_u32, put_u64,
};

/// The levels of containers in one another, at most.
const LEVELS: u8 = 64;

/// Appends the spelling of a value at a place (D-Bus Specification, "Marshaling"), where places count from the first
/// byte of the message. `Big` where an array passes 67,108,864 bytes, the end of the value passes 134,217,728,
/// containers stand more than 64 deep in one another, or the type of a variant passes the limits of a signature. After
/// a refusal `out` is as before.
pub fn encode(order: Order, at: u32, value: &Value, out: &mut Bytes) -> Result<(), WriteFault>
    requires place { at ≤ 134217728 }
    requires typed { IsWellTyped (data_of value.now) }
    ensures ok { OnOk result (out.new ≡ out.old ++ spelling order at (data_of value.now)) }
    ensures fits { OnOk result (FitsMessage order at (data_of value.now)) }
    ensures big { IsErrOf result WriteFault.Big → ¬ FitsMessage order at (data_of value.now) }
    ensures err { OnErr result (out.new ≡ out.old) }
{
    let len = out.len();
    match put(order, LEVELS, at as usize, value.borrowed(), out) {
        Ok(_) => Ok(()),
        Err(fault) => {
            out.truncate(len);
            Err(fault)
        }
    }
}

/// The levels that are left in a container.
fn level_below(levels: u8) -> Result<u8, WriteFault>
    ensures { TakesLevel levels result }
{
    if levels == 0 {
        return Err(WriteFault::Big);
    }
    Ok(levels - 1)
}

/// A text.
fn put_text(order: Order, at: usize, text: &Text, out: &mut Bytes) -> Result<usize, WriteFault>
    requires { at ≤ 134217728 }
    ensures writes { Writes (Fits order 0 at (text_data text.now) (type_of (text_data text.now)))
        (spelling order at (text_data text.now)) at out.old out.new result }
    ensures front { take (length out.old) out.new ≡ out.old }
{
    put_counted(order, at, text.as_str().as_bytes(), out)
}

/// A path.
fn put_path(order: Order, at: usize, path: &Path, out: &mut Bytes) -> Result<usize, WriteFault>
    requires { at ≤ 134217728 }
    ensures writes { Writes (Fits order 0 at (path_data path.now) (type_of (path_data path.now)))
        (spelling order at (path_data path.now)) at out.old out.new result }
    ensures front { take (length out.old) out.new ≡ out.old }
{
    put_counted(order, at, path.as_str().as_bytes(), out)
}

/// A value that has so many levels of containers at most.
#[cycle(put)]
fn put(
    order: Order,
    levels: u8,
    at: usize,
    value: ValueRef<'_>,
    out: &mut Bytes,
) -> Result<usize, WriteFault>
    requires place { at ≤ 134217728 }
    requires typed { IsWellTyped (ref_data value) }
    ensures writes { let d = ref_data value.entry in
        Writes (Fits order levels at d (type_of d)) (spelling order at d) at out.old out.new result }
    ensures front { take (length out.old) out.new ≡ out.old }
{
    match value {
        ValueRef::Byte(n) => put_padded(1, at, &[n], out),
        ValueRef::Bool(b) => put_u32(order, at, u32::from(b), out),
        ValueRef::I16(n) => put_u16(order, at, n.cast_unsigned(), out),
        ValueRef::U16(n) => put_u16(order, at, n, out),
        ValueRef::I32(n) => put_u32(order, at, n.cast_unsigned(), out),
        ValueRef::U32(n) => put_u32(order, at, n, out),
        ValueRef::I64(n) => put_u64(order, at, n.cast_unsigned(), out),
        ValueRef::U64(n) => put_u64(order, at, n, out),
        ValueRef::Double(bits) => put_u64(order, at, bits, out),
        ValueRef::Text(text) => put_text(order, at, text, out),
        ValueRef::Path(path) => put_path(order, at, path, out),
        ValueRef::Sig(signature) => put_signature(at, signature, out),
        ValueRef::Array(element, values) => put_array(order, levels, at, element, values, out),
        ValueRef::Struct(fields) => put_struct(order, levels, at, fields, out),
        ValueRef::Dict(key, value, pairs) => {
            put_dictionary(order, levels, at, key, value, pairs, out)
        }
        ValueRef::Variant(ty, value) => put_variant(order, levels, at, ty, value, out),
    }
}

/// An array.
#[cycle(put)]
fn put_array(
    order: Order,
    levels: u8,
    at: usize,
    element: &Ty,
    values: &Values,
    out: &mut Bytes,
) -> Result<usize, WriteFault>
    requires place { at ≤ 134217728 }
    requires typed { IsWellTyped (array_data (kind_of element.now) (items_of (all_data values.now))) }
    ensures writes { let d = array_data (kind_of element.now) (items_of (all_data values.now)) in
        Writes (Fits order levels at d (type_of d)) (spelling order at d) at out.old out.new result }
    ensures front { take (length out.old) out.new ≡ out.old }
{
    let inner = level_below(levels)?;
    let first = begin_array(element.alignment(), at, out)?;
    let index = out.len() - (first - length_place(at));
    let next = put_elements(order, inner, first, values, out)?;
    end_array(order, index, next - first, out)?;
    Ok(next)
}

/// A dictionary.
#[cycle(put)]
fn put_dictionary(
    order: Order,
    levels: u8,
    at: usize,
    key: &Ty,
    value: &Ty,
    pairs: &Pairs,
    out: &mut Bytes,
) -> Result<usize, WriteFault>
    requires place { at ≤ 134217728 }
    requires typed { IsWellTyped
        (dictionary_data (kind_of key.now) (kind_of value.now) (entries_of (all_pairs pairs.now))) }
    ensures writes { let d = dictionary_data (kind_of key.now) (kind_of value.now) (entries_of (all_pairs pairs.now)) in
        Writes (Fits order levels at d (type_of d)) (spelling order at d) at out.old out.new result }
    ensures front { take (length out.old) out.new ≡ out.old }
{
    let inner = level_below(levels)?;
    let first = begin_array(8, at, out)?;
    let index = out.len() - (first - length_place(at));
    let next = put_pairs(order, inner, first, pairs, out)?;
    end_array(order, index, next - first, out)?;
    Ok(next)
}

/// A struct.
#[cycle(put)]
fn put_struct(
    order: Order,
    levels: u8,
    at: usize,
    fields: &Values,
    out: &mut Bytes,
) -> Result<usize, WriteFault>
    requires place { at ≤ 134217728 }
    requires typed { IsWellTyped (structure_data (items_of (all_data fields.now))) }
    ensures writes { let d = structure_data (items_of (all_data fields.now)) in
        Writes (Fits order levels at d (type_of d)) (spelling order at d) at out.old out.new result }
    ensures front { take (length out.old) out.new ≡ out.old }
{
    let inner = level_below(levels)?;
    let first = put_padding(8, at, 0, out)?;
    put_values(order, inner, first, fields, out)
}

/// A variant.
#[cycle(put)]
fn put_variant(
    order: Order,
    levels: u8,
    at: usize,
    ty: &Ty,
    value: &Value,
    out: &mut Bytes,
) -> Result<usize, WriteFault>
    requires place { at ≤ 134217728 }
    requires typed { IsWellTyped (variant_data (kind_of ty.now) (data_of value.now)) }
    ensures writes { let d = variant_data (kind_of ty.now) (data_of value.now) in
        Writes (Fits order levels at d (type_of d)) (spelling order at d) at out.old out.new result }
    ensures front { take (length out.old) out.new ≡ out.old }
{
    let inner = level_below(levels)?;
    let first = put_type(at, ty, out)?;
    put(order, inner, first, value.borrowed(), out)
}

/// The elements of an array, one behind the other. Bytes are moved as they lie.
#[cycle(put)]
fn put_elements(
    order: Order,
    levels: u8,
    at: usize,
    values: &Values,
    out: &mut Bytes,
) -> Result<usize, WriteFault>
    requires place { at ≤ 134217728 }
    requires typed { AreWellTyped (items_of (all_data values.now)) }
    ensures writes { let ds = items_of (all_data values.now) in
        Writes (FieldsFit order levels at ds (types_of ds)) (spellings order at ds) at out.old out.new result }
    ensures front { take (length out.old) out.new ≡ out.old }
{
    match values.run() {
        Run::Bytes(bytes) => put_bytes(at, bytes, out),
        _ => put_values(order, levels, at, values, out),
    }
}

/// Values one behind the other, which have so many levels of containers at most.
#[cycle(put)]
fn put_values(
    order: Order,
    levels: u8,
    at: usize,
    values: &Values,
    out: &mut Bytes,
) -> Result<usize, WriteFault>
    requires place { at ≤ 134217728 }
    requires typed { AreWellTyped (items_of (all_data values.now)) }
    ensures writes { let ds = items_of (all_data values.now) in
        Writes (FieldsFit order levels at ds (types_of ds)) (spellings order at ds) at out.old out.new result }
    ensures front { take (length out.old) out.new ≡ out.old }
{
    let mut next = at;
    for i in 0..values.len() {
        next = put(order, levels, next, values.at(i), out)?;
    }
    Ok(next)
}

/// Entries one behind the other.
#[cycle(put)]
fn put_pairs(
    order: Order,
    levels: u8,
    at: usize,
    pairs: &Pairs,
    out: &mut Bytes,
) -> Result<usize, WriteFault>
    requires place { at ≤ 134217728 }
    requires typed { AreWellTyped (items_of (structs_in (all_pairs pairs.now))) }
    ensures writes { let ds = items_of (structs_in (all_pairs pairs.now)) in
        Writes (FieldsFit order levels at ds (types_of ds)) (spellings order at ds) at out.old out.new result }
    ensures front { take (length out.old) out.new ≡ out.old }
{
    let mut next = at;
    for pair in pairs.as_slice() {
        next = put_entry(order, levels, next, &pair.0, &pair.1, out)?;
    }
    Ok(next)
}

/// An entry, which is spelled as a struct of its key and its value.
#[cycle(put)]
fn put_entry(
    order: Order,
    levels: u8,
    at: usize,
    key: &Value,
    value: &Value,
    out: &mut Bytes,
) -> Result<usize, WriteFault>
    requires place { at ≤ 134217728 }
    requires typed { IsWellTyped (data_of key.now) × IsWellTyped (data_of value.now) }
    ensures writes { let d = struct_of (data_of key.now) (data_of value.now) in
        Writes (Fits order levels at d (type_of d)) (spelling order at d) at out.old out.new result }
    ensures front { take (length out.old) out.new ≡ out.old }
{
    let inner = level_below(levels)?;
    let first = put_padding(8, at, 0, out)?;
    let middle = put(order, inner, first, key.borrowed(), out)?;
    put(order, inner, middle, value.borrowed(), out)
}
