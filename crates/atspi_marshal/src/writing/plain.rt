//! Writing what holds no other value: padding, numbers, texts, paths, signatures and lengths. After a refusal a front
//! of it may have been appended; who begins the writing takes it back.

ghost use Rattle.std.specs.Prelude.{◌≡◌, ℕ, slice_index, ◌<◌, ◌≤◌, ◌+◌, ◌++◌, ◌^◌, length, take, drop, OnOk, OnErr};
ghost use Rattle.std.specs.Prelude.{IfErr};
ghost use Rattle.std.specs.Int.{w8, w16, w32, w64};
ghost use Rattle.atspi_types.specs.Data.{items_of, types_of};
ghost use Rattle.atspi_types.specs.DataView.{all_data};
ghost use Rattle.atspi_types.specs.KindView.{kind_of};
ghost use Rattle.atspi_types.specs.SignatureView.{signature_kinds};
ghost use Rattle.atspi_types.specs.Signatures.{signature_bytes, FitsSignature, IsSignature};
ghost use Rattle.atspi_marshal.specs.Input.{number_bytes, aligned};
ghost use Rattle.atspi_marshal.specs.Spelling.{zeros, padding, counted, counted_short, single};
ghost use Rattle.atspi_marshal.specs.Writing.{Writes, Pads};

use super::fault::WriteFault;
use atspi_base::{Bytes, NoMemory};
use atspi_types::{Order, Signature, Ty, Values};

/// The bytes of a message, at most.
const MESSAGE: usize = 134_217_728;

/// The bytes of an array's elements, at most.
const ARRAY: usize = 67_108_864;

/// Appends zero bytes from a place up to a multiple of `align`, and gives the place behind them. `Big` where `len`
/// bytes behind them pass the 134,217,728 bytes of a message. After a refusal `out` is as before.
pub fn put_padding(
    align: usize,
    at: usize,
    len: usize,
    out: &mut Bytes,
) -> Result<usize, WriteFault>
    requires align { (0 < align) × (align ≤ 8) }
    requires place { at ≤ 134217728 }
    ensures pads { Pads align at len out.old out.new result }
    ensures front { take (length out.old) out.new ≡ out.old }
    ensures err { OnErr result (out.new ≡ out.old) }
{
    const ZEROS: [u8; 8] = [0; 8];
    let count = (align - at % align) % align;
    let place = at + count;
    if place > MESSAGE || len > MESSAGE - place {
        return Err(WriteFault::Big);
    }
    out.extend(&ZEROS[..count])?;
    Ok(place)
}

/// Bytes at a multiple of `align`.
pub(super) fn put_padded(
    align: usize,
    at: usize,
    bytes: &[u8],
    out: &mut Bytes,
) -> Result<usize, WriteFault>
    requires align { (0 < align) × (align ≤ 8) }
    requires place { at ≤ 134217728 }
    ensures writes { Writes (Unit {0}) (padding align at ++ bytes.now) at out.old out.new result }
    ensures front { take (length out.old) out.new ≡ out.old }
{
    let place = put_padding(align, at, bytes.len(), out)?;
    out.extend(bytes)?;
    Ok(place + bytes.len())
}

/// Bytes as they lie.
pub(super) fn put_bytes(at: usize, bytes: &[u8], out: &mut Bytes) -> Result<usize, WriteFault>
    requires { at ≤ 134217728 }
    ensures writes { Writes (Unit {0}) (padding 1 at ++ bytes.now) at out.old out.new result }
    ensures bytes { (i : ℕ) → slice_index bytes.now i < 256 }
    ensures front { take (length out.old) out.new ≡ out.old }
{
    put_padded(1, at, bytes, out)
}

/// A number of 16 bits at its place.
pub(super) fn put_u16(
    order: Order,
    at: usize,
    number: u16,
    out: &mut Bytes,
) -> Result<usize, WriteFault>
    requires { at ≤ 134217728 }
    ensures writes { Writes (number < 2 ^ 16) (padding 2 at ++ number_bytes order w16 number) at out.old out.new
        result }
    ensures front { take (length out.old) out.new ≡ out.old }
{
    match order {
        Order::Little => put_padded(2, at, &number.to_le_bytes(), out),
        Order::Big => put_padded(2, at, &number.to_be_bytes(), out),
    }
}

/// A number of 32 bits at its place.
pub(super) fn put_u32(
    order: Order,
    at: usize,
    number: u32,
    out: &mut Bytes,
) -> Result<usize, WriteFault>
    requires { at ≤ 134217728 }
    ensures writes { Writes (number < 2 ^ 32) (padding 4 at ++ number_bytes order w32 number) at out.old out.new
        result }
    ensures front { take (length out.old) out.new ≡ out.old }
{
    match order {
        Order::Little => put_padded(4, at, &number.to_le_bytes(), out),
        Order::Big => put_padded(4, at, &number.to_be_bytes(), out),
    }
}

/// A number of 64 bits at its place.
pub(super) fn put_u64(
    order: Order,
    at: usize,
    number: u64,
    out: &mut Bytes,
) -> Result<usize, WriteFault>
    requires { at ≤ 134217728 }
    ensures writes { Writes (number < 2 ^ 64) (padding 8 at ++ number_bytes order w64 number) at out.old out.new
        result }
    ensures front { take (length out.old) out.new ≡ out.old }
{
    match order {
        Order::Little => put_padded(8, at, &number.to_le_bytes(), out),
        Order::Big => put_padded(8, at, &number.to_be_bytes(), out),
    }
}

/// Appends the bytes of a number of 32 bits, wherever that is. After want of memory `out` is as before.
pub fn append_u32(order: Order, number: u32, out: &mut Bytes) -> Result<(), NoMemory>
    ensures ok { OnOk result (out.new ≡ out.old ++ number_bytes order w32 number) }
    ensures err { OnErr result (out.new ≡ out.old) }
{
    match order {
        Order::Little => out.extend(&number.to_le_bytes()),
        Order::Big => out.extend(&number.to_be_bytes()),
    }
}

/// Writes the bytes of a number of 32 bits over those from an index on.
pub fn set_u32(order: Order, index: usize, number: u32, out: &mut Bytes)
    requires { index + 4 ≤ length out.old }
    ensures { out.new ≡ take index out.old ++ (number_bytes order w32 number ++ drop (index + 4) out.old) }
{
    match order {
        Order::Little => out.set(index, &number.to_le_bytes()),
        Order::Big => out.set(index, &number.to_be_bytes()),
    }
}

/// Bytes behind their count of 32 bits, and before a zero byte.
pub(super) fn put_counted(
    order: Order,
    at: usize,
    bytes: &[u8],
    out: &mut Bytes,
) -> Result<usize, WriteFault>
    requires { at ≤ 134217728 }
    ensures writes { Writes (Unit {0}) (counted order at bytes.now) at out.old out.new result }
    ensures front { take (length out.old) out.new ≡ out.old }
{
    let place = put_padding(4, at, bytes.len() + 5, out)?;
    append_u32(order, bytes.len() as u32, out)?;
    out.extend(bytes)?;
    out.push(0)?;
    Ok(place + 5 + bytes.len())
}

/// Ends bytes that stand behind a byte at an index: that byte is set to their count, and a zero byte appended.
fn end_short(at: usize, index: usize, out: &mut Bytes) -> Result<usize, WriteFault>
    requires place { at ≤ 134217728 }
    requires short { (index < length out.old) × (length out.old ≤ index + 256) }
    ensures writes { Writes (Unit {0}) (counted_short (drop (index + 1) out.old)) at (take index out.old) out.new
        result }
    ensures front { take index out.new ≡ take index out.old }
{
    let count = out.len() - index - 1;
    let next = at + 2 + count;
    if next > MESSAGE {
        return Err(WriteFault::Big);
    }
    out.push(0)?;
    out.set(index, &[count as u8]);
    Ok(next)
}

/// A signature.
pub(super) fn put_signature(
    at: usize,
    signature: &Signature,
    out: &mut Bytes,
) -> Result<usize, WriteFault>
    requires { at ≤ 134217728 }
    ensures writes { Writes (IsSignature (signature_kinds signature.now))
        (counted_short (signature_bytes (signature_kinds signature.now))) at out.old out.new result }
    ensures front { take (length out.old) out.new ≡ out.old }
{
    let _types = signature.types();
    let index = out.len();
    out.push(0)?;
    signature.write(out)?;
    end_short(at, index, out)
}

/// The type of a variant's value, as a signature.
pub(super) fn put_type(at: usize, ty: &Ty, out: &mut Bytes) -> Result<usize, WriteFault>
    requires { at ≤ 134217728 }
    ensures writes { Writes (FitsSignature (single (kind_of ty.now)))
        (counted_short (signature_bytes (single (kind_of ty.now)))) at out.old out.new result }
    ensures front { take (length out.old) out.new ≡ out.old }
{
    if !ty.fits_signature() {
        return Err(WriteFault::Big);
    }
    let index = out.len();
    out.push(0)?;
    ty.write(out)?;
    end_short(at, index, out)
}

/// The types of values, as a signature.
pub(super) fn put_types(at: usize, values: &Values, out: &mut Bytes) -> Result<usize, WriteFault>
    requires { at ≤ 134217728 }
    ensures writes { let ks = types_of (items_of (all_data values.now)) in
        Writes (FitsSignature ks) (counted_short (signature_bytes ks)) at out.old out.new result }
    ensures front { take (length out.old) out.new ≡ out.old }
{
    if !values.fits_signature() {
        return Err(WriteFault::Big);
    }
    let index = out.len();
    out.push(0)?;
    values.write_types(out)?;
    end_short(at, index, out)
}

/// The front of an array whose elements stand at multiples of `align`, with a length of zero, up to the first element.
pub(super) fn begin_array(align: usize, at: usize, out: &mut Bytes) -> Result<usize, WriteFault>
    requires align { (0 < align) × (align ≤ 8) }
    requires place { at ≤ 134217728 }
    ensures writes { Writes (Unit {0}) (padding 4 at ++ (zeros 4 ++ padding align (aligned 4 at + 4))) at out.old
        out.new result }
    ensures front { take (length out.old) out.new ≡ out.old }
{
    let unpadded = put_padded(4, at, &[0; 4], out)?;
    put_padding(align, unpadded, 0, out)
}

/// The place of an array's length, from the place that the array begins at.
pub(super) fn length_place(at: usize) -> usize
    requires { at ≤ 134217728 }
    ensures { result ≡ aligned 4 at }
{
    at + (4 - at % 4) % 4
}

/// Sets the length of an array, which stands at an index, to the bytes that its elements have. `Big` where they are
/// more than 67,108,864; `out` is as before then.
pub fn end_array(order: Order, index: usize, len: usize, out: &mut Bytes) -> Result<(), WriteFault>
    requires { index + 4 ≤ length out.old }
    ensures ok { OnOk result
        (out.new ≡ take index out.old ++ (number_bytes order w32 len ++ drop (index + 4) out.old)) }
    ensures short { OnOk result (len ≤ 67108864) }
    ensures big { IfErr result (λ e. (e ≡ WriteFault.Big) × (67108864 < len)) }
    ensures err { OnErr result (out.new ≡ out.old) }
{
    if len > ARRAY {
        return Err(WriteFault::Big);
    }
    set_u32(order, index, len as u32, out);
    Ok(())
}
