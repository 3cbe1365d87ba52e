//! The steps of writing, for who writes a message piece by piece where no value lies in memory: a step appends one
//! piece at its place and gives the place behind it, where the next one goes on. An array is begun, its elements are
//! put, and then it is ended, which sets its length. After a refusal `out` is as before the step.

ghost use Rattle.std.specs.Prelude.{◌≡◌, ◌<◌, ◌≤◌, ◌++◌, ◌+◌, ◌^◌, length, take, OnOk, OnErr};
ghost use Rattle.std.specs.Int.{w32};
ghost use Rattle.atspi_types.specs.Data.{items_of, types_of, AreWellTyped};
ghost use Rattle.atspi_types.specs.DataView.{all_data};
ghost use Rattle.atspi_types.specs.Signatures.{signature_bytes, FitsSignature};
ghost use Rattle.atspi_marshal.specs.Input.{number_bytes, aligned};
ghost use Rattle.atspi_marshal.specs.Spelling.{zeros, padding, counted, counted_short, spellings, FieldsFit};
ghost use Rattle.atspi_marshal.specs.Writing.{Writes};

use super::fault::WriteFault;
use super::plain;
pub use super::plain::{append_u32, end_array, put_padding, set_u32};
use atspi_base::Bytes;
use atspi_types::{Order, Values};

/// The answer of what was written behind the first `len` bytes: where it is a refusal, these alone are kept.
fn settled(
    len: usize,
    answer: Result<usize, WriteFault>,
    out: &mut Bytes,
) -> Result<usize, WriteFault>
    ensures same { result ≡ answer }
    ensures ok { OnOk result (out.new ≡ out.old) }
    ensures err { OnErr result (out.new ≡ take len out.old) }
{
    if answer.is_err() {
        out.truncate(len);
    }
    answer
}

/// Appends bytes at a multiple of `align`, and gives the place behind them. `Big` where they end behind 134,217,728.
/// After a refusal `out` is as before.
pub fn put_padded(
    align: usize,
    at: usize,
    bytes: &[u8],
    out: &mut Bytes,
) -> Result<usize, WriteFault>
    requires align { (0 < align) × (align ≤ 8) }
    requires place { at ≤ 134217728 }
    ensures writes { Writes (Unit {0}) (padding align at ++ bytes.now) at out.old out.new result }
    ensures front { take (length out.old) out.new ≡ out.old }
    ensures err { OnErr result (out.new ≡ out.old) }
{
    let len = out.len();
    let written = plain::put_padded(align, at, bytes, out);
    settled(len, written, out)
}

/// Appends a number of 32 bits at its place, and gives the place behind it. `Big` where it ends behind 134,217,728.
/// After a refusal `out` is as before.
pub fn put_u32(order: Order, at: usize, number: u32, out: &mut Bytes) -> Result<usize, WriteFault>
    requires { at ≤ 134217728 }
    ensures writes { Writes (number < 2 ^ 32) (padding 4 at ++ number_bytes order w32 number) at out.old out.new
        result }
    ensures front { take (length out.old) out.new ≡ out.old }
    ensures err { OnErr result (out.new ≡ out.old) }
{
    let len = out.len();
    let written = plain::put_u32(order, at, number, out);
    settled(len, written, out)
}

/// Appends bytes behind their count of 32 bits, and before a zero byte, as a text or a path is spelled (D-Bus
/// Specification, "Marshaling"), and gives the place behind them. `Big` where they end behind 134,217,728. After a
/// refusal `out` is as before.
pub fn put_counted(
    order: Order,
    at: usize,
    bytes: &[u8],
    out: &mut Bytes,
) -> Result<usize, WriteFault>
    requires { at ≤ 134217728 }
    ensures writes { Writes (Unit {0}) (counted order at bytes.now) at out.old out.new result }
    ensures front { take (length out.old) out.new ≡ out.old }
    ensures err { OnErr result (out.new ≡ out.old) }
{
    let len = out.len();
    let written = plain::put_counted(order, at, bytes, out);
    settled(len, written, out)
}

/// Appends the types of values as a signature, and gives the place behind it. `Big` where the types pass the limits of
/// a signature, or it ends behind 134,217,728. After a refusal `out` is as before.
pub fn put_types(at: usize, values: &Values, out: &mut Bytes) -> Result<usize, WriteFault>
    requires { at ≤ 134217728 }
    ensures writes { let ks = types_of (items_of (all_data values.now)) in
        Writes (FitsSignature ks) (counted_short (signature_bytes ks)) at out.old out.new result }
    ensures front { take (length out.old) out.new ≡ out.old }
    ensures err { OnErr result (out.new ≡ out.old) }
{
    let len = out.len();
    let written = plain::put_types(at, values, out);
    settled(len, written, out)
}

/// Appends values one behind the other, which have so many levels of containers at most, and gives the place behind
/// them. `Big` as `encode` says of a value. After a refusal `out` is as before.
pub fn put_values(
    order: Order,
    levels: u8,
    at: usize,
    values: &Values,
    out: &mut Bytes,
) -> Result<usize, WriteFault>
    requires place { at ≤ 134217728 }
    requires typed { AreWellTyped (items_of (all_data values.now)) }
    ensures writes { let ds = items_of (all_data values.now) in
        Writes (FieldsFit order levels at ds (types_of ds)) (spellings order at ds) at out.old out.new result }
    ensures front { take (length out.old) out.new ≡ out.old }
    ensures err { OnErr result (out.new ≡ out.old) }
{
    let len = out.len();
    let written = super::put_values(order, levels, at, values, out);
    settled(len, written, out)
}

/// Appends the front of an array whose elements stand at multiples of `align`, with a length of zero, and gives the
/// place of the first element. `Big` where that is behind 134,217,728. After a refusal `out` is as before.
pub fn begin_array(align: usize, at: usize, out: &mut Bytes) -> Result<usize, WriteFault>
    requires align { (0 < align) × (align ≤ 8) }
    requires place { at ≤ 134217728 }
    ensures writes { Writes (Unit {0}) (padding 4 at ++ (zeros 4 ++ padding align (aligned 4 at + 4))) at out.old
        out.new result }
    ensures front { take (length out.old) out.new ≡ out.old }
    ensures err { OnErr result (out.new ≡ out.old) }
{
    let len = out.len();
    let written = plain::begin_array(align, at, out);
    settled(len, written, out)
}
