//! Decoding a value.

ghost use Rattle.std.specs.Prelude.{◌≡◌, ◌≤◌, ℕ, length, IfOk, IsErr, MatchResult};
ghost use Rattle.atspi_types.specs.Kinds.{IsLawful};
ghost use Rattle.atspi_types.specs.KindView.{kind_of};
ghost use Rattle.atspi_types.specs.Data.{Data};
ghost use Rattle.atspi_types.specs.DataView.{data_of};
ghost use Rattle.atspi_marshal.specs.Input.{whole, to_end};
ghost use Rattle.atspi_marshal.specs.Faults.{IsItem, Wrong, FaultAt, TellsFault};
ghost use Rattle.atspi_marshal.specs.Reading.{Gives, decoded};

use crate::containers::value;
use crate::input::{Bound, Marshalled};
use atspi_types::{Order, ReadFault, Ty, Value};
use std::alloc::Global;

/// The value of the type that is spelled at a place, and the place behind it (D-Bus Specification, "Marshaling"). `Bad`
/// tells the first of the faults, by place and then by reason, of the reasons 2 to 20.
pub fn decode(
    alloc: Global,
    order: Order,
    bytes: &[u8],
    at: u32,
    ty: &Ty,
) -> Result<(Value, u32), ReadFault>
    requires lawful { IsLawful (kind_of ty.now) }
    requires limits { (at ≤ length bytes.now) × (length bytes.now ≤ 134217728) }
    // What is read is spelled so.
    ensures found { IfOk result
        (λ x. IsItem (whole order bytes.now) 64 (kind_of ty.now) (to_end bytes.now) at x.1 (data_of x.0)) }
    // What is spelled so is read, unless memory runs out.
    ensures only { (item : Data) (next : ℕ)
        → IsItem (whole order bytes.now) 64 (kind_of ty.now) (to_end bytes.now) at next item
        → MatchResult result (λ x. (data_of x.0 ≡ item) × (x.1 ≡ next)) (λ e. e ≡ ReadFault.NoMemory) }
    // Of all that is wrong the least is told, unless memory runs out.
    ensures first { TellsFault result
        (λ place reason. FaultAt (whole order bytes.now) 64 (kind_of ty.now) (to_end bytes.now) at place reason) }
    ensures refused { (place reason : ℕ)
        → Wrong (whole order bytes.now) 64 (kind_of ty.now) (to_end bytes.now) at place reason → IsErr result }
{
    decode_value(alloc, order, bytes, at, ty)
}

fn decode_value(
    alloc: Global,
    order: Order,
    bytes: &[u8],
    at: u32,
    ty: &Ty,
) -> Result<(Value, u32), ReadFault>
    requires { (at ≤ length bytes.now) × (length bytes.now ≤ 134217728) }
    ensures { Gives (λ x. (data_of x.0, x.1)) result (decoded order bytes.now (kind_of ty.now) at) }
{
    let input = Marshalled { order, bytes };
    let bound = Bound {
        end: bytes.len(),
        reason: 19,
    };
    let (item, end) = value(alloc, &input, 64, ty, bound, at as usize)?;
    Ok((item, end as u32))
}
