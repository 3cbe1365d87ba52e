//! Values that tell of nodes.

ghost use Rattle.std.specs.Prelude.{◌≡◌, ◌<◌, ◌≤◌, ◌^◌, pos, true, length, IfOk};
ghost use Rattle.atspi_types.specs.Kinds.{u32};
ghost use Rattle.atspi_types.specs.Data.{number_data};
ghost use Rattle.atspi_types.specs.KindView.{kind_of};
ghost use Rattle.atspi_types.specs.DataView.{data_of};
ghost use Rattle.atspi_protocol.specs.ends.Places as places;
ghost use Rattle.atspi_protocol.specs.members.Arguments.{int};
ghost use Rattle.atspi_protocol.specs.announcing.Signals as signals;
ghost use Rattle.atspi_protocol_messages.specs.Plain.{are_plain};

use atspi_base::valid_names::Path;
use atspi_base::{NoMemory, Text};
use atspi_tables::state_name;
use atspi_types::{Ty, Tys, Value, Values};
use std::alloc::Global;

/// A text that stands in the program.
pub fn word(alloc: Global, text: &str) -> Result<Text, NoMemory>
    requires plain { are_plain text.now ≡ true }
    requires short { length text.now < 2 ^ 32 }
    ensures { IfOk result (λ word. word ≡ text.now) }
{
    Text::of(alloc, text)
}

/// A count, or a place, as a signed number.
pub(crate) fn signed(n: u32) -> i32
    requires { n ≤ 2147483647 }
    ensures { result ≡ pos n }
{
    n as i32
}

/// What stands where an event has no value.
pub(crate) fn nothing() -> Value
    ensures { data_of result ≡ int (pos 0) }
{
    Value::I32(0)
}

/// A number without a sign.
pub(crate) fn number(n: u32) -> Value
    ensures { data_of result ≡ number_data u32 n }
{
    Value::U32(n)
}

/// The name of a state.
pub(crate) fn name_of(state: u8) -> &'static str
    requires { state < 44 }
    ensures name { result.now ≡ signals.state_name state }
    ensures plain { are_plain result.now ≡ true }
    ensures short { length result.now < 2 ^ 32 }
{
    match state_name(state) {
        Some(name) => name,
        None => unreachable!(),
    }
}

/// A reference to an object: the bus name of its application, and its path.
pub fn reference(alloc: Global, bus: &Text, path: Path) -> Result<Value, NoMemory>
    ensures { IfOk result (λ value. data_of value ≡ places.reference bus.now path) }
{
    let mut fields = Values::new(alloc);
    fields.push(Value::Text(bus.copy(alloc)?))?;
    fields.push(Value::Path(path))?;
    Ok(Value::Struct(fields))
}

/// The type of a reference.
pub fn reference_type(alloc: Global) -> Result<Ty, NoMemory>
    ensures { IfOk result (λ ty. kind_of ty ≡ places.reference_kind) }
{
    let mut fields = Tys::new(alloc);
    fields.push(Ty::Text)?;
    fields.push(Ty::Path)?;
    Ok(Ty::Struct(Box::new(alloc, fields)?))
}
