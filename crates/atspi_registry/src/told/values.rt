//! Values of the registry's messages.

ghost use Rattle.std.specs.Prelude.{◌≡◌, IfOk};
ghost use Rattle.atspi_types.specs.Data.{text_data};
ghost use Rattle.atspi_types.specs.DataView.{data_of};
ghost use Rattle.atspi_protocol.specs.ends.Places as places;
ghost use Rattle.atspi_protocol.specs.registering.Told.{count};

use atspi_base::valid_names::{BusName, Path};
use atspi_base::{NoMemory, Text};
use atspi_protocol_messages::reference;
use atspi_types::Value;
use std::alloc::Global;

/// The name as a text.
fn name_text(alloc: Global, name: &BusName) -> Result<Text, NoMemory>
    ensures { IfOk result (λ text. text ≡ name.now) }
{
    Text::of(alloc, name.as_str())
}

/// The same as a value.
pub fn name_value(alloc: Global, name: &BusName) -> Result<Value, NoMemory>
    ensures { IfOk result (λ value. data_of value ≡ text_data name.now) }
{
    Ok(Value::Text(name_text(alloc, name)?))
}

/// A count as a signed number, which stands still at the end of its type.
pub fn count_value(n: usize) -> Value
    ensures { data_of result ≡ count n }
{
    if n < 2147483647 {
        Value::I32(n as i32)
    } else {
        Value::I32(2147483647)
    }
}

/// A reference: a bus name and a path.
pub fn reference_value(alloc: Global, name: &BusName, path: &Path) -> Result<Value, NoMemory>
    ensures { IfOk result (λ value. data_of value ≡ places.reference name.now path.now) }
{
    let path = path.copy(alloc)?;
    let name = name_text(alloc, name)?;
    reference(alloc, &name, path)
}
