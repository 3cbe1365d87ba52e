//! What the answers of a bus have too, and do not lend: owners' names, and names as values.

ghost use Rattle.std.specs.Prelude.{◌≡◌, [], ◌∷◌, ◌++◌, map, IfOk, OnOk, OnErr, option_copied};
ghost use Rattle.atspi_types.specs.Data.{text_data};
ghost use Rattle.atspi_types.specs.DataView.{data_of, all_data};
ghost use Rattle.atspi_message.specs.Envelope.{envelope_of};
ghost use Rattle.atspi_match.specs.routing.BusState.{text_or_empty, name_or_empty};
ghost use Rattle.atspi_match.specs.routing.OwnMessages as own;

use atspi_base::valid_names::BusName;
use atspi_base::{NoMemory, Text};
use atspi_bus_answers::name_acquired;
use atspi_message::Message;
use atspi_names::Names;
use atspi_types::{Value, Values};
use std::alloc::Global;

/// The unique name of an owner, if there is one.
pub fn unique_of<'a>(names: &'a Names, owner: Option<u32>) -> Option<&'a BusName>
    ensures { text_or_empty (option_copied result) ≡ name_or_empty names.now owner }
{
    match owner {
        Some(conn) => names.unique_name(conn),
        None => None,
    }
}

/// The owner that the name has now is told. After want of memory nothing more is told.
pub fn tell_acquired(
    alloc: Global,
    names: &Names,
    name: &BusName,
    owner: Option<u32>,
    told: &mut Vec<Message>,
) -> Result<(), NoMemory>
    ensures ok { OnOk result
        (map envelope_of told.new.items
        ≡ map envelope_of told.old.items ++ own.name_acquired names.now name.now owner) }
    ensures err { OnErr result (told.new.items ≡ told.old.items) }
{
    if let Some(conn) = owner {
        told.push(name_acquired(alloc, names.unique_name(conn), name)?)?;
    }
    Ok(())
}

/// The name as a text.
pub fn name_value(alloc: Global, name: &BusName) -> Result<Value, NoMemory>
    ensures { IfOk result (λ value. data_of value ≡ text_data name.now) }
{
    Ok(Value::Text(Text::of(alloc, name.as_str())?))
}

/// One value.
pub fn one(alloc: Global, value: Value) -> Result<Values, NoMemory>
    ensures { IfOk result (λ values. all_data values ≡ data_of value ∷ []) }
{
    let mut values = Values::new(alloc);
    values.push(value)?;
    Ok(values)
}
