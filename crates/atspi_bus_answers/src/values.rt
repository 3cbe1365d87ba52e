//! The values that a bus's own messages carry.

ghost use Rattle.std.specs.Prelude.{◌≡◌, [], ◌∷◌, IfOk, option_copied};
ghost use Rattle.atspi_base.specs.Text.{HasNoZero};
ghost use Rattle.atspi_types.specs.Data.{text_data};
ghost use Rattle.atspi_types.specs.DataView.{data_of, all_data};
ghost use Rattle.atspi_match.specs.routing.BusState.{text_or_empty};

use atspi_base::valid_names::BusName;
use atspi_base::{NoMemory, Text};
use atspi_types::{Value, Values};
use std::alloc::Global;

/// The name as a text.
pub fn name_value(alloc: Global, name: &BusName) -> Result<Value, NoMemory>
    ensures { IfOk result (λ value. data_of value ≡ text_data name.now) }
{
    Ok(Value::Text(Text::of(alloc, name.as_str())?))
}

/// The name of an owner as a text, an empty one for nobody.
pub fn owner_value(alloc: Global, owner: Option<&BusName>) -> Result<Value, NoMemory>
    ensures { IfOk result (λ value. data_of value ≡ text_data (text_or_empty (option_copied owner.entry))) }
{
    match owner {
        Some(name) => name_value(alloc, name),
        None => Ok(Value::Text(Text::of(alloc, "")?)),
    }
}

/// One value.
pub fn one(alloc: Global, value: Value) -> Result<Values, NoMemory>
    ensures { IfOk result (λ values. all_data values ≡ data_of value ∷ []) }
{
    let mut values = Values::new(alloc);
    values.push(value)?;
    Ok(values)
}
