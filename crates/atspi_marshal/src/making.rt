//! Containers made of what was read, behind all that can be malformed: memory alone can be wanting.

ghost use Rattle.std.specs.Prelude.{◌≡◌, IfOk};
ghost use Rattle.atspi_types.specs.KindView.{kind_of};
ghost use Rattle.atspi_types.specs.Data.{items_of, entries_of, array_data, dictionary_data};
ghost use Rattle.atspi_types.specs.DataView.{data_of, all_data, all_pairs};

use atspi_base::NoMemory;
use atspi_types::{Pairs, Ty, Value, Values};
use std::alloc::Global;

/// The array of the elements.
pub fn array_of(alloc: Global, element: &Ty, items: Values) -> Result<Value, NoMemory>
    ensures { IfOk result (λ value. data_of value ≡ array_data (kind_of element.now) (items_of (all_data items))) }
{
    match element.copy(alloc) {
        Ok(copied) => Ok(Value::Array(copied, items)),
        Err(refused) => {
            drop(items);
            Err(refused)
        }
    }
}

/// The types of a dictionary's keys and values, copied.
fn copied_types(alloc: Global, key: &Ty, value: &Ty) -> Result<(Ty, Ty), NoMemory>
    ensures key { IfOk result (λ types. kind_of types.0 ≡ kind_of key.now) }
    ensures value { IfOk result (λ types. kind_of types.1 ≡ kind_of value.now) }
{
    let copied = key.copy(alloc)?;
    match value.copy(alloc) {
        Ok(second) => Ok((copied, second)),
        Err(refused) => {
            drop(copied);
            Err(refused)
        }
    }
}

/// The dictionary of the entries.
pub fn dictionary_of(alloc: Global, key: &Ty, value: &Ty, pairs: Pairs) -> Result<Value, NoMemory>
    ensures { IfOk result
        (λ made. data_of made ≡ dictionary_data (kind_of key.now) (kind_of value.now) (entries_of (all_pairs pairs))) }
{
    match copied_types(alloc, key, value) {
        Ok((key_type, value_type)) => Ok(Value::Dict(key_type, value_type, pairs)),
        Err(refused) => {
            drop(pairs);
            Err(refused)
        }
    }
}
