//! The properties of the registry's root.

ghost use Rattle.std.specs.Prelude.{◌≡◌, [], ◌∷◌, codes, IfOk};
ghost use Rattle.atspi_types.specs.Kinds.{i32 as signed, number, text, variant};
ghost use Rattle.atspi_types.specs.Data.{text_data, variant_data, dictionary_data, entry, no_entries};
ghost use Rattle.atspi_types.specs.DataView.{data_of, all_data, all_pairs};
ghost use Rattle.atspi_protocol.specs.registering.Told.{count};

use crate::told::answers::one;
use crate::told::values::count_value;
use atspi_base::NoMemory;
use atspi_protocol_messages::word;
use atspi_types::{Pairs, Ty, Value, Values};
use std::alloc::Global;

/// The root's name in a variant.
fn name_value(alloc: Global) -> Result<Value, NoMemory>
    ensures { IfOk result (λ value. data_of value ≡ variant_data text (text_data (codes "main"))) }
{
    let text = word(alloc, "main")?;
    let value = Box::new(alloc, Value::Text(text))?;
    Ok(Value::Variant(Ty::Text, value))
}

/// A count in a variant.
pub(crate) fn count_variant(alloc: Global, n: usize) -> Result<Value, NoMemory>
    ensures { IfOk result (λ value. data_of value ≡ variant_data (number signed) (count n)) }
{
    let value = Box::new(alloc, count_value(n))?;
    Ok(Value::Variant(Ty::I32, value))
}

/// The root's name.
pub fn name_body(alloc: Global) -> Result<Values, NoMemory>
    ensures { IfOk result (λ values. all_data values ≡ variant_data text (text_data (codes "main")) ∷ []) }
{
    one(alloc, name_value(alloc)?)
}

/// The count of its children.
pub fn count_body(alloc: Global, n: usize) -> Result<Values, NoMemory>
    ensures { IfOk result (λ values. all_data values ≡ variant_data (number signed) (count n) ∷ []) }
{
    one(alloc, count_variant(alloc, n)?)
}

/// Its properties with their values.
fn all_entries(alloc: Global, n: usize) -> Result<Pairs, NoMemory>
    ensures { IfOk result (λ pairs. all_pairs pairs
        ≡ (text_data (codes "Name"), variant_data text (text_data (codes "main")))
        ∷ (text_data (codes "ChildCount"), variant_data (number signed) (count n)) ∷ []) }
{
    let mut pairs = Pairs::new(alloc);
    let name = word(alloc, "Name")?;
    let value = name_value(alloc)?;
    pairs.push(Value::Text(name), value)?;
    let name = word(alloc, "ChildCount")?;
    let value = count_variant(alloc, n)?;
    pairs.push(Value::Text(name), value)?;
    Ok(pairs)
}

/// All its properties, with the count of its children.
pub fn all_body(alloc: Global, n: usize) -> Result<Values, NoMemory>
    ensures { IfOk result (λ values. all_data values
        ≡ dictionary_data text variant
        (entry (text_data (codes "Name")) (variant_data text (text_data (codes "main")))
        (entry (text_data (codes "ChildCount")) (variant_data (number signed) (count n)) no_entries)) ∷ []) }
{
    let pairs = all_entries(alloc, n)?;
    one(alloc, Value::Dict(Ty::Text, Ty::Variant, pairs))
}

/// No property.
pub fn none_body(alloc: Global) -> Result<Values, NoMemory>
    ensures { IfOk result (λ values. all_data values ≡ dictionary_data text variant no_entries ∷ []) }
{
    one(alloc, Value::Dict(Ty::Text, Ty::Variant, Pairs::new(alloc)))
}
