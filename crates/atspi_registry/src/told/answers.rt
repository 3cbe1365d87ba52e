//! What the registry returns: its pairs, its children, its root and its role.

ghost use Rattle.std.specs.Prelude.{◌≡◌, ℕ, List, [], ◌∷◌, codes, map, slice_get, IfOk};
ghost use Rattle.atspi_types.specs.KindView.{kind_of};
ghost use Rattle.atspi_types.specs.Kinds.{u32, kind, no_kinds, structure, text};
ghost use Rattle.atspi_types.specs.Data.{text_data, number_data};
ghost use Rattle.atspi_types.specs.DataView.{data_of, all_data};
ghost use Rattle.atspi_protocol.specs.ends.Places as places;
ghost use Rattle.atspi_protocol.specs.ends.Places.{null_path, references, registry_root};
ghost use Rattle.atspi_protocol.specs.registering.Answers.{pairs_data, child_at, child_or_nobody};
ghost use Rattle.atspi_registry.specs.told.inner.Values.{pair_data};

use crate::told::listeners::pair_body;
use crate::told::values::reference_value;
use atspi_base::valid_names::{BusName, Path};
use atspi_base::{NoMemory, Text};
use atspi_protocol::ends::path;
use atspi_protocol_messages::{reference, reference_type, word};
use atspi_types::{Ty, Tys, Value, Values};
use std::alloc::Global;

/// One value.
pub(crate) fn one(alloc: Global, value: Value) -> Result<Values, NoMemory>
    ensures { IfOk result (λ values. all_data values ≡ data_of value ∷ []) }
{
    let mut values = Values::new(alloc);
    values.push(value)?;
    Ok(values)
}

/// A pair as a value.
fn pair_value(alloc: Global, pair: &(BusName, Text)) -> Result<Value, NoMemory>
    ensures { IfOk result (λ value. data_of value ≡ pair_data pair.now) }
{
    Ok(Value::Struct(pair_body(alloc, &pair.0, &pair.1)?))
}

/// The pairs as values.
fn pair_values(alloc: Global, pairs: &[(BusName, Text)]) -> Result<Values, NoMemory>
    ensures { IfOk result (λ values. all_data values ≡ map pair_data pairs.now) }
{
    let mut values = Values::new(alloc);
    for pair in pairs {
        values.push(pair_value(alloc, pair)?)?;
    }
    Ok(values)
}

/// The type of pairs.
fn pair_type(alloc: Global) -> Result<Ty, NoMemory>
    ensures { IfOk result (λ ty. kind_of ty ≡ structure (kind text (kind text no_kinds))) }
{
    let mut fields = Tys::new(alloc);
    fields.push(Ty::Text)?;
    fields.push(Ty::Text)?;
    Ok(Ty::Struct(Box::new(alloc, fields)?))
}

/// All pairs, in their order.
pub fn pairs_body(alloc: Global, pairs: &[(BusName, Text)]) -> Result<Values, NoMemory>
    ensures { IfOk result (λ values. all_data values ≡ pairs_data pairs.now ∷ []) }
{
    let values = pair_values(alloc, pairs)?;
    let ty = pair_type(alloc)?;
    one(alloc, Value::Array(ty, values))
}

/// The children as values.
fn child_values(alloc: Global, children: &[(BusName, Path)]) -> Result<Values, NoMemory>
    ensures { IfOk result
        (λ values. all_data values ≡ map (λ (r : List ℕ × List ℕ). places.reference r.0 r.1) children.now) }
{
    let mut values = Values::new(alloc);
    for child in children {
        values.push(reference_value(alloc, &child.0, &child.1)?)?;
    }
    Ok(values)
}

/// All children, in their order.
pub fn children_body(alloc: Global, children: &[(BusName, Path)]) -> Result<Values, NoMemory>
    ensures { IfOk result (λ values. all_data values ≡ references children.now ∷ []) }
{
    let values = child_values(alloc, children)?;
    let ty = reference_type(alloc)?;
    one(alloc, Value::Array(ty, values))
}

/// Nobody, told by the registry's own name.
#[tactic(auto, unfolding(atspi_base::specs::valid_names::Names::is_path, atspi_base::specs::valid_names::Elements::are_elements, atspi_base::specs::valid_names::Elements::parts_of))]
fn nobody(alloc: Global, own: &Text) -> Result<Value, NoMemory>
    ensures { IfOk result (λ value. data_of value ≡ places.reference own.now null_path) }
{
    let place = path(alloc, "/org/a11y/atspi/null")?;
    reference(alloc, own, place)
}

/// The child at a place, or nobody.
fn child_value(
    alloc: Global,
    own: &Text,
    children: &[(BusName, Path)],
    place: usize,
) -> Result<Value, NoMemory>
    ensures { IfOk result (λ value. data_of value ≡ child_or_nobody own.now (slice_get children.now place)) }
{
    match children.get(place) {
        Some(child) => reference_value(alloc, &child.0, &child.1),
        None => nobody(alloc, own),
    }
}

/// The child at an index, or nobody.
fn indexed(
    alloc: Global,
    own: &Text,
    children: &[(BusName, Path)],
    index: i32,
) -> Result<Value, NoMemory>
    ensures { IfOk result (λ value. data_of value ≡ child_at children.now own.now index) }
{
    if index < 0 {
        return nobody(alloc, own);
    }
    child_value(alloc, own, children, index as usize)
}

/// The child at an index, or nobody, told by the registry's own name.
pub fn child_body(
    alloc: Global,
    own: &Text,
    children: &[(BusName, Path)],
    index: i32,
) -> Result<Values, NoMemory>
    ensures { IfOk result (λ values. all_data values ≡ child_at children.now own.now index ∷ []) }
{
    one(alloc, indexed(alloc, own, children, index)?)
}

/// The reference of the registry's root.
#[tactic(auto, unfolding(atspi_base::specs::valid_names::Names::is_path, atspi_base::specs::valid_names::Elements::are_elements, atspi_base::specs::valid_names::Elements::parts_of))]
fn root_value(alloc: Global) -> Result<Value, NoMemory>
    ensures { IfOk result (λ value. data_of value ≡ registry_root) }
{
    let place = path(alloc, "/org/a11y/atspi/accessible/root")?;
    let name = word(alloc, "org.a11y.atspi.Registry")?;
    reference(alloc, &name, place)
}

/// The reference of the registry's root, which is the parent of each application's root.
pub fn root_body(alloc: Global) -> Result<Values, NoMemory>
    ensures { IfOk result (λ values. all_data values ≡ registry_root ∷ []) }
{
    one(alloc, root_value(alloc)?)
}

/// The root's role, desktop frame.
pub fn role_body(alloc: Global) -> Result<Values, NoMemory>
    ensures { IfOk result (λ values. all_data values ≡ number_data u32 14 ∷ []) }
{
    one(alloc, Value::U32(14))
}

/// The name of its role.
pub fn role_name_body(alloc: Global) -> Result<Values, NoMemory>
    ensures { IfOk result (λ values. all_data values ≡ text_data (codes "desktop frame") ∷ []) }
{
    one(alloc, Value::Text(word(alloc, "desktop frame")?))
}
