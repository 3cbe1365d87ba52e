//! The properties of a node in variants, as Get returns them.

ghost use Rattle.std.specs.Prelude.{◌≡◌, true, IfOk};
ghost use Rattle.atspi_types.specs.Data.{variant_data, type_of};
ghost use Rattle.atspi_types.specs.DataView.{data_of};
ghost use Rattle.atspi_types.specs.KindView.{kind_of};
ghost use Rattle.atspi_tree_model.specs.Forest.{has};
ghost use Rattle.atspi_tree_model.specs.Row.{TreeRow};
ghost use Rattle.atspi_tree_model.specs.Tree.{is_shape};
ghost use Rattle.atspi_protocol.specs.objects.Application.{Application};
ghost use Rattle.atspi_protocol.specs.objects.Properties.{property_data};
ghost use Rattle.atspi_app_answers.specs.Told.{IsPropertyInVariant};

use crate::counts::Counts;
use crate::properties::property;
use atspi_base::{NoMemory, Text};
use atspi_protocol::members::ObjectProperty;
use atspi_protocol_messages::reference_type;
use atspi_tree::Tree;
use atspi_types::{Ty, Value};
use std::alloc::Global;

/// The type of a property.
fn property_type(alloc: Global, property: ObjectProperty) -> Result<Ty, NoMemory>
    ensures { IfOk result
        (λ ty. (a : Application) (row : TreeRow) → type_of (property_data a row property) ≡ kind_of ty) }
{
    match property {
        ObjectProperty::Name
        | ObjectProperty::Description
        | ObjectProperty::Locale
        | ObjectProperty::AccessibleId
        | ObjectProperty::ToolkitName
        | ObjectProperty::Version
        | ObjectProperty::AtspiVersion => Ok(Ty::Text),
        ObjectProperty::Parent => reference_type(alloc),
        ObjectProperty::ChildCount
        | ObjectProperty::Id
        | ObjectProperty::CharacterCount
        | ObjectProperty::CaretOffset
        | ObjectProperty::NSelectedChildren
        | ObjectProperty::NRows
        | ObjectProperty::NColumns
        | ObjectProperty::NActions => Ok(Ty::I32),
    }
}

/// A value of this type in a variant.
fn in_variant(alloc: Global, ty: Ty, value: Value) -> Result<Value, NoMemory>
    ensures { IfOk result (λ variant. data_of variant ≡ variant_data (kind_of ty) (data_of value)) }
{
    let value = Box::new(alloc, value)?;
    Ok(Value::Variant(ty, value))
}

/// A property of a node that is there, in a variant.
pub(crate) fn property_in_variant(
    alloc: Global,
    tree: &Tree,
    bus: &Text,
    id: &i32,
    counts: Counts,
    node: u32,
    which: ObjectProperty,
) -> Result<Value, NoMemory>
    requires { has (is_shape node) tree.now.rows ≡ true }
    ensures { IfOk result (λ value. IsPropertyInVariant tree.now bus.now id.now counts node which (data_of value)) }
{
    let ty = property_type(alloc, which)?;
    let value = property(alloc, tree, bus, id, counts, node, which)?;
    in_variant(alloc, ty, value)
}
