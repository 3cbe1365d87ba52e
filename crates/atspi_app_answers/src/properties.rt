//! The properties of a node, as values.

ghost use Rattle.std.specs.Prelude.{◌≡◌, ◌/◌, true, decimal, IfOk};
ghost use Rattle.atspi_types.specs.Data.{text_data};
ghost use Rattle.atspi_types.specs.DataView.{data_of};
ghost use Rattle.atspi_tree_model.specs.Forest.{has};
ghost use Rattle.atspi_tree_model.specs.Tree.{is_shape};
ghost use Rattle.atspi_app_answers.specs.Told.{IsProperty};

use crate::counts::{Counts, counted};
use crate::selected::selected_count;
use atspi_app_values::{child_count, literal, parent, signed, text};
use atspi_base::{NoMemory, Text};
use atspi_protocol::members::ObjectProperty;
use atspi_tree::Tree;
use atspi_types::Value;
use std::alloc::Global;

/// A number in decimal.
fn decimal_text(alloc: Global, n: u32) -> Result<Value, NoMemory>
    ensures { IfOk result (λ value. data_of value ≡ text_data (decimal n)) }
{
    let text = format!(in alloc; "{n}")?;
    literal(alloc, &text)
}

/// How many whole rows of so many columns the cells make; none where there are no columns.
fn whole_rows(cells: u32, columns: u32) -> u32
    ensures { result ≡ cells / columns }
{
    if columns == 0 { 0 } else { cells / columns }
}

/// Name.
fn name_of(
    alloc: Global,
    tree: &Tree,
    bus: &Text,
    id: &i32,
    counts: Counts,
    node: u32,
) -> Result<Value, NoMemory>
    requires { has (is_shape node) tree.now.rows ≡ true }
    ensures { IfOk result
        (λ value. IsProperty tree.now bus.now id.now counts node ObjectProperty.Name (data_of value)) }
{
    text(alloc, tree.name(node))
}

/// Description.
fn description_of(
    alloc: Global,
    tree: &Tree,
    bus: &Text,
    id: &i32,
    counts: Counts,
    node: u32,
) -> Result<Value, NoMemory>
    requires { has (is_shape node) tree.now.rows ≡ true }
    ensures { IfOk result
        (λ value. IsProperty tree.now bus.now id.now counts node ObjectProperty.Description (data_of value)) }
{
    text(alloc, tree.description(node))
}

/// Parent.
fn parent_of(
    alloc: Global,
    tree: &Tree,
    bus: &Text,
    id: &i32,
    counts: Counts,
    node: u32,
) -> Result<Value, NoMemory>
    requires { has (is_shape node) tree.now.rows ≡ true }
    ensures { IfOk result
        (λ value. IsProperty tree.now bus.now id.now counts node ObjectProperty.Parent (data_of value)) }
{
    parent(alloc, tree, bus, node)
}

/// ChildCount.
fn child_count_of(
    alloc: Global,
    tree: &Tree,
    bus: &Text,
    id: &i32,
    counts: Counts,
    node: u32,
) -> Result<Value, NoMemory>
    requires { has (is_shape node) tree.now.rows ≡ true }
    ensures { IfOk result
        (λ value. IsProperty tree.now bus.now id.now counts node ObjectProperty.ChildCount (data_of value)) }
{
    Ok(counted(child_count(tree, node)))
}

/// Locale.
fn locale_of(
    alloc: Global,
    tree: &Tree,
    bus: &Text,
    id: &i32,
    counts: Counts,
    node: u32,
) -> Result<Value, NoMemory>
    requires { has (is_shape node) tree.now.rows ≡ true }
    ensures { IfOk result
        (λ value. IsProperty tree.now bus.now id.now counts node ObjectProperty.Locale (data_of value)) }
{
    literal(alloc, "C")
}

/// AccessibleId.
fn accessible_id_of(
    alloc: Global,
    tree: &Tree,
    bus: &Text,
    id: &i32,
    counts: Counts,
    node: u32,
) -> Result<Value, NoMemory>
    requires { has (is_shape node) tree.now.rows ≡ true }
    ensures { IfOk result
        (λ value. IsProperty tree.now bus.now id.now counts node ObjectProperty.AccessibleId (data_of value)) }
{
    decimal_text(alloc, node)
}

/// ToolkitName.
fn toolkit_name_of(
    alloc: Global,
    tree: &Tree,
    bus: &Text,
    id: &i32,
    counts: Counts,
    node: u32,
) -> Result<Value, NoMemory>
    requires { has (is_shape node) tree.now.rows ≡ true }
    ensures { IfOk result
        (λ value. IsProperty tree.now bus.now id.now counts node ObjectProperty.ToolkitName (data_of value)) }
{
    literal(alloc, "atspi-replay")
}

/// Version.
fn version_of(
    alloc: Global,
    tree: &Tree,
    bus: &Text,
    id: &i32,
    counts: Counts,
    node: u32,
) -> Result<Value, NoMemory>
    requires { has (is_shape node) tree.now.rows ≡ true }
    ensures { IfOk result
        (λ value. IsProperty tree.now bus.now id.now counts node ObjectProperty.Version (data_of value)) }
{
    literal(alloc, "1")
}

/// AtspiVersion.
fn atspi_version_of(
    alloc: Global,
    tree: &Tree,
    bus: &Text,
    id: &i32,
    counts: Counts,
    node: u32,
) -> Result<Value, NoMemory>
    requires { has (is_shape node) tree.now.rows ≡ true }
    ensures { IfOk result
        (λ value. IsProperty tree.now bus.now id.now counts node ObjectProperty.AtspiVersion (data_of value)) }
{
    literal(alloc, "2.1")
}

/// Id.
fn id_of(
    alloc: Global,
    tree: &Tree,
    bus: &Text,
    id: &i32,
    counts: Counts,
    node: u32,
) -> Result<Value, NoMemory>
    requires { has (is_shape node) tree.now.rows ≡ true }
    ensures { IfOk result (λ value. IsProperty tree.now bus.now id.now counts node ObjectProperty.Id (data_of value)) }
{
    Ok(signed(*id))
}

/// CharacterCount.
fn character_count_of(
    alloc: Global,
    tree: &Tree,
    bus: &Text,
    id: &i32,
    counts: Counts,
    node: u32,
) -> Result<Value, NoMemory>
    requires { has (is_shape node) tree.now.rows ≡ true }
    ensures { IfOk result
        (λ value. IsProperty tree.now bus.now id.now counts node ObjectProperty.CharacterCount (data_of value)) }
{
    Ok(counted(counts.characters))
}

/// CaretOffset.
fn caret_offset_of(
    alloc: Global,
    tree: &Tree,
    bus: &Text,
    id: &i32,
    counts: Counts,
    node: u32,
) -> Result<Value, NoMemory>
    requires { has (is_shape node) tree.now.rows ≡ true }
    ensures { IfOk result
        (λ value. IsProperty tree.now bus.now id.now counts node ObjectProperty.CaretOffset (data_of value)) }
{
    Ok(counted(counts.caret))
}

/// NSelectedChildren.
fn selected_count_of(
    alloc: Global,
    tree: &Tree,
    bus: &Text,
    id: &i32,
    counts: Counts,
    node: u32,
) -> Result<Value, NoMemory>
    requires { has (is_shape node) tree.now.rows ≡ true }
    ensures { IfOk result
        (λ value. IsProperty tree.now bus.now id.now counts node ObjectProperty.NSelectedChildren (data_of value)) }
{
    tree.is_lawful();
    Ok(counted(selected_count(tree, node)))
}

/// NRows.
fn row_count_of(
    alloc: Global,
    tree: &Tree,
    bus: &Text,
    id: &i32,
    counts: Counts,
    node: u32,
) -> Result<Value, NoMemory>
    requires { has (is_shape node) tree.now.rows ≡ true }
    ensures { IfOk result
        (λ value. IsProperty tree.now bus.now id.now counts node ObjectProperty.NRows (data_of value)) }
{
    Ok(counted(whole_rows(child_count(tree, node), counts.columns)))
}

/// NColumns.
fn column_count_of(
    alloc: Global,
    tree: &Tree,
    bus: &Text,
    id: &i32,
    counts: Counts,
    node: u32,
) -> Result<Value, NoMemory>
    requires { has (is_shape node) tree.now.rows ≡ true }
    ensures { IfOk result
        (λ value. IsProperty tree.now bus.now id.now counts node ObjectProperty.NColumns (data_of value)) }
{
    Ok(counted(counts.columns))
}

/// NActions.
fn action_count_of(
    alloc: Global,
    tree: &Tree,
    bus: &Text,
    id: &i32,
    counts: Counts,
    node: u32,
) -> Result<Value, NoMemory>
    requires { has (is_shape node) tree.now.rows ≡ true }
    ensures { IfOk result
        (λ value. IsProperty tree.now bus.now id.now counts node ObjectProperty.NActions (data_of value)) }
{
    Ok(counted(counts.actions))
}

/// A property of a node that is there (AT-SPI2's interface files), of counts that are told by its faces. The one
/// refusal is want of memory.
pub(crate) fn property(
    alloc: Global,
    tree: &Tree,
    bus: &Text,
    id: &i32,
    counts: Counts,
    node: u32,
    property: ObjectProperty,
) -> Result<Value, NoMemory>
    requires { has (is_shape node) tree.now.rows ≡ true }
    ensures { IfOk result (λ value. IsProperty tree.now bus.now id.now counts node property (data_of value)) }
{
    match property {
        ObjectProperty::Name => name_of(alloc, tree, bus, id, counts, node),
        ObjectProperty::Description => description_of(alloc, tree, bus, id, counts, node),
        ObjectProperty::Parent => parent_of(alloc, tree, bus, id, counts, node),
        ObjectProperty::ChildCount => child_count_of(alloc, tree, bus, id, counts, node),
        ObjectProperty::Locale => locale_of(alloc, tree, bus, id, counts, node),
        ObjectProperty::AccessibleId => accessible_id_of(alloc, tree, bus, id, counts, node),
        ObjectProperty::ToolkitName => toolkit_name_of(alloc, tree, bus, id, counts, node),
        ObjectProperty::Version => version_of(alloc, tree, bus, id, counts, node),
        ObjectProperty::AtspiVersion => atspi_version_of(alloc, tree, bus, id, counts, node),
        ObjectProperty::Id => id_of(alloc, tree, bus, id, counts, node),
        ObjectProperty::CharacterCount => character_count_of(alloc, tree, bus, id, counts, node),
        ObjectProperty::CaretOffset => caret_offset_of(alloc, tree, bus, id, counts, node),
        ObjectProperty::NSelectedChildren => selected_count_of(alloc, tree, bus, id, counts, node),
        ObjectProperty::NRows => row_count_of(alloc, tree, bus, id, counts, node),
        ObjectProperty::NColumns => column_count_of(alloc, tree, bus, id, counts, node),
        ObjectProperty::NActions => action_count_of(alloc, tree, bus, id, counts, node),
    }
}
