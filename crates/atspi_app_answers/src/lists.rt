//! All properties of an interface of a node, as GetAll returns them.

ghost use Rattle.std.specs.Prelude.{◌≡◌, ◌<◌, ◌^◌, [], true, length, IfOk, OnOk};
ghost use Rattle.atspi_types.specs.Kinds.{text, variant};
ghost use Rattle.atspi_types.specs.Data.{dictionary_data, entries_of};
ghost use Rattle.atspi_types.specs.DataView.{data_of, all_pairs};
ghost use Rattle.atspi_tree_model.specs.Forest.{has};
ghost use Rattle.atspi_tree_model.specs.Tree.{is_shape};
ghost use Rattle.atspi_protocol_messages.specs.Plain.{are_plain};
ghost use Rattle.atspi_app_calls.specs.declared.interface.AppInterface.TheVariants as interfaces;
ghost use Rattle.atspi_app_calls.specs.Interface.{properties_in};
ghost use Rattle.atspi_app_answers.specs.Told.{Puts, AreProperties, IsAllProperties};

use crate::counts::Counts;
use crate::variants::property_in_variant;
use atspi_app_calls::AppInterface;
use atspi_app_values::literal;
use atspi_base::{NoMemory, Text};
use atspi_protocol::members::ObjectProperty;
use atspi_tree::Tree;
use atspi_types::{Pairs, Ty, Value};
use std::alloc::Global;

/// Appends a property with its name.
fn put(
    alloc: Global,
    tree: &Tree,
    bus: &Text,
    id: &i32,
    counts: Counts,
    node: u32,
    pairs: &mut Pairs,
    name: &str,
    which: ObjectProperty,
) -> Result<(), NoMemory>
    requires there { has (is_shape node) tree.now.rows ≡ true }
    requires plain { are_plain name.now ≡ true }
    requires short { length name.now < 2 ^ 32 }
    ensures { OnOk result
        (Puts tree.now bus.now id.now counts node name.now which (all_pairs pairs.old) (all_pairs pairs.new)) }
{
    let key = literal(alloc, name)?;
    let value = property_in_variant(alloc, tree, bus, id, counts, node, which)?;
    pairs.push(key, value)?;
    Ok(())
}

/// Those of Accessible.
fn of_accessible(
    alloc: Global,
    tree: &Tree,
    bus: &Text,
    id: &i32,
    counts: Counts,
    node: u32,
) -> Result<Pairs, NoMemory>
    requires { has (is_shape node) tree.now.rows ≡ true }
    ensures { IfOk result
        (λ pairs. AreProperties tree.now bus.now id.now counts node (properties_in interfaces.Accessible)
        (all_pairs pairs)) }
{
    let mut all = Pairs::new(alloc);
    put(
        alloc,
        tree,
        bus,
        id,
        counts,
        node,
        &mut all,
        "Name",
        ObjectProperty::Name,
    )?;
    put(
        alloc,
        tree,
        bus,
        id,
        counts,
        node,
        &mut all,
        "Description",
        ObjectProperty::Description,
    )?;
    put(
        alloc,
        tree,
        bus,
        id,
        counts,
        node,
        &mut all,
        "Parent",
        ObjectProperty::Parent,
    )?;
    put(
        alloc,
        tree,
        bus,
        id,
        counts,
        node,
        &mut all,
        "ChildCount",
        ObjectProperty::ChildCount,
    )?;
    put(
        alloc,
        tree,
        bus,
        id,
        counts,
        node,
        &mut all,
        "Locale",
        ObjectProperty::Locale,
    )?;
    put(
        alloc,
        tree,
        bus,
        id,
        counts,
        node,
        &mut all,
        "AccessibleId",
        ObjectProperty::AccessibleId,
    )?;
    Ok(all)
}

/// Those of Application.
fn of_application(
    alloc: Global,
    tree: &Tree,
    bus: &Text,
    id: &i32,
    counts: Counts,
    node: u32,
) -> Result<Pairs, NoMemory>
    requires { has (is_shape node) tree.now.rows ≡ true }
    ensures { IfOk result
        (λ pairs. AreProperties tree.now bus.now id.now counts node (properties_in interfaces.Application)
        (all_pairs pairs)) }
{
    let mut all = Pairs::new(alloc);
    put(
        alloc,
        tree,
        bus,
        id,
        counts,
        node,
        &mut all,
        "ToolkitName",
        ObjectProperty::ToolkitName,
    )?;
    put(
        alloc,
        tree,
        bus,
        id,
        counts,
        node,
        &mut all,
        "Version",
        ObjectProperty::Version,
    )?;
    put(
        alloc,
        tree,
        bus,
        id,
        counts,
        node,
        &mut all,
        "AtspiVersion",
        ObjectProperty::AtspiVersion,
    )?;
    put(
        alloc,
        tree,
        bus,
        id,
        counts,
        node,
        &mut all,
        "Id",
        ObjectProperty::Id,
    )?;
    Ok(all)
}

/// Those of Text.
fn of_text(
    alloc: Global,
    tree: &Tree,
    bus: &Text,
    id: &i32,
    counts: Counts,
    node: u32,
) -> Result<Pairs, NoMemory>
    requires { has (is_shape node) tree.now.rows ≡ true }
    ensures { IfOk result
        (λ pairs. AreProperties tree.now bus.now id.now counts node (properties_in interfaces.Text) (all_pairs pairs)) }
{
    let mut all = Pairs::new(alloc);
    put(
        alloc,
        tree,
        bus,
        id,
        counts,
        node,
        &mut all,
        "CharacterCount",
        ObjectProperty::CharacterCount,
    )?;
    put(
        alloc,
        tree,
        bus,
        id,
        counts,
        node,
        &mut all,
        "CaretOffset",
        ObjectProperty::CaretOffset,
    )?;
    Ok(all)
}

/// That of Selection.
fn of_selection(
    alloc: Global,
    tree: &Tree,
    bus: &Text,
    id: &i32,
    counts: Counts,
    node: u32,
) -> Result<Pairs, NoMemory>
    requires { has (is_shape node) tree.now.rows ≡ true }
    ensures { IfOk result
        (λ pairs. AreProperties tree.now bus.now id.now counts node (properties_in interfaces.Selection)
        (all_pairs pairs)) }
{
    let mut all = Pairs::new(alloc);
    put(
        alloc,
        tree,
        bus,
        id,
        counts,
        node,
        &mut all,
        "NSelectedChildren",
        ObjectProperty::NSelectedChildren,
    )?;
    Ok(all)
}

/// Those of Table.
fn of_table(
    alloc: Global,
    tree: &Tree,
    bus: &Text,
    id: &i32,
    counts: Counts,
    node: u32,
) -> Result<Pairs, NoMemory>
    requires { has (is_shape node) tree.now.rows ≡ true }
    ensures { IfOk result
        (λ pairs. AreProperties tree.now bus.now id.now counts node (properties_in interfaces.Table)
        (all_pairs pairs)) }
{
    let mut all = Pairs::new(alloc);
    put(
        alloc,
        tree,
        bus,
        id,
        counts,
        node,
        &mut all,
        "NRows",
        ObjectProperty::NRows,
    )?;
    put(
        alloc,
        tree,
        bus,
        id,
        counts,
        node,
        &mut all,
        "NColumns",
        ObjectProperty::NColumns,
    )?;
    Ok(all)
}

/// That of Action.
fn of_action(
    alloc: Global,
    tree: &Tree,
    bus: &Text,
    id: &i32,
    counts: Counts,
    node: u32,
) -> Result<Pairs, NoMemory>
    requires { has (is_shape node) tree.now.rows ≡ true }
    ensures { IfOk result
        (λ pairs. AreProperties tree.now bus.now id.now counts node (properties_in interfaces.Action)
        (all_pairs pairs)) }
{
    let mut all = Pairs::new(alloc);
    put(
        alloc,
        tree,
        bus,
        id,
        counts,
        node,
        &mut all,
        "NActions",
        ObjectProperty::NActions,
    )?;
    Ok(all)
}

/// All properties of an interface.
fn properties(
    alloc: Global,
    tree: &Tree,
    bus: &Text,
    id: &i32,
    counts: Counts,
    node: u32,
    interface: AppInterface,
) -> Result<Pairs, NoMemory>
    requires { has (is_shape node) tree.now.rows ≡ true }
    ensures { IfOk result
        (λ pairs. AreProperties tree.now bus.now id.now counts node (properties_in interface) (all_pairs pairs)) }
{
    match interface {
        AppInterface::Accessible => of_accessible(alloc, tree, bus, id, counts, node),
        AppInterface::Application => of_application(alloc, tree, bus, id, counts, node),
        AppInterface::Text => of_text(alloc, tree, bus, id, counts, node),
        AppInterface::Selection => of_selection(alloc, tree, bus, id, counts, node),
        AppInterface::Table => of_table(alloc, tree, bus, id, counts, node),
        AppInterface::Action => of_action(alloc, tree, bus, id, counts, node),
        AppInterface::Cache
        | AppInterface::EditableText
        | AppInterface::Properties
        | AppInterface::Peer => Ok(Pairs::new(alloc)),
    }
}

/// Properties by their names.
fn dictionary(pairs: Pairs) -> Value
    ensures { data_of result ≡ dictionary_data text variant (entries_of (all_pairs pairs)) }
{
    Value::Dict(Ty::Text, Ty::Variant, pairs)
}

/// All properties of an interface of a node that is there, with their names.
pub(crate) fn all_properties(
    alloc: Global,
    tree: &Tree,
    bus: &Text,
    id: &i32,
    counts: Counts,
    node: u32,
    interface: AppInterface,
) -> Result<Value, NoMemory>
    requires { has (is_shape node) tree.now.rows ≡ true }
    ensures { IfOk result
        (λ value. IsAllProperties tree.now bus.now id.now counts node (properties_in interface) (data_of value)) }
{
    let pairs = properties(alloc, tree, bus, id, counts, node, interface)?;
    Ok(dictionary(pairs))
}

/// No property.
pub(crate) fn no_properties(alloc: Global) -> Value
    ensures { data_of result ≡ dictionary_data text variant (entries_of []) }
{
    Value::Dict(Ty::Text, Ty::Variant, Pairs::new(alloc))
}
