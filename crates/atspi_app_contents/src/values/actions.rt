//! The actions of a node.

ghost use Rattle.std.specs.Prelude.{◌≡◌, ◌∷◌, [], length, slice_get, IfOk};
ghost use Rattle.std.specs.FinMap.{get};
ghost use Rattle.atspi_types.specs.Kinds.{text as text_kind, structure, kinds_of};
ghost use Rattle.atspi_types.specs.KindView.{kind_of};
ghost use Rattle.atspi_types.specs.Data.{text_data, structure_data, items_of};
ghost use Rattle.atspi_types.specs.DataView.{data_of};
ghost use Rattle.atspi_tree_model.specs.declared.contents.FaceData.TheVariants as contents;
ghost use Rattle.atspi_protocol.specs.objects.Answers.{name_data, actions_data};
ghost use Rattle.atspi_protocol.specs.objects.Children as children;
ghost use Rattle.atspi_app_contents.specs.values.Actions.{actions_in};
ghost use Rattle.atspi_app_contents.specs.values.inner.Actions.{name_or_empty};

use crate::values::values::empty;
use atspi_base::{NoMemory, Text, Texts};
use atspi_faces::face::{Face, FaceData, FaceKind};
use atspi_types::{Ty, Tys, Value, Values};
use std::alloc::Global;

/// The name of the action at a place, empty where there is none.
fn name_there<D: Face>(alloc: Global, actions: &D, node: u32, from: u32) -> Result<Text, NoMemory>
    requires { D.of_kind actions.now ≡ FaceKind.Deeds }
    ensures { IfOk result
        (λ name. name ≡ name_or_empty (slice_get (actions_in (get (D.nodes actions.now) node)) from)) }
{
    let _ = actions.kind();
    if actions.count(node) <= from {
        return empty(alloc);
    }
    actions.part(node, from, from)
}

/// The same at an index from outside; none is below 0.
fn name_at<D: Face>(alloc: Global, actions: &D, node: u32, index: i32) -> Result<Text, NoMemory>
    requires { D.of_kind actions.now ≡ FaceKind.Deeds }
    ensures { IfOk result
        (λ name. name ≡ name_or_empty (children.at index (actions_in (get (D.nodes actions.now) node)))) }
{
    if index < 0 {
        return empty(alloc);
    }
    name_there(alloc, actions, node, index as u32)
}

/// The same as a value (AT-SPI2, interface Action). The one refusal is want of memory.
pub fn action_name<D: Face>(
    alloc: Global,
    actions: &D,
    node: u32,
    index: i32,
) -> Result<Value, NoMemory>
    requires { D.of_kind actions.now ≡ FaceKind.Deeds }
    ensures { IfOk result
        (λ value. data_of value ≡ name_data (children.at index (actions_in (get (D.nodes actions.now) node)))) }
{
    Ok(Value::Text(name_at(alloc, actions, node, index)?))
}

/// The names of a node's actions, in order.
fn names<D: Face>(alloc: Global, actions: &D, node: u32) -> Result<Texts, NoMemory>
    requires { D.of_kind actions.now ≡ FaceKind.Deeds }
    ensures { IfOk result (λ names. names ≡ actions_in (get (D.nodes actions.now) node)) }
{
    let _ = actions.kind();
    let mut names = Texts::new(alloc);
    for i in 0..actions.count(node) {
        names.push(actions.part(node, i, i)?)?;
    }
    Ok(names)
}

/// The type of an action: its name, its description and its key.
fn action_type(alloc: Global) -> Result<Ty, NoMemory>
    ensures { IfOk result (λ ty. kind_of ty ≡ structure (kinds_of (text_kind ∷ text_kind ∷ text_kind ∷ []))) }
{
    let mut fields = Tys::new(alloc);
    fields.push(Ty::Text)?;
    fields.push(Ty::Text)?;
    fields.push(Ty::Text)?;
    Ok(Ty::Struct(Box::new(alloc, fields)?))
}

/// An action with no description and no key.
fn action(alloc: Global, name: &Text) -> Result<Value, NoMemory>
    ensures { IfOk result
        (λ value. data_of value ≡ structure_data (items_of (text_data name.now ∷ text_data [] ∷ text_data [] ∷ []))) }
{
    let mut fields = Values::new(alloc);
    fields.push(Value::Text(name.copy(alloc)?))?;
    fields.push(Value::Text(empty(alloc)?))?;
    fields.push(Value::Text(empty(alloc)?))?;
    Ok(Value::Struct(fields))
}

/// Actions of these names.
fn listed(alloc: Global, names: &[Text]) -> Result<Value, NoMemory>
    ensures { IfOk result (λ value. data_of value ≡ actions_data names.now) }
{
    let mut elements = Vec::with_capacity(alloc, names.len())?;
    for name in names {
        elements.push(action(alloc, name)?)?;
    }
    let ty = action_type(alloc)?;
    Ok(Value::Array(ty, Values::from_vec(elements)))
}

/// The actions of a node as the contents that edits read. The one refusal is want of memory.
pub fn known_actions<D: Face>(alloc: Global, actions: &D, node: u32) -> Result<FaceData, NoMemory>
    requires { D.of_kind actions.now ≡ FaceKind.Deeds }
    ensures { IfOk result (λ known. known ≡ contents.Deeds (actions_in (get (D.nodes actions.now) node))) }
{
    let names = names(alloc, actions, node)?;
    Ok(FaceData::Deeds(names))
}

/// How many actions a node has.
pub fn action_count<D: Face>(actions: &D, node: u32) -> u32
    requires { D.of_kind actions.now ≡ FaceKind.Deeds }
    ensures { result ≡ length (actions_in (get (D.nodes actions.now) node)) }
{
    let _ = actions.kind();
    actions.count(node)
}

/// All actions of a node, none of which has a description or a key. The one refusal is want of memory.
pub fn action_list<D: Face>(alloc: Global, actions: &D, node: u32) -> Result<Value, NoMemory>
    requires { D.of_kind actions.now ≡ FaceKind.Deeds }
    ensures { IfOk result (λ value. data_of value ≡ actions_data (actions_in (get (D.nodes actions.now) node))) }
{
    let names = names(alloc, actions, node)?;
    listed(alloc, names.as_slice())
}
