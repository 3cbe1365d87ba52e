//! The members of Selection that change nothing.

ghost use Rattle.std.specs.Prelude.{◌≡◌, ℕ, List, true, IfOk};
ghost use Rattle.atspi_types.specs.DataView.{data_of};
ghost use Rattle.atspi_marshal_in_place.specs.Items.{fields_data};
ghost use Rattle.atspi_tree_model.specs.Forest.{has};
ghost use Rattle.atspi_tree_model.specs.Tree.{is_shape};
ghost use Rattle.atspi_app_contents.specs.answers.Told.{reads_selection};
ghost use Rattle.atspi_app_contents.specs.answers.inner.Told.{TellsOne};

use crate::values::{is_selected_there, place_of, selected_child};
use atspi_app_calls::reading::first_signed;
use atspi_app_values::{child_at, reference_or_null};
use atspi_base::{NoMemory, Text};
use atspi_marshal_in_place::Fields;
use atspi_protocol::members::ObjectMember;
use atspi_tree::Tree;
use atspi_types::Value;
use std::alloc::Global;

/// GetSelectedChild.
fn get_selected_child(
    alloc: Global,
    tree: &Tree,
    bus: &Text,
    node: u32,
    args: Fields,
) -> Result<Value, NoMemory>
    requires { has (is_shape node) tree.now.rows ≡ true }
    ensures { IfOk result
        (λ value. TellsOne tree.now bus.now node ObjectMember.GetSelectedChild (fields_data args.entry)
        (data_of value)) }
{
    tree.is_lawful();
    let place = place_of(first_signed(args));
    reference_or_null(alloc, bus, selected_child(tree, node, place))
}

/// IsChildSelected.
fn is_child_selected(tree: &Tree, node: u32, args: Fields) -> Value
    requires { has (is_shape node) tree.now.rows ≡ true }
    ensures { (name : List ℕ)
        → TellsOne tree.now name node ObjectMember.IsChildSelected (fields_data args.entry) (data_of result) }
{
    tree.is_lawful();
    Value::Bool(is_selected_there(tree, child_at(tree, node, first_signed(args))))
}

/// What a member of Selection that changes nothing tells of a node that is there (AT-SPI2, interface Selection). The
/// one refusal is want of memory. Looks at the children of the node, at those before the one that is told.
pub(crate) fn selection(
    alloc: Global,
    tree: &Tree,
    bus: &Text,
    node: u32,
    member: ObjectMember,
    args: Fields,
) -> Result<Value, NoMemory>
    requires there { has (is_shape node) tree.now.rows ≡ true }
    requires member { reads_selection member ≡ true }
    ensures { IfOk result (λ value. TellsOne tree.now bus.now node member (fields_data args.entry) (data_of value)) }
{
    match member {
        ObjectMember::GetSelectedChild => get_selected_child(alloc, tree, bus, node, args),
        ObjectMember::IsChildSelected => Ok(is_child_selected(tree, node, args)),
        _ => unreachable!(),
    }
}
