//! The members of Accessible.

ghost use Rattle.std.specs.Prelude.{◌≡◌, true, IfOk};
ghost use Rattle.atspi_types.specs.DataView.{data_of};
ghost use Rattle.atspi_marshal_in_place.specs.Items.{fields_data};
ghost use Rattle.atspi_tree_model.specs.Forest.{has};
ghost use Rattle.atspi_tree_model.specs.Tree.{is_shape};
ghost use Rattle.atspi_app_answers.specs.Told.{Tells, is_accessible};

use atspi_app_calls::reading::first_signed;
use atspi_app_values::{
    child_at, index_in_parent, interface_names, no_pairs, node_reference, number,
    reference_or_null, references, relation_set, role_text, signed, words,
};
use atspi_base::{NoMemory, Text};
use atspi_marshal_in_place::Fields;
use atspi_protocol::members::ObjectMember;
use atspi_tree::Tree;
use atspi_types::Value;
use std::alloc::Global;

/// GetChildAtIndex.
fn get_child_at_index(
    alloc: Global,
    tree: &Tree,
    bus: &Text,
    node: u32,
    args: Fields,
) -> Result<Value, NoMemory>
    requires { has (is_shape node) tree.now.rows ≡ true }
    ensures { IfOk result
        (λ value. Tells tree.now bus.now node ObjectMember.GetChildAtIndex (fields_data args.entry) (data_of value)) }
{
    reference_or_null(alloc, bus, child_at(tree, node, first_signed(args)))
}

/// GetChildren.
fn get_children(
    alloc: Global,
    tree: &Tree,
    bus: &Text,
    node: u32,
    args: Fields,
) -> Result<Value, NoMemory>
    requires { has (is_shape node) tree.now.rows ≡ true }
    ensures { IfOk result
        (λ value. Tells tree.now bus.now node ObjectMember.GetChildren (fields_data args.entry) (data_of value)) }
{
    references(alloc, bus, tree.children(node))
}

/// GetIndexInParent.
fn get_index_in_parent(
    alloc: Global,
    tree: &Tree,
    bus: &Text,
    node: u32,
    args: Fields,
) -> Result<Value, NoMemory>
    requires { has (is_shape node) tree.now.rows ≡ true }
    ensures { IfOk result
        (λ value. Tells tree.now bus.now node ObjectMember.GetIndexInParent (fields_data args.entry) (data_of value)) }
{
    Ok(signed(index_in_parent(tree, node)))
}

/// GetRelationSet.
fn get_relation_set(
    alloc: Global,
    tree: &Tree,
    bus: &Text,
    node: u32,
    args: Fields,
) -> Result<Value, NoMemory>
    requires { has (is_shape node) tree.now.rows ≡ true }
    ensures { IfOk result
        (λ value. Tells tree.now bus.now node ObjectMember.GetRelationSet (fields_data args.entry) (data_of value)) }
{
    relation_set(alloc, tree, bus, node)
}

/// GetRole.
fn get_role(
    alloc: Global,
    tree: &Tree,
    bus: &Text,
    node: u32,
    args: Fields,
) -> Result<Value, NoMemory>
    requires { has (is_shape node) tree.now.rows ≡ true }
    ensures { IfOk result
        (λ value. Tells tree.now bus.now node ObjectMember.GetRole (fields_data args.entry) (data_of value)) }
{
    Ok(number(tree.role(node)))
}

/// GetRoleName.
fn get_role_name(
    alloc: Global,
    tree: &Tree,
    bus: &Text,
    node: u32,
    args: Fields,
) -> Result<Value, NoMemory>
    requires { has (is_shape node) tree.now.rows ≡ true }
    ensures { IfOk result
        (λ value. Tells tree.now bus.now node ObjectMember.GetRoleName (fields_data args.entry) (data_of value)) }
{
    role_text(alloc, tree.role(node))
}

/// GetLocalizedRoleName.
fn get_localized_role_name(
    alloc: Global,
    tree: &Tree,
    bus: &Text,
    node: u32,
    args: Fields,
) -> Result<Value, NoMemory>
    requires { has (is_shape node) tree.now.rows ≡ true }
    ensures { IfOk result
        (λ value. Tells tree.now bus.now node ObjectMember.GetLocalizedRoleName (fields_data args.entry)
        (data_of value)) }
{
    role_text(alloc, tree.role(node))
}

/// GetState.
fn get_state(
    alloc: Global,
    tree: &Tree,
    bus: &Text,
    node: u32,
    args: Fields,
) -> Result<Value, NoMemory>
    requires { has (is_shape node) tree.now.rows ≡ true }
    ensures { IfOk result
        (λ value. Tells tree.now bus.now node ObjectMember.GetState (fields_data args.entry) (data_of value)) }
{
    words(alloc, tree.states(node))
}

/// GetAttributes.
fn get_attributes(
    alloc: Global,
    tree: &Tree,
    bus: &Text,
    node: u32,
    args: Fields,
) -> Result<Value, NoMemory>
    requires { has (is_shape node) tree.now.rows ≡ true }
    ensures { IfOk result
        (λ value. Tells tree.now bus.now node ObjectMember.GetAttributes (fields_data args.entry) (data_of value)) }
{
    Ok(no_pairs(alloc))
}

/// GetApplication.
fn get_application(
    alloc: Global,
    tree: &Tree,
    bus: &Text,
    node: u32,
    args: Fields,
) -> Result<Value, NoMemory>
    requires { has (is_shape node) tree.now.rows ≡ true }
    ensures { IfOk result
        (λ value. Tells tree.now bus.now node ObjectMember.GetApplication (fields_data args.entry) (data_of value)) }
{
    node_reference(alloc, bus, 0)
}

/// GetInterfaces.
fn get_interfaces(
    alloc: Global,
    tree: &Tree,
    bus: &Text,
    node: u32,
    args: Fields,
) -> Result<Value, NoMemory>
    requires { has (is_shape node) tree.now.rows ≡ true }
    ensures { IfOk result
        (λ value. Tells tree.now bus.now node ObjectMember.GetInterfaces (fields_data args.entry) (data_of value)) }
{
    interface_names(alloc, node == 0, tree.kinds(node))
}

/// What a member of Accessible tells of a node that is there, the arguments being of the types that it takes (AT-SPI2,
/// interface Accessible). The one refusal is want of memory. Looks at the node, and at its children or relations where
/// it tells of them.
pub(crate) fn accessible(
    alloc: Global,
    tree: &Tree,
    bus: &Text,
    node: u32,
    member: ObjectMember,
    args: Fields,
) -> Result<Value, NoMemory>
    requires there { has (is_shape node) tree.now.rows ≡ true }
    requires accessible { is_accessible member ≡ true }
    ensures { IfOk result (λ value. Tells tree.now bus.now node member (fields_data args.entry) (data_of value)) }
{
    match member {
        ObjectMember::GetChildAtIndex => get_child_at_index(alloc, tree, bus, node, args),
        ObjectMember::GetChildren => get_children(alloc, tree, bus, node, args),
        ObjectMember::GetIndexInParent => get_index_in_parent(alloc, tree, bus, node, args),
        ObjectMember::GetRelationSet => get_relation_set(alloc, tree, bus, node, args),
        ObjectMember::GetRole => get_role(alloc, tree, bus, node, args),
        ObjectMember::GetRoleName => get_role_name(alloc, tree, bus, node, args),
        ObjectMember::GetLocalizedRoleName => get_localized_role_name(alloc, tree, bus, node, args),
        ObjectMember::GetState => get_state(alloc, tree, bus, node, args),
        ObjectMember::GetAttributes => get_attributes(alloc, tree, bus, node, args),
        ObjectMember::GetApplication => get_application(alloc, tree, bus, node, args),
        ObjectMember::GetInterfaces => get_interfaces(alloc, tree, bus, node, args),
        _ => unreachable!(),
    }
}
