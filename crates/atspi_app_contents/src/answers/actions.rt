//! The members of Action that change nothing.

ghost use Rattle.std.specs.Prelude.{◌≡◌, ℕ, List, true, IfOk};
ghost use Rattle.atspi_types.specs.Data.{Data};
ghost use Rattle.atspi_types.specs.DataView.{data_of};
ghost use Rattle.atspi_marshal_in_place.specs.Items.{fields_data};
ghost use Rattle.atspi_faces.specs.face.Nodes.{Nodes};
ghost use Rattle.atspi_app_contents.specs.answers.Told.{reads_actions};
ghost use Rattle.atspi_app_contents.specs.answers.inner.Told.{TellsActions};

use crate::values::{action_list, action_name};
use atspi_app_calls::reading::first_signed;
use atspi_app_values::literal;
use atspi_base::NoMemory;
use atspi_faces::face::{Face, FaceKind};
use atspi_marshal_in_place::Fields;
use atspi_protocol::members::ObjectMember;
use atspi_types::Value;
use std::alloc::Global;

/// GetName.
fn get_name<D: Face>(alloc: Global, actions: &D, node: u32, args: Fields) -> Result<Value, NoMemory>
    requires { D.of_kind actions.now ≡ FaceKind.Deeds }
    ensures { IfOk result
        (λ value. TellsActions (D.nodes actions.now) node ObjectMember.GetName (fields_data args.entry)
        (data_of value)) }
{
    action_name(alloc, actions, node, first_signed(args))
}

/// GetActions.
fn get_actions<D: Face>(alloc: Global, actions: &D, node: u32) -> Result<Value, NoMemory>
    requires { D.of_kind actions.now ≡ FaceKind.Deeds }
    ensures { IfOk result
        (λ value. (body : List Data)
        → TellsActions (D.nodes actions.now) node ObjectMember.GetActions body (data_of value)) }
{
    action_list(alloc, actions, node)
}

/// GetDescription: no action has one.
fn get_description(alloc: Global) -> Result<Value, NoMemory>
    ensures { IfOk result
        (λ value. (actions : Nodes) (node : ℕ) (body : List Data)
        → TellsActions actions node ObjectMember.GetDescription body (data_of value)) }
{
    literal(alloc, "")
}

/// GetKeyBinding: no action has one.
fn get_key_binding(alloc: Global) -> Result<Value, NoMemory>
    ensures { IfOk result
        (λ value. (actions : Nodes) (node : ℕ) (body : List Data)
        → TellsActions actions node ObjectMember.GetKeyBinding body (data_of value)) }
{
    literal(alloc, "")
}

/// What a member of Action that changes nothing tells of a node (AT-SPI2, interface Action). No action has a
/// description or a key. The one refusal is want of memory.
pub(crate) fn action_value<D: Face>(
    alloc: Global,
    actions: &D,
    node: u32,
    member: ObjectMember,
    args: Fields,
) -> Result<Value, NoMemory>
    requires kind { D.of_kind actions.now ≡ FaceKind.Deeds }
    requires member { reads_actions member ≡ true }
    ensures { IfOk result
        (λ value. TellsActions (D.nodes actions.now) node member (fields_data args.entry) (data_of value)) }
{
    match member {
        ObjectMember::GetName => get_name(alloc, actions, node, args),
        ObjectMember::GetDescription => get_description(alloc),
        ObjectMember::GetKeyBinding => get_key_binding(alloc),
        ObjectMember::GetActions => get_actions(alloc, actions, node),
        _ => unreachable!(),
    }
}
