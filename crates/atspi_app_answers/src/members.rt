//! The members of a node that look into no contents.

ghost use Rattle.std.specs.Prelude.{◌≡◌, ◌∷◌, [], true, false, codes, IfOk, MatchResult};
ghost use Rattle.atspi_types.specs.Data.{text_data};
ghost use Rattle.atspi_types.specs.DataView.{data_of, all_data};
ghost use Rattle.atspi_marshal_in_place.specs.Items.{fields_data};
ghost use Rattle.atspi_tree_model.specs.Forest.{has};
ghost use Rattle.atspi_tree_model.specs.Tree.{is_shape};
ghost use Rattle.atspi_app_answers.specs.Told as told;
ghost use Rattle.atspi_app_answers.specs.Told.{Tells, TellsAll, Refuses};

use crate::accessible::accessible;
use crate::fault::{AnswerFault, or_fault};
use atspi_app_values::literal;
use atspi_base::{NoMemory, Text};
use atspi_marshal_in_place::Fields;
use atspi_protocol::ends::CallError;
use atspi_protocol::members::ObjectMember;
use atspi_tree::Tree;
use atspi_types::{Value, Values};
use std::alloc::Global;

/// One value.
pub(crate) fn one(alloc: Global, value: Value) -> Result<Values, NoMemory>
    ensures { IfOk result (λ values. all_data values ≡ data_of value ∷ []) }
{
    let mut values = Values::new(alloc);
    values.push(value)?;
    Ok(values)
}

/// Whether a member is one of Accessible.
fn is_accessible(member: ObjectMember) -> bool
    ensures { result ≡ told.is_accessible member }
{
    matches!(
        member,
        ObjectMember::GetChildAtIndex
            | ObjectMember::GetChildren
            | ObjectMember::GetIndexInParent
            | ObjectMember::GetRelationSet
            | ObjectMember::GetRole
            | ObjectMember::GetRoleName
            | ObjectMember::GetLocalizedRoleName
            | ObjectMember::GetState
            | ObjectMember::GetAttributes
            | ObjectMember::GetApplication
            | ObjectMember::GetInterfaces
    )
}

/// Whether a member is one of Text, EditableText, Selection, Table or Action, which look into the contents of a node,
/// or change them.
pub fn is_of_contents(member: ObjectMember) -> bool
    ensures { result ≡ told.is_of_contents member }
{
    matches!(
        member,
        ObjectMember::GetText
            | ObjectMember::SetCaretOffset
            | ObjectMember::GetCharacterAtOffset
            | ObjectMember::GetStringAtOffset
            | ObjectMember::GetNSelections
            | ObjectMember::GetSelection
            | ObjectMember::AddSelection
            | ObjectMember::RemoveSelection
            | ObjectMember::SetSelection
            | ObjectMember::SetTextContents
            | ObjectMember::InsertText
            | ObjectMember::DeleteText
            | ObjectMember::GetSelectedChild
            | ObjectMember::SelectChild
            | ObjectMember::DeselectChild
            | ObjectMember::DeselectSelectedChild
            | ObjectMember::IsChildSelected
            | ObjectMember::SelectAll
            | ObjectMember::ClearSelection
            | ObjectMember::GetAccessibleAt
            | ObjectMember::GetIndexAt
            | ObjectMember::GetRowAtIndex
            | ObjectMember::GetColumnAtIndex
            | ObjectMember::GetSelectedRows
            | ObjectMember::IsRowSelected
            | ObjectMember::IsSelected
            | ObjectMember::GetName
            | ObjectMember::GetDescription
            | ObjectMember::GetKeyBinding
            | ObjectMember::GetActions
            | ObjectMember::DoAction
    )
}

/// The values of a member of Accessible.
fn accessible_values(
    alloc: Global,
    tree: &Tree,
    bus: &Text,
    node: u32,
    member: ObjectMember,
    args: Fields,
) -> Result<Values, NoMemory>
    requires there { has (is_shape node) tree.now.rows ≡ true }
    requires accessible { told.is_accessible member ≡ true }
    ensures { IfOk result (λ values. TellsAll tree.now bus.now node member (fields_data args.entry) (all_data values)) }
{
    let value = accessible(alloc, tree, bus, node, member, args)?;
    one(alloc, value)
}

/// The values of GetLocale.
fn locale_values(alloc: Global) -> Result<Values, NoMemory>
    ensures { IfOk result (λ values. all_data values ≡ text_data (codes "C") ∷ []) }
{
    one(alloc, literal(alloc, "C")?)
}

/// What a member tells of a node that is there, the arguments being of the types that it takes (AT-SPI2, interfaces
/// Accessible and Application; D-Bus Specification, "Standard Interfaces", Peer). Refused are members that no node has.
pub(crate) fn member_values(
    alloc: Global,
    tree: &Tree,
    bus: &Text,
    node: u32,
    member: ObjectMember,
    args: Fields,
) -> Result<Values, AnswerFault>
    requires there { has (is_shape node) tree.now.rows ≡ true }
    requires shape { told.is_of_contents member ≡ false }
    ensures { MatchResult result
        (λ values. TellsAll tree.now bus.now node member (fields_data args.entry) (all_data values))
        (Refuses tree.now bus.now node member (fields_data args.entry)) }
{
    if is_accessible(member) {
        return or_fault(accessible_values(alloc, tree, bus, node, member, args));
    }
    match member {
        ObjectMember::GetLocale => or_fault(locale_values(alloc)),
        ObjectMember::Ping => Ok(Values::new(alloc)),
        _ => Err(AnswerFault::Refused(CallError::UnknownMethod)),
    }
}
