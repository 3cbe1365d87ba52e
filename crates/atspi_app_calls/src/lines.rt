//! The lines of the table of members, by interface and name.

ghost use Rattle.std.specs.Prelude.{◌≡◌};
ghost use Rattle.atspi_protocol.specs.members.Interfaces as names;
ghost use Rattle.atspi_protocol.specs.members.Table as table;
ghost use Rattle.atspi_app_calls.specs.inner.Interface.{lines_in, of_interface};
ghost use Rattle.atspi_app_calls.specs.inner.Lines.{line_named, lent_line};

use crate::interface::AppInterface;
use atspi_protocol::members::ObjectMember;

/// A member, and the codes of the types of its arguments.
pub(crate) type Line = (ObjectMember, &'static [u8]);

/// The member of Accessible of this name.
fn of_accessible(name: &str) -> Option<Line>
    ensures { lent_line result ≡ line_named name.now table.accessible_lines }
{
    if name == "GetChildAtIndex" {
        Some((ObjectMember::GetChildAtIndex, b"i".as_slice()))
    } else if name == "GetChildren" {
        Some((ObjectMember::GetChildren, b"".as_slice()))
    } else if name == "GetIndexInParent" {
        Some((ObjectMember::GetIndexInParent, b"".as_slice()))
    } else if name == "GetRelationSet" {
        Some((ObjectMember::GetRelationSet, b"".as_slice()))
    } else if name == "GetRole" {
        Some((ObjectMember::GetRole, b"".as_slice()))
    } else if name == "GetRoleName" {
        Some((ObjectMember::GetRoleName, b"".as_slice()))
    } else if name == "GetLocalizedRoleName" {
        Some((ObjectMember::GetLocalizedRoleName, b"".as_slice()))
    } else if name == "GetState" {
        Some((ObjectMember::GetState, b"".as_slice()))
    } else if name == "GetAttributes" {
        Some((ObjectMember::GetAttributes, b"".as_slice()))
    } else if name == "GetApplication" {
        Some((ObjectMember::GetApplication, b"".as_slice()))
    } else if name == "GetInterfaces" {
        Some((ObjectMember::GetInterfaces, b"".as_slice()))
    } else {
        None
    }
}

/// The member of Application of this name.
fn of_application(name: &str) -> Option<Line>
    ensures { lent_line result ≡ line_named name.now table.application_lines }
{
    if name == "GetLocale" {
        Some((ObjectMember::GetLocale, b"u".as_slice()))
    } else {
        None
    }
}

/// The member of Cache of this name.
fn of_cache(name: &str) -> Option<Line>
    ensures { lent_line result ≡ line_named name.now table.cache_lines }
{
    if name == "GetItems" {
        Some((ObjectMember::GetItems, b"".as_slice()))
    } else {
        None
    }
}

/// The member of Text of this name.
fn of_text(name: &str) -> Option<Line>
    ensures { lent_line result ≡ line_named name.now table.text_lines }
{
    if name == "GetText" {
        Some((ObjectMember::GetText, b"ii".as_slice()))
    } else if name == "SetCaretOffset" {
        Some((ObjectMember::SetCaretOffset, b"i".as_slice()))
    } else if name == "GetCharacterAtOffset" {
        Some((ObjectMember::GetCharacterAtOffset, b"i".as_slice()))
    } else if name == "GetStringAtOffset" {
        Some((ObjectMember::GetStringAtOffset, b"iu".as_slice()))
    } else if name == "GetNSelections" {
        Some((ObjectMember::GetNSelections, b"".as_slice()))
    } else if name == "GetSelection" {
        Some((ObjectMember::GetSelection, b"i".as_slice()))
    } else if name == "AddSelection" {
        Some((ObjectMember::AddSelection, b"ii".as_slice()))
    } else if name == "RemoveSelection" {
        Some((ObjectMember::RemoveSelection, b"i".as_slice()))
    } else if name == "SetSelection" {
        Some((ObjectMember::SetSelection, b"iii".as_slice()))
    } else {
        None
    }
}

/// The member of EditableText of this name.
fn of_editable_text(name: &str) -> Option<Line>
    ensures { lent_line result ≡ line_named name.now table.editable_text_lines }
{
    if name == "SetTextContents" {
        Some((ObjectMember::SetTextContents, b"s".as_slice()))
    } else if name == "InsertText" {
        Some((ObjectMember::InsertText, b"isi".as_slice()))
    } else if name == "DeleteText" {
        Some((ObjectMember::DeleteText, b"ii".as_slice()))
    } else {
        None
    }
}

/// The member of Selection of this name.
fn of_selection(name: &str) -> Option<Line>
    ensures { lent_line result ≡ line_named name.now table.selection_lines }
{
    if name == "GetSelectedChild" {
        Some((ObjectMember::GetSelectedChild, b"i".as_slice()))
    } else if name == "SelectChild" {
        Some((ObjectMember::SelectChild, b"i".as_slice()))
    } else if name == "DeselectChild" {
        Some((ObjectMember::DeselectChild, b"i".as_slice()))
    } else if name == "DeselectSelectedChild" {
        Some((ObjectMember::DeselectSelectedChild, b"i".as_slice()))
    } else if name == "IsChildSelected" {
        Some((ObjectMember::IsChildSelected, b"i".as_slice()))
    } else if name == "SelectAll" {
        Some((ObjectMember::SelectAll, b"".as_slice()))
    } else if name == "ClearSelection" {
        Some((ObjectMember::ClearSelection, b"".as_slice()))
    } else {
        None
    }
}

/// The member of Table of this name.
fn of_table(name: &str) -> Option<Line>
    ensures { lent_line result ≡ line_named name.now table.table_lines }
{
    if name == "GetAccessibleAt" {
        Some((ObjectMember::GetAccessibleAt, b"ii".as_slice()))
    } else if name == "GetIndexAt" {
        Some((ObjectMember::GetIndexAt, b"ii".as_slice()))
    } else if name == "GetRowAtIndex" {
        Some((ObjectMember::GetRowAtIndex, b"i".as_slice()))
    } else if name == "GetColumnAtIndex" {
        Some((ObjectMember::GetColumnAtIndex, b"i".as_slice()))
    } else if name == "GetSelectedRows" {
        Some((ObjectMember::GetSelectedRows, b"".as_slice()))
    } else if name == "IsRowSelected" {
        Some((ObjectMember::IsRowSelected, b"i".as_slice()))
    } else if name == "IsSelected" {
        Some((ObjectMember::IsSelected, b"ii".as_slice()))
    } else {
        None
    }
}

/// The member of Action of this name.
fn of_action(name: &str) -> Option<Line>
    ensures { lent_line result ≡ line_named name.now table.action_lines }
{
    if name == "GetName" {
        Some((ObjectMember::GetName, b"i".as_slice()))
    } else if name == "GetDescription" {
        Some((ObjectMember::GetDescription, b"i".as_slice()))
    } else if name == "GetKeyBinding" {
        Some((ObjectMember::GetKeyBinding, b"i".as_slice()))
    } else if name == "GetActions" {
        Some((ObjectMember::GetActions, b"".as_slice()))
    } else if name == "DoAction" {
        Some((ObjectMember::DoAction, b"i".as_slice()))
    } else {
        None
    }
}

/// The member of Properties of this name.
fn of_properties(name: &str) -> Option<Line>
    ensures { lent_line result ≡ line_named name.now (of_interface names.properties table.common_lines) }
{
    if name == "Get" {
        Some((ObjectMember::Get, b"ss".as_slice()))
    } else if name == "GetAll" {
        Some((ObjectMember::GetAll, b"s".as_slice()))
    } else if name == "Set" {
        Some((ObjectMember::Set, b"ssv".as_slice()))
    } else {
        None
    }
}

/// The member of Peer of this name.
fn of_peer(name: &str) -> Option<Line>
    ensures { lent_line result ≡ line_named name.now (of_interface names.peer table.common_lines) }
{
    if name == "Ping" {
        Some((ObjectMember::Ping, b"".as_slice()))
    } else {
        None
    }
}

/// The member of an interface of this name.
pub(crate) fn line_in(interface: AppInterface, name: &str) -> Option<Line>
    ensures { lent_line result ≡ line_named name.now (lines_in interface) }
{
    match interface {
        AppInterface::Accessible => of_accessible(name),
        AppInterface::Application => of_application(name),
        AppInterface::Cache => of_cache(name),
        AppInterface::Text => of_text(name),
        AppInterface::EditableText => of_editable_text(name),
        AppInterface::Selection => of_selection(name),
        AppInterface::Table => of_table(name),
        AppInterface::Action => of_action(name),
        AppInterface::Properties => of_properties(name),
        AppInterface::Peer => of_peer(name),
    }
}
