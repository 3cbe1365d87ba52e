//! Each line of the table of members: a call of it with what it takes.

ghost use Rattle.std.specs.Prelude.{◌≡◌, ◌∷◌, [], pos, true, Ok, codes};
ghost use Rattle.atspi_types.specs.Kinds.{u32, boolean};
ghost use Rattle.atspi_types.specs.Data.{number_data, boolean_data, text_data, variant_data};
ghost use Rattle.atspi_protocol.specs.members.Interfaces.{accessible, application, cache, text, editable_text};
ghost use Rattle.atspi_protocol.specs.members.Interfaces.{selection, table, action, registry, socket, properties, peer};
ghost use Rattle.atspi_protocol.specs.members.Arguments.{int};
ghost use Rattle.atspi_protocol.specs.members.Cases.{meant, one_int, two_ints, three_ints, one_text, two_texts};
ghost use Rattle.atspi_protocol.specs.members.Cases.{reference};

use crate::members::ObjectMember;

/// Accessible, that every node has.
pub fn of_accessible()
    ensures get_child_at_index { meant accessible (codes "GetChildAtIndex") one_int ≡ Ok ObjectMember.GetChildAtIndex }
    ensures get_children { meant accessible (codes "GetChildren") [] ≡ Ok ObjectMember.GetChildren }
    ensures get_index_in_parent { meant accessible (codes "GetIndexInParent") [] ≡ Ok ObjectMember.GetIndexInParent }
    ensures get_relation_set { meant accessible (codes "GetRelationSet") [] ≡ Ok ObjectMember.GetRelationSet }
    ensures get_role { meant accessible (codes "GetRole") [] ≡ Ok ObjectMember.GetRole }
    ensures get_role_name { meant accessible (codes "GetRoleName") [] ≡ Ok ObjectMember.GetRoleName }
    ensures get_localized_role_name { meant accessible (codes "GetLocalizedRoleName") []
        ≡ Ok ObjectMember.GetLocalizedRoleName }
    ensures get_state { meant accessible (codes "GetState") [] ≡ Ok ObjectMember.GetState }
    ensures get_attributes { meant accessible (codes "GetAttributes") [] ≡ Ok ObjectMember.GetAttributes }
    ensures get_application { meant accessible (codes "GetApplication") [] ≡ Ok ObjectMember.GetApplication }
    ensures get_interfaces { meant accessible (codes "GetInterfaces") [] ≡ Ok ObjectMember.GetInterfaces }
{}

/// Application, of the root alone, and Cache, of the object that tells all items.
pub fn of_application()
    ensures get_locale { meant application (codes "GetLocale") (number_data u32 0 ∷ []) ≡ Ok ObjectMember.GetLocale }
    ensures get_items { meant cache (codes "GetItems") [] ≡ Ok ObjectMember.GetItems }
{}

/// Text.
pub fn of_text()
    ensures get_text { meant text (codes "GetText") two_ints ≡ Ok ObjectMember.GetText }
    ensures set_caret_offset { meant text (codes "SetCaretOffset") one_int ≡ Ok ObjectMember.SetCaretOffset }
    ensures get_character_at_offset { meant text (codes "GetCharacterAtOffset") one_int
        ≡ Ok ObjectMember.GetCharacterAtOffset }
    ensures get_string_at_offset { meant text (codes "GetStringAtOffset") (int (pos 0) ∷ number_data u32 1 ∷ [])
        ≡ Ok ObjectMember.GetStringAtOffset }
    ensures get_n_selections { meant text (codes "GetNSelections") [] ≡ Ok ObjectMember.GetNSelections }
    ensures get_selection { meant text (codes "GetSelection") one_int ≡ Ok ObjectMember.GetSelection }
    ensures add_selection { meant text (codes "AddSelection") two_ints ≡ Ok ObjectMember.AddSelection }
    ensures remove_selection { meant text (codes "RemoveSelection") one_int ≡ Ok ObjectMember.RemoveSelection }
    ensures set_selection { meant text (codes "SetSelection") three_ints ≡ Ok ObjectMember.SetSelection }
{}

/// EditableText.
pub fn of_editable_text()
    ensures set_text_contents { meant editable_text (codes "SetTextContents") (one_text (codes "a"))
        ≡ Ok ObjectMember.SetTextContents }
    ensures insert_text { meant editable_text (codes "InsertText") (int (pos 0) ∷ text_data (codes "a") ∷ one_int)
        ≡ Ok ObjectMember.InsertText }
    ensures delete_text { meant editable_text (codes "DeleteText") two_ints ≡ Ok ObjectMember.DeleteText }
{}

/// Selection.
pub fn of_selection()
    ensures get_selected_child { meant selection (codes "GetSelectedChild") one_int ≡ Ok ObjectMember.GetSelectedChild }
    ensures select_child { meant selection (codes "SelectChild") one_int ≡ Ok ObjectMember.SelectChild }
    ensures deselect_child { meant selection (codes "DeselectChild") one_int ≡ Ok ObjectMember.DeselectChild }
    ensures deselect_selected_child { meant selection (codes "DeselectSelectedChild") one_int
        ≡ Ok ObjectMember.DeselectSelectedChild }
    ensures is_child_selected { meant selection (codes "IsChildSelected") one_int ≡ Ok ObjectMember.IsChildSelected }
    ensures select_all { meant selection (codes "SelectAll") [] ≡ Ok ObjectMember.SelectAll }
    ensures clear_selection { meant selection (codes "ClearSelection") [] ≡ Ok ObjectMember.ClearSelection }
{}

/// Table.
pub fn of_table()
    ensures get_accessible_at { meant table (codes "GetAccessibleAt") two_ints ≡ Ok ObjectMember.GetAccessibleAt }
    ensures get_index_at { meant table (codes "GetIndexAt") two_ints ≡ Ok ObjectMember.GetIndexAt }
    ensures get_row_at_index { meant table (codes "GetRowAtIndex") one_int ≡ Ok ObjectMember.GetRowAtIndex }
    ensures get_column_at_index { meant table (codes "GetColumnAtIndex") one_int ≡ Ok ObjectMember.GetColumnAtIndex }
    ensures get_selected_rows { meant table (codes "GetSelectedRows") [] ≡ Ok ObjectMember.GetSelectedRows }
    ensures is_row_selected { meant table (codes "IsRowSelected") one_int ≡ Ok ObjectMember.IsRowSelected }
    ensures is_selected { meant table (codes "IsSelected") two_ints ≡ Ok ObjectMember.IsSelected }
{}

/// Action.
pub fn of_action()
    ensures get_name { meant action (codes "GetName") one_int ≡ Ok ObjectMember.GetName }
    ensures get_description { meant action (codes "GetDescription") one_int ≡ Ok ObjectMember.GetDescription }
    ensures get_key_binding { meant action (codes "GetKeyBinding") one_int ≡ Ok ObjectMember.GetKeyBinding }
    ensures get_actions { meant action (codes "GetActions") [] ≡ Ok ObjectMember.GetActions }
    ensures do_action { meant action (codes "DoAction") one_int ≡ Ok ObjectMember.DoAction }
{}

/// Registry and Socket, of the registry alone. What follows the pattern of RegisterEvent does not matter.
pub fn of_registry()
    ensures register_event { meant registry (codes "RegisterEvent") (one_text []) ≡ Ok ObjectMember.RegisterEvent }
    ensures deregister_event { meant registry (codes "DeregisterEvent") (one_text [])
        ≡ Ok ObjectMember.DeregisterEvent }
    ensures get_registered_events { meant registry (codes "GetRegisteredEvents") []
        ≡ Ok ObjectMember.GetRegisteredEvents }
    ensures embed { meant socket (codes "Embed") (reference (codes ":1.1") (codes "/a")) ≡ Ok ObjectMember.Embed }
    ensures unembed { meant socket (codes "Unembed") (reference (codes ":1.1") (codes "/a")) ≡ Ok ObjectMember.Unembed }
    ensures with_more { meant registry (codes "RegisterEvent") (text_data [] ∷ number_data u32 0 ∷ [])
        ≡ Ok ObjectMember.RegisterEvent }
{}

/// Properties and Peer, that every object has.
pub fn of_properties()
    ensures get { meant properties (codes "Get") (two_texts [] []) ≡ Ok ObjectMember.Get }
    ensures get_all { meant properties (codes "GetAll") (one_text []) ≡ Ok ObjectMember.GetAll }
    ensures set { meant properties (codes "Set")
        (text_data [] ∷ text_data [] ∷ variant_data boolean (boolean_data true) ∷ []) ≡ Ok ObjectMember.Set }
    ensures ping { meant peer (codes "Ping") [] ≡ Ok ObjectMember.Ping }
{}
