//! Accessible and Application.

ghost use Rattle.std.specs.Prelude.{◌≡◌, ◌∷◌, [], pos, negsuc, codes};
ghost use Rattle.atspi_types.specs.Kinds.{number, u32, text, array, structure, kinds_of};
ghost use Rattle.atspi_types.specs.Data.{number_data, text_data, structure_data, array_data, dictionary_data, items_of};
ghost use Rattle.atspi_types.specs.Data.{entries_of};
ghost use Rattle.atspi_protocol.specs.ends.Places.{reference_kind};
ghost use Rattle.atspi_protocol.specs.ends.Messages.{returns};
ghost use Rattle.atspi_protocol.specs.members.Arguments.{int};
ghost use Rattle.atspi_protocol.specs.objects.Values.{texts_data};
ghost use Rattle.atspi_protocol.specs.objects.Cases.{root, list, entry, grid, button, bare, told, steps, to, to_none};
ghost use Rattle.atspi_protocol.specs.objects.Cases.{to_all, one};

use crate::members::ObjectMember;

/// Where a node stands, and what is below it.
pub fn places()
    ensures child { told list ObjectMember.GetChildAtIndex (one (pos 1)) ≡ returns (to 3 ∷ []) }
    ensures first_child { told list ObjectMember.GetChildAtIndex (one (pos 0)) ≡ returns (to 2 ∷ []) }
    ensures behind { told list ObjectMember.GetChildAtIndex (one (pos 3)) ≡ returns (to_none ∷ []) }
    ensures before { told list ObjectMember.GetChildAtIndex (one (negsuc 0)) ≡ returns (to_none ∷ []) }
    ensures childless { told entry ObjectMember.GetChildAtIndex (one (pos 0)) ≡ returns (to_none ∷ []) }
    ensures children { told list ObjectMember.GetChildren [] ≡ returns (to_all (2 ∷ 3 ∷ 4 ∷ []) ∷ []) }
    ensures no_children { told entry ObjectMember.GetChildren [] ≡ returns (to_all [] ∷ []) }
    ensures index { told grid ObjectMember.GetIndexInParent [] ≡ returns (int (pos 2) ∷ []) }
    ensures deep_index { told (bare 10 0) ObjectMember.GetIndexInParent [] ≡ returns (int (pos 3) ∷ []) }
    ensures root_index { told root ObjectMember.GetIndexInParent [] ≡ returns (int (negsuc 0) ∷ []) }
    ensures application { told entry ObjectMember.GetApplication [] ≡ returns (to 0 ∷ []) }
{}

/// What a node is.
#[tactic(auto, unfolding(atspi_tables::specs::Roles::role_names))]
pub fn kinds()
    ensures role { told entry ObjectMember.GetRole [] ≡ returns (number_data u32 79 ∷ []) }
    ensures role_name { told grid ObjectMember.GetRoleName [] ≡ returns (text_data (codes "table") ∷ []) }
    ensures unknown { told button ObjectMember.GetRoleName [] ≡ returns (text_data (codes "unknown") ∷ []) }
    ensures localized { told root ObjectMember.GetLocalizedRoleName []
        ≡ returns (text_data (codes "application") ∷ []) }
    ensures states { told entry ObjectMember.GetState []
        ≡ returns (array_data (number u32) (items_of (number_data u32 4096 ∷ number_data u32 1 ∷ [])) ∷ []) }
    ensures new_states { told root ObjectMember.GetState []
        ≡ returns (array_data (number u32) (items_of (number_data u32 1124073728 ∷ number_data u32 0 ∷ [])) ∷ []) }
    ensures attributes { told entry ObjectMember.GetAttributes []
        ≡ returns (dictionary_data text text (entries_of []) ∷ []) }
    ensures interfaces { told entry ObjectMember.GetInterfaces []
        ≡ returns
        (texts_data
        (codes "org.a11y.atspi.Accessible" ∷ codes "org.a11y.atspi.Text"
        ∷ codes "org.a11y.atspi.EditableText" ∷ []) ∷ []) }
    ensures root_interfaces { told root ObjectMember.GetInterfaces []
        ≡ returns (texts_data (codes "org.a11y.atspi.Accessible" ∷ codes "org.a11y.atspi.Application" ∷ []) ∷ []) }
    ensures locale { told root ObjectMember.GetLocale (number_data u32 0 ∷ []) ≡ returns (text_data (codes "C") ∷ []) }
    ensures ping { told entry ObjectMember.Ping [] ≡ returns [] }
    ensures no_step { steps entry ObjectMember.GetState [] ≡ [] }
{}

/// Relations: kinds rising, each with its targets in order.
pub fn relations()
    ensures some { told entry ObjectMember.GetRelationSet []
        ≡ returns (array_data (structure (kinds_of (number u32 ∷ array reference_kind ∷ []))) (items_of (
        structure_data (items_of (number_data u32 2 ∷ to_all (1 ∷ 6 ∷ []) ∷ []))
        ∷ structure_data (items_of (number_data u32 5 ∷ to_all (0 ∷ []) ∷ [])) ∷ [])) ∷ []) }
    ensures none { told list ObjectMember.GetRelationSet []
        ≡ returns (array_data (structure (kinds_of (number u32 ∷ array reference_kind ∷ []))) (items_of []) ∷ []) }
{}
