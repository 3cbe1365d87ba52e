//! Selection.

ghost use Rattle.std.specs.Prelude.{◌≡◌, ◌∷◌, [], pos, negsuc, true, false};
ghost use Rattle.atspi_types.specs.Data.{boolean_data};
ghost use Rattle.atspi_protocol.specs.ends.Messages.{returns};
ghost use Rattle.atspi_protocol.specs.objects.Cases.{list, wide_list, told, steps, to, to_none, one};

use crate::members::ObjectMember;
use atspi_tree_model::Step;

/// Which children are selected.
pub fn read()
    ensures first { told list ObjectMember.GetSelectedChild (one (pos 0)) ≡ returns (to 2 ∷ []) }
    ensures second { told list ObjectMember.GetSelectedChild (one (pos 1)) ≡ returns (to 4 ∷ []) }
    ensures none { told list ObjectMember.GetSelectedChild (one (pos 2)) ≡ returns (to_none ∷ []) }
    ensures before { told list ObjectMember.GetSelectedChild (one (negsuc 0)) ≡ returns (to_none ∷ []) }
    ensures is { told list ObjectMember.IsChildSelected (one (pos 2)) ≡ returns (boolean_data true ∷ []) }
    ensures is_not { told list ObjectMember.IsChildSelected (one (pos 1)) ≡ returns (boolean_data false ∷ []) }
    ensures no_child { told list ObjectMember.IsChildSelected (one (pos 3)) ≡ returns (boolean_data false ∷ []) }
    ensures no_index { told list ObjectMember.IsChildSelected (one (negsuc 0)) ≡ returns (boolean_data false ∷ []) }
{}

/// A child is selected, beside others only where many can be.
pub fn selected()
    ensures alone { steps list ObjectMember.SelectChild (one (pos 1))
        ≡ Step.SetState 2 23 false ∷ Step.SetState 4 23 false ∷ Step.SetState 3 23 true ∷ [] }
    ensures beside { steps wide_list ObjectMember.SelectChild (one (pos 1)) ≡ Step.SetState 15 23 true ∷ [] }
    ensures again { told wide_list ObjectMember.SelectChild (one (pos 0)) ≡ returns (boolean_data true ∷ []) }
    ensures no_child { told list ObjectMember.SelectChild (one (pos 3)) ≡ returns (boolean_data false ∷ []) }
    ensures no_index { told list ObjectMember.SelectChild (one (negsuc 0)) ≡ returns (boolean_data false ∷ []) }
    ensures all { steps wide_list ObjectMember.SelectAll [] ≡ Step.SetState 15 23 true ∷ Step.SetState 16 23 true ∷ [] }
    ensures all_told { told wide_list ObjectMember.SelectAll [] ≡ returns (boolean_data true ∷ []) }
    ensures not_all { told list ObjectMember.SelectAll [] ≡ returns (boolean_data false ∷ []) }
    ensures no_steps { steps list ObjectMember.SelectAll [] ≡ [] }
{}

/// A child is selected no more: by its index, by its index among those that are, or with all others.
pub fn deselected()
    ensures child { steps list ObjectMember.DeselectChild (one (pos 2)) ≡ Step.SetState 4 23 false ∷ [] }
    ensures not_selected { steps list ObjectMember.DeselectChild (one (pos 1)) ≡ [] }
    ensures not_selected_told { told list ObjectMember.DeselectChild (one (pos 1)) ≡ returns (boolean_data true ∷ []) }
    ensures no_child { told list ObjectMember.DeselectChild (one (pos 3)) ≡ returns (boolean_data false ∷ []) }
    ensures among { steps list ObjectMember.DeselectSelectedChild (one (pos 1)) ≡ Step.SetState 4 23 false ∷ [] }
    ensures among_told { told list ObjectMember.DeselectSelectedChild (one (pos 1)) ≡ returns (boolean_data true ∷ []) }
    ensures none_among { told list ObjectMember.DeselectSelectedChild (one (pos 2))
        ≡ returns (boolean_data false ∷ []) }
    ensures before { told list ObjectMember.DeselectSelectedChild (one (negsuc 0)) ≡ returns (boolean_data false ∷ []) }
    ensures cleared { steps list ObjectMember.ClearSelection []
        ≡ Step.SetState 2 23 false ∷ Step.SetState 4 23 false ∷ [] }
    ensures cleared_told { told list ObjectMember.ClearSelection [] ≡ returns (boolean_data true ∷ []) }
{}
