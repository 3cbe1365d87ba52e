//! Action.

ghost use Rattle.std.specs.Prelude.{◌≡◌, ◌∷◌, [], pos, negsuc, true, false, codes};
ghost use Rattle.atspi_types.specs.Kinds.{text, structure, kinds_of};
ghost use Rattle.atspi_types.specs.Data.{boolean_data, text_data, structure_data, array_data, items_of};
ghost use Rattle.atspi_protocol.specs.ends.Messages.{returns};
ghost use Rattle.atspi_protocol.specs.objects.Cases.{button, told, steps, one};

use crate::members::ObjectMember;
use atspi_tree_model::Step;

/// The names of actions, and doing one.
pub fn actions()
    ensures name { told button ObjectMember.GetName (one (pos 1)) ≡ returns (text_data (codes "jump") ∷ []) }
    ensures no_name { told button ObjectMember.GetName (one (pos 2)) ≡ returns (text_data [] ∷ []) }
    ensures before { told button ObjectMember.GetName (one (negsuc 0)) ≡ returns (text_data [] ∷ []) }
    ensures description { told button ObjectMember.GetDescription (one (pos 0)) ≡ returns (text_data [] ∷ []) }
    ensures key { told button ObjectMember.GetKeyBinding (one (pos 0)) ≡ returns (text_data [] ∷ []) }
    ensures all { told button ObjectMember.GetActions []
        ≡ returns (array_data (structure (kinds_of (text ∷ text ∷ text ∷ []))) (items_of (
        structure_data (items_of (text_data (codes "toggle") ∷ text_data [] ∷ text_data [] ∷ []))
        ∷ structure_data (items_of (text_data (codes "jump") ∷ text_data [] ∷ text_data [] ∷ [])) ∷ [])) ∷ []) }
    ensures toggles { steps button ObjectMember.DoAction (one (pos 0)) ≡ Step.SetState 12 4 false ∷ [] }
    ensures toggled { told button ObjectMember.DoAction (one (pos 0)) ≡ returns (boolean_data true ∷ []) }
    ensures jumps { steps button ObjectMember.DoAction (one (pos 1)) ≡ [] }
    ensures jumped { told button ObjectMember.DoAction (one (pos 1)) ≡ returns (boolean_data true ∷ []) }
    ensures no_action { told button ObjectMember.DoAction (one (pos 2)) ≡ returns (boolean_data false ∷ []) }
    ensures no_index { told button ObjectMember.DoAction (one (negsuc 0)) ≡ returns (boolean_data false ∷ []) }
{}
