//! Table: two columns and five cells make two rows; the fifth cell is in none.

ghost use Rattle.std.specs.Prelude.{◌≡◌, ◌∷◌, [], pos, negsuc, true, false};
ghost use Rattle.atspi_types.specs.Kinds.{number, i32};
ghost use Rattle.atspi_types.specs.Data.{boolean_data, array_data, items_of};
ghost use Rattle.atspi_protocol.specs.ends.Messages.{returns};
ghost use Rattle.atspi_protocol.specs.members.Arguments.{int};
ghost use Rattle.atspi_protocol.specs.objects.Cases.{grid, told, to, to_none, one, two};

use crate::members::ObjectMember;

/// Cells by row and column.
pub fn cells()
    ensures cell { told grid ObjectMember.GetAccessibleAt (two (pos 1) (pos 1)) ≡ returns (to 10 ∷ []) }
    ensures first { told grid ObjectMember.GetAccessibleAt (two (pos 0) (pos 0)) ≡ returns (to 7 ∷ []) }
    ensures no_row { told grid ObjectMember.GetAccessibleAt (two (pos 2) (pos 0)) ≡ returns (to_none ∷ []) }
    ensures no_column { told grid ObjectMember.GetAccessibleAt (two (pos 0) (pos 2)) ≡ returns (to_none ∷ []) }
    ensures before { told grid ObjectMember.GetAccessibleAt (two (negsuc 0) (pos 0)) ≡ returns (to_none ∷ []) }
    ensures before_column { told grid ObjectMember.GetAccessibleAt (two (pos 0) (negsuc 0)) ≡ returns (to_none ∷ []) }
    ensures index { told grid ObjectMember.GetIndexAt (two (pos 1) (pos 0)) ≡ returns (int (pos 2) ∷ []) }
    ensures no_index { told grid ObjectMember.GetIndexAt (two (pos 2) (pos 0)) ≡ returns (int (negsuc 0) ∷ []) }
    ensures row { told grid ObjectMember.GetRowAtIndex (one (pos 3)) ≡ returns (int (pos 1) ∷ []) }
    ensures column { told grid ObjectMember.GetColumnAtIndex (one (pos 2)) ≡ returns (int (pos 0) ∷ []) }
    ensures last_column { told grid ObjectMember.GetColumnAtIndex (one (pos 3)) ≡ returns (int (pos 1) ∷ []) }
    ensures in_no_row { told grid ObjectMember.GetRowAtIndex (one (pos 4)) ≡ returns (int (negsuc 0) ∷ []) }
    ensures in_no_column { told grid ObjectMember.GetColumnAtIndex (one (negsuc 0)) ≡ returns (int (negsuc 0) ∷ []) }
{}

/// A row is selected where all its cells are.
pub fn selected()
    ensures rows { told grid ObjectMember.GetSelectedRows []
        ≡ returns (array_data (number i32) (items_of (int (pos 0) ∷ [])) ∷ []) }
    ensures row { told grid ObjectMember.IsRowSelected (one (pos 0)) ≡ returns (boolean_data true ∷ []) }
    ensures half { told grid ObjectMember.IsRowSelected (one (pos 1)) ≡ returns (boolean_data false ∷ []) }
    ensures no_row { told grid ObjectMember.IsRowSelected (one (pos 2)) ≡ returns (boolean_data false ∷ []) }
    ensures before { told grid ObjectMember.IsRowSelected (one (negsuc 0)) ≡ returns (boolean_data false ∷ []) }
    ensures cell { told grid ObjectMember.IsSelected (two (pos 1) (pos 0)) ≡ returns (boolean_data true ∷ []) }
    ensures other_cell { told grid ObjectMember.IsSelected (two (pos 1) (pos 1)) ≡ returns (boolean_data false ∷ []) }
    ensures no_cell { told grid ObjectMember.IsSelected (two (pos 2) (pos 0)) ≡ returns (boolean_data false ∷ []) }
{}
