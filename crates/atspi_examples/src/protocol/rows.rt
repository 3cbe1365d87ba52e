//! Children of the root, the parent of a node whose index is another number, and a table of one column.

ghost use Rattle.std.specs.Prelude.{◌≡◌, ◌∷◌, [], pos, negsuc, true, false};
ghost use Rattle.atspi_types.specs.Kinds.{i32, number};
ghost use Rattle.atspi_types.specs.Data.{array_data, boolean_data, items_of};
ghost use Rattle.atspi_protocol.specs.declared.members.member.ObjectMember.TheVariants.{GetChildren, GetColumnAtIndex};
ghost use Rattle.atspi_protocol.specs.declared.members.member.ObjectMember.TheVariants.{GetIndexAt, GetIndexInParent};
ghost use Rattle.atspi_protocol.specs.declared.members.member.ObjectMember.TheVariants.{GetRowAtIndex, GetSelectedRows};
ghost use Rattle.atspi_protocol.specs.declared.members.member.ObjectMember.TheVariants.{IsRowSelected, IsSelected};
ghost use Rattle.atspi_protocol.specs.declared.members.property.ObjectProperty.TheVariants.{ChildCount, NRows, Parent};
ghost use Rattle.atspi_protocol.specs.ends.Messages.{returns};
ghost use Rattle.atspi_protocol.specs.members.Arguments.{int};
ghost use Rattle.atspi_protocol.specs.objects.Cases as cases;
ghost use Rattle.atspi_protocol.specs.objects.Cases.{bare, one, root, to, to_all, told, two};
ghost use Rattle.atspi_examples.specs.protocol.Lists.{narrow};

/// Node 4 is the third child of node 1; of the root the children alone are told, and not what is below them.
pub fn below_the_root()
    ensures parent { cases.value (bare 4 0) Parent ≡ to 1 }
    ensures index { told (bare 4 0) GetIndexInParent [] ≡ returns (int (pos 2) ∷ []) }
    ensures children { told root GetChildren [] ≡ returns (to_all (1 ∷ 5 ∷ 6 ∷ 12 ∷ 13 ∷ []) ∷ []) }
    ensures count { cases.value root ChildCount ≡ int (pos 5) }
{}

/// Where each cell is a row, the row behind the last is none, though none of its cells lacks; nor is a cell behind the
/// last in a row.
pub fn one_column()
    ensures rows { cases.value narrow NRows ≡ int (pos 5) }
    ensures index { told narrow GetIndexAt (two (pos 4) (pos 0)) ≡ returns (int (pos 4) ∷ []) }
    ensures last_row { told narrow GetRowAtIndex (one (pos 4)) ≡ returns (int (pos 4) ∷ []) }
    ensures last_column { told narrow GetColumnAtIndex (one (pos 4)) ≡ returns (int (pos 0) ∷ []) }
    ensures behind { told narrow GetRowAtIndex (one (pos 5)) ≡ returns (int (negsuc 0) ∷ []) }
    ensures selected { told narrow IsRowSelected (one (pos 2)) ≡ returns (boolean_data true ∷ []) }
    ensures not_selected { told narrow IsRowSelected (one (pos 3)) ≡ returns (boolean_data false ∷ []) }
    ensures row_behind { told narrow IsRowSelected (one (pos 5)) ≡ returns (boolean_data false ∷ []) }
    ensures all { told narrow GetSelectedRows []
        ≡ returns (array_data (number i32) (items_of (int (pos 0) ∷ int (pos 1) ∷ int (pos 2) ∷ [])) ∷ []) }
    ensures cell { told narrow IsSelected (two (pos 2) (pos 0)) ≡ returns (boolean_data true ∷ []) }
{}
