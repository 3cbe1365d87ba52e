//! The view of a list of items, whatever a stranger puts into it.

ghost use Rattle.std.specs.Prelude.{◌≡◌, ◌∷◌, [], pos, negsuc, codes, true, false};
ghost use Rattle.atspi_tree_model.specs.Forest.{nil, tree};
ghost use Rattle.atspi_tree_model.specs.News.{at_most, load};
ghost use Rattle.atspi_examples.specs.Seen.{bus, other_bus, path, row, object, item, renewed_by_item, at_root, below};
ghost use Rattle.atspi_examples.specs.Seen.{loaded};

use atspi_tree_model::{NumPart, Part};

/// Signed numbers in order.
pub fn indexes()
    ensures negative { at_most (negsuc 1) (negsuc 0) ≡ true }
    ensures negative_back { at_most (negsuc 0) (negsuc 1) ≡ false }
    ensures negative_same { at_most (negsuc 1) (negsuc 1) ≡ true }
    ensures across { at_most (negsuc 0) (pos 0) ≡ true }
    ensures across_back { at_most (pos 0) (negsuc 0) ≡ false }
    ensures positive { at_most (pos 1) (pos 2) ≡ true }
    ensures positive_back { at_most (pos 2) (pos 1) ≡ false }
    ensures positive_same { at_most (pos 1) (pos 1) ≡ true }
{}

/// Children stand by their index, and of one index by their order in the list.
pub fn order()
    ensures chain { loaded (item 4 3 (pos 0) ∷ item 3 1 (pos 0) ∷ item 1 0 (pos 0) ∷ item 0 9 (negsuc 0) ∷ [])
        ≡ at_root ∷ below 0 0 1 ∷ below 1 0 3 ∷ below 3 0 4 ∷ [] }
    ensures indexes { loaded (item 0 9 (negsuc 0) ∷ item 3 0 (pos 5) ∷ item 2 0 (pos 4) ∷ item 1 0 (negsuc 0) ∷ [])
        ≡ at_root ∷ below 0 0 1 ∷ below 0 1 2 ∷ below 0 2 3 ∷ [] }
    ensures ties { loaded (item 0 9 (negsuc 0) ∷ item 3 0 (pos 5) ∷ item 2 0 (pos 5) ∷ item 1 0 (pos 5) ∷ [])
        ≡ at_root ∷ below 0 0 3 ∷ below 0 1 2 ∷ below 0 2 1 ∷ [] }
{}

/// The first item of an object counts; those of other applications, and those that the root does not reach, are left
/// out.
pub fn left_out()
    ensures second { loaded (item 0 9 (negsuc 0) ∷ item 1 0 (pos 0) ∷ item 2 0 (pos 1) ∷ item 1 2 (pos 0) ∷ [])
        ≡ at_root ∷ below 0 0 1 ∷ below 0 1 2 ∷ [] }
    ensures foreign { loaded
        (item 0 9 (negsuc 0) ∷ record (item 1 0 (pos 0)) { object = object other_bus 1 } ∷ item 2 0 (pos 0)
        ∷ item 1 2 (pos 0) ∷ []) ≡ at_root ∷ below 0 0 2 ∷ below 2 0 1 ∷ [] }
    ensures foreign_parent { loaded
        (item 0 9 (negsuc 0) ∷ record (item 1 0 (pos 0)) { parent = object other_bus 0 } ∷ []) ≡ at_root ∷ [] }
    ensures unreached { loaded
        (item 0 9 (negsuc 0) ∷ item 3 4 (pos 0) ∷ item 4 3 (pos 0) ∷ item 5 5 (pos 0) ∷ item 6 8 (pos 0) ∷ [])
        ≡ at_root ∷ [] }
    ensures no_root { loaded (item 1 0 (pos 0) ∷ []) ≡ [] }
    ensures root_below { loaded (item 0 1 (pos 0) ∷ item 1 0 (pos 0) ∷ []) ≡ at_root ∷ below 0 0 1 ∷ [] }
    ensures root_of_itself { loaded (item 0 0 (pos 0) ∷ []) ≡ at_root ∷ [] }
{}

/// A row has the fields of its item; its parts are unknown where the interfaces name them.
pub fn rows()
    ensures row { load (path 0) bus (item 0 9 (negsuc 0) ∷ []) ≡ tree (renewed_by_item (row 0)) nil nil }
    ensures parts { load (path 0) bus
        (record (item 0 9 (negsuc 0)) { interfaces = codes "org.a11y.atspi.Text" ∷ [] } ∷ [])
        ≡ tree (record (renewed_by_item (row 0)) { faces = 1; text = Part.Unknown; caret = NumPart.Unknown }) nil nil }
    ensures columns { load (path 0) bus
        (record (item 0 9 (negsuc 0)) { interfaces = codes "org.a11y.atspi.Table" ∷ [] } ∷ [])
        ≡ tree (record (renewed_by_item (row 0)) { faces = 8; columns = NumPart.Unknown }) nil nil }
{}
