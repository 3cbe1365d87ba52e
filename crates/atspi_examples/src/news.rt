//! What each news makes of a view of four nodes: 1 and 2 stand below the root, and 3 below 1. Of 1 all parts are known,
//! of 2 none, and the others have no parts.

ghost use Rattle.std.specs.Prelude.{◌≡◌, ◌∷◌, [], pos, negsuc, codes, true, false};
ghost use Rattle.atspi_tree_model.specs.Forest.{nil, tree};
ghost use Rattle.atspi_tree_model.specs.News.{effect, is_seat_at, seat_in, marks_reload, kinds_of};
ghost use Rattle.atspi_tree_model.specs.Announce.{Idle};
ghost use Rattle.atspi_examples.specs.Room.{no_kinds, told_all};
ghost use Rattle.atspi_examples.specs.Seen.{bus, other_bus, path, row, known_row, unknown_row, with_rows, seen, seen_1};
ghost use Rattle.atspi_examples.specs.Seen.{seen_2, hear, object, item, renewed_by_item, places, at_root, below};
ghost use Rattle.atspi_examples.specs.Seen.{told_again, told_by, told_nothing};

use atspi_tree_model::{News, NumPart, Part};

/// A row of another name, description, role or state.
pub fn words()
    ensures name { hear (News.Name (path 1) (codes "x")) ≡ seen_1 (record known_row { name = codes "x" }) }
    ensures description { hear (News.Description (path 1) (codes "x"))
        ≡ seen_1 (record known_row { description = codes "x" }) }
    ensures role { hear (News.Role (path 1) 7) ≡ seen_1 (record known_row { role = 7 }) }
    ensures on { hear (News.State (path 1) 3 true) ≡ seen_1 (record known_row { states = 8 }) }
    ensures off { effect (path 0) bus (hear (News.State (path 1) 3 true)) (News.State (path 1) 3 false) ≡ seen }
    ensures unknown { hear (News.Name (path 8) (codes "x")) ≡ seen }
    ensures nothing { hear News.Nothing ≡ seen }
{}

/// A known text changes where the range is in it; a deletion goes by its length, not by its text. A text that is not
/// known stays so.
pub fn texts()
    ensures insert { hear (News.Inserted (path 1) (pos 1) (codes "xy"))
        ≡ seen_1 (record known_row { text = Part.Known (codes "axybc") }) }
    ensures insert_last { hear (News.Inserted (path 1) (pos 3) (codes "x"))
        ≡ seen_1 (record known_row { text = Part.Known (codes "abcx") }) }
    ensures insert_behind { hear (News.Inserted (path 1) (pos 4) (codes "x")) ≡ seen }
    ensures insert_negative { hear (News.Inserted (path 1) (negsuc 0) (codes "x")) ≡ seen }
    ensures insert_unknown { hear (News.Inserted (path 2) (pos 0) (codes "x")) ≡ seen }
    ensures insert_absent { hear (News.Inserted (path 3) (pos 0) (codes "x")) ≡ seen }
    ensures delete { hear (News.Deleted (path 1) (pos 1) (pos 1) (codes "xyz"))
        ≡ seen_1 (record known_row { text = Part.Known (codes "ac") }) }
    ensures delete_all { hear (News.Deleted (path 1) (pos 0) (pos 3) [])
        ≡ seen_1 (record known_row { text = Part.Known [] }) }
    ensures delete_partly { hear (News.Deleted (path 1) (pos 2) (pos 2) (codes "c")) ≡ seen }
    ensures delete_negative { hear (News.Deleted (path 1) (negsuc 0) (pos 1) (codes "a")) ≡ seen }
    ensures delete_so_few { hear (News.Deleted (path 1) (pos 1) (negsuc 0) (codes "b")) ≡ seen }
{}

/// A caret that is known goes elsewhere; a negative one says nothing.
pub fn carets()
    ensures known { hear (News.Caret (path 1) (pos 2)) ≡ seen_1 (record known_row { caret = NumPart.Known 2 }) }
    ensures negative { hear (News.Caret (path 1) (negsuc 0)) ≡ seen }
    ensures unknown { hear (News.Caret (path 2) (pos 2)) ≡ seen }
    ensures absent { hear (News.Caret (path 3) (pos 2)) ≡ seen }
{}

/// The answer to a reader's call makes a part known, also where it was; a node without the part has none still.
pub fn answers()
    ensures text { hear (News.TextIs (path 2) (codes "x"))
        ≡ seen_2 (record unknown_row { text = Part.Known (codes "x") }) }
    ensures text_again { hear (News.TextIs (path 1) (codes "x"))
        ≡ seen_1 (record known_row { text = Part.Known (codes "x") }) }
    ensures no_text { hear (News.TextIs (path 3) (codes "x")) ≡ seen }
    ensures caret { hear (News.CaretIs (path 2) (pos 5)) ≡ seen_2 (record unknown_row { caret = NumPart.Known 5 }) }
    ensures caret_again { hear (News.CaretIs (path 1) (pos 5)) ≡ seen_1 (record known_row { caret = NumPart.Known 5 }) }
    ensures no_caret { hear (News.CaretIs (path 3) (pos 5)) ≡ seen }
    ensures negative_caret { hear (News.CaretIs (path 2) (negsuc 0)) ≡ seen }
    ensures columns { hear (News.ColumnsIs (path 2) (pos 5))
        ≡ seen_2 (record unknown_row { columns = NumPart.Known 5 }) }
    ensures columns_again { hear (News.ColumnsIs (path 1) (pos 5))
        ≡ seen_1 (record known_row { columns = NumPart.Known 5 }) }
    ensures no_columns { hear (News.ColumnsIs (path 3) (pos 5)) ≡ seen }
    ensures negative_columns { hear (News.ColumnsIs (path 2) (negsuc 0)) ≡ seen }
{}

/// What a reader was told after a news: the part that was answered, of that path alone. A negative number tells
/// nothing.
pub fn told()
    ensures text { told_by (News.TextIs (path 1) []) 1 ≡ record (told_nothing []) { text = true } }
    ensures text_of_other { told_by (News.TextIs (path 1) []) 2 ≡ told_nothing [] }
    ensures caret { told_by (News.CaretIs (path 1) (pos 0)) 1 ≡ record (told_nothing []) { caret = true } }
    ensures caret_of_other { told_by (News.CaretIs (path 1) (pos 0)) 2 ≡ told_nothing [] }
    ensures no_caret { told_by (News.CaretIs (path 1) (negsuc 0)) 1 ≡ told_nothing [] }
    ensures columns { told_by (News.ColumnsIs (path 1) (pos 0)) 1 ≡ record (told_nothing []) { columns = true } }
    ensures columns_of_other { told_by (News.ColumnsIs (path 1) (pos 0)) 2 ≡ told_nothing [] }
    ensures no_columns { told_by (News.ColumnsIs (path 1) (negsuc 0)) 1 ≡ told_nothing [] }
    ensures moved_caret { told_by (News.Caret (path 1) (pos 0)) 1 ≡ told_nothing [] }
{}

/// What was told of a path before stays so, of the news' own path too.
pub fn told_before()
    ensures text { told_again (News.TextIs (path 1) []) 1 ≡ told_all [] }
    ensures text_of_other { told_again (News.TextIs (path 2) []) 1 ≡ told_all [] }
    ensures caret { told_again (News.CaretIs (path 1) (pos 0)) 1 ≡ told_all [] }
    ensures caret_of_other { told_again (News.CaretIs (path 2) (pos 0)) 1 ≡ told_all [] }
    ensures columns { told_again (News.ColumnsIs (path 1) (pos 0)) 1 ≡ told_all [] }
    ensures columns_of_other { told_again (News.ColumnsIs (path 2) (pos 0)) 1 ≡ told_all [] }
    ensures nothing { told_again News.Nothing 1 ≡ told_all [] }
    ensures nothing_of_other { told_again News.Nothing 2 ≡ told_nothing [] }
{}

/// A node that is gone takes with it what is below it; the root stays.
pub fn removals()
    ensures removed { places (hear (News.Removed (path 1))) ≡ at_root ∷ below 0 0 2 ∷ [] }
    ensures root { hear (News.Removed (path 0)) ≡ seen }
    ensures unknown { hear (News.Removed (path 8)) ≡ seen }
    ensures child { places (hear (News.ChildRemoved (path 0) (pos 0) (path 1))) ≡ at_root ∷ below 0 0 2 ∷ [] }
    ensures second_child { places (hear (News.ChildRemoved (path 0) (pos 1) (path 2)))
        ≡ at_root ∷ below 0 0 1 ∷ below 1 0 3 ∷ [] }
    ensures wrong_index { hear (News.ChildRemoved (path 0) (pos 1) (path 1)) ≡ seen }
    ensures negative { hear (News.ChildRemoved (path 0) (negsuc 0) (path 1)) ≡ seen }
    ensures wrong_parent { hear (News.ChildRemoved (path 1) (pos 0) (path 1)) ≡ seen }
    ensures root_child { hear (News.ChildRemoved (path 0) (pos 0) (path 0)) ≡ seen }
    ensures unknown_child { hear (News.ChildRemoved (path 0) (pos 0) (path 8)) ≡ seen }
{}

/// Where a path stands.
pub fn seats()
    ensures root { seat_in (path 0) seen ≡ Some (None, 0) }
    ensures second { seat_in (path 2) seen ≡ Some (Some (path 0), 1) }
    ensures below { seat_in (path 3) seen ≡ Some (Some (path 1), 0) }
    ensures none { seat_in (path 8) seen ≡ None }
    ensures at_none { is_seat_at (path 0) (pos 0) None ≡ false }
{}

/// The addition of an unknown child asks for the whole list, and nothing else does.
pub fn reloads()
    ensures unknown { marks_reload seen (News.ChildAdded (path 8)) ≡ true }
    ensures known { marks_reload seen (News.ChildAdded (path 3)) ≡ false }
    ensures other { marks_reload seen (News.Removed (path 8)) ≡ false }
    ensures added { hear (News.ChildAdded (path 8)) ≡ seen }
{}

/// An item of a known node gives it five fields and a place among the children without it: at an index, or last where
/// there is no such index.
pub fn known_items()
    ensures first { hear (News.Item (item 2 0 (pos 0)))
        ≡ tree (row 0) (tree (renewed_by_item unknown_row) nil (tree known_row (tree (row 3) nil nil) nil)) nil }
    ensures last { hear (News.Item (item 1 0 (pos 1)))
        ≡ tree (row 0) (tree unknown_row nil (tree (renewed_by_item known_row) (tree (row 3) nil nil) nil)) nil }
    ensures same { hear (News.Item (item 1 0 (pos 0))) ≡ seen_1 (renewed_by_item known_row) }
    ensures beyond { hear (News.Item (item 1 0 (pos 2))) ≡ hear (News.Item (item 1 0 (pos 1))) }
    ensures negative { hear (News.Item (item 1 0 (negsuc 4))) ≡ hear (News.Item (item 1 0 (pos 1))) }
    ensures elsewhere { places (hear (News.Item (item 1 2 (pos 0))))
        ≡ at_root ∷ below 0 0 2 ∷ below 2 0 1 ∷ below 1 0 3 ∷ [] }
    ensures itself { hear (News.Item (item 1 1 (pos 0))) ≡ seen }
    ensures below { hear (News.Item (item 1 3 (pos 0))) ≡ seen }
    ensures unknown_parent { hear (News.Item (item 1 8 (pos 0))) ≡ seen }
    ensures other_parent { hear (News.Item (record (item 1 0 (pos 1)) { parent = object other_bus 0 })) ≡ seen }
    ensures other_object { hear (News.Item (record (item 1 0 (pos 1)) { object = object other_bus 1 })) ≡ seen }
{}

/// The root's item gives it the five fields, wherever it says that it stands.
pub fn root_items()
    ensures root { hear (News.Item (item 0 8 (negsuc 0))) ≡ with_rows (renewed_by_item (row 0)) known_row unknown_row }
    ensures below { hear (News.Item (item 0 1 (pos 0))) ≡ with_rows (renewed_by_item (row 0)) known_row unknown_row }
    ensures none { effect (path 0) bus nil (News.Item (item 0 8 (negsuc 0))) ≡ nil }
    ensures others { hear (News.Item (record (item 0 8 (negsuc 0)) { object = object other_bus 0 })) ≡ seen }
{}

/// An item of an unknown node adds it; its parts are unknown where its interfaces name them.
pub fn new_items()
    ensures between { places (hear (News.Item (item 4 0 (pos 1))))
        ≡ at_root ∷ below 0 0 1 ∷ below 1 0 3 ∷ below 0 1 4 ∷ below 0 2 2 ∷ [] }
    ensures beyond { places (hear (News.Item (item 4 0 (pos 3))))
        ≡ at_root ∷ below 0 0 1 ∷ below 1 0 3 ∷ below 0 1 2 ∷ below 0 2 4 ∷ [] }
    ensures negative { hear (News.Item (item 4 0 (negsuc 0))) ≡ hear (News.Item (item 4 0 (pos 2))) }
    ensures row { effect (path 0) bus (tree (row 0) nil nil) (News.Item (item 4 0 (pos 0)))
        ≡ tree (row 0) (tree (renewed_by_item (row 4)) nil nil) nil }
    ensures parts { effect (path 0) bus (tree (row 0) nil nil)
        (News.Item
        (record (item 4 0 (pos 0))
        { interfaces = codes "org.a11y.atspi.Table" ∷ codes "org.a11y.atspi.Text" ∷ [] }))
        ≡ tree (row 0)
        (tree
        (record (renewed_by_item (row 4))
        { faces = 9; text = Part.Unknown; caret = NumPart.Unknown; columns = NumPart.Unknown }) nil nil)
        nil }
    ensures unknown_parent { hear (News.Item (item 4 8 (pos 0))) ≡ seen }
    ensures itself { hear (News.Item (item 4 4 (pos 0))) ≡ seen }
    ensures other_parent { hear (News.Item (record (item 4 0 (pos 0)) { parent = object other_bus 0 })) ≡ seen }
{}

/// The interfaces by their full names; any other name is none of the five.
pub fn interfaces()
    ensures text { kinds_of (codes "org.a11y.atspi.Text" ∷ []) ≡ record no_kinds { text = true } }
    ensures editable { kinds_of (codes "org.a11y.atspi.EditableText" ∷ []) ≡ record no_kinds { editable = true } }
    ensures selection { kinds_of (codes "org.a11y.atspi.Selection" ∷ []) ≡ record no_kinds { selection = true } }
    ensures table { kinds_of (codes "org.a11y.atspi.Table" ∷ []) ≡ record no_kinds { table = true } }
    ensures action { kinds_of (codes "org.a11y.atspi.Action" ∷ []) ≡ record no_kinds { action = true } }
    ensures second { kinds_of (codes "x" ∷ codes "org.a11y.atspi.Table" ∷ []) ≡ record no_kinds { table = true } }
    ensures others { kinds_of (codes "org.a11y.atspi.Component" ∷ codes "Text" ∷ []) ≡ no_kinds }
{}

/// News that change nothing and ask for nothing, one after another.
pub fn idle()
    ensures none { Idle (path 0) bus seen [] }
    ensures idle { Idle (path 0) bus seen (News.Removed (path 8) ∷ News.ChildAdded (path 3) ∷ []) }
    ensures changes { Idle (path 0) bus seen (News.Removed (path 2) ∷ []) → ⊥ }
    ensures asks { Idle (path 0) bus seen (News.ChildAdded (path 8) ∷ []) → ⊥ }
    ensures echoes { Idle (path 0) bus (hear (News.Item (item 1 2 (pos 0))))
        (News.ChildRemoved (path 0) (pos 0) (path 1) ∷ News.Nothing ∷ News.ChildAdded (path 1) ∷ []) }
    ensures second { Idle (path 0) bus seen (News.Removed (path 8) ∷ News.ChildAdded (path 8) ∷ []) → ⊥ }
    ensures root { Idle (path 0) bus seen (News.Removed (path 0) ∷ News.Removed (path 0) ∷ []) }
    ensures item { Idle (path 0) bus seen (News.Item (item 0 8 (negsuc 0)) ∷ []) → ⊥ }
    ensures second_item { Idle (path 0) bus seen (News.Removed (path 8) ∷ News.Item (item 0 8 (negsuc 0)) ∷ []) → ⊥ }
{}
