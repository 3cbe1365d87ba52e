//! What an application tells of the room, and what a reader keeps of it who is told.

ghost use Rattle.std.specs.Prelude.{◌≡◌, ◌∷◌, ◌++◌, [], ℕ, List, pos, negsuc, codes, decimal, true, false};
ghost use Rattle.atspi_tree_model.specs.Forest.{nil, tree};
ghost use Rattle.atspi_tree_model.specs.Path.{path_of};
ghost use Rattle.atspi_tree_model.specs.View.{Told, nothing_told, shown, view, kinds_number};
ghost use Rattle.atspi_tree_model.specs.Announce.{interfaces_of, own, items, announcement, echoes};
ghost use Rattle.atspi_examples.specs.Room.{no_kinds, root, list, entry, button, grid, sign, bare, hello, room};
ghost use Rattle.atspi_examples.specs.Room.{full_seed, told_all, brief};
ghost use Rattle.atspi_examples.specs.Seen.{bus, object};

use atspi_tree_model::{News, NumPart, Part, Step};

/// A node has the path of its number, below that of all nodes; a number that no node has, has none.
#[tactic(auto, unfolding(atspi_tree_model::specs::Path::path_of))]
pub fn paths()
    ensures root { path_of 0 ≡ codes "/org/a11y/atspi/accessible/root" }
    ensures node { path_of 12 ≡ codes "/org/a11y/atspi/accessible/" ++ decimal 12 }
    ensures last { path_of 4294967295 ≡ codes "/org/a11y/atspi/accessible/" ++ decimal 4294967295 }
    ensures none { path_of 4294967296 ≡ 4294967551 ∷ [] }
{}

/// The interfaces of a node in their order. Each node has Accessible, the root alone Application.
pub fn interfaces()
    ensures none { interfaces_of false no_kinds ≡ codes "org.a11y.atspi.Accessible" ∷ [] }
    ensures root { interfaces_of true no_kinds
        ≡ codes "org.a11y.atspi.Accessible" ∷ codes "org.a11y.atspi.Application" ∷ [] }
    ensures entry { interfaces_of false (record no_kinds { text = true; editable = true })
        ≡ codes "org.a11y.atspi.Accessible" ∷ codes "org.a11y.atspi.Text" ∷ codes "org.a11y.atspi.EditableText" ∷ [] }
    ensures others { interfaces_of false (record no_kinds { selection = true; table = true; action = true })
        ≡ codes "org.a11y.atspi.Accessible" ∷ codes "org.a11y.atspi.Selection" ∷ codes "org.a11y.atspi.Table"
        ∷ codes "org.a11y.atspi.Action" ∷ [] }
    ensures text { interfaces_of false (record no_kinds { text = true })
        ≡ codes "org.a11y.atspi.Accessible" ∷ codes "org.a11y.atspi.Text" ∷ [] }
    ensures table { interfaces_of false (record no_kinds { table = true })
        ≡ codes "org.a11y.atspi.Accessible" ∷ codes "org.a11y.atspi.Table" ∷ [] }
{}

/// A node that was added or moved is told by its item at its new place; one that was removed by the place it had.
pub fn of_nodes()
    ensures own { own bus 3 ≡ record { bus = bus; path = path_of 3 } }
    ensures add { announcement bus room (Step.Add 13 7 1 full_seed)
        ≡ News.Item
        (record {
          object = own bus 13;
          application = own bus 0;
          parent = own bus 7;
          index = pos 1;
          children = pos 0;
          interfaces = codes "org.a11y.atspi.Accessible" ∷ codes "org.a11y.atspi.Text"
              ∷ codes "org.a11y.atspi.EditableText" ∷ codes "org.a11y.atspi.Selection" ∷ codes "org.a11y.atspi.Table"
              ∷ codes "org.a11y.atspi.Action" ∷ [];
          name = codes "n";
          role = 61;
          description = [];
          states = 1124073728;
        }) }
    ensures moved { announcement bus room (Step.Move 1 7 1)
        ≡ News.Item
        (record {
          object = own bus 1;
          application = own bus 0;
          parent = own bus 7;
          index = pos 1;
          children = pos 3;
          interfaces = codes "org.a11y.atspi.Accessible" ∷ codes "org.a11y.atspi.Selection" ∷ [];
          name = [];
          role = 0;
          description = [];
          states = 0;
        }) }
    ensures moved_button { announcement bus room (Step.Move 3 0 0)
        ≡ News.Item
        (record {
          object = own bus 3;
          application = own bus 0;
          parent = own bus 0;
          index = pos 0;
          children = pos 0;
          interfaces = codes "org.a11y.atspi.Accessible" ∷ codes "org.a11y.atspi.Action" ∷ [];
          name = codes "b";
          role = 43;
          description = codes "d";
          states = 4112;
        }) }
    ensures removed { announcement bus room (Step.Remove 5) ≡ News.ChildRemoved (path_of 1) (pos 2) (path_of 5) }
    ensures none_removed { announcement bus room (Step.Remove 99) ≡ News.Nothing }
    ensures none_moved { announcement bus room (Step.Move 99 1 0) ≡ News.Nothing }
{}

/// Each other step is told by what it names.
pub fn of_changes()
    ensures name { announcement bus room (Step.SetName 3 hello) ≡ News.Name (path_of 3) hello }
    ensures description { announcement bus room (Step.SetDescription 3 hello) ≡ News.Description (path_of 3) hello }
    ensures role { announcement bus room (Step.SetRole 3 7) ≡ News.Role (path_of 3) 7 }
    ensures state { announcement bus room (Step.SetState 3 4 false) ≡ News.State (path_of 3) 4 false }
    ensures insert { announcement bus room (Step.Insert 2 1 hello) ≡ News.Inserted (path_of 2) (pos 1) hello }
    ensures delete { announcement bus room (Step.Delete 2 0 hello) ≡ News.Deleted (path_of 2) (pos 0) (pos 5) hello }
    ensures caret { announcement bus room (Step.Caret 2 4) ≡ News.Caret (path_of 2) (pos 4) }
    ensures select { announcement bus room (Step.TextSelect 2 []) ≡ News.Nothing }
    ensures relate { announcement bus room (Step.Relate 2 1 []) ≡ News.Nothing }
{}

/// Behind the announcement come echoes: of an addition that the parent has a child; of a removal each node that is
/// gone; of a move that the old parent lost a child, that the node has a parent, and that the new parent has a child.
pub fn echoed()
    ensures add { echoes bus room (Step.Add 13 7 1 full_seed) ≡ News.ChildAdded (path_of 13) ∷ [] }
    ensures removed { echoes bus room (Step.Remove 1)
        ≡ News.Removed (path_of 1) ∷ News.Removed (path_of 6) ∷ News.Removed (path_of 4) ∷ News.Removed (path_of 5)
        ∷ [] }
    ensures moved { echoes bus room (Step.Move 5 7 0)
        ≡ News.ChildRemoved (path_of 1) (pos 2) (path_of 5) ∷ News.Nothing ∷ News.ChildAdded (path_of 5) ∷ [] }
    ensures others { echoes bus room (Step.SetRole 3 7) ≡ [] }
{}

/// The items of a tree in preorder. The root's parent is the registry's, and its index is -1.
pub fn listed()
    ensures all { brief
        (items bus (object (codes ":0") 5)
        (tree root (tree list (tree (bare 6 0) nil (tree (bare 4 0) nil nil)) (tree sign nil nil)) nil))
        ≡ (own bus 0, object (codes ":0") 5, negsuc 0, pos 2) ∷ (own bus 1, own bus 0, pos 0, pos 2)
        ∷ (own bus 6, own bus 1, pos 0, pos 0) ∷ (own bus 4, own bus 1, pos 1, pos 0)
        ∷ (own bus 10, own bus 0, pos 1, pos 0) ∷ [] }
    ensures none { items bus (object (codes ":0") 5) nil ≡ [] }
{}

/// A reader's row of a node: its parts are known where the reader was told them, and absent where the node has none.
pub fn rows()
    ensures told { shown told_all entry
        ≡ record {
          path = path_of 2;
          name = [];
          description = [];
          role = 0;
          states = 0;
          faces = 3;
          text = Part.Known hello;
          caret = NumPart.Known 3;
          columns = NumPart.Absent;
        } }
    ensures untold { shown nothing_told entry
        ≡ record {
          path = path_of 2;
          name = [];
          description = [];
          role = 0;
          states = 0;
          faces = 3;
          text = Part.Unknown;
          caret = NumPart.Unknown;
          columns = NumPart.Absent;
        } }
    ensures button { shown told_all button
        ≡ record {
          path = path_of 3;
          name = codes "b";
          description = codes "d";
          role = 43;
          states = 4112;
          faces = 16;
          text = Part.Absent;
          caret = NumPart.Absent;
          columns = NumPart.Absent;
        } }
    ensures grid { shown told_all grid
        ≡ record {
          path = path_of 11;
          name = [];
          description = [];
          role = 0;
          states = 0;
          faces = 8;
          text = Part.Absent;
          caret = NumPart.Absent;
          columns = NumPart.Known 2;
        } }
    ensures untold_grid { shown nothing_told grid
        ≡ record {
          path = path_of 11;
          name = [];
          description = [];
          role = 0;
          states = 0;
          faces = 8;
          text = Part.Absent;
          caret = NumPart.Absent;
          columns = NumPart.Unknown;
        } }
    ensures text { (told : List ℕ → Told) → told (path_of 2) ≡ record { text = true; caret = false; columns = true }
        → shown told entry ≡ record (shown nothing_told entry) { text = Part.Known hello } }
    ensures caret { (told : List ℕ → Told) → told (path_of 2) ≡ record { text = false; caret = true; columns = true }
        → shown told entry ≡ record (shown nothing_told entry) { caret = NumPart.Known 3 } }
    ensures columns { (told : List ℕ → Told) → told (path_of 11) ≡ record { text = true; caret = true; columns = false }
        → shown told grid ≡ shown nothing_told grid }
    ensures view { view told_all (tree root (tree entry nil (tree grid nil nil)) nil)
        ≡ tree (shown told_all root) (tree (shown told_all entry) nil (tree (shown told_all grid) nil nil)) nil }
{}

/// Interfaces as one number.
pub fn numbers()
    ensures none { kinds_number no_kinds ≡ 0 }
    ensures text { kinds_number (record no_kinds { text = true }) ≡ 1 }
    ensures editable { kinds_number (record no_kinds { editable = true }) ≡ 2 }
    ensures selection { kinds_number (record no_kinds { selection = true }) ≡ 4 }
    ensures table { kinds_number (record no_kinds { table = true }) ≡ 8 }
    ensures action { kinds_number (record no_kinds { action = true }) ≡ 16 }
{}
