//! The row that a spoken line is about, and the parent's.

ghost use Rattle.std.specs.Prelude.{◌≡◌, ◌∷◌, [], None, Some, pos, true, false, codes};
ghost use Rattle.atspi_tree_model.specs.declared.news.News.TheVariants.{Caret, Deleted, Inserted, Item, Name, State};
ghost use Rattle.atspi_speech.specs.Cases.{focused_only, item, row, window};
ghost use Rattle.atspi_speech.specs.Looked.{AreLookedUp, adds, with_name, with_state_of};
ghost use Rattle.atspi_speech.specs.Words.{joined};

/// The row of the path that the news names, or none.
pub fn rows_of_news()
    ensures name { AreLookedUp window (Name (codes "/a") (codes "x"))
        (Some (row (codes "/a") (codes "Find") 7 focused_only)) false }
    ensures other_name { AreLookedUp window (Name (codes "/a") (codes "x"))
        (Some (row (codes "/r") (codes "Demo") 75 0)) false → ⊥ }
    ensures no_name { AreLookedUp window (Name (codes "/b") (codes "x")) None true }
    ensures lost_name { AreLookedUp window (Name (codes "/a") (codes "x")) None false → ⊥ }
    ensures state { AreLookedUp window (State (codes "/r") 4 true) (Some (row (codes "/r") (codes "Demo") 75 0)) false }
    ensures lost_state { AreLookedUp window (State (codes "/r") 4 true) None false → ⊥ }
    ensures inserted { AreLookedUp window (Inserted (codes "/a") (pos 0) (codes "/r"))
        (Some (row (codes "/a") (codes "Find") 7 focused_only)) false }
    ensures lost_text { AreLookedUp window (Inserted (codes "/a") (pos 0) (codes "/r")) None false → ⊥ }
    ensures deleted { AreLookedUp window (Deleted (codes "/a") (pos 0) (pos 1) (codes "/r"))
        (Some (row (codes "/a") (codes "Find") 7 focused_only)) false }
    ensures lost_deletion { AreLookedUp window (Deleted (codes "/a") (pos 0) (pos 1) (codes "/r")) None false → ⊥ }
    ensures silent { AreLookedUp window (Caret (codes "/a") (pos 0)) None false }
{}

/// Of an item its own row, and whether its parent has one.
pub fn rows_of_items()
    ensures new { AreLookedUp window (Item (item [] 2 (codes ":1.1") (codes "/b") (codes ":1.1") (codes "/r"))) None
        true }
    ensures known { AreLookedUp window (Item (item [] 2 (codes ":1.1") (codes "/a") (codes ":1.1") (codes "/r")))
        (Some (row (codes "/a") (codes "Find") 7 focused_only)) true }
    ensures orphan { AreLookedUp window (Item (item [] 2 (codes ":1.1") (codes "/b") (codes ":1.1") (codes "/c"))) None
        false }
    ensures no_orphan { AreLookedUp window (Item (item [] 2 (codes ":1.1") (codes "/b") (codes ":1.1") (codes "/r")))
        None false → ⊥ }
    ensures lost { AreLookedUp window (Item (item [] 2 (codes ":1.1") (codes "/a") (codes ":1.1") (codes "/r"))) None
        true → ⊥ }
{}

/// An item adds a node of the application's own, other than the root, that has no row, below one that has.
pub fn adding()
    ensures adds { adds (codes "/r") (codes ":1.1") None true
        (item [] 2 (codes ":1.1") (codes "/b") (codes ":1.1") (codes "/r")) ≡ true }
    ensures known { adds (codes "/r") (codes ":1.1") (Some (row (codes "/b") [] 7 0)) true
        (item [] 2 (codes ":1.1") (codes "/b") (codes ":1.1") (codes "/r")) ≡ false }
    ensures orphan { adds (codes "/r") (codes ":1.1") None false
        (item [] 2 (codes ":1.1") (codes "/b") (codes ":1.1") (codes "/c")) ≡ false }
    ensures root { adds (codes "/r") (codes ":1.1") None true
        (item [] 2 (codes ":1.1") (codes "/r") (codes ":1.1") (codes "/a")) ≡ false }
    ensures foreign { adds (codes "/r") (codes ":1.1") None true
        (item [] 2 (codes ":1.2") (codes "/b") (codes ":1.1") (codes "/r")) ≡ false }
    ensures foreign_parent { adds (codes "/r") (codes ":1.1") None true
        (item [] 2 (codes ":1.1") (codes "/b") (codes ":1.2") (codes "/r")) ≡ false }
{}

/// A row of another name, with a state on and off; and no pieces joined.
pub fn changed_rows()
    ensures name { with_name (codes "U") (row (codes "/a") (codes "Find") 7 focused_only)
        ≡ row (codes "/a") (codes "U") 7 focused_only }
    ensures on { with_state_of 4 true (row (codes "/a") [] 7 4096) ≡ row (codes "/a") [] 7 4112 }
    ensures off { with_state_of 4 false (row (codes "/a") [] 7 4112) ≡ row (codes "/a") [] 7 4096 }
    ensures nothing { joined [] ≡ [] }
    ensures three { joined (codes "a" ∷ codes "b" ∷ codes "c" ∷ []) ≡ codes "a, b, c" }
{}
