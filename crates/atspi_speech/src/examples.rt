//! Worked cases of what is spoken, each a clause of a function without a body, with the lines worked out by hand.

ghost use Rattle.std.specs.Prelude.{◌≡◌, ◌^◌, ◌+◌, [], ◌∷◌, pos, true, false, codes};
ghost use Rattle.atspi_tree_model.specs.declared.news.News.TheVariants.{Name, Description, Role, State, Inserted};
ghost use Rattle.atspi_tree_model.specs.declared.news.News.TheVariants.{Deleted, Removed, ChildAdded, TextIs};
ghost use Rattle.atspi_tree_model.specs.declared.news.News.TheVariants.{Item as NewItem};
ghost use Rattle.atspi_tree_model.specs.Forest.{nil};
ghost use Rattle.atspi_speech.specs.Cases.{focused_only, item, node, window};
ghost use Rattle.atspi_speech.specs.Speech.{alert_lines, closing_lines, focus_line, lines, name_lines, state_lines};
ghost use Rattle.atspi_speech.specs.Speech.{text_lines};

/// The line of the focus: pieces that apply, in their order.
#[tactic(auto, unfolding(atspi_tables::specs::Roles::role_names))]
pub fn focus_lines()
    ensures plain { focus_line (node (codes "File") 33 focused_only) ≡ codes "File, menu" }
    ensures no_name { focus_line (node [] 61 focused_only) ≡ codes "text" }
    ensures no_role { focus_line (node (codes "X") 117 focused_only) ≡ codes "X, unknown" }
    ensures not_checked { focus_line (node (codes "Wrap") 8 (focused_only + 2 ^ 41))
        ≡ codes "Wrap, check menu item, not checked" }
    ensures checked { focus_line (node (codes "Wrap") 8 (focused_only + 2 ^ 41 + 2 ^ 4))
        ≡ codes "Wrap, check menu item, checked" }
    ensures checked_alone { focus_line (node [] 8 (2 ^ 4)) ≡ codes "check menu item, checked" }
    ensures collapsed { focus_line (node [] 33 (2 ^ 9)) ≡ codes "menu, collapsed" }
    ensures expanded { focus_line (node [] 33 (2 ^ 10)) ≡ codes "menu, expanded" }
    ensures all { focus_line (node (codes "A") 43 (2 ^ 4 + 2 ^ 10 + 2 ^ 23 + 2 ^ 20))
        ≡ codes "A, push button, checked, expanded, selected, pressed" }
{}

/// A state that is set or cleared.
#[tactic(auto, unfolding(atspi_tables::specs::Roles::role_names))]
pub fn states()
    ensures focus { state_lines 12 true (node (codes "File") 33 focused_only) ≡ codes "File, menu" ∷ [] }
    ensures focus_lost { state_lines 12 false (node (codes "File") 33 0) ≡ [] }
    ensures checked { state_lines 4 true (node (codes "Wrap") 8 focused_only) ≡ codes "checked" ∷ [] }
    ensures not_checked { state_lines 4 false (node (codes "Wrap") 8 focused_only) ≡ codes "not checked" ∷ [] }
    ensures expanded { state_lines 10 true (node [] 33 focused_only) ≡ codes "expanded" ∷ [] }
    ensures collapsed { state_lines 10 false (node [] 33 focused_only) ≡ codes "collapsed" ∷ [] }
    ensures selected { state_lines 23 true (node [] 32 focused_only) ≡ codes "selected" ∷ [] }
    ensures not_selected { state_lines 23 false (node [] 32 focused_only) ≡ codes "not selected" ∷ [] }
    ensures pressed { state_lines 20 true (node [] 43 focused_only) ≡ codes "pressed" ∷ [] }
    ensures not_pressed { state_lines 20 false (node [] 43 focused_only) ≡ codes "not pressed" ∷ [] }
    ensures elsewhere { state_lines 4 true (node (codes "Wrap") 8 (2 ^ 4)) ≡ [] }
    ensures expandable { state_lines 9 true (node [] 33 focused_only) ≡ [] }
    ensures no_state { state_lines 70 true (node [] 33 focused_only) ≡ [] }
{}

/// A new name.
pub fn names()
    ensures spoken { name_lines (node (codes "New") 43 focused_only) ≡ codes "New" ∷ [] }
    ensures empty { name_lines (node [] 43 focused_only) ≡ [] }
    ensures elsewhere { name_lines (node (codes "New") 43 0) ≡ [] }
{}

/// A text that was put in or taken out: é is one character.
pub fn texts()
    ensures typed { text_lines (codes "typed: ") (110 ∷ 233 ∷ []) (node (codes "Find") 79 focused_only)
        ≡ (116 ∷ 121 ∷ 112 ∷ 101 ∷ 100 ∷ 58 ∷ 32 ∷ 110 ∷ 233 ∷ []) ∷ [] }
    ensures deleted { text_lines (codes "deleted: ") (233 ∷ []) (node (codes "Find") 79 focused_only)
        ≡ (100 ∷ 101 ∷ 108 ∷ 101 ∷ 116 ∷ 101 ∷ 100 ∷ 58 ∷ 32 ∷ 233 ∷ []) ∷ [] }
    ensures elsewhere { text_lines (codes "typed: ") (110 ∷ []) (node (codes "Find") 79 0) ≡ [] }
    ensures nothing { text_lines (codes "typed: ") [] (node (codes "Find") 79 focused_only) ≡ codes "typed: " ∷ [] }
{}

/// A secret is told by its length.
pub fn secrets()
    ensures typed { text_lines (codes "typed: ") (110 ∷ 233 ∷ []) (node [] 40 focused_only)
        ≡ codes "typed: 2 characters" ∷ [] }
    ensures one { text_lines (codes "deleted: ") (110 ∷ []) (node [] 40 focused_only)
        ≡ codes "deleted: 1 characters" ∷ [] }
{}

/// A new node that is an alert.
pub fn alerts()
    ensures alert { alert_lines (node (codes "Saved") 2 0) ≡ codes "alert: Saved" ∷ [] }
    ensures notification { alert_lines (node (codes "Mail") 101 0) ≡ codes "alert: Mail" ∷ [] }
    ensures no_name { alert_lines (node [] 2 0) ≡ codes "alert: " ∷ [] }
    ensures other { alert_lines (node (codes "Saved") 3 0) ≡ [] }
{}

/// News of a view with a root and the focused node `/a`.
pub fn news()
    ensures name { lines (codes "/r") (codes ":1.7") window (Name (codes "/a") (codes "New")) ≡ codes "New" ∷ [] }
    ensures unknown { lines (codes "/r") (codes ":1.7") window (Name (codes "/b") (codes "New")) ≡ [] }
    ensures unfocused { lines (codes "/r") (codes ":1.7") window (Name (codes "/r") (codes "New")) ≡ [] }
    ensures state { lines (codes "/r") (codes ":1.7") window (State (codes "/a") 4 true) ≡ codes "checked" ∷ [] }
    ensures focus_goes { lines (codes "/r") (codes ":1.7") window (State (codes "/a") 12 false) ≡ [] }
    ensures typed { lines (codes "/r") (codes ":1.7") window (Inserted (codes "/a") (pos 9) (codes "hi"))
        ≡ codes "typed: hi" ∷ [] }
    ensures deleted { lines (codes "/r") (codes ":1.7") window (Deleted (codes "/a") (pos 0) (pos 2) (codes "hi"))
        ≡ codes "deleted: hi" ∷ [] }
    ensures description { lines (codes "/r") (codes ":1.7") window (Description (codes "/a") (codes "New")) ≡ [] }
    ensures role { lines (codes "/r") (codes ":1.7") window (Role (codes "/a") 2) ≡ [] }
    ensures removed { lines (codes "/r") (codes ":1.7") window (Removed (codes "/a")) ≡ [] }
    ensures child { lines (codes "/r") (codes ":1.7") window (ChildAdded (codes "/b")) ≡ [] }
    ensures text { lines (codes "/r") (codes ":1.7") window (TextIs (codes "/a") (codes "hi")) ≡ [] }
{}

/// The focus line of a node that gets the focus is read with the focus.
#[tactic(auto, unfolding(atspi_tables::specs::Roles::role_names))]
pub fn focus_comes()
    ensures { lines (codes "/r") (codes ":1.7") window (State (codes "/r") 12 true) ≡ codes "Demo, application" ∷ [] }
{}

/// Items, of which one alone adds a node.
pub fn items()
    ensures added { lines (codes "/r") (codes ":1.7") window
        (NewItem (item (codes "Saved") 2 (codes ":1.7") (codes "/b") (codes ":1.7") (codes "/a")))
        ≡ codes "alert: Saved" ∷ [] }
    ensures no_alert { lines (codes "/r") (codes ":1.7") window
        (NewItem (item (codes "Saved") 7 (codes ":1.7") (codes "/b") (codes ":1.7") (codes "/a"))) ≡ [] }
    ensures known { lines (codes "/r") (codes ":1.7") window
        (NewItem (item (codes "Saved") 2 (codes ":1.7") (codes "/a") (codes ":1.7") (codes "/r"))) ≡ [] }
    ensures foreign { lines (codes "/r") (codes ":1.7") window
        (NewItem (item (codes "Saved") 2 (codes ":1.8") (codes "/b") (codes ":1.7") (codes "/a"))) ≡ [] }
    ensures foreign_parent { lines (codes "/r") (codes ":1.7") window
        (NewItem (item (codes "Saved") 2 (codes ":1.7") (codes "/b") (codes ":1.8") (codes "/a"))) ≡ [] }
    ensures no_parent { lines (codes "/r") (codes ":1.7") window
        (NewItem (item (codes "Saved") 2 (codes ":1.7") (codes "/b") (codes ":1.7") (codes "/c"))) ≡ [] }
    ensures root { lines (codes "/b") (codes ":1.7") window
        (NewItem (item (codes "Saved") 2 (codes ":1.7") (codes "/b") (codes ":1.7") (codes "/a"))) ≡ [] }
{}

/// An application that is gone.
pub fn closing()
    ensures closed { closing_lines window ≡ codes "Demo, closed" ∷ [] }
    ensures no_root { closing_lines nil ≡ codes ", closed" ∷ [] }
{}
