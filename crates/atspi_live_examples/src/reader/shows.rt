//! What a reader shows.

ghost use Rattle.std.specs.Prelude.{◌≡◌, ◌∷◌, ◌++◌, [], None, Some, codes};
ghost use Rattle.atspi_live_reader.specs.Shows.{show_if, show_text, shown_in, shown_of};
ghost use Rattle.atspi_live_examples.specs.reader.Held.{button_line, name, root_line, shown_button, shown_root};
ghost use Rattle.atspi_live_examples.specs.reader.Held.{two_known};
ghost use Rattle.atspi_protocol.specs.following.ReaderState.{begins};

/// How many rows there are, and a line of each as a trace has it; of an application that is not held nothing is
/// written.
pub fn shown_rows()
    ensures none_held { show_if name None ≡ [] }
    ensures no_rows { show_text name [] ≡ codes "show :1.2 0" ++ 10 ∷ [] }
    ensures one { show_if name (Some (shown_root ∷ [])) ≡ codes "show :1.2 1" ++ 10 ∷ root_line }
    ensures two { show_text name (shown_root ∷ shown_button ∷ [])
        ≡ codes "show :1.2 2" ++ 10 ∷ (root_line ++ button_line) }
{}

/// Of two applications that are known the first is held: its root, and a button there. Of the other nothing is shown,
/// nor of one that is not known; and at first nothing at all.
pub fn held_views()
    ensures nothing_held { shown_in begins ≡ [] }
    ensures held { shown_of two_known name ≡ codes "show :1.2 2" ++ 10 ∷ (root_line ++ button_line) }
    ensures not_held { shown_of two_known (codes ":1.3") ≡ [] }
    ensures not_known { shown_of two_known (codes ":1.4") ≡ [] }
    ensures all { shown_in two_known ≡ codes "show :1.2 2" ++ 10 ∷ (root_line ++ button_line) }
{}
