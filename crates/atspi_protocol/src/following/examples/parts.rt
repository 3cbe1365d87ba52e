//! News of a held application, and the parts of its rows.

ghost use Rattle.std.specs.Prelude.{◌≡◌, ◌∷◌, [], None, Some, true, false, codes, map};
ghost use Rattle.std.specs.Option.{option_map};
ghost use Rattle.atspi_types.specs.Data.{text_data, number_data, variant_data};
ghost use Rattle.atspi_types.specs.Kinds.{i32, number};
ghost use Rattle.atspi_tree_model.specs.declared.view.Part.TheVariants.{Absent, Unknown, Known};
ghost use Rattle.atspi_tree_model.specs.declared.view.NumPart.TheVariants.{Absent as NoNumber};
ghost use Rattle.atspi_tree_model.specs.declared.view.NumPart.TheVariants.{Unknown as UnknownNumber};
ghost use Rattle.atspi_tree_model.specs.declared.view.NumPart.TheVariants.{Known as KnownNumber};
ghost use Rattle.atspi_tree_model.specs.Forest.{labels, nil, tree};
ghost use Rattle.atspi_protocol.specs.ends.Places.{reference};
ghost use Rattle.atspi_protocol.specs.declared.news.part.PartName.TheVariants.{Text, Caret, Columns};
ghost use Rattle.atspi_protocol.specs.declared.following.question.Question.TheVariants.{Hello, GetItems, GetPart};
ghost use Rattle.atspi_protocol.specs.following.ReaderState.{sends, speaks};
ghost use Rattle.atspi_protocol.specs.following.Calls.{asking};
ghost use Rattle.atspi_protocol.specs.following.Wishes.{wishes};
ghost use Rattle.atspi_protocol.specs.following.Takes.{reader_takes, held_view, last_taken};
ghost use Rattle.atspi_protocol.specs.following.Cases.{waiting, returned, failed, known, held, window, row, event};

/// What is wished for: applications in their order, rows in preorder, and of a row the text, the caret and the columns.
pub fn orders()
    ensures unheld { wishes (known (codes ":1.7") ∷ []) ≡ GetItems (codes ":1.7") ∷ [] }
    ensures held { wishes (held (codes ":1.7") window ∷ [])
        ≡ GetPart (codes ":1.7") (codes "/a") Text ∷ (GetPart (codes ":1.7") (codes "/a") Caret ∷ []) }
    ensures reload { wishes (record (held (codes ":1.7") window) { reload = true } ∷ [])
        ≡ GetItems (codes ":1.7") ∷ [] }
    ensures two { wishes (held (codes ":1.8") nil ∷ (known (codes ":1.9") ∷ (known (codes ":1.7") ∷ [])))
        ≡ GetItems (codes ":1.9") ∷ (GetItems (codes ":1.7") ∷ []) }
    ensures columns { wishes
        (held (codes ":1.7") (tree (row (codes "/r") [] Unknown UnknownNumber UnknownNumber) nil nil) ∷ [])
        ≡ GetPart (codes ":1.7") (codes "/r") Text
        ∷ (GetPart (codes ":1.7") (codes "/r") Caret ∷ (GetPart (codes ":1.7") (codes "/r") Columns ∷ [])) }
    ensures nothing { wishes
        (held (codes ":1.7") (tree (row (codes "/r") [] (Known []) (KnownNumber 0) NoNumber) nil nil) ∷ []) ≡ [] }
    ensures preorder { wishes
        (held (codes ":1.7")
        (tree (row (codes "/r") [] Absent NoNumber NoNumber)
        (tree (row (codes "/a") [] Absent NoNumber NoNumber)
        (tree (row (codes "/b") [] Unknown NoNumber NoNumber) nil nil)
        (tree (row (codes "/c") [] Unknown NoNumber NoNumber) nil nil)) nil) ∷ [])
        ≡ GetPart (codes ":1.7") (codes "/b") Text ∷ (GetPart (codes ":1.7") (codes "/c") Text ∷ []) }
    ensures refused { wishes (record (held (codes ":1.7") window) { refused = (codes "/a", Text) ∷ [] } ∷ [])
        ≡ GetPart (codes ":1.7") (codes "/a") Caret ∷ [] }
    ensures refused_elsewhere { wishes
        (record (held (codes ":1.7") window) { refused = (codes "/b", Text) ∷ ((codes "/a", Columns) ∷ []) } ∷ [])
        ≡ GetPart (codes ":1.7") (codes "/a") Text ∷ (GetPart (codes ":1.7") (codes "/a") Caret ∷ []) }
    ensures refused_caret { wishes (record (held (codes ":1.7") window) { refused = (codes "/a", Caret) ∷ [] } ∷ [])
        ≡ GetPart (codes ":1.7") (codes "/a") Text ∷ [] }
{}

/// A part that is told stands in its row; one that is refused is not asked for again before the next load.
pub fn replies()
    ensures text { reader_takes (waiting (GetPart (codes ":1.7") (codes "/a") Text) (held (codes ":1.7") window ∷ []))
        (returned 20 (codes ":1.7") (text_data (codes "hi") ∷ []))
        ≡ record (waiting Hello
        (record (held (codes ":1.7")
        (tree (row (codes "/r") (codes "Demo") Absent NoNumber NoNumber)
        (tree (row (codes "/a") (codes "E") (Known (codes "hi")) UnknownNumber NoNumber) nil nil) nil))
        { last = 9 } ∷ [])) {
          pending = Some (record { serial = 21; question = GetPart (codes ":1.7") (codes "/a") Caret });
          next = 22;
          out = sends (asking 21 (GetPart (codes ":1.7") (codes "/a") Caret)) ∷ [];
        } }
    ensures refused { (reader_takes
        (waiting (GetPart (codes ":1.7") (codes "/a") Text) (held (codes ":1.7") window ∷ []))
        (failed 20 (codes ":1.7"))).apps
        ≡ record (held (codes ":1.7") window) { last = 9; refused = (codes "/a", Text) ∷ [] } ∷ [] }
    ensures refused_by_bus { (reader_takes
        (waiting (GetPart (codes ":1.7") (codes "/a") Text) (held (codes ":1.7") window ∷ []))
        (failed 20 (codes "org.freedesktop.DBus"))).apps
        ≡ record (held (codes ":1.7") window) { refused = (codes "/a", Text) ∷ [] } ∷ [] }
    ensures next_wish { (reader_takes
        (waiting (GetPart (codes ":1.7") (codes "/a") Text) (held (codes ":1.7") window ∷ []))
        (failed 20 (codes ":1.7"))).out ≡ sends (asking 21 (GetPart (codes ":1.7") (codes "/a") Caret)) ∷ [] }
    ensures negative { (reader_takes
        (waiting (GetPart (codes ":1.7") (codes "/a") Caret) (held (codes ":1.7") window ∷ []))
        (returned 20 (codes ":1.7") (variant_data (number i32) (number_data i32 4294967295) ∷ []))).apps
        ≡ record (held (codes ":1.7") window) { last = 9; refused = (codes "/a", Caret) ∷ [] } ∷ [] }
    ensures by_stranger { reader_takes
        (waiting (GetPart (codes ":1.7") (codes "/a") Text) (held (codes ":1.7") window ∷ []))
        (returned 20 (codes ":1.9") (text_data (codes "hi") ∷ []))
        ≡ waiting (GetPart (codes ":1.7") (codes "/a") Text) (held (codes ":1.7") window ∷ []) }
    ensures not_held { (reader_takes (waiting (GetPart (codes ":1.7") (codes "/a") Text) (known (codes ":1.7") ∷ []))
        (returned 20 (codes ":1.7") (text_data (codes "hi") ∷ []))).apps
        ≡ record (known (codes ":1.7")) { last = 9 } ∷ [] }
    ensures users_call { reader_takes (waiting Hello (held (codes ":1.7") window ∷ []))
        (returned 19 (codes ":1.7") (text_data (codes "hi") ∷ []))
        ≡ waiting Hello (record (held (codes ":1.7") window) { last = 9 } ∷ []) }
{}

/// News change the view of their sender, are spoken, and their serial is noted.
pub fn news()
    ensures spoken { reader_takes (waiting Hello (held (codes ":1.7") window ∷ (held (codes ":1.8") window ∷ [])))
        (event (codes ":1.7") (codes "/a") (codes "PropertyChange") (codes "accessible-name") 0 (text_data (codes "F")))
        ≡ record (waiting Hello
        (record (held (codes ":1.7")
        (tree (row (codes "/r") (codes "Demo") Absent NoNumber NoNumber)
        (tree (row (codes "/a") (codes "F") Unknown UnknownNumber NoNumber) nil nil) nil)) { last = 9 }
        ∷ (held (codes ":1.8") window ∷ [])))
        { out = speaks (codes ":1.7") (codes "F") ∷ [] } }
    ensures unknown_child { (reader_takes (waiting Hello (held (codes ":1.7") window ∷ []))
        (event (codes ":1.7") (codes "/r") (codes "ChildrenChanged") (codes "add") 0
        (reference (codes ":1.7") (codes "/b")))).apps
        ≡ record (held (codes ":1.7") window) { last = 9; reload = true } ∷ [] }
    ensures known_child { (reader_takes (waiting Hello (held (codes ":1.7") window ∷ []))
        (event (codes ":1.7") (codes "/r") (codes "ChildrenChanged") (codes "add") 0
        (reference (codes ":1.7") (codes "/a")))).apps ≡ record (held (codes ":1.7") window) { last = 9 } ∷ [] }
    ensures stays_marked { (reader_takes (waiting Hello (record (held (codes ":1.7") window) { reload = true } ∷ []))
        (event (codes ":1.7") (codes "/r") (codes "ChildrenChanged") (codes "add") 0
        (reference (codes ":1.7") (codes "/a")))).apps
        ≡ record (held (codes ":1.7") window) { last = 9; reload = true } ∷ [] }
    ensures not_held { reader_takes (waiting Hello (known (codes ":1.7") ∷ []))
        (event (codes ":1.7") (codes "/a") (codes "PropertyChange") (codes "accessible-name") 0
        (text_data (codes "F"))) ≡ waiting Hello (record (known (codes ":1.7")) { last = 9 } ∷ []) }
    ensures stranger { reader_takes (waiting Hello (held (codes ":1.7") window ∷ []))
        (event (codes ":1.9") (codes "/a") (codes "PropertyChange") (codes "accessible-name") 0
        (text_data (codes "F"))) ≡ waiting Hello (held (codes ":1.7") window ∷ []) }
    ensures no_sender { reader_takes (waiting Hello (held (codes ":1.7") window ∷ []))
        (record (event (codes ":1.9") (codes "/a") (codes "PropertyChange") (codes "accessible-name") 0
        (text_data (codes "F"))) { sender = None }) ≡ waiting Hello (held (codes ":1.7") window ∷ []) }
{}
