//! How applications become known, how they are held, and how they are forgotten.

ghost use Rattle.std.specs.Prelude.{◌≡◌, ◌∷◌, [], None, Some, true, false, codes, map};
ghost use Rattle.std.specs.Option.{option_map};
ghost use Rattle.atspi_types.specs.Data.{text_data, number_data};
ghost use Rattle.atspi_types.specs.Kinds.{i32};
ghost use Rattle.atspi_tree_model.specs.Forest.{labels, nil};
ghost use Rattle.atspi_protocol.specs.ends.Places.{reference};
ghost use Rattle.atspi_protocol.specs.declared.following.question.Question.TheVariants.{Hello, GetItems};
ghost use Rattle.atspi_protocol.specs.following.ReaderState.{begins, sends, speaks, tells_end};
ghost use Rattle.atspi_protocol.specs.following.Calls.{asking};
ghost use Rattle.atspi_protocol.specs.following.Takes.{reader_takes, held_view, last_taken, held_names};
ghost use Rattle.atspi_protocol.specs.following.Cases.{waiting, returned, failed, known, held, window, event};
ghost use Rattle.atspi_protocol.specs.following.Cases.{owner_changed, item, items};

/// A child of the registry's becomes known where the registry tells it.
#[tactic(auto, unfolding(atspi_base::specs::valid_names::Names::is_bus_name, atspi_base::specs::valid_names::Elements::are_two_or_more, atspi_base::specs::valid_names::Elements::are_elements, atspi_base::specs::valid_names::Elements::parts_of))]
pub fn children()
    ensures by_registry { (reader_takes (waiting Hello [])
        (event (codes ":1.0") (codes "/r") (codes "ChildrenChanged") (codes "add") 0
        (reference (codes ":1.7") (codes "/r")))).apps ≡ known (codes ":1.7") ∷ [] }
    ensures behind { (reader_takes (waiting Hello (known (codes ":1.8") ∷ []))
        (event (codes ":1.0") (codes "/r") (codes "ChildrenChanged") (codes "add") 0
        (reference (codes ":1.7") (codes "/r")))).apps ≡ known (codes ":1.8") ∷ (known (codes ":1.7") ∷ []) }
    ensures again { (reader_takes (waiting Hello (held (codes ":1.7") window ∷ []))
        (event (codes ":1.0") (codes "/r") (codes "ChildrenChanged") (codes "add") 0
        (reference (codes ":1.7") (codes "/s")))).apps ≡ held (codes ":1.7") window ∷ [] }
    ensures by_stranger { (reader_takes (waiting Hello [])
        (event (codes ":1.9") (codes "/r") (codes "ChildrenChanged") (codes "add") 0
        (reference (codes ":1.7") (codes "/r")))).apps ≡ [] }
    ensures no_registry { (reader_takes (record (waiting Hello []) { registry = None })
        (event (codes ":1.0") (codes "/r") (codes "ChildrenChanged") (codes "add") 0
        (reference (codes ":1.7") (codes "/r")))).apps ≡ [] }
    ensures removed { (reader_takes (waiting Hello [])
        (event (codes ":1.0") (codes "/r") (codes "ChildrenChanged") (codes "remove") 0
        (reference (codes ":1.7") (codes "/r")))).apps ≡ [] }
    ensures other_event { (reader_takes (waiting Hello [])
        (event (codes ":1.0") (codes "/r") (codes "StateChanged") (codes "add") 0
        (reference (codes ":1.7") (codes "/r")))).apps ≡ [] }
    ensures other_interface { (reader_takes (waiting Hello [])
        (record (event (codes ":1.0") (codes "/r") (codes "ChildrenChanged") (codes "add") 0
        (reference (codes ":1.7") (codes "/r"))) { interface = Some (codes "a.b") })).apps ≡ [] }
    ensures call { (reader_takes (waiting Hello [])
        (record (event (codes ":1.0") (codes "/r") (codes "ChildrenChanged") (codes "add") 0
        (reference (codes ":1.7") (codes "/r"))) { kind = 1 })).apps ≡ [] }
    ensures no_name { (reader_takes (waiting Hello [])
        (event (codes ":1.0") (codes "/r") (codes "ChildrenChanged") (codes "add") 0
        (reference (codes "x") (codes "/r")))).apps ≡ [] }
    ensures no_reference { (reader_takes (waiting Hello [])
        (event (codes ":1.0") (codes "/r") (codes "ChildrenChanged") (codes "add") 0 (text_data []))).apps ≡ [] }
{}

/// Its items make it held; without them it is unknown again.
pub fn loads()
    ensures rows { option_map (λ v. map (λ r. r.path) (labels v))
        (held_view
        (reader_takes (waiting (GetItems (codes ":1.7")) (known (codes ":1.7") ∷ []))
        (returned 20 (codes ":1.7")
        (items
        (item (codes "/r") (codes "/x") (codes "Demo")
        ∷ (item (codes "/a") (codes "/r") (codes "E") ∷ []))))) (codes ":1.7"))
        ≡ Some (codes "/r" ∷ (codes "/a" ∷ [])) }
    ensures no_rows { held_view
        (reader_takes (waiting (GetItems (codes ":1.7")) (known (codes ":1.7") ∷ []))
        (returned 20 (codes ":1.7") (items []))) (codes ":1.7") ≡ Some nil }
    ensures serial { last_taken
        (reader_takes (waiting (GetItems (codes ":1.7")) (known (codes ":1.7") ∷ []))
        (returned 20 (codes ":1.7") (items []))) (codes ":1.7") ≡ Some 9 }
    ensures again { (reader_takes
        (waiting (GetItems (codes ":1.7")) (record (held (codes ":1.7") window) { reload = true } ∷ []))
        (returned 20 (codes ":1.7") (items []))).apps ≡ record (held (codes ":1.7") nil) { last = 9 } ∷ [] }
    ensures fails { (reader_takes (waiting (GetItems (codes ":1.7")) (known (codes ":1.7") ∷ []))
        (failed 20 (codes ":1.7"))).apps ≡ [] }
    ensures fails_held { reader_takes (waiting (GetItems (codes ":1.7")) (held (codes ":1.7") window ∷ []))
        (failed 20 (codes "org.freedesktop.DBus")) ≡ record (waiting Hello []) { pending = None } }
    ensures misformed { (reader_takes (waiting (GetItems (codes ":1.7")) (known (codes ":1.7") ∷ []))
        (returned 20 (codes ":1.7") [])).apps ≡ [] }
    ensures by_stranger { (reader_takes (waiting (GetItems (codes ":1.7")) (known (codes ":1.7") ∷ []))
        (returned 20 (codes ":1.9") (items []))).apps ≡ known (codes ":1.7") ∷ [] }
    ensures unknown_now { (reader_takes (waiting (GetItems (codes ":1.7")) [])
        (returned 20 (codes ":1.7") (items []))).apps ≡ [] }
{}

/// The bus tells its end.
#[tactic(auto, unfolding(atspi_base::specs::valid_names::Names::is_bus_name, atspi_base::specs::valid_names::Elements::are_two_or_more, atspi_base::specs::valid_names::Elements::are_elements, atspi_base::specs::valid_names::Elements::parts_of))]
pub fn ends()
    ensures held { reader_takes (waiting Hello (held (codes ":1.7") window ∷ (known (codes ":1.8") ∷ [])))
        (owner_changed (codes "org.freedesktop.DBus") (codes ":1.7") (codes ":1.7") [])
        ≡ record (waiting Hello (known (codes ":1.8") ∷ []))
        { out = tells_end (codes ":1.7") ∷ (speaks (codes ":1.7") (codes "Demo, closed") ∷ []) } }
    ensures no_rows { (reader_takes (waiting Hello (held (codes ":1.7") nil ∷ []))
        (owner_changed (codes "org.freedesktop.DBus") (codes ":1.7") (codes ":1.7") [])).out
        ≡ tells_end (codes ":1.7") ∷ (speaks (codes ":1.7") (codes ", closed") ∷ []) }
    ensures known { reader_takes (waiting Hello (known (codes ":1.7") ∷ []))
        (owner_changed (codes "org.freedesktop.DBus") (codes ":1.7") (codes ":1.7") [])
        ≡ record (waiting Hello []) { out = tells_end (codes ":1.7") ∷ [] } }
    ensures nobody { reader_takes (waiting Hello (known (codes ":1.8") ∷ []))
        (owner_changed (codes "org.freedesktop.DBus") (codes ":1.7") (codes ":1.7") [])
        ≡ record (waiting Hello (known (codes ":1.8") ∷ [])) { out = tells_end (codes ":1.7") ∷ [] } }
    ensures well_known { reader_takes (waiting Hello (known (codes "a.b") ∷ []))
        (owner_changed (codes "org.freedesktop.DBus") (codes "a.b") (codes ":1.7") []) ≡ waiting Hello [] }
    ensures no_name { (reader_takes (waiting Hello [])
        (owner_changed (codes "org.freedesktop.DBus") (codes ":") (codes ":1.7") [])).out ≡ [] }
    ensures new_owner { reader_takes (waiting Hello (known (codes "a.b") ∷ []))
        (owner_changed (codes "org.freedesktop.DBus") (codes "a.b") (codes ":1.7") (codes ":1.8"))
        ≡ waiting Hello (known (codes "a.b") ∷ []) }
    ensures by_stranger { (reader_takes (waiting Hello (known (codes ":1.7") ∷ []))
        (owner_changed (codes ":1.9") (codes ":1.7") (codes ":1.7") [])).apps ≡ known (codes ":1.7") ∷ [] }
    ensures other_member { (reader_takes (waiting Hello (known (codes ":1.7") ∷ []))
        (record (owner_changed (codes "org.freedesktop.DBus") (codes ":1.7") (codes ":1.7") [])
        { member = Some (codes "NameLost") })).apps ≡ known (codes ":1.7") ∷ [] }
    ensures other_interface { (reader_takes (waiting Hello (known (codes ":1.7") ∷ []))
        (record (owner_changed (codes "org.freedesktop.DBus") (codes ":1.7") (codes ":1.7") [])
        { interface = Some (codes "a.b") })).apps ≡ known (codes ":1.7") ∷ [] }
    ensures call { (reader_takes (waiting Hello (known (codes ":1.7") ∷ []))
        (record (owner_changed (codes "org.freedesktop.DBus") (codes ":1.7") (codes ":1.7") []) { kind = 1 })).apps
        ≡ known (codes ":1.7") ∷ [] }
    ensures other_body { (reader_takes (waiting Hello (known (codes ":1.7") ∷ []))
        (record (owner_changed (codes "org.freedesktop.DBus") (codes ":1.7") (codes ":1.7") [])
        { body = text_data (codes ":1.7") ∷ [] })).apps ≡ known (codes ":1.7") ∷ [] }
{}

/// Which applications are held.
pub fn names()
    ensures one { held_names
        (waiting Hello (known (codes ":1.6") ∷ (held (codes ":1.7") window ∷ (held (codes ":1.8") nil ∷ []))))
        ≡ codes ":1.7" ∷ (codes ":1.8" ∷ []) }
    ensures known { held_view (waiting Hello (known (codes ":1.6") ∷ [])) (codes ":1.6") ≡ None }
    ensures nobody { held_view (waiting Hello []) (codes ":1.6") ≡ None }
    ensures serial { last_taken (waiting Hello (held (codes ":1.7") window ∷ [])) (codes ":1.7") ≡ Some 8 }
    ensures no_serial { last_taken (waiting Hello (known (codes ":1.7") ∷ [])) (codes ":1.7") ≡ None }
{}
