//! Worked cases, each by hand. The type checker computes them.

ghost use Rattle.std.specs.Prelude.{◌≡◌, ◌∷◌, [], None, Some, true, false, codes};
ghost use Rattle.atspi_types.specs.Data.{text_data};
ghost use Rattle.atspi_protocol.specs.ends.Places.{references};
ghost use Rattle.atspi_protocol.specs.declared.news.part.PartName.TheVariants.{Text, Caret};
ghost use Rattle.atspi_protocol.specs.declared.following.question.Question.TheVariants.{Hello, AddMatch, RegisterEvent};
ghost use Rattle.atspi_protocol.specs.declared.following.question.Question.TheVariants.{GetChildren, GetItems, GetPart};
ghost use Rattle.atspi_protocol.specs.following.ReaderState.{begins};
ghost use Rattle.atspi_protocol.specs.following.Takes.{starts, reader_takes};
ghost use Rattle.atspi_protocol.specs.following.Cases.{known, held, window, waiting, returned, failed, owner_changed};
ghost use Rattle.atspi_protocol.specs.following.Cases.{item, items, signal};
ghost use Rattle.atspi_reader_laws.specs.Laws.{IsReplyTo, RestsOnlyAtEnd, refused_of, is_given_up, GivesUp, BeginsAnew};
ghost use Rattle.atspi_reader_laws.specs.Laws.{ComesAnew, lacks_row, is_known, Forgets, is_of_start, fails_start};
ghost use Rattle.atspi_reader_laws.specs.Laws.{EndsStart, waits_for_start};
ghost use Rattle.atspi_reader_laws.specs.Laws.{IsStartOver, IsOfStart, AsksInOrder};

/// A message is the reply to the call that waits by its serial and its sender; where no call waits it is to none.
pub fn what_is_a_reply()
    ensures error { IsReplyTo (GetItems (codes ":1.7")) (waiting (GetItems (codes ":1.7")) [])
        (failed 20 (codes ":1.7")) }
    ensures other_serial { IsReplyTo (GetItems (codes ":1.7")) (waiting (GetItems (codes ":1.7")) [])
        (failed 19 (codes ":1.7")) → ⊥ }
    ensures other_sender { IsReplyTo (GetItems (codes ":1.7")) (waiting (GetItems (codes ":1.7")) [])
        (failed 20 (codes ":1.8")) → ⊥ }
    ensures other_question { IsReplyTo (GetItems (codes ":1.8")) (waiting (GetItems (codes ":1.7")) [])
        (failed 20 (codes ":1.7")) → ⊥ }
    ensures no_call { IsReplyTo Hello begins (failed 1 (codes "org.freedesktop.DBus")) → ⊥ }
{}

/// At rest is who knows all; not who has a start to come, or an application to load.
pub fn who_rests()
    ensures nothing_left { RestsOnlyAtEnd (record (waiting Hello []) { pending = None }) }
    ensures waits { RestsOnlyAtEnd (waiting Hello (known (codes ":1.7") ∷ [])) }
    ensures start_left { RestsOnlyAtEnd begins → ⊥ }
    ensures wish_left { RestsOnlyAtEnd (record (waiting Hello (known (codes ":1.7") ∷ [])) { pending = None }) → ⊥ }
{}

/// Given up are the refused parts of the application with the name, each by its path and its part.
pub fn what_is_given_up()
    ensures nobody { refused_of None ≡ [] }
    ensures somebody { refused_of (Some (record (known (codes ":1.7")) { refused = (codes "/a", Text) ∷ [] }))
        ≡ (codes "/a", Text) ∷ [] }
    ensures part { is_given_up
        (waiting Hello (record (known (codes ":1.7")) { refused = (codes "/a", Text) ∷ [] } ∷ [])) (codes ":1.7")
        (codes "/a") Text ≡ true }
    ensures other_part { is_given_up
        (waiting Hello (record (known (codes ":1.7")) { refused = (codes "/a", Text) ∷ [] } ∷ [])) (codes ":1.7")
        (codes "/a") Caret ≡ false }
    ensures other_path { is_given_up
        (waiting Hello (record (known (codes ":1.7")) { refused = (codes "/a", Text) ∷ [] } ∷ [])) (codes ":1.7")
        (codes "/b") Text ≡ false }
    ensures other_name { is_given_up
        (waiting Hello (record (known (codes ":1.7")) { refused = (codes "/a", Text) ∷ [] } ∷ [])) (codes ":1.8")
        (codes "/a") Text ≡ false }
{}

/// An error and a return of another form give a part up, and a text does not; the end of the name and any reply to the
/// call for all of it begin anew.
pub fn what_gives_up()
    ensures error { GivesUp (waiting (GetPart (codes ":1.7") (codes "/a") Text) []) (failed 20 (codes ":1.7"))
        (codes ":1.7") (codes "/a") Text }
    ensures misformed { GivesUp (waiting (GetPart (codes ":1.7") (codes "/a") Text) []) (returned 20 (codes ":1.7") [])
        (codes ":1.7") (codes "/a") Text }
    ensures told { GivesUp (waiting (GetPart (codes ":1.7") (codes "/a") Text) [])
        (returned 20 (codes ":1.7") (text_data (codes "x") ∷ [])) (codes ":1.7") (codes "/a") Text → ⊥ }
    ensures ended { BeginsAnew (waiting Hello [])
        (owner_changed (codes "org.freedesktop.DBus") (codes ":1.7") (codes ":1.7") []) (codes ":1.7") }
    ensures loaded { BeginsAnew (waiting (GetItems (codes ":1.7")) []) (returned 20 (codes ":1.7") (items []))
        (codes ":1.7") }
    ensures neither { BeginsAnew (waiting Hello []) (failed 20 (codes ":1.7")) (codes ":1.7") → ⊥ }
{}

/// An item comes anew for a path of which the application, where it is held, has no row; not one of another
/// application, and not for a row that is there.
pub fn what_comes_anew()
    ensures there { lacks_row (Some (held (codes ":1.7") window)) (codes "/a") ≡ false }
    ensures not_there { lacks_row (Some (held (codes ":1.7") window)) (codes "/b") ≡ true }
    ensures not_held { lacks_row (Some (known (codes ":1.7"))) (codes "/b") ≡ false }
    ensures nobody { lacks_row None (codes "/b") ≡ false }
    ensures anew { ComesAnew (waiting Hello (held (codes ":1.7") window ∷ []))
        (signal (codes ":1.7") (codes "/c") (codes "org.a11y.atspi.Cache") (codes "AddAccessible")
        (item (codes "/b") (codes "/a") (codes "N") ∷ [])) (codes ":1.7") (codes "/b") }
    ensures known_row { ComesAnew (waiting Hello (held (codes ":1.7") window ∷ []))
        (signal (codes ":1.7") (codes "/c") (codes "org.a11y.atspi.Cache") (codes "AddAccessible")
        (item (codes "/a") (codes "/r") (codes "N") ∷ [])) (codes ":1.7") (codes "/a") → ⊥ }
    ensures other_sender { ComesAnew (waiting Hello (held (codes ":1.7") window ∷ []))
        (signal (codes ":1.8") (codes "/c") (codes "org.a11y.atspi.Cache") (codes "AddAccessible")
        (item (codes "/b") (codes "/a") (codes "N") ∷ [])) (codes ":1.7") (codes "/b") → ⊥ }
{}

/// Forgotten is who ends, or tells no items.
pub fn who_is_forgotten()
    ensures known { is_known (waiting Hello (known (codes ":1.8") ∷ (known (codes ":1.7") ∷ []))) (codes ":1.7")
        ≡ true }
    ensures unknown { is_known (waiting Hello (known (codes ":1.8") ∷ [])) (codes ":1.7") ≡ false }
    ensures ended { Forgets (waiting Hello [])
        (owner_changed (codes "org.freedesktop.DBus") (codes ":1.7") (codes ":1.7") []) (codes ":1.7") }
    ensures other_ended { Forgets (waiting Hello [])
        (owner_changed (codes "org.freedesktop.DBus") (codes ":1.8") (codes ":1.8") []) (codes ":1.7") → ⊥ }
    ensures failed { Forgets (waiting (GetItems (codes ":1.7")) []) (failed 20 (codes ":1.7")) (codes ":1.7") }
    ensures told { Forgets (waiting (GetItems (codes ":1.7")) []) (returned 20 (codes ":1.7") (items [])) (codes ":1.7")
        → ⊥ }
{}

/// The questions of the start, and the others.
pub fn what_is_of_the_start()
    ensures hello { is_of_start Hello ≡ true }
    ensures rule { is_of_start (AddMatch (codes "type='signal'")) ≡ true }
    ensures pattern { is_of_start (RegisterEvent (codes "object:")) ≡ true }
    ensures children { is_of_start GetChildren ≡ true }
    ensures items { is_of_start (GetItems (codes ":1.7")) ≡ false }
    ensures part { is_of_start (GetPart (codes ":1.7") (codes "/a") Text) ≡ false }
    ensures none_waits { waits_for_start None ≡ false }
    ensures hello_waits { waits_for_start (Some (record { serial = 20; question = Hello })) ≡ true }
    ensures items_wait { waits_for_start (Some (record { serial = 20; question = GetItems (codes ":1.7") })) ≡ false }
{}

/// Which replies fail a call of the start.
#[tactic(auto, unfolding(atspi_base::specs::valid_names::Names::is_bus_name, atspi_base::specs::valid_names::Elements::are_two_or_more, atspi_base::specs::valid_names::Elements::are_elements, atspi_base::specs::valid_names::Elements::parts_of))]
pub fn what_fails_the_start()
    ensures named { fails_start Hello (returned 20 (codes "org.freedesktop.DBus") (text_data (codes ":1.3") ∷ []))
        ≡ false }
    ensures no_name { fails_start Hello (returned 20 (codes "org.freedesktop.DBus") (text_data (codes "a.b") ∷ []))
        ≡ true }
    ensures hello_fails { fails_start Hello
        (record (failed 20 (codes "org.freedesktop.DBus")) { body = text_data (codes ":1.3") ∷ [] }) ≡ true }
    ensures ruled { fails_start (AddMatch (codes "x")) (returned 20 (codes "org.freedesktop.DBus") []) ≡ false }
    ensures rule_fails { fails_start (AddMatch (codes "x")) (failed 20 (codes "org.freedesktop.DBus")) ≡ true }
    ensures registered { fails_start (RegisterEvent (codes "x")) (returned 20 (codes ":1.0") []) ≡ false }
    ensures pattern_fails { fails_start (RegisterEvent (codes "x")) (failed 20 (codes ":1.0")) ≡ true }
    ensures children { fails_start GetChildren (returned 20 (codes ":1.0") (references [] ∷ [])) ≡ false }
    ensures no_children { fails_start GetChildren (returned 20 (codes ":1.0") []) ≡ true }
    ensures children_fail { fails_start GetChildren (record (failed 20 (codes ":1.0")) { body = references [] ∷ [] })
        ≡ true }
    ensures items_fail { fails_start (GetItems (codes ":1.7")) (failed 20 (codes ":1.7")) ≡ false }
    ensures part_fails { fails_start (GetPart (codes ":1.7") (codes "/a") Text) (failed 20 (codes ":1.7")) ≡ false }
{}

/// Where a start is over, ends early, or goes on.
pub fn how_a_start_goes()
    ensures beginning { IsStartOver begins → ⊥ }
    ensures last_waits { IsStartOver (waiting GetChildren []) → ⊥ }
    ensures over { IsStartOver (waiting (GetItems (codes ":1.7")) []) }
    ensures fails { EndsStart (waiting Hello []) (failed 20 (codes "org.freedesktop.DBus")) }
    ensures fits { EndsStart (waiting (AddMatch (codes "x")) []) (returned 20 (codes "org.freedesktop.DBus") []) → ⊥ }
    ensures of_start { IsOfStart (record begins { to_come = GetItems (codes ":1.7") ∷ [] }) → ⊥ }
    ensures asks_first { AsksInOrder begins (starts begins) }
    ensures stays { AsksInOrder begins begins }
    ensures leaves_out { AsksInOrder begins (record begins { to_come = [] }) → ⊥ }
{}
