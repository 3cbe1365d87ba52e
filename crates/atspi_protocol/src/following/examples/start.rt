//! The start of a reader: ten calls, each behind the reply to the one before.

ghost use Rattle.std.specs.Prelude.{◌≡◌, ◌∷◌, [], None, Some, codes, drop};
ghost use Rattle.atspi_types.specs.Data.{text_data};
ghost use Rattle.atspi_protocol.specs.ends.Places.{reference, references};
ghost use Rattle.atspi_protocol.specs.declared.following.question.Question.TheVariants.{Hello, AddMatch, RegisterEvent};
ghost use Rattle.atspi_protocol.specs.declared.following.question.Question.TheVariants.{GetChildren, GetItems};
ghost use Rattle.atspi_protocol.specs.following.ReaderState.{begins, start_calls, sends};
ghost use Rattle.atspi_protocol.specs.following.Calls.{asking};
ghost use Rattle.atspi_protocol.specs.following.Takes.{starts, reader_takes};
ghost use Rattle.atspi_protocol.specs.following.Cases.{waiting, returned, failed, known};

/// A reader begins with Hello.
pub fn begins_with_hello()
    ensures state { starts begins ≡ record {
      to_come = drop 1 start_calls;
      pending = Some (record { serial = 1; question = Hello });
      registry = None;
      apps = [];
      next = 2;
      out = sends (asking 1 Hello) ∷ [];
    } }
{}

/// A return takes it to the next call.
#[tactic(auto, unfolding(atspi_base::specs::valid_names::Names::is_bus_name, atspi_base::specs::valid_names::Elements::are_two_or_more, atspi_base::specs::valid_names::Elements::are_elements, atspi_base::specs::valid_names::Elements::parts_of))]
pub fn goes_on()
    ensures named { reader_takes (record (waiting Hello []) { to_come = GetChildren ∷ [] })
        (returned 20 (codes "org.freedesktop.DBus") (text_data (codes ":1.3") ∷ []))
        ≡ record (waiting GetChildren []) {
          pending = Some (record { serial = 21; question = GetChildren });
          next = 22;
          out = sends (asking 21 GetChildren) ∷ [];
        } }
    ensures ruled { (reader_takes (record (waiting (AddMatch (codes "x")) []) { to_come = GetChildren ∷ [] })
        (returned 20 (codes "org.freedesktop.DBus") [])).out ≡ sends (asking 21 GetChildren) ∷ [] }
    ensures registered { (reader_takes (record (waiting (RegisterEvent (codes "x")) []) { to_come = GetChildren ∷ [] })
        (returned 20 (codes ":1.0") [])).out ≡ sends (asking 21 GetChildren) ∷ [] }
    ensures other_serial { reader_takes (record (waiting Hello []) { to_come = GetChildren ∷ [] })
        (returned 19 (codes "org.freedesktop.DBus") (text_data (codes ":1.3") ∷ []))
        ≡ record (waiting Hello []) { to_come = GetChildren ∷ [] } }
    ensures no_serial { reader_takes (record (waiting Hello []) { to_come = GetChildren ∷ [] })
        (record (returned 19 (codes "org.freedesktop.DBus") (text_data (codes ":1.3") ∷ [])) { reply = None })
        ≡ record (waiting Hello []) { to_come = GetChildren ∷ [] } }
    ensures no_reply { reader_takes (record (waiting Hello []) { to_come = GetChildren ∷ [] })
        (record (returned 20 (codes "org.freedesktop.DBus") (text_data (codes ":1.3") ∷ [])) { kind = 1 })
        ≡ record (waiting Hello []) { to_come = GetChildren ∷ [] } }
{}

/// What ends it early: then nothing more is asked.
pub fn ends_early()
    ensures no_name { reader_takes (record (waiting Hello []) { to_come = GetChildren ∷ [] })
        (returned 20 (codes "org.freedesktop.DBus") (text_data (codes "a.b") ∷ []))
        ≡ record (waiting Hello []) { pending = None } }
    ensures no_text { reader_takes (record (waiting Hello []) { to_come = GetChildren ∷ [] })
        (returned 20 (codes "org.freedesktop.DBus") []) ≡ record (waiting Hello []) { pending = None } }
    ensures two_texts { reader_takes (record (waiting Hello []) { to_come = GetChildren ∷ [] })
        (returned 20 (codes "org.freedesktop.DBus") (text_data (codes ":1.3") ∷ (text_data (codes ":1.3") ∷ [])))
        ≡ record (waiting Hello []) { pending = None } }
    ensures hello_fails { reader_takes (record (waiting Hello []) { to_come = GetChildren ∷ [] })
        (failed 20 (codes "org.freedesktop.DBus")) ≡ record (waiting Hello []) { pending = None } }
    ensures rule_fails { reader_takes (record (waiting (AddMatch (codes "x")) []) { to_come = GetChildren ∷ [] })
        (failed 20 (codes "org.freedesktop.DBus")) ≡ record (waiting Hello []) { pending = None } }
    ensures pattern_fails { reader_takes
        (record (waiting (RegisterEvent (codes "x")) []) { to_come = GetChildren ∷ [] })
        (failed 20 (codes "org.freedesktop.DBus")) ≡ record (waiting Hello []) { pending = None } }
    ensures children_fail { reader_takes (waiting GetChildren []) (failed 20 (codes ":1.0"))
        ≡ record (waiting Hello []) { pending = None } }
    ensures no_children { reader_takes (waiting GetChildren [])
        (returned 20 (codes ":1.0") (text_data (codes "a.b") ∷ [])) ≡ record (waiting Hello []) { pending = None } }
{}

/// The registry's children become known, and the first of them is asked for its items.
#[tactic(auto, unfolding(atspi_base::specs::valid_names::Names::is_bus_name, atspi_base::specs::valid_names::Elements::are_two_or_more, atspi_base::specs::valid_names::Elements::are_elements, atspi_base::specs::valid_names::Elements::parts_of))]
pub fn children()
    ensures none { reader_takes (record (waiting GetChildren []) { registry = None })
        (returned 20 (codes ":1.0") (references [] ∷ [])) ≡ record (waiting Hello []) { pending = None } }
    ensures one { reader_takes (record (waiting GetChildren []) { registry = None })
        (returned 20 (codes ":1.0") (references ((codes ":1.7", codes "/r") ∷ []) ∷ []))
        ≡ record (waiting (GetItems (codes ":1.7")) (known (codes ":1.7") ∷ [])) {
          pending = Some (record { serial = 21; question = GetItems (codes ":1.7") });
          next = 22;
          out = sends (asking 21 (GetItems (codes ":1.7"))) ∷ [];
        } }
    ensures several { (reader_takes (record (waiting GetChildren []) { registry = None })
        (returned 20 (codes ":1.0")
        (references
        ((codes ":1.7", codes "/r")
        ∷ ((codes ":1.8", codes "/r") ∷ ((codes ":1.7", codes "/s") ∷ ((codes "x", codes "/r") ∷ []))))
        ∷ []))).apps
        ≡ known (codes ":1.7") ∷ (known (codes ":1.8") ∷ []) }
{}
