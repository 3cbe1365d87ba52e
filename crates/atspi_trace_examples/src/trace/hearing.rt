//! What a reader hears, as the laws of a trace see it.

ghost use Rattle.std.specs.Prelude.{◌≡◌, ◌∷◌, [], None, Some, codes};
ghost use Rattle.atspi_tree_model.specs.Forest.{nil};
ghost use Rattle.atspi_tree_model.specs.declared.step.Step.TheVariants.{SetName};
ghost use Rattle.atspi_script_lines.specs.declared.line.Party.TheVariants as party;
ghost use Rattle.atspi_protocol.specs.declared.following.question.Question.TheVariants.{GetChildren, GetItems, GetPart};
ghost use Rattle.atspi_protocol.specs.declared.following.question.Question.TheVariants.{Hello};
ghost use Rattle.atspi_protocol.specs.declared.news.part.PartName.TheVariants.{Caret, Text};
ghost use Rattle.atspi_protocol.specs.ends.Places.{references};
ghost use Rattle.atspi_protocol.specs.exporting.Exporter.{begins};
ghost use Rattle.atspi_protocol.specs.following.Calls.{asking};
ghost use Rattle.atspi_protocol.specs.following.Cases.{failed, owner_changed, returned};
ghost use Rattle.atspi_trace.specs.World as fate;
ghost use Rattle.atspi_trace.specs.Entry.{gone, spoke};
ghost use Rattle.atspi_trace.specs.Hearing.{answered_by, app_ended, ended_entries, fate_of, hears_letter, holding_of};
ghost use Rattle.atspi_trace.specs.Hearing.{holds_after, last_lines, lines_if_held, names_told, noted_of};
ghost use Rattle.atspi_trace.specs.Hearing.{question_returned, registry_after, step_lines, without};
ghost use Rattle.atspi_trace.specs.Ends.{plain};
ghost use Rattle.atspi_trace_examples.specs.trace.Small.{asked, call, ends, exporter, holder, holding, idle};
ghost use Rattle.atspi_trace_examples.specs.trace.Small.{letter_from, said};

/// A return or an error with its serial answers a call, and nothing else does.
pub fn fates()
    ensures return_ { fate_of (returned 20 (codes ":1.1") []) ≡ fate.returned }
    ensures error { fate_of (failed 20 (codes ":1.1")) ≡ fate.failed }
    ensures answered { answered_by (returned 20 (codes ":1.1") []) (call 20 Hello fate.waits)
        ≡ call 20 Hello fate.returned }
    ensures refused { answered_by (failed 20 (codes ":1.1")) (call 20 Hello fate.waits) ≡ call 20 Hello fate.failed }
    ensures other { answered_by (returned 21 (codes ":1.1") []) (call 20 Hello fate.waits) ≡ call 20 Hello fate.waits }
    ensures no_reply { answered_by (record (returned 20 (codes ":1.1") []) { kind = 4 }) (call 20 Hello fate.waits)
        ≡ call 20 Hello fate.waits }
    ensures question { question_returned (returned 20 (codes ":1.1") [])
        (call 19 Hello fate.returned ∷ call 20 GetChildren fate.waits ∷ []) ≡ Some GetChildren }
    ensures of_error { question_returned (failed 20 (codes ":1.1")) (call 20 GetChildren fate.waits ∷ []) ≡ None }
    ensures unasked { question_returned (returned 20 (codes ":1.1") []) (call 19 Hello fate.returned ∷ []) ≡ None }
    ensures nothing { question_returned (returned 20 (codes ":1.1") []) [] ≡ None }
{}

/// What is held of an application is told by its number; a return of all begins anew, behind the others; a part is told
/// besides.
pub fn held()
    ensures second { holding_of 1 (holding 0 ∷ holding 1 ∷ []) ≡ Some (holding 1) }
    ensures none { holding_of 2 (holding 0 ∷ holding 1 ∷ []) ≡ None }
    ensures without { without 0 (holding 0 ∷ holding 1 ∷ []) ≡ holding 1 ∷ [] }
    ensures loaded { holds_after 0 said (Some (GetItems (codes ":1.1")))
        (record (holding 0) { told = (codes "/a", Text) ∷ [] } ∷ holding 1 ∷ [])
        ≡ holding 1 ∷ record (holding 0) { last = 5 } ∷ [] }
    ensures part { holds_after 1 said (Some (GetPart (codes ":1.1") (codes "/b") Caret))
        (holding 0 ∷ record (holding 1) { told = (codes "/a", Text) ∷ [] } ∷ [])
        ≡ holding 0 ∷ record (holding 1) { last = 5; told = (codes "/a", Text) ∷ (codes "/b", Caret) ∷ [] } ∷ [] }
    ensures other { holds_after 1 (record said { tree = exporter.tree }) None (holding 0 ∷ holding 1 ∷ [])
        ≡ holding 0 ∷ record (holding 1) { tree = exporter.tree; last = 5 } ∷ [] }
    ensures noted { noted_of 0 said [] (holding 0 ∷ holding 1 ∷ []) ≡ record (holding 0) { last = 5 } ∷ holding 1 ∷ [] }
{}

/// The end of an application is told by the bus alone, by the application's unique name.
pub fn ends_told()
    ensures app { app_ended (ends idle)
        (letter_from party.Bus (owner_changed (codes "org.freedesktop.DBus") (codes ":1.1") (codes ":1.1") []))
        ≡ Some 0 }
    ensures by_another { app_ended (ends idle)
        (letter_from (party.App 1) (owner_changed (codes "org.freedesktop.DBus") (codes ":1.1") (codes ":1.1") []))
        ≡ None }
    ensures nobody { app_ended (ends idle)
        (letter_from party.Bus (owner_changed (codes "org.freedesktop.DBus") (codes ":1.9") (codes ":1.9") []))
        ≡ None }
    ensures new_owner { app_ended (ends idle)
        (letter_from party.Bus (owner_changed (codes "org.freedesktop.DBus") (codes ":1.1") [] (codes ":1.1")))
        ≡ None }
    ensures forgotten { (hears_letter (holder (holding 0 ∷ holding 1 ∷ [])) (ends idle)
        (letter_from party.Bus
        (owner_changed (codes "org.freedesktop.DBus") (codes ":1.1") (codes ":1.1") []))).holds
        ≡ holding 1 ∷ [] }
    ensures told { ended_entries 3 (holder (record (holding 0) { tree = exporter.tree } ∷ [])) (Some 0)
        ≡ gone 3 0 ∷ spoke 3 0 (codes "T, closed") ∷ [] }
    ensures not_held { ended_entries 3 idle (Some 0) ≡ gone 3 0 ∷ [] }
    ensures none { ended_entries 3 idle None ≡ [] }
{}

/// The registry's children are told by the return to the call for them, and so is who the registry is.
pub fn names()
    ensures children { names_told idle
        (returned 20 (codes ":1.0")
        (references ((codes ":1.1", codes "/r") ∷ (codes ":1.2", codes "/s") ∷ []) ∷ [])) (Some GetChildren)
        ≡ codes ":1.1" ∷ codes ":1.2" ∷ [] }
    ensures other { names_told idle (returned 20 (codes ":1.0") (references ((codes ":1.1", codes "/r") ∷ []) ∷ []))
        (Some Hello) ≡ [] }
    ensures registry { registry_after idle (returned 20 (codes ":1.0") []) (Some GetChildren) ≡ Some (codes ":1.0") }
    ensures still { registry_after (record idle { registry = Some (codes ":1.3") }) (returned 20 (codes ":1.0") [])
        (Some Hello) ≡ Some (codes ":1.3") }
    ensures named { (hears_letter (record (asked (call 20 GetChildren fate.waits ∷ [])) { named = codes ":1.7" ∷ [] })
        (ends idle)
        (letter_from party.Registry
        (returned 20 (codes ":1.0") (references ((codes ":1.1", codes "/r") ∷ []) ∷ [])))).named
        ≡ codes ":1.7" ∷ codes ":1.1" ∷ [] }
{}

/// It speaks where it holds the application and the message announces a step; at the end of what it holds it speaks one
/// line.
pub fn spoken()
    ensures no_step { step_lines (record said { tree = exporter.tree }) None ≡ [] }
    ensures not_held { lines_if_held None (record said { announces = Some (SetName 0 (codes "T")) }) ≡ [] }
    ensures no_rows { last_lines None ≡ [] }
    ensures closed { last_lines (Some (record (holding 0) { tree = (begins (codes "U")).tree }))
        ≡ codes "U, closed" ∷ [] }
    ensures rootless { last_lines (Some (holding 0)) ≡ codes ", closed" ∷ [] }
{}
