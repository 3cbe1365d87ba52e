//! The bus takes a message, or an end: who is handed what, and who is dropped.

ghost use Rattle.std.specs.Prelude.{◌≡◌, ◌∷◌, [], None, Some, codes};
ghost use Rattle.atspi_script_lines.specs.declared.line.Line.TheVariants as line;
ghost use Rattle.atspi_script_lines.specs.declared.line.Party.TheVariants as party;
ghost use Rattle.atspi_match.specs.routing.OwnMessages.{owner_changed, error_to};
ghost use Rattle.atspi_trace.specs.Causes.{does, routes};
ghost use Rattle.atspi_trace.specs.Entry.{sent, got, spoke, dropped, exited, showed};
ghost use Rattle.atspi_trace.specs.World.{first_registry};
ghost use Rattle.atspi_trace_examples.specs.traces.Cases.{due_entries, in_brief, greeting_world, greeted_brief, scene};
ghost use Rattle.atspi_trace_examples.specs.traces.Cases.{bus_world, leaving_world, exiting_world, exit_and_turn};
ghost use Rattle.atspi_trace_examples.specs.traces.Cases.{late_world, turns_and_show, registry_started};

/// An application gets its name: Hello is returned, and the two signals stand behind the return.
pub fn a_greeting()
    ensures { in_brief (does greeting_world (routes 1)).entries ≡ greeted_brief }
{}

/// A signal goes to the reader that asked for it, which speaks what it announces.
pub fn a_signal()
    ensures { due_entries 9 (scene (bus_world 1024) (line.Turns 2 ∷ []))
        ≡ got party.Bus (party.App 0) 7 ∷ got (party.Reader 0) (party.App 0) 7 ∷ spoke 0 0 (codes "Save") ∷ [] }
{}

/// The reader whose queue has no room for the 200 bytes is dropped, with these numbers, and the others hear of it.
pub fn a_dropped_reader()
    ensures { due_entries 3 (scene (bus_world 199) (line.Turns 1 ∷ []))
        ≡ got party.Bus (party.App 0) 7 ∷ dropped (party.Reader 0) 0 200
        ∷ sent party.Bus (record (owner_changed (codes ":1.2") (codes ":1.2") []) { serial = 30 }) ∷ [] }
{}

/// The end of a reader is told in 189 bytes. Where the registry's queue has no room for them, it is dropped, and
/// nothing follows.
pub fn a_dropped_registry()
    ensures { due_entries 9 (scene (leaving_world 188) (line.Turns 1 ∷ []))
        ≡ sent party.Bus (record (owner_changed (codes ":1.2") (codes ":1.2") []) { serial = 30 })
        ∷ dropped party.Registry 0 189 ∷ [] }
{}

/// An application exits: its end is the first thing that waits, and the bus tells it.
pub fn an_exit()
    ensures { due_entries 2 (scene exiting_world exit_and_turn)
        ≡ exited (party.App 0)
        ∷ sent party.Bus (record (owner_changed (codes ":1.1") (codes ":1.1") []) { serial = 30 }) ∷ [] }
{}

/// A call for the items of an application that left gets an error of the bus, and nothing is held.
pub fn a_late_question()
    ensures { due_entries 9 (scene late_world (turns_and_show 2))
        ≡ got party.Bus (party.Reader 0) 12
        ∷ sent party.Bus (record (error_to (Some (codes ":1.2")) 12 (codes "ServiceUnknown")) { serial = 30 })
        ∷ got (party.Reader 0) party.Bus 30 ∷ showed 0 0 None ∷ [] }
{}

/// The registry of the beginning is the registry behind its start, as it takes the return to its Hello.
pub fn the_registry_begins()
    ensures { registry_started ≡ first_registry.role }
{}
