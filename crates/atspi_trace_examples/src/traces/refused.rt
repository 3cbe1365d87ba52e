//! Traces of wrong bodies, each refused at the entry where it goes wrong.

ghost use Rattle.std.specs.Prelude.{◌≡◌, ◌∷◌, [], false, None, Some, codes};
ghost use Rattle.atspi_script_lines.specs.declared.line.Line.TheVariants as line;
ghost use Rattle.atspi_script_lines.specs.declared.line.Party.TheVariants as party;
ghost use Rattle.atspi_trace.specs.Entry.{got, spoke, showed, dropped, quiet};
ghost use Rattle.atspi_trace.specs.Hearing.{is_registered};
ghost use Rattle.atspi_trace.specs.World.{returned};
ghost use Rattle.atspi_trace.specs.Due.{Stands};
ghost use Rattle.atspi_trace_examples.specs.traces.Cases.{untold, unasked, telling, echo_first, speaking, ending};
ghost use Rattle.atspi_trace_examples.specs.traces.Cases.{ended, moving, half_moved, removed, left_behind, waiting};
ghost use Rattle.atspi_trace_examples.specs.traces.Cases.{idle, race, asked_items, scene};
ghost use Rattle.atspi_trace_examples.specs.traces.Runs.{knows_none, asking_at, asks_items, loaded_race, kept_before};
ghost use Rattle.atspi_trace_examples.specs.traces.Runs.{dropping, routed_to_none, two_up_world};

/// An application tells nobody who did not ask, and its announcement stands before its echoes.
pub fn of_applications()
    ensures unasked { Stands untold unasked → ⊥ }
    ensures echo_first { Stands telling echo_first → ⊥ }
{}

/// A reader speaks from the tree after the change; at the end of an application it speaks one line, and keeps no row.
/// What moves takes along what is below it, and what is removed takes it away. Before its patterns are registered it
/// may not ask for items.
pub fn of_readers()
    ensures stale { Stands speaking (spoke 0 0 (codes "OK")) → ⊥ }
    ensures no_closing_line { Stands ending (showed 0 0 None) → ⊥ }
    ensures rows_kept { Stands ended (showed 0 0 (Some [])) → ⊥ }
    ensures half_moved { Stands moving (showed 0 0 (Some half_moved)) → ⊥ }
    ensures left_behind { Stands removed (showed 0 0 (Some left_behind)) → ⊥ }
    ensures unregistered { is_registered (asked_items returned ∷ []) ≡ false }
{}

/// Nothing is quiet while a message waits, nor where a reader has asked nothing.
pub fn of_runs()
    ensures early { Stands waiting quiet → ⊥ }
    ensures unsettled { Stands idle quiet → ⊥ }
{}

/// It folds nothing in that came before the items. It asks for items only once each rule and each pattern of its start
/// was returned, and only of an application that the registry told it of.
pub fn of_loads()
    ensures kept_before { Stands loaded_race (showed 0 0 (Some kept_before)) → ⊥ }
    ensures no_rule { Stands (asking_at (knows_none 2 3) (codes ":1.0")) asks_items → ⊥ }
    ensures no_pattern { Stands (asking_at (knows_none 6 7) (codes ":1.0")) asks_items → ⊥ }
    ensures untold { Stands (asking_at (knows_none 0 0) (codes ":1.7")) asks_items → ⊥ }
{}

/// The messages of one sender are taken in their order, a call not ahead of a signal; a signal goes to nobody who asked
/// for none; and who is dropped is told with the bytes of the message that was too much.
pub fn of_the_bus()
    ensures order { Stands race (got (party.Reader 0) (party.App 0) 6) → ⊥ }
    ensures call_first { Stands (scene two_up_world (line.Turns 1 ∷ [])) (got party.Bus (party.App 0) 8) → ⊥ }
    ensures to_all { Stands routed_to_none (got (party.Reader 0) (party.App 0) 7) → ⊥ }
    ensures made_up { Stands dropping (dropped (party.Reader 0) 0 201) → ⊥ }
{}
