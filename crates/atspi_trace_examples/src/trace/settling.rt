//! What readers hold where nothing waits, which entry is due, and when all lines are done.

ghost use Rattle.std.specs.Prelude.{◌∷◌, [], None, Some};
ghost use Rattle.atspi_tree_model.specs.Forest.{nil, tree};
ghost use Rattle.atspi_script_lines.specs.declared.line.Line.TheVariants as line;
ghost use Rattle.atspi_match.specs.routing.Queues.{Bus};
ghost use Rattle.atspi_trace.specs.Causes as cause;
ghost use Rattle.atspi_trace.specs.Due.{Follows, FollowsAll, HoldsWell, IsDue, IsFollowed, IsThrough, SettledUnless};
ghost use Rattle.atspi_trace.specs.Entry.{busy, quiet};
ghost use Rattle.atspi_trace.specs.World.{World, a_reader, an_application, away, here, stopped};
ghost use Rattle.atspi_trace_examples.specs.trace.Small.{alone_world, exporter, holding, idle, named_app, owing, scene};
ghost use Rattle.atspi_trace_examples.specs.trace.Small.{text_held, text_row, text_told, unheld_world};

/// A reader follows an application whose tree it holds as it is now, with each part known.
pub fn followed()
    ensures same { IsFollowed nil (holding 0) }
    ensures another { IsFollowed (tree text_row nil nil) (holding 0) → ⊥ }
    ensures told { IsFollowed (tree text_row nil nil) text_told }
    ensures untold { IsFollowed (tree text_row nil nil) text_held → ⊥ }
    ensures held { HoldsWell nil (Some (holding 0)) }
    ensures not_held { HoldsWell nil None → ⊥ }
{}

/// Each reader that is here follows each application that is here; nobody else is asked for anything.
pub fn by_standing()
    ensures unheld { Follows idle 0 here (an_application exporter) → ⊥ }
    ensures stopped { Follows idle 0 stopped (an_application exporter) }
    ensures no_application { Follows idle 0 here (a_reader idle) }
    ensures reader { FollowsAll (named_app ∷ []) here (a_reader idle) → ⊥ }
    ensures left { FollowsAll (named_app ∷ []) away (a_reader idle) }
    ensures no_reader { FollowsAll (named_app ∷ []) here (an_application exporter) }
    ensures waits { (w : World) → SettledUnless w (Some cause.starts_reader) }
{}

/// An entry is due where it is next, where all rested well that was passed, and where it tells the truth.
pub fn due_entries()
    ensures next { (b : Bus) → IsDue (owing (alone_world b) (busy 5)) (busy 5) }
    ensures another { (b : Bus) → IsDue (owing (alone_world b) (busy 5)) (busy 6) → ⊥ }
    ensures untrue { (b : Bus) → IsDue (owing (unheld_world b) quiet) quiet → ⊥ }
    ensures passed { (b : Bus)
        → IsDue (record (owing (unheld_world b) (busy 5)) { passed = unheld_world b ∷ [] }) (busy 5) → ⊥ }
{}

/// All is done where nothing is owed, no line is left, and all rested well.
pub fn through()
    ensures done { (b : Bus) → IsThrough (scene (alone_world b) None) }
    ensures owed { (b : Bus) → IsThrough (owing (alone_world b) quiet) → ⊥ }
    ensures left { (b : Bus) → IsThrough (record (scene (alone_world b) None) { left = line.Exit 7 ∷ [] }) → ⊥ }
    ensures unsettled { (b : Bus) → IsThrough (scene (unheld_world b) None) → ⊥ }
{}
