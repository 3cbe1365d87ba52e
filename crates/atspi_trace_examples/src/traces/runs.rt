//! Small runs, each of which may stand as it stands: from a world in mid-run, and one whole script.

ghost use Rattle.atspi_trace.specs.Due.{Goes, Lawful};
ghost use Rattle.atspi_trace_examples.specs.traces.Cases.{scene, race, step_scene, panels, reparenting, removing};
ghost use Rattle.atspi_trace_examples.specs.traces.Cases.{bus_world, leaving_world};
ghost use Rattle.atspi_trace_examples.specs.traces.Runs.{ready_scene, knows_none, late_trace, race_trace, moved_trace};
ghost use Rattle.atspi_trace_examples.specs.traces.Runs.{removed_trace, end_scene, end_trace, drop_trace, lost_trace};
ghost use Rattle.atspi_trace_examples.specs.traces.Runs.{short_life, short_trace};
ghost use Rattle.std.specs.Prelude.{codes, [], ◌∷◌};
ghost use Rattle.atspi_script_lines.specs.declared.line.Line.TheVariants as line;

/// A reader in the race between news and items, at a node that moves and at one that is removed, and at the end of an
/// application.
pub fn of_readers()
    ensures race { Goes race race_trace }
    ensures reparenting { Goes (step_scene panels reparenting) moved_trace }
    ensures removal { Goes (step_scene panels removing) removed_trace }
    ensures end { Goes end_scene end_trace }
{}

/// An application that starts when the reader's start is through: the reader takes the registry's news of it, and asks
/// for its items.
pub fn a_late_application()
    ensures { Goes (ready_scene (knows_none 0 0) (codes ":1.0")) late_trace }
{}

/// A reader that is dropped, and the registry: the others hear of the reader's end; behind the registry's nothing
/// follows.
pub fn drops()
    ensures reader { Goes (scene (bus_world 199) (line.Turns 1 ∷ [])) drop_trace }
    ensures registry { Goes (scene (leaving_world 188) (line.Turns 1 ∷ [])) lost_trace }
{}

/// A whole script: an application starts and exits.
pub fn a_short_life()
    ensures { Lawful short_life short_trace }
{}
