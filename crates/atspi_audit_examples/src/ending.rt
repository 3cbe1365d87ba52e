//! Where a trace may end, where a line is refused, and where no event fits any more.

ghost use Rattle.std.specs.Prelude.{◌≡◌, ◌∷◌, [], None, Some};
ghost use Rattle.atspi_match.specs.routing.Queues.{Bus};
ghost use Rattle.atspi_protocol.specs.declared.following.question.Question.TheVariants.{Hello};
ghost use Rattle.atspi_protocol.specs.following.Calls.{asking};
ghost use Rattle.atspi_script_lines.specs.declared.line.Line.TheVariants.{Drain};
ghost use Rattle.atspi_script_lines.specs.declared.line.Party.TheVariants.{Reader};
ghost use Rattle.atspi_trace.specs.Due.{at_work, due};
ghost use Rattle.atspi_trace.specs.Entry.{quiet, sent};
ghost use Rattle.atspi_trace.specs.Work.{no_party};
ghost use Rattle.atspi_audit_due.specs.Fits.{EndsIn, FitsIn, refused_in};
ghost use Rattle.atspi_audit_examples.specs.Cases.{alone_world, lost, one_exit, owing_still, scene, stuck, unheld};
ghost use Rattle.atspi_audit_examples.specs.Cases.{unheld_freely};

/// Where all lines are done nothing is due, and a trace may end.
pub fn behind_all_lines()
    ensures nothing { (b : Bus) → due (scene (alone_world b)) ≡ None }
    ensures end { (b : Bus) → EndsIn (scene (alone_world b)) }
{}

/// Where the next line is refused nothing is due, and a trace may not end. It is refused once all that is owed before
/// it is written.
pub fn at_a_refused_line()
    ensures nothing { (b : Bus) → due (stuck b) ≡ None }
    ensures refused { (b : Bus) → refused_in one_exit (at_work (stuck b)) ≡ Some (1, no_party) }
    ensures not_yet { (b : Bus) → refused_in one_exit (at_work (owing_still b)) ≡ None }
    ensures no_end { (b : Bus) → EndsIn (stuck b) → ⊥ }
{}

/// Behind a dropped registry nothing is due, no line is looked at, and a trace may end.
pub fn behind_a_dropped_registry()
    ensures nothing { (b : Bus) → due (lost b) ≡ None }
    ensures not_refused { (b : Bus) → refused_in one_exit (at_work (lost b)) ≡ None }
    ensures end { (b : Bus) → EndsIn (lost b) }
{}

/// Where a line ended with nothing waiting and a reader does not hold what is there, what is due does not fit, and a
/// trace may not end; only a call of the reader's own fits, where it just took a message.
pub fn where_nothing_is_held()
    ensures next { (b : Bus) → due (unheld b (Drain ∷ [])) ≡ Some quiet }
    ensures no_event { (b : Bus) → FitsIn (unheld b (Drain ∷ [])) quiet → ⊥ }
    ensures no_end { (b : Bus) → EndsIn (unheld b []) → ⊥ }
    ensures own_call { (b : Bus) → FitsIn (unheld_freely b) (sent (Reader 0) (asking 5 Hello)) }
{}
