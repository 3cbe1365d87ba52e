//! An application alone.

ghost use Rattle.std.specs.Prelude.{◌≡◌, ◌∷◌, [], None};
ghost use Rattle.atspi_script_lines.specs.declared.line.Line.TheVariants as line;
ghost use Rattle.atspi_trace.specs.Due.{begins, due, refusal_at};
ghost use Rattle.atspi_trace.specs.Work.{no_party, no_spare};
ghost use Rattle.atspi_trace_examples.specs.traces.Cases.{due_entries, alone, alone_trace};

/// It starts and says Hello; nobody listens, so its steps are told to nobody.
pub fn an_application_alone()
    ensures entries { due_entries 9 (begins alone) ≡ alone_trace }
    ensures accepted { refusal_at alone alone_trace ≡ None }
{}
