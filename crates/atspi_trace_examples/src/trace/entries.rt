//! Each event as an entry.

ghost use Rattle.std.specs.Prelude.{◌≡◌, ◌∷◌, [], None, Some, codes};
ghost use Rattle.atspi_trace_events.specs.declared.event.Event.TheVariants as event;
ghost use Rattle.atspi_tree_model.specs.declared.step.Step.TheVariants.{Remove};
ghost use Rattle.atspi_script_lines.specs.declared.line.Party.TheVariants as party;
ghost use Rattle.atspi_message.specs.Envelope.{envelope_of};
ghost use Rattle.atspi_message.specs.declared.message.Message.{Message};
ghost use Rattle.atspi_trace.specs.Entry.{busy, changed, dropped, entries_of, entry_of, exited, gone, got, heard};
ghost use Rattle.atspi_trace.specs.Entry.{quiet, sent, showed, spoke, started, unheard};

/// Ends start, stop and are dropped.
pub fn of_ends()
    ensures app { entry_of (event.Start (party.App 1) (Some (codes "T"))) ≡ started (party.App 1) (Some (codes "T")) }
    ensures reader { entry_of (event.Start (party.Reader 1) None) ≡ started (party.Reader 1) None }
    ensures exit { entry_of (event.Exit (party.App 1)) ≡ exited (party.App 1) }
    ensures dropped { entry_of (event.Dropped (party.Reader 1) 5 6) ≡ dropped (party.Reader 1) 5 6 }
{}

/// Messages are sent and taken, and turns are told.
pub fn of_messages()
    ensures sent { (m : Message) → entry_of (event.Sent (party.App 1) m) ≡ sent (party.App 1) (envelope_of m) }
    ensures got { entry_of (event.Got (party.Reader 1) (party.App 2) 3) ≡ got (party.Reader 1) (party.App 2) 3 }
    ensures busy { entry_of (event.Busy 5) ≡ busy 5 }
    ensures quiet { entry_of event.Quiet ≡ quiet }
    ensures all { entries_of (event.Busy 5 ∷ event.Quiet ∷ []) ≡ busy 5 ∷ quiet ∷ [] }
{}

/// An application's steps, and whom it hears.
pub fn of_applications()
    ensures step { entry_of (event.Step 1 (Remove 2)) ≡ changed 1 (Remove 2) }
    ensures hears { entry_of (event.Hears 1 (codes ":1.2") (codes "object")) ≡ heard 1 (codes ":1.2") (codes "object") }
    ensures deaf { entry_of (event.Deaf 1 (codes ":1.2") (codes "object")) ≡ unheard 1 (codes ":1.2") (codes "object") }
{}

/// What a reader speaks and shows, and whose end it tells.
pub fn of_readers()
    ensures line { entry_of (event.Say 1 2 (codes "x")) ≡ spoke 1 2 (codes "x") }
    ensures shown { entry_of (event.Show 1 2 None) ≡ showed 1 2 None }
    ensures gone { entry_of (event.Gone 1 2) ≡ gone 1 2 }
{}
