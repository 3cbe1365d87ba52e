//! The world that a script reached which ends with 9 or 13.

ghost use Rattle.std.specs.Prelude.{◌≡◌, ◌⊎◌, ◌∷◌, [], ℕ, List};
ghost use Rattle.atspi_script_lines.specs.declared.line.Party.TheVariants as party;
ghost use Rattle.atspi_match.specs.routing.Queues.{Bus};
ghost use Rattle.atspi_trace.specs.Causes.{exits};
ghost use Rattle.atspi_trace.specs.Entry.{Entry, dropped, exited, got, quiet, sent};
ghost use Rattle.atspi_trace.specs.Work.{doing, turning};
ghost use Rattle.atspi_trace.specs.World.{World};
ghost use Rattle.atspi_trace.specs.play.Breaking.{IsPast};
ghost use Rattle.atspi_run_replay.specs.Done.{EndsWith};
ghost use Rattle.atspi_run_replay.specs.declared.naming.Halt.TheVariants as halt;
ghost use Rattle.atspi_run_examples.specs.Small.{Reaches, call_message, call_waits, last_call, one_taken, playing};
ghost use Rattle.atspi_run_examples.specs.Small.{reader_stopped, registry_stopped, two_ends, two_letters};

/// With 9 it is the world behind the cause that took the registry away, and no other; and all that this cause writes
/// was written. An end of another takes no registry away.
pub fn lost()
    ensures behind { (b : Bus)
        → Reaches halt.RegistryLost (playing b) (doing (exits 0)) (exited party.Registry ∷ []) (registry_stopped b) }
    ensures no_other { (b : Bus) → (entries : List Entry) → (w : World)
        → Reaches halt.RegistryLost (playing b) (doing (exits 0)) entries w → w ≡ registry_stopped b }
    ensures not_before { (b : Bus) → (entries : List Entry)
        → Reaches halt.RegistryLost (playing b) (doing (exits 0)) entries (two_ends b) → ⊥ }
    ensures told { (b : Bus) → (w : World) → Reaches halt.RegistryLost (playing b) (doing (exits 0)) [] w → ⊥ }
    ensures reader { (b : Bus) → (entries : List Entry) → (w : World)
        → Reaches halt.RegistryLost (playing b) (doing (exits 1)) entries w → ⊥ }
{}

/// With 13 it is the world before the message that has no serial left, or the one behind it, and no other; the message
/// may be told or not.
pub fn spent()
    ensures before { (b : Bus) → Reaches halt.Spent (playing b) (doing last_call) [] (two_ends b) }
    ensures behind { (b : Bus) → Reaches halt.Spent (playing b) (doing last_call) [] (call_waits b) }
    ensures told { (b : Bus)
        → Reaches halt.Spent (playing b) (doing last_call) (sent (party.Reader 0) call_message ∷ []) (call_waits b) }
    ensures no_other { (b : Bus) → (entries : List Entry) → (w : World)
        → Reaches halt.Spent (playing b) (doing last_call) entries w → (w ≡ two_ends b) ⊎ (w ≡ call_waits b) }
    ensures not_stopped { (b : Bus) → (entries : List Entry)
        → Reaches halt.Spent (playing b) (doing last_call) entries (reader_stopped b) → ⊥ }
{}

/// In a later turn of a line it is the world behind the turns before it, and not the one before the line.
pub fn spent_later()
    ensures second { (b : Bus) → IsPast b.state.next
        → Reaches halt.Spent (two_letters b) (turning 2 2)
        (got (party.Reader 0) party.Bus 33 ∷ got (party.Reader 0) party.Bus 33 ∷ []) (one_taken b).world }
    ensures not_before { (b : Bus)
        → Reaches halt.Spent (two_letters b) (turning 2 2)
        (got (party.Reader 0) party.Bus 33 ∷ got (party.Reader 0) party.Bus 33 ∷ []) (two_letters b).world → ⊥ }
{}

/// With 9 the last thing that is told is that the registry was dropped; with 13 it may be anything.
pub fn last_entries()
    ensures last { EndsWith halt.RegistryLost (quiet ∷ dropped party.Registry 500 24 ∷ []) }
    ensures not_last { EndsWith halt.RegistryLost (dropped party.Registry 500 24 ∷ quiet ∷ []) → ⊥ }
    ensures another { EndsWith halt.RegistryLost (dropped (party.Reader 0) 500 24 ∷ []) → ⊥ }
    ensures nothing { EndsWith halt.RegistryLost [] → ⊥ }
    ensures spent { EndsWith halt.Spent [] }
{}
