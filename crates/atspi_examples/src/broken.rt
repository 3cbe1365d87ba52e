//! Lines that are broken off: when serials are spent, what was done of a line so far, and where the registry is lost.

ghost use Rattle.std.specs.Prelude.{◌≡◌, ◌∷◌, [], codes};
ghost use Rattle.atspi_script_lines.specs.declared.line.Party.TheVariants as party;
ghost use Rattle.atspi_protocol.specs.exporting.Exporter as exporting;
ghost use Rattle.atspi_protocol.specs.following.Calls.{asking};
ghost use Rattle.atspi_protocol.specs.registering.RegistryState as registering;
ghost use Rattle.atspi_match.specs.routing.Queues.{Bus};
ghost use Rattle.atspi_trace.specs.Entry.{Entry, busy, exited, got, sent};
ghost use Rattle.atspi_trace.specs.World.{Hearer, a_reader, an_application, the_registry};
ghost use Rattle.atspi_trace.specs.Causes as cause;
ghost use Rattle.atspi_trace.specs.Work.{Work, doing, draining, resting, turning};
ghost use Rattle.atspi_trace.specs.play.Breaking.{HasSpent, IsLostAt, IsPast, IsSpent, IsSpentAt, PlaysOn};
ghost use Rattle.atspi_trace.specs.play.Playing.{Playing};
ghost use Rattle.atspi_trace.specs.play.Plays.{plays};
ghost use Rattle.atspi_examples.specs.Players.{at_rest, caret, first_rule, hello_returned, hello_waits, holder};
ghost use Rattle.atspi_examples.specs.Players.{playing, resting_world, starting_world};

/// The next serial is past the last where one that was used needs more than 32 bits; a reader's stands elsewhere than
/// in its role.
pub fn past()
    ensures last { IsPast 4294967296 → ⊥ }
    ensures past { IsPast 4294967297 }
    ensures registry { HasSpent (the_registry (record registering.begins { next = 4294967297 })) }
    ensures registry_not { HasSpent (the_registry (record registering.begins { next = 4294967296 })) → ⊥ }
    ensures application { HasSpent (an_application (record (exporting.begins (codes "T")) { next = 4294967297 })) }
    ensures application_not { HasSpent (an_application (record (exporting.begins (codes "T")) { next = 4294967296 }))
        → ⊥ }
    ensures reader { (h : Hearer) → HasSpent (a_reader h) → ⊥ }
{}

/// Serials are spent by the bus, by an end that answers, and by a reader; here by none.
pub fn spent()
    ensures bus { (b : Bus) → IsPast b.state.next → IsSpent (at_rest b) }
    ensures reader { (b : Bus) → IsSpent (playing (resting_world b []) (record holder { next = 4294967297 })) }
    ensures nobody { (b : Bus) → (IsPast b.state.next → ⊥) → IsSpent (at_rest b) → ⊥ }
{}

/// Nothing of a line was done; a turn of one was, and behind it all was told; of one at rest nothing ever is.
pub fn so_far()
    ensures nothing { (b : Bus) → PlaysOn (at_rest b) draining [] (at_rest b) draining }
    ensures turn { (b : Bus)
        → PlaysOn (playing (starting_world b (hello_returned ∷ [])) hello_waits) (turning 1 1)
        (got (party.Reader 1) party.Bus 33 ∷ sent (party.Reader 1) (asking 2 first_rule) ∷ [])
        (plays (playing (starting_world b (hello_returned ∷ [])) hello_waits) (cause.gets 4)).now (turning 1 0) }
    ensures both { (b : Bus)
        → PlaysOn (playing (starting_world b (hello_returned ∷ [])) hello_waits) (turning 1 1)
        (got (party.Reader 1) party.Bus 33 ∷ sent (party.Reader 1) (asking 2 first_rule) ∷ busy 1 ∷ [])
        (plays (plays (playing (starting_world b (hello_returned ∷ [])) hello_waits) (cause.gets 4)).now
        (cause.tells_busy 1)).now resting }
    ensures resting { (b : Bus) → (entry : Entry) → (q : Playing) → (last : Work)
        → PlaysOn (at_rest b) resting (entry ∷ []) q last → ⊥ }
{}

/// A call that takes a reader's serials past the last may be written or not; where the registry's end stops all of that
/// is written.
pub fn ends()
    ensures spent { (b : Bus)
        → IsSpentAt (playing (resting_world b []) (record holder { next = 4294967296 }))
        (doing (cause.calls 4 (codes ":1.1") 1 caret)) [] }
    ensures written { (b : Bus)
        → IsSpentAt (playing (resting_world b []) (record holder { next = 4294967296 }))
        (doing (cause.calls 4 (codes ":1.1") 1 caret))
        (plays (playing (resting_world b []) (record holder { next = 4294967296 }))
        (cause.calls 4 (codes ":1.1") 1 caret)).entries }
    ensures lost { (b : Bus) → IsLostAt (at_rest b) (doing (cause.exits 0)) (exited party.Registry ∷ []) }
{}
