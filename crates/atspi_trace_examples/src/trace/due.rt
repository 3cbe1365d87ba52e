//! What must stand next, part by part.

ghost use Rattle.std.specs.Prelude.{◌≡◌, ◌∷◌, [], None, Some, codes, true, false};
ghost use Rattle.atspi_script_lines.specs.declared.line.Line.TheVariants as line;
ghost use Rattle.atspi_script_lines.specs.declared.line.Party.TheVariants as party;
ghost use Rattle.atspi_protocol.specs.declared.following.question.Question.TheVariants.{Hello};
ghost use Rattle.atspi_protocol.specs.following.Calls.{asking};
ghost use Rattle.atspi_match.specs.routing.Queues.{Bus};
ghost use Rattle.atspi_trace.specs.World as fate;
ghost use Rattle.atspi_trace.specs.World.{World, a_reader, an_application, away, first_registry, stopped};
ghost use Rattle.atspi_trace.specs.Ends.{plain};
ghost use Rattle.atspi_trace.specs.Entry.{busy, quiet, sent};
ghost use Rattle.atspi_trace.specs.Causes as cause;
ghost use Rattle.atspi_trace.specs.Work.{draining, late, no_party, resting};
ghost use Rattle.atspi_trace.specs.Due.{Begun, IsOwn, IsSettled, Scene, TellsTruly, asks_as, asks_freely, bound};
ghost use Rattle.atspi_trace.specs.Due.{chosen, first_entry, freed as freed_by, happens, is_lost, own_or_due, progress};
ghost use Rattle.atspi_trace.specs.Due.{refusal_in, rest_entries, rested, unless_refused, without_first, writes, wrote};
ghost use Rattle.atspi_trace_examples.specs.trace.Small.{app, asked, call, exporter, idle, owing, reader, said, scene};
ghost use Rattle.atspi_trace_examples.specs.trace.Small.{with_ends, world};

/// The end that took a message may send a call of its own, and no other.
pub fn freed()
    ensures gets { freed_by (cause.gets 3) ≡ Some 3 }
    ensures routes { freed_by (cause.routes 3) ≡ None }
    ensures starts { freed_by cause.starts_reader ≡ None }
{}

/// Work goes on up to something that is to be written, which is then owed; entries are written in their order.
pub fn in_order()
    ensures nothing { (w : World) → wrote (λ v work. rested v) w (Some 3) draining [] ≡ rested w }
    ensures something { (w : World)
        → wrote (λ v work. rested v) w (Some 3) draining (quiet ∷ [])
        ≡ record { world = w; owing = quiet ∷ []; free = Some 3; work = draining } }
    ensures no_more { (w : World) → progress 0 w draining ≡ rested w }
    ensures bound { (b : Bus) → bound (world b idle) ≡ 8 }
    ensures first { first_entry (busy 5 ∷ quiet ∷ []) ≡ Some (busy 5) }
    ensures none { first_entry [] ≡ None }
    ensures rest { rest_entries (busy 5 ∷ quiet ∷ []) ≡ quiet ∷ [] }
    ensures no_rest { rest_entries [] ≡ [] }
    ensures written { (w : World) → without_first (record (owing w quiet) { passed = w ∷ [] }) ≡ scene w None }
    ensures owed { (w : World) → happens (owing w quiet) (busy 5) ≡ scene w None }
{}

/// A reader's own call takes its next serial, waits for its reply, and stands on its up link; whoever is not free sends
/// none.
pub fn own_calls()
    ensures asks { asks_as (a_reader idle) said.message Hello (reader 0 idle)
        ≡ record (reader 0 (record (asked (call 5 Hello fate.waits ∷ [])) { next = 6 })) { up = said ∷ [] } }
    ensures no_reader { asks_as (an_application exporter) said.message Hello (app 0) ≡ app 0 }
    ensures not_free { (w : World) → asks_freely (scene w None) None said.message Hello ≡ scene w None }
    ensures free { (b : Bus)
        → asks_freely (scene (with_ends b (reader 0 idle ∷ [])) (Some 0)) (Some 0) (asking 5 Hello) Hello
        ≡ scene
        (with_ends b
        (record (reader 0 (record (asked (call 5 Hello fate.waits ∷ [])) { next = 6 }))
        { up = plain (asking 5 Hello) ∷ [] } ∷ [])) None }
    ensures chosen { (b : Bus)
        → chosen (scene (with_ends b (reader 0 idle ∷ [])) (Some 0)) (sent (party.Reader 0) (asking 5 Hello))
        ≡ scene
        (with_ends b
        (record (reader 0 (record (asked (call 5 Hello fate.waits ∷ [])) { next = 6 }))
        { up = plain (asking 5 Hello) ∷ [] } ∷ [])) None }
    ensures of_app { (s : Scene) → chosen s (sent (party.App 0) (asking 5 Hello)) ≡ writes s }
    ensures no_question { (s : Scene) → own_or_due s said.message None ≡ writes s }
    ensures no_own { (s : Scene) → IsOwn s quiet → ⊥ }
{}

/// A refused line ends the script, and the line behind a trace is the one that is refused.
pub fn refused_lines()
    ensures stuck { (s stuck : Scene) → unless_refused (Some late) s stuck ≡ stuck }
    ensures goes_on { (s stuck : Scene) → unless_refused None s stuck ≡ s }
    ensures line { (b : Bus) → refusal_in (world b idle) (line.Exit 7 ∷ line.Drain ∷ []) ≡ Some no_party }
    ensures no_line { (w : World) → refusal_in w [] ≡ None }
    ensures begun { Begun [] [] }
{}

/// The script is over where the registry is not here any more.
pub fn without_registry()
    ensures here { (b : Bus) → is_lost (with_ends b (first_registry ∷ [])) ≡ false }
    ensures stopped { (b : Bus) → is_lost (with_ends b (record first_registry { standing = stopped } ∷ [])) ≡ true }
    ensures dropped { (b : Bus)
        → is_lost (with_ends b (record first_registry { standing = away } ∷ app 0 ∷ [])) ≡ true }
    ensures nobody { (b : Bus) → is_lost (with_ends b []) ≡ false }
{}

/// That nothing waits is told where each reader that is here holds each application that is here; that something waits
/// is told anyhow.
pub fn truths()
    ensures unheld { (b : Bus) → TellsTruly quiet (world b idle) → ⊥ }
    ensures busy { (b : Bus) → TellsTruly (busy 5) (world b idle) }
    ensures nobody { (b : Bus) → TellsTruly quiet (with_ends b (first_registry ∷ [])) }
    ensures unsettled { (b : Bus) → IsSettled (world b idle) → ⊥ }
{}
