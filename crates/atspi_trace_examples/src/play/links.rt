//! Connections and numbers of ends, where they differ.

ghost use Rattle.std.specs.Prelude.{◌≡◌, ◌∷◌, [], None};
ghost use Rattle.atspi_script_lines.specs.declared.line.Party.TheVariants as party;
ghost use Rattle.atspi_match.specs.routing.Queues.{Bus};
ghost use Rattle.atspi_trace.specs.Causes as cause;
ghost use Rattle.atspi_trace.specs.Ends.{end_at};
ghost use Rattle.atspi_trace.specs.Entry.{got, showed};
ghost use Rattle.atspi_trace.specs.play.Plays.{got_at, plays};
ghost use Rattle.atspi_trace_examples.specs.play.Small.{at_link, hello_refused, playing};

/// A reader takes the message of its own connection, whatever its number: the letter is gone from that link, and told
/// as taken.
pub fn at_connections()
    ensures taken { (b : Bus)
        → (got_at (playing b (hello_refused ∷ hello_refused ∷ [])) 2 (party.Reader 1)
        (hello_refused ∷ hello_refused ∷ [])).entries ≡ got (party.Reader 1) party.Bus 33 ∷ [] }
    ensures link { (b : Bus)
        → at_link
        (end_at
        (got_at (playing b (hello_refused ∷ hello_refused ∷ [])) 2 (party.Reader 1)
        (hello_refused ∷ hello_refused ∷ [])).now.world.ends 2) ≡ hello_refused ∷ [] }
{}

/// Who is no reader shows nothing, also where a reader has the connection that is the application's number.
pub fn by_others()
    ensures app { (b : Bus) → plays (playing b []) (cause.shows 1 2) ≡ record { now = playing b []; entries = [] } }
    ensures reader { (b : Bus) → (plays (playing b []) (cause.shows 2 2)).entries ≡ showed 1 2 None ∷ [] }
{}
