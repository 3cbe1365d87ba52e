//! Worlds whose readers are those of their own definitions: what each cause does there, and which lines are refused.

ghost use Rattle.std.specs.Prelude.{◌≡◌, ℕ, List, ◌∷◌, ◌++◌, [], length, None, Some, codes, false};
ghost use Rattle.atspi_script_lines.specs.declared.limits.TheConstants.{QUOTA_MOST};
ghost use Rattle.atspi_script_lines.specs.declared.line.Line.{Line};
ghost use Rattle.atspi_script_lines.specs.declared.line.Line.TheVariants as line;
ghost use Rattle.atspi_script_lines.specs.declared.line.Party.TheVariants as party;
ghost use Rattle.atspi_tree_model.specs.Forest.{nil};
ghost use Rattle.atspi_message.specs.Bytes.{written};
ghost use Rattle.atspi_protocol.specs.declared.following.question.Question.TheVariants.{Hello};
ghost use Rattle.atspi_protocol.specs.following.ReaderState.{begins, sends, speaks, tells_end};
ghost use Rattle.atspi_protocol.specs.following.Calls.{asking};
ghost use Rattle.atspi_match.specs.routing.Queues.{Bus};
ghost use Rattle.atspi_trace.specs.Entry.{Entry, sent, got, spoke, showed, gone, exited, started, busy, quiet};
ghost use Rattle.atspi_trace.specs.World.{Said, first_world, waits};
ghost use Rattle.atspi_trace.specs.Ends.{end_at, plain};
ghost use Rattle.atspi_trace.specs.Causes as cause;
ghost use Rattle.atspi_trace.specs.Due.{is_lost};
ghost use Rattle.atspi_trace.specs.Work.{dead, draining, moving_up, no_party, not_held, resting, turning, work_of};
ghost use Rattle.atspi_trace.specs.play.Playing.{Playing, first_playing, held_by, silent, unique_in, view_in};
ghost use Rattle.atspi_trace.specs.play.Playing.{view_rows};
ghost use Rattle.atspi_trace.specs.play.Plays.{asked, asked_with, got_at, got_by, of_app, plays, reader_got, told};
ghost use Rattle.atspi_trace.specs.play.Plays.{with_reader};
ghost use Rattle.atspi_trace.specs.play.Played.{IsPlayed, PlaysOut, if_viewed, refused};
ghost use Rattle.atspi_examples.specs.Players.{at_rest, busy_reader, bytes_world, caret, caret_call, end_of_named};
ghost use Rattle.atspi_examples.specs.Players.{exited_world, first_rule, five_ends};
ghost use Rattle.atspi_examples.specs.Players.{halted, hearer, hello_returned, hello_waits, hello_waits_at, holder};
ghost use Rattle.atspi_examples.specs.Players.{idle_reader, loud, named_app, nameless_app, new_reader, playing};
ghost use Rattle.atspi_examples.specs.Players.{registry_world, resting_world, rule_waits, rule_waits_at};
ghost use Rattle.atspi_examples.specs.Players.{starting_world, two_rows, two_shown};

/// A view is had of an application with a name, by a reader that is there.
pub fn views()
    ensures neither { held_by None None ≡ None }
    ensures no_name { held_by (Some holder) None ≡ None }
    ensures no_reader { held_by None (Some (codes ":1.1")) ≡ None }
    ensures both { held_by (Some holder) (Some (codes ":1.1")) ≡ Some two_rows }
    ensures other_name { held_by (Some holder) (Some (codes ":1.2")) ≡ None }
    ensures no_end { unique_in None ≡ None }
    ensures not_yet { unique_in (Some nameless_app) ≡ None }
    ensures named { unique_in (Some named_app) ≡ Some (codes ":1.1") }
    ensures by_number { (b : Bus) → view_in (at_rest b) 1 (Some (codes ":1.1")) ≡ Some two_rows }
    ensures by_other { (b : Bus) → view_in (at_rest b) 0 (Some (codes ":1.1")) ≡ None }
    ensures by_nobody { (b : Bus) → view_in (at_rest b) 2 (Some (codes ":1.1")) ≡ None }
{}

/// Its rows as they are shown: the root has no parent.
pub fn rows()
    ensures none { view_rows None ≡ None }
    ensures empty { view_rows (Some nil) ≡ Some [] }
    ensures two { view_rows (Some two_rows) ≡ Some two_shown }
{}

/// What a reader did is taken from it, and nothing else is; at the beginning there is no reader.
pub fn begun()
    ensures silent { silent (loud (tells_end (codes ":1.1") ∷ [])) ≡ holder }
    ensures readers { (quota : ℕ) → (first_playing quota).readers ≡ [] }
    ensures world { (quota : ℕ) → (first_playing quota).world ≡ first_world quota }
{}

/// What a reader did, as entries: what it tells of a name that was nobody's is left out.
pub fn entries()
    ensures nobody { of_app None (gone 3) ≡ [] }
    ensures somebody { of_app (Some 5) (gone 3) ≡ gone 3 5 ∷ [] }
    ensures message { told 3 (five_ends idle_reader) (sends caret_call) ≡ sent (party.Reader 3) caret_call ∷ [] }
    ensures line { told 3 (five_ends idle_reader) (speaks (codes ":1.1") (codes "Save"))
        ≡ spoke 3 1 (codes "Save") ∷ [] }
    ensures line_of_nobody { told 3 (five_ends idle_reader) (speaks (codes ":1.9") (codes "Save")) ≡ [] }
    ensures end { told 3 (five_ends idle_reader) (tells_end (codes ":1.1")) ≡ gone 3 1 ∷ [] }
    ensures end_of_nobody { told 3 (five_ends idle_reader) (tells_end (codes ":1.9")) ≡ [] }
{}

/// A call of a reader's own goes on its up link, is counted and waits; what else it does changes no end.
pub fn own_calls()
    ensures no_question { (b : Bus) → asked_with 4 (resting_world b []) caret_call None ≡ resting_world b [] }
    ensures question { (b : Bus)
        → end_at (asked_with 4 (resting_world b []) (asking 21 first_rule) (Some first_rule)).ends 4
        ≡ Some
        (record (busy_reader (hearer (record { serial = 21; question = first_rule; fate = waits } ∷ []) 22) [])
        { up = plain (asking 21 first_rule) ∷ [] }) }
    ensures others { (b : Bus)
        → end_at (asked_with 4 (resting_world b []) (asking 21 first_rule) (Some first_rule)).ends 3
        ≡ Some idle_reader }
    ensures own { (b : Bus) → end_at (asked 4 (resting_world b []) (sends (asking 21 first_rule))).ends 4
        ≡ Some
        (record (busy_reader (hearer (record { serial = 21; question = first_rule; fate = waits } ∷ []) 22) [])
        { up = plain (asking 21 first_rule) ∷ [] }) }
    ensures user { (b : Bus) → asked 4 (resting_world b []) (sends caret_call) ≡ resting_world b [] }
    ensures line { (b : Bus)
        → asked 4 (resting_world b []) (speaks (codes ":1.1") (codes "Save")) ≡ resting_world b [] }
    ensures end { (b : Bus) → asked 4 (resting_world b []) (tells_end (codes ":1.1")) ≡ resting_world b [] }
{}

/// The reader with the number changes; where there is none, nothing does.
pub fn readers()
    ensures second { with_reader 1 silent (loud (sends caret_call ∷ []) ∷ loud (sends caret_call ∷ []) ∷ [])
        ≡ loud (sends caret_call ∷ []) ∷ holder ∷ [] }
    ensures none { with_reader 2 silent (loud (sends caret_call ∷ []) ∷ loud (sends caret_call ∷ []) ∷ [])
        ≡ loud (sends caret_call ∷ []) ∷ loud (sends caret_call ∷ []) ∷ [] }
{}

/// A reader takes the return to its Hello, upon which it asks for its first rule; and the news of an end, of which it
/// speaks.
#[tactic(auto, unfolding(atspi_base::specs::valid_names::Names::is_bus_name, atspi_base::specs::valid_names::Elements::are_two_or_more, atspi_base::specs::valid_names::Elements::are_elements, atspi_base::specs::valid_names::Elements::parts_of))]
pub fn taken()
    ensures entries { (b : Bus)
        → (reader_got (playing (starting_world b (hello_returned ∷ [])) hello_waits) 4 1 hello_returned
        (Some hello_waits)).entries
        ≡ got (party.Reader 1) party.Bus 33 ∷ sent (party.Reader 1) (asking 2 first_rule) ∷ [] }
    ensures readers { (b : Bus)
        → (reader_got (playing (starting_world b (hello_returned ∷ [])) hello_waits) 4 1 hello_returned
        (Some hello_waits)).now.readers ≡ begins ∷ rule_waits ∷ [] }
    ensures end { (b : Bus)
        → end_at
        (reader_got (playing (starting_world b (hello_returned ∷ [])) hello_waits) 4 1 hello_returned
        (Some hello_waits)).now.world.ends 4 ≡ Some rule_waits_at }
    ensures end_news { (b : Bus)
        → (reader_got (playing (resting_world b (end_of_named ∷ [])) holder) 4 1 end_of_named (Some holder)).entries
        ≡ got (party.Reader 1) party.Bus 34 ∷ gone 1 1 ∷ spoke 1 1 (codes ", closed") ∷ [] }
    ensures end_readers { (b : Bus)
        → (reader_got (playing (resting_world b (end_of_named ∷ [])) holder) 4 1 end_of_named (Some holder)).now.readers
        ≡ begins ∷ record holder { apps = [] } ∷ [] }
    ensures no_state { (b : Bus)
        → (reader_got (playing (starting_world b (hello_returned ∷ [])) hello_waits) 4 2 hello_returned None).entries
        ≡ got (party.Reader 1) party.Bus 33 ∷ [] }
    ensures no_state_readers { (b : Bus)
        → (reader_got (playing (starting_world b (hello_returned ∷ [])) hello_waits) 4 2 hello_returned
        None).now.readers ≡ begins ∷ hello_waits ∷ [] }
{}

/// The end that takes a message: the reader with its number; one that is no reader, one with an empty link and none at
/// all leave the readers.
#[tactic(auto, unfolding(atspi_base::specs::valid_names::Names::is_bus_name, atspi_base::specs::valid_names::Elements::are_two_or_more, atspi_base::specs::valid_names::Elements::are_elements, atspi_base::specs::valid_names::Elements::parts_of))]
pub fn takers()
    ensures reader { (b : Bus)
        → (got_at (playing (starting_world b (hello_returned ∷ [])) hello_waits) 4 (party.Reader 1)
        (hello_returned ∷ [])).now.readers ≡ begins ∷ rule_waits ∷ [] }
    ensures stateless { (b : Bus)
        → (got_at (record { world = starting_world b (hello_returned ∷ []); readers = begins ∷ [] }) 4 (party.Reader 1)
        (hello_returned ∷ [])).now.readers ≡ begins ∷ [] }
    ensures empty { (b : Bus) → got_at (at_rest b) 4 (party.Reader 1) [] ≡ record { now = at_rest b; entries = [] } }
    ensures registry { (b : Bus)
        → (got_at (playing (registry_world b) hello_waits) 0 party.Registry (hello_returned ∷ [])).entries
        ≡ got party.Registry party.Bus 33 ∷ [] }
    ensures registry_readers { (b : Bus)
        → (got_at (playing (registry_world b) hello_waits) 0 party.Registry (hello_returned ∷ [])).now.readers
        ≡ begins ∷ hello_waits ∷ [] }
    ensures nobody { (b : Bus) → got_by (at_rest b) 5 None ≡ record { now = at_rest b; entries = [] } }
    ensures somebody { (b : Bus)
        → (got_by (playing (starting_world b (hello_returned ∷ [])) hello_waits) 4
        (Some (hello_waits_at (hello_returned ∷ [])))).entries
        ≡ got (party.Reader 1) party.Bus 33 ∷ sent (party.Reader 1) (asking 2 first_rule) ∷ [] }
{}

/// What a cause does to the readers: a quota begins anew, a reader that starts stands behind the others and waits for
/// its Hello, a user's call is counted.
pub fn causes()
    ensures quota { (b : Bus) → (quota : ℕ)
        → plays (at_rest b) (cause.renews quota)
        ≡ record { now = record { world = first_world quota; readers = [] }; entries = [] } }
    ensures started { (b : Bus)
        → (plays (at_rest b) cause.starts_reader).now.readers ≡ begins ∷ holder ∷ hello_waits ∷ [] }
    ensures start { (b : Bus)
        → (plays (at_rest b) cause.starts_reader).entries
        ≡ started (party.Reader 2) None ∷ sent (party.Reader 2) (asking 1 Hello) ∷ [] }
    ensures start_end { (b : Bus) → end_at (plays (at_rest b) cause.starts_reader).now.world.ends 5 ≡ Some new_reader }
    ensures call { (b : Bus)
        → (plays (at_rest b) (cause.calls 4 (codes ":1.1") 1 caret)).entries ≡ sent (party.Reader 1) caret_call ∷ [] }
    ensures call_readers { (b : Bus)
        → (plays (at_rest b) (cause.calls 4 (codes ":1.1") 1 caret)).now.readers
        ≡ begins ∷ record holder { next = 22 } ∷ [] }
    ensures call_end { (b : Bus)
        → end_at (plays (at_rest b) (cause.calls 4 (codes ":1.1") 1 caret)).now.world.ends 4
        ≡ Some (record (busy_reader (hearer [] 22) []) { up = plain caret_call ∷ [] }) }
{}

/// It shows its own view, and nothing where it has none; who is no reader shows nothing.
pub fn shows()
    ensures held { (b : Bus)
        → plays (at_rest b) (cause.shows 4 1) ≡ record { now = at_rest b; entries = showed 1 1 (Some two_shown) ∷ [] } }
    ensures not_held { (b : Bus)
        → plays (at_rest b) (cause.shows 3 1) ≡ record { now = at_rest b; entries = showed 0 1 None ∷ [] } }
    ensures nameless { (b : Bus)
        → plays (at_rest b) (cause.shows 4 0) ≡ record { now = at_rest b; entries = showed 1 0 None ∷ [] } }
    ensures no_reader { (b : Bus) → plays (at_rest b) (cause.shows 2 1) ≡ record { now = at_rest b; entries = [] } }
{}

/// A message is taken by the reader of the connection; of all else the readers see nothing.
#[tactic(auto, unfolding(atspi_base::specs::valid_names::Names::is_bus_name, atspi_base::specs::valid_names::Elements::are_two_or_more, atspi_base::specs::valid_names::Elements::are_elements, atspi_base::specs::valid_names::Elements::parts_of))]
pub fn others()
    ensures takes { (b : Bus)
        → (plays (playing (starting_world b (hello_returned ∷ [])) hello_waits) (cause.gets 4)).now.readers
        ≡ begins ∷ rule_waits ∷ [] }
    ensures takes_none { (b : Bus) → plays (at_rest b) (cause.gets 3) ≡ record { now = at_rest b; entries = [] } }
    ensures exit { (b : Bus) → (plays (at_rest b) (cause.exits 2)).entries ≡ exited (party.App 1) ∷ [] }
    ensures exit_readers { (b : Bus) → (plays (at_rest b) (cause.exits 2)).now.readers ≡ begins ∷ holder ∷ [] }
    ensures reader_exits { (b : Bus) → (plays (at_rest b) (cause.exits 4)).now.readers ≡ begins ∷ holder ∷ [] }
    ensures swap { (b : Bus)
        → plays (at_rest b) cause.swaps_face
        ≡ record { now = record (at_rest b) { world = record (resting_world b []) { swaps = 1 } }; entries = [] } }
    ensures rests { (b : Bus) → plays (at_rest b) cause.tells_quiet ≡ record { now = at_rest b; entries = quiet ∷ [] } }
    ensures app { (b : Bus) → (plays (at_rest b) (cause.starts_app (codes "T"))).now.readers ≡ begins ∷ holder ∷ [] }
{}

/// A reader's call is refused where it has no view; and, as any line, where a party is not there.
pub fn refusals()
    ensures no_view { if_viewed None ≡ Some not_held }
    ensures view { if_viewed (Some nil) ≡ None }
    ensures held { (b : Bus) → refused (at_rest b) (line.Call 1 1 1 caret) ≡ None }
    ensures other_reader { (b : Bus) → refused (at_rest b) (line.Call 0 1 1 caret) ≡ Some not_held }
    ensures other_app { (b : Bus) → refused (at_rest b) (line.Call 1 0 1 caret) ≡ Some not_held }
    ensures no_reader { (b : Bus) → refused (at_rest b) (line.Call 2 1 1 caret) ≡ Some no_party }
    ensures no_app { (b : Bus) → refused (at_rest b) (line.Call 1 2 1 caret) ≡ Some no_party }
    ensures stopped { (b : Bus) → refused (halted b) (line.Call 1 1 1 caret) ≡ Some dead }
    ensures blank { (b : Bus) → refused (at_rest b) line.Blank ≡ None }
    ensures other { (b : Bus) → refused (at_rest b) (line.Exit 2) ≡ Some no_party }
{}

/// What is left of a line, done: nothing of a blank one; one cause of a swap and of an exit; that nothing waits of a
/// drain; bytes that complete no message move. More is not written.
pub fn lines()
    ensures blank { (b : Bus) → PlaysOut (at_rest b) (work_of (at_rest b).world line.Blank) [] (at_rest b) }
    ensures swap { (b : Bus)
        → PlaysOut (at_rest b) (work_of (at_rest b).world (line.Swap 1)) []
        (record (at_rest b) { world = record (resting_world b []) { swaps = 1 } }) }
    ensures exit { (b : Bus)
        → PlaysOut (at_rest b) (work_of (at_rest b).world (line.Exit 1)) (exited (party.App 1) ∷ [])
        (record (at_rest b) { world = exited_world b }) }
    ensures drain { (b : Bus) → PlaysOut (at_rest b) draining (quiet ∷ []) (at_rest b) }
    ensures turns { (b : Bus)
        → PlaysOut (playing (starting_world b (hello_returned ∷ [])) hello_waits) (turning 1 1)
        (got (party.Reader 1) party.Bus 33 ∷ sent (party.Reader 1) (asking 2 first_rule) ∷ busy 1 ∷ [])
        (plays (playing (starting_world b (hello_returned ∷ [])) hello_waits) (cause.gets 4)).now }
    ensures bytes { (b : Bus) → (said : Said) → length (written said.message) ≡ 20
        → PlaysOut (playing (bytes_world b said 0) holder) (moving_up 4 5) [] (playing (bytes_world b said 5) holder) }
    ensures blank_more { (b : Bus) → (entry : Entry) → (q : Playing) → PlaysOut (at_rest b) resting (entry ∷ []) q → ⊥ }
    ensures drain_less { (b : Bus) → (q : Playing) → PlaysOut (at_rest b) draining [] q → ⊥ }
{}

/// Lines that were done: none at the beginning, and each behind those before it, a reader's call by the reader's own
/// view; no refused one, and none behind which the registry is lost.
pub fn done()
    ensures none { IsPlayed [] [] (first_playing QUOTA_MOST) }
    ensures blank { IsPlayed (line.Blank ∷ []) [] (first_playing QUOTA_MOST) }
    ensures two { IsPlayed (line.Drain ∷ line.Reader ∷ [])
        (quiet ∷ started (party.Reader 0) None ∷ sent (party.Reader 0) (asking 1 Hello) ∷ [])
        (plays (first_playing QUOTA_MOST) cause.starts_reader).now }
    ensures called { (b : Bus) → (lines : List Line) → (entries : List Entry) → IsPlayed lines entries (at_rest b)
        → IsPlayed (lines ++ line.Call 1 1 1 caret ∷ []) (entries ++ sent (party.Reader 1) caret_call ∷ [])
        (plays (at_rest b) (cause.calls 4 (codes ":1.1") 1 caret)).now }
    ensures refused { (entries : List Entry) → (q : Playing) → IsPlayed (line.Exit 0 ∷ []) entries q → ⊥ }
    ensures kept { (lines : List Line) → (entries : List Entry) → (q : Playing) → IsPlayed lines entries q
        → is_lost q.world ≡ false }
{}
