//! Worked cases of what is missed, of what is asked for, and of what the registry tells.

ghost use Rattle.std.specs.Prelude.{◌≡◌, [], ◌∷◌, None, Some, take, codes};
ghost use Rattle.atspi_script_lines.specs.declared.line.Party.TheVariants.{Registry, App, Reader};
ghost use Rattle.atspi_protocol.specs.ends.Places.{references};
ghost use Rattle.atspi_protocol.specs.announcing.Signals.{caret_moved};
ghost use Rattle.atspi_protocol.specs.declared.following.question.Question.TheVariants.{Hello};
ghost use Rattle.atspi_protocol.specs.following.Calls.{asking};
ghost use Rattle.atspi_protocol.specs.following.ReaderState.{start_calls};
ghost use Rattle.atspi_protocol.specs.exporting.Exporter.{new, awaits, over, hello, add_match, get_registered_events};
ghost use Rattle.atspi_protocol.specs.exporting.Exporter.{embed};
ghost use Rattle.atspi_protocol.specs.registering.Told.{registered, deregistered};
ghost use Rattle.atspi_protocol.specs.registering.Room.{owner_changed};
ghost use Rattle.atspi_trace.specs.Entry.{sent, got, quiet};
ghost use Rattle.atspi_trace.specs.Hearing.{patterns_in};
ghost use Rattle.atspi_trace_examples.specs.caches.Cases.{told, renamed, described};
ghost use Rattle.atspi_trace_laws.specs.missed.Laws.{IsNoSignal, TookAll, IsHeardOf, AreHeardOf, TakesNothingBack};
ghost use Rattle.atspi_trace_laws.specs.missed.Laws.{hearing, AreNamed, IsNamed, ListIsAsTold, TakesAway, IsPastList};
ghost use Rattle.atspi_trace_laws.specs.missed.Laws.{heard_on};
ghost use Rattle.atspi_trace_examples.specs.missed.Cases.{listening_by, telling, listing};

/// A signal of the application between two messages is one that is missed; one of another application is not.
pub fn what_is_missed()
    ensures mine { IsNoSignal 0 (sent (App 0) (caret_moved 1 2).message) → ⊥ }
    ensures other { IsNoSignal 0 (sent (App 1) (caret_moved 1 2).message) }
{}

/// A reader that takes the news of another name behind the return that it holds took all. One that takes the next news
/// without it missed a signal. The return that loads begins anew, and of another reader, which holds nothing, nothing
/// is said.
pub fn what_was_taken()
    ensures next { TookAll renamed (got (Reader 0) (App 0) 6) [] }
    ensures one_between { TookAll described (got (Reader 0) (App 0) 7) [] → ⊥ }
    ensures a_load { TookAll told (got (Reader 0) (App 0) 5) [] }
    ensures not_held { TookAll described (got (Reader 1) (App 0) 7) [] }
    ensures other_entry { TookAll described quiet [] }
{}

/// A pattern is heard of by whoever listens, and no other is. All five of a reader's start are wanted.
pub fn what_is_heard()
    ensures heard { IsHeardOf (listening_by (codes "object:text-changed" ∷ [])) (codes "object:text-changed") }
    ensures another { IsHeardOf (listening_by (codes "object:text-changed" ∷ [])) (codes "object:state-changed") → ⊥ }
    ensures nobody { IsHeardOf [] (codes "object:text-changed") → ⊥ }
    ensures all_five { AreHeardOf (listening_by (patterns_in start_calls)) }
    ensures only_four { AreHeardOf (listening_by (take 4 (patterns_in start_calls))) → ⊥ }
{}

/// A reader's call is no taking back. A signal of a reader's is no call, and calls that take back a rule or a pattern
/// are refused, where another end may make them.
pub fn what_is_sent()
    ensures a_call { TakesNothingBack [] (sent (Reader 0) (asking 1 Hello)) [] }
    ensures a_signal { TakesNothingBack [] (sent (Reader 0) (caret_moved 1 2).message) [] → ⊥ }
    ensures a_rule_back { TakesNothingBack []
        (sent (Reader 0) (record (asking 1 Hello) { member = Some (codes "RemoveMatch") })) [] → ⊥ }
    ensures a_pattern_back { TakesNothingBack []
        (sent (Reader 0) (record (asking 1 Hello) { member = Some (codes "DeregisterEvent") })) [] → ⊥ }
    ensures of_another { TakesNothingBack []
        (sent (App 0) (record (asking 1 Hello) { member = Some (codes "RemoveMatch") })) [] }
{}

/// Who hears of a new pair has it behind the others, who hears of one that went has it no longer, and another message
/// tells of none. A name that is none is no listener's, and a message without a sender has no such name.
pub fn what_is_told()
    ensures more { hearing (registered (codes ":1.9", codes "object") ∷ []) (listening_by (codes "window" ∷ []))
        ≡ listening_by (codes "window" ∷ (codes "object" ∷ [])) }
    ensures less { hearing (deregistered (codes ":1.9", codes "object") ∷ [])
        (listening_by (codes "window" ∷ (codes "object" ∷ []))) ≡ listening_by (codes "window" ∷ []) }
    ensures other { hearing ((caret_moved 1 2).message ∷ []) (listening_by (codes "window" ∷ []))
        ≡ listening_by (codes "window" ∷ []) }
    ensures named { AreNamed (listening_by (codes "window" ∷ [])) }
    ensures no_name { AreNamed (([], codes "window") ∷ []) → ⊥ }
    ensures sent_by { IsNamed (Some (codes ":1.9")) }
    ensures sent_by_no_name { IsNamed (Some []) → ⊥ }
    ensures sent_by_nobody { IsNamed None }
{}

/// A list is as told where it is of the pairs that were told before it, and no other list is: one too short, or with
/// one that nobody was told of. A signal is no list, nor is a list of other things, and another end may return what it
/// likes.
pub fn what_is_listed()
    ensures as_told { ListIsAsTold (telling (listening_by (codes "object" ∷ [])))
        (sent Registry (listing (listening_by (codes "object" ∷ [])))) [] }
    ensures too_short { ListIsAsTold (telling (listening_by (codes "object" ∷ []))) (sent Registry (listing [])) []
        → ⊥ }
    ensures never_told { ListIsAsTold [] (sent Registry (listing (listening_by (codes "object" ∷ [])))) [] → ⊥ }
    ensures a_signal { ListIsAsTold []
        (sent Registry (record (listing (listening_by (codes "object" ∷ []))) { kind = 4 })) [] }
    ensures of_children { ListIsAsTold (telling (listening_by (codes "object" ∷ [])))
        (sent Registry (record (listing []) { body = references [] ∷ [] })) [] }
    ensures of_another { ListIsAsTold [] (sent (App 0) (listing (listening_by (codes "object" ∷ [])))) [] }
{}

/// A call of DeregisterEvent takes away pairs of its own sender, and of no other, and no other call does; the news that
/// a name is nobody's takes away the pairs of that name, and of no other; and news that somebody has a name takes none
/// away.
pub fn what_takes_away()
    ensures own { TakesAway
        (record (asking 1 Hello) { member = Some (codes "DeregisterEvent"); sender = Some (codes ":1.9") })
        (codes ":1.9", codes "object") }
    ensures of_another { TakesAway
        (record (asking 1 Hello) { member = Some (codes "DeregisterEvent"); sender = Some (codes ":1.8") })
        (codes ":1.9", codes "object") → ⊥ }
    ensures another_call { TakesAway (record (asking 1 Hello) { sender = Some (codes ":1.9") })
        (codes ":1.9", codes "object") → ⊥ }
    ensures its_end { TakesAway (owner_changed (codes ":1.9") (codes ":1.9") []) (codes ":1.9", codes "object") }
    ensures end_of_another { TakesAway (owner_changed (codes ":1.8") (codes ":1.8") []) (codes ":1.9", codes "object")
        → ⊥ }
    ensures a_beginning { TakesAway (owner_changed (codes ":1.9") [] (codes ":1.9")) (codes ":1.9", codes "object")
        → ⊥ }
{}

/// An application's start is past the list where it waits for its place among the registry's children, and where it is
/// over; not before. A signal of the registry's is heard from there on, and the same message as a return is not.
pub fn what_is_past()
    ensures over_ { IsPastList over }
    ensures embeds { IsPastList (awaits embed 4) }
    ensures lists { IsPastList (awaits get_registered_events 3) → ⊥ }
    ensures matches { IsPastList (awaits add_match 2) → ⊥ }
    ensures greets { IsPastList (awaits hello 1) → ⊥ }
    ensures begins { IsPastList new → ⊥ }
    ensures a_signal { heard_on [] (registered (codes ":1.9", codes "object")) ≡ listening_by (codes "object" ∷ []) }
    ensures a_return { heard_on [] (record (registered (codes ":1.9", codes "object")) { kind = 2 }) ≡ [] }
{}
