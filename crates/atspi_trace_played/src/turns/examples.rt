//! Worked cases of how often messages are taken.

ghost use Rattle.std.specs.Prelude.{◌≡◌, [], ◌∷◌};
ghost use Rattle.atspi_protocol.specs.declared.following.question.Question.TheVariants.{Hello};
ghost use Rattle.atspi_protocol.specs.following.Calls.{asking};
ghost use Rattle.atspi_script_lines.specs.declared.line.Party.TheVariants.{Bus, Registry, App, Reader};
ghost use Rattle.atspi_trace.specs.Entry.{sent, got, exited, quiet};
ghost use Rattle.atspi_trace.specs.World.{first_world};
ghost use Rattle.atspi_trace.specs.play.Playing.{first_playing};
ghost use Rattle.atspi_trace_played.specs.TurnCases.{one_played, one_plays, one_waits};
ghost use Rattle.atspi_trace.specs.play.Breaking.{PlayedTurns};
ghost use Rattle.atspi_trace_played.specs.Turns.{count_taken, IsUnspent, Makes};

/// What the bus takes and what an end takes of it counts, and nothing else does.
pub fn what_is_counted()
    ensures none { count_taken [] ≡ 0 }
    ensures taken { count_taken
        (sent (Reader 0) (asking 1 Hello) ∷ got Bus (Reader 0) 1 ∷ sent Bus (asking 8 Hello) ∷ got (Reader 0) Bus 8
        ∷ quiet ∷ []) ≡ 2 }
    ensures of_each { count_taken (got (App 0) Registry 4 ∷ got (App 1) Registry 4 ∷ got Registry (App 0) 1 ∷ []) ≡ 3 }
    ensures not_taken { count_taken (sent (Reader 0) (asking 1 Hello) ∷ exited (Reader 0) ∷ quiet ∷ []) ≡ 0 }
{}

/// A serial is spent from 2^32 on.
pub fn what_is_spent()
    ensures first { IsUnspent (sent (Reader 0) (asking 1 Hello)) }
    ensures last { IsUnspent (sent (Reader 0) (asking 4294967295 Hello)) }
    ensures spent { IsUnspent (sent (Reader 0) (asking 4294967296 Hello)) → ⊥ }
    ensures taken { IsUnspent (got Bus (Reader 0) 4294967296) }
{}

/// No turn writes nothing; a turn takes what waits; where nothing waits none is made.
pub fn what_turns_make()
    ensures none { Makes 0 (first_world 4096) [] }
    ensures none_writes { Makes 0 (first_world 4096) (quiet ∷ []) → ⊥ }
    ensures one { Makes 1 one_waits (got Registry Bus 8 ∷ []) }
    ensures no_more { Makes 1 one_waits [] → ⊥ }
    ensures nothing_waits { Makes 1 (first_world 4096) [] → ⊥ }
{}

/// So where it is played: no turn leaves all as it is; a turn is played where something waits, and writes what was
/// taken.
pub fn what_turns_play()
    ensures none { PlayedTurns 0 one_plays [] one_plays }
    ensures none_writes { PlayedTurns 0 one_plays (quiet ∷ []) one_plays → ⊥ }
    ensures one { PlayedTurns 1 one_plays (got Registry Bus 8 ∷ []) one_played }
    ensures no_more { PlayedTurns 1 one_plays [] one_played → ⊥ }
    ensures nothing_waits { PlayedTurns 1 (first_playing 4096) [] (first_playing 4096) → ⊥ }
{}
