//! When a message is a reader's own call: each condition alone.

ghost use Rattle.std.specs.Prelude.{◌∷◌, [], None, Some, codes};
ghost use Rattle.atspi_script_lines.specs.declared.line.Party.TheVariants as party;
ghost use Rattle.atspi_protocol.specs.declared.following.question.Question.TheVariants.{AddMatch, GetChildren, Hello};
ghost use Rattle.atspi_protocol.specs.following.Calls.{asking};
ghost use Rattle.atspi_match.specs.routing.Queues.{Bus};
ghost use Rattle.atspi_trace.specs.World as fate;
ghost use Rattle.atspi_trace.specs.World.{an_application, away, stopped};
ghost use Rattle.atspi_trace.specs.Entry.{quiet, sent};
ghost use Rattle.atspi_trace.specs.Due.{IsOwn, IsOwnCall};
ghost use Rattle.atspi_trace_examples.specs.trace.Small.{alone, asked, call, exporter, freely, idle, reader};

/// A reader that just took a message, and of whose calls none waits, may send a call with its next serial.
pub fn may_send()
    ensures first { (b : Bus) → IsOwnCall (freely b (reader 0 idle)) 0 (asking 5 Hello) }
    ensures another { (b : Bus)
        → IsOwnCall (freely b (reader 0 (asked (call 4 Hello fate.returned ∷ [])))) 0 (asking 5 GetChildren) }
    ensures refused { (b : Bus)
        → IsOwnCall (freely b (reader 0 (asked (call 4 Hello fate.failed ∷ [])))) 0 (asking 5 GetChildren) }
    ensures entry { (b : Bus) → IsOwn (freely b (reader 3 idle)) (sent (party.Reader 3) (asking 5 Hello)) }
{}

/// It may not where something is owed, where nobody took a message, or where who took it is not there.
pub fn no_turn()
    ensures owed { (b : Bus) → IsOwnCall (record (freely b (reader 0 idle)) { owing = quiet ∷ [] }) 0 (asking 5 Hello)
        → ⊥ }
    ensures nobody { (b : Bus) → IsOwnCall (alone b (reader 0 idle) None) 0 (asking 5 Hello) → ⊥ }
    ensures no_end { (b : Bus) → IsOwnCall (alone b (reader 0 idle) (Some 1)) 0 (asking 5 Hello) → ⊥ }
{}

/// Nor may another reader, one that stopped or left, or who is no reader.
pub fn no_asker()
    ensures another { (b : Bus) → IsOwnCall (freely b (reader 0 idle)) 1 (asking 5 Hello) → ⊥ }
    ensures stopped { (b : Bus)
        → IsOwnCall (freely b (record (reader 0 idle) { standing = stopped })) 0 (asking 5 Hello) → ⊥ }
    ensures left { (b : Bus) → IsOwnCall (freely b (record (reader 0 idle) { standing = away })) 0 (asking 5 Hello)
        → ⊥ }
    ensures application { (b : Bus)
        → IsOwnCall (freely b (record (reader 0 idle) { role = an_application exporter })) 0 (asking 5 Hello) → ⊥ }
{}

/// Nor is it one while an earlier call waits, with a question that the reader may not ask, or with another serial.
pub fn no_call()
    ensures waits { (b : Bus)
        → IsOwnCall (freely b (reader 0 (asked (call 4 Hello fate.waits ∷ [])))) 0 (asking 5 GetChildren) → ⊥ }
    ensures unasked { (b : Bus) → IsOwnCall (freely b (reader 0 idle)) 0 (asking 5 (AddMatch (codes "type='signal'")))
        → ⊥ }
    ensures serial { (b : Bus) → IsOwnCall (freely b (reader 0 idle)) 0 (asking 6 Hello) → ⊥ }
    ensures signal { (b : Bus) → IsOwnCall (freely b (reader 0 idle)) 0 (record (asking 5 Hello) { kind = 4 }) → ⊥ }
{}
