//! The bytes of messages that `--wire` tells.

ghost use Rattle.std.specs.Prelude.{◌≡◌, ◌∷◌, [], None, Some, codes};
ghost use Rattle.atspi_trace_events.specs.declared.event.Event.TheVariants as event;
ghost use Rattle.atspi_script_lines.specs.declared.line.Party.TheVariants as party;
ghost use Rattle.atspi_message.specs.Bytes.{written};
ghost use Rattle.atspi_message.specs.Envelope.{Envelope};
ghost use Rattle.atspi_protocol.specs.declared.following.question.Question.TheVariants.{GetChildren, Hello};
ghost use Rattle.atspi_protocol.specs.following.Calls.{asking};
ghost use Rattle.atspi_match.specs.routing.Queues.{Bus};
ghost use Rattle.atspi_trace.specs.Entry.{got, quiet, sent};
ghost use Rattle.atspi_run_replay.specs.Wired.{AreWired, as_taken, bytes_behind, name_of, sent_in};
ghost use Rattle.atspi_run_examples.specs.Small.{nameless, two_ends};

/// The message of a party with a serial is the last that was told as sent by it with that serial.
pub fn messages()
    ensures last { sent_in (party.Reader 0) 5
        (sent (party.Reader 0) (asking 5 Hello) ∷ sent (party.Reader 0) (asking 5 GetChildren) ∷ [])
        ≡ Some (asking 5 GetChildren) }
    ensures first { sent_in (party.Reader 0) 5
        (sent (party.Reader 0) (asking 5 Hello) ∷ sent (party.Reader 0) (asking 6 GetChildren) ∷ [])
        ≡ Some (asking 5 Hello) }
    ensures other_party { sent_in (party.Reader 1) 5 (sent (party.Reader 0) (asking 5 Hello) ∷ []) ≡ None }
    ensures other_serial { sent_in (party.Reader 0) 6 (sent (party.Reader 0) (asking 5 Hello) ∷ []) ≡ None }
    ensures taken { sent_in (party.Reader 0) 5 (got party.Bus (party.Reader 0) 5 ∷ []) ≡ None }
{}

/// A party has the unique name that its end has in the world, once the bus gave it.
pub fn names()
    ensures reader { (b : Bus) → name_of (two_ends b) (party.Reader 0) ≡ Some (codes ":1.1") }
    ensures registry { (b : Bus) → name_of (two_ends b) party.Registry ≡ Some (codes ":1.0") }
    ensures none_yet { (b : Bus) → name_of (nameless b) (party.Reader 0) ≡ None }
    ensures nobody { (b : Bus) → name_of (two_ends b) (party.Reader 1) ≡ None }
{}

/// A message bears its sender's name where one end took it of another: the bus takes it as it was sent, and what the
/// bus sends has one already.
pub fn senders()
    ensures of_another { (b : Bus)
        → as_taken (two_ends b) party.Registry (party.Reader 0) (asking 5 Hello)
        ≡ record (asking 5 Hello) { sender = Some (codes ":1.1") } }
    ensures by_bus { (b : Bus) → as_taken (two_ends b) party.Bus (party.Reader 0) (asking 5 Hello) ≡ asking 5 Hello }
    ensures of_bus { (b : Bus) → (e : Envelope) → as_taken (two_ends b) (party.Reader 0) party.Bus e ≡ e }
    ensures nameless { (b : Bus)
        → as_taken (nameless b) party.Registry (party.Reader 0) (asking 5 Hello) ≡ asking 5 Hello }
{}

/// The bytes behind an event: of a message that was sent as it was sent, of one that was taken as it was taken; none
/// where nothing was sent so, and behind other events.
pub fn bytes()
    ensures when_sent { (b : Bus)
        → bytes_behind (two_ends b) [] (sent (party.Reader 0) (asking 5 Hello)) ≡ written (asking 5 Hello) }
    ensures when_taken { (b : Bus)
        → bytes_behind (two_ends b) (sent (party.Reader 0) (asking 5 Hello) ∷ [])
        (got party.Registry (party.Reader 0) 5)
        ≡ written (record (asking 5 Hello) { sender = Some (codes ":1.1") }) }
    ensures unsent { (b : Bus) → bytes_behind (two_ends b) [] (got party.Registry (party.Reader 0) 5) ≡ [] }
    ensures other { (b : Bus) → bytes_behind (two_ends b) (sent (party.Reader 0) (asking 5 Hello) ∷ []) quiet ≡ [] }
    ensures wired { (b : Bus)
        → AreWired (two_ends b) (sent (party.Reader 0) (asking 5 Hello) ∷ [])
        (record { event = event.Quiet; bytes = [] }
        ∷ record {
          event = event.Got party.Registry (party.Reader 0) 5;
          bytes = written (record (asking 5 Hello) { sender = Some (codes ":1.1") });
        } ∷ []) }
    ensures unwired { (b : Bus) → AreWired (two_ends b) [] (record { event = event.Quiet; bytes = 0 ∷ [] } ∷ []) → ⊥ }
{}
