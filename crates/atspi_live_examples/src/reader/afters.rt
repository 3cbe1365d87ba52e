//! What a reader took and handed out, and when a message would take its own past the last number.

ghost use Rattle.std.specs.Prelude.{◌≡◌, ◌∷◌, ◌≤◌, ℕ, List, []};
ghost use Rattle.atspi_message.specs.Envelope.{Envelope};
ghost use Rattle.atspi_live_reader.specs.Spoken.{IsAfter, IsEmpty, IsSpent, following};
ghost use Rattle.atspi_live_examples.specs.reader.Held.{name};
ghost use Rattle.atspi_live_examples.specs.reader.Started.{asked, hello, returned, signal, waiting};
ghost use Rattle.atspi_protocol.specs.following.ReaderState.{ReaderState, begins, sends, speaks};
ghost use Rattle.atspi_protocol.specs.following.Takes.{reader_takes, starts};

/// A reader that has started has its first call queued, or has handed it out.
pub fn first_calls()
    ensures queued { IsAfter (starts begins) [] [] }
    ensures handed { IsAfter asked [] (hello ∷ []) }
    ensures kept_back { IsAfter (starts begins) [] (hello ∷ []) → ⊥ }
    ensures hidden { IsAfter asked [] [] → ⊥ }
    ensures not_started { IsAfter begins [] [] → ⊥ }
    ensures left { IsEmpty asked }
    ensures more { IsEmpty (starts begins) → ⊥ }
{}

/// What it did stands before what it has queued, and lines among it are no messages. It took the messages in their
/// order.
pub fn queued_calls()
    ensures before { (r : ReaderState) (took : List Envelope) (e f : Envelope)
        → record r { out = sends e ∷ sends f ∷ [] } ≡ following took → r.next ≤ 4294967296
        → IsAfter (record r { out = sends f ∷ [] }) took (e ∷ []) }
    ensures spoke { (r : ReaderState) (took : List Envelope) (e : Envelope) (text : List ℕ)
        → record r { out = speaks name text ∷ sends e ∷ [] } ≡ following took → r.next ≤ 4294967296
        → IsAfter (record r { out = [] }) took (e ∷ []) }
    ensures order { (e f : Envelope) → following (e ∷ f ∷ []) ≡ reader_takes (reader_takes (starts begins) e) f }
{}

/// The number of the next message may be one past the last.
pub fn numbers()
    ensures last { (r : ReaderState) (took : List Envelope) → r ≡ following took → r.next ≡ 4294967296
        → IsAfter r took [] }
    ensures past { (r : ReaderState) (took said : List Envelope) → r.next ≡ 4294967297 → IsAfter r took said → ⊥ }
{}

/// A message spends the numbers only where the reader asks for something behind it, and then has no number for that.
pub fn spent_readers()
    ensures asks { IsSpent (waiting 4294967296) returned }
    ensures asks_last { IsSpent (waiting 4294967295) returned → ⊥ }
    ensures asks_nothing { IsSpent (waiting 4294967296) signal → ⊥ }
{}
