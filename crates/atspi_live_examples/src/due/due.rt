//! An end with one message.

ghost use Rattle.std.specs.Prelude.{◌≡◌, ◌<◌, ◌∷◌, ◌++◌, [], ℕ, List, length};
ghost use Rattle.atspi_live_conversation.specs.Sent.{Fits};
ghost use Rattle.atspi_live_conversation.specs.Speech.{IsAllGiven};
ghost use Rattle.atspi_message.specs.Bytes.{written};
ghost use Rattle.atspi_message.specs.Envelope.{Envelope};
ghost use Rattle.atspi_live_examples.specs.due.Queued.{Has, IsEmpty, granted, hail, lines};

/// Once the server has let a client in, all is given where the three lines were, and behind them the bytes of the
/// message: not where these wait, or some of them, nor where a line does. A message that passes the limits of the wire
/// is left out. Before the server has let the client in only its line is due, though the message waits.
pub fn one_message()
    ensures given { (m : Envelope) → Fits m → IsAllGiven (Has m) IsEmpty granted (lines ++ written m) }
    ensures waits { (m : Envelope) → Fits m → 0 < length (written m) → IsAllGiven (Has m) IsEmpty granted lines → ⊥ }
    ensures waits_in_part { (m : Envelope) → (front rest : List ℕ) → (b : ℕ) → Fits m → written m ≡ front ++ b ∷ rest
        → IsAllGiven (Has m) IsEmpty granted (lines ++ front) → ⊥ }
    ensures line_waits { (m : Envelope) → IsAllGiven (Has m) IsEmpty granted hail → ⊥ }
    ensures too_large { (m : Envelope) → (Fits m → ⊥) → IsAllGiven (Has m) IsEmpty granted lines }
    ensures too_early { (m : Envelope) → IsAllGiven (Has m) IsEmpty [] hail }
{}
