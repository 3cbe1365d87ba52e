//! Runs that a message ends which would take the end's own past the last number, and the bytes of messages that are
//! sent.

ghost use Rattle.std.specs.Prelude.{◌≡◌, ◌∷◌, ◌++◌, ℕ, List, []};
ghost use Rattle.atspi_live_host.specs.declared.call.Did.{Did};
ghost use Rattle.atspi_live_host.specs.declared.call.Call.{Call};
ghost use Rattle.atspi_message.specs.Bytes.{IsMessage, written};
ghost use Rattle.atspi_message.specs.Envelope.{Envelope};
ghost use Rattle.atspi_live_conversation.specs.Left.{StopsAt};
ghost use Rattle.atspi_live_conversation.specs.Rounds.{IsRun};
ghost use Rattle.atspi_live_conversation.specs.Sent.{AreSent, Fits};
ghost use Rattle.atspi_live_conversation.specs.Speech.{EndsBy, IsSpentBy};
ghost use Rattle.atspi_live_conversation.specs.declared.ending.Ending.{Ending};
ghost use Rattle.atspi_live_examples.specs.conversation.Silent.{IsDone, IsNeverSpent, IsSpentWith, Says, SaysFirst};
ghost use Rattle.atspi_live_examples.specs.conversation.Silent.{Took, granted, hail};

use atspi_live_conversation::Ending;
use atspi_live_host::{Call, Did};

/// The message directly behind the lines spends the numbers, or the one behind another that the end took; none does
/// where there is no message, or none that would.
pub fn bytes_that_spend()
    ensures first { (e : Envelope) (m : List ℕ) → IsMessage e m → IsSpentBy Says (IsSpentWith e) (granted ++ m) }
    ensures second { (e f : Envelope) (m n rest : List ℕ) → IsMessage e m → IsMessage f n
        → IsSpentBy (Took e) (IsSpentWith f) (granted ++ (m ++ (n ++ rest))) }
    ensures none_would { (t : List ℕ) → IsSpentBy Says IsNeverSpent t → ⊥ }
    ensures no_message { (e : Envelope) → IsSpentBy Says (IsSpentWith e) granted → ⊥ }
{}

/// So a run ends, and the end stands before that message.
pub fn spent_runs()
    ensures ended { (e : Envelope) (m : List ℕ) (n : ℕ) → IsMessage e m
        → EndsBy Says (IsSpentWith e) 0 Ending.Spent 5 (Call.Read 0 (granted ++ m) (Did.Done n) ∷ []) }
    ensures not_ended { (cs : List Call) → EndsBy Says IsNeverSpent 0 Ending.Spent 5 cs → ⊥ }
    ensures stops { (e : Envelope) (m rest : List ℕ) → IsMessage e m
        → StopsAt Says (IsSpentWith e) Ending.Spent [] [] (m ++ rest) }
    ensures nothing_there { (e : Envelope) → StopsAt Says (IsSpentWith e) Ending.Spent [] [] [] → ⊥ }
    ensures none_would { (rest : List ℕ) → StopsAt Says IsNeverSpent Ending.Spent [] [] rest → ⊥ }
    ensures took_other { (e f : Envelope) (rest : List ℕ) → StopsAt (Took e) (IsSpentWith f) Ending.Spent [] [] rest
        → ⊥ }
{}

/// What an end says may hang on the round: this one speaks in the first.
pub fn first_rounds()
    ensures { IsRun SaysFirst IsDone 0 4096 Ending.HostFailed 5
        (Call.Read 0 [] Did.NotYet ∷ Call.Write 0 hail Did.Failed ∷ []) }
{}

/// The bytes of messages stand in their order; a message that passes the limits of the wire is left out.
pub fn messages_sent()
    ensures one { (e : Envelope) → Fits e → AreSent (e ∷ []) (written e) }
    ensures two { (e f : Envelope) → Fits e → Fits f → AreSent (e ∷ f ∷ []) (written e ++ written f) }
    ensures too_large { (e f : Envelope) → (Fits e → ⊥) → Fits f → AreSent (e ∷ f ∷ []) (written f) }
{}
