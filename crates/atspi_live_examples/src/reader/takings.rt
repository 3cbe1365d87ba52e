//! What a reader speaks for the bytes that were taken on its link.

ghost use Rattle.std.specs.Prelude.{◌≡◌, ◌∷◌, ◌++◌, ◌<◌, ℕ, List, [], None, Option, Some, codes, length};
ghost use Rattle.atspi_live_host.specs.declared.call.Call.{Call};
ghost use Rattle.atspi_live_host.specs.declared.call.Did.{Did};
ghost use Rattle.atspi_message.specs.Bytes.{IsMessage};
ghost use Rattle.atspi_message.specs.Envelope.{Envelope};
ghost use Rattle.atspi_stream.specs.Stream.{AreMessages, AwaitsMore, HasFault, bytes_of};
ghost use Rattle.atspi_live_conversation.specs.Speech.{envelopes};
ghost use Rattle.atspi_live_reader.specs.Following.{SpeaksUp};
ghost use Rattle.atspi_live_reader.specs.Runs.{AllSpeak, IsAll, OfTaken};
ghost use Rattle.atspi_live_reader.specs.Spoken.{IsAllSpoken, IsSpent, IsSpoken, IsSpokenToFault, IsSpokenToSpent};
ghost use Rattle.atspi_live_reader.specs.Spoken.{following, say_line};
ghost use Rattle.atspi_live_examples.specs.reader.Held.{name, said, shows, told, two_known};
ghost use Rattle.atspi_live_examples.specs.reader.Started.{granted, hail, zeros};

use atspi_live_host::{Call, Did};

/// Any front of the lines may have been written for the whole messages, also half a line, and no other bytes. Where no
/// message was taken, nothing was.
pub fn fronts_spoken()
    ensures nothing { IsSpoken [] [] }
    ensures half { (messages : List (Envelope × List ℕ)) (rest : List ℕ) → AreMessages messages
        → (following (envelopes messages)).out ≡ told
        → IsSpoken (granted ++ (bytes_of messages ++ rest)) (codes "say :1") }
    ensures one { (messages : List (Envelope × List ℕ)) (rest : List ℕ) → AreMessages messages
        → (following (envelopes messages)).out ≡ told
        → IsSpoken (granted ++ (bytes_of messages ++ rest)) (say_line name (codes "OK")) }
    ensures all { (messages : List (Envelope × List ℕ)) (rest : List ℕ) → AreMessages messages
        → (following (envelopes messages)).out ≡ told → IsSpoken (granted ++ (bytes_of messages ++ rest)) said }
    ensures too_soon { IsSpoken granted (codes "s") → ⊥ }
    ensures other { (t : List ℕ) → IsSpoken t (codes "x") → ⊥ }
{}

/// All lines were written for the messages where more is awaited behind them, and then all rows of what is held. Half a
/// line is never all.
pub fn all_spoken()
    ensures whole { (messages : List (Envelope × List ℕ)) (rest : List ℕ) → AreMessages messages → AwaitsMore rest
        → (following (envelopes messages)).out ≡ told → IsAllSpoken (granted ++ (bytes_of messages ++ rest)) said }
    ensures shown { (messages : List (Envelope × List ℕ)) (rest : List ℕ) → AreMessages messages → AwaitsMore rest
        → (following (envelopes messages)).out ≡ told → (following (envelopes messages)).apps ≡ two_known.apps
        → IsAll (granted ++ (bytes_of messages ++ rest)) (said ++ shows) }
    ensures at_fault { IsAllSpoken (granted ++ zeros) [] → ⊥ }
    ensures shown_at_fault { IsAll (granted ++ zeros) [] → ⊥ }
    ensures half { (t : List ℕ) → IsAllSpoken t (codes "say") → ⊥ }
    ensures half_shown { IsAll granted (codes "s") → ⊥ }
{}

/// So it is up to a message that is at fault, of which its place among all is told, the place in it, and the reason.
pub fn spoken_to_faults()
    ensures first { IsSpokenToFault 0 0 22 (granted ++ zeros) [] }
    ensures behind { (messages : List (Envelope × List ℕ)) (bytes : List ℕ) (place reason : ℕ) → AreMessages messages
        → HasFault bytes place reason → (following (envelopes messages)).out ≡ told
        → IsSpokenToFault (length (bytes_of messages)) place reason (granted ++ (bytes_of messages ++ bytes)) said }
    ensures elsewhere { IsSpokenToFault 1 0 22 (granted ++ zeros) [] → ⊥ }
    ensures other_place { IsSpokenToFault 0 1 22 (granted ++ zeros) [] → ⊥ }
    ensures other_reason { IsSpokenToFault 0 0 23 (granted ++ zeros) [] → ⊥ }
    ensures nothing_there { IsSpokenToFault 0 0 22 granted [] → ⊥ }
    ensures half { (start place reason : ℕ) (t : List ℕ) → IsSpokenToFault start place reason t (codes "say") → ⊥ }
{}

/// And up to a message that spends the numbers.
pub fn spoken_to_spent()
    ensures behind { (messages : List (Envelope × List ℕ)) (e : Envelope) (m rest : List ℕ) → AreMessages messages
        → IsMessage e m → IsSpent (following (envelopes messages)) e → (following (envelopes messages)).out ≡ told
        → IsSpokenToSpent (granted ++ (bytes_of messages ++ (m ++ rest))) said }
    ensures nothing_there { IsSpokenToSpent granted [] → ⊥ }
    ensures not_there { IsSpokenToSpent (granted ++ zeros) [] → ⊥ }
    ensures half { (t : List ℕ) → IsSpokenToSpent t (codes "say") → ⊥ }
    ensures spends { (t w : List ℕ) (s : IsSpokenToSpent t w)
        → 4294967296 < (following (envelopes s.messages ++ s.message ∷ [])).next }
{}

/// Where a host tells its calls, that is so of what the reads of the link took.
pub fn spoken_on_links()
    ensures untold { SpeaksUp 0 None (codes "x") }
    ensures took { (messages : List (Envelope × List ℕ)) (n : ℕ) → AreMessages messages
        → (following (envelopes messages)).out ≡ told
        → SpeaksUp 1 (Some (Call.Read 1 (granted ++ bytes_of messages) (Did.Done n) ∷ [])) (codes "say :1") }
    ensures other_link { (t : List ℕ) (n : ℕ) → SpeaksUp 1 (Some (Call.Read 0 t (Did.Done n) ∷ [])) (codes "s") → ⊥ }
    ensures of_link { OfTaken 1
        (Some (Call.Read 0 (codes "a") (Did.Done 1) ∷ Call.Read 1 (codes "b") (Did.Done 1) ∷ []))
        (λ taken. taken ≡ codes "b") }
{}

/// On each link that is open a front of what the reader says was given.
pub fn said_on_links()
    ensures none_open { (calls : Option (List Call)) → AllSpeak [] calls }
    ensures untold { AllSpeak (0 ∷ []) None }
    ensures one { AllSpeak (0 ∷ []) (Some (Call.Read 0 [] Did.NotYet ∷ Call.Write 0 hail (Did.Done 16) ∷ [])) }
    ensures part { AllSpeak (0 ∷ []) (Some (Call.Write 0 hail (Did.Done 3) ∷ [])) }
    ensures first_other { AllSpeak (0 ∷ 1 ∷ []) (Some (Call.Write 0 (codes "x") (Did.Done 1) ∷ [])) → ⊥ }
    ensures second_other { AllSpeak (0 ∷ 1 ∷ []) (Some (Call.Write 1 (codes "x") (Did.Done 1) ∷ [])) → ⊥ }
{}
