//! How runs ended, by the bytes that were taken, of an end that sends no messages.

ghost use Rattle.std.specs.Prelude.{◌≡◌, ◌∷◌, ◌++◌, ℕ, List, [], codes, length};
ghost use Rattle.atspi_auth.specs.Lines.{end_of_line};
ghost use Rattle.atspi_auth.specs.Talk.{behind, client_start};
ghost use Rattle.atspi_live_host.specs.declared.call.Did.{Did};
ghost use Rattle.atspi_live_host.specs.declared.call.Call.{Call};
ghost use Rattle.atspi_message.specs.Bytes.{IsMessage};
ghost use Rattle.atspi_message.specs.Envelope.{Envelope};
ghost use Rattle.atspi_stream.specs.Stream.{HasFault};
ghost use Rattle.atspi_live_conversation.specs.Left.{LeavesOff, StopsAt};
ghost use Rattle.atspi_live_conversation.specs.Speech.{EndsBy, IsInOrder, IsMalformed, IsRefused};
ghost use Rattle.atspi_live_conversation.specs.declared.ending.Ending.{Ending};
ghost use Rattle.atspi_live_examples.specs.conversation.Silent.{IsNeverSpent, Says, Took, granted, rejected};

/// Nothing is at fault in no bytes, in a challenge, and in lines that let a client in; a line that is not awaited is. A
/// message behind the lines is one that the end took.
pub fn bytes_in_order()
    ensures nothing { IsInOrder Says [] }
    ensures challenge { IsInOrder Says (codes "DATA" ++ end_of_line) }
    ensures over { IsInOrder Says granted }
    ensures refused { IsInOrder Says rejected → ⊥ }
    ensures taken { (e : Envelope) (bytes : List ℕ) → IsMessage e bytes → IsInOrder (Took e) (granted ++ bytes) }
    ensures not_taken { (e : Envelope) (bytes : List ℕ) → IsMessage e bytes → IsInOrder Says (granted ++ bytes) → ⊥ }
{}

/// A fault directly behind the lines has no byte of messages before it; one behind a message has that, and the end took
/// it.
pub fn bytes_at_fault()
    ensures first { (bytes : List ℕ) (place reason : ℕ) → HasFault bytes place reason
        → IsMalformed Says (granted ++ bytes) 0 place reason }
    ensures second { (e : Envelope) (m bytes : List ℕ) (place reason : ℕ) → IsMessage e m → HasFault bytes place reason
        → IsMalformed (Took e) (granted ++ (m ++ bytes)) (length m) place reason }
    ensures elsewhere { (bytes : List ℕ) (place reason : ℕ) → IsMalformed Says (granted ++ bytes) 1 place reason → ⊥ }
{}

/// A line that is not awaited is refused, also where more follows, and no byte stands behind it; then the end took no
/// message.
pub fn lines_at_fault()
    ensures refused { IsRefused Says rejected }
    ensures more { IsRefused Says (rejected ++ granted) }
    ensures bare { behind client_start (rejected ++ granted) ≡ [] }
    ensures in_order { IsRefused Says granted → ⊥ }
    ensures took_none { (e : Envelope) → IsRefused (Took e) rejected → ⊥ }
{}

/// Where a line was refused, the end stands as one that took no message, and no byte is left.
pub fn ends_left_off()
    ensures refused { LeavesOff Says IsNeverSpent Ending.NotAuthenticated rejected 0 }
    ensures bytes_left { StopsAt Says IsNeverSpent Ending.NotAuthenticated [] [] (codes "l") → ⊥ }
    ensures took_one { (e : Envelope) (bytes : List ℕ)
        → StopsAt (Took e) IsNeverSpent Ending.NotAuthenticated ((e, bytes) ∷ []) [] [] → ⊥ }
    ensures peer_ended { LeavesOff Says IsNeverSpent Ending.PeerEnded granted 0 }
{}

/// Runs of five rounds that ended by what their reads took and found.
pub fn ended_runs()
    ensures refused { EndsBy Says IsNeverSpent 0 Ending.NotAuthenticated 5 (Call.Read 0 rejected (Did.Done 19) ∷ []) }
    ensures not_refused { EndsBy Says IsNeverSpent 0 Ending.NotAuthenticated 5 (Call.Read 0 granted (Did.Done 43) ∷ [])
        → ⊥ }
    ensures peer_ended { EndsBy Says IsNeverSpent 0 Ending.PeerEnded 5
        (Call.Read 0 granted (Did.Done 43) ∷ Call.Read 0 [] Did.End ∷ []) }
    ensures host_failed { EndsBy Says IsNeverSpent 0 Ending.HostFailed 5
        (Call.Read 0 granted (Did.Done 43) ∷ Call.Read 0 [] Did.Failed ∷ []) }
    ensures one_done { EndsBy Says IsNeverSpent 0 Ending.RoundsDone 1 (Call.Read 0 granted (Did.Done 43) ∷ []) }
    ensures not_done { EndsBy Says IsNeverSpent 0 Ending.RoundsDone 5 (Call.Read 0 granted (Did.Done 43) ∷ []) → ⊥ }
{}
