//! How runs of an application ended: one stands that took the messages before the end, and none of its own has passed
//! the last number.

ghost use Rattle.std.specs.Prelude.{◌≡◌, ◌∷◌, ◌++◌, ℕ, true, List, [], Some, codes, length};
ghost use Rattle.atspi_types.specs.declared.fault.Fault.{Fault};
ghost use Rattle.atspi_live_host.specs.declared.call.Call.{Call};
ghost use Rattle.atspi_live_host.specs.declared.call.Did.{Did};
ghost use Rattle.atspi_message.specs.Bytes.{IsMessage};
ghost use Rattle.atspi_message.specs.Envelope.{Envelope};
ghost use Rattle.atspi_stream.specs.Stream.{HasFault};
ghost use Rattle.atspi_protocol.specs.exporting.Exporter.{Exporter};
ghost use Rattle.atspi_protocol.specs.exporting.Taking.{is_spent};
ghost use Rattle.atspi_live_conversation.specs.Speech.{EndsBy};
ghost use Rattle.atspi_live_conversation.specs.declared.ending.Ending.{Ending};
ghost use Rattle.atspi_live_app.specs.Live.{IsMarked};
ghost use Rattle.atspi_live_app.specs.Standing.{IsAfter, IsSpent};
ghost use Rattle.atspi_live_examples.specs.app.Lines.{granted, rejected};

/// Before a line is done: the server refuses, the peer ends, the link fails, the one round is done, or a message is
/// malformed behind one that was taken. Where there is no line, no run ends behind one.
pub fn unstarted_ends()
    ensures refused { (lines : List (List ℕ))
        → EndsBy (IsAfter (IsMarked []) lines) IsSpent 0 Ending.NotAuthenticated 5
        (Call.Read 0 rejected (Did.Done 19) ∷ []) }
    ensures ended { (lines : List (List ℕ))
        → EndsBy (IsAfter (IsMarked []) lines) IsSpent 0 Ending.PeerEnded 5 (Call.Read 0 [] Did.End ∷ []) }
    ensures failed { (lines : List (List ℕ))
        → EndsBy (IsAfter (IsMarked []) lines) IsSpent 0 Ending.HostFailed 5 (Call.Read 0 [] Did.Failed ∷ []) }
    ensures done { (lines : List (List ℕ))
        → EndsBy (IsAfter (IsMarked []) lines) IsSpent 0 Ending.RoundsDone 1 (Call.Read 0 [] Did.NotYet ∷ []) }
    ensures malformed { (lines : List (List ℕ)) (e : Envelope) (m bytes : List ℕ) (fault : Fault) (n : ℕ)
        → IsMessage e m → HasFault bytes fault.place fault.reason
        → EndsBy (IsAfter (IsMarked []) lines) IsSpent 0 (Ending.Malformed (length m) fault) 5
        (Call.Read 0 (granted ++ (m ++ bytes)) (Did.Done n) ∷ []) }
    ensures no_line { EndsBy (IsAfter (IsMarked (0 ∷ [])) []) IsSpent 0 Ending.HostFailed 5
        (Call.Read 0 [] Did.Failed ∷ []) → ⊥ }
{}

/// An application of whose messages one has passed the last number stands at no end.
pub fn numbered_ends()
    ensures { (marks : List ℕ) (lines : List (List ℕ)) (s : Exporter) (took said : List Envelope) → is_spent s ≡ true
        → IsAfter (IsMarked marks) lines (Some s) took said → ⊥ }
{}
