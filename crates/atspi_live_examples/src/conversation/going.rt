//! Conversations that go on, and runs that ended, of an end that takes and sends no messages but for those that are
//! told.

ghost use Rattle.std.specs.Prelude.{◌≡◌, ◌∷◌, ◌++◌, ◌+◌, ℕ, List, [], None, Some, codes, length};
ghost use Rattle.atspi_auth.specs.Lines.{end_of_line};
ghost use Rattle.atspi_auth.specs.Talk.{after, client_start};
ghost use Rattle.atspi_auth.specs.declared.said.AuthLine.{AuthLine};
ghost use Rattle.atspi_auth.specs.declared.stage.Stage.TheVariants.{Over};
ghost use Rattle.atspi_live_host.specs.declared.call.Call.{Call};
ghost use Rattle.atspi_live_host.specs.declared.call.Did.{Did};
ghost use Rattle.atspi_message.specs.Bytes.{IsMessage, written};
ghost use Rattle.atspi_message.specs.Envelope.{Envelope};
ghost use Rattle.atspi_stream.specs.Stream.{HasFault};
ghost use Rattle.atspi_live_conversation.specs.Left.{IsLeft, StopsAt};
ghost use Rattle.atspi_live_conversation.specs.Rounds.{IsRead, IsWrite};
ghost use Rattle.atspi_live_conversation.specs.Sent.{Fits};
ghost use Rattle.atspi_live_conversation.specs.Speech.{Ends, IsSpeech, Speaks, line_bytes};
ghost use Rattle.atspi_live_conversation.specs.Talking.{Converses, Going, HasBegun, IsAtEase};
ghost use Rattle.atspi_live_conversation.specs.inner.Talking.{BreaksOff, HearsNot};
ghost use Rattle.atspi_live_conversation.specs.Talking.{IsEnded, IsUttered, MakesNext, heard_in};
ghost use Rattle.atspi_live_conversation.specs.inner.Talking.{PutsFront, TellsNot};
ghost use Rattle.atspi_live_conversation.specs.declared.ending.Ending.{Ending};
ghost use Rattle.atspi_live_examples.specs.conversation.Logs.{Handed, IsNever, IsSpentAt, Logs, Nowhere, begun, fresh};
ghost use Rattle.atspi_live_examples.specs.conversation.Logs.{hailed, over, three_lines};
ghost use Rattle.atspi_live_examples.specs.conversation.Silent.{IsNeverSpent, IsSpentWith, Says, Took, granted, hail};
ghost use Rattle.atspi_live_examples.specs.conversation.Silent.{rejected};

use atspi_auth::AuthLine;
use atspi_live_conversation::Ending;
use atspi_live_host::{Call, Did};

/// At the beginning nothing was heard or said, and the first line waits.
pub fn beginnings()
    ensures begun { HasBegun begun }
    ensures no_line { HasBegun hailed → ⊥ }
    ensures bytes_held { HasBegun (record begun { feeder = codes "l" }) → ⊥ }
    ensures bytes_wait { HasBegun (record begun { unsent = codes "l" }) → ⊥ }
    ensures heard { HasBegun (record begun { heard = 1 }) → ⊥ }
    ensures count { heard_in (record begun { heard = 7 }) ≡ 7 }
{}

/// All lines wait as bytes; and an end whose lines are over has no message left where no byte waits.
pub fn uttered()
    ensures all { IsUttered (λ (n : ℕ). n) (over []) 0 }
    ensures message_left { IsUttered (λ (n : ℕ). n) (over []) 1 → ⊥ }
    ensures line_left { IsUttered (λ (n : ℕ). n) (over (AuthLine.Begin ∷ [])) 0 → ⊥ }
    ensures bytes_wait { IsUttered (λ (n : ℕ). n) (record (over []) { unsent = codes "l" }) 1 }
    ensures not_over { IsUttered (λ (n : ℕ). n) hailed 1 }
{}

/// What was given, and the bytes that wait, are the lines that were handed out and then what the end sent; the bytes
/// held are those behind the messages that it took.
pub fn converses()
    ensures begun { Converses Says [] [] begun 0 }
    ensures line_waits { Converses Says [] [] (record hailed { unsent = hail }) 0 }
    ensures line_given { Converses Says [] hail hailed 0 }
    ensures message { (e : Envelope) (m : List ℕ) → IsMessage e m
        → Converses (Took e) (granted ++ m) [] (record begun { client = after client_start granted; heard = length m })
        0 }
    ensures said { (e : Envelope) → Fits e
        → Converses (Handed e) granted (line_bytes three_lines) (record (over []) { unsent = written e }) 0 }
    ensures too_soon { (e : Envelope) → Converses (Handed e) [] [] (record begun { unsent = written e }) 0 → ⊥ }
    ensures before_last_line { (e : Envelope)
        → Converses (Handed e) granted (line_bytes (AuthLine.Hail ∷ AuthLine.Data ∷ []))
        (record (over (AuthLine.Begin ∷ [])) { unsent = written e }) 0 → ⊥ }
    ensures line_twice { Converses Says [] hail begun 0 → ⊥ }
    ensures other_bytes { Converses Says [] (codes "x") begun 0 → ⊥ }
    ensures line_lost { Converses Says [] [] hailed 0 → ⊥ }
    ensures bytes_held { Converses Says [] [] (record begun { feeder = codes "l" }) 0 → ⊥ }
    ensures miscounted { Converses Says [] [] (record begun { heard = 1 }) 0 → ⊥ }
    ensures stands_nowhere { Converses Nowhere [] [] begun 0 → ⊥ }
{}

/// Nothing is at fault, and no whole message is left that the end did not take.
pub fn at_ease()
    ensures begun { IsAtEase Says [] [] begun 0 }
    ensures line_waits { IsAtEase Says [] [] (record hailed { unsent = hail }) 0 }
    ensures refused { Converses Says rejected [] (record begun { client = after client_start rejected }) 0 }
    ensures not_at_ease { IsAtEase Says rejected [] (record begun { client = after client_start rejected }) 0 → ⊥ }
    ensures not_taken { (e : Envelope) (m : List ℕ) → IsMessage e m
        → Converses Says (granted ++ m) []
        (record begun { client = after client_start granted; feeder = m; heard = length m }) 0 }
    ensures not_at_ease_then { (e : Envelope) (m : List ℕ) → IsMessage e m
        → IsAtEase Says (granted ++ m) []
        (record begun { client = after client_start granted; feeder = m; heard = length m }) 0 → ⊥ }
    ensures stands_nowhere { IsAtEase Nowhere [] [] begun 0 → ⊥ }
{}

/// So many rounds were done, and the host's calls moved just these bytes; of a host that tells no calls the rounds are
/// counted all the same.
pub fn rounds_done()
    ensures none { Going Says 0 (Some []) 0 begun 0 }
    ensures one { Going Says 0 (Some (Call.Read 0 [] Did.NotYet ∷ Call.Write 0 hail (Did.Done 16) ∷ [])) 1 hailed 0 }
    ensures untold { Going Says 0 None 1 begun 0 }
    ensures not_given { Going Says 0 (Some (Call.Read 0 [] Did.NotYet ∷ [])) 1 hailed 0 → ⊥ }
    ensures read_ended { Going Says 0 (Some (Call.Read 0 [] Did.End ∷ [])) 1 begun 0 → ⊥ }
    ensures more_reads { Going Says 0 (Some (Call.Read 0 [] Did.NotYet ∷ [])) 0 begun 0 → ⊥ }
    ensures stands_nowhere { Going Nowhere 0 (Some []) 0 begun 0 → ⊥ }
{}

/// Which calls come next hangs on what was taken and given before, where the run went on so far.
pub fn next_calls()
    ensures by_what_moved { MakesNext Says 0 (Some (Call.Write 0 hail (Did.Done 16) ∷ []))
        (Some (Call.Write 0 hail (Did.Done 16) ∷ Call.Close 0 ∷ [])) hailed 0
        (λ t g calls. (t ≡ []) × (g ≡ hail) × (calls ≡ Call.Close 0 ∷ [])) }
    ensures none_made { MakesNext Says 0 (Some []) (Some []) begun 0 (λ t g calls. ⊥) → ⊥ }
    ensures did_not_go_on { MakesNext Nowhere 0 (Some []) (Some []) begun 0 (λ t g calls. ⊥) }
{}

/// What was taken ends a run where lines are at fault, a message is, or one spends the numbers; want of memory ends
/// any, and the other endings are the link's.
pub fn broken_off()
    ensures refused { BreaksOff Says IsNeverSpent Ending.NotAuthenticated rejected }
    ensures not_refused { BreaksOff Says IsNeverSpent Ending.NotAuthenticated granted → ⊥ }
    ensures fault { (e : Envelope) (m bytes : List ℕ) (place reason : ℕ) → IsMessage e m → HasFault bytes place reason
        → BreaksOff (Took e) IsNeverSpent (Ending.Malformed (length m) (record { place = place; reason = reason }))
        (granted ++ (m ++ bytes)) }
    ensures fault_elsewhere { (bytes : List ℕ) (place reason : ℕ)
        → BreaksOff Says IsNeverSpent (Ending.Malformed 1 (record { place = place; reason = reason }))
        (granted ++ bytes) → ⊥ }
    ensures spent { (e : Envelope) (m : List ℕ) → IsMessage e m
        → BreaksOff Says (IsSpentWith e) Ending.Spent (granted ++ m) }
    ensures never_spent { (t : List ℕ) → BreaksOff Says IsNeverSpent Ending.Spent t → ⊥ }
    ensures no_memory { (t : List ℕ) → BreaksOff Nowhere IsNeverSpent Ending.NoMemory t }
    ensures rounds_done { (t : List ℕ) → BreaksOff Says IsNeverSpent Ending.RoundsDone t → ⊥ }
    ensures peer_ended { (t : List ℕ) → BreaksOff Says IsNeverSpent Ending.PeerEnded t → ⊥ }
    ensures host_failed { (t : List ℕ) → BreaksOff Says IsNeverSpent Ending.HostFailed t → ⊥ }
    ensures piece_refused { HearsNot Ending.NotAuthenticated client_start rejected }
    ensures piece_heard { HearsNot Ending.NotAuthenticated client_start granted → ⊥ }
{}

/// An end could not be told all that is held where a message is at fault, behind as many bytes as were heard but are
/// not held, or where one spends its numbers.
pub fn not_told()
    ensures fault { (bytes : List ℕ) (place reason : ℕ) → HasFault bytes place reason
        → TellsNot Logs IsNever (Ending.Malformed 5 (record { place = place; reason = reason }))
        (record begun { feeder = bytes; heard = 5 + length bytes }) fresh fresh }
    ensures fault_elsewhere { (bytes : List ℕ) (place reason : ℕ)
        → TellsNot Logs IsNever (Ending.Malformed 6 (record { place = place; reason = reason }))
        (record begun { feeder = bytes; heard = 5 + length bytes }) fresh fresh → ⊥ }
    ensures no_fault { (place reason : ℕ)
        → TellsNot Logs IsNever (Ending.Malformed 0 (record { place = place; reason = reason })) begun fresh fresh → ⊥ }
    ensures spent { (e : Envelope) (m : List ℕ) → IsMessage e m
        → TellsNot Logs (IsSpentAt e) Ending.Spent (record begun { feeder = m }) fresh fresh }
    ensures never_spent { TellsNot Logs IsNever Ending.Spent begun fresh fresh → ⊥ }
    ensures no_memory { TellsNot Logs IsNever Ending.NoMemory begun fresh fresh }
    ensures peer_ended { TellsNot Logs IsNever Ending.PeerEnded begun fresh fresh → ⊥ }
    ensures refused { TellsNot Logs IsNever Ending.NotAuthenticated begun fresh fresh → ⊥ }
{}

/// What a host tells of a link is what the end says there; of other links, and of a host that tells nothing, that says
/// nothing.
pub fn speeches()
    ensures line { Speaks Says 0 (Some (Call.Write 0 hail (Did.Done 16) ∷ [])) }
    ensures part { Speaks Says 0 (Some (Call.Write 0 hail (Did.Done 5) ∷ [])) }
    ensures other { Speaks Says 0 (Some (Call.Write 0 (codes "x") (Did.Done 1) ∷ [])) → ⊥ }
    ensures other_link { Speaks Says 1 (Some (Call.Write 0 (codes "x") (Did.Done 1) ∷ [])) }
    ensures untold { Speaks Nowhere 0 None }
    ensures ended { Ends Says IsNeverSpent 0 Ending.PeerEnded 5
        (Some (Call.Read 0 granted (Did.Done 43) ∷ Call.Read 0 [] Did.End ∷ [])) }
    ensures not_ended { Ends Says IsNeverSpent 0 Ending.RoundsDone 5 (Some (Call.Read 0 granted (Did.Done 43) ∷ []))
        → ⊥ }
    ensures ends_untold { Ends Nowhere IsNeverSpent 0 Ending.Spent 5 None }
{}

/// A run that ended is both: what it gave is what the end says, and what it took is why it ended.
pub fn is_ended()
    ensures both { IsEnded Says IsNeverSpent 0 Ending.PeerEnded 5
        (Some (Call.Write 0 hail (Did.Done 16) ∷ Call.Read 0 [] Did.End ∷ [])) }
    ensures other_said { IsEnded Says IsNeverSpent 0 Ending.PeerEnded 5
        (Some (Call.Write 0 (codes "x") (Did.Done 1) ∷ Call.Read 0 [] Did.End ∷ [])) → ⊥ }
    ensures not_ended { IsEnded Says IsNeverSpent 0 Ending.RoundsDone 5
        (Some (Call.Write 0 hail (Did.Done 16) ∷ Call.Read 0 [] Did.NotYet ∷ [])) → ⊥ }
{}

/// An end that is left behind a run took each message up to what ended it; nothing is said of it after want of memory,
/// and it stands somewhere where no calls are told.
pub fn left()
    ensures taken { (e : Envelope) (m : List ℕ) → IsMessage e m
        → IsLeft (Took e) IsNeverSpent 0 Ending.PeerEnded (Some (Call.Read 0 (granted ++ m) (Did.Done 43) ∷ [])) 0 }
    ensures not_taken { (e : Envelope) (m : List ℕ) → IsMessage e m
        → IsLeft Says IsNeverSpent 0 Ending.PeerEnded (Some (Call.Read 0 (granted ++ m) (Did.Done 43) ∷ [])) 0 → ⊥ }
    ensures no_memory { (e : Envelope) (m : List ℕ) → IsMessage e m
        → IsLeft Says IsNeverSpent 0 Ending.NoMemory (Some (Call.Read 0 (granted ++ m) (Did.Done 43) ∷ [])) 0 }
    ensures untold { IsLeft Says IsNeverSpent 0 Ending.PeerEnded None 0 }
    ensures stands_nowhere { IsLeft Nowhere IsNeverSpent 0 Ending.PeerEnded None 0 → ⊥ }
    ensures fault { (e : Envelope) (m bytes : List ℕ) (place reason : ℕ) → HasFault bytes place reason
        → StopsAt (Took e) IsNeverSpent (Ending.Malformed (length m) (record { place = place; reason = reason }))
        ((e, m) ∷ []) [] bytes }
    ensures fault_elsewhere { (bytes : List ℕ) (place reason : ℕ)
        → StopsAt Says IsNeverSpent (Ending.Malformed 1 (record { place = place; reason = reason })) [] [] bytes → ⊥ }
    ensures no_fault { (place reason : ℕ)
        → StopsAt Says IsNeverSpent (Ending.Malformed 0 (record { place = place; reason = reason })) [] [] [] → ⊥ }
    ensures whole_left { (e : Envelope) (m : List ℕ) → IsMessage e m
        → StopsAt Says IsNeverSpent Ending.HostFailed [] [] m → ⊥ }
{}

/// A read takes as many bytes as there is room for; a write gives 1 to 4,096 of those that wait.
pub fn longest_calls()
    ensures read { IsRead 0 2 (Call.Read 0 (codes "ab") (Did.Done 2) ∷ []) }
    ensures longer_read { IsRead 0 2 (Call.Read 0 (codes "abc") (Did.Done 3) ∷ []) → ⊥ }
    ensures front { (front more : List ℕ) → length front ≡ 4096
        → PutsFront 0 (front ++ more) (Did.Done 1) (Call.Write 0 front (Did.Done 1) ∷ []) }
    ensures longer_front { (unsent : List ℕ) → length unsent ≡ 4097
        → PutsFront 0 unsent (Did.Done 1) (Call.Write 0 unsent (Did.Done 1) ∷ []) → ⊥ }
    ensures write { (t g bytes : List ℕ) → length bytes ≡ 4096 → IsSpeech Says t (g ++ bytes)
        → IsWrite Says 0 t g (Did.Done 1) (Call.Write 0 bytes (Did.Done 1) ∷ []) }
    ensures longer_write { (t g bytes : List ℕ) → length bytes ≡ 4097
        → IsWrite Says 0 t g (Did.Done 1) (Call.Write 0 bytes (Did.Done 1) ∷ []) → ⊥ }
    ensures empty_write { IsWrite Says 0 [] hail (Did.Done 1) (Call.Write 0 [] (Did.Done 1) ∷ []) → ⊥ }
{}
