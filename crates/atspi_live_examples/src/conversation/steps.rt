//! What a host tells of the calls of a run, what the steps of a conversation write, and which endings blame the host.

ghost use Rattle.std.specs.Prelude.{◌≡◌, ◌∷◌, ◌++◌, [], ℕ, List, None, Some, codes};
ghost use Rattle.atspi_auth.specs.Talk.{client_start};
ghost use Rattle.atspi_live_host.specs.declared.call.Call.{Call};
ghost use Rattle.atspi_live_host.specs.declared.call.Did.{Did};
ghost use Rattle.atspi_types.specs.declared.fault.Fault.{Fault};
ghost use Rattle.atspi_live_conversation.specs.Left.{IsTaken};
ghost use Rattle.atspi_live_conversation.specs.Moved.{AllGoOn, GoesOn, Grows, Tells};
ghost use Rattle.atspi_live_conversation.specs.inner.Moved.{Gives};
ghost use Rattle.atspi_live_conversation.specs.Rounds.{Makes};
ghost use Rattle.atspi_live_conversation.specs.Talking.{Blames, IsBroken};
ghost use Rattle.atspi_live_conversation.specs.inner.Talking.{GivesPart, HearsNot, IsOwn, PutsFront};
ghost use Rattle.atspi_live_conversation.specs.inner.Talking.{PutsIfAny};
ghost use Rattle.atspi_live_conversation.specs.declared.ending.Ending.{Ending};

use atspi_live_conversation::Ending;
use atspi_live_host::{Call, Did};

/// What the reads of a link took, what its writes gave, and how its reads were answered, each as told; of a host that
/// tells no calls anything may be so.
pub fn told_calls()
    ensures none { Tells 0 None (codes "a") (codes "b") [] }
    ensures some { Tells 0 (Some (Call.Read 0 (codes "ab") (Did.Done 2) ∷ Call.Write 0 (codes "xyz") (Did.Done 2) ∷ []))
        (codes "ab") (codes "xy") (Did.Done 2 ∷ []) }
    ensures other_taken { Tells 0 (Some (Call.Read 0 (codes "ab") (Did.Done 2) ∷ [])) (codes "a") [] (Did.Done 2 ∷ [])
        → ⊥ }
    ensures other_given { Tells 0 (Some (Call.Write 0 (codes "xyz") (Did.Done 2) ∷ [])) [] (codes "xyz") [] → ⊥ }
    ensures other_answer { Tells 0 (Some (Call.Read 0 [] Did.NotYet ∷ [])) [] [] (Did.End ∷ []) → ⊥ }
    ensures taken { IsTaken 0 (Some (Call.Read 0 (codes "ab") (Did.Done 2) ∷ [])) (codes "ab") }
    ensures not_taken { IsTaken 0 (Some (Call.Read 1 (codes "ab") (Did.Done 2) ∷ [])) (codes "ab") → ⊥ }
    ensures untold { IsTaken 0 None (codes "ab") }
{}

/// Calls behind others: a host that told none tells none later.
pub fn later_calls()
    ensures told_late { Grows 0 None (Some []) → ⊥ }
    ensures given_late { Gives 0 None (Some []) [] → ⊥ }
    ensures made_late { Makes None (Some []) (λ calls. calls ≡ []) → ⊥ }
    ensures no_more { Makes (Some []) None (λ calls. ⊥) }
    ensures makes { Makes (Some (Call.Close 0 ∷ [])) (Some (Call.Close 0 ∷ Call.Close 1 ∷ []))
        (λ calls. calls ≡ Call.Close 1 ∷ []) }
    ensures makes_other { Makes (Some []) (Some (Call.Close 1 ∷ [])) (λ calls. ⊥) → ⊥ }
    ensures grows { Grows 0 (Some (Call.Read 0 (codes "a") (Did.Done 1) ∷ []))
        (Some (Call.Read 0 (codes "a") (Did.Done 1) ∷ Call.Read 0 (codes "b") (Did.Done 1) ∷ [])) }
    ensures shrinks { Grows 0 (Some (Call.Read 0 (codes "a") (Did.Done 1) ∷ [])) (Some []) → ⊥ }
    ensures gives_part { GivesPart 0 (Some []) (Some (Call.Write 0 (codes "abc") (Did.Done 1) ∷ [])) (codes "abc")
        (codes "bc") }
    ensures keeps_all { GivesPart 0 (Some []) (Some (Call.Write 0 (codes "abc") (Did.Done 1) ∷ [])) (codes "abc")
        (codes "abc") → ⊥ }
    ensures grows_untold { Grows 0 (Some []) None }
    ensures gives_untold { Gives 0 (Some []) None (codes "a") }
    ensures gives { Gives 0 (Some (Call.Write 0 (codes "a") (Did.Done 1) ∷ []))
        (Some (Call.Write 0 (codes "a") (Did.Done 1) ∷ Call.Write 0 (codes "bc") (Did.Done 1) ∷ [])) (codes "b") }
    ensures gives_other { Gives 0 (Some []) (Some (Call.Write 0 (codes "bc") (Did.Done 1) ∷ [])) (codes "bc") → ⊥ }
    ensures takes_too { Gives 0 (Some []) (Some (Call.Read 0 (codes "a") (Did.Done 1) ∷ [])) [] → ⊥ }
    ensures reads_too { Gives 0 (Some []) (Some (Call.Read 0 [] Did.NotYet ∷ [])) [] → ⊥ }
{}

/// The run can go on behind a read that took bytes or found none yet, and not behind the peer's end or a failure.
pub fn answers_to_go_on()
    ensures took { GoesOn (Did.Done 7) }
    ensures none_yet { GoesOn Did.NotYet }
    ensures ended { GoesOn Did.End → ⊥ }
    ensures failed { GoesOn Did.Failed → ⊥ }
    ensures first_ended { AllGoOn (Did.End ∷ Did.NotYet ∷ []) → ⊥ }
    ensures last_failed { AllGoOn (Did.NotYet ∷ Did.Failed ∷ []) → ⊥ }
{}

/// One write is made of what waits, and none where nothing does.
pub fn writes_of_what_waits()
    ensures one { PutsFront 0 (codes "ab") (Did.Done 1) (Call.Write 0 (codes "ab") (Did.Done 1) ∷ []) }
    ensures nothing_waits { PutsFront 0 [] Did.NotYet (Call.Write 0 [] Did.NotYet ∷ []) → ⊥ }
    ensures part { PutsFront 0 (codes "ab") (Did.Done 1) (Call.Write 0 (codes "a") (Did.Done 1) ∷ []) → ⊥ }
    ensures none { PutsIfAny 0 [] [] }
    ensures due { PutsIfAny 0 (codes "ab") [] → ⊥ }
{}

/// The count of failed reads and writes goes up where the host failed, and where it stands at the last value of 64 bits
/// it stays; with no other ending it changes.
pub fn counts_of_failures()
    ensures failed { Blames Ending.HostFailed 3 4 }
    ensures not_counted { Blames Ending.HostFailed 3 3 → ⊥ }
    ensures at_last { Blames Ending.HostFailed 18446744073709551615 18446744073709551615 }
    ensures lower { Blames Ending.HostFailed 18446744073709551615 0 → ⊥ }
    ensures ended { Blames Ending.PeerEnded 3 3 }
    ensures ended_counted { Blames Ending.PeerEnded 3 4 → ⊥ }
    ensures spent_counted { Blames Ending.Spent 3 4 → ⊥ }
{}

/// The peer's end, the host's failure and the end of all rounds are not the end's own; all but the last end within a
/// round.
pub fn kinds_of_endings()
    ensures own { IsOwn Ending.NotAuthenticated }
    ensures malformed { (start : ℕ) (fault : Fault) → IsOwn (Ending.Malformed start fault) }
    ensures spent { IsOwn Ending.Spent }
    ensures no_memory { IsOwn Ending.NoMemory }
    ensures hosts { IsOwn Ending.HostFailed → ⊥ }
    ensures peers { IsOwn Ending.PeerEnded → ⊥ }
    ensures all_done { IsOwn Ending.RoundsDone → ⊥ }
    ensures whole { IsBroken Ending.RoundsDone → ⊥ }
    ensures broken { IsBroken Ending.PeerEnded }
    ensures not_heard { (piece : List ℕ) → HearsNot Ending.NoMemory client_start piece }
    ensures heard { (piece : List ℕ) → HearsNot Ending.Spent client_start piece → ⊥ }
{}
