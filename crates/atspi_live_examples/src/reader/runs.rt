//! How runs of a reader on a link ended: their calls, their status, and what was written.

ghost use Rattle.std.specs.Prelude.{◌≤◌, ◌∷◌, ◌++◌, ℕ, List, [], None, Option, Some, codes, length};
ghost use Rattle.atspi_script.specs.FaultText.{fault_line};
ghost use Rattle.atspi_types.specs.declared.fault.Fault.{Fault};
ghost use Rattle.atspi_live_host.specs.Calls.{taken};
ghost use Rattle.atspi_live_host.specs.declared.call.Call.{Call};
ghost use Rattle.atspi_live_host.specs.declared.call.Did.{Did};
ghost use Rattle.atspi_live_conversation.specs.Rounds.{IsRound, IsRun};
ghost use Rattle.atspi_live_conversation.specs.Speech.{Ends};
ghost use Rattle.atspi_live_conversation.specs.declared.ending.Ending.{Ending};
ghost use Rattle.atspi_live_reader.specs.Runs.{AreLast, Causes, EndsOn, EndsSo, IsAll, IsCutOff, ReportsLast, RunEnds};
ghost use Rattle.atspi_live_reader.specs.Spoken.{IsAfter, IsAllSpoken, IsEmpty, IsSpent, IsSpoken, IsSpokenToFault};
ghost use Rattle.atspi_live_reader.specs.Spoken.{IsSpokenToSpent};
ghost use Rattle.atspi_live_examples.specs.reader.Started.{hail};

use atspi_live_conversation::Ending;
use atspi_live_host::{Call, Did};

/// With the last words behind the lines, all is written of what was taken of the link: up to what ended the run, and
/// where the peer ended what is held too.
pub fn last_words_told()
    ensures peer { (cs : List Call) → IsAll (taken 1 cs) (codes "ab")
        → AreLast 1 (Some cs) (codes "a") (codes "b") Ending.PeerEnded }
    ensures not_peer { (cs : List Call) → (IsAll (taken 1 cs) (codes "ab") → ⊥)
        → AreLast 1 (Some cs) (codes "a") (codes "b") Ending.PeerEnded → ⊥ }
    ensures malformed { (cs : List Call) (fault : Fault)
        → IsSpokenToFault 3 fault.place fault.reason (taken 1 cs) (codes "ab")
        → AreLast 1 (Some cs) (codes "a") (codes "b") (Ending.Malformed 3 fault) }
    ensures not_malformed { (cs : List Call) (fault : Fault)
        → (IsSpokenToFault 3 fault.place fault.reason (taken 1 cs) (codes "ab") → ⊥)
        → AreLast 1 (Some cs) (codes "a") (codes "b") (Ending.Malformed 3 fault) → ⊥ }
    ensures spent { (cs : List Call) → IsSpokenToSpent (taken 1 cs) (codes "ab")
        → AreLast 1 (Some cs) (codes "a") (codes "b") Ending.Spent }
    ensures not_spent { (cs : List Call) → (IsSpokenToSpent (taken 1 cs) (codes "ab") → ⊥)
        → AreLast 1 (Some cs) (codes "a") (codes "b") Ending.Spent → ⊥ }
    ensures failed { (cs : List Call) → IsAllSpoken (taken 1 cs) (codes "ab")
        → AreLast 1 (Some cs) (codes "a") (codes "b") Ending.HostFailed }
    ensures all_done { (cs : List Call) → IsAllSpoken (taken 1 cs) (codes "ab")
        → AreLast 1 (Some cs) (codes "a") (codes "b") Ending.RoundsDone }
    ensures not_all_done { (cs : List Call) → (IsAllSpoken (taken 1 cs) (codes "ab") → ⊥)
        → AreLast 1 (Some cs) (codes "a") (codes "b") Ending.RoundsDone → ⊥ }
    ensures wanting { (cs : List Call) → AreLast 1 (Some cs) (codes "a") (codes "b") Ending.NoMemory }
{}

/// Behind the last words stands the line of a fault, and the status is 6; where the sink failed or memory was wanting,
/// a front of both.
pub fn faults_reported()
    ensures told { (fault : Fault)
        → ReportsLast (codes "b") (Ending.Malformed 3 fault) 6 (Some (codes "a"))
        (Some (codes "ab" ++ fault_line 3 fault.place fault.reason)) }
    ensures other { (fault : Fault)
        → ReportsLast (codes "b") (Ending.Malformed 3 fault) 13 (Some (codes "a"))
        (Some (codes "ab" ++ fault_line 3 fault.place fault.reason)) → ⊥ }
    ensures untold { (fault : Fault)
        → ReportsLast (codes "b") (Ending.Malformed 3 fault) 6 (Some (codes "a")) (Some (codes "ab")) → ⊥ }
    ensures cut { (fault : Fault)
        → ReportsLast (codes "b") (Ending.Malformed 3 fault) 5 (Some (codes "a")) (Some (codes "abfault")) }
    ensures cut_other { (fault : Fault)
        → ReportsLast (codes "b") (Ending.Malformed 3 fault) 5 (Some (codes "a")) (Some (codes "x")) → ⊥ }
{}

/// The link was connected at the path, and behind that the calls of the run were made, as many rounds as there were.
pub fn ended_runs()
    ensures peer { EndsSo (codes "/p") 0 0 2 []
        (Some
        (Call.Connect (codes "/p") (Did.Done 0) ∷ Call.Read 0 [] Did.NotYet ∷ Call.Write 0 hail (Did.Done 16)
        ∷ Call.Read 0 [] Did.End ∷ [])) (Some (codes "a")) (Some (codes "a")) }
    ensures failed { EndsSo (codes "/p") 0 7 1 []
        (Some (Call.Connect (codes "/p") (Did.Done 0) ∷ Call.Read 0 [] Did.Failed ∷ [])) (Some (codes "a"))
        (Some (codes "a")) }
    ensures all_done { EndsSo (codes "/p") 0 8 1 []
        (Some
        (Call.Connect (codes "/p") (Did.Done 0) ∷ Call.Read 0 [] Did.NotYet ∷ Call.Write 0 hail (Did.Done 16) ∷ []))
        (Some (codes "a")) (Some (codes "a")) }
    ensures words { (calls : List Call)
        → Ends IsAfter IsSpent 1 Ending.HostFailed 5 (Some (Call.Connect (codes "/p") (Did.Done 1) ∷ calls))
        → IsRun (λ _. IsAfter) IsEmpty 1 4096 Ending.HostFailed 5 calls → IsAllSpoken (taken 1 calls) (codes "ab")
        → EndsSo (codes "/p") 1 7 5 (codes "a") (Some (Call.Connect (codes "/p") (Did.Done 1) ∷ calls)) (Some [])
        (Some (codes "b")) }
    ensures most_read { (t : List ℕ)
        → EndsSo (codes "/p") 0 10 1 []
        (Some (Call.Connect (codes "/p") (Did.Done 0) ∷ Call.Read 0 t (Did.Done 4096) ∷ [])) (Some []) (Some [])
        → length t ≤ 4096 }
    ensures untold { EndsSo (codes "/p") 0 0 5 (codes "s") None (Some (codes "a")) (Some (codes "ab")) }
    ensures not_connected { EndsSo (codes "/p") 0 7 1 [] (Some (Call.Read 0 [] Did.Failed ∷ [])) (Some []) (Some [])
        → ⊥ }
    ensures other_path { EndsSo (codes "/q") 0 7 1 []
        (Some (Call.Connect (codes "/p") (Did.Done 0) ∷ Call.Read 0 [] Did.Failed ∷ [])) (Some []) (Some []) → ⊥ }
    ensures other_link { EndsSo (codes "/p") 0 7 1 []
        (Some (Call.Connect (codes "/p") (Did.Done 1) ∷ Call.Read 0 [] Did.Failed ∷ [])) (Some []) (Some []) → ⊥ }
    ensures no_call { EndsSo (codes "/p") 0 7 1 [] (Some (Call.Connect (codes "/p") (Did.Done 0) ∷ [])) (Some [])
        (Some []) → ⊥ }
    ensures no_round { EndsSo (codes "/p") 0 7 0 []
        (Some (Call.Connect (codes "/p") (Did.Done 0) ∷ Call.Read 0 [] Did.Failed ∷ [])) (Some []) (Some []) → ⊥ }
    ensures not_failed { EndsSo (codes "/p") 0 0 1 []
        (Some (Call.Connect (codes "/p") (Did.Done 0) ∷ Call.Read 0 [] Did.Failed ∷ [])) (Some []) (Some []) → ⊥ }
    ensures not_spoken { EndsSo (codes "/p") 0 7 1 (codes "s")
        (Some (Call.Connect (codes "/p") (Did.Done 0) ∷ Call.Read 0 [] Did.Failed ∷ [])) (Some []) (Some []) → ⊥ }
    ensures other_words { EndsSo (codes "/p") 0 7 1 []
        (Some (Call.Connect (codes "/p") (Did.Done 0) ∷ Call.Read 0 [] Did.Failed ∷ [])) (Some [])
        (Some (codes "s")) → ⊥ }
    ensures other_status { EndsSo (codes "/p") 0 1 1 [] None (Some []) (Some []) → ⊥ }
{}

/// The sink failed: status 4, nothing is written then, and the calls are whole rounds.
pub fn cut_runs()
    ensures no_round { IsCutOff (codes "/p") 0 4 0 (Some (Call.Connect (codes "/p") (Did.Done 0) ∷ []))
        (Some (codes "a")) (Some (codes "a")) }
    ensures one_round { IsCutOff (codes "/p") 0 4 1
        (Some
        (Call.Connect (codes "/p") (Did.Done 0) ∷ Call.Read 0 [] Did.NotYet ∷ Call.Write 0 hail (Did.Done 16) ∷ []))
        (Some (codes "a")) (Some (codes "a")) }
    ensures whole_round { (calls : List Call) → IsRound IsAfter IsEmpty 0 4096 [] [] calls
        → IsCutOff (codes "/p") 0 4 1 (Some (Call.Connect (codes "/p") (Did.Done 0) ∷ calls)) (Some []) (Some []) }
    ensures most_read { (t : List ℕ)
        → IsCutOff (codes "/p") 0 4 1
        (Some (Call.Connect (codes "/p") (Did.Done 0) ∷ Call.Read 0 t (Did.Done 4096) ∷ [])) (Some []) (Some [])
        → length t ≤ 4096 }
    ensures untold { IsCutOff (codes "/p") 0 4 0 None None None }
    ensures other_status { IsCutOff (codes "/p") 0 5 0 None None None → ⊥ }
    ensures wrote { IsCutOff (codes "/p") 0 4 0 None (Some []) (Some (codes "a")) → ⊥ }
    ensures not_connected { IsCutOff (codes "/p") 0 4 0 (Some []) (Some []) (Some []) → ⊥ }
    ensures other_path { IsCutOff (codes "/q") 0 4 0 (Some (Call.Connect (codes "/p") (Did.Done 0) ∷ [])) (Some [])
        (Some []) → ⊥ }
    ensures other_link { IsCutOff (codes "/p") 1 4 0 (Some (Call.Connect (codes "/p") (Did.Done 0) ∷ [])) (Some [])
        (Some []) → ⊥ }
    ensures too_many { IsCutOff (codes "/p") 0 4 0
        (Some
        (Call.Connect (codes "/p") (Did.Done 0) ∷ Call.Read 0 [] Did.NotYet ∷ Call.Write 0 hail (Did.Done 16)
        ∷ [])) (Some []) (Some []) → ⊥ }
    ensures not_whole { IsCutOff (codes "/p") 0 4 5
        (Some (Call.Connect (codes "/p") (Did.Done 0) ∷ Call.Read 0 [] Did.End ∷ [])) (Some []) (Some []) → ⊥ }
{}

/// Spoken lines were written, and behind them what ended the run; there is one link, or none was given, and then
/// nothing is written.
pub fn runs_on_links()
    ensures ended { EndsOn (codes "/p") 0 0 5 None (Some (codes "a")) (Some (codes "abc")) }
    ensures failed { EndsOn (codes "/p") 0 7 1
        (Some (Call.Connect (codes "/p") (Did.Done 0) ∷ Call.Read 0 [] Did.Failed ∷ [])) (Some (codes "a"))
        (Some (codes "a")) }
    ensures cut { EndsOn (codes "/p") 0 4 5 (Some (Call.Connect (codes "/p") (Did.Done 0) ∷ [])) (Some (codes "a"))
        (Some (codes "a")) }
    ensures cut_behind { EndsOn (codes "/p") 0 4 5 None (Some (codes "a")) (Some (codes "ab")) }
    ensures words { (cs : List Call) → IsSpoken (taken 1 cs) (codes "a")
        → EndsSo (codes "/p") 1 7 5 (codes "a") (Some cs) (Some (codes "a")) (Some (codes "ab"))
        → EndsOn (codes "/p") 1 7 5 (Some cs) (Some []) (Some (codes "ab")) }
    ensures words_cut { (cs : List Call) → IsSpoken (taken 1 cs) (codes "a")
        → IsCutOff (codes "/p") 1 4 5 (Some cs) (Some (codes "a")) (Some (codes "a"))
        → EndsOn (codes "/p") 1 4 5 (Some cs) (Some []) (Some (codes "a")) }
    ensures too_soon { EndsOn (codes "/p") 0 4 5 (Some (Call.Connect (codes "/p") (Did.Done 0) ∷ [])) (Some [])
        (Some (codes "s")) → ⊥ }
    ensures other { EndsOn (codes "/p") 0 4 5 None (Some (codes "a")) (Some (codes "b")) → ⊥ }
    ensures other_status { EndsOn (codes "/p") 0 1 5 None (Some []) (Some []) → ⊥ }
    ensures one_link { RunEnds (codes "/p") (0 ∷ []) 4 5 (Some (Call.Connect (codes "/p") (Did.Done 0) ∷ []))
        (Some (codes "a")) (Some (codes "a")) }
    ensures any_run { (calls : Option (List Call))
        → EndsOn (codes "/p") 1 7 5 calls (Some (codes "a")) (Some (codes "ab"))
        → RunEnds (codes "/p") (1 ∷ []) 7 5 calls (Some (codes "a")) (Some (codes "ab")) }
    ensures other_link { RunEnds (codes "/p") (1 ∷ []) 4 5 (Some (Call.Connect (codes "/p") (Did.Done 0) ∷ []))
        (Some []) (Some []) → ⊥ }
    ensures two_links { RunEnds (codes "/p") (0 ∷ 1 ∷ []) 4 5 None (Some []) (Some []) → ⊥ }
    ensures none_given { RunEnds (codes "/p") [] 7 6 None (Some (codes "a")) (Some (codes "a")) }
    ensures wanting { RunEnds (codes "/p") [] 5 6 None (Some (codes "a")) (Some (codes "a")) }
    ensures none_given_other { RunEnds (codes "/p") [] 8 7 None (Some []) (Some []) → ⊥ }
    ensures none_given_wrote { RunEnds (codes "/p") [] 7 5 None (Some []) (Some (codes "a")) → ⊥ }
{}

/// Which counts rose: one of the host's with status 7; that of failed reads and writes also where the last words could
/// not be written then; the sink's with status 4.
pub fn causes()
    ensures none { Causes 0 3 3 4 4 5 5 }
    ensures host { Causes 7 3 4 4 4 5 5 }
    ensures link { Causes 7 3 3 4 5 5 5 }
    ensures nobody { Causes 7 3 3 4 4 5 5 → ⊥ }
    ensures host_other { Causes 8 3 4 4 4 5 5 → ⊥ }
    ensures host_untold { Causes 4 3 4 4 4 5 6 → ⊥ }
    ensures link_untold { Causes 4 3 3 4 5 5 6 }
    ensures link_wanting { Causes 5 3 3 4 5 5 5 }
    ensures link_other { Causes 8 3 3 4 5 5 5 → ⊥ }
    ensures link_fell { Causes 4 3 3 4 3 5 6 → ⊥ }
    ensures sink { Causes 4 3 3 4 4 5 6 }
    ensures sink_same { Causes 4 3 3 4 4 5 5 → ⊥ }
    ensures sink_other { Causes 0 3 3 4 4 5 6 → ⊥ }
{}
