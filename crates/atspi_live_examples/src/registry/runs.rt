//! Runs of the registry, by the calls that a host tells.

ghost use Rattle.std.specs.Prelude.{◌≡◌, ◌∷◌, [], ℕ, List, Option, None, Some, codes, length};
ghost use Rattle.atspi_live_host.specs.declared.call.Call.{Call};
ghost use Rattle.atspi_live_host.specs.declared.call.Did.{Did};
ghost use Rattle.atspi_live_conversation.specs.Speech.{IsRefused};
ghost use Rattle.atspi_live_registry.specs.Runs.{AllSpeak, EndsOn, RunEnds};
ghost use Rattle.atspi_live_conversation.specs.Reports.{Begins, IsOnLink};
ghost use Rattle.atspi_live_registry.specs.Standing.{IsAfter};
ghost use Rattle.atspi_live_examples.specs.registry.Registries.{granted, hail, rejected};

use atspi_live_host::{Call, Did};

/// No call was made yet.
pub fn begins()
    ensures none { Begins (Some []) }
    ensures untold { Begins None }
    ensures one { Begins (Some (Call.Close 0 ∷ [])) → ⊥ }
{}

/// The link was connected at the path before such calls.
pub fn on_links()
    ensures connected { IsOnLink (codes "/p") 3 (Some (Call.Connect (codes "/p") (Did.Done 3) ∷ Call.Close 3 ∷ []))
        (λ calls. calls ≡ Call.Close 3 ∷ []) }
    ensures untold { IsOnLink (codes "/p") 3 None (λ calls. ⊥) }
    ensures no_such { IsOnLink (codes "/p") 3 (Some (Call.Connect (codes "/p") (Did.Done 3) ∷ [])) (λ calls. ⊥) → ⊥ }
    ensures other_path { IsOnLink (codes "/p") 3 (Some (Call.Connect (codes "/pq") (Did.Done 3) ∷ []))
        (λ calls. calls ≡ []) → ⊥ }
    ensures other_link { IsOnLink (codes "/p") 3 (Some (Call.Connect (codes "/p") (Did.Done 4) ∷ []))
        (λ calls. calls ≡ []) → ⊥ }
    ensures not_connected { IsOnLink (codes "/p") 3 (Some []) (λ calls. calls ≡ []) → ⊥ }
{}

/// On each open link the registry says its own: its first line before any byte was taken.
pub fn all_speak()
    ensures no_link { AllSpeak [] (Some (Call.Write 0 (codes "x") (Did.Done 1) ∷ [])) }
    ensures line { AllSpeak (0 ∷ []) (Some (Call.Write 0 hail (Did.Done 16) ∷ [])) }
    ensures other { AllSpeak (0 ∷ []) (Some (Call.Write 0 (codes "x") (Did.Done 1) ∷ [])) → ⊥ }
    ensures other_on_second { AllSpeak (0 ∷ 1 ∷ [])
        (Some (Call.Write 0 hail (Did.Done 16) ∷ Call.Write 1 (codes "x") (Did.Done 1) ∷ [])) → ⊥ }
    ensures closed_link { AllSpeak (0 ∷ [])
        (Some (Call.Write 0 hail (Did.Done 16) ∷ Call.Write 1 (codes "x") (Did.Done 1) ∷ [])) }
{}

/// A run whose peer ended at once, and one whose server did not let the registry in; each has its status, within its
/// rounds and on its link.
pub fn ended_on_links()
    ensures peer_ended { EndsOn (codes "/p") 0 0 5
        (Some (Call.Connect (codes "/p") (Did.Done 0) ∷ Call.Read 0 [] Did.End ∷ [])) (Some []) (Some []) }
    ensures refused { EndsOn (codes "/p") 0 10 5
        (Some (Call.Connect (codes "/p") (Did.Done 0) ∷ Call.Read 0 rejected (Did.Done 19) ∷ [])) (Some []) (Some []) }
    ensures let_in { EndsOn (codes "/p") 0 10 5
        (Some (Call.Connect (codes "/p") (Did.Done 0) ∷ Call.Read 0 granted (Did.Done 43) ∷ [])) (Some []) (Some [])
        → ⊥ }
    ensures not_connected { EndsOn (codes "/p") 0 10 5 (Some (Call.Read 0 rejected (Did.Done 19) ∷ [])) (Some [])
        (Some []) → ⊥ }
    ensures no_round { EndsOn (codes "/p") 0 10 0
        (Some (Call.Connect (codes "/p") (Did.Done 0) ∷ Call.Read 0 rejected (Did.Done 19) ∷ [])) (Some [])
        (Some []) → ⊥ }
    ensures written { EndsOn (codes "/p") 0 10 5
        (Some (Call.Connect (codes "/p") (Did.Done 0) ∷ Call.Read 0 rejected (Did.Done 19) ∷ [])) (Some [])
        (Some (codes "a")) → ⊥ }
    ensures other_status { EndsOn (codes "/p") 0 9 5
        (Some (Call.Connect (codes "/p") (Did.Done 0) ∷ Call.Read 0 rejected (Did.Done 19) ∷ [])) (Some [])
        (Some []) → ⊥ }
{}

/// All rounds were done; and a read takes 4,096 bytes at the most.
pub fn rounds_on_links()
    ensures all_rounds { EndsOn (codes "/p") 0 8 1
        (Some
        (Call.Connect (codes "/p") (Did.Done 0) ∷ Call.Read 0 [] Did.NotYet ∷ Call.Write 0 hail (Did.Done 16) ∷ []))
        (Some []) (Some []) }
    ensures longest_read { (bytes : List ℕ) → length bytes ≡ 4096 → IsRefused IsAfter bytes
        → EndsOn (codes "/p") 0 10 5
        (Some (Call.Connect (codes "/p") (Did.Done 0) ∷ Call.Read 0 bytes (Did.Done 4096) ∷ [])) (Some []) (Some []) }
    ensures longer_read { (bytes : List ℕ) → length bytes ≡ 4097
        → EndsOn (codes "/p") 0 10 5
        (Some (Call.Connect (codes "/p") (Did.Done 0) ∷ Call.Read 0 bytes (Did.Done 4097) ∷ [])) (Some []) (Some [])
        → ⊥ }
{}

/// Where no link is open, none was given, or memory was wanting before; else the run ended on the one that is.
pub fn ended_runs()
    ensures not_given { RunEnds (codes "/p") [] 7 5 (Some []) (Some []) (Some []) }
    ensures no_memory { RunEnds (codes "/p") [] 5 5 (Some []) (Some []) (Some []) }
    ensures other_status { RunEnds (codes "/p") [] 0 5 (Some []) (Some []) (Some []) → ⊥ }
    ensures written { RunEnds (codes "/p") [] 7 5 (Some []) (Some []) (Some (codes "a")) → ⊥ }
    ensures on_link { RunEnds (codes "/p") (0 ∷ []) 0 5
        (Some (Call.Connect (codes "/p") (Did.Done 0) ∷ Call.Read 0 [] Did.End ∷ [])) (Some []) (Some []) }
    ensures second_link { RunEnds (codes "/p") (0 ∷ 1 ∷ []) 0 5
        (Some (Call.Connect (codes "/p") (Did.Done 0) ∷ Call.Read 0 [] Did.End ∷ [])) (Some []) (Some []) → ⊥ }
    ensures not_on_link { RunEnds (codes "/p") (0 ∷ []) 9 5
        (Some (Call.Connect (codes "/p") (Did.Done 0) ∷ Call.Read 0 [] Did.End ∷ [])) (Some []) (Some []) → ⊥ }
    ensures written_on_link { RunEnds (codes "/p") (0 ∷ []) 10 5
        (Some (Call.Connect (codes "/p") (Did.Done 0) ∷ Call.Read 0 rejected (Did.Done 19) ∷ [])) (Some [])
        (Some (codes "a")) → ⊥ }
{}
