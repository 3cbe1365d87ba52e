//! How runs of a reader were over, by their ending or because the sink failed.

ghost use Rattle.std.specs.Prelude.{◌≡◌, ◌≤◌, ◌∷◌, ℕ, List, [], None, Some, codes, length};
ghost use Rattle.atspi_live_host.specs.declared.call.Call.{Call};
ghost use Rattle.atspi_live_host.specs.declared.call.Did.{Did};
ghost use Rattle.atspi_message.specs.Envelope.{Envelope};
ghost use Rattle.atspi_live_conversation.specs.Rounds.{IsRound};
ghost use Rattle.atspi_live_conversation.specs.declared.ending.Ending.{Ending};
ghost use Rattle.atspi_live_reader.specs.Following.{BlamesSink, BreaksOver, EndsRun, EndsTurn, IsEndedSo, IsOver};
ghost use Rattle.atspi_live_reader.specs.Following.{OverBlames, RunsOver, Stands};
ghost use Rattle.atspi_live_reader.specs.Spoken.{IsAfter, IsEmpty};
ghost use Rattle.atspi_live_reader.specs.declared.live_reader.LiveReader.{LiveReader};
ghost use Rattle.atspi_live_reader.specs.declared.over.Over.TheVariants as overs;
ghost use Rattle.atspi_live_reader.specs.Cases.{hail};

use atspi_live_conversation::Ending;
use atspi_live_host::{Call, Did};

/// The count of the host rises where the host failed, and that of the sink where the sink failed; no count falls, and
/// at the last value of 64 bits it stays.
pub fn counts()
    ensures host { OverBlames (overs.Ended Ending.HostFailed) 3 4 }
    ensures host_same { OverBlames (overs.Ended Ending.HostFailed) 3 3 → ⊥ }
    ensures peer { OverBlames (overs.Ended Ending.PeerEnded) 3 3 }
    ensures peer_rose { OverBlames (overs.Ended Ending.PeerEnded) 3 4 → ⊥ }
    ensures no_host { OverBlames overs.NotWritten 3 3 }
    ensures no_host_rose { OverBlames overs.NotWritten 3 4 → ⊥ }
    ensures sink { BlamesSink overs.NotWritten 3 4 }
    ensures sink_same { BlamesSink overs.NotWritten 3 3 → ⊥ }
    ensures sink_last { BlamesSink overs.NotWritten 18446744073709551615 18446744073709551615 }
    ensures sink_fell { BlamesSink overs.NotWritten 18446744073709551615 0 → ⊥ }
    ensures no_sink { BlamesSink (overs.Ended Ending.HostFailed) 3 3 }
    ensures no_sink_rose { BlamesSink (overs.Ended Ending.HostFailed) 3 4 → ⊥ }
{}

/// A run that ended did so by what its reads took and found; of one whose sink failed nothing is said of that.
pub fn ended_so()
    ensures peer { IsEndedSo 0 (overs.Ended Ending.PeerEnded) 5 (Some (Call.Read 0 [] Did.End ∷ [])) }
    ensures not_peer { IsEndedSo 0 (overs.Ended Ending.PeerEnded) 5 (Some (Call.Read 0 [] Did.NotYet ∷ [])) → ⊥ }
    ensures other_link { IsEndedSo 1 (overs.Ended Ending.PeerEnded) 5 (Some (Call.Read 0 [] Did.End ∷ [])) → ⊥ }
    ensures all_done { IsEndedSo 0 (overs.Ended Ending.RoundsDone) 1 (Some (Call.Read 0 [] Did.NotYet ∷ [])) }
    ensures not_done { IsEndedSo 0 (overs.Ended Ending.RoundsDone) 5 (Some (Call.Read 0 [] Did.NotYet ∷ [])) → ⊥ }
    ensures sink { IsEndedSo 0 overs.NotWritten 5 (Some (Call.Read 0 [] Did.NotYet ∷ [])) }
{}

/// Where a run is over, what was written in it and before it is a front of what is spoken, what was given is a front of
/// what is said, and it ended so.
pub fn runs_over()
    ensures peer { IsOver 0 (overs.Ended Ending.PeerEnded) 5 [] (Some (Call.Read 0 [] Did.End ∷ [])) (Some (codes "a"))
        (Some (codes "a")) }
    ensures sink { IsOver 0 overs.NotWritten 5 []
        (Some (Call.Read 0 [] Did.NotYet ∷ Call.Write 0 hail (Did.Done 16) ∷ [])) (Some []) (Some []) }
    ensures written { IsOver 0 overs.NotWritten 5 (codes "b") None (Some (codes "a")) (Some (codes "ac")) }
    ensures not_peer { IsOver 0 (overs.Ended Ending.PeerEnded) 5 [] (Some (Call.Read 0 [] Did.NotYet ∷ [])) (Some [])
        (Some []) → ⊥ }
    ensures cut { IsOver 0 overs.NotWritten 5 [] None (Some (codes "a")) (Some (codes "b")) → ⊥ }
    ensures other_said { IsOver 0 overs.NotWritten 5 [] (Some (Call.Write 0 (codes "x") (Did.Done 1) ∷ [])) (Some [])
        (Some []) → ⊥ }
    ensures other_spoken { IsOver 0 overs.NotWritten 5 [] (Some (Call.Read 0 [] Did.NotYet ∷ [])) (Some [])
        (Some (codes "s")) → ⊥ }
    ensures other_before { IsOver 0 overs.NotWritten 5 (codes "s") (Some (Call.Read 0 [] Did.NotYet ∷ [])) (Some [])
        (Some []) → ⊥ }
{}

/// Where a turn ended the run, nothing was written in it, and the reader stands as it did, with what was written
/// before; in a run all may have been written. For want of memory nothing is said of it.
pub fn readers_left()
    ensures turn { (l : LiveReader) (written : List ℕ) → Stands written l [] []
        → EndsTurn 0 (overs.Ended Ending.PeerEnded) written (Some (Call.Read 0 [] Did.End ∷ [])) (Some (codes "a"))
        (Some (codes "a")) l }
    ensures turn_wrote { (l : LiveReader) (written : List ℕ)
        → EndsTurn 0 (overs.Ended Ending.NoMemory) written None (Some (codes "a")) (Some (codes "ab")) l → ⊥ }
    ensures turn_wanting { (l : LiveReader) (written : List ℕ)
        → EndsTurn 0 (overs.Ended Ending.NoMemory) written None (Some (codes "a")) (Some (codes "a")) l }
    ensures turn_sink { (l : LiveReader) (written : List ℕ)
        → EndsTurn 0 overs.NotWritten written None (Some (codes "a")) (Some (codes "ab")) l }
    ensures turn_none { (l : LiveReader) (written : List ℕ)
        → ((took said : List Envelope) → Stands written l took said → ⊥)
        → EndsTurn 0 (overs.Ended Ending.PeerEnded) written None (Some []) (Some []) l → ⊥ }
    ensures run { (l : LiveReader) → Stands (codes "b") l [] []
        → EndsRun 0 (overs.Ended Ending.PeerEnded) (Some (Call.Read 0 [] Did.End ∷ [])) (Some (codes "a"))
        (Some (codes "ab")) l }
    ensures run_cut { (l : LiveReader)
        → EndsRun 0 (overs.Ended Ending.NoMemory) None (Some (codes "a")) (Some (codes "b")) l → ⊥ }
    ensures run_sink { (l : LiveReader) → EndsRun 0 overs.NotWritten None (Some (codes "a")) (Some (codes "b")) l }
    ensures run_none { (l : LiveReader) → ((took said : List Envelope) → Stands (codes "b") l took said → ⊥)
        → EndsRun 0 (overs.Ended Ending.PeerEnded) None (Some (codes "a")) (Some (codes "ab")) l → ⊥ }
{}

/// A run is whole rounds, and then the calls of the one in which it ended; where the sink failed, whole rounds alone,
/// and each turn is one.
pub fn calls_of_runs()
    ensures turn { BreaksOver 0 4096 (overs.Ended Ending.PeerEnded) [] [] (Call.Read 0 [] Did.End ∷ []) }
    ensures turn_failed { BreaksOver 0 4096 (overs.Ended Ending.HostFailed) [] [] (Call.Read 0 [] Did.End ∷ []) → ⊥ }
    ensures turn_sink { BreaksOver 0 4096 overs.NotWritten [] []
        (Call.Read 0 [] Did.NotYet ∷ Call.Write 0 hail (Did.Done 16) ∷ []) }
    ensures turn_behind { BreaksOver 0 4096 overs.NotWritten [] hail (Call.Read 0 [] Did.NotYet ∷ []) }
    ensures turn_most { (t : List ℕ)
        → BreaksOver 0 3 (overs.Ended Ending.NotAuthenticated) [] [] (Call.Read 0 t (Did.Done 3) ∷ []) → length t ≤ 3 }
    ensures turn_most_whole { (t : List ℕ) → BreaksOver 0 3 overs.NotWritten [] [] (Call.Read 0 t (Did.Done 3) ∷ [])
        → length t ≤ 3 }
    ensures turn_cut { BreaksOver 0 4096 overs.NotWritten [] [] (Call.Read 0 [] Did.End ∷ []) → ⊥ }
    ensures run { RunsOver 0 (overs.Ended Ending.PeerEnded) 2
        (Call.Read 0 [] Did.NotYet ∷ Call.Write 0 hail (Did.Done 16) ∷ Call.Read 0 [] Did.End ∷ []) }
    ensures run_sink { RunsOver 0 overs.NotWritten 1
        (Call.Read 0 [] Did.NotYet ∷ Call.Write 0 hail (Did.Done 16) ∷ []) }
    ensures run_none { RunsOver 0 overs.NotWritten 0 [] }
    ensures run_cut { RunsOver 0 overs.NotWritten 5 (Call.Read 0 [] Did.End ∷ []) → ⊥ }
    ensures run_long { RunsOver 0 overs.NotWritten 0 (Call.Read 0 [] Did.NotYet ∷ Call.Write 0 hail (Did.Done 16) ∷ [])
        → ⊥ }
    ensures run_short { RunsOver 0 (overs.Ended Ending.PeerEnded) 0 (Call.Read 0 [] Did.End ∷ []) → ⊥ }
    ensures most_read { (t : List ℕ)
        → RunsOver 0 (overs.Ended Ending.NotAuthenticated) 1 (Call.Read 0 t (Did.Done 4096) ∷ []) → length t ≤ 4096 }
    ensures read_all { (t : List ℕ) → length t ≡ 4096
        → RunsOver 0 (overs.Ended Ending.NotAuthenticated) 1 (Call.Read 0 t (Did.Done 4096) ∷ []) }
    ensures whole_round { (calls : List Call) → IsRound IsAfter IsEmpty 0 4096 [] [] calls
        → RunsOver 0 overs.NotWritten 1 calls }
    ensures most_read_whole { (t : List ℕ) → RunsOver 0 overs.NotWritten 1 (Call.Read 0 t (Did.Done 4096) ∷ [])
        → length t ≤ 4096 }
{}
