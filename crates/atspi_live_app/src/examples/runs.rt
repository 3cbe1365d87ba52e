//! How runs of an application on a link were over: their calls, their status, and what was written.

ghost use Rattle.std.specs.Prelude.{◌∷◌, [], List, None, Some, codes};
ghost use Rattle.atspi_live_host.specs.declared.call.Call.{Call};
ghost use Rattle.atspi_live_host.specs.declared.call.Did.{Did};
ghost use Rattle.atspi_live_conversation.specs.declared.ending.Ending.{Ending};
ghost use Rattle.atspi_live_app.specs.Names.{refused_text};
ghost use Rattle.atspi_live_app.specs.Overs.{OverBlames};
ghost use Rattle.atspi_live_app.specs.Rounds.{RunsPaced};
ghost use Rattle.atspi_live_app.specs.Runs.{EndsOn, OverReports, TextEnds};
ghost use Rattle.atspi_live_app.specs.declared.live_app.Stop.TheVariants as stops;
ghost use Rattle.atspi_live_app.specs.declared.naming.Refused.TheVariants as refused;
ghost use Rattle.atspi_live_app.specs.declared.over.Over.TheVariants as overs;

use atspi_live_conversation::Ending;
use atspi_live_host::{Call, Did};

/// A line that was refused is told with status 1; numbers that are spent have status 13, want of memory 5, and an
/// ending its own. The count of failed reads and writes rises where the host failed, and in no run that was stopped.
pub fn runs_reported()
    ensures refused { OverReports (overs.Stopped (stops.Refused 3 refused.Form)) 1 (Some [])
        (Some (refused_text 3 refused.Form)) }
    ensures refused_other { OverReports (overs.Stopped (stops.Refused 3 refused.Form)) 13 (Some [])
        (Some (refused_text 3 refused.Form)) → ⊥ }
    ensures spent { OverReports (overs.Stopped stops.Spent) 13 (Some (codes "a")) (Some (codes "a")) }
    ensures spent_other { OverReports (overs.Stopped stops.Spent) 5 (Some (codes "a")) (Some (codes "a")) → ⊥ }
    ensures wanting { OverReports (overs.Stopped stops.NoMemory) 5 (Some (codes "a")) (Some (codes "a")) }
    ensures wanting_other { OverReports (overs.Stopped stops.NoMemory) 13 (Some (codes "a")) (Some (codes "a")) → ⊥ }
    ensures ended { OverReports (overs.Ended Ending.HostFailed) 7 (Some (codes "a")) (Some (codes "a")) }
    ensures ended_other { OverReports (overs.Ended Ending.HostFailed) 0 (Some (codes "a")) (Some (codes "a")) → ⊥ }
    ensures blamed { OverBlames (overs.Ended Ending.HostFailed) 3 4 }
    ensures not_blamed { OverBlames (overs.Ended Ending.HostFailed) 3 3 → ⊥ }
    ensures stopped { OverBlames (overs.Stopped stops.Spent) 3 3 }
    ensures stopped_blamed { OverBlames (overs.Stopped stops.Spent) 3 4 → ⊥ }
{}

/// On the one link that was connected, the calls are rounds, with the lines done before the reads of theirs.
pub fn runs_on_links()
    ensures failed { EndsOn [] (codes "/p") 0 7 1
        (Some (Call.Connect (codes "/p") (Did.Done 0) ∷ Call.Read 0 [] Did.Failed ∷ [])) (Some (codes "a"))
        (Some (codes "a")) }
    ensures stopped { EndsOn (codes "wait 2" ∷ []) (codes "/p") 0 1 5
        (Some (Call.Connect (codes "/p") (Did.Done 0) ∷ [])) (Some []) (Some (refused_text 1 refused.Form)) }
    ensures untold { EndsOn [] (codes "/p") 0 13 5 None (Some (codes "a")) (Some (codes "a")) }
    ensures ended { RunsPaced ([] ∷ []) 0 (overs.Ended Ending.HostFailed) 1 (Call.Read 0 [] Did.Failed ∷ []) }
    ensures ended_uncalled { RunsPaced [] 0 (overs.Ended Ending.PeerEnded) 5 [] → ⊥ }
    ensures all_done { RunsPaced [] 0 (overs.Ended Ending.RoundsDone) 0 [] }
    ensures stopped_late { (calls : List Call) → RunsPaced [] 0 (overs.Stopped stops.Spent) 0 calls → ⊥ }
    ensures stopped_first { RunsPaced (codes "wait 2" ∷ []) 0 (overs.Stopped stops.Spent) 5 [] }
    ensures stopped_called { RunsPaced [] 0 (overs.Stopped stops.Spent) 1 (Call.Read 0 [] Did.NotYet ∷ []) → ⊥ }
    ensures one_link { TextEnds [] (codes "/p") (0 ∷ []) 13 5 None (Some (codes "a")) (Some (codes "a")) }
{}
