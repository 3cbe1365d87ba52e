//! How an application that has not started comes to its end.

ghost use Rattle.std.specs.Prelude.{◌∷◌, [], Some, codes};
ghost use Rattle.atspi_live_host.specs.declared.call.Call.{Call};
ghost use Rattle.atspi_live_host.specs.declared.call.Did.{Did};
ghost use Rattle.atspi_live_conversation.specs.declared.ending.Ending.{Ending};
ghost use Rattle.atspi_live_app.specs.Overs.{EndsSo};
ghost use Rattle.atspi_live_app.specs.Turns.{IsInTurn};
ghost use Rattle.atspi_live_app.specs.declared.live_app.Stop.TheVariants as stops;
ghost use Rattle.atspi_live_app.specs.declared.naming.Refused.TheVariants as refused;
ghost use Rattle.atspi_live_app.specs.declared.over.Over.TheVariants as overs;

use atspi_live_conversation::Ending;
use atspi_live_host::{Call, Did};

/// A run is stopped where nothing of what was taken is at fault and no read found the end; or its conversation ended.
pub fn runs_stopped()
    ensures so_ended { EndsSo (IsInTurn []) [] 0 (overs.Ended Ending.HostFailed) 5
        (Some (Call.Read 0 [] Did.Failed ∷ [])) }
    ensures not_ended { EndsSo (IsInTurn []) [] 0 (overs.Ended Ending.PeerEnded) 5
        (Some (Call.Read 0 [] Did.NotYet ∷ [])) → ⊥ }
    ensures so_stopped { EndsSo (IsInTurn []) (codes "wait 2" ∷ []) 0 (overs.Stopped (stops.Refused 1 refused.Form)) 5
        (Some []) }
    ensures not_stopped { EndsSo (λ history left. ⊥) [] 0 (overs.Stopped stops.Spent) 5 (Some []) → ⊥ }
{}
