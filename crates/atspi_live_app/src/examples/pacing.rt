//! What a turn that ends a run leaves, and its calls.

ghost use Rattle.std.specs.Prelude.{◌∷◌, [], None, Some, codes};
ghost use Rattle.atspi_live_host.specs.declared.call.Call.{Call};
ghost use Rattle.atspi_live_host.specs.declared.call.Did.{Did};
ghost use Rattle.atspi_live_conversation.specs.declared.ending.Ending.{Ending};
ghost use Rattle.atspi_live_app.specs.Live.{IsMarked};
ghost use Rattle.atspi_live_app.specs.Pace.{BreaksOver, EndsTurn};
ghost use Rattle.atspi_live_app.specs.declared.live_app.Stop.TheVariants as stops;
ghost use Rattle.atspi_live_app.specs.declared.over.Over.TheVariants as overs;

use atspi_live_conversation::Ending;
use atspi_live_host::{Call, Did};

/// A run is stopped before a round in which a line is due, with nothing changed and no call made; or it ended in a
/// round that had begun.
pub fn turns_ended()
    ensures stopped { EndsTurn [] 0 (7 ∷ []) 0 0 None (overs.Stopped stops.NoMemory) (7 ∷ []) }
    ensures stopped_waiting { EndsTurn [] 0 [] 1 0 None (overs.Stopped stops.NoMemory) [] → ⊥ }
    ensures stopped_marked { EndsTurn [] 0 [] 0 0 None (overs.Stopped stops.NoMemory) (7 ∷ []) → ⊥ }
    ensures ended { EndsTurn (10 ∷ codes "x") 0 [] 0 0 (Some []) (overs.Ended Ending.PeerEnded) (0 ∷ []) }
    ensures ended_other { EndsTurn (10 ∷ codes "x") 0 [] 0 0 (Some []) (overs.Ended Ending.PeerEnded) (3 ∷ []) → ⊥ }
    ensures no_call { BreaksOver (IsMarked []) [] 0 4096 (overs.Stopped stops.NoMemory) [] [] [] }
    ensures a_call { BreaksOver (IsMarked []) [] 0 4096 (overs.Stopped stops.NoMemory) [] []
        (Call.Read 0 [] Did.NotYet ∷ []) → ⊥ }
    ensures end { BreaksOver (IsMarked []) [] 0 4096 (overs.Ended Ending.PeerEnded) [] []
        (Call.Read 0 [] Did.End ∷ []) }
    ensures no_end { BreaksOver (IsMarked []) [] 0 4096 (overs.Ended Ending.PeerEnded) [] [] [] → ⊥ }
{}
