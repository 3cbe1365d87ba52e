//! Which status tells how a run ended, what is written then, and which counts changed.

ghost use Rattle.std.specs.Prelude.{◌≡◌, ◌∷◌, ◌++◌, [], ℕ, List, Option, None, Some, codes};
ghost use Rattle.atspi_live_conversation.specs.Reports.{Causes, Quietly, Reports, SinkBlamed, Writes};
ghost use Rattle.atspi_live_conversation.specs.declared.ending.Ending.{Ending};

use atspi_live_conversation::Ending;

/// Nothing is written, and there is one status.
pub fn quiet_ends()
    ensures same { (w : Option (List ℕ)) → Quietly 7 7 w w }
    ensures other_status { (w : Option (List ℕ)) → Quietly 7 8 w w → ⊥ }
    ensures written { Quietly 7 7 (Some []) (Some (codes "a")) → ⊥ }
{}

/// The whole line was written with status 6; with 4 or 5 a front of it; with no other status anything.
pub fn lines_written()
    ensures whole { Writes (codes "ab") 6 (Some (codes "x")) (Some (codes "xab")) }
    ensures untold { Writes (codes "ab") 6 None None }
    ensures part_only { Writes (codes "ab") 6 (Some (codes "x")) (Some (codes "xa")) → ⊥ }
    ensures sink_failed { Writes (codes "ab") 4 (Some (codes "x")) (Some (codes "xa")) }
    ensures no_memory { Writes (codes "ab") 5 (Some (codes "x")) (Some (codes "x")) }
    ensures more_written { Writes (codes "ab") 4 (Some (codes "x")) (Some (codes "xabc")) → ⊥ }
    ensures more_written_too { Writes (codes "ab") 5 (Some (codes "x")) (Some (codes "xabc")) → ⊥ }
    ensures other_status { Writes (codes "ab") 0 (Some (codes "x")) (Some (codes "xab")) → ⊥ }
{}

/// A status for each ending, with which nothing is written.
pub fn reports()
    ensures peer_ended { Reports Ending.PeerEnded 0 (Some []) (Some []) }
    ensures no_memory { Reports Ending.NoMemory 5 (Some []) (Some []) }
    ensures host_failed { Reports Ending.HostFailed 7 (Some []) (Some []) }
    ensures rounds_done { Reports Ending.RoundsDone 8 (Some []) (Some []) }
    ensures not_authenticated { Reports Ending.NotAuthenticated 10 (Some []) (Some []) }
    ensures spent { Reports Ending.Spent 13 (Some []) (Some []) }
    ensures peer_failed { Reports Ending.PeerEnded 7 (Some []) (Some []) → ⊥ }
    ensures written { Reports Ending.PeerEnded 0 (Some []) (Some (codes "a")) → ⊥ }
{}

/// Of a malformed message the line of its fault is written: how many bytes of messages stand before it, its place and
/// its reason.
pub fn reports_of_faults()
    ensures line { Reports (Ending.Malformed 144 (record { place = 3; reason = 36 })) 6 (Some [])
        (Some (codes "fault 144 3 36" ++ (10 ∷ []))) }
    ensures sink_failed { Reports (Ending.Malformed 144 (record { place = 3; reason = 36 })) 4 (Some [])
        (Some (codes "fault 144")) }
    ensures quiet { Reports (Ending.Malformed 144 (record { place = 3; reason = 36 })) 6 (Some []) (Some []) → ⊥ }
{}

/// A count of the host's rose with status 7, that of its calls or that of its links, and with no other; the count of
/// the sink with status 4.
pub fn causes()
    ensures host { Causes 7 0 1 3 3 5 5 }
    ensures link { Causes 7 0 0 3 4 5 5 }
    ensures sink { Causes 4 0 0 3 3 5 6 }
    ensures none { Causes 0 0 0 3 3 5 5 }
    ensures no_cause { Causes 7 0 0 3 3 5 5 → ⊥ }
    ensures no_cause_of_sink { Causes 4 0 0 3 3 5 5 → ⊥ }
    ensures host_hidden { Causes 0 0 1 3 3 5 5 → ⊥ }
    ensures link_hidden { Causes 0 0 0 3 4 5 5 → ⊥ }
    ensures sink_hidden { Causes 0 0 0 3 3 5 6 → ⊥ }
    ensures sink_for_host { Causes 7 0 1 3 3 5 6 → ⊥ }
    ensures host_for_sink { Causes 4 0 1 3 3 5 6 → ⊥ }
{}

/// The count of the sink alone.
pub fn sink_blamed()
    ensures failed { SinkBlamed 4 5 6 }
    ensures not_counted { SinkBlamed 4 5 5 → ⊥ }
    ensures none { SinkBlamed 0 5 5 }
    ensures hidden { SinkBlamed 0 5 6 → ⊥ }
{}
