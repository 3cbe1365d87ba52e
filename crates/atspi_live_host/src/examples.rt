//! Worked cases, with the values worked out by hand. Each case is a clause of a function without a body. So a
//! definition that says otherwise is refused here.

ghost use Rattle.std.specs.Prelude.{◌≡◌, ◌∷◌, [], codes};
ghost use Rattle.atspi_live_host.specs.Calls.{front, given, taken, without};
ghost use Rattle.atspi_live_host.specs.declared.call.Did.{Did};
ghost use Rattle.atspi_live_host.specs.declared.call.Call.{Call};

use crate::{Call, Did};

/// What was taken from links and given on them is read off the list of calls: of a read the bytes that were taken, of a
/// write those that the answer speaks of, and of each link its own.
pub fn moved()
    ensures none { taken 0 [] ≡ [] }
    ensures taken { taken 0
        (Call.Read 0 (codes "ab") (Did.Done 2) ∷ Call.Read 1 (codes "x") (Did.Done 1)
        ∷ Call.Read 0 (codes "c") (Did.Done 1) ∷ []) ≡ codes "abc" }
    ensures other_link { taken 1 (Call.Read 0 (codes "ab") (Did.Done 2) ∷ Call.Read 1 (codes "x") (Did.Done 1) ∷ [])
        ≡ codes "x" }
    ensures nothing_read { taken 0 (Call.Read 0 [] Did.NotYet ∷ Call.Read 0 [] Did.End ∷ Call.Read 0 [] Did.Failed ∷ [])
        ≡ [] }
    ensures given { given 0
        (Call.Write 0 (codes "abc") (Did.Done 2) ∷ Call.Write 1 (codes "y") (Did.Done 1)
        ∷ Call.Write 0 (codes "cd") (Did.Done 2) ∷ []) ≡ codes "abcd" }
    ensures not_given { given 0 (Call.Write 0 (codes "abc") Did.NotYet ∷ Call.Write 0 (codes "abc") Did.Failed ∷ [])
        ≡ [] }
    ensures no_bytes { given 0
        (Call.Listen (codes "/p") (Did.Done 0) ∷ Call.Accept (Did.Done 0) ∷ Call.Connect (codes "/p") (Did.Done 1)
        ∷ Call.Read 0 (codes "ab") (Did.Done 2) ∷ Call.Close 0 ∷ []) ≡ [] }
    ensures none_taken { taken 0
        (Call.Listen (codes "/p") (Did.Done 0) ∷ Call.Accept (Did.Done 0) ∷ Call.Connect (codes "/p") (Did.Done 1)
        ∷ Call.Write 0 (codes "ab") (Did.Done 2) ∷ Call.Close 0 ∷ []) ≡ [] }
{}

/// The bytes that an answer speaks of are the first ones.
pub fn fronts()
    ensures some { front (Did.Done 2) (codes "abc") ≡ codes "ab" }
    ensures not_yet { front Did.NotYet (codes "abc") ≡ [] }
    ensures end { front Did.End (codes "abc") ≡ [] }
    ensures failed { front Did.Failed (codes "abc") ≡ [] }
{}

/// A link that is closed is no longer among those in use.
pub fn closed()
    ensures first { without 3 (3 ∷ 5 ∷ 4 ∷ []) ≡ 5 ∷ 4 ∷ [] }
    ensures last { without 4 (3 ∷ 5 ∷ 4 ∷ []) ≡ 3 ∷ 5 ∷ [] }
    ensures only { without 3 (3 ∷ []) ≡ [] }
    ensures none { without 3 [] ≡ [] }
    ensures another { without 3 (5 ∷ []) ≡ 5 ∷ [] }
{}
