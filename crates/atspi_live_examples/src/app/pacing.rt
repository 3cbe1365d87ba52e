//! When the next line is passed, and before which rounds lines stand.

ghost use Rattle.std.specs.Prelude.{◌≡◌, ◌∷◌, ℕ, [], List, None, Some, codes};
ghost use Rattle.atspi_live_host.specs.declared.call.Call.{Call};
ghost use Rattle.atspi_live_host.specs.declared.call.Did.{Did};
ghost use Rattle.atspi_live_conversation.specs.declared.ending.Ending.{Ending};
ghost use Rattle.atspi_live_app.specs.Pace.{GoesOn, HasWhole, Heard, Proceeds, Starts, begun_by};

use atspi_live_conversation::Ending;
use atspi_live_host::{Call, Did};

/// A line is passed behind the messages that were taken, and takes its rounds; behind the last line each round passes
/// none.
pub fn lines_in_turn()
    ensures passed { Proceeds (10 ∷ codes "x") 0 (7 ∷ []) 2 1 1 (7 ∷ 2 ∷ []) }
    ensures other_rounds { Proceeds (10 ∷ codes "x") 0 [] 2 3 1 (2 ∷ []) → ⊥ }
    ensures other_mark { Proceeds (10 ∷ codes "x") 0 [] 2 1 1 (3 ∷ []) → ⊥ }
    ensures no_mark { Proceeds (10 ∷ codes "x") 0 [] 2 1 1 [] → ⊥ }
    ensures none { Proceeds (codes "x") 1 (7 ∷ []) 2 1 1 (7 ∷ []) }
    ensures none_marked { Proceeds (codes "x") 1 [] 2 1 1 (2 ∷ []) → ⊥ }
    ensures none_moved { Proceeds (codes "x") 1 [] 2 1 2 [] → ⊥ }
    ensures none_long { Proceeds (codes "x") 1 [] 2 2 1 [] → ⊥ }
    ensures waits { GoesOn (10 ∷ codes "x") 0 (7 ∷ []) 2 3 3 0 (7 ∷ []) }
    ensures waits_less { GoesOn (10 ∷ codes "x") 0 [] 2 3 2 0 [] → ⊥ }
    ensures waits_moved { GoesOn (10 ∷ codes "x") 0 [] 2 3 3 1 [] → ⊥ }
    ensures waits_marked { GoesOn (10 ∷ codes "x") 0 [] 2 3 3 0 (2 ∷ []) → ⊥ }
    ensures goes { GoesOn (10 ∷ codes "x") 0 [] 2 0 1 1 (2 ∷ []) }
    ensures stays { GoesOn (10 ∷ codes "x") 0 [] 2 0 0 0 [] → ⊥ }
    ensures too_soon { GoesOn (10 ∷ codes "x") 0 [] 2 1 1 1 (2 ∷ []) → ⊥ }
{}

/// How many messages are whole in what was taken, where that is told.
pub fn messages_heard()
    ensures none { HasWhole [] 0 }
    ensures not_one { HasWhole [] 1 → ⊥ }
    ensures untold { Heard 0 None 7 }
    ensures told { Heard 0 (Some (Call.Read 1 (codes "x") (Did.Done 1) ∷ [])) 0 }
    ensures told_other { Heard 0 (Some []) 1 → ⊥ }
{}

/// Each line stands before the read of a round that has begun; so many have where a run ended.
pub fn rounds_begun()
    ensures first { (l : List ℕ) → Starts 0 1 ((l, 1) ∷ []) }
    ensures second { (l m : List ℕ) → Starts 0 2 ((l, 1) ∷ (m, 1) ∷ []) }
    ensures second_late { (l m : List ℕ) → Starts 0 1 ((l, 1) ∷ (m, 1) ∷ []) → ⊥ }
    ensures behind_wait { (l m : List ℕ) → Starts 0 2 ((l, 2) ∷ (m, 1) ∷ []) → ⊥ }
    ensures late { (l : List ℕ) → Starts 1 1 ((l, 1) ∷ []) → ⊥ }
    ensures all_done { begun_by Ending.RoundsDone 3 ≡ 3 }
    ensures peer { begun_by Ending.PeerEnded 3 ≡ 4 }
{}
