//! The turns of links and the rounds of the bus.

ghost use Rattle.std.specs.Prelude.{◌≡◌, ◌<◌, ◌≤◌, ◌∷◌, ◌++◌, ℕ, List, [], length, None, Some, codes, true, false, ⊤};
ghost use Rattle.atspi_auth.specs.Talk.{after, server_start};
ghost use Rattle.atspi_auth.specs.declared.stage.Stage.TheVariants.{Over};
ghost use Rattle.atspi_live_host.specs.Calls.{given, taken};
ghost use Rattle.atspi_live_host.specs.declared.call.Call.{Call};
ghost use Rattle.atspi_live_host.specs.declared.call.Did.{Did};
ghost use Rattle.atspi_match.specs.routing.Queues.{queue_of};
ghost use Rattle.atspi_live_bus.specs.Closes.{FollowsRead, FollowsWrite};
ghost use Rattle.atspi_live_bus.specs.Course.{Course, HandsOut, IsCourse, start};
ghost use Rattle.atspi_live_bus.specs.Due.{HasAllGiven};
ghost use Rattle.atspi_live_bus.specs.Opened.{open_behind};
ghost use Rattle.atspi_live_bus.specs.Rounds.{AreRounds, AreTurns, EndsBehind, IsCut};
ghost use Rattle.atspi_live_bus.specs.inner.Rounds.{AreCloses, Does, GoesOn, IsClose};
ghost use Rattle.atspi_live_bus.specs.Rounds.{IsGift, IsHeard, IsNotSeated, IsPart, IsRun, IsTurn, MayBeCut, MayGive};
ghost use Rattle.atspi_live_bus.specs.Rounds.{Wait};
ghost use Rattle.atspi_live_bus.specs.inner.Rounds.{Moves};

use atspi_live_host::{Call, Did};

/// The bus goes on behind an accept or a write that was answered or has to wait.
pub fn answers_to_go_on()
    ensures done { GoesOn (Did.Done 4) }
    ensures not_yet { GoesOn Did.NotYet }
    ensures ended { GoesOn Did.End → ⊥ }
    ensures failed { GoesOn Did.Failed → ⊥ }
{}

/// Of the calls of a host a close alone is one.
pub fn calls_that_close()
    ensures none { AreCloses [] }
    ensures closes { AreCloses (Call.Close 3 ∷ Call.Close 5 ∷ []) }
    ensures behind { AreCloses (Call.Close 3 ∷ Call.Accept Did.NotYet ∷ []) → ⊥ }
    ensures listen { IsClose (Call.Listen (codes "/p") (Did.Done 0)) → ⊥ }
    ensures accept { IsClose (Call.Accept (Did.Done 0)) → ⊥ }
    ensures connect { IsClose (Call.Connect (codes "/p") (Did.Done 0)) → ⊥ }
    ensures read { IsClose (Call.Read 3 [] Did.End) → ⊥ }
    ensures write { IsClose (Call.Write 3 [] Did.Failed) → ⊥ }
{}

/// A read is of 4,096 bytes at the most.
pub fn reads()
    ensures most { (x y : Course) (past closes : List Call) (bytes : List ℕ) → length bytes ≤ 4096
        → FollowsRead true 3 0 x (3 ∷ 5 ∷ []) (Did.Done 7) (taken 3 (past ++ Call.Read 3 bytes (Did.Done 7) ∷ []))
        closes y
        → IsHeard true x past (3 ∷ 5 ∷ []) 3 0 (Call.Read 3 bytes (Did.Done 7) ∷ closes) y }
    ensures more { (x y : Course) (past closes : List Call) (bytes : List ℕ) (did : Did) → 4096 < length bytes
        → IsHeard true x past (3 ∷ 5 ∷ []) 3 0 (Call.Read 3 bytes did ∷ closes) y → ⊥ }
    ensures of_another { (x y : Course) (past closes : List Call) (bytes : List ℕ) (did : Did)
        → IsHeard true x past (3 ∷ 5 ∷ []) 3 0 (Call.Read 5 bytes did ∷ closes) y → ⊥ }
{}

/// A write is of 1 to 4,096 bytes that wait. Bytes wait that could all be given.
pub fn gifts()
    ensures waits { (x : Course) (past : List Call) → IsCourse x (past ++ Call.Write 3 (7 ∷ 8 ∷ []) (Did.Done 2) ∷ [])
        → Wait x past 3 (7 ∷ 8 ∷ []) }
    ensures does_not { (x : Course) (past : List Call)
        → (IsCourse x (past ++ Call.Write 3 (7 ∷ 8 ∷ []) (Did.Done 2) ∷ []) → ⊥) → Wait x past 3 (7 ∷ 8 ∷ []) → ⊥ }
    ensures most { (x m y : Course) (past closes : List Call) (bytes : List ℕ) → HandsOut 0 x m → 0 < length bytes
        → length bytes ≤ 4096 → Wait m past 3 bytes → FollowsWrite true 3 0 m (3 ∷ 5 ∷ []) Did.NotYet closes y
        → IsGift true x past (3 ∷ 5 ∷ []) 3 0 (Call.Write 3 bytes Did.NotYet ∷ closes) y }
    ensures more { (x y : Course) (past closes : List Call) (bytes : List ℕ) (did : Did) → 4096 < length bytes
        → IsGift true x past (3 ∷ 5 ∷ []) 3 0 (Call.Write 3 bytes did ∷ closes) y → ⊥ }
    ensures no_byte { (x y : Course) (past closes : List Call) (did : Did)
        → IsGift true x past (3 ∷ 5 ∷ []) 3 0 (Call.Write 3 [] did ∷ closes) y → ⊥ }
    ensures to_another { (x y : Course) (past closes : List Call) (bytes : List ℕ) (did : Did)
        → IsGift true x past (3 ∷ 5 ∷ []) 3 0 (Call.Write 5 bytes did ∷ closes) y → ⊥ }
{}

/// All is given on a link that has a connection, whose lines and handed bytes were given, and for which, once its lines
/// are over, nothing waits.
pub fn all_given()
    ensures no_link { (past : List Call) → HasAllGiven start past 3 → ⊥ }
    ensures more { (past : List Call) → given 3 past ≡ 97 ∷ [] → taken 3 past ≡ [] → (x : Course) → x.asked ≡ []
        → HasAllGiven x past 3 → ⊥ }
    ensures waits { (x : Course) (past : List Call) → x.conn 3 ≡ Some 0
        → (after server_start (taken 3 past)).stage ≡ Over → queue_of x.bus.waiting.queues 0 ≡ 97 ∷ []
        → HasAllGiven x past 3 → ⊥ }
    ensures other_calls { (x : Course) (past : List Call) → (IsCourse x past → ⊥) → HasAllGiven x past 3 → ⊥ }
{}

/// A write stands where the link is open and not all was given; where the bus stopped it may be left out.
pub fn may_give()
    ensures closed { (x : Course) (past : List Call) → MayGive true x past (5 ∷ []) 3 0 [] x }
    ensures closed_same { (x y : Course) (past calls : List Call) → MayGive true x past (5 ∷ []) 3 0 calls y → y ≡ x }
    ensures closed_none { (x y : Course) (past calls : List Call) → MayGive true x past (5 ∷ []) 3 0 calls y
        → calls ≡ [] }
    ensures all { (x y : Course) (past : List Call) → HandsOut 0 x y → HasAllGiven y past 3
        → MayGive true x past (3 ∷ 5 ∷ []) 3 0 [] y }
    ensures gift { (x y : Course) (past calls : List Call) → IsGift true x past (3 ∷ 5 ∷ []) 3 0 calls y
        → MayGive true x past (3 ∷ 5 ∷ []) 3 0 calls y }
    ensures due { (x y : Course) (past : List Call) → (HasAllGiven y past 3 → ⊥)
        → MayGive true x past (3 ∷ 5 ∷ []) 3 0 [] y → ⊥ }
    ensures stopped { (x : Course) (past : List Call) → MayGive false x past (3 ∷ 5 ∷ []) 3 0 [] x }
    ensures stopped_same { (x y : Course) (past : List Call) → MayGive false x past (3 ∷ 5 ∷ []) 3 0 [] y → y ≡ x }
    ensures stopped_gift { (x y : Course) (past calls : List Call) → IsGift false x past (3 ∷ 5 ∷ []) 3 0 calls y
        → MayGive false x past (3 ∷ 5 ∷ []) 3 0 calls y }
    ensures stopped_closed { (x y : Course) (past calls : List Call) (c : Call)
        → MayGive false x past (5 ∷ []) 3 0 (c ∷ calls) y → ⊥ }
{}

/// A turn that was broken off is nothing, or of an open link a part; and only where not all turns are whole.
pub fn cut_turns()
    ensures nothing { (x : Course) (past : List Call) → IsCut x past 3 [] x }
    ensures no_change { (x y : Course) (past : List Call) (k : ℕ) → open_behind past ≡ [] → IsCut x past k [] y
        → y ≡ x }
    ensures part { (x y : Course) (past calls : List Call) → open_behind past ≡ 3 ∷ [] → x.conn 3 ≡ Some 0
        → IsPart x past 3 0 calls y → IsCut x past 3 calls y }
    ensures of_one_closed { (x y : Course) (past calls : List Call) (c : Call) → open_behind past ≡ 5 ∷ []
        → IsCut x past 3 (c ∷ calls) y → ⊥ }
    ensures whole { (x y : Course) (past calls : List Call) → MayBeCut true x past 3 calls y → ⊥ }
    ensures cut { (x y : Course) (past calls : List Call) → IsCut x past 3 calls y → MayBeCut false x past 3 calls y }
    ensures gift_part { (x m y : Course) (past read gift : List Call)
        → IsHeard true x past (open_behind past) 3 0 read m
        → MayGive false m (past ++ read) (open_behind (past ++ read)) 3 0 gift y
        → IsPart x past 3 0 (read ++ gift) y }
    ensures read_part { (x y : Course) (past calls : List Call) → IsHeard false x past (open_behind past) 3 0 calls y
        → IsPart x past 3 0 calls y }
{}

/// Turns come one behind the other; a link that is closed has none, and where not all are whole the last may be broken
/// off.
pub fn turns_of_links()
    ensures none { (x : Course) (past : List Call) → AreTurns true x past [] [] x }
    ensures none_calls { (x y : Course) (past calls : List Call) → AreTurns true x past [] calls y → calls ≡ [] }
    ensures none_same { (x y : Course) (past calls : List Call) → AreTurns true x past [] calls y → y ≡ x }
    ensures closed { (x : Course) → AreTurns true x [] (3 ∷ 5 ∷ []) [] x }
    ensures cut { (x y : Course) (past calls : List Call) → IsCut x past 3 calls y
        → AreTurns false x past (3 ∷ 5 ∷ []) calls y }
    ensures one { (x y : Course) (past calls : List Call) → open_behind past ≡ 3 ∷ [] → IsTurn x past 3 calls y
        → AreTurns true x past (3 ∷ []) (calls ++ []) y }
{}

/// No round has no call, and a link that did not join any more is an accept alone.
pub fn round_counts()
    ensures none { (x : Course) (past : List Call) → AreRounds 0 x past [] x }
    ensures none_calls { (x y : Course) (past calls : List Call) → AreRounds 0 x past calls y → calls ≡ [] }
    ensures none_same { (x y : Course) (past calls : List Call) → AreRounds 0 x past calls y → y ≡ x }
    ensures not_seated { (x : Course) → IsNotSeated x (Call.Accept (Did.Done 3) ∷ []) x }
    ensures not_given { (x y : Course) → IsNotSeated x (Call.Accept Did.NotYet ∷ []) y → ⊥ }
    ensures same { (x y : Course) (calls : List Call) → IsNotSeated x calls y → y ≡ x }
{}

/// Behind rounds that were all done the status is 8, with no call and no change.
pub fn ends_of_rounds()
    ensures done { (x : Course) (past : List Call) → EndsBehind 8 2 2 x past [] x }
    ensures behind_all { (x y : Course) (past calls : List Call) → EndsBehind 7 2 2 x past calls y → ⊥ }
{}

/// What a host tells afterwards is what it told before and then such calls; or it tells no more.
pub fn tellings()
    ensures no_more { Does (Some []) None (λ past calls. ⊥) }
    ensures again { Does None (Some []) (λ past calls. ⊤) → ⊥ }
    ensures such { Does (Some (Call.Close 3 ∷ [])) (Some (Call.Close 3 ∷ Call.Close 5 ∷ []))
        (λ past calls. (past ≡ Call.Close 3 ∷ []) × (calls ≡ Call.Close 5 ∷ [])) }
    ensures not_such { Does (Some []) (Some []) (λ past calls. ⊥) → ⊥ }
    ensures other_calls { Does (Some (Call.Close 3 ∷ [])) (Some []) (λ past calls. ⊤) → ⊥ }
    ensures moves_no_more { Moves (Some []) None (λ x cs. ⊤) (λ x cs ds y. ⊥) (λ y ds. ⊥) }
    ensures moves_again { Moves None (Some []) (λ x cs. ⊤) (λ x cs ds y. ⊤) (λ y ds. ⊤) → ⊥ }
    ensures moves { Moves (Some []) (Some (Call.Close 3 ∷ [])) (λ x cs. (x ≡ start) × (cs ≡ []))
        (λ x cs ds y. (x ≡ start) × ((cs ≡ []) × ((ds ≡ Call.Close 3 ∷ []) × (y ≡ start))))
        (λ y ds. (y ≡ start) × (ds ≡ Call.Close 3 ∷ [])) }
    ensures does_not_move { Moves (Some []) (Some []) (λ x cs. ⊤) (λ x cs ds y. ⊥) (λ y ds. ⊤) → ⊥ }
    ensures does_not_reach { Moves (Some []) (Some []) (λ x cs. ⊤) (λ x cs ds y. ⊤) (λ y ds. ⊥) → ⊥ }
    ensures moves_others { Moves (Some (Call.Close 3 ∷ [])) (Some []) (λ x cs. ⊤) (λ x cs ds y. ⊤) (λ y ds. ⊤) → ⊥ }
    ensures no_premise { Moves (Some []) (Some (Call.Close 3 ∷ [])) (λ x cs. ⊥) (λ x cs ds y. ⊥) (λ y ds. ⊥) }
{}

/// A run whose listen failed has no other call, and the status 7.
pub fn unheard_runs()
    ensures failed { IsRun (codes "/p") 7 3 (Call.Listen (codes "/p") Did.Failed ∷ []) }
    ensures more { IsRun (codes "/p") 7 3 (Call.Listen (codes "/p") Did.Failed ∷ Call.Accept Did.NotYet ∷ []) → ⊥ }
    ensures other_status { IsRun (codes "/p") 8 0 (Call.Listen (codes "/p") Did.Failed ∷ []) → ⊥ }
    ensures other_path { IsRun (97 ∷ []) 8 0 (Call.Listen (98 ∷ []) (Did.Done 0) ∷ []) → ⊥ }
{}
