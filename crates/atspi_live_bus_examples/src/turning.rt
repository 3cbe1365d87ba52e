//! Links that have a turn: what is written and told on them, what is taken of them, and how their turns go. Here 3 is
//! the link of connection 0, and 5 that of 1.

ghost use Rattle.std.specs.Prelude.{◌≡◌, ◌<◌, ◌≤◌, ◌∷◌, ◌++◌, ℕ, List, [], length, Some, true, false, ⊤};
ghost use Rattle.atspi_message.specs.Envelope.{Envelope};
ghost use Rattle.atspi_live_host.specs.Calls.{taken};
ghost use Rattle.atspi_live_host.specs.declared.call.Call.{Call};
ghost use Rattle.atspi_live_host.specs.declared.call.Did.{Did};
ghost use Rattle.atspi_stream.specs.Stream.{AwaitsMore};
ghost use Rattle.atspi_match.specs.routing.Queues.{Bus};
ghost use Rattle.atspi_match.specs.declared.routing.closing.Closing.{Closing};
ghost use Rattle.atspi_live_bus.specs.Asked.{joining, leaving, messages_of, taking};
ghost use Rattle.atspi_live_bus.specs.Cases.{two_conns};
ghost use Rattle.atspi_live_bus.specs.Closes.{FollowsRead, IsBad, IsLost, IsRest, Parts};
ghost use Rattle.atspi_live_bus.specs.Course.{Course, HandsOut, Steps, start, told_all};
ghost use Rattle.atspi_live_bus.specs.Due.{HasAllGiven};
ghost use Rattle.atspi_live_bus.specs.Opened.{open_behind};
ghost use Rattle.atspi_live_bus.specs.Rounds.{AreTurns, IsGift};
ghost use Rattle.atspi_live_bus.specs.inner.Seats.{BothDo, HasSent, Hears, Leaves, MayTake, Settles, Takes, TakesCut};
ghost use Rattle.atspi_live_bus.specs.inner.Seats.{TakesNone, TakesOne, Writes, seats};
ghost use Rattle.atspi_live_bus.specs.inner.Turns.{Carries};

use atspi_live_host::{Call, Did};

/// A write is of 1 to 4,096 of the bytes that wait first. The link goes on unless it failed.
pub fn writes_of_links()
    ensures part { (b : Bus) (l : _) (past : List Call) → seats (l ∷ []) ≡ (3, 0) ∷ [] → l.out.items ≡ 8 ∷ 9 ∷ []
        → HasSent 3 true b l past (Call.Write 3 (7 ∷ 8 ∷ []) (Did.Done 1) ∷ []) }
    ensures most { (b : Bus) (l : _) (past : List Call) (bytes : List ℕ) → seats (l ∷ []) ≡ (3, 0) ∷ []
        → length bytes ≡ 4096 → l.out.items ≡ bytes → HasSent 3 true b l past (Call.Write 3 bytes Did.NotYet ∷ []) }
    ensures more { (b : Bus) (l : _) (past : List Call) (bytes : List ℕ) → length bytes ≡ 4097
        → HasSent 3 true b l past (Call.Write 3 bytes Did.NotYet ∷ []) → ⊥ }
    ensures no_byte { (b : Bus) (l : _) (past : List Call) → HasSent 3 true b l past (Call.Write 3 [] Did.NotYet ∷ [])
        → ⊥ }
    ensures to_another { (b : Bus) (l : _) (past : List Call)
        → HasSent 3 true b l past (Call.Write 5 (7 ∷ []) Did.NotYet ∷ []) → ⊥ }
    ensures failed_goes_on { (b : Bus) (l : _) (past : List Call)
        → HasSent 3 true b l past (Call.Write 3 (7 ∷ []) Did.Failed ∷ []) → ⊥ }
    ensures other_bytes { (b : Bus) (l : _) (past : List Call)
        → HasSent 3 true b l past (Call.Write 3 (7 ∷ 8 ∷ []) (Did.Done 1) ∷ []) → l.out.items ≡ 9 ∷ [] → ⊥ }
    ensures failed { (b : Bus) (l : _) (past : List Call) → seats (l ∷ []) ≡ (3, 0) ∷ [] → l.out.items ≡ 7 ∷ 8 ∷ []
        → HasSent 3 false b l past (Call.Write 3 (7 ∷ []) Did.Failed ∷ []) }
    ensures failed_most { (b : Bus) (l : _) (past : List Call) (bytes : List ℕ) → seats (l ∷ []) ≡ (3, 0) ∷ []
        → length bytes ≡ 4096 → l.out.items ≡ bytes → HasSent 3 false b l past (Call.Write 3 bytes Did.Failed ∷ []) }
    ensures failed_more { (b : Bus) (l : _) (past : List Call) (bytes : List ℕ) → length bytes ≡ 4097
        → HasSent 3 false b l past (Call.Write 3 bytes Did.Failed ∷ []) → ⊥ }
    ensures failed_no_byte { (b : Bus) (l : _) (past : List Call)
        → HasSent 3 false b l past (Call.Write 3 [] Did.Failed ∷ []) → ⊥ }
    ensures failed_to_another { (b : Bus) (l : _) (past : List Call)
        → HasSent 3 false b l past (Call.Write 5 (7 ∷ []) Did.Failed ∷ []) → ⊥ }
    ensures not_failed { (b : Bus) (l : _) (past : List Call)
        → HasSent 3 false b l past (Call.Write 3 (7 ∷ []) Did.NotYet ∷ []) → ⊥ }
    ensures none_failed { (b : Bus) (l : _) (past : List Call) → HasSent 3 false b l past [] → ⊥ }
    ensures other_failed { (b : Bus) (l : _) (past : List Call)
        → HasSent 3 false b l past (Call.Write 3 (7 ∷ []) Did.Failed ∷ []) → l.out.items ≡ 9 ∷ [] → ⊥ }
{}

/// What a bus has to tell is told: a closing closes its link, the bus has none any more, and nothing else changes.
pub fn settled_links()
    ensures closed { (l m : _) (x : Course) (past : List Call) (c : Closing) → seats (l ∷ m ∷ []) ≡ (3, 0) ∷ (5, 1) ∷ []
        → x.conn ≡ two_conns → x.bus.closings ≡ c ∷ [] → c.conn ≡ 1
        → Settles (l ∷ m ∷ []) (l ∷ []) x past (Call.Close 5 ∷ []) (record x { bus = told_all x.bus }) }
    ensures not_closed { (l m : _) (x y : Course) (past : List Call) (c : Closing)
        → seats (l ∷ m ∷ []) ≡ (3, 0) ∷ (5, 1) ∷ [] → x.conn ≡ two_conns → x.bus.closings ≡ c ∷ [] → c.conn ≡ 1
        → Settles (l ∷ m ∷ []) (l ∷ m ∷ []) x past [] y → ⊥ }
    ensures more_asked { (y : Course) (past : List Call) → y.asked ≡ joining 0 ∷ [] → Settles [] [] start past [] y
        → ⊥ }
    ensures other_bus { (x y : Course) (past : List Call) → x.bus.quota ≡ 4 → y.bus.quota ≡ 5
        → Settles [] [] x past [] y → ⊥ }
    ensures other_conn { (y : Course) (past : List Call) → y.conn 3 ≡ Some 0 → Settles [] [] start past [] y → ⊥ }
    ensures not_told { (x y : Course) (past : List Call) (c : Closing) → y.bus.closings ≡ c ∷ []
        → Settles [] [] x past [] y → ⊥ }
{}

/// A message that is taken may close its own link; of a link that is not open none is taken.
pub fn messages_of_links()
    ensures closes_own { (l m : _) (x y : Course) (past : List Call) (e : Envelope) (c : Closing)
        → seats (l ∷ m ∷ []) ≡ (3, 0) ∷ (5, 1) ∷ [] → x.conn ≡ two_conns → Steps x (taking 0 e) (c ∷ []) y → c.conn ≡ 0
        → TakesOne 3 (l ∷ m ∷ []) (m ∷ []) x past (Call.Close 3 ∷ []) y }
    ensures may_take { (l m : _) (x y : Course) (past : List Call) (e : Envelope) (c : Closing)
        → seats (l ∷ m ∷ []) ≡ (3, 0) ∷ (5, 1) ∷ [] → x.conn ≡ two_conns → Steps x (taking 0 e) (c ∷ []) y → c.conn ≡ 0
        → MayTake true 3 (l ∷ m ∷ []) (m ∷ []) x past (Call.Close 3 ∷ []) y }
    ensures of_closed { (m : _) (x y : Course) (past : List Call) → seats (m ∷ []) ≡ (5, 1) ∷ [] → x.conn 3 ≡ Some 0
        → TakesOne 3 (m ∷ []) (m ∷ []) x past [] y → ⊥ }
    ensures awaits { (l m : _) (x : Course) (past : List Call) (rest : List ℕ)
        → seats (l ∷ m ∷ []) ≡ (3, 0) ∷ (5, 1) ∷ [] → x.conn ≡ two_conns
        → IsRest (taken 3 past) (messages_of 0 x.asked) rest → AwaitsMore rest
        → MayTake false 3 (l ∷ m ∷ []) (l ∷ m ∷ []) x past [] x }
    ensures bad_next { (l m : _) (x y : Course) (past : List Call) (rest : List ℕ)
        → seats (l ∷ m ∷ []) ≡ (3, 0) ∷ (5, 1) ∷ [] → x.conn ≡ two_conns
        → IsRest (taken 3 past) (messages_of 0 x.asked) rest → IsBad rest
        → Parts true 3 0 x (3 ∷ 5 ∷ []) (Call.Close 3 ∷ []) y
        → TakesNone true 3 (l ∷ m ∷ []) (m ∷ []) x past (Call.Close 3 ∷ []) y }
    ensures left { (l m : _) (x y : Course) (past : List Call) → seats (l ∷ m ∷ []) ≡ (3, 0) ∷ (5, 1) ∷ []
        → Steps x (leaving 0) [] y → Leaves true 3 0 (l ∷ m ∷ []) (m ∷ []) x past (Call.Close 3 ∷ []) y }
    ensures not_left { (l m : _) (x y : Course) (past : List Call)
        → Leaves true 3 0 (l ∷ m ∷ []) (l ∷ []) x past (Call.Close 5 ∷ []) y → ⊥ }
{}

/// A link that is open is written to unless all was given; where the write failed it is closed. One that is closed is
/// not.
pub fn writes_in_turns()
    ensures all_given { (l m : _) (x y : Course) (past : List Call) → seats (l ∷ m ∷ []) ≡ (3, 0) ∷ (5, 1) ∷ []
        → x.conn ≡ two_conns → HandsOut 0 x y → HasAllGiven y past 3
        → Writes true 3 (l ∷ m ∷ []) (l ∷ m ∷ []) x past [] y }
    ensures failed { (l m : _) (x y : Course) (past : List Call) → seats (l ∷ m ∷ []) ≡ (3, 0) ∷ (5, 1) ∷ []
        → x.conn ≡ two_conns
        → IsGift true x past (3 ∷ 5 ∷ []) 3 0 (Call.Write 3 (7 ∷ []) Did.Failed ∷ Call.Close 3 ∷ []) y
        → Writes true 3 (l ∷ m ∷ []) (m ∷ []) x past (Call.Write 3 (7 ∷ []) Did.Failed ∷ Call.Close 3 ∷ []) y }
    ensures not_written { (l m : _) (x y : Course) (past : List Call) → seats (l ∷ m ∷ []) ≡ (3, 0) ∷ (5, 1) ∷ []
        → x.conn ≡ two_conns → (HasAllGiven y past 3 → ⊥) → Writes true 3 (l ∷ m ∷ []) (l ∷ m ∷ []) x past [] y → ⊥ }
    ensures closed { (m : _) (x : Course) (past : List Call) → seats (m ∷ []) ≡ (5, 1) ∷ [] → x.conn ≡ two_conns
        → Writes true 3 (m ∷ []) (m ∷ []) x past [] x }
{}

/// A turn is a read of its link with its closes, and then maybe a write.
pub fn turns_of_seated()
    ensures closes_another { (l m : _) (x y : Course) (past : List Call) (bytes rest : List ℕ) (e : Envelope)
        (c : Closing) → seats (l ∷ m ∷ []) ≡ (3, 0) ∷ (5, 1) ∷ [] → x.conn ≡ two_conns
        → Steps x (taking 0 e) (c ∷ []) y → c.conn ≡ 1 → length bytes ≤ 4096
        → (IsLost (Did.Done 7) (taken 3 (past ++ Call.Read 3 bytes (Did.Done 7) ∷ [])) → ⊥)
        → IsRest (taken 3 (past ++ Call.Read 3 bytes (Did.Done 7) ∷ [])) (messages_of 0 y.asked) rest → AwaitsMore rest
        → HasAllGiven y (past ++ Call.Read 3 bytes (Did.Done 7) ∷ Call.Close 5 ∷ []) 3
        → Takes 3 (l ∷ m ∷ []) (l ∷ []) x past (Call.Read 3 bytes (Did.Done 7) ∷ Call.Close 5 ∷ []) y }
    ensures heard { (l m : _) (x y : Course) (past : List Call) (bytes rest : List ℕ) (e : Envelope) (c : Closing)
        → seats (l ∷ m ∷ []) ≡ (3, 0) ∷ (5, 1) ∷ [] → x.conn ≡ two_conns
        → Steps x (taking 0 e) (c ∷ []) y → c.conn ≡ 1 → length bytes ≤ 4096
        → (IsLost (Did.Done 7) (taken 3 (past ++ Call.Read 3 bytes (Did.Done 7) ∷ [])) → ⊥)
        → IsRest (taken 3 (past ++ Call.Read 3 bytes (Did.Done 7) ∷ [])) (messages_of 0 y.asked) rest → AwaitsMore rest
        → Hears true 3 0 (l ∷ m ∷ []) (l ∷ []) x past (Call.Read 3 bytes (Did.Done 7) ∷ Call.Close 5 ∷ []) y }
    ensures ended { (l m : _) (x y : Course) (past : List Call) → seats (l ∷ m ∷ []) ≡ (3, 0) ∷ (5, 1) ∷ []
        → x.conn ≡ two_conns → Parts true 3 0 x (3 ∷ 5 ∷ []) (Call.Close 3 ∷ []) y
        → Takes 3 (l ∷ m ∷ []) (m ∷ []) x past (Call.Read 3 [] Did.End ∷ Call.Close 3 ∷ []) y }
    ensures not_left { (l : _) (x y : Course) (past : List Call) → Hears true 3 0 (l ∷ []) [] x past [] y → ⊥ }
    ensures more_heard { (l : _) (x y : Course) (past closes : List Call) (bytes : List ℕ) (did : Did)
        → 4096 < length bytes → Hears true 3 0 (l ∷ []) (l ∷ []) x past (Call.Read 3 bytes did ∷ closes) y → ⊥ }
    ensures of_another { (l : _) (x y : Course) (past closes : List Call) (bytes : List ℕ) (did : Did)
        → Hears true 3 0 (l ∷ []) (l ∷ []) x past (Call.Read 5 bytes did ∷ closes) y → ⊥ }
    ensures no_read { (l : _) (x y : Course) (past : List Call) → BothDo true 3 0 (l ∷ []) x past [] y → ⊥ }
    ensures cut { (l m : _) (x : Course) (past : List Call) → x.conn ≡ two_conns
        → TakesCut 3 (l ∷ m ∷ []) x past (Call.Read 3 [] Did.End ∷ []) x }
    ensures no_cut { (l m : _) (x y : Course) (past : List Call) → TakesCut 3 (l ∷ m ∷ []) x past [] y → ⊥ }
    ensures behind_closed { (x : Course) (past : List Call) → open_behind past ≡ 5 ∷ []
        → AreTurns true x past (3 ∷ []) [] x }
    ensures stopped_behind_close { (x y : Course) (e : Envelope) (c : Closing) (t rest : List ℕ) → x.conn ≡ two_conns
        → Steps x (taking 0 e) (c ∷ []) y → c.conn ≡ 1 → (IsLost (Did.Done 7) t → ⊥)
        → IsRest t (messages_of 0 y.asked) rest
        → FollowsRead false 3 0 x (3 ∷ 5 ∷ []) (Did.Done 7) t (Call.Close 5 ∷ []) y }
{}

/// Calls for one link carry what was known of it before to what is known behind them.
pub fn carried_over()
    ensures read { Carries 3 (Some []) (Some (Call.Read 3 (7 ∷ []) (Did.Done 1) ∷ [])) (λ t g. ⊤)
        (λ t g. (t ≡ 7 ∷ []) × (g ≡ [])) }
    ensures written { Carries 3 (Some []) (Some (Call.Write 3 (7 ∷ []) (Did.Done 1) ∷ [])) (λ t g. ⊤)
        (λ t g. (t ≡ []) × (g ≡ 7 ∷ [])) }
    ensures not_known { Carries 3 (Some []) (Some (Call.Read 3 (7 ∷ []) (Did.Done 1) ∷ [])) (λ t g. t ≡ 7 ∷ [])
        (λ t g. ⊥) }
    ensures none_taken { Carries 3 (Some []) (Some (Call.Read 3 (7 ∷ []) (Did.Done 1) ∷ [])) (λ t g. t ≡ [])
        (λ t g. t ≡ []) → ⊥ }
    ensures none_given { Carries 3 (Some []) (Some (Call.Write 3 (7 ∷ []) (Did.Done 1) ∷ [])) (λ t g. g ≡ [])
        (λ t g. g ≡ []) → ⊥ }
{}
