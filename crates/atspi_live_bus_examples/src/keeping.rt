//! What is known of a link and of a bus between calls. A link is new that has sent nothing and was said nothing.

ghost use Rattle.std.specs.Prelude.{◌≡◌, ◌<◌, ◌+◌, ◌∷◌, ℕ, List, [], length, None, Some, true, false};
ghost use Rattle.atspi_auth.specs.Talk.{Stands, fault_in, server_start};
ghost use Rattle.atspi_auth.specs.declared.fault.AuthFault.TheVariants.{NoZero};
ghost use Rattle.atspi_auth.specs.declared.said.AuthLine.{AuthLine};
ghost use Rattle.atspi_auth.specs.declared.stage.Stage.TheVariants.{Over};
ghost use Rattle.atspi_message.specs.Envelope.{Envelope};
ghost use Rattle.atspi_bus.specs.View.{bus_of, given_of};
ghost use Rattle.atspi_live_host.specs.Calls.{taken};
ghost use Rattle.atspi_live_host.specs.declared.call.Call.{Call};
ghost use Rattle.atspi_live_host.specs.declared.call.Did.{Did};
ghost use Rattle.atspi_match.specs.routing.Queues as queues;
ghost use Rattle.atspi_live_bus.specs.Asked.{joining, taking};
ghost use Rattle.atspi_live_bus.specs.Cases.{one_link, two_conns};
ghost use Rattle.atspi_live_bus.specs.Closes.{IsLost};
ghost use Rattle.atspi_live_bus.specs.Course.{Course, start};
ghost use Rattle.atspi_live_bus.specs.inner.Seats.{GoesOpen, HasRead, HasReadOnly, seats};
ghost use Rattle.atspi_live_bus.specs.Turns.{Converses};
ghost use Rattle.atspi_live_bus.specs.inner.Turns.{Fetches, Gives, Goes, IsSeated, Remains, Seats};

use atspi_live_host::{Call, Did};

/// On a new link nothing was said, no message was taken and no byte waits. Nothing of the bus is said before the lines
/// are over, and a link whose lines are at fault is none any more.
pub fn talks_of_links()
    ensures new { (l : _) → seats (l ∷ []) ≡ (3, 0) ∷ [] → Stands server_start [] [] l.server → l.feeder ≡ []
        → l.out.items ≡ [] → Converses [] [] l [] [] }
    ensures over { (l : _) → Converses [] [] l [] [] → l.server.stage ≡ Over → ⊥ }
    ensures held { (l : _) → Converses [] [] l [] [] → l.feeder ≡ 108 ∷ [] → ⊥ }
    ensures message { (l : _) (e : Envelope) → Converses (e ∷ []) [] l [] [] → ⊥ }
    ensures waits { (l : _) → Converses [] [] l [] [] → l.out.items ≡ 7 ∷ [] → ⊥ }
    ensures given { (l : _) → Converses [] [] l [] (7 ∷ []) → ⊥ }
    ensures handed_early { (l : _) → Converses [] (7 ∷ []) l [] (7 ∷ []) → ⊥ }
    ensures line_left { (l : _) (t g : List ℕ) (line : AuthLine) → Converses [] (7 ∷ []) l t g
        → l.server.unsent ≡ line ∷ [] → ⊥ }
    ensures at_fault { (l : _) (t g : List ℕ) → Converses [] [] l t g → fault_in l.server.stage ≡ Some NoZero → ⊥ }
{}

/// Behind a read a link goes on, or it is lost: exactly where it ended, failed or is at fault.
pub fn links_behind_reads()
    ensures goes_on { (l : _) → Converses [] [] l [] [] → Remains true Did.NotYet [] [] l [] [] }
    ensures handed { (l : _) (t : List ℕ) → Converses [] (7 ∷ []) l t [] → (IsLost Did.NotYet t → ⊥)
        → Remains true Did.NotYet [] (7 ∷ []) l t [] }
    ensures at_fault { (l : _) → Remains true Did.NotYet [] [] l (97 ∷ []) [] → ⊥ }
    ensures ended { (l : _) → Remains true Did.End [] [] l [] [] → ⊥ }
    ensures gave { (l : _) → Remains true Did.NotYet [] [] l [] (7 ∷ []) → ⊥ }
    ensures lost { (l : _) → Converses [] [] l [] [] → Remains false Did.End [] [] l [] [] }
    ensures lost_by_fault { (l : _) → Converses [] [] l [] [] → Remains false Did.NotYet [] [] l (97 ∷ []) [] }
    ensures not_lost { (l : _) → Remains false Did.NotYet [] [] l [] [] → ⊥ }
    ensures lost_gave { (l : _) → Remains false Did.End [] [] l [] (7 ∷ []) → ⊥ }
{}

/// A read is of its link, of 4,096 bytes at the most, and what is known of the link before it is known with these bytes
/// behind it.
pub fn reads_of_links()
    ensures waits { (l : _) (past : List Call) → (IsLost Did.NotYet (taken 3 past) → ⊥)
        → HasRead 3 true l l past (Call.Read 3 [] Did.NotYet ∷ []) }
    ensures ended { (l : _) (past : List Call) → HasRead 3 false l l past (Call.Read 3 [] Did.End ∷ []) }
    ensures at_fault { (l m : _) → Converses [] [] l [] []
        → HasRead 3 true l m [] (Call.Read 3 (97 ∷ []) (Did.Done 1) ∷ []) → ⊥ }
    ensures ended_goes_on { (l m : _) → Converses [] [] l [] [] → HasRead 3 true l m [] (Call.Read 3 [] Did.End ∷ [])
        → ⊥ }
    ensures no_read { (l m : _) → HasRead 3 true l m [] [] → ⊥ }
    ensures of_another { (l m : _) → HasRead 3 true l m [] (Call.Read 5 [] Did.NotYet ∷ []) → ⊥ }
    ensures more { (l m : _) (bytes : List ℕ) (did : Did) → 4096 < length bytes
        → HasRead 3 true l m [] (Call.Read 3 bytes did ∷ []) → ⊥ }
    ensures wanting { (l : _) (past : List Call) → HasReadOnly 3 l past (Call.Read 3 [] Did.NotYet ∷ []) }
    ensures wanting_none { (l : _) → HasReadOnly 3 l [] [] → ⊥ }
    ensures wanting_another { (l : _) → HasReadOnly 3 l [] (Call.Read 5 [] Did.NotYet ∷ []) → ⊥ }
    ensures wanting_more { (l : _) (bytes : List ℕ) (did : Did) → 4096 < length bytes
        → HasReadOnly 3 l [] (Call.Read 3 bytes did ∷ []) → ⊥ }
{}

/// An open link has its own connection, and what passed on it is what was asked for that one.
pub fn seated_links()
    ensures seated { (l : _) → seats (l ∷ []) ≡ (3, 0) ∷ [] → Converses [] [] l [] []
        → IsSeated (joining 0 ∷ []) two_conns [] l }
    ensures no_conn { (l : _) → IsSeated [] (λ k. None) [] l → ⊥ }
    ensures other_conn { (l : _) → seats (l ∷ []) ≡ (3, 1) ∷ [] → IsSeated [] two_conns [] l → ⊥ }
    ensures told { (l : _) (e : Envelope) → seats (l ∷ []) ≡ (3, 0) ∷ [] → IsSeated (taking 0 e ∷ []) two_conns [] l
        → ⊥ }
    ensures at_fault { (l : _) → seats (l ∷ []) ≡ (3, 0) ∷ []
        → IsSeated [] two_conns (Call.Read 3 (97 ∷ []) (Did.Done 1) ∷ []) l → ⊥ }
    ensures given { (l : _) → seats (l ∷ []) ≡ (3, 0) ∷ []
        → IsSeated [] two_conns (Call.Write 3 (7 ∷ []) (Did.Done 1) ∷ []) l → ⊥ }
{}

/// A bus and its links are where its course led: it is the bus of what was asked, it gave each connection that a link
/// has to that one alone, and nothing was asked for one that it did not give yet.
pub fn buses_and_links()
    ensures nobody { (b : _) → bus_of b ≡ start.bus → Goes b [] start [] }
    ensures not_led { (b : _) (x : Course) → x.asked ≡ [] → (bus_of b).quota ≡ 5 → Goes b [] x [] → ⊥ }
    ensures other_bus { (b : _) (x : Course) → x.bus.quota ≡ 4 → (bus_of b).quota ≡ 5 → Goes b [] x [] → ⊥ }
    ensures one_conn_twice { (b : _) (x : Course) → x.conn 3 ≡ Some 0 → x.conn 5 ≡ Some 0 → Goes b [] x [] → ⊥ }
    ensures not_given { (b : _) → given_of b ≡ 0 → Goes b [] one_link [] → ⊥ }
    ensures asked_before { (b : _) (x : Course) (e : Envelope) → x.asked ≡ taking 7 e ∷ [] → given_of b ≡ 1
        → Goes b [] x [] → ⊥ }
    ensures not_seated { (b l : _) → Goes b (l ∷ []) start [] → ⊥ }
    ensures gave { (b : _) → Goes b [] start (Call.Write 3 (7 ∷ []) (Did.Done 1) ∷ []) → ⊥ }
    ensures open { (b : _) → bus_of b ≡ start.bus → GoesOpen b [] start [] }
    ensures not_held { (b : _) → GoesOpen b [] start (Call.Accept (Did.Done 3) ∷ []) → ⊥ }
{}

/// A link that was given stands behind the others, as the next connection of the bus.
pub fn links_that_join()
    ensures joins { (l b d : _) → seats (l ∷ []) ≡ (3, 0) ∷ [] → given_of b ≡ 0
        → bus_of d ≡ queues.joins (bus_of b) l.conn → given_of d ≡ given_of b + 1 → Converses [] [] l [] []
        → Seats 3 b d [] (l ∷ []) }
    ensures joins_behind { (k l b d : _) → seats (k ∷ l ∷ []) ≡ (5, 0) ∷ (3, 1) ∷ [] → given_of b ≡ 1
        → bus_of d ≡ queues.joins (bus_of b) l.conn → given_of d ≡ given_of b + 1 → Converses [] [] l [] []
        → Seats 3 b d (k ∷ []) (k ∷ l ∷ []) }
    ensures none { (b d : _) → Seats 3 b d [] [] → ⊥ }
    ensures other_number { (l b d : _) → seats (l ∷ []) ≡ (3, 0) ∷ [] → Seats 5 b d [] (l ∷ []) → ⊥ }
    ensures other_conn { (l b d : _) → seats (l ∷ []) ≡ (3, 0) ∷ [] → given_of b ≡ 1 → Seats 3 b d [] (l ∷ []) → ⊥ }
    ensures not_counted { (l b d : _) → given_of b ≡ 4 → given_of d ≡ 4 → Seats 3 b d [] (l ∷ []) → ⊥ }
    ensures other_bus { (l b d : _) → (bus_of b).quota ≡ 4 → (bus_of d).quota ≡ 5 → Seats 3 b d [] (l ∷ []) → ⊥ }
    ensures not_new { (l b d : _) → Seats 3 b d [] (l ∷ []) → l.out.items ≡ 7 ∷ [] → ⊥ }
{}

/// What a bus hands out for a link waits there, once the lines are over, or was given on it.
pub fn fetched_bytes()
    ensures none { (b : queues.Bus) (l : _) → Fetches 0 b b l l }
    ensures early { (b d : queues.Bus) (l m : _) → Fetches 0 b d l m → Converses [] [] l [] [] → m.out.items ≡ 7 ∷ []
        → ⊥ }
    ensures none_given { (b : queues.Bus) (l : _) → Gives 0 3 (Some []) (Some []) b b l l }
    ensures given_early { (b d : queues.Bus) (l m : _)
        → Gives 0 3 (Some []) (Some (Call.Write 3 (7 ∷ []) (Did.Done 1) ∷ [])) b d l m → Converses [] [] l [] [] → ⊥ }
    ensures given_another { (b d : queues.Bus) (l m : _)
        → Gives 0 3 (Some []) (Some (Call.Write 5 (7 ∷ []) (Did.Done 1) ∷ [])) b d l m → ⊥ }
    ensures told_again { (b d : queues.Bus) (l m : _) → Gives 0 3 None (Some []) b d l m → ⊥ }
{}
