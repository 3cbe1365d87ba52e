//! The links of a bus, what calls leave of them, and how a run of it ends.

ghost use Rattle.std.specs.Prelude.{◌≡◌, ◌+◌, ◌∷◌, List, [], length, None, Some, codes, true, false, ⊤};
ghost use Rattle.atspi_message.specs.Envelope.{Envelope};
ghost use Rattle.atspi_auth.specs.declared.stage.Stage.TheVariants.{Over};
ghost use Rattle.atspi_live_host.specs.declared.call.Call.{Call};
ghost use Rattle.atspi_live_host.specs.declared.call.Did.{Did};
ghost use Rattle.atspi_match.specs.routing.Queues.{Bus, queue_of};
ghost use Rattle.atspi_live_bus.specs.Asked.{Leads, joining, popping, taking, telling};
ghost use Rattle.atspi_live_bus.specs.Course.{Course, start};
ghost use Rattle.atspi_live_bus.specs.inner.Seats.{AreAbove, AreLeft, Dismisses, HasAccepted, HasSent, Leaves, MayTake};
ghost use Rattle.atspi_live_bus.specs.inner.Seats.{Rise, Settles, Settling, Stands, Takes, TakesAll, TakesCut};
ghost use Rattle.atspi_live_bus.specs.inner.Seats.{TakesNone, TakesOne, TakesSome, Waited, Writes, conn_at, due, held};
ghost use Rattle.atspi_live_bus.specs.inner.Seats.{left, number_at, numbers_of, seats, without_seat};
ghost use Rattle.atspi_live_bus.specs.Service.{HasNoCall, OfTold};
ghost use Rattle.atspi_live_bus.specs.inner.Serving.{Serves, numbers};
ghost use Rattle.atspi_live_bus.specs.Stops.{Ends};
ghost use Rattle.atspi_live_bus.specs.inner.Turns.{Carries, Each, IsOfOne, IsSilent, IsTold, OthersRest};

use atspi_live_host::{Call, Did};

/// The links in the order in which they joined, by their numbers, their connections and the bytes that they hold.
pub fn links_in_order()
    ensures none { seats [] ≡ [] }
    ensures two { (l m : _) → seats (l ∷ m ∷ []) ≡ (l.number, l.conn) ∷ (m.number, m.conn) ∷ [] }
    ensures their_numbers { numbers_of ((3, 0) ∷ (5, 1) ∷ []) ≡ 3 ∷ 5 ∷ [] }
    ensures numbers_alone { (l m : _) → numbers (l ∷ m ∷ []) ≡ l.number ∷ m.number ∷ [] }
    ensures first_number { (l m : _) → number_at (l ∷ m ∷ []) 0 ≡ l.number }
    ensures second_number { (l m : _) → number_at (l ∷ m ∷ []) 1 ≡ m.number }
    ensures no_number { (l m : _) → number_at (l ∷ m ∷ []) 2 ≡ 0 }
    ensures first_conn { (l m : _) → conn_at (l ∷ m ∷ []) 0 ≡ l.conn }
    ensures second_conn { (l m : _) → conn_at (l ∷ m ∷ []) 1 ≡ m.conn }
    ensures no_conn { (l m : _) → conn_at (l ∷ m ∷ []) 2 ≡ 0 }
    ensures none_held { held [] ≡ 0 }
    ensures held_by_both { (l m : _) → held (l ∷ m ∷ []) ≡ length l.feeder + (length m.feeder + 0) }
    ensures served { (l m : _) → seats (l ∷ m ∷ []) ≡ (3, 0) ∷ (5, 1) ∷ [] → Serves (3 ∷ 5 ∷ []) (l ∷ m ∷ []) }
    ensures served_twice { (l m : _) → Serves (3 ∷ 3 ∷ []) (l ∷ m ∷ []) → ⊥ }
    ensures not_served { (l : _) → Serves [] (l ∷ []) → ⊥ }
{}

/// What each call leaves of links 3 and 5, those of connections 0 and 1.
pub fn links_left()
    ensures others { without_seat 3 ((3, 0) ∷ (5, 1) ∷ (3, 2) ∷ []) ≡ (5, 1) ∷ [] }
    ensures none { left ((3, 0) ∷ (5, 1) ∷ []) [] ≡ (3, 0) ∷ (5, 1) ∷ [] }
    ensures listen { left ((3, 0) ∷ (5, 1) ∷ []) (Call.Listen (codes "/p") (Did.Done 0) ∷ []) ≡ (3, 0) ∷ (5, 1) ∷ [] }
    ensures accept { left ((3, 0) ∷ (5, 1) ∷ []) (Call.Accept (Did.Done 7) ∷ []) ≡ (3, 0) ∷ (5, 1) ∷ [] }
    ensures connect { left ((3, 0) ∷ (5, 1) ∷ []) (Call.Connect (codes "/p") (Did.Done 7) ∷ []) ≡ (3, 0) ∷ (5, 1) ∷ [] }
    ensures read { left ((3, 0) ∷ (5, 1) ∷ []) (Call.Read 3 [] Did.End ∷ []) ≡ (3, 0) ∷ (5, 1) ∷ [] }
    ensures write { left ((3, 0) ∷ (5, 1) ∷ []) (Call.Write 3 [] Did.Failed ∷ []) ≡ (3, 0) ∷ (5, 1) ∷ [] }
    ensures close { left ((3, 0) ∷ (5, 1) ∷ []) (Call.Close 3 ∷ []) ≡ (5, 1) ∷ [] }
    ensures both { left ((3, 0) ∷ (5, 1) ∷ []) (Call.Close 5 ∷ Call.Close 3 ∷ []) ≡ [] }
{}

/// The turns to come are of the connections from one on. Links stand in the order of their connections.
pub fn order_of_links()
    ensures all_due { due 0 ((3, 0) ∷ (5, 1) ∷ []) ≡ 3 ∷ 5 ∷ [] }
    ensures some_due { due 1 ((3, 0) ∷ (5, 1) ∷ (7, 2) ∷ []) ≡ 5 ∷ 7 ∷ [] }
    ensures none_due { due 3 ((3, 0) ∷ (5, 1) ∷ (7, 2) ∷ []) ≡ [] }
    ensures above { AreAbove 1 ((5, 2) ∷ (7, 3) ∷ []) }
    ensures the_same { AreAbove 1 ((5, 1) ∷ []) → ⊥ }
    ensures second_below { AreAbove 1 ((5, 2) ∷ (7, 0) ∷ []) → ⊥ }
    ensures rise { Rise ((5, 0) ∷ (3, 1) ∷ []) }
    ensures one_twice { Rise ((3, 1) ∷ (5, 1) ∷ []) → ⊥ }
    ensures fall_behind { Rise ((3, 0) ∷ (5, 2) ∷ (7, 1) ∷ []) → ⊥ }
    ensures stand { (l : _) → seats (l ∷ []) ≡ (3, 0) ∷ [] → Stands (l ∷ []) (Call.Accept (Did.Done 3) ∷ []) }
    ensures none_stand { Stands [] (Call.Accept (Did.Done 3) ∷ []) → ⊥ }
    ensures in_other_order { (l m : _) (past : List Call) → seats (l ∷ m ∷ []) ≡ (3, 1) ∷ (5, 0) ∷ []
        → Stands (l ∷ m ∷ []) past → ⊥ }
    ensures left_as_they_are { (l : _) → AreLeft true (l ∷ []) (l ∷ []) [] }
    ensures left_without { (l : _) → seats (l ∷ []) ≡ (3, 0) ∷ [] → AreLeft true (l ∷ []) [] (Call.Close 3 ∷ []) }
    ensures more_than_left { (l : _) → AreLeft true [] (l ∷ []) [] → ⊥ }
    ensures whatever { (l : _) → AreLeft false [] (l ∷ []) [] }
{}

/// What waited on a link begins what was given, where the rest of it still waits.
pub fn what_waited()
    ensures part { (l : _) → held (l ∷ []) ≡ 0 → l.out.items ≡ 8 ∷ 9 ∷ [] → Waited (7 ∷ 8 ∷ []) (Did.Done 1) l }
    ensures nothing_given { (l : _) → held (l ∷ []) ≡ 0 → l.out.items ≡ 7 ∷ 8 ∷ [] → Waited (7 ∷ 8 ∷ []) Did.NotYet l }
    ensures other_rest { (l : _) → Waited (7 ∷ 8 ∷ []) (Did.Done 1) l → l.out.items ≡ 9 ∷ [] → ⊥ }
    ensures no_write { (b : Bus) (l : _) (past : List Call) → IsSilent b l → l.out.items ≡ []
        → HasSent 3 true b l past [] }
    ensures no_write_waits { (b : Bus) (l : _) (past : List Call) → HasSent 3 true b l past [] → l.out.items ≡ 7 ∷ []
        → ⊥ }
    ensures lines_wait { (b : Bus) (l : _) (past : List Call) → HasSent 3 true b l past [] → l.server.unsent ≡ [] }
    ensures accepted { HasAccepted start [] (Call.Accept Did.NotYet ∷ []) start }
    ensures silent { (b : Bus) (l : _) → held (l ∷ []) ≡ 0 → l.server.unsent ≡ []
        → queue_of b.waiting.queues l.conn ≡ [] → IsSilent b l }
    ensures bytes_wait { (b : Bus) (l : _) → IsSilent b l → l.server.stage ≡ Over
        → queue_of b.waiting.queues l.conn ≡ 7 ∷ [] → ⊥ }
{}

/// What is known of each link, and of the calls for one alone.
pub fn calls_for_one()
    ensures each { (l m : _) → seats (l ∷ m ∷ []) ≡ (3, 0) ∷ (3, 1) ∷ [] → Each (λ n. n.number ≡ 3) (l ∷ m ∷ []) }
    ensures not_first { (l m : _) → seats (l ∷ m ∷ []) ≡ (5, 0) ∷ (3, 1) ∷ [] → Each (λ n. n.number ≡ 3) (l ∷ m ∷ [])
        → ⊥ }
    ensures not_second { (l m : _) → seats (l ∷ m ∷ []) ≡ (3, 0) ∷ (5, 1) ∷ [] → Each (λ n. n.number ≡ 3) (l ∷ m ∷ [])
        → ⊥ }
    ensures taken { OthersRest 3 [] (Call.Read 5 (97 ∷ []) (Did.Done 1) ∷ []) → ⊥ }
    ensures given { OthersRest 3 [] (Call.Write 5 (97 ∷ []) (Did.Done 1) ∷ []) → ⊥ }
    ensures no_call { OthersRest 3 [] [] }
    ensures told_no_more { Carries 3 (Some []) None (λ t g. ⊤) (λ t g. ⊥) }
    ensures told_again { Carries 3 None (Some []) (λ t g. ⊤) (λ t g. ⊤) → ⊥ }
    ensures not_carried { Carries 3 (Some []) (Some []) (λ t g. ⊤) (λ t g. ⊥) → ⊥ }
    ensures carried { Carries 3 (Some []) (Some []) (λ t g. (t ≡ []) × (g ≡ [])) (λ t g. (t ≡ []) × (g ≡ [])) }
    ensures of_another { Carries 3 (Some []) (Some (Call.Write 5 (97 ∷ []) (Did.Done 1) ∷ [])) (λ t g. ⊤) (λ t g. ⊤)
        → ⊥ }
    ensures message_of_another { (e : Envelope) → IsOfOne 1 (taking 2 e ∷ []) → ⊥ }
    ensures bytes_of_another { IsOfOne 1 (popping 2 (7 ∷ []) ∷ []) → ⊥ }
    ensures no_message { IsOfOne 1 (joining 2 ∷ []) }
    ensures told { (b d : Bus) → Leads b telling d → IsTold b d }
    ensures any_calls { OfTold (λ cs. ⊥) None }
    ensures such_calls { OfTold HasNoCall (Some []) }
    ensures other_calls { OfTold HasNoCall (Some (Call.Close 3 ∷ [])) → ⊥ }
{}

/// How a run of the bus ends, by its status and the count of failed calls.
pub fn ends_of_runs()
    ensures no_memory { Ends 5 3 3 }
    ensures host_failed { Ends 7 3 4 }
    ensures failed_at_most { Ends 7 18446744073709551615 18446744073709551615 }
    ensures rounds_done { Ends 8 3 3 }
    ensures spent { Ends 13 3 3 }
    ensures no_status { Ends 6 3 3 → ⊥ }
    ensures not_counted { Ends 7 3 3 → ⊥ }
    ensures counted { Ends 8 3 4 → ⊥ }
{}

/// A link that no call closed stays: it is not among those that are left only where it was closed. Of a link that is
/// not open no message is taken.
pub fn links_that_stay()
    ensures dismissed { (l : _) (x y : Course) (past : List Call) → Dismisses 1 (l ∷ []) [] x past [] y → ⊥ }
    ensures settling { (l : _) (x y : Course) (past : List Call) → Settling (l ∷ []) [] x past [] y → ⊥ }
    ensures settled { (l : _) (x y : Course) (past : List Call) → Settles (l ∷ []) [] x past [] y → ⊥ }
    ensures one_taken { (l : _) (x y : Course) (past : List Call) → TakesOne 3 (l ∷ []) [] x past [] y → ⊥ }
    ensures some_taken { (l : _) (x y : Course) (past : List Call) → TakesSome 3 (l ∷ []) [] x past [] y → ⊥ }
    ensures all_taken { (l : _) (x y : Course) (past : List Call) → TakesAll true 3 (l ∷ []) [] x past [] y → ⊥ }
    ensures written { (l : _) (x y : Course) (past : List Call) → Writes true 3 (l ∷ []) [] x past [] y → ⊥ }
    ensures turn { (l : _) (x y : Course) (past : List Call) → Takes 3 (l ∷ []) [] x past [] y → ⊥ }
    ensures not_open { (x y : Course) (past : List Call) → x.conn 3 ≡ Some 0 → TakesOne 3 [] [] x past [] y → ⊥ }
{}

/// Where a bus has no link none is closed, and no link has a turn; a link whose close was the last call leaves nothing
/// else.
pub fn no_links()
    ensures dismissed { Dismisses 1 [] [] start [] [] start }
    ensures not_dismissed { (y : Course) → Dismisses 1 [] [] start [] (Call.Close 3 ∷ []) y → ⊥ }
    ensures dismissed_same { (y : Course) (calls : List Call) → Dismisses 1 [] [] start [] calls y → y ≡ start }
    ensures settling { Settling [] [] start [] [] start }
    ensures settled { Settles [] [] start [] [] start }
    ensures not_settled { (y : Course) → Settles [] [] start [] (Call.Close 3 ∷ []) y → ⊥ }
    ensures left { (x : Course) → Leaves false 3 0 [] [] x [] (Call.Close 3 ∷ []) x }
    ensures one_taken { TakesOne 3 [] [] start [] [] start }
    ensures none_taken { TakesNone true 3 [] [] start [] [] start }
    ensures may_take { MayTake true 3 [] [] start [] [] start }
    ensures may_take_none { MayTake false 3 [] [] start [] [] start }
    ensures some_taken { TakesSome 3 [] [] start [] [] start }
    ensures all_taken { TakesAll true 3 [] [] start [] [] start }
    ensures written { Writes true 3 [] [] start [] [] start }
    ensures no_turn { (y : Course) (past calls : List Call) → Takes 3 [] [] start past calls y → ⊥ }
    ensures no_cut { (y : Course) (past calls : List Call) → TakesCut 3 [] start past calls y → ⊥ }
{}
