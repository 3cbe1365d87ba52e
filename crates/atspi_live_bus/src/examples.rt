//! Worked cases, with the values worked out by hand. Each case is a clause of a function without a body. So a
//! definition that says otherwise is refused here.

ghost use Rattle.std.specs.Prelude.{◌≡◌, ◌<◌, ◌∷◌, ◌++◌, ℕ, List, [], length, Option, None, Some, codes, true};
ghost use Rattle.atspi_auth.specs.Lines.{end_of_line};
ghost use Rattle.atspi_auth.specs.Talk.{fault_in};
ghost use Rattle.atspi_auth.specs.declared.fault.AuthFault.{AuthFault};
ghost use Rattle.atspi_live_host.specs.declared.call.Did.{Did};
ghost use Rattle.atspi_live_host.specs.declared.call.Call.{Call};
ghost use Rattle.atspi_message.specs.Envelope.{Envelope};
ghost use Rattle.atspi_live_bus.specs.Asked.{Spends, handed_to, joining, leaving, messages_of, popping, taking};
ghost use Rattle.atspi_live_bus.specs.Asked.{telling};
ghost use Rattle.atspi_match.specs.declared.routing.closing.Closing.{Closing};
ghost use Rattle.atspi_match.specs.declared.condition.Condition.{Condition};
ghost use Rattle.atspi_match.specs.routing.Queues.{Bus, takes};
ghost use Rattle.atspi_bus_steps.specs.Spoken.{IsRuleTaken};
ghost use Rattle.atspi_live_bus.specs.Cases.{one_due, one_link, signal_of, two_conns, two_links};
ghost use Rattle.atspi_live_bus.specs.Closes.{AreShut, AreTaken, Ceases, FollowsRead, IsBad, IsLost, IsRest};
ghost use Rattle.atspi_live_bus.specs.Closes.{Parts};
ghost use Rattle.atspi_live_bus.specs.Course.{Course, IsCourse, Steps, start};
ghost use Rattle.atspi_live_bus.specs.Opened.{open_behind};
ghost use Rattle.atspi_live_bus.specs.Rounds.{AreRounds, Breaks, IsRound, IsRun, IsTurn};
ghost use Rattle.atspi_live_bus.specs.Service.{HasSpent, IsSaid, IsStopped};
ghost use Rattle.atspi_live_bus.specs.Stops.{IsFree, IsWant, StopBlames, status_of};
ghost use Rattle.atspi_live_bus.specs.Turns.{StopsAt, Tells};
ghost use Rattle.atspi_live_bus.specs.declared.link.Link.{Link};
ghost use Rattle.atspi_stream.specs.Laws.{HasOneAnswer};
ghost use Rattle.atspi_stream.specs.Stream.{AwaitsMore, BeginsWithMessage, HasFault};

use crate::link::Next;
use crate::stop::Stop;
use atspi_auth::AuthFault;
use atspi_live_host::{Call, Did};

/// What was asked of a bus for a connection is read off the list of calls: the messages of it that were taken, and the
/// bytes that were handed out for it, in order, and of each connection its own.
pub fn asked_for_one()
    ensures nothing { messages_of 1 [] ≡ [] }
    ensures messages { (e f h : Envelope) → messages_of 1 (taking 1 e ∷ taking 2 f ∷ taking 1 h ∷ []) ≡ e ∷ h ∷ [] }
    ensures of_another { (e f : Envelope) → messages_of 2 (taking 1 e ∷ taking 2 f ∷ []) ≡ f ∷ [] }
    ensures no_message { messages_of 1 (joining 1 ∷ popping 1 (codes "ab") ∷ telling ∷ leaving 1 ∷ []) ≡ [] }
    ensures nothing_handed { handed_to 1 [] ≡ [] }
    ensures handed { handed_to 1 (popping 1 (codes "ab") ∷ popping 2 (codes "x") ∷ popping 1 (codes "c") ∷ [])
        ≡ codes "abc" }
    ensures handed_another { handed_to 2 (popping 1 (codes "ab") ∷ popping 2 (codes "x") ∷ []) ≡ codes "x" }
    ensures none_handed { (e : Envelope) → handed_to 1 (joining 1 ∷ taking 1 e ∷ telling ∷ leaving 1 ∷ []) ≡ [] }
{}

/// On a link that has no connection nothing passed.
pub fn no_connection()
    ensures nothing { IsSaid [] None [] [] }
    ensures some { IsSaid [] None (codes "a") [] → ⊥ }
    ensures given { IsSaid [] None [] (codes "a") → ⊥ }
{}

/// The links that are open behind calls, in the order in which they were accepted.
pub fn open_links()
    ensures none { open_behind (Call.Listen (codes "/p") (Did.Done 0) ∷ Call.Accept Did.NotYet ∷ []) ≡ [] }
    ensures accepted { open_behind (Call.Accept (Did.Done 5) ∷ Call.Accept Did.NotYet ∷ Call.Accept (Did.Done 3) ∷ [])
        ≡ 5 ∷ 3 ∷ [] }
    ensures closed { open_behind
        (Call.Accept (Did.Done 3) ∷ Call.Accept (Did.Done 5) ∷ Call.Read 3 [] Did.End ∷ Call.Close 3
        ∷ Call.Accept (Did.Done 7) ∷ []) ≡ 5 ∷ 7 ∷ [] }
{}

/// The links of connections that the bus closed are closed in the order in which it told of them, each if it is open,
/// and no other. Here 3 is the link of connection 0, and 5 that of 1.
pub fn closes()
    ensures its_link { (c : Closing) → c.conn ≡ 1 → AreShut two_conns (3 ∷ 5 ∷ []) (c ∷ []) (Call.Close 5 ∷ []) }
    ensures in_order { (c d : Closing) → c.conn ≡ 1 → d.conn ≡ 0
        → AreShut two_conns (3 ∷ 5 ∷ []) (c ∷ d ∷ []) (Call.Close 5 ∷ Call.Close 3 ∷ []) }
    ensures no_link { (c : Closing) → c.conn ≡ 0 → AreShut two_conns (5 ∷ []) (c ∷ []) [] }
    ensures no_cause { AreShut two_conns (3 ∷ 5 ∷ []) [] (Call.Close 3 ∷ []) → ⊥ }
    ensures not_closed { (c : Closing) → c.conn ≡ 1 → AreShut two_conns (3 ∷ 5 ∷ []) (c ∷ []) [] → ⊥ }
    ensures another { (c : Closing) → c.conn ≡ 1 → AreShut two_conns (3 ∷ 5 ∷ []) (c ∷ []) (Call.Close 3 ∷ []) → ⊥ }
{}

/// A message of link 3 that brings the bus to close connection 1 brings the close of link 5, and of no other, directly
/// behind its read. What ended is closed itself.
pub fn causes()
    ensures by_message { (x y : Course) (e : Envelope) (c : Closing) (t rest : List ℕ) (n : ℕ) → x.conn ≡ two_conns
        → Steps x (taking 0 e) (c ∷ []) y → c.conn ≡ 1 → (IsLost (Did.Done n) t → ⊥)
        → IsRest t (messages_of 0 y.asked) rest → AwaitsMore rest
        → FollowsRead true 3 0 x (3 ∷ 5 ∷ []) (Did.Done n) t (Call.Close 5 ∷ []) y }
    ensures by_end { (y : Course) (c : Closing) (t : List ℕ) → Steps two_links (leaving 0) (c ∷ []) y → c.conn ≡ 1
        → FollowsRead true 3 0 two_links (3 ∷ 5 ∷ []) Did.End t (Call.Close 3 ∷ Call.Close 5 ∷ []) y }
    ensures own_first { (y : Course) (t : List ℕ)
        → FollowsRead true 3 0 two_links (3 ∷ 5 ∷ []) Did.End t (Call.Close 5 ∷ []) y → ⊥ }
{}

/// A link is closed for its next message where that is malformed. One whose next message is whole is not closed for it:
/// the bus has to take it.
pub fn next_messages()
    ensures malformed { (x y : Course) (rest : List ℕ) (place reason : ℕ) (calls : List Call)
        → HasFault rest place reason → Parts true 3 0 x (3 ∷ 5 ∷ []) calls y
        → Ceases true 3 0 x (3 ∷ 5 ∷ []) rest calls y }
    ensures taken { (x y : Course) (rest : List ℕ) (next : BeginsWithMessage rest) (calls : List Call)
        → HasOneAnswer rest → Ceases true 3 0 x (3 ∷ 5 ∷ []) rest calls y → ⊥ }
{}

/// A message that the bus takes brings the closes that its step tells: here of link 3, whose first message is no Hello,
/// and before it of link 5 where that was to be closed.
pub fn steps_that_close()
    ensures own { (path : List ℕ)
        → (y : Course) × AreTaken 3 0 two_links (3 ∷ 5 ∷ []) (signal_of path ∷ []) (Call.Close 3 ∷ []) y }
    ensures another { (path : List ℕ)
        → (y : Course) × AreTaken 3 0 one_due (3 ∷ 5 ∷ []) (signal_of path ∷ []) (Call.Close 5 ∷ Call.Close 3 ∷ []) y }
    ensures not_closed { (path : List ℕ) (y : Course) → AreTaken 3 0 two_links (3 ∷ 5 ∷ []) (signal_of path ∷ []) [] y
        → ⊥ }
{}

/// Why the bus stops: a call of the host that failed, its own last number, or memory. Each has its status.
pub fn causes_of_stops()
    ensures host { IsFree Stop.HostFailed → ⊥ }
    ensures last_number { IsFree Stop.Spent }
    ensures memory { IsFree Stop.NoMemory }
    ensures host_no_want { IsWant Stop.HostFailed → ⊥ }
    ensures number_no_want { IsWant Stop.Spent → ⊥ }
    ensures want { IsWant Stop.NoMemory }
    ensures host_status { status_of Stop.HostFailed ≡ 7 }
    ensures number_status { status_of Stop.Spent ≡ 13 }
    ensures memory_status { status_of Stop.NoMemory ≡ 5 }
{}

/// The count of failed calls goes up by a call that failed, unless it can no more, and else stays.
pub fn blames()
    ensures failed { StopBlames Stop.HostFailed 3 4 }
    ensures at_most { StopBlames Stop.HostFailed 18446744073709551615 18446744073709551615 }
    ensures not_counted { StopBlames Stop.HostFailed 3 3 → ⊥ }
    ensures fewer { StopBlames Stop.HostFailed 18446744073709551615 3 → ⊥ }
    ensures spent { StopBlames Stop.Spent 3 3 }
    ensures spent_counted { StopBlames Stop.Spent 3 4 → ⊥ }
    ensures memory { StopBlames Stop.NoMemory 3 3 }
    ensures memory_counted { StopBlames Stop.NoMemory 3 4 → ⊥ }
{}

/// The calls up to where a bus stopped are those of a bus, and where it stopped for its last number it is spent.
pub fn stopped_buses()
    ensures host { IsStopped Stop.HostFailed [] }
    ensures memory { IsStopped Stop.NoMemory [] }
    ensures last_number { (cs : List Call) → HasSpent cs → IsStopped Stop.Spent cs }
    ensures not_spent { (cs : List Call) → (HasSpent cs → ⊥) → IsStopped Stop.Spent cs → ⊥ }
    ensures host_gave { IsStopped Stop.HostFailed (Call.Write 3 (7 ∷ []) (Did.Done 1) ∷ []) → ⊥ }
    ensures memory_gave { IsStopped Stop.NoMemory (Call.Write 3 (7 ∷ []) (Did.Done 1) ∷ []) → ⊥ }
    ensures at_host { StopsAt Stop.HostFailed start [] }
    ensures at_memory { StopsAt Stop.NoMemory start [] }
    ensures at_last { (x : Course) → IsCourse x [] → Spends x.bus → StopsAt Stop.Spent x [] }
    ensures at_none_last { (x : Course) → (Spends x.bus → ⊥) → StopsAt Stop.Spent x [] → ⊥ }
    ensures other_calls { StopsAt Stop.NoMemory start (Call.Write 3 (7 ∷ []) (Did.Done 1) ∷ []) → ⊥ }
{}

/// The round in which a bus stops is an accept that failed, or one that is broken off, behind which the bus is spent
/// where it stops for that; where memory is wanting it may be one whose link did not join.
pub fn last_rounds()
    ensures host { Breaks Stop.HostFailed start [] (Call.Accept Did.Failed ∷ []) start }
    ensures no_call { Breaks Stop.HostFailed start [] [] start → ⊥ }
    ensures not_failed { Breaks Stop.HostFailed start [] (Call.Accept Did.NotYet ∷ []) start → ⊥ }
    ensures changed { Breaks Stop.HostFailed start [] (Call.Accept Did.Failed ∷ []) one_link → ⊥ }
    ensures spent { (x : Course) → Spends x.bus → Breaks Stop.Spent x [] (Call.Accept Did.NotYet ∷ []) x }
    ensures spent_joined { Spends one_link.bus → Breaks Stop.Spent start [] (Call.Accept (Did.Done 0) ∷ []) one_link }
    ensures not_spent { (x : Course) → (Spends x.bus → ⊥) → Breaks Stop.Spent x [] (Call.Accept Did.NotYet ∷ []) x → ⊥ }
    ensures spent_failed { (y : Course) → Breaks Stop.Spent start [] (Call.Accept Did.Failed ∷ []) y → ⊥ }
    ensures memory { Breaks Stop.NoMemory start [] (Call.Accept Did.NotYet ∷ []) start }
    ensures memory_joined { Breaks Stop.NoMemory start [] (Call.Accept (Did.Done 0) ∷ []) one_link }
    ensures not_joined { Breaks Stop.NoMemory start [] (Call.Accept (Did.Done 3) ∷ []) start }
    ensures memory_failed { (y : Course) → Breaks Stop.NoMemory start [] (Call.Accept Did.Failed ∷ []) y → ⊥ }
{}

/// What a link has next: a message that the bus takes, which is then held no more; none that is whole; or one that is
/// malformed, and then the bus is as it was.
pub fn next_of_links()
    ensures taken { (l m : Link) (b : Bus) (e : Envelope) (rule : Option (List Condition))
        → fault_in l.server.stage ≡ Some AuthFault.NoZero → IsRuleTaken b.state l.conn e rule
        → length m.feeder < length l.feeder
        → Tells Next.Took l m b (takes b l.conn e rule) }
    ensures still_held { (l m : Link) (b d : Bus) → length l.feeder ≡ 3 → length m.feeder ≡ 3 → Tells Next.Took l m b d
        → ⊥ }
    ensures not_whole { (l : Link) (b : Bus) → l.feeder ≡ 108 ∷ [] → Tells Next.NotYet l l b b }
    ensures whole { (l : Link) (b : Bus) → (AwaitsMore l.feeder → ⊥) → Tells Next.NotYet l l b b → ⊥ }
    ensures not_whole_changes { (l : Link) (b d : Bus) → b.quota ≡ 4 → d.quota ≡ 5 → Tells Next.NotYet l l b d → ⊥ }
    ensures malformed { (l m : Link) (b : Bus) (place reason : ℕ) → HasFault l.feeder place reason
        → Tells Next.Bad l m b b }
    ensures good { (l m : Link) (b : Bus) → (IsBad l.feeder → ⊥) → Tells Next.Bad l m b b → ⊥ }
    ensures malformed_changes { (l m : Link) (b d : Bus) → b.quota ≡ 4 → d.quota ≡ 5 → Tells Next.Bad l m b d → ⊥ }
{}

/// A link that sent nothing and did not end is not closed, and no other is for it.
pub fn quiet_links()
    ensures { (y : Course) (calls : List Call) → FollowsRead true 3 0 two_links (3 ∷ 5 ∷ []) Did.NotYet [] calls y
        → calls ≡ [] }
{}

/// The turn of a link has one read. One that has sent nothing and is open has then no write, since a server says
/// nothing first; one that ended is closed, and has none. One that sent what the server does not know is given the line
/// that says so.
pub fn turns()
    ensures quiet { IsTurn one_link (Call.Accept (Did.Done 0) ∷ []) 0 (Call.Read 0 [] Did.NotYet ∷ []) one_link }
    ensures answered { IsTurn one_link (Call.Accept (Did.Done 0) ∷ []) 0
        (Call.Read 0 (0 ∷ codes "X" ++ end_of_line) (Did.Done 4)
        ∷ Call.Write 0 (codes "ERROR" ++ end_of_line) (Did.Done 7) ∷ []) one_link }
    ensures ended { (y : Course)
        × IsTurn one_link (Call.Accept (Did.Done 0) ∷ []) 0 (Call.Read 0 [] Did.End ∷ Call.Close 0 ∷ []) y }
    ensures no_read { (y : Course) → IsTurn one_link (Call.Accept (Did.Done 0) ∷ []) 0 [] y → ⊥ }
    ensures not_closed { (y : Course)
        → IsTurn one_link (Call.Accept (Did.Done 0) ∷ []) 0 (Call.Read 0 [] Did.End ∷ []) y → ⊥ }
    ensures of_another { (y : Course)
        → IsTurn one_link (Call.Accept (Did.Done 0) ∷ []) 0 (Call.Read 1 [] Did.NotYet ∷ []) y → ⊥ }
{}

/// A round is one accept, and then a turn of each link that is open, in the order in which they were accepted.
pub fn rounds()
    ensures no_link { IsRound true start (Call.Listen (codes "/p") (Did.Done 0) ∷ []) (Call.Accept Did.NotYet ∷ [])
        start }
    ensures one_link { IsRound true start [] (Call.Accept (Did.Done 0) ∷ Call.Read 0 [] Did.NotYet ∷ []) one_link }
    ensures two_links { IsRound true two_links (Call.Accept (Did.Done 3) ∷ Call.Accept (Did.Done 5) ∷ [])
        (Call.Accept Did.NotYet ∷ Call.Read 3 [] Did.NotYet ∷ Call.Read 5 [] Did.NotYet ∷ []) two_links }
    ensures no_turn { (y : Course) → IsRound true start [] (Call.Accept (Did.Done 0) ∷ []) y → ⊥ }
    ensures no_accept { (y : Course) → IsRound true start [] [] y → ⊥ }
    ensures two { AreRounds 2 start [] (Call.Accept Did.NotYet ∷ Call.Accept Did.NotYet ∷ []) start }
    ensures only_one { (y : Course) → AreRounds 2 start [] (Call.Accept Did.NotYet ∷ []) y → ⊥ }
{}

/// A run is a listen and then its rounds.
pub fn runs()
    ensures done { IsRun (codes "/p") 8 1 (Call.Listen (codes "/p") (Did.Done 0) ∷ Call.Accept Did.NotYet ∷ []) }
    ensures accept_failed { IsRun (codes "/p") 7 2
        (Call.Listen (codes "/p") (Did.Done 0) ∷ Call.Accept Did.NotYet ∷ Call.Accept Did.Failed ∷ []) }
    ensures not_listened { IsRun (codes "/p") 7 1 (Call.Listen (codes "/p") Did.Failed ∷ []) }
    ensures none_done { IsRun (codes "/p") 8 1 (Call.Listen (codes "/p") (Did.Done 0) ∷ []) → ⊥ }
{}
