//! Which links are open behind calls, and which are closed for what.

ghost use Rattle.std.specs.Prelude.{◌≡◌, ◌∷◌, ◌++◌, ℕ, List, [], codes, true, false};
ghost use Rattle.atspi_message.specs.Bytes.{IsMessage};
ghost use Rattle.atspi_message.specs.Envelope.{Envelope};
ghost use Rattle.atspi_auth.specs.Talk.{behind, server_start};
ghost use Rattle.atspi_live_host.specs.declared.call.Call.{Call};
ghost use Rattle.atspi_live_host.specs.declared.call.Did.{Did};
ghost use Rattle.atspi_stream.specs.Stream.{bytes_of};
ghost use Rattle.atspi_match.specs.declared.routing.closing.Closing.{Closing};
ghost use Rattle.atspi_live_bus.specs.Asked.{leaving, messages_of, taking};
ghost use Rattle.atspi_live_bus.specs.Cases.{two_conns};
ghost use Rattle.atspi_live_bus.specs.Closes.{AreShut, AreTaken, Ceases, FollowsRead, FollowsWrite, IsBad, IsLost};
ghost use Rattle.atspi_live_bus.specs.Closes.{IsRest, Parts};
ghost use Rattle.atspi_live_bus.specs.Course.{Course, Steps};
ghost use Rattle.atspi_live_bus.specs.Opened.{open_from};

use atspi_live_host::{Call, Did};

/// What each call leaves open of links 3 and 5: a link that is given comes behind the others, one that is closed is
/// gone.
pub fn open_behind_calls()
    ensures listen { open_from (3 ∷ 5 ∷ []) (Call.Listen (codes "/p") (Did.Done 7) ∷ []) ≡ 3 ∷ 5 ∷ [] }
    ensures accept { open_from (3 ∷ 5 ∷ []) (Call.Accept (Did.Done 7) ∷ []) ≡ 3 ∷ 5 ∷ 7 ∷ [] }
    ensures none_given { open_from (3 ∷ 5 ∷ []) (Call.Accept Did.NotYet ∷ []) ≡ 3 ∷ 5 ∷ [] }
    ensures ended { open_from (3 ∷ 5 ∷ []) (Call.Accept Did.End ∷ []) ≡ 3 ∷ 5 ∷ [] }
    ensures failed { open_from (3 ∷ 5 ∷ []) (Call.Accept Did.Failed ∷ []) ≡ 3 ∷ 5 ∷ [] }
    ensures connect { open_from (3 ∷ 5 ∷ []) (Call.Connect (codes "/p") (Did.Done 7) ∷ []) ≡ 3 ∷ 5 ∷ 7 ∷ [] }
    ensures read { open_from (3 ∷ 5 ∷ []) (Call.Read 3 (codes "a") (Did.Done 1) ∷ []) ≡ 3 ∷ 5 ∷ [] }
    ensures write { open_from (3 ∷ 5 ∷ []) (Call.Write 3 (codes "a") (Did.Done 1) ∷ []) ≡ 3 ∷ 5 ∷ [] }
    ensures close { open_from (3 ∷ 5 ∷ []) (Call.Close 3 ∷ []) ≡ 5 ∷ [] }
    ensures both { open_from (3 ∷ []) (Call.Accept (Did.Done 5) ∷ Call.Close 3 ∷ []) ≡ 5 ∷ [] }
{}

/// A link is closed once: a second closing of its connection, and one that its leaving brings, close no link. Here 3 is
/// the link of connection 0, and 5 that of 1.
pub fn closed_once()
    ensures twice { (c d : Closing) → c.conn ≡ 1 → d.conn ≡ 1
        → AreShut two_conns (3 ∷ 5 ∷ []) (c ∷ d ∷ []) (Call.Close 5 ∷ []) }
    ensures by_messages { (x m y : Course) (e f : Envelope) (c d : Closing) → x.conn ≡ two_conns → m.conn ≡ two_conns
        → c.conn ≡ 1 → d.conn ≡ 1
        → Steps x (taking 0 e) (c ∷ []) m → Steps m (taking 0 f) (d ∷ []) y
        → AreTaken 3 0 x (3 ∷ 5 ∷ []) (e ∷ f ∷ []) (Call.Close 5 ∷ []) y }
    ensures its_own { (x y : Course) (c : Closing) → x.conn ≡ two_conns → c.conn ≡ 0 → Steps x (leaving 0) (c ∷ []) y
        → Parts true 3 0 x (3 ∷ 5 ∷ []) (Call.Close 3 ∷ []) y }
    ensures of_one_closed { (x y : Course) (e : Envelope) (calls : List Call) → AreTaken 3 0 x (5 ∷ []) (e ∷ []) calls y
        → ⊥ }
{}

/// No message that is taken brings no close, and nothing changes.
pub fn none_taken()
    ensures none { (x : Course) → AreTaken 3 0 x (3 ∷ 5 ∷ []) [] [] x }
    ensures no_call { (x y : Course) (calls : List Call) → AreTaken 3 0 x (3 ∷ 5 ∷ []) [] calls y → calls ≡ [] }
    ensures no_change { (x y : Course) (calls : List Call) → AreTaken 3 0 x (3 ∷ 5 ∷ []) [] calls y → y ≡ x }
{}

/// A link whose close was the last call has its close and nothing else.
pub fn left_in_part()
    ensures closed { (x : Course) → Parts false 3 0 x (3 ∷ 5 ∷ []) (Call.Close 3 ∷ []) x }
    ensures one_call { (x y : Course) (calls : List Call) → Parts false 3 0 x (3 ∷ 5 ∷ []) calls y
        → calls ≡ Call.Close 3 ∷ [] }
    ensures no_change { (x y : Course) (calls : List Call) → Parts false 3 0 x (3 ∷ 5 ∷ []) calls y → y ≡ x }
{}

/// A link is lost that has ended or failed, or whose first byte is not zero.
pub fn lost_links()
    ensures ended { IsLost Did.End [] }
    ensures failed { IsLost Did.Failed [] }
    ensures at_fault { IsLost (Did.Done 1) (97 ∷ []) }
    ensures quiet { IsLost Did.NotYet [] → ⊥ }
{}

/// Of a link that sent one message and bytes behind it, the bytes are what stands behind.
pub fn rests()
    ensures nothing { IsRest [] [] [] }
    ensures one { (t rest bytes : List ℕ) (e : Envelope) → IsMessage e bytes
        → behind server_start t ≡ bytes_of ((e, bytes) ∷ []) ++ rest → IsRest t (e ∷ []) rest }
{}

/// Behind the messages of a link nothing comes where it is closed, nothing where no further message is whole, and its
/// close where the next one is bad.
pub fn what_ceases()
    ensures is_closed { (x : Course) (rest : List ℕ) → Ceases true 3 0 x (5 ∷ []) rest [] x }
    ensures awaits { (x : Course) → Ceases true 3 0 x (3 ∷ 5 ∷ []) (1 ∷ 2 ∷ []) [] x }
    ensures none_of_one_closed { (x y : Course) (rest : List ℕ) (calls : List Call)
        → Ceases true 3 0 x (5 ∷ []) rest calls y → calls ≡ [] }
    ensures same_of_one_closed { (x y : Course) (rest : List ℕ) (calls : List Call)
        → Ceases true 3 0 x (5 ∷ []) rest calls y → y ≡ x }
    ensures stopped { (x : Course) (rest : List ℕ) → Ceases false 3 0 x (3 ∷ 5 ∷ []) rest [] x }
    ensures stopped_behind_close { (x : Course) (rest : List ℕ) → IsBad rest
        → Ceases false 3 0 x (3 ∷ 5 ∷ []) rest (Call.Close 3 ∷ []) x }
    ensures stopped_closed { (x y : Course) (rest : List ℕ) → Ceases false 3 0 x (5 ∷ []) rest (Call.Close 3 ∷ []) y
        → ⊥ }
    ensures stopped_for_nothing { (x y : Course) (rest : List ℕ) → (IsBad rest → ⊥)
        → Ceases false 3 0 x (3 ∷ 5 ∷ []) rest (Call.Close 3 ∷ []) y → ⊥ }
    ensures stopped_same { (x y : Course) (rest : List ℕ) (calls : List Call)
        → Ceases false 3 0 x (3 ∷ 5 ∷ []) rest calls y → y ≡ x }
{}

/// Behind a read the close of its link stands where its first byte was not zero, and nothing where nothing came.
pub fn whole_reads()
    ensures at_fault { (x y : Course) → Steps x (leaving 0) [] y
        → FollowsRead true 0 0 x (0 ∷ 5 ∷ []) (Did.Done 1) (97 ∷ []) (Call.Close 0 ∷ []) y }
    ensures quiet { (x : Course) → messages_of 0 x.asked ≡ [] → FollowsRead true 3 0 x (3 ∷ 5 ∷ []) Did.NotYet [] [] x }
    ensures not_closed { (x y : Course) → FollowsRead true 3 0 x (3 ∷ 5 ∷ []) Did.Failed [] [] y → ⊥ }
{}

/// Where the bus stopped behind a read, none or its own close alone may have come of a link that ended; and none of one
/// that sent nothing yet.
pub fn stopped_reads()
    ensures nothing { (x : Course) (t : List ℕ) → FollowsRead false 3 0 x (3 ∷ 5 ∷ []) Did.End t [] x }
    ensures closed { (x : Course) (t : List ℕ) → FollowsRead false 3 0 x (3 ∷ 5 ∷ []) Did.End t (Call.Close 3 ∷ []) x }
    ensures quiet { (x : Course) → messages_of 0 x.asked ≡ []
        → FollowsRead false 3 0 x (3 ∷ 5 ∷ []) Did.NotYet [] [] x }
    ensures same { (x y : Course) (t : List ℕ) (calls : List Call)
        → FollowsRead false 3 0 x (3 ∷ 5 ∷ []) Did.End t calls y → y ≡ x }
    ensures other { (x y : Course) (t : List ℕ) → FollowsRead false 3 0 x (3 ∷ 5 ∷ []) Did.End t (Call.Close 5 ∷ []) y
        → ⊥ }
{}

/// Behind a write nothing is closed but where it failed: then its link is.
pub fn writes()
    ensures given { (x : Course) → FollowsWrite true 3 0 x (3 ∷ 5 ∷ []) (Did.Done 4) [] x }
    ensures given_no_close { (x y : Course) (calls : List Call)
        → FollowsWrite true 3 0 x (3 ∷ 5 ∷ []) (Did.Done 4) calls y → calls ≡ [] }
    ensures given_same { (x y : Course) (calls : List Call) → FollowsWrite true 3 0 x (3 ∷ 5 ∷ []) (Did.Done 4) calls y
        → y ≡ x }
    ensures waits { (x : Course) → FollowsWrite true 3 0 x (3 ∷ 5 ∷ []) Did.NotYet [] x }
    ensures waits_no_close { (x y : Course) (calls : List Call)
        → FollowsWrite true 3 0 x (3 ∷ 5 ∷ []) Did.NotYet calls y → calls ≡ [] }
    ensures waits_same { (x y : Course) (calls : List Call) → FollowsWrite true 3 0 x (3 ∷ 5 ∷ []) Did.NotYet calls y
        → y ≡ x }
    ensures no_end { (x y : Course) (calls : List Call) → FollowsWrite true 3 0 x (3 ∷ 5 ∷ []) Did.End calls y → ⊥ }
    ensures failed { (x y : Course) → Steps x (leaving 0) [] y
        → FollowsWrite true 3 0 x (3 ∷ 5 ∷ []) Did.Failed (Call.Close 3 ∷ []) y }
    ensures failed_and_stopped { (x : Course) → FollowsWrite false 3 0 x (3 ∷ 5 ∷ []) Did.Failed (Call.Close 3 ∷ []) x }
{}
