//! A bus in its course.

ghost use Rattle.std.specs.Prelude.{◌≡◌, ◌∷◌, ◌++◌, ℕ, List, [], None, Some, codes};
ghost use Rattle.atspi_message.specs.Envelope.{Envelope};
ghost use Rattle.atspi_live_host.specs.declared.call.Call.{Call};
ghost use Rattle.atspi_live_host.specs.declared.call.Did.{Did};
ghost use Rattle.atspi_match.specs.declared.routing.closing.Closing.{Closing};
ghost use Rattle.atspi_match.specs.routing.Queues.{Bus};
ghost use Rattle.atspi_live_bus.specs.Asked.{Asked, Leads, joining, leaving, popping, taking, telling};
ghost use Rattle.atspi_live_bus.specs.Cases.{one_link, two_links};
ghost use Rattle.atspi_live_bus.specs.Course.{Accepts, AreHandings, AreTellings, Course, HandsOut, IsCourse, IsHanding};
ghost use Rattle.atspi_live_bus.specs.Course.{IsTelling, Steps, start, told_all};
ghost use Rattle.atspi_live_bus.specs.Service.{IsService};

use atspi_live_host::{Call, Did};

/// A bus begins with a quota of 16,777,216 bytes, with nothing asked and no link.
pub fn begun()
    ensures nothing { start.asked ≡ [] }
    ensures quota { start.bus.quota ≡ 16777216 }
    ensures no_link { (k : ℕ) → start.conn k ≡ None }
    ensures served { (cs : List Call) (s : IsService cs) → s.asked ≡ [] → s.bus ≡ start.bus }
{}

/// The calls of a host are those of a bus: nothing passes on a link without a connection, no two links have one
/// connection, and the bus is where what was asked leads.
pub fn calls_of_a_course()
    ensures quiet { IsCourse start (Call.Listen (codes "/p") (Did.Done 0) ∷ Call.Accept Did.NotYet ∷ []) }
    ensures taken { IsCourse start (Call.Read 3 (97 ∷ []) (Did.Done 1) ∷ []) → ⊥ }
    ensures given { IsCourse start (Call.Write 3 (97 ∷ []) (Did.Done 1) ∷ []) → ⊥ }
    ensures shared { (x : Course) (cs : List Call) → x.conn 3 ≡ Some 0 → x.conn 5 ≡ Some 0 → IsCourse x cs → ⊥ }
    ensures led { (b : Bus) (cs : List Call) → IsCourse (record start { bus = b }) cs → b ≡ start.bus }
{}

/// A link that is given joins as a connection that no link had; without one nothing changes.
pub fn accepts()
    ensures joined { Accepts (Did.Done 0) start one_link }
    ensures used { (y : Course) → y.asked ≡ two_links.asked ++ joining 0 ∷ [] → Accepts (Did.Done 7) two_links y → ⊥ }
    ensures of_another { (y : Course) → y.conn 3 ≡ None → Accepts (Did.Done 7) two_links y → ⊥ }
    ensures none_given { (y : Course) → Accepts Did.NotYet start y → y ≡ start }
    ensures ended { (y : Course) → Accepts Did.End start y → ⊥ }
    ensures failed { (y : Course) → Accepts Did.Failed start y → ⊥ }
{}

/// What asks for what the bus has to tell, and what takes the bytes of one connection.
pub fn kinds_of_asking()
    ensures none { AreTellings [] }
    ensures tells { AreTellings (telling ∷ telling ∷ []) }
    ensures joins_behind { AreTellings (telling ∷ joining 0 ∷ []) → ⊥ }
    ensures takes { (e : Envelope) → IsTelling (taking 0 e) → ⊥ }
    ensures leaves { IsTelling (leaving 0) → ⊥ }
    ensures pops { IsTelling (popping 0 []) → ⊥ }
    ensures none_handed { AreHandings 1 [] }
    ensures handed { AreHandings 1 (popping 1 (7 ∷ []) ∷ popping 1 [] ∷ []) }
    ensures to_another { AreHandings 1 (popping 1 [] ∷ popping 2 [] ∷ []) → ⊥ }
    ensures joined { IsHanding 1 (joining 1) → ⊥ }
    ensures taken { (e : Envelope) → IsHanding 1 (taking 1 e) → ⊥ }
    ensures left { IsHanding 1 (leaving 1) → ⊥ }
    ensures told { IsHanding 1 telling → ⊥ }
{}

/// A step is one thing that the bus did, behind which it told all; bytes that are handed out change no link's
/// connection.
pub fn steps_of_a_course()
    ensures one { (x : Course) (b : Bus) (tells : List Asked) → Leads x.bus (leaving 0) b → AreTellings tells
        → Steps x (leaving 0) b.closings (record x { asked = x.asked ++ leaving 0 ∷ tells; bus = told_all b }) }
    ensures told { (b : Bus) (own : List Envelope) (closings : List Closing)
        → told_all (record b { own = own; closings = closings }) ≡ record b { own = []; closings = [] } }
    ensures handed { (x : Course) (b : Bus) → Leads x.bus (popping 0 (7 ∷ [])) b
        → HandsOut 0 x (record x { asked = x.asked ++ popping 0 (7 ∷ []) ∷ []; bus = b }) }
    ensures none_handed { (x : Course) → HandsOut 0 x x }
{}
