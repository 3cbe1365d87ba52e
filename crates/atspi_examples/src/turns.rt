//! What waits for ends, first on their up links and then on their down links, and how many bytes an end is given.

ghost use Rattle.std.specs.Prelude.{◌≡◌, ℕ, List, ◌∷◌, [], length, None, Some};
ghost use Rattle.atspi_match.specs.routing.Queues.{Bus};
ghost use Rattle.atspi_stream.specs.Stream.{stated};
ghost use Rattle.atspi_trace.specs.World.{Letter};
ghost use Rattle.atspi_world_moves.specs.Downs.{IsBegun};
ghost use Rattle.atspi_world_moves.specs.Filled.{waits_for};
ghost use Rattle.atspi_world_moves.specs.inner.Filled.{IsAwaited};
ghost use Rattle.atspi_world_moves.specs.Waits.{first_down, first_up, up_turn};
ghost use Rattle.atspi_examples.specs.Turning.{IsLong, IsStill, post};

use atspi_world_links::Standing;
use atspi_world_moves::Turn;

/// On an up link a message waits, or that the end stopped; for one that left nothing does. The first in order of
/// joining is told.
pub fn up()
    ensures here { up_turn 3 (post Standing.Here (7 ∷ [])) ≡ Some (Turn.Route 3) }
    ensures nothing { up_turn 3 (post Standing.Here []) ≡ None }
    ensures stopped { up_turn 3 (post Standing.Stopped []) ≡ Some (Turn.Part 3) }
    ensures away { up_turn 3 (post Standing.Away (7 ∷ [])) ≡ None }
    ensures first { first_up 0 (post Standing.Here [] ∷ post Standing.Stopped [] ∷ post Standing.Here (7 ∷ []) ∷ [])
        ≡ Some (Turn.Part 1) }
    ensures none { first_up 0 (post Standing.Here [] ∷ post Standing.Away [] ∷ []) ≡ None }
{}

/// On a down link bytes wait in the bus, or were given of a message that is not whole; for one that stopped or left
/// nothing does.
pub fn down()
    ensures given { (b : Bus) → IsStill b
        → first_down b ([] ∷ (7 ∷ []) ∷ []) 0 (post Standing.Here [] ∷ post Standing.Here [] ∷ []) ≡ Some (Turn.Get 1) }
    ensures still { (b : Bus) → IsStill b
        → first_down b ([] ∷ [] ∷ []) 0 (post Standing.Here [] ∷ post Standing.Here [] ∷ []) ≡ None }
    ensures stopped { (b : Bus)
        → first_down b ((7 ∷ []) ∷ (7 ∷ []) ∷ []) 0 (post Standing.Stopped [] ∷ post Standing.Away [] ∷ []) ≡ None }
    ensures first { (b : Bus) → IsStill b
        → first_down b ((7 ∷ []) ∷ (7 ∷ []) ∷ []) 0 (post Standing.Here [] ∷ post Standing.Here [] ∷ [])
        ≡ Some (Turn.Get 0) }
    ensures waiting { (b : Bus) → waits_for b 0 ≡ 7 ∷ []
        → first_down b ([] ∷ []) 0 (post Standing.Here [] ∷ []) ≡ Some (Turn.Get 0) }
{}

/// Of a message of 20 bytes at most 19 were moved; where no message is, none was.
pub fn begun()
    ensures empty { IsBegun 0 [] }
    ensures none { IsBegun 1 [] → ⊥ }
    ensures last { (letter : Letter) → IsLong 20 letter → IsBegun 19 (letter ∷ []) }
    ensures whole { (letter : Letter) → IsLong 20 letter → IsBegun 20 (letter ∷ []) → ⊥ }
{}

/// A link awaits what the first 16 bytes lack, and then what the message lacks whose length they state.
pub fn awaited()
    ensures front { IsAwaited [] 16 }
    ensures beyond { IsAwaited [] 17 → ⊥ }
    ensures rest { (given : List ℕ) → length given ≡ 15 → IsAwaited given 1 }
    ensures past { (given : List ℕ) → length given ≡ 15 → IsAwaited given 2 → ⊥ }
    ensures message { (given : List ℕ) → length given ≡ 16 → stated given ≡ 40 → IsAwaited given 24 }
    ensures behind { (given : List ℕ) → length given ≡ 16 → stated given ≡ 40 → IsAwaited given 25 → ⊥ }
    ensures nothing { (given : List ℕ) → length given ≡ 41 → stated given ≡ 40 → IsAwaited given 0 }
{}
