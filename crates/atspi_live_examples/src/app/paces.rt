//! The rounds that the lines of an input take.

ghost use Rattle.std.specs.Prelude.{◌≡◌, ◌∷◌, ℕ, List, [], codes};
ghost use Rattle.atspi_live_app.specs.Asking.{IsAsk};
ghost use Rattle.atspi_live_app.specs.Pace.{IsPaced, StopsAt, Takes, rounds_of, total};
ghost use Rattle.atspi_live_app.specs.declared.asking.Ask.{Ask};
ghost use Rattle.atspi_live_app.specs.declared.asking.Ask.TheVariants as asks;

/// `wait 2` takes two rounds, `wait 0` one, and so does an empty line.
pub fn rounds_of_lines()
    ensures two { rounds_of (asks.Wait 2) ≡ 2 }
    ensures zero { rounds_of (asks.Wait 0) ≡ 1 }
    ensures empty { rounds_of asks.Nothing ≡ 1 }
    ensures waits { Takes (codes "wait 2", 2) }
    ensures waits_one { Takes (codes "wait 0", 1) }
    ensures blank { Takes (codes "", 1) }
    ensures all { total ((codes "", 1) ∷ (codes "wait 2", 2) ∷ (codes "", 1) ∷ []) ≡ 4 }
{}

/// Of three lines the first takes one round and the second two. The first stands before the first round and the second
/// before the second one; the third stands before the fourth, so it was not done where three have begun, and was where
/// four have.
pub fn pace_of_lines()
    ensures none_begun { (app wait name : List ℕ) → IsPaced (app ∷ wait ∷ name ∷ []) 0 }
    ensures three_begun { (app wait name : List ℕ) → Takes (app, 1) → Takes (wait, 2)
        → IsPaced (app ∷ wait ∷ name ∷ []) 3 }
    ensures four_begun { (app wait name : List ℕ) → Takes (app, 1) → Takes (wait, 2) → Takes (name, 1)
        → IsPaced (app ∷ wait ∷ name ∷ []) 4 }
    ensures third_left { (app wait name : List ℕ) → ((what : Ask) → IsAsk what app → rounds_of what ≡ 1)
        → ((what : Ask) → IsAsk what wait → rounds_of what ≡ 2)
        → (p : IsPaced (app ∷ wait ∷ name ∷ []) 3) → p.left ≡ name ∷ [] }
{}

/// The third of these lines can stop a run behind three whole rounds, and behind no other number of them. Behind lines
/// of which none asks for an application a run stops in the round behind those that they take.
pub fn stops_of_lines()
    ensures behind_three { (app wait bad : List ℕ) → Takes (app, 1) → Takes (wait, 2)
        → StopsAt (app ∷ wait ∷ bad ∷ []) 3 }
    ensures not_behind_two { (app wait bad : List ℕ) → ((what : Ask) → IsAsk what app → rounds_of what ≡ 1)
        → ((what : Ask) → IsAsk what wait → rounds_of what ≡ 2)
        → StopsAt (app ∷ wait ∷ bad ∷ []) 2 → ⊥ }
    ensures first { (bad : List ℕ) → StopsAt (bad ∷ []) 0 }
    ensures none_asks { (blank : List ℕ) → Takes (blank, 1) → StopsAt (blank ∷ []) 1 }
{}
