//! The order in which an application does lines and takes messages.

ghost use Rattle.std.specs.Prelude.{◌≡◌, ◌∷◌, ℕ, List, [], codes};
ghost use Rattle.std.specs.List.{concat};
ghost use Rattle.atspi_live_host.specs.declared.call.Call.{Call};
ghost use Rattle.atspi_live_host.specs.declared.call.Did.{Did};
ghost use Rattle.atspi_message.specs.Envelope.{Envelope};
ghost use Rattle.atspi_live_app.specs.Asking.{IsAsk};
ghost use Rattle.atspi_live_app.specs.Pace.{Takes, rounds_of};
ghost use Rattle.atspi_live_app.specs.Standing.{does, takes};
ghost use Rattle.atspi_live_app.specs.Turns.{AreWhole, IsInTurn, pieces};
ghost use Rattle.atspi_live_app.specs.declared.asking.Ask.{Ask};

use atspi_live_host::{Call, Did};

/// What each read of a link took, also where it took nothing; writes and other links took none of it.
pub fn pieces_of_reads()
    ensures none { pieces 0 (Call.Connect (codes "/p") (Did.Done 0) ∷ []) ≡ [] }
    ensures some { pieces 0
        (Call.Read 0 (codes "ab") (Did.Done 2) ∷ Call.Write 0 (codes "x") (Did.Done 1) ∷ Call.Read 0 [] Did.NotYet
        ∷ Call.Read 1 (codes "z") (Did.Done 1) ∷ Call.Read 0 (codes "c") (Did.Done 1) ∷ [])
        ≡ codes "ab" ∷ [] ∷ codes "c" ∷ [] }
{}

/// Three lines, of which the second takes two rounds, and a message that is cut over the second and the third read: it
/// is taken before the third line, which stands before the fourth read, and not behind that.
pub fn a_message_over_two_reads()
    ensures between { (app wait name t b c : List ℕ) (e : Envelope) → Takes (app, 1) → Takes (wait, 2) → Takes (name, 1)
        → AreWhole [] (concat (t ∷ [])) → AreWhole (e ∷ []) (concat (t ∷ b ∷ c ∷ []))
        → IsInTurn (t ∷ b ∷ c ∷ [] ∷ []) (does app ∷ does wait ∷ takes e ∷ does name ∷ []) [] }
    ensures not_behind { (app wait name t b c : List ℕ) (e : Envelope)
        → ((what : Ask) → IsAsk what app → rounds_of what ≡ 1) → ((what : Ask) → IsAsk what wait → rounds_of what ≡ 2)
        → (AreWhole [] (concat (t ∷ b ∷ c ∷ [])) → ⊥)
        → IsInTurn (t ∷ b ∷ c ∷ [] ∷ []) (does app ∷ does wait ∷ does name ∷ takes e ∷ []) [] → ⊥ }
{}
