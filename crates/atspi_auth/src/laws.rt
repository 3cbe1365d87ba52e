//! Laws of the conversation. Each is the contract of a function that does nothing.

ghost use Rattle.std.specs.Prelude.{◌≡◌, ◌<◌, ◌++◌, ◌↔◌, ℕ, List, [], None, flat_map, fold, length};
ghost use Rattle.std.specs.List.{AllByRecursion};
ghost use Rattle.atspi_auth.specs.Lines.{HasNoEnd, end_of_line, joined, lines_of};
ghost use Rattle.atspi_auth.specs.Talk.{Standing, after, behind, client_start, fault_in, server_start, told};
ghost use Rattle.atspi_auth.specs.declared.fault.AuthFault.{AuthFault};
ghost use Rattle.atspi_auth.specs.declared.stage.Stage.TheVariants.{Failed, Over};

/// Bytes that come in two pieces bring what they bring at once, and so do bytes in any pieces: the lines said, where
/// the end then stands, and which bytes stand behind the last line are a function of all bytes, however they were cut.
pub fn any_cut()
    ensures after { (now : Standing) (a b : List ℕ) → after (after now a) b ≡ after now (a ++ b) }
    ensures behind { (now : Standing) (a b : List ℕ) → behind now (a ++ b) ≡ behind now a ++ behind (after now a) b }
    ensures server { (pieces : List (List ℕ))
        → fold after server_start pieces ≡ after server_start (flat_map (λ p. p) pieces) }
    ensures client { (pieces : List (List ℕ))
        → fold after client_start pieces ≡ after client_start (flat_map (λ p. p) pieces) }
{}

/// After a fault the same fault stands and nothing more is said, and after the last line all bytes stand behind it.
pub fn no_way_back()
    ensures fault { (now : Standing) (bytes : List ℕ) (fault : AuthFault) → now.stage ≡ Failed fault
        → (after now bytes).stage ≡ Failed fault × ((told now bytes).said ≡ []) }
    ensures over { (now : Standing) (bytes : List ℕ) → now.stage ≡ Over → now.line ≡ []
        → (after now bytes).stage ≡ Over × ((told now bytes).said ≡ []) × (behind now bytes ≡ bytes) }
{}

/// Bytes stand behind the lines only once these are over, and so none do where the lines are at fault.
pub fn nothing_behind_a_fault()
    ensures over { (now : Standing) (bytes : List ℕ) → ((after now bytes).stage ≡ Over → ⊥) → behind now bytes ≡ [] }
    ensures fault { (now : Standing) (bytes : List ℕ) → (fault_in (after now bytes).stage ≡ None → ⊥)
        → behind now bytes ≡ [] }
{}

/// Less than one line is held.
pub fn one_line()
    ensures { (now : Standing) (bytes : List ℕ) → length (after now bytes).line < 16384 }
{}

/// The lines of some bytes are the one way to part them at each CR LF.
pub fn lines_are_unique()
    ensures joined { (bytes : List ℕ) → joined (lines_of bytes).whole (lines_of bytes).rest ≡ bytes }
    ensures whole { (bytes : List ℕ) → AllByRecursion HasNoEnd (lines_of bytes).whole }
    ensures rest { (bytes : List ℕ) → HasNoEnd (lines_of bytes).rest }
    ensures only { (lines : List (List ℕ)) (rest : List ℕ) → AllByRecursion HasNoEnd lines → HasNoEnd rest
        → lines_of (joined lines rest) ≡ record { whole = lines; rest = rest } }
    ensures no_end { (bytes : List ℕ) → HasNoEnd bytes
        ↔ ((front back : List ℕ) → bytes ≡ front ++ (end_of_line ++ back) → ⊥) }
{}
