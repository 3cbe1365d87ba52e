//! A law of the list of patterns.

ghost use Rattle.std.specs.Prelude.{◌≡◌, ℕ, List, filter, not};
ghost use Rattle.atspi_protocol.specs.exporting.Hearing.{is_pair, one_less};

/// One pair less is the list without the pairs that are this one, where it is not heard too.
pub fn one_less_is_filtered()
    ensures { (heard : List (List ℕ × List ℕ)) (p : List ℕ × List ℕ)
        → (one_less heard p).heard ≡ filter (λ q. not (is_pair p q)) heard }
{}
