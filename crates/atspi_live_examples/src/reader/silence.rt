//! What a reader writes whose peer does not authenticate.

ghost use Rattle.std.specs.Prelude.{◌≡◌, ℕ, List, [], Option, Some, codes};
ghost use Rattle.atspi_live_host.specs.declared.call.Call.{Call};
ghost use Rattle.atspi_live_conversation.specs.declared.ending.Ending.{Ending};
ghost use Rattle.atspi_live_reader.specs.Runs.{AreLast, ReportsLast};

/// Nothing was written before, and nothing is then.
pub fn silent_ends()
    ensures before { (k : ℕ) (calls : Option (List Call)) (words : List ℕ)
        → AreLast k calls [] words Ending.NotAuthenticated }
    ensures no_line { (k : ℕ) (calls : Option (List Call)) (words : List ℕ)
        → AreLast k calls (codes "say") words Ending.NotAuthenticated → ⊥ }
    ensures status { (words : List ℕ) → ReportsLast words Ending.NotAuthenticated 10 (Some []) (Some []) }
    ensures no_word { (words : List ℕ) → ReportsLast words Ending.NotAuthenticated 10 (Some []) (Some (codes "say"))
        → ⊥ }
{}
