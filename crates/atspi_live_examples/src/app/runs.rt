//! How runs of an application on a link were over: their calls, their status, and what was written.

ghost use Rattle.std.specs.Prelude.{◌∷◌, ℕ, [], List, None, Option, Some, codes};
ghost use Rattle.atspi_live_host.specs.declared.call.Call.{Call};
ghost use Rattle.atspi_live_host.specs.declared.call.Did.{Did};
ghost use Rattle.atspi_live_conversation.specs.Speech.{Speaks};
ghost use Rattle.atspi_live_app.specs.Overs.{EndsSo, IsOver};
ghost use Rattle.atspi_live_app.specs.Rounds.{RunsPaced};
ghost use Rattle.atspi_live_app.specs.Runs.{CutsOff, EndsEarly, EndsLate, EndsOn, OverReports, RunEnds, TextEnds};
ghost use Rattle.atspi_live_app.specs.Runs.{WritesRefusal};
ghost use Rattle.atspi_live_app.specs.Standing.{IsAfter};
ghost use Rattle.atspi_live_app.specs.Turns.{InTurn};
ghost use Rattle.atspi_live_app.specs.declared.input.End.TheVariants.{Failed, TooLong, Whole};

use atspi_live_host::{Call, Did};

/// The line of a refusal is written with status 1, or a front of it with 4 or 5.
pub fn runs_reported()
    ensures refusal { WritesRefusal (codes "bc") 1 (Some (codes "a")) (Some (codes "abc")) }
    ensures refusal_cut { WritesRefusal (codes "bc") 4 (Some (codes "a")) (Some (codes "ab")) }
    ensures refusal_wanting { WritesRefusal (codes "bc") 5 (Some (codes "a")) (Some (codes "ab")) }
    ensures other_status { WritesRefusal (codes "bc") 0 (Some (codes "a")) (Some (codes "abc")) → ⊥ }
    ensures other_line { WritesRefusal (codes "bc") 1 (Some (codes "a")) (Some (codes "ac")) → ⊥ }
    ensures other_front { WritesRefusal (codes "bc") 4 (Some (codes "a")) (Some (codes "b")) → ⊥ }
{}

/// An input that was not read to its end ends the run before any call, and so does want of memory.
pub fn runs_cut_off()
    ensures too_long { CutsOff TooLong 8 }
    ensures too_long_other { CutsOff TooLong 3 → ⊥ }
    ensures failed { CutsOff Failed 3 }
    ensures failed_other { CutsOff Failed 8 → ⊥ }
    ensures whole { (status : ℕ) → CutsOff Whole status → ⊥ }
    ensures early { EndsEarly (Some (codes "ab")) (Some (codes "b")) 3 4 [] 3 (Some []) (Some []) (Some (codes "a"))
        (Some (codes "a")) }
    ensures wanting { EndsEarly (Some (codes "ab")) (Some []) 3 3 [] 5 (Some []) (Some []) (Some (codes "a"))
        (Some (codes "a")) }
    ensures wanting_rose { EndsEarly (Some (codes "ab")) (Some []) 3 4 [] 5 None None None None → ⊥ }
    ensures not_blamed { EndsEarly (Some (codes "ab")) (Some (codes "b")) 3 3 [] 3 None None None None → ⊥ }
    ensures other_status { EndsEarly (Some (codes "ab")) (Some (codes "b")) 3 4 [] 8 None None None None → ⊥ }
    ensures a_link { EndsEarly None None 3 3 (0 ∷ []) 5 None None None None → ⊥ }
    ensures a_call { EndsEarly None None 3 3 [] 5 (Some []) (Some (Call.Close 0 ∷ [])) None None → ⊥ }
    ensures wrote { EndsEarly None None 3 3 [] 5 None None (Some []) (Some (codes "a")) → ⊥ }
    ensures late { EndsLate (codes "/p") (Some (codes "x")) (Some []) 3 3 [] 7 5 None (Some (codes "a"))
        (Some (codes "a")) }
    ensures late_unread { EndsLate (codes "/p") (Some (codes "xy")) (Some (codes "y")) 3 3 [] 7 5 None None None → ⊥ }
    ensures late_rose { EndsLate (codes "/p") None None 3 4 [] 7 5 None None None → ⊥ }
    ensures late_other { EndsLate (codes "/p") None None 3 3 [] 8 5 None None None → ⊥ }
    ensures late_on_link { (calls : Option (List Call))
        → EndsOn (codes "x" ∷ []) (codes "/p") 1 7 5 calls (Some (codes "a")) (Some (codes "ab"))
        → EndsLate (codes "/p") (Some (codes "x")) (Some []) 3 3 (1 ∷ []) 7 5 calls (Some (codes "a"))
        (Some (codes "ab")) }
    ensures is_early { RunEnds (codes "/p") None None 3 3 [] 5 5 None None None None }
    ensures is_late { RunEnds (codes "/p") None None 3 3 [] 7 5 None None None None }
    ensures is_cut_off { RunEnds (codes "/p") (Some (codes "ab")) (Some (codes "b")) 3 4 [] 3 5 None None
        (Some (codes "a")) (Some (codes "a")) }
    ensures is_on_link { (calls : Option (List Call))
        → EndsOn (codes "x" ∷ []) (codes "/p") 1 7 5 calls (Some (codes "a")) (Some (codes "ab"))
        → RunEnds (codes "/p") (Some (codes "x")) (Some []) 3 3 (1 ∷ []) 7 5 None calls (Some (codes "a"))
        (Some (codes "ab")) }
    ensures is_early_wrote { RunEnds (codes "/p") None None 3 3 [] 5 5 None None (Some []) (Some (codes "a")) → ⊥ }
    ensures is_late_rose { RunEnds (codes "/p") None None 3 4 [] 7 5 None None None None → ⊥ }
    ensures is_neither { RunEnds (codes "/p") None None 3 3 [] 1 5 None None None None → ⊥ }
{}

/// On the one link that was connected, the calls are rounds, with the lines done before the reads of theirs. Where
/// there is no link, nothing is written.
pub fn runs_on_links()
    ensures ended { (lines : List (List ℕ)) (over : _) (calls : List Call)
        → IsOver (InTurn 1 (Some (Call.Connect (codes "/p") (Did.Done 1) ∷ calls))) lines 1 over 5
        (Some (Call.Connect (codes "/p") (Did.Done 1) ∷ calls)) → RunsPaced lines 1 over 5 calls
        → OverReports over 7 (Some (codes "a")) (Some (codes "ab"))
        → EndsOn lines (codes "/p") 1 7 5 (Some (Call.Connect (codes "/p") (Did.Done 1) ∷ calls)) (Some (codes "a"))
        (Some (codes "ab")) }
    ensures over_said { (lines : List (List ℕ)) (over : _) (calls : Option (List Call))
        → IsOver (InTurn 1 calls) lines 1 over 5 calls → Speaks (IsAfter (InTurn 1 calls) lines) 1 calls }
    ensures over_so { (lines : List (List ℕ)) (over : _) (calls : Option (List Call))
        → IsOver (InTurn 1 calls) lines 1 over 5 calls → EndsSo (InTurn 1 calls) lines 1 over 5 calls }
    ensures not_connected { EndsOn [] (codes "/p") 0 7 1 (Some (Call.Read 0 [] Did.Failed ∷ [])) (Some []) (Some [])
        → ⊥ }
    ensures other_path { EndsOn [] (codes "/q") 0 7 1 (Some (Call.Connect (codes "/p") (Did.Done 0) ∷ [])) (Some [])
        (Some []) → ⊥ }
    ensures other_link { EndsOn [] (codes "/p") 1 7 1 (Some (Call.Connect (codes "/p") (Did.Done 0) ∷ [])) (Some [])
        (Some []) → ⊥ }
    ensures one_link { (lines : List (List ℕ)) (calls : Option (List Call))
        → EndsOn lines (codes "/p") 1 7 5 calls (Some (codes "a")) (Some (codes "ab"))
        → TextEnds lines (codes "/p") (1 ∷ []) 7 5 calls (Some (codes "a")) (Some (codes "ab")) }
    ensures two_links { TextEnds [] (codes "/p") (0 ∷ 1 ∷ []) 13 5 None None None → ⊥ }
    ensures no_link { TextEnds [] (codes "/p") [] 7 5 None (Some (codes "a")) (Some (codes "a")) }
    ensures no_link_other { TextEnds [] (codes "/p") [] 13 5 None None None → ⊥ }
    ensures no_link_wrote { TextEnds [] (codes "/p") [] 7 5 None (Some []) (Some (codes "a")) → ⊥ }
{}
