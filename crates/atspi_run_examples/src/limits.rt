//! Limits of the commands that read or draw a script, as numbers: each clause that names one would read the same with
//! any other number. And what a limit says of an input.

ghost use Rattle.std.specs.Prelude.{◌≡◌, ◌∷◌, [], Some, codes, false, true};
ghost use Rattle.atspi_run_check.specs.declared.checking.TheConstants.{CHECK_LIMIT};
ghost use Rattle.atspi_run_replay.specs.declared.input.TheConstants.{SCRIPT_LIMIT};
ghost use Rattle.atspi_run_replay.specs.declared.making.TheConstants.{MAKE_LIMIT, SEED_LIMIT};
ghost use Rattle.atspi_run_replay.specs.Complete.{EndsFullPast};
ghost use Rattle.atspi_run_replay.specs.Run.{OfFront, OfReading, WasRead};

/// A script has at most 16,777,216 bytes; `make` draws at most 20,000 edits, from a seed below 2 to the power of 31;
/// the input of `check` has at most 2 to the power of 30 bytes.
pub fn of_commands()
    ensures script { SCRIPT_LIMIT ≡ 16777216 }
    ensures edits { MAKE_LIMIT ≡ 20000 }
    ensures seeds { SEED_LIMIT ≡ 2147483648 }
    ensures check { CHECK_LIMIT ≡ 1073741824 }
{}

/// What was read is a front of the input, and no longer than the limit; all of it where the input has ended.
pub fn readings()
    ensures front { WasRead 4 false (codes "drain") (codes "drai") }
    ensures past { WasRead 4 false (codes "drain") (codes "drain") → ⊥ }
    ensures whole { WasRead 5 true (codes "drain") (codes "drain") }
    ensures not_whole { WasRead 5 true (codes "drain") (codes "drai") → ⊥ }
    ensures other { WasRead 5 false (codes "drain") (codes "train") → ⊥ }
    ensures lines { OfReading 2 (Some (35 ∷ 10 ∷ codes "frob")) (λ lines. lines ≡ codes "#" ∷ []) }
    ensures behind { OfReading 2 (Some (35 ∷ 10 ∷ codes "frob")) (λ lines. lines ≡ codes "#" ∷ codes "frob" ∷ []) → ⊥ }
    ensures failed { OfFront 2 (Some (codes "ab")) (Some []) (λ lines. lines ≡ []) }
    ensures failed_past { OfFront 1 (Some (codes "ab")) (Some []) (λ lines. lines ≡ []) → ⊥ }
{}

/// Behind the limit nothing is looked at: a text that passes it and has no whole line inside it ends with 8, and not
/// with 0 or 1. Of one inside the limit nothing is said.
pub fn past_the_limit()
    ensures eight { EndsFullPast 3 8 (Some (codes "frob")) }
    ensures not_done { EndsFullPast 3 0 (Some (codes "frob")) → ⊥ }
    ensures not_refused { EndsFullPast 3 1 (Some (codes "frob")) → ⊥ }
    ensures inside { EndsFullPast 4 1 (Some (codes "frob")) }
{}
