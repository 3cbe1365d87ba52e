//! What was read of an input, and which lines of it are still to come.

ghost use Rattle.std.specs.Prelude.{◌≡◌, ◌<◌, ◌∷◌, ◌++◌, ℕ, [], List, None, Some, Ok, Err, codes, length};
ghost use Rattle.atspi_base.specs.declared.outside.NoMemory.{NoMemory};
ghost use Rattle.atspi_live_app.specs.Input.{BlamesEnd, HasRead, left_in};
ghost use Rattle.atspi_live_app.specs.inner.Input.{Blames, NextAsk, Passes};
ghost use Rattle.atspi_live_app.specs.declared.asking.Ask.TheVariants as asks;
ghost use Rattle.atspi_live_app.specs.declared.input.End.TheVariants.{Failed, TooLong, Whole};
ghost use Rattle.atspi_live_app.specs.declared.input.TheConstants.{INPUT_LIMIT};

/// All of a source was read, or what stood before its failure; or as much as an input may be, and more came.
pub fn inputs_read()
    ensures whole { HasRead Whole (Some (codes "ab")) (Some []) (codes "ab") }
    ensures left { HasRead Whole (Some (codes "ab")) (Some (codes "b")) (codes "a") → ⊥ }
    ensures other { HasRead Whole (Some (codes "ab")) (Some []) (codes "bb") → ⊥ }
    ensures failed { HasRead Failed (Some (codes "ab")) (Some (codes "b")) (codes "a") }
    ensures failed_other { HasRead Failed (Some (codes "ab")) (Some (codes "b")) (codes "b") → ⊥ }
    ensures too_long { (text more left : List ℕ) → length text ≡ INPUT_LIMIT → 0 < length more
        → HasRead TooLong (Some ((text ++ more) ++ left)) (Some left) text }
    ensures too_short { HasRead TooLong (Some (codes "ab")) (Some []) (codes "a") → ⊥ }
    ensures no_more { (text : List ℕ) → HasRead TooLong (Some text) (Some []) text → ⊥ }
{}

/// An input has at most 16,777,216 bytes; another limit would leave each clause that names it as it reads.
pub fn the_limit_of_an_input()
    ensures { INPUT_LIMIT ≡ 16777216 }
{}

/// The count of a source rises where it failed, and not for want of memory.
pub fn sources_blamed()
    ensures failed { BlamesEnd 3 4 Failed }
    ensures failed_same { BlamesEnd 3 3 Failed → ⊥ }
    ensures whole { BlamesEnd 3 3 Whole }
    ensures whole_rose { BlamesEnd 3 4 Whole → ⊥ }
    ensures too_long_rose { BlamesEnd 3 4 TooLong → ⊥ }
    ensures read { Blames (Ok Failed) 3 4 }
    ensures wanting { (e : NoMemory) → Blames (Err e) 3 3 }
    ensures wanting_rose { (e : NoMemory) → Blames (Err e) 3 4 → ⊥ }
{}

/// The next line is passed, and counted as far as 64 bits go; behind the last there is none, and all stays as it is.
pub fn lines_passed()
    ensures left { left_in (codes "a" ++ 10 ∷ codes "b") 2 ≡ codes "b" ∷ [] }
    ensures passed { Passes (Ok asks.Nothing) (10 ∷ codes "x") 0 3 1 4 }
    ensures not_counted { Passes (Ok asks.Nothing) (10 ∷ codes "x") 0 3 1 3 → ⊥ }
    ensures last_count { Passes (Ok asks.Nothing) (10 ∷ codes "x") 0 18446744073709551614 1 18446744073709551614 → ⊥ }
    ensures past_counts { Passes (Ok asks.Nothing) (10 ∷ codes "x") 0 18446744073709551615 1 18446744073709551615 }
    ensures other_place { Passes (Ok asks.Nothing) (10 ∷ codes "x") 0 3 2 4 → ⊥ }
    ensures other_line { Passes (Ok (asks.Wait 2)) (10 ∷ codes "x") 0 3 1 4 → ⊥ }
    ensures next { NextAsk (Some (Ok asks.Nothing)) (10 ∷ codes "x") 0 3 (10 ∷ codes "x") 1 4 }
    ensures next_stays { NextAsk (Some (Ok asks.Nothing)) (10 ∷ codes "x") 0 3 (10 ∷ codes "x") 0 3 → ⊥ }
    ensures last { NextAsk None (codes "x") 1 3 (codes "x") 1 3 }
    ensures last_moved { NextAsk None (codes "x") 1 3 (codes "x") 2 3 → ⊥ }
    ensures last_counted { NextAsk None (codes "x") 1 3 (codes "x") 1 4 → ⊥ }
    ensures last_other { NextAsk None (codes "x") 1 3 (codes "y") 1 3 → ⊥ }
    ensures one_left { NextAsk None (codes "x") 0 3 (codes "x") 0 3 → ⊥ }
{}
