//! The words of the lines that `hit` has beside those of a script, and the numbers that they can have.

ghost use Rattle.std.specs.Prelude.{◌≡◌, ◌∷◌, [], codes, pos, negsuc};
ghost use Rattle.atspi_script_lines.specs.Words.{literal, number};
ghost use Rattle.atspi_tree_model.specs.declared.edit.Edit.TheVariants as edits;
ghost use Rattle.atspi_hit.specs.declared.cells.Way.TheVariants as ways;
ghost use Rattle.atspi_hit_answers.specs.declared.ask.Ask.TheVariants as asks;
ghost use Rattle.atspi_run_hit.specs.Words.{AreOwn, IsAsk, IsPoint, IsRect, SpellsLine};
ghost use Rattle.atspi_run_hit.specs.Words.{ask_words, cell_words, follow_words, place_words, signed, way_word};
ghost use Rattle.atspi_run_hit.specs.declared.line.HitLine.TheVariants as lines;
ghost use Rattle.atspi_run_hit.specs.declared.line.TheConstants.{CORNER_LIMIT, SIZE_LIMIT};
ghost use Rattle.atspi_run_hit_examples.specs.Room.{rect};

/// A number below 0 has a minus in front, and no other has a sign.
pub fn numbers()
    ensures zero { signed (pos 0) ≡ literal (codes "0") }
    ensures positive { signed (pos 25) ≡ literal (codes "25") }
    ensures negative { signed (negsuc 0) ≡ literal (codes "-1") }
    ensures least { signed (negsuc 2147483647) ≡ literal (codes "-2147483648") }
{}

/// The words of each line.
pub fn ways()
    ensures place { place_words 7 (rect (pos 1) (negsuc 1) 3 4)
        ≡ literal (codes "place") ∷ number 7 ∷ literal (codes "1") ∷ literal (codes "-2") ∷ number 3 ∷ number 4 ∷ [] }
    ensures inside { ask_words 7 (asks.Contains (pos 1) (negsuc 1))
        ≡ literal (codes "inside") ∷ number 7 ∷ literal (codes "1") ∷ literal (codes "-2") ∷ [] }
    ensures point { ask_words 7 (asks.AccessibleAtPoint (pos 1) (negsuc 1))
        ≡ literal (codes "point") ∷ number 7 ∷ literal (codes "1") ∷ literal (codes "-2") ∷ [] }
    ensures extents { ask_words 7 asks.Extents ≡ literal (codes "extents") ∷ number 7 ∷ [] }
    ensures cell { cell_words 7 8 ways.Up
        ≡ literal (codes "cell") ∷ number 7 ∷ number 8 ∷ literal (codes "up") ∷ [] }
    ensures down { way_word ways.Down ≡ codes "down" }
    ensures left { way_word ways.Left ≡ codes "left" }
    ensures right { way_word ways.Right ≡ codes "right" }
    ensures follow { follow_words 7 8 ≡ literal (codes "follow") ∷ number 7 ∷ number 8 ∷ [] }
{}

/// A point has coordinates of 32 bits; a rectangle keeps within its limits.
pub fn limits()
    ensures corner_limit { CORNER_LIMIT ≡ 1000000 }
    ensures size_limit { SIZE_LIMIT ≡ 1000000 }
    ensures point { IsPoint (pos 2147483647) (negsuc 2147483647) }
    ensures far_point { IsPoint (pos 2147483648) (pos 0) → ⊥ }
    ensures low_point { IsPoint (pos 0) (negsuc 2147483648) → ⊥ }
    ensures asked { IsAsk (asks.Contains (pos 2147483648) (pos 0)) → ⊥ }
    ensures asked_at { IsAsk (asks.AccessibleAtPoint (pos 0) (pos 2147483648)) → ⊥ }
    ensures largest { IsRect (rect (pos 1000000) (negsuc 999999) 1000000 1000000) }
    ensures far_right { IsRect (rect (pos 1000001) (pos 0) 0 0) → ⊥ }
    ensures far_up { IsRect (rect (pos 0) (negsuc 1000000) 0 0) → ⊥ }
    ensures wide { IsRect (rect (pos 0) (pos 0) 1000001 0) → ⊥ }
    ensures high { IsRect (rect (pos 0) (pos 0) 0 1000001) → ⊥ }
{}

/// Lines of its own by their words; an empty line and a comment as in a script.
pub fn spelled()
    ensures extents { AreOwn (lines.Call 7 asks.Extents) (codes "extents 7") }
    ensures nothing { SpellsLine lines.Nothing [] }
    ensures comment { SpellsLine lines.Nothing (codes "# x") }
    ensures no_own { AreOwn lines.Nothing [] → ⊥ }
    ensures no_own_edit { AreOwn (lines.Edit (edits.Remove 1)) (codes "remove 1") → ⊥ }
{}
