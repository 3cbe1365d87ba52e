//! The script of `make`: which line is the next one, in each case of its definition.

ghost use Rattle.std.specs.Prelude.{◌≡◌, ◌⊎◌, ◌∷◌, ◌++◌, [], ℕ, List, codes};
ghost use Rattle.atspi_script_lines.specs.declared.line.Line.{Line};
ghost use Rattle.atspi_tree_model.specs.declared.edit.Edit.{Edit};
ghost use Rattle.atspi_run_make.specs.Drawing.{drawn_edit};
ghost use Rattle.atspi_tree.specs.TreeShape.{root_alone};
ghost use Rattle.atspi_trace.specs.Entry.{Entry};
ghost use Rattle.atspi_trace.specs.Due.{Lawful};
ghost use Rattle.atspi_run_replay.specs.Made.{AreDrawn, StandsBehind, opening, tree_told};

use atspi_script_lines::Line;
use atspi_tree_model::Edit;

/// The application behind nothing, and no other line; the reader behind it; and a drain.
pub fn opened()
    ensures first { (seed : ℕ) (t : List Entry) → Lawful [] t → StandsBehind seed 3 [] (Line.App (codes "Made")) t }
    ensures second { (seed : ℕ) (t : List Entry) → Lawful (Line.App (codes "Made") ∷ []) t
        → StandsBehind seed 3 (Line.App (codes "Made") ∷ []) Line.Reader t }
    ensures third { (seed : ℕ) (t : List Entry) → Lawful (Line.App (codes "Made") ∷ Line.Reader ∷ []) t
        → StandsBehind seed 3 (Line.App (codes "Made") ∷ Line.Reader ∷ []) Line.Drain t }
    ensures no_other { (seed : ℕ) (line : Line) (t : List Entry) → StandsBehind seed 3 [] line t
        → line ≡ Line.App (codes "Made") }
{}

/// Of the seed 1 the first edit is that the root gets the focus. Where no edit is asked for there is none.
pub fn edited()
    ensures first { (t : List Entry) → Lawful opening t → tree_told t ≡ root_alone (codes "Made")
        → StandsBehind 1 3 opening (Line.Edit 0 (Edit.Focus 0)) t }
    ensures none { (seed app : ℕ) (edit : Edit) (lines : List Line) (t : List Entry)
        → StandsBehind seed 0 lines (Line.Edit app edit) t → ⊥ }
{}

/// 64 turns behind the sixteenth edit; no others, and none among three edits.
pub fn turns_made()
    ensures sixteenth { (seed x : ℕ) (lines : List Line) (t more : List Entry) → AreDrawn seed 15 lines t x
        → Lawful (lines ++ Line.Edit 0 (drawn_edit (tree_told t) 16 x).edit ∷ []) (t ++ more)
        → StandsBehind seed 16 (lines ++ Line.Edit 0 (drawn_edit (tree_told t) 16 x).edit ∷ []) (Line.Turns 64)
        (t ++ more) }
    ensures so_many { (seed count n : ℕ) (lines : List Line) (t : List Entry)
        → StandsBehind seed count lines (Line.Turns n) t → n ≡ 64 }
    ensures none { (seed n : ℕ) (lines : List Line) (t : List Entry) → StandsBehind seed 3 lines (Line.Turns n) t → ⊥ }
{}

/// A drain behind the last edit, or behind the opening where there is none; else only the one of the opening.
pub fn drained()
    ensures none { (seed : ℕ) (t : List Entry) → Lawful opening t → StandsBehind seed 0 opening Line.Drain t }
    ensures last { (seed : ℕ) (lines : List Line) (t : List Entry) → StandsBehind seed 3 lines Line.Drain t
        → (lines ≡ Line.App (codes "Made") ∷ Line.Reader ∷ []) ⊎ ((x : ℕ) × AreDrawn seed 3 lines t x) }
{}
