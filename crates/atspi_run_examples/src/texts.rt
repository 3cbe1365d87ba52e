//! Lines of a script's text, and what is written of an event.

ghost use Rattle.std.specs.Prelude.{◌≡◌, ◌∷◌, ◌++◌, [], ℕ, List, codes, false, true};
ghost use Rattle.atspi_script_lines.specs.declared.line.Line.{Line};
ghost use Rattle.atspi_script_lines.specs.declared.line.Line.TheVariants as line;
ghost use Rattle.atspi_run_replay.specs.Done.{AreSpelled};
ghost use Rattle.atspi_run_replay.specs.Lines.{lines_of, lines_read, whole_lines};
ghost use Rattle.atspi_run_replay.specs.inner.Lines.{FirstLine};
ghost use Rattle.atspi_run_replay.specs.Told.{bytes_text, entry_text, told_text};
ghost use Rattle.atspi_run_examples.specs.Small.{all, brief, brief_wire, letter_told, quiet_told, wire};

/// The lines of a text end at line feeds, and the last may lack one: it counts where the text has ended, and not where
/// it was cut.
pub fn lines()
    ensures two { lines_of (codes "ab" ++ 10 ∷ codes "c") ≡ codes "ab" ∷ codes "c" ∷ [] }
    ensures empty { lines_of (97 ∷ 10 ∷ 10 ∷ []) ≡ codes "a" ∷ [] ∷ [] }
    ensures nothing { lines_of [] ≡ [] }
    ensures whole { whole_lines (codes "ab" ++ 10 ∷ codes "c") ≡ codes "ab" ∷ [] }
    ensures cut { whole_lines (codes "ab") ≡ [] }
    ensures ended { lines_read true (codes "ab") ≡ codes "ab" ∷ [] }
    ensures not_ended { lines_read false (codes "ab") ≡ [] }
    ensures first { FirstLine true (codes "ab" ++ 10 ∷ codes "c") (codes "ab") (codes "c") }
    ensures not_first { (rest : List ℕ) → FirstLine true (codes "ab" ++ 10 ∷ codes "c") (codes "a") rest → ⊥ }
{}

/// Bytes spell lines one by one, as many as there are.
pub fn spelled()
    ensures none { AreSpelled [] [] }
    ensures blank { AreSpelled ([] ∷ [] ∷ []) (line.Blank ∷ line.Blank ∷ []) }
    ensures not_blank { AreSpelled (codes "drain" ∷ []) (line.Blank ∷ []) → ⊥ }
    ensures fewer { (bytes : List ℕ) → AreSpelled (bytes ∷ []) [] → ⊥ }
    ensures more { (l : Line) → AreSpelled [] (l ∷ []) → ⊥ }
{}

/// An event's text, and its bytes where they are asked for and there are some; of an event that the brief text does not
/// keep nothing, not even its bytes.
pub fn brief_texts()
    ensures no_bytes { bytes_text [] ≡ [] }
    ensures bytes { bytes_text (108 ∷ 1 ∷ []) ≡ codes "= 6c01" ++ 10 ∷ [] }
    ensures plain { entry_text all quiet_told ≡ codes "quiet" ++ 10 ∷ [] }
    ensures kept { entry_text brief quiet_told ≡ codes "quiet" ++ 10 ∷ [] }
    ensures wired { entry_text wire letter_told ≡ codes "got bus reg 5" ++ 10 ∷ (codes "= 6c01" ++ 10 ∷ []) }
    ensures not_wired { entry_text all letter_told ≡ codes "got bus reg 5" ++ 10 ∷ [] }
    ensures not_kept { entry_text brief letter_told ≡ [] }
    ensures neither { entry_text brief_wire letter_told ≡ [] }
    ensures both { told_text brief_wire (letter_told ∷ quiet_told ∷ []) ≡ codes "quiet" ++ 10 ∷ [] }
{}
