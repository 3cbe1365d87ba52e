//! What holds of the pieces of any text.

ghost use Rattle.std.specs.Prelude.{◌≡◌, ℕ, ◌-◌, ◌<◌, ◌≤◌, List, length, map, take, drop, encode_utf8_all, chars};
ghost use Rattle.std.specs.Prelude.{None, Some};
ghost use Rattle.std.specs.List.{concat, All};
ghost use Rattle.unicode_segmentation.specs.Word.{word_bounds};
ghost use Rattle.atspi_units.specs.Pieces.{piece_at};
ghost use Rattle.atspi_units.specs.Units.{units, IsUnitAt};
ghost use Rattle.atspi_units.specs.declared.grain.Grain.TheVariants.{Word};

use crate::Grain;

/// Joined, the pieces are the text, and none of them is empty.
pub fn pieces_are_the_text(_unit: Grain)
    ensures joined { (text : List ℕ) → concat (units _unit text) ≡ text }
    ensures some { (text : List ℕ) → All (λ piece. 0 < length piece) (units _unit text) }
{}

/// At most one piece holds a character.
pub fn one_unit()
    ensures { (pieces : List (List ℕ)) (at start end other far : ℕ) → IsUnitAt pieces at start end
        → IsUnitAt pieces at other far → (start ≡ other) × (end ≡ far) }
{}

/// The words are the pieces that the Unicode crate tells, whose clauses speak of bytes.
pub fn word_pieces()
    ensures { (bytes : List ℕ) → map encode_utf8_all (units Word (chars bytes)) ≡ word_bounds bytes }
{}

/// The piece that holds a character, as a value: its characters with its ends, and none behind the last.
pub fn piece_is_told()
    ensures held { (pieces : List (List ℕ)) (at start end : ℕ) → IsUnitAt pieces at start end → piece_at pieces at
        ≡ Some (record { characters = take (end - start) (drop start (concat pieces)); start = start; end = end }) }
    ensures none { (pieces : List (List ℕ)) (at : ℕ) → length (concat pieces) ≤ at → piece_at pieces at ≡ None }
{}
