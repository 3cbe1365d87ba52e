//! What a cursor keeps, whatever its text and the change of it.

ghost use Rattle.std.specs.Prelude.{◌≡◌, ◌+◌, ◌<◌, ◌≤◌, ℕ, List, length, take, drop, Option};
ghost use Rattle.atspi_cursors.specs.Moves.{after_insertion, after_deletion, with_insertion, with_deletion};
ghost use Rattle.atspi_cursors.specs.Reading.{IsRead};
ghost use Rattle.atspi_cursors.specs.declared.reading.Reading.{Reading};
ghost use Rattle.atspi_cursors.specs.declared.reading.Way.{Way};

/// An insertion before a cursor leaves what stands behind it; one at it or behind it leaves what stands before it.
pub fn stays_behind_an_insertion()
    ensures before { (text more : List ℕ) (at cursor : ℕ) → at < cursor → cursor ≤ length text
        → drop (after_insertion cursor at (length more)) (with_insertion text at more) ≡ drop cursor text }
    ensures behind { (text more : List ℕ) (at cursor : ℕ) → cursor ≤ at → at ≤ length text
        → take (after_insertion cursor at (length more)) (with_insertion text at more) ≡ take cursor text }
{}

/// A deletion before a cursor leaves what stands behind it, one behind it what stands before it; and one around it
/// brings it to where the characters were.
pub fn stays_behind_a_deletion()
    ensures before { (text : List ℕ) (at count cursor : ℕ) → at + count ≤ cursor → cursor ≤ length text
        → drop (after_deletion cursor at count) (with_deletion text at count) ≡ drop cursor text }
    ensures behind { (text : List ℕ) (at count cursor : ℕ) → cursor ≤ at → at ≤ length text
        → take (after_deletion cursor at count) (with_deletion text at count) ≡ take cursor text }
    ensures around { (text : List ℕ) (at count cursor : ℕ) → at ≤ cursor → cursor ≤ at + count → at ≤ length text
        → take (after_deletion cursor at count) (with_deletion text at count) ≡ take at text }
{}

/// A cursor inside its text stays inside it.
pub fn stays_within()
    ensures insertion { (text more : List ℕ) (at cursor : ℕ) → cursor ≤ length text
        → after_insertion cursor at (length more) ≤ length (with_insertion text at more) }
    ensures deletion { (text : List ℕ) (at count cursor : ℕ) → cursor ≤ length text → at + count ≤ length text
        → after_deletion cursor at count ≤ length (with_deletion text at count) }
{}

/// At most one reading is that of a cursor.
pub fn one_reading()
    ensures { (way : Way) (pieces : List (List ℕ)) (cursor : ℕ) (one other : Option Reading)
        → IsRead way pieces cursor one → IsRead way pieces cursor other → one ≡ other }
{}
