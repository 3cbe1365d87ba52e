//! Worked cases: the pieces of texts, and the one that holds a character, worked out by hand from Unicode Standard
//! Annex 29 and from what a line is here.

ghost use Rattle.std.specs.Prelude.{◌≡◌, ◌∷◌, [], true, false, codes, None, Some};
ghost use Rattle.atspi_units.specs.Pieces.{piece_at};
ghost use Rattle.atspi_units.specs.Windows.{IsUnitWithin};
ghost use Rattle.atspi_units.specs.Units.{units, ends_line, ends_unit, line_feed, IsUnitAt};
ghost use Rattle.atspi_units.specs.declared.grain.Grain.TheVariants.{Char, Word, Line};

/// A line ends behind a line feed and where the text ends, and nowhere else; a line feed is U+000A, and a carriage
/// return or another separator ends no line.
pub fn line_ends()
    ensures feed { line_feed ≡ 10 }
    ensures behind_a_feed { ends_line (10 ∷ 97 ∷ []) (98 ∷ []) ≡ true }
    ensures before_a_feed { ends_line (97 ∷ []) (10 ∷ []) ≡ false }
    ensures behind_two { ends_line (10 ∷ 10 ∷ []) (98 ∷ []) ≡ true }
    ensures further_on { ends_line (97 ∷ 10 ∷ []) (98 ∷ []) ≡ false }
    ensures behind_a_return { ends_line (13 ∷ []) (98 ∷ []) ≡ false }
    ensures in_return_and_feed { ends_line (13 ∷ []) (10 ∷ []) ≡ false }
    ensures behind_a_separator { ends_line (8232 ∷ []) (98 ∷ []) ≡ false }
    ensures at_the_end { ends_line (97 ∷ []) [] ≡ true }
    ensures at_the_start { ends_line [] (97 ∷ []) ≡ true }
    ensures of_nothing { ends_line [] [] ≡ true }
{}

/// A character ends everywhere; a word in front of a blank and not in its middle; a line at neither.
pub fn unit_ends()
    ensures character { ends_unit Char (110 ∷ []) (111 ∷ []) ≡ true }
    ensures mark { ends_unit Char (101 ∷ []) (769 ∷ []) ≡ true }
    ensures in_a_word { ends_unit Word (110 ∷ []) (111 ∷ []) ≡ false }
    ensures before_a_blank { ends_unit Word (110 ∷ []) (32 ∷ []) ≡ true }
    ensures before_a_mark { ends_unit Word (101 ∷ []) (769 ∷ []) ≡ false }
    ensures no_line { ends_unit Line (110 ∷ []) (32 ∷ []) ≡ false }
    ensures line { ends_unit Line (10 ∷ []) (32 ∷ []) ≡ true }
{}

/// Every character is a piece, a line feed and a mark that combines too.
pub fn characters()
    ensures none { units Char [] ≡ [] }
    ensures each { units Char (codes "no") ≡ codes "n" ∷ codes "o" ∷ [] }
    ensures feed { units Char (97 ∷ 10 ∷ []) ≡ (97 ∷ []) ∷ (10 ∷ []) ∷ [] }
    ensures mark { units Char (101 ∷ 769 ∷ []) ≡ (101 ∷ []) ∷ (769 ∷ []) ∷ [] }
    ensures not_joined { units Char (codes "no") ≡ codes "no" ∷ [] → ⊥ }
{}

/// Lines take their line feed with them; an empty line is a line feed alone; a text that ends with one has no empty
/// line behind it, and a last line without one is a piece too.
pub fn lines()
    ensures none { units Line [] ≡ [] }
    ensures open { units Line (codes "now") ≡ codes "now" ∷ [] }
    ensures closed { units Line (110 ∷ 10 ∷ []) ≡ (110 ∷ 10 ∷ []) ∷ [] }
    ensures two { units Line (110 ∷ 10 ∷ 111 ∷ []) ≡ (110 ∷ 10 ∷ []) ∷ (111 ∷ []) ∷ [] }
    ensures empty { units Line (110 ∷ 10 ∷ 10 ∷ 111 ∷ []) ≡ (110 ∷ 10 ∷ []) ∷ (10 ∷ []) ∷ (111 ∷ []) ∷ [] }
    ensures empty_first { units Line (10 ∷ 110 ∷ []) ≡ (10 ∷ []) ∷ (110 ∷ []) ∷ [] }
    ensures with_return { units Line (110 ∷ 13 ∷ 10 ∷ 111 ∷ []) ≡ (110 ∷ 13 ∷ 10 ∷ []) ∷ (111 ∷ []) ∷ [] }
    ensures feed_not_first { units Line (110 ∷ 10 ∷ 111 ∷ []) ≡ (110 ∷ []) ∷ (10 ∷ 111 ∷ []) ∷ [] → ⊥ }
{}

/// Words: blanks and punctuation are pieces of their own; letters go on over an apostrophe and a mark, numbers over a
/// point; a return and a line feed are one piece.
pub fn words()
    ensures none { units Word [] ≡ [] }
    ensures two { units Word (codes "one two") ≡ codes "one" ∷ codes " " ∷ codes "two" ∷ [] }
    ensures apostrophe { units Word (codes "can't stop") ≡ codes "can't" ∷ codes " " ∷ codes "stop" ∷ [] }
    ensures point { units Word (codes "3.2, a_b.")
        ≡ codes "3.2" ∷ codes "," ∷ codes " " ∷ codes "a_b" ∷ codes "." ∷ [] }
    ensures blanks { units Word (codes "a  b") ≡ codes "a" ∷ codes "  " ∷ codes "b" ∷ [] }
    ensures mark { units Word (101 ∷ 769 ∷ 116 ∷ 32 ∷ []) ≡ (101 ∷ 769 ∷ 116 ∷ []) ∷ (32 ∷ []) ∷ [] }
    ensures return_and_feed { units Word (97 ∷ 13 ∷ 10 ∷ 98 ∷ []) ≡ (97 ∷ []) ∷ (13 ∷ 10 ∷ []) ∷ (98 ∷ []) ∷ [] }
    ensures ideographs { units Word (20013 ∷ 25991 ∷ []) ≡ (20013 ∷ []) ∷ (25991 ∷ []) ∷ [] }
    ensures flags { units Word (127479 ∷ 127482 ∷ 127480 ∷ []) ≡ (127479 ∷ 127482 ∷ []) ∷ (127480 ∷ []) ∷ [] }
    ensures not_at_the_apostrophe { units Word (codes "can't") ≡ codes "can" ∷ codes "'" ∷ codes "t" ∷ [] → ⊥ }
{}

/// A piece holds its first character and its last, and not the one behind it.
pub fn held()
    ensures first { IsUnitAt (codes "one" ∷ codes " " ∷ codes "two" ∷ []) 0 0 3 }
    ensures last { IsUnitAt (codes "one" ∷ codes " " ∷ codes "two" ∷ []) 2 0 3 }
    ensures next { IsUnitAt (codes "one" ∷ codes " " ∷ codes "two" ∷ []) 3 3 4 }
    ensures in_the_third { IsUnitAt (codes "one" ∷ codes " " ∷ codes "two" ∷ []) 5 4 7 }
    ensures not_the_one_before { IsUnitAt (codes "one" ∷ codes " " ∷ []) 3 0 3 → ⊥ }
    ensures not_two { IsUnitAt (codes "one" ∷ codes " " ∷ []) 2 0 4 → ⊥ }
    ensures not_in_part { IsUnitAt (codes "one" ∷ codes " " ∷ []) 2 1 3 → ⊥ }
    ensures not_behind_all { IsUnitAt (codes "one" ∷ codes " " ∷ []) 4 4 5 → ⊥ }
{}

/// The same piece as a value.
pub fn values()
    ensures first { piece_at (codes "one" ∷ codes " " ∷ codes "two" ∷ []) 2
        ≡ Some (record { characters = codes "one"; start = 0; end = 3 }) }
    ensures next { piece_at (codes "one" ∷ codes " " ∷ codes "two" ∷ []) 3
        ≡ Some (record { characters = codes " "; start = 3; end = 4 }) }
    ensures last { piece_at (codes "one" ∷ codes " " ∷ codes "two" ∷ []) 6
        ≡ Some (record { characters = codes "two"; start = 4; end = 7 }) }
    ensures none { piece_at (codes "one" ∷ codes " " ∷ codes "two" ∷ []) 7 ≡ None }
    ensures of_nothing { piece_at [] 0 ≡ None }
{}

/// A window tells a piece where both its ends are seen, and the ends of the text count only where the window reaches
/// them.
pub fn windows()
    ensures character { IsUnitWithin Char (codes "no") (record { start = false; end = false }) 1 1 2 }
    ensures not_the_first { IsUnitWithin Char (codes "no") (record { start = false; end = false }) 1 0 1 → ⊥ }
    ensures from_the_start { IsUnitWithin Line (97 ∷ 10 ∷ []) (record { start = true; end = false }) 0 0 2 }
    ensures not_from_inside { IsUnitWithin Line (97 ∷ 10 ∷ []) (record { start = false; end = true }) 0 0 2 → ⊥ }
    ensures up_to_the_end { IsUnitWithin Line (97 ∷ []) (record { start = true; end = true }) 0 0 1 }
    ensures not_up_to_more { IsUnitWithin Line (97 ∷ []) (record { start = true; end = false }) 0 0 1 → ⊥ }
{}
