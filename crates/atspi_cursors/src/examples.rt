//! Worked cases: what is read at a cursor, and where it stands after a change, worked out by hand.

ghost use Rattle.std.specs.Prelude.{◌≡◌, ◌∷◌, [], None, Some, codes};
ghost use Rattle.atspi_cursors.specs.Moves.{after_insertion, after_deletion, with_insertion, with_deletion};
ghost use Rattle.atspi_cursors.specs.Reading.{place_read, cursor_after, IsRead};
ghost use Rattle.atspi_cursors.specs.declared.reading.Way.TheVariants.{Here, Next, Prev};

/// The texts after a change.
pub fn changes()
    ensures insertion { with_insertion (codes "now") 1 (codes "--") ≡ codes "n--ow" }
    ensures insertion_first { with_insertion (codes "now") 0 (codes "-") ≡ codes "-now" }
    ensures insertion_last { with_insertion (codes "now") 3 (codes "-") ≡ codes "now-" }
    ensures deletion { with_deletion (codes "n--ow") 1 2 ≡ codes "now" }
    ensures deletion_first { with_deletion (codes "now") 0 1 ≡ codes "ow" }
    ensures deletion_last { with_deletion (codes "now") 2 1 ≡ codes "no" }
{}

/// An insertion moves a cursor behind it, and not one at it.
pub fn insertions()
    ensures before { after_insertion 4 3 2 ≡ 6 }
    ensures at_it { after_insertion 4 4 2 ≡ 4 }
    ensures behind { after_insertion 4 5 2 ≡ 4 }
    ensures at_the_start { after_insertion 0 0 2 ≡ 0 }
    ensures not_stayed { after_insertion 4 0 3 ≡ 4 → ⊥ }
{}

/// A deletion moves a cursor behind it, and takes one inside it to its place.
pub fn deletions()
    ensures before { after_deletion 7 2 3 ≡ 4 }
    ensures up_to_it { after_deletion 5 2 3 ≡ 2 }
    ensures around { after_deletion 4 2 3 ≡ 2 }
    ensures at_it { after_deletion 2 2 3 ≡ 2 }
    ensures behind { after_deletion 1 2 3 ≡ 1 }
    ensures just_behind { after_deletion 6 2 3 ≡ 3 }
    ensures not_stayed { after_deletion 7 2 3 ≡ 7 → ⊥ }
{}

/// Here and next read the character behind the cursor, prev the one before it.
pub fn ways()
    ensures here { place_read Here 3 ≡ Some 3 }
    ensures next { place_read Next 3 ≡ Some 3 }
    ensures prev { place_read Prev 3 ≡ Some 2 }
    ensures none_before { place_read Prev 0 ≡ None }
    ensures stays { cursor_after Here 3 2 5 ≡ 3 }
    ensures to_the_end { cursor_after Next 3 2 5 ≡ 5 }
    ensures to_the_start { cursor_after Prev 3 2 5 ≡ 2 }
{}

/// What is read of `one two` at a cursor.
pub fn readings()
    ensures here { IsRead Here (codes "one" ∷ codes " " ∷ codes "two" ∷ []) 5
        (Some (record { start = 4; end = 7; cursor = 5 })) }
    ensures next { IsRead Next (codes "one" ∷ codes " " ∷ codes "two" ∷ []) 0
        (Some (record { start = 0; end = 3; cursor = 3 })) }
    ensures prev { IsRead Prev (codes "one" ∷ codes " " ∷ codes "two" ∷ []) 3
        (Some (record { start = 0; end = 3; cursor = 0 })) }
    ensures at_the_end { IsRead Next (codes "one" ∷ codes " " ∷ codes "two" ∷ []) 7 None }
    ensures at_the_start { IsRead Prev (codes "one" ∷ codes " " ∷ codes "two" ∷ []) 0 None }
    ensures not_stayed { IsRead Next (codes "one" ∷ []) 0 (Some (record { start = 0; end = 3; cursor = 0 })) → ⊥ }
    ensures not_told { IsRead Here (codes "one" ∷ []) 2 None → ⊥ }
    ensures not_the_next { IsRead Prev (codes "one" ∷ codes " " ∷ []) 3
        (Some (record { start = 3; end = 4; cursor = 3 })) → ⊥ }
{}
